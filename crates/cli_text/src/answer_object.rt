//! What a server answers, as an object of JSON.

ghost use Rattle.std.specs.Prelude.{◌≡◌, ◌++◌, ◌∷◌, [], OnOk};
ghost use Rattle.dns_names.specs.Spelling.{name_text};
ghost use Rattle.wire_json.specs.Json.{quoted};
ghost use Rattle.wire_json.specs.Replies.{lines_value};
ghost use Rattle.zone_answers.specs.Views.{answer_of};
ghost use Rattle.cli_text.specs.QuestionViews.{question_view};
ghost use Rattle.cli_text.specs.AnswerObjects.{answer_object, authority_key, sections_text, question_members};

use crate::questions::Question;
use dns_data::Record;
use dns_names::Name;
use std::alloc::{AllocError, Global};
use wire_json::{push_lines, push_name, push_quoted};
use zone_answers::Answer;

/// Appends a text, and after it records as an array of lines. The only error is out of memory.
pub fn push_section(
    text: &mut Vec<u8>,
    line: &mut String,
    key: &str,
    records: &[Record],
) -> Result<(), AllocError>
    ensures { OnOk result (text.new.items ≡ text.old.items ++ (key.now ++ lines_value records.now)) }
{
    text.extend_from_slice(key.as_bytes())?;
    push_lines(text, line, records)
}

/// Appends a text, and after it a string. The only error is out of memory.
pub fn push_string(text: &mut Vec<u8>, key: &str, value: &[u8]) -> Result<(), AllocError>
    ensures { OnOk result (text.new.items ≡ text.old.items ++ (key.now ++ quoted value.now)) }
{
    text.extend_from_slice(key.as_bytes())?;
    push_quoted(text, value)
}

/// Appends a text, and after it a name as a string. The only error is out of memory.
pub fn push_owner(
    text: &mut Vec<u8>,
    line: &mut String,
    key: &str,
    name: &Name,
) -> Result<(), AllocError>
    ensures { OnOk result (text.new.items ≡ text.old.items ++ (key.now ++ quoted (name_text name.now))) }
{
    text.extend_from_slice(key.as_bytes())?;
    push_name(text, line, name)
}

/// What stands before the records of the authority section: whether the server has authority, and the key.
const fn authority_key(authoritative: bool) -> &'static str
    ensures { result.now ≡ authority_key authoritative }
{
    if authoritative {
        r#","authoritative":true,"authority":"#
    } else {
        r#","authoritative":false,"authority":"#
    }
}

/// Appends the members that have records, and the brace before them. The only error is out of memory.
fn push_sections(text: &mut Vec<u8>, line: &mut String, answer: &Answer) -> Result<(), AllocError>
    ensures { OnOk result (text.new.items ≡ text.old.items ++ sections_text (answer_of answer.now)) }
{
    push_section(text, line, r#"{"additional":"#, &answer.additional)?;
    push_section(text, line, r#","answer":"#, &answer.answer)?;
    push_section(
        text,
        line,
        authority_key(answer.authoritative),
        &answer.authority,
    )
}

/// Appends the members of the code and of the question, and the brace after them. The only error is out of memory.
fn push_members(
    text: &mut Vec<u8>,
    line: &mut String,
    question: &Question,
    code: &str,
) -> Result<(), AllocError>
    ensures { OnOk result (text.new.items ≡ text.old.items ++ question_members (question_view question.now) code.now) }
{
    push_string(text, r#","code":"#, code.as_bytes())?;
    push_owner(text, line, r#","name":"#, &question.name)?;
    push_string(text, r#","type":"#, &question.word)?;
    text.push(b'}')?;
    Ok(())
}

/// Appends an answer to a question as an object of JSON (RFC 8259), and a line end. The only error is out of memory.
pub(crate) fn push_object(
    alloc: Global,
    text: &mut Vec<u8>,
    question: &Question,
    answer: &Answer,
) -> Result<(), AllocError>
    ensures { OnOk result (text.new.items ≡ text.old.items ++ (answer_object (question_view question.now) (answer_of answer.now) ++ 10 ∷ [])) }
{
    let mut line = String::new(alloc);
    push_sections(text, &mut line, answer)?;
    push_members(text, &mut line, question, answer.code.text())?;
    text.push(b'\n')?;
    Ok(())
}
