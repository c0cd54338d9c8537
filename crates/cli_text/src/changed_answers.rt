//! The questions that a server answers otherwise from another zone, as text.

ghost use Rattle.std.specs.Prelude.{◌≡◌, ◌++◌, IfOk, OnOk, string_bytes};
ghost use Rattle.std.specs.List.{flat_map};
ghost use Rattle.cli_text.specs.ChangedAnswerLines.{query_type_text, type_word, types_text, questions_line, changed_line, AreAnswerLines};

use dns_names::Name;
use std::alloc::{AllocError, Global};
use std::fmt::Write as _;
use zone_answers::{ChangedAnswers, QueryType, QuestionGroup, ZoneIndex, changed_answers};
use zone_core::Zone;

/// The word of a type of questions.
fn query_type_text(asked: QueryType) -> &'static str
    ensures { result.now ≡ query_type_text asked }
{
    match asked {
        QueryType::Kept(kept) => kept.text(),
        QueryType::Any => "ANY",
        QueryType::Other => "other",
    }
}

/// Appends a blank and a type of questions. The only error is out of memory.
fn push_type(text: &mut String, asked: QueryType) -> Result<(), AllocError>
    ensures { OnOk result (string_bytes text.new ≡ string_bytes text.old ++ type_word asked) }
{
    text.push_str(" ")?;
    text.push_str(query_type_text(asked))
}

/// Appends types of questions, a blank before each. The only error is out of memory.
fn push_each(text: &mut String, types: &[QueryType]) -> Result<(), AllocError>
    ensures { OnOk result (string_bytes text.new ≡ string_bytes text.old ++ flat_map type_word types.now) }
{
    for asked in types {
        push_type(text, *asked)?;
    }
    Ok(())
}

/// Appends types of questions, or `*` for all. The only error is out of memory.
fn push_types(text: &mut String, types: &[QueryType]) -> Result<(), AllocError>
    ensures { OnOk result (string_bytes text.new ≡ string_bytes text.old ++ types_text types.now) }
{
    if types.len() == QueryType::ALL.len() {
        return text.push_str(" *");
    }
    push_each(text, types)
}

/// Appends a line: a word that says which names, the name that they are at or below, and the types of questions. The only error is out of
/// memory.
pub fn push_questions(
    text: &mut String,
    word: &str,
    name: &Name,
    types: &[QueryType],
) -> Result<(), AllocError>
    ensures { OnOk result (string_bytes text.new ≡ string_bytes text.old ++ questions_line word.now name.now types.now) }
{
    write!(text, "{word} {name}")?;
    push_types(text, types)?;
    text.push_str("\n")
}

/// Appends the line of a row. The only error is out of memory.
fn push_row(text: &mut String, row: &ChangedAnswers) -> Result<(), AllocError>
    ensures { OnOk result (string_bytes text.new ≡ string_bytes text.old ++ changed_line row.now) }
{
    match &row.group {
        QuestionGroup::At(name) => push_questions(text, "at", name, &row.types),
        QuestionGroup::Others(encloser) => push_questions(text, "below", encloser, &row.types),
    }
}

/// The lines of rows. The only error is out of memory.
fn rows_text(alloc: Global, rows: &[ChangedAnswers]) -> Result<String, AllocError>
    ensures { IfOk result (λ text. string_bytes text ≡ flat_map changed_line rows.now) }
{
    let mut text = String::new(alloc);
    for row in rows {
        push_row(&mut text, row)?;
    }
    Ok(text)
}

/// A line for each group of names for which a server answers questions otherwise from the new zone than from the old one, of the same
/// origin: `at` and a name, or `below` and a name for those below it that neither zone has, to which no alias leads, and that have no
/// closer name above them that a zone has; and the types of the questions, or `*` for all. The only error is out of memory.
pub fn answer_lines(alloc: Global, old: Zone, new: Zone) -> Result<String, AllocError>
    requires { new.origin ≡ old.origin }
    ensures { IfOk result (λ text. AreAnswerLines old new (string_bytes text)) }
{
    let before = ZoneIndex::new(alloc, old)?;
    let after = ZoneIndex::new(alloc, new)?;
    let rows = changed_answers(alloc, &before, &after)?;
    rows_text(alloc, &rows)
}
