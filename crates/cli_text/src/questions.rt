//! The questions that words and lines ask about a zone.

ghost use Rattle.std.specs.Prelude.{◌≡◌, ◌==◌, ◌++◌, ◌∷◌, [], IfOk, OnOk, map, option_map};
ghost use Rattle.std.specs.List.{prefix_len};
ghost use Rattle.dns_names.specs.Reading.{absolute_name};
ghost use Rattle.dns_data.specs.Items.{item_of};
ghost use Rattle.dns_master.specs.Tokens.{token_of};
ghost use Rattle.update_lines.specs.Views.{entry_of, gathered};
ghost use Rattle.cli_core.specs.LineFaults.{Gives, or_refused};
ghost use Rattle.cli_core.specs.declared.refusal.Refusal.TheVariants as refusal;
ghost use Rattle.cli_core.specs.declared.word_fault.WordFault.TheVariants as word;
ghost use Rattle.cli_text.specs.QuestionViews.{question_view, inquiry_view};
ghost use Rattle.cli_text.specs.Questions.{unquoted, name_on, query_type_of, question, type_word, inquiry_of, typed_question, question_of, questions_in, questions_of, inquiry_in};

use crate::canon::read_name;
use crate::query_type::query_type_of;
use cli_core::{Answer, LineFault, Refusal, TextForm, WordFault};
use dns_data::{Item, RecordType};
use dns_master::{Token, tokens};
use dns_names::{Name, NameFault};
use std::alloc::{AllocError, Global};
use update_lines::entry_items;
use zone_answers::QueryType;

/// The type of a question without one.
const ADDRESS: &str = "A";

/// A question about a zone.
#[derive(Drop)]
pub(crate) struct Question {
    /// The name that is asked for.
    pub(crate) name: Name,
    /// The type as it is written.
    pub(crate) word: Vec<u8>,
    /// What that asks for.
    pub(crate) asked: QueryType,
}

/// A zone's origin, and questions about it.
#[derive(Drop)]
pub(crate) struct Inquiry {
    pub(crate) origin: Name,
    /// As what the answers are printed.
    pub(crate) form: TextForm,
    pub(crate) questions: Vec<Question>,
}

/// A fault of a line.
fn on_line(line: usize, fault: WordFault) -> LineFault
    ensures { result ≡ LineFault.Refused (refusal.Line line fault) }
{
    LineFault::Refused(Refusal::Line { line, fault })
}

/// The octets of an item that is not quoted.
fn unquoted<'a>(line: usize, fault: WordFault, item: Item<'a>) -> Result<&'a [u8], LineFault>
    ensures { Gives (λ raw. raw.now) result (unquoted line fault (item_of item.entry)) }
{
    if item.quoted {
        return Err(on_line(line, fault));
    }
    Ok(item.raw)
}

/// The absolute name that a word of a line is, which is counted from 1; or the refusal of that line.
pub fn name_on(alloc: Global, line: usize, raw: &[u8]) -> Result<Name, LineFault>
    ensures { Gives (λ name. name) result (name_on line (absolute_name raw.now)) }
{
    match Name::read_absolute(alloc, raw) {
        Ok(name) => Ok(name),
        Err(NameFault::NoMemory) => Err(LineFault::NoMemory),
        Err(fault) => Err(on_line(line, WordFault::Name(fault))),
    }
}

/// The type that a word asks for, or a refusal.
fn type_or(word: &[u8], refusal: Refusal) -> Result<QueryType, LineFault>
    ensures { Gives (λ asked. asked) result (or_refused (query_type_of word.now) refusal) }
{
    match query_type_of(word) {
        Some(asked) => Ok(asked),
        None => Err(LineFault::Refused(refusal)),
    }
}

/// A question of a name. The only error is out of memory.
fn make_question(
    alloc: Global,
    name: Name,
    word: &[u8],
    asked: QueryType,
) -> Result<Question, AllocError>
    ensures { IfOk result (λ q. question_view q ≡ question name word.now asked) }
{
    let word = Vec::from_slice(alloc, word)?;
    Ok(Question { name, word, asked })
}

/// The question of a name and the items of its type.
fn typed_question(
    alloc: Global,
    line: usize,
    name: Name,
    kinds: &[Item],
) -> Result<Question, LineFault>
    ensures { Gives question_view result (typed_question line name (map item_of kinds.now)) }
{
    match kinds {
        [] => {
            let asked = QueryType::Kept(RecordType::A);
            Ok(make_question(alloc, name, ADDRESS.as_bytes(), asked)?)
        }
        [kind] => {
            let raw = unquoted(line, WordFault::Type, *kind)?;
            let fault = WordFault::Type;
            let asked = type_or(raw, Refusal::Line { line, fault })?;
            Ok(make_question(alloc, name, raw, asked)?)
        }
        _ => Err(on_line(line, WordFault::Question)),
    }
}

/// The question of the items of a line: a name, and a type or none.
fn question_of(alloc: Global, line: usize, items: &[Item]) -> Result<Question, LineFault>
    ensures { Gives question_view result (question_of line (map item_of items.now)) }
{
    match items {
        [] => Err(on_line(line, WordFault::Question)),
        [owner, kinds @ ..] => {
            let raw = unquoted(line, WordFault::Question, *owner)?;
            let name = name_on(alloc, line, raw)?;
            typed_question(alloc, line, name, kinds)
        }
    }
}

/// The question that the tokens of an entry are, the first of which is on this line.
fn read_entry(alloc: Global, line: usize, tokens: &[Token]) -> Result<Question, LineFault>
    ensures { Gives question_view result (question_of line (entry_of tokens.now)) }
{
    let items = entry_items(alloc, tokens)?;
    question_of(alloc, line, &items)
}

/// How many tokens there are before the first of another entry.
fn entry_len(tokens: &[Token], entry: usize) -> usize
    ensures { result ≡ prefix_len (λ t. t.entry == entry) tokens.now }
{
    tokens
        .iter()
        .take_while(|token| token.entry == entry)
        .count()
}

/// Appends a question. The only error is out of memory.
fn push_question(questions: &mut Vec<Question>, question: Question) -> Result<(), AllocError>
    ensures { OnOk result (questions.new.items ≡ questions.old.items ++ question ∷ []) }
{
    questions.push(question)?;
    Ok(())
}

/// The questions of all entries, or the refusal of the first that is not one.
fn questions_in(alloc: Global, tokens: &[Token]) -> Result<Vec<Question>, LineFault>
    ensures { Gives (λ qs. map question_view qs.items) result (questions_in (gathered (map token_of tokens.now))) }
{
    let mut questions = Vec::new(alloc);
    let mut at = 0;
    while at < tokens.len() {
        let Token { line, entry, .. } = tokens[at];
        let (_, rest) = tokens.split_at(at);
        let len = entry_len(rest, entry);
        let question = read_entry(alloc, line, &rest[..len])?;
        push_question(&mut questions, question)?;
        at += len;
    }
    Ok(questions)
}

/// The questions of a text.
fn questions_of(alloc: Global, text: &[u8]) -> Result<Vec<Question>, LineFault>
    ensures { Gives (λ qs. map question_view qs.items) result (questions_of text.now) }
{
    let tokens = tokens(alloc, text)?;
    questions_in(alloc, &tokens)
}

/// Questions of a text about the zone of an origin: an entry of a master file (RFC 1035 section 5.1) for each, which has a name, and a
/// type or none.
pub(crate) fn inquiry_in(
    alloc: Global,
    origin: Name,
    form: TextForm,
    text: &[u8],
) -> Result<Inquiry, LineFault>
    ensures { Gives inquiry_view result (inquiry_in form origin text.now) }
{
    let questions = questions_of(alloc, text)?;
    Ok(Inquiry {
        origin,
        form,
        questions,
    })
}

/// The type that is asked for: as it is given, or that of addresses.
fn type_word(asked: Option<&str>) -> &str
    ensures { result.now ≡ type_word (option_map (λ t. t.now) asked.entry) }
{
    match asked {
        Some(word) => word,
        None => ADDRESS,
    }
}

/// The question of words about the zone of an origin: of a name, and a type or none.
pub(crate) fn inquiry_of(alloc: Global, words: Answer<'_>) -> Result<Inquiry, LineFault>
    ensures { Gives inquiry_view result (inquiry_of words.entry.form words.entry.origin.now words.entry.name.now (option_map (λ t. t.now) words.entry.asked)) }
{
    let origin = read_name(alloc, words.origin)?;
    let name = read_name(alloc, words.name)?;
    let word = type_word(words.asked).as_bytes();
    let asked = type_or(word, Refusal::TypeNotKept)?;
    let mut questions = Vec::new(alloc);
    push_question(&mut questions, make_question(alloc, name, word, asked)?)?;
    Ok(Inquiry {
        origin,
        form: words.form,
        questions,
    })
}
