//! The expectations of a text.

ghost use Rattle.std.specs.Prelude.{◌≡◌, ◌<◌, List, Ok, map, IfOk};
ghost use Rattle.std.specs.List.{AllByRecursion};
ghost use Rattle.dns_names.specs.Reading.{absolute_name};
ghost use Rattle.grant_policy.specs.Reading.{identifier_of, type_of};
ghost use Rattle.grant_policy.specs.Words.{action_of};
ghost use Rattle.policy_tools.specs.declared.expectation_lines.ExpectationLine.{ExpectationLine as RowOf};
ghost use Rattle.policy_tools.specs.declared.expectation_fault.ExpectationFault.TheVariants.{Form, NoCaller, TypeNotKept, NoAction, NoRule};
ghost use Rattle.policy_tools.specs.ExpectationFaults.{Reads, ReadsText, or_fault, of_names};
ghost use Rattle.policy_tools.specs.ExpectationLines.{AreExpectations, lines_of, place_word};
ghost use Rattle.policy_tools.specs.ExpectationReading.{words_of, words_among, parts_of, rule_in, decision_in, listable_of, callers_in, is_nobody, listed_in, one_in, place_of, limit_by, limit_of, limit_in, expectation_in, row_of, expectations_from, expectations_of};

use crate::caller_list::CallerList;
use crate::expectation::{Expectation, ExpectedDecision, Limit};
use crate::expectation_fault::{ExpectationFault, ExpectationsFault};
use crate::line_words::{is_blank, is_comment, lines_of};
use dns_data::RecordType;
use dns_names::Name;
use grant_policy::{Action, Actions, Effect, Identifier, IdentifierFault, Scope, Types};
use std::alloc::{AllocError, Global};

/// An expectation, and where it stands.
#[derive(Drop)]
pub struct ExpectationLine {
    /// The line, from 1.
    pub line: usize,
    pub expectation: Expectation,
}

/// The parts of a line, between its blanks. The only error is out of memory.
fn parts_of(alloc: Global, line: &[u8]) -> Result<Vec<&[u8]>, AllocError>
    ensures { IfOk result (λ parts. map (λ part. part.now) parts.items ≡ parts_of line.now) }
{
    line.split(|octet| is_blank(*octet)).collect(alloc)
}

/// The words among parts, up to a comment. The only error is out of memory.
fn words_among<'a>(alloc: Global, parts: &[&'a [u8]]) -> Result<Vec<&'a [u8]>, AllocError>
    ensures { IfOk result (λ words. map (λ word. word.now) words.items ≡ words_among (map (λ part. part.now) parts.now)) }
{
    let mut words = Vec::new(alloc);
    for part in parts {
        if is_comment(part) {
            return Ok(words);
        }
        if !part.is_empty() {
            words.push(*part)?;
        }
    }
    Ok(words)
}

/// The words of a line. The only error is out of memory.
fn words_of(alloc: Global, line: &[u8]) -> Result<Vec<&[u8]>, AllocError>
    ensures { IfOk result (λ words. map (λ word. word.now) words.items ≡ words_of line.now) }
{
    let parts = parts_of(alloc, line)?;
    words_among(alloc, &parts)
}

/// The caller that a word is.
fn read_caller(alloc: Global, word: &[u8]) -> Result<Identifier, ExpectationFault>
    ensures { Reads (λ caller. caller) result (or_fault (identifier_of word.now) NoCaller) }
{
    match Identifier::read(alloc, word) {
        Ok(caller) => Ok(caller),
        Err(IdentifierFault::Malformed) => Err(ExpectationFault::NoCaller),
        Err(IdentifierFault::NoMemory) => Err(ExpectationFault::NoMemory),
    }
}

/// The rule that a word is.
fn read_rule_id(alloc: Global, word: &[u8]) -> Result<Identifier, ExpectationFault>
    ensures { Reads (λ id. id) result (or_fault (identifier_of word.now) NoRule) }
{
    match Identifier::read(alloc, word) {
        Ok(id) => Ok(id),
        Err(IdentifierFault::Malformed) => Err(ExpectationFault::NoRule),
        Err(IdentifierFault::NoMemory) => Err(ExpectationFault::NoMemory),
    }
}

/// The absolute name that a word is.
fn read_name(alloc: Global, word: &[u8]) -> Result<Name, ExpectationFault>
    ensures { Reads (λ name. name) result (of_names (absolute_name word.now)) }
{
    Ok(Name::read_absolute(alloc, word)?)
}

/// The type that a word is, in either letter case.
fn read_type(word: &[u8]) -> Result<RecordType, ExpectationFault>
    ensures { Reads (λ record_type. record_type) result (or_fault (type_of word.now) TypeNotKept) }
{
    match RecordType::read(word) {
        Ok(record_type) => Ok(record_type),
        Err(_) => Err(ExpectationFault::TypeNotKept),
    }
}

/// The action that a word is.
fn read_action(word: &[u8]) -> Result<Action, ExpectationFault>
    ensures { Reads (λ action. action) result (or_fault (action_of word.now) NoAction) }
{
    match Action::read(word) {
        Some(action) => Ok(action),
        None => Err(ExpectationFault::NoAction),
    }
}

/// `by` and a rule, or nothing.
fn read_rule(alloc: Global, words: &[&[u8]]) -> Result<Option<Identifier>, ExpectationFault>
    ensures { Reads (λ rule. rule) result (rule_in (map (λ word. word.now) words.now)) }
{
    match words {
        [] => Ok(None),
        [by, rule] if *by == b"by".as_slice() => Ok(Some(read_rule_id(alloc, rule)?)),
        _ => Err(ExpectationFault::Form),
    }
}

/// A caller, a name, a type, an action, and maybe a rule.
fn read_decision(
    alloc: Global,
    effect: Effect,
    words: &[&[u8]],
) -> Result<ExpectedDecision, ExpectationFault>
    ensures { Reads (λ expected. expected) result (decision_in effect (map (λ word. word.now) words.now)) }
{
    let [caller, name, record_type, action, rule @ ..] = words else {
        return Err(ExpectationFault::Form);
    };
    Ok(ExpectedDecision {
        effect,
        caller: read_caller(alloc, caller)?,
        name: read_name(alloc, name)?,
        record_type: read_type(record_type)?,
        action: read_action(action)?,
        rule: read_rule(alloc, rule)?,
    })
}

/// A caller of a list, which is not `nobody`.
fn read_listed(alloc: Global, word: &[u8]) -> Result<Identifier, ExpectationFault>
    ensures { Reads (λ caller. caller) result (or_fault (listable_of word.now) NoCaller) }
{
    if word == b"nobody".as_slice() {
        return Err(ExpectationFault::NoCaller);
    }
    read_caller(alloc, word)
}

/// The callers of a list.
fn read_callers(alloc: Global, words: &[&[u8]]) -> Result<Vec<Identifier>, ExpectationFault>
    ensures { Reads (λ callers. callers.items) result (callers_in (map (λ word. word.now) words.now)) }
{
    let mut callers = Vec::new(alloc);
    for word in words {
        callers.push(read_listed(alloc, word)?)?;
    }
    Ok(callers)
}

/// Whether words are `nobody`, and no more.
fn is_nobody(words: &[&[u8]]) -> bool
    ensures { result ≡ is_nobody (map (λ word. word.now) words.now) }
{
    match words {
        [word] => *word == b"nobody".as_slice(),
        _ => false,
    }
}

/// One caller or more, or `nobody`.
fn read_list(alloc: Global, words: &[&[u8]]) -> Result<CallerList, ExpectationFault>
    ensures { Reads (λ callers. callers) result (listed_in (map (λ word. word.now) words.now)) }
{
    if words.is_empty() {
        return Err(ExpectationFault::Form);
    }
    if is_nobody(words) {
        return Ok(CallerList::of(Vec::new(alloc)));
    }
    Ok(CallerList::of(read_callers(alloc, words)?))
}

/// `*`, or an action.
fn read_actions(alloc: Global, word: &[u8]) -> Result<Actions, ExpectationFault>
    ensures { Reads (λ actions. actions) result (one_in action_of NoAction word.now) }
{
    if word == b"*".as_slice() {
        return Ok(Actions::every());
    }
    let action = read_action(word)?;
    Ok(Actions::of(vec![in alloc; action]?))
}

/// `*`, or a type.
fn read_types(alloc: Global, word: &[u8]) -> Result<Types, ExpectationFault>
    ensures { Reads (λ types. types) result (one_in type_of TypeNotKept word.now) }
{
    if word == b"*".as_slice() {
        return Ok(Types::every());
    }
    let record_type = read_type(word)?;
    Ok(Types::of(vec![in alloc; record_type]?))
}

/// The word for names: `at` one alone, `within` it, or `below` it.
const fn place_word(scope: Scope) -> &'static str
    ensures { result.now ≡ place_word scope }
{
    match scope {
        Scope::Name => "at",
        Scope::Subtree => "within",
        Scope::Below => "below",
    }
}

/// Which names a word is for.
fn place_of(word: &[u8]) -> Option<Scope>
    ensures { result ≡ place_of word.now }
{
    Scope::ALL
        .iter()
        .copied()
        .find(|scope| place_word(*scope).as_bytes() == word)
}

/// The place that a word is.
fn read_place(word: &[u8]) -> Result<Scope, ExpectationFault>
    ensures { Reads (λ scope. scope) result (or_fault (place_of word.now) Form) }
{
    match place_of(word) {
        Some(scope) => Ok(scope),
        None => Err(ExpectationFault::Form),
    }
}

/// The words of a limit.
#[derive(Clone, Copy)]
struct LimitWords<'a> {
    callers: &'a [&'a [u8]],
    action: &'a [u8],
    record_type: &'a [u8],
    place: &'a [u8],
    name: &'a [u8],
}

/// Callers, an action, a type, a place and a name.
fn read_limit_by(alloc: Global, words: LimitWords<'_>) -> Result<Limit, ExpectationFault>
    ensures { Reads (λ limit. limit) result
        (limit_by (map (λ word. word.now) words.entry.callers.now) words.entry.action.now words.entry.record_type.now words.entry.place.now words.entry.name.now) }
{
    Ok(Limit {
        callers: read_list(alloc, words.callers)?,
        actions: read_actions(alloc, words.action)?,
        types: read_types(alloc, words.record_type)?,
        scope: read_place(words.place)?,
        at: read_name(alloc, words.name)?,
    })
}

/// Callers and, after `may`, the others.
fn read_limit_of(
    alloc: Global,
    callers: &[&[u8]],
    words: &[&[u8]],
) -> Result<Limit, ExpectationFault>
    ensures { Reads (λ limit. limit) result (limit_of (map (λ word. word.now) callers.now) (map (λ word. word.now) words.now)) }
{
    match words {
        [may, action, record_type, place, name] if *may == b"may".as_slice() => {
            let words = LimitWords {
                callers,
                action,
                record_type,
                place,
                name,
            };
            read_limit_by(alloc, words)
        }
        _ => Err(ExpectationFault::Form),
    }
}

/// Callers, and the five words at the end.
fn read_limit(alloc: Global, words: &[&[u8]]) -> Result<Limit, ExpectationFault>
    ensures { Reads (λ limit. limit) result (limit_in (map (λ word. word.now) words.now)) }
{
    let (callers, rest) = words.split_at(words.len().saturating_sub(5));
    read_limit_of(alloc, callers, rest)
}

/// What words expect, if there are any.
fn read_words(alloc: Global, words: &[&[u8]]) -> Result<Option<Expectation>, ExpectationFault>
    ensures { Reads (λ expectation. expectation) result (expectation_in (map (λ word. word.now) words.now)) }
{
    let [word, fields @ ..] = words else {
        return Ok(None);
    };
    if *word == b"granted".as_slice() {
        return Ok(Some(Expectation::Decides(read_decision(alloc, Effect::Grant, fields)?)));
    }
    if *word == b"denied".as_slice() {
        return Ok(Some(Expectation::Decides(read_decision(alloc, Effect::Deny, fields)?)));
    }
    if *word == b"only".as_slice() {
        return Ok(Some(Expectation::Keeps(read_limit(alloc, fields)?)));
    }
    Err(ExpectationFault::Form)
}

/// What a line expects, or the refusal that comes first.
fn expectation_of(alloc: Global, line: &[u8]) -> Result<Option<Expectation>, ExpectationFault>
    ensures { Reads (λ expectation. expectation) result (expectation_in (words_of line.now)) }
{
    let words = words_of(alloc, line)?;
    read_words(alloc, &words)
}

/// The row of a line that has this number, if it expects something.
fn row_of(
    alloc: Global,
    line: usize,
    text: &[u8],
) -> Result<Option<ExpectationLine>, ExpectationsFault>
    ensures { ReadsText (λ row. row) result (row_of line (expectation_in (words_of text.now))) }
{
    match expectation_of(alloc, text) {
        Ok(Some(expectation)) => Ok(Some(ExpectationLine { line, expectation })),
        Ok(None) => Ok(None),
        Err(fault) => Err(ExpectationsFault { line, fault }),
    }
}

/// The expectations of lines.
fn rows_of(alloc: Global, lines: &[&[u8]]) -> Result<Vec<ExpectationLine>, ExpectationsFault>
    ensures { ReadsText (λ rows. rows.items) result (expectations_from 1 (map (λ line. line.now) lines.now)) }
{
    let mut rows = Vec::new(alloc);
    for (i, line) in lines.iter().enumerate() {
        if let Some(row) = row_of(alloc, i + 1, line)? {
            rows.push(row)?;
        }
    }
    Ok(rows)
}

/// The expectations of a text, or the refusal that comes first.
fn expectations_of(alloc: Global, text: &[u8]) -> Result<Vec<ExpectationLine>, ExpectationsFault>
    ensures { ReadsText (λ rows. rows.items) result (expectations_of text.now) }
{
    let lines = lines_of(alloc, text)?;
    rows_of(alloc, &lines)
}

/// A text has octets. Only proofs need it.
fn reveal_octets(text: &[u8])
    ensures { AllByRecursion (λ o. o < 256) text.now }
{
    let _ = text;
}

/// Reads what a text expects of a policy, in order. Each line is one of these, or has no words:
///
/// ```text
/// granted CALLER NAME TYPE ACTION [by RULE]
/// denied CALLER NAME TYPE ACTION [by RULE]
/// only CALLER.. may ACTION TYPE at NAME
/// ```
///
/// Words have blanks between them: spaces, tabs and carriage returns. One that begins with `#` or `;` begins a comment, up to the line's
/// end. Words and actions are read as they are written here, types in either letter case; names are absolute. RULE may be `closing`. Of
/// `only`, `nobody` may stand in place of the callers, and `*` for every action or every type; `at` is the name alone, `within` it and
/// all below it, and `below` all below it.
///
/// Of several refusals that of the first line comes. In a line `Form` comes first if there are too few words, or no `may` before the
/// last four words of `only`; else the refusal of the first word that is wrong. `NoMemory` comes at the growth that was refused.
pub fn read_expectations(
    alloc: Global,
    text: &[u8],
) -> Result<Vec<ExpectationLine>, ExpectationsFault>
    // What is read is spelled so: each line has no words, or those of the next expectation.
    ensures found { IfOk result (λ rows. AreExpectations 1 (lines_of text.now) rows.items) }
    // What is spelled so is read, unless memory runs out.
    ensures only { (rows : List RowOf) → AreExpectations 1 (lines_of text.now) rows → ReadsText (λ read. read.items) result (Ok rows) }
    // Which refusal it is.
    ensures exact { ReadsText (λ rows. rows.items) result (expectations_of text.now) }
{
    reveal_octets(text);
    expectations_of(alloc, text)
}
