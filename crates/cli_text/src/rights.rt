//! Asking a policy.

ghost use Rattle.std.specs.Prelude.{◌≡◌, IfOk, option_map};
ghost use Rattle.dns_names.specs.Reading.{absolute_name};
ghost use Rattle.grant_policy.specs.Decisions.{verdict_of};
ghost use Rattle.grant_policy.specs.Reading.{identifier_of, type_of};
ghost use Rattle.grant_policy.specs.Words.{action_of};
ghost use Rattle.cli_core.specs.LineFaults.{Gives, GivesOf, or_refused};
ghost use Rattle.cli_text.specs.Rights.{caller_if, question_in, question_of, verdict_line, verdict_in_form, decided_by, rights_text};

use crate::canon::read_name;
use crate::rights_object::decision_object;
use crate::task::Task;
use cli_core::{
    Input, JobFault, LineFault, QuestionWords, Refusal, Rights, TextForm, read_input,
    write_refusal, write_text,
};
use dns_data::RecordType;
use dns_master::Sink;
use dns_names::Name;
use grant_policy::{Action, Decision, Identifier, IdentifierFault, LookUps, decide, read_policy};
use std::alloc::{AllocError, Global};

/// What is asked of a policy.
#[derive(Drop)]
struct QuestionRead {
    caller: Identifier,
    name: Name,
    record_type: RecordType,
    action: Action,
}

/// The caller that a word is.
pub fn read_caller(alloc: Global, word: &str) -> Result<Identifier, LineFault>
    ensures { Gives (λ caller. caller) result (or_refused (identifier_of word.now) Refusal.NoCaller) }
{
    match Identifier::read(alloc, word.as_bytes()) {
        Ok(caller) => Ok(caller),
        Err(IdentifierFault::Malformed) => Err(LineFault::Refused(Refusal::NoCaller)),
        Err(IdentifierFault::NoMemory) => Err(LineFault::NoMemory),
    }
}

/// The caller that a word is, if one is given.
pub fn caller_if(alloc: Global, word: Option<&str>) -> Result<Option<Identifier>, LineFault>
    ensures { Gives (λ caller. caller) result (caller_if (option_map (λ w. w.now) word.entry)) }
{
    match word {
        None => Ok(None),
        Some(word) => Ok(Some(read_caller(alloc, word)?)),
    }
}

/// The type that a word is, in either letter case.
fn read_type(word: &str) -> Result<RecordType, LineFault>
    ensures { Gives (λ record_type. record_type) result (or_refused (type_of word.now) Refusal.TypeNotKept) }
{
    match RecordType::read(word.as_bytes()) {
        Ok(record_type) => Ok(record_type),
        Err(_) => Err(LineFault::Refused(Refusal::TypeNotKept)),
    }
}

/// The action that a word is.
fn read_action(word: &str) -> Result<Action, LineFault>
    ensures { Gives (λ action. action) result (or_refused (action_of word.now) Refusal.NoAction) }
{
    match Action::read(word.as_bytes()) {
        Some(action) => Ok(action),
        None => Err(LineFault::Refused(Refusal::NoAction)),
    }
}

impl QuestionRead {
    /// What words ask, or the refusal of the first that is refused: the caller, the name, the type, the action.
    fn of(alloc: Global, words: QuestionWords<'_>) -> Result<QuestionRead, LineFault>
        ensures { Gives question_in result (question_of words.entry) }
    {
        Ok(QuestionRead {
            caller: read_caller(alloc, words.caller)?,
            name: read_name(alloc, words.name)?,
            record_type: read_type(words.record_type)?,
            action: read_action(words.action)?,
        })
    }
}

/// The line that tells a decision. The only error is out of memory.
pub fn decision_text(alloc: Global, decision: Decision<'_>) -> Result<Vec<u8>, AllocError>
    ensures { IfOk result (λ text. text.items ≡ verdict_line (verdict_of decision.entry)) }
{
    let word = if decision.is_granted() {
        "granted "
    } else {
        "denied "
    };
    let mut text = Vec::from_slice(alloc, word.as_bytes())?;
    text.extend_from_slice(decision.rule())?;
    text.push(b'\n')?;
    Ok(text)
}

/// What tells a decision, as a line or as JSON. The only error is out of memory.
fn decision_in_form(
    alloc: Global,
    form: TextForm,
    decision: Decision<'_>,
) -> Result<Vec<u8>, AllocError>
    ensures { IfOk result (λ text. text.items ≡ verdict_in_form form (verdict_of decision.entry)) }
{
    match form {
        TextForm::Plain => decision_text(alloc, decision),
        TextForm::Json => decision_object(alloc, decision),
    }
}

/// What the policy of a text decides, in a form.
fn decided_by(
    alloc: Global,
    form: TextForm,
    asked: &QuestionRead,
    text: &[u8],
) -> Result<Vec<u8>, LineFault>
    ensures { Gives (λ line. line.items) result (decided_by form (question_in asked.now) text.now) }
{
    let policy = read_policy(alloc, text)?;
    let decision = decide(
        &policy,
        &asked.caller,
        &asked.name,
        asked.record_type,
        asked.action,
        &mut LookUps::new(),
    );
    Ok(decision_in_form(alloc, form, decision)?)
}

/// What a policy that a reader gives decides on what words ask, in their form.
fn answer<R: Input>(alloc: Global, words: Rights<'_>, policy: &mut R) -> Result<Vec<u8>, LineFault>
    ensures { GivesOf (λ line. line.items) (R.left policy.old) (rights_text words.entry.form words.entry.asked) result (R.fine policy.old policy.new)
        (R.failed policy.old policy.new) }
{
    let asked = QuestionRead::of(alloc, words.asked)?;
    let text = read_input(alloc, policy)?;
    decided_by(alloc, words.form, &asked, &text)
}

/// The task `rights`: to read a policy, and to write `granted` or `denied` and the rule that decided, or `closing` where none did; or
/// both as an object of JSON. Otherwise one line tells the refusal that comes first: of the caller, the name, the type, the action, that
/// the policy is too large, of the policy.
impl Task for Rights<'_> {
    ghost answer = { λ w. rights_text w.form w.asked };

    fn run<R: Input, W: Sink>(
        self,
        alloc: Global,
        reader: &mut R,
        writer: &mut W,
    ) -> Result<(), JobFault> {
        match answer(alloc, self, reader) {
            Ok(line) => {
                write_text(writer, &line)?;
                Ok(())
            }
            Err(fault) => Err(write_refusal(alloc, writer, fault)),
        }
    }
}
