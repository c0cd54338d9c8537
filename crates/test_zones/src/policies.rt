mod beside;
mod idle;
mod rules;

use crate::policies::beside::{beside, hidden};
use crate::policies::idle::idle;
use crate::refusal::Refusal;
use dns_data::RecordType;
use dns_names::Name;
use grant_policy::{
    Action, Effect, Identifier, LookUps, Policy, PolicyFault, Scope, covers, decide, has_any_right,
    read_policy,
};
use std::alloc::{AllocError, Global};
use test_rows::{Answers, Row, number, word};

/// Answers to rows of policies, with the policy that is kept.
#[derive(Drop)]
pub struct Policies {
    kept: Option<Policy>,
}

impl Policies {
    /// Answers, with no policy kept.
    pub fn new() -> Policies {
        Policies { kept: None }
    }

    fn answer_to(&mut self, alloc: Global, row: &Row<'_>) -> Result<String, Refusal> {
        let (first, rest) = row.split();
        match row.verb {
            "policy" | "many" | "build" => self.keep(alloc, row),
            "decide" | "rights" | "idle" | "slice" | "stray" | "unspoken" | "hidden" => {
                self.ask(alloc, row)
            }
            "covers" => covering(alloc, first, rest),
            "identifier" => identifier(alloc, &row.text),
            "identifiers" => identifiers(alloc, first, rest),
            "effect" | "scope" | "action" => told(alloc, word_text(row.verb, &row.text)),
            "no-memory" => Err(Refusal::Policy(PolicyFault::NoMemory)),
            _ => told(alloc, "no such verb"),
        }
    }

    /// Keeps the policy of a row, or none where it is refused.
    fn keep(&mut self, alloc: Global, row: &Row<'_>) -> Result<String, Refusal> {
        self.kept = None;
        self.kept = Some(policy_of(alloc, row)?);
        told(alloc, "read")
    }

    /// What a row asks of the policy that is kept.
    fn ask(&self, alloc: Global, row: &Row<'_>) -> Result<String, Refusal> {
        match &self.kept {
            Some(policy) => answer_of(alloc, policy, row),
            None => Err(Refusal::Row),
        }
    }
}

/// The policy of a row.
fn policy_of(alloc: Global, row: &Row<'_>) -> Result<Policy, Refusal> {
    match row.verb {
        "many" => numbered_policy(alloc, row),
        "build" => built_policy(alloc, row),
        _ => Ok(read_policy(alloc, &row.body)?),
    }
}

fn numbered_policy(alloc: Global, row: &Row<'_>) -> Result<Policy, Refusal> {
    let text = numbered(alloc, &row.body, row.split().0)?;
    Ok(read_policy(alloc, &text)?)
}

fn built_policy(alloc: Global, row: &Row<'_>) -> Result<Policy, Refusal> {
    let rules = rules::rules(alloc, &row.body)?;
    Ok(Policy::build(alloc, rules)?)
}

/// What a row asks of a policy.
fn answer_of(alloc: Global, policy: &Policy, row: &Row<'_>) -> Result<String, Refusal> {
    let (first, rest) = row.split();
    match row.verb {
        "decide" => decision(alloc, policy, first, rest),
        "rights" => rights(alloc, policy, first, rest),
        "idle" => idle(alloc, policy),
        "hidden" => hidden(alloc, policy, &row.text),
        verb => beside(alloc, policy, verb, &row.text),
    }
}

/// The text of a word that is read as an effect, a scope or an action.
fn word_text(verb: &str, text: &[u8]) -> &'static str {
    match verb {
        "effect" => match Effect::read(text) {
            Some(effect) => effect.text(),
            None => "none",
        },
        "scope" => match Scope::read(text) {
            Some(scope) => scope.text(),
            None => "none",
        },
        _ => match Action::read(text) {
            Some(action) => action.text(),
            None => "none",
        },
    }
}

impl Answers for Policies {
    fn answer(
        &mut self,
        alloc: Global,
        row: &Row<'_>,
        answer: &mut Vec<u8>,
    ) -> Result<(), AllocError> {
        let told = match self.answer_to(alloc, row) {
            Ok(told) => told,
            Err(refusal) => refusal.text(alloc)?,
        };
        answer.extend_from_slice(told.as_bytes())
    }
}

fn told(alloc: Global, text: &str) -> Result<String, Refusal> {
    Ok(String::from_str(alloc, text)?)
}

/// A text so many times, where `#` stands for the number of each time, from 0.
fn numbered(alloc: Global, text: &[u8], times: &[u8]) -> Result<Vec<u8>, AllocError> {
    let mut all = Vec::new(alloc);
    for time in 0..number(times).unwrap_or(0) {
        push_numbered(alloc, text, time, &mut all)?;
    }
    Ok(all)
}

fn push_numbered(
    alloc: Global,
    text: &[u8],
    number: usize,
    all: &mut Vec<u8>,
) -> Result<(), AllocError> {
    let number = format!(in alloc; "{number}")?;
    for octet in text {
        push_octet(*octet, number.as_bytes(), all)?;
    }
    Ok(())
}

fn push_octet(octet: u8, number: &[u8], all: &mut Vec<u8>) -> Result<(), AllocError> {
    match octet {
        b'#' => all.extend_from_slice(number),
        other => Ok(all.push(other)?),
    }
}

/// The decision on what `CALLER NAME TYPE ACTION` asks.
fn decision(alloc: Global, policy: &Policy, caller: &[u8], rest: &[u8]) -> Result<String, Refusal> {
    let caller = Identifier::read(alloc, caller)?;
    let (name, rest) = word(rest);
    decision_for(
        alloc,
        policy,
        &caller,
        &Name::read_absolute(alloc, name)?,
        rest,
    )
}

fn decision_for(
    alloc: Global,
    policy: &Policy,
    caller: &Identifier,
    name: &Name,
    rest: &[u8],
) -> Result<String, Refusal> {
    let (record_type, action) = word(rest);
    let record_type = RecordType::read(record_type)?;
    let action = Action::read(action).ok_or(Refusal::Row)?;
    let mut look_ups = LookUps::new();
    let decision = decide(policy, caller, name, record_type, action, &mut look_ups);
    let verdict = if decision.is_granted() {
        "granted"
    } else {
        "denied"
    };
    let rule = str::from_utf8(decision.rule()).unwrap_or("octets outside ASCII");
    Ok(format!(in alloc; "{verdict} by {rule}")?)
}

fn rights(alloc: Global, policy: &Policy, caller: &[u8], name: &[u8]) -> Result<String, Refusal> {
    let caller = Identifier::read(alloc, caller)?;
    let has_some = has_any_right(policy, &caller, &Name::read_absolute(alloc, name)?);
    told(alloc, if has_some { "some" } else { "none" })
}

fn covering(alloc: Global, at: &[u8], name: &[u8]) -> Result<String, Refusal> {
    let at = Name::read_absolute(alloc, at)?;
    Ok(covering_text(alloc, &at, &Name::read_absolute(alloc, name)?)?)
}

fn covering_text(alloc: Global, at: &Name, name: &Name) -> Result<String, AllocError> {
    let itself = covers(Scope::Name, at, name);
    let subtree = covers(Scope::Subtree, at, name);
    let below = covers(Scope::Below, at, name);
    format!(in alloc; "name {itself}, subtree {subtree}, below {below}")
}

/// The text of an identifier, whose copy has to be equal.
fn identifier(alloc: Global, text: &[u8]) -> Result<String, Refusal> {
    copied(alloc, &Identifier::read(alloc, text)?)
}

fn copied(alloc: Global, identifier: &Identifier) -> Result<String, Refusal> {
    let copy = identifier.try_copy(alloc)?;
    if copy == *identifier {
        told(
            alloc,
            str::from_utf8(copy.as_bytes()).unwrap_or("octets outside ASCII"),
        )
    } else {
        told(alloc, "another than its copy")
    }
}

fn identifiers(alloc: Global, one: &[u8], other: &[u8]) -> Result<String, Refusal> {
    let one = Identifier::read(alloc, one)?;
    let is_same = one == Identifier::read(alloc, other)?;
    told(alloc, if is_same { "same" } else { "different" })
}
