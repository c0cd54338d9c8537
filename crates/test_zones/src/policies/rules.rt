use crate::refusal::Refusal;
use dns_data::RecordType;
use dns_names::Name;
use grant_policy::{Action, Actions, Callers, Effect, Identifier, Rule, Scope, Types};
use std::alloc::Global;
use test_rows::{text_of, word};

/// The rules of a body, each a line.
pub fn rules(alloc: Global, body: &[u8]) -> Result<Vec<Rule>, Refusal> {
    let mut rules = Vec::new(alloc);
    for line in text_of(body).lines() {
        rules.push(rule(alloc, line.as_bytes())?)?;
    }
    Ok(rules)
}

/// The rule that `ID EFFECT CALLER SCOPE AT TYPES ACTIONS` writes.
fn rule(alloc: Global, line: &[u8]) -> Result<Rule, Refusal> {
    let (id, rest) = word(line);
    let (effect, rest) = word(rest);
    let (caller, rest) = word(rest);
    let (scope, rest) = word(rest);
    let effect = Effect::read(effect).ok_or(Refusal::Row)?;
    let scope = Scope::read(scope).ok_or(Refusal::Row)?;
    let Place { at, types, actions } = place_of(alloc, rest)?;
    let (id, callers) = subject(alloc, id, caller)?;
    Ok(Rule {
        effect,
        scope,
        types,
        actions,
        id,
        callers,
        at,
    })
}

/// The identifier and the callers of a rule.
fn subject(alloc: Global, id: &[u8], caller: &[u8]) -> Result<(Identifier, Callers), Refusal> {
    let id = Identifier::read(alloc, id)?;
    Ok((id, callers_of(alloc, caller)?))
}

/// Where a rule is, and of what.
#[derive(Drop)]
struct Place {
    at: Name,
    types: Types,
    actions: Actions,
}

/// What `AT TYPES ACTIONS` writes.
fn place_of(alloc: Global, text: &[u8]) -> Result<Place, Refusal> {
    let (at, rest) = word(text);
    let (types, actions) = word(rest);
    let types = types_of(alloc, types)?;
    let actions = actions_of(alloc, actions)?;
    Ok(Place {
        at: Name::read_absolute(alloc, at)?,
        types,
        actions,
    })
}

fn callers_of(alloc: Global, text: &[u8]) -> Result<Callers, Refusal> {
    if text == b"*".as_slice() {
        return Ok(Callers::Every);
    }
    Ok(Callers::One(Identifier::read(alloc, text)?))
}

/// The types of a list with commas, or of `*`.
fn types_of(alloc: Global, list: &[u8]) -> Result<Types, Refusal> {
    if list == b"*".as_slice() {
        return Ok(Types::every());
    }
    let mut types = Vec::new(alloc);
    for text in text_of(list).split(',') {
        types.push(RecordType::read(text.as_bytes())?)?;
    }
    Ok(Types::of(types))
}

/// The actions of a list with commas, or of `*`.
fn actions_of(alloc: Global, list: &[u8]) -> Result<Actions, Refusal> {
    if list == b"*".as_slice() {
        return Ok(Actions::every());
    }
    let mut actions = Vec::new(alloc);
    for text in text_of(list).split(',') {
        actions.push(Action::read(text.as_bytes()).ok_or(Refusal::Row)?)?;
    }
    Ok(Actions::of(actions))
}
