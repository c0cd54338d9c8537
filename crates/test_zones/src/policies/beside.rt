//! A policy beside zones.

use crate::refusal::Refusal;
use dns_names::Name;
use grant_policy::{Identifier, Policy, Rule};
use policy_tools::{Hidden, hidden_from, slice_of, stray_rules, unspoken_origins};
use std::alloc::{AllocError, Global};
use test_rows::{text_of, word};

/// The origins of a text.
fn origins(alloc: Global, text: &[u8]) -> Result<Vec<Name>, Refusal> {
    let mut origins = Vec::new(alloc);
    for word in text_of(text).split_whitespace() {
        origins.push(Name::read_absolute(alloc, word.as_bytes())?)?;
    }
    Ok(origins)
}

/// The rules that can matter in zones, or those that cannot, or the zones of which no rule speaks.
pub fn beside(alloc: Global, policy: &Policy, verb: &str, text: &[u8]) -> Result<String, Refusal> {
    let origins = origins(alloc, text)?;
    match verb {
        "slice" => Ok(rules_text(alloc, &slice_of(alloc, policy, &origins)?)?),
        "stray" => Ok(rules_text(alloc, &stray_rules(alloc, policy, &origins)?)?),
        _ => Ok(names_text(alloc, &unspoken_origins(alloc, policy, &origins)?)?),
    }
}

fn rules_text(alloc: Global, rules: &[&Rule]) -> Result<String, AllocError> {
    let mut text = String::from_str(alloc, "rules")?;
    for rule in rules {
        text.push_str(" ")?;
        text.push_str(str::from_utf8(rule.id.as_bytes()).unwrap_or("octets outside ASCII"))?;
    }
    Ok(text)
}

fn names_text(alloc: Global, names: &[&Name]) -> Result<String, AllocError> {
    let mut text = String::from_str(alloc, "zones")?;
    for name in names {
        text.push_str(" ")?;
        text.push_str(name.text(alloc)?.as_str())?;
    }
    Ok(text)
}

/// What `CALLER ORIGIN` may not list.
pub fn hidden(alloc: Global, policy: &Policy, text: &[u8]) -> Result<String, Refusal> {
    let (caller, origin) = word(text);
    let caller = Identifier::read(alloc, caller)?;
    let origin = Name::read_absolute(alloc, origin)?;
    Ok(hidden_text(alloc, &hidden_from(alloc, policy, &caller, &origin)?)?)
}

fn hidden_text(alloc: Global, hidden: &Option<Hidden>) -> Result<String, AllocError> {
    match hidden {
        None => String::from_str(alloc, "nothing"),
        Some(hidden) => {
            let name = hidden.name.text(alloc)?;
            let record_type = hidden.record_type.text();
            format!(in alloc; "{name} {record_type}")
        }
    }
}
