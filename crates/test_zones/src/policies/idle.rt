//! Rules that never decide.

use crate::refusal::Refusal;
use grant_policy::Policy;
use policy_tools::{IdleRule, idle_rules};
use std::alloc::{AllocError, Global};

/// The idle rules of a policy, each with those that take its questions after a colon, by their ids.
pub fn idle(alloc: Global, policy: &Policy) -> Result<String, Refusal> {
    Ok(text_of(alloc, policy, &idle_rules(alloc, policy)?)?)
}

fn text_of(alloc: Global, policy: &Policy, rules: &[IdleRule]) -> Result<String, AllocError> {
    let mut text = String::new(alloc);
    for rule in rules {
        push_rule(policy, rule, &mut text)?;
    }
    if text.is_empty() {
        text.push_str("none")?;
    }
    Ok(text)
}

fn push_rule(policy: &Policy, idle: &IdleRule, text: &mut String) -> Result<(), AllocError> {
    if !text.is_empty() {
        text.push_str("; ")?;
    }
    text.push_str(id(policy, idle.rule))?;
    text.push_str(":")?;
    push_takers(policy, &idle.takers, text)
}

fn push_takers(policy: &Policy, takers: &[usize], text: &mut String) -> Result<(), AllocError> {
    for taker in takers {
        text.push_str(" ")?;
        text.push_str(id(policy, *taker))?;
    }
    Ok(())
}

fn id(policy: &Policy, rule: usize) -> &str {
    match policy.rules().get(rule) {
        Some(rule) => str::from_utf8(rule.id.as_bytes()).unwrap_or("octets outside ASCII"),
        None => "no rule",
    }
}
