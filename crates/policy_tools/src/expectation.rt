//! What is expected of a policy.

use crate::caller_list::CallerList;
use dns_data::RecordType;
use dns_names::Name;
use grant_policy::{Action, Actions, Effect, Identifier, Scope, Types};

/// What a policy is expected to decide of one question.
#[derive(Drop)]
pub struct ExpectedDecision {
    /// Whether it is granted or denied.
    pub effect: Effect,
    /// Who asks.
    pub caller: Identifier,
    /// The name that it is about.
    pub name: Name,
    /// Of which type the records are.
    pub record_type: RecordType,
    /// What is to be done with them.
    pub action: Action,
    /// The rule that decides, `closing` for the closing default. `None` is whichever does.
    pub rule: Option<Identifier>,
}

/// A limit: nobody but these callers may do something with the records of some types at some names.
#[derive(Drop)]
pub struct Limit {
    /// The callers that may be granted it. If there are none, nobody may.
    pub callers: CallerList,
    /// What only they may do.
    pub actions: Actions,
    /// With the records of which types.
    pub types: Types,
    /// At which names, counted from `at`.
    pub scope: Scope,
    pub at: Name,
}

/// What is expected of a policy.
#[derive(Drop)]
pub enum Expectation {
    /// One question is decided so.
    Decides(ExpectedDecision),
    /// A limit is kept, at each of its names and whoever asks.
    Keeps(Limit),
}
