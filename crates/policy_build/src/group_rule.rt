//! Rules for groups.

use crate::list_or_parameter::ListOrParameter;
use crate::names::Names;
use crate::place::Place;
use crate::selection::Selection;
use dns_data::RecordType;
use grant_policy::{Action, Callers, Effect, Identifier};

/// A rule for groups: it grants or denies the callers of some groups some actions on the records of some types at the names of some
/// groups.
#[derive(Drop)]
pub struct GroupRule {
    /// Where in its file it is.
    pub place: Place,
    /// What the rules that are made of it are called, before their numbers.
    pub id: Identifier,
    /// Whether it grants or denies.
    pub effect: Effect,
    /// Whom it speaks of.
    pub callers: ListOrParameter<Callers>,
    /// Which names it speaks of.
    pub names: ListOrParameter<Names>,
    /// The record types that it speaks of.
    pub types: Selection<RecordType>,
    /// The actions that it speaks of.
    pub actions: Selection<Action>,
}
