//! Rules of the office that are made of entries.

ghost use Rattle.std.specs.Prelude.{◌≡◌};

use crate::names::Names;
use crate::selection::Selection;
use dns_data::RecordType;
use grant_policy::{Action, Callers, Effect, Identifier};

/// A rule of the office, by its parts, and the number of the entry that it is made of.
#[derive(Drop)]
pub struct MadeRule<'a> {
    /// By what the rule is named where it decides.
    pub id: Identifier,
    /// Whether it grants or denies.
    pub effect: Effect,
    /// Whom it speaks of.
    pub callers: &'a Callers,
    /// Which names it speaks of.
    pub names: &'a Names,
    /// The record types that it speaks of.
    pub types: &'a Selection<RecordType>,
    /// The actions that it speaks of.
    pub actions: &'a Selection<Action>,
    /// The number of its entry among the entries of the file, from 0.
    pub entry: usize,
}
