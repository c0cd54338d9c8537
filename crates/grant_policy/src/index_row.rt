//! The rows of the index.

ghost use Rattle.std.specs.Prelude.{◌≡◌, IfOk, Option, List, ℕ};
ghost use Rattle.std.specs.Option.{option_copied, option_cmp};
ghost use Rattle.std.specs.Ordering.{nat_cmp};
ghost use Rattle.std.specs.Cmp.Lexicographic.{slice_cmp};
ghost use Rattle.dns_names.specs.Keys.{IsKeyOfOne};
ghost use Rattle.grant_policy.specs.Index.{RowOf, place_of, place_cmp};

use crate::callers::Callers;
use crate::identifier::Identifier;
use crate::rule::Rule;
use dns_names::cmp_octets;
use std::alloc::{AllocError, Global};
use std::cmp::Ordering;
use std::marker::Model;

/// The number of a rule, after its caller, where `None` is every caller, and the key of its name.
#[derive(Drop)]
pub(crate) struct IndexRow {
    caller: Option<Identifier>,
    key: Vec<u8>,
    number: usize,
}

impl Model for IndexRow {
    ghost Value = { RowOf };

    ghost view = { λ r. record { place = record { caller = r.caller; key = r.key.items }; number = r.number } };
}

impl IndexRow {
    /// The row of a rule. The only error is out of memory.
    pub(crate) fn of(alloc: Global, rule: &Rule, number: usize) -> Result<IndexRow, AllocError>
        ensures row { IfOk result (λ row. row ≡ record { place = place_of rule.now; number = number }) }
        ensures key { IfOk result (λ row. IsKeyOfOne rule.now.at) }
    {
        let caller = match &rule.callers {
            Callers::Every => None,
            Callers::One(identifier) => Some(identifier.try_copy(alloc)?),
        };
        Ok(IndexRow {
            caller,
            key: Vec::from_slice(alloc, rule.at.key())?,
            number,
        })
    }

    /// The number of the rule.
    pub(crate) fn number(&self) -> usize
        ensures { result ≡ self.now.number }
    {
        self.number
    }

    /// How its place lies to another.
    pub(crate) fn cmp_place(&self, caller: Option<&[u8]>, key: &[u8]) -> Ordering
        ensures { result ≡ place_cmp self.now.place (record { caller = option_copied caller.entry; key = key.now }) }
    {
        match cmp_callers(self.caller(), caller) {
            Ordering::Equal => cmp_octets(&self.key, key),
            other => other,
        }
    }

    /// The octets of its caller.
    fn caller(&self) -> Option<&[u8]>
        ensures { option_copied result ≡ self.now.place.caller }
    {
        match &self.caller {
            None => None,
            Some(identifier) => Some(identifier.as_bytes()),
        }
    }

    /// How it lies to another row.
    pub(crate) fn cmp_row(&self, other: &IndexRow) -> Ordering
        ensures { result ≡ place_cmp self.now.place other.now.place }
    {
        self.cmp_place(other.caller(), &other.key)
    }
}

/// How two callers lie, where `None` is first.
fn cmp_callers(own: Option<&[u8]>, other: Option<&[u8]>) -> Ordering
    ensures { result ≡ option_cmp (slice_cmp nat_cmp) (option_copied own.entry) (option_copied other.entry) }
{
    match (own, other) {
        (None, None) => Ordering::Equal,
        (None, Some(_)) => Ordering::Less,
        (Some(_), None) => Ordering::Greater,
        (Some(own), Some(other)) => cmp_octets(own, other),
    }
}
