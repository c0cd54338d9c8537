//! Examples of how a caller changes an answer.

ghost use Rattle.std.specs.Prelude.{◌≡◌, IfOk, IfSome};
ghost use Rattle.std.specs.List.{Contains};
ghost use Rattle.std.specs.List.Sorted.{IsSorted};
ghost use Rattle.dns_names.specs.Order.{canonical_cmp};
ghost use Rattle.zone_core.specs.Sets.{listing};
ghost use Rattle.zone_core.specs.Delegations.{AreNamesOf};
ghost use Rattle.answer_reach.specs.declared.reached.ReachedNames.TheVariants.{Others};
ghost use Rattle.answer_reach.specs.ReachedGroups.{IsIn};
ghost use Rattle.answer_reach.specs.ReachTests.{named};
ghost use Rattle.answer_reach.specs.Examples.{SearchOf, IsExample, IsExampleOf};

use crate::asker::Asker;
use crate::candidates::copied;
use crate::name_lists::known_names;
use crate::names::{has_name, ordered};
use crate::places::{child, names_read, places_of};
use crate::reached::{ReachedAnswers, ReachedNames};
use crate::rights::Rights;
use dns_names::Name;
use grant_policy::{Identifier, Policy};
use std::alloc::{AllocError, Global};
use std::marker::Model;
use zone_answers::{QueryType, ZoneIndex};
use zone_core::{Operation, Update};

/// A question, and an update that a policy permits a caller, after which the question is answered otherwise.
#[derive(Drop)]
pub struct Example {
    pub name: Name,
    pub asked: QueryType,
    pub update: Update,
}

/// A zone, a policy and a caller, for which examples are looked for.
#[derive(Drop)]
pub struct ExampleSearch<'a> {
    rights: Rights<'a>,
    index: &'a ZoneIndex,
    // in canonical order
    known: Vec<Name>,
}

impl<'a> Model for ExampleSearch<'a> {
    ghost use Rattle.zone_core.specs.Sets.{listing};
    ghost use Rattle.zone_core.specs.Delegations.{AreNamesOf};
    ghost use Rattle.answer_reach.specs.ReachTests.{named};
    ghost use Rattle.answer_reach.specs.Examples.{SearchOf};
    ghost use Rattle.answer_reach.specs.Codes.{search_code};

    ghost Value = { SearchOf };

    ghost coded = { search_code };

    ghost view = { λ s. record { rules = s.rights.rules; caller = s.rights.caller; zone = s.index.now } };

    ghost invariant = { λ s. AreNamesOf s.known.items (named s.index.now.origin s.rights.rules (listing s.index.now.records)) };
}

/// Labels below a name of which one may be at no known name.
const LABELS: [&[u8]; 4] = [b"a", b"b", b"example", b"example-2"];

/// Some names and those of operations, in canonical order. The only error is out of memory.
fn with_acted(
    alloc: Global,
    read: &[Name],
    operations: &[Operation],
) -> Result<Vec<Name>, AllocError>
    ensures { IfOk result (λ names. IsSorted canonical_cmp names.items) }
{
    let mut names = Vec::new(alloc);
    for name in read {
        names.push(name.try_copy(alloc)?)?;
    }
    for operation in operations {
        names.push(operation.name().try_copy(alloc)?)?;
    }
    ordered(names)
}

impl<'a> Asker<'a> {
    /// A name with a label before another, if it is at or below no known name. The only error is out of memory.
    fn unknown_child(
        &self,
        alloc: Global,
        known: &[Name],
        label: &[u8],
        above: &Name,
    ) -> Result<Option<Name>, AllocError>
        requires { AreNamesOf known.now (named self.now.index.now.origin self.now.rights.now.rules (listing self.now.index.now.records)) }
        ensures { IfOk result (λ found. IfSome found (IsIn self.now.rights.now.rules (listing self.now.index.now.records) (Others above.now))) }
    {
        let Some(name) = child(alloc, label, above)? else {
            return Ok(None);
        };
        if has_name(known, &name) {
            return Ok(None);
        }
        if !self.is_inside(&name) {
            return Ok(None);
        }
        let Some(parent) = name.parent(alloc)? else {
            return Ok(None);
        };
        if parent != *above {
            return Ok(None);
        }
        Ok(Some(name))
    }

    /// A name below another that is at or below no known name, if one is found. The only error is out of memory.
    fn name_below(
        &self,
        alloc: Global,
        known: &[Name],
        above: &Name,
    ) -> Result<Option<Name>, AllocError>
        requires { AreNamesOf known.now (named self.now.index.now.origin self.now.rights.now.rules (listing self.now.index.now.records)) }
        ensures { IfOk result (λ found. IfSome found (IsIn self.now.rights.now.rules (listing self.now.index.now.records) (Others above.now))) }
    {
        for label in &LABELS {
            if let Some(name) = self.unknown_child(alloc, known, label, above)? {
                return Ok(Some(name));
            }
        }
        Ok(None)
    }

    /// A name of a group, if one is found. The only error is out of memory.
    fn name_in(
        &self,
        alloc: Global,
        known: &[Name],
        names: &ReachedNames,
    ) -> Result<Option<Name>, AllocError>
        requires { AreNamesOf known.now (named self.now.index.now.origin self.now.rights.now.rules (listing self.now.index.now.records)) }
        ensures { IfOk result (λ found. IfSome found (IsIn self.now.rights.now.rules (listing self.now.index.now.records) names.now)) }
    {
        match names {
            ReachedNames::At(name) => Ok(Some(name.try_copy(alloc)?)),
            ReachedNames::Others(above) => self.name_below(alloc, known, above),
        }
    }

    /// The update of some operations as an example, if it is one for a name and one of some types. The only error is out of memory.
    fn example_by(
        &self,
        alloc: Global,
        types: &[QueryType],
        name: &Name,
        read: &[Name],
        operations: &[Operation],
    ) -> Result<Option<Example>, AllocError>
        ensures { IfOk result (λ found. IfSome found (λ example. (example.name ≡ name.now) × Contains types.now example.asked × IsExample (record { rules = self.now.rights.now.rules; caller = self.now.rights.now.caller; zone = self.now.index.now }) example.name example.asked example.update)) }
    {
        let covered = with_acted(alloc, read, operations)?;
        let Ok(update) = Update::build(Vec::new(alloc), copied(alloc, operations)?) else {
            return Ok(None);
        };
        let Some(trial) = self.trial(alloc, covered, update)? else {
            return Ok(None);
        };
        let Some(asked) = self.first_changed(alloc, &trial, name, types)? else {
            return Ok(None);
        };
        let own = name.try_copy(alloc)?;
        let made = trial.update.try_copy(alloc)?;
        Ok(Some(Example {
            name: own,
            asked,
            update: made,
        }))
    }

    /// An example for a name and one of some types that changes the records at another name, if one is found. The only error is out of
    /// memory.
    fn example_at(
        &self,
        alloc: Global,
        types: &[QueryType],
        name: &Name,
        read: &[Name],
        at: &Name,
    ) -> Result<Option<Example>, AllocError>
        ensures { IfOk result (λ found. IfSome found (λ example. (example.name ≡ name.now) × Contains types.now example.asked × IsExample (record { rules = self.now.rights.now.rules; caller = self.now.rights.now.caller; zone = self.now.index.now }) example.name example.asked example.update)) }
    {
        for operations in &self.candidates(alloc, at)? {
            if let Some(example) = self.example_by(alloc, types, name, read, operations)? {
                return Ok(Some(example));
            }
        }
        Ok(None)
    }

    /// An example for a name and one of some types, if one is found. The only error is out of memory.
    fn example_for(
        &self,
        alloc: Global,
        types: &[QueryType],
        name: &Name,
    ) -> Result<Option<Example>, AllocError>
        ensures { IfOk result (λ found. IfSome found (λ example. (example.name ≡ name.now) × Contains types.now example.asked × IsExample (record { rules = self.now.rights.now.rules; caller = self.now.rights.now.caller; zone = self.now.index.now }) example.name example.asked example.update)) }
    {
        let zone = self.index.zone();
        let places = places_of(alloc, zone, name)?;
        let read = names_read(alloc, zone, &places)?;
        for at in &self.tried(alloc, &places)? {
            if let Some(example) = self.example_at(alloc, types, name, &read, at)? {
                return Ok(Some(example));
            }
        }
        Ok(None)
    }

    /// An example for a question of a row, if one is found. The only error is out of memory.
    fn example_in(
        &self,
        alloc: Global,
        known: &[Name],
        row: &ReachedAnswers,
    ) -> Result<Option<Example>, AllocError>
        requires { AreNamesOf known.now (named self.now.index.now.origin self.now.rights.now.rules (listing self.now.index.now.records)) }
        ensures { IfOk result (λ found. IfSome found (IsExampleOf (record { rules = self.now.rights.now.rules; caller = self.now.rights.now.caller; zone = self.now.index.now }) row.now)) }
    {
        let Some(name) = self.name_in(alloc, known, &row.names)? else {
            return Ok(None);
        };
        self.example_for(alloc, &row.types, &name)
    }
}

impl<'a> ExampleSearch<'a> {
    /// A search in a zone, for a policy and a caller. It takes a pass over the records and the rules. The only error is out of memory.
    pub fn new(
        alloc: Global,
        index: &'a ZoneIndex,
        policy: &'a Policy,
        caller: &'a Identifier,
    ) -> Result<ExampleSearch<'a>, AllocError>
        ensures { IfOk result (λ search. search ≡ record { rules = policy.now; caller = caller.now; zone = index.now }) }
    {
        let rights = Rights::new(alloc, policy, caller)?;
        let zone = index.zone();
        let known = known_names(alloc, zone.origin(), policy.rules(), zone.records())?;
        Ok(ExampleSearch {
            rights,
            index,
            known,
        })
    }

    /// An example for a question of a row, if one is found: of a name of its group and one of its types, with an update of the zone as it
    /// is.
    ///
    /// Tried are updates of one or two operations at the name, at names above and below it, at wildcards, and at those to which aliases
    /// and cuts lead: the deletion of each set that stands there, the addition of a record of each type, both, and the deletion of all
    /// that stands there and, where that is little, below. So there may be an example where none is found: one that needs other data, or
    /// changes at several names.
    ///
    /// Each try takes some look-ups, and what an update and its answers take in a zone of some dozen names, whatever the size of this one.
    /// The only error is out of memory.
    pub fn example(
        &self,
        alloc: Global,
        row: &ReachedAnswers,
    ) -> Result<Option<Example>, AllocError>
        ensures { IfOk result (λ found. IfSome found (IsExampleOf self.now row.now)) }
    {
        let asker = Asker {
            rights: &self.rights,
            index: self.index,
        };
        asker.example_in(alloc, &self.known, row)
    }
}
