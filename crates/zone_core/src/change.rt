//! Changes of a zone: the records that go, and those that come. An update, a delegation, another zone of the same origin: each is
//! made by its change.

ghost use Rattle.std.specs.Prelude.{◌≡◌, ◌++◌, not, Some, IfOk};
ghost use Rattle.std.specs.FinMap.{get};
ghost use Rattle.std.specs.List.{list_any, filter};
ghost use Rattle.dns_names.specs.Order.{same_name};
ghost use Rattle.zone_core.specs.Sets.{key_of, set_of, same_ttl, part, minus, at_name, InOrder, AreRows};
ghost use Rattle.zone_core.specs.Updates.{acted_name, ActsWithin};
ghost use Rattle.zone_core.specs.Effects.{effects, zone_after};
ghost use Rattle.zone_core.specs.Nodes.{Grows};
ghost use Rattle.zone_core.specs.Changes.{change_in, change_between, is_empty};

use crate::effect::effects;
use crate::rows::{at_name, copied, difference, in_order, push_difference};
use crate::serial_advance::update_change;
use crate::update::{Operation, Update};
use crate::zone::Zone;
use dns_data::Record;
use dns_names::Name;
use std::alloc::{AllocError, Global};

/// A change of a zone. A record whose TTL changes goes with the one and comes with the other.
#[derive(Drop)]
pub struct Change {
    /// The records that go, in record order.
    pub removed: Vec<Record>,
    /// The records that come, in record order.
    pub added: Vec<Record>,
}

impl Change {
    /// The change from some records to others. The only error is out of memory.
    pub fn between(alloc: Global, before: &[Record], after: &[Record]) -> Result<Change, AllocError>
        // Both are in record order, without repetition.
        requires before { InOrder before.now }
        requires after { InOrder after.now }
        ensures { IfOk result (λ c. change_in c ≡ change_between (set_of before.now) (set_of after.now)) }
    {
        Ok(Change {
            removed: difference(alloc, before, after)?,
            added: difference(alloc, after, before)?,
        })
    }

    /// The change that an update makes in a zone: its operations in order, each by its rule (RFC 2136 section 3.4.2), and the
    /// advance of the serial where something changes and no operation replaces the SOA (section 3.6). The names of the operations
    /// are within the origin, which `Update::outside` tests. The only error is out of memory.
    pub fn of_update(alloc: Global, zone: &Zone, update: &Update) -> Result<Change, AllocError>
        requires { ActsWithin zone.now.origin update.now }
        ensures { IfOk result (λ c. change_in c ≡ change_between zone.now.records (zone_after zone.now update.now).records) }
    {
        update_change(alloc, zone, update)
    }

    /// Whether no record goes and none comes.
    pub fn is_empty(&self) -> bool
        ensures { result ≡ is_empty (change_in self.now) }
    {
        self.removed.is_empty() && self.added.is_empty()
    }

    /// Appends what two rows differ in to what goes and what comes. The only error is out of memory.
    fn push_between(
        &mut self,
        alloc: Global,
        before: &[Record],
        after: &[Record],
    ) -> Result<(), AllocError>
        requires before { InOrder before.now }
        requires after { InOrder after.now }
        ensures removed { IfOk result (λ _. self.new.removed.items ≡ self.old.removed.items ++ filter (λ r. not (same_ttl (Some r) (get (set_of after.now) (key_of r)))) before.now) }
        ensures added { IfOk result (λ _. self.new.added.items ≡ self.old.added.items ++ filter (λ r. not (same_ttl (Some r) (get (set_of before.now) (key_of r)))) after.now) }
    {
        push_difference(alloc, &mut self.removed, before, after)?;
        push_difference(alloc, &mut self.added, after, before)?;
        Ok(())
    }

    /// An equal change in memory of its own. The only error is out of memory.
    pub fn try_copy(&self, alloc: Global) -> Result<Change, AllocError>
        ensures { IfOk result (λ copy. change_in copy ≡ change_in self.now) }
    {
        Ok(Change {
            removed: copied(alloc, &self.removed)?,
            added: copied(alloc, &self.added)?,
        })
    }
}

/// What operations change in a zone of this origin, whose records stand in record order; each side in that order. The only
/// error is out of memory.
pub(crate) fn changes(
    alloc: Global,
    origin: &Name,
    records: &[Record],
    operations: &[Operation],
) -> Result<Change, AllocError>
    requires { InOrder records.now }
    ensures removed { IfOk result (λ c. AreRows c.removed.items (minus (set_of records.now) (effects origin.now (set_of records.now) operations.now))) }
    ensures added { IfOk result (λ c. AreRows c.added.items (minus (effects origin.now (set_of records.now) operations.now) (set_of records.now))) }
{
    let mut change = Change {
        removed: Vec::new(alloc),
        added: Vec::new(alloc),
    };
    for (i, operation) in operations.iter().enumerate() {
        if !acts_at(&operations[..i], operation.name()) {
            push_change_at(
                alloc,
                &mut change,
                origin,
                records,
                operation.name(),
                operations,
            )?;
        }
    }
    Ok(Change {
        removed: in_order(alloc, change.removed)?,
        added: in_order(alloc, change.added)?,
    })
}

/// Whether an operation acts at a name.
fn acts_at(operations: &[Operation], name: &Name) -> bool
    ensures { result ≡ list_any (λ op. same_name (acted_name op) name.now) operations.now }
{
    operations.iter().any(|operation| operation.name() == name)
}

/// Appends what operations change at a name to a change. The only error is out of memory.
fn push_change_at(
    alloc: Global,
    change: &mut Change,
    origin: &Name,
    records: &[Record],
    name: &Name,
    operations: &[Operation],
) -> Result<(), AllocError>
    requires { InOrder records.now }
    ensures removed { IfOk result (λ _. Grows change.old.removed.items change.new.removed.items (part (minus (set_of records.now) (effects origin.now (set_of records.now) operations.now)) (at_name name.now))) }
    ensures added { IfOk result (λ _. Grows change.old.added.items change.new.added.items (part (minus (effects origin.now (set_of records.now) operations.now) (set_of records.now)) (at_name name.now))) }
{
    let before = at_name(records, name);
    let after = effects(alloc, origin, name, copied(alloc, before)?, operations)?;
    change.push_between(alloc, before, &after)
}
