//! The rows of `changes` of the zone with the most of them, of rows that are checked.

ghost use Rattle.std.specs.Prelude.{◌≡◌, IfSome, filter, map};
ghost use Rattle.std.specs.List.{AllByRecursion};
ghost use Rattle.std.specs.List.Sorted.{IsSorted};
ghost use Rattle.dns_names.specs.Labels.{IsName};
ghost use Rattle.dns_names.specs.Order.{same_name};
ghost use Rattle.store_rows.specs.ChangeRows.{changed_order, row_of, IsChanged};
ghost use Rattle.store_rows.specs.ReadChanges.{Tells};

use crate::changes::ChangedRecord;
use crate::zones::changes_first;
use dns_names::Name;
use std::alloc::Global;

/// What the changes of a zone have, the oldest first.
#[derive(Drop)]
pub struct ZoneChanges {
    /// The origin of the zone.
    pub origin: Name,
    /// The records that they remove and add.
    pub changed: Vec<ChangedRecord>,
}

/// The origin with the most rows, of what the changes of zones have, one zone after the other.
fn most_changed<'a>(origins: &'a [Name], changed: &[ChangedRecord]) -> Option<&'a Name> {
    let mut left = changed;
    let mut most = 0;
    let mut found = None;
    for origin in origins {
        let (own, other) = left.split_at(changes_first(origin, left));
        if own.len() > most {
            most = own.len();
            found = Some(origin);
        }
        left = other;
    }
    found
}

/// What the changes of the zone of an origin have, of those of some zones.
fn own_changes(mut changed: Vec<ChangedRecord>, origin: &Name) -> Vec<ChangedRecord>
    ensures { result.items ≡ filter (λ c. same_name origin.now c.origin) changed.items }
{
    changed.retain(|changed| *origin == changed.origin);
    changed
}

/// An origin is a name. Only proofs need it.
fn reveal_origin(origin: &Name)
    ensures { IsName origin.now }
{
    let _ = origin.labels();
}

/// What the changes have of the zone with the most rows, of what those of zones have, in order. There is nothing if there is no change or
/// memory runs out.
pub(crate) fn longest_history(
    alloc: Global,
    origins: &[Name],
    changed: Vec<ChangedRecord>,
) -> Option<ZoneChanges>
    requires each { AllByRecursion IsChanged changed.items }
    requires order { IsSorted changed_order changed.items }
    ensures { IfSome result (Tells (map row_of changed.items)) }
{
    let origin = most_changed(origins, &changed)?.try_copy(alloc).ok()?;
    reveal_origin(&origin);
    let changed = own_changes(changed, &origin);
    Some(ZoneChanges { origin, changed })
}
