//! Whether the rows of `zones`, `records` and `changes` are those of zones with their changes, each table by itself.

ghost use Rattle.std.specs.Prelude.{◌≡◌, ◌↔◌, ◌≤◌, ◌&&◌, ◌==◌, ℕ, List, not, true, map, length, Err, IfOk, IfSome};
ghost use Rattle.std.specs.List.{AllByRecursion, position};
ghost use Rattle.dns_names.specs.Labels.{IsName};
ghost use Rattle.dns_names.specs.Order.{canonical_cmp, same_name};
ghost use Rattle.dns_names.specs.Spelling.{name_text};
ghost use Rattle.zone_core.specs.Views.{AreOfZone};
ghost use Rattle.store_rows.specs.declared.row_fault.RowFault.TheVariants.{BadRow};
ghost use Rattle.store_rows.specs.ChangeRows.{row_of, IsChanged};
ghost use Rattle.store_rows.specs.Orders.{rises};
ghost use Rattle.store_rows.specs.Checks.{row_of_record, IsZoneRecord, AreOrigins, AreOriginRows, AreRecordsOf, AreChangesOf, AreRecordsInTurn, AreChangesInTurn, Checks, records_first, changes_first};
ghost use Rattle.store_rows.specs.ReadZones.{IsReadAmong};
ghost use Rattle.store_rows.specs.ReadChanges.{Tells};

use crate::ascending::rise;
use crate::changes::ChangedRecord;
use crate::gathering::{are_numbered, in_order};
use crate::largest_zone::largest_zone;
use crate::ordered::{ZoneRecord, sorted_origins, sorted_records};
use crate::row_fault::RowFault;
use crate::zone_changes::{ZoneChanges, longest_history};
use dns_data::{Record, same_record};
use dns_names::Name;
use std::alloc::{AllocError, Global};
use zone_core::Zone;

/// The origins that the rows of `zones` are read as, in canonical order. They are `BadRow` where two of them are one name.
pub fn checked_origins(origins: Vec<Name>) -> Result<Vec<Name>, RowFault>
    requires { AllByRecursion IsName origins.items }
    ensures found { IfOk result (λ sorted. AreOriginRows sorted.items (map name_text origins.items)) }
    ensures bad { result ≡ Err BadRow → (sorted : List (List (List ℕ))) → ¬ AreOriginRows sorted (map name_text origins.items) }
{
    let origins = sorted_origins(origins)?;
    if !are_apart(&origins) {
        return Err(RowFault::BadRow);
    }
    Ok(origins)
}

/// Checks what the rows of `records` are read as, and answers the zone that has most records, if there is a zone. They are `BadRow` where
/// they are not the records of zones of these origins, which are in canonical order, none twice. `NoMemory` comes where memory runs out.
pub fn check_records(
    alloc: Global,
    origins: &[Name],
    records: Vec<ZoneRecord>,
) -> Result<Option<Zone>, RowFault>
    requires origins { AreOrigins origins.now }
    requires records { AllByRecursion IsZoneRecord records.items }
    ensures check { Checks (AreRecordsOf origins.now (map row_of_record records.items)) result }
    ensures zone { IfOk result (λ found. IfSome found (λ zone. IsReadAmong origins.now (map row_of_record records.items) zone)) }
{
    let records = sorted_records(records)?;
    largest_zone(alloc, origins, &records)
}

/// Checks what the rows of `changes` are read as, and answers what those of the zone with the most rows are read as, if there is memory for
/// its origin. The rows are `BadRow` where they are not the changes of zones of these origins, which are in canonical order, none twice.
/// `NoMemory` comes where memory runs out before that is known.
pub fn check_changes(
    alloc: Global,
    origins: &[Name],
    changes: Vec<ChangedRecord>,
) -> Result<Option<ZoneChanges>, RowFault>
    requires origins { AreOrigins origins.now }
    requires changes { AllByRecursion IsChanged changes.items }
    ensures check { Checks (AreChangesOf origins.now (map row_of changes.items)) result }
    ensures longest { IfOk result (λ found. IfSome found (Tells (map row_of changes.items))) }
{
    let changes = in_order(changes)?;
    if !are_changes_of(origins, &changes) {
        return Err(RowFault::BadRow);
    }
    Ok(longest_history(alloc, origins, changes))
}

/// Whether each name stands before the next one in canonical order, so that none comes twice.
pub fn are_apart(names: &[Name]) -> bool
    ensures { result ≡ rises canonical_cmp names.now }
{
    rise(names)
}

/// Whether what changes have is, one zone after the other, that of the changes of zones of these origins, numbered from 1 in each, and
/// nothing is left after the last.
fn are_changes_of(origins: &[Name], changes: &[ChangedRecord]) -> bool
    ensures { (result ≡ true) ↔ AreChangesInTurn origins.now changes.now }
{
    let mut left = changes;
    for origin in origins {
        let (own, other) = left.split_at(changes_first(origin, left));
        if !are_numbered(own) {
            return false;
        }
        left = other;
    }
    left.is_empty()
}

/// The first of some records that is not of the zone of an origin.
fn other_record(origin: &Name, records: &[ZoneRecord]) -> Option<usize>
    ensures { result ≡ position (λ r. not (same_name r.origin origin.now)) records.now }
{
    records.iter().position(|record| record.origin != *origin)
}

/// How many records stand first that are of the zone of an origin.
pub fn records_first(origin: &Name, records: &[ZoneRecord]) -> usize
    ensures value { result ≡ records_first origin.now records.now }
    ensures within { result ≤ length records.now }
{
    other_record(origin, records).unwrap_or(records.len())
}

/// The first of what some changes have that is not of the zone of an origin.
fn other_change(origin: &Name, changes: &[ChangedRecord]) -> Option<usize>
    ensures { result ≡ position (λ c. not (same_name c.origin origin.now)) changes.now }
{
    changes.iter().position(|change| change.origin != *origin)
}

/// How many of what changes have stand first that are of the zone of an origin.
pub fn changes_first(origin: &Name, changes: &[ChangedRecord]) -> usize
    ensures value { result ≡ changes_first origin.now changes.now }
    ensures within { result ≤ length changes.now }
{
    other_change(origin, changes).unwrap_or(changes.len())
}
