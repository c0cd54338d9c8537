//! What is written for the zones of a store, one after the other.

ghost use Rattle.std.specs.Prelude.{◌≡◌, ◌+◌, ◌<◌, [], ◌++◌, ℕ, pos, suc, map, Some, IfOk, IfErr};
ghost use Rattle.std.specs.List.{AllByRecursion};
ghost use Rattle.zone_core.specs.Changes.{change_in};
ghost use Rattle.store_rows.specs.RecordRows.{record_row};
ghost use Rattle.store_rows.specs.Checks.{IsZoneRecord};
ghost use Rattle.office_store.specs.MigrationSteps.{IsOldZoneOf, AreOldZonesInTurn, zone_rows_in, zones_in_turn, last_number, Goes, GoesOn, AreSteps};

use crate::migration_change::zone_change;
use dns_data::Record;
use dns_names::Name;
use std::alloc::{AllocError, Global};
use store_rows::ordered::ZoneRecord;
use store_rows::zones::{changes_first, records_first};
use store_rows::{ChangedRecord, RowFault, are_numbered, change_rows, record_row};
use store_sql::{ChangeRow, RecordRow};
use zone_core::Change;

/// What is written: the rows of the records that go and come, and those of the changes; and of how many zones.
#[derive(Drop)]
pub(crate) struct MigrationSteps {
    pub(crate) removed: Vec<RecordRow>,
    pub(crate) added: Vec<RecordRow>,
    pub(crate) changes: Vec<ChangeRow>,
    pub(crate) zones: usize,
}

/// Rows, and those of records of the zone of an origin after them. The only error is out of memory.
fn with_rows(
    alloc: Global,
    mut rows: Vec<RecordRow>,
    origin: &Name,
    records: &[Record],
) -> Result<Vec<RecordRow>, AllocError>
    ensures { IfOk result (λ all. all.items ≡ rows.items ++ map (record_row origin.now) records.now) }
{
    for rr in records {
        rows.push(record_row(alloc, origin, rr)?)?;
    }
    Ok(rows)
}

/// The number of the last of what the changes of a zone have, and 0 for no changes.
fn last_number(changes: &[ChangedRecord]) -> u64
    ensures { result ≡ last_number changes.now }
{
    let mut number = 0;
    for change in changes {
        number = change.number;
    }
    number
}

/// The number of the next change of a zone. After 9,223,372,036,854,775,807 there is no number: no memory holds so many changes.
fn next_number(changes: &[ChangedRecord]) -> Result<i64, AllocError>
    ensures { IfOk result (λ number. number ≡ pos (suc (last_number changes.now))) }
{
    let last = i64::try_from(last_number(changes));
    match last {
        Ok(last) => last.checked_add(1).ok_or(AllocError),
        Err(_) => Err(AllocError),
    }
}

impl MigrationSteps {
    /// Nothing is written.
    fn new(alloc: Global) -> MigrationSteps
        ensures { AreSteps result [] }
    {
        MigrationSteps {
            removed: Vec::new(alloc),
            added: Vec::new(alloc),
            changes: Vec::new(alloc),
            zones: 0,
        }
    }

    /// With a change of the zone of an origin under its number. The only error is out of memory.
    fn with_change(
        self,
        alloc: Global,
        origin: &Name,
        number: i64,
        change: &Change,
    ) -> Result<MigrationSteps, AllocError>
        requires { self.zones < usize.MAX }
        ensures { (n : ℕ) → number ≡ pos n → IfOk result (λ steps. Goes self steps origin.now n (Some (change_in change.now))) }
    {
        let MigrationSteps {
            removed,
            added,
            mut changes,
            zones,
        } = self;
        let mut made = change_rows(alloc, origin, number, change)?;
        changes.append(&mut made)?;
        Ok(MigrationSteps {
            removed: with_rows(alloc, removed, origin, &change.removed)?,
            added: with_rows(alloc, added, origin, &change.added)?,
            changes,
            zones: zones + 1,
        })
    }

    /// With what is written of one more zone, whose records and changes stand in order. Others are `BadRow`.
    fn with_zone(
        self,
        alloc: Global,
        origin: &Name,
        records: &[ZoneRecord],
        changes: &[ChangedRecord],
    ) -> Result<MigrationSteps, RowFault>
        requires room { self.zones < usize.MAX }
        requires records { AllByRecursion IsZoneRecord records.now }
        requires changes { AllByRecursion (λ c. c.origin ≡ origin.now) changes.now }
        ensures zone { IfOk result (λ steps. IsOldZoneOf origin.now records.now changes.now) }
        ensures more { IfOk result (λ steps. GoesOn self steps (zone_rows_in origin.now records.now changes.now)) }
        ensures only { IsOldZoneOf origin.now records.now changes.now → IfErr result (λ e. e ≡ RowFault.NoMemory) }
    {
        if !are_numbered(changes) {
            return Err(RowFault::BadRow);
        }
        match zone_change(alloc, origin, records)? {
            Some(change) => {
                let number = next_number(changes)?;
                Ok(self.with_change(alloc, origin, number, &change)?)
            }
            None => Ok(self),
        }
    }
}

/// What is written for zones of these origins, whose records and changes stand one after the other. `BadRow` comes where they are
/// those of no such zones, or something is left after the last.
pub(crate) fn steps_in_turn(
    alloc: Global,
    origins: &[Name],
    records: &[ZoneRecord],
    changes: &[ChangedRecord],
) -> Result<MigrationSteps, RowFault>
    requires { AllByRecursion IsZoneRecord records.now }
    ensures turn { IfOk result (λ steps. AreOldZonesInTurn origins.now records.now changes.now) }
    ensures steps { IfOk result (λ steps. AreSteps steps (zones_in_turn origins.now records.now changes.now)) }
    ensures only { AreOldZonesInTurn origins.now records.now changes.now → IfErr result (λ e. e ≡ RowFault.NoMemory) }
{
    let (mut records, mut changes) = (records, changes);
    let mut steps = MigrationSteps::new(alloc);
    for origin in origins {
        let (own, other) = records.split_at(records_first(origin, records));
        let (changed, later) = changes.split_at(changes_first(origin, changes));
        steps = steps.with_zone(alloc, origin, own, changed)?;
        records = other;
        changes = later;
    }
    if !(records.is_empty() && changes.is_empty()) {
        return Err(RowFault::BadRow);
    }
    Ok(steps)
}
