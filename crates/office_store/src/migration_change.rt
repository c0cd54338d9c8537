//! What the migration changes in one zone.

ghost use Rattle.std.specs.Prelude.{◌≡◌, map, option_map, IfOk, IfErr};
ghost use Rattle.std.specs.List.{AllByRecursion};
ghost use Rattle.zone_core.specs.Sets.{set_of, InOrder};
ghost use Rattle.zone_core.specs.Changes.{change_in, change_between};
ghost use Rattle.store_rows.specs.Checks.{IsZoneRecord};
ghost use Rattle.office_store.specs.OldZones.{AreOfOldZone};
ghost use Rattle.office_store.specs.MigratedContents.{change_for};

use dns_data::Record;
use dns_names::Name;
use std::alloc::{AllocError, Global};
use store_rows::RowFault;
use store_rows::ordered::ZoneRecord;
use store_rows::reads::{are_in_order, built};
use store_rows::zone_records::{are_those, copied};
use zone_core::{Change, Zone};

/// What records in record order and those of a zone differ in, as the change from the one to the other. The only error is want of
/// memory.
fn change_to(alloc: Global, records: &[Record], zone: &Zone) -> Result<Change, AllocError>
    requires { InOrder records.now }
    ensures { IfOk result (λ change. change_in change ≡ change_between (set_of records.now) zone.now.records) }
{
    Change::between(alloc, records, zone.records())
}

/// What the migration changes in the zone of an origin with these records: nothing where each set has its least TTL already; else the
/// records that go, with the SOA, and those that come in their place. Records that do not stand in record order, or make no zone once
/// each set has its least TTL, are `BadRow`.
pub(crate) fn zone_change(
    alloc: Global,
    origin: &Name,
    records: &[ZoneRecord],
) -> Result<Option<Change>, RowFault>
    requires { AllByRecursion IsZoneRecord records.now }
    ensures zone { IfOk result (λ change. AreOfOldZone origin.now (map (λ r. r.rr) records.now)) }
    ensures change { IfOk result (λ change. option_map change_in change ≡ change_for origin.now (map (λ r. r.rr) records.now)) }
    ensures only { AreOfOldZone origin.now (map (λ r. r.rr) records.now) → IfErr result (λ e. e ≡ RowFault.NoMemory) }
{
    let old = copied(alloc, records)?;
    if !are_in_order(&old) {
        return Err(RowFault::BadRow);
    }
    let even = built(alloc, origin, copied(alloc, records)?)?;
    if are_those(even.records(), records) {
        return Ok(None);
    }
    let next = even.advanced(alloc)?;
    Ok(Some(change_to(alloc, &old, &next)?))
}
