//! The records of one zone, as rows have them.

ghost use Rattle.std.specs.Prelude.{◌≡◌, ◌↔◌, Ok, IfOk, IfSome, IsSome, map, true};
ghost use Rattle.zone_core.specs.Views.{AreOfZone};
ghost use Rattle.zone_core.specs.Zones.{built};
ghost use Rattle.store_rows.specs.RowFaults.{of_zones};

use crate::ordered::ZoneRecord;
use crate::reads::built;
use crate::row_fault::RowFault;
use dns_data::{Record, same_record};
use dns_names::Name;
use std::alloc::{AllocError, Global};
use zone_core::Zone;

/// The zone of an origin of which records are, in record order: that which is built of them has them, and no others. The only error is
/// out of memory.
pub(crate) fn zone_of_records(
    alloc: Global,
    origin: &Name,
    records: &[ZoneRecord],
) -> Result<Option<Zone>, AllocError>
    ensures zone { IfOk result (λ found. IsSome found ↔ AreOfZone origin.now (map (λ r. r.rr) records.now)) }
    ensures built { IfOk result
        (λ found. IfSome found (λ zone. (zone.origin ≡ origin.now) × (of_zones (built origin.now (map (λ r. r.rr) records.now)) ≡ Ok zone))) }
{
    match built(alloc, origin, copied(alloc, records)?) {
        Ok(zone) => {
            if are_those(zone.records(), records) {
                Ok(Some(zone))
            } else {
                Ok(None)
            }
        }
        Err(RowFault::BadRow) => Ok(None),
        Err(RowFault::NoMemory) => Err(AllocError),
    }
}

/// Copies of records. The only error is out of memory.
pub fn copied(alloc: Global, records: &[ZoneRecord]) -> Result<Vec<Record>, AllocError>
    ensures { IfOk result (λ copies. copies.items ≡ map (λ r. r.rr) records.now) }
{
    let mut copies = Vec::with_capacity(alloc, records.len())?;
    for record in records {
        copies.push(record.rr.try_copy(alloc)?)?;
    }
    Ok(copies)
}

/// Whether two records are equal, TTLs counted.
fn is_that(first: &Record, second: &Record) -> bool
    ensures { (result ≡ true) ↔ (first.now ≡ second.now) }
{
    same_record(first, second) && first.ttl.seconds() == second.ttl.seconds()
}

/// Whether records are these, in the same order, TTLs counted.
pub fn are_those(first: &[Record], second: &[ZoneRecord]) -> bool
    ensures { (result ≡ true) ↔ (first.now ≡ map (λ r. r.rr) second.now) }
{
    if first.len() != second.len() {
        return false;
    }
    for place in 0..first.len() {
        if !is_that(&first[place], &second[place].rr) {
            return false;
        }
    }
    true
}
