//! The largest of zones whose records are checked.

ghost use Rattle.std.specs.Prelude.{◌≡◌, ◌⊎◌, Some, IfOk, IfSome, map};
ghost use Rattle.std.specs.List.{AllByRecursion};
ghost use Rattle.store_rows.specs.Checks.{row_of_record, AreOrigins, AreRecordsInTurn, Checks, IsZoneRecord};
ghost use Rattle.store_rows.specs.ReadZones.{IsReadAmong};

use crate::ordered::ZoneRecord;
use crate::row_fault::RowFault;
use crate::zone_records::zone_of_records;
use crate::zones::records_first;
use dns_names::Name;
use std::alloc::Global;
use zone_core::Zone;

/// The larger of two zones, by the number of their records.
fn larger(first: Option<Zone>, second: Zone) -> Option<Zone>
    ensures { (result ≡ first) ⊎ (result ≡ Some second) }
{
    match first {
        Some(zone) if zone.records().len() >= second.records().len() => Some(zone),
        _ => Some(second),
    }
}

/// The zone of the origin of which most records are. Records are `BadRow` where they are not, one after the other, those of zones of
/// these origins, with nothing after the last.
pub(crate) fn largest_zone(
    alloc: Global,
    origins: &[Name],
    records: &[ZoneRecord],
) -> Result<Option<Zone>, RowFault>
    requires origins { AreOrigins origins.now }
    requires records { AllByRecursion IsZoneRecord records.now }
    ensures check { Checks (AreRecordsInTurn origins.now records.now) result }
    ensures zone { IfOk result (λ found. IfSome found (λ zone. IsReadAmong origins.now (map row_of_record records.now) zone)) }
{
    let mut left = records;
    let mut largest = None;
    for origin in origins {
        let (own, other) = left.split_at(records_first(origin, left));
        let Some(zone) = zone_of_records(alloc, origin, own)? else {
            return Err(RowFault::BadRow);
        };
        largest = larger(largest, zone);
        left = other;
    }
    if !left.is_empty() {
        return Err(RowFault::BadRow);
    }
    Ok(largest)
}
