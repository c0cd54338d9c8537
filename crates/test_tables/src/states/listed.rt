//! What is listed of the rows of all tables.

use anyhow::Result;
use dns_names::Name;
use std::alloc::{AllocError, Global};
use store_rows::{
    ChangedRecord, KeptReceipt, ZoneChanges, check_changes, checked_origins, kept_receipts,
    origins, sorted_changes,
};
use store_sql::AllRows;
use test_rows::Row;

/// Appends the origins of the zones, the receipts, or the changes of the zone with the most rows of them.
pub fn push_listed(
    alloc: Global,
    row: &Row<'_>,
    rows: &AllRows,
    answer: &mut Vec<u8>,
) -> Result<()> {
    match row.verb {
        "origins" => Ok(push_origins(alloc, &origins(alloc, &rows.zones)?, answer)?),
        "longest" => push_longest(alloc, rows, answer),
        _ => Ok(push_receipts(alloc, &kept_receipts(alloc, &rows.receipts)?, answer)?),
    }
}

/// The origin of the zone with the most rows of changes, and what these have.
fn push_longest(alloc: Global, rows: &AllRows, answer: &mut Vec<u8>) -> Result<()> {
    let origins = checked_origins(origins(alloc, &rows.zones)?)?;
    match check_changes(alloc, &origins, sorted_changes(alloc, &rows.changes)?)? {
        Some(zone) => Ok(push_zone_changes(alloc, &zone, answer)?),
        None => Ok(answer.extend_from_slice(b"no change\n")?),
    }
}

fn push_zone_changes(
    alloc: Global,
    zone: &ZoneChanges,
    answer: &mut Vec<u8>,
) -> Result<(), AllocError> {
    let origin = zone.origin.text(alloc)?;
    answer.extend_from_slice(format!(in alloc; "{origin}\n")?.as_bytes())?;
    for changed in &zone.changed {
        push_changed(alloc, changed, answer)?;
    }
    Ok(())
}

/// The number of the change, its side and the record.
fn push_changed(
    alloc: Global,
    changed: &ChangedRecord,
    answer: &mut Vec<u8>,
) -> Result<(), AllocError> {
    let (number, side, record) = (changed.number, changed.side.number(), &changed.changed);
    answer.extend_from_slice(format!(in alloc; "{number} {side} {record}\n")?.as_bytes())
}

fn push_origins(alloc: Global, origins: &[Name], answer: &mut Vec<u8>) -> Result<(), AllocError> {
    for origin in origins {
        let text = origin.text(alloc)?;
        answer.extend_from_slice(format!(in alloc; "{text}\n")?.as_bytes())?;
    }
    Ok(())
}

/// The caller, the identifier and the origin of each.
fn push_receipts(
    alloc: Global,
    receipts: &[KeptReceipt],
    answer: &mut Vec<u8>,
) -> Result<(), AllocError> {
    for kept in receipts {
        let (caller, id) = (kept.caller.as_str(), kept.id.as_str());
        let origin = kept.receipt.origin.text(alloc)?;
        answer.extend_from_slice(format!(in alloc; "{caller} {id} {origin}\n")?.as_bytes())?;
    }
    Ok(())
}
