//! What is read of rows.

use crate::states::lines::rows_of;
use anyhow::Result;
use dns_data::Record;
use dns_names::Name;
use std::alloc::{AllocError, Global};
use store_rows::{RowFault, changes_of, part_of, receipt_of, records_within, zone_of};
use store_sql::{AllRows, ChangeRow, ReceiptRow, RecordRow};
use test_rows::Row;
use zone_core::{Change, Zone};

fn push_records(
    alloc: Global,
    sign: &str,
    records: &[Record],
    answer: &mut Vec<u8>,
) -> Result<(), AllocError> {
    for record in records {
        answer.extend_from_slice(format!(in alloc; "{sign}{record}\n")?.as_bytes())?;
    }
    Ok(())
}

fn push_changes(alloc: Global, changes: &[Change], answer: &mut Vec<u8>) -> Result<(), AllocError> {
    for change in changes {
        answer.extend_from_slice(b"change\n")?;
        push_records(alloc, "- ", &change.removed, answer)?;
        push_records(alloc, "+ ", &change.added, answer)?;
    }
    Ok(())
}

fn push_zone(
    alloc: Global,
    zone: Result<Zone, RowFault>,
    answer: &mut Vec<u8>,
) -> Result<(), AllocError> {
    match zone {
        Ok(zone) => push_records(alloc, "", zone.records(), answer),
        Err(fault) => push_fault(alloc, fault, answer),
    }
}

fn push_fault(alloc: Global, fault: RowFault, answer: &mut Vec<u8>) -> Result<(), AllocError> {
    answer.extend_from_slice(format!(in alloc; "refused: {fault}\n")?.as_bytes())
}

/// Appends what is read of the rows of a body.
pub fn push_read(alloc: Global, row: &Row<'_>, answer: &mut Vec<u8>) -> Result<()> {
    match row.verb {
        "changes" => push_read_changes(alloc, row, answer),
        _ => push_read_of(alloc, row, &rows_of(alloc, &row.body)?, answer),
    }
}

fn push_read_of(alloc: Global, row: &Row<'_>, rows: &AllRows, answer: &mut Vec<u8>) -> Result<()> {
    match row.verb {
        "zone" | "part" => push_zone_at(alloc, row, &rows.records, answer),
        "subtree" => Ok(push_subtree(alloc, &rows.records, answer)?),
        _ => Ok(push_receipt(alloc, &rows.receipts, answer)?),
    }
}

/// Appends the zone of the origin of a row, or its part.
fn push_zone_at(
    alloc: Global,
    row: &Row<'_>,
    records: &[RecordRow],
    answer: &mut Vec<u8>,
) -> Result<()> {
    let origin = Name::read_absolute(alloc, &row.text)?;
    let zone = match row.verb {
        "zone" => zone_of(alloc, &origin, records),
        _ => part_of(alloc, &origin, records),
    };
    Ok(push_zone(alloc, zone, answer)?)
}

fn push_subtree(alloc: Global, rows: &[RecordRow], answer: &mut Vec<u8>) -> Result<(), AllocError> {
    match records_within(alloc, rows) {
        Ok(records) => push_records(alloc, "", &records, answer),
        Err(fault) => push_fault(alloc, fault, answer),
    }
}

fn push_receipt(
    alloc: Global,
    rows: &[ReceiptRow],
    answer: &mut Vec<u8>,
) -> Result<(), AllocError> {
    match receipt_of(alloc, rows) {
        Ok(Some(_)) => answer.extend_from_slice(b"a receipt\n"),
        Ok(None) => answer.extend_from_slice(b"no receipt\n"),
        Err(fault) => push_fault(alloc, fault, answer),
    }
}

fn push_read_changes(alloc: Global, row: &Row<'_>, answer: &mut Vec<u8>) -> Result<()> {
    let AllRows { changes, .. } = rows_of(alloc, &row.body)?;
    Ok(push_changes_of(alloc, changes, answer)?)
}

fn push_changes_of(
    alloc: Global,
    rows: Vec<ChangeRow>,
    answer: &mut Vec<u8>,
) -> Result<(), AllocError> {
    match changes_of(alloc, rows) {
        Ok(changes) => push_changes(alloc, &changes, answer),
        Err(fault) => push_fault(alloc, fault, answer),
    }
}
