//! What is written at once.

use crate::columns::{change_of, receipt_of, record_of};
use crate::refusal::Refusal;
use std::alloc::Global;
use store_sql::{Batch, ChangeRow, ReceiptRow, RecordRow};

/// The batch of lines, each a word and the row of its kind.
pub fn batch_of(alloc: Global, lines: &str) -> Result<Batch, Refusal> {
    let mut batch = Batch {
        version: None,
        zones: Vec::new(alloc),
        removed: Vec::new(alloc),
        added: Vec::new(alloc),
        changes: Vec::new(alloc),
        receipts: Vec::new(alloc),
    };
    for line in lines.lines() {
        push_line(alloc, &mut batch, line)?;
    }
    Ok(batch)
}

fn push_line(alloc: Global, batch: &mut Batch, line: &str) -> Result<(), Refusal> {
    let (kind, row) = line.split_once(' ').unwrap_or((line, ""));
    match kind {
        "version" => batch.version = row.parse::<i64>().ok(),
        "zone" => return push_zone(alloc, row, &mut batch.zones),
        "remove" => return push_record(alloc, row, &mut batch.removed),
        "add" => return push_record(alloc, row, &mut batch.added),
        "change" => return push_change(alloc, row, &mut batch.changes),
        "receipt" => return push_receipt(alloc, row, &mut batch.receipts),
        _ => return Err(Refusal::Columns),
    }
    Ok(())
}

fn push_zone(alloc: Global, text: &str, zones: &mut Vec<String>) -> Result<(), Refusal> {
    zones.push(String::from_str(alloc, text)?)?;
    Ok(())
}

fn push_record(alloc: Global, text: &str, rows: &mut Vec<RecordRow>) -> Result<(), Refusal> {
    rows.push(record_of(alloc, text)?)?;
    Ok(())
}

fn push_change(alloc: Global, text: &str, rows: &mut Vec<ChangeRow>) -> Result<(), Refusal> {
    rows.push(change_of(alloc, text)?)?;
    Ok(())
}

fn push_receipt(alloc: Global, text: &str, rows: &mut Vec<ReceiptRow>) -> Result<(), Refusal> {
    rows.push(receipt_of(alloc, text)?)?;
    Ok(())
}
