//! Rows of tables as lines.

use crate::columns::{change_in, receipt_in, record_in};
use anyhow::{Result, bail};
use std::alloc::{AllocError, Global};
use store_sql::{AllRows, Batch, ChangeRow, ReceiptRow, RecordRow, ZoneRow};

/// The first word of a text, and what stands after it.
pub fn word(text: &str) -> (&str, &str) {
    text.split_once(' ').unwrap_or((text, ""))
}

/// No rows.
pub fn no_rows(alloc: Global) -> AllRows {
    AllRows {
        versions: Vec::new(alloc),
        zones: Vec::new(alloc),
        records: Vec::new(alloc),
        receipts: Vec::new(alloc),
        changes: Vec::new(alloc),
    }
}

/// Adds the row of a line.
pub fn push_row(alloc: Global, line: &str, rows: &mut AllRows) -> Result<()> {
    let (table, text) = word(line);
    match table {
        "version" => push_version(text, &mut rows.versions),
        "zone" => push_zone(alloc, text, &mut rows.zones),
        "record" => push_record_row(alloc, text, &mut rows.records),
        "change" => push_change_row(alloc, text, &mut rows.changes),
        "receipt" => push_receipt_row(alloc, text, &mut rows.receipts),
        _ => bail!("there is no such table"),
    }
}

fn push_version(text: &str, versions: &mut Vec<i64>) -> Result<()> {
    versions.push(text.parse()?)?;
    Ok(())
}

fn push_zone(alloc: Global, text: &str, zones: &mut Vec<ZoneRow>) -> Result<()> {
    let origin = String::from_str(alloc, text)?;
    zones.push(ZoneRow { origin })?;
    Ok(())
}

fn push_record_row(alloc: Global, text: &str, rows: &mut Vec<RecordRow>) -> Result<()> {
    rows.push(record_row(alloc, text)?)?;
    Ok(())
}

fn push_change_row(alloc: Global, text: &str, rows: &mut Vec<ChangeRow>) -> Result<()> {
    rows.push(change_row(alloc, text)?)?;
    Ok(())
}

fn push_receipt_row(alloc: Global, text: &str, rows: &mut Vec<ReceiptRow>) -> Result<()> {
    rows.push(receipt_row(alloc, text)?)?;
    Ok(())
}

/// The rows of lines.
pub fn rows_of(alloc: Global, text: &[u8]) -> Result<AllRows> {
    let mut rows = no_rows(alloc);
    for line in str::from_utf8(text)?.lines() {
        push_row(alloc, line, &mut rows)?;
    }
    Ok(rows)
}

fn record_row(alloc: Global, text: &str) -> Result<RecordRow> {
    let (origin, rest) = word(text);
    let (owner, rest) = word(rest);
    let (record_type, rest) = word(rest);
    let (ttl, rest) = word(rest);
    let numbers = (record_type.parse()?, ttl.parse()?);
    let (key, rdata) = word(rest);
    Ok(record_in(alloc, (origin, owner), numbers, (rdata, key))?)
}

fn change_row(alloc: Global, text: &str) -> Result<ChangeRow> {
    let (origin, rest) = word(text);
    let (number, rest) = word(rest);
    let (side, rest) = word(rest);
    let (owner, rest) = word(rest);
    let numbers = (number.parse()?, side.parse()?);
    let (numbers_of_data, rdata) = data_of(rest)?;
    Ok(change_in(alloc, (origin, owner), numbers, numbers_of_data, rdata)?)
}

/// The type, the TTL and the data of the row of a change.
fn data_of(text: &str) -> Result<((i64, i64), &str)> {
    let (record_type, rest) = word(text);
    let (ttl, rdata) = word(rest);
    Ok(((record_type.parse()?, ttl.parse()?), rdata))
}

fn receipt_row(alloc: Global, text: &str) -> Result<ReceiptRow, AllocError> {
    let (caller, rest) = word(text);
    let (id, rest) = word(rest);
    let (origin, rest) = word(rest);
    let (items, reply) = rest.rsplit_once('|').unwrap_or(("", rest));
    receipt_in(alloc, (caller, id), (origin, reply), request(alloc, items)?)
}

/// The lines of items with bars between them.
fn request(alloc: Global, items: &str) -> Result<String, AllocError> {
    let mut lines = items.replace(alloc, "|", "\n")?;
    lines.push_str("\n")?;
    Ok(lines)
}

fn push_record(
    alloc: Global,
    table: &str,
    row: &RecordRow,
    answer: &mut Vec<u8>,
) -> Result<(), AllocError> {
    let (origin, owner, record_type) = (&row.origin, &row.owner, row.record_type);
    let text = format!(in alloc; "{table} {origin} {owner} {record_type} {} ", row.ttl)?;
    answer.extend_from_slice(text.as_bytes())?;
    answer.extend_from_slice(&row.owner_key)?;
    answer.extend_from_slice(format!(in alloc; " {}\n", row.rdata)?.as_bytes())
}

fn push_change(alloc: Global, row: &ChangeRow, answer: &mut Vec<u8>) -> Result<(), AllocError> {
    let (origin, number, side, owner) = (&row.origin, row.number, row.side, &row.owner);
    let (record_type, ttl) = (row.record_type, row.ttl);
    let text = format!(in alloc;
        "change {origin} {number} {side} {owner} {record_type} {ttl} {}\n",
        row.rdata
    )?;
    answer.extend_from_slice(text.as_bytes())
}

fn push_receipt(alloc: Global, row: &ReceiptRow, answer: &mut Vec<u8>) -> Result<(), AllocError> {
    let (caller, id, origin) = (&row.caller, &row.id, &row.origin);
    let items = row.request.replace(alloc, "\n", "|")?;
    let text = format!(in alloc; "receipt {caller} {id} {origin} {items}{}\n", row.reply)?;
    answer.extend_from_slice(text.as_bytes())
}

/// Appends a line for each row that is written, and `gone` in the place of `record` for those that go.
pub fn push_batch(alloc: Global, batch: &Batch, answer: &mut Vec<u8>) -> Result<(), AllocError> {
    if let Some(version) = batch.version {
        answer.extend_from_slice(format!(in alloc; "version {version}\n")?.as_bytes())?;
    }
    for origin in &batch.zones {
        answer.extend_from_slice(format!(in alloc; "zone {origin}\n")?.as_bytes())?;
    }
    for row in &batch.removed {
        push_record(alloc, "gone", row, answer)?;
    }
    for row in &batch.added {
        push_record(alloc, "record", row, answer)?;
    }
    for row in &batch.changes {
        push_change(alloc, row, answer)?;
    }
    for row in &batch.receipts {
        push_receipt(alloc, row, answer)?;
    }
    Ok(())
}
