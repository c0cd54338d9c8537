//! Rows of records, receipts and changes: written, and read.

use crate::columns::{
    change_of, change_text, receipt_of, receipt_text, record_of, record_text, text_of,
};
use crate::refusal::Refusal;
use dns_data::Record;
use dns_names::Name;
use grant_policy::Identifier;
use office_model::{Receipt, reply_words};
use std::alloc::{AllocError, Global};
use store_rows::{
    RowFault, change_rows, read_changes, read_origin, read_receipt, read_record, read_reply,
    receipt_row, record_row,
};
use store_sql::{ReceiptRow, RecordRow};
use test_rows::{Row, word};
use update_lines::{items_text, read_items};
use zone_core::{Change, Operation, Update};

/// Appends the origin of a text.
pub fn push_origin(alloc: Global, text: &[u8], answer: &mut Vec<u8>) -> Result<(), Refusal> {
    let origin = read_origin(alloc, text_of(text)?)?;
    Ok(answer.extend_from_slice(origin.text(alloc)?.as_bytes())?)
}

/// Appends the origin and the record of a row.
pub fn push_record(alloc: Global, row: &[u8], answer: &mut Vec<u8>) -> Result<(), Refusal> {
    push_read_record(alloc, &record_of(alloc, text_of(row)?)?, answer)
}

fn push_read_record(alloc: Global, row: &RecordRow, answer: &mut Vec<u8>) -> Result<(), Refusal> {
    let (origin, record) = read_record(alloc, row)?;
    push(format!(in alloc; "{record} in {origin}"), answer)
}

/// Appends a text that was made.
fn push(text: Result<String, AllocError>, answer: &mut Vec<u8>) -> Result<(), Refusal> {
    Ok(answer.extend_from_slice(text?.as_bytes())?)
}

/// The update of item lines.
fn update_of(alloc: Global, lines: &[u8]) -> Result<Update, Refusal> {
    Ok(read_items(alloc, lines).map_err(RowFault::from)?)
}

/// Appends the row of the record that an item adds, which has to be read as that record.
pub fn push_record_row(
    alloc: Global,
    origin: &[u8],
    item: &[u8],
    answer: &mut Vec<u8>,
) -> Result<(), Refusal> {
    let origin = read_origin(alloc, text_of(origin)?)?;
    match update_of(alloc, item)?.operations() {
        [Operation::Add(record)] => push_written_record(alloc, &origin, record, answer),
        _ => Ok(()),
    }
}

fn push_written_record(
    alloc: Global,
    origin: &Name,
    record: &Record,
    answer: &mut Vec<u8>,
) -> Result<(), Refusal> {
    let row = record_row(alloc, origin, record)?;
    push(record_text(alloc, &row), answer)?;
    if is_of_record(alloc, &row, origin, record)? {
        return Ok(());
    }
    Ok(answer.extend_from_slice(b", which is that of another record")?)
}

/// Whether a row is read as a record in a zone.
fn is_of_record(
    alloc: Global,
    row: &RecordRow,
    origin: &Name,
    record: &Record,
) -> Result<bool, Refusal> {
    let (of, read) = read_record(alloc, row)?;
    Ok(of == *origin && read == *record)
}

/// Appends the caller, the identifier and the receipt of a row.
pub fn push_receipt(alloc: Global, row: &[u8], answer: &mut Vec<u8>) -> Result<(), Refusal> {
    push_read_receipt(alloc, &receipt_of(alloc, text_of(row)?)?, answer)
}

fn push_read_receipt(alloc: Global, row: &ReceiptRow, answer: &mut Vec<u8>) -> Result<(), Refusal> {
    let (caller, id, receipt) = read_receipt(alloc, row)?;
    push_kept(alloc, &caller, &id, &receipt, answer)
}

fn push_kept(
    alloc: Global,
    caller: &Identifier,
    id: &Identifier,
    receipt: &Receipt,
    answer: &mut Vec<u8>,
) -> Result<(), Refusal> {
    answer.extend_from_slice(caller.as_bytes())?;
    answer.push(b' ')?;
    answer.extend_from_slice(id.as_bytes())?;
    let origin = &receipt.origin;
    push(format!(in alloc; " {origin} "), answer)?;
    push(reply_words(alloc, &receipt.reply), answer)?;
    answer.push(b'\n')?;
    push(items_text(alloc, &receipt.update), answer)
}

/// Appends the row of the receipt of a caller under an identifier, which has to be read as that receipt.
pub fn push_receipt_row(alloc: Global, row: &Row<'_>, answer: &mut Vec<u8>) -> Result<(), Refusal> {
    let (caller, rest) = row.split();
    let (id, rest) = word(rest);
    let receipt = receipt(alloc, rest, &row.body)?;
    push_receipt_row_of(alloc, caller, id, &receipt, answer)
}

/// The receipt of `ORIGIN REPLY` and of item lines.
fn receipt(alloc: Global, text: &[u8], items: &[u8]) -> Result<Receipt, Refusal> {
    let (origin, reply) = word(text);
    let (origin, reply) = (text_of(origin)?, text_of(reply)?);
    let origin = read_origin(alloc, origin)?;
    let reply = read_reply(alloc, reply)?;
    Ok(Receipt {
        origin,
        reply,
        update: update_of(alloc, items)?,
    })
}

fn push_receipt_row_of(
    alloc: Global,
    caller: &[u8],
    id: &[u8],
    receipt: &Receipt,
    answer: &mut Vec<u8>,
) -> Result<(), Refusal> {
    let caller = identifier(alloc, caller)?;
    push_written_receipt(alloc, &caller, &identifier(alloc, id)?, receipt, answer)
}

fn identifier(alloc: Global, text: &[u8]) -> Result<Identifier, Refusal> {
    Ok(Identifier::read(alloc, text).map_err(RowFault::from)?)
}

fn push_written_receipt(
    alloc: Global,
    caller: &Identifier,
    id: &Identifier,
    receipt: &Receipt,
    answer: &mut Vec<u8>,
) -> Result<(), Refusal> {
    let row = receipt_row(alloc, caller, id, receipt)?;
    push(receipt_text(alloc, &row), answer)?;
    if is_of_receipt(alloc, &row, caller, id, receipt)? {
        return Ok(());
    }
    Ok(answer.extend_from_slice(b", which is that of another receipt")?)
}

/// Whether a row is read as the receipt of a caller under an identifier.
fn is_of_receipt(
    alloc: Global,
    row: &ReceiptRow,
    caller: &Identifier,
    id: &Identifier,
    receipt: &Receipt,
) -> Result<bool, Refusal> {
    let (of, under, read) = read_receipt(alloc, row)?;
    let is_kept = of == *caller && under == *id && read.origin == receipt.origin;
    Ok(is_kept && read.update.is_same(&receipt.update))
}

/// Appends the rows of the changes that the rows below have, in order, as those of the zone of an origin.
pub fn push_changes(alloc: Global, row: &Row<'_>, answer: &mut Vec<u8>) -> Result<(), Refusal> {
    let origin = read_origin(alloc, text_of(&row.text)?)?;
    let changes = changes(alloc, text_of(&row.body)?)?;
    for (number, change) in (1i64..).zip(&changes) {
        push_change(alloc, &origin, number, change, answer)?;
    }
    Ok(())
}

fn changes(alloc: Global, lines: &str) -> Result<Vec<Change>, Refusal> {
    let mut rows = Vec::new(alloc);
    for line in lines.lines() {
        rows.push(change_of(alloc, line)?)?;
    }
    Ok(read_changes(alloc, &rows)?)
}

fn push_change(
    alloc: Global,
    origin: &Name,
    number: i64,
    change: &Change,
    answer: &mut Vec<u8>,
) -> Result<(), Refusal> {
    for row in &change_rows(alloc, origin, number, change)? {
        push(change_text(alloc, row), answer)?;
        answer.push(b'\n')?;
    }
    Ok(())
}
