//! Rows as texts, with a bar between two columns.

use crate::refusal::Refusal;
use std::alloc::{AllocError, Global};
use store_sql::{ChangeRow, ReceiptRow, RecordRow};

/// The text of octets in UTF-8.
pub fn text_of(octets: &[u8]) -> Result<&str, Refusal> {
    str::from_utf8(octets).or(Err(Refusal::Columns))
}

/// The text before its first bar, and what stands after it.
fn column(text: &str) -> Result<(&str, &str), Refusal> {
    text.split_once('|').ok_or(Refusal::Columns)
}

/// A text that is a column, and the last one.
fn last(text: &str) -> Result<&str, Refusal> {
    if text.contains('|') {
        Err(Refusal::Columns)
    } else {
        Ok(text)
    }
}

fn number(column: &str) -> Result<i64, Refusal> {
    column.parse::<i64>().or(Err(Refusal::Columns))
}

fn two(alloc: Global, one: &str, other: &str) -> Result<(String, String), AllocError> {
    let one = String::from_str(alloc, one)?;
    Ok((one, String::from_str(alloc, other)?))
}

/// The row of a record.
pub fn record_of(alloc: Global, text: &str) -> Result<RecordRow, Refusal> {
    let (origin, rest) = column(text)?;
    let (owner, rest) = column(rest)?;
    let (record_type, rest) = column(rest)?;
    let (rdata, rest) = column(rest)?;
    let (ttl, key) = column(rest)?;
    let numbers = (number(record_type)?, number(ttl)?);
    Ok(record_in(alloc, (origin, owner), numbers, (rdata, last(key)?))?)
}

/// The row of a record: its origin and owner, its type and TTL, its data and key.
pub(crate) fn record_in(
    alloc: Global,
    (origin, owner): (&str, &str),
    (record_type, ttl): (i64, i64),
    (rdata, key): (&str, &str),
) -> Result<RecordRow, AllocError> {
    let (origin, owner) = two(alloc, origin, owner)?;
    let rdata = String::from_str(alloc, rdata)?;
    Ok(RecordRow {
        origin,
        owner,
        record_type,
        rdata,
        ttl,
        owner_key: Vec::from_slice(alloc, key.as_bytes())?,
    })
}

/// The row of a change.
pub fn change_of(alloc: Global, text: &str) -> Result<ChangeRow, Refusal> {
    let (origin, rest) = column(text)?;
    let (change, rest) = column(rest)?;
    let (side, rest) = column(rest)?;
    let (owner, rest) = column(rest)?;
    let numbers = (number(change)?, number(side)?);
    let (numbers_of_data, rdata) = data_of(rest)?;
    Ok(change_in(alloc, (origin, owner), numbers, numbers_of_data, rdata)?)
}

/// The type, the TTL and the data of the row of a change.
fn data_of(text: &str) -> Result<((i64, i64), &str), Refusal> {
    let (record_type, rest) = column(text)?;
    let (rdata, ttl) = column(rest)?;
    Ok(((number(record_type)?, number(ttl)?), rdata))
}

/// The row of a change: its origin and owner, its number and side, its type and TTL, its data.
pub(crate) fn change_in(
    alloc: Global,
    (origin, owner): (&str, &str),
    (number, side): (i64, i64),
    (record_type, ttl): (i64, i64),
    rdata: &str,
) -> Result<ChangeRow, AllocError> {
    let (origin, owner) = two(alloc, origin, owner)?;
    Ok(ChangeRow {
        origin,
        number,
        side,
        owner,
        record_type,
        rdata: String::from_str(alloc, rdata)?,
        ttl,
    })
}

/// The row of a receipt.
pub fn receipt_of(alloc: Global, text: &str) -> Result<ReceiptRow, Refusal> {
    let (caller, rest) = column(text)?;
    let (id, rest) = column(rest)?;
    let (origin, rest) = column(rest)?;
    let (request, reply) = column(rest)?;
    let reply = last(reply)?;
    let request = String::from_str(alloc, request)?;
    Ok(receipt_in(alloc, (caller, id), (origin, reply), request)?)
}

/// The row of a receipt: its caller and identifier, its origin and reply, its request.
pub(crate) fn receipt_in(
    alloc: Global,
    (caller, id): (&str, &str),
    (origin, reply): (&str, &str),
    request: String,
) -> Result<ReceiptRow, AllocError> {
    let (caller, id) = two(alloc, caller, id)?;
    let (origin, reply) = two(alloc, origin, reply)?;
    Ok(ReceiptRow {
        caller,
        id,
        origin,
        request,
        reply,
    })
}

/// The text of the row of a record.
pub fn record_text(alloc: Global, row: &RecordRow) -> Result<String, AllocError> {
    let (origin, owner, rdata) = (&row.origin, &row.owner, &row.rdata);
    let (number, ttl) = (row.record_type, row.ttl);
    let key = String::from_utf8_lossy(alloc, &row.owner_key)?;
    format!(in alloc; "{origin}|{owner}|{number}|{rdata}|{ttl}|{key}")
}

/// The text of the row of a change.
pub fn change_text(alloc: Global, row: &ChangeRow) -> Result<String, AllocError> {
    let (origin, change, side, owner) = (&row.origin, row.number, row.side, &row.owner);
    let (number, rdata, ttl) = (row.record_type, &row.rdata, row.ttl);
    format!(in alloc; "{origin}|{change}|{side}|{owner}|{number}|{rdata}|{ttl}")
}

/// The text of the row of a receipt.
pub fn receipt_text(alloc: Global, row: &ReceiptRow) -> Result<String, AllocError> {
    let (caller, id, origin) = (&row.caller, &row.id, &row.origin);
    let (request, reply) = (&row.request, &row.reply);
    format!(in alloc; "{caller}|{id}|{origin}|{request}|{reply}")
}
