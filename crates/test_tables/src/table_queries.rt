//! Questions, and their answers as text.

ghost use Rattle.std.specs.Prelude.{◌≡◌, false};

use crate::columns::{change_text, receipt_text, record_text, text_of};
use crate::refusal::Refusal;
use sqlite::{Alter, Connection};
use std::alloc::{AllocError, Global};
use store_sql::{
    AllRows, ChangeRow, ReceiptRow, RecordRow, all_rows, changes_of, has_zone, last_number,
    receipts_of, records_at, records_between, records_of, versions,
};
use test_rows::Row;

/// Appends texts in order, each on a line; `none` for an empty list.
fn push_lines(mut texts: Vec<String>, answer: &mut Vec<u8>) -> Result<(), Refusal> {
    if texts.is_empty() {
        answer.extend_from_slice(b"none\n")?;
    }
    texts.sort()?;
    for text in &texts {
        answer.extend_from_slice(text.as_bytes())?;
        answer.push(b'\n')?;
    }
    Ok(())
}

fn push_rows(alloc: Global, rows: &[RecordRow], answer: &mut Vec<u8>) -> Result<(), Refusal> {
    let mut texts = Vec::new(alloc);
    for row in rows {
        texts.push(record_text(alloc, row)?)?;
    }
    push_lines(texts, answer)
}

/// Appends whether there is a zone of an origin.
pub fn push_zone<S: Alter>(
    conn: &mut Connection<S>,
    row: &Row<'_>,
    answer: &mut Vec<u8>,
) -> Result<(), Refusal>
    requires { conn.old.in_transaction ≡ false }
{
    let is_there = has_zone(conn, text_of(&row.text)?)?;
    let told = if is_there { "yes" } else { "no" };
    Ok(answer.extend_from_slice(told.as_bytes())?)
}

/// Appends the records of a zone.
pub fn push_records<S: Alter>(
    alloc: Global,
    conn: &mut Connection<S>,
    row: &Row<'_>,
    answer: &mut Vec<u8>,
) -> Result<(), Refusal>
    requires { conn.old.in_transaction ≡ false }
{
    push_rows(
        alloc,
        &records_of(alloc, conn, text_of(&row.text)?)?,
        answer,
    )
}

/// Appends the records of a zone at a key.
pub fn push_records_at<S: Alter>(
    alloc: Global,
    conn: &mut Connection<S>,
    row: &Row<'_>,
    answer: &mut Vec<u8>,
) -> Result<(), Refusal>
    requires { conn.old.in_transaction ≡ false }
{
    let (origin, key) = row.split();
    let origin = text_of(origin)?;
    push_rows(alloc, &records_at(alloc, conn, origin, key)?, answer)
}

/// Appends the records of a zone from one key on and below another.
pub fn push_records_between<S: Alter>(
    alloc: Global,
    conn: &mut Connection<S>,
    row: &Row<'_>,
    answer: &mut Vec<u8>,
) -> Result<(), Refusal>
    requires { conn.old.in_transaction ≡ false }
{
    let words = row.words(alloc)?;
    let [origin, from, to] = words.as_slice() else {
        return Err(Refusal::Columns);
    };
    let origin = text_of(origin)?;
    push_rows(
        alloc,
        &records_between(alloc, conn, origin, from, to)?,
        answer,
    )
}

/// Appends the receipts of a caller under an identifier.
pub fn push_receipts<S: Alter>(
    alloc: Global,
    conn: &mut Connection<S>,
    row: &Row<'_>,
    answer: &mut Vec<u8>,
) -> Result<(), Refusal>
    requires { conn.old.in_transaction ≡ false }
{
    let (caller, id) = row.split();
    let (caller, id) = (text_of(caller)?, text_of(id)?);
    let mut texts = Vec::new(alloc);
    for receipt in &receipts_of(alloc, conn, caller, id)? {
        texts.push(receipt_text(alloc, receipt)?)?;
    }
    push_lines(texts, answer)
}

/// Appends what the changes of a zone took away and brought.
pub fn push_changes<S: Alter>(
    alloc: Global,
    conn: &mut Connection<S>,
    row: &Row<'_>,
    answer: &mut Vec<u8>,
) -> Result<(), Refusal>
    requires { conn.old.in_transaction ≡ false }
{
    let mut texts = Vec::new(alloc);
    for change in &changes_of(alloc, conn, text_of(&row.text)?)? {
        texts.push(change_text(alloc, change)?)?;
    }
    push_lines(texts, answer)
}

/// Appends the greatest number of a change of a zone.
pub fn push_last<S: Alter>(
    alloc: Global,
    conn: &mut Connection<S>,
    row: &Row<'_>,
    answer: &mut Vec<u8>,
) -> Result<(), Refusal>
    requires { conn.old.in_transaction ≡ false }
{
    match last_number(alloc, conn, text_of(&row.text)?)? {
        Some(number) => {
            let number = format!(in alloc; "{number}")?;
            Ok(answer.extend_from_slice(number.as_bytes())?)
        }
        None => Ok(answer.extend_from_slice(b"none")?),
    }
}

/// Appends the versions.
pub fn push_versions<S: Alter>(
    alloc: Global,
    conn: &mut Connection<S>,
    answer: &mut Vec<u8>,
) -> Result<(), Refusal>
    requires { conn.old.in_transaction ≡ false }
{
    let mut texts = Vec::new(alloc);
    for version in &versions(alloc, conn)? {
        texts.push(format!(in alloc; "{version}")?)?;
    }
    push_lines(texts, answer)
}

/// Appends all rows, each after what it is.
pub fn push_all<S: Alter>(
    alloc: Global,
    conn: &mut Connection<S>,
    answer: &mut Vec<u8>,
) -> Result<(), Refusal>
    requires { conn.old.in_transaction ≡ false }
{
    let mut texts = Vec::new(alloc);
    push_texts(alloc, &all_rows(alloc, conn)?, &mut texts)?;
    push_lines(texts, answer)
}

/// Appends a text for each row.
fn push_texts(alloc: Global, all: &AllRows, texts: &mut Vec<String>) -> Result<(), AllocError> {
    for version in &all.versions {
        texts.push(format!(in alloc; "version {version}")?)?;
    }
    for zone in &all.zones {
        texts.push(format!(in alloc; "zone {}", zone.origin)?)?;
    }
    push_record_texts(alloc, &all.records, texts)?;
    push_receipt_texts(alloc, &all.receipts, texts)?;
    push_change_texts(alloc, &all.changes, texts)
}

fn push_record_texts(
    alloc: Global,
    rows: &[RecordRow],
    texts: &mut Vec<String>,
) -> Result<(), AllocError> {
    for row in rows {
        let text = record_text(alloc, row)?;
        texts.push(format!(in alloc; "record {text}")?)?;
    }
    Ok(())
}

fn push_receipt_texts(
    alloc: Global,
    rows: &[ReceiptRow],
    texts: &mut Vec<String>,
) -> Result<(), AllocError> {
    for row in rows {
        let text = receipt_text(alloc, row)?;
        texts.push(format!(in alloc; "receipt {text}")?)?;
    }
    Ok(())
}

fn push_change_texts(
    alloc: Global,
    rows: &[ChangeRow],
    texts: &mut Vec<String>,
) -> Result<(), AllocError> {
    for row in rows {
        let text = change_text(alloc, row)?;
        texts.push(format!(in alloc; "change {text}")?)?;
    }
    Ok(())
}
