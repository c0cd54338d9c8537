//! What is written.

ghost use Rattle.std.specs.Prelude.{◌≡◌, IfOk};
ghost use Rattle.zone_core.specs.Sets.{is_same};

use crate::states::lines::{push_batch, word};
use anyhow::{Result, bail};
use dns_data::Record;
use dns_names::Name;
use grant_policy::Identifier;
use office_model::{Addition, Receipt};
use std::alloc::{AllocError, Global};
use store_rows::{
    addition_batch, new_tables_hold_nothing, read_reply, replacement_batch, zone_batch,
};
use store_sql::Batch;
use test_rows::Row;
use update_lines::read_items;
use zone_core::{Change, Operation, Update, Zone};

/// The origin of every zone that is written.
const ORIGIN: &[u8] = b"example.org.";

/// The update of the items after a word.
fn update_of(alloc: Global, body: &[u8], word: &str) -> Result<Update> {
    let items = items_behind(alloc, str::from_utf8(body)?, word)?;
    Ok(read_items(alloc, items.as_bytes())?)
}

/// The items of the lines that begin with a word, a line each.
fn items_behind(alloc: Global, lines: &str, word: &str) -> Result<String, AllocError> {
    let mut items = String::new(alloc);
    for line in lines.lines() {
        if let Some(item) = line.strip_prefix(word) {
            items.push_str(item)?;
            items.push_str("\n")?;
        }
    }
    Ok(items)
}

/// The records that the items after a word add.
fn records_of(alloc: Global, body: &[u8], word: &str) -> Result<Vec<Record>> {
    added(alloc, update_of(alloc, body, word)?.operations())
}

/// The records that operations add.
fn added(alloc: Global, operations: &[Operation]) -> Result<Vec<Record>> {
    let mut records = Vec::new(alloc);
    for operation in operations {
        match operation {
            Operation::Add(rr) => records.push(rr.try_copy(alloc)?)?,
            _ => bail!("this is no addition"),
        }
    }
    Ok(records)
}

fn zone_of(alloc: Global, body: &[u8], word: &str) -> Result<Zone> {
    let records = records_of(alloc, body, word)?;
    let origin = Name::read_absolute(alloc, ORIGIN)?;
    Ok(Zone::build(alloc, origin, records)?)
}

/// The change of the records after `gone` and `come`, if there is one.
fn change_of(alloc: Global, body: &[u8]) -> Result<Option<Change>> {
    let change = changed(alloc, body)?;
    Ok(if change.is_empty() {
        None
    } else {
        Some(change)
    })
}

fn changed(alloc: Global, body: &[u8]) -> Result<Change> {
    let removed = records_of(alloc, body, "gone ")?;
    let added = records_of(alloc, body, "come ")?;
    Ok(Change { removed, added })
}

/// Appends what is written for an update of the caller `admin` under the identifier `a1`.
pub fn push_addition(alloc: Global, row: &Row<'_>, answer: &mut Vec<u8>) -> Result<()> {
    let (number, reply) = word(str::from_utf8(&row.text)?);
    let number = number.parse()?;
    let addition = addition_of(alloc, reply, &row.body)?;
    push_addition_batch(alloc, &addition, number, answer)
}

fn addition_of(alloc: Global, reply: &str, body: &[u8]) -> Result<Addition> {
    let change = change_of(alloc, body)?;
    let receipt = receipt_of(alloc, reply, body)?;
    let (caller, id) = caller_and_id(alloc)?;
    Ok(Addition {
        caller,
        id,
        change,
        receipt,
    })
}

fn caller_and_id(alloc: Global) -> Result<(Identifier, Identifier)> {
    let caller = Identifier::read(alloc, b"admin")?;
    Ok((caller, Identifier::read(alloc, b"a1")?))
}

fn receipt_of(alloc: Global, reply: &str, body: &[u8]) -> Result<Receipt> {
    let origin = Name::read_absolute(alloc, ORIGIN)?;
    let reply = read_reply(alloc, reply)?;
    Ok(Receipt {
        origin,
        reply,
        update: update_of(alloc, body, "item ")?,
    })
}

fn push_addition_batch(
    alloc: Global,
    addition: &Addition,
    number: i64,
    answer: &mut Vec<u8>,
) -> Result<()> {
    let batch = addition_batch(alloc, addition, number)?;
    Ok(push_batch(alloc, &batch, answer)?)
}

/// Appends what is written for a new zone.
pub fn push_new_zone(alloc: Global, row: &Row<'_>, answer: &mut Vec<u8>) -> Result<()> {
    new_tables_hold_nothing();
    let zone = zone_of(alloc, &row.body, "")?;
    Ok(push_batch(alloc, &zone_batch(alloc, &zone)?, answer)?)
}

/// Whether two zones have the same records with the same TTLs.
fn have_same(alloc: Global, old: &Zone, new: &Zone) -> Result<bool, AllocError>
    ensures { IfOk result (λ same. same ≡ is_same old.now.records new.now.records) }
{
    let change = Change::between(alloc, old.records(), new.records())?;
    Ok(change.is_empty())
}

/// What is written for a zone in the place of another one, if they have one origin and differ.
fn replaced(
    alloc: Global,
    old: &Zone,
    new: &Zone,
    number: i64,
) -> Result<Option<Batch>, AllocError> {
    if have_same(alloc, old, new)? || old.origin() != new.origin() {
        return Ok(None);
    }
    Ok(Some(replacement_batch(alloc, old, new, number)?))
}

/// Appends what is written for a zone in the place of another.
pub fn push_replacement(alloc: Global, row: &Row<'_>, answer: &mut Vec<u8>) -> Result<()> {
    let number = str::from_utf8(&row.text)?.parse()?;
    let old = zone_of(alloc, &row.body, "old ")?;
    let new = zone_of(alloc, &row.body, "new ")?;
    Ok(push_replaced(alloc, &old, &new, number, answer)?)
}

fn push_replaced(
    alloc: Global,
    old: &Zone,
    new: &Zone,
    number: i64,
    answer: &mut Vec<u8>,
) -> Result<(), AllocError> {
    match replaced(alloc, old, new, number)? {
        Some(batch) => push_batch(alloc, &batch, answer),
        None => answer.extend_from_slice(b"nothing\n"),
    }
}
