//! Rows of a zone before changes, and of the changes that brought its records.

use crate::refusal::Refusal;
use crate::zones::lines::{push, push_records};
use crate::zones::parsed_rows::{file, update};
use dns_data::{Record, record_line};
use dns_names::Name;
use std::alloc::Global;
use test_rows::text_of;
use zone_core::{Change, Update, Zone};
use zone_tools::{bringers, makers, records_before};

/// The records of the lines of a text that begin with a mark, after it.
fn marked(alloc: Global, text: &str, mark: &str, origin: &Name) -> Result<Vec<Record>, Refusal> {
    let mut records = Vec::new(alloc);
    for line in text.lines() {
        if let Some(line) = line.strip_prefix(mark) {
            records.append(&mut file(alloc, line.as_bytes(), origin)?)?;
        }
    }
    Ok(records)
}

/// The change of a text: a line for each record, after `- ` if it goes and `+ ` if it comes.
fn change(alloc: Global, text: &str, origin: &Name) -> Result<Change, Refusal> {
    Ok(Change {
        removed: marked(alloc, text, "- ", origin)?,
        added: marked(alloc, text, "+ ", origin)?,
    })
}

/// The changes of a text, with a line `--` between two.
fn changes(alloc: Global, text: &[u8], origin: &Name) -> Result<Vec<Change>, Refusal> {
    let mut changes = Vec::new(alloc);
    for part in text_of(text).split("--\n") {
        changes.push(change(alloc, part, origin)?)?;
    }
    Ok(changes)
}

/// Appends the records of a zone before changes.
pub fn push_before(
    alloc: Global,
    zone: &Zone,
    text: &[u8],
    answer: &mut Vec<u8>,
) -> Result<(), Refusal> {
    let changes = changes(alloc, text, zone.origin())?;
    let records = records_before(alloc, zone.records(), &changes)?;
    push_records(alloc, &records, answer)
}

/// Appends the records of a zone, each after the number of the change that brought it, or 0.
pub fn push_bringers(
    alloc: Global,
    zone: &Zone,
    text: &[u8],
    answer: &mut Vec<u8>,
) -> Result<(), Refusal> {
    let changes = changes(alloc, text, zone.origin())?;
    let found = bringers(alloc, zone.records(), &changes)?;
    for (record, bringer) in zone.records().iter().zip(found.iter()) {
        push_brought(alloc, record, *bringer, answer)?;
    }
    Ok(())
}

fn push_brought(
    alloc: Global,
    record: &Record,
    bringer: Option<u64>,
    answer: &mut Vec<u8>,
) -> Result<(), Refusal> {
    let number = bringer.unwrap_or(0);
    push(format!(in alloc; "{number} ")?.as_str(), answer)?;
    push(record_line(alloc, record)?.as_str(), answer)?;
    push("\n", answer)
}

/// The updates of a text, with a line `--` between two.
fn updates(alloc: Global, text: &str) -> Result<Vec<Update>, Refusal> {
    let mut updates = Vec::new(alloc);
    for part in text.split("--\n") {
        updates.push(update(alloc, part.as_bytes())?)?;
    }
    Ok(updates)
}

/// Appends a line for each change of a text, with the indexes of the updates that may have made it. The updates are those after a line
/// `by`.
pub fn push_makers(
    alloc: Global,
    zone: &Zone,
    text: &[u8],
    answer: &mut Vec<u8>,
) -> Result<(), Refusal> {
    let text = text_of(text);
    let (first, rest) = text.split_once("by\n").unwrap_or((text, ""));
    let changes = changes(alloc, first.as_bytes(), zone.origin())?;
    let updates = updates(alloc, rest)?;
    for indexes in &makers(alloc, zone, &changes, &updates)? {
        push_indexes(alloc, indexes, answer)?;
    }
    Ok(())
}

fn push_indexes(alloc: Global, indexes: &[usize], answer: &mut Vec<u8>) -> Result<(), Refusal> {
    push("by", answer)?;
    for index in indexes {
        push(format!(in alloc; " {index}")?.as_str(), answer)?;
    }
    push("\n", answer)
}
