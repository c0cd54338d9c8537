use crate::items::record;
use dns_data::{DataFault, Record, Ttl, record_line, record_order, same_record};
use std::alloc::{AllocError, Global};
use test_rows::text_of;

/// The line of a record, which an equal one in memory of its own has to be the same as.
pub fn line(alloc: Global, text: &[u8]) -> Result<String, DataFault> {
    line_of(alloc, &record(alloc, text)?)
}

fn line_of(alloc: Global, record: &Record) -> Result<String, DataFault> {
    let is_same = is_its_copy(alloc, record)?;
    let mut line = record_line(alloc, record)?;
    if !is_same {
        line.push_str(", and its copy is another")?;
    }
    Ok(line)
}

/// Whether a copy of a record is the same, with the same TTL.
fn is_its_copy(alloc: Global, record: &Record) -> Result<bool, AllocError> {
    let copy = record.try_copy(alloc)?;
    Ok(same_record(record, &copy) && copy.ttl == record.ttl)
}

/// Whether the two records of a body are the same.
pub fn sameness(alloc: Global, body: &[u8]) -> Result<&'static str, DataFault> {
    Ok(sameness_of(&records(alloc, body)?))
}

fn sameness_of(records: &[Record]) -> &'static str {
    match records {
        [first, second] if same_record(first, second) => "same",
        [_, _] => "different",
        _ => "no two records",
    }
}

/// The records of a body, each on a line.
fn records(alloc: Global, body: &[u8]) -> Result<Vec<Record>, DataFault> {
    let mut records = Vec::new(alloc);
    for line in text_of(body).lines() {
        records.push(record(alloc, line.as_bytes())?)?;
    }
    Ok(records)
}

/// Ranks a record too, and tells how many of those that were ranked before it stands after and before.
pub fn rank(alloc: Global, ranked: &mut Vec<Record>, text: &[u8]) -> Result<String, DataFault> {
    ranked.push(record(alloc, text)?)?;
    match ranked.as_slice() {
        [earlier @ .., record] => rank_behind(alloc, earlier, record),
        [] => Ok(String::new(alloc)),
    }
}

fn rank_behind(alloc: Global, earlier: &[Record], record: &Record) -> Result<String, DataFault> {
    let end = if ties_with_itself(alloc, record)? {
        ""
    } else {
        ", and not beside itself"
    };
    let (behind, before) = ranks(earlier, record);
    Ok(format!(in alloc; "behind {behind}, before {before}{end}")?)
}

/// How many records another one stands after, and how many before.
fn ranks(earlier: &[Record], record: &Record) -> (usize, usize) {
    let (mut behind, mut before) = (0usize, 0usize);
    for other in earlier {
        if are_in_order(other, record) {
            behind = behind.saturating_add(1);
        }
        if are_in_order(record, other) {
            before = before.saturating_add(1);
        }
    }
    (behind, before)
}

/// Whether the first stands before the second, and the second after the first.
fn are_in_order(first: &Record, second: &Record) -> bool {
    record_order(first, second).is_lt() && record_order(second, first).is_gt()
}

/// Whether a record ties with itself, and with itself at another TTL.
fn ties_with_itself(alloc: Global, record: &Record) -> Result<bool, DataFault> {
    let ttl = Ttl::read(b"2h")?;
    let mut later = record.try_copy(alloc)?;
    later.ttl = ttl;
    Ok(record_order(record, record).is_eq() && record_order(record, &later).is_eq())
}
