//! Rows of updates.

use crate::refusal::Refusal;
use crate::zones::lines::{push, push_marked, push_number};
use crate::zones::parsed_rows::{name, update};
use std::alloc::{AllocError, Global};
use test_rows::Row;
use zone_core::{Failed, ItemList, Outcome, Place, Update, Zone, apply, apply_owned, holds};

/// What an update makes of a zone, if it is within it.
fn applied(alloc: Global, zone: &Zone, update: &Update) -> Result<Option<Outcome>, AllocError> {
    match update.outside(zone.origin()) {
        Some(_) => Ok(None),
        None => Ok(Some(apply(alloc, zone, update)?)),
    }
}

/// The same of a zone that is needed no more.
fn applied_owned(
    alloc: Global,
    zone: Zone,
    update: &Update,
) -> Result<Option<Outcome>, AllocError> {
    match update.outside(zone.origin()) {
        Some(_) => Ok(None),
        None => Ok(Some(apply_owned(alloc, zone, update)?)),
    }
}

/// Appends what a row asks of a zone and of the update of its body.
pub fn push_with_update(
    alloc: Global,
    zone: &Zone,
    row: &Row<'_>,
    answer: &mut Vec<u8>,
) -> Result<(), Refusal> {
    push_of_update(alloc, zone, row.verb, &update(alloc, &row.body)?, answer)
}

/// Appends whether prerequisites hold, or what operations make of a zone.
pub fn push_of_update(
    alloc: Global,
    zone: &Zone,
    verb: &str,
    update: &Update,
    answer: &mut Vec<u8>,
) -> Result<(), Refusal> {
    match verb {
        "holds" => push_verdict(alloc, zone, update, answer),
        "after" => push_after(alloc, zone, update, answer),
        _ => push_effect(alloc, zone, verb, update, answer),
    }
}

/// Appends which prerequisite fails first, and with which code.
fn push_verdict(
    alloc: Global,
    zone: &Zone,
    update: &Update,
    answer: &mut Vec<u8>,
) -> Result<(), Refusal> {
    match holds(zone, update) {
        Ok(()) => push("all hold", answer),
        Err(failed) => push_failed(alloc, failed, answer),
    }
}

fn push_failed(alloc: Global, failed: Failed, answer: &mut Vec<u8>) -> Result<(), Refusal> {
    let code = failed.code.rcode().text();
    let text = format!(in alloc; "{code} at {}", failed.item)?;
    push(text.as_str(), answer)
}

/// Appends the zone after an update.
fn push_after(
    alloc: Global,
    zone: &Zone,
    update: &Update,
    answer: &mut Vec<u8>,
) -> Result<(), Refusal> {
    match applied_owned(alloc, zone.try_copy(alloc)?, update)? {
        Some(outcome) => push_marked(alloc, "", outcome.zone.records(), answer),
        None => push("outside", answer),
    }
}

/// Appends what an update removes and adds, or only the serial of the zone after it.
fn push_effect(
    alloc: Global,
    zone: &Zone,
    verb: &str,
    update: &Update,
    answer: &mut Vec<u8>,
) -> Result<(), Refusal> {
    match applied(alloc, zone, update)? {
        Some(outcome) => push_outcome(alloc, verb, &outcome, answer),
        None => push("outside", answer),
    }
}

fn push_outcome(
    alloc: Global,
    verb: &str,
    outcome: &Outcome,
    answer: &mut Vec<u8>,
) -> Result<(), Refusal> {
    match verb {
        "change" => push_change(alloc, outcome, answer),
        _ => push_number(alloc, outcome.zone.serial(), answer),
    }
}

/// Appends the records that an update removes, and those that it adds.
fn push_change(alloc: Global, outcome: &Outcome, answer: &mut Vec<u8>) -> Result<(), Refusal> {
    push_marked(alloc, "- ", &outcome.removed, answer)?;
    push_marked(alloc, "+ ", &outcome.added, answer)?;
    if answer.is_empty() {
        push("no change", answer)?;
    }
    Ok(())
}

/// Appends how many items an update has, which a copy of it has to have too.
pub fn push_update(alloc: Global, items: &[u8], answer: &mut Vec<u8>) -> Result<(), Refusal> {
    push_sizes(alloc, &update(alloc, items)?, answer)
}

fn push_sizes(alloc: Global, update: &Update, answer: &mut Vec<u8>) -> Result<(), Refusal> {
    let prerequisites = update.prerequisites().len();
    let operations = update.operations().len();
    let text = format!(in alloc; "prerequisites: {prerequisites}, operations: {operations}")?;
    push(text.as_str(), answer)?;
    if update.try_copy(alloc)?.is_same(update) {
        return Ok(());
    }
    push(", and other ones in its copy", answer)
}

/// Appends the first item outside an origin.
pub fn push_outside(
    alloc: Global,
    origin: &[u8],
    items: &[u8],
    answer: &mut Vec<u8>,
) -> Result<(), Refusal> {
    let origin = name(alloc, origin)?;
    match update(alloc, items)?.outside(&origin) {
        Some(place) => push_place(alloc, place, answer),
        None => push("none", answer),
    }
}

fn push_place(alloc: Global, place: Place, answer: &mut Vec<u8>) -> Result<(), Refusal> {
    let list = match place.list {
        ItemList::Prerequisites => "prerequisite",
        ItemList::Operations => "operation",
    };
    let text = format!(in alloc; "{list} {}", place.item)?;
    push(text.as_str(), answer)
}

/// Appends whether two updates are the same, which has to be so from both sides.
pub fn push_same(
    alloc: Global,
    first: &[u8],
    second: &[u8],
    answer: &mut Vec<u8>,
) -> Result<(), Refusal> {
    let first = update(alloc, first)?;
    push_whether_same(&first, &update(alloc, second)?, answer)
}

fn push_whether_same(first: &Update, second: &Update, answer: &mut Vec<u8>) -> Result<(), Refusal> {
    let is_same = first.is_same(second);
    push(if is_same { "the same" } else { "another" }, answer)?;
    if second.is_same(first) != is_same {
        push(", and not from the other side", answer)?;
    }
    if first.is_same(first) && second.is_same(second) {
        return Ok(());
    }
    push(", and one is another than itself", answer)
}
