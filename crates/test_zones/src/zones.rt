//! Answers to rows of zones, and rows of one zone.

mod delegations;
mod differences;
mod history;
pub mod lines;
mod parsed_rows;
mod serials;
mod tools;
mod updates;

use crate::refusal::Refusal;
use crate::zones::delegations::{push_count, push_delegation, push_report};
use crate::zones::differences::push_difference;
use crate::zones::history::{push_before, push_bringers, push_makers};
use crate::zones::lines::{push, push_name, push_number, push_records};
use crate::zones::parsed_rows::{file, name, record_type};
use crate::zones::serials::{push_less, push_sum};
use crate::zones::tools::{push_faults, push_large, push_pointers, push_shared};
use crate::zones::updates::{push_outside, push_same, push_update, push_with_update};
use dns_data::{Record, record_line};
use dns_names::Name;
use std::alloc::{AllocError, Global};
use test_rows::{Answers, Row};
use zone_core::{DelegationFault, Zone, ZoneFault};

/// Answers to rows, and the zone that the last `zone` built.
#[derive(Drop)]
pub struct Zones {
    zone: Option<Zone>,
}

impl Answers for Zones {
    fn answer(
        &mut self,
        alloc: Global,
        row: &Row<'_>,
        answer: &mut Vec<u8>,
    ) -> Result<(), AllocError> {
        match self.answer_to(alloc, row, answer) {
            Ok(()) => Ok(()),
            Err(refusal) => answer.extend_from_slice(refusal.text(alloc)?.as_bytes()),
        }
    }
}

impl Zones {
    /// No zone.
    pub fn new() -> Zones {
        Zones { zone: None }
    }

    fn answer_to(
        &mut self,
        alloc: Global,
        row: &Row<'_>,
        answer: &mut Vec<u8>,
    ) -> Result<(), Refusal> {
        if row.verb == "zone" {
            return self.keep(alloc, row, answer);
        }
        match &self.zone {
            Some(zone) => answer_of_zone(alloc, zone, row, answer),
            None => answer_without_zone(alloc, row, answer),
        }
    }

    /// Keeps the zone of a row, and appends how many records it has.
    fn keep(&mut self, alloc: Global, row: &Row<'_>, answer: &mut Vec<u8>) -> Result<(), Refusal> {
        let zone = built(alloc, row)?;
        let count = zone.records().len();
        self.zone = Some(zone);
        push(format!(in alloc; "records: {count}")?.as_str(), answer)
    }
}

fn answer_of_zone(
    alloc: Global,
    zone: &Zone,
    row: &Row<'_>,
    answer: &mut Vec<u8>,
) -> Result<(), Refusal> {
    match row.verb {
        "tells" => push_told(alloc, zone, answer),
        "at" | "set" | "within" => push_listed(alloc, zone, row, answer),
        "report" => push_report(alloc, zone, answer),
        "faults" => push_faults(alloc, zone, answer),
        "large" => push_large(alloc, zone, &row.text, answer),
        "before" => push_before(alloc, zone, &row.body, answer),
        "bringers" => push_bringers(alloc, zone, &row.body, answer),
        "makers" => push_makers(alloc, zone, &row.body, answer),
        "holds" | "change" | "after" | "serial-after" => {
            push_with_update(alloc, zone, row, answer)
        }
        "to" => push_difference_to(alloc, zone, row, answer),
        _ => answer_without_zone(alloc, row, answer),
    }
}

/// Appends what leads from a zone to that of a row.
fn push_difference_to(
    alloc: Global,
    zone: &Zone,
    row: &Row<'_>,
    answer: &mut Vec<u8>,
) -> Result<(), Refusal> {
    push_difference(alloc, zone, &built(alloc, row)?, answer)
}

fn answer_without_zone(alloc: Global, row: &Row<'_>, answer: &mut Vec<u8>) -> Result<(), Refusal> {
    let (first, rest) = row.split();
    match row.verb {
        "build" => push_built(alloc, row, answer),
        "read" => push_update(alloc, &row.body, answer),
        "outside" => push_outside(alloc, first, &row.body, answer),
        "same" => push_same(alloc, &row.text, &row.body, answer),
        "delegate" => push_delegation(alloc, row, answer),
        "delegate-count" => push_count(alloc, row, answer),
        "pointers" => push_pointers(alloc, row, answer),
        "shared" => push_shared(alloc, row, answer),
        "less" => push_less(first, rest, answer),
        "sum" => push_sum(alloc, first, rest, answer),
        "no-memory" if first == b"zone".as_slice() => Err(Refusal::Zone(ZoneFault::NoMemory)),
        "no-memory" => Err(Refusal::Delegation(DelegationFault::NoMemory)),
        _ => push("no such verb", answer),
    }
}

fn push_built(alloc: Global, row: &Row<'_>, answer: &mut Vec<u8>) -> Result<(), Refusal> {
    push_records(alloc, built(alloc, row)?.records(), answer)
}

/// The zone of a row's origin and record lines.
fn built(alloc: Global, row: &Row<'_>) -> Result<Zone, Refusal> {
    let origin = name(alloc, &row.text)?;
    let records = file(alloc, &row.body, &origin)?;
    Ok(Zone::build(alloc, origin, records)?)
}

/// Appends the origin, the serial and the SOA of a zone, and how many records a copy has.
fn push_told(alloc: Global, zone: &Zone, answer: &mut Vec<u8>) -> Result<(), Refusal> {
    push("origin ", answer)?;
    push_name(alloc, zone.origin(), answer)?;
    push("\nserial ", answer)?;
    push_number(alloc, zone.serial(), answer)?;
    push("\n", answer)?;
    push(record_line(alloc, zone.soa())?.as_str(), answer)?;
    push_copied(alloc, zone, answer)
}

fn push_copied(alloc: Global, zone: &Zone, answer: &mut Vec<u8>) -> Result<(), Refusal> {
    let count = zone.try_copy(alloc)?.records().len();
    let text = format!(in alloc; "\nrecords in a copy: {count}")?;
    push(text.as_str(), answer)
}

/// Appends the records of a zone at a name, of a set, or within a name.
fn push_listed(
    alloc: Global,
    zone: &Zone,
    row: &Row<'_>,
    answer: &mut Vec<u8>,
) -> Result<(), Refusal> {
    let (first, rest) = row.split();
    push_records(
        alloc,
        listed(zone, row.verb, &name(alloc, first)?, rest)?,
        answer,
    )
}

fn listed<'a>(
    zone: &'a Zone,
    verb: &str,
    name: &Name,
    rest: &[u8],
) -> Result<&'a [Record], Refusal> {
    match verb {
        "at" => Ok(zone.records_at(name)),
        "set" => Ok(zone.rrset(name, record_type(rest)?)),
        _ => Ok(zone.records_within(name)),
    }
}
