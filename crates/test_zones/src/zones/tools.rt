//! Rows of pointers, of addresses that several names have, and of what is wrong in a zone.

use crate::refusal::Refusal;
use crate::zones::lines::{push, push_records};
use crate::zones::parsed_rows::{file, name, number};
use dns_data::{Record, record_line};
use std::alloc::Global;
use test_rows::Row;
use zone_core::Zone;
use zone_tools::{Finding, NameServer, findings, large_sets, reverse_pointers, shared_addresses};

/// Appends the pointers that the records of a row call for in a reverse zone of its origin.
pub fn push_pointers(alloc: Global, row: &Row<'_>, answer: &mut Vec<u8>) -> Result<(), Refusal> {
    let origin = name(alloc, &row.text)?;
    let records = file(alloc, &row.body, &origin)?;
    push_records(alloc, &reverse_pointers(alloc, &origin, &records)?, answer)
}

/// Appends the records of a row whose addresses several names have.
pub fn push_shared(alloc: Global, row: &Row<'_>, answer: &mut Vec<u8>) -> Result<(), Refusal> {
    let origin = name(alloc, &row.text)?;
    let records = file(alloc, &row.body, &origin)?;
    push_records(alloc, &shared_addresses(alloc, &origin, &records)?, answer)
}

/// Appends the first records of the sets of a zone that have more records than a number, or too much data.
pub fn push_large(
    alloc: Global,
    zone: &Zone,
    most: &[u8],
    answer: &mut Vec<u8>,
) -> Result<(), Refusal> {
    let found = large_sets(alloc, zone, number(most) as usize)?;
    push_records(alloc, &found, answer)
}

/// Appends what is wrong in a zone: a line each, with what each server does.
pub fn push_faults(alloc: Global, zone: &Zone, answer: &mut Vec<u8>) -> Result<(), Refusal> {
    let found = findings(alloc, zone)?;
    if found.is_empty() {
        return push("nothing", answer);
    }
    for finding in &found {
        if let Some(record) = zone.records().get(finding.place) {
            push_fault(alloc, record, *finding, answer)?;
        }
    }
    Ok(())
}

fn push_fault(
    alloc: Global,
    record: &Record,
    finding: Finding,
    answer: &mut Vec<u8>,
) -> Result<(), Refusal> {
    push(finding.rule.text(), answer)?;
    for server in &NameServer::ALL {
        push(" ", answer)?;
        push(finding.rule.minded_by(*server).text(), answer)?;
    }
    push("  ", answer)?;
    push(record_line(alloc, record)?.as_str(), answer)?;
    push("\n", answer)
}
