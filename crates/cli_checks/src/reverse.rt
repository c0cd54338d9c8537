//! The PTR records that the addresses of forward zones call for, as text.

ghost use Rattle.std.specs.Prelude.{◌≡◌, ◌++◌, List, IfOk, OnOk};
ghost use Rattle.dns_data.specs.declared.record.Record.{Record as RecordOf};
ghost use Rattle.cli_core.specs.LineFaults.{Gives};
ghost use Rattle.cli_text.specs.Apply.{records_of};
ghost use Rattle.cli_checks.specs.Reverse.{shared_line, shared_lines, IsReverseReport};

use crate::check::{Findings, Report};
use cli_core::LineFault;
use cli_text::{line_of, push_records, read_records};
use dns_data::Record;
use dns_names::Name;
use std::alloc::{AllocError, Global};
use std::marker::Model;
use zone_tools::{reverse_pointers, shared_addresses};

/// The records of forward zones. A contract sees the list of them.
#[derive(Drop)]
pub(crate) struct ForwardRecords {
    records: Vec<Record>,
}

impl Model for ForwardRecords {
    ghost Value = { List RecordOf };

    ghost view = { λ f. f.records.items };
}

/// The records of a text that has master files, one after the other, whose octets are given back.
pub(crate) fn forward_records(alloc: Global, text: Vec<u8>) -> Result<ForwardRecords, LineFault>
    ensures { Gives (λ records. records) result (records_of text.items) }
{
    let records = read_records(alloc, &text)?;
    Ok(ForwardRecords { records })
}

/// Appends the line of a record whose address several names have, a comment. The only error is out of memory.
fn push_shared(alloc: Global, text: &mut Vec<u8>, rr: &Record) -> Result<(), AllocError>
    ensures { OnOk result (text.new.items ≡ text.old.items ++ shared_line rr.now) }
{
    text.extend_from_slice(b"; shared ")?;
    let line = line_of(alloc, rr)?;
    text.extend_from_slice(line.as_bytes())
}

/// Appends the lines of records whose addresses several names have. The only error is out of memory.
fn push_all_shared(alloc: Global, text: &mut Vec<u8>, records: &[Record]) -> Result<(), AllocError>
    ensures { OnOk result (text.new.items ≡ text.old.items ++ shared_lines records.now) }
{
    for record in records {
        push_shared(alloc, text, record)?;
    }
    Ok(())
}

/// The report of pointers: their lines, and after them as comments the records whose addresses several names have. It finds nothing.
/// The only error is out of memory.
pub(crate) fn reverse_report(
    alloc: Global,
    origin: &Name,
    forward: &ForwardRecords,
) -> Result<Report, AllocError>
    ensures { IfOk result (λ report. IsReverseReport origin.now forward.now report.findings report.text.items) }
{
    let pointers = reverse_pointers(alloc, origin, &forward.records)?;
    let mut text = Vec::new(alloc);
    push_records(alloc, &mut text, &pointers)?;
    let shared = shared_addresses(alloc, origin, &forward.records)?;
    push_all_shared(alloc, &mut text, &shared)?;
    Ok(Report {
        findings: Findings::Absent,
        text,
    })
}
