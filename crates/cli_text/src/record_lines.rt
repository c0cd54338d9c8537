//! The lines of records.

ghost use Rattle.std.specs.Prelude.{◌≡◌, ◌++◌, IfOk, OnOk, string_bytes};
ghost use Rattle.cli_text.specs.RecordLines.{record_text, records_text};

use dns_data::Record;
use std::alloc::{AllocError, Global};

/// The line of a record, with its line end. The only error is out of memory.
pub fn line_of(alloc: Global, rr: &Record) -> Result<String, AllocError>
    ensures { IfOk result (λ line. string_bytes line ≡ record_text rr.now) }
{
    format!(in alloc; "{rr}\n")
}

/// Appends the line of a record. The only error is out of memory.
fn push_record(alloc: Global, text: &mut Vec<u8>, rr: &Record) -> Result<(), AllocError>
    ensures { OnOk result (text.new.items ≡ text.old.items ++ record_text rr.now) }
{
    let line = line_of(alloc, rr)?;
    text.extend_from_slice(line.as_bytes())
}

/// Appends the lines of records. The only error is out of memory.
pub fn push_records(alloc: Global, text: &mut Vec<u8>, records: &[Record]) -> Result<(), AllocError>
    ensures { OnOk result (text.new.items ≡ text.old.items ++ records_text records.now) }
{
    for record in records {
        push_record(alloc, text, record)?;
    }
    Ok(())
}
