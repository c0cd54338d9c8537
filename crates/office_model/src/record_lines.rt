//! Records as lines of a master file, in one piece of memory.

ghost use Rattle.std.specs.Prelude.{◌≡◌, IfOk, List, string_bytes};
ghost use Rattle.std.specs.List.{AllByRecursion};
ghost use Rattle.dns_data.specs.declared.record.Record.{Record as RecordOf};
ghost use Rattle.dns_data.specs.Rdata.{IsRecord};
ghost use Rattle.dns_master.specs.ZoneText.{records_text};
ghost use Rattle.office_model.specs.RecordLines.{records_in, AreLines, IsFirst};

use dns_data::Record;
use std::alloc::{AllocError, Global};
use std::fmt::Write;
use std::marker::Model;

/// Records are such.
fn reveal_records(records: &[Record])
    ensures { AllByRecursion IsRecord records.now }
{
    for record in records {
        let _ = record.record_type();
    }
}

/// Writes the lines of records into a room.
fn write_lines(room: &mut String, records: &[Record]) -> Result<(), AllocError>
    ensures { IfOk result (λ _. string_bytes room.new ≡ records_text records.now) }
{
    room.clear();
    for rr in records {
        writeln!(room, "{rr}")?;
    }
    Ok(())
}

/// Records, as the lines that they have in a master file (RFC 1035 section 5.1), each with its line end. They take as many octets as
/// these lines.
#[derive(Drop)]
pub struct RecordLines {
    text: String,
}

impl Model for RecordLines {
    ghost Value = { List RecordOf };

    ghost view = { λ lines. records_in (string_bytes lines.text) };

    ghost invariant = { λ lines. AreLines (string_bytes lines.text) };
}

impl RecordLines {
    /// The lines of records, which are written in a room that may be used again. The only error is out of memory.
    pub fn of(
        alloc: Global,
        room: &mut String,
        records: &[Record],
    ) -> Result<RecordLines, AllocError>
        ensures { IfOk result (λ lines. lines ≡ records.now) }
    {
        write_lines(room, records)?;
        reveal_records(records);
        let text = String::from_str(alloc, room)?;
        Ok(RecordLines { text })
    }

    /// The lines, each with its line end.
    pub fn text(&self) -> &str
        ensures text { result.now ≡ records_text self.now }
        ensures records { AllByRecursion IsRecord self.now }
    {
        &self.text
    }
}

/// The first line of a text of record lines, without its line end, and the text after it.
pub fn first_line(text: &str) -> Option<(&str, &str)>
    ensures { (rs : List RecordOf) → AllByRecursion IsRecord rs → text.now ≡ records_text rs → IsFirst rs result }
{
    text.split_once('\n')
}
