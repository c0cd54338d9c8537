//! Printing a zone as a master file, and records as lines.

ghost use Rattle.std.specs.Prelude.{◌≡◌, ◌++◌, IfOk, OnOk, Some, string_bytes};
ghost use Rattle.std.specs.List.{flat_map};
ghost use Rattle.std.specs.Option.{option_map};
ghost use Rattle.dns_data.specs.Items.{items_text};
ghost use Rattle.dns_master.specs.Device.{TextWritten, Drained};
ghost use Rattle.dns_master.specs.ZoneText.{origin_line, ttl_line, line_in, records_text, zone_text, relative_items, relative_zone_text};

use crate::device::{DeviceFailed, Sink, write_all};
use crate::master_fault::MasterFault;
use dns_data::{Record, Ttl};
use dns_names::{Name, RelativeName};
use std::alloc::{AllocError, Global};
use std::fmt;
use std::fmt::Write;

/// How many octets are gathered before they are written.
const PIECE: usize = 65_536;

/// Writes all of a text.
fn write_text<W: Sink>(writer: &mut W, text: &[u8]) -> Result<(), MasterFault>
    ensures { TextWritten (W.contents writer.old) (W.contents writer.new) text.now result (W.failures writer.old) (W.failures writer.new) }
{
    match write_all(writer, text) {
        Ok(()) => Ok(()),
        Err(DeviceFailed) => Err(MasterFault::WriteFailed),
    }
}

/// Writes what was gathered, where it is enough, and empties it.
fn drain<W: Sink>(writer: &mut W, text: &mut String) -> Result<(), MasterFault>
    ensures { Drained (W.contents writer.old) (W.contents writer.new) (string_bytes text.old) (string_bytes text.new) result (W.failures writer.old) (W.failures writer.new) }
{
    if text.len() < PIECE {
        return Ok(());
    }
    write_text(writer, text.as_bytes())?;
    text.clear();
    Ok(())
}

/// The line of the origin. The only error is out of memory.
pub(crate) fn origin_head(alloc: Global, origin: &Name) -> Result<String, AllocError>
    ensures { IfOk result (λ text. string_bytes text ≡ origin_line origin.now) }
{
    format!(in alloc; "$ORIGIN {origin}\n")
}

/// What the lines of records leave out: the origin after each owner, and the TTL that is in force.
#[derive(Clone, Copy)]
struct RelativeForm<'a> {
    origin: &'a Name,
    ttl: Ttl,
}

/// The items of a record, relative to an origin.
#[derive(Clone, Copy)]
struct RelativeLine<'a> {
    rr: &'a Record,
    form: &'a RelativeForm<'a>,
}

impl fmt::Display for RelativeLine<'_> {
    ghost output = { λ l. Some (items_text (relative_items l.form.now.origin.now l.form.now.ttl l.rr.now)) };

    fn fmt<W: fmt::Write>(&self, f: &mut fmt::Formatter<W>) -> fmt::Result {
        let owner = RelativeName {
            name: &self.rr.owner,
            origin: self.form.origin,
        };
        let (ttl, record_type) = (self.rr.ttl, self.rr.record_type().text());
        if ttl == self.form.ttl {
            write!(f, "{owner} {record_type} {}", self.rr.rdata)
        } else {
            let seconds = ttl.seconds();
            write!(f, "{owner} {seconds} {record_type} {}", self.rr.rdata)
        }
    }
}

/// The lines of the origin and of the TTL in force. The only error is out of memory.
fn relative_head(alloc: Global, form: &RelativeForm) -> Result<String, AllocError>
    ensures { IfOk result (λ text. string_bytes text ≡ origin_line form.now.origin.now ++ ttl_line form.now.ttl) }
{
    let mut text = origin_head(alloc, form.origin)?;
    writeln!(text, "$TTL {}", form.ttl.seconds())?;
    Ok(text)
}

/// Gathers the line of a record. The only error is out of memory.
fn push_line<'a>(
    text: &mut String,
    rr: &'a Record,
    form: Option<&'a RelativeForm<'a>>,
) -> Result<(), AllocError>
    ensures { OnOk result (string_bytes text.new ≡ string_bytes text.old ++ line_in (option_map (λ f. f.now) form.entry) rr.now) }
{
    match form {
        None => writeln!(text, "{rr}"),
        Some(form) => writeln!(text, "{}", RelativeLine { rr, form }),
    }
}

/// Gathers the line of a record, and writes what was gathered where it is enough.
fn put_line<'a, W: Sink>(
    text: &mut String,
    rr: &'a Record,
    form: Option<&'a RelativeForm<'a>>,
    writer: &mut W,
) -> Result<(), MasterFault>
    ensures { Drained (W.contents writer.old) (W.contents writer.new) (string_bytes text.old ++ line_in (option_map (λ f. f.now) form.entry) rr.now) (string_bytes text.new) result (W.failures writer.old) (W.failures writer.new) }
{
    push_line(text, rr, form)?;
    drain(writer, text)
}

/// Writes what was gathered, and then the lines of records. Some 65,536 octets go out at a time.
fn print_behind<'a, W: Sink>(
    mut text: String,
    records: &'a [Record],
    form: Option<&'a RelativeForm<'a>>,
    writer: &mut W,
) -> Result<(), MasterFault>
    ensures { TextWritten (W.contents writer.old) (W.contents writer.new) (string_bytes text ++ flat_map (line_in (option_map (λ f. f.now) form.entry)) records.now) result (W.failures writer.old) (W.failures writer.new) }
{
    for rr in records {
        put_line(&mut text, rr, form, writer)?;
    }
    write_text(writer, text.as_bytes())
}

/// Prints records: their record lines in the order in which they stand here, each ended by a line feed. Some 65,536 octets go
/// out at a time.
///
/// `WriteFailed` comes only where the writer failed in this call, `NoMemory` at the growth that was refused, and then a front
/// of the text went out.
pub fn print_records<W: Sink>(
    alloc: Global,
    records: &[Record],
    writer: &mut W,
) -> Result<(), MasterFault>
    ensures { TextWritten (W.contents writer.old) (W.contents writer.new) (records_text records.now) result (W.failures writer.old) (W.failures writer.new) }
{
    print_behind(String::new(alloc), records, None, writer)
}

/// Prints a zone as a master file (RFC 1035 section 5.1): the line `$ORIGIN` and the origin, and then its records, as
/// `print_records` does.
///
/// `WriteFailed` comes only where the writer failed in this call, `NoMemory` at the growth that was refused, and then a front
/// of the text went out.
pub fn print_zone<W: Sink>(
    alloc: Global,
    origin: &Name,
    records: &[Record],
    writer: &mut W,
) -> Result<(), MasterFault>
    ensures { TextWritten (W.contents writer.old) (W.contents writer.new) (zone_text origin.now records.now) result (W.failures writer.old) (W.failures writer.new) }
{
    print_behind(origin_head(alloc, origin)?, records, None, writer)
}

/// Prints a zone as a master file relative to its origin (RFC 1035 section 5.1, RFC 2308 section 4): the lines `$ORIGIN` and
/// `$TTL`, the latter with the TTL of the first record, and then for each record its owner relative to the origin, its TTL where
/// that is another, its type and its data. Some 65,536 octets go out at a time.
///
/// `WriteFailed` comes only where the writer failed in this call, `NoMemory` at the growth that was refused, and then a front
/// of the text went out.
pub fn print_relative_zone<'a, W: Sink>(
    alloc: Global,
    origin: &'a Name,
    records: &'a [Record],
    writer: &mut W,
) -> Result<(), MasterFault>
    ensures { TextWritten (W.contents writer.old) (W.contents writer.new) (relative_zone_text origin.now records.now) result (W.failures writer.old) (W.failures writer.new) }
{
    let Some(first) = records.first() else {
        return print_zone(alloc, origin, records, writer);
    };
    let form = RelativeForm {
        origin,
        ttl: first.ttl,
    };
    print_behind(relative_head(alloc, &form)?, records, Some(&form), writer)
}
