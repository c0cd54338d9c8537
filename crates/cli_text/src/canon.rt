//! A zone in canonical form.

ghost use Rattle.std.specs.Prelude.{◌≡◌};
ghost use Rattle.dns_names.specs.Reading.{absolute_name};
ghost use Rattle.dns_master.specs.Files.{file_of};
ghost use Rattle.cli_core.specs.LineFaults.{Gives, GivesOf, of_names, of_masters};
ghost use Rattle.cli_core.specs.Replies.{IsPrinted};
ghost use Rattle.cli_text.specs.Canon.{zone_of_file, zone_read, zone_text_in, text_of_zone};
ghost use Rattle.dns_master.specs.Device.{TextWritten};

use crate::task::Task;
use cli_core::{Canon, Input, JobFault, LineFault, ZoneForm, ended, read_input, write_refusal};
use dns_data::Record;
use dns_master::{MasterFault, Sink, print_relative_zone, print_zone, read_file};
use dns_names::Name;
use std::alloc::Global;
use zone_core::Zone;

/// The absolute name that a word is.
pub fn read_name(alloc: Global, word: &str) -> Result<Name, LineFault>
    ensures { Gives (λ name. name) result (of_names (absolute_name word.now)) }
{
    Ok(Name::read_absolute(alloc, word.as_bytes())?)
}

/// The records of a master file, whose octets are given back.
fn read_records(alloc: Global, text: Vec<u8>, origin: &Name) -> Result<Vec<Record>, LineFault>
    ensures { Gives (λ records. records.items) result (of_masters (file_of text.items origin.now)) }
{
    Ok(read_file(alloc, &text, origin)?)
}

/// The zone of an origin and a master file, whose octets are given back.
pub fn zone_of_file(alloc: Global, origin: Name, text: Vec<u8>) -> Result<Zone, LineFault>
    ensures { Gives (λ zone. zone) result (zone_of_file origin text.items) }
{
    let records = read_records(alloc, text, &origin)?;
    Ok(Zone::build(alloc, origin, records)?)
}

/// The zone of a word that is its origin, and a reader that gives its master file.
pub fn read_zone<R: Input>(alloc: Global, origin: &str, reader: &mut R) -> Result<Zone, LineFault>
    ensures { GivesOf (λ zone. zone) (R.left reader.old) (zone_read origin.now) result (R.fine reader.old reader.new) (R.failed reader.old reader.new) }
{
    let origin = read_name(alloc, origin)?;
    let text = read_input(alloc, reader)?;
    zone_of_file(alloc, origin, text)
}

/// Prints the zone of an origin and records in a form: as `print_zone` does, or as `print_relative_zone` does.
pub fn print_zone_in<'a, W: Sink>(
    alloc: Global,
    form: ZoneForm,
    origin: &'a Name,
    records: &'a [Record],
    writer: &mut W,
) -> Result<(), MasterFault>
    ensures { TextWritten (W.contents writer.old) (W.contents writer.new) (zone_text_in form origin.now records.now) result
        (W.failures writer.old) (W.failures writer.new) }
{
    match form {
        ZoneForm::Whole => print_zone(alloc, origin, records, writer),
        ZoneForm::Relative => print_relative_zone(alloc, origin, records, writer),
    }
}

/// Prints a zone. Where memory runs out, a line tells it after what went out.
fn print<W: Sink>(
    alloc: Global,
    zone: &Zone,
    form: ZoneForm,
    writer: &mut W,
) -> Result<(), JobFault>
    ensures { IsPrinted (W.contents writer.old) (W.contents writer.new) (text_of_zone form zone.now) result (W.failures writer.old) (W.failures writer.new) }
{
    let printed = print_zone_in(alloc, form, zone.origin(), zone.records(), writer);
    ended(writer, printed)
}

/// The task `canon`: to read a master file (RFC 1035 section 5.1), to build its zone, and to print it: the line `$ORIGIN` and the
/// origin, and its record lines in record order, which in the relative form have the owner relative to the origin and no TTL that
/// a line `$TTL` gives. Otherwise one line tells the refusal that comes first: of the origin, that the input is too large, of the
/// master file, of its records as a zone.
impl Task for Canon<'_> {
    ghost use Rattle.cli_text.specs.Canon.{canon_text};

    ghost answer = { λ c. canon_text c.form c.origin.now };

    fn run<R: Input, W: Sink>(
        self,
        alloc: Global,
        reader: &mut R,
        writer: &mut W,
    ) -> Result<(), JobFault> {
        match read_zone(alloc, self.origin, reader) {
            Ok(zone) => print(alloc, &zone, self.form, writer),
            Err(fault) => Err(write_refusal(alloc, writer, fault)),
        }
    }
}
