//! A zone after an update.

ghost use Rattle.std.specs.Prelude.{◌≡◌, ◌+◌, ◌<◌, ◌≤◌, ◌^◌, length, [], None, Ok, IfOk, option_map};
ghost use Rattle.zone_core.specs.Updates.{ActsWithin};
ghost use Rattle.cli_core.specs.LineFaults.{Gives, GivesOf};
ghost use Rattle.cli_core.specs.Replies.{IsPrinted};
ghost use Rattle.cli_text.specs.PartViews.{parts_in, records_in, update_in};
ghost use Rattle.cli_text.specs.Apply.{origin_of, zone_of_records, records_of, line_ends, update_behind, first_unmet, zone_lines, updated, text_after, apply_text};

use crate::parts::{InputParts, divided};
use crate::task::Task;
use cli_core::{Input, JobFault, LineFault, Refusal, ended, read_input, write_refusal};
use dns_data::{Data, Record};
use dns_master::{Sink, print_records, read_file};
use dns_names::Name;
use std::alloc::Global;
use update_lines::{ItemsFault, read_items};
use zone_core::{Outcome, Rcode, Update, Zone, ZoneFault, apply_owned, holds};

/// What was read of an input, whose octets are given back.
#[derive(Drop)]
pub struct InputRead {
    /// The records of its master file.
    pub records: Vec<Record>,
    /// Its items, or why they are no update: that is told after what is wrong with the records.
    pub update: Result<Update, LineFault>,
}

/// The name of the root.
fn root(alloc: Global) -> Result<Name, LineFault>
    ensures { Gives (λ name. name) result (Ok []) }
{
    Ok(Name::read_absolute(alloc, b".")?)
}

/// The records of a master file, relative to the root.
pub fn read_records(alloc: Global, file: &[u8]) -> Result<Vec<Record>, LineFault>
    ensures { Gives (λ records. records.items) result (records_of file.now) }
{
    let root = root(alloc)?;
    Ok(read_file(alloc, file, &root)?)
}

/// How many line ends a text has.
fn line_ends(text: &[u8]) -> usize
    ensures value { result ≡ line_ends text.now }
    ensures within { result ≤ length text.now }
{
    text.iter().filter(|octet| **octet == b'\n').count()
}

/// The update after the divider, or its refusal, whose line counts from that of the whole input.
fn read_update(alloc: Global, parts: &InputParts<'_>) -> Result<Update, LineFault>
    requires { length parts.now.file.now + length parts.now.divider.now + length parts.now.items.now < 2 ^ 63 }
    ensures { Gives (λ update. update) result (update_behind (parts_in parts.now)) }
{
    match read_items(alloc, parts.items) {
        Ok(update) => Ok(update),
        Err(ItemsFault::BadLine(line)) => {
            let lines = line_ends(parts.file) + line_ends(parts.divider);
            Err(LineFault::from(ItemsFault::BadLine(lines + line)))
        }
        Err(fault) => Err(LineFault::from(fault)),
    }
}

/// What stands in an input, whose octets are given back.
pub fn read_parts(alloc: Global, input: Vec<u8>) -> Result<InputRead, LineFault>
    ensures records { Gives (λ read. read.records.items) result (records_in input.items) }
    ensures update { IfOk result (λ read. Gives (λ update. update) read.update (update_in input.items)) }
{
    let Some(parts) = divided(&input) else {
        return Err(LineFault::Refused(Refusal::NoDivider));
    };
    let records = read_records(alloc, parts.file)?;
    let update = read_update(alloc, &parts);
    Ok(InputRead { records, update })
}

/// The owner of the first SOA of records.
fn origin_of(records: &[Record]) -> Option<&Name>
    ensures { option_map (λ name. name.now) result ≡ origin_of records.now }
{
    let soa = records
        .iter()
        .find(|record| matches!(record.rdata, Data::Soa(_)))?;
    Some(&soa.owner)
}

/// The zone of records, whose origin is the owner of the first SOA.
pub fn zone_of_records(alloc: Global, records: Vec<Record>) -> Result<Zone, LineFault>
    ensures { Gives (λ zone. zone) result (zone_of_records records.items) }
{
    let Some(origin) = origin_of(&records) else {
        return Err(LineFault::Refused(Refusal::Zone(ZoneFault::NoSoa)));
    };
    let origin = origin.try_copy(alloc)?;
    Ok(Zone::build(alloc, origin, records)?)
}

/// The refusal of the first item that a zone does not take: of a name outside, or else of a prerequisite that does not hold.
fn first_unmet(zone: &Zone, update: &Update) -> Option<Refusal>
    ensures exact { result ≡ first_unmet zone.now update.now }
    ensures inside { result ≡ None → ActsWithin zone.now.origin update.now }
{
    if let Some(place) = update.outside(zone.origin()) {
        return Some(Refusal::Unmet {
            code: Rcode::NotZone,
            item: place.item,
        });
    }
    match holds(zone, update) {
        Ok(()) => None,
        Err(failed) => Some(Refusal::Unmet {
            code: failed.code.rcode(),
            item: failed.item,
        }),
    }
}

/// A zone after an update.
fn updated(alloc: Global, zone: Zone, update: &Update) -> Result<Zone, LineFault>
    ensures { Gives zone_lines result (updated zone update.now) }
{
    if let Some(refusal) = first_unmet(&zone, update) {
        return Err(LineFault::Refused(refusal));
    }
    let Outcome { zone, .. } = apply_owned(alloc, zone, update)?;
    Ok(zone)
}

/// The zone that an input has after its update.
fn zone_after(alloc: Global, input: Vec<u8>) -> Result<Zone, LineFault>
    ensures { Gives zone_lines result (text_after input.items) }
{
    let InputRead { records, update } = read_parts(alloc, input)?;
    let zone = zone_of_records(alloc, records)?;
    updated(alloc, zone, &update?)
}

/// The zone that what a reader gives has after its update.
fn read_updated<R: Input>(alloc: Global, reader: &mut R) -> Result<Zone, LineFault>
    ensures { GivesOf zone_lines (R.left reader.old) apply_text result (R.fine reader.old reader.new) (R.failed reader.old reader.new) }
{
    let input = read_input(alloc, reader)?;
    zone_after(alloc, input)
}

/// Prints the records of a zone. Where memory runs out, a line tells it after what went out.
fn print<W: Sink>(alloc: Global, zone: &Zone, writer: &mut W) -> Result<(), JobFault>
    ensures { IsPrinted (W.contents writer.old) (W.contents writer.new) (zone_lines zone.now) result (W.failures writer.old) (W.failures writer.new) }
{
    let printed = print_records(alloc, zone.records(), writer);
    ended(writer, printed)
}

/// The task `apply`: to read a master file (RFC 1035 section 5.1), a line `--` and items of an update, and to print the record
/// lines of the zone after it (RFC 2136), in record order. The zone's origin is the owner of its first SOA. Otherwise one line
/// tells the refusal that comes first: that the input is too large, that it has no divider, of the master file, of its records as
/// a zone, of the items, of the first item with a name outside the zone, of the first prerequisite that does not hold.
#[derive(Clone, Copy)]
pub struct Apply;

impl Task for Apply {
    ghost use Rattle.cli_text.specs.Apply.{apply_text};

    ghost answer = { λ _. apply_text };

    fn run<R: Input, W: Sink>(
        self,
        alloc: Global,
        reader: &mut R,
        writer: &mut W,
    ) -> Result<(), JobFault> {
        match read_updated(alloc, reader) {
            Ok(zone) => print(alloc, &zone, writer),
            Err(fault) => Err(write_refusal(alloc, writer, fault)),
        }
    }
}
