//! The parts of a text with records of any types.

ghost use Rattle.std.specs.Prelude.{◌≡◌, ◌<◌, ◌≤◌, ◌++◌, ◌-◌, map, drop, length, if◌then◌else◌, [], IfOk, OnOk};
ghost use Rattle.std.specs.List.{flat_map, slice_get};
ghost use Rattle.dns_data.specs.Items.{item_of};
ghost use Rattle.dns_master.specs.EntryFaults.{Tells};
ghost use Rattle.dns_master.specs.Statements.{owner_of, statement_of};
ghost use Rattle.dns_master.specs.Entries.{entries};
ghost use Rattle.dns_master.specs.Faults.{Gives};
ghost use Rattle.dns_master.specs.FileViews.{force_of, GivesFile};
ghost use Rattle.dns_master.specs.AnyRecords.{kept_taken, other_taken, behind_taken, entry_taken, any_taken, any_file_from};
ghost use Rattle.dns_master.specs.ZoneText.{ended_line, origin_line};
ghost use Rattle.dns_master.specs.Parting.{has_kept, has_kind, origin_change, with_lines, placed_part, part_of_text};
ghost use Rattle.dns_master.specs.PartViews.{lead_with, first_raw, other_stated, line_if};
ghost use Rattle.dns_master.specs.InForce.{handed_in};

use crate::entry::read_entry;
use crate::entry_fault::EntryFault;
use crate::file::{FILE_MAX, FileFault, FileRead, begins_white, fault_before};
use crate::master_fault::MasterFault;
use crate::other::{check_data, is_not_kept, read_other_lead};
use crate::other_type::is_signer_type;
use crate::part_lines::{OtherData, push_other, push_records};
use crate::statement::{
    EntryItems, StatedRecord, Statement, behind_owner, read_owner, read_statement,
};
use crate::zone_text::origin_head;
use dns_data::{Data, Item, Ttl};
use dns_names::Name;
use std::alloc::{AllocError, Global};
use std::net::Ipv4Addr;

/// A part of the records of a text. Each record is of one.
#[derive(Clone, Copy)]
pub enum FilePart {
    /// Those of types that are kept.
    Kept,
    /// Those that a signer made (RFC 4034, RFC 5155, RFC 7344, RFC 8976): RRSIG, NSEC, NSEC3, NSEC3PARAM, DNSKEY, CDS, CDNSKEY,
    /// ZONEMD, and BIND's TYPE65534.
    Signer,
    /// Those of other types.
    Rest,
}

impl FilePart {
    /// Whether the part has the records of types that are kept.
    fn has_kept(self) -> bool
        ensures { result ≡ has_kept self }
    {
        match self {
            FilePart::Kept => true,
            FilePart::Signer | FilePart::Rest => false,
        }
    }

    /// Whether the part has those of another type, by the word for it.
    fn has_kind(self, kind: &[u8]) -> bool
        ensures { result ≡ has_kind self kind.now }
    {
        match self {
            FilePart::Kept => false,
            FilePart::Signer => is_signer_type(kind),
            FilePart::Rest => !is_signer_type(kind),
        }
    }
}

/// What an entry states after those that were read.
fn stated(alloc: Global, entry: EntryItems, file: &FileRead) -> Result<Statement, EntryFault>
    ensures { Tells (λ s. s) result (statement_of (force_of file.now).origin (force_of file.now).owner entry.entry.white (map item_of entry.entry.items.now)) }
{
    read_statement(alloc, entry, &file.origin, file.owner())
}

/// The owner that an entry states after those that were read, or none.
fn stated_owner(
    alloc: Global,
    entry: EntryItems,
    file: &FileRead,
) -> Result<Option<Name>, EntryFault>
    ensures { Tells (λ own. own) result (owner_of (force_of file.now).origin (force_of file.now).owner entry.entry.white (map item_of entry.entry.items.now)) }
{
    read_owner(alloc, entry, &file.origin, file.owner())
}

/// The octets of an item by its number.
fn raw_at<'a>(items: &'a [Item<'a>], number: usize) -> &'a [u8]
    requires { number < length items.now }
    ensures { first_raw (drop number (map item_of items.now)) ≡ result.now }
{
    items[number].raw
}

/// What was read of a text, and the lines of the records of a part.
#[derive(Drop)]
struct Parting {
    part: FilePart,
    file: FileRead,
    text: Vec<u8>,
    /// The origin in force after the lines.
    origin: Name,
}

impl Parting {
    ghost use Rattle.dns_master.specs.PartViews.{TakesAny};

    /// Before the first entry, where this origin is handed in: the line of the origin.
    fn new(alloc: Global, part: FilePart, origin: &Name) -> Result<Parting, AllocError>
        ensures part { IfOk result (λ p. p.part ≡ part) }
        ensures in_force { IfOk result (λ p. force_of p.file ≡ handed_in origin.now) }
        ensures text { IfOk result (λ p. p.text.items ≡ origin_line origin.now) }
        ensures origin { IfOk result (λ p. p.origin ≡ origin.now) }
    {
        let line = origin_head(alloc, origin)?;
        Ok(Parting {
            part,
            file: FileRead::new(alloc, origin)?,
            text: Vec::from_slice(alloc, line.as_bytes())?,
            origin: origin.try_copy(alloc)?,
        })
    }

    /// Puts the line of the origin in force after the text, where another is in force there.
    fn change_origin(&mut self, alloc: Global) -> Result<(), AllocError>
        ensures text { OnOk result (self.new.text.items ≡ self.old.text.items ++ origin_change self.old.origin self.old.file.origin) }
        ensures origin { OnOk result (self.new.origin ≡ self.old.file.origin) }
        ensures file { self.new.file ≡ self.old.file }
        ensures part { self.new.part ≡ self.old.part }
    {
        if self.origin == self.file.origin {
            return Ok(());
        }
        let line = origin_head(alloc, &self.file.origin)?;
        self.text.extend_from_slice(line.as_bytes())?;
        self.origin = self.file.origin.try_copy(alloc)?;
        Ok(())
    }

    /// Puts the line of another type after the text, with the owner and the TTL of the last record.
    fn put_line(&mut self, alloc: Global, written: OtherData) -> Result<(), AllocError>
        ensures text { OnOk result (self.new.text.items ≡ self.old.text.items
            ++ (origin_change self.old.origin self.old.file.origin ++ line_if (slice_get self.old.file.records.items (length self.old.file.records.items - 1)) written.entry.kind.now (map item_of written.entry.fields.now))) }
        ensures origin { OnOk result (self.new.origin ≡ self.old.file.origin) }
        ensures file { self.new.file ≡ self.old.file }
        ensures part { self.new.part ≡ self.old.part }
    {
        self.change_origin(alloc)?;
        match self.file.records.last() {
            Some(rr) => push_other(alloc, &mut self.text, rr, written),
            None => Ok(()),
        }
    }

    /// The same, if the type is of the part.
    fn put_other(&mut self, alloc: Global, written: OtherData) -> Result<(), AllocError>
        ensures text { OnOk result (self.new.text.items ≡ self.old.text.items ++ (if has_kind self.old.part written.entry.kind.now then
            origin_change self.old.origin self.old.file.origin ++ line_if (slice_get self.old.file.records.items (length self.old.file.records.items - 1)) written.entry.kind.now (map item_of written.entry.fields.now)
            else [])) }
        ensures origin { OnOk result (self.new.origin ≡ (if has_kind self.old.part written.entry.kind.now then self.old.file.origin else self.old.origin)) }
        ensures file { self.new.file ≡ self.old.file }
        ensures part { self.new.part ≡ self.old.part }
    {
        if !self.part.has_kind(written.kind) {
            return Ok(());
        }
        self.put_line(alloc, written)
    }

    /// Takes a record of another type, of which an entry states this owner and this TTL, or none.
    fn take_stated(
        &mut self,
        alloc: Global,
        owner: Option<Name>,
        ttl: Option<Ttl>,
        written: OtherData,
    ) -> Result<(), EntryFault>
        ensures { TakesAny self.old self.new (other_taken (force_of self.old.file) (other_stated owner (lead_with ttl written.entry.kind.now (map item_of written.entry.fields.now)))) result }
    {
        // its owner and its TTL are found as those of any record without a MINIMUM
        let rdata = Data::A(Ipv4Addr::UNSPECIFIED);
        let stand_in = StatedRecord { owner, ttl, rdata };
        self.file.take(alloc, Statement::Record(stand_in))?;
        self.put_other(alloc, written)?;
        Ok(())
    }

    /// Takes a record of another type, of which an entry states this owner, or none, from the items after the owner.
    fn take_behind(
        &mut self,
        alloc: Global,
        owner: Option<Name>,
        items: &[Item],
    ) -> Result<(), EntryFault>
        ensures { TakesAny self.old self.new (behind_taken (force_of self.old.file) owner (map item_of items.now)) result }
    {
        let lead = read_other_lead(items)?;
        let kind = raw_at(items, lead.before);
        let (_, fields) = items.split_at(lead.before + 1);
        check_data(kind, fields)?;
        self.take_stated(alloc, owner, lead.ttl, OtherData { kind, fields })
    }

    /// Takes an entry of another type.
    fn take_other(&mut self, alloc: Global, entry: EntryItems) -> Result<(), EntryFault>
        ensures { TakesAny self.old self.new (entry_taken (force_of self.old.file) entry.entry.white (map item_of entry.entry.items.now)) result }
    {
        let owner = stated_owner(alloc, entry, &self.file)?;
        self.take_behind(alloc, owner, behind_owner(entry))
    }

    /// Puts the lines of the records from this number on after the text, if they are of the part.
    fn put_kept(&mut self, alloc: Global, from: usize) -> Result<(), AllocError>
        requires { from ≤ length self.old.file.records.items }
        ensures text { OnOk result (self.new.text.items ≡ self.old.text.items ++ (if has_kept self.old.part then flat_map ended_line (drop from self.old.file.records.items) else [])) }
        ensures file { self.new.file ≡ self.old.file }
        ensures part { self.new.part ≡ self.old.part }
        ensures origin { self.new.origin ≡ self.old.origin }
    {
        if !self.part.has_kept() {
            return Ok(());
        }
        let (_, new) = self.file.records.split_at(from);
        push_records(alloc, &mut self.text, new)
    }

    /// Takes what an entry states.
    fn take_kept(&mut self, alloc: Global, statement: Statement) -> Result<(), EntryFault>
        ensures { TakesAny self.old self.new (kept_taken (force_of self.old.file) statement) result }
    {
        let before = self.file.records.len();
        self.file.take(alloc, statement)?;
        self.put_kept(alloc, before)?;
        Ok(())
    }

    /// Takes an entry.
    fn take_entry(&mut self, alloc: Global, entry: EntryItems) -> Result<(), EntryFault>
        ensures { TakesAny self.old self.new (any_taken (force_of self.old.file) entry.entry.white (map item_of entry.entry.items.now)) result }
    {
        match stated(alloc, entry, &self.file) {
            Ok(statement) => self.take_kept(alloc, statement),
            Err(fault) => {
                if is_not_kept(fault) {
                    self.take_other(alloc, entry)
                } else {
                    Err(fault)
                }
            }
        }
    }

    /// Takes the entries of a text up to the first refusal, with the octets that are left there.
    fn take_entries(&mut self, alloc: Global, text: &[u8]) -> Result<(), FileFault>
        ensures { GivesFile (λ _. self.new.text.items) result
            (with_lines self.old.text.items self.old.part self.old.origin (any_file_from (force_of self.old.file) (entries text.now))) }
    {
        let mut items = Vec::new(alloc);
        let mut rest = text;
        while !rest.is_empty() {
            let white = begins_white(rest);
            let end = read_entry(rest, &mut items)?;
            rest = end.rest;
            if items.is_empty() {
                continue;
            }
            let entry = EntryItems {
                white,
                items: &items,
            };
            if let Err(fault) = self.take_entry(alloc, entry) {
                return Err(fault_before(rest, &mut items, end.left, fault));
            }
        }
        Ok(())
    }

    /// The lines.
    fn into_text(self) -> Vec<u8>
        ensures { result.items ≡ self.text.items }
    {
        self.text
    }
}

/// The text of a part of a text, or the first refusal of its records, with the octets that are left there.
fn placed_part(
    alloc: Global,
    text: &[u8],
    origin: &Name,
    part: FilePart,
) -> Result<Vec<u8>, FileFault>
    ensures { GivesFile (λ v. v.items) result (placed_part part text.now origin.now) }
{
    let mut parting = Parting::new(alloc, part, origin)?;
    parting.take_entries(alloc, text)?;
    Ok(parting.into_text())
}

/// Prints a part of a master file with records of any types (RFC 1035 section 5.1, RFC 3597): the line `$ORIGIN` and `origin`, and
/// then the records of the part, in their order, each as a line. Those of types that are kept are record lines. The others have
/// owner, TTL, class and type, and their data as they are written, with one space between items, but none between a key of SVCB
/// or HTTPS and its value in quotes (RFC 9460 section 2.1); a line `$ORIGIN` stands before, where the origin changes to which
/// names in the data are relative. Each record of the file is of one part.
///
/// Of several refusals the first is answered, as `read_file` has them. `TypeNotKept` comes for a word that can name no type, and
/// for a kept type by its number or with data in the generic form; `BadEscape` for data that end the text with a backslash.
pub fn part_of_file(
    alloc: Global,
    text: &[u8],
    origin: &Name,
    part: FilePart,
) -> Result<Vec<u8>, MasterFault>
    ensures { Gives (λ v. v.items) result (part_of_text part text.now origin.now) }
{
    if text.len() > FILE_MAX {
        return Err(MasterFault::TooLarge);
    }
    match placed_part(alloc, text, origin, part) {
        Ok(lines) => Ok(lines),
        Err(fault) => Err(fault.on_line(text)),
    }
}
