//! The records of a master file.

ghost use Rattle.std.specs.Prelude.{◌≡◌, ◌<◌, ◌≤◌, List, [], length, map, Ok, IfOk};
ghost use Rattle.std.specs.List.{AllByRecursion};
ghost use Rattle.std.specs.Option.{option_copied};
ghost use Rattle.dns_data.specs.declared.record.Record.{Record as RecordOf};
ghost use Rattle.dns_data.specs.Items.{item_of};
ghost use Rattle.dns_master.specs.declared.entry_fault.EntryFault.TheVariants.{NoOwner};
ghost use Rattle.dns_master.specs.EntryFaults.{Tells};
ghost use Rattle.dns_master.specs.Entries.{white_first, entries};
ghost use Rattle.dns_master.specs.Faults.{Gives};
ghost use Rattle.dns_master.specs.InForce.{minimum_in, fitting_ttl, or_else, handed_in};
ghost use Rattle.dns_master.specs.Files.{or_refused, with_records, file_from, file_fault_on_line, placed_file, file_of};
ghost use Rattle.dns_master.specs.FileGrammar.{IsFile};
ghost use Rattle.dns_master.specs.FileViews.{IsFaultBefore, GivesFile};

use crate::entry::{check_rest, read_entry};
use crate::entry_fault::EntryFault;
use crate::master_fault::MasterFault;
use crate::shape::{ShapeFault, line_before};
use crate::statement::{EntryItems, StatedRecord, Statement, read_statement};
use dns_data::{Data, Item, Record, Ttl};
use dns_names::Name;
use std::alloc::{AllocError, Global};

/// The most octets of a master file.
pub(crate) const FILE_MAX: usize = 4_194_304;

/// Why a text has no records, while it is read. The numbers say how many octets are left from the place on.
#[derive(Clone, Copy)]
pub(crate) enum FileFault {
    /// Its parentheses or quotes are wrong.
    Shape(ShapeFault),
    /// An entry is wrong, whose first item has so many octets left from it on.
    Entry(usize, EntryFault),
}

impl FileFault {
    /// The fault with its line in place of the octets that are left of the text.
    pub(crate) fn on_line(self, text: &[u8]) -> MasterFault
        ensures { result ≡ file_fault_on_line text.now self }
    {
        match self {
            FileFault::Shape(fault) => fault.on_line(text),
            FileFault::Entry(left, fault) => fault.on_line(line_before(text, left)),
        }
    }
}

impl From<AllocError> for FileFault {
    ghost use Rattle.dns_master.specs.declared.file.FileFault.TheVariants.{Shape};
    ghost use Rattle.dns_master.specs.declared.shape.ShapeFault.TheVariants.{NoMemory};

    ghost from_gives = { λ _ e. e ≡ Shape NoMemory };

    fn from(_e: AllocError) -> FileFault {
        FileFault::Shape(ShapeFault::NoMemory)
    }
}

impl From<ShapeFault> for FileFault {
    ghost use Rattle.dns_master.specs.declared.file.FileFault.TheVariants.{Shape};

    ghost from_gives = { λ f e. e ≡ Shape f };

    fn from(fault: ShapeFault) -> FileFault {
        FileFault::Shape(fault)
    }
}

/// The TTL of so many seconds, where they are one.
fn fitting_ttl(seconds: Option<u32>) -> Option<Ttl>
    ensures { result ≡ fitting_ttl seconds }
{
    match seconds {
        Some(seconds) => Ttl::new(seconds),
        None => None,
    }
}

/// The MINIMUM of an SOA, in seconds.
fn minimum_in(rdata: &Data) -> Option<u32>
    ensures { result ≡ minimum_in rdata.now }
{
    match rdata {
        Data::Soa(soa) => Some(soa.fields().minimum.0),
        _ => None,
    }
}

/// The records that were read, and what is in force after them. The owner in force is that of the last of them.
#[derive(Drop)]
pub(crate) struct FileRead {
    pub origin: Name,
    default_ttl: Option<Ttl>,
    stated_ttl: Option<Ttl>,
    /// The MINIMUM of the last SOA, in seconds.
    minimum: Option<u32>,
    pub records: Vec<Record>,
}

impl FileRead {
    ghost use Rattle.dns_master.specs.FileViews.{force_of, last_owner, lead_or, completed, TakesStatement, TakesEntry};
    ghost use Rattle.dns_master.specs.Files.{taken};

    /// Before the first entry, where this origin is handed in.
    pub(crate) fn new(alloc: Global, origin: &Name) -> Result<FileRead, AllocError>
        ensures { IfOk result (λ file. (force_of file ≡ handed_in origin.now) × (file.records.items ≡ [])) }
    {
        Ok(FileRead {
            origin: origin.try_copy(alloc)?,
            default_ttl: None,
            stated_ttl: None,
            minimum: None,
            records: Vec::new(alloc),
        })
    }

    /// The owner in force.
    pub(crate) fn owner(&self) -> Option<&Name>
        ensures { option_copied result ≡ last_owner self.now.records.items }
    {
        match self.records.last() {
            Some(record) => Some(&record.owner),
            None => None,
        }
    }

    /// The owner of a record that states this one, or none.
    fn owner_or(&self, alloc: Global, own: Option<Name>) -> Result<Name, EntryFault>
        ensures { Tells (λ owner. owner) result (or_refused NoOwner (or_else own (last_owner self.now.records.items))) }
    {
        if let Some(name) = own {
            return Ok(name);
        }
        match self.owner() {
            Some(name) => Ok(name.try_copy(alloc)?),
            None => Err(EntryFault::NoOwner),
        }
    }

    /// The TTL of a record that states this one, or none.
    fn ttl_or(&self, own: Option<Ttl>) -> Option<Ttl>
        ensures { result ≡ or_else own (or_else self.now.default_ttl (or_else self.now.stated_ttl (fitting_ttl self.now.minimum))) }
    {
        own.or(self.default_ttl)
            .or(self.stated_ttl)
            .or(fitting_ttl(self.minimum))
    }

    /// The owner and the TTL of a record that states these, or none.
    fn lead_or(
        &self,
        alloc: Global,
        owner: Option<Name>,
        ttl: Option<Ttl>,
    ) -> Result<(Name, Ttl), EntryFault>
        ensures { Tells (λ lead. lead) result (lead_or self.now owner ttl) }
    {
        let owner = self.owner_or(alloc, owner)?;
        match self.ttl_or(ttl) {
            Some(ttl) => Ok((owner, ttl)),
            None => Err(EntryFault::NoTtl),
        }
    }

    /// The record that is stated so, with the owner and the TTL in force where it leaves them out.
    fn completed(&self, alloc: Global, stated: StatedRecord) -> Result<Record, EntryFault>
        ensures { Tells (λ r. r) result (completed self.now stated) }
    {
        let StatedRecord { owner, ttl, rdata } = stated;
        self.lead_or(alloc, owner, ttl)
            .map(|(owner, ttl)| Record { owner, ttl, rdata })
    }

    /// Takes a record.
    fn take_record(&mut self, alloc: Global, stated: StatedRecord) -> Result<(), EntryFault>
        ensures { TakesStatement self.old self.new (Statement.Record stated) result }
    {
        let own = stated.ttl;
        self.minimum = minimum_in(&stated.rdata).or(self.minimum);
        let record = self.completed(alloc, stated)?;
        self.stated_ttl = own.or(self.stated_ttl);
        self.records.push(record)?;
        Ok(())
    }

    /// Takes what an entry states.
    pub(crate) fn take(&mut self, alloc: Global, statement: Statement) -> Result<(), EntryFault>
        ensures { TakesStatement self.old self.new statement result }
    {
        match statement {
            Statement::Origin(name) => {
                self.origin = name;
                Ok(())
            }
            Statement::DefaultTtl(ttl) => {
                self.default_ttl = Some(ttl);
                Ok(())
            }
            Statement::Record(stated) => self.take_record(alloc, stated),
        }
    }

    /// Takes an entry.
    fn take_entry(&mut self, alloc: Global, entry: EntryItems) -> Result<(), EntryFault>
        ensures { TakesEntry self.old self.new (taken (force_of self.old) entry.entry.white (map item_of entry.entry.items.now)) result }
    {
        let statement = read_statement(alloc, entry, &self.origin, self.owner())?;
        self.take(alloc, statement)
    }

    /// Takes the entries of a text up to the first refusal, with the octets that are left there.
    fn take_entries(&mut self, alloc: Global, text: &[u8]) -> Result<(), FileFault>
        ensures { GivesFile (λ _. self.new.records.items) result (with_records self.old.records.items (file_from (force_of self.old) (entries text.now))) }
    {
        let mut items = Vec::new(alloc);
        let mut rest = text;
        while !rest.is_empty() {
            let white = begins_white(rest);
            let end = read_entry(rest, &mut items)?;
            rest = end.rest;
            if items.is_empty() {
                continue;
            }
            let entry = EntryItems {
                white,
                items: &items,
            };
            if let Err(fault) = self.take_entry(alloc, entry) {
                return Err(fault_before(rest, &mut items, end.left, fault));
            }
        }
        Ok(())
    }

    /// The records.
    fn into_records(self) -> Vec<Record>
        ensures { result.items ≡ self.records.items }
    {
        self.records
    }
}

/// Whether a text begins with white space.
pub(crate) fn begins_white(text: &[u8]) -> bool
    ensures { result ≡ white_first text.now }
{
    match text {
        [] => false,
        [octet, ..] => matches!(octet, b' ' | b'\t' | b'\r'),
    }
}

/// The fault of an entry that is refused, unless parentheses or quotes are wrong in the text after it.
pub(crate) fn fault_before<'a>(
    rest: &'a [u8],
    items: &mut Vec<Item<'a>>,
    left: usize,
    fault: EntryFault,
) -> FileFault
    ensures { IsFaultBefore left fault rest.now result }
{
    match check_rest(rest, items) {
        Ok(()) => FileFault::Entry(left, fault),
        Err(shape) => FileFault::Shape(shape),
    }
}

/// The records of a text, or its first refusal, with the octets that are left there.
fn placed_file(alloc: Global, text: &[u8], origin: &Name) -> Result<Vec<Record>, FileFault>
    ensures { GivesFile (λ v. v.items) result (placed_file text.now origin.now) }
{
    let mut file = FileRead::new(alloc, origin)?;
    file.take_entries(alloc, text)?;
    Ok(file.into_records())
}

/// The records of a text, or its first refusal.
fn file_of(alloc: Global, text: &[u8], origin: &Name) -> Result<Vec<Record>, MasterFault>
    ensures { Gives (λ v. v.items) result (file_of text.now origin.now) }
{
    if text.len() > FILE_MAX {
        return Err(MasterFault::TooLarge);
    }
    match placed_file(alloc, text, origin) {
        Ok(records) => Ok(records),
        Err(fault) => Err(fault.on_line(text)),
    }
}

/// A text has octets. Only proofs need it.
fn reveal_octets(text: &[u8])
    ensures { AllByRecursion (λ o. o < 256) text.now }
{
    let _ = text;
}

/// Reads a master file (RFC 1035 section 5.1, with `$TTL` of RFC 2308 section 4): its records in order, one for each entry that
/// is no directive, names relative to `origin` up to the first `$ORIGIN`.
///
/// Of several refusals the first of these is answered: `TooLarge` above 4,194,304 octets; `ParenOpen`, `ParenClose` and
/// `QuoteOpen`, wherever in the text they are, as `tokens` has them; and then those of the first entry at fault, with the line
/// of its first item: `NoOwner`; the leftmost item at fault, `DirectiveNotKept`, `BadTtl`, `ClassNotIn` or `Data`; an item that is
/// missing, `EntryShort` before the type and `Data` after it; a fault of the data as a whole, `Data`; `NoTtl`. `NoMemory`
/// comes at the growth that was refused.
pub fn read_file(alloc: Global, text: &[u8], origin: &Name) -> Result<Vec<Record>, MasterFault>
    // What is read are the records of the text.
    ensures found { IfOk result (λ v. IsFile text.now origin.now v.items) }
    // A text without a fault is read, unless memory runs out.
    ensures only { (records : List RecordOf) → IsFile text.now origin.now records → length text.now ≤ 4194304 → Gives (λ v. v.items) result (Ok records) }
    // Which refusal it is.
    ensures exact { Gives (λ v. v.items) result (file_of text.now origin.now) }
{
    reveal_octets(text);
    // the proof needs that the origin is a name
    let _ = origin.labels();
    file_of(alloc, text, origin)
}
