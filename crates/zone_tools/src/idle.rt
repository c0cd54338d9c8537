//! Which operations of an update change nothing, and why (RFC 2136 sections 3.4.2.2 to 3.4.2.4).

ghost use Rattle.std.specs.Prelude.{◌≡◌, ◌+◌, ◌<◌, ◌≤◌, length, is_some, IfOk, if◌then◌else◌, Some, None};
ghost use Rattle.std.specs.FinMap.{get};
ghost use Rattle.zone_core.specs.Sets.{has, at, at_name};
ghost use Rattle.zone_core.specs.Updates.{ActsWithin};
ghost use Rattle.zone_core.specs.Effects.{key_at};
ghost use Rattle.zone_core.specs.Changes.{change_between, is_empty};
ghost use Rattle.zone_tools.specs.IdleOperations.{until, zone_until, reason, idleness_text, idle_at, idle_operations};

use crate::same::{has_same, is_at};
use dns_data::{Data, Record, RecordType};
use dns_names::Name;
use std::alloc::{AllocError, Global};
use zone_core::{Change, Operation, Update, Zone, apply, has_type};

/// Why an operation changes nothing.
#[derive(Clone, Copy)]
pub enum Idleness {
    /// The record that it adds is there, with its TTL.
    Present,
    /// What it deletes is not there.
    Absent,
    /// It adds a record to an alias (section 3.4.2.2).
    Alias,
    /// It adds an alias to records of other types.
    OtherTypes,
    /// It adds an SOA whose serial is not greater than that of the zone.
    OlderSerial,
    /// What it deletes stays at the origin: the SOA, or the last NS (sections 3.4.2.3 and 3.4.2.4).
    Kept,
    /// It adds a DS to the origin (RFC 4034 section 5).
    Misplaced,
}

impl Idleness {
    /// The reason in words.
    pub const fn text(self) -> &'static str
        ensures { result.now ≡ idleness_text self }
    {
        match self {
            Idleness::Present => "the record is there",
            Idleness::Absent => "it is not there",
            Idleness::Alias => "an alias is there",
            Idleness::OtherTypes => "other types are there",
            Idleness::OlderSerial => "no SOA with a lesser serial is there",
            Idleness::Kept => "it stays at the origin",
            Idleness::Misplaced => "a DS does not stand at the origin",
        }
    }
}

/// Whether a zone has a record with this owner and these data. The only error is out of memory.
fn has_data(alloc: Global, zone: &Zone, name: &Name, rdata: &Data) -> Result<bool, AllocError>
    ensures { IfOk result (λ there. there ≡ is_some (get zone.now.records (key_at name.now rdata.now))) }
{
    let rr = Record {
        owner: name.try_copy(alloc)?,
        ttl: zone.soa().ttl,
        rdata: rdata.try_copy(alloc)?,
    };
    Ok(has_same(zone.records(), &rr))
}

/// Why an addition changes nothing in a zone, where it does not.
fn addition_reason(zone: &Zone, rr: &Record) -> Idleness
    ensures { result ≡ reason zone.now.origin zone.now.records (Operation.Add rr.now) }
{
    if has_type(rr, RecordType::Soa) {
        Idleness::OlderSerial
    } else if is_at(rr, zone.origin(), RecordType::Ds) {
        Idleness::Misplaced
    } else if has_same(zone.records(), rr) {
        Idleness::Present
    } else if has_type(rr, RecordType::Cname) {
        Idleness::OtherTypes
    } else {
        Idleness::Alias
    }
}

/// Why a deletion changes nothing, where it does not, by whether there is what it deletes.
fn deletion_reason(is_there: bool) -> Idleness
    ensures { result ≡ (if is_there then Idleness.Kept else Idleness.Absent) }
{
    if is_there {
        Idleness::Kept
    } else {
        Idleness::Absent
    }
}

/// Why an operation changes nothing in a zone, where it does not. The only error is out of memory.
fn reason(alloc: Global, zone: &Zone, operation: &Operation) -> Result<Idleness, AllocError>
    ensures { IfOk result (λ why. why ≡ reason zone.now.origin zone.now.records operation.now) }
{
    Ok(match operation {
        Operation::Add(rr) => addition_reason(zone, rr),
        Operation::DeleteRrset { name, record_type } => {
            deletion_reason(!zone.rrset(name, *record_type).is_empty())
        }
        Operation::DeleteName(name) => deletion_reason(!zone.records_at(name).is_empty()),
        Operation::DeleteRecord { name, rdata } => {
            deletion_reason(has_data(alloc, zone, name, rdata)?)
        }
    })
}

/// Copies of operations. The only error is out of memory.
fn copied(alloc: Global, operations: &[Operation]) -> Result<Vec<Operation>, AllocError>
    ensures { IfOk result (λ copies. copies.items ≡ operations.now) }
{
    let mut copies = Vec::with_capacity(alloc, operations.len())?;
    for operation in operations {
        copies.push(operation.try_copy(alloc)?)?;
    }
    Ok(copies)
}

/// An update of the first operations of another. The only error is out of memory.
fn until(alloc: Global, update: &Update, count: usize) -> Result<Update, AllocError>
    requires { count ≤ length update.now.operations }
    ensures { IfOk result (λ first. first ≡ until update.now count) }
{
    let operations = copied(alloc, &update.operations()[..count])?;
    match Update::build(Vec::new(alloc), operations) {
        Ok(first) => Ok(first),
        Err(_) => unreachable!(),
    }
}

/// The zone after the first operations of an update. The only error is out of memory.
fn zone_until(alloc: Global, zone: &Zone, update: &Update, count: usize) -> Result<Zone, AllocError>
    requires within { ActsWithin zone.now.origin update.now }
    requires count { count ≤ length update.now.operations }
    ensures { IfOk result (λ after. after ≡ zone_until zone.now update.now count) }
{
    let first = until(alloc, update, count)?;
    let outcome = apply(alloc, zone, &first)?;
    Ok(outcome.zone)
}

/// Why an operation changes nothing, if it makes the one zone of the other. The only error is out of memory.
fn idleness_between(
    alloc: Global,
    before: &Zone,
    after: &Zone,
    operation: &Operation,
) -> Result<Option<Idleness>, AllocError>
    ensures { IfOk result (λ found. found ≡ (if is_empty (change_between before.now.records after.now.records) then Some (reason before.now.origin before.now.records operation.now) else None)) }
{
    let change = Change::between(alloc, before.records(), after.records())?;
    if change.is_empty() {
        Ok(Some(reason(alloc, before, operation)?))
    } else {
        Ok(None)
    }
}

/// Why the operation of a place in an update changes nothing in a zone, if it does not. The only error is out of memory.
fn idle_at(
    alloc: Global,
    zone: &Zone,
    update: &Update,
    place: usize,
    operation: &Operation,
) -> Result<Option<Idleness>, AllocError>
    requires within { ActsWithin zone.now.origin update.now }
    requires place { place < length update.now.operations }
    requires few { place < 256 }
    ensures { IfOk result (λ found. found ≡ idle_at zone.now update.now place operation.now) }
{
    let before = zone_until(alloc, zone, update, place)?;
    let after = zone_until(alloc, zone, update, place + 1)?;
    idleness_between(alloc, &before, &after, operation)
}

/// For each operation of an update, why it changes nothing in a zone, if it does not: if the zone after the operations up to it, were they the
/// whole update, is the zone after those before it. It takes two copies of the zone for each operation, so give it the part that has the
/// records at the origin and at the names of the operations (`Zone::part`). The only error is out of memory.
pub fn idle_operations(
    alloc: Global,
    zone: &Zone,
    update: &Update,
) -> Result<Vec<Option<Idleness>>, AllocError>
    requires { ActsWithin zone.now.origin update.now }
    ensures { IfOk result (λ found. found.items ≡ idle_operations zone.now update.now) }
{
    let mut found = Vec::new(alloc);
    let operations = update.operations();
    for i in 0..operations.len() {
        found.push(idle_at(alloc, zone, update, i, &operations[i])?)?;
    }
    Ok(found)
}
