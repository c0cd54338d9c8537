//! The operations that lead from one zone to another.

ghost use Rattle.std.specs.Prelude.{◌≡◌, ◌↔◌, ◌∷◌, ◌++◌, ◌==◌, [], length, map, IfOk};
ghost use Rattle.std.specs.List.{filter, AllByRecursion};
ghost use Rattle.std.specs.Option.{option_to_list};
ghost use Rattle.zone_core.specs.Sets.{set_of, key_of, InOrder, minus};
ghost use Rattle.zone_core.specs.Zones.{serial_in};
ghost use Rattle.zone_core.specs.Effects.{next_version};
ghost use Rattle.zone_tools.specs.Differences.{is_server, is_gone, is_other, addition, deletion, data_at, at_serial, next_soa, needs_soa, soa_additions, operations, target};
ghost use Rattle.zone_tools.specs.DifferencePromises.{Lead, HaveNoNews, IsNeeded, AddsSoaLast, AreWithin};

use crate::same::{has_same, is_at, is_equal};
use dns_data::{Data, Record, RecordType, Serial, Soa};
use dns_names::Name;
use std::alloc::{AllocError, Global};
use zone_core::{Change, Operation, Zone, has_type, serial_add, serial_less};

/// The operations that lead from one zone to another of the same origin. In the old zone they make the records of the new one,
/// and no record that both have goes meanwhile. Where the serial of the new zone is not greater, it is one further than that of the
/// old one, as after any update; and there are no operations where the zones differ in nothing else. An SOA is added last, and
/// only where the update would not advance to it by itself. The only error is out of memory.
pub fn operations_between(
    alloc: Global,
    old: &Zone,
    new: &Zone,
) -> Result<Vec<Operation>, AllocError>
    requires { new.now.origin ≡ old.now.origin }
    // They make the zone that is wanted.
    ensures made { IfOk result (λ ops. Lead old.now.origin old.now.records new.now.records ops.items) }
    // The list is empty exactly where the two differ in nothing but a serial that is not greater.
    ensures none { IfOk result (λ ops. (ops.items ≡ []) ↔ HaveNoNews old.now.origin old.now.records new.now.records) }
    // Each is for a record in which the two differ.
    ensures needed { IfOk result (λ ops. AllByRecursion (IsNeeded old.now.records (target old.now.origin old.now.records new.now.records)) ops.items) }
    // At most the last adds an SOA, where nothing else would make it.
    ensures soa { IfOk result (λ ops. AddsSoaLast old.now.origin old.now.records (target old.now.origin old.now.records new.now.records) ops.items) }
    // They are operations within the origin.
    ensures within { IfOk result (λ ops. AreWithin old.now.origin ops.items) }
    // Which they are, in order.
    ensures exact { IfOk result (λ ops. ops.items ≡ operations old.now.origin old.now.records new.now.records) }
{
    let change = Change::between(alloc, old.records(), new.records())?;
    let operations = edits(alloc, old.origin(), &change, new.records())?;
    with_soa(alloc, operations, old.soa(), new.soa())
}

/// The operations for all records but the SOA, of what two zones differ in and the records of the new one. The only error is out of
/// memory.
fn edits(
    alloc: Global,
    origin: &Name,
    change: &Change,
    new: &[Record],
) -> Result<Vec<Operation>, AllocError>
    requires { InOrder new.now }
    ensures { IfOk result
        (λ ops. ops.items
        ≡
        (map addition (filter (λ r. is_server origin.now (key_of r)) change.now.added.items) ++ map deletion
        (filter (λ r. is_gone (set_of new.now) (key_of r)) change.now.removed.items)) ++ map addition
        (filter (λ r. is_other origin.now (key_of r)) change.now.added.items)) }
{
    let mut operations = Vec::new(alloc);
    push_servers(alloc, &mut operations, origin, &change.added)?;
    push_deletions(alloc, &mut operations, &change.removed, new)?;
    push_others(alloc, &mut operations, origin, &change.added)?;
    Ok(operations)
}

/// Appends the addition of a record. The only error is out of memory.
fn push_addition(
    alloc: Global,
    operations: &mut Vec<Operation>,
    rr: &Record,
) -> Result<(), AllocError>
    ensures { IfOk result (λ _. operations.new.items ≡ operations.old.items ++ addition rr.now ∷ []) }
{
    operations.push(Operation::Add(rr.try_copy(alloc)?))?;
    Ok(())
}

/// Appends the deletion of a record. The only error is out of memory.
fn push_deletion(
    alloc: Global,
    operations: &mut Vec<Operation>,
    rr: &Record,
) -> Result<(), AllocError>
    ensures { IfOk result (λ _. operations.new.items ≡ operations.old.items ++ deletion rr.now ∷ []) }
{
    operations.push(Operation::record_deletion(alloc, &rr.owner, &rr.rdata)?)?;
    Ok(())
}

/// Appends the additions of the records that are servers of the origin. The only error is out of memory.
fn push_servers(
    alloc: Global,
    operations: &mut Vec<Operation>,
    origin: &Name,
    records: &[Record],
) -> Result<(), AllocError>
    ensures { IfOk result (λ _. operations.new.items ≡ operations.old.items ++ map addition (filter (λ r. is_server origin.now (key_of r)) records.now)) }
{
    for record in records {
        if is_at(record, origin, RecordType::Ns) {
            push_addition(alloc, operations, record)?;
        }
    }
    Ok(())
}

/// Whether a record is not an SOA and the new zone does not have it.
fn is_gone(rr: &Record, new: &[Record]) -> bool
    requires { InOrder new.now }
    ensures { result ≡ is_gone (set_of new.now) (key_of rr.now) }
{
    !has_type(rr, RecordType::Soa) && !has_same(new, rr)
}

/// Appends the deletions of the records that the new zone does not have. The only error is out of memory.
fn push_deletions(
    alloc: Global,
    operations: &mut Vec<Operation>,
    records: &[Record],
    new: &[Record],
) -> Result<(), AllocError>
    requires { InOrder new.now }
    ensures { IfOk result (λ _. operations.new.items ≡ operations.old.items ++ map deletion (filter (λ r. is_gone (set_of new.now) (key_of r)) records.now)) }
{
    for record in records {
        if is_gone(record, new) {
            push_deletion(alloc, operations, record)?;
        }
    }
    Ok(())
}

/// Whether a record is neither an SOA nor a server of the origin.
fn is_other(origin: &Name, rr: &Record) -> bool
    ensures { result ≡ is_other origin.now (key_of rr.now) }
{
    !has_type(rr, RecordType::Soa) && !is_at(rr, origin, RecordType::Ns)
}

/// Appends the additions of the records that are neither an SOA nor servers of the origin. The only error is out of memory.
fn push_others(
    alloc: Global,
    operations: &mut Vec<Operation>,
    origin: &Name,
    records: &[Record],
) -> Result<(), AllocError>
    ensures { IfOk result (λ _. operations.new.items ≡ operations.old.items ++ map addition (filter (λ r. is_other origin.now (key_of r)) records.now)) }
{
    for record in records {
        if is_other(origin, record) {
            push_addition(alloc, operations, record)?;
        }
    }
    Ok(())
}

/// SOA data with a serial, and others as they are. The only error is out of memory.
fn data_at(alloc: Global, serial: u32, rdata: &Data) -> Result<Data, AllocError>
    ensures { IfOk result (λ d. d ≡ data_at serial rdata.now) }
{
    let Data::Soa(soa) = rdata else {
        return rdata.try_copy(alloc);
    };
    let mut fields = soa.fields().try_copy(alloc)?;
    fields.serial = Serial(serial);
    Ok(Data::Soa(Soa::new(alloc, fields)?))
}

/// An SOA with a serial. The only error is out of memory.
fn at_serial(alloc: Global, serial: u32, rr: &Record) -> Result<Record, AllocError>
    ensures { IfOk result (λ r. r ≡ at_serial serial rr.now) }
{
    Ok(Record {
        owner: rr.owner.try_copy(alloc)?,
        ttl: rr.ttl,
        rdata: data_at(alloc, serial, &rr.rdata)?,
    })
}

/// An SOA with its serial one further. The only error is out of memory.
fn next_version(alloc: Global, soa: &Record) -> Result<Record, AllocError>
    ensures { IfOk result (λ next. next ≡ next_version soa.now) }
{
    at_serial(alloc, serial_add(serial_in(soa), 1), soa)
}

/// The serial of an SOA, and 0 of another record.
fn serial_in(rr: &Record) -> u32
    ensures { result ≡ serial_in rr.now }
{
    match &rr.rdata {
        Data::Soa(soa) => soa.fields().serial.0,
        _ => 0,
    }
}

/// The SOA to which the operations lead, where the zones of two SOAs differ in more than the serial. The only error is out of memory.
fn next_soa(alloc: Global, old: &Record, new: &Record) -> Result<Record, AllocError>
    ensures { IfOk result (λ soa. soa ≡ next_soa old.now new.now) }
{
    let serial = serial_in(old);
    if serial_less(serial, serial_in(new)) {
        return new.try_copy(alloc);
    }
    at_serial(alloc, serial_add(serial, 1), new)
}

/// Whether the SOA is added after operations: they would not make it by themselves. The only error is out of memory.
fn needs_soa(
    alloc: Global,
    operations: &[Operation],
    old: &Record,
    new: &Record,
    soa: &Record,
) -> Result<bool, AllocError>
    requires { soa.now ≡ next_soa old.now new.now }
    ensures { IfOk result (λ needs. needs ≡ needs_soa (length operations.now == 0) old.now new.now) }
{
    let next = next_version(alloc, old)?;
    let is_only_change = operations.is_empty() && serial_less(serial_in(old), serial_in(new));
    Ok(!is_equal(soa, &next) || is_only_change)
}

/// The addition of the SOA after operations, where it is needed. The only error is out of memory.
fn soa_addition(
    alloc: Global,
    operations: &[Operation],
    old: &Record,
    new: &Record,
) -> Result<Option<Operation>, AllocError>
    ensures { IfOk result (λ op. option_to_list op ≡ soa_additions (length operations.now == 0) old.now new.now) }
{
    let soa = next_soa(alloc, old, new)?;
    let is_needed = needs_soa(alloc, operations, old, new, &soa)?;
    Ok(is_needed.then_some(Operation::Add(soa)))
}

/// Operations, and after them the addition of the SOA where it is needed. The only error is out of memory.
fn with_soa(
    alloc: Global,
    mut operations: Vec<Operation>,
    old: &Record,
    new: &Record,
) -> Result<Vec<Operation>, AllocError>
    ensures { IfOk result (λ ops. ops.items ≡ operations.items ++ soa_additions (length operations.items == 0) old.now new.now) }
{
    if let Some(addition) = soa_addition(alloc, &operations, old, new)? {
        operations.push(addition)?;
    }
    Ok(operations)
}
