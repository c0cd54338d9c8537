//! An item of an update, from the items of an entry.

ghost use Rattle.std.specs.Prelude.{◌≡◌, map};
ghost use Rattle.dns_data.specs.Items.{item_of};
ghost use Rattle.update_lines.specs.ItemFaults.{Tells};
ghost use Rattle.update_lines.specs.Reading.{unquoted, name_at, ttl_at, type_at, name_alone, type_alone, set_at, data_at, datum_at, record_at, prerequisite_of, operation_of, update_item};

use crate::item_fault::ItemFault;
use dns_data::{Data, Item, Record, RecordType, Ttl, read_data};
use dns_names::Name;
use std::alloc::Global;
use zone_core::{Operation, OperationKind, Prerequisite, PrerequisiteKind};

/// An item of an update.
#[derive(Drop)]
pub(crate) enum UpdateItem {
    /// A test of the records before the update (RFC 2136 section 2.4).
    Prerequisite(Prerequisite),
    /// A change of the records (RFC 2136 section 2.5).
    Operation(Operation),
}

/// The octets of an item that must not stand in quotes.
fn unquoted<'a>(item: Item<'a>) -> Result<&'a [u8], ItemFault>
    ensures { Tells (λ raw. raw.now) result (unquoted (item_of item.entry)) }
{
    if item.quoted {
        return Err(ItemFault::NoItem);
    }
    Ok(item.raw)
}

/// The absolute name of an item.
fn read_name(alloc: Global, item: Item) -> Result<Name, ItemFault>
    ensures { Tells (λ name. name) result (name_at (item_of item.entry)) }
{
    Ok(Name::read_absolute(alloc, unquoted(item)?)?)
}

/// The TTL of an item (RFC 2181 section 8).
fn read_ttl(item: Item) -> Result<Ttl, ItemFault>
    ensures { Tells (λ ttl. ttl) result (ttl_at (item_of item.entry)) }
{
    Ok(Ttl::read(unquoted(item)?)?)
}

/// The type that an item names.
fn read_type(item: Item) -> Result<RecordType, ItemFault>
    ensures { Tells (λ record_type. record_type) result (type_at (item_of item.entry)) }
{
    Ok(RecordType::read(unquoted(item)?)?)
}

/// A name, and no more.
fn read_name_alone(alloc: Global, items: &[Item]) -> Result<Name, ItemFault>
    ensures { Tells (λ name. name) result (name_alone (map item_of items.now)) }
{
    match items {
        [owner] => read_name(alloc, *owner),
        _ => Err(ItemFault::NoItem),
    }
}

/// A type, and no more.
fn read_type_alone(items: &[Item]) -> Result<RecordType, ItemFault>
    ensures { Tells (λ record_type. record_type) result (type_alone (map item_of items.now)) }
{
    match items {
        [kind] => read_type(*kind),
        _ => Err(ItemFault::NoItem),
    }
}

/// A name and a type, and no more.
fn read_set(alloc: Global, items: &[Item]) -> Result<(Name, RecordType), ItemFault>
    ensures { Tells (λ x. (x.0, x.1)) result (set_at (map item_of items.now)) }
{
    let [owner, kinds @ ..] = items else {
        return Err(ItemFault::NoItem);
    };
    Ok((read_name(alloc, *owner)?, read_type_alone(kinds)?))
}

/// A type and data of it.
fn read_typed(alloc: Global, items: &[Item]) -> Result<Data, ItemFault>
    ensures { Tells (λ rdata. rdata) result (data_at (map item_of items.now)) }
{
    let [kind, fields @ ..] = items else {
        return Err(ItemFault::NoItem);
    };
    Ok(read_data(alloc, read_type(*kind)?, fields, None)?)
}

/// A name, a type and data of it.
fn read_datum(alloc: Global, items: &[Item]) -> Result<(Name, Data), ItemFault>
    ensures { Tells (λ x. (x.0, x.1)) result (datum_at (map item_of items.now)) }
{
    let [owner, typed @ ..] = items else {
        return Err(ItemFault::NoItem);
    };
    Ok((read_name(alloc, *owner)?, read_typed(alloc, typed)?))
}

/// A name, a TTL, a type and data of it.
fn read_record(alloc: Global, items: &[Item]) -> Result<Record, ItemFault>
    ensures { Tells (λ r. r) result (record_at (map item_of items.now)) }
{
    let [owner, ttl, typed @ ..] = items else {
        return Err(ItemFault::NoItem);
    };
    Ok(Record {
        owner: read_name(alloc, *owner)?,
        ttl: read_ttl(*ttl)?,
        rdata: read_typed(alloc, typed)?,
    })
}

/// A prerequisite of a kind, from the items after its word.
fn read_prerequisite(
    alloc: Global,
    kind: PrerequisiteKind,
    items: &[Item],
) -> Result<Prerequisite, ItemFault>
    ensures { Tells (λ p. p) result (prerequisite_of kind (map item_of items.now)) }
{
    match kind {
        PrerequisiteKind::RrsetExists => {
            let (name, record_type) = read_set(alloc, items)?;
            Ok(Prerequisite::RrsetExists { name, record_type })
        }
        PrerequisiteKind::RrsetEquals => {
            let (name, rdata) = read_datum(alloc, items)?;
            Ok(Prerequisite::RrsetEquals { name, rdata })
        }
        PrerequisiteKind::RrsetAbsent => {
            let (name, record_type) = read_set(alloc, items)?;
            Ok(Prerequisite::RrsetAbsent { name, record_type })
        }
        PrerequisiteKind::NameUsed => Ok(Prerequisite::NameUsed(read_name_alone(alloc, items)?)),
        PrerequisiteKind::NameUnused => Ok(Prerequisite::NameUnused(read_name_alone(
            alloc, items,
        )?)),
    }
}

/// An operation of a kind, from the items after its word.
fn read_operation(
    alloc: Global,
    kind: OperationKind,
    items: &[Item],
) -> Result<Operation, ItemFault>
    ensures { Tells (λ op. op) result (operation_of kind (map item_of items.now)) }
{
    match kind {
        OperationKind::Add => Ok(Operation::Add(read_record(alloc, items)?)),
        OperationKind::DeleteRrset => {
            let (name, record_type) = read_set(alloc, items)?;
            Ok(Operation::DeleteRrset { name, record_type })
        }
        OperationKind::DeleteName => Ok(Operation::DeleteName(read_name_alone(alloc, items)?)),
        OperationKind::DeleteRecord => {
            let (name, rdata) = read_datum(alloc, items)?;
            Ok(Operation::DeleteRecord { name, rdata })
        }
    }
}

/// The item of an update that the items of an entry are.
pub(crate) fn read_item(alloc: Global, items: &[Item]) -> Result<UpdateItem, ItemFault>
    ensures { Tells (λ item. item) result (update_item (map item_of items.now)) }
{
    let [word, fields @ ..] = items else {
        return Err(ItemFault::NoItem);
    };
    let word = unquoted(*word)?;
    if let Some(kind) = PrerequisiteKind::read(word) {
        return Ok(UpdateItem::Prerequisite(read_prerequisite(alloc, kind, fields)?));
    }
    let Some(kind) = OperationKind::read(word) else {
        return Err(ItemFault::NoItem);
    };
    Ok(UpdateItem::Operation(read_operation(alloc, kind, fields)?))
}
