//! Rows of records in record order, in which what stands at a name, in a set or within a name is found by halving.

ghost use Rattle.std.specs.Prelude.{◌≡◌, ◌≤◌, ◌==◌, [], ◌∷◌, ◌++◌, if◌then◌else◌, not, Some, None, IfOk, length};
ghost use Rattle.std.specs.FinMap.{get};
ghost use Rattle.std.specs.Option.{option_copied};
ghost use Rattle.std.specs.Ordering.{is_eq};
ghost use Rattle.std.specs.List.{filter, insert};
ghost use Rattle.std.specs.List.Sorted.{IsSorted};
ghost use Rattle.zone_core.specs.Sets.{key_of, rank_of, set_of, record_order, same_ttl, has, minus, InOrder, AreRows, at_name, at, within};
ghost use Rattle.zone_core.specs.Prerequisites.{same_data};
ghost use Rattle.zone_core.specs.KeyPrefixes.{ShareOctets};
ghost use Rattle.zone_core.specs.Views.{set_order, IsRun};

use crate::sorting::{arranged, sources};
use dns_data::{Data, Record, RecordType, data_order, record_order};
use dns_names::Name;
use std::alloc::{AllocError, Global};
use std::cmp::Ordering;

/// Whether a record has a type.
pub fn has_type(rr: &Record, record_type: RecordType) -> bool
    ensures { result ≡ ((key_of rr.now).1 == rank_of record_type) }
{
    rr.record_type().rank() == record_type.rank()
}

/// Whether two data are the same.
pub(crate) fn same_data(first: &Data, second: &Data) -> bool
    ensures { result ≡ same_data first.now second.now }
{
    data_order(first, second).is_eq()
}

/// The records at a name.
pub(crate) fn at_name<'a>(records: &'a [Record], name: &Name) -> &'a [Record]
    requires { InOrder records.now }
    ensures { result.now ≡ filter (λ r. at_name name.now (key_of r)) records.now }
{
    let start = records.partition_point(|record| record.owner < *name);
    let rest = &records[start..];
    let count = rest.partition_point(|record| record.owner <= *name);
    &rest[..count]
}

/// The order of a record to the records of a set: by owner, and then by type.
fn set_order(rr: &Record, name: &Name, record_type: RecordType) -> Ordering
    ensures { result ≡ set_order name.now record_type rr.now }
{
    let by_type = rr.record_type().rank().cmp(&record_type.rank());
    rr.owner.cmp(name).then(by_type)
}

/// Where the records of a set begin and end.
pub(crate) fn set_bounds(records: &[Record], name: &Name, record_type: RecordType) -> (usize, usize)
    requires { InOrder records.now }
    ensures { IsRun (λ r. at name.now record_type (key_of r)) records.now result.0 result.1 }
{
    let start = records.partition_point(|record| set_order(record, name, record_type).is_lt());
    let rest = &records[start..];
    let count = rest.partition_point(|record| set_order(record, name, record_type).is_le());
    (start, start + count)
}

/// The records of a set.
pub(crate) fn of_set<'a>(
    records: &'a [Record],
    name: &Name,
    record_type: RecordType,
) -> &'a [Record]
    requires { InOrder records.now }
    ensures { result.now ≡ filter (λ r. at name.now record_type (key_of r)) records.now }
{
    let (start, end) = set_bounds(records, name, record_type);
    &records[start..end]
}

/// The records within a name.
pub(crate) fn within<'a>(records: &'a [Record], name: &Name) -> &'a [Record]
    requires { InOrder records.now }
    ensures { result.now ≡ filter (λ r. within name.now (key_of r)) records.now }
{
    let start = records.partition_point(|record| record.owner < *name);
    let rest = &records[start..];
    let count = rest.partition_point(|record| record.owner.is_within(name));
    &rest[..count]
}

/// Whether a record set exists.
pub(crate) fn has_set(records: &[Record], name: &Name, record_type: RecordType) -> bool
    requires { InOrder records.now }
    ensures { result ≡ has (set_of records.now) (at name.now record_type) }
{
    !of_set(records, name, record_type).is_empty()
}

/// Whether a name has records.
pub(crate) fn has_name(records: &[Record], name: &Name) -> bool
    requires { InOrder records.now }
    ensures { result ≡ has (set_of records.now) (at_name name.now) }
{
    !at_name(records, name).is_empty()
}

/// Appends a copy of a record. The only error is out of memory.
pub(crate) fn push_copy(
    alloc: Global,
    rows: &mut Vec<Record>,
    rr: &Record,
) -> Result<(), AllocError>
    ensures { IfOk result (λ _. rows.new.items ≡ rows.old.items ++ rr.now ∷ []) }
{
    rows.push(rr.try_copy(alloc)?)?;
    Ok(())
}

/// Inserts a copy of a record at a place. The only error is out of memory.
pub(crate) fn insert_copy(
    alloc: Global,
    rows: &mut Vec<Record>,
    place: usize,
    rr: &Record,
) -> Result<(), AllocError>
    requires { place ≤ length rows.old.items }
    ensures { IfOk result (λ _. rows.new.items ≡ insert rows.old.items place rr.now) }
{
    rows.insert(place, rr.try_copy(alloc)?)?;
    Ok(())
}

/// A row of one record. The only error is out of memory.
pub(crate) fn alone(alloc: Global, rr: Record) -> Result<Vec<Record>, AllocError>
    ensures { IfOk result (λ rows. rows.items ≡ rr ∷ []) }
{
    Ok(vec![in alloc; rr]?)
}

/// Appends copies of records. The only error is out of memory.
pub(crate) fn push_copies(
    alloc: Global,
    rows: &mut Vec<Record>,
    records: &[Record],
) -> Result<(), AllocError>
    ensures { IfOk result (λ _. rows.new.items ≡ rows.old.items ++ records.now) }
{
    for record in records {
        push_copy(alloc, rows, record)?;
    }
    Ok(())
}

/// Equal records in memory of their own. The only error is out of memory.
pub(crate) fn copied(alloc: Global, records: &[Record]) -> Result<Vec<Record>, AllocError>
    ensures { IfOk result (λ copies. copies.items ≡ records.now) }
{
    let mut copies = Vec::with_capacity(alloc, records.len())?;
    push_copies(alloc, &mut copies, records)?;
    Ok(copies)
}

/// The records in record order, and of those that are the same the first. The keys of all owners begin with the same
/// octets, `shared` in number. The only error is out of memory.
pub(crate) fn in_order_behind(
    alloc: Global,
    records: Vec<Record>,
    shared: usize,
) -> Result<Vec<Record>, AllocError>
    requires { ShareOctets shared records.items }
    ensures order { IfOk result (λ rows. InOrder rows.items) }
    ensures set { IfOk result (λ rows. set_of rows.items ≡ set_of records.items) }
{
    let positions = sources(alloc, &records, shared)?;
    let rows = arranged(alloc, records, positions)?;
    Ok(once(rows))
}

/// The records in record order, and of those that are the same the first. The only error is out of memory.
pub fn in_order(alloc: Global, records: Vec<Record>) -> Result<Vec<Record>, AllocError>
    ensures order { IfOk result (λ rows. InOrder rows.items) }
    ensures set { IfOk result (λ rows. set_of rows.items ≡ set_of records.items) }
{
    in_order_behind(alloc, records, 0)
}

/// The records, each once: of those that are the same the first.
fn once(mut records: Vec<Record>) -> Vec<Record>
    requires { IsSorted record_order records.items }
    ensures order { InOrder result.items }
    ensures set { set_of result.items ≡ set_of records.items }
{
    records.dedup_by(|next, kept| record_order(next, kept).is_eq());
    records
}

/// The record of a row that is the same as this one.
fn same_in<'a>(records: &'a [Record], rr: &Record) -> Option<&'a Record>
    requires { InOrder records.now }
    ensures { option_copied result ≡ get (set_of records.now) (key_of rr.now) }
{
    let place = records.partition_point(|record| record_order(record, rr).is_lt());
    match records[place..].first() {
        Some(found) => if_same(found, rr),
        None => None,
    }
}

/// A record, if it is the same as another.
fn if_same<'a>(found: &'a Record, rr: &Record) -> Option<&'a Record>
    ensures { option_copied result ≡ (if is_eq (record_order found.now rr.now) then Some found.now else None) }
{
    if record_order(found, rr).is_eq() {
        Some(found)
    } else {
        None
    }
}

/// Whether a row does not have the same record as this one, or has it with another TTL.
fn differs(rr: &Record, others: &[Record]) -> bool
    requires { InOrder others.now }
    ensures { result ≡ not (same_ttl (Some rr.now) (get (set_of others.now) (key_of rr.now))) }
{
    match same_in(others, rr) {
        Some(other) => rr.ttl.seconds() != other.ttl.seconds(),
        None => true,
    }
}

/// Appends copies of the records of a row that another row does not have, or has with other TTLs. The only error is out of memory.
pub(crate) fn push_difference(
    alloc: Global,
    found: &mut Vec<Record>,
    records: &[Record],
    others: &[Record],
) -> Result<(), AllocError>
    requires { InOrder others.now }
    ensures { IfOk result (λ _. found.new.items ≡ found.old.items ++ filter (λ r. not (same_ttl (Some r) (get (set_of others.now) (key_of r)))) records.now) }
{
    for record in records {
        if differs(record, others) {
            push_copy(alloc, found, record)?;
        }
    }
    Ok(())
}

/// Copies of the records of a row that another does not have, or has with other TTLs, in record order. The only error is out of
/// memory.
pub(crate) fn difference(
    alloc: Global,
    records: &[Record],
    others: &[Record],
) -> Result<Vec<Record>, AllocError>
    requires records { InOrder records.now }
    requires others { InOrder others.now }
    ensures { IfOk result (λ found. AreRows found.items (minus (set_of records.now) (set_of others.now))) }
{
    let mut found = Vec::new(alloc);
    push_difference(alloc, &mut found, records, others)?;
    Ok(found)
}
