//! The addresses that several names have.

ghost use Rattle.std.specs.Prelude.{◌≡◌, ◌++◌, take, IfOk};
ghost use Rattle.std.specs.List.{AllByRecursion, filter, list_any};
ghost use Rattle.std.specs.List.Sorted.{IsStrictlySortedBy};
ghost use Rattle.dns_data.specs.Rdata.{IsRecord};
ghost use Rattle.zone_tools.specs.ReverseNames.{block_of};
ghost use Rattle.zone_tools.specs.SharedAddresses.{AreShared, address_order, has_place, AreDistinct, is_namesake, is_shared};

use crate::host_names::is_wildcard;
use crate::repeated_addresses::repeated;
use crate::reverse_blocks::{Block, block_of, place_of};
use dns_data::{Record, data_order};
use dns_names::Name;
use std::alloc::{AllocError, Global};
use std::cmp::Ordering;

/// The order of records by address, and for one address by owner.
fn address_order(first: &Record, second: &Record) -> Ordering
    ensures { result ≡ address_order first.now second.now }
{
    match data_order(&first.rdata, &second.rdata) {
        Ordering::Equal => first.owner.cmp(&second.owner),
        order => order,
    }
}

/// Whether a reverse zone of this origin has the address of a record, whose owner is no wildcard. The only error is out of memory.
fn has_place(
    alloc: Global,
    origin: &Name,
    block: &Option<Block>,
    rr: &Record,
) -> Result<bool, AllocError>
    requires { block.now ≡ block_of origin.now }
    ensures { IfOk result (λ has. has ≡ has_place origin.now rr.now) }
{
    if is_wildcard(&rr.owner) {
        return Ok(false);
    }
    let place = place_of(alloc, origin, block, &rr.rdata)?;
    Ok(place.is_some())
}

/// Appends the records whose addresses a reverse zone of this origin has. The only error is out of memory.
fn push_placed(
    alloc: Global,
    placed: &mut Vec<Record>,
    origin: &Name,
    block: &Option<Block>,
    records: &[Record],
) -> Result<(), AllocError>
    requires { block.now ≡ block_of origin.now }
    ensures { IfOk result (λ _. placed.new.items ≡ placed.old.items ++ filter (has_place origin.now) records.now) }
{
    for record in records {
        if has_place(alloc, origin, block, record)? {
            placed.push(record.try_copy(alloc)?)?;
        }
    }
    Ok(())
}

/// The records whose addresses a reverse zone of this origin has. The only error is out of memory.
fn placed(alloc: Global, origin: &Name, records: &[Record]) -> Result<Vec<Record>, AllocError>
    ensures { IfOk result (λ placed. placed.items ≡ filter (has_place origin.now) records.now) }
{
    let block = block_of(alloc, origin)?;
    let mut placed = Vec::new(alloc);
    push_placed(alloc, &mut placed, origin, &block, records)?;
    Ok(placed)
}

/// Records in order, of which no two have one address and owner. The only error is out of memory.
fn distinct(mut records: Vec<Record>) -> Result<Vec<Record>, AllocError>
    ensures { IfOk result (λ distinct. AreDistinct records.items distinct.items) }
{
    records.sort_by(|first, second| address_order(first, second))?;
    records.dedup_by(|second, first| address_order(second, first).is_eq());
    Ok(records)
}

/// Whether one record has the address of another at another name.
fn is_namesake(rr: &Record, other: &Record) -> bool
    ensures { result ≡ is_namesake rr.now other.now }
{
    data_order(&other.rdata, &rr.rdata).is_eq() && other.owner != rr.owner
}

/// Whether one of the first two of some records has the address of another at another name.
fn has_near_namesake(records: &[Record], rr: &Record) -> bool
    ensures { result ≡ list_any (is_namesake rr.now) (take 2 records.now) }
{
    records.iter().take(2).any(|record| is_namesake(rr, record))
}

/// Whether one of some records has the address of another at another name.
fn is_shared(records: &[Record], rr: &Record) -> bool
    requires { IsStrictlySortedBy address_order records.now }
    ensures { result ≡ is_shared records.now rr.now }
{
    let at = records.partition_point(|record| data_order(&record.rdata, &rr.rdata).is_lt());
    has_near_namesake(&records[at..], rr)
}

/// Those of some records whose addresses others of them have at other names. The only error is out of memory.
fn shared(alloc: Global, records: &[Record]) -> Result<Vec<Record>, AllocError>
    requires { IsStrictlySortedBy address_order records.now }
    ensures { IfOk result (λ shared. shared.items ≡ filter (is_shared records.now) records.now) }
{
    let mut shared = Vec::new(alloc);
    for record in records {
        if is_shared(records, record) {
            shared.push(record.try_copy(alloc)?)?;
        }
    }
    Ok(shared)
}

/// Records are such. It does nothing when it runs.
fn reveal_records(records: &[Record])
    ensures { AllByRecursion IsRecord records.now }
{
    for record in records {
        let _ = record.record_type();
    }
}

/// Those of the A and AAAA records of forward zones whose addresses several names have, of the addresses that a reverse zone of this
/// origin has (`.` has all). The records may be those of several zones, in any order. Wildcards do not count. They come by address and
/// then by name, and of a repeated record one. The only error is out of memory.
pub fn shared_addresses(
    alloc: Global,
    origin: &Name,
    records: &[Record],
) -> Result<Vec<Record>, AllocError>
    ensures { IfOk result (λ shared. AreShared origin.now records.now shared.items) }
{
    reveal_records(records);
    let repeated = repeated(alloc, records)?;
    let records = distinct(placed(alloc, origin, &repeated)?)?;
    shared(alloc, &records)
}
