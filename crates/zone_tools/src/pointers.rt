//! The pointers that the addresses of forward zones call for in a reverse zone.

ghost use Rattle.std.specs.Prelude.{◌≡◌, [], ◌∷◌, ◌++◌, IfOk};
ghost use Rattle.std.specs.List.{flat_map};
ghost use Rattle.std.specs.Option.{option_to_list};
ghost use Rattle.dns_names.specs.Order.{same_name};
ghost use Rattle.dns_data.specs.RecordOrder.{record_order};
ghost use Rattle.std.specs.List.Sorted.{IsStrictlySortedBy};
ghost use Rattle.zone_tools.specs.ReverseNames.{block_of};
ghost use Rattle.zone_tools.specs.Pointers.{AreComplete, AreSound, HaveOwnersOnce, ArePointers, AreFirsts, target_len, choice, pointer_order, pointer_of, called};

use crate::host_names::is_wildcard;
use crate::reverse_blocks::{Block, block_of, place_of};
use dns_data::{Data, Record, data_order};
use dns_names::Name;
use std::alloc::{AllocError, Global};
use std::cmp::Ordering;

/// How many labels the target of a pointer has.
fn target_len(rdata: &Data) -> usize
    ensures { result ≡ target_len rdata.now }
{
    match rdata {
        Data::Ptr(target) => target.labels().count(),
        _ => 0,
    }
}

/// Which of two pointers for one address comes first: that with fewer labels in its target, then by the text of the target, then with
/// the lower TTL.
fn choice(first: &Record, second: &Record) -> Ordering
    ensures { result ≡ choice first.now second.now }
{
    target_len(&first.rdata)
        .cmp(&target_len(&second.rdata))
        .then(data_order(&first.rdata, &second.rdata))
        .then(first.ttl.seconds().cmp(&second.ttl.seconds()))
}

/// The order of pointers by owner, and for one owner by choice.
fn pointer_order(first: &Record, second: &Record) -> Ordering
    ensures { result ≡ pointer_order first.now second.now }
{
    match first.owner.cmp(&second.owner) {
        Ordering::Equal => choice(first, second),
        order => order,
    }
}

/// A pointer with the TTL of a record to its owner. The only error is out of memory.
fn pointer_to(alloc: Global, owner: Name, rr: &Record) -> Result<Record, AllocError>
    ensures { IfOk result (λ p. p ≡ record { owner = owner; ttl = rr.now.ttl; rdata = Data.Ptr rr.now.owner }) }
{
    Ok(Record {
        owner,
        ttl: rr.ttl,
        rdata: Data::Ptr(rr.owner.try_copy(alloc)?),
    })
}

/// Appends the pointer that a record calls for. The only error is out of memory.
fn push_pointer(
    alloc: Global,
    pointers: &mut Vec<Record>,
    origin: &Name,
    block: &Option<Block>,
    rr: &Record,
) -> Result<(), AllocError>
    requires { block.now ≡ block_of origin.now }
    ensures { IfOk result (λ _. pointers.new.items ≡ pointers.old.items ++ pointer_of origin.now rr.now) }
{
    if is_wildcard(&rr.owner) {
        return Ok(());
    }
    if let Some(owner) = place_of(alloc, origin, block, &rr.rdata)? {
        pointers.push(pointer_to(alloc, owner, rr)?)?;
    }
    Ok(())
}

/// Appends the pointers that records call for, in the order of the records. The only error is out of memory.
fn push_pointers(
    alloc: Global,
    pointers: &mut Vec<Record>,
    origin: &Name,
    block: &Option<Block>,
    records: &[Record],
) -> Result<(), AllocError>
    requires { block.now ≡ block_of origin.now }
    ensures { IfOk result (λ _. pointers.new.items ≡ pointers.old.items ++ called origin.now records.now) }
{
    for record in records {
        push_pointer(alloc, pointers, origin, block, record)?;
    }
    Ok(())
}

/// The pointers that records call for, in the order of the records. The only error is out of memory.
fn called(alloc: Global, origin: &Name, records: &[Record]) -> Result<Vec<Record>, AllocError>
    ensures { IfOk result (λ pointers. pointers.items ≡ called origin.now records.now) }
{
    let block = block_of(alloc, origin)?;
    let mut pointers = Vec::new(alloc);
    push_pointers(alloc, &mut pointers, origin, &block, records)?;
    Ok(pointers)
}

/// Of some pointers those that come first for their owners. The only error is out of memory.
fn firsts(mut pointers: Vec<Record>) -> Result<Vec<Record>, AllocError>
    ensures { IfOk result (λ firsts. AreFirsts pointers.items firsts.items) }
{
    pointers.sort_by(|first, second| pointer_order(first, second))?;
    pointers.dedup_by(|second, first| second.owner == first.owner);
    Ok(pointers)
}

/// The PTR records that the A and AAAA records of forward zones call for within a reverse zone's origin. The records may be those of
/// several zones, in any order. A wildcard calls for none, since it is the name of no host. Where several names have an address, its
/// pointer goes to the one with the fewest labels, and of these to the first by its text, with the TTL of its record, the lowest if
/// there are several. The pointers come in record order. The only error is out of memory.
///
/// An origin may name a block of fewer than 256 addresses by its first label (RFC 2317 section 4): `0/25` or `0-25` by the first
/// address and the length of its prefix, and `128-191` by the first and the last.
pub fn reverse_pointers(
    alloc: Global,
    origin: &Name,
    records: &[Record],
) -> Result<Vec<Record>, AllocError>
    // Each record of a host's address within the origin has a pointer at the address's name.
    ensures complete { IfOk result (λ pointers. AreComplete origin.now records.now pointers.items) }
    // Each pointer is at the name of the address of a record, to whose owner it points.
    ensures sound { IfOk result (λ pointers. AreSound origin.now records.now pointers.items) }
    // No two are at one name.
    ensures once { IfOk result (λ pointers. HaveOwnersOnce pointers.items) }
    // Which they are.
    ensures exact { IfOk result (λ pointers. ArePointers origin.now records.now pointers.items) }
    // They are in record order.
    ensures order { IfOk result (λ pointers. IsStrictlySortedBy record_order pointers.items) }
{
    firsts(called(alloc, origin, records)?)
}
