//! The records of hosts whose addresses occur more than once: few, where each host has its own, and found by a sort of numbers.

ghost use Rattle.std.specs.Prelude.{◌≡◌, ◌++◌, IfOk};
ghost use Rattle.std.specs.List.{filter};
ghost use Rattle.std.specs.List.Sorted.{IsPermutation, IsSorted};
ghost use Rattle.zone_tools.specs.SharedAddresses.{HaveRepeated, address_number, if_same_number, is_address, is_host_address, number_order, same_neighbours};

use crate::host_names::is_wildcard;
use dns_data::{Data, Record};
use std::alloc::{AllocError, Global};
use std::cmp::Ordering;

/// The number whose bits are an address, an IPv4 address or an IPv6 one. Other data have 0.
fn address_number(rdata: &Data) -> u128
    ensures { result ≡ address_number rdata.now }
{
    match rdata {
        Data::A(address) => u128::from(address.to_bits()),
        Data::Aaaa(address) => address.to_bits(),
        _ => 0,
    }
}

/// Whether data are an address.
fn is_address(rdata: &Data) -> bool
    ensures { result ≡ is_address rdata.now }
{
    matches!(rdata, Data::A(_) | Data::Aaaa(_))
}

/// Whether a record has an address, and its owner is no wildcard.
fn is_host_address(rr: &Record) -> bool
    ensures { result ≡ is_host_address rr.now }
{
    is_address(&rr.rdata) && !is_wildcard(&rr.owner)
}

/// The records of hosts' addresses. The only error is out of memory.
fn host_addresses(alloc: Global, records: &[Record]) -> Result<Vec<Record>, AllocError>
    ensures { IfOk result (λ hosts. hosts.items ≡ filter is_host_address records.now) }
{
    let mut hosts = Vec::new(alloc);
    for record in records {
        if is_host_address(record) {
            hosts.push(record.try_copy(alloc)?)?;
        }
    }
    Ok(hosts)
}

/// The order of records by the numbers of their addresses.
fn number_order(first: &Record, second: &Record) -> Ordering
    ensures { result ≡ number_order first.now second.now }
{
    address_number(&first.rdata).cmp(&address_number(&second.rdata))
}

/// Records by the numbers of their addresses. The only error is out of memory.
fn by_number(mut records: Vec<Record>) -> Result<Vec<Record>, AllocError>
    ensures same { IfOk result (λ sorted. IsPermutation records.items sorted.items) }
    ensures order { IfOk result (λ sorted. IsSorted number_order sorted.items) }
{
    records.sort_by(|first, second| number_order(first, second))?;
    Ok(records)
}

/// Appends two records if their addresses have one number. The only error is out of memory.
fn push_if_same(
    alloc: Global,
    same: &mut Vec<Record>,
    first: &Record,
    second: &Record,
) -> Result<(), AllocError>
    ensures { IfOk result (λ _. same.new.items ≡ same.old.items ++ if_same_number first.now second.now) }
{
    if address_number(&first.rdata) == address_number(&second.rdata) {
        same.push(first.try_copy(alloc)?)?;
        same.push(second.try_copy(alloc)?)?;
    }
    Ok(())
}

/// The neighbours among records whose addresses have one number. The only error is out of memory.
fn same_neighbours(alloc: Global, records: &[Record]) -> Result<Vec<Record>, AllocError>
    ensures { IfOk result (λ same. same.items ≡ same_neighbours records.now) }
{
    let mut same = Vec::new(alloc);
    for at in 1..records.len() {
        push_if_same(alloc, &mut same, &records[at - 1], &records[at])?;
    }
    Ok(same)
}

/// Of records those of hosts whose addresses other hosts may have too, some more than once, and few others. The only error is out of
/// memory.
pub(crate) fn repeated(alloc: Global, records: &[Record]) -> Result<Vec<Record>, AllocError>
    ensures { IfOk result (λ repeated. HaveRepeated records.now repeated.items) }
{
    let hosts = by_number(host_addresses(alloc, records)?)?;
    same_neighbours(alloc, &hosts)
}
