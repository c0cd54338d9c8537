//! Record sets that are large.

ghost use Rattle.std.specs.Prelude.{◌≡◌, ◌≤◌, ◌^◌, ◌-◌, min, IfOk};
ghost use Rattle.std.specs.List.{filter, sum_by};
ghost use Rattle.dns_names.specs.Labels.{wire_len};
ghost use Rattle.dns_data.specs.Strings.{strings_len};
ghost use Rattle.zone_core.specs.Sets.{listing};
ghost use Rattle.zone_tools.specs.LargeSets.{data_len, entry_len, set_beside, is_large, is_first, begins_large, AreLargeSets};

use crate::same::is_same;
use dns_data::{Data, Record, Strings};
use dns_names::Name;
use std::alloc::{AllocError, Global};
use zone_core::Zone;

/// The most octets of a set: more do not fit a message (RFC 1035 section 4.2.2).
const OCTETS: usize = 65_000;

/// The octets of a name in a message.
fn name_len(name: &Name) -> usize
    ensures value { result ≡ wire_len name.now }
    ensures fits { result ≤ 255 }
{
    let mut len = 1;
    for label in name.labels() {
        len += label.len() + 1;
    }
    len
}

/// The octets of character-strings in a message.
fn strings_len(strings: &Strings) -> usize
    ensures value { result ≡ strings_len strings.now }
    ensures fits { result ≤ 65535 }
{
    let mut len = 0;
    for string in strings.as_slice() {
        len += string.octets().len() + 1;
    }
    len
}

/// The octets of data in a message.
fn data_len(rdata: &Data) -> usize
    ensures value { result ≡ data_len rdata.now }
    ensures fits { result ≤ 65535 }
{
    match rdata {
        Data::A(_) => 4,
        Data::Aaaa(_) => 16,
        Data::Ns(name) | Data::Cname(name) | Data::Ptr(name) => name_len(name),
        Data::Soa(soa) => name_len(&soa.fields().mname) + name_len(&soa.fields().rname) + 20,
        Data::Mx { exchange, .. } => 2 + name_len(exchange),
        Data::Txt(strings) => strings_len(strings),
        Data::Srv { target, .. } => 6 + name_len(target),
        Data::Ds { digest, .. } => 4 + digest.octets().len(),
    }
}

/// The octets of a set, as far as they can be counted.
fn set_len(set: &[Record]) -> usize
    ensures { result ≡ min (sum_by entry_len set.now) (2 ^ 64 - 1) }
{
    let mut len: usize = 0;
    for record in set {
        len = len.saturating_add(2 + data_len(&record.rdata));
    }
    len
}

/// Whether a set has more records than these, or more than 65,000 octets.
fn is_large(most: usize, set: &[Record]) -> bool
    ensures { result ≡ is_large most set.now }
{
    set.len() > most || set_len(set) > OCTETS
}

/// Whether a record is the first of its set.
fn is_first(rr: &Record, set: &[Record]) -> bool
    ensures { result ≡ is_first rr.now set.now }
{
    match set {
        [first, ..] => is_same(first, rr),
        [] => false,
    }
}

/// The records of a record's set.
fn set_beside<'a>(zone: &'a Zone, rr: &Record) -> &'a [Record]
    ensures { result.now ≡ set_beside (listing zone.now.records) rr.now }
{
    // the proof needs that the records are in order
    let _ = zone.records();
    zone.rrset(&rr.owner, rr.record_type())
}

/// Whether a record is the first of a large set.
fn begins_large(zone: &Zone, rr: &Record, most: usize) -> bool
    ensures { result ≡ begins_large most (listing zone.now.records) rr.now }
{
    let set = set_beside(zone, rr);
    is_first(rr, set) && is_large(most, set)
}

/// The first records of those sets of a zone that have more records than `most`, or more than 65,000 octets of data, with two for the
/// length of each (BIND does not load them): in record order. The only error is out of memory.
pub fn large_sets(alloc: Global, zone: &Zone, most: usize) -> Result<Vec<Record>, AllocError>
    // They are exactly these.
    ensures found { IfOk result (λ found. AreLargeSets most (listing zone.now.records) found.items) }
    // The same by a definition that computes.
    ensures exact { IfOk result (λ found. found.items ≡ filter (begins_large most (listing zone.now.records)) (listing zone.now.records)) }
{
    let mut found = Vec::new(alloc);
    for record in zone.records() {
        if begins_large(zone, record, most) {
            found.push(record.try_copy(alloc)?)?;
        }
    }
    Ok(found)
}
