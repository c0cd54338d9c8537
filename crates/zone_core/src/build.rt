//! Building zones.

ghost use Rattle.std.specs.Prelude.{◌≡◌, ◌<◌, ◌==◌, ◌&&◌, reverse, map, not, Ok, IfOk, length, take, slice_index_or};
ghost use Rattle.std.specs.List.{list_all, list_any, position, position_or_len};
ghost use Rattle.dns_names.specs.Labels.{is_within};
ghost use Rattle.zone_core.specs.Faults.{Gives};
ghost use Rattle.zone_core.specs.Sets.{key_of, set_of, count, at_name, InOrder};
ghost use Rattle.zone_core.specs.KeyPrefixes.{ShareOctets};
ghost use Rattle.zone_core.specs.Views.{set_ttl, given_ttls, min_ttl_rows, are_two_cnames, are_cname_and_other};
ghost use Rattle.zone_core.specs.Zones.{IsZone, built, latest, zone_of, least_below, beside, fault_in, is_outside, is_soa, is_cname, is_of_two_cnames, is_cname_beside_other};

use crate::faults::ZoneFault;
use crate::invariants::reveal_records;
use crate::rows::{has_set, has_type, in_order_behind};
use crate::zone::Zone;
use dns_data::{Record, RecordType, Ttl};
use dns_names::Name;
use std::alloc::{AllocError, Global};

impl Zone {
    /// The zone of an origin and records, in any order. A repeated record is kept once, with its last TTL; then each set has
    /// the least TTL of its records (RFC 2181 section 5.2).
    ///
    /// The refusals, of which the first is answered: `RootOrigin`, `OutOfZone`, `SoaNotAtOrigin`, `NoSoa`, `TwoSoa`,
    /// `NoOriginNs`, `TwoCnames`, `CnameAndOther`. `NoMemory` comes at the growth that was refused.
    pub fn build(alloc: Global, origin: Name, records: Vec<Record>) -> Result<Zone, ZoneFault>
        // What is built is a zone.
        ensures found { IfOk result IsZone }
        // Records that make a zone are built, unless memory runs out.
        ensures only { IsZone (zone_of origin records.items) → Gives (λ zone. zone) result (Ok (zone_of origin records.items)) }
        // Which zone it is, or which refusal.
        ensures exact { Gives (λ zone. zone) result (built origin records.items) }
    {
        let records = min_rrset_ttl(alloc, latest_rows(alloc, &origin, records)?)?;
        reveal_records(&records);
        match fault_in(&origin, &records) {
            Some(fault) => Err(fault),
            None => Ok(Zone::of_rows(origin, records)),
        }
    }
}

/// Whether all owners are within the origin.
fn all_within(origin: &Name, records: &[Record]) -> bool
    ensures { result ≡ list_all (λ r. is_within r.owner origin.now) records.now }
{
    records.iter().all(|record| record.owner.is_within(origin))
}

/// How many octets the keys of all owners begin with that are the same: those of the origin's, where all are within it.
fn shared_of(origin: &Name, records: &[Record]) -> usize
    ensures { ShareOctets result records.now }
{
    if all_within(origin, records) {
        origin.key().len()
    } else {
        0
    }
}

/// The records from the last to the first.
fn reversed(mut records: Vec<Record>) -> Vec<Record>
    ensures { result.items ≡ reverse records.items }
{
    records.reverse();
    records
}

/// The records in record order, each once, with its last TTL.
fn latest_rows(
    alloc: Global,
    origin: &Name,
    records: Vec<Record>,
) -> Result<Vec<Record>, AllocError>
    ensures order { IfOk result (λ rows. InOrder rows.items) }
    ensures set { IfOk result (λ rows. set_of rows.items ≡ latest records.items) }
{
    let records = reversed(records);
    let shared = shared_of(origin, &records);
    in_order_behind(alloc, records, shared)
}

/// The records, each with the least TTL of its set.
fn min_rrset_ttl(alloc: Global, records: Vec<Record>) -> Result<Vec<Record>, AllocError>
    requires { InOrder records.items }
    ensures { IfOk result (λ rows. rows.items ≡ min_ttl_rows records.items) }
{
    let ttls = set_ttls(alloc, &records)?;
    Ok(with_ttls(records, &ttls))
}

/// The least TTL of the set of each record.
fn set_ttls(alloc: Global, records: &[Record]) -> Result<Vec<Ttl>, AllocError>
    requires { InOrder records.now }
    ensures { IfOk result (λ ttls. ttls.items ≡ map (set_ttl records.now) records.now) }
{
    let mut ttls = Vec::with_capacity(alloc, records.len())?;
    for i in 0..records.len() {
        let ttl = set_ttl(records, &ttls, i);
        ttls.push(ttl)?;
    }
    Ok(ttls)
}

/// The least TTL of the set of a record, where those of the records before it are known.
fn set_ttl(records: &[Record], known: &[Ttl], i: usize) -> Ttl
    requires order { InOrder records.now }
    requires within { i < length records.now }
    requires known { known.now ≡ map (set_ttl records.now) (take i records.now) }
    ensures { (d : Record) → result ≡ set_ttl records.now (slice_index_or records.now i d) }
{
    let record = &records[i];
    if i > 0 && are_beside(record, &records[i - 1]) {
        return known[i - 1];
    }
    let others = &records[i + 1..];
    least_below(record.ttl, &others[..count_beside(record, others)])
}

/// Whether two records are of one set.
fn are_beside(first: &Record, second: &Record) -> bool
    ensures { result ≡ beside (key_of first.now) (key_of second.now) }
{
    second.owner == first.owner && has_type(second, first.record_type())
}

/// The first of some records that is not of the set of one.
fn first_apart(rr: &Record, records: &[Record]) -> Option<usize>
    ensures { result ≡ position (λ r. not (beside (key_of rr.now) (key_of r))) records.now }
{
    records.iter().position(|record| !are_beside(rr, record))
}

/// How many records are of the set of one, as far as they stand first.
fn count_beside(rr: &Record, records: &[Record]) -> usize
    ensures { result ≡ position_or_len (λ r. not (beside (key_of rr.now) (key_of r))) records.now }
{
    first_apart(rr, records).unwrap_or(records.len())
}

/// The least of a TTL and those of records.
fn least_below(ttl: Ttl, records: &[Record]) -> Ttl
    ensures { result ≡ least_below ttl records.now }
{
    let mut least = ttl;
    for record in records {
        if record.ttl.seconds() < least.seconds() {
            least = record.ttl;
        }
    }
    least
}

/// Records with TTLs in the place of their own.
fn with_ttls(mut records: Vec<Record>, ttls: &[Ttl]) -> Vec<Record>
    requires { length ttls.now ≡ length records.items }
    ensures { result.items ≡ given_ttls records.items ttls.now }
{
    for i in 0..records.len() {
        records[i].ttl = ttls[i];
    }
    records
}

/// What is wrong with records as a zone of this origin, if there is something.
fn fault_in(origin: &Name, records: &[Record]) -> Option<ZoneFault>
    requires { InOrder records.now }
    ensures { result ≡ fault_in origin.now (set_of records.now) }
{
    if is_root(origin) {
        Some(ZoneFault::RootOrigin)
    } else if some_outside(origin, records) {
        Some(ZoneFault::OutOfZone)
    } else if some_soa_elsewhere(origin, records) {
        Some(ZoneFault::SoaNotAtOrigin)
    } else if soas(records) == 0 {
        Some(ZoneFault::NoSoa)
    } else if soas(records) > 1 {
        Some(ZoneFault::TwoSoa)
    } else if !has_set(records, origin, RecordType::Ns) {
        Some(ZoneFault::NoOriginNs)
    } else if has_two_cnames(records) {
        Some(ZoneFault::TwoCnames)
    } else if has_cname_and_other(records) {
        Some(ZoneFault::CnameAndOther)
    } else {
        None
    }
}

/// Whether a name is the root.
fn is_root(name: &Name) -> bool
    ensures { result ≡ (length name.now == 0) }
{
    name.labels().next().is_none()
}

/// Whether an owner is outside the origin, or a DS is at it.
fn is_outside(origin: &Name, rr: &Record) -> bool
    ensures { result ≡ is_outside origin.now (key_of rr.now) }
{
    !rr.owner.is_within(origin) || (has_type(rr, RecordType::Ds) && rr.owner == *origin)
}

/// Whether some record is outside the origin.
fn some_outside(origin: &Name, records: &[Record]) -> bool
    ensures { result ≡ list_any (λ r. is_outside origin.now (key_of r)) records.now }
{
    records.iter().any(|record| is_outside(origin, record))
}

/// Whether an SOA stands elsewhere than at the origin.
fn is_soa_elsewhere(origin: &Name, rr: &Record) -> bool
    ensures { result ≡ (is_soa (key_of rr.now) && not (at_name origin.now (key_of rr.now))) }
{
    has_type(rr, RecordType::Soa) && rr.owner != *origin
}

/// Whether some SOA stands elsewhere than at the origin.
fn some_soa_elsewhere(origin: &Name, records: &[Record]) -> bool
    ensures { result ≡ list_any (λ r. is_soa (key_of r) && not (at_name origin.now (key_of r))) records.now }
{
    records
        .iter()
        .any(|record| is_soa_elsewhere(origin, record))
}

/// How many SOA records there are.
fn soas(records: &[Record]) -> usize
    requires { InOrder records.now }
    ensures { result ≡ count (set_of records.now) is_soa }
{
    let mut soas = 0;
    for record in records {
        if has_type(record, RecordType::Soa) {
            soas += 1;
        }
    }
    soas
}

/// Whether two records are CNAME records of one name.
fn are_two_cnames(first: &Record, second: &Record) -> bool
    ensures { result ≡ are_two_cnames first.now second.now }
{
    has_type(first, RecordType::Cname) && are_beside(first, second)
}

/// Whether a name has two CNAME records, which then follow each other.
fn has_two_cnames(records: &[Record]) -> bool
    requires { InOrder records.now }
    ensures { result ≡ list_any (λ r. is_of_two_cnames (set_of records.now) (key_of r)) records.now }
{
    for i in 1..records.len() {
        if are_two_cnames(&records[i - 1], &records[i]) {
            return true;
        }
    }
    false
}

/// Whether only the first of two records is a CNAME.
fn is_only_cname(first: &Record, second: &Record) -> bool
    ensures { result ≡ (is_cname (key_of first.now) && not (is_cname (key_of second.now))) }
{
    has_type(first, RecordType::Cname) && !has_type(second, RecordType::Cname)
}

/// Whether two records are of one name, and only one of them is a CNAME.
fn are_cname_and_other(first: &Record, second: &Record) -> bool
    ensures { result ≡ are_cname_and_other first.now second.now }
{
    (is_only_cname(first, second) || is_only_cname(second, first)) && second.owner == first.owner
}

/// Whether a name has a CNAME and another record, of which two then follow each other.
fn has_cname_and_other(records: &[Record]) -> bool
    requires { InOrder records.now }
    ensures { result ≡ list_any (λ r. is_cname_beside_other (set_of records.now) (key_of r)) records.now }
{
    for i in 1..records.len() {
        if are_cname_and_other(&records[i - 1], &records[i]) {
            return true;
        }
    }
    false
}
