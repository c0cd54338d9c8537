//! What an operation does to the records at its name (RFC 2136 section 3.4.2): a function for each of its rules. The records
//! at one name, in record order, are a node.

ghost use Rattle.std.specs.Prelude.{◌≡◌, ◌&&◌, ◌==◌, not, map, IfOk, true};
ghost use Rattle.std.specs.List.{list_any, filter, find};
ghost use Rattle.std.specs.Option.{option_copied};
ghost use Rattle.dns_data.specs.declared.record_type.RecordType.TheVariants.{Ns};
ghost use Rattle.zone_core.specs.Sets.{Records, key_of, rank_of, set_of, part, at_name, put};
ghost use Rattle.zone_core.specs.Zones.{is_soa, soa_at, serial_in};
ghost use Rattle.zone_core.specs.Updates.{acted_name};
ghost use Rattle.zone_core.specs.Prerequisites.{same_data};
ghost use Rattle.zone_core.specs.Effects.{effect, effects, add, add_soa, add_cname, add_other, is_misplaced, takes_over, delete_rrset, delete_name, delete_record, key_at, is_guarded, stays};
ghost use Rattle.zone_core.specs.Nodes.{IsNode, IsPlaceOf, Becomes, with_type_ttl};

use crate::rows::{alone, has_set, has_type, insert_copy, same_data, set_bounds};
use crate::serial::serial_less;
use crate::update::Operation;
use dns_data::{Data, Record, RecordType, Ttl, data_order, record_order};
use dns_names::Name;
use std::alloc::{AllocError, Global};

/// What an operation makes of the records at its name, in a zone of this origin. The only error is out of memory.
pub(crate) fn effect(
    alloc: Global,
    origin: &Name,
    node: Vec<Record>,
    operation: &Operation,
) -> Result<Vec<Record>, AllocError>
    requires { IsNode (acted_name operation.now) node.items }
    ensures { IfOk result (λ after. Becomes (acted_name operation.now) after.items (effect origin.now (set_of node.items) operation.now)) }
{
    match operation {
        Operation::Add(rr) => add(alloc, origin, node, rr),
        Operation::DeleteRrset { name, record_type } => {
            Ok(delete_rrset(origin, node, name, *record_type))
        }
        Operation::DeleteName(name) => Ok(delete_name(origin, node, name)),
        Operation::DeleteRecord { name, rdata } => Ok(delete_record(origin, node, name, rdata)),
    }
}

/// Adds a record to a set (section 3.4.2.2).
fn add(
    alloc: Global,
    origin: &Name,
    node: Vec<Record>,
    rr: &Record,
) -> Result<Vec<Record>, AllocError>
    requires { IsNode rr.now.owner node.items }
    ensures { IfOk result (λ after. Becomes rr.now.owner after.items (add origin.now (set_of node.items) rr.now)) }
{
    if has_type(rr, RecordType::Soa) {
        add_soa(alloc, node, rr)
    } else if has_type(rr, RecordType::Cname) {
        add_cname(alloc, node, rr)
    } else if is_misplaced(origin, rr) {
        Ok(node)
    } else {
        add_other(alloc, node, rr)
    }
}

/// Whether a record is a DS at the origin.
fn is_misplaced(origin: &Name, rr: &Record) -> bool
    ensures { result ≡ is_misplaced origin.now rr.now }
{
    rr.owner == *origin && has_type(rr, RecordType::Ds)
}

/// Adds an SOA, in the place of one with a lesser serial.
fn add_soa(alloc: Global, node: Vec<Record>, rr: &Record) -> Result<Vec<Record>, AllocError>
    requires node { IsNode rr.now.owner node.items }
    requires soa { is_soa (key_of rr.now) ≡ true }
    ensures { IfOk result (λ after. Becomes rr.now.owner after.items (add_soa (set_of node.items) rr.now)) }
{
    if takes_over(&node, rr) {
        put(alloc, without_type(node, &rr.owner, RecordType::Soa), rr)
    } else {
        Ok(node)
    }
}

/// Adds a CNAME, where there is no record of another type.
fn add_cname(alloc: Global, node: Vec<Record>, rr: &Record) -> Result<Vec<Record>, AllocError>
    requires node { IsNode rr.now.owner node.items }
    ensures { IfOk result (λ after. Becomes rr.now.owner after.items (add_cname (set_of node.items) rr.now)) }
{
    if has_other_type(&node, RecordType::Cname) {
        return Ok(node);
    }
    alone(alloc, rr.try_copy(alloc)?)
}

/// Adds a record of another type, where there is no CNAME. Its set has its TTL then (RFC 2181 section 5.2).
fn add_other(alloc: Global, node: Vec<Record>, rr: &Record) -> Result<Vec<Record>, AllocError>
    requires { IsNode rr.now.owner node.items }
    ensures { IfOk result (λ after. Becomes rr.now.owner after.items (add_other (set_of node.items) rr.now)) }
{
    if has_some_at(&node, &rr.owner, RecordType::Cname) {
        return Ok(node);
    }
    let record_type = rr.record_type();
    put(alloc, with_ttl(node, &rr.owner, record_type, rr.ttl), rr)
}

/// The SOA among records.
fn soa_in(node: &[Record]) -> Option<&Record>
    ensures { option_copied result ≡ find (λ r. is_soa (key_of r)) node.now }
{
    node.iter().find(|record| has_type(record, RecordType::Soa))
}

/// The serial of an SOA, and 0 of another record.
fn serial_in(rr: &Record) -> u32
    ensures { result ≡ serial_in rr.now }
{
    match &rr.rdata {
        Data::Soa(soa) => soa.fields().serial.0,
        _ => 0,
    }
}

/// Whether an SOA takes the place of the one there, which has a lesser serial (RFC 1982).
fn takes_over(node: &[Record], rr: &Record) -> bool
    requires { IsNode rr.now.owner node.now }
    ensures { result ≡ takes_over rr.now (soa_at rr.now.owner (set_of node.now)) }
{
    match soa_in(node) {
        Some(old) => serial_less(serial_in(old), serial_in(rr)),
        None => false,
    }
}

/// Whether there is a record of a type.
pub(crate) fn has_some(node: &[Record], record_type: RecordType) -> bool
    ensures { result ≡ list_any (λ r. (key_of r).1 == rank_of record_type) node.now }
{
    node.iter().any(|record| has_type(record, record_type))
}

/// Whether there is a record of a type at a name.
fn has_some_at(node: &[Record], name: &Name, record_type: RecordType) -> bool
    requires { IsNode name.now node.now }
    ensures { result ≡ list_any (λ r. (key_of r).1 == rank_of record_type) node.now }
{
    has_set(node, name, record_type)
}

/// Whether a record has another type.
fn is_of_other_type(rr: &Record, record_type: RecordType) -> bool
    ensures { result ≡ not ((key_of rr.now).1 == rank_of record_type) }
{
    !has_type(rr, record_type)
}

/// Whether there is a record of another type.
fn has_other_type(node: &[Record], record_type: RecordType) -> bool
    ensures { result ≡ list_any (λ r. not ((key_of r).1 == rank_of record_type)) node.now }
{
    node.iter()
        .any(|record| is_of_other_type(record, record_type))
}

/// Whether a record is an NS with other data.
fn is_other_ns(rr: &Record, rdata: &Data) -> bool
    ensures { result ≡ ((key_of rr.now).1 == rank_of Ns) && not (same_data rdata.now rr.now.rdata) }
{
    has_type(rr, RecordType::Ns) && !same_data(rdata, &rr.rdata)
}

/// Whether there is an NS with other data.
fn has_other_ns(node: &[Record], rdata: &Data) -> bool
    ensures { result ≡ list_any (λ r. ((key_of r).1 == rank_of Ns) && not (same_data rdata.now r.rdata)) node.now }
{
    node.iter().any(|record| is_other_ns(record, rdata))
}

/// Whether a type is one of those that stay at the origin.
fn is_guarded(record_type: RecordType) -> bool
    ensures { result ≡ is_guarded (rank_of record_type) }
{
    matches!(record_type, RecordType::Soa | RecordType::Ns)
}

/// Puts a record in the place of the same one.
fn put(alloc: Global, node: Vec<Record>, rr: &Record) -> Result<Vec<Record>, AllocError>
    requires { IsNode rr.now.owner node.items }
    ensures { IfOk result (λ after. Becomes rr.now.owner after.items (put (set_of node.items) rr.now)) }
{
    let mut others = without(node, &rr.owner, &rr.rdata);
    let place = others.partition_point(|record| record_order(record, rr).is_lt());
    insert_copy(alloc, &mut others, place, rr)?;
    Ok(others)
}

/// The records, those of a type with this TTL.
fn with_ttl(mut node: Vec<Record>, name: &Name, record_type: RecordType, ttl: Ttl) -> Vec<Record>
    requires { IsNode name.now node.items }
    ensures { result.items ≡ map (with_type_ttl record_type ttl) node.items }
{
    let (start, end) = set_bounds(&node, name, record_type);
    for i in start..end {
        node[i].ttl = ttl;
    }
    node
}

/// The records without those of a type.
fn without_type(mut node: Vec<Record>, name: &Name, record_type: RecordType) -> Vec<Record>
    requires { IsNode name.now node.items }
    ensures { result.items ≡ filter (λ r. not ((key_of r).1 == rank_of record_type)) node.items }
{
    if !has_some_at(&node, name, record_type) {
        return node;
    }
    node.retain(|record| is_of_other_type(record, record_type));
    node
}

/// Deletes a set (section 3.4.2.3): but of SOA and of NS at the origin.
fn delete_rrset(
    origin: &Name,
    node: Vec<Record>,
    name: &Name,
    record_type: RecordType,
) -> Vec<Record>
    requires { IsNode name.now node.items }
    ensures { Becomes name.now result.items (delete_rrset origin.now (set_of node.items) name.now record_type) }
{
    if name == origin && is_guarded(record_type) {
        node
    } else {
        without_type(node, name, record_type)
    }
}

/// The records of types that stay at the origin.
fn guarded(mut node: Vec<Record>) -> Vec<Record>
    ensures { result.items ≡ filter (λ r. is_guarded (key_of r).1) node.items }
{
    node.retain(|record| is_guarded(record.record_type()));
    node
}

/// Deletes all sets at a name (section 3.4.2.3): but of SOA and of NS at the origin.
fn delete_name(origin: &Name, mut node: Vec<Record>, name: &Name) -> Vec<Record>
    requires { IsNode name.now node.items }
    ensures { Becomes name.now result.items (delete_name origin.now (set_of node.items) name.now) }
{
    if name == origin {
        guarded(node)
    } else {
        node.clear();
        node
    }
}

/// Whether a record is never deleted: at the origin an SOA, and an NS beside which there is no other.
fn stays(origin: &Name, node: &[Record], name: &Name, rdata: &Data) -> bool
    requires { IsNode name.now node.now }
    ensures { result ≡ stays origin.now (set_of node.now) (key_at name.now rdata.now) }
{
    name == origin
        && match rdata.record_type() {
            RecordType::Soa => true,
            RecordType::Ns => !has_other_ns(node, rdata),
            _ => false,
        }
}

/// Deletes a record (section 3.4.2.4): but the SOA and the last NS at the origin.
fn delete_record(origin: &Name, node: Vec<Record>, name: &Name, rdata: &Data) -> Vec<Record>
    requires { IsNode name.now node.items }
    ensures { Becomes name.now result.items (delete_record origin.now (set_of node.items) (key_at name.now rdata.now)) }
{
    if stays(origin, &node, name, rdata) {
        node
    } else {
        without(node, name, rdata)
    }
}

/// The place of data among those of the records at a name, if they are there.
fn place_of(node: &[Record], name: &Name, rdata: &Data) -> Option<usize>
    requires { IsNode name.now node.now }
    ensures { IsPlaceOf (λ r. same_data rdata.now r.rdata) node.now result }
{
    let place = node.partition_point(|record| data_order(&record.rdata, rdata).is_lt());
    if place >= node.len() {
        return None;
    }
    if same_data(rdata, &node[place].rdata) {
        Some(place)
    } else {
        None
    }
}

/// The records without that of some data.
fn without(mut node: Vec<Record>, name: &Name, rdata: &Data) -> Vec<Record>
    requires { IsNode name.now node.items }
    ensures { result.items ≡ filter (λ r. not (same_data rdata.now r.rdata)) node.items }
{
    match place_of(&node, name, rdata) {
        Some(place) => {
            node.remove(place);
            node
        }
        None => node,
    }
}

/// What the operations at a name make of its records. The only error is out of memory.
pub(crate) fn effects(
    alloc: Global,
    origin: &Name,
    name: &Name,
    node: Vec<Record>,
    operations: &[Operation],
) -> Result<Vec<Record>, AllocError>
    requires { IsNode name.now node.items }
    ensures { (before : Records) → set_of node.items ≡ part before (at_name name.now) → IfOk result (λ after. Becomes name.now after.items (part (effects origin.now before operations.now) (at_name name.now))) }
{
    let mut node = node;
    for operation in operations {
        if operation.name() == name {
            node = effect(alloc, origin, node, operation)?;
        }
    }
    Ok(node)
}
