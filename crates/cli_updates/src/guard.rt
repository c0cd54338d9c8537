//! Prerequisites under which the record sets that a diff changes are as in the old zone, and no record keeps out what comes.

ghost use Rattle.std.specs.Prelude.{◌≡◌, ◌++◌, ◌&&◌, IfOk, OnOk, map};
ghost use Rattle.std.specs.List.{filter, find, flat_map, list_all, list_any, zip};
ghost use Rattle.std.specs.Option.{option_copied};
ghost use Rattle.zone_core.specs.Updates.{adds_soa};
ghost use Rattle.zone_tools.specs.Differences.{is_equal};
ghost use Rattle.cli_updates.specs.Guards.{set_like, begins_with, are_equal, changes_set, changed_firsts, is_unused, lacks, is_below_origin, is_new, new_firsts, comes_first, tests_names, tests_name, there, absent, types_absent, not_there, guards_of};

use cli_core::GuardScope;
use dns_data::{Record, RecordType};
use dns_names::Name;
use std::alloc::{AllocError, Global};
use zone_core::{Operation, Prerequisite, Zone, has_type};
use zone_tools::{is_equal, is_same};

/// The record set of a record's owner and type.
fn set_like<'a>(zone: &'a Zone, rr: &Record) -> &'a [Record]
    ensures { result.now ≡ set_like zone.entry.now.records rr.now }
{
    zone.rrset(&rr.owner, rr.record_type())
}

/// Whether records begin with this one, with whatever TTL.
fn begins_with(records: &[Record], rr: &Record) -> bool
    ensures { result ≡ begins_with records.now rr.now }
{
    match records {
        [first, ..] => is_same(first, rr),
        [] => false,
    }
}

/// Whether records are equal one by one, as far as there are two.
fn pairs_are_equal(first: &[Record], second: &[Record]) -> bool
    ensures { result ≡ list_all (λ p. is_equal p.0 p.1) (zip first.now second.now) }
{
    first.iter().zip(second.iter()).all(|(a, b)| is_equal(a, b))
}

/// Whether records are equal one by one, and as many.
fn are_equal(first: &[Record], second: &[Record]) -> bool
    ensures { result ≡ are_equal first.now second.now }
{
    first.len() == second.len() && pairs_are_equal(first, second)
}

/// Whether an operation adds an SOA.
pub(crate) fn adds_soa(operation: &Operation) -> bool
    ensures { result ≡ adds_soa operation.now }
{
    match operation {
        Operation::Add(rr) => has_type(rr, RecordType::Soa),
        _ => false,
    }
}

/// Whether some operation adds an SOA.
fn some_adds_soa(operations: &[Operation]) -> bool
    ensures { result ≡ list_any adds_soa operations.now }
{
    operations.iter().any(|operation| adds_soa(operation))
}

/// Whether the operations between two zones change the record set of a record.
fn changes_set(old: &Zone, new: &Zone, operations: &[Operation], rr: &Record) -> bool
    ensures { result ≡ changes_set old.now.records new.now.records operations.now rr.now }
{
    if has_type(rr, RecordType::Soa) {
        return some_adds_soa(operations);
    }
    !are_equal(set_like(old, rr), set_like(new, rr))
}

/// Prerequisites, and after them that these records are there. The only error is out of memory.
fn push_there(
    guards: &mut Vec<Prerequisite>,
    alloc: Global,
    records: &[Record],
) -> Result<(), AllocError>
    ensures { OnOk result (guards.new.items ≡ guards.old.items ++ map there records.now) }
{
    for record in records {
        guards.push(Prerequisite::RrsetEquals {
            name: record.owner.try_copy(alloc)?,
            rdata: record.rdata.try_copy(alloc)?,
        })?;
    }
    Ok(())
}

/// That the record sets of the old zone that change have their data. The only error is out of memory.
fn guards_there(
    alloc: Global,
    old: &Zone,
    new: &Zone,
    operations: &[Operation],
) -> Result<Vec<Prerequisite>, AllocError>
    ensures { IfOk result
        (λ guards. guards.items ≡ flat_map (λ r. map there (set_like old.now.records r)) (changed_firsts old.now.records new.now.records operations.now)) }
{
    let mut guards = Vec::new(alloc);
    for record in old.records() {
        let set = set_like(old, record);
        if begins_with(set, record) && changes_set(old, new, operations, record) {
            push_there(&mut guards, alloc, set)?;
        }
    }
    Ok(guards)
}

/// Whether no record is at a name.
fn is_unused(zone: &Zone, name: &Name) -> bool
    ensures { result ≡ is_unused zone.now.records name.now }
{
    zone.records_at(name).is_empty()
}

/// Whether no record of a type is at a name.
fn lacks(zone: &Zone, name: &Name, record_type: RecordType) -> bool
    ensures { result ≡ lacks zone.now.records name.now record_type }
{
    zone.rrset(name, record_type).is_empty()
}

/// Whether the old zone has no set of a record's owner and type.
fn is_new(old: &Zone, rr: &Record) -> bool
    ensures { result ≡ is_new old.now.records rr.now }
{
    lacks(old, &rr.owner, rr.record_type())
}

/// The first of some records whose set is new.
fn first_new<'a>(old: &Zone, records: &'a [Record]) -> Option<&'a Record>
    ensures { option_copied result ≡ find (is_new old.now.records) records.now }
{
    records.iter().find(|record| is_new(old, record))
}

/// Whether a record is the first at its name of the records of new sets.
fn comes_first(old: &Zone, new: &Zone, rr: &Record) -> bool
    ensures { result ≡ comes_first old.now.records new.now.records rr.now }
{
    match first_new(old, new.records_at(&rr.owner)) {
        Some(first) => is_same(first, rr),
        None => false,
    }
}

/// Whether a record of a type can be below the origin (RFC 1035 section 5.2).
fn is_below_origin(record_type: RecordType) -> bool
    ensures { result ≡ is_below_origin record_type }
{
    !matches!(record_type, RecordType::Soa)
}

/// The types of which no record is at a name below the origin. The only error is out of memory.
fn lacking(alloc: Global, zone: &Zone, name: &Name) -> Result<Vec<RecordType>, AllocError>
    ensures { IfOk result (λ types. types.items ≡ filter (λ t. is_below_origin t && lacks zone.now.records name.now t) RecordType.ALL) }
{
    let types = RecordType::ALL.iter().copied();
    types
        .filter(|record_type| { is_below_origin(*record_type) && lacks(zone, name, *record_type) })
        .collect(alloc)
}

/// The types of which no record may be at the name of a new set that begins with this record (RFC 2136 section 3.4.2.2). The only error is
/// out of memory.
fn types_absent(
    alloc: Global,
    old: &Zone,
    new: &Zone,
    rr: &Record,
) -> Result<Vec<RecordType>, AllocError>
    ensures { IfOk result (λ types. types.items ≡ types_absent old.now.records new.now.records rr.now) }
{
    let name = &rr.owner;
    if has_type(rr, RecordType::Cname) {
        return lacking(alloc, old, name);
    }
    let mut types = Vec::new(alloc);
    types.push(rr.record_type())?;
    if lacks(old, name, RecordType::Cname) && comes_first(old, new, rr) {
        types.push(RecordType::Cname)?;
    }
    Ok(types)
}

/// Prerequisites, and after them that no record of some types is at a name. The only error is out of memory.
fn push_absent(
    guards: &mut Vec<Prerequisite>,
    alloc: Global,
    name: &Name,
    types: &[RecordType],
) -> Result<(), AllocError>
    ensures { OnOk result (guards.new.items ≡ guards.old.items ++ map (absent name.now) types.now) }
{
    for record_type in types {
        guards.push(Prerequisite::RrsetAbsent {
            name: name.try_copy(alloc)?,
            record_type: *record_type,
        })?;
    }
    Ok(())
}

/// Whether names that the old zone does not use are tested whole.
fn tests_names(scope: GuardScope) -> bool
    ensures { result ≡ tests_names scope }
{
    match scope {
        GuardScope::Names => true,
        GuardScope::Sets => false,
    }
}

/// Whether it is tested that nobody uses a name.
fn tests_name(scope: GuardScope, old: &Zone, name: &Name) -> bool
    ensures { result ≡ tests_name scope old.now.records name.now }
{
    tests_names(scope) && is_unused(old, name)
}

/// Prerequisites, and after them those for the new set that begins with this record. The only error is out of memory.
fn push_not_there(
    guards: &mut Vec<Prerequisite>,
    alloc: Global,
    scope: GuardScope,
    old: &Zone,
    new: &Zone,
    rr: &Record,
) -> Result<(), AllocError>
    ensures { OnOk result (guards.new.items ≡ guards.old.items ++ not_there scope old.now.records new.now.records rr.now) }
{
    if !tests_name(scope, old, &rr.owner) {
        let types = types_absent(alloc, old, new, rr)?;
        return push_absent(guards, alloc, &rr.owner, &types);
    }
    if comes_first(old, new, rr) {
        guards.push(Prerequisite::NameUnused(rr.owner.try_copy(alloc)?))?;
    }
    Ok(())
}

/// Prerequisites, and after them those for the new sets. The only error is out of memory.
fn with_absences(
    alloc: Global,
    scope: GuardScope,
    mut guards: Vec<Prerequisite>,
    old: &Zone,
    new: &Zone,
) -> Result<Vec<Prerequisite>, AllocError>
    ensures { IfOk result
        (λ all. all.items ≡ guards.items ++ flat_map (not_there scope old.now.records new.now.records) (new_firsts old.now.records new.now.records)) }
{
    for record in new.records() {
        if begins_with(set_like(new, record), record) && is_new(old, record) {
            push_not_there(&mut guards, alloc, scope, old, new, record)?;
        }
    }
    Ok(guards)
}

/// The prerequisites of a scope before the operations between two zones: that each record set of the old zone that changes has its data, in
/// record order, and then that no record keeps out the new sets, in record order. The only error is out of memory.
pub(crate) fn guards_of(
    alloc: Global,
    scope: GuardScope,
    old: &Zone,
    new: &Zone,
    operations: &[Operation],
) -> Result<Vec<Prerequisite>, AllocError>
    ensures { IfOk result (λ guards. guards.items ≡ guards_of scope old.now.records new.now.records operations.now) }
{
    let guards = guards_there(alloc, old, new, operations)?;
    with_absences(alloc, scope, guards, old, new)
}
