//! Which updates may have made each change of a zone.

ghost use Rattle.std.specs.Prelude.{◌≡◌, ◌↔◌, ℕ, List, [], ◌∷◌, ◌++◌, ◌<◌, length, slice_index_or, map, reverse, IfOk, OnOk, IsTrue, if◌then◌else◌};
ghost use Rattle.std.specs.List.{AllByRecursion, list_any};
ghost use Rattle.std.specs.Option.{option_copied};
ghost use Rattle.dns_names.specs.Order.{same_name};
ghost use Rattle.zone_core.specs.Sets.{Records, key_of};
ghost use Rattle.zone_core.specs.Updates.{IsUpdate, ActsWithin};
ghost use Rattle.zone_core.specs.Met.{AreMet};
ghost use Rattle.zone_core.specs.Effects.{zone_after};
ghost use Rattle.zone_core.specs.Changes.{change_in, change_between};
ghost use Rattle.zone_tools.specs.History.{has_key};
ghost use Rattle.zone_tools.specs.Makers.{MayHaveMade, zone_read, AreMakers, AreMakersByParts, AreMakersOfZones};
ghost use Rattle.zone_tools.specs.Past.{IsPast, acts_at, actors_at, actors_from, elsewhere, touched_name, new_record, adds_key, lacks};

use crate::past::{Past, past_of, rows_read, undo};
use crate::same::{is_equal, is_same};
use dns_data::Record;
use dns_names::Name;
use std::alloc::{AllocError, Global};
use std::collections::BTreeMap;
use zone_core::{Change, Operation, Update, Zone, ZoneFault, holds};

/// The indexes of updates, in ascending order, under the names that they act at.
type Actors = BTreeMap<Name, Vec<usize>>;

// ---- updates by the names that they act at

/// Whether an operation acts at a name.
fn acts_at(operations: &[Operation], name: &Name) -> bool
    ensures { result ≡ acts_at name.now operations.now }
{
    operations.iter().any(|operation| name == operation.name())
}

/// Adds the index of an update that acts at a name. The only error is out of memory.
fn add_actor(
    alloc: Global,
    actors: &mut Actors,
    name: &Name,
    index: usize,
) -> Result<(), AllocError>
    ensures { OnOk result
        ((q : List (List ℕ)) → actors_at actors.new q ≡ (if same_name name.now q then actors_at actors.old q ++ index ∷ [] else actors_at actors.old q)) }
{
    match actors.get_mut(name) {
        Some(indexes) => {
            indexes.push(index)?;
        }
        None => {
            let mut indexes = Vec::new(alloc);
            indexes.push(index)?;
            actors.insert(name.try_copy(alloc)?, indexes)?;
        }
    }
    Ok(())
}

/// Adds the index of an update at each name that it acts at, once. The only error is out of memory.
fn add_update(
    alloc: Global,
    actors: &mut Actors,
    update: &Update,
    index: usize,
) -> Result<(), AllocError>
    ensures added { OnOk result
        ((q : List (List ℕ)) → actors_at actors.new q ≡ actors_at actors.old q ++ (if acts_at q update.now.operations then index ∷ [] else [])) }
    ensures update { IsUpdate update.now }
{
    let operations = update.operations();
    for (i, operation) in operations.iter().enumerate() {
        if !acts_at(&operations[..i], operation.name()) {
            add_actor(alloc, actors, operation.name(), index)?;
        }
    }
    Ok(())
}

/// The indexes of updates under the names that they act at. The only error is out of memory.
fn actors_of(alloc: Global, updates: &[Update]) -> Result<Actors, AllocError>
    ensures actors { IfOk result (λ actors. (q : List (List ℕ)) → actors_at actors q ≡ actors_from q 0 updates.now) }
    // What holds of every update.
    ensures updates { OnOk result (AllByRecursion IsUpdate updates.now) }
{
    let mut actors = BTreeMap::new(alloc);
    for (i, update) in updates.iter().enumerate() {
        add_update(alloc, &mut actors, update, i)?;
    }
    Ok(actors)
}

/// The first record that is not at the origin.
fn elsewhere<'a>(origin: &Name, records: &'a [Record]) -> Option<&'a Record>
    ensures { option_copied result ≡ elsewhere origin.now records.now }
{
    records.iter().find(|record| record.owner != *origin)
}

/// A name at which each update acts that may have made a change: that of its first record which is not at the origin, or the origin.
fn touched_name<'a>(origin: &'a Name, change: &'a Change) -> &'a Name
    ensures { result.now ≡ touched_name origin.now (change_in change.now) }
{
    match elsewhere(origin, &change.removed) {
        Some(record) => &record.owner,
        None => match elsewhere(origin, &change.added) {
            Some(record) => &record.owner,
            None => origin,
        },
    }
}

/// The first record that comes elsewhere than at the origin, if it is new: none goes that is the same.
fn new_record<'a>(origin: &Name, change: &'a Change) -> Option<&'a Record>
    ensures { option_copied result ≡ new_record origin.now (change_in change.now) }
{
    let record = elsewhere(origin, &change.added)?;
    if has_key(&change.removed, record) {
        return None;
    }
    Some(record)
}

/// Whether one of some records is the same as another.
fn has_key(records: &[Record], rr: &Record) -> bool
    ensures { result ≡ has_key records.now (key_of rr.now) }
{
    records.iter().any(|record| is_same(record, rr))
}

/// Whether an operation adds a record that is the same.
fn adds(operation: &Operation, rr: &Record) -> bool
    ensures { result ≡ adds_key (key_of rr.now) operation.now }
{
    match operation {
        Operation::Add(record) => is_same(record, rr),
        _ => false,
    }
}

/// Whether one of some operations adds a record that is the same.
fn adds_some(operations: &[Operation], rr: &Record) -> bool
    ensures { result ≡ list_any (adds_key (key_of rr.now)) operations.now }
{
    operations.iter().any(|operation| adds(operation, rr))
}

/// Whether no operation adds a record that comes, if there is one.
fn lacks(new: Option<&Record>, operations: &[Operation]) -> bool
    ensures { result ≡ lacks (option_copied new.entry) operations.now }
{
    match new {
        Some(record) => !adds_some(operations, record),
        None => false,
    }
}

/// The indexes of the updates that act at a name.
fn actors_at<'a>(actors: &'a Actors, name: &Name) -> &'a [usize]
    ensures { result.now ≡ actors_at actors.now name.now }
{
    match actors.get(name) {
        Some(indexes) => indexes,
        None => &[],
    }
}

// ---- one update and one change

/// Whether two rows have equal records, TTLs counted.
fn are_equal(rows: &[Record], others: &[Record]) -> bool
    ensures { IsTrue result ↔ (rows.now ≡ others.now) }
{
    if rows.len() != others.len() {
        return false;
    }
    for i in 0..rows.len() {
        // the proof needs that these are records
        let _ = (rows[i].record_type(), others[i].record_type());
        if !is_equal(&rows[i], &others[i]) {
            return false;
        }
    }
    true
}

/// Whether two changes remove and add the same, TTLs counted.
fn are_same(change: &Change, other: &Change) -> bool
    ensures { IsTrue result ↔ (change_in change.now ≡ change_in other.now) }
{
    if !are_equal(&change.removed, &other.removed) {
        return false;
    }
    are_equal(&change.added, &other.added)
}

/// Whether the prerequisites of an update are met in a zone, and it changes of it what a change does. The only error is out of memory.
fn makes(alloc: Global, zone: &Zone, update: &Update, change: &Change) -> Result<bool, AllocError>
    requires { ActsWithin zone.now.origin update.now }
    ensures { IfOk result
        (λ made. IsTrue made
        ↔ (AreMet zone.now.records update.now.prerequisites × (change_between zone.now.records (zone_after zone.now update.now).records ≡ change_in change.now))) }
{
    if holds(zone, update).is_err() {
        return Ok(false);
    }
    let made = Change::of_update(alloc, zone, update)?;
    Ok(are_same(&made, change))
}

/// Whether an update may have made a change of the zone that the records which it reads are. What is new with the change is told, so that
/// it is sought once for all updates. The only error is out of memory.
fn may_have_made(
    alloc: Global,
    origin: &Name,
    past: &Past<'_>,
    update: &Update,
    change: &Change,
    new: Option<&Record>,
) -> Result<bool, AllocError>
    requires { option_copied new ≡ new_record origin.now (change_in change.now) }
    ensures { (set : Records) → IsPast past.now set
        → IfOk result (λ made. IsTrue made ↔ MayHaveMade (zone_read origin.now set update.now) update.now (change_in change.now)) }
{
    if change.is_empty() {
        return Ok(false);
    }
    if update.outside(origin).is_some() {
        return Ok(false);
    }
    // most updates at a name that has many are told apart by this
    if lacks(new, update.operations()) {
        return Ok(false);
    }
    let rows = rows_read(alloc, past, origin, update)?;
    let own = origin.try_copy(alloc)?;
    match Zone::build(alloc, own, rows) {
        Ok(zone) => makes(alloc, &zone, update, change),
        Err(fault) => match fault {
            ZoneFault::NoMemory => Err(AllocError),
            _ => Ok(false),
        },
    }
}

// ---- all updates and all changes

/// The update of an index.
fn update_at(updates: &[Update], index: usize) -> &Update
    requires { index < length updates.now }
    ensures { result.now ≡ slice_index_or updates.now index result.now }
{
    &updates[index]
}

/// The indexes of the updates that may have made a change of the zone that these records are. The only error is out of memory.
fn makers_of(
    alloc: Global,
    origin: &Name,
    past: &Past<'_>,
    updates: &[Update],
    actors: &Actors,
    change: &Change,
) -> Result<Vec<usize>, AllocError>
    requires updates { AllByRecursion IsUpdate updates.now }
    requires actors { (q : List (List ℕ)) → actors_at actors.now q ≡ actors_from q 0 updates.now }
    ensures { (set : Records) → IsPast past.now set
        → IfOk result (λ indexes. AreMakers (zone_read origin.now set) updates.now (change_in change.now) indexes.items) }
{
    let mut indexes = Vec::new(alloc);
    let candidates = actors_at(actors, touched_name(origin, change));
    let new = new_record(origin, change);
    for index in candidates {
        let update = update_at(updates, *index);
        let made = may_have_made(alloc, origin, past, update, change, new)?;
        if made {
            indexes.push(*index)?;
        }
    }
    Ok(indexes)
}

/// The lists from the last to the first.
fn reversed(mut lists: Vec<Vec<usize>>) -> Vec<Vec<usize>>
    ensures { result.items ≡ reverse lists.items }
{
    lists.reverse();
    lists
}

/// For each change of a zone the indexes, in ascending order, of those updates that may have made it: each acts within the origin, its
/// prerequisites are met in the zone before the change, and it removes and adds there what the change does, the serial counted (RFC 2136
/// section 3). The changes come with the oldest first. If an update made a change, it is among these; a change that none made, as the
/// replacement of a zone, may have none.
///
/// The changes are undone from the last to the first. Of the updates that act at one name of the change, and that add what comes there if
/// it is new, each is tried on what it reads of the zone. So it takes most where many updates delete at one name. The only error is out
/// of memory.
pub fn makers(
    alloc: Global,
    zone: &Zone,
    changes: &[Change],
    updates: &[Update],
) -> Result<Vec<Vec<usize>>, AllocError>
    // Which they are, by the records that each update reads.
    ensures exact { IfOk result
        (λ found. AreMakersByParts zone.now.origin updates.now (map change_in changes.now) zone.now.records (map (λ indexes. indexes.items) found.items)) }
    // Where the records before a change are a zone, they are those of that zone.
    ensures found { IfOk result
        (λ found. AreMakersOfZones zone.now.origin updates.now (map change_in changes.now) zone.now.records (map (λ indexes. indexes.items) found.items)) }
{
    let origin = zone.origin();
    let actors = actors_of(alloc, updates)?;
    let mut past = past_of(alloc, zone.records())?;
    let mut found = Vec::with_capacity(alloc, changes.len())?;
    for at in (0..changes.len()).rev() {
        let change = &changes[at];
        undo(alloc, &mut past, change)?;
        let indexes = makers_of(alloc, origin, &past, updates, &actors, change)?;
        found.push(indexes)?;
    }
    Ok(reversed(found))
}
