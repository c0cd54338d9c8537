//! The records of a zone before its changes, from the last change to the first.

ghost use Rattle.std.specs.Prelude.{◌≡◌, ◌++◌, IfOk, OnOk};
ghost use Rattle.std.specs.BTreeMap.{values};
ghost use Rattle.dns_data.specs.declared.record.Record.{Record};
ghost use Rattle.zone_core.specs.Sets.{Records, key_of, same_key, set_of, cut, put};
ghost use Rattle.zone_core.specs.Rebuilt.{AreAllOf};
ghost use Rattle.zone_core.specs.Changes.{change_in, without};
ghost use Rattle.zone_tools.specs.History.{undone};
ghost use Rattle.zone_tools.specs.Makers.{read_by};
ghost use Rattle.zone_tools.specs.Past.{IsPast, rows_at, with_all};

use crate::record_key::RecordKey;
use dns_data::Record;
use dns_names::Name;
use std::alloc::{AllocError, Global};
use std::collections::BTreeMap;
use std::marker::Model;
use zone_core::{Change, Update};

/// A record that is held.
#[derive(Drop)]
pub(crate) struct HeldRecord<'a>(&'a Record);

impl<'a> Model for HeldRecord<'a> {
    ghost Value = { Record };

    ghost view = { λ h. h.0.now };
}

impl<'a> HeldRecord<'a> {
    /// A record, to be held.
    fn of(rr: &'a Record) -> HeldRecord<'a>
        ensures { result ≡ rr.now }
    {
        HeldRecord(rr)
    }

    /// The record in memory of its own. The only error is out of memory.
    fn try_copy(&self, alloc: Global) -> Result<Record, AllocError>
        ensures { IfOk result (λ copy. copy ≡ self.now) }
    {
        self.0.try_copy(alloc)
    }
}

/// The records at a name, each under its key.
type Node<'a> = BTreeMap<RecordKey<'a>, HeldRecord<'a>>;

/// Records by their owners, so that those at a name are found, and one of them comes or goes, in the time of a look-up.
pub(crate) type Past<'a> = BTreeMap<Name, Node<'a>>;

/// Puts a record in the place of the same one. The only error is out of memory.
fn put<'a>(alloc: Global, past: &mut Past<'a>, rr: &'a Record) -> Result<(), AllocError>
    ensures { OnOk result ((set : Records) → IsPast past.old set → IsPast past.new (put set rr.now)) }
{
    // the proof needs that it is a record
    let _ = rr.record_type();
    match past.get_mut(&rr.owner) {
        Some(node) => {
            node.insert(RecordKey::of(rr), HeldRecord::of(rr))?;
        }
        None => {
            let mut node = BTreeMap::new(alloc);
            node.insert(RecordKey::of(rr), HeldRecord::of(rr))?;
            past.insert(rr.owner.try_copy(alloc)?, node)?;
        }
    }
    Ok(())
}

/// Puts records in the places of the same ones; of two that are the same the earlier stays. The only error is out of memory.
fn put_all<'a>(alloc: Global, past: &mut Past<'a>, records: &'a [Record]) -> Result<(), AllocError>
    ensures { OnOk result ((set : Records) → IsPast past.old set → IsPast past.new (with_all set records.now)) }
{
    for at in (0..records.len()).rev() {
        put(alloc, past, &records[at])?;
    }
    Ok(())
}

/// Takes out the record that is the same as this one.
fn take<'a>(past: &mut Past<'a>, rr: &'a Record)
    ensures { (set : Records) → IsPast past.old set → IsPast past.new (cut set (same_key (key_of rr.now))) }
{
    match past.get_mut(&rr.owner) {
        Some(node) => {
            node.remove(&RecordKey::of(rr));
        }
        None => {}
    }
}

/// Takes out the records that are the same as some of these.
fn take_all<'a>(past: &mut Past<'a>, records: &'a [Record])
    ensures { (set : Records) → IsPast past.old set → IsPast past.new (without set records.now) }
{
    for record in records {
        take(past, record);
    }
}

/// The records of a row, of which none are the same. The only error is out of memory.
pub(crate) fn past_of<'a>(alloc: Global, records: &'a [Record]) -> Result<Past<'a>, AllocError>
    ensures { IfOk result (λ past. IsPast past (set_of records.now)) }
{
    let mut past = BTreeMap::new(alloc);
    put_all(alloc, &mut past, records)?;
    Ok(past)
}

/// Undoes a change: takes out what came, and puts back what went. The only error is out of memory.
pub(crate) fn undo<'a>(
    alloc: Global,
    past: &mut Past<'a>,
    change: &'a Change,
) -> Result<(), AllocError>
    ensures { OnOk result ((set : Records) → IsPast past.old set → IsPast past.new (undone (change_in change.now) set)) }
{
    take_all(past, &change.added);
    put_all(alloc, past, &change.removed)
}

/// Appends copies of the records of a node. The only error is out of memory.
fn push_node(alloc: Global, rows: &mut Vec<Record>, node: &Node<'_>) -> Result<(), AllocError>
    ensures { OnOk result (rows.new.items ≡ rows.old.items ++ values node.now) }
{
    for held in node.values() {
        rows.push(held.try_copy(alloc)?)?;
    }
    Ok(())
}

/// Appends copies of the records at a name. The only error is out of memory.
fn push_at(
    alloc: Global,
    rows: &mut Vec<Record>,
    past: &Past<'_>,
    name: &Name,
) -> Result<(), AllocError>
    ensures { OnOk result (rows.new.items ≡ rows.old.items ++ rows_at past.now name.now) }
{
    match past.get(name) {
        Some(node) => push_node(alloc, rows, node),
        None => Ok(()),
    }
}

/// Copies of the records that an update reads: those at the origin, and at its names. The only error is out of memory.
pub(crate) fn rows_read(
    alloc: Global,
    past: &Past<'_>,
    origin: &Name,
    update: &Update,
) -> Result<Vec<Record>, AllocError>
    ensures { (set : Records) → IsPast past.now set → IfOk result (λ rows. AreAllOf rows.items (read_by origin.now update.now set)) }
{
    let mut rows = Vec::new(alloc);
    push_at(alloc, &mut rows, past, origin)?;
    let names = update.names(alloc)?;
    for name in &names {
        push_at(alloc, &mut rows, past, name)?;
    }
    Ok(rows)
}
