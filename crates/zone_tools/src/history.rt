//! A zone before some of its changes, and which of them brought each of its records.

ghost use Rattle.std.specs.Prelude.{◌≡◌, ◌↔◌, ◌||◌, [], ◌∷◌, ◌++◌, map, not, Some, None, IfOk, OnOk, if◌then◌else◌};
ghost use Rattle.std.specs.List.{Contains};
ghost use Rattle.std.specs.FinMap.{get};
ghost use Rattle.std.specs.BTreeSet.{contains};
ghost use Rattle.std.specs.BTreeMap as tree;
ghost use Rattle.dns_data.specs.declared.record.Record.{Record};
ghost use Rattle.zone_core.specs.Sets.{Records, Key, key_of, key_cmp, same_key, set_of, AreRows};
ghost use Rattle.zone_core.specs.Changes.{change_in};
ghost use Rattle.zone_tools.specs.History.{before, undone, bringer, has_key, found_in, WasThere};

use crate::record_key::RecordKey;
use dns_data::Record;
use std::alloc::{AllocError, Global};
use std::collections::{BTreeMap, BTreeSet};
use zone_core::{Change, in_order};

/// The keys of the records that some changes touch.
type Touched<'a> = BTreeSet<RecordKey<'a>>;

/// The numbers of changes, each under the keys of the records that it brought.
type Bringers<'a> = BTreeMap<RecordKey<'a>, u64>;

/// Adds the key of a record, and returns whether it is new. The only error is out of memory.
fn touch<'a>(touched: &mut Touched<'a>, rr: &'a Record) -> Result<bool, AllocError>
    ensures new { IfOk result (λ new. new ≡ not (contains key_cmp touched.old (key_of rr.now))) }
    ensures touched { OnOk result ((k : Key) → contains key_cmp touched.new k ≡ (contains key_cmp touched.old k || same_key (key_of rr.now) k)) }
{
    Ok(touched.insert(RecordKey::of(rr))?)
}

/// Adds the keys of records. The only error is out of memory.
fn touch_all<'a>(touched: &mut Touched<'a>, records: &'a [Record]) -> Result<(), AllocError>
    ensures { OnOk result ((k : Key) → contains key_cmp touched.new k ≡ (contains key_cmp touched.old k || has_key records.now k)) }
{
    for record in records {
        touch(touched, record)?;
    }
    Ok(())
}

/// Adds the key of a record, and appends a copy of the record if the key is new. The only error is out of memory.
fn push_if_new<'a>(
    alloc: Global,
    rows: &mut Vec<Record>,
    touched: &mut Touched<'a>,
    rr: &'a Record,
) -> Result<(), AllocError>
    ensures touched { OnOk result ((k : Key) → contains key_cmp touched.new k ≡ (contains key_cmp touched.old k || same_key (key_of rr.now) k)) }
    ensures rows { OnOk result (rows.new.items ≡ (if contains key_cmp touched.old (key_of rr.now) then rows.old.items else rows.old.items ++ rr.now ∷ [])) }
{
    if touch(touched, rr)? {
        rows.push(rr.try_copy(alloc)?)?;
    }
    Ok(())
}

/// Adds the keys of records, and appends copies of those whose keys are new. The only error is out of memory.
fn push_new<'a>(
    alloc: Global,
    rows: &mut Vec<Record>,
    touched: &mut Touched<'a>,
    records: &'a [Record],
) -> Result<(), AllocError>
    ensures touched { OnOk result ((k : Key) → contains key_cmp touched.new k ≡ (contains key_cmp touched.old k || has_key records.now k)) }
    ensures rows { OnOk result ((k : Key) → get (set_of rows.new.items) k ≡ found_in rows.old.items (contains key_cmp touched.old) (set_of records.now) k) }
{
    for record in records {
        push_if_new(alloc, rows, touched, record)?;
    }
    Ok(())
}

/// Appends a copy of a record, unless its key is touched. The only error is out of memory.
fn push_if_untouched<'a>(
    alloc: Global,
    rows: &mut Vec<Record>,
    touched: &Touched<'a>,
    rr: &'a Record,
) -> Result<(), AllocError>
    ensures { OnOk result (rows.new.items ≡ (if contains key_cmp touched.now (key_of rr.now) then rows.old.items else rows.old.items ++ rr.now ∷ [])) }
{
    if !touched.contains(&RecordKey::of(rr)) {
        rows.push(rr.try_copy(alloc)?)?;
    }
    Ok(())
}

/// Appends copies of the records whose keys are not touched. The only error is out of memory.
fn push_untouched<'a>(
    alloc: Global,
    rows: &mut Vec<Record>,
    touched: &Touched<'a>,
    records: &'a [Record],
) -> Result<(), AllocError>
    ensures { OnOk result ((k : Key) → get (set_of rows.new.items) k ≡ found_in rows.old.items (contains key_cmp touched.now) (set_of records.now) k) }
{
    for record in records {
        push_if_untouched(alloc, rows, touched, record)?;
    }
    Ok(())
}

/// Appends copies of the records that a change removes and none before it touched, and adds the keys of those that it touches. The
/// only error is out of memory.
fn undo<'a>(
    alloc: Global,
    rows: &mut Vec<Record>,
    touched: &mut Touched<'a>,
    change: &'a Change,
) -> Result<(), AllocError>
    ensures { OnOk result
        ((set : Records) (k : Key)
        → found_in rows.new.items (contains key_cmp touched.new) set k ≡ found_in rows.old.items (contains key_cmp touched.old) (undone (change_in change.now) set) k) }
{
    push_new(alloc, rows, touched, &change.removed)?;
    touch_all(touched, &change.added)
}

/// The records of a zone before some changes of it, from those after them, in record order. The changes come with the oldest first. A
/// record that some of them touch was there if the first of these removes it, with the TTL that it has there; any other was there if
/// it is there after them. The only error is out of memory.
pub fn records_before(
    alloc: Global,
    records: &[Record],
    changes: &[Change],
) -> Result<Vec<Record>, AllocError>
    // They are those that were there, and no others.
    ensures there { IfOk result (λ rows. (r : Record) → Contains rows.items r ↔ WasThere (map change_in changes.now) (set_of records.now) r) }
    // Which they are, in order.
    ensures exact { IfOk result (λ rows. AreRows rows.items (before (map change_in changes.now) (set_of records.now))) }
{
    let mut rows = Vec::new(alloc);
    let mut touched = BTreeSet::new(alloc);
    for change in changes {
        undo(alloc, &mut rows, &mut touched, change)?;
    }
    push_untouched(alloc, &mut rows, &touched, records)?;
    in_order(alloc, rows)
}

/// Keeps a number under the keys of records, in the place of any other. The only error is out of memory.
fn number_all<'a>(
    bringers: &mut Bringers<'a>,
    records: &'a [Record],
    number: u64,
) -> Result<(), AllocError>
    ensures { OnOk result ((k : Key) → tree.get key_cmp bringers.new k ≡ (if has_key records.now k then Some number else tree.get key_cmp bringers.old k)) }
{
    for record in records {
        bringers.insert(RecordKey::of(record), number)?;
    }
    Ok(())
}

/// The numbers of changes, from 1, each under the keys of the records that it was the last to bring. The only error is out of memory.
fn bringers_in<'a>(alloc: Global, changes: &'a [Change]) -> Result<Bringers<'a>, AllocError>
    ensures { IfOk result (λ bringers. (k : Key) → tree.get key_cmp bringers k ≡ bringer (map change_in changes.now) k) }
{
    let mut bringers = BTreeMap::new(alloc);
    for (i, change) in changes.iter().enumerate() {
        number_all(&mut bringers, &change.added, i as u64 + 1)?;
    }
    Ok(bringers)
}

/// For each record of a zone the number of the change that brought it: of the last that adds it, with whatever TTL. The changes come
/// with the oldest first, which has the number 1. It is `None` for a record that no change brought. The only error is out of memory.
pub fn bringers(
    alloc: Global,
    records: &[Record],
    changes: &[Change],
) -> Result<Vec<Option<u64>>, AllocError>
    ensures exact { IfOk result (λ found. found.items ≡ map (λ r. bringer (map change_in changes.now) (key_of r)) records.now) }
{
    let bringers = bringers_in(alloc, changes)?;
    let mut found = Vec::with_capacity(alloc, records.len())?;
    for record in records {
        found.push(bringers.get(&RecordKey::of(record)).copied())?;
    }
    Ok(found)
}
