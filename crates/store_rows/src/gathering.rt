//! The changes of a zone, gathered from their rows.

ghost use Rattle.std.specs.Prelude.{◌≡◌, ◌+◌, ◌&&◌, List, ℕ, map, Ok, IfOk, IfErr, OnOk};
ghost use Rattle.std.specs.List.{AllByRecursion, list_all};
ghost use Rattle.std.specs.List.Sorted.{IsPermutation, IsSorted};
ghost use Rattle.dns_names.specs.Labels.{IsName};
ghost use Rattle.dns_names.specs.Order.{same_name};
ghost use Rattle.zone_core.specs.Changes.{ChangeOf, change_in};
ghost use Rattle.store_rows.specs.ChangeRows.{changes_rows, IsChange, IsChanged, IsChangeRow, row_of, side_order, changed_order, follows, follows_in_number, follow_in_turn, are_numbered, are_of_one, with_record, opened, placed, gathered};
ghost use Rattle.store_rows.specs.RowFaults.{Reads};
ghost use Rattle.store_rows.specs.RowReading.{each_read, changed_in, changed_behind, changes_among, AreStoredIn, AreStoredBehind};

use crate::ascending::{Ordered, sorted};
use crate::change_reader::ChangeReader;
use crate::changes::ChangedRecord;
use crate::row_fault::RowFault;
use crate::side::Side;
use dns_data::{Record, record_order};
use dns_names::Name;
use std::alloc::{AllocError, Global};
use std::cmp::Ordering;
use store_sql::ChangeRow;
use zone_core::Change;

/// Reads the rows of the changes of one zone, in any order, as its changes, the oldest first. Rows that are those of no changes are
/// `BadRow`: one is no row of a change, two are of different origins, two are of the same record on the same side of one change, or
/// the numbers are not those from 1 on.
pub fn read_changes(alloc: Global, rows: &[ChangeRow]) -> Result<Vec<Change>, RowFault>
    // The rows are those of what is read, of some zone.
    ensures found { IfOk result
        (λ cs. (origin : List (List ℕ)) × IsName origin × AllByRecursion IsChange (map change_in cs.items)
        × IsPermutation (changes_rows origin 1 (map change_in cs.items)) rows.now) }
    // The rows of the changes of a zone are read as these changes, unless memory runs out.
    ensures only { (origin : List (List ℕ)) (changes : List ChangeOf) → IsName origin → AllByRecursion IsChange changes
        → IsPermutation (changes_rows origin 1 changes) rows.now → Reads (λ cs. map change_in cs.items) result (Ok changes) }
{
    let changed = sorted_changes(alloc, rows)?;
    changes_among(alloc, changed)
}

/// Reads the rows of the changes of one zone that are known to be those of changes, in any order, as its changes, the oldest first. Their
/// spelling is not looked at.
pub(crate) fn stored_changes(alloc: Global, rows: Vec<ChangeRow>) -> Result<Vec<Change>, RowFault>
    // They have what each row says.
    ensures found { IfOk result (λ cs. AreStoredIn rows.items (map change_in cs.items)) }
    // The rows of the changes of a zone are read as these changes, unless memory runs out.
    ensures only { (origin : List (List ℕ)) (changes : List ChangeOf) → IsName origin → AllByRecursion IsChange changes
        → IsPermutation (changes_rows origin 1 changes) rows.items → Reads (λ cs. map change_in cs.items) result (Ok changes) }
{
    let changed = each_stored(alloc, rows)?;
    changes_among(alloc, in_order(changed)?)
}

/// Reads the rows of the changes of one zone after the first ones, so many, in any order, as these changes, the oldest first. A row of
/// one of the first ones is `BadRow`.
pub(crate) fn stored_behind(
    alloc: Global,
    rows: &[ChangeRow],
    count: u32,
) -> Result<Vec<Change>, RowFault>
    // They have what each row says.
    ensures found { IfOk result (λ cs. AreStoredBehind count rows.now (map change_in cs.items)) }
    // The rows of changes with the numbers from there on are read as these changes, unless memory runs out.
    ensures only { (origin : List (List ℕ)) (changes : List ChangeOf) → IsName origin → AllByRecursion IsChange changes
        → IsPermutation (changes_rows origin (1 + count) changes) rows.now → Reads (λ cs. map change_in cs.items) result (Ok changes) }
{
    let changed = each_behind(alloc, rows, count)?;
    changes_among(alloc, in_order(changed)?)
}

/// The changes of what rows have, in order. `BadRow` comes where it is not that of the rows of the changes of one zone.
fn changes_among(alloc: Global, changed: Vec<ChangedRecord>) -> Result<Vec<Change>, RowFault>
    ensures { Reads (λ cs. map change_in cs.items) result (changes_among changed.items) }
{
    if !are_changes(&changed) {
        return Err(RowFault::BadRow);
    }
    Ok(gathered(alloc, changed)?)
}

/// What each row has that is known to be that of a change. A row goes as soon as it is read.
fn each_stored(alloc: Global, rows: Vec<ChangeRow>) -> Result<Vec<ChangedRecord>, RowFault>
    ensures { Reads (λ cs. cs.items) result (each_read changed_in rows.items) }
{
    let mut reader = ChangeReader::new();
    stored_by(alloc, &mut reader, rows)
}

/// `each_stored` with a given reader.
fn stored_by(
    alloc: Global,
    reader: &mut ChangeReader,
    rows: Vec<ChangeRow>,
) -> Result<Vec<ChangedRecord>, RowFault>
    ensures { Reads (λ cs. cs.items) result (each_read changed_in rows.items) }
{
    let mut changed = Vec::with_capacity(alloc, rows.len())?;
    for row in rows {
        changed.push(reader.stored_row(alloc, &row)?)?;
    }
    Ok(changed)
}

/// What each row has after so many changes.
fn each_behind(
    alloc: Global,
    rows: &[ChangeRow],
    count: u32,
) -> Result<Vec<ChangedRecord>, RowFault>
    ensures { Reads (λ cs. cs.items) result (each_read (changed_behind count) rows.now) }
{
    let mut reader = ChangeReader::new();
    behind_by(alloc, &mut reader, rows, count)
}

/// `each_behind` with a given reader.
fn behind_by(
    alloc: Global,
    reader: &mut ChangeReader,
    rows: &[ChangeRow],
    count: u32,
) -> Result<Vec<ChangedRecord>, RowFault>
    ensures { Reads (λ cs. cs.items) result (each_read (changed_behind count) rows.now) }
{
    let mut changed = Vec::with_capacity(alloc, rows.len())?;
    for row in rows {
        changed.push(reader.row_behind(alloc, row, count)?)?;
    }
    Ok(changed)
}

/// What each row has.
fn each_changed(alloc: Global, rows: &[ChangeRow]) -> Result<Vec<ChangedRecord>, RowFault>
    ensures found { IfOk result (λ cs. (map row_of cs.items ≡ rows.now) × AllByRecursion IsChanged cs.items) }
    ensures only { AllByRecursion IsChangeRow rows.now → IfErr result (λ e. e ≡ RowFault.NoMemory) }
{
    let mut reader = ChangeReader::new();
    changed_by(alloc, &mut reader, rows)
}

/// `each_changed` with a given reader.
fn changed_by(
    alloc: Global,
    reader: &mut ChangeReader,
    rows: &[ChangeRow],
) -> Result<Vec<ChangedRecord>, RowFault>
    ensures found { IfOk result (λ cs. (map row_of cs.items ≡ rows.now) × AllByRecursion IsChanged cs.items) }
    ensures only { AllByRecursion IsChangeRow rows.now → IfErr result (λ e. e ≡ RowFault.NoMemory) }
{
    let mut changed = Vec::with_capacity(alloc, rows.len())?;
    for row in rows {
        changed.push(reader.read_row(alloc, row)?)?;
    }
    Ok(changed)
}

/// The order of the changes, and of their sides, in which records are: by origin, then by the number of the change, and then by side.
fn side_order(first: &ChangedRecord, second: &ChangedRecord) -> Ordering
    ensures { result ≡ side_order first.now second.now }
{
    first
        .origin
        .cmp(&second.origin)
        .then(first.number.cmp(&second.number))
        .then(first.side.rank().cmp(&second.side.rank()))
}

/// The order of what rows have: by origin, then by the number of the change, then by side, and then in record order.
fn changed_order(first: &ChangedRecord, second: &ChangedRecord) -> Ordering
    ensures { result ≡ changed_order first.now second.now }
{
    // few records are on one side of one change
    match side_order(first, second) {
        Ordering::Equal => record_order(&first.changed, &second.changed),
        order => order,
    }
}

impl Ordered for ChangedRecord {
    ghost use Rattle.store_rows.specs.ChangeRows.{changed_order, changed_order_total};

    ghost compare = { changed_order };

    fn compare(&self, other: &ChangedRecord) -> Ordering {
        changed_order(self, other)
    }

    ghost total = { changed_order_total };
}

/// What rows of `changes` have, of whatever zones: by origin, then by the number of the change, then by side, and then in record order. A
/// row that is that of no record on a side of a change is `BadRow`.
pub fn sorted_changes(alloc: Global, rows: &[ChangeRow]) -> Result<Vec<ChangedRecord>, RowFault>
    ensures found { IfOk result (λ cs. IsPermutation (map row_of cs.items) rows.now × AllByRecursion IsChanged cs.items × IsSorted changed_order cs.items) }
    ensures only { AllByRecursion IsChangeRow rows.now → IfErr result (λ e. e ≡ RowFault.NoMemory) }
{
    let changed = each_changed(alloc, rows)?;
    Ok(in_order(changed)?)
}

/// What rows have, in order. The only error is out of memory.
pub(crate) fn in_order(changed: Vec<ChangedRecord>) -> Result<Vec<ChangedRecord>, AllocError>
    ensures { IfOk result (λ cs. IsPermutation changed.items cs.items × IsSorted changed_order cs.items) }
{
    sorted(changed)
}

/// Whether one stands right after another: after it in order; and of the same zone and the same change or the next one, or of the
/// first change of another zone.
fn follows(first: &ChangedRecord, second: &ChangedRecord) -> bool
    ensures { result ≡ follows first.now second.now }
{
    changed_order(first, second).is_lt() && follows_in_number(first, second)
}

/// Whether one has the number of another or the next one, or the first of another zone.
fn follows_in_number(first: &ChangedRecord, second: &ChangedRecord) -> bool
    ensures { result ≡ follows_in_number first.now second.now }
{
    if first.origin != second.origin {
        return second.number == 1;
    }
    second.number == first.number || second.number.checked_sub(1) == Some(first.number)
}

/// Whether each of some stands right after the one before it, and the first after this one.
fn follow_in_turn(first: &ChangedRecord, others: &[ChangedRecord]) -> bool
    ensures { result ≡ follow_in_turn first.now others.now }
{
    let mut before = first;
    for next in others {
        if !follows(before, next) {
            return false;
        }
        before = next;
    }
    true
}

/// Whether they stand in order, each once, and are numbered from 1 in each zone without a gap.
pub fn are_numbered(changed: &[ChangedRecord]) -> bool
    ensures { result ≡ are_numbered changed.now }
{
    match changed {
        [] => true,
        [first, others @ ..] => first.number == 1 && follow_in_turn(first, others),
    }
}

/// Whether all are of one zone.
fn are_of_one(changed: &[ChangedRecord]) -> bool
    ensures { result ≡ are_of_one changed.now }
{
    match changed {
        [] => true,
        [first, others @ ..] => are_of(others, &first.origin),
    }
}

/// Whether all are of the zone of an origin.
fn are_of(changed: &[ChangedRecord], origin: &Name) -> bool
    ensures { result ≡ list_all (λ c. same_name c.origin origin.now) changed.now }
{
    changed.iter().all(|changed| changed.origin == *origin)
}

/// Whether they are what the rows of the changes of one zone have, in order.
fn are_changes(changed: &[ChangedRecord]) -> bool
    ensures { result ≡ (are_of_one changed.now && are_numbered changed.now) }
{
    are_of_one(changed) && are_numbered(changed)
}

/// A change with one more record on a side. The only error is out of memory.
fn with_record(mut change: Change, side: Side, rr: Record) -> Result<Change, AllocError>
    ensures { IfOk result (λ c. change_in c ≡ with_record (change_in change) side rr) }
{
    match side {
        Side::Removed => change.removed.push(rr)?,
        Side::Added => change.added.push(rr)?,
    }
    Ok(change)
}

/// Puts a change without a record after others, where there are fewer than this number. The only error is out of memory.
fn opened(alloc: Global, changes: &mut Vec<Change>, number: u64) -> Result<(), AllocError>
    ensures { OnOk result (map change_in changes.new.items ≡ opened (map change_in changes.old.items) number) }
{
    if (changes.len() as u64) < number {
        changes.push(Change {
            removed: Vec::new(alloc),
            added: Vec::new(alloc),
        })?;
    }
    Ok(())
}

/// Puts what a row has into the last change, or into a new one after it. The only error is out of memory.
fn place(alloc: Global, changes: &mut Vec<Change>, changed: ChangedRecord) -> Result<(), AllocError>
    ensures { OnOk result (map change_in changes.new.items ≡ placed (map change_in changes.old.items) changed) }
{
    opened(alloc, changes, changed.number)?;
    let Some(last) = changes.pop() else {
        return Ok(());
    };
    changes.push(with_record(last, changed.side, changed.changed)?)?;
    Ok(())
}

/// The changes of what rows of one zone have, in order. The only error is out of memory.
fn gathered(alloc: Global, changed: Vec<ChangedRecord>) -> Result<Vec<Change>, AllocError>
    ensures { IfOk result (λ cs. map change_in cs.items ≡ gathered changed.items) }
{
    let mut changes = Vec::new(alloc);
    for one in changed {
        place(alloc, &mut changes, one)?;
    }
    Ok(changes)
}
