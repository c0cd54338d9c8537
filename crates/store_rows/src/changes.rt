//! The rows of `changes`.

ghost use Rattle.std.specs.Prelude.{◌≡◌, ◌++◌, ℕ, pos, IfOk, OnOk, map};
ghost use Rattle.zone_core.specs.Changes.{change_in};
ghost use Rattle.store_rows.specs.ChangeRows.{change_rows, row_on_side};
ghost use Rattle.store_rows.specs.declared.side.Side.TheVariants.{Removed, Added};
ghost use Rattle.store_rows.specs.RowReading.{number_in};

use crate::records::record_rows;
use crate::row_fault::RowFault;
use crate::side::Side;
use dns_data::Record;
use dns_names::Name;
use std::alloc::{AllocError, Global};
use store_sql::{ChangeRow, RecordRow};
use zone_core::Change;

/// A record on a side of a change of a zone, as a row has it.
#[derive(Drop)]
pub struct ChangedRecord {
    /// The origin of the zone.
    pub origin: Name,
    /// The number of the change among those of its zone, from 1.
    pub number: u64,
    pub side: Side,
    /// The record that went or came.
    pub changed: Record,
}

/// The row of a record on a side of the change of a number, by the row that the record has in its zone, so that nothing is spelled
/// again. The only error is out of memory.
fn row_on_side(
    alloc: Global,
    number: i64,
    side: Side,
    row: &RecordRow,
) -> Result<ChangeRow, AllocError>
    ensures { (n : ℕ) → number ≡ pos n → IfOk result (λ changed. changed ≡ row_on_side n side row.now) }
{
    Ok(ChangeRow {
        origin: String::from_str(alloc, &row.origin)?,
        number,
        side: side.number(),
        owner: String::from_str(alloc, &row.owner)?,
        record_type: row.record_type,
        rdata: String::from_str(alloc, &row.rdata)?,
        ttl: row.ttl,
    })
}

/// Puts the rows of records on a side of a change after others. The only error is out of memory.
fn push_side(
    alloc: Global,
    rows: &mut Vec<ChangeRow>,
    number: i64,
    side: Side,
    records: &[RecordRow],
) -> Result<(), AllocError>
    ensures { (n : ℕ) → number ≡ pos n → OnOk result (rows.new.items ≡ rows.old.items ++ map (row_on_side n side) records.now) }
{
    for row in records {
        rows.push(row_on_side(alloc, number, side, row)?)?;
    }
    Ok(())
}

/// The rows of the change of a number, by the rows of the records that went and of those that came. The only error is out of memory.
pub(crate) fn rows_of_sides(
    alloc: Global,
    number: i64,
    removed: &[RecordRow],
    added: &[RecordRow],
) -> Result<Vec<ChangeRow>, AllocError>
    ensures { (n : ℕ) → number ≡ pos n → IfOk result (λ rows. rows.items ≡ map (row_on_side n Removed) removed.now ++ map (row_on_side n Added) added.now) }
{
    let mut rows = Vec::new(alloc);
    push_side(alloc, &mut rows, number, Side::Removed, removed)?;
    push_side(alloc, &mut rows, number, Side::Added, added)?;
    Ok(rows)
}

/// The rows of the change of a number, of the zone of an origin: those of the records that went, and then those of the records that
/// came. The only error is out of memory.
pub fn change_rows(
    alloc: Global,
    origin: &Name,
    number: i64,
    change: &Change,
) -> Result<Vec<ChangeRow>, AllocError>
    ensures { (n : ℕ) → number ≡ pos n → IfOk result (λ rows. rows.items ≡ change_rows origin.now n (change_in change.now)) }
{
    let removed = record_rows(alloc, origin, &change.removed)?;
    let added = record_rows(alloc, origin, &change.added)?;
    rows_of_sides(alloc, number, &removed, &added)
}

/// The number of a change, which counts from 1.
pub(crate) fn number_in(number: i64) -> Result<u64, RowFault>
    ensures { result ≡ number_in number }
{
    match u64::try_from(number) {
        Ok(number) if number > 0 => Ok(number),
        _ => Err(RowFault::BadRow),
    }
}
