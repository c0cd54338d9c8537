//! The rows of `changes`, read one after the other.

ghost use Rattle.std.specs.Prelude.{◌≡◌, Ok, IfOk};
ghost use Rattle.dns_names.specs.Labels.{IsName};
ghost use Rattle.dns_data.specs.Rdata.{IsRecord};
ghost use Rattle.store_rows.specs.declared.changes.ChangedRecord.{ChangedRecord as Changed};
ghost use Rattle.store_rows.specs.ChangeRows.{row_of as row_of_change, IsChanged};
ghost use Rattle.store_rows.specs.RowFaults.{Reads};
ghost use Rattle.store_rows.specs.RowReading.{changed_at, changed_in, renumbered, changed_behind};

use crate::changes::{ChangedRecord, number_in};
use crate::column_reader::ColumnReader;
use crate::row_fault::RowFault;
use crate::side::Side;
use std::alloc::Global;
use store_sql::{ChangeRow, RowReader, RowsFault};

/// Reads rows of `changes`. A row that is that of no record on a side of a change is `BadRow`: a text is in another spelling than the
/// canonical one, a number is no type's, the number of the change is below 1, the side is neither 0 nor 1, a TTL has more than 31
/// bits or is below 0, or data are of another type.
#[derive(Drop)]
pub struct ChangeReader {
    columns: ColumnReader,
}

impl ChangeReader {
    /// A reader that has read nothing.
    pub const fn new() -> ChangeReader {
        ChangeReader {
            columns: ColumnReader::new(),
        }
    }

    /// Reads the columns of a row.
    fn changed_at(&mut self, alloc: Global, row: &ChangeRow) -> Result<ChangedRecord, RowFault>
        ensures is { IfOk result (λ c. IsName c.origin × IsRecord c.changed) }
        ensures exact { Reads (λ c. c) result (changed_at row.now) }
    {
        let origin = self.columns.origin(alloc, row.origin.as_str())?;
        let number = number_in(row.number)?;
        let side = Side::of_number(row.side)?;
        let changed = self.columns.record(
            alloc,
            row.owner.as_str(),
            row.record_type,
            row.rdata.as_str(),
            row.ttl,
        )?;
        Ok(ChangedRecord {
            origin,
            number,
            side,
            changed,
        })
    }

    /// Reads the next row.
    pub(crate) fn read_row(
        &mut self,
        alloc: Global,
        row: &ChangeRow,
    ) -> Result<ChangedRecord, RowFault>
        // The row is that of what is read.
        ensures found { IfOk result (λ c. (row.now ≡ row_of_change c) × IsChanged c) }
        // The row of such a record is read as it, unless memory runs out.
        ensures only { (c : Changed) → IsChanged c → row.now ≡ row_of_change c → Reads (λ read. read) result (Ok c) }
    {
        self.changed_at(alloc, row)
    }

    /// What a row has that is known to be that of a record on a side of a change. Its spelling is not looked at.
    pub(crate) fn stored_row(
        &mut self,
        alloc: Global,
        row: &ChangeRow,
    ) -> Result<ChangedRecord, RowFault>
        ensures { Reads (λ c. c) result (changed_in row.now) }
    {
        let origin = self.columns.stored_origin(alloc, row.origin.as_str())?;
        let number = number_in(row.number)?;
        let side = Side::of_number(row.side)?;
        let changed = self.columns.stored_record(
            alloc,
            row.owner.as_str(),
            row.record_type,
            row.rdata.as_str(),
            row.ttl,
        )?;
        Ok(ChangedRecord {
            origin,
            number,
            side,
            changed,
        })
    }

    /// What a row has after so many changes, numbered from 1. Its spelling is not looked at.
    pub(crate) fn row_behind(
        &mut self,
        alloc: Global,
        row: &ChangeRow,
        count: u32,
    ) -> Result<ChangedRecord, RowFault>
        ensures { Reads (λ c. c) result (changed_behind count row.now) }
    {
        let changed = self.stored_row(alloc, row)?;
        renumbered(changed, count)
    }
}

/// What a row has, with its change numbered from 1 after so many changes. A number of one of these is `BadRow`.
fn renumbered(mut changed: ChangedRecord, count: u32) -> Result<ChangedRecord, RowFault>
    ensures { result ≡ renumbered count changed }
{
    if changed.number <= u64::from(count) {
        return Err(RowFault::BadRow);
    }
    changed.number -= u64::from(count);
    Ok(changed)
}

impl RowReader<ChangeRow, ChangedRecord> for ChangeReader {
    ghost row_of = { row_of_change };

    ghost is_read = { IsChanged };

    fn read(&mut self, alloc: Global, row: ChangeRow) -> Result<ChangedRecord, RowsFault> {
        Ok(self.read_row(alloc, &row)?)
    }
}
