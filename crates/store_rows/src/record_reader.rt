//! The rows of `records`, read one after the other.

ghost use Rattle.std.specs.Prelude.{◌≡◌, Ok, IfOk};
ghost use Rattle.store_rows.specs.declared.ordered.ZoneRecord.{ZoneRecord as RecordOf};
ghost use Rattle.store_rows.specs.RowFaults.{Reads};
ghost use Rattle.store_rows.specs.RowReading.{zone_record_in};
ghost use Rattle.store_rows.specs.Checks.{row_of_record, IsZoneRecord};

use crate::column_reader::ColumnReader;
use crate::ordered::ZoneRecord;
use crate::row_fault::RowFault;
use std::alloc::Global;
use store_sql::{RecordRow, RowReader, RowsFault};

/// Reads rows of `records`. A row that is that of no origin and no record is `BadRow`: a text is in another spelling than the canonical
/// one, a number is no type's, a TTL has more than 31 bits or is below 0, data are of another type, or the key is not the owner's.
#[derive(Drop)]
pub struct RecordReader {
    columns: ColumnReader,
}

impl RecordReader {
    /// A reader that has read nothing.
    pub const fn new() -> RecordReader {
        RecordReader {
            columns: ColumnReader::new(),
        }
    }

    /// Reads the columns of a row.
    fn record_in(&mut self, alloc: Global, row: &RecordRow) -> Result<ZoneRecord, RowFault>
        ensures is { IfOk result IsZoneRecord }
        ensures exact { Reads (λ r. r) result (zone_record_in row.now) }
    {
        let origin = self.columns.origin(alloc, row.origin.as_str())?;
        let rr = self.columns.record(
            alloc,
            row.owner.as_str(),
            row.record_type,
            row.rdata.as_str(),
            row.ttl,
        )?;
        if rr.owner.key() != row.owner_key.as_slice() {
            return Err(RowFault::BadRow);
        }
        Ok(ZoneRecord { origin, rr })
    }

    /// Reads the next row.
    pub(crate) fn read_row(
        &mut self,
        alloc: Global,
        row: &RecordRow,
    ) -> Result<ZoneRecord, RowFault>
        // The row is that of what is read.
        ensures found { IfOk result (λ r. (row.now ≡ row_of_record r) × IsZoneRecord r) }
        // The row of a record is read as this record, unless memory runs out.
        ensures only { (r : RecordOf) → IsZoneRecord r → row.now ≡ row_of_record r → Reads (λ read. read) result (Ok r) }
    {
        self.record_in(alloc, row)
    }
}

impl RowReader<RecordRow, ZoneRecord> for RecordReader {
    ghost row_of = { row_of_record };

    ghost is_read = { IsZoneRecord };

    fn read(&mut self, alloc: Global, row: RecordRow) -> Result<ZoneRecord, RowsFault> {
        Ok(self.read_row(alloc, &row)?)
    }
}
