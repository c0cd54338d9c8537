//! The rows of `records`.

ghost use Rattle.std.specs.Prelude.{◌≡◌, ◌↔◌, List, ℕ, true, Ok, IfOk, map};
ghost use Rattle.dns_names.specs.Labels.{IsName};
ghost use Rattle.dns_names.specs.Spelling.{name_text};
ghost use Rattle.dns_data.specs.Rdata.{IsRecord};
ghost use Rattle.dns_data.specs.declared.record.Record.{Record as RecordOf};
ghost use Rattle.store_rows.specs.RecordRows.{record_row};
ghost use Rattle.store_rows.specs.RowFaults.{Reads};
ghost use Rattle.store_rows.specs.RowReading.{record_in};

use crate::columns::record_from;
use crate::record_reader::RecordReader;
use crate::row_fault::RowFault;
use dns_data::{Record, data_text};
use dns_names::Name;
use std::alloc::{AllocError, Global};
use store_sql::RecordRow;

/// The row of a record of the zone of an origin: names and data in canonical text, the type by its number, and the key of the
/// owner. The only error is out of memory.
pub fn record_row(alloc: Global, origin: &Name, rr: &Record) -> Result<RecordRow, AllocError>
    ensures { IfOk result (λ row. row ≡ record_row origin.now rr.now) }
{
    let origin = origin.text(alloc)?;
    row_beside(alloc, &origin, rr)
}

/// The row of a record of the zone of an origin, which has this text. The only error is out of memory.
fn row_beside(alloc: Global, origin: &str, rr: &Record) -> Result<RecordRow, AllocError>
    ensures { (name : List (List ℕ)) → origin.now ≡ name_text name → IfOk result (λ row. row ≡ record_row name rr.now) }
{
    Ok(RecordRow {
        origin: String::from_str(alloc, origin)?,
        owner: rr.owner.text(alloc)?,
        record_type: i64::from(rr.record_type().number()),
        rdata: data_text(alloc, &rr.rdata)?,
        ttl: i64::from(rr.ttl.seconds()),
        owner_key: Vec::from_slice(alloc, rr.owner.key())?,
    })
}

/// The rows of records of the zone of an origin. The only error is out of memory.
pub(crate) fn record_rows(
    alloc: Global,
    origin: &Name,
    records: &[Record],
) -> Result<Vec<RecordRow>, AllocError>
    ensures { IfOk result (λ rows. rows.items ≡ map (record_row origin.now) records.now) }
{
    let text = origin.text(alloc)?;
    let mut rows = Vec::with_capacity(alloc, records.len())?;
    for rr in records {
        rows.push(row_beside(alloc, &text, rr)?)?;
    }
    Ok(rows)
}

/// Reads a row of `records`. A row that is that of no origin and no record is `BadRow`: a text is in another spelling than the
/// canonical one, a number is no type's, a TTL has more than 31 bits or is below 0, data are of another type, or the key is not the
/// owner's.
pub fn read_record(alloc: Global, row: &RecordRow) -> Result<(Name, Record), RowFault>
    // The row is that of what is read.
    ensures found { IfOk result (λ x. (row.now ≡ record_row x.0 x.1) × IsName x.0 × IsRecord x.1) }
    // The row of a record is read as this record, unless memory runs out.
    ensures only { (origin : List (List ℕ)) (r : RecordOf) → IsName origin → IsRecord r → row.now ≡ record_row origin r
        → Reads {Y = List (List ℕ) × RecordOf} (λ x. (x.0, x.1)) result (Ok (origin, r)) }
{
    let read = RecordReader::new().read_row(alloc, row)?;
    Ok((read.origin, read.rr))
}

/// The record of a row that is known to be that of a record. Its origin, its key and its spelling are not looked at.
pub(crate) fn stored_record(alloc: Global, row: &RecordRow) -> Result<Record, RowFault>
    ensures record { IfOk result IsRecord }
    ensures exact { Reads (λ rr. rr) result (record_in row.now) }
{
    record_from(
        alloc,
        row.owner.as_str(),
        row.record_type,
        row.rdata.as_str(),
        row.ttl,
    )
}
