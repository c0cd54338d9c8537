//! Parts of a state, read from the rows of them.

ghost use Rattle.std.specs.Prelude.{◌≡◌, ◌+◌, ℕ, ℤ, pos, List, ◌∷◌, map, drop, take, true, Ok, Some, IfOk, bytes_eq};
ghost use Rattle.std.specs.List.{list_all};
ghost use Rattle.std.specs.List.Sorted.{IsPermutation};
ghost use Rattle.dns_names.specs.Keys.{key_of};
ghost use Rattle.dns_names.specs.Spelling.{name_text};
ghost use Rattle.dns_data.specs.RecordOrder.{record_order};
ghost use Rattle.dns_data.specs.declared.record.Record.{Record as RecordOf};
ghost use Rattle.zone_core.specs.Sets.{listing, part, within};
ghost use Rattle.zone_core.specs.Zones.{ZoneOf, built};
ghost use Rattle.zone_core.specs.Parts.{part_of as zone_part, at_names};
ghost use Rattle.zone_core.specs.Changes.{change_in};
ghost use Rattle.office_model.specs.States.{Held, State, zone_at};
ghost use Rattle.store_sql.specs.Rows.{RowsOf};
ghost use Rattle.store_sql.specs.Lookups.{records_of, receipts_of, changes_of as changes_in, changes_between};
ghost use Rattle.store_rows.specs.Contents.{AreOfState};
ghost use Rattle.store_rows.specs.RowReading.{each_read, record_in, zone_by, receipt_by, AreStoredIn, AreStoredBehind};
ghost use Rattle.store_rows.specs.RowFaults.{Reads, of_zone, of_zones};
ghost use Rattle.store_rows.specs.Orders.{rises};
ghost use Rattle.store_rows.specs.PartRows.{AreRowsAt, rows_within};

use crate::ascending::rise;
use crate::gathering::{stored_behind, stored_changes};
use crate::receipts::stored_receipt;
use crate::records::stored_record;
use crate::row_fault::RowFault;
use dns_data::{Record, record_order};
use dns_names::Name;
use office_model::Receipt;
use std::alloc::Global;
use store_sql::{ChangeRow, ReceiptRow, RecordRow};
use zone_core::{Change, Zone, ZoneFault};

/// The records of rows, in the order of the rows. A row that is not read is `BadRow`.
fn records_in(alloc: Global, rows: &[RecordRow]) -> Result<Vec<Record>, RowFault>
    ensures { Reads (λ records. records.items) result (each_read record_in rows.now) }
{
    let mut records = Vec::with_capacity(alloc, rows.len())?;
    for row in rows {
        records.push(stored_record(alloc, row)?)?;
    }
    Ok(records)
}

/// Whether all rows have an origin with this text.
fn are_of(rows: &[RecordRow], origin: &str) -> bool
    ensures { result ≡ list_all (λ r. bytes_eq r.origin origin.now) rows.now }
{
    rows.iter().all(|row| row.origin.as_str() == origin)
}

/// The refusal of rows whose records are refused as a zone.
fn of_zone(fault: ZoneFault) -> RowFault
    ensures { result ≡ of_zone fault }
{
    match fault {
        ZoneFault::NoMemory => RowFault::NoMemory,
        _ => RowFault::BadRow,
    }
}

/// The zone of an origin that is built of records. Records that make no zone are `BadRow`.
pub fn built(alloc: Global, origin: &Name, records: Vec<Record>) -> Result<Zone, RowFault>
    ensures origin { IfOk result (λ zone. zone.origin ≡ origin.now) }
    ensures exact { Reads (λ zone. zone) result (of_zones (built origin.now records.items)) }
{
    match Zone::build(alloc, origin.try_copy(alloc)?, records) {
        Ok(zone) => Ok(zone),
        Err(fault) => Err(of_zone(fault)),
    }
}

/// The zone of an origin by rows of its records, in any order and however often they come. Others are `BadRow`.
fn zone_by(alloc: Global, origin: &Name, rows: &[RecordRow]) -> Result<Zone, RowFault>
    ensures origin { IfOk result (λ zone. zone.origin ≡ origin.now) }
    ensures exact { Reads (λ zone. zone) result (zone_by origin.now rows.now) }
{
    let text = origin.text(alloc)?;
    if !are_of(rows, text.as_str()) {
        return Err(RowFault::BadRow);
    }
    let records = records_in(alloc, rows)?;
    built(alloc, origin, records)
}

/// The zone of an origin, by the rows of its records in any order. Rows that are those of no zone of this origin are `BadRow`. Whether
/// a row is in the canonical spelling is not asked: the checks of whole tables do that.
pub fn zone_of(alloc: Global, origin: &Name, rows: &[RecordRow]) -> Result<Zone, RowFault>
    // What is read is of the origin that was asked for, whatever the rows.
    ensures origin { IfOk result (λ zone. zone.origin ≡ origin.now) }
    // It has what each row says: none is left out, and if one is not read there is no zone.
    ensures exact { Reads (λ zone. zone) result (zone_by origin.now rows.now) }
    // In a state that holds the zone, the rows of its records are read as it, unless memory runs out.
    ensures held { (version : ℤ) (all : RowsOf) (s : State) (zone : ZoneOf) → AreOfState version all s → zone_at s origin.now ≡ Some zone
        → IsPermutation (records_of (name_text origin.now) all.records) rows.now → Reads (λ z. z) result (Ok zone) }
{
    zone_by(alloc, origin, rows)
}

/// The part of the zone of an origin that has its records at the origin and at some names, by their rows, in any order and however
/// often they come. Rows that are those of no such part are `BadRow`, as `zone_of` has it.
pub fn part_of(alloc: Global, origin: &Name, rows: &[RecordRow]) -> Result<Zone, RowFault>
    ensures origin { IfOk result (λ zone. zone.origin ≡ origin.now) }
    ensures exact { Reads (λ zone. zone) result (zone_by origin.now rows.now) }
    // In a state that holds the zone, the rows at the names are read as this part, unless memory runs out.
    ensures held { (version : ℤ) (all : RowsOf) (s : State) (zone : ZoneOf) (names : List (List (List ℕ))) → AreOfState version all s
        → zone_at s origin.now ≡ Some zone → AreRowsAt (name_text origin.now) (map key_of (origin.now ∷ names)) all.records rows.now
        → Reads (λ z. z) result (Ok (zone_part zone (at_names origin.now names))) }
{
    zone_by(alloc, origin, rows)
}

/// Whether each record stands before the next one in record order, so that no two are the same.
pub fn are_in_order(records: &[Record]) -> bool
    ensures { result ≡ rises record_order records.now }
{
    rise(records)
}

/// The records of rows of one zone, in record order. A row that is not read is `BadRow`, and so are rows of which two are of the same
/// record.
pub fn records_within(alloc: Global, rows: &[RecordRow]) -> Result<Vec<Record>, RowFault>
    // They are those of all rows, in order.
    ensures found { IfOk result
        (λ records. (rs : List RecordOf) × (each_read record_in rows.now ≡ Ok rs) × IsPermutation rs records.items
        × (rises record_order records.items ≡ true)) }
    // In a state that holds a zone, the rows of its records within a name are read as these, unless memory runs out.
    ensures held { (version : ℤ) (all : RowsOf) (s : State) (origin top : List (List ℕ)) (zone : ZoneOf) → AreOfState version all s
        → zone_at s origin ≡ Some zone → IsPermutation (rows_within (name_text origin) top all.records) rows.now
        → Reads (λ records. records.items) result (Ok (listing (part zone.records (within top)))) }
{
    let mut records = records_in(alloc, rows)?;
    records.sort_by(|first, second| record_order(first, second))?;
    if !are_in_order(&records) {
        return Err(RowFault::BadRow);
    }
    Ok(records)
}

/// The receipt of a caller under an identifier, by its row, where there is one. A row that is not read is `BadRow`, and so are two rows.
pub fn receipt_of(alloc: Global, rows: &[ReceiptRow]) -> Result<Option<Receipt>, RowFault>
    // Nothing where there is no row, and else what the one row says.
    ensures exact { Reads (λ receipt. receipt) result (receipt_by rows.now) }
    // In a state, the rows under an identifier of a caller are read as what it has there, unless memory runs out.
    ensures held { (version : ℤ) (all : RowsOf) (s : State) (caller id : List ℕ) → AreOfState version all s
        → IsPermutation (receipts_of caller id all.receipts) rows.now → Reads (λ receipt. receipt) result (Ok (s.receipts caller id)) }
{
    receipt_by(alloc, rows)
}

/// What at most one row says.
fn receipt_by(alloc: Global, rows: &[ReceiptRow]) -> Result<Option<Receipt>, RowFault>
    ensures { Reads (λ receipt. receipt) result (receipt_by rows.now) }
{
    match rows {
        [] => Ok(None),
        [row] => Ok(Some(stored_receipt(alloc, row)?)),
        _ => Err(RowFault::BadRow),
    }
}

/// The changes of a zone, the oldest first, by their rows in any order. Rows that are those of no changes are `BadRow`.
pub fn changes_of(alloc: Global, rows: Vec<ChangeRow>) -> Result<Vec<Change>, RowFault>
    // They have what each row says.
    ensures found { IfOk result (λ changes. AreStoredIn rows.items (map change_in changes.items)) }
    // In a state that holds the zone, the rows of its changes are read as these, unless memory runs out.
    ensures held { (version : ℤ) (all : RowsOf) (s : State) (origin : List (List ℕ)) (held : Held) → AreOfState version all s
        → s.zones origin ≡ Some held → IsPermutation (changes_in (name_text origin) all.changes) rows.items
        → Reads (λ changes. map change_in changes.items) result (Ok held.changes) }
{
    stored_changes(alloc, rows)
}

/// Changes of a zone after the first ones, so many, the oldest first, by their rows in any order. Rows that are those of no such
/// changes are `BadRow`.
pub fn changes_behind(
    alloc: Global,
    rows: &[ChangeRow],
    count: u32,
) -> Result<Vec<Change>, RowFault>
    // They have what each row says.
    ensures found { IfOk result (λ changes. AreStoredBehind count rows.now (map change_in changes.items)) }
    // In a state that holds the zone, the rows of its changes with so many numbers from there on are read as these, unless memory runs
    // out.
    ensures held { (version : ℤ) (all : RowsOf) (s : State) (origin : List (List ℕ)) (held : Held) (most : ℕ) → AreOfState version all s
        → s.zones origin ≡ Some held
        → IsPermutation (changes_between (name_text origin) (pos (1 + count)) (pos (1 + count + most)) all.changes) rows.now
        → Reads (λ changes. map change_in changes.items) result (Ok (take most (drop count held.changes))) }
{
    stored_behind(alloc, rows, count)
}
