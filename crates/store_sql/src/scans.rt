//! All rows of the tables, of a store that somebody else may have written.

ghost use Rattle.std.specs.Prelude.{◌≡◌, ◌↔◌, ◌++◌, ◌∷◌, ℤ, List, [], Err, IfOk, OnOk, MatchResult, IsPermutation, IsTrue, true, false, map};
ghost use Rattle.std.specs.List.{AllByRecursion, IsDistinct};
ghost use Rattle.std.specs.Ordering.{int_eq};
ghost use Rattle.sqlite.specs.Effect.{IsDatabase};
ghost use Rattle.sqlite.specs.Given.{HasGiven, IsPlain};
ghost use Rattle.sqlite.specs.Held.{state};
ghost use Rattle.sqlite.specs.Listing.{understood};
ghost use Rattle.sqlite.specs.State.{Begins, HasCleanDisk, IsUnchanged, Shows, Shown};
ghost use Rattle.store_sql.specs.Rows.{ReceiptRowOf, RowsOf, same_receipt_key};
ghost use Rattle.store_sql.specs.Tables.{IsOffice, stored_version};
ghost use Rattle.store_sql.specs.Stores.{BeginNone, IsOneToOne, Numbers, Stores};
ghost use Rattle.store_sql.specs.Taken.{AreTaken, TakesMore};
ghost use Rattle.store_sql.specs.Holds.{AreRows, HasChanges, HasReceipts, HasRecords, HasZones, Holds, Leaves, OnlyAsks, SameRows, WritesNothing};
ghost use Rattle.store_sql.specs.declared.rows_fault.RowsFault.TheVariants.{BadRow};

use crate::from_row::{FromRow, number_at};
use crate::query::check_open;
use crate::row_check::RowCheck;
use crate::row_reader::{RowReader, WholeRows};
use crate::rows::{ChangeRow, ReceiptRow, RecordRow, ZoneRow};
use crate::rows_fault::RowsFault;
use crate::schema::has_tables;
use sqlite::{Alter, Connection, Row, Rows};
use std::alloc::Global;
use std::marker::Model;

/// The text that asks for the rows of `receipts`.
const RECEIPT_ROWS: &str = "SELECT rowid, caller, id, origin, request, reply FROM receipts";

/// All rows of the tables.
#[derive(Drop)]
pub struct AllRows {
    /// One where this crate made the tables.
    pub versions: Vec<i64>,
    pub zones: Vec<ZoneRow>,
    pub records: Vec<RecordRow>,
    pub receipts: Vec<ReceiptRow>,
    pub changes: Vec<ChangeRow>,
}

impl Model for AllRows {
    ghost use Rattle.store_sql.specs.Rows.{RowsOf, rows_code};

    ghost Value = { RowsOf };

    ghost coded = { rows_code };

    ghost view = { λ a. record { versions = a.versions.items; zones = a.zones.items; records = a.records.items; receipts = a.receipts.items; changes = a.changes.items } };
}

/// Whether each of some numbers comes once.
fn are_apart(mut numbers: Vec<i64>) -> bool
    ensures { (result ≡ true) ↔ IsDistinct int_eq numbers.items }
{
    numbers.sort_unstable();
    for place in 1..numbers.len() {
        if numbers[place - 1] == numbers[place] {
            return false;
        }
    }
    true
}

/// Tells whether each of some numbers comes once; else `BadRow`.
fn check_apart(numbers: Vec<i64>) -> Result<(), RowsFault>
    ensures { MatchResult result (λ _. IsDistinct int_eq numbers.items) (λ e. (e ≡ BadRow) × ¬ IsDistinct int_eq numbers.items) }
{
    if are_apart(numbers) {
        return Ok(());
    }
    Err(RowsFault::BadRow)
}

/// Has a check take a row that shows its rowid first, and notes the rowid. `BadRow` comes where it is no such row, or the check refuses
/// it.
fn take_numbered<R: FromRow, C: RowCheck<R>>(
    alloc: Global,
    rowids: &mut Vec<i64>,
    check: &mut C,
    row: &Row,
) -> Result<(), RowsFault>
    ensures taken { OnOk result
        ((start : C) (given : _) → AreTaken R.FromRow.stored C.has_taken start check.old given rowids.old.items
        → AreTaken R.FromRow.stored C.has_taken start check.new (given ++ row.now ∷ []) rowids.new.items) }
    ensures bad { result ≡ Err BadRow → IsOneToOne R.FromRow.stored → (id : ℤ) (x : R) → Numbers R.FromRow.stored row.now id x → C.is_good x → ⊥ }
{
    let rowid = number_at(row, 0, 0)?;
    check.take(alloc, R::read(row, 1)?)?;
    rowids.push(rowid)?;
    Ok(())
}

/// Has a check take the rows of an answer as the store hands them over, up to the first that is refused, and returns their rowids.
fn take_each<S: Alter, R: FromRow, C: RowCheck<R>>(
    alloc: Global,
    rows: &mut Rows<'_, S>,
    check: &mut C,
) -> Result<Vec<i64>, RowsFault>
    requires idle { rows.old.conn.now.in_transaction ≡ false }
    requires open { HasCleanDisk (state S.Store rows.old.conn.now) → IsTrue (state S.Store rows.old.conn.now).is_open }
    ensures same_reference { rows.new.conn.ghost_name ≡ rows.old.conn.ghost_name }
    ensures writes { WritesNothing (state S.Store rows.old.conn.now) (state S.Store rows.new.conn.now) }
    ensures same { HasCleanDisk (state S.Store rows.new.conn.now)
        → OnOk result (IsUnchanged (state S.Store rows.old.conn.now) (state S.Store rows.new.conn.now)) }
    ensures taken { IfOk result
        (λ rowids. (given : _) × AreTaken R.FromRow.stored C.has_taken check.old check.new given rowids.items
        ×
        (HasCleanDisk (state S.Store rows.new.conn.now) → (sql : _) → IsPlain (understood rows.old.conn.now.schema sql)
        → HasGiven S.Store sql [] rows.old.conn.now []
        → Shown sql [] (state S.Store rows.old.conn.now) (state S.Store rows.new.conn.now) given)) }
    ensures bad { HasCleanDisk (state S.Store rows.new.conn.now) → result ≡ Err BadRow
        → IsTrue (state S.Store rows.new.conn.now).is_open
        ×
        ((sql : _) → HasGiven S.Store sql [] rows.old.conn.now []
        → (given : _) × Begins sql [] (state S.Store rows.new.conn.now) given × BeginNone R.FromRow.stored C.is_good given) }
{
    let mut rowids = Vec::new(alloc);
    'rows: for _ in 0..u64::MAX {
        rows.advance()?;
        let Some(row) = rows.get() else {
            return Ok(rowids);
        };
        take_numbered::<R, C>(alloc, &mut rowids, check, row)?;
    }
    // No memory holds so many rows.
    Err(RowsFault::NoMemory)
}

/// Has a check take the rows of a table as the store hands them over, up to the first that is refused, and returns their rowids.
fn scan<S: Alter, R: FromRow, C: RowCheck<R>>(
    alloc: Global,
    conn: &mut Connection<S>,
    check: &mut C,
    sql: &str,
) -> Result<Vec<i64>, RowsFault>
    requires idle { conn.old.in_transaction ≡ false }
    requires plain { IsPlain (understood conn.old.schema sql.now) }
    ensures writes { WritesNothing (state S.Store conn.old) (state S.Store conn.new) }
    ensures same { HasCleanDisk (state S.Store conn.new) → OnOk result (IsUnchanged (state S.Store conn.old) (state S.Store conn.new)) }
    ensures taken { IfOk result
        (λ rowids. (given : _) × AreTaken R.FromRow.stored C.has_taken check.old check.new given rowids.items
        × (HasCleanDisk (state S.Store conn.new) → Shown sql.now [] (state S.Store conn.old) (state S.Store conn.new) given)) }
    ensures bad { HasCleanDisk (state S.Store conn.new) → result ≡ Err BadRow
        → IsTrue (state S.Store conn.new).is_open
        × ((given : _) × Begins sql.now [] (state S.Store conn.new) given × BeginNone R.FromRow.stored C.is_good given) }
{
    let mut rows = conn.query(sql, &[])?;
    take_each::<S, R, C>(alloc, &mut rows, check)
}

/// Has a check take all rows of a table, by a text that asks for their rowids and then for their columns. `BadRow` comes where the tables
/// are not those of the office, a row is not one of the table or one that the check refuses, or a rowid comes twice in the answer. No
/// statement here makes such a row, but a connection that is handed in says nothing of its own.
fn each<S: Alter, R: FromRow, C: RowCheck<R>>(
    alloc: Global,
    conn: &mut Connection<S>,
    check: &mut C,
    sql: &str,
) -> Result<(), RowsFault>
    requires idle { conn.old.in_transaction ≡ false }
    requires plain { IsOffice conn.old.schema → IsPlain (understood conn.old.schema sql.now) }
    ensures asks { OnlyAsks (state S.Store conn.old) (state S.Store conn.new) }
    ensures same { HasCleanDisk (state S.Store conn.new)
        → OnOk result (Shows (state S.Store conn.old) (state S.Store conn.new) (state S.Store conn.old).now (state S.Store conn.old).now false) }
    ensures live { HasCleanDisk (state S.Store conn.new)
        → OnOk result (IsOffice (state S.Store conn.old).now.schema × IsDatabase (state S.Store conn.old).now) }
    ensures taken { OnOk result
        ((rows : List R) × TakesMore C.has_taken check.old check.new rows
        ×
        (HasCleanDisk (state S.Store conn.new)
        → (given : _) × Shown sql.now [] (state S.Store conn.old) (state S.Store conn.new) given × Stores given (map R.FromRow.stored rows))) }
    ensures bad { HasCleanDisk (state S.Store conn.new) → result ≡ Err BadRow
        → IsTrue (state S.Store conn.new).is_open
        ×
        (IsOffice (state S.Store conn.new).now.schema
        → (given : _) × Begins sql.now [] (state S.Store conn.new) given × BeginNone R.FromRow.stored C.is_good given) }
{
    let is_alone = conn.is_autocommit();
    prove!(is_alone);
    if !has_tables(conn) {
        // A store that is shut says so, and not that a row is bad.
        check_open(conn)?;
        return Err(RowsFault::BadRow);
    }
    check_apart(scan::<S, R, C>(alloc, conn, check, sql)?)
}

/// What a reader has read of rows, in their order.
#[derive(Drop)]
struct Gathered<'a, Q, T> {
    reader: &'a mut Q,
    values: Vec<T>,
}

impl<'a, R, T: Drop, Q: RowReader<R, T>> RowCheck<R> for Gathered<'a, Q, T> {
    ghost has_taken = { λ gathered rows. (map Q.row_of gathered.values.items ≡ rows) × AllByRecursion Q.is_read gathered.values.items };

    ghost is_good = { λ row. (x : T) × Q.is_read x × (row ≡ Q.row_of x) };

    fn take(&mut self, alloc: Global, row: R) -> Result<(), RowsFault> {
        let value = self.reader.read(alloc, row)?;
        self.values.push(value)?;
        Ok(())
    }
}

/// All rows of a table, as a reader reads them, by such a text. `BadRow` also comes where the reader says so.
fn all<S: Alter, R: FromRow, T: Drop, Q: RowReader<R, T>>(
    alloc: Global,
    conn: &mut Connection<S>,
    reader: &mut Q,
    sql: &str,
) -> Result<Vec<T>, RowsFault>
    requires idle { conn.old.in_transaction ≡ false }
    requires plain { IsOffice conn.old.schema → IsPlain (understood conn.old.schema sql.now) }
    ensures asks { OnlyAsks (state S.Store conn.old) (state S.Store conn.new) }
    ensures same { HasCleanDisk (state S.Store conn.new)
        → OnOk result (Shows (state S.Store conn.old) (state S.Store conn.new) (state S.Store conn.old).now (state S.Store conn.old).now false) }
    ensures live { HasCleanDisk (state S.Store conn.new)
        → OnOk result (IsOffice (state S.Store conn.old).now.schema × IsDatabase (state S.Store conn.old).now) }
    ensures shown { HasCleanDisk (state S.Store conn.new)
        → IfOk result
        (λ xs. (rows : _) × Shown sql.now [] (state S.Store conn.old) (state S.Store conn.new) rows
        × Stores rows (map R.FromRow.stored (map Q.row_of xs.items))) }
    ensures read { IfOk result (λ xs. AllByRecursion Q.is_read xs.items) }
    ensures bad { HasCleanDisk (state S.Store conn.new) → result ≡ Err BadRow
        → IsTrue (state S.Store conn.new).is_open
        ×
        (IsOffice (state S.Store conn.new).now.schema
        → (rows : _) × Begins sql.now [] (state S.Store conn.new) rows
        × BeginNone R.FromRow.stored (λ row. (x : T) × Q.is_read x × (row ≡ Q.row_of x)) rows) }
{
    let mut gathered = Gathered {
        reader,
        values: Vec::new(alloc),
    };
    match each::<S, R, Gathered<'_, Q, T>>(alloc, conn, &mut gathered, sql) {
        Ok(()) => Ok(gathered.values),
        Err(fault) => Err(fault),
    }
}

/// The rows of `meta`. Each of these fails with `Store` where the store does, with `NoMemory` where memory runs out, and with
/// `BadRow` where the tables are not those of the office or a row cannot have been written here.
pub fn versions<S: Alter>(alloc: Global, conn: &mut Connection<S>) -> Result<Vec<i64>, RowsFault>
    requires { conn.old.in_transaction ≡ false }
    ensures found { HasCleanDisk (state S.Store conn.new)
        → IfOk result (λ xs. IsOffice (state S.Store conn.new).now.schema × Stores ((state S.Store conn.new).now.trees 0) (map stored_version xs.items)) }
    ensures answer { HasCleanDisk (state S.Store conn.new)
        → IfOk result (λ xs. (rows : RowsOf) → Holds (state S.Store conn.old) rows → IsPermutation rows.versions xs.items) }
    ensures asks { OnlyAsks (state S.Store conn.old) (state S.Store conn.new) }
    ensures same { HasCleanDisk (state S.Store conn.new)
        → OnOk result (Shows (state S.Store conn.old) (state S.Store conn.new) (state S.Store conn.old).now (state S.Store conn.old).now false) }
    ensures only { HasCleanDisk (state S.Store conn.new)
        → OnOk result ((rows : RowsOf) → Holds (state S.Store conn.new) rows → Holds (state S.Store conn.old) rows) }
    ensures bad { HasCleanDisk (state S.Store conn.new) → result ≡ Err BadRow → (rows : RowsOf) → Holds (state S.Store conn.old) rows → ⊥ }
{
    all::<S, i64, i64, WholeRows>(
        alloc,
        conn,
        &mut WholeRows,
        "SELECT rowid, version FROM meta",
    )
}

/// The origins of all zones, each as a reader reads it. `BadRow` also comes where a row is that of nothing that is read.
pub fn all_zones<S: Alter, T: Drop, Q: RowReader<ZoneRow, T>>(
    alloc: Global,
    conn: &mut Connection<S>,
    reader: &mut Q,
) -> Result<Vec<T>, RowsFault>
    requires { conn.old.in_transaction ≡ false }
    ensures found { HasCleanDisk (state S.Store conn.new) → IfOk result (λ xs. HasZones (state S.Store conn.new).now (map Q.row_of xs.items)) }
    ensures read { IfOk result (λ xs. AllByRecursion Q.is_read xs.items) }
    ensures answer { HasCleanDisk (state S.Store conn.new)
        → IfOk result (λ xs. (rows : RowsOf) → Holds (state S.Store conn.old) rows → IsPermutation rows.zones (map Q.row_of xs.items)) }
    ensures asks { OnlyAsks (state S.Store conn.old) (state S.Store conn.new) }
    ensures same { HasCleanDisk (state S.Store conn.new)
        → OnOk result (Shows (state S.Store conn.old) (state S.Store conn.new) (state S.Store conn.old).now (state S.Store conn.old).now false) }
    ensures only { HasCleanDisk (state S.Store conn.new)
        → OnOk result ((rows : RowsOf) → Holds (state S.Store conn.new) rows → Holds (state S.Store conn.old) rows) }
    ensures bad { HasCleanDisk (state S.Store conn.new) → result ≡ Err BadRow → (rows : RowsOf) → Holds (state S.Store conn.old) rows
        → AllByRecursion (λ row. (x : T) × Q.is_read x × (row ≡ Q.row_of x)) rows.zones → ⊥ }
{
    all::<S, ZoneRow, T, Q>(alloc, conn, reader, "SELECT rowid, origin FROM zones")
}

/// The records of all zones, each as a reader reads it. `BadRow` also comes where a row is that of nothing that is read.
pub fn all_records<S: Alter, T: Drop, Q: RowReader<RecordRow, T>>(
    alloc: Global,
    conn: &mut Connection<S>,
    reader: &mut Q,
) -> Result<Vec<T>, RowsFault>
    requires { conn.old.in_transaction ≡ false }
    ensures found { HasCleanDisk (state S.Store conn.new) → IfOk result (λ xs. HasRecords (state S.Store conn.new).now (map Q.row_of xs.items)) }
    ensures read { IfOk result (λ xs. AllByRecursion Q.is_read xs.items) }
    ensures answer { HasCleanDisk (state S.Store conn.new)
        → IfOk result (λ xs. (rows : RowsOf) → Holds (state S.Store conn.old) rows → IsPermutation rows.records (map Q.row_of xs.items)) }
    ensures asks { OnlyAsks (state S.Store conn.old) (state S.Store conn.new) }
    ensures same { HasCleanDisk (state S.Store conn.new)
        → OnOk result (Shows (state S.Store conn.old) (state S.Store conn.new) (state S.Store conn.old).now (state S.Store conn.old).now false) }
    ensures only { HasCleanDisk (state S.Store conn.new)
        → OnOk result ((rows : RowsOf) → Holds (state S.Store conn.new) rows → Holds (state S.Store conn.old) rows) }
    ensures bad { HasCleanDisk (state S.Store conn.new) → result ≡ Err BadRow → (rows : RowsOf) → Holds (state S.Store conn.old) rows
        → AllByRecursion (λ row. (x : T) × Q.is_read x × (row ≡ Q.row_of x)) rows.records → ⊥ }
{
    all::<S, RecordRow, T, Q>(
        alloc,
        conn,
        reader,
        "SELECT rowid, origin, owner, type, data, ttl, owner_key FROM records",
    )
}

/// All receipts, each as a reader reads it. `BadRow` also comes where a row is that of nothing that is read.
pub fn all_receipts<S: Alter, T: Drop, Q: RowReader<ReceiptRow, T>>(
    alloc: Global,
    conn: &mut Connection<S>,
    reader: &mut Q,
) -> Result<Vec<T>, RowsFault>
    requires { conn.old.in_transaction ≡ false }
    ensures found { HasCleanDisk (state S.Store conn.new) → IfOk result (λ xs. HasReceipts (state S.Store conn.new).now (map Q.row_of xs.items)) }
    ensures read { IfOk result (λ xs. AllByRecursion Q.is_read xs.items) }
    ensures answer { HasCleanDisk (state S.Store conn.new)
        → IfOk result (λ xs. (rows : RowsOf) → Holds (state S.Store conn.old) rows → IsPermutation rows.receipts (map Q.row_of xs.items)) }
    ensures asks { OnlyAsks (state S.Store conn.old) (state S.Store conn.new) }
    ensures same { HasCleanDisk (state S.Store conn.new)
        → OnOk result (Shows (state S.Store conn.old) (state S.Store conn.new) (state S.Store conn.old).now (state S.Store conn.old).now false) }
    ensures only { HasCleanDisk (state S.Store conn.new)
        → OnOk result ((rows : RowsOf) → Holds (state S.Store conn.new) rows → Holds (state S.Store conn.old) rows) }
    ensures bad { HasCleanDisk (state S.Store conn.new) → result ≡ Err BadRow → (rows : RowsOf) → Holds (state S.Store conn.old) rows
        → AllByRecursion (λ row. (x : T) × Q.is_read x × (row ≡ Q.row_of x)) rows.receipts → ⊥ }
{
    all::<S, ReceiptRow, T, Q>(alloc, conn, reader, RECEIPT_ROWS)
}

/// Has a check take all receipts, each of which goes as soon as it was taken. `BadRow` also comes where the check refuses a row.
pub fn each_receipt<S: Alter, C: RowCheck<ReceiptRow>>(
    alloc: Global,
    conn: &mut Connection<S>,
    check: &mut C,
) -> Result<(), RowsFault>
    requires { conn.old.in_transaction ≡ false }
    // It has taken all rows of the table, each once, in some order; and so those that were held.
    ensures found { OnOk result
        ((rows : List ReceiptRowOf) × TakesMore C.has_taken check.old check.new rows
        ×
        (HasCleanDisk (state S.Store conn.new)
        → HasReceipts (state S.Store conn.new).now rows
        × ((all : RowsOf) → Holds (state S.Store conn.old) all → IsPermutation all.receipts rows))) }
    // The key of the table is that of one row.
    ensures keys { HasCleanDisk (state S.Store conn.new)
        → OnOk result ((rows : List ReceiptRowOf) → HasReceipts (state S.Store conn.new).now rows → IsDistinct same_receipt_key rows) }
    ensures asks { OnlyAsks (state S.Store conn.old) (state S.Store conn.new) }
    ensures same { HasCleanDisk (state S.Store conn.new)
        → OnOk result (Shows (state S.Store conn.old) (state S.Store conn.new) (state S.Store conn.old).now (state S.Store conn.old).now false) }
    ensures only { HasCleanDisk (state S.Store conn.new)
        → OnOk result ((rows : RowsOf) → Holds (state S.Store conn.new) rows → Holds (state S.Store conn.old) rows) }
    ensures bad { HasCleanDisk (state S.Store conn.new) → result ≡ Err BadRow → (rows : RowsOf) → Holds (state S.Store conn.old) rows
        → AllByRecursion C.is_good rows.receipts → ⊥ }
{
    each::<S, ReceiptRow, C>(alloc, conn, check, RECEIPT_ROWS)
}

/// What all changes took away and brought, each as a reader reads it. `BadRow` also comes where a row is that of nothing that is read.
pub fn all_changes<S: Alter, T: Drop, Q: RowReader<ChangeRow, T>>(
    alloc: Global,
    conn: &mut Connection<S>,
    reader: &mut Q,
) -> Result<Vec<T>, RowsFault>
    requires { conn.old.in_transaction ≡ false }
    ensures found { HasCleanDisk (state S.Store conn.new) → IfOk result (λ xs. HasChanges (state S.Store conn.new).now (map Q.row_of xs.items)) }
    ensures read { IfOk result (λ xs. AllByRecursion Q.is_read xs.items) }
    ensures answer { HasCleanDisk (state S.Store conn.new)
        → IfOk result (λ xs. (rows : RowsOf) → Holds (state S.Store conn.old) rows → IsPermutation rows.changes (map Q.row_of xs.items)) }
    ensures asks { OnlyAsks (state S.Store conn.old) (state S.Store conn.new) }
    ensures same { HasCleanDisk (state S.Store conn.new)
        → OnOk result (Shows (state S.Store conn.old) (state S.Store conn.new) (state S.Store conn.old).now (state S.Store conn.old).now false) }
    ensures only { HasCleanDisk (state S.Store conn.new)
        → OnOk result ((rows : RowsOf) → Holds (state S.Store conn.new) rows → Holds (state S.Store conn.old) rows) }
    ensures bad { HasCleanDisk (state S.Store conn.new) → result ≡ Err BadRow → (rows : RowsOf) → Holds (state S.Store conn.old) rows
        → AllByRecursion (λ row. (x : T) × Q.is_read x × (row ≡ Q.row_of x)) rows.changes → ⊥ }
{
    all::<S, ChangeRow, T, Q>(
        alloc,
        conn,
        reader,
        "SELECT rowid, origin, number, side, owner, type, data, ttl FROM changes",
    )
}

/// All rows of the tables. It fails as each of the others does.
pub fn all_rows<S: Alter>(alloc: Global, conn: &mut Connection<S>) -> Result<AllRows, RowsFault>
    requires { conn.old.in_transaction ≡ false }
    // The connection holds them, and a crash leaves them.
    ensures found { HasCleanDisk (state S.Store conn.new)
        → IfOk result (λ all. Holds (state S.Store conn.new) all × Leaves (state S.Store conn.new) (λ db. AreRows db all)) }
    ensures answer { HasCleanDisk (state S.Store conn.new) → IfOk result (λ all. (rows : RowsOf) → Holds (state S.Store conn.old) rows → SameRows rows all) }
    ensures asks { OnlyAsks (state S.Store conn.old) (state S.Store conn.new) }
    ensures same { HasCleanDisk (state S.Store conn.new)
        → OnOk result (Shows (state S.Store conn.old) (state S.Store conn.new) (state S.Store conn.old).now (state S.Store conn.old).now false) }
    ensures only { HasCleanDisk (state S.Store conn.new)
        → OnOk result ((rows : RowsOf) → Holds (state S.Store conn.new) rows → Holds (state S.Store conn.old) rows) }
    ensures bad { HasCleanDisk (state S.Store conn.new) → result ≡ Err BadRow → (rows : RowsOf) → Holds (state S.Store conn.old) rows → ⊥ }
{
    let versions = versions(alloc, conn)?;
    let zones = all_zones(alloc, conn, &mut WholeRows)?;
    let records = all_records(alloc, conn, &mut WholeRows)?;
    let receipts = all_receipts(alloc, conn, &mut WholeRows)?;
    let changes = all_changes(alloc, conn, &mut WholeRows)?;
    Ok(AllRows {
        versions,
        zones,
        records,
        receipts,
        changes,
    })
}
