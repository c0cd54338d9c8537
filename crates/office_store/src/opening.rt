//! The making of the tables, and the test whether those that are there hold a state.

ghost use Rattle.std.specs.Prelude.{◌≡◌, ◌≢◌, ◌⊎◌, ◌↔◌, List, [], ◌∷◌, map, pos, false, Err, IfOk, IfErr, IfSome, OnOk, OnErr};
ghost use Rattle.std.specs.List.{AllByRecursion};
ghost use Rattle.std.specs.List.Sorted.{IsPermutation};
ghost use Rattle.sqlite.specs.Held.{state};
ghost use Rattle.sqlite.specs.State.{HasCleanDisk};
ghost use Rattle.office_model.specs.States.{State};
ghost use Rattle.store_sql.specs.Holds.{Holds, Keeps, Leaves};
ghost use Rattle.store_sql.specs.Rows.{ChangeRowOf, RowsOf};
ghost use Rattle.store_sql.specs.Tables.{no_schema, IsOffice};
ghost use Rattle.store_rows.specs.Batches.{nothing_held};
ghost use Rattle.store_faults.specs.declared.store_fault.StoreFault.TheVariants.{BadRow, WrongVersion};
ghost use Rattle.store_faults.specs.StoreFaults.{IsFailure, IsOfRows, of_found};
ghost use Rattle.store_rows.specs.RowRefusals.{of_check};
ghost use Rattle.store_rows.specs.ChangeRows.{IsChanged, gathered, opened, placed, row_of};
ghost use Rattle.store_rows.specs.ReadChanges.{Tells};
ghost use Rattle.store_cache.specs.History.{KnowsAll, Remembers};
ghost use Rattle.zone_core.specs.Changes.{ChangeOf};
ghost use Rattle.store_rows.specs.Checks.{Checks, AreOrigins, AreRecordsOf, AreChangesOf, AreReceiptRows, AreStateRows};
ghost use Rattle.office_store.specs.Cache.{IsZoneIn};
ghost use Rattle.office_store.specs.Opening.{IsCheck, IsNow, AreRemembered, HasOrigins, VersionIn, OriginsIn, RecordsFound, ChangesFound, ReceiptsIn, StateFound};
ghost use Rattle.office_store.specs.Holds.{HoldsState, HasNone, HasVersion, IsOfVersion, IsStateIn, LeavesStates};
ghost use Rattle.office_store.specs.Queries.{Asked, AsksOnly};

use crate::queries::check_open;
use dns_names::Name;
use sqlite::{Alter, Connection};
use std::alloc::{AllocError, Global};
use std::sync::ledger::Blank;
use store_cache::ZoneHistory;
use store_faults::StoreFault;
use store_rows::state::is_alone;
use store_rows::{
    ChangeReader, ChangedRecord, OriginReader, ReceiptReader, RecordReader, RowFault, ZoneChanges,
    checked_origins,
};
use store_sql::{
    RowsFault, all_changes, all_records, all_zones, each_receipt, has_no_tables, has_tables,
    make_tables, versions,
};
use zone_core::Zone;

/// The version of the tables, in the one row of `meta`.
const VERSION: i64 = 2;

/// Why there is no table over a connection. What was handed in for it is handed back.
#[derive(Drop)]
pub struct Refused<S: Alter + Drop> {
    pub fault: StoreFault,
    pub conn: Connection<S>,
    /// The ledger for the count of failures.
    pub blank: Blank,
}

/// What the check of a state reads on its way, and a table keeps in memory.
#[derive(Drop)]
pub(crate) struct Checked {
    /// The largest zone.
    pub(crate) largest: Option<Zone>,
    /// What the changes touch of the zone with the most rows of them.
    pub(crate) history: Option<ZoneHistory>,
}

/// Makes the tables, which hold nothing, in a database without tables.
pub(crate) fn make<S: Alter>(conn: &mut Connection<S>) -> Result<(), StoreFault>
    requires { conn.old.in_transaction ≡ false }
    ensures made { OnOk result (HoldsState (state S.Store conn.new) nothing_held) }
    ensures kept { OnOk result (LeavesStates (state S.Store conn.new) nothing_held nothing_held) }
    ensures wrong { (result ≡ Err WrongVersion) ↔ ((state S.Store conn.old).now.schema ≢ no_schema) }
    ensures same { result ≡ Err WrongVersion → conn.new ≡ conn.old }
    ensures named { IfErr result (λ e. e ≢ WrongVersion → IsFailure e) }
    ensures failed { IfErr result (λ e. e ≢ WrongVersion → HasNone (state S.Store conn.new)) }
    ensures crash { OnErr result (Leaves (state S.Store conn.new) (λ db. (state S.Store conn.old).may_leave db ⊎ IsStateIn db nothing_held)) }
    ensures honest { HasCleanDisk (state S.Store conn.new) → HasCleanDisk (state S.Store conn.old) }
    ensures ended { conn.new.in_transaction ≡ false }
{
    if !has_no_tables(conn) {
        return Err(StoreFault::WrongVersion);
    }
    make_tables(conn, VERSION)?;
    Ok(())
}

/// What a fault says of rows that somebody else may have written.
pub(crate) fn found(fault: RowsFault) -> StoreFault
    ensures { result ≡ of_found fault }
{
    match fault {
        RowsFault::Store(cause) => StoreFault::Store(cause),
        RowsFault::BadRow => StoreFault::BadRow,
        RowsFault::NoMemory => StoreFault::NoMemory,
    }
}

/// Tells whether an open connection shows the tables.
fn check_tables<S: Alter>(conn: &mut Connection<S>) -> Result<(), StoreFault>
    requires { conn.old.in_transaction ≡ false }
    ensures tables { OnOk result (IsOffice (state S.Store conn.old).now.schema) }
    ensures same { OnOk result (conn.new ≡ conn.old) }
    ensures wrong { result ≡ Err WrongVersion → ¬ IsOffice (state S.Store conn.old).now.schema }
    ensures good { HasCleanDisk (state S.Store conn.new) → IfErr result (λ e. (rows : RowsOf) → Holds (state S.Store conn.old) rows → IsFailure e) }
    ensures named { IfErr result (λ e. (e ≡ WrongVersion) ⊎ IsFailure e) }
    ensures asked { Asked (state S.Store conn.old) (state S.Store conn.new) }
    ensures shown { Keeps (state S.Store conn.old) (state S.Store conn.new) }
    ensures ended { conn.new.in_transaction ≡ false }
{
    if has_tables(conn) {
        return Ok(());
    }
    // what a connection that is shut shows says nothing of its tables
    check_open(conn)?;
    Err(StoreFault::WrongVersion)
}

/// Tells whether the connection shows the tables of a version.
pub(crate) fn check_version<S: Alter>(
    alloc: Global,
    conn: &mut Connection<S>,
    version: i64,
) -> Result<(), StoreFault>
    requires { conn.old.in_transaction ≡ false }
    ensures version { HasCleanDisk (state S.Store conn.new) → OnOk result (IsOfVersion version (state S.Store conn.old)) }
    ensures wrong { HasCleanDisk (state S.Store conn.new) → result ≡ Err WrongVersion → ¬ IsOfVersion version (state S.Store conn.old) }
    ensures tables { OnOk result (IsOffice (state S.Store conn.old).now.schema) }
    ensures good { HasCleanDisk (state S.Store conn.new)
        → IfErr result (λ e. (rows : RowsOf) → IsPermutation (version ∷ []) rows.versions → Holds (state S.Store conn.old) rows → IsFailure e) }
    ensures named { IfErr result (λ e. (e ≡ WrongVersion) ⊎ IsFailure e) }
    ensures asks { AsksOnly (state S.Store conn.old) (state S.Store conn.new) result }
    ensures shown { Keeps (state S.Store conn.old) (state S.Store conn.new) }
    ensures ended { conn.new.in_transaction ≡ false }
{
    check_tables(conn)?;
    let versions = versions(alloc, conn)?;
    if !is_alone(version, &versions) {
        return Err(StoreFault::WrongVersion);
    }
    Ok(())
}

/// What a check says of rows that somebody else may have written.
fn of_check<T: Drop>(check: Result<T, RowFault>) -> Result<T, StoreFault>
    ensures { result ≡ of_check check }
{
    match check {
        Ok(value) => Ok(value),
        Err(RowFault::BadRow) => Err(StoreFault::BadRow),
        Err(RowFault::NoMemory) => Err(StoreFault::NoMemory),
    }
}

/// Checks rows of `meta`. They are `BadRow` where there is not one, which has the version.
fn check_versions(versions: &[i64]) -> Result<(), RowFault>
    ensures { Checks (IsNow versions.now) result }
{
    if is_alone(VERSION, versions) {
        return Ok(());
    }
    Err(RowFault::BadRow)
}

/// Checks the rows of `meta`.
fn check_meta<S: Alter>(alloc: Global, conn: &mut Connection<S>) -> Result<(), StoreFault>
    requires { conn.old.in_transaction ≡ false }
    ensures { IsCheck (state S.Store conn.old) (state S.Store conn.new) result (λ _ db. VersionIn db) (λ rows. IsNow rows.versions) }
{
    match versions(alloc, conn) {
        Ok(rows) => of_check(check_versions(&rows)),
        Err(fault) => Err(found(fault)),
    }
}

/// Checks the rows of `zones`, and reads their origins, in canonical order.
fn check_zones<S: Alter>(alloc: Global, conn: &mut Connection<S>) -> Result<Vec<Name>, StoreFault>
    requires { conn.old.in_transaction ≡ false }
    ensures check { IsCheck (state S.Store conn.old) (state S.Store conn.new) result (λ origins db. OriginsIn origins.items db)
        (λ rows. HasOrigins rows.zones) }
    ensures origins { IfOk result (λ origins. AreOrigins origins.items) }
{
    match all_zones(alloc, conn, &mut OriginReader) {
        Ok(origins) => of_check(checked_origins(origins)),
        Err(fault) => Err(found(fault)),
    }
}

/// Checks the rows of `records`, which are to be of zones of these origins, and reads the largest of these.
fn check_records<S: Alter>(
    alloc: Global,
    conn: &mut Connection<S>,
    origins: &[Name],
) -> Result<Option<Zone>, StoreFault>
    requires alone { conn.old.in_transaction ≡ false }
    requires origins { AreOrigins origins.now }
    ensures { IsCheck (state S.Store conn.old) (state S.Store conn.new) result (λ found db. RecordsFound origins.now found db)
        (λ rows. AreRecordsOf origins.now rows.records) }
{
    let read = all_records(alloc, conn, &mut RecordReader::new());
    match read {
        Ok(records) => of_check(store_rows::check_records(alloc, origins, records)),
        Err(fault) => Err(found(fault)),
    }
}

/// Goes on to the change of a number, where that is not the last one. The only error is out of memory.
fn open_change(alloc: Global, history: &mut ZoneHistory, number: u64) -> Result<(), AllocError>
    ensures origin { history.new.origin ≡ history.old.origin }
    ensures opened { OnOk result ((cs : List ChangeOf) → KnowsAll history.old cs → KnowsAll history.new (opened cs number)) }
{
    if (history.count() as u64) < number {
        return history.begin_change(alloc);
    }
    Ok(())
}

/// Notes what one more row of `changes` has, after those before it. The only error is out of memory.
fn note(alloc: Global, history: &mut ZoneHistory, changed: &ChangedRecord) -> Result<(), AllocError>
    ensures origin { history.new.origin ≡ history.old.origin }
    ensures placed { OnOk result ((cs : List ChangeOf) → KnowsAll history.old cs → KnowsAll history.new (placed cs changed.now)) }
{
    open_change(alloc, history, changed.number)?;
    history.note(alloc, &changed.changed)
}

/// Notes what the changes of a zone have. The only error is out of memory.
fn note_all(
    alloc: Global,
    history: &mut ZoneHistory,
    changed: &[ChangedRecord],
) -> Result<(), AllocError>
    ensures origin { history.new.origin ≡ history.old.origin }
    ensures gathered { OnOk result (KnowsAll history.old [] → KnowsAll history.new (gathered changed.now)) }
{
    for one in changed {
        note(alloc, history, one)?;
    }
    Ok(())
}

/// What the changes of a zone touch. The only error is out of memory.
fn history_of(alloc: Global, zone: &ZoneChanges) -> Result<ZoneHistory, AllocError>
    ensures origin { IfOk result (λ history. history.origin ≡ zone.now.origin) }
    ensures all { IfOk result (λ history. KnowsAll history (gathered zone.now.changed.items)) }
{
    let mut history = ZoneHistory::new(alloc, &zone.origin)?;
    note_all(alloc, &mut history, &zone.changed)?;
    Ok(history)
}

/// What the changes touch that were read of a zone, if some were, and there is memory.
fn remembered(alloc: Global, longest: Option<ZoneChanges>) -> Option<ZoneHistory>
    ensures { (rows : List ChangeRowOf) → IfSome longest (Tells rows) → AreRemembered rows result }
{
    let Some(zone) = longest else {
        return None;
    };
    match history_of(alloc, &zone) {
        Ok(history) => Some(history),
        Err(_) => None,
    }
}

/// Checks what the rows of `changes` are read as, which are to be of zones of these origins, and remembers what those of the zone with the
/// most rows touch.
fn checked_history(
    alloc: Global,
    origins: &[Name],
    changes: Vec<ChangedRecord>,
) -> Result<Option<ZoneHistory>, RowFault>
    requires origins { AreOrigins origins.now }
    requires changes { AllByRecursion IsChanged changes.items }
    ensures check { Checks (AreChangesOf origins.now (map row_of changes.items)) result }
    ensures history { IfOk result (AreRemembered (map row_of changes.items)) }
{
    let longest = store_rows::check_changes(alloc, origins, changes)?;
    Ok(remembered(alloc, longest))
}

/// Checks the rows of `changes`, which are to be of zones of these origins, and remembers what those of the zone with the most rows touch.
fn check_changes<S: Alter>(
    alloc: Global,
    conn: &mut Connection<S>,
    origins: &[Name],
) -> Result<Option<ZoneHistory>, StoreFault>
    requires alone { conn.old.in_transaction ≡ false }
    requires origins { AreOrigins origins.now }
    ensures { IsCheck (state S.Store conn.old) (state S.Store conn.new) result (λ history db. ChangesFound origins.now history db)
        (λ rows. AreChangesOf origins.now rows.changes) }
{
    let read = all_changes(alloc, conn, &mut ChangeReader::new());
    match read {
        Ok(changes) => of_check(checked_history(alloc, origins, changes)),
        Err(fault) => Err(found(fault)),
    }
}

/// Checks the rows of `receipts`, each of which goes as soon as it was checked.
fn check_receipts<S: Alter>(alloc: Global, conn: &mut Connection<S>) -> Result<(), StoreFault>
    requires { conn.old.in_transaction ≡ false }
    ensures { IsCheck (state S.Store conn.old) (state S.Store conn.new) result (λ _ db. ReceiptsIn db) (λ rows. AreReceiptRows rows.receipts) }
{
    match each_receipt(alloc, conn, &mut ReceiptReader::new()) {
        Ok(()) => Ok(()),
        Err(fault) => Err(found(fault)),
    }
}

/// Checks the rows of all tables, one table after the other: the rows of one are gone before the next one is asked for.
fn check_each<S: Alter>(alloc: Global, conn: &mut Connection<S>) -> Result<Checked, StoreFault>
    requires { conn.old.in_transaction ≡ false }
    ensures { IsCheck (state S.Store conn.old) (state S.Store conn.new) result (λ found db. StateFound found db) (AreStateRows (pos 2)) }
{
    check_meta(alloc, conn)?;
    let origins = check_zones(alloc, conn)?;
    let largest = check_records(alloc, conn, &origins)?;
    let history = check_changes(alloc, conn, &origins)?;
    check_receipts(alloc, conn)?;
    Ok(Checked { largest, history })
}

/// Tells whether the rows that the connection shows are a state.
fn check_rows<S: Alter>(alloc: Global, conn: &mut Connection<S>) -> Result<Checked, StoreFault>
    requires { conn.old.in_transaction ≡ false }
    ensures found { HasCleanDisk (state S.Store conn.new)
        → IfOk result
        (λ found. (s : State) × HoldsState (state S.Store conn.new) s × LeavesStates (state S.Store conn.new) s s
        × IsZoneIn s found.largest × Remembers s found.history) }
    ensures good { HasCleanDisk (state S.Store conn.new) → IfErr result (λ e. (s : State) → HoldsState (state S.Store conn.old) s → IsFailure e) }
    ensures named { IfErr result IsOfRows }
    ensures asks { AsksOnly (state S.Store conn.old) (state S.Store conn.new) result }
    ensures shown { Keeps (state S.Store conn.old) (state S.Store conn.new) }
    ensures ended { conn.new.in_transaction ≡ false }
{
    check_each(alloc, conn)
}

/// Tells whether the connection shows the tables of this version, with the rows of a state, and reads what a table keeps in memory.
pub(crate) fn check_state<S: Alter>(
    alloc: Global,
    conn: &mut Connection<S>,
) -> Result<Checked, StoreFault>
    requires { conn.old.in_transaction ≡ false }
    ensures found { HasCleanDisk (state S.Store conn.new)
        → IfOk result
        (λ found. (s : State) × HoldsState (state S.Store conn.new) s × LeavesStates (state S.Store conn.new) s s
        × IsZoneIn s found.largest × Remembers s found.history) }
    ensures good { HasCleanDisk (state S.Store conn.new) → IfErr result (λ e. (s : State) → HoldsState (state S.Store conn.old) s → IsFailure e) }
    ensures wrong { HasCleanDisk (state S.Store conn.new) → result ≡ Err WrongVersion → ¬ HasVersion (state S.Store conn.old) }
    ensures bad { HasCleanDisk (state S.Store conn.new) → result ≡ Err BadRow → HasVersion (state S.Store conn.old) }
    ensures tables { result ≡ Err BadRow → IsOffice (state S.Store conn.old).now.schema }
    ensures named { IfErr result (λ e. (e ≡ WrongVersion) ⊎ IsOfRows e) }
    ensures asks { AsksOnly (state S.Store conn.old) (state S.Store conn.new) result }
    ensures shown { Keeps (state S.Store conn.old) (state S.Store conn.new) }
    ensures ended { conn.new.in_transaction ≡ false }
{
    check_version(alloc, conn, VERSION)?;
    check_rows(alloc, conn)
}
