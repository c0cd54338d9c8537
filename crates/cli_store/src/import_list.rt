//! Putting the zones of a list into a store, one after the other.

ghost use Rattle.std.specs.Prelude.{◌≡◌, ◌<◌, true, is_some, map, IfOk, IfErr, Some, string_bytes};
ghost use Rattle.std.specs.Result.{result_map_both};
ghost use Rattle.sqlite.specs.Held.{state};
ghost use Rattle.sqlite.specs.State.{HasCleanDisk};
ghost use Rattle.office_model.specs.States.{State};
ghost use Rattle.store_faults.specs.StoreFaults.{IsFailure};
ghost use Rattle.office_store.specs.Holds.{HoldsState};
ghost use Rattle.cli_core.specs.declared.job.Existing.TheVariants.{Kept};
ghost use Rattle.cli_core.specs.LineFaults.{GivesOf};
ghost use Rattle.cli_store.specs.Stores.{stores_of};
ghost use Rattle.cli_store.specs.ZoneFiles.{zone_file_view, zone_files_read};
ghost use Rattle.cli_store.specs.ImportList.{kept_line, Stays, IsPutFrom, Passes, IsPassedBy, ArePut, ArePutInto, TextImported, ListImported};

use crate::files::StoreFiles;
use crate::store_file::StorePath;
use crate::surroundings::{NamedFile, Surroundings};
use crate::table_job::TableJob;
use crate::zone_files::{ZoneFile, zone_files_in};
use crate::zones::{ZonePut, line_of, reached, report, zone_with_line};
use cli_core::{Existing, ImportList, Input, JobFault, LineFault, read_input, write_refusal};
use dns_master::Sink;
use dns_names::Name;
use office_model::{TableFault, ZoneTable};
use office_store::{SqlTable, StoreFault};
use sqlite::{Alter, Connection, Error as StoreError, ErrorCode};
use std::alloc::{AllocError, Global};
use std::marker::Brand;
use std::sync::ledger::{Blank, Ledger};

/// Why the store failed, by what the table noted of it.
fn cause_of(noted: Option<StoreFault>) -> StoreFault
    ensures { IsFailure result }
{
    match noted {
        Some(StoreFault::Store(cause)) => StoreFault::Store(cause),
        _ => StoreFault::Store(StoreError::SqliteFailure(ErrorCode::SystemIoFailure)),
    }
}

/// Whether a table has the zone of an origin. `Store` comes where the store fails, and `NoMemory` where memory runs out.
fn has_zone<S: Alter + Drop, L: Ledger>(
    alloc: Global,
    table: &mut SqlTable<S, L>,
    origin: &Name,
) -> Result<bool, StoreFault>
    ensures there { HasCleanDisk (state S.Store table.new.conn)
        → IfOk result (λ found. (s : State) → HoldsState (state S.Store table.old.conn) s → is_some (s.zones origin.now) ≡ found) }
    ensures named { IfErr result IsFailure }
    ensures same { Stays (state S.Store table.old.conn) (state S.Store table.new.conn) }
{
    match table.has_zone(alloc, origin) {
        Ok(found) => Ok(found),
        Err(TableFault::NoMemory) => Err(StoreFault::NoMemory),
        Err(TableFault::Store) => Err(cause_of(table.store_fault())),
    }
}

/// Whether a zone stays: none is to be replaced, and there is one of its origin.
fn stays<S: Alter + Drop, L: Ledger>(
    alloc: Global,
    existing: Existing,
    table: &mut SqlTable<S, L>,
    origin: &Name,
) -> Result<bool, StoreFault>
    ensures kept { IfOk result (λ kept. kept ≡ true → existing ≡ Kept) }
    ensures there { HasCleanDisk (state S.Store table.new.conn)
        → IfOk result (λ kept. existing ≡ Kept → (s : State) → HoldsState (state S.Store table.old.conn) s → is_some (s.zones origin.now) ≡ kept) }
    ensures named { IfErr result IsFailure }
    ensures same { Stays (state S.Store table.old.conn) (state S.Store table.new.conn) }
{
    match existing {
        Existing::Kept => has_zone(alloc, table, origin),
        Existing::Replaced => Ok(false),
    }
}

/// The line of a zone that stays. The only error is out of memory.
fn kept_text(alloc: Global, origin: &Name) -> Result<String, AllocError>
    ensures { IfOk result (λ text. string_bytes text ≡ kept_line origin.now) }
{
    format!(in alloc; "kept {origin}\n")
}

/// Reads the file of a zone, builds the zone, and puts it into a table. The zone is dropped before its line is given back.
fn put_file<M: Surroundings, S: Alter + Drop, L: Ledger>(
    around: &M,
    existing: Existing,
    zone: &ZoneFile<'_>,
    table: &mut SqlTable<S, L>,
) -> Result<String, LineFault>
    ensures { IsPutFrom (M.around around.now) existing (zone_file_view zone.now) (state S.Store table.old.conn) (state S.Store table.new.conn)
        (result_map_both (λ text. string_bytes text) (λ fault. fault) result) }
{
    let alloc = around.alloc();
    let path = zone.path;
    let mut file = NamedFile { around, path };
    let (it, line) = zone_with_line(alloc, zone.word, &mut file)?;
    let put = ZonePut {
        zone: &it,
        existing,
    };
    line_of(put.run(alloc, table), line)
}

/// Passes a zone of a list: it stays, or is put into a table.
fn pass<M: Surroundings, S: Alter + Drop, L: Ledger>(
    around: &M,
    existing: Existing,
    zone: &ZoneFile<'_>,
    table: &mut SqlTable<S, L>,
) -> Result<String, LineFault>
    ensures { Passes (M.around around.now) existing (zone_file_view zone.now) (state S.Store table.old.conn) (state S.Store table.new.conn)
        (result_map_both (λ text. string_bytes text) (λ fault. fault) result) }
{
    let alloc = around.alloc();
    let kept = stays(alloc, existing, table, &zone.origin)?;
    if kept {
        let line = kept_text(alloc, &zone.origin)?;
        return Ok(line);
    }
    put_file(around, existing, zone, table)
}

/// Says on standard error which zone of a list was not passed.
fn complain_at<M: Surroundings>(around: &M, zone: &ZoneFile<'_>) {
    let (origin, path) = (zone.word, zone.path);
    if let Ok(words) = format!(in around.alloc(); "zoneoffice: stopped at {origin} {path}") {
        around.say(words.as_str());
    }
}

/// Passes a zone of a list, and writes its line, or the one of the fault.
fn pass_told<M: Surroundings, S: Alter + Drop, L: Ledger, W: Sink>(
    around: &M,
    existing: Existing,
    zone: &ZoneFile<'_>,
    table: &mut SqlTable<S, L>,
    writer: &mut W,
) -> Result<(), JobFault>
    ensures { IsPassedBy (M.around around.now) existing (zone_file_view zone.now) (state S.Store table.old.conn) (state S.Store table.new.conn)
        (record { old = W.contents writer.old; new = W.contents writer.new; before = W.failures writer.old; after = W.failures writer.new }) result }
{
    let made = pass(around, existing, zone, table);
    if made.is_err() {
        complain_at(around, zone);
    }
    report(around.alloc(), writer, made)
}

/// Puts the zones of a list into a table, in order, up to the first that is refused.
fn put_all<M: Surroundings, S: Alter + Drop, L: Ledger, W: Sink>(
    around: &M,
    existing: Existing,
    zones: &[ZoneFile<'_>],
    table: &mut SqlTable<S, L>,
    writer: &mut W,
) -> Result<(), JobFault>
    ensures { ArePut (state S.Store) (M.around around.now) existing (map zone_file_view zones.now) table.old.conn table.new.conn
        (record { old = W.contents writer.old; new = W.contents writer.new; before = W.failures writer.old; after = W.failures writer.new }) result }
{
    for zone in zones {
        pass_told(around, existing, zone, table, writer)?;
    }
    Ok(())
}

/// Puts the zones of a list into the table of a store, and hands its connection back.
fn put_opened<M: Surroundings, S: Alter + Drop, L: Ledger, W: Sink>(
    around: &M,
    existing: Existing,
    zones: &[ZoneFile<'_>],
    table: SqlTable<S, L>,
    writer: &mut W,
) -> (Connection<S>, Result<(), JobFault>)
    ensures { ArePut (state S.Store) (M.around around.now) existing (map zone_file_view zones.now) table.conn result.0
        (record { old = W.contents writer.old; new = W.contents writer.new; before = W.failures writer.old; after = W.failures writer.new }) result.1 }
{
    let mut table = table;
    let done = put_all(around, existing, zones, &mut table, writer);
    (table.into_connection(), done)
}

/// Puts the zones of a list into the store that words name, by a ledger for the table's failures. The connection to the store is handed
/// back, if one was made.
fn put_by<M: Surroundings, S: Alter + Drop, L: Ledger, P: StoreFiles<S> + Drop, W: Sink>(
    around: &M,
    files: P,
    words: ImportList<'_>,
    zones: &[ZoneFile<'_>],
    blank: Blank,
    writer: &mut W,
) -> (Option<Connection<S>>, Result<(), JobFault>)
    requires name { blank.name ≡ L.name }
    requires parts { blank.parts ≡ L.parts }
    requires some { 0 < blank.parts }
    ensures { ArePutInto (stores_of (state S.Store) (P.finds files) (P.refuses files) (P.connects files)) words.entry.store.now (M.around around.now)
        words.entry.existing (map zone_file_view zones.now) result.0
        (record { old = W.contents writer.old; new = W.contents writer.new; before = W.failures writer.old; after = W.failures writer.new }) result.1 }
{
    let alloc = around.alloc();
    let reached: Result<SqlTable<S, L>, _> = reached(
        alloc,
        files,
        words.store,
        words.existing,
        blank,
    );
    match reached {
        Ok(table) => {
            let (conn, done) = put_opened(around, words.existing, zones, table, writer);
            (Some(conn), done)
        }
        Err(unreached) => {
            let fault = LineFault::from(unreached.fault);
            (unreached.conn, Err(write_refusal(alloc, writer, fault)))
        }
    }
}

/// Puts the zones of a text into the store that words name.
fn import_text<M: Surroundings, S: Alter + Drop, P: StoreFiles<S> + Drop, W: Sink>(
    around: &M,
    files: P,
    words: ImportList<'_>,
    text: &[u8],
    writer: &mut W,
) -> (Option<Connection<S>>, Result<(), JobFault>)
    ensures { TextImported (M.around around.now) (stores_of (state S.Store) (P.finds files) (P.refuses files) (P.connects files)) words.entry text.now result.0
        (record { old = W.contents writer.old; new = W.contents writer.new; before = W.failures writer.old; after = W.failures writer.new }) result.1 }
{
    let alloc = around.alloc();
    match zone_files_in(alloc, text) {
        Ok(zones) => {
            let blank = Blank::new(1);
            put_by::<M, S, Brand, P, W>(around, files, words, &zones, blank, writer)
        }
        Err(fault) => (None, Err(write_refusal(alloc, writer, fault))),
    }
}

/// Puts the zones of a list into the store that words name, which is opened once, and made if it is missing and nothing is to be
/// replaced. The list is read first: a zone on each line, by its origin and the path of its file. Then comes zone after zone, in the order of
/// the list, each in a transaction of its own, and with a line of its own once it is put. A zone whose origin is in the store stays, if none
/// is to be replaced, and its file is not read; so the same list, after it was cut off, goes on where it was. The first refusal ends the
/// work with its line: of the list, of the store, of the file of a zone, of its records, and then `NoZone` and `SerialNotGreater`. The
/// zones before it stay put. One zone at a time is in memory. The connection to the store is handed back, if one was made.
pub fn import_all<M: Surroundings, S: Alter + Drop, P: StoreFiles<S> + Drop, I: Input, W: Sink>(
    around: &M,
    files: P,
    words: ImportList<'_>,
    list: &mut I,
    writer: &mut W,
) -> (Option<Connection<S>>, Result<(), JobFault>)
    ensures { ListImported (M.around around.now) (stores_of (state S.Store) (P.finds files) (P.refuses files) (P.connects files)) words.entry
        (record { left = I.left list.old; fine = I.fine list.old list.new; failed = I.failed list.old list.new }) result.0
        (record { old = W.contents writer.old; new = W.contents writer.new; before = W.failures writer.old; after = W.failures writer.new }) result.1 }
{
    let alloc = around.alloc();
    match read_input(alloc, list) {
        Ok(text) => import_text(around, files, words, &text, writer),
        Err(fault) => (None, Err(write_refusal(alloc, writer, fault))),
    }
}
