//! The job `export` of a zone as it was after one of its changes.

ghost use Rattle.std.specs.Prelude.{◌≡◌};
ghost use Rattle.std.specs.Result.{result_map_both};
ghost use Rattle.sqlite.specs.Held.{state};
ghost use Rattle.cli_text.specs.Canon.{zone_text_in};
ghost use Rattle.cli_store.specs.Reports.{IsShown};
ghost use Rattle.cli_store.specs.Stores.{stores_of};
ghost use Rattle.cli_store.specs.ZoneHistory.{history_in, records_after, IsOfHistory, ExportEnds, PastExported};

use crate::files::StoreFiles;
use crate::store_file::StorePath;
use crate::table_job::asked_by;
use crate::zone_history::{HistoryOf, ZoneHistory};
use crate::zones::export;
use cli_core::{Export, JobFault, LineFault, StoredZone, ZoneForm, ended, write_refusal};
use cli_text::{print_zone_in, read_name};
use dns_data::Record;
use dns_master::Sink;
use dns_names::Name;
use office_store::StoreFault;
use sqlite::{Alter, Connection};
use std::alloc::Global;
use std::marker::Brand;
use std::sync::ledger::Blank;

/// The records after the change of a number, of what was read, or the fault that was met.
fn past_of(
    alloc: Global,
    number: u64,
    read: Result<ZoneHistory, StoreFault>,
) -> Result<Vec<Record>, LineFault>
    ensures { IsOfHistory (records_after number) (result_map_both history_in (λ fault. fault) read)
        (result_map_both (λ rows. rows.items) (λ fault. fault) result) }
{
    let history = read?;
    history.records_after(alloc, number)
}

/// Prints records of an origin as a master file, in a form, or the line of the fault that was met. Where memory runs out, a line tells
/// it after what went out.
fn print_past<W: Sink>(
    alloc: Global,
    form: ZoneForm,
    origin: &Name,
    past: Result<Vec<Record>, LineFault>,
    writer: &mut W,
) -> Result<(), JobFault>
    ensures { IsShown (result_map_both (λ records. zone_text_in form origin.now records.items) (λ fault. fault) past) (W.contents writer.old)
        (W.contents writer.new) result (W.failures writer.old) (W.failures writer.new) }
{
    match past {
        Ok(records) => {
            let printed = print_zone_in(alloc, form, origin, &records, writer);
            ended(writer, printed)
        }
        Err(fault) => Err(write_refusal(alloc, writer, fault)),
    }
}

/// Prints a zone of the store of a path as it was after the change of a number, in a form; with 0, as it was imported. Otherwise a line
/// tells the refusal that comes first: of the origin, of the store, `NoZone`, or `NoChange`. The connection to the store is handed back,
/// if one was made.
pub fn export_at<W: Sink, S: Alter + Drop, P: StoreFiles<S> + Drop>(
    alloc: Global,
    files: P,
    stored: StoredZone<'_>,
    which: (u64, ZoneForm),
    writer: &mut W,
) -> (Option<Connection<S>>, Result<(), JobFault>)
    ensures { PastExported
        (stores_of (state S.Store) (P.finds files) (P.refuses files)
        (P.connects files)) stored.entry.store.now stored.entry.origin.now which.0 which.1 result.0 (W.contents writer.old)
        (W.contents writer.new) result.1 (W.failures writer.old) (W.failures writer.new) }
{
    let (number, form) = which;
    match read_name(alloc, stored.origin) {
        Ok(origin) => {
            let (path, blank) = (StorePath(stored.store), Blank::new(1));
            let (conn, read) = asked_by::<S, Brand, P, _, _>(
                alloc,
                files,
                path,
                &HistoryOf(&origin),
                blank,
            );
            let past = past_of(alloc, number, read);
            (conn, print_past(alloc, form, &origin, past, writer))
        }
        Err(fault) => (None, Err(write_refusal(alloc, writer, fault))),
    }
}

/// Prints a zone of a store, as it is or as it was after a change.
pub(crate) fn export_by<W: Sink, S: Alter + Drop, P: StoreFiles<S> + Drop>(
    alloc: Global,
    files: P,
    words: Export<'_>,
    writer: &mut W,
) -> (Option<Connection<S>>, Result<(), JobFault>)
    ensures { ExportEnds
        (stores_of (state S.Store) (P.finds files) (P.refuses files) (P.connects files)) words.entry.zone.store.now words.entry.zone.origin.now
        words.entry.at words.entry.form result.0 (W.contents writer.old) (W.contents writer.new) result.1 (W.failures writer.old)
        (W.failures writer.new) }
{
    match words.at {
        None => export(alloc, files, words.zone, words.form, writer),
        Some(number) => export_at(alloc, files, words.zone, (number, words.form), writer),
    }
}
