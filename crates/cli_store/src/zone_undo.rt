//! The job `undo`: the items that undo changes of a zone of a store.

ghost use Rattle.std.specs.Prelude.{◌≡◌, string_bytes};
ghost use Rattle.std.specs.Result.{result_map_both};
ghost use Rattle.sqlite.specs.Held.{state};
ghost use Rattle.cli_core.specs.LineFaults.{Gives};
ghost use Rattle.cli_store.specs.Stores.{stores_of};
ghost use Rattle.cli_store.specs.ZoneHistory.{history_in, undo_between, undo_text, IsOfHistory, UndoPrinted};

use crate::files::StoreFiles;
use crate::store_file::StorePath;
use crate::table_job::asked_by;
use crate::zone_history::{HistoryOf, ZoneHistory};
use crate::zones::report;
use cli_core::{GuardScope, ItemForm, JobFault, LineFault, Refusal, Undo, write_refusal};
use cli_text::read_name;
use cli_updates::items_between;
use dns_master::Sink;
use dns_names::Name;
use office_store::StoreFault;
use sqlite::{Alter, Connection};
use std::alloc::Global;
use std::marker::Brand;
use std::sync::ledger::Blank;

/// The items that lead from the zone after the last of some changes to the zone before the first, by their numbers.
fn undo_between(
    alloc: Global,
    origin: &Name,
    history: &ZoneHistory,
    first: u64,
    last: u64,
) -> Result<String, LineFault>
    ensures { Gives string_bytes result (undo_between first last origin.now (history_in history.now)) }
{
    if first == 0 || last < first {
        return Err(LineFault::Refused(Refusal::NoChange));
    }
    let old = history.zone_after(alloc, origin, last)?;
    let new = history.zone_after(alloc, origin, first - 1)?;
    let form = ItemForm::Guarded(GuardScope::Sets);
    Ok(items_between(alloc, form, &old, &new)?)
}

/// The items that undo the changes that words ask for, of the zone of an origin.
fn undo_text(
    alloc: Global,
    origin: &Name,
    history: &ZoneHistory,
    words: Undo<'_>,
) -> Result<String, LineFault>
    ensures { Gives string_bytes result (undo_text words.entry.first words.entry.last origin.now (history_in history.now)) }
{
    let first = words.first.unwrap_or(history.changes.len() as u64);
    let last = words.last.unwrap_or(first);
    undo_between(alloc, origin, history, first, last)
}

/// The text of what was read, or the fault that was met.
fn text_of(
    alloc: Global,
    origin: &Name,
    words: Undo<'_>,
    read: Result<ZoneHistory, StoreFault>,
) -> Result<String, LineFault>
    ensures { IsOfHistory (undo_text words.entry.first words.entry.last origin.now) (result_map_both history_in (λ fault. fault) read)
        (result_map_both (λ text. string_bytes text) (λ fault. fault) result) }
{
    let history = read?;
    undo_text(alloc, origin, &history, words)
}

/// Prints the items that undo changes of a zone of the store of a path: prerequisites that the record sets that they changed are as the
/// last of them left them, and operations that make them as they were before the first. Otherwise a line tells the refusal that comes
/// first: of the origin, of the store, `NoZone`, or `NoChange`. The connection to the store is handed back, if one was made.
pub fn undo<W: Sink, S: Alter + Drop, P: StoreFiles<S> + Drop>(
    alloc: Global,
    files: P,
    words: Undo<'_>,
    writer: &mut W,
) -> (Option<Connection<S>>, Result<(), JobFault>)
    ensures { UndoPrinted
        (stores_of (state S.Store) (P.finds files) (P.refuses files)
        (P.connects files)) words.entry.zone.store.now words.entry.zone.origin.now words.entry.first words.entry.last result.0 (W.contents writer.old)
        (W.contents writer.new) result.1 (W.failures writer.old) (W.failures writer.new) }
{
    match read_name(alloc, words.zone.origin) {
        Ok(origin) => {
            let (path, blank) = (StorePath(words.zone.store), Blank::new(1));
            let (conn, read) = asked_by::<S, Brand, P, _, _>(
                alloc,
                files,
                path,
                &HistoryOf(&origin),
                blank,
            );
            let text = text_of(alloc, &origin, words, read);
            (conn, report(alloc, writer, text))
        }
        Err(fault) => (None, Err(write_refusal(alloc, writer, fault))),
    }
}
