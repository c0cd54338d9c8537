//! The job `blame`: the records of a zone of a store, each with the change that brought it.

ghost use Rattle.std.specs.Prelude.{◌≡◌, ◌++◌, IfOk, OnOk, length, map, option_map, string_bytes};
ghost use Rattle.std.specs.List.{flat_map, zip};
ghost use Rattle.std.specs.Result.{result_map_both};
ghost use Rattle.sqlite.specs.Held.{state};
ghost use Rattle.cli_core.specs.LineFaults.{Gives};
ghost use Rattle.cli_store.specs.Stores.{stores_of};
ghost use Rattle.dns_names.specs.Labels.{is_within};
ghost use Rattle.cli_store.specs.Log.{passes};
ghost use Rattle.cli_store.specs.ZoneHistory.{blame_asked, blame_line, blame_text, history_in, IsOfHistory, BlamePrinted};

use crate::files::StoreFiles;
use crate::store_file::StorePath;
use crate::table_job::asked_by;
use crate::zone_history::{HistoryOf, ZoneHistory};
use crate::zones::report;
use cli_checks::name_if;
use cli_core::{JobFault, LineFault, StoredZone, write_refusal};
use cli_text::read_name;
use dns_data::Record;
use dns_master::Sink;
use dns_names::Name;
use office_store::StoreFault;
use sqlite::{Alter, Connection};
use std::alloc::{AllocError, Global};
use std::fmt::Write as _;
use std::marker::Brand;
use std::sync::ledger::Blank;
use zone_tools::bringers;

/// Of which records the changes are asked for.
#[derive(Drop)]
pub struct BlameAsked {
    /// The origin of the zone.
    pub origin: Name,
    /// Within which name, where one is given.
    pub name: Option<Name>,
}

/// What the words ask for. The first refusal is that of the origin.
pub(crate) fn blame_asked(
    alloc: Global,
    origin: &str,
    name: Option<&str>,
) -> Result<BlameAsked, LineFault>
    ensures { Gives (λ asked. asked) result (blame_asked origin.now (option_map (λ n. n.now) name.entry)) }
{
    Ok(BlameAsked {
        origin: read_name(alloc, origin)?,
        name: name_if(alloc, name)?,
    })
}

/// Whether a record is within the name that is given.
pub(crate) fn is_asked(name: &Option<Name>, rr: &Record) -> bool
    ensures { result ≡ passes (λ top. is_within rr.now.owner top) name.now }
{
    match name {
        Some(top) => rr.owner.is_within(top),
        None => true,
    }
}

/// Appends the line of a record, if it is asked for. The only error is out of memory.
fn push_blamed(
    text: &mut String,
    name: &Option<Name>,
    rr: &Record,
    bringer: &Option<u64>,
) -> Result<(), AllocError>
    ensures { OnOk result (string_bytes text.new ≡ string_bytes text.old ++ blame_line name.now rr.now bringer.now) }
{
    if !is_asked(name, rr) {
        return Ok(());
    }
    let number = (*bringer).unwrap_or(0);
    writeln!(text, "{number} {rr}")
}

/// The lines of records, each with the change that brought it. The only error is out of memory.
fn blamed_text(
    alloc: Global,
    name: &Option<Name>,
    records: &[Record],
    found: &[Option<u64>],
) -> Result<String, AllocError>
    requires { length found.now ≡ length records.now }
    ensures { IfOk result (λ text. string_bytes text ≡ flat_map (λ p. blame_line name.now p.0 p.1) (zip records.now found.now)) }
{
    let mut text = String::new(alloc);
    for i in 0..records.len() {
        push_blamed(&mut text, name, &records[i], &found[i])?;
    }
    Ok(text)
}

/// The records of a zone that are asked for, each after the number of the change that brought it, and after 0 where it was there from
/// the first on. The only error is out of memory.
fn blame_text(
    alloc: Global,
    asked: &BlameAsked,
    history: &ZoneHistory,
) -> Result<String, AllocError>
    ensures { IfOk result (λ text. string_bytes text ≡ blame_text asked.now (history_in history.now)) }
{
    let records = history.zone.records();
    let found = bringers(alloc, records, &history.changes)?;
    blamed_text(alloc, &asked.name, records, &found)
}

/// The text of what was read, or the fault that was met.
fn text_of(
    alloc: Global,
    asked: &BlameAsked,
    read: Result<ZoneHistory, StoreFault>,
) -> Result<String, LineFault>
    ensures { IsOfHistory (λ held. Ok (blame_text asked.now held)) (result_map_both history_in (λ fault. fault) read)
        (result_map_both (λ text. string_bytes text) (λ fault. fault) result) }
{
    let history = read?;
    Ok(blame_text(alloc, asked, &history)?)
}

/// Prints the records of a zone of the store of a path, or those within a name: each after the number of the change that brought it as it
/// is, and after 0 where it was there when the zone was imported. Otherwise a line tells the refusal that comes first: of the origin,
/// of the name, of the store, or `NoZone`. The connection to the store is handed back, if one was made.
pub fn blame<W: Sink, S: Alter + Drop, P: StoreFiles<S> + Drop>(
    alloc: Global,
    files: P,
    stored: StoredZone<'_>,
    name: Option<&str>,
    writer: &mut W,
) -> (Option<Connection<S>>, Result<(), JobFault>)
    ensures { BlamePrinted
        (stores_of (state S.Store) (P.finds files) (P.refuses files)
        (P.connects files)) stored.entry.store.now stored.entry.origin.now (option_map (λ n. n.now) name.entry) result.0
        (W.contents writer.old) (W.contents writer.new) result.1 (W.failures writer.old) (W.failures writer.new) }
{
    match blame_asked(alloc, stored.origin, name) {
        Ok(asked) => {
            let (path, blank) = (StorePath(stored.store), Blank::new(1));
            let (conn, read) = asked_by::<S, Brand, P, _, _>(
                alloc,
                files,
                path,
                &HistoryOf(&asked.origin),
                blank,
            );
            (conn, report(alloc, writer, text_of(alloc, &asked, read)))
        }
        Err(fault) => (None, Err(write_refusal(alloc, writer, fault))),
    }
}
