//! Taking a zone out of a store.

ghost use Rattle.std.specs.Prelude.{◌≡◌, IfOk, string_bytes};
ghost use Rattle.std.specs.Result.{result_map_both};
ghost use Rattle.sqlite.specs.Held.{state};
ghost use Rattle.sqlite.specs.State.{HasCleanDisk};
ghost use Rattle.office_model.specs.States.{State};
ghost use Rattle.store_faults.specs.StoreFaults.{Gives};
ghost use Rattle.office_store.specs.Holds.{HoldsState};
ghost use Rattle.office_store.specs.Queries.{AsksOnly};
ghost use Rattle.cli_core.specs.LineFaults.{of_store};
ghost use Rattle.cli_store.specs.Remove.{removed_line, serial_held, IsTakenOut, RemovalWritten, ZoneRemoved};
ghost use Rattle.cli_store.specs.Stores.{stores_of};

use crate::files::StoreFiles;
use crate::store_file::StorePath;
use crate::table_job::{TableJob, asked_by};
use crate::zones::report;
use cli_core::{JobFault, LineFault, StoredZone, write_refusal};
use cli_text::read_name;
use dns_master::Sink;
use dns_names::Name;
use office_store::{SqlTable, StoreFault};
use sqlite::{Alter, Connection};
use std::alloc::{AllocError, Global};
use std::fmt::Write as _;
use std::marker::Brand;
use std::sync::ledger::{Blank, Ledger};

/// The line of a zone that was taken out. The only error is out of memory.
fn removed_text(alloc: Global, origin: &Name, serial: u32) -> Result<String, AllocError>
    ensures { IfOk result (λ text. string_bytes text ≡ removed_line origin.now serial) }
{
    let mut text = String::new(alloc);
    writeln!(&mut text, "removed {origin} serial {serial}")?;
    Ok(text)
}

/// The serial of the zone of an origin. `NoZone` comes exactly where the zone is missing, `Store` where the store fails, and
/// `NoMemory` where memory runs out.
fn held_serial<S: Alter + Drop, L: Ledger>(
    alloc: Global,
    table: &mut SqlTable<S, L>,
    origin: &Name,
) -> Result<u32, StoreFault>
    ensures answer { HasCleanDisk (state S.Store table.new.conn) → (s : State) → HoldsState (state S.Store table.old.conn) s
        → Gives (λ serial. serial) result (serial_held origin.now (s.zones origin.now)) }
    ensures asks { AsksOnly (state S.Store table.old.conn) (state S.Store table.new.conn) result }
{
    let Some(zone) = table.stored_zone(alloc, origin)? else {
        return Err(StoreFault::NoZone);
    };
    Ok(zone.serial())
}

/// The zone of an origin, which is taken out of a table. The refusal is that of the table, `NoZone`.
#[derive(Drop)]
struct ZoneRemoval<'a>(&'a Name);

impl TableJob<String> for ZoneRemoval<'_> {
    // It is the zone of this origin that goes, whole or not at all.
    ghost does = { λ of now after result. IsTakenOut of.0.now now after (result_map_both (λ text. string_bytes text) (λ fault. fault) result) };

    fn run<S: Alter + Drop, L: Ledger>(
        &self,
        alloc: Global,
        table: &mut SqlTable<S, L>,
    ) -> Result<String, StoreFault> {
        let serial = held_serial(alloc, table, self.0)?;
        // The line is made before the zone goes, so that memory cannot run out after it.
        let line = removed_text(alloc, self.0, serial)?;
        table.remove(alloc, self.0)?;
        Ok(line)
    }
}

/// The line of the zone that was taken out, or the fault that was met.
fn line_of(removed: Result<String, StoreFault>) -> Result<String, LineFault>
    ensures { result ≡ result_map_both (λ text. text) of_store removed }
{
    match removed {
        Ok(line) => Ok(line),
        Err(fault) => Err(LineFault::from(fault)),
    }
}

/// Takes a zone out of the store of a path, with its records and its changes; all receipts stay, so that an update that was answered is
/// answered the same again. A line tells the zone's origin and the serial that it had. Otherwise a line tells the refusal that comes
/// first: of the origin, of the store, or `NoZone`; then the store is as it was. A missing store is not made. The connection to the
/// store is handed back, if one was made.
pub fn remove<W: Sink, S: Alter + Drop, P: StoreFiles<S> + Drop>(
    alloc: Global,
    files: P,
    stored: StoredZone<'_>,
    writer: &mut W,
) -> (Option<Connection<S>>, Result<(), JobFault>)
    // A refusal of the origin comes before one of the store; and where a zone went, the line is one of this origin.
    ensures written { RemovalWritten stored.entry.origin.now (W.contents writer.old) (W.contents writer.new) result.1 (W.failures writer.old)
        (W.failures writer.new) }
    // It is taken out of the store of this path, whole, by the state that was there, and so the store is left; and a refusal is that of the
    // files, of what they hold, or of the table.
    ensures removed { ZoneRemoved
        (stores_of (state S.Store) (P.finds files) (P.refuses files) (P.connects files)) stored.entry.store.now stored.entry.origin.now result.0
        (W.contents writer.old) (W.contents writer.new) result.1 (W.failures writer.old) (W.failures writer.new) }
{
    match read_name(alloc, stored.origin) {
        Ok(origin) => {
            let (path, blank) = (StorePath(stored.store), Blank::new(1));
            let (conn, removed) = asked_by::<S, Brand, P, _, _>(
                alloc,
                files,
                path,
                &ZoneRemoval(&origin),
                blank,
            );
            (conn, report(alloc, writer, line_of(removed)))
        }
        Err(fault) => (None, Err(write_refusal(alloc, writer, fault))),
    }
}
