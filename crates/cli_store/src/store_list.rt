//! The job `zones`: what a store has, printed in a line for each zone.

ghost use Rattle.std.specs.Prelude.{◌≡◌, IsSome, IsTrue, IfOk, IfErr, OnOk, length, string_bytes};
ghost use Rattle.std.specs.Result.{result_map_both};
ghost use Rattle.sqlite.specs.Held.{state};
ghost use Rattle.sqlite.specs.State.{HasCleanDisk};
ghost use Rattle.zone_core.specs.Sets.{listing};
ghost use Rattle.zone_core.specs.Zones.{serial_of};
ghost use Rattle.office_model.specs.States.{State};
ghost use Rattle.store_rows.specs.Listed.{AreOriginsOf};
ghost use Rattle.store_faults.specs.StoreFaults.{IsFailure};
ghost use Rattle.office_store.specs.Holds.{HoldsState};
ghost use Rattle.office_store.specs.Queries.{Asked, AsksOnly, Only};
ghost use Rattle.cli_store.specs.Stores.{stores_of};
ghost use Rattle.cli_store.specs.StoreList.{list_in, IsSummary, AreZonesOf, IsListRead, IsListText, ZonesPrinted};

use crate::files::StoreFiles;
use crate::store_file::StorePath;
use crate::table_job::{TableJob, asked_by};
use crate::zone_list::{ZoneSummary, zones_text};
use crate::zones::report;
use cli_core::{JobFault, LineFault};
use dns_master::Sink;
use dns_names::Name;
use office_store::{SqlTable, StoreFault};
use sqlite::{Alter, Connection};
use std::alloc::Global;
use std::marker::Brand;
use std::sync::ledger::{Blank, Ledger};
use store_rows::KeptReceipt;
use zone_core::{Change, Zone};

/// What a store has: its zones, and its receipts.
#[derive(Drop)]
pub struct StoreList {
    pub zones: Vec<ZoneSummary>,
    pub kept: Vec<KeptReceipt>,
}

/// What there is of the zone of an origin with its changes. The only error is out of memory.
fn summed(
    alloc: Global,
    origin: &Name,
    zone: &Zone,
    changes: &[Change],
) -> Result<ZoneSummary, StoreFault>
    ensures summed { IfOk result
        (λ z. (z.origin ≡ origin.now) × (z.serial ≡ serial_of zone.now) × (z.records ≡ length (listing zone.now.records))
        × (z.changes ≡ length changes.now)) }
    ensures failed { IfErr result IsFailure }
{
    Ok(ZoneSummary {
        origin: origin.try_copy(alloc)?,
        serial: zone.serial(),
        records: zone.records().len(),
        changes: changes.len(),
    })
}

/// What a table has of the zone of an origin. `NoZone` comes if the zone is missing.
fn summary<S: Alter + Drop, L: Ledger>(
    alloc: Global,
    table: &mut SqlTable<S, L>,
    origin: &Name,
) -> Result<ZoneSummary, StoreFault>
    ensures asks { AsksOnly (state S.Store table.old.conn) (state S.Store table.new.conn) result }
    ensures origin { IfOk result (λ z. z.origin ≡ origin.now) }
    ensures summary { HasCleanDisk (state S.Store table.new.conn)
        → IfOk result (λ z. (s : State) → HoldsState (state S.Store table.old.conn) s → IsSummary s z) }
    ensures failed { HasCleanDisk (state S.Store table.new.conn)
        → IfErr result (λ e. (s : State) → HoldsState (state S.Store table.old.conn) s → IsSome (s.zones origin.now) → IsFailure e) }
{
    let Some(changes) = table.stored_changes(alloc, origin)? else {
        return Err(StoreFault::NoZone);
    };
    let Some(zone) = table.stored_zone(alloc, origin)? else {
        return Err(StoreFault::NoZone);
    };
    summed(alloc, origin, &zone, &changes)
}

/// What a table has of the zones of some origins.
fn summaries<S: Alter + Drop, L: Ledger>(
    alloc: Global,
    table: &mut SqlTable<S, L>,
    origins: &[Name],
) -> Result<Vec<ZoneSummary>, StoreFault>
    ensures asked { Asked (state S.Store table.old.conn) (state S.Store table.new.conn) }
    // Where nothing is asked, the connection is open only if it was.
    ensures only { HasCleanDisk (state S.Store table.new.conn) → IsTrue (state S.Store table.old.conn).is_open
        → OnOk result (Only (state S.Store table.old.conn) (state S.Store table.new.conn)) }
    ensures summaries { HasCleanDisk (state S.Store table.new.conn)
        → IfOk result (λ zones. (s : State) → HoldsState (state S.Store table.old.conn) s → AreOriginsOf s origins.now → AreZonesOf s zones.items) }
    ensures failed { HasCleanDisk (state S.Store table.new.conn)
        → IfErr result (λ e. (s : State) → HoldsState (state S.Store table.old.conn) s → AreOriginsOf s origins.now → IsFailure e) }
{
    let mut zones = Vec::new(alloc);
    for origin in origins {
        zones.push(summary(alloc, table, origin)?)?;
    }
    Ok(zones)
}

/// All that a store has.
#[derive(Drop)]
struct WholeList;

impl TableJob<StoreList> for WholeList {
    ghost does = { λ _ now after result. IsListRead now after (result_map_both list_in (λ fault. fault) result) };

    fn run<S: Alter + Drop, L: Ledger>(
        &self,
        alloc: Global,
        table: &mut SqlTable<S, L>,
    ) -> Result<StoreList, StoreFault> {
        let origins = table.origins(alloc)?;
        let zones = summaries(alloc, table, &origins)?;
        let kept = table.receipts(alloc)?;
        Ok(StoreList { zones, kept })
    }
}

/// The text of what was read, or the fault that was met.
fn text_of(alloc: Global, read: Result<StoreList, StoreFault>) -> Result<String, LineFault>
    ensures { IsListText (result_map_both list_in (λ fault. fault) read) (result_map_both (λ text. string_bytes text) (λ fault. fault) result) }
{
    let all = read?;
    Ok(zones_text(alloc, &all.zones, &all.kept)?)
}

/// Prints a line for each zone of the store of a path, with its serial and how many records, changes and receipts there are of it; and one
/// for the receipts of no zone, if there are some. Otherwise a line tells the refusal of the store. The connection to the store is handed
/// back, if one was made.
pub fn list_zones<W: Sink, S: Alter + Drop, P: StoreFiles<S> + Drop>(
    alloc: Global,
    files: P,
    store: &str,
    writer: &mut W,
) -> (Option<Connection<S>>, Result<(), JobFault>)
    ensures { ZonesPrinted (stores_of (state S.Store) (P.finds files) (P.refuses files) (P.connects files)) store.now result.0
        (W.contents writer.old) (W.contents writer.new) result.1 (W.failures writer.old) (W.failures writer.new) }
{
    let (path, blank) = (StorePath(store), Blank::new(1));
    let (conn, read) = asked_by::<S, Brand, P, _, _>(alloc, files, path, &WholeList, blank);
    (conn, report(alloc, writer, text_of(alloc, read)))
}
