//! The table in SQLite.

ghost use Rattle.std.specs.Prelude.{◌≡◌, ◌<◌, [], false, None, IfErr, OnErr};
ghost use Rattle.sqlite.specs.Held.{state};
ghost use Rattle.sqlite.specs.State.{HasCleanDisk};
ghost use Rattle.office_model.specs.States.{State};
ghost use Rattle.store_sql.specs.Holds.{Keeps};
ghost use Rattle.store_faults.specs.StoreFaults.{IsFailure};
ghost use Rattle.store_faults.specs.declared.store_fault.StoreFault.TheVariants.{WrongVersion};
ghost use Rattle.office_store.specs.Holds.{HoldsState, HasVersion};
ghost use Rattle.office_store.specs.Turns.{Turns};
ghost use Rattle.office_store.specs.Zones.{imported, with_imported};

use dns_data::Record;
use dns_names::Name;
use office_store::{Refused, SqlTable, StoreFault};
use sqlite::{Alter, Connection};
use std::alloc::Global;
use std::sync::ledger::{Blank, Ledger};
use store_sql::Batch;
use zone_core::Zone;

/// `SqlTable::adopt`, beside the means to count anew.
pub fn adopt<S: Alter + Drop, L: Ledger>(
    alloc: Global,
    conn: Connection<S>,
    blank: Blank,
) -> Result<SqlTable<S, L>, (StoreFault, Connection<S>)>
    requires alone { conn.in_transaction ≡ false }
    requires name { blank.name ≡ L.name }
    requires parts { blank.parts ≡ L.parts }
    requires some { 0 < blank.parts }
    ensures { IfErr result (λ refused. HasCleanDisk (state S.Store refused.1) → (s : State) → HoldsState (state S.Store conn) s → IsFailure refused.0) }
{
    match SqlTable::<S, L>::adopt(alloc, conn, blank) {
        Ok(table) => Ok(table),
        Err(refused) => Err((refused.fault, refused.conn)),
    }
}

/// The same, by what it tells of the version.
pub fn adopt_of_version<S: Alter + Drop, L: Ledger>(
    alloc: Global,
    conn: Connection<S>,
    blank: Blank,
) -> Result<SqlTable<S, L>, (StoreFault, Connection<S>)>
    requires alone { conn.in_transaction ≡ false }
    requires name { blank.name ≡ L.name }
    requires parts { blank.parts ≡ L.parts }
    requires some { 0 < blank.parts }
    ensures { IfErr result (λ refused. HasCleanDisk (state S.Store refused.1) → refused.0 ≡ WrongVersion → ¬ HasVersion (state S.Store conn)) }
{
    match SqlTable::<S, L>::adopt(alloc, conn, blank) {
        Ok(adopted) => Ok(adopted),
        Err(it) => Err((it.fault, it.conn)),
    }
}

/// `SqlTable::import`, by what it leaves.
pub fn import<S: Alter + Drop, L: Ledger>(
    alloc: Global,
    table: &mut SqlTable<S, L>,
    origin: Name,
    records: Vec<Record>,
) -> Result<Zone, StoreFault>
    ensures { Turns (state S.Store table.old.conn) (state S.Store table.new.conn) result (λ s. with_imported s (imported s origin records.items)) }
{
    table.import(alloc, origin, records)
}

/// What `SqlTable::migrate` leaves where it fails, beside something that is written, this without its version, and the version by itself.
pub fn migrate<S: Alter + Drop, L: Ledger>(
    alloc: Global,
    store: &mut Connection<S>,
    _batch: &Batch,
    _others: &Batch,
    _version: &Batch,
) -> Result<usize, StoreFault>
    requires alone { store.old.in_transaction ≡ false }
    requires others { _others.now ≡ record _batch.now { version = None } }
    requires version { _version.now ≡ record { version = _batch.now.version; zones = []; removed = []; added = []; changes = []; receipts = [] } }
    ensures { OnErr result (Keeps (state S.Store store.old) (state S.Store store.new)) }
{
    SqlTable::<S, L>::migrate(alloc, store)
}
