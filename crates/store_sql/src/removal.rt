//! A zone that goes: its row, those of its records and those of its changes, all in one transaction.

ghost use Rattle.std.specs.Prelude.{◌≡◌, ◌⊎◌, false, OnOk, OnErr};
ghost use Rattle.sqlite.specs.Held.{state};
ghost use Rattle.sqlite.specs.State.{HasCleanDisk};
ghost use Rattle.store_sql.specs.Rows.{RowsOf, without_origin};
ghost use Rattle.store_sql.specs.Holds.{AreRows, Holds, IsGoing, Keeps, Leaves, Part, Stays};
ghost use Rattle.store_sql.specs.Statements.{without_changes_of, without_records_of, without_zone};

use crate::batch::run;
use crate::rows_fault::RowsFault;
use crate::writing::{Writing, write_at_once};
use sqlite::{Alter, Connection, Error, Transaction, params};

/// The zone of an origin, which goes.
#[derive(Drop)]
struct GoneZone<'a> {
    origin: &'a str,
}

/// Deletes the records of a zone. They are found without a look at others.
fn delete_records_of<S: Alter>(tx: &mut Transaction<'_, S>, origin: &str) -> Result<(), Error>
    ensures same_reference { tx.new.conn.ghost_name ≡ tx.old.conn.ghost_name }
    ensures stays { Stays (state S.Store tx.old.conn.now) (state S.Store tx.new.conn.now) }
    ensures part { OnOk result (Part (state S.Store tx.old.conn.now) (state S.Store tx.new.conn.now) (without_records_of origin.now)) }
    ensures going { HasCleanDisk (state S.Store tx.new.conn.now) → OnOk result (IsGoing (state S.Store tx.new.conn.now)) }
{
    run(tx, "DELETE FROM records WHERE origin = ?1", params![origin])
}

/// Deletes what the changes of a zone took away and brought. It is found without a look at other changes.
fn delete_changes_of<S: Alter>(tx: &mut Transaction<'_, S>, origin: &str) -> Result<(), Error>
    ensures same_reference { tx.new.conn.ghost_name ≡ tx.old.conn.ghost_name }
    ensures stays { Stays (state S.Store tx.old.conn.now) (state S.Store tx.new.conn.now) }
    ensures part { OnOk result (Part (state S.Store tx.old.conn.now) (state S.Store tx.new.conn.now) (without_changes_of origin.now)) }
    ensures going { HasCleanDisk (state S.Store tx.new.conn.now) → OnOk result (IsGoing (state S.Store tx.new.conn.now)) }
{
    run(tx, "DELETE FROM changes WHERE origin = ?1", params![origin])
}

/// Deletes the row of a zone.
fn delete_zone<S: Alter>(tx: &mut Transaction<'_, S>, origin: &str) -> Result<(), Error>
    ensures same_reference { tx.new.conn.ghost_name ≡ tx.old.conn.ghost_name }
    ensures stays { Stays (state S.Store tx.old.conn.now) (state S.Store tx.new.conn.now) }
    ensures part { OnOk result (Part (state S.Store tx.old.conn.now) (state S.Store tx.new.conn.now) (without_zone origin.now)) }
    ensures going { HasCleanDisk (state S.Store tx.new.conn.now) → OnOk result (IsGoing (state S.Store tx.new.conn.now)) }
{
    run(tx, "DELETE FROM zones WHERE origin = ?1", params![origin])
}

impl Writing for GoneZone<'_> {
    ghost use Rattle.store_sql.specs.Rows.{without_origin};

    ghost after = { λ gone. without_origin gone.origin.now };

    fn write_all<S: Alter>(&self, tx: &mut Transaction<'_, S>) -> Result<(), Error> {
        delete_records_of(tx, self.origin)?;
        delete_changes_of(tx, self.origin)?;
        delete_zone(tx, self.origin)
    }
}

/// Takes the zone of an origin out in one transaction, whose commit is the last call of the store: its row goes, with the rows of its
/// records and its changes, and no other row. `Store` comes where the store fails, and `NoMemory` where memory runs out; then nothing
/// changes.
pub fn remove_zone<S: Alter>(conn: &mut Connection<S>, origin: &str) -> Result<(), RowsFault>
    requires { conn.old.in_transaction ≡ false }
    ensures made { OnOk result ((rows : RowsOf) → Holds (state S.Store conn.old) rows → Holds (state S.Store conn.new) (without_origin origin.now rows)) }
    // The connection shows what it showed, whatever that is.
    ensures failed { OnErr result (Keeps (state S.Store conn.old) (state S.Store conn.new)) }
    ensures kept { OnOk result
        ((rows : RowsOf) → Holds (state S.Store conn.old) rows → Leaves (state S.Store conn.new) (λ db. AreRows db (without_origin origin.now rows))) }
    ensures crash { OnErr result
        ((rows : RowsOf) → Holds (state S.Store conn.old) rows
        → Leaves (state S.Store conn.new) (λ db. (state S.Store conn.old).may_leave db ⊎ AreRows db (without_origin origin.now rows))) }
    ensures honest { HasCleanDisk (state S.Store conn.new) → HasCleanDisk (state S.Store conn.old) }
    ensures ended { conn.new.in_transaction ≡ false }
{
    write_at_once(conn, &GoneZone { origin })
}
