//! The making of the tables.

ghost use Rattle.std.specs.Prelude.{◌≡◌, ◌⊎◌, false, IsTrue, OnOk, OnErr};
ghost use Rattle.sqlite.specs.Held.{state};
ghost use Rattle.sqlite.specs.State.{HasCleanDisk};
ghost use Rattle.store_sql.specs.Tables.{no_schema};
ghost use Rattle.store_sql.specs.Holds.{AreRows, Reads, Holds, Leaves, IsGoing, Keeps, Stays, made_rows, AreEmpty};

use crate::batch::{Insert, run};
use crate::rows_fault::RowsFault;
use sqlite::{Alter, Connection, Error, Transaction};

/// Makes the tables and the index, inside a transaction.
fn make_schema<S: Alter>(tx: &mut Transaction<'_, S>) -> Result<(), Error>
    ensures same_reference { tx.new.conn.ghost_name ≡ tx.old.conn.ghost_name }
    ensures stays { Stays (state S.Store tx.old.conn.now) (state S.Store tx.new.conn.now) }
    ensures made { HasCleanDisk (state S.Store tx.new.conn.now)
        → OnOk result ((state S.Store tx.old.conn.now).now.schema ≡ no_schema → AreEmpty (state S.Store tx.new.conn.now).now) }
{
    run(
        tx,
        "CREATE TABLE meta(version INTEGER NOT NULL) STRICT",
        &[],
    )?;
    run(
        tx,
        "CREATE TABLE zones(origin TEXT NOT NULL PRIMARY KEY) STRICT",
        &[],
    )?;
    run(
        tx,
        "CREATE TABLE records(origin TEXT NOT NULL, owner TEXT NOT NULL, type INTEGER NOT NULL, data TEXT NOT NULL, ttl INTEGER NOT NULL, owner_key BLOB NOT NULL, PRIMARY KEY(origin, owner, type, data)) STRICT",
        &[],
    )?;
    run(
        tx,
        "CREATE INDEX records_by_key ON records(origin, owner_key)",
        &[],
    )?;
    run(
        tx,
        "CREATE TABLE receipts(caller TEXT NOT NULL, id TEXT NOT NULL, origin TEXT NOT NULL, request TEXT NOT NULL, reply TEXT NOT NULL, PRIMARY KEY(caller, id)) STRICT",
        &[],
    )?;
    run(
        tx,
        "CREATE TABLE changes(origin TEXT NOT NULL, number INTEGER NOT NULL, side INTEGER NOT NULL, owner TEXT NOT NULL, type INTEGER NOT NULL, data TEXT NOT NULL, ttl INTEGER NOT NULL, PRIMARY KEY(origin, number, side, owner, type, data)) STRICT",
        &[],
    )
}

/// The tables and the row of `meta`, inside a transaction.
fn make_all<S: Alter>(tx: &mut Transaction<'_, S>, version: i64) -> Result<(), Error>
    ensures same_reference { tx.new.conn.ghost_name ≡ tx.old.conn.ghost_name }
    ensures stays { Stays (state S.Store tx.old.conn.now) (state S.Store tx.new.conn.now) }
    ensures made { HasCleanDisk (state S.Store tx.new.conn.now)
        → OnOk result ((state S.Store tx.old.conn.now).now.schema ≡ no_schema → Reads (state S.Store tx.new.conn.now).now (made_rows version)) }
    ensures going { HasCleanDisk (state S.Store tx.new.conn.now) → OnOk result (IsGoing (state S.Store tx.new.conn.now)) }
{
    make_schema(tx)?;
    version.insert(tx)
}

/// The same in a transaction of its own.
fn commit<S: Alter>(conn: &mut Connection<S>, version: i64) -> Result<(), Error>
    requires mode { conn.old.in_transaction ≡ false }
    requires none { conn.old.schema ≡ no_schema }
    ensures made { OnOk result (Holds (state S.Store conn.new) (made_rows version)) }
    ensures kept { OnOk result (Leaves (state S.Store conn.new) (λ db. AreRows db (made_rows version))) }
    ensures failed { OnErr result (Keeps (state S.Store conn.old) (state S.Store conn.new)) }
    ensures crash { OnErr result (Leaves (state S.Store conn.new) (λ db. (state S.Store conn.old).may_leave db ⊎ AreRows db (made_rows version))) }
    ensures honest { HasCleanDisk (state S.Store conn.new) → HasCleanDisk (state S.Store conn.old) }
    ensures ended { conn.new.in_transaction ≡ false }
{
    let mut tx = conn.transaction();
    make_all(&mut tx, version)?;
    tx.commit()
}

/// Makes the tables, the index and the one row of `meta`, in one transaction. `Store` comes where the store fails, and
/// `NoMemory` where memory runs out; then no table is made.
pub fn make_tables<S: Alter>(conn: &mut Connection<S>, version: i64) -> Result<(), RowsFault>
    requires mode { conn.old.in_transaction ≡ false }
    requires none { conn.old.schema ≡ no_schema }
    ensures made { OnOk result (Holds (state S.Store conn.new) (made_rows version)) }
    ensures kept { OnOk result (Leaves (state S.Store conn.new) (λ db. AreRows db (made_rows version))) }
    // There is no table, nor was one committed.
    ensures failed { OnErr result
        (IsTrue (state S.Store conn.new).is_open
        → ((state S.Store conn.new).now.schema ≡ no_schema) × ((state S.Store conn.new).committed ≡ (state S.Store conn.new).now)) }
    ensures crash { OnErr result (Leaves (state S.Store conn.new) (λ db. (state S.Store conn.old).may_leave db ⊎ AreRows db (made_rows version))) }
    ensures honest { HasCleanDisk (state S.Store conn.new) → HasCleanDisk (state S.Store conn.old) }
    ensures ended { conn.new.in_transaction ≡ false }
{
    let is_alone = conn.is_autocommit();
    prove!(is_alone);
    commit(conn, version)?;
    Ok(())
}
