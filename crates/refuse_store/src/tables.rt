//! What is written to tables, and what goes from them.

ghost use Rattle.std.specs.Prelude.{◌≡◌, ◌++◌, [], ℕ, List, false, None, IfOk, IsTrue, OnOk, OnErr};
ghost use Rattle.sqlite.specs.Files.{file_state};
ghost use Rattle.sqlite.specs.Held.{state};
ghost use Rattle.sqlite.specs.State.{HasCleanDisk};
ghost use Rattle.store_sql.specs.Files.{ShowsThose};
ghost use Rattle.store_sql.specs.Holds.{Holds, Keeps};
ghost use Rattle.store_sql.specs.Rows.{RowsOf, without_origin};
ghost use Rattle.store_rows.specs.Batches.{receipts_batch};

use sqlite::{Alter, Connection, Error, FileStore, Leftover, Options};
use sqlite_disk::{Disk, Files};
use std::alloc::Global;
use store_sql::{Batch, RowsFault};

/// `connect`.
pub fn connect<D: Disk + Drop>(
    alloc: Global,
    files: Files<D>,
    options: Options,
) -> Result<Connection<FileStore<D>>, (Error, Leftover<D>)>
    requires log { IsTrue (D.Disk.is_usable files.log) }
    requires db { IsTrue (D.Disk.is_usable files.db) }
    ensures { IfOk result (λ conn. HasCleanDisk (file_state conn) → ShowsThose files conn) }
{
    store_sql::connect(alloc, files, options)
}

/// What `write` leaves where it fails, beside what is written without its receipts, and these by themselves.
pub fn write<S: Alter>(
    conn: &mut Connection<S>,
    batch: &Batch,
    _others: &Batch,
    _receipts: &Batch,
) -> Result<(), RowsFault>
    requires alone { conn.old.in_transaction ≡ false }
    requires others { _others.now ≡ record batch.now { receipts = [] } }
    requires receipts { _receipts.now ≡ receipts_batch batch.now.receipts }
    ensures { OnErr result (Keeps (state S.Store conn.old) (state S.Store conn.new)) }
{
    store_sql::write(conn, batch)
}

/// What `remove_zone` leaves where it succeeds, beside the text of another origin, which ends with this one.
pub fn remove_zone<S: Alter>(
    conn: &mut Connection<S>,
    origin: &str,
    _below: &str,
) -> Result<(), RowsFault>
    requires alone { conn.old.in_transaction ≡ false }
    requires below { (front : List ℕ) × (_below.now ≡ front ++ origin.now) }
    ensures { OnOk result ((rows : RowsOf) → Holds (state S.Store conn.old) rows → Holds (state S.Store conn.new) (without_origin origin.now rows)) }
{
    store_sql::remove_zone(conn, origin)
}

/// What it leaves where it fails, beside something that is written.
pub fn remove_zone_whole<S: Alter>(
    conn: &mut Connection<S>,
    zone: &str,
    _records: &Batch,
) -> Result<(), RowsFault>
    requires alone { conn.old.in_transaction ≡ false }
    ensures { OnErr result (Keeps (state S.Store conn.old) (state S.Store conn.new)) }
{
    store_sql::remove_zone(conn, zone)
}
