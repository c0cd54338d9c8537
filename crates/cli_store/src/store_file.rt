//! The store of a path.

ghost use Rattle.std.specs.Prelude.{◌≡◌, ◌<◌, ◌⊎◌, false, IfOk, IfErr};
ghost use Rattle.sqlite.specs.Held.{state};
ghost use Rattle.cli_store.specs.Stores.{IsLeft, IsNoStore, IsAdopted, IsMade, IsUnmade, IsUnfound, IsOpened, IsUnopened, IsOpenedOrMade, IsUnopenedOrMade, IsMigratedStore};

use crate::files::StoreFiles;
use office_store::{SqlTable, StoreFault};
use sqlite::{Alter, Connection};
use std::alloc::Global;
use std::marker::Brand;
use std::sync::ledger::{Blank, Ledger};

/// The path of a store.
#[derive(Clone, Copy)]
pub struct StorePath<'a>(pub &'a str);

/// Why there is no table of the store of a path, and the connection to it, if one was made.
#[derive(Drop)]
pub struct Unreached<S: Alter + Drop> {
    pub fault: StoreFault,
    pub conn: Option<Connection<S>>,
}

/// A connection to the file of a path, if there is one; no file is `NoZone`.
fn found<S: Alter + Drop, P: StoreFiles<S> + Drop>(
    files: P,
    path: &str,
) -> Result<Connection<S>, StoreFault>
    ensures connected { IfOk result (P.connects files path.now) }
    ensures alone { IfOk result (λ conn. conn.in_transaction ≡ false) }
    ensures refused { IfErr result (IsUnfound (P.finds files path.now) (P.refuses files path.now)) }
{
    match files.has_file(path) {
        Ok(true) => files.connect(path),
        Ok(false) => Err(StoreFault::NoZone),
        Err(fault) => Err(fault),
    }
}

/// The table that a connection has.
fn adopted<S: Alter + Drop, L: Ledger>(
    alloc: Global,
    conn: Connection<S>,
    blank: Blank,
) -> Result<SqlTable<S, L>, Unreached<S>>
    requires alone { conn.in_transaction ≡ false }
    requires name { blank.name ≡ L.name }
    requires parts { blank.parts ≡ L.parts }
    requires some { 0 < blank.parts }
    ensures opened { IfOk result (λ table. IsAdopted (state S.Store conn) (state S.Store table.conn)) }
    ensures refused { IfErr result (λ un. IsLeft un.conn (λ after. IsNoStore (state S.Store conn) (state S.Store after) un.fault)) }
{
    match SqlTable::adopt(alloc, conn, blank) {
        Ok(table) => Ok(table),
        Err(refused) => Err(Unreached {
            fault: refused.fault,
            conn: Some(refused.conn),
        }),
    }
}

/// The table of the store of a path. Where there is no file none is made: that is `NoZone`. `WrongVersion` comes where the file has
/// not the tables of this version, `BadRow` where their rows are no state, and `Store` where the file is no database or cannot be
/// read.
pub fn open_store<S: Alter + Drop, L: Ledger, P: StoreFiles<S> + Drop>(
    alloc: Global,
    files: P,
    path: &str,
    blank: Blank,
) -> Result<SqlTable<S, L>, Unreached<S>>
    requires name { blank.name ≡ L.name }
    requires parts { blank.parts ≡ L.parts }
    requires some { 0 < blank.parts }
    ensures opened { IfOk result (λ table. IsOpened (state S.Store) (P.connects files path.now) table.conn) }
    ensures refused { IfErr result
        (λ un. IsUnopened (state S.Store) (P.finds files path.now) (P.refuses files path.now) (P.connects files path.now) un.conn un.fault) }
{
    match found(files, path) {
        Ok(conn) => adopted(alloc, conn, blank),
        Err(fault) => Err(Unreached { fault, conn: None }),
    }
}

/// The table of a connection, which is made in an empty database.
fn made_or_adopted<S: Alter + Drop, L: Ledger>(
    alloc: Global,
    conn: Connection<S>,
    blank: Blank,
) -> Result<SqlTable<S, L>, Unreached<S>>
    requires alone { conn.in_transaction ≡ false }
    requires name { blank.name ≡ L.name }
    requires parts { blank.parts ≡ L.parts }
    requires some { 0 < blank.parts }
    ensures opened { IfOk result (λ table. IsAdopted (state S.Store conn) (state S.Store table.conn) ⊎ IsMade (state S.Store conn) (state S.Store table.conn)) }
    ensures refused { IfErr result
        (λ un. IsLeft un.conn
        (λ after. IsNoStore (state S.Store conn) (state S.Store after) un.fault ⊎ IsUnmade (state S.Store conn) (state S.Store after) un.fault)) }
{
    match SqlTable::create(conn, blank) {
        Ok(table) => Ok(table),
        Err(refused) => match refused.fault {
            StoreFault::WrongVersion => adopted(alloc, refused.conn, refused.blank),
            fault => Err(Unreached {
                fault,
                conn: Some(refused.conn),
            }),
        },
    }
}

/// The table of the store of a path, which is made where there is no file, or one without tables. The refusals are those of
/// `open_store`, but for `NoZone`.
pub fn open_or_make_store<S: Alter + Drop, L: Ledger, P: StoreFiles<S> + Drop>(
    alloc: Global,
    files: P,
    path: &str,
    blank: Blank,
) -> Result<SqlTable<S, L>, Unreached<S>>
    requires name { blank.name ≡ L.name }
    requires parts { blank.parts ≡ L.parts }
    requires some { 0 < blank.parts }
    ensures opened { IfOk result (λ table. IsOpenedOrMade (state S.Store) (P.connects files path.now) table.conn) }
    ensures refused { IfErr result (λ un. IsUnopenedOrMade (state S.Store) (P.refuses files path.now) (P.connects files path.now) un.conn un.fault) }
{
    match files.connect(path) {
        Ok(conn) => made_or_adopted(alloc, conn, blank),
        Err(fault) => Err(Unreached { fault, conn: None }),
    }
}

/// Takes the store of a path from version 1 of the tables to version 2, and tells how many zones that changed. Where there is no file
/// none is made: that is `NoZone`. `WrongVersion` comes where the file has not the tables of version 1, `BadRow` where their rows are
/// none that a program of that version wrote, and `Store` where the file is no database or cannot be read or written. Then the file
/// is as it was. The connection is handed back, if one was made.
pub fn migrate_store<S: Alter + Drop, P: StoreFiles<S> + Drop>(
    alloc: Global,
    files: P,
    path: &str,
) -> (Option<Connection<S>>, Result<usize, StoreFault>)
    ensures { IsMigratedStore (state S.Store) (P.finds files path.now) (P.refuses files path.now) (P.connects files path.now) result.0 result.1 }
{
    match found(files, path) {
        Ok(conn) => {
            let mut conn = conn;
            let migrated = SqlTable::<S, Brand>::migrate(alloc, &mut conn);
            (Some(conn), migrated)
        }
        Err(fault) => (None, Err(fault)),
    }
}
