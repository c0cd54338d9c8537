//! Asking the store.

ghost use Rattle.std.specs.Prelude.{◌≡◌, List, Err, IfOk, OnOk, true, false, map};
ghost use Rattle.std.specs.List.{AllByRecursion};
ghost use Rattle.sqlite.specs.Values.{bound};
ghost use Rattle.sqlite.specs.Held.{state};
ghost use Rattle.sqlite.specs.State.{HasCleanDisk, IsUnchanged, Shows, Shown};
ghost use Rattle.store_sql.specs.Stores.{IsReadableRow};
ghost use Rattle.store_sql.specs.Holds.{Keeps, OnlyAsks, Stays};
ghost use Rattle.store_sql.specs.declared.rows_fault.RowsFault.TheVariants.{BadRow};

use crate::from_row::{FromRow, read_rows};
use crate::rows_fault::RowsFault;
use sqlite::{Alter, Connection, Error, Row};
use sqlite_value::value::ValueRef;
use std::alloc::Global;

/// Tells whether the store is open. A rollback that fails shuts it, and tells nobody.
pub(crate) fn check_open<S: Alter>(conn: &mut Connection<S>) -> Result<(), Error>
    requires { conn.old.in_transaction ≡ false }
    ensures stays { Stays (state S.Store conn.old) (state S.Store conn.new) }
    ensures back { Keeps (state S.Store conn.old) (state S.Store conn.new) }
    ensures same { HasCleanDisk (state S.Store conn.new) → OnOk result (IsUnchanged (state S.Store conn.old) (state S.Store conn.new)) }
    ensures ended { conn.new.in_transaction ≡ false }
{
    let _statement = conn.prepare("")?;
    Ok(())
}

/// The rows of an answer. The transaction is there to be rolled back, so that whatever the text is, nothing is committed.
fn fetch<S: Alter>(
    conn: &mut Connection<S>,
    sql: &str,
    params: &[ValueRef<'_>],
) -> Result<Vec<Row>, Error>
    requires { conn.old.in_transaction ≡ false }
    ensures stays { Stays (state S.Store conn.old) (state S.Store conn.new) }
    ensures back { Keeps (state S.Store conn.old) (state S.Store conn.new) }
    ensures shown { HasCleanDisk (state S.Store conn.new)
        → IfOk result
        (λ rows. (mid : _)
        × Shown sql.now (bound params.now) (state S.Store (record conn.old { in_transaction = true })) (state S.Store mid) rows.items) }
    ensures ended { conn.new.in_transaction ≡ false }
{
    let mut tx = conn.transaction();
    tx.query_all(sql, params)
}

/// The rows of an answer, from a store that is still open.
pub(crate) fn fetch_open<S: Alter>(
    conn: &mut Connection<S>,
    sql: &str,
    params: &[ValueRef<'_>],
) -> Result<Vec<Row>, Error>
    requires { conn.old.in_transaction ≡ false }
    ensures asks { OnlyAsks (state S.Store conn.old) (state S.Store conn.new) }
    ensures same { HasCleanDisk (state S.Store conn.new)
        → OnOk result (Shows (state S.Store conn.old) (state S.Store conn.new) (state S.Store conn.old).now (state S.Store conn.old).now false) }
    ensures shown { HasCleanDisk (state S.Store conn.new)
        → IfOk result
        (λ rows. (mid : _)
        × Shown sql.now (bound params.now) (state S.Store (record conn.old { in_transaction = true })) (state S.Store mid) rows.items) }
{
    let is_alone = conn.is_autocommit();
    prove!(is_alone);
    let rows = fetch(conn, sql, params)?;
    check_open(conn)?;
    Ok(rows)
}

/// The values that an answer has, one a row.
pub(crate) fn ask<S: Alter, T: FromRow>(
    alloc: Global,
    conn: &mut Connection<S>,
    sql: &str,
    params: &[ValueRef<'_>],
) -> Result<Vec<T>, RowsFault>
    requires { conn.old.in_transaction ≡ false }
    ensures asks { OnlyAsks (state S.Store conn.old) (state S.Store conn.new) }
    ensures same { HasCleanDisk (state S.Store conn.new)
        → OnOk result (Shows (state S.Store conn.old) (state S.Store conn.new) (state S.Store conn.old).now (state S.Store conn.old).now false) }
    ensures shown { HasCleanDisk (state S.Store conn.new)
        → IfOk result
        (λ xs. (mid : _)
        × Shown sql.now (bound params.now) (state S.Store (record conn.old { in_transaction = true })) (state S.Store mid)
        (map T.FromRow.stored xs.items)) }
    ensures readable { IfOk result (λ xs. AllByRecursion IsReadableRow (map T.FromRow.stored xs.items)) }
    ensures bad { HasCleanDisk (state S.Store conn.new) → result ≡ Err BadRow
        → (rows : _) × (mid : _)
        × Shown sql.now (bound params.now) (state S.Store (record conn.old { in_transaction = true })) (state S.Store mid) rows
        × ((xs : List T) → rows ≡ map T.FromRow.stored xs → AllByRecursion IsReadableRow rows → ⊥) }
{
    let rows = fetch_open(conn, sql, params)?;
    read_rows(alloc, rows)
}
