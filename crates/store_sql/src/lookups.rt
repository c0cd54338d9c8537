//! Questions that an index answers.

ghost use Rattle.std.specs.Prelude.{◌≡◌, Err, IfOk, OnOk, false, IsPermutation};
ghost use Rattle.std.specs.List.{list_any};
ghost use Rattle.std.specs.Str.{bytes_eq};
ghost use Rattle.sqlite.specs.Held.{state};
ghost use Rattle.sqlite.specs.State.{HasCleanDisk, Shows};
ghost use Rattle.store_sql.specs.Rows.{RowsOf};
ghost use Rattle.store_sql.specs.Holds.{Holds, OnlyAsks};
ghost use Rattle.store_sql.specs.Lookups as the;
ghost use Rattle.store_sql.specs.Lookups.{IsLast};
ghost use Rattle.store_sql.specs.declared.rows_fault.RowsFault.TheVariants.{BadRow};

use crate::query::{ask, fetch_open};
use crate::rows::{ChangeRow, ReceiptRow, RecordRow};
use crate::rows_fault::RowsFault;
use sqlite::{Alter, Connection, params};
use std::alloc::Global;

/// Whether there is a zone of an origin. Each question here fails with `Store` where the store does, with `NoMemory` where memory
/// runs out, and with `BadRow` where a row cannot have been written here.
pub fn has_zone<S: Alter>(conn: &mut Connection<S>, origin: &str) -> Result<bool, RowsFault>
    requires { conn.old.in_transaction ≡ false }
    ensures answer { HasCleanDisk (state S.Store conn.new)
        → IfOk result (λ yes. (rows : RowsOf) → Holds (state S.Store conn.old) rows → yes ≡ list_any (bytes_eq origin.now) rows.zones) }
    ensures asks { OnlyAsks (state S.Store conn.old) (state S.Store conn.new) }
    ensures same { HasCleanDisk (state S.Store conn.new)
        → OnOk result (Shows (state S.Store conn.old) (state S.Store conn.new) (state S.Store conn.old).now (state S.Store conn.old).now false) }
    ensures only { HasCleanDisk (state S.Store conn.new)
        → OnOk result ((rows : RowsOf) → Holds (state S.Store conn.new) rows → Holds (state S.Store conn.old) rows) }
    ensures bad { HasCleanDisk (state S.Store conn.new) → result ≡ Err BadRow → (rows : RowsOf) → Holds (state S.Store conn.old) rows → ⊥ }
{
    let zones = fetch_open(
        conn,
        "SELECT origin FROM zones WHERE origin = ?1",
        params![origin],
    )?;
    Ok(!zones.is_empty())
}

/// The records of a zone, in any order.
pub fn records_of<S: Alter>(
    alloc: Global,
    conn: &mut Connection<S>,
    origin: &str,
) -> Result<Vec<RecordRow>, RowsFault>
    requires { conn.old.in_transaction ≡ false }
    ensures answer { HasCleanDisk (state S.Store conn.new)
        → IfOk result (λ xs. (rows : RowsOf) → Holds (state S.Store conn.old) rows → IsPermutation (the.records_of origin.now rows.records) xs.items) }
    ensures asks { OnlyAsks (state S.Store conn.old) (state S.Store conn.new) }
    ensures same { HasCleanDisk (state S.Store conn.new)
        → OnOk result (Shows (state S.Store conn.old) (state S.Store conn.new) (state S.Store conn.old).now (state S.Store conn.old).now false) }
    ensures only { HasCleanDisk (state S.Store conn.new)
        → OnOk result ((rows : RowsOf) → Holds (state S.Store conn.new) rows → Holds (state S.Store conn.old) rows) }
    ensures bad { HasCleanDisk (state S.Store conn.new) → result ≡ Err BadRow → (rows : RowsOf) → Holds (state S.Store conn.old) rows → ⊥ }
{
    ask(
        alloc,
        conn,
        "SELECT origin, owner, type, data, ttl, owner_key FROM records WHERE origin = ?1",
        params![origin],
    )
}

/// The records of a zone whose owner has a key, in any order.
pub fn records_at<S: Alter>(
    alloc: Global,
    conn: &mut Connection<S>,
    origin: &str,
    owner_key: &[u8],
) -> Result<Vec<RecordRow>, RowsFault>
    requires { conn.old.in_transaction ≡ false }
    ensures answer { HasCleanDisk (state S.Store conn.new)
        → IfOk result
        (λ xs. (rows : RowsOf) → Holds (state S.Store conn.old) rows → IsPermutation (the.records_at origin.now owner_key.now rows.records) xs.items) }
    ensures asks { OnlyAsks (state S.Store conn.old) (state S.Store conn.new) }
    ensures same { HasCleanDisk (state S.Store conn.new)
        → OnOk result (Shows (state S.Store conn.old) (state S.Store conn.new) (state S.Store conn.old).now (state S.Store conn.old).now false) }
    ensures only { HasCleanDisk (state S.Store conn.new)
        → OnOk result ((rows : RowsOf) → Holds (state S.Store conn.new) rows → Holds (state S.Store conn.old) rows) }
    ensures bad { HasCleanDisk (state S.Store conn.new) → result ≡ Err BadRow → (rows : RowsOf) → Holds (state S.Store conn.old) rows → ⊥ }
{
    ask(
        alloc,
        conn,
        "SELECT origin, owner, type, data, ttl, owner_key FROM records WHERE origin = ?1 AND owner_key = ?2",
        params![origin, owner_key],
    )
}

/// The records of a zone whose owners have keys from one on and below another, in the order of octets; in any order.
pub fn records_between<S: Alter>(
    alloc: Global,
    conn: &mut Connection<S>,
    origin: &str,
    from: &[u8],
    to: &[u8],
) -> Result<Vec<RecordRow>, RowsFault>
    requires { conn.old.in_transaction ≡ false }
    ensures answer { HasCleanDisk (state S.Store conn.new)
        → IfOk result
        (λ xs. (rows : RowsOf) → Holds (state S.Store conn.old) rows
        → IsPermutation (the.records_between origin.now from.now to.now rows.records) xs.items) }
    ensures asks { OnlyAsks (state S.Store conn.old) (state S.Store conn.new) }
    ensures same { HasCleanDisk (state S.Store conn.new)
        → OnOk result (Shows (state S.Store conn.old) (state S.Store conn.new) (state S.Store conn.old).now (state S.Store conn.old).now false) }
    ensures only { HasCleanDisk (state S.Store conn.new)
        → OnOk result ((rows : RowsOf) → Holds (state S.Store conn.new) rows → Holds (state S.Store conn.old) rows) }
    ensures bad { HasCleanDisk (state S.Store conn.new) → result ≡ Err BadRow → (rows : RowsOf) → Holds (state S.Store conn.old) rows → ⊥ }
{
    ask(
        alloc,
        conn,
        "SELECT origin, owner, type, data, ttl, owner_key FROM records WHERE origin = ?1 AND owner_key >= ?2 AND owner_key < ?3",
        params![origin, from, to],
    )
}

/// The receipts of a caller under an identifier.
pub fn receipts_of<S: Alter>(
    alloc: Global,
    conn: &mut Connection<S>,
    caller: &str,
    id: &str,
) -> Result<Vec<ReceiptRow>, RowsFault>
    requires { conn.old.in_transaction ≡ false }
    ensures answer { HasCleanDisk (state S.Store conn.new)
        → IfOk result
        (λ xs. (rows : RowsOf) → Holds (state S.Store conn.old) rows → IsPermutation (the.receipts_of caller.now id.now rows.receipts) xs.items) }
    ensures asks { OnlyAsks (state S.Store conn.old) (state S.Store conn.new) }
    ensures same { HasCleanDisk (state S.Store conn.new)
        → OnOk result (Shows (state S.Store conn.old) (state S.Store conn.new) (state S.Store conn.old).now (state S.Store conn.old).now false) }
    ensures only { HasCleanDisk (state S.Store conn.new)
        → OnOk result ((rows : RowsOf) → Holds (state S.Store conn.new) rows → Holds (state S.Store conn.old) rows) }
    ensures bad { HasCleanDisk (state S.Store conn.new) → result ≡ Err BadRow → (rows : RowsOf) → Holds (state S.Store conn.old) rows → ⊥ }
{
    ask(
        alloc,
        conn,
        "SELECT caller, id, origin, request, reply FROM receipts WHERE caller = ?1 AND id = ?2",
        params![caller, id],
    )
}

/// What the changes of a zone took away and brought, in any order.
pub fn changes_of<S: Alter>(
    alloc: Global,
    conn: &mut Connection<S>,
    origin: &str,
) -> Result<Vec<ChangeRow>, RowsFault>
    requires { conn.old.in_transaction ≡ false }
    ensures answer { HasCleanDisk (state S.Store conn.new)
        → IfOk result (λ xs. (rows : RowsOf) → Holds (state S.Store conn.old) rows → IsPermutation (the.changes_of origin.now rows.changes) xs.items) }
    ensures asks { OnlyAsks (state S.Store conn.old) (state S.Store conn.new) }
    ensures same { HasCleanDisk (state S.Store conn.new)
        → OnOk result (Shows (state S.Store conn.old) (state S.Store conn.new) (state S.Store conn.old).now (state S.Store conn.old).now false) }
    ensures only { HasCleanDisk (state S.Store conn.new)
        → OnOk result ((rows : RowsOf) → Holds (state S.Store conn.new) rows → Holds (state S.Store conn.old) rows) }
    ensures bad { HasCleanDisk (state S.Store conn.new) → result ≡ Err BadRow → (rows : RowsOf) → Holds (state S.Store conn.old) rows → ⊥ }
{
    ask(
        alloc,
        conn,
        "SELECT origin, number, side, owner, type, data, ttl FROM changes WHERE origin = ?1",
        params![origin],
    )
}

/// What the changes of a zone from a number on and below another took away and brought, in any order. They are found without a look at
/// the others.
pub fn changes_between<S: Alter>(
    alloc: Global,
    conn: &mut Connection<S>,
    origin: &str,
    from: i64,
    to: i64,
) -> Result<Vec<ChangeRow>, RowsFault>
    requires { conn.old.in_transaction ≡ false }
    ensures answer { HasCleanDisk (state S.Store conn.new)
        → IfOk result
        (λ xs. (rows : RowsOf) → Holds (state S.Store conn.old) rows → IsPermutation (the.changes_between origin.now from to rows.changes) xs.items) }
    ensures asks { OnlyAsks (state S.Store conn.old) (state S.Store conn.new) }
    ensures same { HasCleanDisk (state S.Store conn.new)
        → OnOk result (Shows (state S.Store conn.old) (state S.Store conn.new) (state S.Store conn.old).now (state S.Store conn.old).now false) }
    ensures only { HasCleanDisk (state S.Store conn.new)
        → OnOk result ((rows : RowsOf) → Holds (state S.Store conn.new) rows → Holds (state S.Store conn.old) rows) }
    ensures bad { HasCleanDisk (state S.Store conn.new) → result ≡ Err BadRow → (rows : RowsOf) → Holds (state S.Store conn.old) rows → ⊥ }
{
    ask(
        alloc,
        conn,
        "SELECT origin, number, side, owner, type, data, ttl FROM changes WHERE origin = ?1 AND number >= ?2 AND number < ?3",
        params![origin, from, to],
    )
}

/// The greatest number of a change of a zone, where the zone has changes. It is found without a look at the others.
pub fn last_number<S: Alter>(
    alloc: Global,
    conn: &mut Connection<S>,
    origin: &str,
) -> Result<Option<i64>, RowsFault>
    requires { conn.old.in_transaction ≡ false }
    ensures answer { HasCleanDisk (state S.Store conn.new)
        → IfOk result (λ last. (rows : RowsOf) → Holds (state S.Store conn.old) rows → IsLast (the.changes_of origin.now rows.changes) last) }
    ensures asks { OnlyAsks (state S.Store conn.old) (state S.Store conn.new) }
    ensures same { HasCleanDisk (state S.Store conn.new)
        → OnOk result (Shows (state S.Store conn.old) (state S.Store conn.new) (state S.Store conn.old).now (state S.Store conn.old).now false) }
    ensures only { HasCleanDisk (state S.Store conn.new)
        → OnOk result ((rows : RowsOf) → Holds (state S.Store conn.new) rows → Holds (state S.Store conn.old) rows) }
    ensures bad { HasCleanDisk (state S.Store conn.new) → result ≡ Err BadRow → (rows : RowsOf) → Holds (state S.Store conn.old) rows → ⊥ }
{
    let numbers: Vec<i64> = ask(
        alloc,
        conn,
        "SELECT number FROM changes WHERE origin = ?1 ORDER BY number DESC LIMIT 1",
        params![origin],
    )?;
    Ok(numbers.first().copied())
}
