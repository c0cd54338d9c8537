//! What is asked of the rows for a part of the state.

ghost use Rattle.std.specs.Prelude.{◌≡◌, ◌+◌, ◌∷◌, false, pos, map, IfOk, IfErr, IfSome, IsTrue, OnOk, is_some, string_bytes, IsPermutation};
ghost use Rattle.sqlite.specs.Held.{state};
ghost use Rattle.sqlite.specs.State.{HasCleanDisk, Shows};
ghost use Rattle.dns_names.specs.Keys.{key_of};
ghost use Rattle.dns_names.specs.Labels.{IsName};
ghost use Rattle.dns_names.specs.Spelling.{name_text};
ghost use Rattle.office_model.specs.States.{State};
ghost use Rattle.store_sql.specs.Rows.{RowsOf};
ghost use Rattle.store_sql.specs.Holds.{Holds, Keeps, OnlyAsks};
ghost use Rattle.store_sql.specs.Lookups.{records_of as rows_of, records_at, changes_of as changes_in, changes_between as changes_in_between};
ghost use Rattle.store_rows.specs.Contents.{AreOfState};
ghost use Rattle.store_rows.specs.PartRows.{AreRowsAt, rows_within};
ghost use Rattle.store_faults.specs.StoreFaults.{IsFailure};
ghost use Rattle.office_store.specs.Holds.{HoldsState};
ghost use Rattle.office_store.specs.Queries.{AsksOnly, Finds, Stands};

use dns_names::Name;
use sqlite::{Alter, Connection, Error as StoreError, ErrorCode};
use std::alloc::Global;
use store_faults::StoreFault;
use store_sql::{
    ChangeRow, RecordRow, changes_between, changes_of, has_zone, records_at, records_between,
    records_of,
};

/// What its type says of a name. It does nothing when it runs.
pub(crate) fn reveal_name(name: &Name)
    ensures { IsName name.now }
{
    let _ = name.labels();
}

/// Tells whether no transaction goes on, as none does between two calls.
pub(crate) fn check_alone<S: Alter>(conn: &Connection<S>) -> Result<(), StoreFault>
    ensures alone { OnOk result (conn.now.in_transaction ≡ false) }
    ensures named { IfErr result IsFailure }
{
    if conn.is_autocommit() {
        return Ok(());
    }
    Err(StoreFault::Store(StoreError::SqliteFailure(ErrorCode::TransactionState)))
}

/// Tells whether the store has not shut the connection.
pub(crate) fn check_open<S: Alter>(conn: &mut Connection<S>) -> Result<(), StoreFault>
    ensures open { HasCleanDisk (state S.Store conn.new) → OnOk result (IsTrue (state S.Store conn.old).is_open) }
    ensures asks { AsksOnly (state S.Store conn.old) (state S.Store conn.new) result }
    ensures shown { Keeps (state S.Store conn.old) (state S.Store conn.new) }
    ensures ended { conn.old.in_transaction ≡ false → conn.new.in_transaction ≡ false }
    ensures named { IfErr result IsFailure }
{
    let _statement = conn.prepare("")?;
    Ok(())
}

/// The text of an origin, where there is a zone of it.
pub(crate) fn held_text<S: Alter>(
    alloc: Global,
    conn: &mut Connection<S>,
    origin: &Name,
) -> Result<Option<String>, StoreFault>
    ensures text { IfOk result (λ found. IfSome found (λ text. string_bytes text ≡ name_text origin.now)) }
    ensures found { HasCleanDisk (state S.Store conn.new)
        → IfOk result (λ found. (s : State) → HoldsState (state S.Store conn.old) s → is_some found ≡ is_some (s.zones origin.now)) }
    ensures asks { AsksOnly (state S.Store conn.old) (state S.Store conn.new) result }
    ensures ended { OnOk result (conn.new.in_transaction ≡ false) }
    ensures named { IfErr result IsFailure }
{
    check_alone(conn)?;
    let text = origin.text(alloc)?;
    reveal_name(origin);
    let is_held = has_zone(conn, &text)?;
    if is_held { Ok(Some(text)) } else { Ok(None) }
}

/// The rows of a zone's records, in any order, where there is the zone.
pub(crate) fn zone_rows<S: Alter>(
    alloc: Global,
    conn: &mut Connection<S>,
    origin: &Name,
) -> Result<Option<Vec<RecordRow>>, StoreFault>
    ensures found { HasCleanDisk (state S.Store conn.new)
        → IfOk result
        (λ found. (s : State) → HoldsState (state S.Store conn.old) s
        → Finds (λ all rows. IsPermutation (rows_of (name_text origin.now) all.records) rows.items) s origin.now found) }
    ensures asks { AsksOnly (state S.Store conn.old) (state S.Store conn.new) result }
    ensures ended { OnOk result (conn.new.in_transaction ≡ false) }
    ensures named { IfErr result IsFailure }
{
    let Some(text) = held_text(alloc, conn, origin)? else {
        return Ok(None);
    };
    let rows = records_of(alloc, conn, &text)?;
    Ok(Some(rows))
}

/// The rows of a zone's records at the origin and at some names, in any order and however often, where there is the zone.
pub(crate) fn part_rows<S: Alter>(
    alloc: Global,
    conn: &mut Connection<S>,
    origin: &Name,
    names: &[Name],
) -> Result<Option<Vec<RecordRow>>, StoreFault>
    ensures found { HasCleanDisk (state S.Store conn.new)
        → IfOk result
        (λ found. (s : State) → HoldsState (state S.Store conn.old) s
        → Finds (λ all rows. AreRowsAt (name_text origin.now) (map key_of (origin.now ∷ names.now)) all.records rows.items) s origin.now found) }
    ensures asks { AsksOnly (state S.Store conn.old) (state S.Store conn.new) result }
{
    check_alone(conn)?;
    let text = origin.text(alloc)?;
    reveal_name(origin);
    rows_at(alloc, conn, &text, origin, names)
}

/// The rows of the records at the origin of a text and at some names, where some stand at the origin.
fn rows_at<S: Alter>(
    alloc: Global,
    conn: &mut Connection<S>,
    text: &str,
    origin: &Name,
    names: &[Name],
) -> Result<Option<Vec<RecordRow>>, StoreFault>
    requires { conn.old.in_transaction ≡ false }
    ensures found { HasCleanDisk (state S.Store conn.new)
        → IfOk result
        (λ found. (all : RowsOf) → Holds (state S.Store conn.old) all
        → Stands (records_at text.now (key_of origin.now) all.records)
        (λ rows. AreRowsAt text.now (map key_of (origin.now ∷ names.now)) all.records rows.items) found) }
    ensures asks { OnlyAsks (state S.Store conn.old) (state S.Store conn.new) }
    ensures same { HasCleanDisk (state S.Store conn.new)
        → OnOk result (Shows (state S.Store conn.old) (state S.Store conn.new) (state S.Store conn.old).now (state S.Store conn.old).now false) }
{
    let mut rows = records_at(alloc, conn, text, origin.key())?;
    // Each zone has an SOA at its origin.
    if rows.is_empty() {
        return Ok(None);
    }
    for name in names {
        let mut more = records_at(alloc, conn, text, name.key())?;
        rows.append(&mut more)?;
    }
    Ok(Some(rows))
}

/// The rows of a zone's records within a name, in any order, where there is the zone.
pub(crate) fn subtree_rows<S: Alter>(
    alloc: Global,
    conn: &mut Connection<S>,
    origin: &Name,
    top: &Name,
) -> Result<Option<Vec<RecordRow>>, StoreFault>
    ensures found { HasCleanDisk (state S.Store conn.new)
        → IfOk result
        (λ found. (s : State) → HoldsState (state S.Store conn.old) s
        → Finds (λ all rows. IsPermutation (rows_within (name_text origin.now) top.now all.records) rows.items) s origin.now found) }
    ensures asks { AsksOnly (state S.Store conn.old) (state S.Store conn.new) result }
{
    let Some(text) = held_text(alloc, conn, origin)? else {
        return Ok(None);
    };
    let rows = rows_below(alloc, conn, &text, top)?;
    Ok(Some(rows))
}

/// The rows of the records of the origin of a text that are within a name.
fn rows_below<S: Alter>(
    alloc: Global,
    conn: &mut Connection<S>,
    text: &str,
    top: &Name,
) -> Result<Vec<RecordRow>, StoreFault>
    requires { conn.old.in_transaction ≡ false }
    ensures found { HasCleanDisk (state S.Store conn.new)
        → IfOk result (λ rows. (all : RowsOf) → Holds (state S.Store conn.old) all → IsPermutation (rows_within text.now top.now all.records) rows.items) }
    ensures asks { AsksOnly (state S.Store conn.old) (state S.Store conn.new) result }
{
    let range = top.key_range(alloc)?;
    match &range.end {
        Some(end) => Ok(records_between(alloc, conn, text, range.first, end)?),
        None => Ok(records_of(alloc, conn, text)?),
    }
}

/// The rows of a zone's changes, in any order, where there is the zone.
pub(crate) fn change_rows<S: Alter>(
    alloc: Global,
    conn: &mut Connection<S>,
    origin: &Name,
) -> Result<Option<Vec<ChangeRow>>, StoreFault>
    ensures found { HasCleanDisk (state S.Store conn.new)
        → IfOk result
        (λ found. (s : State) → HoldsState (state S.Store conn.old) s
        → Finds (λ all rows. IsPermutation (changes_in (name_text origin.now) all.changes) rows.items) s origin.now found) }
    ensures asks { AsksOnly (state S.Store conn.old) (state S.Store conn.new) result }
    ensures named { IfErr result IsFailure }
{
    let Some(text) = held_text(alloc, conn, origin)? else {
        return Ok(None);
    };
    let rows = changes_of(alloc, conn, &text)?;
    Ok(Some(rows))
}

/// The number of the first change after so many.
fn first_behind(count: u32) -> i64
    ensures { result ≡ pos (1 + count) }
{
    1 + i64::from(count)
}

/// The number of the first change after so many and some more.
fn first_after(count: u32, most: u32) -> i64
    ensures { result ≡ pos (1 + count + most) }
{
    first_behind(count) + i64::from(most)
}

/// The rows of a zone's changes after the first ones, so many, and of at most so many of them; in any order, where there is the zone.
pub(crate) fn change_rows_behind<S: Alter>(
    alloc: Global,
    conn: &mut Connection<S>,
    origin: &Name,
    count: u32,
    most: u32,
) -> Result<Option<Vec<ChangeRow>>, StoreFault>
    ensures found { HasCleanDisk (state S.Store conn.new)
        → IfOk result
        (λ found. (s : State) → HoldsState (state S.Store conn.old) s
        → Finds
        (λ all rows. IsPermutation
        (changes_in_between (name_text origin.now) (pos (1 + count)) (pos (1 + count + most)) all.changes) rows.items) s origin.now found) }
    ensures asks { AsksOnly (state S.Store conn.old) (state S.Store conn.new) result }
{
    let Some(text) = held_text(alloc, conn, origin)? else {
        return Ok(None);
    };
    let from = first_behind(count);
    let to = first_after(count, most);
    let rows = changes_between(alloc, conn, &text, from, to)?;
    Ok(Some(rows))
}
