//! The rows of a batch, all in one transaction.

ghost use Rattle.std.specs.Prelude.{◌≡◌, ◌⊎◌, ◌∷◌, [], ℕ, Ok, false, IfOk, OnOk, OnErr};
ghost use Rattle.sqlite.specs.Values.{bound};
ghost use Rattle.sqlite.specs.Held.{state};
ghost use Rattle.sqlite.specs.State.{HasCleanDisk, Executes};
ghost use Rattle.store_sql.specs.Rows.{RowsOf, versions_with, written};
ghost use Rattle.store_sql.specs.Holds.{AreRows, Holds, Leaves, IsGoing, Keeps, Stays, Part};
ghost use Rattle.store_sql.specs.Statements.{with_each, with_record, with_replaced, without_record, without_records};
ghost use Rattle.store_sql.specs.Stores.{IsReadableRow};
ghost use Rattle.store_sql.specs.Tables.{stored_record, stored_change};

use crate::rows::{Batch, ChangeRow, ReceiptRow, RecordRow};
use crate::rows_fault::RowsFault;
use crate::writing::{Writing, write_at_once};
use sqlite::{Alter, Connection, Error, Transaction, params};
use sqlite_value::value::ValueRef;

/// Runs a statement in a transaction that is still open, and answers how many rows it wrote.
pub(crate) fn run_counted<S: Alter>(
    tx: &mut Transaction<'_, S>,
    sql: &str,
    params: &[ValueRef<'_>],
) -> Result<usize, Error>
    ensures same_reference { tx.new.conn.ghost_name ≡ tx.old.conn.ghost_name }
    ensures stays { Stays (state S.Store tx.old.conn.now) (state S.Store tx.new.conn.now) }
    ensures ran { HasCleanDisk (state S.Store tx.new.conn.now)
        → IfOk result (λ count. Executes sql.now (bound params.now) (state S.Store tx.old.conn.now) (state S.Store tx.new.conn.now) (Ok count)) }
    ensures going { HasCleanDisk (state S.Store tx.new.conn.now) → OnOk result (IsGoing (state S.Store tx.new.conn.now)) }
{
    Ok(tx.execute(sql, params)?)
}

/// Runs a statement in a transaction that is still open.
pub(crate) fn run<S: Alter>(
    tx: &mut Transaction<'_, S>,
    sql: &str,
    params: &[ValueRef<'_>],
) -> Result<(), Error>
    ensures same_reference { tx.new.conn.ghost_name ≡ tx.old.conn.ghost_name }
    ensures stays { Stays (state S.Store tx.old.conn.now) (state S.Store tx.new.conn.now) }
    ensures ran { HasCleanDisk (state S.Store tx.new.conn.now)
        → OnOk result ((count : ℕ) × Executes sql.now (bound params.now) (state S.Store tx.old.conn.now) (state S.Store tx.new.conn.now) (Ok count)) }
    ensures going { HasCleanDisk (state S.Store tx.new.conn.now) → OnOk result (IsGoing (state S.Store tx.new.conn.now)) }
{
    run_counted(tx, sql, params)?;
    Ok(())
}

/// A row that is put into its table.
pub(crate) trait Insert {
    // all rows with it
    ghost with: { Self → RowsOf → RowsOf };

    fn insert<S: Alter>(&self, tx: &mut Transaction<'_, S>) -> Result<(), Error>
        ensures same_reference { tx.new.conn.ghost_name ≡ tx.old.conn.ghost_name }
        ensures stays { Stays (state S.Store tx.old.conn.now) (state S.Store tx.new.conn.now) }
        ensures part { OnOk result (Part (state S.Store tx.old.conn.now) (state S.Store tx.new.conn.now) (with self.now)) }
        ensures going { HasCleanDisk (state S.Store tx.new.conn.now) → OnOk result (IsGoing (state S.Store tx.new.conn.now)) };
}

/// A row that is put into its table together with others, by one statement: what a statement costs beside its rows is
/// spent once.
trait InsertRows: Insert {
    fn insert_two<'a, S: Alter>(
        tx: &mut Transaction<'_, S>,
        first: &'a Self,
        second: &'a Self,
    ) -> Result<(), Error>
        ensures same_reference { tx.new.conn.ghost_name ≡ tx.old.conn.ghost_name }
        ensures stays { Stays (state S.Store tx.old.conn.now) (state S.Store tx.new.conn.now) }
        ensures part { OnOk result
            (Part (state S.Store tx.old.conn.now) (state S.Store tx.new.conn.now) (with_each Self.Insert.with (first.now ∷ second.now ∷ []))) }
        ensures going { HasCleanDisk (state S.Store tx.new.conn.now) → OnOk result (IsGoing (state S.Store tx.new.conn.now)) };

    fn insert_three<'a, S: Alter>(
        tx: &mut Transaction<'_, S>,
        first: &'a Self,
        second: &'a Self,
        third: &'a Self,
    ) -> Result<(), Error>
        ensures same_reference { tx.new.conn.ghost_name ≡ tx.old.conn.ghost_name }
        ensures stays { Stays (state S.Store tx.old.conn.now) (state S.Store tx.new.conn.now) }
        ensures part { OnOk result
            (Part (state S.Store tx.old.conn.now) (state S.Store tx.new.conn.now) (with_each Self.Insert.with (first.now ∷ second.now ∷ third.now ∷ []))) }
        ensures going { HasCleanDisk (state S.Store tx.new.conn.now) → OnOk result (IsGoing (state S.Store tx.new.conn.now)) };
}

impl Insert for i64 {
    ghost use Rattle.store_sql.specs.Statements.{with_version};

    ghost with = { with_version };

    fn insert<S: Alter>(&self, tx: &mut Transaction<'_, S>) -> Result<(), Error> {
        run(tx, "INSERT INTO meta VALUES (?)", params![self])
    }
}

impl Insert for String {
    ghost use Rattle.std.specs.Prelude.{string_bytes};
    ghost use Rattle.store_sql.specs.Statements.{with_zone};

    ghost with = { λ t. with_zone (string_bytes t) };

    fn insert<S: Alter>(&self, tx: &mut Transaction<'_, S>) -> Result<(), Error> {
        run(tx, "INSERT INTO zones VALUES (?)", params![self.as_str()])
    }
}

impl RecordRow {
    /// The values of its columns.
    fn values(&self) -> [ValueRef<'_>; 6]
        ensures value { bound result ≡ stored_record self.now }
        ensures readable { IsReadableRow (stored_record self.now) }
    {
        [
            ValueRef::Text(self.origin.as_bytes()),
            ValueRef::Text(self.owner.as_bytes()),
            ValueRef::Int(self.record_type),
            ValueRef::Text(self.rdata.as_bytes()),
            ValueRef::Int(self.ttl),
            ValueRef::Blob(self.owner_key.as_slice()),
        ]
    }
}

impl Insert for RecordRow {
    ghost use Rattle.store_sql.specs.Statements.{with_record};

    ghost with = { with_record };

    fn insert<S: Alter>(&self, tx: &mut Transaction<'_, S>) -> Result<(), Error> {
        run(
            tx,
            "INSERT INTO records VALUES (?, ?, ?, ?, ?, ?)",
            &self.values(),
        )
    }
}

impl InsertRows for RecordRow {
    fn insert_two<'a, S: Alter>(
        tx: &mut Transaction<'_, S>,
        first: &'a Self,
        second: &'a Self,
    ) -> Result<(), Error> {
        run(
            tx,
            "INSERT INTO records VALUES (?, ?, ?, ?, ?, ?), (?, ?, ?, ?, ?, ?)",
            [first.values(), second.values()].as_flattened(),
        )
    }

    fn insert_three<'a, S: Alter>(
        tx: &mut Transaction<'_, S>,
        first: &'a Self,
        second: &'a Self,
        third: &'a Self,
    ) -> Result<(), Error> {
        run(
            tx,
            "INSERT INTO records VALUES (?, ?, ?, ?, ?, ?), (?, ?, ?, ?, ?, ?), (?, ?, ?, ?, ?, ?)",
            [first.values(), second.values(), third.values()].as_flattened(),
        )
    }
}

impl Insert for ReceiptRow {
    ghost use Rattle.store_sql.specs.Statements.{with_receipt};

    ghost with = { with_receipt };

    fn insert<S: Alter>(&self, tx: &mut Transaction<'_, S>) -> Result<(), Error> {
        run(
            tx,
            "INSERT INTO receipts VALUES (?, ?, ?, ?, ?)",
            params![
                self.caller.as_str(),
                self.id.as_str(),
                self.origin.as_str(),
                self.request.as_str(),
                self.reply.as_str(),
            ],
        )
    }
}

impl ChangeRow {
    /// The values of its columns.
    fn values(&self) -> [ValueRef<'_>; 7]
        ensures value { bound result ≡ stored_change self.now }
        ensures readable { IsReadableRow (stored_change self.now) }
    {
        [
            ValueRef::Text(self.origin.as_bytes()),
            ValueRef::Int(self.number),
            ValueRef::Int(self.side),
            ValueRef::Text(self.owner.as_bytes()),
            ValueRef::Int(self.record_type),
            ValueRef::Text(self.rdata.as_bytes()),
            ValueRef::Int(self.ttl),
        ]
    }
}

impl Insert for ChangeRow {
    ghost use Rattle.store_sql.specs.Statements.{with_change};

    ghost with = { with_change };

    fn insert<S: Alter>(&self, tx: &mut Transaction<'_, S>) -> Result<(), Error> {
        run(
            tx,
            "INSERT INTO changes VALUES (?, ?, ?, ?, ?, ?, ?)",
            &self.values(),
        )
    }
}

impl InsertRows for ChangeRow {
    fn insert_two<'a, S: Alter>(
        tx: &mut Transaction<'_, S>,
        first: &'a Self,
        second: &'a Self,
    ) -> Result<(), Error> {
        run(
            tx,
            "INSERT INTO changes VALUES (?, ?, ?, ?, ?, ?, ?), (?, ?, ?, ?, ?, ?, ?)",
            [first.values(), second.values()].as_flattened(),
        )
    }

    fn insert_three<'a, S: Alter>(
        tx: &mut Transaction<'_, S>,
        first: &'a Self,
        second: &'a Self,
        third: &'a Self,
    ) -> Result<(), Error> {
        run(
            tx,
            "INSERT INTO changes VALUES (?, ?, ?, ?, ?, ?, ?), (?, ?, ?, ?, ?, ?, ?), (?, ?, ?, ?, ?, ?, ?)",
            [first.values(), second.values(), third.values()].as_flattened(),
        )
    }
}

fn insert_all<S: Alter, T: Insert>(tx: &mut Transaction<'_, S>, all: &[T]) -> Result<(), Error>
    ensures same_reference { tx.new.conn.ghost_name ≡ tx.old.conn.ghost_name }
    ensures stays { Stays (state S.Store tx.old.conn.now) (state S.Store tx.new.conn.now) }
    ensures part { OnOk result (Part (state S.Store tx.old.conn.now) (state S.Store tx.new.conn.now) (with_each T.Insert.with all.now)) }
    ensures going { IsGoing (state S.Store tx.old.conn.now) → HasCleanDisk (state S.Store tx.new.conn.now)
        → OnOk result (IsGoing (state S.Store tx.new.conn.now)) }
{
    for one in all {
        one.insert(tx)?;
    }
    Ok(())
}

/// One to three rows by one statement, and others one by one.
fn insert_some<S: Alter, T: InsertRows>(
    tx: &mut Transaction<'_, S>,
    some: &[T],
) -> Result<(), Error>
    ensures same_reference { tx.new.conn.ghost_name ≡ tx.old.conn.ghost_name }
    ensures stays { Stays (state S.Store tx.old.conn.now) (state S.Store tx.new.conn.now) }
    ensures part { OnOk result (Part (state S.Store tx.old.conn.now) (state S.Store tx.new.conn.now) (with_each T.Insert.with some.now)) }
    ensures going { IsGoing (state S.Store tx.old.conn.now) → HasCleanDisk (state S.Store tx.new.conn.now)
        → OnOk result (IsGoing (state S.Store tx.new.conn.now)) }
{
    match some {
        [first, second, third] => T::insert_three(tx, first, second, third),
        [first, second] => T::insert_two(tx, first, second),
        others => insert_all(tx, others),
    }
}

/// All rows, three by three.
fn insert_rows<S: Alter, T: InsertRows>(tx: &mut Transaction<'_, S>, all: &[T]) -> Result<(), Error>
    ensures same_reference { tx.new.conn.ghost_name ≡ tx.old.conn.ghost_name }
    ensures stays { Stays (state S.Store tx.old.conn.now) (state S.Store tx.new.conn.now) }
    ensures part { OnOk result (Part (state S.Store tx.old.conn.now) (state S.Store tx.new.conn.now) (with_each T.Insert.with all.now)) }
    ensures going { IsGoing (state S.Store tx.old.conn.now) → HasCleanDisk (state S.Store tx.new.conn.now)
        → OnOk result (IsGoing (state S.Store tx.new.conn.now)) }
{
    for some in all.chunks(3) {
        insert_some(tx, some)?;
    }
    Ok(())
}

fn delete_record<S: Alter>(tx: &mut Transaction<'_, S>, gone: &RecordRow) -> Result<(), Error>
    ensures same_reference { tx.new.conn.ghost_name ≡ tx.old.conn.ghost_name }
    ensures stays { Stays (state S.Store tx.old.conn.now) (state S.Store tx.new.conn.now) }
    ensures part { OnOk result (Part (state S.Store tx.old.conn.now) (state S.Store tx.new.conn.now) (without_record gone.now)) }
    ensures going { HasCleanDisk (state S.Store tx.new.conn.now) → OnOk result (IsGoing (state S.Store tx.new.conn.now)) }
{
    run(
        tx,
        "DELETE FROM records WHERE origin = ?1 AND owner = ?2 AND type = ?3 AND data = ?4",
        params![
            gone.origin.as_str(),
            gone.owner.as_str(),
            &gone.record_type,
            gone.rdata.as_str(),
        ],
    )
}

fn delete_records<S: Alter>(tx: &mut Transaction<'_, S>, removed: &[RecordRow]) -> Result<(), Error>
    ensures same_reference { tx.new.conn.ghost_name ≡ tx.old.conn.ghost_name }
    ensures stays { Stays (state S.Store tx.old.conn.now) (state S.Store tx.new.conn.now) }
    ensures part { OnOk result (Part (state S.Store tx.old.conn.now) (state S.Store tx.new.conn.now) (without_records removed.now)) }
    ensures going { IsGoing (state S.Store tx.old.conn.now) → HasCleanDisk (state S.Store tx.new.conn.now)
        → OnOk result (IsGoing (state S.Store tx.new.conn.now)) }
{
    for gone in removed {
        delete_record(tx, gone)?;
    }
    Ok(())
}

/// Puts a row in the place of the one that has the key of another, and answers whether there was one.
fn update_record<'a, S: Alter>(
    tx: &mut Transaction<'_, S>,
    gone: &'a RecordRow,
    new: &'a RecordRow,
) -> Result<bool, Error>
    ensures same_reference { tx.new.conn.ghost_name ≡ tx.old.conn.ghost_name }
    ensures stays { Stays (state S.Store tx.old.conn.now) (state S.Store tx.new.conn.now) }
    ensures part { IfOk result (λ found. Part (state S.Store tx.old.conn.now) (state S.Store tx.new.conn.now) (with_replaced found gone.now new.now)) }
    ensures going { HasCleanDisk (state S.Store tx.new.conn.now) → OnOk result (IsGoing (state S.Store tx.new.conn.now)) }
{
    let count = run_counted(
        tx,
        "UPDATE records SET origin = ?7, owner = ?8, type = ?9, data = ?10, ttl = ?11, owner_key = ?12 WHERE origin = ?1 AND owner = ?2 AND type = ?3 AND data = ?4",
        [gone.values(), new.values()].as_flattened(),
    )?;
    Ok(count > 0)
}

/// A row goes and another comes, in its place if it is there: what the two have alike is not written again.
fn replace_record<'a, S: Alter>(
    tx: &mut Transaction<'_, S>,
    gone: &'a RecordRow,
    new: &'a RecordRow,
) -> Result<(), Error>
    ensures same_reference { tx.new.conn.ghost_name ≡ tx.old.conn.ghost_name }
    ensures stays { Stays (state S.Store tx.old.conn.now) (state S.Store tx.new.conn.now) }
    ensures part { OnOk result
        (Part (state S.Store tx.old.conn.now) (state S.Store tx.new.conn.now) (λ rows. with_record new.now (without_record gone.now rows))) }
    ensures going { HasCleanDisk (state S.Store tx.new.conn.now) → OnOk result (IsGoing (state S.Store tx.new.conn.now)) }
{
    if update_record(tx, gone, new)? {
        return Ok(());
    }
    new.insert(tx)
}

/// Records that go, and then others that come. The first of these is put in the place of the first that goes: in a change
/// of a zone both are its SOA.
fn write_records<'a, S: Alter>(
    tx: &mut Transaction<'_, S>,
    removed: &'a [RecordRow],
    added: &'a [RecordRow],
) -> Result<(), Error>
    ensures same_reference { tx.new.conn.ghost_name ≡ tx.old.conn.ghost_name }
    ensures stays { Stays (state S.Store tx.old.conn.now) (state S.Store tx.new.conn.now) }
    ensures part { OnOk result
        (Part (state S.Store tx.old.conn.now) (state S.Store tx.new.conn.now) (λ rows. with_each with_record added.now (without_records removed.now rows))) }
    ensures going { IsGoing (state S.Store tx.old.conn.now) → HasCleanDisk (state S.Store tx.new.conn.now)
        → OnOk result (IsGoing (state S.Store tx.new.conn.now)) }
{
    let ([gone, removed @ ..], [new, added @ ..]) = (removed, added) else {
        delete_records(tx, removed)?;
        return insert_rows(tx, added);
    };
    delete_records(tx, removed)?;
    replace_record(tx, gone, new)?;
    insert_rows(tx, added)
}

fn set_version<S: Alter>(tx: &mut Transaction<'_, S>, version: Option<i64>) -> Result<(), Error>
    ensures same_reference { tx.new.conn.ghost_name ≡ tx.old.conn.ghost_name }
    ensures stays { Stays (state S.Store tx.old.conn.now) (state S.Store tx.new.conn.now) }
    ensures part { OnOk result
        (Part (state S.Store tx.old.conn.now) (state S.Store tx.new.conn.now) (λ rows. record rows { versions = versions_with version rows.versions })) }
    ensures going { IsGoing (state S.Store tx.old.conn.now) → HasCleanDisk (state S.Store tx.new.conn.now)
        → OnOk result (IsGoing (state S.Store tx.new.conn.now)) }
{
    let Some(version) = version else {
        return Ok(());
    };
    run(tx, "DELETE FROM meta", &[])?;
    version.insert(tx)
}

impl Writing for Batch {
    ghost use Rattle.store_sql.specs.Rows.{written};

    ghost after = { written };

    fn write_all<S: Alter>(&self, tx: &mut Transaction<'_, S>) -> Result<(), Error> {
        insert_all(tx, &self.zones)?;
        write_records(tx, &self.removed, &self.added)?;
        insert_rows(tx, &self.changes)?;
        insert_all(tx, &self.receipts)?;
        set_version(tx, self.version)
    }
}

/// Writes all of a batch in one transaction, whose commit is the last call of the store: the rows of `removed` go, by
/// their keys, and then the others come. `Store` comes where the store fails, or where a key is taken; `NoMemory` where
/// memory runs out. Then nothing changes.
pub fn write<S: Alter>(conn: &mut Connection<S>, batch: &Batch) -> Result<(), RowsFault>
    requires { conn.old.in_transaction ≡ false }
    ensures made { OnOk result ((rows : RowsOf) → Holds (state S.Store conn.old) rows → Holds (state S.Store conn.new) (written batch.now rows)) }
    // The connection shows what it showed, whatever that is.
    ensures failed { OnErr result (Keeps (state S.Store conn.old) (state S.Store conn.new)) }
    ensures kept { OnOk result
        ((rows : RowsOf) → Holds (state S.Store conn.old) rows → Leaves (state S.Store conn.new) (λ db. AreRows db (written batch.now rows))) }
    ensures crash { OnErr result
        ((rows : RowsOf) → Holds (state S.Store conn.old) rows
        → Leaves (state S.Store conn.new) (λ db. (state S.Store conn.old).may_leave db ⊎ AreRows db (written batch.now rows))) }
    ensures honest { HasCleanDisk (state S.Store conn.new) → HasCleanDisk (state S.Store conn.old) }
    ensures ended { conn.new.in_transaction ≡ false }
{
    write_at_once(conn, batch)
}
