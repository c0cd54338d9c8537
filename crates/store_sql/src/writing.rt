//! What is written at once, in one transaction.

ghost use Rattle.std.specs.Prelude.{◌≡◌, ◌⊎◌, false, IsTrue, OnOk, OnErr};
ghost use Rattle.sqlite.specs.Held.{state};
ghost use Rattle.sqlite.specs.State.{HasCleanDisk};
ghost use Rattle.store_sql.specs.Rows.{RowsOf};
ghost use Rattle.store_sql.specs.Holds.{AreRows, Holds, IsGoing, Keeps, Leaves, Part, Stays};

use crate::query::check_open;
use crate::rows_fault::RowsFault;
use sqlite::{Alter, Connection, Error, Transaction};

/// What is written in one transaction.
pub(crate) trait Writing {
    // all rows after it
    ghost after: { Self → RowsOf → RowsOf };

    /// All of it, inside a transaction.
    fn write_all<S: Alter>(&self, tx: &mut Transaction<'_, S>) -> Result<(), Error>
        ensures same_reference { tx.new.conn.ghost_name ≡ tx.old.conn.ghost_name }
        ensures stays { Stays (state S.Store tx.old.conn.now) (state S.Store tx.new.conn.now) }
        ensures part { OnOk result (Part (state S.Store tx.old.conn.now) (state S.Store tx.new.conn.now) (after self.now)) }
        ensures going { IsGoing (state S.Store tx.old.conn.now) → HasCleanDisk (state S.Store tx.new.conn.now)
            → OnOk result (IsGoing (state S.Store tx.new.conn.now)) };
}

/// Writes all in a transaction of its own, over a store that is open.
fn commit<S: Alter, W: Writing>(conn: &mut Connection<S>, writing: &W) -> Result<(), Error>
    requires mode { conn.old.in_transaction ≡ false }
    requires opened { HasCleanDisk (state S.Store conn.old) → IsTrue (state S.Store conn.old).is_open }
    ensures made { OnOk result
        ((rows : RowsOf) → Holds (state S.Store conn.old) rows → Holds (state S.Store conn.new) (W.Writing.after writing.now rows)) }
    ensures failed { OnErr result (Keeps (state S.Store conn.old) (state S.Store conn.new)) }
    ensures kept { OnOk result
        ((rows : RowsOf) → Holds (state S.Store conn.old) rows → Leaves (state S.Store conn.new) (λ db. AreRows db (W.Writing.after writing.now rows))) }
    ensures crash { OnErr result
        ((rows : RowsOf) → Holds (state S.Store conn.old) rows
        → Leaves (state S.Store conn.new) (λ db. (state S.Store conn.old).may_leave db ⊎ AreRows db (W.Writing.after writing.now rows))) }
    ensures honest { HasCleanDisk (state S.Store conn.new) → HasCleanDisk (state S.Store conn.old) }
    ensures ended { conn.new.in_transaction ≡ false }
{
    let mut tx = conn.transaction();
    writing.write_all(&mut tx)?;
    tx.commit()
}

/// Writes all in one transaction, whose commit is the last call of the store. `Store` comes where the store fails, or where a
/// key is taken; `NoMemory` where memory runs out. Then nothing changes.
pub(crate) fn write_at_once<S: Alter, W: Writing>(
    conn: &mut Connection<S>,
    writing: &W,
) -> Result<(), RowsFault>
    requires { conn.old.in_transaction ≡ false }
    ensures made { OnOk result
        ((rows : RowsOf) → Holds (state S.Store conn.old) rows → Holds (state S.Store conn.new) (W.Writing.after writing.now rows)) }
    ensures failed { OnErr result (Keeps (state S.Store conn.old) (state S.Store conn.new)) }
    ensures kept { OnOk result
        ((rows : RowsOf) → Holds (state S.Store conn.old) rows → Leaves (state S.Store conn.new) (λ db. AreRows db (W.Writing.after writing.now rows))) }
    ensures crash { OnErr result
        ((rows : RowsOf) → Holds (state S.Store conn.old) rows
        → Leaves (state S.Store conn.new) (λ db. (state S.Store conn.old).may_leave db ⊎ AreRows db (W.Writing.after writing.now rows))) }
    ensures honest { HasCleanDisk (state S.Store conn.new) → HasCleanDisk (state S.Store conn.old) }
    ensures ended { conn.new.in_transaction ≡ false }
{
    check_open(conn)?;
    commit(conn, writing)?;
    Ok(())
}
