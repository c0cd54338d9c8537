//! What is written, so that one state follows another.

ghost use Rattle.std.specs.Prelude.{◌≡◌, ℕ, pos, suc, false, option_map, IfOk, IfErr, OnOk, OnErr};
ghost use Rattle.zone_core.specs.Changes.{change_in};
ghost use Rattle.sqlite.specs.Held.{state};
ghost use Rattle.sqlite.specs.State.{HasCleanDisk};
ghost use Rattle.office_model.specs.States.{State};
ghost use Rattle.office_model.specs.Tables.{Fits, addition_in, committed};
ghost use Rattle.store_rows.specs.States.{last_of};
ghost use Rattle.store_rows.specs.Batches.{Leads, IsNext, receipt_rows};
ghost use Rattle.office_store.specs.Additions.{Writes};
ghost use Rattle.store_faults.specs.StoreFaults.{IsFailure};
ghost use Rattle.office_store.specs.Holds.{HoldsState, LeavesStates};
ghost use Rattle.office_store.specs.Queries.{Asked};
ghost use Rattle.office_store.specs.Turns.{Turns};

use crate::queries::check_alone;
use dns_names::Name;
use office_model::Addition;
use sqlite::{Alter, Connection, Error as StoreError, ErrorCode};
use std::alloc::Global;
use store_faults::StoreFault;
use store_rows::{addition_batch, receipt_batch};
use store_sql::{Batch, last_number, write};

/// The number after that of the last change, and 1 for the first. After 9,223,372,036,854,775,807 there is no number.
fn number_behind(last: Option<i64>) -> Result<i64, StoreFault>
    ensures next { IfOk result (λ number. (count : ℕ) → last ≡ last_of count → number ≡ pos (suc count)) }
    ensures named { IfErr result IsFailure }
{
    let Some(last) = last else {
        return Ok(1);
    };
    match last.checked_add(1) {
        Some(number) => Ok(number),
        None => Err(StoreFault::Store(StoreError::SqliteFailure(ErrorCode::IntegerOverflow))),
    }
}

/// The number of the next change of the zone of an origin.
pub(crate) fn next_number<S: Alter>(
    alloc: Global,
    conn: &mut Connection<S>,
    origin: &Name,
) -> Result<i64, StoreFault>
    ensures next { HasCleanDisk (state S.Store conn.new)
        → IfOk result (λ number. (s : State) → HoldsState (state S.Store conn.old) s → IsNext s origin.now number) }
    ensures asked { Asked (state S.Store conn.old) (state S.Store conn.new) }
    ensures ended { OnOk result (conn.new.in_transaction ≡ false) }
    ensures named { IfErr result IsFailure }
{
    check_alone(conn)?;
    let text = origin.text(alloc)?;
    let last = last_number(alloc, conn, &text)?;
    number_behind(last)
}

/// Writes what leads from the state that is held to another, in one transaction.
pub(crate) fn write_to<S: Alter>(conn: &mut Connection<S>, batch: &Batch) -> Result<(), StoreFault>
    requires { conn.old.in_transaction ≡ false }
    ensures named { IfErr result IsFailure }
    ensures made { OnOk result ((s t : State) → Leads batch.now s t → HoldsState (state S.Store conn.old) s → HoldsState (state S.Store conn.new) t) }
    ensures failed { OnErr result ((s : State) → HoldsState (state S.Store conn.old) s → HoldsState (state S.Store conn.new) s) }
    ensures kept { OnOk result ((s t : State) → Leads batch.now s t → HoldsState (state S.Store conn.old) s → LeavesStates (state S.Store conn.new) t t) }
    ensures crash { OnErr result
        ((s t : State) → Leads batch.now s t → HoldsState (state S.Store conn.old) s → LeavesStates (state S.Store conn.old) s s
        → LeavesStates (state S.Store conn.new) s t) }
    ensures honest { HasCleanDisk (state S.Store conn.new) → HasCleanDisk (state S.Store conn.old) }
{
    write(conn, batch)?;
    Ok(())
}

/// What is written for an addition. The store is asked for the number of its change, where it has one.
fn batch_of<S: Alter>(
    alloc: Global,
    conn: &mut Connection<S>,
    addition: &Addition,
) -> Result<Batch, StoreFault>
    // Its rows, and no others.
    ensures exact { HasCleanDisk (state S.Store conn.new)
        → IfOk result
        (λ batch. (s : State) → HoldsState (state S.Store conn.old) s → Fits s (addition_in addition.now)
        → Writes s addition.now.receipt.origin (option_map change_in addition.now.change) (receipt_rows (addition_in addition.now)) batch) }
    ensures leads { HasCleanDisk (state S.Store conn.new)
        → IfOk result
        (λ batch. (s : State) → HoldsState (state S.Store conn.old) s → Fits s (addition_in addition.now)
        → Leads batch s (committed (addition_in addition.now) s)) }
    ensures asked { Asked (state S.Store conn.old) (state S.Store conn.new) }
    ensures ended { OnOk result (conn.new.in_transaction ≡ false) }
{
    if addition.change.is_none() {
        check_alone(conn)?;
        return Ok(receipt_batch(alloc, addition)?);
    }
    let number = next_number(alloc, conn, &addition.receipt.origin)?;
    Ok(addition_batch(alloc, addition, number)?)
}

/// Makes an addition: all of it, or nothing.
pub(crate) fn commit<S: Alter>(
    alloc: Global,
    conn: &mut Connection<S>,
    addition: &Addition,
) -> Result<(), StoreFault>
    requires fits { HasCleanDisk (state S.Store conn.old) → (s : State) → HoldsState (state S.Store conn.old) s → Fits s (addition_in addition.now) }
    ensures { Turns (state S.Store conn.old) (state S.Store conn.new) result (committed (addition_in addition.now)) }
{
    let batch = batch_of(alloc, conn, addition)?;
    write_to(conn, &batch)
}
