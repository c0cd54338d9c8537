//! Parts of the state that a connection holds.

ghost use Rattle.std.specs.Prelude.{◌≡◌, false, map, drop, take, option_map, IfOk, IfErr, IfSome, OnOk, is_some};
ghost use Rattle.zone_core.specs.Sets.{InOrder};
ghost use Rattle.zone_core.specs.Changes.{change_in};
ghost use Rattle.sqlite.specs.Held.{state};
ghost use Rattle.sqlite.specs.State.{HasCleanDisk};
ghost use Rattle.office_model.specs.States.{State, zone_at, part_at, subtree_at, changes_at};
ghost use Rattle.store_rows.specs.Listed.{AreOriginsOf, AreReceiptsOf};
ghost use Rattle.store_faults.specs.StoreFaults.{IsFailure};
ghost use Rattle.office_store.specs.Holds.{HoldsState};
ghost use Rattle.office_store.specs.Queries.{AsksOnly};

use crate::queries::{
    change_rows, change_rows_behind, check_alone, held_text, part_rows, subtree_rows, zone_rows,
};
use dns_data::Record;
use dns_names::Name;
use grant_policy::Identifier;
use office_model::Receipt;
use sqlite::{Alter, Connection};
use std::alloc::Global;
use store_faults::StoreFault;
use store_rows::{
    KeptReceipt, OriginReader, changes_of, kept_receipts, part_of, receipt_of, records_within,
    sorted_origins, zone_of,
};
use store_sql::{WholeRows, all_receipts, all_zones, receipts_of};
use zone_core::{Change, Zone};

/// Whether there is the zone of an origin.
pub(crate) fn is_held<S: Alter>(
    alloc: Global,
    conn: &mut Connection<S>,
    origin: &Name,
) -> Result<bool, StoreFault>
    ensures answer { HasCleanDisk (state S.Store conn.new)
        → IfOk result (λ found. (s : State) → HoldsState (state S.Store conn.old) s → found ≡ is_some (s.zones origin.now)) }
    ensures asks { AsksOnly (state S.Store conn.old) (state S.Store conn.new) result }
{
    let text = held_text(alloc, conn, origin)?;
    Ok(text.is_some())
}

/// The zone of an origin, where there is one.
pub(crate) fn zone_at<S: Alter>(
    alloc: Global,
    conn: &mut Connection<S>,
    origin: &Name,
) -> Result<Option<Zone>, StoreFault>
    ensures origin { IfOk result (λ found. IfSome found (λ zone. zone.origin ≡ origin.now)) }
    ensures answer { HasCleanDisk (state S.Store conn.new)
        → IfOk result (λ zone. (s : State) → HoldsState (state S.Store conn.old) s → zone ≡ zone_at s origin.now) }
    ensures asks { AsksOnly (state S.Store conn.old) (state S.Store conn.new) result }
    ensures ended { OnOk result (conn.new.in_transaction ≡ false) }
    ensures named { IfErr result IsFailure }
{
    let Some(rows) = zone_rows(alloc, conn, origin)? else {
        return Ok(None);
    };
    let zone = zone_of(alloc, origin, &rows)?;
    Ok(Some(zone))
}

/// The part of a zone that has its records at the origin and at some names, where there is the zone.
pub(crate) fn part_at<S: Alter>(
    alloc: Global,
    conn: &mut Connection<S>,
    origin: &Name,
    names: &[Name],
) -> Result<Option<Zone>, StoreFault>
    ensures answer { HasCleanDisk (state S.Store conn.new)
        → IfOk result (λ zone. (s : State) → HoldsState (state S.Store conn.old) s → zone ≡ part_at s origin.now names.now) }
    ensures asks { AsksOnly (state S.Store conn.old) (state S.Store conn.new) result }
{
    let Some(rows) = part_rows(alloc, conn, origin, names)? else {
        return Ok(None);
    };
    let part = part_of(alloc, origin, &rows)?;
    Ok(Some(part))
}

/// The records of a zone within a name, in record order, where there is the zone.
pub(crate) fn subtree_at<S: Alter>(
    alloc: Global,
    conn: &mut Connection<S>,
    origin: &Name,
    top: &Name,
) -> Result<Option<Vec<Record>>, StoreFault>
    ensures answer { HasCleanDisk (state S.Store conn.new)
        → IfOk result
        (λ records. (s : State) → HoldsState (state S.Store conn.old) s → option_map (λ rs. rs.items) records ≡ subtree_at s origin.now top.now) }
    ensures order { IfOk result (λ records. IfSome records (λ rs. InOrder rs.items)) }
    ensures asks { AsksOnly (state S.Store conn.old) (state S.Store conn.new) result }
{
    let Some(rows) = subtree_rows(alloc, conn, origin, top)? else {
        return Ok(None);
    };
    let records = records_within(alloc, &rows)?;
    Ok(Some(records))
}

/// The changes of a zone, the oldest first, where there is the zone.
pub(crate) fn changes_at<S: Alter>(
    alloc: Global,
    conn: &mut Connection<S>,
    origin: &Name,
) -> Result<Option<Vec<Change>>, StoreFault>
    ensures answer { HasCleanDisk (state S.Store conn.new)
        → IfOk result
        (λ changes. (s : State) → HoldsState (state S.Store conn.old) s → option_map (λ cs. map change_in cs.items) changes ≡ changes_at s origin.now) }
    ensures asks { AsksOnly (state S.Store conn.old) (state S.Store conn.new) result }
    ensures named { IfErr result IsFailure }
{
    let Some(rows) = change_rows(alloc, conn, origin)? else {
        return Ok(None);
    };
    let changes = changes_of(alloc, rows)?;
    Ok(Some(changes))
}

/// The changes of a zone after the first ones, so many, and at most so many of them; the oldest first, where there is the zone.
pub(crate) fn changes_behind<S: Alter>(
    alloc: Global,
    conn: &mut Connection<S>,
    origin: &Name,
    count: u32,
    most: u32,
) -> Result<Option<Vec<Change>>, StoreFault>
    ensures answer { HasCleanDisk (state S.Store conn.new)
        → IfOk result
        (λ changes. (s : State) → HoldsState (state S.Store conn.old) s
        → option_map (λ cs. map change_in cs.items) changes ≡ option_map (λ cs. take most (drop count cs)) (changes_at s origin.now)) }
    ensures asks { AsksOnly (state S.Store conn.old) (state S.Store conn.new) result }
{
    let Some(rows) = change_rows_behind(alloc, conn, origin, count, most)? else {
        return Ok(None);
    };
    let changes = store_rows::changes_behind(alloc, &rows, count)?;
    Ok(Some(changes))
}

/// The receipt of a caller under an identifier, where there is one.
pub(crate) fn receipt_at<S: Alter>(
    alloc: Global,
    conn: &mut Connection<S>,
    caller: &Identifier,
    id: &Identifier,
) -> Result<Option<Receipt>, StoreFault>
    ensures answer { HasCleanDisk (state S.Store conn.new)
        → IfOk result (λ receipt. (s : State) → HoldsState (state S.Store conn.old) s → receipt ≡ s.receipts caller.now id.now) }
    ensures asks { AsksOnly (state S.Store conn.old) (state S.Store conn.new) result }
{
    check_alone(conn)?;
    let rows = receipts_of(alloc, conn, caller.as_str(), id.as_str())?;
    let receipt = receipt_of(alloc, &rows)?;
    Ok(receipt)
}

/// The origins of all zones, in canonical order.
pub(crate) fn origins<S: Alter>(
    alloc: Global,
    conn: &mut Connection<S>,
) -> Result<Vec<Name>, StoreFault>
    ensures answer { HasCleanDisk (state S.Store conn.new)
        → IfOk result (λ names. (s : State) → HoldsState (state S.Store conn.old) s → AreOriginsOf s names.items) }
    ensures asks { AsksOnly (state S.Store conn.old) (state S.Store conn.new) result }
    ensures named { IfErr result IsFailure }
{
    check_alone(conn)?;
    let names = all_zones(alloc, conn, &mut OriginReader)?;
    Ok(sorted_origins(names)?)
}

/// All receipts, by caller, and then by identifier.
pub(crate) fn receipts<S: Alter>(
    alloc: Global,
    conn: &mut Connection<S>,
) -> Result<Vec<KeptReceipt>, StoreFault>
    ensures answer { HasCleanDisk (state S.Store conn.new)
        → IfOk result (λ kept. (s : State) → HoldsState (state S.Store conn.old) s → AreReceiptsOf s kept.items) }
    ensures asks { AsksOnly (state S.Store conn.old) (state S.Store conn.new) result }
    ensures named { IfErr result IsFailure }
{
    check_alone(conn)?;
    let rows = all_receipts(alloc, conn, &mut WholeRows)?;
    let kept = kept_receipts(alloc, &rows)?;
    Ok(kept)
}
