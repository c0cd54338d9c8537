//! Batches.

ghost use Rattle.std.specs.Prelude.{◌≡◌, [], ℕ, pos, false, Some, None, IsSome, IfOk, MatchOption};
ghost use Rattle.dns_names.specs.Labels.{IsName};
ghost use Rattle.zone_core.specs.Sets.{is_same};
ghost use Rattle.zone_core.specs.Zones.{IsZone};
ghost use Rattle.zone_core.specs.Changes.{change_between, change_in};
ghost use Rattle.office_model.specs.States.{Held, State};
ghost use Rattle.office_model.specs.Tables.{Fits, addition_in, committed};
ghost use Rattle.store_rows.specs.Contents.{IsReceiptAt};
ghost use Rattle.store_rows.specs.Batches.{Leads, IsNext, with_zone, with_zone_replaced, receipt_at, receipt_rows, receipts_batch, change_batch, zone_batch};

use crate::changes::rows_of_sides;
use crate::receipts::receipt_row;
use crate::records::record_rows;
use dns_names::Name;
use office_model::Addition;
use std::alloc::{AllocError, Global};
use store_sql::{Batch, ReceiptRow};
use zone_core::{Change, Zone};

/// A zone has a name as its origin, and is one. Only proofs need it.
fn reveal_zone(zone: &Zone)
    ensures name { IsName zone.now.origin }
    ensures zone { IsZone zone.now }
{
    let _ = zone.origin().labels();
}

/// What is written for a change of the zone of an origin under its number, beside receipts. The only error is out of memory.
fn change_batch(
    alloc: Global,
    origin: &Name,
    number: i64,
    change: &Change,
    receipts: Vec<ReceiptRow>,
) -> Result<Batch, AllocError>
    ensures { (n : ℕ) → number ≡ pos n → IfOk result (λ batch. batch ≡ change_batch origin.now n (change_in change.now) receipts.items) }
{
    let removed = record_rows(alloc, origin, &change.removed)?;
    let added = record_rows(alloc, origin, &change.added)?;
    let changes = rows_of_sides(alloc, number, &removed, &added)?;
    Ok(Batch {
        version: None,
        zones: Vec::new(alloc),
        removed,
        added,
        changes,
        receipts,
    })
}

/// The row of the receipt of an addition, alone. The only error is out of memory.
fn receipt_rows(alloc: Global, addition: &Addition) -> Result<Vec<ReceiptRow>, AllocError>
    ensures rows { IfOk result (λ rows. rows.items ≡ receipt_rows (addition_in addition.now)) }
    ensures receipt { IsReceiptAt (receipt_at (addition_in addition.now)) }
{
    let row = receipt_row(alloc, &addition.caller, &addition.id, &addition.receipt)?;
    Ok(vec![in alloc; row]?)
}

/// What is written for an addition without a change: the row of its receipt. The only error is out of memory.
pub fn receipt_batch(alloc: Global, addition: &Addition) -> Result<Batch, AllocError>
    // This row and nothing else.
    ensures exact { IfOk result (λ batch. batch ≡ receipts_batch (receipt_rows (addition_in addition.now))) }
    // It leads from each state that the addition fits to the one with the addition made, if it has no change.
    ensures leads { addition.now.change ≡ None
        → IfOk result (λ batch. (s : State) → Fits s (addition_in addition.now) → Leads batch s (committed (addition_in addition.now) s)) }
{
    let receipts = receipt_rows(alloc, addition)?;
    Ok(Batch {
        version: None,
        zones: Vec::new(alloc),
        removed: Vec::new(alloc),
        added: Vec::new(alloc),
        changes: Vec::new(alloc),
        receipts,
    })
}

/// What is written for an addition: the row of its receipt; and where it has a change, the rows of the records that go and come, and
/// of the change under its number, which is the next one of its zone. Without a change the number says nothing. The only error is
/// out of memory.
pub fn addition_batch(alloc: Global, addition: &Addition, number: i64) -> Result<Batch, AllocError>
    // These rows and no others.
    ensures exact { IfOk result
        (λ batch. MatchOption addition.now.change (batch ≡ receipts_batch (receipt_rows (addition_in addition.now)))
        (λ change. (n : ℕ) → number ≡ pos n
        → batch ≡ change_batch addition.now.receipt.origin n (change_in change) (receipt_rows (addition_in addition.now)))) }
    // It leads from each state that the addition fits to the one with the addition made.
    ensures leads { IfOk result
        (λ batch. (s : State) → Fits s (addition_in addition.now)
        → (IsSome addition.now.change → IsNext s addition.now.receipt.origin number)
        → Leads batch s (committed (addition_in addition.now) s)) }
{
    let Some(change) = &addition.change else {
        return receipt_batch(alloc, addition);
    };
    let receipts = receipt_rows(alloc, addition)?;
    change_batch(alloc, &addition.receipt.origin, number, change, receipts)
}

/// What is written for a zone of an origin that has none: its row and those of its records. The only error is out of memory.
pub fn zone_batch(alloc: Global, zone: &Zone) -> Result<Batch, AllocError>
    // These rows and no others.
    ensures exact { IfOk result (λ batch. batch ≡ zone_batch zone.now) }
    // It leads from each state without a zone of this origin to the one with this zone.
    ensures leads { IfOk result (λ batch. (s : State) → s.zones zone.now.origin ≡ None → Leads batch s (with_zone s zone.now)) }
{
    reveal_zone(zone);
    let origin = zone.origin();
    let row = origin.text(alloc)?;
    let zones = vec![in alloc; row]?;
    Ok(Batch {
        version: None,
        zones,
        removed: Vec::new(alloc),
        added: record_rows(alloc, origin, zone.records())?,
        changes: Vec::new(alloc),
        receipts: Vec::new(alloc),
    })
}

/// What is written for a zone in the place of another one of its origin, from which it differs: the rows of the records that go and
/// come, and of this change under its number, which is the next one of the zone. The only error is out of memory.
pub fn replacement_batch(
    alloc: Global,
    old: &Zone,
    new: &Zone,
    number: i64,
) -> Result<Batch, AllocError>
    requires origin { old.now.origin ≡ new.now.origin }
    requires differs { is_same old.now.records new.now.records ≡ false }
    // The rows of the records by which the two differ, and no others.
    ensures exact { (n : ℕ) → number ≡ pos n
        → IfOk result (λ batch. batch ≡ change_batch new.now.origin n (change_between old.now.records new.now.records) []) }
    // It leads from each state that holds the old zone to the one with the new zone in its place.
    ensures leads { IfOk result
        (λ batch. (s : State) (held : Held) → s.zones new.now.origin ≡ Some held → held.records ≡ old.now.records
        → IsNext s new.now.origin number → Leads batch s (with_zone_replaced s new.now held)) }
{
    reveal_zone(old);
    reveal_zone(new);
    let change = Change::between(alloc, old.records(), new.records())?;
    change_batch(alloc, new.origin(), number, &change, Vec::new(alloc))
}
