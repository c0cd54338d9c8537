//! Whole zones: one that comes, one in the place of another, one that goes, and the records of one.

ghost use Rattle.std.specs.Prelude.{◌≡◌, false, Some, IfOk, IfErr, OnOk};
ghost use Rattle.sqlite.specs.Held.{state};
ghost use Rattle.sqlite.specs.State.{HasCleanDisk};
ghost use Rattle.dns_names.specs.Spelling.{name_text};
ghost use Rattle.zone_core.specs.Sets.{is_same};
ghost use Rattle.zone_core.specs.Zones.{IsZone};
ghost use Rattle.office_model.specs.States.{Held, State};
ghost use Rattle.store_faults.specs.StoreFaults.{Gives, IsFailure};
ghost use Rattle.store_rows.specs.Removals.{without_zone};
ghost use Rattle.office_store.specs.Holds.{HoldsState};
ghost use Rattle.office_store.specs.Queries.{AsksOnly};
ghost use Rattle.office_store.specs.Turns.{Turns};
ghost use Rattle.office_store.specs.Zones.{if_free, if_later, exported, imported, removed, replaced, with_imported, with_replaced};

use crate::batch::{next_number, write_to};
use crate::queries::{held_text, reveal_name, zone_rows};
use crate::reads::zone_at;
use dns_data::Record;
use dns_names::Name;
use sqlite::{Alter, Connection};
use std::alloc::Global;
use store_faults::StoreFault;
use store_rows::{records_within, replacement_batch, zone_batch};
use store_sql::remove_zone;
use zone_core::{Zone, serial_less};

/// Puts a zone beside the others, unless there is one of its origin.
pub(crate) fn put_zone<S: Alter>(
    alloc: Global,
    conn: &mut Connection<S>,
    zone: &Zone,
) -> Result<(), StoreFault>
    ensures answer { HasCleanDisk (state S.Store conn.new) → (s : State) → HoldsState (state S.Store conn.old) s
        → Gives (λ _. zone.now) result (if_free (s.zones zone.now.origin) zone.now) }
    ensures turns { Turns (state S.Store conn.old) (state S.Store conn.new) result (λ s. with_imported s (if_free (s.zones zone.now.origin) zone.now)) }
{
    let None = held_text(alloc, conn, zone.origin())? else {
        return Err(StoreFault::ZoneExists);
    };
    let batch = zone_batch(alloc, zone)?;
    write_to(conn, &batch)
}

/// Imports the zone of an origin and records.
pub(crate) fn import<S: Alter>(
    alloc: Global,
    conn: &mut Connection<S>,
    origin: Name,
    records: Vec<Record>,
) -> Result<Zone, StoreFault>
    ensures answer { HasCleanDisk (state S.Store conn.new) → (s : State) → HoldsState (state S.Store conn.old) s
        → Gives (λ zone. zone) result (imported s origin records.items) }
    ensures turns { Turns (state S.Store conn.old) (state S.Store conn.new) result (λ s. with_imported s (imported s origin records.items)) }
{
    let zone = Zone::build(alloc, origin, records)?;
    put_zone(alloc, conn, &zone)?;
    Ok(zone)
}

/// What its type says of a zone. It does nothing when it runs.
fn reveal_zone(zone: &Zone)
    ensures { IsZone zone.now }
{
    let _ = zone.origin();
}

/// The zone that is held of the origin of another, if the serial of the other is greater.
fn zone_before<S: Alter>(
    alloc: Global,
    conn: &mut Connection<S>,
    zone: &Zone,
) -> Result<Zone, StoreFault>
    ensures origin { IfOk result (λ old. old.origin ≡ zone.now.origin) }
    ensures differs { IfOk result (λ old. is_same old.records zone.now.records ≡ false) }
    ensures held { HasCleanDisk (state S.Store conn.new)
        → IfOk result
        (λ old. (s : State) → HoldsState (state S.Store conn.old) s
        → (held : Held) × (s.zones zone.now.origin ≡ Some held) × (held.records ≡ old.records)) }
    ensures answer { HasCleanDisk (state S.Store conn.new) → (s : State) → HoldsState (state S.Store conn.old) s
        → Gives (λ _. zone.now) result (if_later (s.zones zone.now.origin) zone.now) }
    ensures asks { AsksOnly (state S.Store conn.old) (state S.Store conn.new) result }
{
    let Some(old) = zone_at(alloc, conn, zone.origin())? else {
        return Err(StoreFault::NoZone);
    };
    reveal_zone(&old);
    if !serial_less(old.serial(), zone.serial()) {
        return Err(StoreFault::SerialNotGreater);
    }
    Ok(old)
}

/// Puts a zone in the place of the one of its origin, if its serial is greater.
pub(crate) fn take_place<S: Alter>(
    alloc: Global,
    conn: &mut Connection<S>,
    zone: &Zone,
) -> Result<(), StoreFault>
    ensures answer { HasCleanDisk (state S.Store conn.new) → (s : State) → HoldsState (state S.Store conn.old) s
        → Gives (λ _. zone.now) result (if_later (s.zones zone.now.origin) zone.now) }
    ensures turns { Turns (state S.Store conn.old) (state S.Store conn.new) result (λ s. with_replaced s (if_later (s.zones zone.now.origin) zone.now)) }
{
    let old = zone_before(alloc, conn, zone)?;
    let number = next_number(alloc, conn, zone.origin())?;
    let batch = replacement_batch(alloc, &old, zone, number)?;
    write_to(conn, &batch)
}

/// Puts the zone of an origin and records in the place of the one that is held.
pub(crate) fn replace<S: Alter>(
    alloc: Global,
    conn: &mut Connection<S>,
    origin: Name,
    records: Vec<Record>,
) -> Result<Zone, StoreFault>
    ensures answer { HasCleanDisk (state S.Store conn.new) → (s : State) → HoldsState (state S.Store conn.old) s
        → Gives (λ zone. zone) result (replaced s origin records.items) }
    ensures turns { Turns (state S.Store conn.old) (state S.Store conn.new) result (λ s. with_replaced s (replaced s origin records.items)) }
{
    let zone = Zone::build(alloc, origin, records)?;
    take_place(alloc, conn, &zone)?;
    Ok(zone)
}

/// Takes the zone of an origin out, by the text of the origin.
fn take_out<S: Alter>(conn: &mut Connection<S>, origin: &Name, text: &str) -> Result<(), StoreFault>
    requires alone { conn.old.in_transaction ≡ false }
    requires text { text.now ≡ name_text origin.now }
    ensures named { IfErr result IsFailure }
    ensures turns { Turns (state S.Store conn.old) (state S.Store conn.new) result (λ s. without_zone s origin.now) }
{
    reveal_name(origin);
    remove_zone(conn, text)?;
    Ok(())
}

/// Takes the zone of an origin out, with its records and its changes.
pub(crate) fn remove<S: Alter>(
    alloc: Global,
    conn: &mut Connection<S>,
    origin: &Name,
) -> Result<(), StoreFault>
    ensures answer { HasCleanDisk (state S.Store conn.new) → (s : State) → HoldsState (state S.Store conn.old) s
        → Gives (λ done. done) result (removed (s.zones origin.now)) }
    ensures turns { Turns (state S.Store conn.old) (state S.Store conn.new) result (λ s. without_zone s origin.now) }
{
    let Some(text) = held_text(alloc, conn, origin)? else {
        return Err(StoreFault::NoZone);
    };
    take_out(conn, origin, &text)
}

/// The records of the zone of an origin, in record order.
pub(crate) fn export<S: Alter>(
    alloc: Global,
    conn: &mut Connection<S>,
    origin: &Name,
) -> Result<Vec<Record>, StoreFault>
    ensures answer { HasCleanDisk (state S.Store conn.new) → (s : State) → HoldsState (state S.Store conn.old) s
        → Gives (λ records. records.items) result (exported (s.zones origin.now)) }
    ensures asks { AsksOnly (state S.Store conn.old) (state S.Store conn.new) result }
{
    let Some(rows) = zone_rows(alloc, conn, origin)? else {
        return Err(StoreFault::NoZone);
    };
    let records = records_within(alloc, &rows)?;
    Ok(records)
}
