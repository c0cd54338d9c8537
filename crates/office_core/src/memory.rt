//! The table in memory.

ghost use Rattle.std.specs.Prelude.{◌≡◌, ℕ, ◌<◌, List, [], length, IfOk, OnOk, OnErr, drop, take, map, ◌&&◌, if◌then◌else◌, Some};
ghost use Rattle.std.specs.Option.{option_copied};
ghost use Rattle.std.specs.List.{find, position};
ghost use Rattle.std.specs.BTreeMap.{is_at};
ghost use Rattle.std.specs.Cmp.Lexicographic.{slice_cmp};
ghost use Rattle.std.specs.Ordering.{nat_cmp};
ghost use Rattle.zone_core.specs.Sets.{InOrder, listing, part, within};
ghost use Rattle.zone_core.specs.Updates.{IsUpdate};
ghost use Rattle.zone_core.specs.Zones.{IsZone};
ghost use Rattle.zone_core.specs.Changes.{change_in};
ghost use Rattle.office_core.specs.Memory.{state_of, is_of, receipt_in, IsPutAt, HoldsSame, HoldsChange, HasRoomAt, HoldsState};

use dns_data::Record;
use dns_names::Name;
use grant_policy::{Grants, Identifier};
use office_model::{Addition, Ahead, Passed, Receipt, TableFault, ZoneTable, with_included};
use std::alloc::{AllocError, Global};
use std::collections::BTreeMap;
use std::marker::Model;
use zone_core::{Change, Zone};

/// A zone, and its changes from the oldest on.
#[derive(Drop)]
struct HeldZone {
    zone: Zone,
    changes: Vec<Change>,
}

/// The receipts of each caller, each under its identifier.
type Receipts = BTreeMap<Identifier, BTreeMap<Identifier, Receipt>>;

/// A table in memory. It never answers `Store`.
#[derive(Drop)]
pub struct MemTable {
    // zones are few: they are looked for one by one
    zones: Vec<HeldZone>,
    receipts: Receipts,
}

impl Model for MemTable {
    ghost use Rattle.office_core.specs.Memory.{MemoryOf, memory_code, receipt_rows, IsMemory};

    ghost Value = { MemoryOf };

    ghost coded = { memory_code };

    ghost view = { λ t. record { zones = t.zones.items; receipts = receipt_rows t.receipts } };

    ghost invariant = { λ t. IsMemory (record { zones = t.zones.items; receipts = receipt_rows t.receipts }) };
}

/// A zone of which no change is known.
fn unchanged(alloc: Global, zone: Zone) -> HeldZone
    ensures zone { result.zone ≡ zone }
    ensures changes { result.changes.items ≡ [] }
    ensures is_zone { IsZone zone }
{
    // that it is a zone follows from the conditions of the call
    let _origin = zone.origin();
    HeldZone {
        zone,
        changes: Vec::new(alloc),
    }
}

/// The first zone of an origin, if there is one.
fn held<'a>(zones: &'a [HeldZone], origin: &Name) -> Option<&'a HeldZone>
    ensures { option_copied result ≡ find (is_of origin.now) zones.now }
{
    zones.iter().find(|held| held.zone.origin() == origin)
}

/// The place of the first zone of an origin, if there is one.
fn place(zones: &[HeldZone], origin: &Name) -> Option<usize>
    ensures { result ≡ position (is_of origin.now) zones.now }
{
    zones.iter().position(|held| held.zone.origin() == origin)
}

/// Makes room for one more change of the zone at a place. The only error is out of memory.
fn make_room(zones: &mut [HeldZone], at: usize) -> Result<(), AllocError>
    requires { at < length zones.old }
    ensures same { IsPutAt zones.old zones.new at HoldsSame }
    ensures room { OnOk result (HasRoomAt zones.new at) }
{
    zones[at].changes.reserve(1)
}

/// Puts a zone after a change, and the change, in the place of the zone before it.
fn put(zones: &mut [HeldZone], at: usize, zone: Zone, change: Change)
    requires inside { at < length zones.old }
    requires room { HasRoomAt zones.old at }
    ensures { IsPutAt zones.old zones.new at (HoldsChange zone change) }
{
    let held = &mut zones[at];
    held.zone = zone;
    let Ok(()) = held.changes.push(change) else {
        unreachable!()
    };
}

/// The receipt of a caller under an identifier, if there is one.
fn receipt_of<'a>(
    receipts: &'a Receipts,
    caller: &Identifier,
    id: &Identifier,
) -> Option<&'a Receipt>
    ensures { option_copied result ≡ receipt_in receipts.now caller.now id.now }
{
    receipts.get(caller)?.get(id)
}

/// The update of a receipt is one. It does nothing at run time.
fn reveal_update(receipt: &Receipt)
    ensures { IsUpdate receipt.now.update }
{
    let _ = receipt.update.operations();
}

/// Keeps the receipt of a caller under an identifier. The only error is out of memory.
fn keep(
    alloc: Global,
    receipts: &mut Receipts,
    caller: Identifier,
    id: Identifier,
    receipt: Receipt,
) -> Result<(), AllocError>
    ensures kept { OnOk result
        ((c i : List ℕ)
        → receipt_in receipts.new c i
        ≡ (if is_at (slice_cmp nat_cmp caller) c && is_at (slice_cmp nat_cmp id) i then Some receipt else receipt_in receipts.old c i)) }
    ensures same { OnErr result ((c i : List ℕ) → receipt_in receipts.new c i ≡ receipt_in receipts.old c i) }
{
    match receipts.get_mut(&caller) {
        Some(own) => {
            own.insert(id, receipt)?;
        }
        None => {
            let mut own = BTreeMap::new(alloc);
            own.insert(id, receipt)?;
            receipts.insert(caller, own)?;
        }
    }
    Ok(())
}

/// The changes after the first ones, so many, and at most so many of them.
fn behind(changes: &[Change], count: u32, most: u32) -> &[Change]
    ensures { result.now ≡ take most (drop count changes.now) }
{
    let rest = changes.get(count as usize..).unwrap_or_default();
    rest.get(..most as usize).unwrap_or(rest)
}

/// Copies of changes. The only error is out of memory.
fn copied_changes(alloc: Global, changes: &[Change]) -> Result<Vec<Change>, AllocError>
    ensures { IfOk result (λ cs. map change_in cs.items ≡ map change_in changes.now) }
{
    let mut all = Vec::with_capacity(alloc, changes.len())?;
    for change in changes {
        all.push(change.try_copy(alloc)?)?;
    }
    Ok(all)
}

impl MemTable {
    /// A table of zones of which nothing was changed, and without receipts. Of zones with the same origin the first counts. The
    /// only error is out of memory.
    pub fn new(alloc: Global, zones: Vec<Zone>) -> Result<MemTable, AllocError>
        ensures { IfOk result (λ table. HoldsState table (state_of zones.items)) }
    {
        let mut held = Vec::with_capacity(alloc, zones.len())?;
        for zone in zones {
            held.push(unchanged(alloc, zone))?;
        }
        Ok(MemTable {
            zones: held,
            receipts: BTreeMap::new(alloc),
        })
    }
}

impl ZoneTable for MemTable {
    ghost holds = { HoldsState };

    ghost is_honest = { λ _. Unit {0} };

    ghost leaves = { λ _ _ _. Unit {0} };

    ghost failures = { λ _. 0 };

    fn has_zone(&mut self, _alloc: Global, origin: &Name) -> Result<bool, TableFault> {
        Ok(held(&self.zones, origin).is_some())
    }

    fn zone(&mut self, alloc: Global, origin: &Name) -> Result<Option<Zone>, TableFault> {
        let Some(held) = held(&self.zones, origin) else {
            return Ok(None);
        };
        Ok(Some(held.zone.try_copy(alloc)?))
    }

    fn part(
        &mut self,
        alloc: Global,
        origin: &Name,
        names: &[Name],
    ) -> Result<Option<Zone>, TableFault> {
        let Some(held) = held(&self.zones, origin) else {
            return Ok(None);
        };
        Ok(Some(held.zone.part(alloc, names)?))
    }

    fn subtree(
        &mut self,
        alloc: Global,
        origin: &Name,
        top: &Name,
        grants: &mut Grants<'_>,
    ) -> Result<Option<Vec<Record>>, TableFault> {
        let Some(held) = held(&self.zones, origin) else {
            return Ok(None);
        };
        // the order of its records follows from that it is a zone
        let _origin = held.zone.origin();
        let records = held.zone.records_within(top);
        let records = with_included(alloc, Vec::new(alloc), grants, records)?;
        Ok(Some(records))
    }

    fn receipt(
        &mut self,
        alloc: Global,
        caller: &Identifier,
        id: &Identifier,
    ) -> Result<Option<Receipt>, TableFault> {
        let Some(receipt) = receipt_of(&self.receipts, caller, id) else {
            return Ok(None);
        };
        Ok(Some(receipt.try_copy(alloc)?))
    }

    fn changes(&mut self, alloc: Global, origin: &Name) -> Result<Option<Vec<Change>>, TableFault> {
        let Some(held) = held(&self.zones, origin) else {
            return Ok(None);
        };
        Ok(Some(copied_changes(alloc, &held.changes)?))
    }

    fn changes_behind(
        &mut self,
        alloc: Global,
        origin: &Name,
        count: u32,
        most: u32,
    ) -> Result<Option<Vec<Change>>, TableFault> {
        let Some(held) = held(&self.zones, origin) else {
            return Ok(None);
        };
        let changes = behind(&held.changes, count, most);
        Ok(Some(copied_changes(alloc, changes)?))
    }

    fn ahead(
        &mut self,
        _origin: &Name,
        _count: u32,
        _grants: &mut Grants<'_>,
    ) -> Result<Ahead, TableFault> {
        Ok(Ahead::UNKNOWN)
    }

    fn pass(
        &mut self,
        _origin: &Name,
        _count: u32,
        _most: u32,
        _grants: &mut Grants<'_>,
    ) -> Result<Passed, TableFault> {
        Ok(Passed::NONE)
    }

    fn commit(&mut self, alloc: Global, addition: Addition) -> Result<(), TableFault> {
        let Addition {
            caller,
            id,
            receipt,
            change,
        } = addition;
        reveal_update(&receipt);
        let Some(change) = change else {
            keep(alloc, &mut self.receipts, caller, id, receipt)?;
            return Ok(());
        };
        let Some(at) = place(&self.zones, &receipt.origin) else {
            unreachable!()
        };
        let zone = self.zones[at].zone.try_copy(alloc)?;
        let zone = zone.changed(alloc, &change)?;
        make_room(&mut self.zones, at)?;
        keep(alloc, &mut self.receipts, caller, id, receipt)?;
        // nothing takes memory after this
        put(&mut self.zones, at, zone, change);
        Ok(())
    }

    ghost zones = { λ table s held. held.are_zones };

    ghost receipts = { λ table s held. held.are_receipts };

    ghost weaker = { λ table s t left. left };
}
