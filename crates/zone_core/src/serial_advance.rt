//! The serial of a zone after an update (RFC 2136 section 3.6).

ghost use Rattle.std.specs.Prelude.{◌≡◌, ◌==◌, ◌&&◌, ◌∷◌, [], if◌then◌else◌, length, IfOk};
ghost use Rattle.zone_core.specs.Sets.{minus, AreRows};
ghost use Rattle.zone_core.specs.Updates.{IsUpdate, ActsWithin};
ghost use Rattle.zone_core.specs.Effects.{next_data, next_version, with_next, zone_after};
ghost use Rattle.zone_core.specs.Zones.{IsZone, soa_at};
ghost use Rattle.zone_core.specs.Views.{advances};

use crate::change::{Change, changes};
use crate::effect::has_some;
use crate::rows::{alone, insert_copy};
use crate::serial::serial_add;
use crate::update::Update;
use crate::zone::Zone;
use dns_data::{Data, Record, RecordType, Serial, Soa};
use std::alloc::{AllocError, Global};

/// The data of an SOA record with its serial one further, and others as they are. The only error is out of memory.
fn next_data(alloc: Global, rdata: &Data) -> Result<Data, AllocError>
    ensures { IfOk result (λ next. next ≡ next_data rdata.now) }
{
    let Data::Soa(soa) = rdata else {
        return rdata.try_copy(alloc);
    };
    let mut next = soa.fields().try_copy(alloc)?;
    next.serial = Serial(serial_add(next.serial.0, 1));
    Ok(Data::Soa(Soa::new(alloc, next)?))
}

/// An SOA with its serial one further. The only error is out of memory.
fn next_version(alloc: Global, rr: &Record) -> Result<Record, AllocError>
    ensures { IfOk result (λ next. next ≡ next_version rr.now) }
{
    Ok(Record {
        owner: rr.owner.try_copy(alloc)?,
        ttl: rr.ttl,
        rdata: next_data(alloc, &rr.rdata)?,
    })
}

/// Whether the serial goes one further: something changed, and no SOA was taken.
fn advances(change: &Change) -> bool
    ensures { result ≡ advances change.now.removed.items change.now.added.items }
{
    let is_empty = change.removed.is_empty() && change.added.is_empty();
    !is_empty && !has_some(&change.added, RecordType::Soa)
}

/// A change, and that of the SOA where the serial goes one further. The SOA stands first in record order. The only error is
/// out of memory.
fn with_serial(alloc: Global, soa: &Record, mut change: Change) -> Result<Change, AllocError>
    ensures removed { IfOk result (λ c. c.removed.items ≡ (if advances change.removed.items change.added.items then soa.now ∷ change.removed.items else change.removed.items)) }
    ensures added { IfOk result (λ c. c.added.items ≡ (if advances change.removed.items change.added.items then next_version soa.now ∷ change.added.items else change.added.items)) }
{
    if !advances(&change) {
        return Ok(change);
    }
    insert_copy(alloc, &mut change.removed, 0, soa)?;
    change.added.insert(0, next_version(alloc, soa)?)?;
    Ok(change)
}

/// What an update changes in a zone. The only error is out of memory.
pub(crate) fn update_change(
    alloc: Global,
    zone: &Zone,
    update: &Update,
) -> Result<Change, AllocError>
    requires { ActsWithin zone.now.origin update.now }
    // What holds of every zone, and of every update.
    ensures zone { IfOk result (λ _. IsZone zone.now) }
    ensures update { IfOk result (λ _. IsUpdate update.now) }
    ensures removed { IfOk result (λ c. AreRows c.removed.items (minus zone.now.records (zone_after zone.now update.now).records)) }
    ensures added { IfOk result (λ c. AreRows c.added.items (minus (zone_after zone.now update.now).records zone.now.records)) }
{
    let change = changes(alloc, zone.origin(), zone.records(), update.operations())?;
    with_serial(alloc, zone.soa(), change)
}

/// The change of an SOA to its next version. The only error is out of memory.
fn advance(alloc: Global, soa: &Record) -> Result<Change, AllocError>
    ensures removed { IfOk result (λ c. c.removed.items ≡ soa.now ∷ []) }
    ensures added { IfOk result (λ c. c.added.items ≡ next_version soa.now ∷ []) }
{
    Ok(Change {
        removed: alone(alloc, soa.try_copy(alloc)?)?,
        added: alone(alloc, next_version(alloc, soa)?)?,
    })
}

impl Zone {
    /// The zone with its serial one further (RFC 1982 section 3.1). The only error is out of memory.
    pub fn advanced(self, alloc: Global) -> Result<Zone, AllocError>
        ensures { IfOk result (λ zone. zone ≡ record self { records = with_next self.records (soa_at self.origin self.records) }) }
    {
        let change = advance(alloc, self.soa())?;
        self.changed(alloc, &change)
    }
}
