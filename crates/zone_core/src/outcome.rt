//! What an update makes of a zone.

ghost use Rattle.std.specs.Prelude.{◌≡◌, IfOk};
ghost use Rattle.zone_core.specs.Sets.{minus, AreRows};
ghost use Rattle.zone_core.specs.Updates.{ActsWithin};
ghost use Rattle.zone_core.specs.Effects.{zone_after};
ghost use Rattle.zone_core.specs.Zones.{IsZone};
ghost use Rattle.zone_core.specs.Accounts.{Leaves};
ghost use Rattle.zone_core.specs.Versions.{Advances};

use crate::serial_advance::update_change;
use crate::update::Update;
use crate::zone::Zone;
use dns_data::Record;
use std::alloc::{AllocError, Global};

/// What an update made of a zone.
#[derive(Drop)]
pub struct Outcome {
    /// The zone after the update.
    pub zone: Zone,
    /// The records of the zone before that are not in it, or are in it with another TTL, in record order.
    pub removed: Vec<Record>,
    /// The records in it that the zone before had not, or had with another TTL, in record order.
    pub added: Vec<Record>,
}

/// Does the operations of an update to a zone, in order, each by its rule (RFC 2136 section 3.4.2), and advances the serial
/// where something changed and no operation replaced the SOA (section 3.6, RFC 1982 section 3.1). The prerequisites are not
/// tested: `holds` tells of them. The names of the operations are within the origin: `Update::outside` tells of others. The
/// only error is out of memory.
pub fn apply(alloc: Global, zone: &Zone, update: &Update) -> Result<Outcome, AllocError>
    requires { ActsWithin zone.now.origin update.now }
    ensures zone { IfOk result (λ o. o.zone ≡ zone_after zone.now update.now) }
    // What that is, in the words of the standard: a zone; but for its SOA, the records that an operation put there and none later
    // took away, and those that were there and none took away; and a serial that is greater, unless nothing changed.
    ensures kept { IfOk result (λ o. IsZone o.zone) }
    ensures left { IfOk result (λ o. Leaves zone.now update.now o.zone) }
    ensures serial { IfOk result (λ o. Advances zone.now update.now o.zone) }
    // What has changed, each side in record order.
    ensures removed { IfOk result (λ o. AreRows o.removed.items (minus zone.now.records o.zone.records)) }
    ensures added { IfOk result (λ o. AreRows o.added.items (minus o.zone.records zone.now.records)) }
{
    apply_owned(alloc, zone.try_copy(alloc)?, update)
}

/// `apply` for a caller that needs the zone before no more.
pub fn apply_owned(alloc: Global, zone: Zone, update: &Update) -> Result<Outcome, AllocError>
    requires { ActsWithin zone.origin update.now }
    ensures zone { IfOk result (λ o. o.zone ≡ zone_after zone update.now) }
    // What that is, in the words of the standard: a zone; but for its SOA, the records that an operation put there and none later
    // took away, and those that were there and none took away; and a serial that is greater, unless nothing changed.
    ensures kept { IfOk result (λ o. IsZone o.zone) }
    ensures left { IfOk result (λ o. Leaves zone update.now o.zone) }
    ensures serial { IfOk result (λ o. Advances zone update.now o.zone) }
    // What has changed, each side in record order.
    ensures removed { IfOk result (λ o. AreRows o.removed.items (minus zone.records o.zone.records)) }
    ensures added { IfOk result (λ o. AreRows o.added.items (minus o.zone.records zone.records)) }
{
    let change = update_change(alloc, &zone, update)?;
    let after = zone.changed(alloc, &change)?;
    Ok(Outcome {
        zone: after,
        removed: change.removed,
        added: change.added,
    })
}
