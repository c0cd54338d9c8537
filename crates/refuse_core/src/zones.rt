//! Zones and updates.

ghost use Rattle.std.specs.Prelude.{◌≡◌, IfOk};
ghost use Rattle.zone_core.specs.Effects.{zone_after};
ghost use Rattle.zone_core.specs.Sets.{listing};
ghost use Rattle.zone_core.specs.Updates.{ActsWithin};
ghost use Rattle.zone_core.specs.Zones.{serial_of};
ghost use Rattle.zone_tools.specs.ZoneFindings.{AreFindings};

use dns_data::same_record;
use std::alloc::{AllocError, Global};
use zone_core::{Outcome, Update, Zone};
use zone_tools::Finding;

/// `apply`, and the serial of the zone after it.
pub fn serial_after(
    alloc: Global,
    zone: &Zone,
    update: &Update,
) -> Result<(u32, Outcome), AllocError>
    requires { ActsWithin zone.now.origin update.now }
    ensures { IfOk result (λ made. made.0 ≡ serial_of (zone_after zone.now update.now)) }
{
    let outcome = zone_core::apply(alloc, zone, update)?;
    Ok((outcome.zone.serial(), outcome))
}

/// `findings`.
pub fn findings(alloc: Global, zone: &Zone) -> Result<Vec<Finding>, AllocError>
    ensures { IfOk result (λ found. AreFindings zone.now.origin (listing zone.now.records) found.items) }
{
    zone_tools::findings(alloc, zone)
}
