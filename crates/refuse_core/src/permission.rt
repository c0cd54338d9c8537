//! What a policy denies.

ghost use Rattle.std.specs.Prelude.{◌≡◌, option_map};
ghost use Rattle.office_core.specs.Footprints.{footprint};
ghost use Rattle.office_core.specs.Permissions.{denial_of, first_denial};

use dns_names::Name;
use grant_policy::{Identifier, LookUps, Policy};
use office_core::Denial;
use zone_core::{ItemList, Update};

/// `denied`.
pub fn denied<'a>(
    policy: &'a Policy,
    caller: &Identifier,
    origin: &Name,
    update: &Update,
    look_ups: &mut LookUps,
) -> Option<Denial<'a>>
    ensures { option_map denial_of result ≡ first_denial policy.now caller.now (footprint origin.now update.now) }
{
    office_core::denied(policy, caller, origin, update, look_ups)
}
