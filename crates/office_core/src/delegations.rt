//! The query for the delegations in a zone.

ghost use Rattle.std.specs.Prelude.{IfOk};
ghost use Rattle.office_model.specs.States.{State};
ghost use Rattle.office_model.specs.Tables.{ReadsOnly};
ghost use Rattle.office_core.specs.Machine.{unchanged, of_zone, delegations_reply};
ghost use Rattle.office_core.specs.Steps.{IsAnswer, Takes};

use crate::listed::listed_of;
use dns_names::Name;
use grant_policy::{Identifier, Policy};
use office_model::{Reading, Reply, TableFault, ZoneTable};
use std::alloc::Global;
use zone_core::delegation_report;

/// The delegations in a zone, by the records that the caller may list.
pub(crate) fn delegations<T: ZoneTable>(
    alloc: Global,
    table: &mut T,
    policy: &Policy,
    caller: &Identifier,
    origin: &Name,
) -> Result<Reply, TableFault>
    ensures takes { T.is_honest table.new → (s : State) → T.holds table.old s
        → Takes (T.holds table.new) s (unchanged s (of_zone (s.zones origin.now) (delegations_reply policy.now caller.now origin.now))) result }
    ensures answers { IfOk result IsAnswer }
    ensures reads { ReadsOnly T.holds T.is_honest T.leaves T.failures table.old table.new result }
{
    let Some(records) = listed_of(alloc, table, policy, caller, origin)? else {
        return Ok(Reply::NotAuth);
    };
    Ok(Reply::Read(Reading::Delegations(delegation_report(alloc, origin, &records)?)))
}
