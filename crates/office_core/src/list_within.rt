//! The query for the records of a zone within a name.

ghost use Rattle.std.specs.Prelude.{IfOk};
ghost use Rattle.office_model.specs.States.{State};
ghost use Rattle.office_model.specs.Tables.{ReadsOnly};
ghost use Rattle.office_core.specs.Machine.{unchanged, of_zone, list_within_reply};
ghost use Rattle.office_core.specs.Steps.{IsAnswer, Takes};

use dns_names::Name;
use grant_policy::{Action, Grants, Identifier, Policy};
use office_model::{Reading, Reply, TableFault, ZoneTable};
use std::alloc::Global;

/// The records of a zone within a name that the caller may list.
pub(crate) fn list_within<T: ZoneTable>(
    alloc: Global,
    table: &mut T,
    policy: &Policy,
    caller: &Identifier,
    origin: &Name,
    top: &Name,
) -> Result<Reply, TableFault>
    ensures takes { T.is_honest table.new → (s : State) → T.holds table.old s
        → Takes (T.holds table.new) s (unchanged s (of_zone (s.zones origin.now) (list_within_reply policy.now caller.now origin.now top.now))) result }
    ensures answers { IfOk result IsAnswer }
    ensures reads { ReadsOnly T.holds T.is_honest T.leaves T.failures table.old table.new result }
{
    let mut grants = Grants::new(alloc, policy, caller, Action::List);
    let Some(records) = table.subtree(alloc, origin, top, &mut grants)? else {
        return Ok(Reply::NotAuth);
    };
    if !top.is_within(origin) {
        return Ok(Reply::NotZone);
    }
    Ok(Reply::Read(Reading::Records(records)))
}
