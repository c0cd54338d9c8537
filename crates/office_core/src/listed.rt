//! The records of a zone that a caller may list.

ghost use Rattle.std.specs.Prelude.{◌≡◌, [], Some, IfOk, IfSome, option_map};
ghost use Rattle.zone_core.specs.Outermost.{AreApart};
ghost use Rattle.zone_core.specs.Sets.{InOrder};
ghost use Rattle.grant_policy.specs.Reach.{GrantsWithinSome};
ghost use Rattle.grant_policy.specs.declared.action.Action.TheVariants.{List};
ghost use Rattle.office_model.specs.States.{State};
ghost use Rattle.office_model.specs.Tables.{ReadsOnly};
ghost use Rattle.office_core.specs.Machine.{listed_at};

use crate::subtrees::within_each;
use dns_data::Record;
use dns_names::Name;
use grant_policy::{Action, Grants, Identifier, Policy, reach, reaches};
use office_model::{TableFault, ZoneTable};
use std::alloc::{AllocError, Global};
use zone_core::outermost;

/// How many names are each read by themselves. For more, what is read is within the last name that all of them are within.
const FEW_NAMES: usize = 16;

/// The outermost names within an origin to which the caller's grants to list reach. The only error is out of memory.
fn granted_names(
    alloc: Global,
    policy: &Policy,
    caller: &Identifier,
    origin: &Name,
) -> Result<Vec<Name>, AllocError>
    ensures granted { IfOk result (λ tops. GrantsWithinSome policy.now caller.now List origin.now tops.items) }
    ensures apart { IfOk result (λ tops. AreApart tops.items) }
{
    let names = reaches(alloc, policy, caller, Action::List, origin)?;
    let tops = outermost(alloc, &names)?;
    Ok(tops)
}

/// No records, where there is the zone of an origin.
fn none_of<T: ZoneTable>(
    alloc: Global,
    table: &mut T,
    origin: &Name,
) -> Result<Option<Vec<Record>>, TableFault>
    ensures answer { T.is_honest table.new
        → IfOk result (λ found. (s : State) → T.holds table.old s → option_map (λ rs. rs.items) found ≡ option_map (λ held. []) (s.zones origin.now)) }
    ensures order { IfOk result (λ found. IfSome found (λ rs. InOrder rs.items)) }
    ensures reads { ReadsOnly T.holds T.is_honest T.leaves T.failures table.old table.new result }
{
    let Some(_part) = table.part(alloc, origin, &[])? else {
        return Ok(None);
    };
    Ok(Some(Vec::new(alloc)))
}

/// The records of a zone that the caller may list, where there is the zone. Only those are read that are within the name to which all of
/// the caller's grants reach.
fn within_reach<T: ZoneTable>(
    alloc: Global,
    table: &mut T,
    policy: &Policy,
    caller: &Identifier,
    origin: &Name,
) -> Result<Option<Vec<Record>>, TableFault>
    ensures answer { T.is_honest table.new
        → IfOk result (λ found. (s : State) → T.holds table.old s → option_map (λ rs. rs.items) found ≡ listed_at policy.now caller.now s origin.now) }
    ensures order { IfOk result (λ found. IfSome found (λ rs. InOrder rs.items)) }
    ensures reads { ReadsOnly T.holds T.is_honest T.leaves T.failures table.old table.new result }
{
    let Some(top) = reach(alloc, policy, caller, Action::List, origin)? else {
        return none_of(alloc, table, origin);
    };
    let mut grants = Grants::new(alloc, policy, caller, Action::List);
    table.subtree(alloc, origin, &top, &mut grants)
}

/// The records of a zone that the caller may list, where there is the zone. Only those are read that are within the names to which the
/// caller's grants reach; if these are many, within the one that all of them are within.
pub(crate) fn listed_of<T: ZoneTable>(
    alloc: Global,
    table: &mut T,
    policy: &Policy,
    caller: &Identifier,
    origin: &Name,
) -> Result<Option<Vec<Record>>, TableFault>
    ensures answer { T.is_honest table.new
        → IfOk result (λ found. (s : State) → T.holds table.old s → option_map (λ rs. rs.items) found ≡ listed_at policy.now caller.now s origin.now) }
    ensures order { IfOk result (λ found. IfSome found (λ rs. InOrder rs.items)) }
    ensures reads { ReadsOnly T.holds T.is_honest T.leaves T.failures table.old table.new result }
{
    let tops = granted_names(alloc, policy, caller, origin)?;
    if tops.len() < 2 || FEW_NAMES < tops.len() {
        return within_reach(alloc, table, policy, caller, origin);
    }
    let mut grants = Grants::new(alloc, policy, caller, Action::List);
    within_each(alloc, table, origin, &tops, &mut grants)
}
