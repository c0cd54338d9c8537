//! The reply to a query. Each query has a module of its own.

ghost use Rattle.std.specs.Prelude.{IfOk};
ghost use Rattle.office_model.specs.States.{State};
ghost use Rattle.office_model.specs.Tables.{ReadsOnly};
ghost use Rattle.office_core.specs.Machine.{unchanged, query_reply};
ghost use Rattle.office_core.specs.Bookmarks.{AreBookmarks};
ghost use Rattle.office_core.specs.Steps.{IsAnswer, Takes};

use crate::bookmark::Bookmarks;
use crate::changes::changes;
use crate::delegations::delegations;
use crate::file::file;
use crate::list::list;
use crate::list_within::list_within;
use crate::rights::right;
use grant_policy::{Identifier, Policy};
use office_model::{Query, Reply, TableFault, ZoneTable};
use std::alloc::Global;

/// What the office replies to a query of a caller: what the caller may list, or what the policy decides. Nothing changes but its
/// bookmarks, where it asks for changes.
pub(crate) fn query_reply<T: ZoneTable>(
    alloc: Global,
    table: &mut T,
    policy: &Policy,
    bookmarks: &mut Bookmarks,
    caller: &Identifier,
    query: &Query,
) -> Result<Reply, TableFault>
    ensures takes { T.is_honest table.new → (s : State) → T.holds table.old s → AreBookmarks policy.now s bookmarks.old
        → Takes (T.holds table.new) s (unchanged s (query_reply policy.now s caller.now query.now)) result }
    ensures bookmarks { T.is_honest table.new → (s : State) → T.holds table.old s → AreBookmarks policy.now s bookmarks.old
        → AreBookmarks policy.now s bookmarks.new }
    ensures answers { IfOk result IsAnswer }
    ensures reads { ReadsOnly T.holds T.is_honest T.leaves T.failures table.old table.new result }
{
    match query {
        Query::List { origin } => list(alloc, table, policy, caller, origin),
        Query::ListWithin { origin, top } => list_within(alloc, table, policy, caller, origin, top),
        Query::File { origin } => file(alloc, table, policy, caller, origin),
        Query::Delegations { origin } => delegations(alloc, table, policy, caller, origin),
        Query::Changes { origin, from } => {
            changes(alloc, table, policy, bookmarks, caller, origin, *from)
        }
        Query::Rights {
            name,
            record_type,
            action,
        } => Ok(right(alloc, policy, caller, name, *record_type, *action)?),
    }
}
