//! One step of the machine.

ghost use Rattle.std.specs.Prelude.{Option};
ghost use Rattle.office_model.specs.States.{State};
ghost use Rattle.office_model.specs.Tables.{LeavesOr};
ghost use Rattle.office_core.specs.Bookmarks.{AreBookmarks};
ghost use Rattle.office_core.specs.Steps.{Steps, Leaves, CountsReply};

use grant_policy::{Identifier, Policy};
use office_core::Bookmarks;
use office_model::{Reply, Request, StepFault, TableFault, UpdateReply, ZoneTable};
use std::alloc::Global;
use zone_core::Failed;

/// `step`, beside another request and a prerequisite that fails. The second reply of the answer is what an edit got and does not give:
/// to drop it here would be proved with each edit.
pub fn step<T: ZoneTable>(
    alloc: Global,
    table: &mut T,
    policy: &Policy,
    caller: &Identifier,
    request: &Request,
    _other: &Request,
    _failed: Failed,
) -> (Reply, Option<Reply>)
    ensures { T.is_honest table.new → (s : State) → T.holds table.old s → Steps (T.holds table.new) policy.now s caller.now request.now result.0 }
{
    let reply = office_core::step(alloc, table, policy, caller, request);
    (reply, None)
}

/// `step`, by the failures of the table.
pub fn counted_step<T: ZoneTable>(
    alloc: Global,
    table: &mut T,
    policy: &Policy,
    caller: &Identifier,
    asked: &Request,
) -> Reply
    ensures { CountsReply (T.failures table.old) (T.failures table.new) result }
{
    office_core::step(alloc, table, policy, caller, asked)
}

/// `step`, by what a crash leaves.
pub fn left_by_step<T: ZoneTable>(
    alloc: Global,
    table: &mut T,
    policy: &Policy,
    caller: &Identifier,
    wanted: &Request,
) -> Reply
    ensures { T.is_honest table.new → (s : State) (other : Option State) → T.holds table.old s → LeavesOr (T.leaves table.old) s other
        → Leaves (T.leaves table.new) policy.now s other caller.now wanted.now result }
{
    office_core::step(alloc, table, policy, caller, wanted)
}

/// `step_with_bookmarks`, beside another caller whose changes are counted too.
pub fn step_with_bookmarks<T: ZoneTable>(
    alloc: Global,
    table: &mut T,
    policy: &Policy,
    bookmarks: &mut Bookmarks,
    caller: &Identifier,
    request: &Request,
    _other: &Identifier,
) -> Reply
    ensures { T.is_honest table.new → (s : State) → T.holds table.old s → AreBookmarks policy.now s bookmarks.old
        → Steps (λ t. T.holds table.new t × AreBookmarks policy.now t bookmarks.new) policy.now s caller.now request.now result }
{
    office_core::step_with_bookmarks(alloc, table, policy, bookmarks, caller, request)
}
