//! One step of the machine.

ghost use Rattle.std.specs.Prelude.{IfOk, Option};
ghost use Rattle.office_model.specs.States.{State};
ghost use Rattle.office_model.specs.Tables.{LeavesOr};
ghost use Rattle.office_core.specs.Machine.{step};
ghost use Rattle.office_core.specs.Bookmarks.{AreBookmarks};
ghost use Rattle.office_core.specs.Steps.{Steps, Leaves, CountsReply, CountsStep, Takes, LeavesTurn, IsAnswer};

use crate::bookmark::Bookmarks;
use crate::query::query_reply;
use crate::submission::Submission;
use crate::update::update_reply;
use grant_policy::{Identifier, Policy};
use office_model::{Reply, Request, StepFault, ZoneTable};
use std::alloc::Global;

/// What the office replies to a request of a caller, and what it keeps.
///
/// An update is answered by its receipt, where the caller's identifier has one: by the reply that was kept, or, if it is not the
/// same update of the same zone, by `IdReused`. Otherwise it is refused by the first that applies: there is no such zone, a name
/// is outside it, the policy denies what an item asks for, a prerequisite does not hold; or it is made whole. Its receipt is
/// kept with the change that it made, in one commit, which is the last call of the table.
///
/// Any other request is answered by what the caller may list, and changes nothing. `Servfail` comes where a call of the table
/// failed, or memory ran out, and then nothing has changed.
pub fn step<T: ZoneTable>(
    alloc: Global,
    table: &mut T,
    policy: &Policy,
    caller: &Identifier,
    request: &Request,
) -> Reply
    // Where the store has kept its word, the reply and the state after it are those of the machine.
    ensures step { T.is_honest table.new → (s : State) → T.holds table.old s → Steps (T.holds table.new) policy.now s caller.now request.now result }
    // After an update that was answered a crash leaves the state after it; where the commit failed, the one before or the one after;
    // and else what it would have left before.
    ensures crash { T.is_honest table.new → (s : State) (other : Option State) → T.holds table.old s → LeavesOr (T.leaves table.old) s other
        → Leaves (T.leaves table.new) policy.now s other caller.now request.now result }
    // A store that has kept its word had kept it before.
    ensures honest { T.is_honest table.new → T.is_honest table.old }
    // A failure of the table is told only where the table counted it.
    ensures counts { CountsReply (T.failures table.old) (T.failures table.new) result }
{
    let mut bookmarks = Bookmarks::new(alloc);
    step_with_bookmarks(alloc, table, policy, &mut bookmarks, caller, request)
}

/// The same with bookmarks, so that who asks for changes again pays for those after the last answer. Bookmarks are kept for one
/// policy.
pub fn step_with_bookmarks<T: ZoneTable>(
    alloc: Global,
    table: &mut T,
    policy: &Policy,
    bookmarks: &mut Bookmarks,
    caller: &Identifier,
    request: &Request,
) -> Reply
    // Where the store has kept its word and the bookmarks are right of what is held, it does the same, and they are right of what is
    // held then.
    ensures step { T.is_honest table.new → (s : State) → T.holds table.old s → AreBookmarks policy.now s bookmarks.old
        → Steps (λ t. T.holds table.new t × AreBookmarks policy.now t bookmarks.new) policy.now s caller.now request.now result }
    ensures crash { T.is_honest table.new → (s : State) (other : Option State) → T.holds table.old s → LeavesOr (T.leaves table.old) s other
        → Leaves (T.leaves table.new) policy.now s other caller.now request.now result }
    ensures honest { T.is_honest table.new → T.is_honest table.old }
    ensures counts { CountsReply (T.failures table.old) (T.failures table.new) result }
{
    match answer(alloc, table, policy, bookmarks, caller, request) {
        Ok(reply) => reply,
        Err(fault) => Reply::Servfail(fault),
    }
}

/// The answer to a request of a caller, or why it has no answer.
fn answer<T: ZoneTable>(
    alloc: Global,
    table: &mut T,
    policy: &Policy,
    bookmarks: &mut Bookmarks,
    caller: &Identifier,
    request: &Request,
) -> Result<Reply, StepFault>
    ensures takes { T.is_honest table.new → (s : State) → T.holds table.old s → AreBookmarks policy.now s bookmarks.old
        → Takes (T.holds table.new) s (step policy.now s caller.now request.now) result }
    ensures crash { T.is_honest table.new → (s : State) (other : Option State) → T.holds table.old s → LeavesOr (T.leaves table.old) s other
        → LeavesTurn (T.leaves table.new) s other request.now (step policy.now s caller.now request.now) result }
    ensures honest { T.is_honest table.new → T.is_honest table.old }
    ensures answers { IfOk result IsAnswer }
    ensures counts { CountsStep (T.failures table.old) (T.failures table.new) result }
    ensures bookmarks { T.is_honest table.new → (s : State) → T.holds table.old s → AreBookmarks policy.now s bookmarks.old
        → AreBookmarks policy.now s bookmarks.new }
{
    match request {
        Request::Update { origin, id, update } => {
            let submission = Submission {
                policy,
                caller,
                id,
                origin,
                update,
            };
            update_reply(alloc, table, &submission)
        }
        Request::Read(query) => Ok(query_reply(alloc, table, policy, bookmarks, caller, query)?),
    }
}
