//! Runs of the machine.

ghost use Rattle.std.specs.Prelude.{◌≡◌, ◌+◌, Option, IfOk, OnErr, sum_by};
ghost use Rattle.office_model.specs.States.{State};
ghost use Rattle.office_model.specs.Tables.{LeavesOr};
ghost use Rattle.office_core.specs.Runs.{IsRun, HasUpdate, HaveUpdates, state_after, kept, given, other_in, counted_failures};
ghost use Rattle.office_core.specs.Promises.{CallsAreRight};
ghost use Rattle.office_core.specs.RightAnswers.{AnswersAreRight};
ghost use Rattle.office_core.specs.Isolation.{AreAnsweredAlone};

use crate::steps::step;
use grant_policy::Policy;
use office_model::{Call, Reply, Request, ZoneTable};
use std::alloc::{AllocError, Global};

/// The replies to calls, one after the other. The only error is out of memory for the list of replies, and then no call was
/// taken.
pub fn run<T: ZoneTable>(
    alloc: Global,
    table: &mut T,
    policy: &Policy,
    calls: &[Call],
) -> Result<Vec<Reply>, AllocError>
    // Where the store has kept its word, the replies are those of the machine to the calls that it answered, and so is the state
    // after them.
    ensures run { T.is_honest table.new → (s : State) → T.holds table.old s
        → IfOk result (λ replies. IsRun (T.holds table.new) policy.now s calls.now replies.items) }
    // What is promised of calls holds of them: what is made of them is permitted, made whole and in order, and nothing else is.
    ensures promises { T.is_honest table.new → (s : State) → T.holds table.old s
        → IfOk result (λ replies. CallsAreRight policy.now s (kept calls.now replies.items)) }
    // The answers to calls are right: each reply, by what is held before its call and after it.
    ensures answers { T.is_honest table.new → (s : State) → T.holds table.old s
        → IfOk result (λ replies. AnswersAreRight policy.now s (kept calls.now replies.items) (given calls.now replies.items)) }
    // Each caller gets the replies that it would get alone, as far as the law of isolation goes.
    ensures alone { T.is_honest table.new → (s : State) → T.holds table.old s
        → IfOk result (λ replies. AreAnsweredAlone policy.now s (kept calls.now replies.items) (given calls.now replies.items)) }
    // A crash leaves the state after the calls that were answered, or the one after one more, whose commit failed, if no update was
    // answered after it.
    ensures crash { T.is_honest table.new → (s : State) (other : Option State) → T.holds table.old s → LeavesOr (T.leaves table.old) s other
        → IfOk result
        (λ replies. LeavesOr (T.leaves table.new) (state_after policy.now s (kept calls.now replies.items))
        (other_in policy.now s other calls.now replies.items)) }
    // A store that has kept its word had kept it before.
    ensures honest { T.is_honest table.new → T.is_honest table.old }
    // As many failures of the table are reported as the table counted.
    ensures counts { IfOk result (λ replies. T.failures table.new ≡ T.failures table.old + sum_by counted_failures replies.items) }
    // Where there is no list of replies the table is as it was.
    ensures refused { OnErr result ((s : State) → T.holds table.old s → T.holds table.new s) }
    ensures unlost { OnErr result ((s t : State) → T.leaves table.old s t → T.leaves table.new s t) }
    ensures uncounted { OnErr result (T.failures table.new ≡ T.failures table.old) }
{
    reveal_updates(calls);
    replies_to(alloc, table, policy, calls)
}

/// The replies to calls.
fn replies_to<T: ZoneTable>(
    alloc: Global,
    table: &mut T,
    policy: &Policy,
    calls: &[Call],
) -> Result<Vec<Reply>, AllocError>
    ensures run { T.is_honest table.new → (s : State) → T.holds table.old s
        → IfOk result (λ replies. IsRun (T.holds table.new) policy.now s calls.now replies.items) }
    ensures crash { T.is_honest table.new → (s : State) (other : Option State) → T.holds table.old s → LeavesOr (T.leaves table.old) s other
        → IfOk result
        (λ replies. LeavesOr (T.leaves table.new) (state_after policy.now s (kept calls.now replies.items))
        (other_in policy.now s other calls.now replies.items)) }
    ensures honest { T.is_honest table.new → T.is_honest table.old }
    ensures counts { IfOk result (λ replies. T.failures table.new ≡ T.failures table.old + sum_by counted_failures replies.items) }
    ensures refused { OnErr result ((s : State) → T.holds table.old s → T.holds table.new s) }
    ensures unlost { OnErr result ((s t : State) → T.leaves table.old s t → T.leaves table.new s t) }
    ensures uncounted { OnErr result (T.failures table.new ≡ T.failures table.old) }
{
    // no reply takes memory here after a step: there is room for all
    let mut replies = Vec::with_capacity(alloc, calls.len())?;
    for call in calls {
        let reply = step(alloc, table, policy, &call.caller, &call.request);
        replies.push(reply)?;
    }
    Ok(replies)
}

/// The update of a call, where it has one, is one. It does nothing at run time.
fn reveal_update(call: &Call)
    ensures { HasUpdate call.now.request }
{
    if let Request::Update { update, .. } = &call.request {
        let _ = update.operations();
    }
}

/// The same of all calls.
fn reveal_updates(calls: &[Call])
    ensures { HaveUpdates calls.now }
{
    for call in calls {
        reveal_update(call);
    }
}
