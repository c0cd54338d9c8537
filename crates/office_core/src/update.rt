//! Updates: whether they are made, and what is kept of them.

ghost use Rattle.std.specs.Prelude.{◌≡◌, Option, None, Some, IfOk, option_map};
ghost use Rattle.zone_core.specs.Updates.{IsUpdate, ActsWithin};
ghost use Rattle.zone_core.specs.Changes.{change_in};
ghost use Rattle.office_model.specs.Replies.{reply_of};
ghost use Rattle.office_model.specs.States.{State};
ghost use Rattle.office_model.specs.Tables.{LeavesOr, ReadsOnly, addition_in};
ghost use Rattle.office_model.specs.declared.reply.UpdateReply.TheVariants.{NoError};
ghost use Rattle.office_core.specs.Machine.{again, zone_refusal, failed_reply};
ghost use Rattle.office_core.specs.Steps.{CountsStep, IsAnswer, Takes, LeavesUpdate, Commits, Makes, MakesOf, held_in, unread_refusal};
ghost use Rattle.office_core.specs.Submissions.{submitted, first_submitted, IsFresh, MakesFirst, addition_for};
ghost use Rattle.office_core.specs.Plans.{Plans};

use crate::permission::denied;
use crate::submission::Submission;
use dns_names::Name;
use grant_policy::{Identifier, LookUps, Policy};
use office_model::{Addition, Receipt, Reply, StepFault, TableFault, UpdateReply, ZoneTable};
use std::alloc::{AllocError, Global};
use zone_core::{Change, Update, Zone, holds};

/// Makes an update, or refuses it, and keeps its receipt; where it has one already, its reply is given again.
pub(crate) fn update_reply<T: ZoneTable>(
    alloc: Global,
    table: &mut T,
    submission: &Submission<'_>,
) -> Result<Reply, StepFault>
    ensures takes { T.is_honest table.new → (s : State) → T.holds table.old s → Takes (T.holds table.new) s (submitted submission.now s) result }
    ensures crash { T.is_honest table.new → (s : State) (other : Option State) → T.holds table.old s → LeavesOr (T.leaves table.old) s other
        → LeavesUpdate (T.leaves table.new) s other (submitted submission.now s) result }
    ensures honest { T.is_honest table.new → T.is_honest table.old }
    ensures answers { IfOk result IsAnswer }
    ensures counts { CountsStep (T.failures table.old) (T.failures table.new) result }
{
    match table.receipt(alloc, submission.caller, submission.id)? {
        Some(kept) => Ok(repeated(kept, submission.origin, submission.update)),
        None => first_reply(alloc, table, submission),
    }
}

/// The reply of a receipt to its update; to another one `IdReused`.
fn repeated(kept: Receipt, origin: &Name, update: &Update) -> Reply
    ensures { reply_of result ≡ Some (again origin.now update.now kept) }
{
    if kept.origin == *origin && kept.update.is_same(update) {
        Reply::Update(kept.reply)
    } else {
        Reply::IdReused
    }
}

/// Makes an update that has no receipt, or refuses it, and keeps its receipt.
fn first_reply<T: ZoneTable>(
    alloc: Global,
    table: &mut T,
    submission: &Submission<'_>,
) -> Result<Reply, StepFault>
    requires fresh { T.is_honest table.old → (s : State) → T.holds table.old s → IsFresh submission.now s }
    ensures takes { T.is_honest table.new → (s : State) → T.holds table.old s → Takes (T.holds table.new) s (first_submitted submission.now s) result }
    ensures crash { T.is_honest table.new → (s : State) → T.holds table.old s → T.leaves table.old s s
        → LeavesUpdate (T.leaves table.new) s (Some s) (first_submitted submission.now s) result }
    ensures honest { T.is_honest table.new → T.is_honest table.old }
    ensures answers { IfOk result IsAnswer }
    ensures counts { CountsStep (T.failures table.old) (T.failures table.new) result }
{
    let (reply, addition) = prepared(alloc, table, submission)?;
    match table.commit(alloc, addition) {
        // nothing takes memory after a commit
        Ok(()) => Ok(Reply::Update(reply)),
        Err(fault) => Err(StepFault::Commit(fault)),
    }
}

/// The reply to an update that has no receipt, and what is to be kept of it.
fn prepared<T: ZoneTable>(
    alloc: Global,
    table: &mut T,
    submission: &Submission<'_>,
) -> Result<(UpdateReply, Addition), TableFault>
    requires fresh { T.is_honest table.old → (s : State) → T.holds table.old s → IsFresh submission.now s }
    ensures commits { T.is_honest table.new
        → IfOk result (λ r. (s : State) → T.holds table.new s → Commits s (first_submitted submission.now s) (addition_in r.1) r.0) }
    ensures reads { ReadsOnly T.holds T.is_honest T.leaves T.failures table.old table.new result }
{
    let (reply, change) = decided(alloc, table, submission)?;
    let addition = addition(alloc, submission, &reply, change)?;
    Ok((reply, addition))
}

/// The reply to an update that has no receipt, and what it changes, if it is made and changes something. The policy is asked before a
/// record is read, and the records at each name are read once.
fn decided<T: ZoneTable>(
    alloc: Global,
    table: &mut T,
    submission: &Submission<'_>,
) -> Result<(UpdateReply, Option<Change>), TableFault>
    ensures makes { T.is_honest table.new
        → IfOk result (λ r. (s : State) → T.holds table.old s → MakesFirst submission.now s r.0 (option_map change_in r.1)) }
    ensures update { IsUpdate submission.now.update.now }
    ensures reads { ReadsOnly T.holds T.is_honest T.leaves T.failures table.old table.new result }
{
    let Submission {
        policy,
        caller,
        origin,
        update,
        ..
    } = submission;
    // that it is an update follows from that it has operations
    let _operations = update.operations();
    if !table.has_zone(alloc, origin)? {
        return Ok((UpdateReply::NotAuth, None));
    }
    if let Some(reply) = unread_refusal(alloc, policy, caller, origin, update)? {
        return Ok((reply, None));
    }
    let names = update.names(alloc)?;
    let part = table.part(alloc, origin, &names)?;
    Ok(made_at(alloc, origin, part, update)?)
}

/// What is kept of an update: its receipt, and the change that it made. The only error is out of memory.
fn addition(
    alloc: Global,
    submission: &Submission<'_>,
    reply: &UpdateReply,
    change: Option<Change>,
) -> Result<Addition, AllocError>
    ensures { IfOk result (λ a. addition_in a ≡ addition_for submission.now reply.now (option_map change_in change)) }
{
    let receipt = Receipt {
        origin: submission.origin.try_copy(alloc)?,
        update: submission.update.try_copy(alloc)?,
        reply: reply.try_copy(alloc)?,
    };
    Ok(Addition {
        caller: submission.caller.try_copy(alloc)?,
        id: submission.id.try_copy(alloc)?,
        receipt,
        change,
    })
}

/// The reply to an update that its names and the policy allow, by what it reads of its zone, where there is the zone, and what it
/// changes, if it is made and changes something. The only error is out of memory.
fn made_at(
    alloc: Global,
    origin: &Name,
    part: Option<Zone>,
    update: &Update,
) -> Result<(UpdateReply, Option<Change>), AllocError>
    requires { ActsWithin origin.now update.now }
    ensures { IfOk result (λ r. MakesOf origin.now update.now part r.0 (option_map change_in r.1)) }
{
    match part {
        Some(zone) => made_of(alloc, origin, &zone, update),
        None => Ok((UpdateReply::NotAuth, None)),
    }
}

/// The same where there is a zone. A store that has broken its word may answer that of another origin, for which nothing is made.
fn made_of(
    alloc: Global,
    origin: &Name,
    zone: &Zone,
    update: &Update,
) -> Result<(UpdateReply, Option<Change>), AllocError>
    requires { ActsWithin origin.now update.now }
    ensures { IfOk result (λ r. MakesOf origin.now update.now (Some zone.now) r.0 (option_map change_in r.1)) }
{
    if zone.origin() == origin {
        return made(alloc, zone, update);
    }
    Ok((UpdateReply::NotAuth, None))
}

/// What the office would answer to an update of a zone, and what it would change, if it is made and changes something. The only error
/// is out of memory.
pub fn plan(
    alloc: Global,
    policy: &Policy,
    caller: &Identifier,
    zone: &Zone,
    update: &Update,
) -> Result<(UpdateReply, Option<Change>), AllocError>
    // An office that holds the zone, and to which the caller has sent no update under the identifier, answers so, and notes this change.
    ensures step { IfOk result (λ r. Plans policy.now caller.now zone.now update.now r.0 (option_map change_in r.1)) }
    // The same by a definition that computes.
    ensures exact { IfOk result
        (λ r. Makes zone.now update.now (zone_refusal policy.now caller.now zone.now.origin update.now (held_in zone.now)) r.0 (option_map change_in r.1)) }
    // An update that is made acts within the zone.
    ensures inside { IfOk result (λ r. r.0 ≡ NoError → ActsWithin zone.now.origin update.now) }
{
    planned(alloc, policy, caller, zone, update)
}

/// The reply to an update of a zone, and what it changes, if it is made and changes something. The only error is out of memory.
fn planned(
    alloc: Global,
    policy: &Policy,
    caller: &Identifier,
    zone: &Zone,
    update: &Update,
) -> Result<(UpdateReply, Option<Change>), AllocError>
    ensures { IfOk result
        (λ r. Makes zone.now update.now (zone_refusal policy.now caller.now zone.now.origin update.now (held_in zone.now)) r.0 (option_map change_in r.1)) }
{
    match unread_refusal(alloc, policy, caller, zone.origin(), update)? {
        Some(reply) => Ok((reply, None)),
        None => made(alloc, zone, update),
    }
}

/// The reply to an update of a zone that its names and the policy allow, and what it changes, if its prerequisites hold and it changes
/// something. The only error is out of memory.
fn made(
    alloc: Global,
    zone: &Zone,
    update: &Update,
) -> Result<(UpdateReply, Option<Change>), AllocError>
    requires { ActsWithin zone.now.origin update.now }
    ensures { IfOk result (λ r. Makes zone.now update.now (failed_reply zone.now.records update.now) r.0 (option_map change_in r.1)) }
{
    match holds(zone, update) {
        Ok(()) => changed(alloc, zone, update),
        Err(failed) => Ok((UpdateReply::Failed(failed), None)),
    }
}

/// The reply to an update that is made, and what it changes, if it changes something. The only error is out of memory.
fn changed(
    alloc: Global,
    zone: &Zone,
    update: &Update,
) -> Result<(UpdateReply, Option<Change>), AllocError>
    requires { ActsWithin zone.now.origin update.now }
    ensures { IfOk result (λ r. Makes zone.now update.now None r.0 (option_map change_in r.1)) }
{
    let change = Change::of_update(alloc, zone, update)?;
    let change = if change.is_empty() {
        None
    } else {
        Some(change)
    };
    Ok((UpdateReply::NoError, change))
}

/// Why an update of the zone of an origin is not made, whatever its records: the first that applies of its names and the policy. The
/// only error is out of memory.
fn unread_refusal(
    alloc: Global,
    policy: &Policy,
    caller: &Identifier,
    origin: &Name,
    update: &Update,
) -> Result<Option<UpdateReply>, AllocError>
    // An update that is not refused acts within the zone.
    ensures inside { IfOk result (λ reply. reply ≡ None → ActsWithin origin.now update.now) }
    ensures reply { IfOk result (λ reply. reply ≡ unread_refusal policy.now caller.now origin.now update.now) }
{
    if let Some(place) = update.outside(origin) {
        return Ok(Some(UpdateReply::NotZone(place)));
    }
    let mut look_ups = LookUps::new();
    let Some(denial) = denied(policy, caller, origin, update, &mut look_ups) else {
        return Ok(None);
    };
    let by = match denial.by {
        Some(id) => Some(id.try_copy(alloc)?),
        None => None,
    };
    Ok(Some(UpdateReply::Refused {
        place: denial.place,
        by,
    }))
}
