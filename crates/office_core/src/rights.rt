//! The query for what the policy decides.

ghost use Rattle.std.specs.Prelude.{◌≡◌, Some, IfOk};
ghost use Rattle.grant_policy.specs.Decisions.{decision};
ghost use Rattle.office_model.specs.Replies.{reply_of, right_of, right};
ghost use Rattle.office_core.specs.Permissions.{question};

use dns_data::RecordType;
use dns_names::Name;
use grant_policy::{Action, Decision, Identifier, LookUps, Policy, decide};
use office_model::{Reading, Reply, Right};
use std::alloc::{AllocError, Global};

/// What the policy decides, with an identifier in memory of its own. The only error is out of memory.
pub(crate) fn right(
    alloc: Global,
    policy: &Policy,
    caller: &Identifier,
    name: &Name,
    record_type: RecordType,
    action: Action,
) -> Result<Reply, AllocError>
    ensures { IfOk result (λ reply. reply_of reply ≡ Some (right (decision (question caller.now name.now record_type action) policy.now))) }
{
    let mut look_ups = LookUps::new();
    let right = match decide(policy, caller, name, record_type, action, &mut look_ups) {
        Decision::Granted(id) => Right::Granted(id.try_copy(alloc)?),
        Decision::Denied(Some(id)) => Right::Denied(Some(id.try_copy(alloc)?)),
        Decision::Denied(None) => Right::Denied(None),
    };
    Ok(Reply::Read(Reading::Right(right)))
}
