//! What edits call in the place of the right thing.

ghost use Rattle.std.specs.Prelude.{◌+◌, ◌≤◌, length};

use dns_data::RecordType;
use dns_names::Name;
use grant_policy::{Action, Identifier, LookUps, Policy, Rule};

/// Looks something up for each of the rules.
pub fn look_all_up(
    policy: &Policy,
    rules: &[Rule],
    caller: &Identifier,
    name: &Name,
    look_ups: &mut LookUps,
)
    ensures { look_ups.old.count + length rules.now ≤ look_ups.new.count }
{
    for _ in rules {
        let _ = grant_policy::decide(policy, caller, name, RecordType::A, Action::List, look_ups);
    }
}
