//! Policies.

ghost use Rattle.std.specs.Prelude.{◌≡◌, ◌↔◌, ◌+◌, ◌*◌, ◌≤◌, ◌∷◌, length, count_by, IfOk, IsTrue, None};
ghost use Rattle.std.specs.Option.{option_copied, option_map_or};
ghost use Rattle.dns_names.specs.Spelling.{name_text};
ghost use Rattle.grant_policy.specs.Decisions.{concerns, decided, decision, denied};
ghost use Rattle.grant_policy.specs.Scopes.{Covers};
ghost use Rattle.policy_tools.specs.NameRights.{AreRightsAt};

use crate::twins;
use dns_data::RecordType;
use dns_names::Name;
use grant_policy::{Action, Decision, Identifier, LookUps, Policy, Rule, Scope};
use policy_tools::NameRights;
use std::alloc::{AllocError, Global};

/// `covers`, beside the texts of both names, and that of the upper one with a dot in front.
pub fn covers(scope: Scope, at: &Name, name: &Name, _text: &str, _top: &str, _dotted: &str) -> bool
    requires text { _text.now ≡ name_text name.now }
    requires top { _top.now ≡ name_text at.now }
    requires dotted { _dotted.now ≡ 46 ∷ name_text at.now }
    ensures { IsTrue result ↔ Covers scope at.now name.now }
{
    grant_policy::covers(scope, at, name)
}

/// `rights_at`.
pub fn rights(alloc: Global, policy: &Policy, name: &Name) -> Result<NameRights, AllocError>
    ensures { IfOk result (λ rights. AreRightsAt policy.now name.now rights) }
{
    policy_tools::rights_at(alloc, policy, name)
}

/// The rule that decides among the rules of a list, by going through them: what `decide` answers is of this rule.
pub fn first_match<'a>(
    rules: &'a [Rule],
    caller: &Identifier,
    name: &Name,
    record_type: RecordType,
    action: Action,
) -> Option<&'a Rule>
    ensures { option_map_or decided (option_copied result) (denied None)
        ≡ decision (record { caller = caller.now; name = name.now; record_type = record_type; action = action }) rules.entry.now }
{
    match rules {
        [] => None,
        [rule, rest @ ..] => {
            if rule.matches(caller, name, record_type, action) {
                return Some(rule);
            }
            first_match(rest, caller, name, record_type, action)
        }
    }
}

/// `decide`, by what it looks up.
pub fn count<'a>(
    policy: &'a Policy,
    rules: &[Rule],
    caller: &Identifier,
    name: &Name,
    record_type: RecordType,
    action: Action,
    look_ups: &mut LookUps,
) -> Decision<'a>
    requires { rules.now ≡ policy.now }
    ensures most { look_ups.new.count ≤ look_ups.old.count + 2 * (length name.now + 1) + count_by (concerns caller.now name.now) policy.now }
    ensures least { look_ups.old.count + 2 * (length name.now + 1) ≤ look_ups.new.count }
{
    let decision = grant_policy::decide(policy, caller, name, record_type, action, look_ups);
    decision
}
