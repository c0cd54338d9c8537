//! What the definition of a group of names promises.

ghost use Rattle.std.specs.Prelude.{ℕ, List};
ghost use Rattle.grant_policy.specs.declared.rule.Rule.{Rule};
ghost use Rattle.policy_tools.specs.NameGroups.{IsInOneGroup};

/// Each name is in one group, and in one only: the root or a name that a rule has, or what is below one of these and not at or below a
/// deeper one.
pub fn each_name_is_in_one_group()
    ensures { (rules : List Rule) (name : List (List ℕ)) → IsInOneGroup rules name }
{}
