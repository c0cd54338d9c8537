//! What the definition of a decision promises.

ghost use Rattle.std.specs.Prelude.{◌≡◌, ◌≢◌, ◌↔◌, ℕ, List, [], ◌∷◌, ◌++◌, Some, None};
ghost use Rattle.grant_policy.specs.declared.effect.Effect.TheVariants.{Grant, Deny};
ghost use Rattle.grant_policy.specs.declared.rule.Rule.{Rule};
ghost use Rattle.grant_policy.specs.Rules.{Question};
ghost use Rattle.grant_policy.specs.Boundaries.{DecidesAlike};
ghost use Rattle.grant_policy.specs.Decisions.{Verdict, granted, denied, IsDecision, IsDecidedBy, NoneMatches, decision};

/// A list of rules decides each question, and in one way only.
pub fn each_question_has_one_decision()
    ensures some { (asked : Question) (rules : List Rule) → IsDecision asked rules (decision asked rules) }
    ensures one { (asked : Question) (rules : List Rule) (v w : Verdict) → IsDecision asked rules v → IsDecision asked rules w → v ≡ w }
{}

/// A rule that is named matches, no rule before it does, and it does what was decided.
pub fn a_rule_is_named_where_it_decided()
    ensures denial { (asked : Question) (rules : List Rule) (id : List ℕ) → IsDecision asked rules (denied (Some id)) → IsDecidedBy Deny id asked rules }
    ensures grant { (asked : Question) (rules : List Rule) (id : List ℕ) → IsDecision asked rules (granted id) → IsDecidedBy Grant id asked rules }
{}

/// The closing default denies exactly where no rule matches.
pub fn closing_denies_where_no_rule_matches()
    ensures { (asked : Question) (rules : List Rule) (v : Verdict) → IsDecision asked rules v → (v ≡ denied None) ↔ NoneMatches asked rules }
{}

/// Without rules everything is denied.
pub fn no_rules_deny_everything()
    ensures { (asked : Question) → decision asked [] ≡ denied None }
{}

/// A rule at the end changes nothing that a rule before it decided.
pub fn a_rule_at_the_end_changes_no_decision_of_a_rule()
    ensures { (asked : Question) (rules : List Rule) (rule : Rule) → decision asked rules ≢ denied None → decision asked (rules ++ rule ∷ []) ≡ decision asked rules }
{}

/// A policy decides alike at all names between whose keys no rule of the caller, or of every caller, begins or ends: where the same
/// of these are before both keys or at them: the key of the rule's name, the first key after it, and the first after those of the
/// names within.
pub fn names_between_boundaries_are_decided_alike()
    ensures { DecidesAlike }
{}
