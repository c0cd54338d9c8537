//! What the definition of a file of groups promises.

ghost use Rattle.std.specs.Prelude.{◌≡◌, Ok};
ghost use Rattle.grant_policy.specs.Documents.{AreRules};
ghost use Rattle.grant_policy.specs.Rules.{Question};
ghost use Rattle.policy_build.specs.Making.{BuiltOf, built_of, rules_made};
ghost use Rattle.policy_build.specs.Meaning.{IsMeant};
ghost use Rattle.policy_build.specs.Sources.{SourceOf};

/// The rules that a file makes decide every question as its first entry does that speaks of it, by a rule that is made of this entry;
/// and such rules are those of a policy.
pub fn built_rules_decide_as_the_file_means()
    ensures meant { (source : SourceOf) (built : BuiltOf) → built_of source ≡ Ok built → (asked : Question) → IsMeant source asked built }
    ensures policy { (source : SourceOf) (built : BuiltOf) → built_of source ≡ Ok built → AreRules (rules_made built.rules) }
{}
