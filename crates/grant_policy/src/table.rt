//! What a decision reads a policy by.

ghost use Rattle.std.specs.Prelude.{◌≡◌, ◌+◌, ◌<◌, ◌≤◌, ℕ, List, length, slice_index_or, count_by};
ghost use Rattle.std.specs.List.{All};
ghost use Rattle.std.specs.Option.{option_copied};
ghost use Rattle.dns_names.specs.Keys.{IsKeyOfOne};
ghost use Rattle.grant_policy.specs.declared.rule.Rule.{Rule as RuleOf};
ghost use Rattle.grant_policy.specs.Index.{IsRow, Names, is_at, place_of};

use crate::index_row::IndexRow;
use crate::rule::Rule;

/// An ordered list of rules that is read by two calls alone, each of which is one look-up. What is generic over it can't make
/// a counter of its own, so each of its look-ups is counted by the one that it is lent.
pub(crate) trait RuleTable {
    /// What counts the look-ups.
    type LookUps;

    ghost rules: { Self → List RuleOf };

    ghost count: { Self.LookUps → ℕ };

    /// The rows of the rules of a caller, or with `None` of every caller, at the name of a key.
    fn search(&self, caller: Option<&[u8]>, key: &[u8], look_ups: &mut Self::LookUps) -> &[IndexRow]
        // Each row names a rule at its place.
        ensures rows { All (IsRow (rules self.now)) result.now }
        // Each rule at that place has a row.
        ensures all { (i : ℕ) → (d : RuleOf) → i < length (rules self.now) → place_of (slice_index_or (rules self.now) i d) ≡ record { caller = option_copied caller.entry; key = key.now } → Names result.now i }
        // There are no more rows than rules at that place.
        ensures few { length result.now ≤ count_by (is_at (option_copied caller.entry) key.now) (rules self.now) }
        // No other name has the key of a rule's.
        ensures keys { All (λ rule. IsKeyOfOne rule.at) (rules self.now) }
        ensures cost { count look_ups.new ≡ count look_ups.old + 1 };

    /// One rule.
    fn rule(&self, number: usize, look_ups: &mut Self::LookUps) -> &Rule
        requires { number < length (rules self.now) }
        ensures value { (d : RuleOf) → result.now ≡ slice_index_or (rules self.now) number d }
        ensures cost { count look_ups.new ≡ count look_ups.old + 1 };
}
