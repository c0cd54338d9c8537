//! Record types with actions, as sets.

ghost use Rattle.std.specs.Prelude.{◌≡◌, ◌<◌, ◌^◌, ◌&&◌, ◌||◌, not, ◌↔◌, true, false, IsTrue, MatchOption};
ghost use Rattle.dns_data.specs.declared.record_type.RecordType.{RecordType as TypeOf};
ghost use Rattle.grant_policy.specs.declared.action.Action.{Action as ActionOf};
ghost use Rattle.policy_tools.specs.Points.{has_point, names_pair, names_point, pairs, Meet, IsInBoth, Differ, type_at, action_at};
ghost use Rattle.policy_tools.specs.Wanted.{wants};

use crate::wanted::Wanted;
use dns_data::RecordType;
use grant_policy::{Action, Actions, Rule, Types};

/// How many pairs of a record type and an action there are.
const PAIRS: usize = 5 * RecordType::ALL.len();

/// A record type and an action.
#[derive(Clone, Copy)]
pub(crate) struct Pair {
    pub(crate) record_type: RecordType,
    pub(crate) action: Action,
}

/// A set of pairs of a record type and an action, a bit for each.
#[derive(Clone, Copy)]
pub(crate) struct Points {
    bits: u64,
    ghost few: { bits < 2 ^ pairs },
}

impl Points {
    /// No pair.
    pub(crate) fn none() -> Points
        ensures { (t : TypeOf) (a : ActionOf) → has_point result.bits t a ≡ false }
    {
        Points { bits: 0 }
    }

    /// The pairs of which a rule speaks.
    pub(crate) fn of(rule: &Rule) -> Points
        ensures { (t : TypeOf) (a : ActionOf) → has_point result.bits t a ≡ names_point rule.now t a }
    {
        Points::among(&rule.types, &rule.actions)
    }

    /// The pairs of some types and some actions.
    pub(crate) fn among(types: &Types, actions: &Actions) -> Points
        ensures { (t : TypeOf) (a : ActionOf) → has_point result.bits t a ≡ names_pair types.now actions.now t a }
    {
        let mut bits = 0;
        for number in 0..PAIRS {
            if names(types, actions, number) {
                bits |= 1u64 << number;
            }
        }
        Points { bits }
    }

    /// The pairs that are looked for.
    pub(crate) fn wanted(wanted: Wanted) -> Points
        ensures { (t : TypeOf) (a : ActionOf) → has_point result.bits t a ≡ wants wanted t a }
    {
        let mut bits = 0;
        for number in 0..PAIRS {
            if wanted.has(RecordType::ALL[number / 5], Action::ALL[number % 5]) {
                bits |= 1u64 << number;
            }
        }
        Points { bits }
    }

    /// The pairs of either set.
    pub(crate) fn with(self, other: Points) -> Points
        ensures { (t : TypeOf) (a : ActionOf) → has_point result.bits t a ≡ (has_point self.bits t a || has_point other.bits t a) }
    {
        Points {
            bits: self.bits | other.bits,
        }
    }

    /// The pairs that the other set has not.
    pub(crate) fn without(self, other: Points) -> Points
        ensures { (t : TypeOf) (a : ActionOf) → has_point result.bits t a ≡ (has_point self.bits t a && not (has_point other.bits t a)) }
    {
        Points {
            bits: self.bits & !other.bits,
        }
    }

    /// Whether a pair is in the set.
    pub(crate) fn include(self, record_type: RecordType, action: Action) -> bool
        ensures { result ≡ has_point self.bits record_type action }
    {
        let number = 5 * record_type.place() + action.place();
        self.bits >> number & 1 == 1
    }

    /// Whether no pair is in the set.
    pub(crate) fn is_empty(self) -> bool
        ensures { IsTrue result ↔ ((t : TypeOf) (a : ActionOf) → has_point self.bits t a ≡ false) }
    {
        !self.meets(self)
    }

    /// Whether some pair is in one of both sets and not in the other.
    pub(crate) fn differs(self, other: Points) -> bool
        ensures some { result ≡ true → Differ self.bits other.bits }
        ensures none { result ≡ false → (t : TypeOf) (a : ActionOf) → has_point self.bits t a ≡ has_point other.bits t a }
    {
        let apart = self.without(other).with(other.without(self));
        apart.meets(apart)
    }

    /// Whether some pair is in both sets.
    pub(crate) fn meets(self, other: Points) -> bool
        ensures { result ≡ true ↔ Meet self.bits other.bits }
    {
        self.bits & other.bits != 0
    }

    /// A pair of both sets, if there is one.
    pub(crate) fn shared(self, other: Points) -> Option<Pair>
        ensures { MatchOption result (¬ Meet self.bits other.bits) (λ p. IsInBoth self.bits other.bits p.record_type p.action) }
    {
        let both = self.bits & other.bits;
        if both == 0 {
            return None;
        }
        let number = both.trailing_zeros() as usize;
        Some(Pair {
            record_type: RecordType::ALL[number / 5],
            action: Action::ALL[number % 5],
        })
    }
}

/// Whether the pair of this number is of some types and some actions: five for each type, one for each action.
fn names(types: &Types, actions: &Actions, number: usize) -> bool
    requires { number < pairs }
    ensures { result ≡ names_pair types.now actions.now (type_at number) (action_at number) }
{
    types.include(RecordType::ALL[number / 5]) && actions.include(Action::ALL[number % 5])
}
