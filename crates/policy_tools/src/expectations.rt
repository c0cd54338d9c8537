//! Whether a policy is as expected.

ghost use Rattle.std.specs.Prelude.{◌≡◌, ◌↔◌, Some, None, IfOk, IfSome, IsTrue, MatchOption};
ghost use Rattle.grant_policy.specs.Decisions.{verdict_of};
ghost use Rattle.policy_tools.specs.declared.expectations.Counterexample.TheVariants.{Decided, Granted};
ghost use Rattle.policy_tools.specs.Expectations.{Holds, IsAsExpected, IsCounterexample, decided_of};

use crate::expectation::{Expectation, ExpectedDecision};
use crate::limits::{Excess, excess_by};
use grant_policy::{Decision, Effect, LookUps, Policy, decide};
use std::alloc::{AllocError, Global};

/// What shows that a policy is not as expected.
#[derive(Drop)]
pub enum Counterexample<'a> {
    /// What it decides in place of what is expected.
    Decided(Decision<'a>),
    /// What it grants beyond a limit.
    Granted(Excess),
}

/// What shows that a policy is not as expected, if something does. A limit is decided at all its names, infinitely many as they may
/// be, and for all callers. The only error is out of memory.
pub fn expectation_fails<'a>(
    alloc: Global,
    policy: &'a Policy,
    expectation: &Expectation,
) -> Result<Option<Counterexample<'a>>, AllocError>
    // Nothing is found exactly where the policy is as expected.
    ensures holds { IfOk result (λ found. (found ≡ None) ↔ Holds policy.now expectation.now) }
    // What is found is so: the decision is that of the policy and another one, or the rule of this place grants the right.
    ensures witness { IfOk result (λ found. IfSome found (IsCounterexample policy.now expectation.now)) }
{
    example_of(alloc, policy, expectation)
}

/// The same, either way.
fn example_of<'a>(
    alloc: Global,
    policy: &'a Policy,
    expectation: &Expectation,
) -> Result<Option<Counterexample<'a>>, AllocError>
    ensures { IfOk result (λ found. MatchOption found (Holds policy.now expectation.now) (IsCounterexample policy.now expectation.now)) }
{
    match expectation {
        Expectation::Decides(expected) => Ok(as_decided(other_decision(policy, expected))),
        Expectation::Keeps(limit) => Ok(as_granted(excess_by(alloc, policy.rules(), limit)?)),
    }
}

/// A decision as a counterexample.
fn as_decided(found: Option<Decision<'_>>) -> Option<Counterexample<'_>>
    ensures { MatchOption found.entry (result ≡ None) (λ decision. result ≡ Some (Decided decision)) }
{
    match found {
        Some(decision) => Some(Counterexample::Decided(decision)),
        None => None,
    }
}

/// What is granted beyond a limit, as a counterexample.
fn as_granted<'a>(found: Option<Excess>) -> Option<Counterexample<'a>>
    ensures { MatchOption found (result ≡ None) (λ excess. result ≡ Some (Granted excess)) }
{
    match found {
        Some(excess) => Some(Counterexample::Granted(excess)),
        None => None,
    }
}

/// What a policy decides, if it is not what is expected.
fn other_decision<'a>(policy: &'a Policy, expected: &ExpectedDecision) -> Option<Decision<'a>>
    ensures { MatchOption result (IsAsExpected expected.now (decided_of policy.now expected.now))
        (λ found. (verdict_of found ≡ decided_of policy.now expected.now) × (¬ IsAsExpected expected.now (verdict_of found))) }
{
    let decision = decide(
        policy,
        &expected.caller,
        &expected.name,
        expected.record_type,
        expected.action,
        &mut LookUps::new(),
    );
    if is_as_expected(expected, decision) {
        return None;
    }
    Some(decision)
}

/// Whether a decision is as expected.
fn is_as_expected(expected: &ExpectedDecision, decision: Decision<'_>) -> bool
    ensures { IsTrue result ↔ IsAsExpected expected.now (verdict_of decision.entry) }
{
    let grants = expected.effect == Effect::Grant;
    if decision.is_granted() != grants {
        return false;
    }
    match &expected.rule {
        None => true,
        Some(rule) => decision.rule() == rule.as_bytes(),
    }
}
