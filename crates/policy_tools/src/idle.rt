//! Rules that never decide.

ghost use Rattle.std.specs.Prelude.{◌≡◌, ◌↔◌, ◌<◌, ◌≤◌, ◌==◌, ℕ, length, map, IfOk, OnOk};
ghost use Rattle.std.specs.List.{All, Contains, list_any};
ghost use Rattle.std.specs.List.Sorted.{IsStrictlyIncreasing};
ghost use Rattle.policy_tools.specs.Idle.{IsIdle, AreTakers, PushesIdle};
ghost use Rattle.policy_tools.specs.Representatives.{Represent};
ghost use Rattle.policy_tools.specs.Claims.{IsClaim, IsRow, rules_of};

use crate::claims::{Claim, Coverage, claims_of, rows_of};
use crate::representatives::representatives;
use crate::taking::takers;
use dns_names::Name;
use grant_policy::{Policy, Rule};
use std::alloc::{AllocError, Global};

/// A rule that never decides.
#[derive(Drop)]
pub struct IdleRule {
    /// Its place among the rules of the policy, from 0.
    pub rule: usize,
    /// The places of the rules that decide what it matches, in order: each rule before it that decides some question that it
    /// matches. The list is empty if it matches no question at all.
    pub takers: Vec<usize>,
}

/// The rules of a policy that never decide, in order, each with the rules that take its questions. A question is asked by a
/// caller that is an identifier, of a name, a record type and an action. The only error is out of memory.
pub fn idle_rules(alloc: Global, policy: &Policy) -> Result<Vec<IdleRule>, AllocError>
    // A rule is among them exactly where it decides no question.
    ensures idle { IfOk result (λ idle. (i : ℕ) → Contains (map (λ r. r.rule) idle.items) i ↔ ((i < length policy.now) × IsIdle policy.now i)) }
    // The takers are exactly those that decide some question that the rule matches.
    ensures takers { IfOk result (λ idle. All (λ r. AreTakers policy.now r.rule r.takers.items) idle.items) }
    ensures ordered { IfOk result (λ idle. IsStrictlyIncreasing (map (λ r. r.rule) idle.items)) }
{
    idle_among(alloc, policy.rules())
}

/// The rules of a list that never decide, with their takers.
fn idle_among(alloc: Global, rules: &[Rule]) -> Result<Vec<IdleRule>, AllocError>
    requires { length rules.now ≤ 1024 }
    ensures idle { IfOk result (λ idle. (i : ℕ) → Contains (map (λ r. r.rule) idle.items) i ↔ ((i < length rules.now) × IsIdle rules.now i)) }
    ensures takers { IfOk result (λ idle. All (λ r. AreTakers rules.now r.rule r.takers.items) idle.items) }
    ensures ordered { IfOk result (λ idle. IsStrictlyIncreasing (map (λ r. r.rule) idle.items)) }
{
    let names = representatives(alloc, rules)?;
    idle_at(alloc, rules, &names)
}

/// The same, by names that represent all names.
fn idle_at(alloc: Global, rules: &[Rule], names: &[Name]) -> Result<Vec<IdleRule>, AllocError>
    requires few { length rules.now ≤ 1024 }
    requires names { Represent rules.now names.now }
    ensures idle { IfOk result (λ idle. (i : ℕ) → Contains (map (λ r. r.rule) idle.items) i ↔ ((i < length rules.now) × IsIdle rules.now i)) }
    ensures takers { IfOk result (λ idle. All (λ r. AreTakers rules.now r.rule r.takers.items) idle.items) }
    ensures ordered { IfOk result (λ idle. IsStrictlyIncreasing (map (λ r. r.rule) idle.items)) }
{
    let claims = claims_of(alloc, rules)?;
    idle_by(alloc, &claims, names)
}

/// The same, of rules with their pairs.
fn idle_by(alloc: Global, claims: &[Claim<'_>], names: &[Name]) -> Result<Vec<IdleRule>, AllocError>
    requires few { length claims.now ≤ 1024 }
    requires claims { All IsClaim claims.now }
    requires names { Represent (rules_of claims.now) names.now }
    ensures idle { IfOk result
        (λ idle. (i : ℕ) → Contains (map (λ r. r.rule) idle.items) i ↔ ((i < length (rules_of claims.now)) × IsIdle (rules_of claims.now) i)) }
    ensures takers { IfOk result (λ idle. All (λ r. AreTakers (rules_of claims.now) r.rule r.takers.items) idle.items) }
    ensures ordered { IfOk result (λ idle. IsStrictlyIncreasing (map (λ r. r.rule) idle.items)) }
{
    let rows = rows_of(alloc, claims, names)?;
    idle_of(alloc, claims, &rows)
}

/// The same, by rows of names that represent all names.
fn idle_of(
    alloc: Global,
    claims: &[Claim<'_>],
    rows: &[Coverage<'_>],
) -> Result<Vec<IdleRule>, AllocError>
    requires few { length claims.now ≤ 1024 }
    requires claims { All IsClaim claims.now }
    requires rows { All (IsRow (rules_of claims.now)) rows.now }
    requires names { Represent (rules_of claims.now) (map (λ r. r.name.now) rows.now) }
    ensures idle { IfOk result
        (λ idle. (i : ℕ) → Contains (map (λ r. r.rule) idle.items) i ↔ ((i < length (rules_of claims.now)) × IsIdle (rules_of claims.now) i)) }
    ensures takers { IfOk result (λ idle. All (λ r. AreTakers (rules_of claims.now) r.rule r.takers.items) idle.items) }
    ensures ordered { IfOk result (λ idle. IsStrictlyIncreasing (map (λ r. r.rule) idle.items)) }
{
    let mut idle = Vec::new(alloc);
    for rule in 0..claims.len() {
        let takers = takers(alloc, claims, rows, rule)?;
        push_idle(&mut idle, IdleRule { rule, takers })?;
    }
    Ok(idle)
}

/// Adds a rule with its takers, unless it is among them.
fn push_idle(idle: &mut Vec<IdleRule>, row: IdleRule) -> Result<(), AllocError>
    ensures { OnOk result (PushesIdle row idle.old.items idle.new.items) }
{
    if row.takers.contains(&row.rule) {
        return Ok(());
    }
    idle.push(row)?;
    Ok(())
}
