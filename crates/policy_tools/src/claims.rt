//! The rules that cover a name, with what each decides there.

ghost use Rattle.std.specs.Prelude.{◌≡◌, ◌&&◌, not, map, length, IfOk};
ghost use Rattle.std.specs.List.{All};
ghost use Rattle.dns_data.specs.declared.record_type.RecordType.{RecordType as TypeOf};
ghost use Rattle.grant_policy.specs.declared.action.Action.{Action as ActionOf};
ghost use Rattle.policy_tools.specs.Points.{has_point};
ghost use Rattle.policy_tools.specs.Claims.{IsClaim, IsRow, AreEntries, rules_of, is_decided};

use crate::points::Points;
use crate::shared_callers::{include_all, reveal_callers};
use dns_names::Name;
use grant_policy::{Callers, Rule, covers};
use std::alloc::{AllocError, Global};

/// A rule, and the pairs of a type and an action of which it speaks.
#[derive(Clone, Copy)]
pub(crate) struct Claim<'a> {
    pub(crate) rule: &'a Rule,
    pub(crate) points: Points,
}

/// A rule that covers a name.
#[derive(Clone, Copy)]
pub(crate) struct Entry<'a> {
    /// Its place among the rules.
    pub(crate) number: usize,
    pub(crate) claim: Claim<'a>,
    /// The pairs that no rule before it takes from all its callers.
    pub(crate) left: Points,
}

/// A name, and the rules that cover it, in order.
#[derive(Drop)]
pub(crate) struct Coverage<'a> {
    pub(crate) name: &'a Name,
    pub(crate) entries: Vec<Entry<'a>>,
}

/// A rule with its pairs.
fn claim_of(rule: &Rule) -> Claim<'_>
    ensures rule { result.rule.now ≡ rule.now }
    ensures claim { IsClaim result }
{
    reveal_callers(&rule.callers);
    let points = Points::of(rule);
    Claim { rule, points }
}

/// Rules with their pairs.
pub(crate) fn claims_of<'a>(alloc: Global, rules: &'a [Rule]) -> Result<Vec<Claim<'a>>, AllocError>
    ensures rules { IfOk result (λ claims. rules_of claims.items ≡ rules.now) }
    ensures claims { IfOk result (λ claims. All IsClaim claims.items) }
{
    let mut claims = Vec::new(alloc);
    for rule in rules {
        claims.push(claim_of(rule))?;
    }
    Ok(claims)
}

/// The pairs of which the rule of some entry speaks to all these callers.
fn decided(entries: &[Entry<'_>], callers: &Callers) -> Points
    ensures { (t : TypeOf) (a : ActionOf) → has_point result.bits t a ≡ is_decided entries.now callers.now t a }
{
    let mut points = Points::none();
    for entry in entries {
        if include_all(&entry.claim.rule.callers, callers) {
            points = points.with(entry.claim.points);
        }
    }
    points
}

/// The entry of a rule after others.
fn entry_behind<'a>(before: &[Entry<'_>], number: usize, claim: Claim<'a>) -> Entry<'a>
    ensures number { result.number ≡ number }
    ensures claim { result.claim ≡ claim.entry }
    ensures left { (t : TypeOf) (a : ActionOf)
        → has_point result.left.bits t a ≡ (has_point claim.entry.points.bits t a && not (is_decided before.now claim.entry.rule.now.callers t a)) }
{
    let left = claim.points.without(decided(before, &claim.rule.callers));
    Entry {
        number,
        claim,
        left,
    }
}

/// The entries of the rules at a name.
pub(crate) fn entries_at<'a>(
    alloc: Global,
    claims: &[Claim<'a>],
    name: &Name,
) -> Result<Vec<Entry<'a>>, AllocError>
    requires { All IsClaim claims.now }
    ensures { IfOk result (λ entries. AreEntries (rules_of claims.now) name.now (length claims.now) entries.items) }
{
    let mut entries = Vec::new(alloc);
    for (number, claim) in claims.iter().enumerate() {
        if covers(claim.rule.scope, &claim.rule.at, name) {
            let entry = entry_behind(&entries, number, *claim);
            entries.push(entry)?;
        }
    }
    Ok(entries)
}

/// The row of each name.
pub(crate) fn rows_of<'a>(
    alloc: Global,
    claims: &[Claim<'a>],
    names: &'a [Name],
) -> Result<Vec<Coverage<'a>>, AllocError>
    requires { All IsClaim claims.now }
    ensures names { IfOk result (λ rows. map (λ r. r.name.now) rows.items ≡ names.now) }
    ensures rows { IfOk result (λ rows. All (IsRow (rules_of claims.now)) rows.items) }
{
    let mut rows = Vec::new(alloc);
    for name in names {
        let entries = entries_at(alloc, claims, name)?;
        rows.push(Coverage { name, entries })?;
    }
    Ok(rows)
}
