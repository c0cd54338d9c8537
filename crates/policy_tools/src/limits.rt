//! Whether a policy keeps a limit.

ghost use Rattle.std.specs.Prelude.{◌≡◌, ◌+◌, ◌≤◌, length, IfOk, OnOk, MatchOption};
ghost use Rattle.std.specs.List.{All};
ghost use Rattle.dns_names.specs.Labels.{IsName};
ghost use Rattle.grant_policy.specs.Scopes.{Covers};
ghost use Rattle.policy_tools.specs.Claims.{IsClaim, AreEntries, rules_of};
ghost use Rattle.policy_tools.specs.Limits.{IsKept, IsKeptAt, IsExcess, RepresentLimit, ArePlaces, AddsPlaces};

use crate::changes::place;
use crate::claims::{Claim, Entry, claims_of, entries_at};
use crate::entry_rights::unlisted_right;
use crate::expectation::Limit;
use crate::exposure::{Right, named};
use crate::points::Points;
use crate::representatives::representatives;
use dns_names::Name;
use grant_policy::{Actions, Callers, Effect, Identifier, Rule, Types, covers};
use std::alloc::{AllocError, Global};

/// What is granted beyond a limit.
#[derive(Drop)]
pub struct Excess {
    /// A caller that the limit does not list. `None` is any that neither it nor a rule names.
    pub caller: Option<Identifier>,
    /// A name of the limit.
    pub name: Name,
    /// What the caller may do there, and the rule that grants it.
    pub right: Right,
}

/// What rules grant beyond a limit, if they do. The only error is out of memory.
pub(crate) fn excess_by(
    alloc: Global,
    rules: &[Rule],
    limit: &Limit,
) -> Result<Option<Excess>, AllocError>
    requires { length rules.now ≤ 1024 }
    ensures { IfOk result (λ found. MatchOption found (IsKept rules.now limit.now) (IsExcess rules.now limit.now)) }
{
    let names = names_of(alloc, rules, limit)?;
    let claims = claims_of(alloc, rules)?;
    excess_among(alloc, rules, &claims, &names, limit)
}

/// Names that represent all names of a limit.
pub(crate) fn names_of(
    alloc: Global,
    rules: &[Rule],
    limit: &Limit,
) -> Result<Vec<Name>, AllocError>
    requires { length rules.now ≤ 1024 }
    ensures { IfOk result (λ names. RepresentLimit rules.now limit.now names.items) }
{
    let places = places_of(alloc, rules, limit)?;
    representatives(alloc, &places)
}

/// A rule at the name of a limit, and one at that of each rule whose name is within it: no other tells names within it apart.
fn places_of(alloc: Global, rules: &[Rule], limit: &Limit) -> Result<Vec<Rule>, AllocError>
    ensures places { IfOk result (λ places. ArePlaces rules.now limit.now places.items) }
    ensures few { IfOk result (λ places. length places.items ≤ length rules.now + 1) }
{
    let mut places = Vec::new(alloc);
    places.push(limit_place(alloc, limit)?)?;
    add_places_within(alloc, rules, &limit.at, &mut places)?;
    Ok(places)
}

/// Adds a rule at the name of each of these whose name is within another.
fn add_places_within(
    alloc: Global,
    rules: &[Rule],
    top: &Name,
    places: &mut Vec<Rule>,
) -> Result<(), AllocError>
    ensures added { OnOk result (AddsPlaces rules.now top.now places.old.items places.new.items) }
    ensures few { OnOk result (length places.new.items ≤ length places.old.items + length rules.now) }
{
    for rule in rules {
        if rule.at.is_within(top) {
            places.push(place(alloc, rule)?)?;
        }
    }
    Ok(())
}

/// A rule at the name of a limit.
fn limit_place(alloc: Global, limit: &Limit) -> Result<Rule, AllocError>
    ensures scope { IfOk result (λ place. place.scope ≡ limit.now.scope) }
    ensures at { IfOk result (λ place. place.at ≡ limit.now.at) }
{
    let Ok(id) = Identifier::read(alloc, b"limit") else {
        return Err(AllocError);
    };
    Ok(Rule {
        id,
        effect: Effect::Deny,
        callers: Callers::Every,
        scope: limit.scope,
        at: limit.at.try_copy(alloc)?,
        types: Types::every(),
        actions: Actions::every(),
    })
}

/// The same, of rules with their pairs, and of names that represent those of the limit.
fn excess_among(
    alloc: Global,
    rules: &[Rule],
    claims: &[Claim<'_>],
    names: &[Name],
    limit: &Limit,
) -> Result<Option<Excess>, AllocError>
    requires few { length rules.now ≤ 1024 }
    requires claims { All IsClaim claims.now }
    requires rules { rules_of claims.now ≡ rules.now }
    requires names { RepresentLimit rules.now limit.now names.now }
    ensures { IfOk result (λ found. MatchOption found (IsKept rules.now limit.now) (IsExcess rules.now limit.now)) }
{
    for name in names {
        if let Some(excess) = excess_at(alloc, rules, claims, name, limit)? {
            return Ok(Some(excess));
        }
    }
    Ok(None)
}

/// What is granted beyond a limit at a name.
fn excess_at(
    alloc: Global,
    rules: &[Rule],
    claims: &[Claim<'_>],
    name: &Name,
    limit: &Limit,
) -> Result<Option<Excess>, AllocError>
    requires few { length rules.now ≤ 1024 }
    requires claims { All IsClaim claims.now }
    requires rules { rules_of claims.now ≡ rules.now }
    requires name { IsName name.now }
    ensures { IfOk result (λ found. MatchOption found (IsKeptAt rules.now limit.now name.now) (IsExcess rules.now limit.now)) }
{
    if !covers(limit.scope, &limit.at, name) {
        return Ok(None);
    }
    let entries = entries_at(alloc, claims, name)?;
    excess_by_entries(alloc, rules, &entries, name, limit)
}

/// The same, at a name of the limit, by the entries there.
fn excess_by_entries(
    alloc: Global,
    rules: &[Rule],
    entries: &[Entry<'_>],
    name: &Name,
    limit: &Limit,
) -> Result<Option<Excess>, AllocError>
    requires few { length rules.now ≤ 1024 }
    requires name { IsName name.now }
    requires covered { Covers limit.now.scope limit.now.at name.now }
    requires entries { AreEntries rules.now name.now (length rules.now) entries.now }
    ensures { IfOk result (λ found. MatchOption found (IsKeptAt rules.now limit.now name.now) (IsExcess rules.now limit.now)) }
{
    let listed = limit.callers.as_slice();
    let wanted = Points::among(&limit.types, &limit.actions);
    let Some(right) = unlisted_right(entries, listed, wanted) else {
        return Ok(None);
    };
    let caller = named(alloc, &rules[right.rule].callers)?;
    let name = name.try_copy(alloc)?;
    Ok(Some(Excess {
        caller,
        name,
        right,
    }))
}
