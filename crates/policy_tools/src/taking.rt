//! The rules that decide what a rule matches.

ghost use Rattle.std.specs.Prelude.{◌≡◌, ◌↔◌, ◌⊎◌, ◌<◌, ◌≤◌, ◌==◌, ℕ, List, false, true, map, length, slice_index_or, IfOk};
ghost use Rattle.std.specs.List.{All, list_any};
ghost use Rattle.dns_data.specs.declared.record_type.RecordType.{RecordType as TypeOf};
ghost use Rattle.grant_policy.specs.declared.action.Action.{Action as ActionOf};
ghost use Rattle.policy_tools.specs.Idle.{AreTakers};
ghost use Rattle.policy_tools.specs.Representatives.{Represent};
ghost use Rattle.policy_tools.specs.declared.claims.Entry.{Entry as EntryOf};
ghost use Rattle.policy_tools.specs.Points.{has_point};
ghost use Rattle.policy_tools.specs.Claims.{AreBelow, IsClaim, IsRow, Hits, TakesBehind, TakesIn, is_decided, rules_of};

use crate::claims::{Claim, Coverage, Entry};
use crate::points::Points;
use crate::shared_callers::{include_all, shared};
use std::alloc::{AllocError, Global};

/// The rules that decide what the rule of this number matches, in order. The rows have to be of names that represent all names.
pub(crate) fn takers(
    alloc: Global,
    claims: &[Claim<'_>],
    rows: &[Coverage<'_>],
    number: usize,
) -> Result<Vec<usize>, AllocError>
    requires few { length claims.now ≤ 1024 }
    requires number { number < length claims.now }
    requires claims { All IsClaim claims.now }
    requires rows { All (IsRow (rules_of claims.now)) rows.now }
    requires names { Represent (rules_of claims.now) (map (λ r. r.name.now) rows.now) }
    ensures { IfOk result (λ takers. AreTakers (rules_of claims.now) number takers.items) }
{
    let mut found = vec![in alloc; false; claims.len()]?;
    mark_rows(claims[number], number, rows, &mut found);
    marked(alloc, &found)
}

/// Marks the rules that take questions of a rule, whose number this is, in a row.
fn mark_rows(claim: Claim<'_>, number: usize, rows: &[Coverage<'_>], found: &mut [bool])
    requires { All (λ row. All (λ e. e.number < length found.old) row.entries.items) rows.now }
    ensures { (j : ℕ) → j < length found.old
        → slice_index_or found.new j false ≡ true ↔ ((slice_index_or found.old j false ≡ true) ⊎ TakesIn claim.entry number rows.now j) }
{
    for row in rows {
        if is_in(&row.entries, number) {
            mark(claim, &row.entries, found);
        }
    }
}

/// Whether the rule of this number has an entry.
fn is_in(entries: &[Entry<'_>], number: usize) -> bool
    ensures { result ≡ list_any (λ e. e.number == number) entries.now }
{
    entries.iter().any(|entry| entry.number == number)
}

/// Marks the rules of entries that take questions of a rule there.
fn mark(claim: Claim<'_>, entries: &[Entry<'_>], found: &mut [bool])
    requires { All (λ e. e.number < length found.old) entries.now }
    ensures { (j : ℕ) → j < length found.old
        → slice_index_or found.new j false ≡ true ↔ ((slice_index_or found.old j false ≡ true) ⊎ Hits claim.entry entries.now (length entries.now) j) }
{
    let mut decided = Points::none();
    for entry in entries {
        if takes(claim, *entry, decided) {
            found[entry.number] = true;
        }
        if include_all(&entry.claim.rule.callers, &claim.rule.callers) {
            decided = decided.with(entry.claim.points);
        }
    }
}

/// Whether the rule of an entry takes questions of a rule, after rules that decide some for all its callers.
fn takes(claim: Claim<'_>, entry: Entry<'_>, decided: Points) -> bool
    ensures { (before : List EntryOf)
        → ((t : TypeOf) (a : ActionOf) → has_point decided.bits t a ≡ is_decided before claim.entry.rule.now.callers t a)
        → result ≡ true ↔ TakesBehind claim.entry before entry.entry }
{
    claim.points.meets(entry.left.without(decided))
        && shared(&claim.rule.callers, &entry.claim.rule.callers).is_some()
}

/// The places that are marked, in order.
fn marked(alloc: Global, found: &[bool]) -> Result<Vec<usize>, AllocError>
    ensures { IfOk result (λ places. AreBelow (λ j. slice_index_or found.now j false ≡ true) (length found.now) places.items) }
{
    let mut places = Vec::new(alloc);
    for (place, is_found) in found.iter().enumerate() {
        if *is_found {
            places.push(place)?;
        }
    }
    Ok(places)
}
