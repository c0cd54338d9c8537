//! What another policy changes at all names, group by group.

ghost use Rattle.std.specs.Prelude.{◌≡◌, ◌≤◌, ℕ, List, ◌++◌, [], ◌∷◌, map, length, IfOk, OnOk};
ghost use Rattle.std.specs.List.{All};
ghost use Rattle.dns_names.specs.Labels.{IsName};
ghost use Rattle.grant_policy.specs.declared.rule.Rule.{Rule as RuleOf};
ghost use Rattle.policy_tools.specs.declared.changes.GroupChanges.{GroupChanges as RowOf};
ghost use Rattle.policy_tools.specs.declared.name_groups.NameGroup.TheVariants.{Exactly, Below};
ghost use Rattle.policy_tools.specs.Claims.{IsClaim, rules_of};
ghost use Rattle.policy_tools.specs.FreeNames.{IsFreeChild};
ghost use Rattle.policy_tools.specs.NameGroups.{AreTops, IsInGroup, IsTop};
ghost use Rattle.policy_tools.specs.Representatives.{AreAlike};
ghost use Rattle.policy_tools.specs.Changes.{AreGroupChanges, AddsChanges, AreVersions, IsLike, PushesChanges, place_of};

use crate::claims::{Claim, claims_of};
use crate::free_names::free_child;
use crate::name_changes::{NameChanges, changes_between};
use crate::name_groups::{NameGroup, tops};
use crate::name_rights::rights_among;
use dns_names::Name;
use grant_policy::{Actions, Callers, Effect, Policy, Rule, Types};
use std::alloc::{AllocError, Global};

/// What changes at each name of a group.
#[derive(Drop)]
pub struct GroupChanges {
    pub group: NameGroup,
    pub changes: NameChanges,
}

/// What another policy changes at all names: a row for each group of names in which something changes for some caller, in canonical order
/// of names (RFC 4034 section 6.1), a name before what is below it. The groups are those of the names that the rules of either policy
/// have. The only error is out of memory.
pub fn changes_by_group(
    alloc: Global,
    old: &Policy,
    new: &Policy,
) -> Result<Vec<GroupChanges>, AllocError>
    // What a row lists is exactly what the new policy grants and the old one denies, and the other way round, at each name of its group.
    // Where a name's group has no row, both policies grant everybody the same there.
    ensures { IfOk result (λ rows. AreGroupChanges old.now new.now rows.items) }
{
    changes_of(alloc, old.rules(), new.rules())
}

/// The rules of two policies with their pairs, and rules at their names.
#[derive(Clone, Copy)]
struct Versions<'a> {
    places: &'a [Rule],
    old: &'a [Claim<'a>],
    new: &'a [Claim<'a>],
}

/// The same of lists of rules.
fn changes_of(alloc: Global, old: &[Rule], new: &[Rule]) -> Result<Vec<GroupChanges>, AllocError>
    requires old { length old.now ≤ 1024 }
    requires new { length new.now ≤ 1024 }
    ensures { IfOk result (λ rows. AreGroupChanges old.now new.now rows.items) }
{
    let places = places_of(alloc, old, new)?;
    let tops = tops(alloc, &places)?;
    let old = claims_of(alloc, old)?;
    let new = claims_of(alloc, new)?;
    let versions = Versions {
        places: &places,
        old: &old,
        new: &new,
    };
    rows_at(alloc, versions, &tops)
}

/// A rule at the name of each rule of two policies.
fn places_of(alloc: Global, old: &[Rule], new: &[Rule]) -> Result<Vec<Rule>, AllocError>
    ensures { IfOk result (λ places. places.items ≡ map place_of (old.now ++ new.now)) }
{
    let mut places = Vec::new(alloc);
    add_places(alloc, old, &mut places)?;
    add_places(alloc, new, &mut places)?;
    Ok(places)
}

/// Adds a rule at the name of each of these.
fn add_places(alloc: Global, rules: &[Rule], places: &mut Vec<Rule>) -> Result<(), AllocError>
    ensures { OnOk result (places.new.items ≡ places.old.items ++ map place_of rules.now) }
{
    for rule in rules {
        places.push(place(alloc, rule)?)?;
    }
    Ok(())
}

/// A rule at the name of another, that denies everybody everything.
pub(crate) fn place(alloc: Global, rule: &Rule) -> Result<Rule, AllocError>
    ensures { IfOk result (λ place. place ≡ place_of rule.now) }
{
    Ok(Rule {
        id: rule.id.try_copy(alloc)?,
        effect: Effect::Deny,
        callers: Callers::Every,
        scope: rule.scope,
        at: rule.at.try_copy(alloc)?,
        types: Types::every(),
        actions: Actions::every(),
    })
}

/// The rows of the groups of tops.
fn rows_at(
    alloc: Global,
    versions: Versions<'_>,
    tops: &[Name],
) -> Result<Vec<GroupChanges>, AllocError>
    requires versions { AreVersions versions.places.now versions.old.now versions.new.now }
    requires tops { AreTops versions.places.now tops.now }
    ensures { IfOk result (λ rows. AreGroupChanges (rules_of versions.entry.old.now) (rules_of versions.entry.new.now) rows.items) }
{
    let mut rows = Vec::new(alloc);
    for top in tops {
        add_groups(alloc, versions, top, &mut rows)?;
    }
    Ok(rows)
}

/// Adds the row of a top alone, and then that of what is below it.
fn add_groups(
    alloc: Global,
    versions: Versions<'_>,
    top: &Name,
    rows: &mut Vec<GroupChanges>,
) -> Result<(), AllocError>
    requires versions { AreVersions versions.places.now versions.old.now versions.new.now }
    requires top { IsTop (rules_of versions.old.now ++ rules_of versions.new.now) top.now }
    requires name { IsName top.now }
    ensures { OnOk result ((middle : List RowOf)
        × AddsChanges (rules_of versions.entry.old.now) (rules_of versions.entry.new.now) (Exactly top.now) rows.old.items middle
        × AddsChanges (rules_of versions.entry.old.now) (rules_of versions.entry.new.now) (Below top.now) middle rows.new.items) }
{
    let group = NameGroup::Exactly(top.try_copy(alloc)?);
    add_group(alloc, versions, top, group, rows)?;
    add_below(alloc, versions, top, rows)
}

/// Adds the row of what is below a top, if it has a name and something changes there.
fn add_below(
    alloc: Global,
    versions: Versions<'_>,
    top: &Name,
    rows: &mut Vec<GroupChanges>,
) -> Result<(), AllocError>
    requires versions { AreVersions versions.places.now versions.old.now versions.new.now }
    requires top { IsTop (rules_of versions.old.now ++ rules_of versions.new.now) top.now }
    ensures { OnOk result (AddsChanges (rules_of versions.entry.old.now) (rules_of versions.entry.new.now) (Below top.now) rows.old.items rows.new.items) }
{
    match free_child(alloc, versions.places, top)? {
        Some(child) => {
            let group = NameGroup::Below(top.try_copy(alloc)?);
            add_group(alloc, versions, &child, group, rows)
        }
        None => Ok(()),
    }
}

/// Adds the row of a group, all of whose names are like this one, if something changes there.
fn add_group(
    alloc: Global,
    versions: Versions<'_>,
    name: &Name,
    group: NameGroup,
    rows: &mut Vec<GroupChanges>,
) -> Result<(), AllocError>
    requires versions { AreVersions versions.places.now versions.old.now versions.new.now }
    requires represents { IsLike (rules_of versions.old.now ++ rules_of versions.new.now) group name.now }
    ensures { OnOk result (AddsChanges (rules_of versions.entry.old.now) (rules_of versions.entry.new.now) group rows.old.items rows.new.items) }
{
    let old = rights_among(alloc, versions.old, name)?;
    let new = rights_among(alloc, versions.new, name)?;
    let changes = changes_between(alloc, &old, &new)?;
    push_row(rows, GroupChanges { group, changes })
}

/// Adds a row, unless nothing changes by it.
fn push_row(rows: &mut Vec<GroupChanges>, row: GroupChanges) -> Result<(), AllocError>
    ensures { OnOk result (PushesChanges row rows.old.items rows.new.items) }
{
    if row.changes.is_empty() {
        return Ok(());
    }
    rows.push(row)?;
    Ok(())
}
