//! Who may do what at all names, group by group.

ghost use Rattle.std.specs.Prelude.{◌≡◌, ◌≤◌, ℕ, List, [], ◌∷◌, ◌++◌, map, length, IfOk, OnOk};
ghost use Rattle.std.specs.List.{All};
ghost use Rattle.dns_names.specs.Labels.{IsName};
ghost use Rattle.policy_tools.specs.declared.name_groups.GroupRights.{GroupRights as RowOf};
ghost use Rattle.policy_tools.specs.declared.name_groups.NameGroup.TheVariants.{Exactly, Below};
ghost use Rattle.policy_tools.specs.Claims.{IsClaim, rules_of};
ghost use Rattle.policy_tools.specs.NameGroups.{AreGroupRights, AreTops, AddsGroup, PushesRow, IsInGroup, IsTop};
ghost use Rattle.policy_tools.specs.Representatives.{AreAlike};

use crate::claims::{Claim, claims_of};
use crate::free_names::free_child;
use crate::name_rights::{NameRights, rights_among};
use crate::representatives::{add_copy, root};
use dns_names::Name;
use grant_policy::{Policy, Rule};
use std::alloc::{AllocError, Global};

/// A group of names that each rule covers alike. Each name is in one group: the root and each name that a rule has are groups of
/// their own, and the other names are grouped by the nearest of these above them.
#[derive(Drop)]
pub enum NameGroup {
    /// This name alone.
    Exactly(Name),
    /// The names below this one that are not at or below a deeper name that a rule has.
    Below(Name),
}

/// Who may do what at each name of a group.
#[derive(Drop)]
pub struct GroupRights {
    pub group: NameGroup,
    pub rights: NameRights,
}

/// Who may do what at all names by a policy: a row for each group of names in which something is granted to some caller, in canonical
/// order of names (RFC 4034 section 6.1), a name before what is below it. The only error is out of memory.
pub fn rights_by_group(alloc: Global, policy: &Policy) -> Result<Vec<GroupRights>, AllocError>
    // What a row lists are the rights at each name of its group, and something of it is granted. Where a name's group has no row, nothing
    // is granted there to anybody.
    ensures { IfOk result (λ rows. AreGroupRights policy.now rows.items) }
{
    rows_of(alloc, policy.rules())
}

/// The same of a list of rules.
fn rows_of(alloc: Global, rules: &[Rule]) -> Result<Vec<GroupRights>, AllocError>
    requires { length rules.now ≤ 1024 }
    ensures { IfOk result (λ rows. AreGroupRights rules.now rows.items) }
{
    let tops = tops(alloc, rules)?;
    let claims = claims_of(alloc, rules)?;
    rows_at(alloc, rules, &claims, &tops)
}

/// The root and the names of the rules, each once, in canonical order.
pub(crate) fn tops(alloc: Global, rules: &[Rule]) -> Result<Vec<Name>, AllocError>
    ensures { IfOk result (λ tops. AreTops rules.now tops.items) }
{
    let mut tops = names_of(alloc, rules)?;
    tops.sort_unstable();
    tops.dedup();
    Ok(tops)
}

/// The root and the names of the rules.
fn names_of(alloc: Global, rules: &[Rule]) -> Result<Vec<Name>, AllocError>
    ensures names { IfOk result (λ names. names.items ≡ [] ∷ map (λ rule. rule.at) rules.now) }
    ensures valid { IfOk result (λ names. All IsName names.items) }
{
    let mut names = Vec::new(alloc);
    add_root(alloc, &mut names)?;
    add_names(alloc, rules, &mut names)?;
    Ok(names)
}

/// Adds the root.
fn add_root(alloc: Global, names: &mut Vec<Name>) -> Result<(), AllocError>
    ensures { OnOk result (names.new.items ≡ names.old.items ++ [] ∷ []) }
{
    let root = root(alloc)?;
    add_copy(alloc, &root, names)
}

/// Adds the names of rules.
fn add_names(alloc: Global, rules: &[Rule], names: &mut Vec<Name>) -> Result<(), AllocError>
    ensures added { OnOk result (names.new.items ≡ names.old.items ++ map (λ rule. rule.at) rules.now) }
    ensures valid { OnOk result (All IsName names.old.items → All IsName names.new.items) }
{
    for rule in rules {
        add_copy(alloc, &rule.at, names)?;
    }
    Ok(())
}

/// The rows of the groups of tops, by rules with their pairs.
fn rows_at(
    alloc: Global,
    rules: &[Rule],
    claims: &[Claim<'_>],
    tops: &[Name],
) -> Result<Vec<GroupRights>, AllocError>
    requires few { length rules.now ≤ 1024 }
    requires claims { All IsClaim claims.now }
    requires rules { rules_of claims.now ≡ rules.now }
    requires tops { AreTops rules.now tops.now }
    ensures { IfOk result (λ rows. AreGroupRights rules.now rows.items) }
{
    let mut rows = Vec::new(alloc);
    for top in tops {
        add_groups(alloc, rules, claims, top, &mut rows)?;
    }
    Ok(rows)
}

/// Adds the row of a top alone, and then that of what is below it.
fn add_groups(
    alloc: Global,
    rules: &[Rule],
    claims: &[Claim<'_>],
    top: &Name,
    rows: &mut Vec<GroupRights>,
) -> Result<(), AllocError>
    requires few { length rules.now ≤ 1024 }
    requires claims { All IsClaim claims.now }
    requires rules { rules_of claims.now ≡ rules.now }
    requires top { IsTop rules.now top.now }
    requires name { IsName top.now }
    ensures { OnOk result
        ((middle : List RowOf) × AddsGroup rules.now (Exactly top.now) rows.old.items middle × AddsGroup rules.now (Below top.now) middle rows.new.items) }
{
    add_exactly(alloc, claims, top, rows)?;
    add_below(alloc, rules, claims, top, rows)
}

/// Adds the row of a top alone, if something is granted there.
fn add_exactly(
    alloc: Global,
    claims: &[Claim<'_>],
    top: &Name,
    rows: &mut Vec<GroupRights>,
) -> Result<(), AllocError>
    requires few { length claims.now ≤ 1024 }
    requires claims { All IsClaim claims.now }
    requires top { IsTop (rules_of claims.now) top.now }
    requires name { IsName top.now }
    ensures { OnOk result (AddsGroup (rules_of claims.now) (Exactly top.now) rows.old.items rows.new.items) }
{
    let group = NameGroup::Exactly(top.try_copy(alloc)?);
    add_group(alloc, claims, top, group, rows)
}

/// Adds the row of what is below a top, if it has a name and something is granted there.
fn add_below(
    alloc: Global,
    rules: &[Rule],
    claims: &[Claim<'_>],
    top: &Name,
    rows: &mut Vec<GroupRights>,
) -> Result<(), AllocError>
    requires few { length rules.now ≤ 1024 }
    requires claims { All IsClaim claims.now }
    requires rules { rules_of claims.now ≡ rules.now }
    requires top { IsTop rules.now top.now }
    ensures { OnOk result (AddsGroup rules.now (Below top.now) rows.old.items rows.new.items) }
{
    match free_child(alloc, rules, top)? {
        Some(child) => add_below_at(alloc, claims, top, &child, rows),
        None => Ok(()),
    }
}

/// Adds the row of what is below a top, where this name is, if something is granted there.
fn add_below_at(
    alloc: Global,
    claims: &[Claim<'_>],
    top: &Name,
    name: &Name,
    rows: &mut Vec<GroupRights>,
) -> Result<(), AllocError>
    requires few { length claims.now ≤ 1024 }
    requires claims { All IsClaim claims.now }
    requires name { IsName name.now }
    requires among { IsInGroup (rules_of claims.now) name.now (Below top.now) }
    requires alike { (other : List (List ℕ)) → IsInGroup (rules_of claims.now) other (Below top.now) → AreAlike (rules_of claims.now) other name.now }
    ensures { OnOk result (AddsGroup (rules_of claims.now) (Below top.now) rows.old.items rows.new.items) }
{
    let group = NameGroup::Below(top.try_copy(alloc)?);
    add_group(alloc, claims, name, group, rows)
}

/// Adds the row of a group, all of whose names are like this one, if something is granted there.
fn add_group(
    alloc: Global,
    claims: &[Claim<'_>],
    name: &Name,
    group: NameGroup,
    rows: &mut Vec<GroupRights>,
) -> Result<(), AllocError>
    requires few { length claims.now ≤ 1024 }
    requires claims { All IsClaim claims.now }
    requires name { IsName name.now }
    requires among { IsInGroup (rules_of claims.now) name.now group }
    requires alike { (other : List (List ℕ)) → IsInGroup (rules_of claims.now) other group → AreAlike (rules_of claims.now) other name.now }
    ensures { OnOk result (AddsGroup (rules_of claims.now) group rows.old.items rows.new.items) }
{
    let rights = rights_among(alloc, claims, name)?;
    push_row(rows, GroupRights { group, rights })
}

/// Adds a row, unless it grants nothing.
fn push_row(rows: &mut Vec<GroupRights>, row: GroupRights) -> Result<(), AllocError>
    ensures { OnOk result (PushesRow row rows.old.items rows.new.items) }
{
    if row.rights.is_empty() {
        return Ok(());
    }
    rows.push(row)?;
    Ok(())
}
