//! How far the grants of a caller reach.

ghost use Rattle.std.specs.Prelude.{◌≡◌, ◌++◌, IfOk, OnOk};
ghost use Rattle.std.specs.List.Sorted.{IsPermutation, IsSorted};
ghost use Rattle.std.specs.Option.{option_copied, option_to_list};
ghost use Rattle.dns_names.specs.Order.{canonical_cmp};
ghost use Rattle.grant_policy.specs.Reach.{GrantsWithinSome, IsCommonAncestor, IsReach, IsWidened, grants_to, reach_of, reaches};

use crate::action::Action;
use crate::effect::Effect;
use crate::identifier::Identifier;
use crate::policy::Policy;
use crate::rule::Rule;
use dns_names::Name;
use std::alloc::{AllocError, Global};

/// Whether a rule grants a caller an action at some name.
fn grants_to(rule: &Rule, caller: &Identifier, action: Action) -> bool
    ensures { result ≡ grants_to caller.now action rule.now }
{
    matches!(rule.effect, Effect::Grant)
        && rule.callers.include(caller)
        && rule.actions.include(action)
}

/// A name within an origin that has within it each name there at which a rule grants a caller an action, if it may grant it there.
fn reach_of<'a>(
    rule: &'a Rule,
    caller: &Identifier,
    action: Action,
    origin: &'a Name,
) -> Option<&'a Name>
    ensures { option_copied result ≡ reach_of caller.now action origin.now rule.now }
{
    if !grants_to(rule, caller, action) {
        return None;
    }
    if rule.at.is_within(origin) {
        return Some(&rule.at);
    }
    if origin.is_within(&rule.at) {
        return Some(origin);
    }
    None
}

/// The first name going up from a name that another is within too. The only error is out of memory.
fn common_ancestor(alloc: Global, name: Name, other: &Name) -> Result<Name, AllocError>
    ensures { IfOk result (IsCommonAncestor name other.now) }
{
    let mut top = name;
    while !other.is_within(&top) {
        let Some(parent) = top.parent(alloc)? else {
            // Each name is within the root.
            unreachable!();
        };
        top = parent;
    }
    Ok(top)
}

/// The name that a reach so far and one more name are within. The only error is out of memory.
fn widened(alloc: Global, so_far: Option<Name>, name: &Name) -> Result<Name, AllocError>
    ensures { IfOk result (IsWidened so_far name.now) }
{
    match so_far {
        None => name.try_copy(alloc),
        Some(top) => common_ancestor(alloc, top, name),
    }
}

/// How far within an origin the policy grants the caller the action: each rule that grants it reaches to its own name, if that is
/// within the origin, or to the origin, if that is within its name. This is the last name that all of these are within, so what is
/// granted within the origin is granted within it; `None` if no rule reaches to any. The only error is out of memory.
pub fn reach(
    alloc: Global,
    policy: &Policy,
    caller: &Identifier,
    action: Action,
    origin: &Name,
) -> Result<Option<Name>, AllocError>
    ensures { IfOk result (IsReach policy.now caller.now action origin.now) }
{
    let mut so_far = None;
    for rule in policy.rules() {
        if let Some(name) = reach_of(rule, caller, action, origin) {
            so_far = Some(widened(alloc, so_far, name)?);
        }
    }
    Ok(so_far)
}

/// Adds the name to which a rule reaches within an origin, if it reaches to one. The only error is out of memory.
fn add_reach(
    alloc: Global,
    names: &mut Vec<Name>,
    rule: &Rule,
    caller: &Identifier,
    action: Action,
    origin: &Name,
) -> Result<(), AllocError>
    ensures { OnOk result (names.new.items ≡ names.old.items ++ option_to_list (reach_of caller.now action origin.now rule.now)) }
{
    if let Some(name) = reach_of(rule, caller, action, origin) {
        names.push(name.try_copy(alloc)?)?;
    }
    Ok(())
}

/// The names within an origin to which the grants of the action to the caller reach: each rule that grants it reaches to its own
/// name, if that is within the origin, or to the origin, if that is within its name. They are in canonical order, and one stands as
/// often as rules reach to it. The only error is out of memory.
pub fn reaches(
    alloc: Global,
    policy: &Policy,
    caller: &Identifier,
    action: Action,
    origin: &Name,
) -> Result<Vec<Name>, AllocError>
    ensures order { IfOk result (λ names. IsSorted canonical_cmp names.items) }
    ensures names { IfOk result (λ names. IsPermutation (reaches caller.now action origin.now policy.now) names.items) }
    // What is granted within the origin is granted within one of them.
    ensures granted { IfOk result (λ names. GrantsWithinSome policy.now caller.now action origin.now names.items) }
{
    let mut names = Vec::new(alloc);
    for rule in policy.rules() {
        add_reach(alloc, &mut names, rule, caller, action, origin)?;
    }
    names.sort()?;
    Ok(names)
}
