//! Names that represent all names.

ghost use Rattle.std.specs.Prelude.{◌≡◌, ◌≤◌, ◌++◌, ◌∷◌, [], length, IfOk, OnOk};
ghost use Rattle.dns_names.specs.Labels.{IsName};
ghost use Rattle.policy_tools.specs.FreeNames.{AddsServed};
ghost use Rattle.policy_tools.specs.Representatives.{Represent};

use crate::free_names::{free_child, is_free};
use dns_names::Name;
use grant_policy::Rule;
use std::alloc::{AllocError, Global};

/// Names such that each name is covered by the same rules as one of them: the root, the names of the rules, and below each of
/// these a name that no rule has, if there is one. The only error is out of memory.
pub(crate) fn representatives(alloc: Global, rules: &[Rule]) -> Result<Vec<Name>, AllocError>
    requires { length rules.now ≤ 2048 }
    ensures { IfOk result (λ names. Represent rules.now names.items) }
{
    let mut names = with_root(alloc, rules)?;
    for (i, rule) in rules.iter().enumerate() {
        if is_free(&rules[..i], &rule.at) {
            add_with_child(alloc, rules, &rule.at, &mut names)?;
        }
    }
    Ok(names)
}

/// The root.
pub(crate) fn root(alloc: Global) -> Result<Name, AllocError>
    ensures { IfOk result (λ name. name ≡ []) }
{
    match Name::read_absolute(alloc, b".") {
        Ok(name) => Ok(name),
        Err(_) => Err(AllocError),
    }
}

/// The root, and a free name below it, if there is one.
fn with_root(alloc: Global, rules: &[Rule]) -> Result<Vec<Name>, AllocError>
    requires { length rules.now ≤ 2048 }
    ensures { IfOk result (λ names. AddsServed rules.now [] [] names.items) }
{
    let root = root(alloc)?;
    let mut names = Vec::new(alloc);
    add_with_child(alloc, rules, &root, &mut names)?;
    Ok(names)
}

/// Adds a name, and a free one below it, if there is one.
fn add_with_child(
    alloc: Global,
    rules: &[Rule],
    top: &Name,
    names: &mut Vec<Name>,
) -> Result<(), AllocError>
    requires { length rules.now ≤ 2048 }
    ensures added { OnOk result (AddsServed rules.now top.now names.old.items names.new.items) }
    ensures name { IsName top.now }
{
    add_copy(alloc, top, names)?;
    let found = free_child(alloc, rules, top)?;
    let Some(child) = found else {
        return Ok(());
    };
    names.push(child)?;
    Ok(())
}

/// Adds a copy of a name.
pub(crate) fn add_copy(alloc: Global, name: &Name, names: &mut Vec<Name>) -> Result<(), AllocError>
    ensures added { OnOk result (names.new.items ≡ names.old.items ++ name.now ∷ []) }
    ensures name { IsName name.now }
{
    let _ = name.labels();
    let copy = name.try_copy(alloc)?;
    names.push(copy)?;
    Ok(())
}
