//! Names in canonical order, which are searched.

ghost use Rattle.std.specs.Prelude.{◌≡◌, ◌∷◌, ◌++◌, Some, None, if◌then◌else◌, IfOk};
ghost use Rattle.std.specs.List.Sorted.{IsSorted};
ghost use Rattle.dns_names.specs.Order.{canonical_cmp};
ghost use Rattle.zone_core.specs.Delegations.{AreNamesOf};
ghost use Rattle.zone_answers.specs.Answers.{asterisk};
ghost use Rattle.zone_answers.specs.ChangeTests.{up_to};
ghost use Rattle.answer_reach.specs.ReachTests.{has_name, within_any, below_any, is_long};

use dns_names::{Name, NameFault};
use std::alloc::{AllocError, Global};

/// Whether a name is one of some names.
pub(crate) fn has_name(names: &[Name], name: &Name) -> bool
    requires { IsSorted canonical_cmp names.now }
    ensures { result ≡ has_name names.now name.now }
{
    names.binary_search(name).is_ok()
}

/// Whether a name is at or below one of some names. The only error is out of memory.
pub(crate) fn within_any(alloc: Global, names: &[Name], name: &Name) -> Result<bool, AllocError>
    requires { IsSorted canonical_cmp names.now }
    ensures { IfOk result (λ b. b ≡ within_any names.now name.now) }
{
    if names.is_empty() {
        return Ok(false);
    }
    if has_name(names, name) {
        return Ok(true);
    }
    match name.parent(alloc)? {
        Some(above) => within_any(alloc, names, &above),
        None => Ok(false),
    }
}

/// Whether a name is below one of some names. The only error is out of memory.
pub(crate) fn below_any(alloc: Global, names: &[Name], name: &Name) -> Result<bool, AllocError>
    requires { IsSorted canonical_cmp names.now }
    ensures { IfOk result (λ b. b ≡ below_any names.now name.now) }
{
    match name.parent(alloc)? {
        Some(above) => within_any(alloc, names, &above),
        None => Ok(false),
    }
}

/// Names in canonical order (RFC 4034 section 6.1), each once. The only error is out of memory.
pub(crate) fn ordered(mut names: Vec<Name>) -> Result<Vec<Name>, AllocError>
    ensures { IfOk result (λ ordered. AreNamesOf ordered.items names.items) }
{
    names.sort()?;
    names.dedup();
    Ok(names)
}

/// Appends a name and those above it, as far as they are within an origin. The only error is out of memory.
pub(crate) fn push_up_to(
    alloc: Global,
    names: &mut Vec<Name>,
    origin: &Name,
    name: &Name,
) -> Result<(), AllocError>
    ensures { IfOk result (λ _. names.new.items ≡ names.old.items ++ up_to origin.now name.now) }
{
    if !name.is_within(origin) {
        return Ok(());
    }
    names.push(name.try_copy(alloc)?)?;
    match name.parent(alloc)? {
        Some(above) => push_up_to(alloc, names, origin, &above),
        None => Ok(()),
    }
}

/// The wildcard below a name, unless it is too long for a name. The only error is out of memory.
pub(crate) fn wildcard(alloc: Global, above: &Name) -> Result<Option<Name>, AllocError>
    ensures { IfOk result (λ found. found ≡ (if is_long above.now then None else Some (asterisk ∷ above.now))) }
{
    match Name::read_relative(alloc, b"*", above) {
        Ok(name) => Ok(Some(name)),
        Err(NameFault::NameTooLong) => Ok(None),
        Err(_) => Err(AllocError),
    }
}
