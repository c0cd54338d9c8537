//! The names within the origin of two zones that are known: those that exist in one of them, and those to which an alias leads.

ghost use Rattle.std.specs.Prelude.{◌≡◌, ◌++◌, IfOk};
ghost use Rattle.std.specs.List.{flat_map};
ghost use Rattle.zone_core.specs.Delegations.{AreNamesOf};
ghost use Rattle.zone_answers.specs.ChangeTests.{up_to, target_in, known_by};

use dns_data::{Data, Record};
use dns_names::Name;
use std::alloc::{AllocError, Global};

/// Appends a name and those above it, as far as they are within an origin. The only error is out of memory.
fn push_up_to(
    alloc: Global,
    names: &mut Vec<Name>,
    origin: &Name,
    name: &Name,
) -> Result<(), AllocError>
    ensures { IfOk result (λ _. names.new.items ≡ names.old.items ++ up_to origin.now name.now) }
{
    if !name.is_within(origin) {
        return Ok(());
    }
    names.push(name.try_copy(alloc)?)?;
    match name.parent(alloc)? {
        Some(above) => push_up_to(alloc, names, origin, &above),
        None => Ok(()),
    }
}

/// Appends the target of an alias, if it is within an origin. The only error is out of memory.
fn push_target(
    alloc: Global,
    names: &mut Vec<Name>,
    origin: &Name,
    rdata: &Data,
) -> Result<(), AllocError>
    ensures { IfOk result (λ _. names.new.items ≡ names.old.items ++ target_in origin.now rdata.now) }
{
    if let Data::Cname(target) = rdata {
        if target.is_within(origin) {
            names.push(target.try_copy(alloc)?)?;
        }
    }
    Ok(())
}

/// Appends the names within an origin that are known by records. The only error is out of memory.
fn push_known(
    alloc: Global,
    names: &mut Vec<Name>,
    origin: &Name,
    records: &[Record],
) -> Result<(), AllocError>
    ensures { IfOk result (λ _. names.new.items ≡ names.old.items ++ flat_map (known_by origin.now) records.now) }
{
    for record in records {
        push_up_to(alloc, names, origin, &record.owner)?;
        push_target(alloc, names, origin, &record.rdata)?;
    }
    Ok(())
}

/// Names in canonical order (RFC 4034 section 6.1), each once. The only error is out of memory.
fn ordered(mut names: Vec<Name>) -> Result<Vec<Name>, AllocError>
    ensures { IfOk result (λ ordered. AreNamesOf ordered.items names.items) }
{
    names.sort()?;
    names.dedup();
    Ok(names)
}

/// The names within an origin that are known by the records of one or another zone, in canonical order. The only error is out of memory.
pub(crate) fn known_names(
    alloc: Global,
    origin: &Name,
    old: &[Record],
    new: &[Record],
) -> Result<Vec<Name>, AllocError>
    ensures { IfOk result (λ names. AreNamesOf names.items (flat_map (known_by origin.now) (old.now ++ new.now))) }
{
    let mut names = Vec::new(alloc);
    push_known(alloc, &mut names, origin, old)?;
    push_known(alloc, &mut names, origin, new)?;
    ordered(names)
}
