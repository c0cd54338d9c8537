//! The names within an origin that are known by records and rules.

ghost use Rattle.std.specs.Prelude.{◌≡◌, ◌++◌, IfOk};
ghost use Rattle.std.specs.List.{flat_map};
ghost use Rattle.zone_core.specs.Delegations.{AreNamesOf};
ghost use Rattle.answer_reach.specs.ReachTests.{target_names, named_by, named_by_rule, named};

use crate::names::{ordered, push_up_to};
use dns_data::{Data, Record};
use dns_names::Name;
use grant_policy::Rule;
use std::alloc::{AllocError, Global};

/// Appends the target of an alias, and the names above it. The only error is out of memory.
fn push_target(
    alloc: Global,
    names: &mut Vec<Name>,
    origin: &Name,
    rdata: &Data,
) -> Result<(), AllocError>
    ensures { IfOk result (λ _. names.new.items ≡ names.old.items ++ target_names origin.now rdata.now) }
{
    if let Data::Cname(target) = rdata {
        return push_up_to(alloc, names, origin, target);
    }
    Ok(())
}

/// Appends the names that a record makes known. The only error is out of memory.
fn push_named(
    alloc: Global,
    names: &mut Vec<Name>,
    origin: &Name,
    rr: &Record,
) -> Result<(), AllocError>
    ensures { IfOk result (λ _. names.new.items ≡ names.old.items ++ named_by origin.now rr.now) }
{
    push_up_to(alloc, names, origin, &rr.owner)?;
    push_target(alloc, names, origin, &rr.rdata)
}

/// Appends the names that records make known. The only error is out of memory.
fn push_by_records(
    alloc: Global,
    names: &mut Vec<Name>,
    origin: &Name,
    records: &[Record],
) -> Result<(), AllocError>
    ensures { IfOk result (λ _. names.new.items ≡ names.old.items ++ flat_map (named_by origin.now) records.now) }
{
    for record in records {
        push_named(alloc, names, origin, record)?;
    }
    Ok(())
}

/// Appends the names that rules make known. The only error is out of memory.
fn push_by_rules(
    alloc: Global,
    names: &mut Vec<Name>,
    origin: &Name,
    rules: &[Rule],
) -> Result<(), AllocError>
    ensures { IfOk result (λ _. names.new.items ≡ names.old.items ++ flat_map (named_by_rule origin.now) rules.now) }
{
    for rule in rules {
        push_up_to(alloc, names, origin, &rule.at)?;
    }
    Ok(())
}

/// The names within an origin that exist, or to or above which an alias leads, or at or above which a rule is, in canonical order. The
/// only error is out of memory.
pub(crate) fn known_names(
    alloc: Global,
    origin: &Name,
    rules: &[Rule],
    records: &[Record],
) -> Result<Vec<Name>, AllocError>
    ensures { IfOk result (λ names. AreNamesOf names.items (named origin.now rules.now records.now)) }
{
    let mut names = Vec::new(alloc);
    push_by_records(alloc, &mut names, origin, records)?;
    push_by_rules(alloc, &mut names, origin, rules)?;
    ordered(names)
}
