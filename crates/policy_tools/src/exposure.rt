//! Whether a caller is isolated.

ghost use Rattle.std.specs.Prelude.{◌≡◌, ◌↔◌, ◌≤◌, None, length, IfOk, IfSome, MatchOption};
ghost use Rattle.std.specs.List.{All};
ghost use Rattle.dns_names.specs.Labels.{IsName};
ghost use Rattle.policy_tools.specs.Claims.{IsClaim, AreEntries, rules_of};
ghost use Rattle.policy_tools.specs.Representatives.{Represent};
ghost use Rattle.grant_policy.specs.Isolated.{IsIsolated, IsIsolatedAt};
ghost use Rattle.policy_tools.specs.Exposures.{IsExposed, named_of};

use crate::claims::{Claim, Entry, claims_of, entries_at};
use crate::entry_rights::{other_right, own_right};
use crate::representatives::representatives;
use crate::wanted::Wanted;
use dns_data::RecordType;
use dns_names::Name;
use grant_policy::{Action, Callers, Identifier, Policy, Rule};
use std::alloc::{AllocError, Global};

/// What a rule grants at a name.
#[derive(Clone, Copy)]
pub struct Right {
    /// Of which type the records are.
    pub record_type: RecordType,
    /// What may be done with them.
    pub action: Action,
    /// The place of the rule among those of the policy, from 0.
    pub rule: usize,
}

/// What keeps a caller from being isolated.
#[derive(Drop)]
pub enum Exposure {
    /// It may list or check an SOA at a name.
    Soa {
        name: Name,
        right: Right,
    },
    /// It has a right at a name, and another caller may change records there.
    Shared {
        name: Name,
        /// What it may do.
        own: Right,
        /// The other caller. `None` is any caller that no rule names.
        other: Option<Identifier>,
        /// What the other may do.
        theirs: Right,
    },
}

/// What keeps a caller from being isolated by a policy, if something does. It is isolated if it may neither list nor check an SOA
/// at any name, and where something is granted to it no other caller may change records. The only error is out of memory.
pub fn isolation(
    alloc: Global,
    policy: &Policy,
    caller: &Identifier,
) -> Result<Option<Exposure>, AllocError>
    // Nothing is found exactly where the caller is isolated, at every name and whoever the others are.
    ensures isolated { IfOk result (λ found. (found ≡ None) ↔ IsIsolated policy.now caller.now) }
    // What is found is so: the rules of these places grant these rights.
    ensures witness { IfOk result (λ found. IfSome found (IsExposed policy.now caller.now)) }
{
    exposure_by(alloc, policy.rules(), caller)
}

/// What keeps a caller from being isolated by a list of rules, if something does.
fn exposure_by(
    alloc: Global,
    rules: &[Rule],
    caller: &Identifier,
) -> Result<Option<Exposure>, AllocError>
    requires { length rules.now ≤ 1024 }
    ensures { IfOk result (λ found. MatchOption found (IsIsolated rules.now caller.now) (IsExposed rules.now caller.now)) }
{
    let names = representatives(alloc, rules)?;
    let claims = claims_of(alloc, rules)?;
    exposure_among(alloc, rules, &claims, &names, caller)
}

/// The same, of rules with their pairs, and of names that represent all names.
fn exposure_among(
    alloc: Global,
    rules: &[Rule],
    claims: &[Claim<'_>],
    names: &[Name],
    caller: &Identifier,
) -> Result<Option<Exposure>, AllocError>
    requires few { length rules.now ≤ 1024 }
    requires claims { All IsClaim claims.now }
    requires rules { rules_of claims.now ≡ rules.now }
    requires names { Represent rules.now names.now }
    ensures { IfOk result (λ found. MatchOption found (IsIsolated rules.now caller.now) (IsExposed rules.now caller.now)) }
{
    for name in names {
        if let Some(exposure) = exposure_at(alloc, rules, claims, name, caller)? {
            return Ok(Some(exposure));
        }
    }
    Ok(None)
}

/// What keeps a caller from being isolated at a name.
fn exposure_at(
    alloc: Global,
    rules: &[Rule],
    claims: &[Claim<'_>],
    name: &Name,
    caller: &Identifier,
) -> Result<Option<Exposure>, AllocError>
    requires few { length rules.now ≤ 1024 }
    requires claims { All IsClaim claims.now }
    requires rules { rules_of claims.now ≡ rules.now }
    requires name { IsName name.now }
    ensures { IfOk result (λ found. MatchOption found (IsIsolatedAt rules.now caller.now name.now) (IsExposed rules.now caller.now)) }
{
    let entries = entries_at(alloc, claims, name)?;
    exposure_by_entries(alloc, rules, &entries, name, caller)
}

/// The same, by the entries there.
fn exposure_by_entries(
    alloc: Global,
    rules: &[Rule],
    entries: &[Entry<'_>],
    name: &Name,
    caller: &Identifier,
) -> Result<Option<Exposure>, AllocError>
    requires few { length rules.now ≤ 1024 }
    requires name { IsName name.now }
    requires entries { AreEntries rules.now name.now (length rules.now) entries.now }
    ensures { IfOk result (λ found. MatchOption found (IsIsolatedAt rules.now caller.now name.now) (IsExposed rules.now caller.now)) }
{
    if let Some(right) = own_right(entries, caller, Wanted::SoaShown) {
        let name = name.try_copy(alloc)?;
        return Ok(Some(Exposure::Soa { name, right }));
    }
    let Some(own) = own_right(entries, caller, Wanted::Every) else {
        return Ok(None);
    };
    let Some(theirs) = other_right(entries, caller) else {
        return Ok(None);
    };
    let other = named(alloc, &rules[theirs.rule].callers)?;
    let name = name.try_copy(alloc)?;
    Ok(Some(Exposure::Shared {
        name,
        own,
        other,
        theirs,
    }))
}

/// The caller that is named, if one is.
pub(crate) fn named(alloc: Global, callers: &Callers) -> Result<Option<Identifier>, AllocError>
    ensures { IfOk result (λ named. named ≡ named_of callers.now) }
{
    match callers {
        Callers::Every => Ok(None),
        Callers::One(identifier) => Ok(Some(identifier.try_copy(alloc)?)),
    }
}
