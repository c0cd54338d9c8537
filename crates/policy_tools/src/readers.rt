//! What a caller may not list in a zone.

ghost use Rattle.std.specs.Prelude.{◌≡◌, ◌↔◌, ◌≤◌, None, true, false, not, length, IfOk, IfSome, MatchOption};
ghost use Rattle.std.specs.List.{All, find};
ghost use Rattle.dns_data.specs.Types.{kept_types};
ghost use Rattle.dns_names.specs.Labels.{IsName};
ghost use Rattle.dns_data.specs.declared.record_type.RecordType.{RecordType as TypeOf};
ghost use Rattle.grant_policy.specs.declared.action.Action.TheVariants.{List as ToList};
ghost use Rattle.policy_tools.specs.Claims.{IsClaim, rules_of};
ghost use Rattle.policy_tools.specs.Points.{has_point};
ghost use Rattle.policy_tools.specs.Readers.{MayListAll, MayListWithin, IsHidden, RepresentWithin};

use crate::caller_list::CallerList;
use crate::claims::{Claim, claims_of};
use crate::expectation::Limit;
use crate::limits::names_of;
use crate::name_rights::rights_among;
use crate::rights::Rights;
use dns_data::RecordType;
use dns_names::Name;
use grant_policy::{Action, Actions, Identifier, Policy, Rule, Scope, Types};
use std::alloc::{AllocError, Global};

/// Records that a caller may not list.
#[derive(Drop)]
pub struct Hidden {
    /// Their name.
    pub name: Name,
    /// Of which type they are.
    pub record_type: RecordType,
}

/// Records of a zone that a caller may not list, by a policy, if there are such: at a name within the origin, of which there are
/// infinitely many. The only error is out of memory.
pub fn hidden_from(
    alloc: Global,
    policy: &Policy,
    caller: &Identifier,
    origin: &Name,
) -> Result<Option<Hidden>, AllocError>
    // Nothing is found exactly where the caller may list the records of every type at all names within the origin.
    ensures listed { IfOk result (λ found. (found ≡ None) ↔ MayListAll policy.now caller.now origin.now) }
    // What is found is so: the policy denies the caller to list it.
    ensures witness { IfOk result (λ found. IfSome found (IsHidden policy.now caller.now origin.now)) }
{
    hidden_by(alloc, policy.rules(), caller, origin)
}

/// The same of a list of rules.
fn hidden_by(
    alloc: Global,
    rules: &[Rule],
    caller: &Identifier,
    origin: &Name,
) -> Result<Option<Hidden>, AllocError>
    requires { length rules.now ≤ 1024 }
    ensures { IfOk result (λ found. MatchOption found (MayListAll rules.now caller.now origin.now) (IsHidden rules.now caller.now origin.now)) }
{
    let names = names_within(alloc, rules, origin)?;
    let claims = claims_of(alloc, rules)?;
    hidden_among(alloc, &claims, &names, caller, origin)
}

/// Names that represent all names within an origin.
fn names_within(alloc: Global, rules: &[Rule], origin: &Name) -> Result<Vec<Name>, AllocError>
    requires { length rules.now ≤ 1024 }
    ensures { IfOk result (λ names. RepresentWithin rules.now origin.now names.items) }
{
    let limit = Limit {
        callers: CallerList::of(Vec::new(alloc)),
        actions: Actions::every(),
        types: Types::every(),
        scope: Scope::Subtree,
        at: origin.try_copy(alloc)?,
    };
    names_of(alloc, rules, &limit)
}

/// The same, of rules with their pairs, and of names that represent those within the origin.
fn hidden_among(
    alloc: Global,
    claims: &[Claim<'_>],
    names: &[Name],
    caller: &Identifier,
    origin: &Name,
) -> Result<Option<Hidden>, AllocError>
    requires claims { All IsClaim claims.now }
    requires names { RepresentWithin (rules_of claims.now) origin.now names.now }
    ensures { IfOk result
        (λ found. MatchOption found (MayListAll (rules_of claims.now) caller.now origin.now) (IsHidden (rules_of claims.now) caller.now origin.now)) }
{
    for name in names {
        if let Some(hidden) = hidden_at(alloc, claims, name, caller, origin)? {
            return Ok(Some(hidden));
        }
    }
    Ok(None)
}

/// The same at a name, if it is within the origin.
fn hidden_at(
    alloc: Global,
    claims: &[Claim<'_>],
    name: &Name,
    caller: &Identifier,
    origin: &Name,
) -> Result<Option<Hidden>, AllocError>
    requires claims { All IsClaim claims.now }
    requires name { IsName name.now }
    ensures { IfOk result
        (λ found. MatchOption found (MayListWithin (rules_of claims.now) caller.now origin.now name.now) (IsHidden (rules_of claims.now) caller.now origin.now)) }
{
    if !name.is_within(origin) {
        return Ok(None);
    }
    let rights = rights_among(alloc, claims, name)?;
    let Some(record_type) = hidden_type(rights.of(caller)) else {
        return Ok(None);
    };
    let name = name.try_copy(alloc)?;
    Ok(Some(Hidden { name, record_type }))
}

/// A type whose records may not be listed by some rights, if there is one.
fn hidden_type(rights: &Rights) -> Option<RecordType>
    ensures { MatchOption result ((t : TypeOf) → has_point rights.now t ToList ≡ true) (λ t. has_point rights.now t ToList ≡ false) }
{
    first_hidden(rights)
}

/// The first of the types that are so.
fn first_hidden(rights: &Rights) -> Option<RecordType>
    ensures { result ≡ find (λ t. not (has_point rights.now t ToList)) kept_types }
{
    RecordType::ALL
        .iter()
        .copied()
        .find(|record_type| !rights.include(*record_type, Action::List))
}
