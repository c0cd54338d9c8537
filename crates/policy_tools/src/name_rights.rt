//! Who may do what at a name.

ghost use Rattle.std.specs.Prelude.{◌≡◌, ◌↔◌, ◌&&◌, bytes_eq, IfOk, OnOk, IsTrue};
ghost use Rattle.std.specs.List.{All, list_any};
ghost use Rattle.dns_data.specs.declared.record_type.RecordType.{RecordType as TypeOf};
ghost use Rattle.grant_policy.specs.declared.action.Action.{Action as ActionOf};
ghost use Rattle.policy_tools.specs.Claims.{IsClaim, rules_of};
ghost use Rattle.policy_tools.specs.Points.{has_point};
ghost use Rattle.policy_tools.specs.NameRights.{AreRightsAt, AreListed, AddsRow, HasGrants, HasNoRights, claims_at, does_grant, listed_of};

use crate::claims::{Claim, claims_of};
use crate::points::Points;
use crate::rights::Rights;
use crate::shared_callers::include_all;
use dns_names::Name;
use grant_policy::{Callers, Effect, Identifier, Policy, covers};
use std::alloc::{AllocError, Global};

/// A caller, and what it may do.
#[derive(Drop)]
pub struct CallerRights {
    pub caller: Identifier,
    pub rights: Rights,
}

/// Who may do what at a name.
#[derive(Drop)]
pub struct NameRights {
    /// The callers that may do other things there than those that no rule names, in the order in which the rules that cover the name
    /// first name them. One that may do nothing is among them where all others may do something.
    pub named: Vec<CallerRights>,
    /// What every caller may do that is not among them.
    pub others: Rights,
}

impl NameRights {
    /// Whether nobody may do anything.
    pub fn is_empty(&self) -> bool
        ensures { IsTrue result ↔ HasNoRights self.now }
    {
        self.named.is_empty() && self.others.is_empty()
    }

    /// The rights of a caller.
    pub fn of(&self, caller: &Identifier) -> &Rights
        ensures { result.now ≡ listed_of self.now.named.items self.now.others caller.now }
    {
        for row in &self.named {
            if row.caller.as_bytes() == caller.as_bytes() {
                return &row.rights;
            }
        }
        &self.others
    }
}

/// Who may do what at a name by a policy. The only error is out of memory.
pub fn rights_at(alloc: Global, policy: &Policy, name: &Name) -> Result<NameRights, AllocError>
    // What is listed of each caller, in its own row or with all others, is exactly what the policy grants it there. A caller has a row
    // of its own exactly where it may do other things than all others, and rows are in the order in which rules name their callers.
    ensures { IfOk result (λ rights. AreRightsAt policy.now name.now rights) }
{
    let claims = claims_of(alloc, policy.rules())?;
    rights_among(alloc, &claims, name)
}

/// The same, of rules with their pairs.
pub(crate) fn rights_among(
    alloc: Global,
    claims: &[Claim<'_>],
    name: &Name,
) -> Result<NameRights, AllocError>
    requires { All IsClaim claims.now }
    ensures { IfOk result (λ rights. AreRightsAt (rules_of claims.now) name.now rights) }
{
    let covering = covering(alloc, claims, name)?;
    rights_by(alloc, &covering)
}

/// The claims whose rules cover a name.
fn covering<'a>(
    alloc: Global,
    claims: &[Claim<'a>],
    name: &Name,
) -> Result<Vec<Claim<'a>>, AllocError>
    ensures { IfOk result (λ covering. covering.items ≡ claims_at claims.now name.now) }
{
    let mut covering = Vec::new(alloc);
    for claim in claims {
        if covers(claim.rule.scope, &claim.rule.at, name) {
            covering.push(*claim)?;
        }
    }
    Ok(covering)
}

/// The pairs that claims grant to all these callers.
fn granted_to(claims: &[Claim<'_>], callers: &Callers) -> Points
    ensures { HasGrants claims.now callers.now result.bits }
{
    let mut decided = Points::none();
    let mut granted = Points::none();
    for claim in claims {
        if include_all(&claim.rule.callers, callers) {
            granted = granted.with(grants_of(*claim).without(decided));
            decided = decided.with(claim.points);
        }
    }
    granted
}

/// The pairs that a rule grants where it decides.
fn grants_of(claim: Claim<'_>) -> Points
    ensures { (t : TypeOf) (a : ActionOf) → has_point result.bits t a ≡ (does_grant claim.entry.rule.now.effect && has_point claim.entry.points.bits t a) }
{
    match claim.rule.effect {
        Effect::Grant => claim.points,
        Effect::Deny => Points::none(),
    }
}

/// Who may do what by claims whose rules all cover a name.
fn rights_by(alloc: Global, claims: &[Claim<'_>]) -> Result<NameRights, AllocError>
    ensures { IfOk result (λ rights. AreListed claims.now rights) }
{
    let others = granted_to(claims, &Callers::Every);
    let mut named = Vec::new(alloc);
    for claim in claims {
        add_row(alloc, claims, &claim.rule.callers, others, &mut named)?;
    }
    Ok(NameRights {
        named,
        others: Rights::of(others),
    })
}

/// Adds the row of the caller of a rule, if it has none and other rights than all others.
fn add_row(
    alloc: Global,
    claims: &[Claim<'_>],
    callers: &Callers,
    others: Points,
    named: &mut Vec<CallerRights>,
) -> Result<(), AllocError>
    ensures { OnOk result (AddsRow claims.now others.bits callers.now named.old.items named.new.items) }
{
    let Callers::One(caller) = callers else {
        return Ok(());
    };
    if is_listed(named, caller) {
        return Ok(());
    }
    let own = granted_to(claims, callers);
    if !own.differs(others) {
        return Ok(());
    }
    let caller = caller.try_copy(alloc)?;
    let rights = Rights::of(own);
    named.push(CallerRights { caller, rights })?;
    Ok(())
}

/// Whether a caller has a row.
fn is_listed(named: &[CallerRights], caller: &Identifier) -> bool
    ensures { result ≡ list_any (λ row. bytes_eq row.caller caller.now) named.now }
{
    named
        .iter()
        .any(|row| row.caller.as_bytes() == caller.as_bytes())
}
