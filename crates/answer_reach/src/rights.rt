//! Where a policy can grant a caller changes of records.

ghost use Rattle.std.specs.Prelude.{◌≡◌, ◌∷◌, ◌++◌, [], if◌then◌else◌, IfOk};
ghost use Rattle.std.specs.List.{flat_map, list_any};
ghost use Rattle.dns_names.specs.Labels.{is_within};
ghost use Rattle.zone_core.specs.Outermost.{AreApart};
ghost use Rattle.grant_policy.specs.Reach.{grants_to};
ghost use Rattle.answer_reach.specs.Rights.{RightsOf, AreTops, grants_change, changed_within, may_grant};

use crate::names::ordered;
use dns_names::Name;
use grant_policy::{Action, Effect, Identifier, Policy, Rule};
use std::alloc::{AllocError, Global};
use std::marker::Model;
use zone_core::outermost;

/// A policy and a caller, with the names that have all names within them at which a rule grants the caller some change.
#[derive(Drop)]
pub(crate) struct Rights<'a> {
    policy: &'a Policy,
    caller: &'a Identifier,
    // those that are within no other, in canonical order
    tops: Vec<Name>,
}

impl<'a> Model for Rights<'a> {
    ghost Value = { RightsOf };

    ghost view = { λ r. record { rules = r.policy.now; caller = r.caller.now } };

    ghost invariant = { λ r. AreTops r.policy.now r.caller.now r.tops.items };
}

/// Whether a rule grants a caller an action at some name.
fn grants_to(rule: &Rule, caller: &Identifier, action: Action) -> bool
    ensures { result ≡ grants_to caller.now action rule.now }
{
    matches!(rule.effect, Effect::Grant)
        && rule.callers.include(caller)
        && rule.actions.include(action)
}

/// Whether a rule grants a caller some change of records at some name.
fn grants_change(rule: &Rule, caller: &Identifier) -> bool
    ensures { result ≡ grants_change caller.now rule.now }
{
    grants_to(rule, caller, Action::Add)
        || grants_to(rule, caller, Action::Delete)
        || grants_to(rule, caller, Action::Delegate)
}

/// Appends the name of a rule, if it grants a caller some change. The only error is out of memory.
fn push_changed(
    alloc: Global,
    names: &mut Vec<Name>,
    rule: &Rule,
    caller: &Identifier,
) -> Result<(), AllocError>
    ensures { IfOk result (λ _. names.new.items ≡ names.old.items ++ changed_within caller.now rule.now) }
{
    if grants_change(rule, caller) {
        names.push(rule.at.try_copy(alloc)?)?;
    }
    Ok(())
}

/// The names of the rules that grant a caller some change. The only error is out of memory.
fn changed_names(
    alloc: Global,
    rules: &[Rule],
    caller: &Identifier,
) -> Result<Vec<Name>, AllocError>
    ensures { IfOk result (λ names. names.items ≡ flat_map (changed_within caller.now) rules.now) }
{
    let mut names = Vec::new(alloc);
    for rule in rules {
        push_changed(alloc, &mut names, rule, caller)?;
    }
    Ok(names)
}

/// The outermost names within which rules grant a caller changes. The only error is out of memory.
fn tops_of(alloc: Global, rules: &[Rule], caller: &Identifier) -> Result<Vec<Name>, AllocError>
    ensures { IfOk result (λ tops. AreTops rules.now caller.now tops.items) }
{
    let names = changed_names(alloc, rules, caller)?;
    let all = ordered(names)?;
    let tops = outermost(alloc, &all)?;
    Ok(tops)
}

/// Whether a name is within one of some names.
fn is_covered(tops: &[Name], name: &Name) -> bool
    requires { AreApart tops.now }
    ensures { result ≡ list_any (λ top. is_within name.now top) tops.now }
{
    let count = tops.partition_point(|top| *top <= *name);
    if count == 0 {
        return false;
    }
    name.is_within(&tops[count - 1])
}

impl<'a> Rights<'a> {
    /// What a policy can grant a caller. The only error is out of memory.
    pub(crate) fn new(
        alloc: Global,
        policy: &'a Policy,
        caller: &'a Identifier,
    ) -> Result<Rights<'a>, AllocError>
        ensures { IfOk result (λ rights. rights ≡ record { rules = policy.now; caller = caller.now }) }
    {
        let tops = tops_of(alloc, policy.rules(), caller)?;
        Ok(Rights {
            policy,
            caller,
            tops,
        })
    }

    /// The policy.
    pub(crate) fn policy(&self) -> &'a Policy
        ensures { result.now ≡ self.now.rules }
    {
        self.policy
    }

    /// The caller.
    pub(crate) fn caller(&self) -> &'a Identifier
        ensures { result.now ≡ self.now.caller }
    {
        self.caller
    }

    /// The names that have all names within them at which a rule grants the caller some change, in canonical order.
    pub(crate) fn tops(&self) -> &[Name]
        ensures { AreTops self.now.rules self.now.caller result.now }
    {
        &self.tops
    }

    /// Whether a rule can grant the caller some change at a name: it is at or below that of one that does.
    pub(crate) fn may_grant(&self, name: &Name) -> bool
        ensures { result ≡ may_grant self.now.rules self.now.caller name.now }
    {
        is_covered(&self.tops, name)
    }
}
