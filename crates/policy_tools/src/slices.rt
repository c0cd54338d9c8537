//! The rules that can matter in some zones, those that cannot, and the zones in which no rule does.

ghost use Rattle.std.specs.Prelude.{◌≡◌, ◌↔◌, map, IfOk, IsTrue};
ghost use Rattle.std.specs.List.{All};
ghost use Rattle.dns_names.specs.Labels.{IsName};
ghost use Rattle.grant_policy.specs.Documents.{AreRules};
ghost use Rattle.policy_tools.specs.Slices.{Touches, Matters, IsSpokenOf, AreKept, DecideSame, IsClosed, HasNames, Reaches};

use crate::free_names::fits;
use dns_names::Name;
use grant_policy::{Policy, Rule, Scope};
use std::alloc::{AllocError, Global};

/// Whether the name of a rule is within an origin, or above it, if the rule speaks of names below its own.
fn reaches(rule: &Rule, origin: &Name) -> bool
    ensures { IsTrue result ↔ Reaches rule.now.scope rule.now.at origin.now }
{
    match rule.scope {
        Scope::Name => rule.at.is_within(origin),
        Scope::Subtree | Scope::Below => rule.at.is_within(origin) || origin.is_within(&rule.at),
    }
}

/// Whether there are names of which a rule speaks. The only error is out of memory.
fn has_names(alloc: Global, rule: &Rule) -> Result<bool, AllocError>
    ensures { IfOk result (λ has. IsTrue has ↔ HasNames rule.now.scope rule.now.at) }
{
    match rule.scope {
        Scope::Name | Scope::Subtree => Ok(true),
        Scope::Below => fits(alloc, b"a", &rule.at),
    }
}

/// Makes known to a proof that a name is one. It does nothing when it runs.
fn reveal_name(name: &Name)
    ensures { IsName name.now }
{
    let _ = name.labels();
}

/// Whether a rule speaks of some name within an origin. The only error is out of memory.
fn touches(alloc: Global, rule: &Rule, origin: &Name) -> Result<bool, AllocError>
    ensures { IfOk result (λ touches. IsTrue touches ↔ Touches rule.now origin.now) }
{
    reveal_name(&rule.at);
    reveal_name(origin);
    if !reaches(rule, origin) {
        return Ok(false);
    }
    has_names(alloc, rule)
}

/// Whether a rule speaks of some name within one of these origins.
fn matters(alloc: Global, rule: &Rule, origins: &[Name]) -> Result<bool, AllocError>
    ensures { IfOk result (λ matters. IsTrue matters ↔ Matters origins.now rule.now) }
{
    for origin in origins {
        if touches(alloc, rule, origin)? {
            return Ok(true);
        }
    }
    Ok(false)
}

/// Whether one of these rules speaks of some name within an origin.
fn is_spoken_of(alloc: Global, rules: &[Rule], origin: &Name) -> Result<bool, AllocError>
    ensures { IfOk result (λ spoken. IsTrue spoken ↔ IsSpokenOf rules.now origin.now) }
{
    for rule in rules {
        if touches(alloc, rule, origin)? {
            return Ok(true);
        }
    }
    Ok(false)
}

/// The rules that can matter in the zones of these origins, in order: those that speak of some name within one of them. They decide
/// the same there as the whole policy. The only error is out of memory.
pub fn slice_of<'a>(
    alloc: Global,
    policy: &'a Policy,
    origins: &[Name],
) -> Result<Vec<&'a Rule>, AllocError>
    // Exactly those are kept that speak of such a name, in the order that they had.
    ensures kept { IfOk result (λ slice. AreKept (Matters origins.now) policy.now (map (λ rule. rule.now) slice.items)) }
    // At all names within the origins they decide the same, and by the same rule.
    ensures same { IfOk result (λ slice. DecideSame origins.now policy.now (map (λ rule. rule.now) slice.items)) }
    // They are the rules of a policy too.
    ensures policy { IfOk result (λ slice. AreRules (map (λ rule. rule.now) slice.items)) }
{
    slice_among(alloc, policy.rules(), origins)
}

/// The same of a list of rules.
fn slice_among<'a>(
    alloc: Global,
    rules: &'a [Rule],
    origins: &[Name],
) -> Result<Vec<&'a Rule>, AllocError>
    ensures { IfOk result (λ slice. AreKept (Matters origins.now) rules.now (map (λ rule. rule.now) slice.items)) }
{
    let mut slice = Vec::new(alloc);
    for rule in rules {
        if matters(alloc, rule, origins)? {
            slice.push(rule)?;
        }
    }
    Ok(slice)
}

/// The rules that cannot matter in the zones of these origins, in order: those that speak of no name within one of them. The only error
/// is out of memory.
pub fn stray_rules<'a>(
    alloc: Global,
    policy: &'a Policy,
    origins: &[Name],
) -> Result<Vec<&'a Rule>, AllocError>
    ensures { IfOk result (λ stray. AreKept (λ rule. ¬ Matters origins.now rule) policy.now (map (λ rule. rule.now) stray.items)) }
{
    stray_among(alloc, policy.rules(), origins)
}

/// The same of a list of rules.
fn stray_among<'a>(
    alloc: Global,
    rules: &'a [Rule],
    origins: &[Name],
) -> Result<Vec<&'a Rule>, AllocError>
    ensures { IfOk result (λ stray. AreKept (λ rule. ¬ Matters origins.now rule) rules.now (map (λ rule. rule.now) stray.items)) }
{
    let mut stray = Vec::new(alloc);
    for rule in rules {
        if !matters(alloc, rule, origins)? {
            stray.push(rule)?;
        }
    }
    Ok(stray)
}

/// The origins of whose zones no rule speaks, in order: within them everything is denied to everybody by the closing default. The only
/// error is out of memory.
pub fn unspoken_origins<'a>(
    alloc: Global,
    policy: &Policy,
    origins: &'a [Name],
) -> Result<Vec<&'a Name>, AllocError>
    // Exactly those are kept within which no rule speaks of a name, in the order that they had.
    ensures unspoken { IfOk result (λ unspoken. AreKept (λ origin. ¬ IsSpokenOf policy.now origin) origins.now (map (λ origin. origin.now) unspoken.items)) }
    // The closing default decides there, whatever is asked.
    ensures closed { IfOk result (λ unspoken. All (IsClosed policy.now) (map (λ origin. origin.now) unspoken.items)) }
{
    unspoken_among(alloc, policy.rules(), origins)
}

/// The same of a list of rules.
fn unspoken_among<'a>(
    alloc: Global,
    rules: &[Rule],
    origins: &'a [Name],
) -> Result<Vec<&'a Name>, AllocError>
    ensures { IfOk result (λ unspoken. AreKept (λ origin. ¬ IsSpokenOf rules.now origin) origins.now (map (λ origin. origin.now) unspoken.items)) }
{
    let mut unspoken = Vec::new(alloc);
    for origin in origins {
        if !is_spoken_of(alloc, rules, origin)? {
            unspoken.push(origin)?;
        }
    }
    Ok(unspoken)
}
