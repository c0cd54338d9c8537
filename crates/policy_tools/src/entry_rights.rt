//! What entries grant a caller, and what they grant others.

ghost use Rattle.std.specs.Prelude.{◌≡◌, ◌↔◌, length, bytes_eq, IsTrue, MatchOption};
ghost use Rattle.std.specs.List.{Contains, list_any};
ghost use Rattle.grant_policy.specs.declared.callers.Callers.TheVariants.{One};
ghost use Rattle.policy_tools.specs.declared.claims.Entry.{Entry as EntryOf};
ghost use Rattle.policy_tools.specs.declared.exposure.Right.{Right as RightOf};
ghost use Rattle.policy_tools.specs.EntryRights.{IsWanted, IsGrant, GrantsAmong, GrantsOthers, GrantsUnlisted, are_listed};

use crate::claims::Entry;
use crate::exposure::Right;
use crate::points::Points;
use crate::wanted::Wanted;
use grant_policy::{Callers, Effect, Identifier};

/// A right that entries grant a caller, among those that are looked for.
pub(crate) fn own_right(entries: &[Entry<'_>], caller: &Identifier, wanted: Wanted) -> Option<Right>
    ensures { MatchOption result
        ((right : RightOf) → IsWanted wanted right → ¬ GrantsAmong (One caller.now) entries.now (length entries.now) right)
        (λ right. IsWanted wanted right × GrantsAmong (One caller.now) entries.now (length entries.now) right) }
{
    let looked_for = Points::wanted(wanted);
    let mut decided = Points::none();
    for entry in entries {
        if entry.claim.rule.callers.include(caller) {
            let own = entry.claim.points.without(decided);
            if let Some(right) = granted(*entry, own, looked_for) {
                return Some(right);
            }
            decided = decided.with(entry.claim.points);
        }
    }
    None
}

/// A right that entries grant others than a caller, to change records.
pub(crate) fn other_right(entries: &[Entry<'_>], caller: &Identifier) -> Option<Right>
    ensures { MatchOption result ((e : EntryOf) (right : RightOf) → Contains entries.now e → ¬ GrantsOthers caller.now e right)
        (λ right. (e : EntryOf) × Contains entries.now e × GrantsOthers caller.now e right) }
{
    let changes = Points::wanted(Wanted::Changes);
    for entry in entries {
        if !is_only(&entry.claim.rule.callers, caller) {
            if let Some(right) = granted(*entry, entry.left, changes) {
                return Some(right);
            }
        }
    }
    None
}

/// One of some rights that entries grant others than the callers of a list.
pub(crate) fn unlisted_right(
    entries: &[Entry<'_>],
    listed: &[Identifier],
    wanted: Points,
) -> Option<Right>
    ensures { MatchOption result ((e : EntryOf) (right : RightOf) → Contains entries.now e → ¬ GrantsUnlisted listed.now wanted.bits e right)
        (λ right. (e : EntryOf) × Contains entries.now e × GrantsUnlisted listed.now wanted.bits e right) }
{
    for entry in entries {
        if !are_listed(&entry.claim.rule.callers, listed) {
            if let Some(right) = granted(*entry, entry.left, wanted) {
                return Some(right);
            }
        }
    }
    None
}

/// Whether a list has the caller of whom alone a rule speaks.
fn are_listed(callers: &Callers, listed: &[Identifier]) -> bool
    ensures { result ≡ are_listed listed.now callers.now }
{
    match callers {
        Callers::Every => false,
        Callers::One(identifier) => is_among(identifier, listed),
    }
}

/// Whether a list has an identifier.
fn is_among(identifier: &Identifier, listed: &[Identifier]) -> bool
    ensures { result ≡ list_any (λ other. bytes_eq other identifier.now) listed.now }
{
    listed
        .iter()
        .any(|other| other.as_bytes() == identifier.as_bytes())
}

/// Whether a caller is the only one of whom a rule speaks.
fn is_only(callers: &Callers, caller: &Identifier) -> bool
    ensures { IsTrue result ↔ callers.now ≡ One caller.now }
{
    match callers {
        Callers::Every => false,
        Callers::One(identifier) => identifier.as_bytes() == caller.as_bytes(),
    }
}

/// A right that the rule of an entry grants, of a pair that is in both sets.
fn granted(entry: Entry<'_>, own: Points, wanted: Points) -> Option<Right>
    ensures { MatchOption result ((right : RightOf) → ¬ IsGrant entry.entry own.bits wanted.bits right)
        (λ right. IsGrant entry.entry own.bits wanted.bits right) }
{
    match entry.claim.rule.effect {
        Effect::Deny => None,
        Effect::Grant => {
            let pair = own.shared(wanted)?;
            Some(Right {
                record_type: pair.record_type,
                action: pair.action,
                rule: entry.number,
            })
        }
    }
}
