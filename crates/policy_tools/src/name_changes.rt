//! What another policy changes at a name.

ghost use Rattle.std.specs.Prelude.{◌≡◌, ◌↔◌, ◌++◌, ℕ, List, [], ◌∷◌, map, bytes_eq, true, false, IfOk, OnOk, IsTrue};
ghost use Rattle.std.specs.List.{All, list_any};
ghost use Rattle.policy_tools.specs.Changes.{AreChangesBetween, AreChangeRows, IsChange, IsNoChange, IsSameChange, AreApart, HasNoChange, IsSeen};

use crate::name_rights::{CallerRights, NameRights};
use crate::rights::Rights;
use grant_policy::Identifier;
use std::alloc::{AllocError, Global};

/// What another policy gives and takes.
#[derive(Drop)]
pub struct Change {
    /// What the new policy grants and the old one denies.
    pub gives: Rights,
    /// What the old policy grants and the new one denies.
    pub takes: Rights,
}

/// A caller, and what changes for it.
#[derive(Drop)]
pub struct CallerChange {
    pub caller: Identifier,
    pub change: Change,
}

/// What changes at a name.
#[derive(Drop)]
pub struct NameChanges {
    /// The callers for whom something else changes there than for all others, each once. One for whom nothing changes is among them
    /// where something changes for all others.
    pub named: Vec<CallerChange>,
    /// What changes for every caller that is not among them.
    pub others: Change,
}

impl Change {
    /// The change from rights to others.
    fn between(old: &Rights, new: &Rights) -> Change
        ensures { IsChange old.now new.now result }
    {
        Change {
            gives: new.without(old),
            takes: old.without(new),
        }
    }

    /// Whether nothing changes.
    pub fn is_empty(&self) -> bool
        ensures { IsTrue result ↔ IsNoChange self.now }
    {
        self.gives.is_empty() && self.takes.is_empty()
    }

    /// Whether something is given or taken that another change does not give or take.
    fn differs(&self, other: &Change) -> bool
        ensures some { result ≡ true → AreApart self.now other.now }
        ensures none { result ≡ false → IsSameChange self.now other.now }
    {
        self.gives.differs(&other.gives) || self.takes.differs(&other.takes)
    }
}

impl NameChanges {
    /// Whether nothing changes for anybody.
    pub fn is_empty(&self) -> bool
        ensures { IsTrue result ↔ HasNoChange self.now }
    {
        self.named.is_empty() && self.others.is_empty()
    }
}

/// Rights at a name by an old policy and by a new one, and what changes there for callers that have a row in neither.
#[derive(Clone, Copy)]
struct Versions<'a> {
    old: &'a NameRights,
    new: &'a NameRights,
    others: &'a Change,
}

/// What changes at a name from the rights of an old policy to those of a new one. The only error is out of memory.
pub(crate) fn changes_between(
    alloc: Global,
    old: &NameRights,
    new: &NameRights,
) -> Result<NameChanges, AllocError>
    ensures { IfOk result (λ changes. AreChangesBetween old.now new.now changes) }
{
    let others = Change::between(&old.others, &new.others);
    let versions = Versions {
        old,
        new,
        others: &others,
    };
    let mut named = Vec::new(alloc);
    add_callers(alloc, versions, &new.named, &mut named)?;
    add_callers(alloc, versions, &old.named, &mut named)?;
    Ok(NameChanges { named, others })
}

/// Adds the rows of callers.
fn add_callers(
    alloc: Global,
    versions: Versions<'_>,
    callers: &[CallerRights],
    rows: &mut Vec<CallerChange>,
) -> Result<(), AllocError>
    requires { All (λ row. IsSeen versions.old.now versions.new.now row.caller) callers.now }
    ensures { OnOk result
        ((seen : List (List ℕ)) → AreChangeRows versions.entry.old.now versions.entry.new.now versions.entry.others.now seen rows.old.items
        → AreChangeRows versions.entry.old.now versions.entry.new.now versions.entry.others.now (seen ++ map (λ row. row.caller) callers.now) rows.new.items) }
{
    for row in callers {
        add_caller(alloc, versions, &row.caller, rows)?;
    }
    Ok(())
}

/// Adds the row of a caller, if it has none and something else changes for it than for all others.
fn add_caller(
    alloc: Global,
    versions: Versions<'_>,
    caller: &Identifier,
    rows: &mut Vec<CallerChange>,
) -> Result<(), AllocError>
    requires { IsSeen versions.old.now versions.new.now caller.now }
    ensures { OnOk result
        ((seen : List (List ℕ)) → AreChangeRows versions.entry.old.now versions.entry.new.now versions.entry.others.now seen rows.old.items
        → AreChangeRows versions.entry.old.now versions.entry.new.now versions.entry.others.now (seen ++ caller.now ∷ []) rows.new.items) }
{
    if has_row(rows, caller) {
        return Ok(());
    }
    let change = Change::between(versions.old.of(caller), versions.new.of(caller));
    if !change.differs(versions.others) {
        return Ok(());
    }
    let caller = caller.try_copy(alloc)?;
    rows.push(CallerChange { caller, change })?;
    Ok(())
}

/// Whether a caller has a row.
fn has_row(rows: &[CallerChange], caller: &Identifier) -> bool
    ensures { result ≡ list_any (λ row. bytes_eq row.caller caller.now) rows.now }
{
    rows.iter()
        .any(|row| row.caller.as_bytes() == caller.as_bytes())
}
