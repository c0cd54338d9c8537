//! Names in canonical order, each once, and those of the items of an update.

ghost use Rattle.std.specs.Prelude.{◌≡◌, ◌++◌, IfOk, map};
ghost use Rattle.zone_core.specs.Delegations.{AreNamesOf};
ghost use Rattle.zone_core.specs.Updates.{IsUpdate, acted_name, item_names, tested_name};

use crate::update::Update;
use dns_names::Name;
use std::alloc::{AllocError, Global};

/// Names in canonical order (RFC 4034 section 6.1), each once. The only error is out of memory.
pub(crate) fn ordered(mut names: Vec<Name>) -> Result<Vec<Name>, AllocError>
    ensures { IfOk result (λ ordered. AreNamesOf ordered.items names.items) }
{
    names.sort()?;
    names.dedup();
    Ok(names)
}

/// The names of the items of an update, in their order. The only error is out of memory.
fn item_names(alloc: Global, update: &Update) -> Result<Vec<Name>, AllocError>
    ensures names { IfOk result (λ names. names.items ≡ item_names update.now) }
    // What holds of every update.
    ensures update { IsUpdate update.now }
{
    let mut names = Vec::new(alloc);
    for prerequisite in update.prerequisites() {
        names.push(prerequisite.name().try_copy(alloc)?)?;
    }
    for operation in update.operations() {
        names.push(operation.name().try_copy(alloc)?)?;
    }
    Ok(names)
}

impl Update {
    /// The names of the items, in canonical order (RFC 4034 section 6.1), each once: with the origin all that the update reads. The
    /// only error is out of memory.
    pub fn names(&self, alloc: Global) -> Result<Vec<Name>, AllocError>
        ensures names { IfOk result (λ names. AreNamesOf names.items (item_names self.now)) }
        // What holds of every update.
        ensures update { IsUpdate self.now }
    {
        ordered(item_names(alloc, self)?)
    }
}
