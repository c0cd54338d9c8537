//! What a table keeps beside its zones.

ghost use Rattle.std.specs.Prelude.{◌≡◌, IfOk};

use crate::reply::UpdateReply;
use dns_names::Name;
use grant_policy::Identifier;
use std::alloc::{AllocError, Global};
use zone_core::{Change, Update};

/// The receipt of an update that was answered: the update, the origin of the zone that it is of, and the reply.
#[derive(Drop)]
pub struct Receipt {
    pub origin: Name,
    pub update: Update,
    pub reply: UpdateReply,
}

/// What is added to a table at once: the receipt of an update of a caller's under an identifier, and the change that it made of
/// the zone, if it made one.
#[derive(Drop)]
pub struct Addition {
    pub caller: Identifier,
    pub id: Identifier,
    pub receipt: Receipt,
    pub change: Option<Change>,
}

impl Receipt {
    /// An equal receipt in memory of its own. The only error is out of memory.
    pub fn try_copy(&self, alloc: Global) -> Result<Receipt, AllocError>
        ensures { IfOk result (λ copy. copy ≡ self.now) }
    {
        Ok(Receipt {
            origin: self.origin.try_copy(alloc)?,
            update: self.update.try_copy(alloc)?,
            reply: self.reply.try_copy(alloc)?,
        })
    }
}
