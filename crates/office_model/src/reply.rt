//! What the office replies.

ghost use Rattle.std.specs.Prelude.{◌≡◌, IfOk};
ghost use Rattle.zone_core.specs.Changes.{change_in};
ghost use Rattle.office_model.specs.Replies.{update_rcode, reply_refusal, seen_in};

use crate::record_lines::RecordLines;
use crate::table_fault::StepFault;
use dns_data::Record;
use dns_names::Name;
use grant_policy::Identifier;
use std::alloc::{AllocError, Global};
use zone_core::{Change, Delegation, Failed, Place, Rcode};

/// The reply to an update (RFC 2136 section 3), which its receipt keeps.
#[derive(Drop)]
pub enum UpdateReply {
    /// The update was made.
    NoError,
    /// No zone has this origin.
    NotAuth,
    /// The name of an item is not within the origin.
    NotZone(Place),
    /// The policy denies what an item asks for: by the rule of this identifier, or by the closing default.
    Refused {
        place: Place,
        by: Option<Identifier>,
    },
    /// A prerequisite does not hold.
    Failed(Failed),
}

/// What a policy decides, with the identifier of the rule that did. A denial by no rule is that of the closing default.
#[derive(Drop)]
pub enum Right {
    /// A rule grants it.
    Granted(Identifier),
    /// A rule denies it, or no rule matches.
    Denied(Option<Identifier>),
}

/// What a caller sees of a change: the records that it may list, as lines, which take no more memory than a response with them.
#[derive(Drop)]
pub struct SeenChange {
    /// The records that go, in record order.
    pub removed: RecordLines,
    /// The records that come, in record order.
    pub added: RecordLines,
}

impl SeenChange {
    /// A change, whose lines are written in a room that may be used again. The only error is out of memory.
    pub fn of(alloc: Global, room: &mut String, change: &Change) -> Result<SeenChange, AllocError>
        ensures { IfOk result (λ seen. seen_in seen ≡ change_in change.now) }
    {
        Ok(SeenChange {
            removed: RecordLines::of(alloc, room, &change.removed)?,
            added: RecordLines::of(alloc, room, &change.added)?,
        })
    }
}

/// What a caller sees of a change, with its number among the changes of which the caller sees something, from 1.
#[derive(Drop)]
pub struct NumberedChange {
    pub number: u64,
    /// The records of the change that the caller may list.
    pub change: SeenChange,
}

/// A reply.
#[derive(Drop)]
pub enum Reply {
    /// To an update.
    Update(UpdateReply),
    /// To an update whose identifier the caller gave to another update before: nothing has changed.
    IdReused,
    /// The table failed, or memory ran out: nothing has changed.
    Servfail(StepFault),
    /// To a query: no zone has this origin.
    NotAuth,
    /// To a list within a name: the name is not within the origin.
    NotZone,
    /// To a query: what it asked for.
    Read(Reading),
}

/// What was read for a query.
#[derive(Drop)]
pub enum Reading {
    /// The records that the caller may list, in record order.
    Records(Vec<Record>),
    /// The origin, and the records that the caller may list, in record order.
    File { origin: Name, records: Vec<Record> },
    /// The delegations in a zone, by the records that the caller may list.
    Delegations(Vec<Delegation>),
    /// What the caller sees of the changes of a zone.
    Changes(Vec<NumberedChange>),
    /// What the policy decides.
    Right(Right),
}

impl UpdateReply {
    /// The response code (RFC 2136 section 2.2).
    pub const fn rcode(&self) -> Rcode
        ensures { result ≡ update_rcode self.now }
    {
        match self {
            UpdateReply::NoError => Rcode::NoError,
            UpdateReply::NotAuth => Rcode::NotAuth,
            UpdateReply::NotZone(_) => Rcode::NotZone,
            UpdateReply::Refused { .. } => Rcode::Refused,
            UpdateReply::Failed(failed) => failed.code.rcode(),
        }
    }

    /// An equal reply in memory of its own. The only error is out of memory.
    pub fn try_copy(&self, alloc: Global) -> Result<UpdateReply, AllocError>
        ensures { IfOk result (λ copy. copy ≡ self.now) }
    {
        Ok(match self {
            UpdateReply::NoError => UpdateReply::NoError,
            UpdateReply::NotAuth => UpdateReply::NotAuth,
            UpdateReply::NotZone(place) => UpdateReply::NotZone(*place),
            UpdateReply::Refused { place, by } => UpdateReply::Refused {
                place: *place,
                by: copy_of(alloc, by)?,
            },
            UpdateReply::Failed(failed) => UpdateReply::Failed(*failed),
        })
    }
}

impl Reply {
    /// The published number of the refusal, where the reply has one and no response code: 61 for `IdReused`, and for
    /// `Servfail` that of its fault, 75 or 99.
    pub const fn refusal(&self) -> Option<u8>
        ensures { result ≡ reply_refusal self.now }
    {
        match self {
            Reply::IdReused => Some(61),
            Reply::Servfail(fault) => Some(fault.number()),
            _ => None,
        }
    }
}

/// A copy of an identifier, where there is one. The only error is out of memory.
fn copy_of(alloc: Global, id: &Option<Identifier>) -> Result<Option<Identifier>, AllocError>
    ensures { IfOk result (λ copy. copy ≡ id.now) }
{
    match id {
        Some(id) => Ok(Some(id.try_copy(alloc)?)),
        None => Ok(None),
    }
}
