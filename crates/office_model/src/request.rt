//! What callers ask of the office.

use dns_data::RecordType;
use dns_names::Name;
use grant_policy::{Action, Identifier};
use zone_core::Update;

/// A request.
#[derive(Drop)]
pub enum Request {
    /// To update the zone of an origin (RFC 2136 section 2), under an identifier of the caller's choice. A delegation is
    /// requested by the update that it becomes.
    Update {
        origin: Name,
        id: Identifier,
        update: Update,
    },
    /// To read something, which changes nothing.
    Read(Query),
}

/// What is asked of the office without changing anything.
#[derive(Drop)]
pub enum Query {
    /// The records of a zone.
    List {
        origin: Name,
    },
    /// The records of a zone that are within a name.
    ListWithin {
        origin: Name,
        top: Name,
    },
    /// The records of a zone as a master file (RFC 1035 section 5.1).
    File {
        origin: Name,
    },
    /// The delegations in a zone.
    Delegations {
        origin: Name,
    },
    /// The changes of a zone, from this number on.
    Changes {
        origin: Name,
        from: u32,
    },
    /// What the policy decides of the records of a type at a name.
    Rights {
        name: Name,
        record_type: RecordType,
        action: Action,
    },
}

/// A caller's request.
#[derive(Drop)]
pub struct Call {
    /// Who asks.
    pub caller: Identifier,
    /// What is asked.
    pub request: Request,
}
