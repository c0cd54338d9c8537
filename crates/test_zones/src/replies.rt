//! What is replied, in words.

use dns_data::Record;
use dns_names::Name;
use grant_policy::Identifier;
use office_model::{
    NumberedChange, Reading, RecordLines, Reply, Right, StepFault, TableFault, UpdateReply,
};
use std::alloc::{AllocError, Global};
use zone_core::{DelegatedServer, Delegation, Glue, ItemList, Place};

fn push(text: &str, told: &mut Vec<u8>) -> Result<(), AllocError> {
    told.extend_from_slice(text.as_bytes())
}

/// Appends a text on a line of its own.
fn push_line(text: &str, told: &mut Vec<u8>) -> Result<(), AllocError> {
    if !told.is_empty() {
        told.push(b'\n')?;
    }
    push(text, told)
}

/// Appends a line for each record, after a sign.
pub fn push_records(
    alloc: Global,
    sign: &str,
    records: &[Record],
    told: &mut Vec<u8>,
) -> Result<(), AllocError> {
    for record in records {
        push_line(&format!(in alloc; "{sign}{record}")?, told)?;
    }
    Ok(())
}

/// Appends the origin of a zone, and then its records.
fn push_file(
    alloc: Global,
    origin: &Name,
    records: &[Record],
    told: &mut Vec<u8>,
) -> Result<(), AllocError> {
    push_line(&origin.text(alloc)?, told)?;
    push_records(alloc, "", records, told)
}

/// Appends an item by its list and its number.
fn push_place(alloc: Global, place: Place, told: &mut Vec<u8>) -> Result<(), AllocError> {
    let list = match place.list {
        ItemList::Prerequisites => "prerequisites",
        ItemList::Operations => "operations",
    };
    push(&format!(in alloc; " {list} {}", place.item)?, told)
}

/// Appends the identifier of a rule, or `closing`.
fn push_rule(id: &Option<Identifier>, told: &mut Vec<u8>) -> Result<(), AllocError> {
    match id {
        Some(id) => told.extend_from_slice(id.as_bytes()),
        None => push("closing", told),
    }
}

/// Appends a reply to an update: its code, the item, and the rule.
fn push_update(alloc: Global, reply: &UpdateReply, told: &mut Vec<u8>) -> Result<(), AllocError> {
    push(reply.rcode().text(), told)?;
    match reply {
        UpdateReply::NoError | UpdateReply::NotAuth => Ok(()),
        UpdateReply::NotZone(place) => push_place(alloc, *place, told),
        UpdateReply::Refused { place, by } => {
            push_place(alloc, *place, told)?;
            push(" by ", told)?;
            push_rule(by, told)
        }
        UpdateReply::Failed(failed) => {
            push(&format!(in alloc; " prerequisites {}", failed.item)?, told)
        }
    }
}

/// Appends a line for each delegation: the child, and its servers with what there is of their glue.
fn push_delegations(
    alloc: Global,
    delegations: &[Delegation],
    told: &mut Vec<u8>,
) -> Result<(), AllocError> {
    for delegation in delegations {
        push_line(&delegation.child.text(alloc)?, told)?;
        for server in &delegation.servers {
            push_server(alloc, server, told)?;
        }
    }
    Ok(())
}

fn push_server(
    alloc: Global,
    server: &DelegatedServer,
    told: &mut Vec<u8>,
) -> Result<(), AllocError> {
    let glue = match server.glue {
        Glue::Outside => "outside",
        Glue::Listed => "listed",
        Glue::Unlisted => "unlisted",
    };
    let name = server.name.text(alloc)?;
    push(&format!(in alloc; " {name} {glue}")?, told)
}

/// Appends lines of records after a sign.
fn push_lines(
    alloc: Global,
    sign: &str,
    lines: &RecordLines,
    told: &mut Vec<u8>,
) -> Result<(), AllocError> {
    for line in lines.text().lines() {
        push_line(&format!(in alloc; "{sign}{line}")?, told)?;
    }
    Ok(())
}

/// Appends changes: a line with the number of each, and its records after their signs.
fn push_changes(
    alloc: Global,
    changes: &[NumberedChange],
    told: &mut Vec<u8>,
) -> Result<(), AllocError> {
    for change in changes {
        push_line(&format!(in alloc; "change {}", change.number)?, told)?;
        push_lines(alloc, "- ", &change.change.removed, told)?;
        push_lines(alloc, "+ ", &change.change.added, told)?;
    }
    Ok(())
}

fn push_right(right: &Right, told: &mut Vec<u8>) -> Result<(), AllocError> {
    match right {
        Right::Granted(id) => {
            push("granted by ", told)?;
            told.extend_from_slice(id.as_bytes())
        }
        Right::Denied(by) => {
            push("denied by ", told)?;
            push_rule(by, told)
        }
    }
}

/// What failed in a step.
fn cause_text(fault: StepFault) -> &'static str {
    match fault.cause() {
        TableFault::Store => "the store failed",
        TableFault::NoMemory => "out of memory",
    }
}

/// Appends what was read.
fn push_reading(alloc: Global, reading: &Reading, told: &mut Vec<u8>) -> Result<(), AllocError> {
    match reading {
        Reading::Records(records) => push_records(alloc, "", records, told),
        Reading::File { origin, records } => push_file(alloc, origin, records, told),
        Reading::Delegations(delegations) => push_delegations(alloc, delegations, told),
        Reading::Changes(changes) => push_changes(alloc, changes, told),
        Reading::Right(right) => push_right(right, told),
    }
}

/// Appends a reply.
fn push_reply(alloc: Global, reply: &Reply, told: &mut Vec<u8>) -> Result<(), AllocError> {
    match reply {
        Reply::Update(reply) => push_update(alloc, reply, told),
        Reply::IdReused => push("the identifier is taken", told),
        Reply::Servfail(fault) => push(cause_text(*fault), told),
        Reply::NotAuth => push("no zone", told),
        Reply::NotZone => push("outside the zone", told),
        Reply::Read(reading) => push_reading(alloc, reading, told),
    }
}

/// A reply in words: `nothing`, where it has no record, delegation or change.
pub fn reply_text(alloc: Global, reply: &Reply) -> Result<Vec<u8>, AllocError> {
    let mut told = Vec::new(alloc);
    push_reply(alloc, reply, &mut told)?;
    if told.is_empty() {
        push("nothing", &mut told)?;
    }
    Ok(told)
}
