//! What is read of bodies.

mod replies;

use crate::bodies::replies::{push_refusals, reply_of};
use crate::refusal::Refusal;
use crate::zones::lines::{push, push_data, push_name, push_operation, push_rrset};
use dns_names::Name;
use std::alloc::{AllocError, Global};
use test_rows::Row;
use wire_json::{BodyFault, UpdateBody, read_delegation, read_update, reply_text};
use zone_core::Prerequisite;

/// Appends the answer to a row of bodies.
pub fn push_body_answer(
    alloc: Global,
    row: &Row<'_>,
    answer: &mut Vec<u8>,
) -> Result<(), AllocError> {
    match answer_to(alloc, row, answer) {
        Ok(()) => Ok(()),
        Err(refusal) => answer.extend_from_slice(refusal.text(alloc)?.as_bytes()),
    }
}

fn answer_to(alloc: Global, row: &Row<'_>, answer: &mut Vec<u8>) -> Result<(), Refusal> {
    match row.verb {
        "update" | "delegation" | "update-size" | "delegation-size" => {
            push_update(alloc, row, answer)
        }
        "refusals" => Ok(push_refusals(row, answer)?),
        "no-memory" => Err(Refusal::Body(BodyFault::NoMemory)),
        _ => push_reply(alloc, row, answer),
    }
}

/// Appends what a row asks of the body that it reads.
fn push_update(alloc: Global, row: &Row<'_>, answer: &mut Vec<u8>) -> Result<(), Refusal> {
    push_of_body(alloc, row.verb, &body_of(alloc, row)?, answer)
}

fn push_of_body(
    alloc: Global,
    verb: &str,
    body: &UpdateBody,
    answer: &mut Vec<u8>,
) -> Result<(), Refusal> {
    match verb {
        "update" | "delegation" => push_body(alloc, body, answer),
        _ => push_size(alloc, body, answer),
    }
}

/// The update or the delegation that a row reads.
fn body_of(alloc: Global, row: &Row<'_>) -> Result<UpdateBody, BodyFault> {
    match row.verb {
        "update" | "update-size" => read_update(alloc, &row.text),
        _ => delegation(alloc, row),
    }
}

/// Appends the body of the reply of a row.
fn push_reply(alloc: Global, row: &Row<'_>, answer: &mut Vec<u8>) -> Result<(), Refusal> {
    let reply = reply_of(alloc, row)?;
    Ok(reply_text(&reply, answer)?)
}

/// The delegation of a row, after the origin of its zone.
fn delegation(alloc: Global, row: &Row<'_>) -> Result<UpdateBody, BodyFault> {
    let (origin, body) = row.split();
    read_delegation(alloc, body, &Name::read_absolute(alloc, origin)?)
}

/// Appends the identifier and the items, each on a line.
fn push_body(alloc: Global, body: &UpdateBody, answer: &mut Vec<u8>) -> Result<(), Refusal> {
    answer.extend_from_slice(body.id.as_bytes())?;
    for test in body.update.prerequisites() {
        push("\n", answer)?;
        push_prerequisite(alloc, test, answer)?;
    }
    for change in body.update.operations() {
        push("\n", answer)?;
        push_operation(alloc, change, answer)?;
    }
    Ok(())
}

/// Appends the identifier, and how many items there are.
fn push_size(alloc: Global, body: &UpdateBody, answer: &mut Vec<u8>) -> Result<(), Refusal> {
    let tests = body.update.prerequisites().len();
    let changes = body.update.operations().len();
    answer.extend_from_slice(body.id.as_bytes())?;
    let size = format!(in alloc; ": {tests} prerequisites, {changes} operations")?;
    push(size.as_str(), answer)
}

fn push_prerequisite(
    alloc: Global,
    test: &Prerequisite,
    answer: &mut Vec<u8>,
) -> Result<(), Refusal> {
    push(test.kind().text(), answer)?;
    push(" ", answer)?;
    match test {
        Prerequisite::RrsetExists { name, record_type }
        | Prerequisite::RrsetAbsent { name, record_type } => {
            push_rrset(alloc, name, *record_type, answer)
        }
        Prerequisite::RrsetEquals { name, rdata } => push_data(alloc, name, rdata, answer),
        Prerequisite::NameUsed(name) | Prerequisite::NameUnused(name) => {
            push_name(alloc, name, answer)
        }
    }
}
