//! Rows of delegations.

use crate::refusal::Refusal;
use crate::zones::lines::{push, push_name, push_operation};
use crate::zones::parsed_rows::{name, servers};
use dns_data::Ttl;
use std::alloc::Global;
use test_rows::{Row, word};
use zone_core::{
    DelegatedServer, Delegation, DelegationRequest, Glue, Update, Zone, cuts, delegation_report,
    delegation_update,
};

/// The update that a row of an origin, a child, a TTL and servers asks for.
fn delegation(alloc: Global, row: &Row<'_>) -> Result<Update, Refusal> {
    let (origin, rest) = row.split();
    let request = request(alloc, rest, &row.body)?;
    Ok(delegation_update(alloc, &name(alloc, origin)?, &request)?)
}

fn request(alloc: Global, text: &[u8], body: &[u8]) -> Result<DelegationRequest, Refusal> {
    let (child, ttl) = word(text);
    let ttl = Ttl::read(ttl)?;
    Ok(DelegationRequest {
        ttl,
        child: name(alloc, child)?,
        servers: servers(alloc, body)?,
    })
}

/// Appends the operations of a delegation.
pub fn push_delegation(alloc: Global, row: &Row<'_>, answer: &mut Vec<u8>) -> Result<(), Refusal> {
    push_operations(alloc, &delegation(alloc, row)?, answer)
}

fn push_operations(alloc: Global, update: &Update, answer: &mut Vec<u8>) -> Result<(), Refusal> {
    if !update.prerequisites().is_empty() {
        push("with prerequisites\n", answer)?;
    }
    for operation in update.operations() {
        push_operation(alloc, operation, answer)?;
        push("\n", answer)?;
    }
    Ok(())
}

/// Appends how many operations a delegation has.
pub fn push_count(alloc: Global, row: &Row<'_>, answer: &mut Vec<u8>) -> Result<(), Refusal> {
    let count = delegation(alloc, row)?.operations().len();
    push(format!(in alloc; "operations: {count}")?.as_str(), answer)
}

fn glue(glue: Glue) -> &'static str {
    match glue {
        Glue::Outside => "outside",
        Glue::Listed => "listed",
        Glue::Unlisted => "unlisted",
    }
}

/// Appends how many cuts a zone has, and its delegations: each child, its servers and their glue.
pub fn push_report(alloc: Global, zone: &Zone, answer: &mut Vec<u8>) -> Result<(), Refusal> {
    push_cuts(alloc, zone, answer)?;
    let report = delegation_report(alloc, zone.origin(), zone.records())?;
    push_delegations(alloc, &report, answer)
}

fn push_cuts(alloc: Global, zone: &Zone, answer: &mut Vec<u8>) -> Result<(), Refusal> {
    let cuts = cuts(alloc, zone.origin(), zone.records())?.len();
    push(format!(in alloc; "cuts: {cuts}")?.as_str(), answer)
}

fn push_delegations(
    alloc: Global,
    delegations: &[Delegation],
    answer: &mut Vec<u8>,
) -> Result<(), Refusal> {
    for delegation in delegations {
        push("\n", answer)?;
        push_name(alloc, &delegation.child, answer)?;
        push_servers(alloc, &delegation.servers, answer)?;
    }
    Ok(())
}

fn push_servers(
    alloc: Global,
    servers: &[DelegatedServer],
    answer: &mut Vec<u8>,
) -> Result<(), Refusal> {
    for server in servers {
        push(" ", answer)?;
        push_name(alloc, &server.name, answer)?;
        push(" ", answer)?;
        push(glue(server.glue), answer)?;
    }
    Ok(())
}
