//! Calls of the office.

use anyhow::{Result, anyhow, bail};
use dns_data::{RecordType, Ttl};
use dns_names::Name;
use grant_policy::{Action, Identifier};
use office_model::{Call, Query, Request};
use std::alloc::Global;
use std::net::IpAddr;
use test_rows::{Row, word};
use update_lines::read_items;
use zone_core::{ChildServer, DelegationRequest, Update, delegation_update};

/// The absolute name that a text spells.
pub fn name(alloc: Global, text: &[u8]) -> Result<Name> {
    Ok(Name::read_absolute(alloc, text)?)
}

/// The identifier that a text spells.
pub fn identifier(alloc: Global, text: &[u8]) -> Result<Identifier> {
    Ok(Identifier::read(alloc, text)?)
}

/// The call of a row.
pub fn call_of(alloc: Global, row: &Row<'_>) -> Result<Call> {
    call(alloc, row.verb, &row.text, &row.body)
}

/// The call of a verb, of what stands after it, and of the lines below.
pub fn call(alloc: Global, verb: &str, text: &[u8], body: &[u8]) -> Result<Call> {
    let (caller, rest) = word(text);
    Ok(Call {
        caller: identifier(alloc, caller)?,
        request: request_of(alloc, verb, rest, body)?,
    })
}

fn request_of(alloc: Global, verb: &str, text: &[u8], body: &[u8]) -> Result<Request> {
    match verb {
        "update" => update(alloc, text, body),
        "delegate" => delegation(alloc, text, body),
        "rights" => rights(alloc, text),
        "changes" => changes(alloc, text),
        "list-within" => list_within(alloc, text),
        _ => request_at(verb, name(alloc, text)?),
    }
}

/// What is asked of a whole zone.
fn request_at(verb: &str, origin: Name) -> Result<Request> {
    match verb {
        "list" => Ok(Request::Read(Query::List { origin })),
        "file" => Ok(Request::Read(Query::File { origin })),
        "delegations" => Ok(Request::Read(Query::Delegations { origin })),
        _ => bail!("no such verb"),
    }
}

fn list_within(alloc: Global, text: &[u8]) -> Result<Request> {
    let (origin, top) = word(text);
    Ok(Request::Read(Query::ListWithin {
        origin: name(alloc, origin)?,
        top: name(alloc, top)?,
    }))
}

fn changes(alloc: Global, text: &[u8]) -> Result<Request> {
    let (origin, from) = word(text);
    Ok(Request::Read(Query::Changes {
        from: str::from_utf8(from)?.parse()?,
        origin: name(alloc, origin)?,
    }))
}

fn rights(alloc: Global, text: &[u8]) -> Result<Request> {
    let (owner, rest) = word(text);
    let (record_type, action) = word(rest);
    let action = Action::read(action).ok_or(anyhow!("this is no action"))?;
    Ok(Request::Read(Query::Rights {
        record_type: RecordType::read(record_type)?,
        action,
        name: name(alloc, owner)?,
    }))
}

/// An update of item lines under an identifier.
fn update(alloc: Global, text: &[u8], items: &[u8]) -> Result<Request> {
    let (id, origin) = word(text);
    Ok(Request::Update {
        origin: name(alloc, origin)?,
        id: identifier(alloc, id)?,
        update: read_items(alloc, items)?,
    })
}

/// The update that makes a delegation, under an identifier.
fn delegation(alloc: Global, text: &[u8], body: &[u8]) -> Result<Request> {
    let (id, rest) = word(text);
    let (origin, rest) = word(rest);
    let id = identifier(alloc, id)?;
    let origin = name(alloc, origin)?;
    Ok(Request::Update {
        id,
        update: delegated(alloc, &origin, rest, body)?,
        origin,
    })
}

fn delegated(alloc: Global, origin: &Name, text: &[u8], body: &[u8]) -> Result<Update> {
    let (child, ttl) = word(text);
    let request = DelegationRequest {
        ttl: Ttl::read(ttl)?,
        child: name(alloc, child)?,
        servers: servers(alloc, str::from_utf8(body)?)?,
    };
    Ok(delegation_update(alloc, origin, &request)?)
}

/// The servers of lines, each with its addresses after it.
fn servers(alloc: Global, text: &str) -> Result<Vec<ChildServer>> {
    let mut servers = Vec::new(alloc);
    for line in text.lines() {
        servers.push(server(alloc, line)?)?;
    }
    Ok(servers)
}

fn server(alloc: Global, line: &str) -> Result<ChildServer> {
    let (server, rest) = line.split_once(' ').unwrap_or((line, ""));
    Ok(ChildServer {
        name: name(alloc, server.as_bytes())?,
        addresses: addresses(alloc, rest)?,
    })
}

fn addresses(alloc: Global, text: &str) -> Result<Vec<IpAddr>> {
    let mut addresses = Vec::new(alloc);
    for address in text.split_whitespace() {
        addresses.push(address.parse()?)?;
    }
    Ok(addresses)
}
