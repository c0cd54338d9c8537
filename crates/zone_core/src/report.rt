//! The delegations in a zone: where it is cut (RFC 2181 section 6), and the servers of each child.

ghost use Rattle.std.specs.Prelude.{◌≡◌, ◌++◌, ◌&&◌, ◌==◌, map, IfOk};
ghost use Rattle.std.specs.List.{flat_map};
ghost use Rattle.dns_data.specs.declared.record_type.RecordType.TheVariants.{Ns};
ghost use Rattle.zone_core.specs.Sets.{key_of, rank_of, InOrder};
ghost use Rattle.zone_core.specs.Delegations.{is_below, AreNamesOf, cut_owner, cut_owners, server_in, servers_in, server_names, glue_of, server_of, IsDelegation, AreDelegations, report_of, report};

use crate::delegation::is_below;
use crate::ordered_names::ordered;
use crate::rows::{has_set, has_type, of_set};
use dns_data::{Data, Record, RecordType};
use dns_names::Name;
use std::alloc::{AllocError, Global};

/// What there is of a server's addresses, its glue (RFC 1034 section 4.2.1).
#[derive(Clone, Copy, PartialEq, Eq)]
pub enum Glue {
    /// The server is not within the child, and needs none.
    Outside,
    /// An A or AAAA of the server is there.
    Listed,
    /// The server is within the child, and has no such record.
    Unlisted,
}

/// A server of a child zone, and what there is of its glue.
#[derive(Drop)]
pub struct DelegatedServer {
    pub name: Name,
    pub glue: Glue,
}

/// A child zone and its servers, in canonical order.
#[derive(Drop)]
pub struct Delegation {
    pub child: Name,
    pub servers: Vec<DelegatedServer>,
}

/// Whether a zone of this origin is cut at the owner of a record.
fn is_cut(origin: &Name, rr: &Record) -> bool
    ensures { result ≡ (((key_of rr.now).1 == rank_of Ns) && is_below rr.now.owner origin.now) }
{
    has_type(rr, RecordType::Ns) && is_below(&rr.owner, origin)
}

/// Appends the owner of a record, if a zone of this origin is cut there.
fn push_cut(
    alloc: Global,
    names: &mut Vec<Name>,
    origin: &Name,
    rr: &Record,
) -> Result<(), AllocError>
    ensures { IfOk result (λ _. names.new.items ≡ names.old.items ++ cut_owner origin.now rr.now) }
{
    if is_cut(origin, rr) {
        names.push(rr.owner.try_copy(alloc)?)?;
    }
    Ok(())
}

/// The cuts that records of a zone of this origin make: the names below the origin that own an NS (RFC 2181 section 6), in
/// canonical order. The only error is out of memory.
pub fn cuts(alloc: Global, origin: &Name, records: &[Record]) -> Result<Vec<Name>, AllocError>
    ensures { IfOk result (λ names. AreNamesOf names.items (cut_owners origin.now records.now)) }
{
    let mut names = Vec::new(alloc);
    for record in records {
        push_cut(alloc, &mut names, origin, record)?;
    }
    ordered(names)
}

/// Appends the server that data name, if they are those of an NS.
fn push_server(alloc: Global, names: &mut Vec<Name>, rdata: &Data) -> Result<(), AllocError>
    ensures { IfOk result (λ _. names.new.items ≡ names.old.items ++ server_in rdata.now) }
{
    if let Data::Ns(server) = rdata {
        names.push(server.try_copy(alloc)?)?;
    }
    Ok(())
}

/// The servers that the NS records among some name, in canonical order. The only error is out of memory.
pub fn servers(alloc: Global, records: &[Record]) -> Result<Vec<Name>, AllocError>
    ensures { IfOk result (λ names. AreNamesOf names.items (servers_in records.now)) }
{
    let mut names = Vec::new(alloc);
    for record in records {
        push_server(alloc, &mut names, &record.rdata)?;
    }
    ordered(names)
}

/// The servers of a child among records in record order.
fn server_names(alloc: Global, records: &[Record], child: &Name) -> Result<Vec<Name>, AllocError>
    requires { InOrder records.now }
    ensures { IfOk result (λ names. AreNamesOf names.items (server_names child.now records.now)) }
{
    servers(alloc, of_set(records, child, RecordType::Ns))
}

/// What there is of a server's glue among records in record order.
fn glue_of(records: &[Record], child: &Name, server: &Name) -> Glue
    requires { InOrder records.now }
    ensures { result ≡ glue_of records.now child.now server.now }
{
    if !server.is_within(child) {
        Glue::Outside
    } else if has_set(records, server, RecordType::A)
        || has_set(records, server, RecordType::Aaaa)
    {
        Glue::Listed
    } else {
        Glue::Unlisted
    }
}

/// A server of a child, with its glue.
fn server_of(
    alloc: Global,
    records: &[Record],
    child: &Name,
    server: &Name,
) -> Result<DelegatedServer, AllocError>
    requires { InOrder records.now }
    ensures { IfOk result (λ s. s ≡ server_of records.now child.now server.now) }
{
    Ok(DelegatedServer {
        name: server.try_copy(alloc)?,
        glue: glue_of(records, child, server),
    })
}

/// The servers of a child, with their glue.
fn servers_of(
    alloc: Global,
    records: &[Record],
    child: &Name,
    names: &[Name],
) -> Result<Vec<DelegatedServer>, AllocError>
    requires { InOrder records.now }
    ensures { IfOk result (λ servers. servers.items ≡ map (server_of records.now child.now) names.now) }
{
    let mut servers = Vec::with_capacity(alloc, names.len())?;
    for name in names {
        servers.push(server_of(alloc, records, child, name)?)?;
    }
    Ok(servers)
}

/// The delegation of a child.
fn delegation_of(alloc: Global, records: &[Record], child: &Name) -> Result<Delegation, AllocError>
    requires { InOrder records.now }
    ensures child { IfOk result (λ d. d.child ≡ child.now) }
    ensures servers { IfOk result (IsDelegation records.now) }
{
    let names = server_names(alloc, records, child)?;
    Ok(Delegation {
        child: child.try_copy(alloc)?,
        servers: servers_of(alloc, records, child, &names)?,
    })
}

/// The delegations that records of a zone of this origin make, in the canonical order of the children: each with its servers
/// in that order, and what there is of their glue among these records. The records stand in record order, as those of a zone
/// do, and what is left of them. The only error is out of memory.
pub fn delegation_report(
    alloc: Global,
    origin: &Name,
    records: &[Record],
) -> Result<Vec<Delegation>, AllocError>
    requires { InOrder records.now }
    ensures found { IfOk result (λ ds. AreDelegations origin.now records.now ds.items) }
    // The same by a definition that computes.
    ensures exact { IfOk result (λ ds. map report_of ds.items ≡ report origin.now records.now) }
{
    let children = cuts(alloc, origin, records)?;
    let mut delegations = Vec::with_capacity(alloc, children.len())?;
    for child in &children {
        delegations.push(delegation_of(alloc, records, child)?)?;
    }
    Ok(delegations)
}
