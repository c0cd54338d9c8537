//! Delegations (RFC 1034 section 4.2.1).

ghost use Rattle.std.specs.Prelude.{◌≡◌, [], ◌∷◌, ◌++◌, ℕ, map, IfOk};
ghost use Rattle.std.specs.List.{list_any, flat_map};
ghost use Rattle.zone_core.specs.Faults.{GivesDelegation};
ghost use Rattle.zone_core.specs.Delegations.{is_below, address_data, needs_glue, lacks_glue, glue_deletions, server_addition, address_addition, glue_additions, delegation_operations, delegation_of};

use crate::faults::DelegationFault;
use crate::update::{Operation, Update};
use dns_data::{Data, Record, RecordType, Ttl};
use dns_names::Name;
use std::alloc::{AllocError, Global};
use std::net::IpAddr;

/// A server of a child zone, and its addresses. Those of a server that is not within the child are ignored.
#[derive(Drop)]
pub struct ChildServer {
    pub name: Name,
    pub addresses: Vec<IpAddr>,
}

/// What makes a name below the origin the top of a zone of its own: its servers, with the TTL of all records that are added.
#[derive(Drop)]
pub struct DelegationRequest {
    pub child: Name,
    pub ttl: Ttl,
    pub servers: Vec<ChildServer>,
}

/// The update that makes a delegation in a zone of this origin. It deletes the NS set of the child, and the A and AAAA sets of
/// those of the servers that are within the child; then it adds an NS for each server, and an A or AAAA for each address of
/// those (their glue, RFC 1034 section 4.2.1), in the order of the request. Other glue stays, and so does a DS.
///
/// The refusals, of which the first is answered: `NotBelowOrigin`, `NoServer`, `GlueMissing`, `TooManyItems` above 256
/// operations. `NoMemory` comes at the growth that was refused.
pub fn delegation_update(
    alloc: Global,
    origin: &Name,
    request: &DelegationRequest,
) -> Result<Update, DelegationFault>
    ensures { GivesDelegation (λ update. update) result (delegation_of origin.now request.now) }
{
    if !is_below(&request.child, origin) {
        return Err(DelegationFault::NotBelowOrigin);
    }
    if request.servers.is_empty() {
        return Err(DelegationFault::NoServer);
    }
    if some_lacks_glue(&request.child, &request.servers) {
        return Err(DelegationFault::GlueMissing);
    }
    let operations = delegation_operations(alloc, request)?;
    match Update::build(Vec::new(alloc), operations) {
        Ok(update) => Ok(update),
        Err(_) => Err(DelegationFault::TooManyItems),
    }
}

/// Whether a name is below another: within it, and not equal.
pub fn is_below(name: &Name, top: &Name) -> bool
    ensures { result ≡ is_below name.now top.now }
{
    name.is_within(top) && name != top
}

/// Whether a server is within the child.
fn needs_glue(child: &Name, server: &ChildServer) -> bool
    ensures { result ≡ needs_glue child.now server.now }
{
    server.name.is_within(child)
}

/// Whether a server is within the child and has no address.
fn lacks_glue(child: &Name, server: &ChildServer) -> bool
    ensures { result ≡ lacks_glue child.now server.now }
{
    needs_glue(child, server) && server.addresses.is_empty()
}

/// Whether some server is within the child and has no address.
fn some_lacks_glue(child: &Name, servers: &[ChildServer]) -> bool
    ensures { result ≡ list_any (lacks_glue child.now) servers.now }
{
    servers.iter().any(|server| lacks_glue(child, server))
}

/// Appends the deletion of a set. The only error is out of memory.
fn push_deletion(
    alloc: Global,
    operations: &mut Vec<Operation>,
    name: &Name,
    record_type: RecordType,
) -> Result<(), AllocError>
    ensures { IfOk result (λ _. operations.new.items ≡ operations.old.items ++ Operation.DeleteRrset name.now record_type ∷ []) }
{
    operations.push(Operation::rrset_deletion(alloc, name, record_type)?)?;
    Ok(())
}

/// Appends the operations that delete the glue of a server, if it is within the child.
fn push_glue_deletions(
    alloc: Global,
    operations: &mut Vec<Operation>,
    child: &Name,
    server: &ChildServer,
) -> Result<(), AllocError>
    ensures { IfOk result (λ _. operations.new.items ≡ operations.old.items ++ glue_deletions child.now server.now) }
{
    if needs_glue(child, server) {
        push_deletion(alloc, operations, &server.name, RecordType::A)?;
        push_deletion(alloc, operations, &server.name, RecordType::Aaaa)?;
    }
    Ok(())
}

/// The addition of a server of the child.
fn server_addition(
    alloc: Global,
    child: &Name,
    ttl: Ttl,
    server: &ChildServer,
) -> Result<Operation, AllocError>
    ensures { IfOk result (λ op. op ≡ server_addition child.now ttl server.now) }
{
    Ok(Operation::Add(Record {
        owner: child.try_copy(alloc)?,
        ttl,
        rdata: Data::Ns(server.name.try_copy(alloc)?),
    }))
}

/// The data of an address.
fn address_data(address: IpAddr) -> Data
    ensures { result ≡ address_data address }
{
    match address {
        IpAddr::V4(address) => Data::A(address),
        IpAddr::V6(address) => Data::Aaaa(address),
    }
}

/// The addition of an address.
fn address_addition(
    alloc: Global,
    name: &Name,
    ttl: Ttl,
    address: IpAddr,
) -> Result<Operation, AllocError>
    ensures { IfOk result (λ op. op ≡ address_addition name.now ttl address) }
{
    Ok(Operation::Add(Record {
        owner: name.try_copy(alloc)?,
        ttl,
        rdata: address_data(address),
    }))
}

/// Appends the operations that add addresses.
fn push_addresses(
    alloc: Global,
    operations: &mut Vec<Operation>,
    name: &Name,
    ttl: Ttl,
    addresses: &[IpAddr],
) -> Result<(), AllocError>
    ensures { IfOk result (λ _. operations.new.items ≡ operations.old.items ++ map (address_addition name.now ttl) addresses.now) }
{
    for address in addresses {
        operations.push(address_addition(alloc, name, ttl, *address)?)?;
    }
    Ok(())
}

/// Appends the operations that add the glue of a server, if it is within the child.
fn push_glue(
    alloc: Global,
    operations: &mut Vec<Operation>,
    child: &Name,
    ttl: Ttl,
    server: &ChildServer,
) -> Result<(), AllocError>
    ensures { IfOk result (λ _. operations.new.items ≡ operations.old.items ++ glue_additions child.now ttl server.now) }
{
    if needs_glue(child, server) {
        push_addresses(alloc, operations, &server.name, ttl, &server.addresses)?;
    }
    Ok(())
}

/// Appends the operations that delete the glue of servers.
fn push_all_glue_deletions(
    alloc: Global,
    operations: &mut Vec<Operation>,
    child: &Name,
    servers: &[ChildServer],
) -> Result<(), AllocError>
    ensures { IfOk result (λ _. operations.new.items ≡ operations.old.items ++ flat_map (glue_deletions child.now) servers.now) }
{
    for server in servers {
        push_glue_deletions(alloc, operations, child, server)?;
    }
    Ok(())
}

/// Appends the operations that add servers.
fn push_servers(
    alloc: Global,
    operations: &mut Vec<Operation>,
    child: &Name,
    ttl: Ttl,
    servers: &[ChildServer],
) -> Result<(), AllocError>
    ensures { IfOk result (λ _. operations.new.items ≡ operations.old.items ++ map (server_addition child.now ttl) servers.now) }
{
    for server in servers {
        operations.push(server_addition(alloc, child, ttl, server)?)?;
    }
    Ok(())
}

/// Appends the operations that add the glue of servers.
fn push_all_glue(
    alloc: Global,
    operations: &mut Vec<Operation>,
    child: &Name,
    ttl: Ttl,
    servers: &[ChildServer],
) -> Result<(), AllocError>
    ensures { IfOk result (λ _. operations.new.items ≡ operations.old.items ++ flat_map (glue_additions child.now ttl) servers.now) }
{
    for server in servers {
        push_glue(alloc, operations, child, ttl, server)?;
    }
    Ok(())
}

/// Appends the operations that add servers, and then those that add their glue.
fn push_additions(
    alloc: Global,
    operations: &mut Vec<Operation>,
    request: &DelegationRequest,
) -> Result<(), AllocError>
    ensures { IfOk result (λ _. operations.new.items ≡ operations.old.items ++ (map (server_addition request.now.child request.now.ttl) request.now.servers.items ++ flat_map (glue_additions request.now.child request.now.ttl) request.now.servers.items)) }
{
    push_servers(
        alloc,
        operations,
        &request.child,
        request.ttl,
        &request.servers,
    )?;
    push_all_glue(
        alloc,
        operations,
        &request.child,
        request.ttl,
        &request.servers,
    )?;
    Ok(())
}

/// The operations that make a delegation.
fn delegation_operations(
    alloc: Global,
    request: &DelegationRequest,
) -> Result<Vec<Operation>, AllocError>
    ensures { IfOk result (λ ops. ops.items ≡ delegation_operations request.now) }
{
    let mut operations = Vec::new(alloc);
    push_deletion(alloc, &mut operations, &request.child, RecordType::Ns)?;
    push_all_glue_deletions(alloc, &mut operations, &request.child, &request.servers)?;
    push_additions(alloc, &mut operations, request)?;
    Ok(operations)
}
