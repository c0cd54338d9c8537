//! The servers of a delegation.

ghost use Rattle.std.specs.Prelude.{◌≡◌, ◌==◌, map, IfOk};
ghost use Rattle.std.specs.List.{list_any};
ghost use Rattle.serde_json.specs.View.{view, items_view};
ghost use Rattle.wire_json.specs.Faults.{Gives};
ghost use Rattle.wire_json.specs.Bodies.{has_colon, SpellsAddress, IsAddressBody, IsServerBody, AreItems};
ghost use Rattle.wire_json.specs.Delegating.{server_of};
ghost use Rattle.wire_json.specs.Reading.{ipv4_in, ipv6_in, address_of, address_in, server_in, each};

use crate::body_fault::BodyFault;
use crate::field::Field;
use crate::field_values::read_name;
use crate::value::{check_fields, read_items};
use serde_json::Value;
use std::alloc::Global;
use std::net::{IpAddr, Ipv4Addr, Ipv6Addr};
use zone_core::ChildServer;

/// Whether a text has a colon.
fn has_colon(text: &[u8]) -> bool
    ensures { result ≡ has_colon text.now }
{
    text.iter().any(|octet| *octet == b':')
}

/// The IPv6 address of a text.
fn read_ipv6(text: &[u8]) -> Result<IpAddr, BodyFault>
    ensures { Gives (λ address. address) result (ipv6_in text.now) }
{
    match Ipv6Addr::parse_ascii(text) {
        Ok(address) => Ok(IpAddr::V6(address)),
        Err(_) => Err(BodyFault::BadField),
    }
}

/// The IPv4 address of a text.
fn read_ipv4(text: &[u8]) -> Result<IpAddr, BodyFault>
    ensures { Gives (λ address. address) result (ipv4_in text.now) }
{
    match Ipv4Addr::parse_ascii(text) {
        Ok(address) => Ok(IpAddr::V4(address)),
        Err(_) => Err(BodyFault::BadField),
    }
}

/// The address of a text: with a colon an IPv6 address, and else an IPv4 address.
fn address_of(text: &[u8]) -> Result<IpAddr, BodyFault>
    ensures { Gives (λ address. address) result (address_of text.now) }
{
    if has_colon(text) {
        read_ipv6(text)
    } else {
        read_ipv4(text)
    }
}

/// An address.
fn read_address(value: &Value) -> Result<IpAddr, BodyFault>
    ensures { Gives (λ address. address) result (address_in (view value.now)) }
{
    let text = value.as_str().ok_or(BodyFault::BadField)?;
    address_of(text.as_bytes())
}

/// Addresses, one after the other.
#[tactic(auto, using(crate::proofs::ListLemmas::read_more, crate::proofs::ListLemmas::read_stop, crate::proofs::ListLemmas::read_done))]
fn read_addresses(alloc: Global, items: &[Value]) -> Result<Vec<IpAddr>, BodyFault>
    ensures { Gives (λ addresses. addresses.items) result (each address_in (items_view items.now)) }
{
    let mut addresses = Vec::new(alloc);
    for item in items {
        addresses.push(read_address(item)?)?;
    }
    Ok(addresses)
}

/// A server and its addresses.
fn read_server(alloc: Global, value: &Value) -> Result<ChildServer, BodyFault>
    ensures exact { Gives server_of result (server_in (view value.now)) }
    ensures found { IfOk result (λ server. IsServerBody (server_of server) (view value.now)) }
{
    let fields = [Field::Name, Field::Addresses];
    check_fields(value, &fields, &fields)?;
    let name = read_name(alloc, value, Field::Name)?;
    let items = read_items(value, Field::Addresses)?;
    let addresses = read_addresses(alloc, items)?;
    Ok(ChildServer { name, addresses })
}

/// Servers, one after the other.
#[tactic(auto, using(crate::proofs::ListLemmas::read_stop, crate::proofs::ListLemmas::read_done, crate::proofs::ListLemmas::found_done))]
pub(crate) fn read_servers(alloc: Global, items: &[Value]) -> Result<Vec<ChildServer>, BodyFault>
    ensures exact { Gives (λ servers. map server_of servers.items) result (each server_in (items_view items.now)) }
    ensures found { IfOk result (λ servers. AreItems IsServerBody (map server_of servers.items) (items_view items.now)) }
{
    let mut servers = Vec::new(alloc);
    for item in items {
        servers.push(read_server(alloc, item)?)?;
    }
    Ok(servers)
}
