//! The reverse names of addresses (RFC 1035 section 3.5, RFC 3596 section 2.5).

ghost use Rattle.std.specs.Prelude.{◌≡◌, ◌<◌, List, [], ◌∷◌, ◌++◌, map, reverse, Ok, ℕ, IfOk, codes};
ghost use Rattle.std.specs.List.{flat_map};
ghost use Rattle.std.specs.Char.{digit_char};
ghost use Rattle.std.specs.Net.Addr.{ipv4_octets, ipv6_octets, IsIpv4Addr, IsIpv6Addr};
ghost use Rattle.dns_names.specs.Reading.{absolute_name};
ghost use Rattle.zone_tools.specs.ReverseNames.{ipv4_name, ipv6_name, decimal_text, nibbles_text};

use dns_names::Name;
use itoa::Buffer;
use std::alloc::{AllocError, Global};
use std::net::{Ipv4Addr, Ipv6Addr};

/// The most octets of the text of an IPv4 address's name: four for each octet, and `in-addr.arpa.`.
const IPV4_TEXT_LEN: usize = 29;

/// The octets of the text of an IPv6 address's name: two for each nibble, and `ip6.arpa.`.
const IPV6_TEXT_LEN: usize = 73;

/// The name of an absolute text that is known to be one. The only error is out of memory.
fn name_of(alloc: Global, text: &[u8]) -> Result<Name, AllocError>
    ensures { (name : List (List ℕ)) → absolute_name text.now ≡ Ok name → IfOk result (λ read. read ≡ name) }
{
    match Name::read_absolute(alloc, text) {
        Ok(name) => Ok(name),
        Err(_) => Err(AllocError),
    }
}

/// Appends an octet in decimal, and a dot. The only error is out of memory.
fn push_decimal(text: &mut Vec<u8>, octet: u8) -> Result<(), AllocError>
    ensures { IfOk result (λ _. text.new.items ≡ text.old.items ++ decimal_text octet) }
{
    let mut buffer = Buffer::new();
    text.extend_from_slice(buffer.format(octet).as_bytes())?;
    text.push(b'.')?;
    Ok(())
}

/// The text of the name of an IPv4 address. The only error is out of memory.
fn ipv4_text(alloc: Global, address: Ipv4Addr) -> Result<Vec<u8>, AllocError>
    ensures text { IfOk result (λ text. text.items ≡ flat_map decimal_text (reverse (ipv4_octets address)) ++ codes "in-addr.arpa.") }
    // What all addresses are.
    ensures address { IsIpv4Addr address }
{
    let mut text = Vec::with_capacity(alloc, IPV4_TEXT_LEN)?;
    for octet in address.octets().iter().rev().copied() {
        push_decimal(&mut text, octet)?;
    }
    text.extend_from_slice(b"in-addr.arpa.")?;
    Ok(text)
}

/// The name of an IPv4 address: its octets in decimal, the last first, before `in-addr.arpa` (RFC 1035 section 3.5). The only error
/// is out of memory.
pub(crate) fn ipv4_name(alloc: Global, address: Ipv4Addr) -> Result<Name, AllocError>
    ensures { IfOk result (λ name. name ≡ ipv4_name address) }
{
    let text = ipv4_text(alloc, address)?;
    name_of(alloc, &text)
}

/// A nibble as a hexadecimal digit, in lower case.
fn nibble_char(nibble: u8) -> u8
    requires { nibble < 16 }
    ensures { result ≡ digit_char nibble }
{
    if nibble < 10 {
        b'0' + nibble
    } else {
        b'a' + (nibble - 10)
    }
}

/// The text of an IPv6 address's name. The only error is out of memory.
fn ipv6_text(alloc: Global, address: Ipv6Addr) -> Result<Vec<u8>, AllocError>
    ensures text { IfOk result (λ text. text.items ≡ flat_map nibbles_text (reverse (ipv6_octets address)) ++ codes "ip6.arpa.") }
    // What all addresses are.
    ensures address { IsIpv6Addr address }
{
    let mut text = Vec::with_capacity(alloc, IPV6_TEXT_LEN)?;
    for octet in address.octets().iter().rev().copied() {
        let (low, high) = (nibble_char(octet % 16), nibble_char(octet / 16));
        text.extend_from_slice(&[low, b'.', high, b'.'])?;
    }
    text.extend_from_slice(b"ip6.arpa.")?;
    Ok(text)
}

/// The name of an IPv6 address: its nibbles in hexadecimal, the last first, before `ip6.arpa` (RFC 3596 section 2.5). The only error
/// is out of memory.
pub(crate) fn ipv6_name(alloc: Global, address: Ipv6Addr) -> Result<Name, AllocError>
    ensures { IfOk result (λ name. name ≡ ipv6_name address) }
{
    let text = ipv6_text(alloc, address)?;
    name_of(alloc, &text)
}
