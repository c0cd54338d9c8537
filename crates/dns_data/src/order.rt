//! The order in which records are listed.

ghost use Rattle.std.specs.Prelude.{◌≡◌, ◌≢◌, ◌↔◌, ◌∷◌, ◌++◌, ◌<◌, [], ℕ, List, length, decimal, flat_map};
ghost use Rattle.std.specs.Ordering.{nat_cmp, ordering_then};
ghost use Rattle.std.specs.Cmp.Lexicographic.{slice_cmp};
ghost use Rattle.std.specs.Net.Addr.{ipv4_octets, ipv6_segments};
ghost use Rattle.std.specs.Net.Text.{ipv4_text, hex, groups_text, hex_groups_text};
ghost use Rattle.dns_data.specs.Items.{items_text};
ghost use Rattle.dns_data.specs.Strings.{string_text};
ghost use Rattle.dns_data.specs.Text.{strings_items, data_text};
ghost use Rattle.dns_data.specs.Rdata.{type_of, SameRecord};
ghost use Rattle.dns_data.specs.RecordOrder.{data_order, record_order};

use crate::address_text::{around, ended_group_text, group_text, ipv6_text, longest_zero_run};
use crate::rdata::Data;
use crate::record::Record;
use crate::record_type::RecordType;
use crate::soa::SoaFields;
use crate::strings::Strings;
use crate::text::spelling;
use itoa::Buffer;
use std::cmp::Ordering;
use std::net::{Ipv4Addr, Ipv6Addr};

/// The order of two numbers by the octets of their decimals.
fn cmp_decimals(first: u32, second: u32) -> Ordering
    ensures { result ≡ slice_cmp nat_cmp (decimal first) (decimal second) }
{
    let (mut ours, mut theirs) = (Buffer::new(), Buffer::new());
    let (ours, theirs) = (ours.format(first), theirs.format(second));
    ours.as_bytes().cmp(theirs.as_bytes())
}

/// The order of two IPv4 addresses by their texts. A dot stands before all digits, so the first numbers that differ decide.
fn cmp_ipv4(first: Ipv4Addr, second: Ipv4Addr) -> Ordering
    ensures { result ≡ slice_cmp nat_cmp (ipv4_text (ipv4_octets first)) (ipv4_text (ipv4_octets second)) }
{
    let ([a, b, c, d], [e, f, g, h]) = (first.octets(), second.octets());
    if a != e {
        return cmp_decimals(u32::from(a), u32::from(e));
    }
    if b != f {
        return cmp_decimals(u32::from(b), u32::from(f));
    }
    if c != g {
        return cmp_decimals(u32::from(c), u32::from(g));
    }
    cmp_decimals(u32::from(d), u32::from(h))
}

/// The order of two groups that differ, by their texts with a colon after each. What stands after the colons does not count.
fn cmp_ended_group(first: u16, second: u16) -> Ordering
    requires { first ≢ second }
    ensures decides { (u v : List ℕ) → result ≡ slice_cmp nat_cmp (hex first ++ 58 ∷ u) (hex second ++ 58 ∷ v) }
    ensures differs { result ≢ Ordering.Equal }
{
    ended_group_text(first)
        .as_slice()
        .cmp(ended_group_text(second).as_slice())
}

/// The order of as many groups of two addresses, by their texts with a colon after each: the first groups that differ decide.
fn cmp_ended_groups(first: &[u16], second: &[u16]) -> Ordering
    requires { length first.now ≡ length second.now }
    ensures { (u v : List ℕ) → ordering_then result (slice_cmp nat_cmp u v) ≡ slice_cmp nat_cmp (flat_map (λ s. hex s ++ 58 ∷ []) first.now ++ u) (flat_map (λ s. hex s ++ 58 ∷ []) second.now ++ v) }
{
    let (mut ours, mut theirs) = (first, second);
    loop {
        match (ours.split_first(), theirs.split_first()) {
            (Some((our, _)), Some((their, _))) if our != their => {
                return cmp_ended_group(*our, *their);
            }
            (Some((_, our_rest)), Some((_, their_rest))) => {
                ours = our_rest;
                theirs = their_rest;
            }
            _ => return Ordering::Equal,
        }
    }
}

/// The order of as many groups of two addresses, by their texts with colons between them.
fn cmp_groups(first: &[u16], second: &[u16]) -> Ordering
    requires { length first.now ≡ length second.now }
    ensures { result ≡ slice_cmp nat_cmp (groups_text first.now) (groups_text second.now) }
{
    match (first.split_last(), second.split_last()) {
        (Some((our, ours)), Some((their, theirs))) => {
            let last = group_text(*our)
                .as_slice()
                .cmp(group_text(*their).as_slice());
            cmp_ended_groups(ours, theirs).then(last)
        }
        _ => Ordering::Equal,
    }
}

/// The order of two IPv6 addresses by their texts. Where the same run of zeros is left out of both, their texts have groups at the
/// same places, and the first that differ decide.
fn cmp_ipv6(first: Ipv6Addr, second: Ipv6Addr) -> Ordering
    ensures { result ≡ slice_cmp nat_cmp (hex_groups_text (ipv6_segments first)) (hex_groups_text (ipv6_segments second)) }
{
    let (ours, theirs) = (first.segments(), second.segments());
    let (start, len) = longest_zero_run(&ours);
    if longest_zero_run(&theirs) != (start, len) {
        return ipv6_text(first)
            .as_slice()
            .cmp(ipv6_text(second).as_slice());
    }
    if len < 2 {
        return cmp_groups(&ours, &theirs);
    }
    let (our_front, our_back) = around(&ours, start, len);
    let (their_front, their_back) = around(&theirs, start, len);
    cmp_ended_groups(our_front, their_front).then(cmp_groups(our_back, their_back))
}

/// The order of two character-strings with a quote after each, by their texts.
fn cmp_strings(first: &[u8], second: &[u8]) -> Ordering
    ensures { result ≡ slice_cmp nat_cmp (string_text first.now ++ 34 ∷ []) (string_text second.now ++ 34 ∷ []) }
{
    let (mut ours, mut theirs) = (first, second);
    loop {
        match (ours.split_first(), theirs.split_first()) {
            (None, None) => return Ordering::Equal,
            (None, Some((their, _))) => return b"\"".as_slice().cmp(spelling(*their).as_slice()),
            (Some((our, _)), None) => return spelling(*our).as_slice().cmp(b"\"".as_slice()),
            (Some((our, _)), Some((their, _))) if our != their => {
                return spelling(*our).as_slice().cmp(spelling(*their).as_slice());
            }
            (Some((_, our_rest)), Some((_, their_rest))) => {
                ours = our_rest;
                theirs = their_rest;
            }
        }
    }
}

/// The order of the data of two TXT records by their texts.
fn cmp_txt(first: &Strings, second: &Strings) -> Ordering
    ensures { result ≡ slice_cmp nat_cmp (items_text (strings_items first.now)) (items_text (strings_items second.now)) }
{
    let (mut ours, mut theirs) = (first.as_slice(), second.as_slice());
    let mut order = Ordering::Equal;
    while order.is_eq() {
        match (ours.split_first(), theirs.split_first()) {
            (None, None) => return Ordering::Equal,
            (None, Some(_)) => return Ordering::Less,
            (Some(_), None) => return Ordering::Greater,
            (Some((our, our_rest)), Some((their, their_rest))) => {
                order = cmp_strings(our.octets(), their.octets());
                ours = our_rest;
                theirs = their_rest;
            }
        }
    }
    order
}

/// The order of the data of two SOA records by their texts.
fn cmp_soa(first: &SoaFields, second: &SoaFields) -> Ordering
    ensures { result ≡ slice_cmp nat_cmp (data_text (Data.Soa first.now)) (data_text (Data.Soa second.now)) }
{
    first
        .mname
        .cmp_text(&second.mname)
        .then(first.rname.cmp_text(&second.rname))
        .then(cmp_decimals(first.serial.0, second.serial.0))
        .then(cmp_decimals(first.refresh.0, second.refresh.0))
        .then(cmp_decimals(first.retry.0, second.retry.0))
        .then(cmp_decimals(first.expire.0, second.expire.0))
        .then(cmp_decimals(first.minimum.0, second.minimum.0))
}

/// The order of the data of two MX records by their texts.
fn cmp_mx(first: &Data, second: &Data) -> Ordering
    requires first { type_of first.now ≡ RecordType.Mx }
    requires second { type_of second.now ≡ RecordType.Mx }
    ensures { result ≡ slice_cmp nat_cmp (data_text first.now) (data_text second.now) }
{
    let (
        Data::Mx {
            preference,
            exchange,
        },
        Data::Mx {
            preference: other_preference,
            exchange: other_exchange,
        },
    ) = (first, second)
    else {
        unreachable!()
    };
    cmp_decimals(u32::from(*preference), u32::from(*other_preference)).then(exchange.cmp_text(
        other_exchange,
    ))
}

/// The order of the data of two SRV records by their texts.
fn cmp_srv(first: &Data, second: &Data) -> Ordering
    requires first { type_of first.now ≡ RecordType.Srv }
    requires second { type_of second.now ≡ RecordType.Srv }
    ensures { result ≡ slice_cmp nat_cmp (data_text first.now) (data_text second.now) }
{
    let (
        Data::Srv {
            priority,
            weight,
            port,
            target,
        },
        Data::Srv {
            priority: other_priority,
            weight: other_weight,
            port: other_port,
            target: other_target,
        },
    ) = (first, second)
    else {
        unreachable!()
    };
    cmp_decimals(u32::from(*priority), u32::from(*other_priority))
        .then(cmp_decimals(u32::from(*weight), u32::from(*other_weight)))
        .then(cmp_decimals(u32::from(*port), u32::from(*other_port)))
        .then(target.cmp_text(other_target))
}

/// The order of the data of two DS records by their texts. Digits stand in the order of what they say.
fn cmp_ds(first: &Data, second: &Data) -> Ordering
    requires first { type_of first.now ≡ RecordType.Ds }
    requires second { type_of second.now ≡ RecordType.Ds }
    ensures { result ≡ slice_cmp nat_cmp (data_text first.now) (data_text second.now) }
{
    let (
        Data::Ds {
            key_tag,
            algorithm,
            digest_type,
            digest,
        },
        Data::Ds {
            key_tag: other_key_tag,
            algorithm: other_algorithm,
            digest_type: other_digest_type,
            digest: other_digest,
        },
    ) = (first, second)
    else {
        unreachable!()
    };
    cmp_decimals(u32::from(*key_tag), u32::from(*other_key_tag))
        .then(cmp_decimals(u32::from(*algorithm), u32::from(*other_algorithm)))
        .then(cmp_decimals(u32::from(*digest_type), u32::from(*other_digest_type)))
        .then(digest.octets().cmp(other_digest.octets()))
}

/// The order of data of one type by the octets of their texts.
fn cmp_rdata(first: &Data, second: &Data) -> Ordering
    requires { type_of first.now ≡ type_of second.now }
    ensures { result ≡ slice_cmp nat_cmp (data_text first.now) (data_text second.now) }
{
    match (first, second) {
        (Data::A(first), Data::A(second)) => cmp_ipv4(*first, *second),
        (Data::Ns(first), Data::Ns(second))
        | (Data::Cname(first), Data::Cname(second))
        | (Data::Ptr(first), Data::Ptr(second)) => first.cmp_text(second),
        (Data::Soa(first), Data::Soa(second)) => cmp_soa(first.fields(), second.fields()),
        (Data::Mx { .. }, Data::Mx { .. }) => cmp_mx(first, second),
        (Data::Txt(first), Data::Txt(second)) => cmp_txt(first, second),
        (Data::Aaaa(first), Data::Aaaa(second)) => cmp_ipv6(*first, *second),
        (Data::Srv { .. }, Data::Srv { .. }) => cmp_srv(first, second),
        (Data::Ds { .. }, Data::Ds { .. }) => cmp_ds(first, second),
        _ => unreachable!(),
    }
}

/// The order of data: by their type, SOA first and then by number, and then by the octets of their texts. No memory is
/// taken.
pub fn data_order(first: &Data, second: &Data) -> Ordering
    ensures order { result ≡ data_order first.now second.now }
    // Data tie exactly where they are the same.
    ensures same { (result ≡ Ordering.Equal) ↔ (first.now ≡ second.now) }
{
    let by_type = first.record_type().rank().cmp(&second.record_type().rank());
    match by_type {
        Ordering::Equal => cmp_rdata(first, second),
        order => order,
    }
}

/// The order in which records are listed: by owner in canonical order (RFC 4034 section 6.1), at one owner SOA first and
/// then by type number, and then by the octets of the data's text. No memory is taken.
pub fn record_order(first: &Record, second: &Record) -> Ordering
    ensures order { result ≡ record_order first.now second.now }
    // Records tie exactly where they are the same.
    ensures same { (result ≡ Ordering.Equal) ↔ SameRecord first.now second.now }
{
    match first.owner.cmp(&second.owner) {
        Ordering::Equal => data_order(&first.rdata, &second.rdata),
        order => order,
    }
}
