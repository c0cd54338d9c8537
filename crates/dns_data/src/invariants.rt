//! What types say of their values, revealed to proofs. Nothing here does anything when it runs.

ghost use Rattle.std.specs.Prelude.{◌<◌, IfSome, map};
ghost use Rattle.std.specs.List.{AllByRecursion};
ghost use Rattle.std.specs.Option.{option_copied};
ghost use Rattle.std.specs.Net.Addr.{IsIpv4Addr, IsIpv6Addr};
ghost use Rattle.dns_names.specs.Labels.{IsName};
ghost use Rattle.dns_data.specs.Items.{item_of};
ghost use Rattle.dns_data.specs.Rdata.{IsSoaRdata, IsRdata};

use crate::item::Item;
use crate::rdata::Data;
use crate::soa::SoaFields;
use dns_names::Name;
use std::net::{Ipv4Addr, Ipv6Addr};

/// An IPv4 address has four octets.
fn reveal_ipv4(address: Ipv4Addr)
    ensures { IsIpv4Addr address }
{
    let _ = address.octets();
}

/// An IPv6 address has eight segments.
fn reveal_ipv6(address: Ipv6Addr)
    ensures { IsIpv6Addr address }
{
    let _ = address.segments();
}

/// The names of an SOA are names, and its numbers have 32 bits.
fn reveal_soa(soa: &SoaFields)
    ensures { IsSoaRdata soa.now }
{
    let _ = soa.mname.labels();
    let _ = soa.rname.labels();
    let _serial = soa.serial.0;
    let _refresh = soa.refresh.0;
    let _retry = soa.retry.0;
    let _expire = soa.expire.0;
    let _minimum = soa.minimum.0;
}

/// What all data are.
pub(crate) fn reveal_rdata(rdata: &Data)
    ensures { IsRdata rdata.now }
{
    match rdata {
        Data::A(address) => reveal_ipv4(*address),
        Data::Ns(name) | Data::Cname(name) | Data::Ptr(name) => {
            let _ = name.labels();
        }
        Data::Soa(soa) => reveal_soa(soa.fields()),
        Data::Mx {
            preference,
            exchange,
        } => {
            let (_preference, _) = (*preference, exchange.labels());
        }
        Data::Txt(strings) => {
            let _ = strings.as_slice();
        }
        Data::Aaaa(address) => reveal_ipv6(*address),
        Data::Srv {
            priority,
            weight,
            port,
            target,
        } => {
            let (_priority, _weight, _port, _) = (*priority, *weight, *port, target.labels());
        }
        Data::Ds {
            key_tag,
            algorithm,
            digest_type,
            digest,
        } => {
            let (_tag, _algorithm, _type) = (*key_tag, *algorithm, *digest_type);
            let _ = digest.octets();
        }
    }
}

/// A slice of octets has octets.
fn reveal_raw(raw: &[u8])
    ensures { AllByRecursion (λ o. o < 256) raw.now }
{
    let _ = raw;
}

/// Items have octets.
pub(crate) fn reveal_octets(items: &[Item])
    ensures { AllByRecursion (λ item. AllByRecursion (λ o. o < 256) item.raw) (map item_of items.now) }
{
    for item in items {
        reveal_raw(item.raw);
    }
}

/// An origin is a name.
pub(crate) fn reveal_origin(origin: Option<&Name>)
    ensures { IfSome (option_copied origin.entry) IsName }
{
    if let Some(name) = origin {
        let _ = name.labels();
    }
}
