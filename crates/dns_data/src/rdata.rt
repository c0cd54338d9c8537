//! The data of records.

ghost use Rattle.std.specs.Prelude.{◌≡◌, IfOk};

use crate::ds::Digest;
use crate::invariants::reveal_rdata;
use crate::record_type::RecordType;
use crate::soa::Soa;
use crate::strings::Strings;
use dns_names::Name;
use std::alloc::{AllocError, Global};
use std::net::{Ipv4Addr, Ipv6Addr};

/// The data of a record, a variant for each type that is kept.
#[derive(PartialEq, Eq, Drop)]
pub enum Data {
    /// An IPv4 address (RFC 1035 section 3.4.1).
    A(Ipv4Addr),
    /// A name server (RFC 1035 section 3.3.11).
    Ns(Name),
    /// The canonical name of an alias (RFC 1035 section 3.3.1).
    Cname(Name),
    /// The start of a zone (RFC 1035 section 3.3.13).
    Soa(Soa),
    /// Another place in the name space (RFC 1035 section 3.3.12).
    Ptr(Name),
    /// A mail exchange (RFC 1035 section 3.3.9).
    Mx {
        /// Lower is preferred.
        preference: u16,
        exchange: Name,
    },
    /// Text (RFC 1035 section 3.3.14).
    Txt(Strings),
    /// An IPv6 address (RFC 3596 section 2.2).
    Aaaa(Ipv6Addr),
    /// A server of a service (RFC 2782).
    Srv {
        /// Lower is asked first.
        priority: u16,
        weight: u16,
        port: u16,
        target: Name,
    },
    /// The key that the zone below signs its keys with (RFC 4034 section 5.1).
    Ds {
        key_tag: u16,
        algorithm: u8,
        digest_type: u8,
        digest: Digest,
    },
}

impl Data {
    ghost use Rattle.dns_data.specs.Rdata.{type_of, IsRdata};

    /// The type of record that has such data.
    pub fn record_type(&self) -> RecordType
        ensures value { result ≡ type_of self.now }
        // What all data are.
        ensures rdata { IsRdata self.now }
    {
        reveal_rdata(self);
        match self {
            Data::A(_) => RecordType::A,
            Data::Ns(_) => RecordType::Ns,
            Data::Cname(_) => RecordType::Cname,
            Data::Soa(_) => RecordType::Soa,
            Data::Ptr(_) => RecordType::Ptr,
            Data::Mx { .. } => RecordType::Mx,
            Data::Txt(_) => RecordType::Txt,
            Data::Aaaa(_) => RecordType::Aaaa,
            Data::Srv { .. } => RecordType::Srv,
            Data::Ds { .. } => RecordType::Ds,
        }
    }

    /// Equal data in memory of their own. The only error is out of memory.
    pub fn try_copy(&self, alloc: Global) -> Result<Data, AllocError>
        ensures { IfOk result (λ copy. copy ≡ self.now) }
    {
        match self {
            Data::A(address) => Ok(Data::A(*address)),
            Data::Ns(name) => name.try_copy(alloc).map(Data::Ns),
            Data::Cname(name) => name.try_copy(alloc).map(Data::Cname),
            Data::Soa(soa) => soa.try_copy(alloc).map(Data::Soa),
            Data::Ptr(name) => name.try_copy(alloc).map(Data::Ptr),
            Data::Mx {
                preference,
                exchange,
            } => Ok(Data::Mx {
                preference: *preference,
                exchange: exchange.try_copy(alloc)?,
            }),
            Data::Txt(strings) => strings.try_copy(alloc).map(Data::Txt),
            Data::Aaaa(address) => Ok(Data::Aaaa(*address)),
            Data::Srv {
                priority,
                weight,
                port,
                target,
            } => Ok(Data::Srv {
                priority: *priority,
                weight: *weight,
                port: *port,
                target: target.try_copy(alloc)?,
            }),
            Data::Ds {
                key_tag,
                algorithm,
                digest_type,
                digest,
            } => Ok(Data::Ds {
                key_tag: *key_tag,
                algorithm: *algorithm,
                digest_type: *digest_type,
                digest: digest.try_copy(alloc)?,
            }),
        }
    }
}
