//! Data of records that a caller may add, as examples.

use dns_data::{Data, Item, Record, RecordType, Seconds, Serial, Soa, Ttl, read_data};
use dns_names::Name;
use std::alloc::{AllocError, Global};
use std::net::{Ipv4Addr, Ipv6Addr};
use zone_core::{Zone, serial_add};

/// A name that no zone has (RFC 2606 section 2). The only error is out of memory.
pub(crate) fn name_outside(alloc: Global) -> Result<Name, AllocError> {
    match Name::read_absolute(alloc, b"host.invalid.") {
        Ok(name) => Ok(name),
        Err(_) => Err(AllocError),
    }
}

/// Data of items that are known to be read. The only error is out of memory.
fn data_of(alloc: Global, record_type: RecordType, items: &[Item]) -> Result<Data, AllocError> {
    match read_data(alloc, record_type, items, None) {
        Ok(rdata) => Ok(rdata),
        Err(_) => Err(AllocError),
    }
}

/// An item without quotes.
const fn item(raw: &[u8]) -> Item<'_> {
    Item { raw, quoted: false }
}

/// A text. The only error is out of memory.
fn text(alloc: Global) -> Result<Data, AllocError> {
    data_of(alloc, RecordType::Txt, &[item(b"example")])
}

/// A digest of a key. The only error is out of memory.
fn digest(alloc: Global) -> Result<Data, AllocError> {
    let digits = b"000102030405060708090a0b0c0d0e0f101112131415161718191a1b1c1d1e1f";
    let items = [item(b"1"), item(b"13"), item(b"2"), item(digits)];
    data_of(alloc, RecordType::Ds, &items)
}

/// A number of seconds that is another one.
fn other_seconds(seconds: Seconds) -> Seconds {
    if seconds.0 == 0 {
        return Seconds(1);
    }
    Seconds(seconds.0 - 1)
}

/// An SOA that takes the place of that of a zone, and gives other negative answers. The only error is out of memory.
fn next_soa(alloc: Global, soa: &Soa) -> Result<Data, AllocError> {
    let mut fields = soa.fields().try_copy(alloc)?;
    fields.serial = Serial(serial_add(fields.serial.0, 2));
    fields.minimum = other_seconds(fields.minimum);
    Ok(Data::Soa(Soa::new(alloc, fields)?))
}

/// Data of a type. The only error is out of memory.
fn specimen(alloc: Global, zone: &Zone, record_type: RecordType) -> Result<Data, AllocError> {
    match record_type {
        RecordType::A => Ok(Data::A(Ipv4Addr::new(192, 0, 2, 1))),
        RecordType::Aaaa => Ok(Data::Aaaa(Ipv6Addr::new(0x2001, 0xdb8, 0, 0, 0, 0, 0, 1))),
        RecordType::Ns => Ok(Data::Ns(name_outside(alloc)?)),
        RecordType::Cname => Ok(Data::Cname(name_outside(alloc)?)),
        RecordType::Ptr => Ok(Data::Ptr(name_outside(alloc)?)),
        RecordType::Mx => Ok(Data::Mx {
            preference: 10,
            exchange: name_outside(alloc)?,
        }),
        RecordType::Srv => Ok(Data::Srv {
            priority: 0,
            weight: 0,
            port: 443,
            target: name_outside(alloc)?,
        }),
        RecordType::Txt => text(alloc),
        RecordType::Ds => digest(alloc),
        RecordType::Soa => match &zone.soa().rdata {
            Data::Soa(soa) => next_soa(alloc, soa),
            _ => Err(AllocError),
        },
    }
}

/// A TTL that the records of a set have not.
fn other_ttl(set: &[Record]) -> Result<Ttl, AllocError> {
    let seconds = match set.first() {
        Some(record) if record.ttl.seconds() == 3600 => 300,
        _ => 3600,
    };
    match Ttl::new(seconds) {
        Some(ttl) => Ok(ttl),
        None => Err(AllocError),
    }
}

/// A record of a name and a type, whose set has another TTL in a zone, or is not there. The only error is out of memory.
pub(crate) fn specimen_record(
    alloc: Global,
    zone: &Zone,
    name: &Name,
    record_type: RecordType,
) -> Result<Record, AllocError> {
    Ok(Record {
        owner: name.try_copy(alloc)?,
        ttl: other_ttl(zone.rrset(name, record_type))?,
        rdata: specimen(alloc, zone, record_type)?,
    })
}
