//! What stands before the data of a record: owner, TTL, class and type.

ghost use Rattle.std.specs.Prelude.{◌≡◌, ◌≤◌, length, map, codes, None, false, IfOk};
ghost use Rattle.std.specs.Str.{str_eq_ignore_ascii_case};
ghost use Rattle.dns_data.specs.Items.{item_of};
ghost use Rattle.dns_master.specs.EntryFaults.{Tells};
ghost use Rattle.dns_master.specs.Fields.{begins_with_digit, is_other_class, unquoted, name_at, ttl_of, type_of_text, part_of, lead_of, lead_before};

use crate::entry_fault::EntryFault;
use dns_data::{DataFault, Item, RecordType, Ttl};
use dns_names::Name;
use std::alloc::Global;

/// The octets of an item that must not stand in quotes.
pub(crate) fn unquoted<'a>(item: Item<'a>) -> Result<&'a [u8], EntryFault>
    ensures { Tells (λ raw. raw.now) result (unquoted (item_of item.entry)) }
{
    if item.quoted {
        return Err(EntryFault::Data(DataFault::QuotedItem));
    }
    Ok(item.raw)
}

/// The name of an item, relative to an origin.
pub(crate) fn read_name(alloc: Global, item: Item, origin: &Name) -> Result<Name, EntryFault>
    ensures { Tells (λ name. name) result (name_at origin.now (item_of item.entry)) }
{
    Ok(Name::read_relative(alloc, unquoted(item)?, origin)?)
}

/// The TTL of octets.
pub(crate) fn read_ttl(raw: &[u8]) -> Result<Ttl, EntryFault>
    ensures { Tells (λ ttl. ttl) result (ttl_of raw.now) }
{
    match Ttl::read(raw) {
        Ok(ttl) => Ok(ttl),
        Err(_) => Err(EntryFault::BadTtl),
    }
}

/// The type that octets name.
fn read_type(raw: &[u8]) -> Result<RecordType, EntryFault>
    ensures { Tells (λ record_type. record_type) result (type_of_text raw.now) }
{
    match RecordType::read(raw) {
        Ok(record_type) => Ok(record_type),
        Err(fault) => Err(EntryFault::Data(fault)),
    }
}

/// Whether the first of the octets is a decimal digit.
fn begins_with_digit(raw: &[u8]) -> bool
    ensures { result ≡ begins_with_digit raw.now }
{
    match raw {
        [] => false,
        [octet, ..] => octet.is_ascii_digit(),
    }
}

/// Whether octets name the class IN, in either letter case (RFC 1035 section 3.2.4).
pub(crate) fn is_class_in(raw: &[u8]) -> bool
    ensures { result ≡ str_eq_ignore_ascii_case raw.now (codes "IN") }
{
    raw.eq_ignore_ascii_case(b"IN")
}

/// Whether octets name another class, in either letter case (RFC 1035 section 3.2.4).
pub(crate) fn is_other_class(raw: &[u8]) -> bool
    ensures { result ≡ is_other_class raw.now }
{
    raw.eq_ignore_ascii_case(b"CH")
        || raw.eq_ignore_ascii_case(b"HS")
        || raw.eq_ignore_ascii_case(b"CS")
}

/// The TTL, and whether the class, was read between the owner and the type.
#[derive(Clone, Copy)]
pub(crate) struct TtlAndClass {
    pub ttl: Option<Ttl>,
    pub has_class: bool,
}

/// An item between the owner and the data.
#[derive(Clone, Copy)]
pub(crate) enum Part {
    /// A TTL or the class, with which this was read.
    More(TtlAndClass),
    /// The type, and the TTL that was read before it.
    Type {
        ttl: Option<Ttl>,
        record_type: RecordType,
    },
}

/// What the next item is.
pub(crate) fn next_part(read: TtlAndClass, item: Item) -> Result<Part, EntryFault>
    ensures { Tells (λ part. part) result (part_of read (item_of item.entry)) }
{
    let raw = unquoted(item)?;
    let TtlAndClass { ttl, has_class } = read;
    if ttl.is_none() && begins_with_digit(raw) {
        let ttl = Some(read_ttl(raw)?);
        return Ok(Part::More(TtlAndClass { ttl, has_class }));
    }
    if !has_class && is_class_in(raw) {
        let has_class = true;
        return Ok(Part::More(TtlAndClass { ttl, has_class }));
    }
    if !has_class && is_other_class(raw) {
        return Err(EntryFault::ClassNotIn);
    }
    let record_type = read_type(raw)?;
    Ok(Part::Type { ttl, record_type })
}

/// What stands between the owner and the data.
#[derive(Clone, Copy)]
pub(crate) struct Lead {
    pub ttl: Option<Ttl>,
    pub record_type: RecordType,
    /// How many items these are, with the class.
    pub len: usize,
}

impl Lead {
    /// So many items with this type, and with this TTL if there is one.
    fn new(ttl: Option<Ttl>, record_type: RecordType, len: usize) -> Lead
        ensures ttl { result.ttl ≡ ttl }
        ensures record_type { result.record_type ≡ record_type }
        ensures len { result.len ≡ len }
    {
        Lead {
            ttl,
            record_type,
            len,
        }
    }
}

/// TTL, class and type: while no TTL was read, an item that begins with a digit is one, and while no class was read, an item
/// that names one is it. Any other item stands in the type's place.
pub(crate) fn read_lead(items: &[Item]) -> Result<Lead, EntryFault>
    ensures within { IfOk result (λ lead. lead.len ≤ length items.now) }
    ensures exact { Tells (lead_before (map item_of items.now)) result (lead_of (record { ttl = None; has_class = false }) (map item_of items.now)) }
{
    let mut read = TtlAndClass {
        ttl: None,
        has_class: false,
    };
    for (i, item) in items.iter().enumerate() {
        match next_part(read, *item)? {
            Part::More(next) => read = next,
            Part::Type { ttl, record_type } => {
                return Ok(Lead::new(ttl, record_type, i + 1));
            }
        }
    }
    Err(EntryFault::EntryShort)
}
