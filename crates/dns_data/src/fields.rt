//! Record data from the items of a master file.

ghost use Rattle.std.specs.Prelude.{◌≡◌, ◌↔◌, List, ℕ, [], IsTrue, map, Option, Some, None, Ok, Err, IfOk};
ghost use Rattle.std.specs.Option.{option_copied};
ghost use Rattle.std.specs.List.{AllByRecursion};
ghost use Rattle.dns_data.specs.Faults.{Reads};
ghost use Rattle.dns_data.specs.Items.{ItemText, item_of, IsGeneric, is_generic};
ghost use Rattle.dns_data.specs.Strings.{IsString};
ghost use Rattle.dns_data.specs.Rdata.{type_of};
ghost use Rattle.dns_data.specs.Grammar.{IsData};
ghost use Rattle.dns_data.specs.Numbers.{number_of, duration_of};
ghost use Rattle.dns_data.specs.Reading.{field, ipv4_of, ipv6_of, name_of, each_string, strings_of, joined, digest_at, data_at, data_of};

use crate::data_fault::DataFault;
use crate::ds::Digest;
use crate::invariants::{reveal_octets, reveal_origin};
use crate::item::Item;
use crate::number::{Seconds, Serial, read_duration, read_number};
use crate::rdata::Data;
use crate::record_type::RecordType;
use crate::soa::{Soa, SoaFields};
use crate::strings::{CharacterString, Strings};
use dns_names::Name;
use std::alloc::Global;
use std::marker::Model;
use std::net::{Ipv4Addr, Ipv6Addr};

/// The name that a text says, relative to the origin where there is one.
fn name_of(alloc: Global, raw: &[u8], origin: Option<&Name>) -> Result<Name, DataFault>
    ensures { Reads (λ name. name) result (name_of (option_copied origin.entry) raw.now) }
{
    let name = match origin {
        Some(origin) => Name::read_relative(alloc, raw, origin),
        None => Name::read_absolute(alloc, raw),
    };
    Ok(name?)
}

/// The IPv4 address that a text says.
fn ipv4_of(raw: &[u8]) -> Result<Ipv4Addr, DataFault>
    ensures { result ≡ ipv4_of raw.now }
{
    match Ipv4Addr::parse_ascii(raw) {
        Ok(address) => Ok(address),
        Err(_) => Err(DataFault::BadAddress),
    }
}

/// The IPv6 address that a text says.
fn ipv6_of(raw: &[u8]) -> Result<Ipv6Addr, DataFault>
    ensures { result ≡ ipv6_of raw.now }
{
    match Ipv6Addr::parse_ascii(raw) {
        Ok(address) => Ok(address),
        Err(_) => Err(DataFault::BadAddress),
    }
}

/// Each of the items as a character-string.
fn each_string(alloc: Global, items: &[Item]) -> Result<Vec<CharacterString>, DataFault>
    ensures each { IfOk result (λ strings. AllByRecursion IsString strings.items) }
    ensures exact { Reads (λ strings. strings.items) result (each_string (map item_of items.now)) }
{
    let mut strings = Vec::with_capacity(alloc, items.len())?;
    for item in items {
        strings.push(CharacterString::read(alloc, item.raw)?)?;
    }
    Ok(strings)
}

/// All items as character-strings, one or more.
fn strings(alloc: Global, items: &[Item]) -> Result<Strings, DataFault>
    ensures { Reads (λ x. x) result (strings_of (map item_of items.now)) }
{
    if items.is_empty() {
        return Err(DataFault::FieldMissing);
    }
    Strings::new(each_string(alloc, items)?).ok_or(DataFault::DataTooLong)
}

/// The octets of items, joined. None of the items may be quoted.
fn joined(alloc: Global, items: &[Item]) -> Result<Vec<u8>, DataFault>
    ensures { Reads (λ octets. octets.items) result (joined (map item_of items.now)) }
{
    let mut octets = Vec::new(alloc);
    for item in items {
        if item.quoted {
            return Err(DataFault::QuotedItem);
        }
        octets.extend_from_slice(item.raw)?;
    }
    Ok(octets)
}

/// All items, one or more, as one digest.
fn digest(alloc: Global, items: &[Item]) -> Result<Digest, DataFault>
    ensures { Reads (λ digest. digest) result (digest_at (map item_of items.now)) }
{
    if items.is_empty() {
        return Err(DataFault::FieldMissing);
    }
    Digest::read(alloc, &joined(alloc, items)?)
}

/// Reads fields from left to right.
#[derive(Drop)]
struct FieldReader<'a> {
    /// The items that are left.
    items: &'a [Item<'a>],
}

impl<'a> Model for FieldReader<'a> {
    ghost Value = { List ItemText };

    ghost view = { λ reader. map item_of reader.items.now };
}

impl<'a> FieldReader<'a> {
    ghost use Rattle.dns_data.specs.Fields.{Name as InName, Number, U32, Seconds as InSeconds, ◌▸◌, End};
    ghost use Rattle.dns_data.specs.Reading.{values_at};

    /// The octets of the next item, which must not be quoted.
    fn plain(&mut self) -> Result<&'a [u8], DataFault>
        ensures { Reads (λ raw. (raw.now, self.new)) result (field (λ raw. Ok raw) self.old) }
    {
        match self.items {
            [] => Err(DataFault::FieldMissing),
            [item, ..] if item.quoted => Err(DataFault::QuotedItem),
            [item, rest @ ..] => {
                self.items = rest;
                Ok(item.raw)
            }
        }
    }

    /// A name, relative to the origin where there is one.
    fn name(&mut self, alloc: Global, origin: Option<&Name>) -> Result<Name, DataFault>
        ensures { Reads (λ name. (name, self.new)) result (field (name_of (option_copied origin.entry)) self.old) }
    {
        name_of(alloc, self.plain()?, origin)
    }

    /// An IPv4 address.
    fn ipv4(&mut self) -> Result<Ipv4Addr, DataFault>
        ensures { Reads (λ address. (address, self.new)) result (field ipv4_of self.old) }
    {
        ipv4_of(self.plain()?)
    }

    /// An IPv6 address.
    fn ipv6(&mut self) -> Result<Ipv6Addr, DataFault>
        ensures { Reads (λ address. (address, self.new)) result (field ipv6_of self.old) }
    {
        ipv6_of(self.plain()?)
    }

    /// A number up to `most`.
    fn number(&mut self, most: u32) -> Result<u32, DataFault>
        ensures { Reads (λ number. (number, self.new)) result (field (number_of most) self.old) }
    {
        read_number(self.plain()?, most)
    }

    /// A number of 8 bits.
    fn number8(&mut self) -> Result<u8, DataFault>
        ensures { Reads (λ number. (number, self.new)) result (field (number_of 255) self.old) }
    {
        Ok(self.number(255)? as u8)
    }

    /// A number of 16 bits.
    fn number16(&mut self) -> Result<u16, DataFault>
        ensures { Reads (λ number. (number, self.new)) result (field (number_of 65535) self.old) }
    {
        Ok(self.number(65_535)? as u16)
    }

    /// A serial.
    fn serial(&mut self) -> Result<Serial, DataFault>
        ensures { Reads (λ serial. (serial.0, self.new)) result (field (number_of 4294967295) self.old) }
    {
        self.number(u32::MAX).map(Serial)
    }

    /// A duration.
    fn seconds(&mut self) -> Result<Seconds, DataFault>
        ensures { Reads (λ seconds. (seconds.0, self.new)) result (field (duration_of 4294967295) self.old) }
    {
        read_duration(self.plain()?, u32::MAX).map(Seconds)
    }

    /// The durations of an SOA: refresh, retry, expire and minimum.
    #[tactic(auto, unfolding(crate::specs::Reading::values_at))]
    fn durations(&mut self) -> Result<(Seconds, Seconds, Seconds, Seconds), DataFault>
        ensures { Reads (λ all. ((all.0.0, (all.1.0, (all.2.0, (all.3.0, tt)))), self.new)) result (values_at None (InSeconds ▸ InSeconds ▸ InSeconds ▸ InSeconds ▸ End) self.old) }
    {
        Ok((
            self.seconds()?,
            self.seconds()?,
            self.seconds()?,
            self.seconds()?,
        ))
    }

    /// The serial and the durations of an SOA.
    #[tactic(auto, unfolding(crate::specs::Reading::values_at))]
    fn soa_numbers(&mut self) -> Result<(Serial, (Seconds, Seconds, Seconds, Seconds)), DataFault>
        ensures { Reads (λ all. ((all.0.0, (all.1.0.0, (all.1.1.0, (all.1.2.0, (all.1.3.0, tt))))), self.new)) result (values_at None (Number U32 ▸ InSeconds ▸ InSeconds ▸ InSeconds ▸ InSeconds ▸ End) self.old) }
    {
        Ok((self.serial()?, self.durations()?))
    }

    /// Two names, one after the other.
    #[tactic(auto, unfolding(crate::specs::Reading::values_at))]
    fn names(&mut self, alloc: Global, origin: Option<&Name>) -> Result<(Name, Name), DataFault>
        ensures { Reads (λ names. ((names.0, (names.1, tt)), self.new)) result (values_at (option_copied origin.entry) (InName ▸ InName ▸ End) self.old) }
    {
        Ok((self.name(alloc, origin)?, self.name(alloc, origin)?))
    }

    /// The fields of an SOA.
    fn soa_fields(&mut self, alloc: Global, origin: Option<&Name>) -> Result<SoaFields, DataFault>
        ensures { Reads (λ soa. (Data.Soa soa, self.new)) result (data_at RecordType.Soa (option_copied origin.entry) self.old) }
    {
        let (mname, rname) = self.names(alloc, origin)?;
        let (serial, (refresh, retry, expire, minimum)) = self.soa_numbers()?;
        Ok(SoaFields {
            mname,
            rname,
            serial,
            refresh,
            retry,
            expire,
            minimum,
        })
    }

    /// The data of an SOA.
    fn soa(&mut self, alloc: Global, origin: Option<&Name>) -> Result<Data, DataFault>
        ensures { Reads (λ soa. (soa, self.new)) result (data_at RecordType.Soa (option_copied origin.entry) self.old) }
    {
        let fields = self.soa_fields(alloc, origin)?;
        Ok(Data::Soa(Soa::new(alloc, fields)?))
    }

    /// The data of an MX.
    #[tactic(auto, unfolding(crate::specs::Reading::values_at))]
    fn mail_exchange(&mut self, alloc: Global, origin: Option<&Name>) -> Result<Data, DataFault>
        ensures { Reads (λ mx. (mx, self.new)) result (data_at RecordType.Mx (option_copied origin.entry) self.old) }
    {
        Ok(Data::Mx {
            preference: self.number16()?,
            exchange: self.name(alloc, origin)?,
        })
    }

    /// The data of an SRV.
    #[tactic(auto, unfolding(crate::specs::Reading::values_at))]
    fn service(&mut self, alloc: Global, origin: Option<&Name>) -> Result<Data, DataFault>
        ensures { Reads (λ srv. (srv, self.new)) result (data_at RecordType.Srv (option_copied origin.entry) self.old) }
    {
        Ok(Data::Srv {
            priority: self.number16()?,
            weight: self.number16()?,
            port: self.number16()?,
            target: self.name(alloc, origin)?,
        })
    }

    /// All items that are left.
    fn rest(&mut self) -> &'a [Item<'a>]
        ensures taken { map item_of result.now ≡ self.old }
        ensures left { self.new ≡ [] }
    {
        let rest = self.items;
        self.items = &[];
        rest
    }

    /// The data of a DS.
    #[tactic(auto, unfolding(crate::specs::Reading::values_at))]
    fn delegation_signer(&mut self, alloc: Global) -> Result<Data, DataFault>
        ensures { Reads (λ ds. (ds, self.new)) result (data_at RecordType.Ds None self.old) }
    {
        Ok(Data::Ds {
            key_tag: self.number16()?,
            algorithm: self.number8()?,
            digest_type: self.number8()?,
            digest: digest(alloc, self.rest())?,
        })
    }

    /// The data of a type.
    #[tactic(auto, unfolding(crate::specs::Reading::values_at))]
    fn data(
        &mut self,
        alloc: Global,
        record_type: RecordType,
        origin: Option<&Name>,
    ) -> Result<Data, DataFault>
        ensures { Reads (λ made. (made, self.new)) result (data_at record_type (option_copied origin.entry) self.old) }
    {
        match record_type {
            RecordType::A => self.ipv4().map(Data::A),
            RecordType::Ns => self.name(alloc, origin).map(Data::Ns),
            RecordType::Cname => self.name(alloc, origin).map(Data::Cname),
            RecordType::Soa => self.soa(alloc, origin),
            RecordType::Ptr => self.name(alloc, origin).map(Data::Ptr),
            RecordType::Mx => self.mail_exchange(alloc, origin),
            RecordType::Txt => strings(alloc, self.rest()).map(Data::Txt),
            RecordType::Aaaa => self.ipv6().map(Data::Aaaa),
            RecordType::Srv => self.service(alloc, origin),
            RecordType::Ds => self.delegation_signer(alloc),
        }
    }

    /// Whether no items are left.
    fn is_empty(&self) -> bool
        ensures { IsTrue result ↔ (self.now ≡ []) }
    {
        self.items.is_empty()
    }
}

/// Whether the items are data in the generic form (RFC 3597 section 5), which begins with `\#`, not quoted.
fn is_generic(items: &[Item]) -> bool
    ensures { result ≡ is_generic (map item_of items.now) }
{
    match items {
        [first, ..] => !first.quoted && first.raw == b"\\#".as_slice(),
        [] => false,
    }
}

/// The data that all items say, or the refusal that comes first.
fn whole_data(
    alloc: Global,
    record_type: RecordType,
    items: &[Item],
    origin: Option<&Name>,
) -> Result<Data, DataFault>
    ensures { Reads (λ made. made) result (data_of record_type (option_copied origin.entry) (map item_of items.now)) }
{
    if is_generic(items) {
        return Err(DataFault::TypeNotKept);
    }
    let mut reader = FieldReader { items };
    let data = reader.data(alloc, record_type, origin)?;
    if !reader.is_empty() {
        return Err(DataFault::FieldExtra);
    }
    Ok(data)
}

/// Reads the data of a record from its items (RFC 1035 sections 3.3, 3.4 and 5.1, RFC 2782, RFC 3596 section 2.4, RFC 4034
/// section 5.3). With no origin only absolute names are read.
///
/// Data in the generic form of RFC 3597 section 5, whose first item is `\#`, not quoted, are `TypeNotKept` for every type.
/// Then the fields are tested from left to right, each for `FieldMissing`, `QuotedItem` (but a character-string may be quoted)
/// and its own faults; then comes `FieldExtra`, and then `DataTooLong`. A digest takes all items that are left, and is
/// tested once they are joined. `NoMemory` comes at the growth that was refused.
pub fn read_data(
    alloc: Global,
    record_type: RecordType,
    items: &[Item],
    origin: Option<&Name>,
) -> Result<Data, DataFault>
    // What is read is in the grammar.
    ensures found { IfOk result (λ made. (type_of made ≡ record_type) × IsData (option_copied origin.entry) made (map item_of items.now)) }
    // What is in the grammar is read, unless memory runs out.
    ensures only { (made : Data) → type_of made ≡ record_type → IsData (option_copied origin.entry) made (map item_of items.now) → Reads (λ read. read) result (Ok made) }
    // The generic form is refused before any field is read.
    ensures generic { IsGeneric (map item_of items.now) → Reads (λ made. made) result (Err DataFault.TypeNotKept) }
    // Which refusal it is.
    ensures exact { Reads (λ made. made) result (data_of record_type (option_copied origin.entry) (map item_of items.now)) }
{
    reveal_octets(items);
    reveal_origin(origin);
    whole_data(alloc, record_type, items, origin)
}
