//! Columns of rows: names, types, data, TTLs and identifiers.

ghost use Rattle.std.specs.Prelude.{◌≡◌, ◌==◌, List, ℕ, Ok, map, IfOk, IfSome};
ghost use Rattle.std.specs.List.{find};
ghost use Rattle.dns_names.specs.Labels.{IsName};
ghost use Rattle.dns_names.specs.Spelling.{name_text};
ghost use Rattle.dns_data.specs.Items.{item_of};
ghost use Rattle.dns_data.specs.Rdata.{IsRecord};
ghost use Rattle.dns_data.specs.Types.{kept_types, type_number};
ghost use Rattle.store_rows.specs.RowFaults.{Reads};
ghost use Rattle.store_rows.specs.RowReading.{name_from, name_in, fields_of, type_in, data_from, data_in, ttl_in, identifier_in, record_from};

use crate::row_fault::RowFault;
use dns_data::{Data, Item, Record, RecordType, Ttl, data_text, read_data};
use dns_master::tokens;
use dns_names::Name;
use grant_policy::Identifier;
use std::alloc::Global;
use std::net::Ipv4Addr;
use update_lines::entry_items;

/// Reads the canonical text of a name, as `Name::text` gives it. Any other text is `BadRow`, also another spelling of a name.
pub fn read_origin(alloc: Global, text: &str) -> Result<Name, RowFault>
    // The text is that of what is read.
    ensures found { IfOk result (λ name. (text.now ≡ name_text name) × IsName name) }
    // The text of a name is read as this name, unless memory runs out.
    ensures only { (name : List (List ℕ)) → IsName name → text.now ≡ name_text name → Reads (λ read. read) result (Ok name) }
    // Which refusal it is.
    ensures exact { Reads (λ name. name) result (name_in text.now) }
{
    let name = name_from(alloc, text)?;
    if name.text(alloc)?.as_str() != text {
        return Err(RowFault::BadRow);
    }
    Ok(name)
}

/// The name of a text.
pub(crate) fn name_from(alloc: Global, text: &str) -> Result<Name, RowFault>
    ensures name { IfOk result IsName }
    ensures exact { Reads (λ name. name) result (name_from text.now) }
{
    Ok(Name::read_absolute(alloc, text.as_bytes())?)
}

/// The items of a text (RFC 1035 section 5.1).
pub(crate) fn fields_of<'a>(alloc: Global, text: &'a str) -> Result<Vec<Item<'a>>, RowFault>
    ensures { Reads (λ v. map item_of v.items) result (fields_of text.now) }
{
    let tokens = tokens(alloc, text.as_bytes())?;
    Ok(entry_items(alloc, &tokens)?)
}

/// The first of the types with a number.
fn type_numbered(number: u64) -> Option<RecordType>
    ensures { result ≡ find (λ t. type_number t == number) kept_types }
{
    RecordType::ALL
        .iter()
        .copied()
        .find(|record_type| u64::from(record_type.number()) == number)
}

/// The type of a number.
pub(crate) fn type_in(number: i64) -> Result<RecordType, RowFault>
    ensures { result ≡ type_in number }
{
    match u64::try_from(number) {
        Ok(number) => type_numbered(number).ok_or(RowFault::BadRow),
        Err(_) => Err(RowFault::BadRow),
    }
}

/// The data of a record of type A by the text of their address, which has one spelling.
fn address_in(text: &str) -> Option<Data>
    ensures { IfSome result (λ rdata. data_in RecordType.A text.now ≡ Ok rdata) }
{
    let Ok(address) = Ipv4Addr::parse_ascii(text.as_bytes()) else {
        return None;
    };
    let rdata = Data::A(address);
    // the proof needs that these are data
    let _ = rdata.record_type();
    Some(rdata)
}

/// The data of a type by a text that needs not be taken apart into items. Most records are of type A.
fn plain_data(record_type: RecordType, text: &str) -> Option<Data>
    ensures { IfSome result (λ rdata. data_in record_type text.now ≡ Ok rdata) }
{
    match record_type {
        RecordType::A => address_in(text),
        _ => None,
    }
}

/// The data of a type by a text.
pub(crate) fn data_from(
    alloc: Global,
    record_type: RecordType,
    text: &str,
) -> Result<Data, RowFault>
    ensures { Reads (λ made. made) result (data_from record_type text.now) }
{
    if let Some(rdata) = plain_data(record_type, text) {
        return Ok(rdata);
    }
    let items = fields_of(alloc, text)?;
    Ok(read_data(alloc, record_type, &items, None)?)
}

/// Reads the canonical text of data of a type, as `data_text` gives it. Any other text is `BadRow`.
pub(crate) fn data_in(alloc: Global, record_type: RecordType, text: &str) -> Result<Data, RowFault>
    ensures { Reads (λ made. made) result (data_in record_type text.now) }
{
    if let Some(rdata) = plain_data(record_type, text) {
        return Ok(rdata);
    }
    let rdata = data_from(alloc, record_type, text)?;
    if data_text(alloc, &rdata)?.as_str() != text {
        return Err(RowFault::BadRow);
    }
    Ok(rdata)
}

/// The TTL of so many seconds.
pub(crate) fn ttl_in(seconds: i64) -> Result<Ttl, RowFault>
    ensures { Reads (λ ttl. ttl) result (ttl_in seconds) }
{
    match u32::try_from(seconds) {
        Ok(seconds) => Ttl::new(seconds).ok_or(RowFault::BadRow),
        Err(_) => Err(RowFault::BadRow),
    }
}

/// The record of columns.
pub(crate) fn record_from(
    alloc: Global,
    owner: &str,
    record_type: i64,
    rdata: &str,
    ttl: i64,
) -> Result<Record, RowFault>
    ensures record { IfOk result IsRecord }
    ensures exact { Reads (λ r. r) result (record_from owner.now record_type rdata.now ttl) }
{
    let owner = name_from(alloc, owner)?;
    let record_type = type_in(record_type)?;
    let ttl = ttl_in(ttl)?;
    let rdata = data_from(alloc, record_type, rdata)?;
    let rr = Record { owner, ttl, rdata };
    // the proof needs that it is a record
    let _ = rr.record_type();
    Ok(rr)
}

/// Parses an identifier.
pub(crate) fn identifier_in(alloc: Global, text: &[u8]) -> Result<Identifier, RowFault>
    ensures { Reads (λ id. id) result (identifier_in text.now) }
{
    Ok(Identifier::read(alloc, text)?)
}
