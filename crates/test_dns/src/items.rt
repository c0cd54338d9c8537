use dns_data::{Data, DataFault, Item, Record, RecordType, Ttl, read_data};
use dns_names::Name;
use std::alloc::{AllocError, Global};
use test_rows::{text_of, word};

/// The items of a text that has one space between them.
fn items(alloc: Global, text: &[u8]) -> Result<Vec<Item<'_>>, AllocError> {
    let mut items = Vec::new(alloc);
    if text.is_empty() {
        return Ok(items);
    }
    for piece in text_of(text).split(' ') {
        items.push(item(piece.as_bytes()))?;
    }
    Ok(items)
}

fn item(piece: &[u8]) -> Item<'_> {
    match piece {
        [b'"', raw @ .., b'"'] => Item { raw, quoted: true },
        raw => Item { raw, quoted: false },
    }
}

/// The data that `TYPE ITEMS` writes.
pub fn data(alloc: Global, text: &[u8], origin: Option<&Name>) -> Result<Data, DataFault> {
    let (record_type, rest) = word(text);
    let record_type = RecordType::read(record_type)?;
    read_data(alloc, record_type, &items(alloc, rest)?, origin)
}

/// The record that `OWNER TTL TYPE ITEMS` writes.
pub fn record(alloc: Global, text: &[u8]) -> Result<Record, DataFault> {
    let (owner, rest) = word(text);
    let (ttl, rest) = word(rest);
    let ttl = Ttl::read(ttl)?;
    Ok(Record {
        owner: Name::read_absolute(alloc, owner)?,
        ttl,
        rdata: data(alloc, rest, None)?,
    })
}
