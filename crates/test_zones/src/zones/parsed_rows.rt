//! Records, updates and servers that rows write.

use crate::refusal::Refusal;
use dns_data::{Data, DataFault, Record, RecordType};
use dns_master::read_file;
use dns_names::Name;
use std::alloc::{AllocError, Global};
use std::net::IpAddr;
use test_rows::{text_of, word};
use zone_core::{ChildServer, Operation, OperationKind, Prerequisite, PrerequisiteKind, Update};

/// The name of an absolute text.
pub fn name(alloc: Global, text: &[u8]) -> Result<Name, Refusal> {
    Ok(Name::read_absolute(alloc, text)?)
}

/// The type of this name.
pub fn record_type(text: &[u8]) -> Result<RecordType, Refusal> {
    Ok(RecordType::read(text)?)
}

/// The number that a text writes, or 0.
pub fn number(text: &[u8]) -> u32 {
    text_of(text).parse().unwrap_or(0)
}

/// What ends an item: a line end, or a bar.
const ENDS: [char; 2] = ['\n', '|'];

/// The records of a master file.
pub fn file(alloc: Global, text: &[u8], origin: &Name) -> Result<Vec<Record>, Refusal> {
    Ok(read_file(alloc, text, origin)?)
}

/// The record of a line. Where that has no TTL, it is 0.
fn record(alloc: Global, line: &[u8]) -> Result<Record, Refusal> {
    let mut records = records(alloc, &behind_ttl(alloc, line)?)?;
    Ok(records.pop().ok_or(DataFault::FieldMissing)?)
}

fn records(alloc: Global, text: &[u8]) -> Result<Vec<Record>, Refusal> {
    file(alloc, text, &name(alloc, b".")?)
}

fn behind_ttl(alloc: Global, line: &[u8]) -> Result<Vec<u8>, AllocError> {
    let mut text = Vec::from_slice(alloc, b"$TTL 0\n")?;
    text.extend_from_slice(line)?;
    Ok(text)
}

/// The data of the record of a line.
fn rdata(alloc: Global, line: &[u8]) -> Result<Data, Refusal> {
    Ok(record(alloc, line)?.rdata)
}

/// A prerequisite, from what stands after its first word.
fn prerequisite(
    alloc: Global,
    kind: PrerequisiteKind,
    text: &[u8],
) -> Result<Prerequisite, Refusal> {
    match kind {
        PrerequisiteKind::NameUsed | PrerequisiteKind::NameUnused => name_test(alloc, kind, text),
        PrerequisiteKind::RrsetEquals => rrset_equals(alloc, text),
        PrerequisiteKind::RrsetExists | PrerequisiteKind::RrsetAbsent => {
            rrset_test(alloc, kind, text)
        }
    }
}

fn name_test(alloc: Global, kind: PrerequisiteKind, text: &[u8]) -> Result<Prerequisite, Refusal> {
    let name = name(alloc, word(text).0)?;
    Ok(if kind == PrerequisiteKind::NameUsed {
        Prerequisite::NameUsed(name)
    } else {
        Prerequisite::NameUnused(name)
    })
}

fn rrset_equals(alloc: Global, line: &[u8]) -> Result<Prerequisite, Refusal> {
    let name = name(alloc, word(line).0)?;
    let rdata = rdata(alloc, line)?;
    Ok(Prerequisite::RrsetEquals { name, rdata })
}

fn rrset_test(alloc: Global, kind: PrerequisiteKind, text: &[u8]) -> Result<Prerequisite, Refusal> {
    let (name, record_type) = rrset(alloc, text)?;
    Ok(if kind == PrerequisiteKind::RrsetExists {
        Prerequisite::RrsetExists { name, record_type }
    } else {
        Prerequisite::RrsetAbsent { name, record_type }
    })
}

/// The name and the type of a text.
fn rrset(alloc: Global, text: &[u8]) -> Result<(Name, RecordType), Refusal> {
    let (owner, rest) = word(text);
    let name = name(alloc, owner)?;
    Ok((name, record_type(rest)?))
}

/// An operation, from what stands after its first word.
fn operation(alloc: Global, kind: OperationKind, text: &[u8]) -> Result<Operation, Refusal> {
    match kind {
        OperationKind::Add => addition(alloc, text),
        OperationKind::DeleteName => name_deletion(alloc, text),
        OperationKind::DeleteRrset => rrset_deletion(alloc, text),
        OperationKind::DeleteRecord => record_deletion(alloc, text),
    }
}

fn addition(alloc: Global, line: &[u8]) -> Result<Operation, Refusal> {
    Ok(Operation::Add(record(alloc, line)?))
}

fn name_deletion(alloc: Global, text: &[u8]) -> Result<Operation, Refusal> {
    Ok(Operation::DeleteName(name(alloc, word(text).0)?))
}

fn rrset_deletion(alloc: Global, text: &[u8]) -> Result<Operation, Refusal> {
    let (name, record_type) = rrset(alloc, text)?;
    Ok(Operation::DeleteRrset { name, record_type })
}

fn record_deletion(alloc: Global, line: &[u8]) -> Result<Operation, Refusal> {
    let name = name(alloc, word(line).0)?;
    let rdata = rdata(alloc, line)?;
    Ok(Operation::DeleteRecord { name, rdata })
}

/// The update of items.
pub fn update(alloc: Global, items: &[u8]) -> Result<Update, Refusal> {
    let mut prerequisites = Vec::new(alloc);
    let mut operations = Vec::new(alloc);
    for item in text_of(items).split(ENDS) {
        push_item(alloc, item.as_bytes(), &mut prerequisites, &mut operations)?;
    }
    Ok(Update::build(prerequisites, operations)?)
}

fn push_item(
    alloc: Global,
    item: &[u8],
    prerequisites: &mut Vec<Prerequisite>,
    operations: &mut Vec<Operation>,
) -> Result<(), Refusal> {
    let (kind, rest) = word(item);
    if let Some(kind) = PrerequisiteKind::read(kind) {
        return Ok(prerequisites.push(prerequisite(alloc, kind, rest)?)?);
    }
    if let Some(kind) = OperationKind::read(kind) {
        return Ok(operations.push(operation(alloc, kind, rest)?)?);
    }
    if item.is_empty() {
        Ok(())
    } else {
        Err(Refusal::from(DataFault::FieldExtra))
    }
}

fn address(text: &str) -> Result<IpAddr, Refusal> {
    match text.parse::<IpAddr>() {
        Ok(address) => Ok(address),
        Err(_) => Err(Refusal::from(DataFault::BadAddress)),
    }
}

/// The servers of a child, each with its addresses.
pub fn servers(alloc: Global, items: &[u8]) -> Result<Vec<ChildServer>, Refusal> {
    let mut servers = Vec::new(alloc);
    for item in text_of(items).split(ENDS) {
        if !item.is_empty() {
            servers.push(server(alloc, item.as_bytes())?)?;
        }
    }
    Ok(servers)
}

fn server(alloc: Global, item: &[u8]) -> Result<ChildServer, Refusal> {
    let (first, rest) = word(item);
    let name = name(alloc, first)?;
    let addresses = addresses(alloc, rest)?;
    Ok(ChildServer { name, addresses })
}

fn addresses(alloc: Global, text: &[u8]) -> Result<Vec<IpAddr>, Refusal> {
    let mut addresses = Vec::new(alloc);
    for text in text_of(text).split_whitespace() {
        addresses.push(address(text)?)?;
    }
    Ok(addresses)
}
