//! Texts of names, records and operations.

use crate::refusal::Refusal;
use dns_data::{Data, Record, RecordType, Soa, data_text, record_line};
use dns_names::Name;
use std::alloc::Global;
use zone_core::Operation;

/// Appends a text.
pub fn push(text: &str, answer: &mut Vec<u8>) -> Result<(), Refusal> {
    Ok(answer.extend_from_slice(text.as_bytes())?)
}

/// Appends a name.
pub fn push_name(alloc: Global, name: &Name, answer: &mut Vec<u8>) -> Result<(), Refusal> {
    push(name.text(alloc)?.as_str(), answer)
}

/// Appends a number.
pub fn push_number(alloc: Global, number: u32, answer: &mut Vec<u8>) -> Result<(), Refusal> {
    let text = format!(in alloc; "{number}")?;
    push(text.as_str(), answer)
}

/// Appends the lines of records.
pub fn push_records(
    alloc: Global,
    records: &[Record],
    answer: &mut Vec<u8>,
) -> Result<(), Refusal> {
    if records.is_empty() {
        return push("no record", answer);
    }
    for (i, record) in records.iter().enumerate() {
        if i > 0 {
            push("\n", answer)?;
        }
        push_record(alloc, record, answer)?;
    }
    Ok(())
}

fn push_record(alloc: Global, record: &Record, answer: &mut Vec<u8>) -> Result<(), Refusal> {
    push(record_line(alloc, record)?.as_str(), answer)
}

/// Appends lines of records after a mark, an SOA as its serial, each with a line end.
pub fn push_marked(
    alloc: Global,
    mark: &str,
    records: &[Record],
    answer: &mut Vec<u8>,
) -> Result<(), Refusal> {
    for record in records {
        push(mark, answer)?;
        match &record.rdata {
            Data::Soa(soa) => push_serial(alloc, soa, answer)?,
            _ => push_record(alloc, record, answer)?,
        }
        push("\n", answer)?;
    }
    Ok(())
}

fn push_serial(alloc: Global, soa: &Soa, answer: &mut Vec<u8>) -> Result<(), Refusal> {
    push("serial ", answer)?;
    push_number(alloc, soa.fields().serial.0, answer)
}

/// Appends an operation.
pub fn push_operation(
    alloc: Global,
    operation: &Operation,
    answer: &mut Vec<u8>,
) -> Result<(), Refusal> {
    push(operation.kind().text(), answer)?;
    push(" ", answer)?;
    match operation {
        Operation::Add(record) => push_record(alloc, record, answer),
        Operation::DeleteName(name) => push_name(alloc, name, answer),
        Operation::DeleteRrset { name, record_type } => {
            push_rrset(alloc, name, *record_type, answer)
        }
        Operation::DeleteRecord { name, rdata } => push_data(alloc, name, rdata, answer),
    }
}

/// Appends a name, a type and data of that.
pub fn push_data(
    alloc: Global,
    name: &Name,
    rdata: &Data,
    answer: &mut Vec<u8>,
) -> Result<(), Refusal> {
    push_rrset(alloc, name, rdata.record_type(), answer)?;
    push(" ", answer)?;
    push(data_text(alloc, rdata)?.as_str(), answer)
}

/// Appends a name and a type.
pub fn push_rrset(
    alloc: Global,
    name: &Name,
    record_type: RecordType,
    answer: &mut Vec<u8>,
) -> Result<(), Refusal> {
    push_name(alloc, name, answer)?;
    push(" ", answer)?;
    push(record_type.text(), answer)
}
