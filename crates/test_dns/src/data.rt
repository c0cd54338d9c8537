use crate::items::data;
use crate::records::{line, rank, sameness};
use dns_data::{Data, DataFault, Record, RecordType, Ttl, data_text};
use dns_names::Name;
use std::alloc::{AllocError, Global};
use std::net::{Ipv4Addr, Ipv6Addr};
use test_rows::{Answers, Row, text_of, word};

/// Answers to rows of record data, with the records that are ranked so far.
#[derive(Drop)]
pub struct Records {
    ranked: Vec<Record>,
}

impl Records {
    /// Answers, with no record ranked.
    pub fn new(alloc: Global) -> Records {
        Records {
            ranked: Vec::new(alloc),
        }
    }

    fn answer_to(&mut self, alloc: Global, row: &Row<'_>) -> Result<String, DataFault> {
        match row.verb {
            "type" => type_answer(alloc, &row.text),
            "numbered" => numbered(alloc, &row.text),
            "ttl" => ttl(alloc, &row.text),
            "data" => read_again(alloc, &row.text, None),
            "data-at" => data_at(alloc, &row.text),
            "count" => counted(alloc, &row.text),
            "ipv4" | "ipv6" => address(alloc, row),
            "line" => line(alloc, &row.text),
            "same" => same(alloc, &row.body),
            "ranked" => rank(alloc, &mut self.ranked, &row.text),
            "no-memory" => Err(DataFault::NoMemory),
            _ => told(alloc, "no such verb"),
        }
    }
}

impl Answers for Records {
    fn answer(
        &mut self,
        alloc: Global,
        row: &Row<'_>,
        answer: &mut Vec<u8>,
    ) -> Result<(), AllocError> {
        let told = match self.answer_to(alloc, row) {
            Ok(told) => told,
            Err(fault) => format!(in alloc; "refused {}: {fault}", fault.number())?,
        };
        answer.extend_from_slice(told.as_bytes())
    }
}

fn told(alloc: Global, text: &str) -> Result<String, DataFault> {
    Ok(String::from_str(alloc, text)?)
}

/// The text of data.
fn data_told(alloc: Global, rdata: &Data) -> Result<String, DataFault> {
    Ok(data_text(alloc, rdata)?)
}

fn same(alloc: Global, body: &[u8]) -> Result<String, DataFault> {
    told(alloc, sameness(alloc, body)?)
}

/// The text of the address of a row.
fn address(alloc: Global, row: &Row<'_>) -> Result<String, DataFault> {
    match row.verb {
        "ipv4" => data_told(alloc, &ipv4(&row.text)),
        _ => data_told(alloc, &ipv6(&row.text)),
    }
}

/// The text of the data that `TYPE ITEMS` writes.
fn read_again(alloc: Global, text: &[u8], origin: Option<&Name>) -> Result<String, DataFault> {
    data_told(alloc, &data(alloc, text, origin)?)
}

fn type_answer(alloc: Global, text: &[u8]) -> Result<String, DataFault> {
    let record_type = RecordType::read(text)?;
    Ok(format!(in alloc; "{} {}", record_type.text(), record_type.number())?)
}

fn numbered(alloc: Global, number: &[u8]) -> Result<String, DataFault> {
    match decimal(number) {
        Some(number) => told(alloc, type_text(RecordType::from_number(number))),
        None => told(alloc, "none"),
    }
}

fn type_text(record_type: Option<RecordType>) -> &'static str {
    match record_type {
        Some(record_type) => record_type.text(),
        None => "none",
    }
}

fn decimal(text: &[u8]) -> Option<u16> {
    text_of(text).parse().ok()
}

fn ttl(alloc: Global, text: &[u8]) -> Result<String, DataFault> {
    let seconds = Ttl::read(text)?.seconds();
    Ok(format!(in alloc; "{seconds}")?)
}

fn data_at(alloc: Global, text: &[u8]) -> Result<String, DataFault> {
    let (origin, rest) = word(text);
    read_again(alloc, rest, Some(&Name::read_absolute(alloc, origin)?))
}

fn counted(alloc: Global, text: &[u8]) -> Result<String, DataFault> {
    count(alloc, &data(alloc, text, None)?)
}

fn count(alloc: Global, rdata: &Data) -> Result<String, DataFault> {
    match rdata {
        Data::Txt(strings) => Ok(format!(in alloc; "{} strings", strings.as_slice().len())?),
        Data::Ds { digest, .. } => Ok(format!(in alloc; "{} octets", digest.octets().len())?),
        _ => told(alloc, "neither strings nor a digest"),
    }
}

/// The address of numbers with a space between two.
fn ipv4(text: &[u8]) -> Data {
    let mut octets = [0u8; 4];
    let mut rest = text;
    for octet in &mut octets {
        let (first, behind) = word(rest);
        *octet = text_of(first).parse().unwrap_or(0);
        rest = behind;
    }
    Data::A(Ipv4Addr::from(octets))
}

/// The address of groups with a space between two.
fn ipv6(text: &[u8]) -> Data {
    let mut groups = [0u16; 8];
    let mut rest = text;
    for group in &mut groups {
        let (first, behind) = word(rest);
        *group = u16::from_str_radix(text_of(first), 16).unwrap_or(0);
        rest = behind;
    }
    Data::Aaaa(Ipv6Addr::from(groups))
}
