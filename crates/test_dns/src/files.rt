use crate::devices::{Device, push_taken};
use crate::page::{Sheet, printed, printed_failing};
use dns_data::{DataFault, Record, record_line};
use dns_master::{MasterFault, Token, read_file, tokens};
use dns_names::Name;
use std::alloc::{AllocError, Global};
use test_rows::{Row, number, push_repeated, word};

/// Appends the answer to a row of master files.
pub fn push_file_answer(
    alloc: Global,
    row: &Row<'_>,
    answer: &mut Vec<u8>,
) -> Result<(), AllocError> {
    match answer_to(alloc, row, answer) {
        Ok(()) => Ok(()),
        Err(fault) => push_fault(alloc, fault, answer),
    }
}

fn answer_to(alloc: Global, row: &Row<'_>, answer: &mut Vec<u8>) -> Result<(), MasterFault> {
    match row.verb {
        "tokens" | "entries" => push_split(alloc, row, answer),
        "file" => push_file(alloc, row, answer),
        "read" | "write" => push_moved(alloc, row, answer),
        "long" => push_long(alloc, row, answer),
        "print" | "print-relative" | "print-records" | "failing" | "failing-records" => {
            push_page(alloc, row, answer)
        }
        "no-memory" => Err(MasterFault::NoMemory),
        _ => push("no such verb", answer),
    }
}

/// Appends the items of the body of a row, or its entries.
fn push_split(alloc: Global, row: &Row<'_>, answer: &mut Vec<u8>) -> Result<(), MasterFault> {
    push_items(alloc, row.verb, &tokens(alloc, &row.body)?, answer)
}

fn push_items(
    alloc: Global,
    verb: &str,
    tokens: &[Token<'_>],
    answer: &mut Vec<u8>,
) -> Result<(), MasterFault> {
    match verb {
        "tokens" => push_tokens(alloc, tokens, answer),
        _ => push_entries(alloc, tokens, answer),
    }
}

/// Appends the lines of the records of the body of a row.
fn push_file(alloc: Global, row: &Row<'_>, answer: &mut Vec<u8>) -> Result<(), MasterFault> {
    push_records(alloc, &records(alloc, &row.text, &row.body)?, answer)
}

fn push(text: &str, answer: &mut Vec<u8>) -> Result<(), MasterFault> {
    Ok(answer.extend_from_slice(text.as_bytes())?)
}

/// Appends a refusal: its numbers, the line if it has one, and its words.
fn push_fault(alloc: Global, fault: MasterFault, answer: &mut Vec<u8>) -> Result<(), AllocError> {
    let numbers = numbers(alloc, fault)?;
    let text = match fault.line() {
        Some(line) => format!(in alloc; "refused {numbers} at {line}: {fault}"),
        None => format!(in alloc; "refused {numbers}: {fault}"),
    };
    answer.extend_from_slice(text?.as_bytes())
}

/// The number of a fault, and those of the faults inside it.
fn numbers(alloc: Global, outer: MasterFault) -> Result<String, AllocError> {
    let number = outer.number();
    let MasterFault::Data { fault, .. } = outer else {
        return format!(in alloc; "{number}");
    };
    let inner = fault.number();
    match fault {
        DataFault::Name(fault) => format!(in alloc; "{number}.{inner}.{}", fault.number()),
        _ => format!(in alloc; "{number}.{inner}"),
    }
}

/// The origin of a row; its faults have line 0.
fn origin(alloc: Global, text: &[u8]) -> Result<Name, MasterFault> {
    match Name::read_absolute(alloc, text) {
        Ok(name) => Ok(name),
        Err(fault) => Err(MasterFault::Data {
            line: 0,
            fault: DataFault::from(fault),
        }),
    }
}

fn records(alloc: Global, top: &[u8], text: &[u8]) -> Result<Vec<Record>, MasterFault> {
    read_file(alloc, text, &origin(alloc, top)?)
}

fn push_tokens(
    alloc: Global,
    tokens: &[Token<'_>],
    answer: &mut Vec<u8>,
) -> Result<(), MasterFault> {
    if tokens.is_empty() {
        return push("no item", answer);
    }
    for (i, token) in tokens.iter().enumerate() {
        if i > 0 {
            push(" ", answer)?;
        }
        push_token(alloc, token, answer)?;
    }
    Ok(())
}

fn push_token(alloc: Global, token: &Token<'_>, answer: &mut Vec<u8>) -> Result<(), MasterFault> {
    let quote = if token.item.quoted { "\"" } else { "" };
    push(quote, answer)?;
    answer.extend_from_slice(token.item.raw)?;
    push(quote, answer)?;
    let place = format!(in alloc; "@{}:{}:{}", token.start, token.line, token.entry)?;
    push(place.as_str(), answer)
}

/// Appends how many items there are, and a line for each entry: the line that it begins on, and how many items it has.
fn push_entries(
    alloc: Global,
    tokens: &[Token<'_>],
    answer: &mut Vec<u8>,
) -> Result<(), MasterFault> {
    push(
        format!(in alloc; "{} items", tokens.len())?.as_str(),
        answer,
    )?;
    let mut last = None;
    for token in tokens {
        if last != Some(token.entry) {
            push_entry(alloc, tokens, token, answer)?;
            last = Some(token.entry);
        }
    }
    Ok(())
}

/// How many items an entry has.
fn size_of_entry(tokens: &[Token<'_>], entry: usize) -> usize {
    let mut size = 0usize;
    for token in tokens {
        if token.entry == entry {
            size = size.saturating_add(1);
        }
    }
    size
}

/// Appends a line for the entry that begins with a token.
fn push_entry(
    alloc: Global,
    tokens: &[Token<'_>],
    first: &Token<'_>,
    answer: &mut Vec<u8>,
) -> Result<(), MasterFault> {
    let (entry, line) = (first.entry, first.line);
    let items = size_of_entry(tokens, entry);
    let line = format!(in alloc; "\nentry {entry}, line {line}: {items} items")?;
    push(line.as_str(), answer)
}

fn push_records(
    alloc: Global,
    records: &[Record],
    answer: &mut Vec<u8>,
) -> Result<(), MasterFault> {
    if records.is_empty() {
        return push("no record", answer);
    }
    for (i, record) in records.iter().enumerate() {
        if i > 0 {
            push("\n", answer)?;
        }
        push(record_line(alloc, record)?.as_str(), answer)?;
    }
    Ok(())
}

/// Appends what a device gives or takes of the body of a row.
fn push_moved(alloc: Global, row: &Row<'_>, answer: &mut Vec<u8>) -> Result<(), MasterFault> {
    let (most, fails) = row.split();
    Ok(push_taken(alloc, row.verb, device(most, fails), &row.body, answer)?)
}

/// The device of two numbers.
fn device(most: &[u8], rest: &[u8]) -> Device {
    Device {
        most: number(most).unwrap_or(0),
        fails: number(word(rest).0).unwrap_or(0),
    }
}

/// Appends what is printed of the file of a row.
fn push_page(alloc: Global, row: &Row<'_>, answer: &mut Vec<u8>) -> Result<(), MasterFault> {
    let (most, rest) = row.split();
    match row.verb {
        "failing" | "failing-records" => {
            let device = device(most, rest);
            push_file_of(alloc, row, device, word(rest).1, answer)
        }
        _ => push_file_of(alloc, row, device(most, b"0"), rest, answer),
    }
}

fn push_file_of(
    alloc: Global,
    row: &Row<'_>,
    device: Device,
    top: &[u8],
    answer: &mut Vec<u8>,
) -> Result<(), MasterFault> {
    let name = origin(alloc, top)?;
    let records = read_file(alloc, &row.body, &name)?;
    push_page_of(alloc, row.verb, device, &name, &records, answer)
}

fn push_page_of(
    alloc: Global,
    verb: &str,
    device: Device,
    name: &Name,
    records: &[Record],
    answer: &mut Vec<u8>,
) -> Result<(), MasterFault> {
    match verb {
        "print" => push_zone(alloc, device.most, name, records, answer),
        "print-relative" => push_relative(alloc, device.most, name, records, answer),
        "failing" => push_failing(alloc, Sheet::Zone(name, records), device, answer),
        "failing-records" => push_failing(alloc, Sheet::Lines(records), device, answer),
        _ => push_lines(alloc, device.most, records, answer),
    }
}

/// Appends a zone as it is printed, which has to be printed so again once it is read.
fn push_zone(
    alloc: Global,
    most: usize,
    name: &Name,
    zone: &[Record],
    answer: &mut Vec<u8>,
) -> Result<(), MasterFault> {
    let page = printed(alloc, Sheet::Zone(name, zone), most)?;
    answer.extend_from_slice(&page)?;
    if is_printed_again(alloc, most, name, &page)? {
        return Ok(());
    }
    push("and otherwise once it is read", answer)
}

fn is_printed_again(
    alloc: Global,
    most: usize,
    name: &Name,
    page: &[u8],
) -> Result<bool, MasterFault> {
    let again = records(alloc, b".", page)?;
    let printed = printed(alloc, Sheet::Zone(name, &again), most)?;
    Ok(printed.as_slice() == page)
}

/// Appends a zone as it is printed relative to its origin, which has to have the same records once it is read.
fn push_relative(
    alloc: Global,
    most: usize,
    name: &Name,
    zone: &[Record],
    answer: &mut Vec<u8>,
) -> Result<(), MasterFault> {
    let page = printed(alloc, Sheet::Relative(name, zone), most)?;
    answer.extend_from_slice(&page)?;
    let again = records(alloc, b".", &page)?;
    if again.as_slice() == zone {
        return Ok(());
    }
    push("and other records once it is read", answer)
}

/// Appends the lines of records as they are printed.
fn push_lines(
    alloc: Global,
    most: usize,
    records: &[Record],
    answer: &mut Vec<u8>,
) -> Result<(), MasterFault> {
    let page = printed(alloc, Sheet::Lines(records), most)?;
    Ok(answer.extend_from_slice(&page)?)
}

/// Appends what goes out where a write fails, and a bar.
fn push_failing(
    alloc: Global,
    sheet: Sheet<'_>,
    device: Device,
    answer: &mut Vec<u8>,
) -> Result<(), MasterFault> {
    let (octets, done) = printed_failing(alloc, sheet, device.most, device.fails);
    answer.extend_from_slice(&octets)?;
    push("|", answer)?;
    done
}

/// The origin of long zones, and the first line of such a zone as it is printed.
const LONG: &[u8] = b"isi.edu.";

const LONG_HEAD: &[u8] = b"$ORIGIN isi.edu.\n";

/// Appends how much goes out of the zone of so many lines.
fn push_long(alloc: Global, row: &Row<'_>, answer: &mut Vec<u8>) -> Result<(), MasterFault> {
    let (most, rest) = row.split();
    let times = number(word(rest).1).unwrap_or(0);
    let mut lines = Vec::new(alloc);
    push_repeated(&row.body, times, &mut lines)?;
    push_long_lines(alloc, device(most, rest), &lines, answer)
}

fn push_long_lines(
    alloc: Global,
    device: Device,
    lines: &[u8],
    answer: &mut Vec<u8>,
) -> Result<(), MasterFault> {
    let name = origin(alloc, LONG)?;
    let records = read_file(alloc, lines, &name)?;
    let count = format!(in alloc; "{} records: ", records.len())?;
    push(count.as_str(), answer)?;
    push_extent(alloc, Sheet::Zone(&name, &records), device, lines, answer)
}

fn push_extent(
    alloc: Global,
    sheet: Sheet<'_>,
    device: Device,
    lines: &[u8],
    answer: &mut Vec<u8>,
) -> Result<(), MasterFault> {
    let (octets, done) = printed_failing(alloc, sheet, device.most, device.fails);
    let whole = LONG_HEAD.len().saturating_add(lines.len());
    let extent = extent(&octets, lines);
    push(
        format!(in alloc; "{extent} of {whole} octets|")?.as_str(),
        answer,
    )?;
    done
}

/// How much octets have of the head and some lines.
fn extent(octets: &[u8], lines: &[u8]) -> &'static str {
    let Some(rest) = octets.strip_prefix(LONG_HEAD) else {
        return "none";
    };
    if rest == lines {
        "all"
    } else if octets.len() >= 65_536 && lines.starts_with(rest) {
        "65536 or more"
    } else {
        "others"
    }
}
