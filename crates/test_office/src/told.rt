//! What the table of a store tells.

use crate::deed::Deed;
use anyhow::Result;
use dns_data::Record;
use dns_master::read_file;
use dns_names::Name;
use grant_policy::{Action, Grants, Policy};
use office_core::{Call, ZoneTable, step};
use office_store::{KeptReceipt, SqlTable, StoreFault};
use sqlite::Alter;
use std::alloc::{AllocError, Global};
use std::sync::ledger::Ledger;
use test_rows::word;
use test_zones::{call, identifier, name, push_records, reply_text};
use zone_core::Zone;

/// The octets of a text.
pub(crate) fn spelled(alloc: Global, text: &str) -> Result<Vec<u8>> {
    Ok(Vec::from_slice(alloc, text.as_bytes())?)
}

/// What is told of a refusal: its number, and what it says.
pub(crate) fn fault_text(alloc: Global, fault: StoreFault) -> Result<Vec<u8>> {
    let number = fault.number();
    spelled(
        alloc,
        format!(in alloc; "refused {number}: {fault}")?.as_str(),
    )
}

/// What a table tells.
pub(crate) fn told<S: Alter + Drop, L: Ledger>(
    alloc: Global,
    table: &mut SqlTable<S, L>,
    policy: &Policy,
    deed: &Deed,
) -> Result<Vec<u8>> {
    match deed.verb.as_str() {
        "look" => looked(alloc, table, policy, str::from_utf8(&deed.body)?),
        "import" => imported(alloc, table, deed),
        "replace" => replaced(alloc, table, deed),
        verb => answered(alloc, table, policy, verb, &deed.text, &deed.body),
    }
}

/// What it tells of each line, one below the other. A line may have one item of an update after a `|`.
fn looked<S: Alter + Drop, L: Ledger>(
    alloc: Global,
    table: &mut SqlTable<S, L>,
    policy: &Policy,
    lines: &str,
) -> Result<Vec<u8>> {
    let mut all = Vec::new(alloc);
    for line in lines.lines() {
        let (call, item) = line.split_once(" | ").unwrap_or((line, ""));
        let (verb, text) = call.split_once(' ').unwrap_or((call, ""));
        let told = answered(alloc, table, policy, verb, text.as_bytes(), item.as_bytes())?;
        all.extend_from_slice(&told)?;
        all.push(b'\n')?;
    }
    Ok(all)
}

/// What it tells of itself, or replies to a call.
fn answered<S: Alter + Drop, L: Ledger>(
    alloc: Global,
    table: &mut SqlTable<S, L>,
    policy: &Policy,
    verb: &str,
    text: &[u8],
    body: &[u8],
) -> Result<Vec<u8>> {
    match verb {
        "adopt" => spelled(alloc, "held"),
        "export" => exported(alloc, table, text),
        "origins" => origins(alloc, table),
        "receipts" => receipts(alloc, table),
        "remove" => removed(alloc, table, text),
        "subtree" => subtree(alloc, table, policy, text),
        "receipt" => receipt(alloc, table, text),
        _ => asked(alloc, table, policy, verb, text, body),
    }
}

/// The reply to the call of a verb.
fn asked<T: ZoneTable>(
    alloc: Global,
    table: &mut T,
    policy: &Policy,
    verb: &str,
    text: &[u8],
    body: &[u8],
) -> Result<Vec<u8>> {
    replied(alloc, table, policy, &call(alloc, verb, text, body)?)
}

/// The records of a master file.
fn records(alloc: Global, origin: &[u8], text: &[u8]) -> Result<Vec<Record>> {
    let origin = name(alloc, origin)?;
    Ok(read_file(alloc, text, &origin)?)
}

fn imported<S: Alter + Drop, L: Ledger>(
    alloc: Global,
    table: &mut SqlTable<S, L>,
    deed: &Deed,
) -> Result<Vec<u8>> {
    let origin = name(alloc, &deed.text)?;
    let records = records(alloc, &deed.text, &deed.body)?;
    taken_text(alloc, table.import(alloc, origin, records))
}

fn replaced<S: Alter + Drop, L: Ledger>(
    alloc: Global,
    table: &mut SqlTable<S, L>,
    deed: &Deed,
) -> Result<Vec<u8>> {
    let origin = name(alloc, &deed.text)?;
    let records = records(alloc, &deed.text, &deed.body)?;
    taken_text(alloc, table.replace(alloc, origin, records))
}

/// What is told of a zone that is taken: its serial, and how many records it has.
fn taken_text(alloc: Global, taken: Result<Zone, StoreFault>) -> Result<Vec<u8>> {
    match taken {
        Ok(zone) => zone_text(alloc, &zone),
        Err(fault) => fault_text(alloc, fault),
    }
}

fn zone_text(alloc: Global, zone: &Zone) -> Result<Vec<u8>> {
    let count = zone.records().len();
    let text = format!(in alloc; "serial {}, {count} records", zone.serial())?;
    spelled(alloc, text.as_str())
}

fn exported<S: Alter + Drop, L: Ledger>(
    alloc: Global,
    table: &mut SqlTable<S, L>,
    text: &[u8],
) -> Result<Vec<u8>> {
    let origin = name(alloc, text)?;
    match table.export_records(alloc, &origin) {
        Ok(records) => records_text(alloc, &records),
        Err(fault) => fault_text(alloc, fault),
    }
}

fn records_text(alloc: Global, records: &[Record]) -> Result<Vec<u8>> {
    let mut text = Vec::new(alloc);
    push_records(alloc, "", records, &mut text)?;
    Ok(text)
}

/// What is told of a zone that goes.
fn removed<S: Alter + Drop, L: Ledger>(
    alloc: Global,
    table: &mut SqlTable<S, L>,
    text: &[u8],
) -> Result<Vec<u8>> {
    let origin = name(alloc, text)?;
    match table.remove(alloc, &origin) {
        Ok(()) => spelled(alloc, "done"),
        Err(fault) => fault_text(alloc, fault),
    }
}

/// The origins of all zones, a line each.
fn origins<S: Alter + Drop, L: Ledger>(
    alloc: Global,
    table: &mut SqlTable<S, L>,
) -> Result<Vec<u8>> {
    match table.origins(alloc) {
        Ok(names) => origins_text(alloc, &names),
        Err(fault) => fault_text(alloc, fault),
    }
}

fn origins_text(alloc: Global, names: &[Name]) -> Result<Vec<u8>> {
    let mut text = Vec::new(alloc);
    for name in names {
        let line = name.text(alloc)?;
        push_line(line.as_str(), &mut text)?;
    }
    Ok(text)
}

/// Appends a line below others.
fn push_line(line: &str, text: &mut Vec<u8>) -> Result<(), AllocError> {
    if !text.is_empty() {
        text.push(b'\n')?;
    }
    text.extend_from_slice(line.as_bytes())
}

/// The caller, the identifier and the origin of each receipt, a line each.
fn receipts<S: Alter + Drop, L: Ledger>(
    alloc: Global,
    table: &mut SqlTable<S, L>,
) -> Result<Vec<u8>> {
    match table.receipts(alloc) {
        Ok(kept) => receipts_text(alloc, &kept),
        Err(fault) => fault_text(alloc, fault),
    }
}

fn receipts_text(alloc: Global, kept: &[KeptReceipt]) -> Result<Vec<u8>> {
    let mut text = Vec::new(alloc);
    for one in kept {
        let (caller, id) = (one.caller.as_bytes(), one.id.as_bytes());
        let origin = one.receipt.origin.text(alloc)?;
        let line = format!(in alloc;
            "{} {} {origin}",
            str::from_utf8(caller)?,
            str::from_utf8(id)?
        )?;
        push_line(line.as_str(), &mut text)?;
    }
    Ok(text)
}

/// The records that a table has within a name, as far as the policy grants a caller to list them.
fn subtree<T: ZoneTable>(
    alloc: Global,
    table: &mut T,
    policy: &Policy,
    text: &[u8],
) -> Result<Vec<u8>> {
    let (caller, names) = word(text);
    let caller = identifier(alloc, caller)?;
    let (origin, top) = word(names);
    let (origin, top) = (name(alloc, origin)?, name(alloc, top)?);
    let mut grants = Grants::new(alloc, policy, &caller, Action::List);
    match table.subtree(alloc, &origin, &top, &mut grants)? {
        Some(records) => records_text(alloc, &records),
        None => spelled(alloc, "no zone"),
    }
}

/// Whether a table has the receipt of a caller under an identifier.
fn receipt<T: ZoneTable>(alloc: Global, table: &mut T, text: &[u8]) -> Result<Vec<u8>> {
    let (caller, id) = word(text);
    let caller = identifier(alloc, caller)?;
    match table.receipt(alloc, &caller, &identifier(alloc, id)?)? {
        Some(_) => spelled(alloc, "receipt"),
        None => spelled(alloc, "no receipt"),
    }
}

/// The reply to a call.
fn replied<T: ZoneTable>(
    alloc: Global,
    table: &mut T,
    policy: &Policy,
    call: &Call,
) -> Result<Vec<u8>> {
    let reply = step(alloc, table, policy, &call.caller, &call.request);
    Ok(reply_text(alloc, &reply)?)
}
