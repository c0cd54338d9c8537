//! Replies, by their words.

use dns_data::Record;
use dns_names::Name;
use grant_policy::Identifier;
use office_model::{
    NumberedChange, Reading, Reply, Right, SeenChange, StepFault, TableFault, UpdateReply,
};
use std::alloc::{AllocError, Global};
use test_rows::Row;
use wire_json::{BodyFault, form_error_text, read_update, refusal_text};
use zone_core::{
    Change, DelegatedServer, Delegation, Failed, Glue, ItemList, Operation, Place, PrerequisiteCode,
};

/// The reply of a row.
pub fn reply_of(alloc: Global, row: &Row<'_>) -> Result<Reply, BodyFault> {
    match row.verb {
        "id-reused" => Ok(Reply::IdReused),
        "servfail" => Ok(Reply::Servfail(StepFault::Commit(TableFault::Store))),
        "not-auth" => Ok(Reply::NotAuth),
        "not-zone" => Ok(Reply::NotZone),
        "reply" => update(alloc, &row.text),
        "granted" | "denied" => right(alloc, row),
        "file" => file(alloc, row),
        _ => reply_of_lines(alloc, row),
    }
}

/// The reply of the lines below a row.
fn reply_of_lines(alloc: Global, row: &Row<'_>) -> Result<Reply, BodyFault> {
    match row.verb {
        "records" => listed(alloc, &row.body),
        "changes" => changed(alloc, &row.body),
        "delegations" => delegated(alloc, &row.body),
        _ => Err(BodyFault::BadField),
    }
}

fn update(alloc: Global, text: &[u8]) -> Result<Reply, BodyFault> {
    let reply = update_reply(alloc, text_of(text)?)?;
    Ok(Reply::Update(reply))
}

fn listed(alloc: Global, lines: &[u8]) -> Result<Reply, BodyFault> {
    let records = records(alloc, lines)?;
    Ok(Reply::Read(Reading::Records(records)))
}

fn changed(alloc: Global, lines: &[u8]) -> Result<Reply, BodyFault> {
    let changes = changes(alloc, text_of(lines)?)?;
    Ok(Reply::Read(Reading::Changes(changes)))
}

fn delegated(alloc: Global, lines: &[u8]) -> Result<Reply, BodyFault> {
    let delegations = delegations(alloc, text_of(lines)?)?;
    Ok(Reply::Read(Reading::Delegations(delegations)))
}

fn right(alloc: Global, row: &Row<'_>) -> Result<Reply, BodyFault> {
    let right = match row.verb {
        "granted" => Right::Granted(Identifier::read(alloc, &row.text)?),
        _ => Right::Denied(rule(alloc, text_of(&row.text)?)?),
    };
    Ok(Reply::Read(Reading::Right(right)))
}

fn file(alloc: Global, row: &Row<'_>) -> Result<Reply, BodyFault> {
    let origin = Name::read_absolute(alloc, &row.text)?;
    let records = records(alloc, &row.body)?;
    Ok(Reply::Read(Reading::File { origin, records }))
}

/// Appends the body of FORMERR with a refusal, and that of another refusal.
pub fn push_refusals(row: &Row<'_>, answer: &mut Vec<u8>) -> Result<(), BodyFault> {
    let (malformed, refused) = cut(text_of(&row.text)?, ' ');
    form_error_text(number(malformed)?, answer)?;
    Ok(refusal_text(number(refused)?, answer)?)
}

fn number(text: &str) -> Result<u8, BodyFault> {
    text.parse::<u8>().or(Err(BodyFault::BadField))
}

fn text_of(octets: &[u8]) -> Result<&str, BodyFault> {
    str::from_utf8(octets).or(Err(BodyFault::BadField))
}

/// The text before the first of a character, and what follows it; all of it, and nothing, where it does not occur.
fn cut(text: &str, at: char) -> (&str, &str) {
    text.split_once(at).unwrap_or((text, ""))
}

/// The reply to an update, by its code and, where it has them, the list, the number of the item, and the rule.
fn update_reply(alloc: Global, text: &str) -> Result<UpdateReply, BodyFault> {
    let (code, rest) = cut(text, ' ');
    let (list, rest) = cut(rest, ' ');
    let (item, by) = cut(rest, ' ');
    let item = item.parse::<usize>().unwrap_or(0);
    let list = match list {
        "operations" => ItemList::Operations,
        _ => ItemList::Prerequisites,
    };
    let place = Place { list, item };
    match code {
        "NOERROR" => Ok(UpdateReply::NoError),
        "NOTAUTH" => Ok(UpdateReply::NotAuth),
        "NOTZONE" => Ok(UpdateReply::NotZone(place)),
        "REFUSED" => refused(alloc, place, by),
        _ => failed(code, item),
    }
}

fn refused(alloc: Global, place: Place, by: &str) -> Result<UpdateReply, BodyFault> {
    let by = rule(alloc, by)?;
    Ok(UpdateReply::Refused { place, by })
}

fn failed(code: &str, item: usize) -> Result<UpdateReply, BodyFault> {
    let code = failure(code)?;
    Ok(UpdateReply::Failed(Failed { code, item }))
}

/// The code of a prerequisite that does not hold.
fn failure(code: &str) -> Result<PrerequisiteCode, BodyFault> {
    match code {
        "NXDOMAIN" => Ok(PrerequisiteCode::NxDomain),
        "NXRRSET" => Ok(PrerequisiteCode::NxRrset),
        "YXDOMAIN" => Ok(PrerequisiteCode::YxDomain),
        "YXRRSET" => Ok(PrerequisiteCode::YxRrset),
        _ => Err(BodyFault::BadField),
    }
}

/// The rule of an identifier, or that of none where there is no text.
fn rule(alloc: Global, text: &str) -> Result<Option<Identifier>, BodyFault> {
    if text.is_empty() {
        return Ok(None);
    }
    Ok(Some(Identifier::read(alloc, text.as_bytes())?))
}

/// The records that items of a body add.
fn records(alloc: Global, items: &[u8]) -> Result<Vec<Record>, BodyFault> {
    let items = text_of(items)?;
    let body = format!(in alloc; "{{\"id\":\"a1\",\"operations\":[{items}]}}")?;
    records_of(alloc, body.as_bytes())
}

fn records_of(alloc: Global, body: &[u8]) -> Result<Vec<Record>, BodyFault> {
    Ok(added(alloc, read_update(alloc, body)?.update.operations())?)
}

/// The records that operations add.
fn added(alloc: Global, operations: &[Operation]) -> Result<Vec<Record>, AllocError> {
    let mut records = Vec::new(alloc);
    for change in operations {
        if let Operation::Add(record) = change {
            records.push(record.try_copy(alloc)?)?;
        }
    }
    Ok(records)
}

fn changes(alloc: Global, lines: &str) -> Result<Vec<NumberedChange>, BodyFault> {
    let mut changes = Vec::new(alloc);
    for line in lines.lines() {
        changes.push(numbered_change(alloc, line)?)?;
    }
    Ok(changes)
}

fn numbered_change(alloc: Global, line: &str) -> Result<NumberedChange, BodyFault> {
    let (number, sides) = cut(line, '|');
    let number = number.parse::<u64>().or(Err(BodyFault::BadField))?;
    let change = change(alloc, sides)?;
    let change = SeenChange::of(alloc, &mut String::new(alloc), &change)?;
    Ok(NumberedChange { number, change })
}

fn change(alloc: Global, sides: &str) -> Result<Change, BodyFault> {
    let (removed, added) = cut(sides, '|');
    let removed = records(alloc, removed.as_bytes())?;
    let added = records(alloc, added.as_bytes())?;
    Ok(Change { removed, added })
}

fn delegations(alloc: Global, lines: &str) -> Result<Vec<Delegation>, BodyFault> {
    let mut delegations = Vec::new(alloc);
    for line in lines.lines() {
        delegations.push(delegation(alloc, line)?)?;
    }
    Ok(delegations)
}

fn delegation(alloc: Global, line: &str) -> Result<Delegation, BodyFault> {
    let (child, rest) = cut(line, '|');
    let child = Name::read_absolute(alloc, child.as_bytes())?;
    let servers = servers(alloc, rest)?;
    Ok(Delegation { child, servers })
}

/// The servers of a delegation, each after the word for its glue.
fn servers(alloc: Global, text: &str) -> Result<Vec<DelegatedServer>, BodyFault> {
    let mut servers = Vec::new(alloc);
    for server in text.split('|') {
        let (glue, name) = cut(server, ' ');
        let Some(glue) = glue_of(glue) else {
            return Ok(servers);
        };
        let name = Name::read_absolute(alloc, name.as_bytes())?;
        servers.push(DelegatedServer { name, glue })?;
    }
    Ok(servers)
}

fn glue_of(word: &str) -> Option<Glue> {
    match word {
        "outside" => Some(Glue::Outside),
        "listed" => Some(Glue::Listed),
        "unlisted" => Some(Glue::Unlisted),
        _ => None,
    }
}
