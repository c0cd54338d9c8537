//! The bodies of replies that list what there is.

ghost use Rattle.std.specs.Prelude.{◌≡◌, ◌++◌, ◌∷◌, [], map};
ghost use Rattle.dns_names.specs.Spelling.{name_text};
ghost use Rattle.dns_master.specs.ZoneText.{origin_line, ended_line, records_text, zone_text};
ghost use Rattle.wire_json.specs.Json.{quoted, listed};
ghost use Rattle.wire_json.specs.Appending.{Appends, comma_before};
ghost use Rattle.wire_json.specs.Replies.{glue_text, line_value, lines_value, records_body, change_value, changes_body, server_value, delegation_value, delegations_body};

use crate::piece::{push_all, push_comma, push_quoted};
use dns_data::Record;
use dns_names::Name;
use itoa::Buffer;
use office_model::{NumberedChange, RecordLines, first_line};
use std::alloc::AllocError;
use std::fmt::Write;
use zone_core::{DelegatedServer, Delegation, Glue};

/// A record of this number among others, as a line.
#[tactic(auto, using(crate::proofs::AppendLemmas::front_on))]
fn push_line(
    out: &mut Vec<u8>,
    line: &mut String,
    number: usize,
    rr: &Record,
) -> Result<(), AllocError>
    ensures { Appends out.old out.new (comma_before number ++ line_value rr.now) result }
{
    line.clear();
    write!(line, "{rr}")?;
    push_comma(out, number)?;
    push_quoted(out, line.as_bytes())
}

/// The lines of records, with commas between them.
#[tactic(auto, using(crate::proofs::AppendLemmas::front_on, crate::proofs::AppendLemmas::item_pushed, crate::proofs::AppendLemmas::items_done))]
fn push_listed_lines(
    out: &mut Vec<u8>,
    line: &mut String,
    records: &[Record],
) -> Result<(), AllocError>
    ensures { Appends out.old out.new (listed (map line_value records.now)) result }
{
    for (i, rr) in records.iter().enumerate() {
        push_line(out, line, i, rr)?;
    }
    Ok(())
}

/// Appends an array of the lines of records, each a string. What `line` holds is lost: room for one line. The only error is out of memory.
#[tactic(auto, using(crate::proofs::AppendLemmas::front_on))]
pub fn push_lines(
    out: &mut Vec<u8>,
    line: &mut String,
    records: &[Record],
) -> Result<(), AllocError>
    ensures { Appends out.old out.new (lines_value records.now) result }
{
    out.push(b'[')?;
    push_listed_lines(out, line, records)?;
    out.push(b']')?;
    Ok(())
}

/// A text of this number among others, as a string.
#[tactic(auto, using(crate::proofs::AppendLemmas::front_on))]
fn push_text(out: &mut Vec<u8>, number: usize, text: &str) -> Result<(), AllocError>
    ensures { Appends out.old out.new (comma_before number ++ quoted text.now) result }
{
    push_comma(out, number)?;
    push_quoted(out, text.as_bytes())
}

/// Lines of records as strings, with commas between them.
#[tactic(auto, using(crate::proofs::AppendLemmas::front_on, crate::proofs::AppendLemmas::items_done))]
fn push_each_line(out: &mut Vec<u8>, lines: &RecordLines) -> Result<(), AllocError>
    ensures { Appends out.old out.new (listed (map line_value lines.now)) result }
{
    let mut rest = lines.text();
    let mut number = 0;
    while let Some((line, more)) = first_line(rest) {
        push_text(out, number, line)?;
        rest = more;
        number += 1;
    }
    Ok(())
}

/// Lines of records.
#[tactic(auto, using(crate::proofs::AppendLemmas::front_on))]
fn push_record_lines(out: &mut Vec<u8>, lines: &RecordLines) -> Result<(), AllocError>
    ensures { Appends out.old out.new (lines_value lines.now) result }
{
    out.push(b'[')?;
    push_each_line(out, lines)?;
    out.push(b']')?;
    Ok(())
}

/// Records.
#[tactic(auto, using(crate::proofs::AppendLemmas::front_on))]
pub(crate) fn push_records(out: &mut Vec<u8>, records: &[Record]) -> Result<(), AllocError>
    ensures { Appends out.old out.new (records_body records.now) result }
{
    let mut line = String::new(*out.allocator());
    push_all(out, &[r#"{"records":"#.as_bytes()])?;
    push_lines(out, &mut line, records)?;
    out.push(b'}')?;
    Ok(())
}

/// A change of this number among others.
#[tactic(auto, using(crate::proofs::AppendLemmas::front_on))]
fn push_change(out: &mut Vec<u8>, number: usize, change: &NumberedChange) -> Result<(), AllocError>
    ensures { Appends out.old out.new (comma_before number ++ change_value change.now) result }
{
    let mut digits = Buffer::new();
    push_comma(out, number)?;
    push_all(out, &[r#"{"added":"#.as_bytes()])?;
    push_record_lines(out, &change.change.added)?;
    push_all(
        out,
        &[
            r#","number":"#.as_bytes(),
            digits.format(change.number).as_bytes(),
            r#","removed":"#.as_bytes(),
        ],
    )?;
    push_record_lines(out, &change.change.removed)?;
    out.push(b'}')?;
    Ok(())
}

/// Changes, with commas between them.
#[tactic(auto, using(crate::proofs::AppendLemmas::front_on, crate::proofs::AppendLemmas::item_pushed, crate::proofs::AppendLemmas::items_done))]
fn push_listed_changes(out: &mut Vec<u8>, changes: &[NumberedChange]) -> Result<(), AllocError>
    ensures { Appends out.old out.new (listed (map change_value changes.now)) result }
{
    for (i, change) in changes.iter().enumerate() {
        push_change(out, i, change)?;
    }
    Ok(())
}

/// Changes.
#[tactic(auto, using(crate::proofs::AppendLemmas::front_on))]
pub(crate) fn push_changes(out: &mut Vec<u8>, changes: &[NumberedChange]) -> Result<(), AllocError>
    ensures { Appends out.old out.new (changes_body changes.now) result }
{
    push_all(out, &[r#"{"changes":["#.as_bytes()])?;
    push_listed_changes(out, changes)?;
    push_all(out, &["]}".as_bytes()])?;
    Ok(())
}

/// Appends a name as a string. What `line` holds is lost: room for the name. The only error is out of memory.
#[tactic(auto, using(crate::proofs::AppendLemmas::front_on))]
pub fn push_name(out: &mut Vec<u8>, line: &mut String, name: &Name) -> Result<(), AllocError>
    ensures { Appends out.old out.new (quoted (name_text name.now)) result }
{
    line.clear();
    write!(line, "{name}")?;
    push_quoted(out, line.as_bytes())
}

/// What there is of a server's glue.
const fn glue_text(glue: Glue) -> &'static str
    ensures { result.now ≡ glue_text glue }
{
    match glue {
        Glue::Outside => "outside",
        Glue::Listed => "listed",
        Glue::Unlisted => "unlisted",
    }
}

/// A server of this number among others.
#[tactic(auto, using(crate::proofs::AppendLemmas::front_on))]
fn push_server(
    out: &mut Vec<u8>,
    line: &mut String,
    number: usize,
    server: &DelegatedServer,
) -> Result<(), AllocError>
    ensures { Appends out.old out.new (comma_before number ++ server_value server.now) result }
{
    push_comma(out, number)?;
    push_all(
        out,
        &[
            r#"{"glue":""#.as_bytes(),
            glue_text(server.glue).as_bytes(),
            r#"","name":"#.as_bytes(),
        ],
    )?;
    push_name(out, line, &server.name)?;
    out.push(b'}')?;
    Ok(())
}

/// Servers, with commas between them.
#[tactic(auto, using(crate::proofs::AppendLemmas::front_on, crate::proofs::AppendLemmas::item_pushed, crate::proofs::AppendLemmas::items_done))]
fn push_listed_servers(
    out: &mut Vec<u8>,
    line: &mut String,
    servers: &[DelegatedServer],
) -> Result<(), AllocError>
    ensures { Appends out.old out.new (listed (map server_value servers.now)) result }
{
    for (i, server) in servers.iter().enumerate() {
        push_server(out, line, i, server)?;
    }
    Ok(())
}

/// A delegation of this number among others.
#[tactic(auto, using(crate::proofs::AppendLemmas::front_on))]
fn push_delegation(
    out: &mut Vec<u8>,
    line: &mut String,
    number: usize,
    delegation: &Delegation,
) -> Result<(), AllocError>
    ensures { Appends out.old out.new (comma_before number ++ delegation_value delegation.now) result }
{
    push_comma(out, number)?;
    push_all(out, &[r#"{"child":"#.as_bytes()])?;
    push_name(out, line, &delegation.child)?;
    push_all(out, &[r#","servers":["#.as_bytes()])?;
    push_listed_servers(out, line, &delegation.servers)?;
    push_all(out, &["]}".as_bytes()])?;
    Ok(())
}

/// Delegations, with commas between them.
#[tactic(auto, using(crate::proofs::AppendLemmas::front_on, crate::proofs::AppendLemmas::item_pushed, crate::proofs::AppendLemmas::items_done))]
fn push_listed_delegations(out: &mut Vec<u8>, delegations: &[Delegation]) -> Result<(), AllocError>
    ensures { Appends out.old out.new (listed (map delegation_value delegations.now)) result }
{
    let mut line = String::new(*out.allocator());
    for (i, delegation) in delegations.iter().enumerate() {
        push_delegation(out, &mut line, i, delegation)?;
    }
    Ok(())
}

/// Delegations.
#[tactic(auto, using(crate::proofs::AppendLemmas::front_on))]
pub(crate) fn push_delegations(
    out: &mut Vec<u8>,
    delegations: &[Delegation],
) -> Result<(), AllocError>
    ensures { Appends out.old out.new (delegations_body delegations.now) result }
{
    push_all(out, &[r#"{"delegations":["#.as_bytes()])?;
    push_listed_delegations(out, delegations)?;
    push_all(out, &["]}".as_bytes()])?;
    Ok(())
}

/// The line of an origin in a master file.
fn push_origin(out: &mut Vec<u8>, line: &mut String, origin: &Name) -> Result<(), AllocError>
    ensures { Appends out.old out.new (origin_line origin.now) result }
{
    line.clear();
    writeln!(line, "$ORIGIN {origin}")?;
    out.extend_from_slice(line.as_bytes())
}

/// The line of a record in a master file.
#[tactic(auto, using(crate::proofs::AppendLemmas::front_on))]
fn push_file_line(out: &mut Vec<u8>, line: &mut String, rr: &Record) -> Result<(), AllocError>
    ensures { Appends out.old out.new (ended_line rr.now) result }
{
    line.clear();
    writeln!(line, "{rr}")?;
    out.extend_from_slice(line.as_bytes())
}

/// The lines of records in a master file.
#[tactic(auto, using(crate::proofs::AppendLemmas::front_on))]
fn push_file_lines(
    out: &mut Vec<u8>,
    line: &mut String,
    records: &[Record],
) -> Result<(), AllocError>
    ensures { Appends out.old out.new (records_text records.now) result }
{
    for rr in records {
        push_file_line(out, line, rr)?;
    }
    Ok(())
}

/// A zone as a master file (RFC 1035 section 5.1).
#[tactic(auto, using(crate::proofs::AppendLemmas::front_on))]
pub(crate) fn push_file(
    out: &mut Vec<u8>,
    origin: &Name,
    records: &[Record],
) -> Result<(), AllocError>
    ensures { Appends out.old out.new (zone_text origin.now records.now) result }
{
    let mut line = String::new(*out.allocator());
    push_origin(out, &mut line, origin)?;
    push_file_lines(out, &mut line, records)
}
