//! Which questions two zones answer otherwise: the rows, and whether they agree with the answers to each question about many names.

use crate::texts::{answer_text, query_type_text};
use dns_data::Data;
use dns_master::read_file;
use dns_names::Name;
use std::io;
use zone_answers::{ChangedAnswers, QueryType, QuestionGroup, ZoneIndex, changed_answers};
use zone_core::Zone;

fn index_of(rt: &HostRuntime, origin: &Name, text: &str) -> io::Result<Option<ZoneIndex>> {
    let Ok(records) = read_file(rt.alloc(), text.as_bytes(), origin) else {
        return Ok(None);
    };
    let Ok(zone) = Zone::build(rt.alloc(), origin.try_copy(rt.alloc())?, records) else {
        return Ok(None);
    };
    Ok(Some(ZoneIndex::new(rt.alloc(), zone)?))
}

fn group_text(rt: &HostRuntime, group: &QuestionGroup) -> io::Result<String> {
    let text = match group {
        QuestionGroup::At(name) => format!(in rt.alloc(); "at {name}")?,
        QuestionGroup::Others(name) => format!(in rt.alloc(); "others below {name}")?,
    };
    Ok(text)
}

fn print_row(rt: &HostRuntime, row: &ChangedAnswers) -> io::Result<()> {
    let mut line = group_text(rt, &row.group)?;
    for asked in &row.types {
        line.push_str(" ")?;
        line.push_str(query_type_text(*asked))?;
    }
    println!(rt; "{line}")
}

fn exists(old: &Zone, new: &Zone, name: &Name) -> bool {
    !old.records_within(name).is_empty() || !new.records_within(name).is_empty()
}

fn is_target(zone: &Zone, name: &Name) -> bool {
    for record in zone.records() {
        if let Data::Cname(target) = &record.rdata {
            if target == name {
                return true;
            }
        }
    }
    false
}

/// The closest encloser of a name that does not exist, in either zone.
fn encloser(rt: &HostRuntime, old: &Zone, new: &Zone, name: &Name) -> io::Result<Option<Name>> {
    let mut above = name.try_copy(rt.alloc())?;
    for _ in 0..128 {
        if exists(old, new, &above) {
            return Ok(Some(above));
        }
        match above.parent(rt.alloc())? {
            Some(parent) => above = parent,
            None => return Ok(None),
        }
    }
    Ok(None)
}

fn is_in(
    rt: &HostRuntime,
    old: &Zone,
    new: &Zone,
    group: &QuestionGroup,
    name: &Name,
) -> io::Result<bool> {
    match group {
        QuestionGroup::At(own) => Ok(own == name),
        QuestionGroup::Others(top) => {
            if exists(old, new, name) || is_target(old, name) || is_target(new, name) {
                return Ok(false);
            }
            let Some(nearest) = encloser(rt, old, new, name)? else {
                return Ok(false);
            };
            Ok(nearest == *top)
        }
    }
}

/// How many rows have a question.
fn count_rows(
    rt: &HostRuntime,
    old: &ZoneIndex,
    new: &ZoneIndex,
    rows: &[ChangedAnswers],
    name: &Name,
    asked: QueryType,
) -> io::Result<usize> {
    let mut found = Vec::new(rt.alloc());
    for row in rows {
        if row.types.contains(&asked) && is_in(rt, old.zone(), new.zone(), &row.group, name)? {
            found.push(row)?;
        }
    }
    Ok(found.len())
}

/// Prints each type in which the rows and the answers disagree at a name.
fn check_name(
    rt: &HostRuntime,
    old: &ZoneIndex,
    new: &ZoneIndex,
    rows: &[ChangedAnswers],
    text: &str,
) -> io::Result<()> {
    let Ok(name) = Name::read_absolute(rt.alloc(), text.as_bytes()) else {
        return println!(rt; "no name: {text}");
    };
    for asked in &QueryType::ALL {
        let before = answer_text(rt, &old.answer(rt.alloc(), &name, *asked)?)?;
        let after = answer_text(rt, &new.answer(rt.alloc(), &name, *asked)?)?;
        let wanted = if before == after { 0 } else { 1 };
        if count_rows(rt, old, new, rows, &name, *asked)? != wanted {
            println!(rt; "wrong at {name} {}", query_type_text(*asked))?;
        }
    }
    Ok(())
}

/// The names of one label more.
fn deeper(rt: &HostRuntime, labels: &str, names: &[String]) -> io::Result<Vec<String>> {
    let mut more = Vec::new(rt.alloc());
    for name in names {
        for label in labels.split(' ') {
            more.push(format!(in rt.alloc(); "{label}.{name}")?)?;
        }
    }
    Ok(more)
}

/// Compares rows with the answers at all names of some labels, at most three below the origin.
fn check_all(
    rt: &HostRuntime,
    old: &ZoneIndex,
    new: &ZoneIndex,
    rows: &[ChangedAnswers],
    labels: &str,
) -> io::Result<()> {
    let mut names = Vec::new(rt.alloc());
    names.push(format!(in rt.alloc(); "{}", old.zone().origin())?)?;
    for _ in 0..4 {
        for name in &names {
            check_name(rt, old, new, rows, name)?;
        }
        names = deeper(rt, labels, &names)?;
    }
    Ok(())
}

/// The rows, if the zones are of one origin.
fn rows_of(
    rt: &HostRuntime,
    old: &ZoneIndex,
    new: &ZoneIndex,
) -> io::Result<Option<Vec<ChangedAnswers>>> {
    let before = old.zone().origin();
    let after = new.zone().origin();
    if before == after {
        return Ok(Some(changed_answers(rt.alloc(), old, new)?));
    }
    Ok(None)
}

fn compare(
    rt: &HostRuntime,
    origin: &Name,
    labels: &str,
    before: &str,
    after: &str,
) -> io::Result<()> {
    let Some(old) = index_of(rt, origin, before)? else {
        return println!(rt; "no zone before");
    };
    let Some(new) = index_of(rt, origin, after)? else {
        return println!(rt; "no zone after");
    };
    let Some(rows) = rows_of(rt, &old, &new)? else {
        return println!(rt; "two origins");
    };
    for row in &rows {
        print_row(rt, row)?;
    }
    check_all(rt, &old, &new, &rows, labels)
}

fn push_line(text: &mut String, line: &str) -> io::Result<()> {
    text.push_str(line)?;
    text.push_str("\n")?;
    Ok(())
}

/// Appends a line of a case to the zones that it stands for.
fn push_lines(before: &mut String, after: &mut String, line: &str) -> io::Result<()> {
    if let Some(record) = line.strip_prefix('-') {
        push_line(before, record)?;
    }
    if let Some(record) = line.strip_prefix('+') {
        push_line(after, record)?;
    }
    if let Some(record) = line.strip_prefix(' ') {
        push_line(before, record)?;
        push_line(after, record)?;
    }
    Ok(())
}

/// A case: on its first line labels, a colon and what it shows; then records, with a space before those of both zones, `-` before those of
/// the first one, and `+` before those of the second.
pub fn print_case(rt: &HostRuntime, origin: &Name, case: &str) -> io::Result<()> {
    let Some((head, lines)) = case.split_once('\n') else {
        return println!(rt; "no case");
    };
    let Some((labels, title)) = head.split_once(':') else {
        return println!(rt; "no labels");
    };
    println!(rt; ";{title}")?;
    let mut before = String::new(rt.alloc());
    let mut after = String::new(rt.alloc());
    for line in lines.lines() {
        push_lines(&mut before, &mut after, line)?;
    }
    compare(rt, origin, labels, &before, &after)
}
