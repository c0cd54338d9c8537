//! Answers questions about a zone. Standard input has the origin on a line, the zone as a master file, a line `?`, and then questions,
//! one on each line: a name, a space and a type. Lines that begin with `;` are printed as they are.
//!
//! Below each question stand the code of its answer, whether the server has authority (`aa`), and the records of each section.
//!
//! Then, after lines `!`, come changes of zones of the same origin. Below the title of each stand the names and types that are answered
//! otherwise, and a line for each question about the labels of the case for which they disagree with the answers of the two zones.
#![tactic(auto)]

mod changes;
mod texts;

use crate::changes::print_case;
use dns_data::{Record, RecordType};
use dns_master::read_file;
use dns_names::Name;
use std::io::{self, Read};
use zone_answers::{QueryType, ZoneIndex};
use zone_core::Zone;

/// The type that a question names: any word that is no type which is kept, and not `ANY`, stands for one that no zone has.
fn query_type(word: &str) -> QueryType {
    match RecordType::read(word.as_bytes()) {
        Ok(kept) => QueryType::Kept(kept),
        Err(_) if word == "ANY" => QueryType::Any,
        Err(_) => QueryType::Other,
    }
}

fn print_section(rt: &HostRuntime, section: &str, records: &[Record]) -> io::Result<()> {
    for record in records {
        println!(rt; "{section} {record}")?;
    }
    Ok(())
}

fn print_answer(
    rt: &HostRuntime,
    index: &ZoneIndex,
    name: &Name,
    asked: QueryType,
) -> io::Result<()> {
    let answer = index.answer(rt.alloc(), name, asked)?;
    let authority = if answer.authoritative { " aa" } else { "" };
    println!(rt; "{}{authority}", answer.code.text())?;
    print_section(rt, "answer", &answer.answer)?;
    print_section(rt, "authority", &answer.authority)?;
    print_section(rt, "additional", &answer.additional)
}

fn answer_line(rt: &HostRuntime, index: &ZoneIndex, line: &str) -> io::Result<()> {
    let Some((name, word)) = line.split_once(' ') else {
        return println!(rt; "{line}");
    };
    if name == ";" {
        return println!(rt; "{line}");
    }
    match Name::read_absolute(rt.alloc(), name.as_bytes()) {
        Ok(name) => print_answer(rt, index, &name, query_type(word)),
        Err(_) => println!(rt; "no name"),
    }
}

fn answer_all(rt: &HostRuntime, origin: &Name, zone: &str, questions: &str) -> io::Result<()> {
    let Ok(records) = read_file(rt.alloc(), zone.as_bytes(), origin) else {
        return println!(rt; "no master file");
    };
    let Ok(zone) = Zone::build(rt.alloc(), origin.try_copy(rt.alloc())?, records) else {
        return println!(rt; "no zone");
    };
    let index = ZoneIndex::new(rt.alloc(), zone)?;
    for line in questions.lines() {
        answer_line(rt, &index, line)?;
    }
    Ok(())
}

fn print_cases(rt: &HostRuntime, origin: &Name, cases: &str) -> io::Result<()> {
    for case in cases.split('!') {
        print_case(rt, origin, case)?;
    }
    Ok(())
}

fn main(rt: HostRuntime) -> io::Result<()> {
    let mut text = String::new(rt.alloc());
    rt.stdin().read_to_string(&mut text)?;
    let Some((origin, rest)) = text.split_once('\n') else {
        return println!(rt; "no origin");
    };
    let Some((zone, rest)) = rest.split_once("\n?\n") else {
        return println!(rt; "no questions");
    };
    let Some((questions, cases)) = rest.split_once('!') else {
        return println!(rt; "no changes");
    };
    let Ok(origin) = Name::read_absolute(rt.alloc(), origin.as_bytes()) else {
        return println!(rt; "no name");
    };
    answer_all(&rt, &origin, zone, questions)?;
    print_cases(&rt, &origin, cases)
}
