use std::alloc::{AllocError, Global};
use test_commands::{push_command_answer, push_words_answer};
use test_dns::{Records, push_file_answer, push_name_answer};
use test_office::{Office, Stops, Stores};
use test_program::{Callers, Files};
use test_rows::{Answers, Row, text_of};
use test_tables::{Kept, Tables};
use test_zones::{Items, Policies, Zones, push_body_answer};

/// What rows are about.
#[derive(Clone, Copy)]
enum Section {
    Names,
    Data,
    Files,
    Policies,
    Zones,
    Items,
    Bodies,
    Tables,
    States,
    Stores,
    Stops,
    Exchanges,
    Commands,
    Words,
    Stored,
    Callers,
}

/// Answers to rows of the section that is open.
#[derive(Drop)]
pub struct Sections<'a> {
    section: Section,
    records: Records,
    policies: Policies,
    zones: Zones,
    items: Items,
    tables: Tables,
    kept: Kept,
    stores: Stores,
    stops: Stops,
    office: Office,
    files: Files<'a>,
    callers: Callers<'a>,
}

impl<'a> Sections<'a> {
    /// The section of names is open, with no record ranked, no policy, no zone, no store and no file, and nobody listens.
    pub fn new(rt: &'a HostRuntime) -> Sections<'a> {
        let alloc = rt.alloc();
        Sections {
            section: Section::Names,
            records: Records::new(alloc),
            policies: Policies::new(),
            zones: Zones::new(),
            items: Items::new(),
            tables: Tables::new(alloc),
            kept: Kept::new(alloc),
            stores: Stores::new(alloc),
            stops: Stops::new(alloc),
            office: Office::new(alloc),
            files: Files::new(rt),
            callers: Callers::new(rt),
        }
    }

    /// Opens the section of a row.
    fn open(&mut self, row: &Row<'_>, answer: &mut Vec<u8>) -> Result<(), AllocError> {
        match section_of(text_of(&row.text)) {
            Some(section) => self.section = section,
            None => return answer.extend_from_slice(b"no such section"),
        }
        Ok(())
    }
}

fn section_of(name: &str) -> Option<Section> {
    Some(match name {
        "names" => Section::Names,
        "data" => Section::Data,
        "files" => Section::Files,
        "policies" => Section::Policies,
        "zones" => Section::Zones,
        "items" => Section::Items,
        "bodies" => Section::Bodies,
        "tables" => Section::Tables,
        "states" => Section::States,
        "stores" => Section::Stores,
        "stops" => Section::Stops,
        "exchanges" => Section::Exchanges,
        "commands" => Section::Commands,
        "words" => Section::Words,
        "stored" => Section::Stored,
        "callers" => Section::Callers,
        _ => return None,
    })
}

impl Answers for Sections<'_> {
    fn answer(
        &mut self,
        alloc: Global,
        row: &Row<'_>,
        answer: &mut Vec<u8>,
    ) -> Result<(), AllocError> {
        if row.verb == "section" {
            return self.open(row, answer);
        }
        match self.section {
            Section::Names => push_name_answer(alloc, row, answer),
            Section::Data => self.records.answer(alloc, row, answer),
            Section::Files => push_file_answer(alloc, row, answer),
            Section::Policies => self.policies.answer(alloc, row, answer),
            Section::Zones => self.zones.answer(alloc, row, answer),
            Section::Items => self.items.answer(alloc, row, answer),
            Section::Bodies => push_body_answer(alloc, row, answer),
            Section::Tables => self.tables.answer(alloc, row, answer),
            Section::States => self.kept.answer(alloc, row, answer),
            Section::Stores => self.stores.answer(alloc, row, answer),
            Section::Stops => self.stops.answer(alloc, row, answer),
            Section::Exchanges => self.office.answer(alloc, row, answer),
            Section::Commands => push_command_answer(alloc, row, answer),
            Section::Words => push_words_answer(alloc, row, answer),
            Section::Stored => self.files.answer(alloc, row, answer),
            Section::Callers => self.callers.answer(alloc, row, answer),
        }
    }
}
