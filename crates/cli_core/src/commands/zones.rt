//! The command `zones`.

ghost use Rattle.cli_core.specs.declared.commands.Command.TheVariants as command;

use crate::argument::Argument;
use crate::commands::{CommandWords, Row};
use crate::job::{Job, StoreJob};
use crate::matched::text_at;
use clap::ArgMatches;

/// The words of `zones`.
#[derive(Clone, Copy)]
pub struct Zones<'a> {
    /// The path of the store.
    pub store: &'a str,
}

pub(super) static ROW: Row = Row {
    word: "zones",
    about: "Prints the zones of a store",
    example: "Example: zoneoffice zones --store office.db",
    arguments: &[Argument::Store],
};

impl<'a> CommandWords<'a> for Zones<'a> {
    ghost command = { command.Zones };

    fn read(matches: &ArgMatches<'a>) -> Option<Job<'a>> {
        let store = text_at(matches, Argument::Store)?;
        Some(Job::Store(StoreJob::Zones(Zones { store })))
    }
}
