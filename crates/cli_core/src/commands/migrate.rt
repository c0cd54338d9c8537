//! The command `migrate`.

ghost use Rattle.cli_core.specs.declared.commands.Command.TheVariants as command;

use crate::argument::Argument;
use crate::commands::{CommandWords, Row};
use crate::job::{Job, StoreJob};
use crate::matched::text_at;
use clap::ArgMatches;

/// The words of `migrate`.
#[derive(Clone, Copy)]
pub struct Migrate<'a> {
    /// The path of the store.
    pub store: &'a str,
}

pub(super) static ROW: Row = Row {
    word: "migrate",
    about: "Takes a store of version 1 to version 2",
    example: "Example: zoneoffice migrate --store office.db",
    arguments: &[Argument::Store],
};

impl<'a> CommandWords<'a> for Migrate<'a> {
    ghost command = { command.Migrate };

    fn read(matches: &ArgMatches<'a>) -> Option<Job<'a>> {
        let store = text_at(matches, Argument::Store)?;
        Some(Job::Store(StoreJob::Migrate(Migrate { store })))
    }
}
