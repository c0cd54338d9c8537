//! The command `remove`.

ghost use Rattle.cli_core.specs.declared.commands.Command.TheVariants as command;

use crate::argument::Argument;
use crate::commands::{CommandWords, Row};
use crate::job::{Job, StoreJob, StoredZone};
use crate::matched::zone_at;
use clap::ArgMatches;

/// The words of `remove`.
#[derive(Clone, Copy)]
pub struct Remove<'a> {
    /// Which zone, and which store.
    pub zone: StoredZone<'a>,
}

pub(super) static ROW: Row = Row {
    word: "remove",
    about: "Takes a zone out of a store, with its changes; receipts stay",
    example: "Example: zoneoffice remove --store office.db --origin example.org.",
    arguments: &[Argument::Store, Argument::Origin],
};

impl<'a> CommandWords<'a> for Remove<'a> {
    ghost command = { command.Remove };

    fn read(matches: &ArgMatches<'a>) -> Option<Job<'a>> {
        let zone = zone_at(matches)?;
        Some(Job::Store(StoreJob::Remove(Remove { zone })))
    }
}
