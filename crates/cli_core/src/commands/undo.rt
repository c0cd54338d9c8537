//! The command `undo`.

ghost use Rattle.cli_core.specs.declared.commands.Command.TheVariants as command;

use crate::argument::Argument;
use crate::commands::{CommandWords, Row};
use crate::job::{Job, StoreJob, StoredZone};
use crate::matched::{number_at, zone_at};
use clap::ArgMatches;

/// The words of `undo`.
#[derive(Clone, Copy)]
pub struct Undo<'a> {
    /// Which zone, and which store.
    pub zone: StoredZone<'a>,
    /// The number of the first change to undo, and the last one of the zone where none is given.
    pub first: Option<u64>,
    /// The number of the last change to undo, and that of the first where none is given.
    pub last: Option<u64>,
}

pub(super) static ROW: Row = Row {
    word: "undo",
    about: "Prints the items that undo a change of a zone of a store, or are refused",
    example: "Example: zoneoffice undo --store office.db --origin example.org. --change 17 | zoneoffice request --id u17",
    arguments: &[
        Argument::Store,
        Argument::Origin,
        Argument::Changed,
        Argument::To,
    ],
};

impl<'a> CommandWords<'a> for Undo<'a> {
    ghost command = { command.Undo };

    fn read(matches: &ArgMatches<'a>) -> Option<Job<'a>> {
        let zone = zone_at(matches)?;
        let first = number_at(matches, Argument::Changed)?;
        let last = number_at(matches, Argument::To)?;
        Some(Job::Store(StoreJob::Undo(Undo { zone, first, last })))
    }
}
