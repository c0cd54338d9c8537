//! The command `log`.

ghost use Rattle.cli_core.specs.declared.commands.Command.TheVariants as command;

use crate::argument::Argument;
use crate::commands::{CommandWords, Row};
use crate::job::{Job, LogChoice, StoreJob, StoredZone};
use crate::matched::{number_at, text_at, text_form_at, zone_at};
use clap::ArgMatches;

/// The words of `log`.
#[derive(Clone, Copy)]
pub struct Log<'a> {
    /// Which zone, and which store.
    pub zone: StoredZone<'a>,
    /// Which of them.
    pub choice: LogChoice<'a>,
}

pub(super) static ROW: Row = Row {
    word: "log",
    about: "Prints the changes of a zone of a store, and the receipts",
    example: "Example: zoneoffice log --store office.db --origin example.org. --name www.example.org.",
    arguments: &[
        Argument::Store,
        Argument::Origin,
        Argument::From,
        Argument::Within,
        Argument::Asker,
        Argument::Json,
    ],
};

impl<'a> CommandWords<'a> for Log<'a> {
    ghost command = { command.Log };

    fn read(matches: &ArgMatches<'a>) -> Option<Job<'a>> {
        let zone = zone_at(matches)?;
        let from = number_at(matches, Argument::From)?;
        let name = text_at(matches, Argument::Within);
        let caller = text_at(matches, Argument::Asker);
        let form = text_form_at(matches);
        let choice = LogChoice {
            from,
            name,
            caller,
            form,
        };
        Some(Job::Store(StoreJob::Log(Log { zone, choice })))
    }
}
