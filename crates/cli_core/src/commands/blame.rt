//! The command `blame`.

ghost use Rattle.std.specs.Prelude.{◌≡◌};
ghost use Rattle.clap.specs.Words.{first_of, found_of, rows_of};
ghost use Rattle.cli_core.specs.Commands.{argument_name};
ghost use Rattle.cli_core.specs.Jobs.{has_receipts};
ghost use Rattle.cli_core.specs.Values.{flag_if};
ghost use Rattle.cli_core.specs.declared.argument.Argument.TheVariants as argument;
ghost use Rattle.cli_core.specs.declared.commands.Command.TheVariants as command;

use crate::argument::Argument;
use crate::commands::{CommandWords, Row};
use crate::job::{BlameForm, Job, StoreJob, StoredZone};
use crate::matched::{flag_at, text_at, zone_at};
use clap::ArgMatches;

/// The words of `blame`.
#[derive(Clone, Copy)]
pub struct Blame<'a> {
    /// Which zone, and which store.
    pub zone: StoredZone<'a>,
    /// Within which name, where one is given.
    pub name: Option<&'a str>,
    /// With what the records are printed.
    pub form: BlameForm,
}

pub(super) static ROW: Row = Row {
    word: "blame",
    about: "Prints the records of a zone of a store, each after the change that brought it",
    example: "Example: zoneoffice blame --store office.db --origin example.org. --name www.example.org.",
    arguments: &[
        Argument::Store,
        Argument::Origin,
        Argument::Within,
        Argument::Receipts,
    ],
};

/// With what the records are to be printed.
fn form_at(matches: &ArgMatches<'_>) -> BlameForm
    ensures { has_receipts result ≡ flag_if (first_of (argument_name argument.Receipts) (rows_of (found_of matches.now))) }
{
    if flag_at(matches, Argument::Receipts) {
        BlameForm::Receipts
    } else {
        BlameForm::Changes
    }
}

impl<'a> CommandWords<'a> for Blame<'a> {
    ghost command = { command.Blame };

    fn read(matches: &ArgMatches<'a>) -> Option<Job<'a>> {
        let zone = zone_at(matches)?;
        let name = text_at(matches, Argument::Within);
        let form = form_at(matches);
        Some(Job::Store(StoreJob::Blame(Blame { zone, name, form })))
    }
}
