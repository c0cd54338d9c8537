//! The command `import`.

ghost use Rattle.cli_core.specs.declared.commands.Command.TheVariants as command;
ghost use Rattle.std.specs.Prelude.{◌≡◌};
ghost use Rattle.clap.specs.Words.{first_of, found_of, rows_of};
ghost use Rattle.cli_core.specs.declared.argument.Argument.TheVariants as argument;
ghost use Rattle.cli_core.specs.Commands.{argument_name};
ghost use Rattle.cli_core.specs.Values.{flag_if};
ghost use Rattle.cli_core.specs.Jobs.{is_replaced};

use crate::argument::Argument;
use crate::commands::{CommandWords, Row};
use crate::job::{Existing, Job, StoreJob, StoredZone};
use crate::matched::{flag_at, text_at};
use clap::ArgMatches;

/// The words of `import` for one zone.
#[derive(Clone, Copy)]
pub struct Import<'a> {
    /// Which zone, and which store.
    pub zone: StoredZone<'a>,
    /// What becomes of a zone of this origin that is there.
    pub existing: Existing,
}

/// The words of `import` for the zones of a list.
#[derive(Clone, Copy)]
pub struct ImportList<'a> {
    /// The path of the store.
    pub store: &'a str,
    /// The path of the list, or `-` for standard input.
    pub list: &'a str,
    /// What becomes of zones of these origins that are there.
    pub existing: Existing,
}

pub(super) static ROW: Row = Row {
    word: "import",
    about: "Puts a zone into a store, or those of a list",
    example: "Example: zoneoffice import --store office.db --origin example.org. < zone.txt",
    arguments: &[
        Argument::Store,
        Argument::ImportedOrigin,
        Argument::List,
        Argument::Replace,
    ],
};

/// What is to become of zones that are there.
fn existing_at(matches: &ArgMatches<'_>) -> Existing
    ensures { is_replaced result ≡ flag_if (first_of (argument_name argument.Replace) (rows_of (found_of matches.now))) }
{
    if flag_at(matches, Argument::Replace) {
        Existing::Replaced
    } else {
        Existing::Kept
    }
}

impl<'a> CommandWords<'a> for Import<'a> {
    ghost command = { command.Import };

    fn read(matches: &ArgMatches<'a>) -> Option<Job<'a>> {
        let store = text_at(matches, Argument::Store)?;
        let existing = existing_at(matches);
        match (
            text_at(matches, Argument::ImportedOrigin),
            text_at(matches, Argument::List),
        ) {
            (Some(origin), None) => {
                let zone = StoredZone { store, origin };
                Some(Job::Store(StoreJob::Import(Import { zone, existing })))
            }
            (None, Some(list)) => Some(Job::Store(StoreJob::ImportList(ImportList {
                store,
                list,
                existing,
            }))),
            (None, None) | (Some(_), Some(_)) => None,
        }
    }
}
