//! The command `apply`.

ghost use Rattle.cli_core.specs.declared.commands.Command.TheVariants as command;

use crate::commands::{CommandWords, Row};
use crate::job::{Job, TextJob};
use clap::ArgMatches;

/// `apply` has no words after it.
pub(crate) struct Apply;

pub(super) static ROW: Row = Row {
    word: "apply",
    about: "Updates a zone, as without any word",
    example: "Example: zoneoffice apply < update.txt",
    arguments: &[],
};

impl<'a> CommandWords<'a> for Apply {
    ghost command = { command.Apply };

    fn read(_matches: &ArgMatches<'a>) -> Option<Job<'a>> {
        Some(Job::Text(TextJob::Apply))
    }
}
