//! The command `canon`.

ghost use Rattle.cli_core.specs.declared.commands.Command.TheVariants as command;

use crate::argument::Argument;
use crate::commands::{CommandWords, Row};
use crate::job::{Job, TextJob, ZoneForm};
use crate::matched::{text_at, zone_form_at};
use clap::ArgMatches;

/// The words of `canon`.
#[derive(Clone, Copy)]
pub struct Canon<'a> {
    /// The name of its origin.
    pub origin: &'a str,
    /// In which form it is printed.
    pub form: ZoneForm,
}

pub(super) static ROW: Row = Row {
    word: "canon",
    about: "Prints a zone in canonical form",
    example: "Example: zoneoffice canon --origin example.org. < zone.txt",
    arguments: &[Argument::Origin, Argument::Relative],
};

impl<'a> CommandWords<'a> for Canon<'a> {
    ghost command = { command.Canon };

    fn read(matches: &ArgMatches<'a>) -> Option<Job<'a>> {
        let origin = text_at(matches, Argument::Origin)?;
        let form = zone_form_at(matches);
        Some(Job::Text(TextJob::Canon(Canon { origin, form })))
    }
}
