//! The command `reverse`.

ghost use Rattle.cli_core.specs.declared.commands.Command.TheVariants as command;

use crate::argument::Argument;
use crate::commands::{CommandWords, Row};
use crate::job::{Job, TextJob};
use crate::matched::texts_at;
use clap::ArgMatches;

/// The words of `reverse`.
#[derive(Clone, Copy)]
pub struct Reverse<'a> {
    /// The name of the reverse zone's origin.
    pub origin: &'a str,
    /// The path of the master files of forward zones, one after the other, or `-`.
    pub file: &'a str,
}

pub(super) static ROW: Row = Row {
    word: "reverse",
    about: "Prints the PTR records that addresses call for",
    example: "Example: zoneoffice reverse --origin 2.0.192.in-addr.arpa. zone.txt",
    arguments: &[Argument::Origin, Argument::File],
};

impl<'a> CommandWords<'a> for Reverse<'a> {
    ghost command = { command.Reverse };

    fn read(matches: &ArgMatches<'a>) -> Option<Job<'a>> {
        let (origin, file) = texts_at(matches, Argument::Origin, Argument::File)?;
        Some(Job::Text(TextJob::Reverse(Reverse { origin, file })))
    }
}
