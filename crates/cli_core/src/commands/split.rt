//! The command `split`.

ghost use Rattle.std.specs.Prelude.{◌≡◌};
ghost use Rattle.clap.specs.Words.{first_of, found_of, rows_of};
ghost use Rattle.cli_core.specs.Commands.{argument_name};
ghost use Rattle.cli_core.specs.Jobs.{part_by};
ghost use Rattle.cli_core.specs.Values.{flag_if};
ghost use Rattle.cli_core.specs.declared.argument.Argument.TheVariants as argument;
ghost use Rattle.cli_core.specs.declared.commands.Command.TheVariants as command;

use crate::argument::Argument;
use crate::commands::{CommandWords, Row};
use crate::job::{Job, TextJob};
use crate::matched::{flag_at, texts_at};
use clap::ArgMatches;
use dns_master::FilePart;

/// The words of `split`.
#[derive(Clone, Copy)]
pub struct Split<'a> {
    /// The name of the origin under which the file is read.
    pub origin: &'a str,
    /// The path of the master file, or `-`.
    pub file: &'a str,
    /// Which part of its records is printed.
    pub part: FilePart,
}

pub(super) static ROW: Row = Row {
    word: "split",
    about: "Prints what the office keeps of a master file of any types, or the rest",
    example: "Example: zoneoffice split --rest --origin example.org. zone.txt",
    arguments: &[
        Argument::Origin,
        Argument::Rest,
        Argument::Signer,
        Argument::File,
    ],
};

/// The part to be printed, where not two are asked for.
fn part_at(matches: &ArgMatches<'_>) -> Option<FilePart>
    ensures { result ≡ part_by (flag_if (first_of (argument_name argument.Rest) (rows_of (found_of matches.now))))
        (flag_if (first_of (argument_name argument.Signer) (rows_of (found_of matches.now)))) }
{
    match (
        flag_at(matches, Argument::Rest),
        flag_at(matches, Argument::Signer),
    ) {
        (false, false) => Some(FilePart::Kept),
        (true, false) => Some(FilePart::Rest),
        (false, true) => Some(FilePart::Signer),
        (true, true) => None,
    }
}

impl<'a> CommandWords<'a> for Split<'a> {
    ghost command = { command.Split };

    fn read(matches: &ArgMatches<'a>) -> Option<Job<'a>> {
        let (origin, file) = texts_at(matches, Argument::Origin, Argument::File)?;
        let part = part_at(matches)?;
        Some(Job::Text(TextJob::Split(Split { origin, file, part })))
    }
}
