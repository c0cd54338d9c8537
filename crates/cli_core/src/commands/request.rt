//! The command `request`.

ghost use Rattle.cli_core.specs.declared.commands.Command.TheVariants as command;

use crate::argument::Argument;
use crate::commands::{CommandWords, Row};
use crate::job::{Job, RequestForm, TextJob};
use crate::matched::text_at;
use clap::ArgMatches;

/// The words of `request`.
#[derive(Clone, Copy)]
pub struct Request<'a> {
    /// The identifier of the update, or what stands before the numbers of its parts.
    pub id: &'a str,
    /// In one body, or in parts.
    pub form: RequestForm,
}

pub(super) static ROW: Row = Row {
    word: "request",
    about: "Prints the body of an update, or the bodies of its parts, for the HTTP service",
    example: "Example: zoneoffice diff --guard --origin example.org. old.zone new.zone | zoneoffice request --id a1",
    arguments: &[Argument::Id, Argument::Split],
};

impl<'a> CommandWords<'a> for Request<'a> {
    ghost command = { command.Request };

    fn read(matches: &ArgMatches<'a>) -> Option<Job<'a>> {
        let (id, form) = match (
            text_at(matches, Argument::Id),
            text_at(matches, Argument::Split),
        ) {
            (Some(id), None) => (id, RequestForm::Whole),
            (None, Some(id)) => (id, RequestForm::Split),
            (None, None) | (Some(_), Some(_)) => return None,
        };
        Some(Job::Text(TextJob::Request(Request { id, form })))
    }
}
