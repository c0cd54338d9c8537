//! The command `explain`.

ghost use Rattle.cli_core.specs.declared.commands.Command.TheVariants as command;

use crate::argument::Argument;
use crate::commands::{CommandWords, Row};
use crate::job::{Job, TextForm, TextJob};
use crate::matched::{text_at, text_form_at};
use clap::ArgMatches;

/// The words of `explain`.
#[derive(Clone, Copy)]
pub struct Explain<'a> {
    /// The number, or the code, and all where none is given.
    pub number: Option<&'a str>,
    /// As what it is printed.
    pub form: TextForm,
}

pub(super) static ROW: Row = Row {
    word: "explain",
    about: "Says what the number of a refusal means",
    example: "Example: zoneoffice explain 29.19.1",
    arguments: &[Argument::Number, Argument::Json],
};

impl<'a> CommandWords<'a> for Explain<'a> {
    ghost command = { command.Explain };

    fn read(matches: &ArgMatches<'a>) -> Option<Job<'a>> {
        let number = text_at(matches, Argument::Number);
        let form = text_form_at(matches);
        Some(Job::Text(TextJob::Explain(Explain { number, form })))
    }
}
