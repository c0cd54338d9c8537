//! The command `answer`.

ghost use Rattle.cli_core.specs.declared.commands.Command.TheVariants as command;

use crate::argument::Argument;
use crate::commands::{CommandWords, Row};
use crate::job::{Job, TextForm, TextJob};
use crate::matched::{text_at, text_form_at, texts_at};
use clap::ArgMatches;

/// The words of `answer`.
#[derive(Clone, Copy)]
pub struct Answer<'a> {
    /// The name of the zone's origin.
    pub origin: &'a str,
    /// The path of its master file, or `-`.
    pub file: &'a str,
    /// The name that is asked for, or `-`.
    pub name: &'a str,
    /// The type that is asked for, where one is given.
    pub asked: Option<&'a str>,
    /// As what the answers are printed.
    pub form: TextForm,
}

pub(super) static ROW: Row = Row {
    word: "answer",
    about: "Prints what a server answers from a zone",
    example: "Example: zoneoffice answer --origin example.org. zone.txt www.example.org. A",
    arguments: &[
        Argument::Origin,
        Argument::File,
        Argument::AskedName,
        Argument::AskedType,
        Argument::Json,
    ],
};

impl<'a> CommandWords<'a> for Answer<'a> {
    ghost command = { command.Answer };

    fn read(matches: &ArgMatches<'a>) -> Option<Job<'a>> {
        let origin = text_at(matches, Argument::Origin)?;
        let (file, name) = texts_at(matches, Argument::File, Argument::AskedName)?;
        if file == "-" && name == "-" {
            return None;
        }
        let asked = text_at(matches, Argument::AskedType);
        if name == "-" && asked.is_some() {
            return None;
        }
        Some(Job::Text(TextJob::Answer(Answer {
            origin,
            file,
            name,
            asked,
            form: text_form_at(matches),
        })))
    }
}
