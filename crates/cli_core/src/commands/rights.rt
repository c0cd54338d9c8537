//! The command `rights`.

ghost use Rattle.cli_core.specs.declared.commands.Command.TheVariants as command;

use crate::argument::Argument;
use crate::commands::{CommandWords, Row};
use crate::job::{Job, QuestionWords, TextForm, TextJob};
use crate::matched::{text_at, text_form_at, texts_at};
use clap::ArgMatches;

/// The words of `rights`.
#[derive(Clone, Copy)]
pub struct Rights<'a> {
    /// The path of the policy.
    pub policy: &'a str,
    /// What is asked.
    pub asked: QuestionWords<'a>,
    /// As what the decision is printed.
    pub form: TextForm,
}

pub(super) static ROW: Row = Row {
    word: "rights",
    about: "Asks a policy whether a caller may do something",
    example: "Example: zoneoffice rights --policy policy.toml --caller phys www.example.org. A add",
    arguments: &[
        Argument::Policy,
        Argument::Caller,
        Argument::Name,
        Argument::Type,
        Argument::Action,
        Argument::Json,
    ],
};

impl<'a> CommandWords<'a> for Rights<'a> {
    ghost command = { command.Rights };

    fn read(matches: &ArgMatches<'a>) -> Option<Job<'a>> {
        let (policy, caller) = texts_at(matches, Argument::Policy, Argument::Caller)?;
        let (name, record_type) = texts_at(matches, Argument::Name, Argument::Type)?;
        let action = text_at(matches, Argument::Action)?;
        let asked = QuestionWords {
            caller,
            name,
            record_type,
            action,
        };
        Some(Job::Text(TextJob::Rights(Rights {
            policy,
            asked,
            form: text_form_at(matches),
        })))
    }
}
