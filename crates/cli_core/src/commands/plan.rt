//! The command `plan`.

ghost use Rattle.std.specs.Prelude.{◌≡◌};
ghost use Rattle.clap.specs.Words.{first_of, found_of, rows_of};
ghost use Rattle.cli_core.specs.Commands.{argument_name};
ghost use Rattle.cli_core.specs.Jobs.{plan_form_by};
ghost use Rattle.cli_core.specs.Values.{flag_if};
ghost use Rattle.cli_core.specs.declared.argument.Argument.TheVariants as argument;
ghost use Rattle.cli_core.specs.declared.commands.Command.TheVariants as command;

use crate::argument::Argument;
use crate::commands::{CommandWords, Row};
use crate::job::{Job, PlanForm, PlanLines, PlanObject, TextJob};
use crate::matched::{flag_at, texts_at};
use clap::ArgMatches;

/// The words of `plan`.
#[derive(Clone, Copy)]
pub struct Plan<'a> {
    /// The path of the policy.
    pub policy: &'a str,
    /// Who asks.
    pub caller: &'a str,
    /// What is printed.
    pub form: PlanForm,
}

pub(super) static ROW: Row = Row {
    word: "plan",
    about: "Says what the office would answer to an update of a zone",
    example: "Example: zoneoffice plan --policy policy.toml --caller phys < update.txt",
    arguments: &[
        Argument::Policy,
        Argument::Caller,
        Argument::Answers,
        Argument::Explain,
        Argument::Json,
    ],
};

/// What is printed, unless answers are asked for with what is decided.
fn form_at(matches: &ArgMatches<'_>) -> Option<PlanForm>
    ensures { result ≡ plan_form_by (flag_if (first_of (argument_name argument.Answers) (rows_of (found_of matches.now))))
        (flag_if (first_of (argument_name argument.Explain) (rows_of (found_of matches.now))))
        (flag_if (first_of (argument_name argument.Json) (rows_of (found_of matches.now)))) }
{
    match (
        flag_at(matches, Argument::Answers),
        flag_at(matches, Argument::Explain),
        flag_at(matches, Argument::Json),
    ) {
        (false, false, false) => Some(PlanForm::Lines(PlanLines::Records)),
        (true, false, false) => Some(PlanForm::Lines(PlanLines::Answers)),
        (false, true, false) => Some(PlanForm::Lines(PlanLines::Explained)),
        (false, false, true) => Some(PlanForm::Object(PlanObject::Reply)),
        (true, false, true) => Some(PlanForm::Object(PlanObject::Answers)),
        (false, true, true) => Some(PlanForm::Object(PlanObject::Explained)),
        _ => None,
    }
}

impl<'a> CommandWords<'a> for Plan<'a> {
    ghost command = { command.Plan };

    fn read(matches: &ArgMatches<'a>) -> Option<Job<'a>> {
        let (policy, caller) = texts_at(matches, Argument::Policy, Argument::Caller)?;
        let form = form_at(matches)?;
        Some(Job::Text(TextJob::Plan(Plan {
            policy,
            caller,
            form,
        })))
    }
}
