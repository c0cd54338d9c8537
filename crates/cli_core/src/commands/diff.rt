//! The command `diff`.

ghost use Rattle.std.specs.Prelude.{◌≡◌};
ghost use Rattle.clap.specs.Words.{first_of, found_of, rows_of};
ghost use Rattle.cli_core.specs.Commands.{argument_name};
ghost use Rattle.cli_core.specs.Jobs.{content_by};
ghost use Rattle.cli_core.specs.Values.{flag_if};
ghost use Rattle.cli_core.specs.declared.argument.Argument.TheVariants as argument;
ghost use Rattle.cli_core.specs.declared.commands.Command.TheVariants as command;

use crate::argument::Argument;
use crate::commands::{CommandWords, Row};
use crate::job::{DiffContent, DiffForm, GuardScope, ItemForm, Job, TextJob, ZoneFiles};
use crate::matched::{flag_at, text_at, text_form_at, texts_at};
use clap::ArgMatches;

/// The words of `diff`.
#[derive(Clone, Copy)]
pub struct Diff<'a> {
    /// The name of their origin.
    pub origin: &'a str,
    /// Where the two zones are.
    pub files: ZoneFiles<'a>,
    /// What is printed of them.
    pub form: DiffForm,
}

pub(super) static ROW: Row = Row {
    word: "diff",
    about: "Prints the items that lead from a zone to another",
    example: "Example: zoneoffice diff --origin example.org. old.zone new.zone",
    arguments: &[
        Argument::Origin,
        Argument::Guard,
        Argument::GuardSets,
        Argument::Answers,
        Argument::Json,
        Argument::Old,
        Argument::New,
    ],
};

/// What is printed, where no two of prerequisites by names, prerequisites by sets, and answers are asked for.
fn content_at(matches: &ArgMatches<'_>) -> Option<DiffContent>
    ensures { result ≡ content_by (flag_if (first_of (argument_name argument.Guard) (rows_of (found_of matches.now))))
        (flag_if (first_of (argument_name argument.GuardSets) (rows_of (found_of matches.now))))
        (flag_if (first_of (argument_name argument.Answers) (rows_of (found_of matches.now)))) }
{
    match (
        flag_at(matches, Argument::Guard),
        flag_at(matches, Argument::GuardSets),
        flag_at(matches, Argument::Answers),
    ) {
        (false, false, false) => Some(DiffContent::Items(ItemForm::Bare)),
        (true, false, false) => Some(DiffContent::Items(ItemForm::Guarded(GuardScope::Names))),
        (false, true, false) => Some(DiffContent::Items(ItemForm::Guarded(GuardScope::Sets))),
        (false, false, true) => Some(DiffContent::Answers),
        _ => None,
    }
}

impl<'a> CommandWords<'a> for Diff<'a> {
    ghost command = { command.Diff };

    fn read(matches: &ArgMatches<'a>) -> Option<Job<'a>> {
        let origin = text_at(matches, Argument::Origin)?;
        let (old, new) = texts_at(matches, Argument::Old, Argument::New)?;
        if old == "-" && new == "-" {
            return None;
        }
        let files = ZoneFiles { old, new };
        let content = content_at(matches)?;
        let text = text_form_at(matches);
        Some(Job::Text(TextJob::Diff(Diff {
            origin,
            files,
            form: DiffForm { content, text },
        })))
    }
}
