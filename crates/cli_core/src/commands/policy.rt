//! The command `policy`.

ghost use Rattle.cli_core.specs.declared.commands.Command.TheVariants as command;
ghost use Rattle.std.specs.Prelude.{◌≡◌, option_map};
ghost use Rattle.clap.specs.Words.{found_of, rows_of};
ghost use Rattle.cli_core.specs.Jobs.{asks_policy};
ghost use Rattle.cli_core.specs.Words.{policy_by};

use crate::argument::Argument;
use crate::commands::{CommandWords, Row};
use crate::job::{Job, TextJob};
use crate::matched::text_at;
use clap::ArgMatches;

/// From what a policy is printed.
#[derive(Clone, Copy)]
pub enum PolicySource {
    /// From a file of groups and templates.
    Groups,
    /// From a policy.
    Rules,
}

/// The words of `policy`.
#[derive(Clone, Copy)]
pub struct PolicyText<'a> {
    /// From what it is printed.
    pub source: PolicySource,
    /// The path of that, and standard input where none is given.
    pub file: Option<&'a str>,
    /// The origins of the zones for which rules are wanted, and all rules where none are given.
    pub zones: Option<&'a str>,
}

pub(super) static ROW: Row = Row {
    word: "policy",
    about: "Prints a policy: made from groups and templates, or only the rules that matter in some zones",
    example: "Example: zoneoffice policy build groups.toml > policy.toml",
    arguments: &[Argument::Source, Argument::SourceFile, Argument::Slice],
};

impl<'a> CommandWords<'a> for PolicyText<'a> {
    ghost command = { command.Policy };

    fn read(matches: &ArgMatches<'a>) -> Option<Job<'a>> {
        let source = text_at(matches, Argument::Source)?;
        let text = policy_in(source, matches)?;
        Some(Job::Text(TextJob::Policy(text)))
    }
}

/// The job of `policy` with the word of a source.
fn policy_in<'a>(source: &str, matches: &ArgMatches<'a>) -> Option<PolicyText<'a>>
    ensures { option_map asks_policy result ≡ policy_by source.now (rows_of (found_of matches.now)) }
{
    let file = text_at(matches, Argument::SourceFile);
    let zones = text_at(matches, Argument::Slice);
    let source = match source {
        "build" => PolicySource::Groups,
        "print" => PolicySource::Rules,
        _ => return None,
    };
    Some(PolicyText {
        source,
        file,
        zones,
    })
}
