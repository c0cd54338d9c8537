//! The commands, in one table, and each in a module: its words, its row in the table, and how it is read.

ghost use Rattle.std.specs.Prelude.{◌≡◌, map, find, bytes_eq, option_map};
ghost use Rattle.clap.specs.Words.{found_of, rows_of};
ghost use Rattle.cli_core.specs.declared.commands.Command.{Command};
ghost use Rattle.cli_core.specs.Jobs.{asks};
ghost use Rattle.cli_core.specs.Words.{job_by};

mod answer;
mod apply;
mod blame;
mod canon;
mod check;
mod diff;
mod explain;
mod export;
mod import;
mod log;
mod migrate;
mod plan;
mod policy;
mod remove;
mod request;
mod reverse;
mod rights;
mod serve;
mod split;
mod undo;
mod zones;

use crate::argument::Argument;
use crate::job::Job;
pub use answer::Answer;
use apply::Apply;
pub use blame::Blame;
pub use canon::Canon;
pub use check::{Check, CheckSubject, Reach};
use clap::ArgMatches;
pub use diff::Diff;
pub use explain::Explain;
pub use export::Export;
pub use import::{Import, ImportList};
pub use log::Log;
pub use migrate::Migrate;
pub use plan::Plan;
pub use policy::{PolicySource, PolicyText};
pub use remove::Remove;
pub use request::Request;
pub use reverse::Reverse;
pub use rights::Rights;
pub use serve::Service;
pub use split::Split;
pub use undo::Undo;
pub use zones::Zones;

/// A command of the program: the first word of the command line.
#[derive(Clone, Copy)]
pub enum Command {
    Apply,
    Canon,
    Diff,
    Request,
    Import,
    Export,
    Zones,
    Log,
    Blame,
    Undo,
    Migrate,
    Remove,
    Rights,
    Plan,
    Serve,
    Check,
    Policy,
    Answer,
    Reverse,
    Split,
    Explain,
}

/// A row of the table of commands.
pub(crate) struct Row {
    /// The word that names the command.
    pub(crate) word: &'static str,
    /// What it does, for the help.
    pub(crate) about: &'static str,
    /// How it is used, for the end of its help.
    pub(crate) example: &'static str,
    /// What it takes after its word.
    pub(crate) arguments: &'static [Argument],
}

/// The words of a command.
pub(crate) trait CommandWords<'a> {
    ghost command: { Command };

    /// The job that matched words ask for.
    fn read(matches: &ArgMatches<'a>) -> Option<Job<'a>>
        ensures { option_map asks result ≡ job_by command (rows_of (found_of matches.now)) };
}

impl Command {
    ghost use Rattle.cli_core.specs.Commands.{command_word, arguments_of, command_of};
    ghost use Rattle.cli_core.specs.Help.{command_about, command_example};

    /// The commands, in the order of the help.
    pub const ALL: [Command; 21] = [
        Command::Apply,
        Command::Canon,
        Command::Diff,
        Command::Request,
        Command::Import,
        Command::Export,
        Command::Zones,
        Command::Log,
        Command::Blame,
        Command::Undo,
        Command::Migrate,
        Command::Remove,
        Command::Rights,
        Command::Plan,
        Command::Serve,
        Command::Check,
        Command::Policy,
        Command::Answer,
        Command::Reverse,
        Command::Split,
        Command::Explain,
    ];

    /// The one table of commands.
    const fn row(self) -> &'static Row
        ensures word { result.now.word.now ≡ command_word self }
        ensures about { result.now.about.now ≡ command_about self }
        ensures example { result.now.example.now ≡ command_example self }
        ensures arguments { result.now.arguments.now ≡ arguments_of self }
    {
        match self {
            Command::Apply => &apply::ROW,
            Command::Canon => &canon::ROW,
            Command::Diff => &diff::ROW,
            Command::Request => &request::ROW,
            Command::Import => &import::ROW,
            Command::Export => &export::ROW,
            Command::Zones => &zones::ROW,
            Command::Log => &log::ROW,
            Command::Blame => &blame::ROW,
            Command::Undo => &undo::ROW,
            Command::Migrate => &migrate::ROW,
            Command::Remove => &remove::ROW,
            Command::Rights => &rights::ROW,
            Command::Plan => &plan::ROW,
            Command::Serve => &serve::ROW,
            Command::Check => &check::ROW,
            Command::Policy => &policy::ROW,
            Command::Answer => &answer::ROW,
            Command::Reverse => &reverse::ROW,
            Command::Split => &split::ROW,
            Command::Explain => &explain::ROW,
        }
    }

    /// The word that names the command.
    pub fn word(self) -> &'static str
        ensures { result.now ≡ command_word self }
    {
        self.row().word
    }

    /// What the command does, in one line.
    pub fn about(self) -> &'static str
        ensures { result.now ≡ command_about self }
    {
        self.row().about
    }

    /// How the command is used, in one line.
    pub fn example(self) -> &'static str
        ensures { result.now ≡ command_example self }
    {
        self.row().example
    }

    /// What the command takes after its word.
    pub fn arguments(self) -> &'static [Argument]
        ensures { result.now ≡ arguments_of self }
    {
        self.row().arguments
    }

    /// The command that a word names.
    pub fn read(word: &str) -> Option<Command>
        ensures { result ≡ command_of word.now }
    {
        Command::ALL
            .iter()
            .copied()
            .find(|command| command.word() == word)
    }

    /// The job that matched words of the command ask for.
    pub(crate) fn job<'a>(self, matches: &ArgMatches<'a>) -> Option<Job<'a>>
        ensures { option_map asks result ≡ job_by self (rows_of (found_of matches.now)) }
    {
        match self {
            Command::Apply => Apply::read(matches),
            Command::Canon => Canon::read(matches),
            Command::Diff => Diff::read(matches),
            Command::Request => Request::read(matches),
            Command::Import => Import::read(matches),
            Command::Export => Export::read(matches),
            Command::Zones => Zones::read(matches),
            Command::Log => Log::read(matches),
            Command::Blame => Blame::read(matches),
            Command::Undo => Undo::read(matches),
            Command::Migrate => Migrate::read(matches),
            Command::Remove => Remove::read(matches),
            Command::Rights => Rights::read(matches),
            Command::Plan => Plan::read(matches),
            Command::Serve => Service::read(matches),
            Command::Check => Check::read(matches),
            Command::Policy => PolicyText::read(matches),
            Command::Answer => Answer::read(matches),
            Command::Reverse => Reverse::read(matches),
            Command::Split => Split::read(matches),
            Command::Explain => Explain::read(matches),
        }
    }
}
