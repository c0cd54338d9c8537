//! The help that words ask for.

ghost use Rattle.std.specs.Prelude.{◌≡◌, ◌++◌, Some, map, option_and_then, slice_get, string_bytes, IfOk, OnOk};
ghost use Rattle.cli_core.specs.Commands.{command_of};
ghost use Rattle.cli_core.specs.Help.{command_line, command_helped, program_help, version_line, IsHelpOf};

use crate::commands::Command;
use crate::parser::VERSION;
use std::alloc::{AllocError, Global};

/// The help of the program up to its commands.
const BEFORE_COMMANDS: &str = "Usage: zoneoffice [COMMAND]\n\nCommands:\n";

/// The help of the program after them.
const AFTER_COMMANDS: &str =
    "  help     Print this message or the help of the given subcommand(s)\n\nOptions:\n  -h, --help     Print help\n  -V, --version  Print version\n";

/// How many columns the words of commands have.
const COLUMNS: usize = 9;

/// The command that the second of words names.
fn second_command(words: &[&str]) -> Option<Command>
    ensures { result ≡ option_and_then command_of (slice_get (map (λ s. s.now) words.now) 1) }
{
    let second = *words.get(1)?;
    Command::read(second)
}

/// The command whose help words ask for, if it is not that of the program.
fn command_helped(words: &[&str]) -> Option<Command>
    ensures { result ≡ command_helped (map (λ s. s.now) words.now) }
{
    let first = *words.first()?;
    if first == "help" {
        second_command(words)
    } else {
        Command::read(first)
    }
}

/// The line of a command. The only error is out of memory.
fn command_line(alloc: Global, command: Command) -> Result<String, AllocError>
    ensures { IfOk result (λ line. string_bytes line ≡ command_line command) }
{
    let word = command.word();
    let space = " ".repeat(alloc, COLUMNS.saturating_sub(word.len()))?;
    format!(in alloc; "  {word}{space}{}\n", command.about())
}

/// Appends the line of a command.
fn push_line(alloc: Global, text: &mut String, command: Command) -> Result<(), AllocError>
    ensures { OnOk result (string_bytes text.new ≡ string_bytes text.old ++ command_line command) }
{
    let line = command_line(alloc, command)?;
    text.push_str(line.as_str())
}

/// The help of the program: its commands, each with what it does. The only error is out of memory.
fn program_help(alloc: Global) -> Result<String, AllocError>
    ensures { IfOk result (λ text. string_bytes text ≡ program_help) }
{
    let mut text = String::from_str(alloc, BEFORE_COMMANDS)?;
    for command in &Command::ALL {
        push_line(alloc, &mut text, *command)?;
    }
    text.push_str(AFTER_COMMANDS)?;
    Ok(text)
}

/// The help of a command, with its usage and its options as clap prints them. The only error is out of memory.
fn command_help(alloc: Global, command: Command, usage: &str) -> Result<String, AllocError>
    ensures { IfOk result (λ text. IsHelpOf (Some command) (string_bytes text)) }
{
    let (about, example) = (command.about(), command.example());
    format!(in alloc; "{about}\n\n{usage}\n{example}\n")
}

/// The help that words ask for, with the usage and the options that clap prints. The only error is out of memory.
pub(crate) fn help(alloc: Global, words: &[&str], usage: &str) -> Result<String, AllocError>
    ensures { IfOk result (λ text. IsHelpOf (command_helped (map (λ s. s.now) words.now)) (string_bytes text)) }
{
    match command_helped(words) {
        Some(command) => command_help(alloc, command, usage),
        None => program_help(alloc),
    }
}

/// The line of the version. The only error is out of memory.
pub(crate) fn version(alloc: Global) -> Result<String, AllocError>
    ensures { IfOk result (λ text. string_bytes text ≡ version_line) }
{
    format!(in alloc; "zoneoffice {VERSION}\n")
}
