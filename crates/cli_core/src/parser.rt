//! What clap is told of the commands.

ghost use Rattle.std.specs.Prelude.{◌≡◌, IfOk, false};
ghost use Rattle.clap.specs.Words.{app_of};
ghost use Rattle.clap.specs.declared.builder.command.Command.TheViews.{out-Command};
ghost use Rattle.cli_core.specs.Commands.{app_for, office, bare_office};

use crate::commands::Command;
use std::alloc::{AllocError, Global};

/// The version of the program, which `--version` prints.
pub(crate) const VERSION: &str = "1.0.0";

/// One command, with what it takes. `help` has the rest of its row.
fn command_parser<'a>(alloc: Global, command: Command) -> Result<clap::Command<'a>, AllocError>
    ensures shape { IfOk result (λ c. app_of c ≡ app_for command) }
    ensures local { IfOk result (λ c. (out-Command c).has_globals ≡ false) }
{
    let word: &'a str = command.word();
    let mut parser = clap::Command::new(alloc, word);
    for argument in command.arguments() {
        parser = parser.arg(argument.rule(alloc))?;
    }
    Ok(parser)
}

/// The program before its commands.
fn bare_parser<'a>(alloc: Global) -> Result<clap::Command<'a>, AllocError>
    ensures { IfOk result (λ c. app_of c ≡ bare_office) }
{
    clap::Command::new(alloc, "zoneoffice")
        .no_binary_name(true)
        .version(VERSION)
        .bin_name("zoneoffice")
}

/// The program, with all commands.
pub fn parser<'a>(alloc: Global) -> Result<clap::Command<'a>, AllocError>
    ensures { IfOk result (λ c. app_of c ≡ office) }
{
    let bare = bare_parser(alloc)?;
    let mut parser = bare;
    for command in &Command::ALL {
        parser = parser.subcommand(command_parser(alloc, *command)?)?;
    }
    Ok(parser)
}
