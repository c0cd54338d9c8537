//! The words of the command line, read as a job.

ghost use Rattle.std.specs.Prelude.{◌≡◌, [], List, IfErr, IfOk, map, option_map, Some, is_some, true, false};
ghost use Rattle.clap.specs.Words.{Text, app_of, fault_of, found_of, kind_of, rows_of, subcommand_rows_of, takes};
ghost use Rattle.cli_core.specs.Commands.{office};
ghost use Rattle.cli_core.specs.Jobs.{JobOf, asks};
ghost use Rattle.cli_core.specs.Words.{job_named, job_without_command, job_met, job_of};
ghost use Rattle.cli_core.specs.PlainForms.{IsPlain};
ghost use Rattle.cli_core.specs.Misuse.{IsReportedAs, IsReported, is_help};

use crate::commands::Command;
use crate::help::{help, version};
use crate::job::{Job, TextJob};
use crate::parser::parser;
use clap::error::ErrorKind;
use clap::{ArgMatches, Error};
use std::alloc::{AllocError, Global};

/// Why the words ask for no job.
#[derive(Drop)]
pub enum WordsFault {
    /// They ask for help or for the version: the text of it.
    Help(String),
    /// There is a mistake in them: a text that says which.
    Misused(String),
    /// Memory ran out, whatever the words are.
    NoMemory,
}

/// The job of the command that a word names.
fn job_named<'a>(word: &str, matches: &ArgMatches<'a>) -> Option<Job<'a>>
    ensures { option_map asks result ≡ job_named word.now (rows_of (found_of matches.now)) }
{
    let command = Command::read(word)?;
    command.job(matches)
}

/// The job of words without a command: `apply`, if there is no word at all.
fn job_without_command<'a>(words: &[&str]) -> Option<Job<'a>>
    ensures { option_map asks result ≡ job_without_command (map (λ s. s.now) words.now) }
{
    if words.is_empty() {
        return Some(Job::Text(TextJob::Apply));
    }
    None
}

/// The job of words, of which this was matched.
fn job_in<'a>(words: &[&str], matches: &ArgMatches<'a>) -> Option<Job<'a>>
    ensures { option_map asks result ≡ job_met (map (λ s. s.now) words.now) (subcommand_rows_of matches.now) }
{
    match matches.subcommand() {
        Some((word, inner)) => job_named(word, inner),
        None => job_without_command(words),
    }
}

/// What is wrong with words that name no job, though clap takes them.
fn mistake_in(matches: &ArgMatches<'_>) -> &'static str {
    match matches.subcommand() {
        Some(("diff", _)) =>
            "only one of OLD and NEW can be -, which is standard input, and only one of --answers, --guard and --guard-sets is given",
        Some(("answer", _)) =>
            "only one of FILE and NAME can be -, which is standard input; questions there have their types",
        Some(("check", _)) =>
            "a policy is checked --against another or beside --zones, a --reader only beside these; a zone by --only one rule or by all but one --not",
        Some(("import", _)) => "one of --origin and --list is needed, and only one of them",
        Some(("plan", _)) => "only one of --answers and --explain is given",
        Some(("policy", _)) =>
            "policy build makes a policy from groups and templates, and policy print prints a policy",
        Some(("request", _)) => "one of --id and --split is needed, and only one of them",
        _ => "the words name no job: see the example of zoneoffice COMMAND --help",
    }
}

/// The text of clap's error. The only error is out of memory.
fn text_of(alloc: Global, error: Error) -> Result<String, AllocError> {
    format!(in alloc; "{error}")
}

/// The help that words ask for.
fn helped(alloc: Global, words: &[&str], error: Error) -> WordsFault
    ensures { IsReportedAs (map (λ s. s.now) words.now) ErrorKind.DisplayHelp result }
{
    let Ok(usage) = text_of(alloc, error) else {
        return WordsFault::NoMemory;
    };
    match help(alloc, words, usage.as_str()) {
        Ok(text) => WordsFault::Help(text),
        Err(_) => WordsFault::NoMemory,
    }
}

/// The version.
fn versioned(alloc: Global) -> WordsFault
    ensures { (words : List Text) → IsReportedAs words ErrorKind.DisplayVersion result }
{
    match version(alloc) {
        Ok(text) => WordsFault::Help(text),
        Err(_) => WordsFault::NoMemory,
    }
}

/// What is wrong with words, as clap says it.
fn misused(alloc: Global, error: Error) -> WordsFault
    ensures { (words : List Text) (k : ErrorKind) → is_help k ≡ false → IsReportedAs words k result }
{
    match text_of(alloc, error) {
        Ok(text) => WordsFault::Misused(text),
        Err(_) => WordsFault::NoMemory,
    }
}

/// What clap's error says of words.
fn reported(alloc: Global, words: &[&str], error: Error) -> WordsFault
    ensures kind { IsReportedAs (map (λ s. s.now) words.now) (kind_of error) result }
    ensures memory { kind_of error ≡ ErrorKind.OutOfMemory → result ≡ WordsFault.NoMemory }
{
    match error.kind() {
        ErrorKind::OutOfMemory => WordsFault::NoMemory,
        ErrorKind::DisplayHelp => helped(alloc, words, error),
        ErrorKind::DisplayVersion => versioned(alloc),
        _ => misused(alloc, error),
    }
}

/// The job that the words after the program's name ask for: none or `apply`; `canon --origin NAME [--relative]`;
/// `diff --origin NAME [--answers | --guard | --guard-sets] OLD NEW`, where only one of the two can be `-`; `request (--id ID | --split ID)`;
/// `import --store PATH (--origin NAME | --list LIST) [--replace]`; `export --store PATH --origin NAME [--at N] [--relative]`; `zones --store PATH`;
/// `log --store PATH --origin NAME [--from N] [--name NAME] [--caller CALLER]`; `blame --store PATH --origin NAME [--name NAME]`;
/// `undo --store PATH --origin NAME [--change N] [--to N]`; `migrate --store PATH`; `remove --store PATH --origin NAME`;
/// `rights --policy PATH --caller CALLER NAME TYPE ACTION`; `plan --policy PATH --caller CALLER [--answers | --explain] [--json]`;
/// `serve --store PATH --policy PATH --listen ADDRESS:PORT [--connections N] [--patience SECONDS] [--longest SECONDS] [--memory MB]`;
/// `check policy --policy PATH [--against PATH | --zones PATH [--reader CALLER]]`; `check expect [FILE] --policy PATH`; `check isolation --policy PATH --caller CALLER`;
/// `check reach [FILE] --policy PATH --caller CALLER --origin NAME`; `check rights [NAME] --policy PATH`; `check zone --origin NAME [--only RULE | --not RULE] [--server SERVER] [--most N] [--warn]`;
/// `policy (build | print) [FILE] [--slice ORIGINS]`; `answer --origin NAME FILE NAME [TYPE] [--json]`, where only one of file and name can be `-`, and a type is of a name;
/// `reverse --origin NAME FILE`; and `explain [NUMBER] [--json]`. The words after a command may come in any order.
/// `Help` comes where they ask for help or the version, and `Misused` where there is a mistake in them.
pub fn read_words<'a>(alloc: Global, words: &'a [&'a str]) -> Result<Job<'a>, WordsFault>
    // The job is the one that the words ask for.
    ensures job { IfOk result (λ j. job_of (map (λ s. s.now) words.entry.now) ≡ Some (asks j)) }
    // Nothing is wrong with them.
    ensures faultless { IfOk result (λ _. fault_of office (map (λ s. s.now) words.entry.now) ≡ []) }
    // Words that ask for a job are read, unless memory runs out.
    ensures passes { IfErr result (λ e. takes office (map (λ s. s.now) words.entry.now) ≡ true
        → is_some (job_of (map (λ s. s.now) words.entry.now)) ≡ true → e ≡ WordsFault.NoMemory) }
    // Help is reported where they ask for it, and misuse where there is a mistake in them.
    ensures reported { IfErr result (IsReported (map (λ s. s.now) words.entry.now)) }
    // The plain form of a job asks for it.
    ensures plain { IfOk result (λ j. (x : JobOf) → IsPlain (map (λ s. s.now) words.entry.now) x → asks j ≡ x) }
{
    match parser(alloc) {
        Ok(mut command) => job_by(alloc, &mut command, words),
        Err(_) => Err(WordsFault::NoMemory),
    }
}

/// The job that words ask for, as the program's parser reads them.
fn job_by<'a>(
    alloc: Global,
    command: &mut clap::Command<'a>,
    words: &'a [&'a str],
) -> Result<Job<'a>, WordsFault>
    requires { app_of command.old ≡ office }
    ensures job { IfOk result (λ j. job_of (map (λ s. s.now) words.entry.now) ≡ Some (asks j)) }
    ensures faultless { IfOk result (λ _. fault_of office (map (λ s. s.now) words.entry.now) ≡ []) }
    ensures passes { IfErr result (λ e. takes office (map (λ s. s.now) words.entry.now) ≡ true
        → is_some (job_of (map (λ s. s.now) words.entry.now)) ≡ true → e ≡ WordsFault.NoMemory) }
    ensures reported { IfErr result (IsReported (map (λ s. s.now) words.entry.now)) }
    ensures plain { IfOk result (λ j. (x : JobOf) → IsPlain (map (λ s. s.now) words.entry.now) x → asks j ≡ x) }
{
    let matches = match command.try_get_matches_from_mut(words) {
        Ok(matches) => matches,
        Err(error) => return Err(reported(alloc, words, error)),
    };
    match job_in(words, &matches) {
        Some(job) => Ok(job),
        None => Err(mistake(alloc, words, command, mistake_in(&matches))),
    }
}

/// What is wrong with words that clap takes.
fn mistake(alloc: Global, words: &[&str], command: &mut clap::Command<'_>, text: &str) -> WordsFault
    ensures { IsReportedAs (map (λ s. s.now) words.now) ErrorKind.InvalidValue result }
{
    match command.error(ErrorKind::InvalidValue, text) {
        Ok(error) => reported(alloc, words, error),
        Err(_) => WordsFault::NoMemory,
    }
}
