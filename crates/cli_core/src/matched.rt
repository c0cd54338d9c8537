//! What is matched of the words of a command.

ghost use Rattle.std.specs.Prelude.{◌≡◌, option_map};
ghost use Rattle.std.specs.Option.{option_zip};
ghost use Rattle.clap.specs.Words.{Text, first_of, found_of, one_of, rows_of};
ghost use Rattle.cli_core.specs.Commands.{argument_name};
ghost use Rattle.cli_core.specs.declared.argument.Argument.TheVariants as argument;
ghost use Rattle.cli_core.specs.Values.{flag_if, number_if};
ghost use Rattle.cli_core.specs.Jobs.{is_json, is_relative};

use crate::argument::Argument;
use crate::job::{StoredZone, TextForm, ZoneForm};
use clap::ArgMatches;

/// The text of an argument, where it has one.
pub(crate) fn text_at<'a>(matches: &ArgMatches<'a>, argument: Argument) -> Option<&'a str>
    ensures { option_map (λ s. s.now) result ≡ first_of (argument_name argument) (rows_of (found_of matches.now)) }
{
    matches.get_str(argument.name())
}

/// The texts of two arguments, where both have one.
pub(crate) fn texts_at<'a>(
    matches: &ArgMatches<'a>,
    first: Argument,
    second: Argument,
) -> Option<(&'a str, &'a str)>
    ensures { option_map {U = Text × Text} (λ p. (p.0.now, p.1.now)) result
        ≡ option_zip (first_of (argument_name first) (rows_of (found_of matches.now))) (first_of (argument_name second) (rows_of (found_of matches.now))) }
{
    text_at(matches, first).zip(text_at(matches, second))
}

/// The number of an argument: `Some(None)` where none is given, and `None` where what is given is not a number.
pub(crate) fn number_at(matches: &ArgMatches<'_>, argument: Argument) -> Option<Option<u64>>
    ensures { result ≡ number_if (one_of (argument_name argument) (rows_of (found_of matches.now))) }
{
    matches.try_get_one::<u64>(argument.name()).ok()
}

/// Whether a flag is given.
pub(crate) fn flag_at(matches: &ArgMatches<'_>, argument: Argument) -> bool
    ensures { result ≡ flag_if (first_of (argument_name argument) (rows_of (found_of matches.now))) }
{
    match text_at(matches, argument) {
        Some(text) => text == "true",
        None => false,
    }
}

/// In which form a zone is to be printed.
pub(crate) fn zone_form_at(matches: &ArgMatches<'_>) -> ZoneForm
    ensures { is_relative result ≡ flag_if (first_of (argument_name argument.Relative) (rows_of (found_of matches.now))) }
{
    if flag_at(matches, Argument::Relative) {
        ZoneForm::Relative
    } else {
        ZoneForm::Whole
    }
}

/// As what a text is to be printed.
pub(crate) fn text_form_at(matches: &ArgMatches<'_>) -> TextForm
    ensures { is_json result ≡ flag_if (first_of (argument_name argument.Json) (rows_of (found_of matches.now))) }
{
    if flag_at(matches, Argument::Json) {
        TextForm::Json
    } else {
        TextForm::Plain
    }
}

/// The zone of a store that words name.
pub(crate) fn zone_at<'a>(matches: &ArgMatches<'a>) -> Option<StoredZone<'a>>
    ensures { option_map {U = Text × Text} (λ z. (z.store.now, z.origin.now)) result
        ≡ option_zip (first_of (argument_name argument.Store) (rows_of (found_of matches.now))) (first_of (argument_name argument.Origin) (rows_of (found_of matches.now))) }
{
    let (store, origin) = texts_at(matches, Argument::Store, Argument::Origin)?;
    Some(StoredZone { store, origin })
}
