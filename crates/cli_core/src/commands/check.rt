//! The command `check`.

ghost use Rattle.cli_core.specs.declared.commands.Command.TheVariants as command;
ghost use Rattle.std.specs.Prelude.{◌≡◌, codes, option_and_then, option_map};
ghost use Rattle.clap.specs.Words.{first_of, found_of, rows_of};
ghost use Rattle.cli_core.specs.declared.argument.Argument.TheVariants as argument;
ghost use Rattle.cli_core.specs.Commands.{argument_name};
ghost use Rattle.cli_core.specs.Values.{flag_if};
ghost use Rattle.cli_core.specs.Jobs.{check_job, is_wanted, reach_content_by};
ghost use Rattle.cli_core.specs.Words.{check_by, json_given};

use crate::argument::Argument;
use crate::commands::{CommandWords, Row};
use crate::job::{Advice, Job, ReachContent, RuleChoice, TextForm, TextJob, ZoneRules};
use crate::matched::{flag_at, number_at, text_at, text_form_at, texts_at};
use clap::ArgMatches;

/// The words of `check`.
#[derive(Clone, Copy)]
pub struct Check<'a> {
    /// What is checked.
    pub subject: CheckSubject<'a>,
    /// As what the findings are printed.
    pub form: TextForm,
}

/// The words of `check reach`.
#[derive(Clone, Copy)]
pub struct Reach<'a> {
    /// The path of the policy.
    pub policy: &'a str,
    /// Who changes answers.
    pub caller: &'a str,
    /// The name of the zone's origin.
    pub origin: &'a str,
    /// The path of the zone, and standard input where none is given.
    pub file: Option<&'a str>,
    /// What is printed of the answers.
    pub content: ReachContent,
}

/// What `check` checks.
#[derive(Clone, Copy)]
pub enum CheckSubject<'a> {
    /// To find the rules of a policy that never decide, or what it changes.
    Policy {
        /// The path of the policy.
        policy: &'a str,
        /// The path of the policy against which it is checked, where one is given.
        against: Option<&'a str>,
    },
    /// To find the rules of a policy that speak of no zone, and the zones of which no rule speaks.
    PolicyZones {
        /// The path of the policy.
        policy: &'a str,
        /// The path of the list of zones.
        zones: &'a str,
        /// Who is to list all of them, where one is given.
        reader: Option<&'a str>,
    },
    /// To find what keeps a caller of a policy from being isolated.
    Isolation {
        /// The path of the policy.
        policy: &'a str,
        /// Whose isolation it is.
        caller: &'a str,
    },
    /// To print who may do what, by a policy.
    Rights {
        /// The path of the policy.
        policy: &'a str,
        /// At which name, and by scopes where none is given.
        name: Option<&'a str>,
    },
    /// To print which answers of a zone a caller of a policy can change.
    Reach(Reach<'a>),
    /// To find what is expected of a policy and is not so.
    Expect {
        /// The path of the policy.
        policy: &'a str,
        /// The path of what is expected, and standard input where none is given.
        file: Option<&'a str>,
    },
    /// To find what name servers refuse in a zone that is read from standard input.
    Zone {
        /// The name of its origin.
        origin: &'a str,
        /// By what it is checked.
        rules: ZoneRules<'a>,
    },
}

pub(super) static ROW: Row = Row {
    word: "check",
    about: "Checks a policy, the isolation of a caller, or a zone; or prints who may do what",
    example: "Example: zoneoffice check policy --policy policy.toml",
    arguments: &[
        Argument::Subject,
        Argument::CheckedName,
        Argument::CheckedPolicy,
        Argument::Against,
        Argument::Zones,
        Argument::Reader,
        Argument::Isolated,
        Argument::CheckedOrigin,
        Argument::Only,
        Argument::Not,
        Argument::Server,
        Argument::Most,
        Argument::Warn,
        Argument::Example,
        Argument::Json,
    ],
};

impl<'a> CommandWords<'a> for Check<'a> {
    ghost command = { command.Check };

    fn read(matches: &ArgMatches<'a>) -> Option<Job<'a>> {
        let word = text_at(matches, Argument::Subject)?;
        let subject = subject_in(word, matches)?;
        let form = text_form_at(matches);
        Some(Job::Text(TextJob::Check(Check { subject, form })))
    }
}

/// What the word of a subject asks for.
fn subject_in<'a>(word: &str, matches: &ArgMatches<'a>) -> Option<CheckSubject<'a>>
    ensures { option_map (λ s. check_job s (json_given (rows_of (found_of matches.now)))) result ≡ check_by word.now (rows_of (found_of matches.now)) }
{
    match word {
        "policy" => policy_in(matches),
        "isolation" => isolation_in(matches),
        "rights" => rights_in(matches),
        "expect" => expect_in(matches),
        "reach" => reach_in(matches),
        "zone" => zone_in(matches),
        _ => None,
    }
}

/// The subject of `check policy`, where the policy is not checked both against another and beside zones, and a reader only beside zones.
fn policy_in<'a>(matches: &ArgMatches<'a>) -> Option<CheckSubject<'a>>
    ensures { option_map (λ s. check_job s (json_given (rows_of (found_of matches.now)))) result ≡ check_by (codes "policy") (rows_of (found_of matches.now)) }
{
    let policy = text_at(matches, Argument::CheckedPolicy)?;
    match (
        text_at(matches, Argument::Against),
        text_at(matches, Argument::Zones),
        text_at(matches, Argument::Reader),
    ) {
        (against, None, None) => Some(CheckSubject::Policy { policy, against }),
        (None, Some(zones), reader) => Some(CheckSubject::PolicyZones {
            policy,
            zones,
            reader,
        }),
        _ => None,
    }
}

/// The subject of `check isolation`.
fn isolation_in<'a>(matches: &ArgMatches<'a>) -> Option<CheckSubject<'a>>
    ensures { option_map (λ s. check_job s (json_given (rows_of (found_of matches.now)))) result ≡ check_by (codes "isolation") (rows_of (found_of matches.now)) }
{
    let (policy, caller) = texts_at(matches, Argument::CheckedPolicy, Argument::Isolated)?;
    Some(CheckSubject::Isolation { policy, caller })
}

/// The subject of `check rights`.
fn rights_in<'a>(matches: &ArgMatches<'a>) -> Option<CheckSubject<'a>>
    ensures { option_map (λ s. check_job s (json_given (rows_of (found_of matches.now)))) result ≡ check_by (codes "rights") (rows_of (found_of matches.now)) }
{
    let policy = text_at(matches, Argument::CheckedPolicy)?;
    let name = text_at(matches, Argument::CheckedName);
    Some(CheckSubject::Rights { policy, name })
}

/// The subject of `check expect`.
fn expect_in<'a>(matches: &ArgMatches<'a>) -> Option<CheckSubject<'a>>
    ensures { option_map (λ s. check_job s (json_given (rows_of (found_of matches.now)))) result ≡ check_by (codes "expect") (rows_of (found_of matches.now)) }
{
    let policy = text_at(matches, Argument::CheckedPolicy)?;
    let file = text_at(matches, Argument::CheckedName);
    Some(CheckSubject::Expect { policy, file })
}

/// What is to be printed of the answers that a caller can change, unless that is examples as JSON.
fn reach_content_at(matches: &ArgMatches<'_>) -> Option<ReachContent>
    ensures { result ≡ reach_content_by (flag_if (first_of (argument_name argument.Example) (rows_of (found_of matches.now))))
        (flag_if (first_of (argument_name argument.Json) (rows_of (found_of matches.now)))) }
{
    match (
        flag_at(matches, Argument::Example),
        flag_at(matches, Argument::Json),
    ) {
        (false, _) => Some(ReachContent::Groups),
        (true, false) => Some(ReachContent::Examples),
        (true, true) => None,
    }
}

/// The subject of `check reach`, unless examples are asked for as JSON.
fn reach_in<'a>(matches: &ArgMatches<'a>) -> Option<CheckSubject<'a>>
    ensures { option_map (λ s. check_job s (json_given (rows_of (found_of matches.now)))) result ≡ check_by (codes "reach") (rows_of (found_of matches.now)) }
{
    let file = text_at(matches, Argument::CheckedName);
    let (policy, caller) = texts_at(matches, Argument::CheckedPolicy, Argument::Isolated)?;
    let origin = text_at(matches, Argument::CheckedOrigin)?;
    let content = reach_content_at(matches)?;
    Some(CheckSubject::Reach(Reach {
        policy,
        caller,
        origin,
        file,
        content,
    }))
}

/// Whether shared addresses are asked for.
fn advice_at(matches: &ArgMatches<'_>) -> Advice
    ensures { is_wanted result ≡ flag_if (first_of (argument_name argument.Warn) (rows_of (found_of matches.now))) }
{
    if flag_at(matches, Argument::Warn) {
        Advice::Wanted
    } else {
        Advice::Unasked
    }
}

/// The subject of `check zone`, where not both one rule only and all but one are asked for.
fn zone_in<'a>(matches: &ArgMatches<'a>) -> Option<CheckSubject<'a>>
    ensures { option_map (λ s. check_job s (json_given (rows_of (found_of matches.now)))) result ≡ check_by (codes "zone") (rows_of (found_of matches.now)) }
{
    let origin = text_at(matches, Argument::CheckedOrigin)?;
    let server = text_at(matches, Argument::Server);
    let most = number_at(matches, Argument::Most)?;
    let advice = advice_at(matches);
    let choice = match (
        text_at(matches, Argument::Only),
        text_at(matches, Argument::Not),
    ) {
        (None, None) => RuleChoice::All,
        (Some(rule), None) => RuleChoice::Only(rule),
        (None, Some(rule)) => RuleChoice::Not(rule),
        (Some(_), Some(_)) => return None,
    };
    let rules = ZoneRules {
        choice,
        server,
        most,
        advice,
    };
    Some(CheckSubject::Zone { origin, rules })
}
