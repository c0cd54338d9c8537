//! A policy as it is printed: of its own text, or made from groups and templates; with all its rules, or those that can matter in some
//! zones.

ghost use Rattle.std.specs.Prelude.{◌≡◌, ℕ, List, Option, Ok, IfOk, map, option_map};
ghost use Rattle.std.specs.List.{All};
ghost use Rattle.dns_names.specs.Reading.{absolute_name};
ghost use Rattle.grant_policy.specs.Documents.{AreRules};
ghost use Rattle.policy_build.specs.Selections.{SelectsSome};
ghost use Rattle.cli_core.specs.LineFaults.{Gives, of_names};
ghost use Rattle.cli_checks.specs.PrintedPolicies.{PrintedOf, is_gap, words_in, names_from, some_names, zones_if, rules_from, printed_from, AreWanted, IsPolicyText};

use crate::check::{Findings, Report};
use crate::origin_list::push_origin;
use cli_core::{LineFault, PolicySource, Refusal};
use dns_names::{Name, NameFault};
use grant_policy::{Policy, Rule};
use policy_build::{
    build, built_rules_decide_as_the_file_means, policy_text, read_rules, read_source,
};
use policy_tools::{is_blank, slice_of};
use std::alloc::{AllocError, Global};
use std::marker::Model;

/// The zones for which rules are wanted, by their origins, unless all rules are. A contract sees the list of them.
#[derive(Drop)]
pub(crate) struct WantedZones {
    origins: Option<Vec<Name>>,
}

impl Model for WantedZones {
    ghost Value = { Option (List (List (List ℕ))) };

    ghost view = { λ z. option_map (λ origins. origins.items) z.origins };
}

/// A policy, and the zones for which its rules are wanted. A contract sees the list of its rules, and that of the zones' origins.
#[derive(Drop)]
pub(crate) struct PrintedPolicy {
    policy: Policy,
    zones: WantedZones,
}

impl Model for PrintedPolicy {
    ghost Value = { PrintedOf };

    ghost view = { λ p. record { rules = p.policy; zones = p.zones } };

    // Each rule selects a type and an action, as what is read does.
    ghost invariant = { λ p. All SelectsSome p.policy };
}

/// Whether an octet is between words: a blank or a line feed.
fn is_gap(octet: u8) -> bool
    ensures { result ≡ is_gap octet }
{
    is_blank(octet) || octet == b'\n'
}

/// The words of a text. The only error is out of memory.
fn words_in(alloc: Global, text: &[u8]) -> Result<Vec<&[u8]>, AllocError>
    ensures { IfOk result (λ words. map (λ word. word.now) words.items ≡ words_in text.now) }
{
    text.split(|octet| is_gap(*octet))
        .filter(|word| !word.is_empty())
        .collect(alloc)
}

/// The absolute name that a word is.
fn name_of(alloc: Global, word: &[u8]) -> Result<Name, LineFault>
    ensures { Gives (λ name. name) result (of_names (absolute_name word.now)) }
{
    Ok(Name::read_absolute(alloc, word)?)
}

/// The absolute names that words are, or the refusal of the first that is not one.
fn names_from(alloc: Global, words: &[&[u8]]) -> Result<Vec<Name>, LineFault>
    ensures { Gives (λ names. names.items) result (names_from (map (λ word. word.now) words.now)) }
{
    let mut names = Vec::new(alloc);
    for word in words {
        let name = name_of(alloc, *word)?;
        push_origin(&mut names, name)?;
    }
    Ok(names)
}

/// The same of one or more words. Without words the refusal is that of an empty name.
fn some_names(alloc: Global, words: &[&[u8]]) -> Result<Vec<Name>, LineFault>
    ensures { Gives (λ names. names.items) result (some_names (map (λ word. word.now) words.now)) }
{
    if words.is_empty() {
        return Err(LineFault::Refused(Refusal::Name(NameFault::Empty)));
    }
    names_from(alloc, words)
}

/// The origins of zones that a text names, if one is given.
pub(crate) fn zones_if(alloc: Global, text: Option<&str>) -> Result<WantedZones, LineFault>
    ensures { Gives (λ zones. zones) result (zones_if (option_map (λ t. t.now) text.entry)) }
{
    let Some(text) = text else {
        return Ok(WantedZones { origins: None });
    };
    let words = words_in(alloc, text.as_bytes())?;
    let origins = some_names(alloc, &words)?;
    Ok(WantedZones {
        origins: Some(origins),
    })
}

/// The policy that is made of a file of groups.
fn built_policy(alloc: Global, text: &[u8]) -> Result<Policy, LineFault>
    ensures made { Gives (λ policy. policy) result (rules_from PolicySource.Groups text.now) }
    ensures selects { IfOk result (λ policy. All SelectsSome policy) }
{
    let source = read_source(alloc, text)?;
    let built = build(alloc, &source)?;
    // the proof needs that its rules are those of a policy
    built_rules_decide_as_the_file_means();
    let text = built.text(alloc)?;
    Ok(read_rules(alloc, text.as_bytes())?)
}

/// The policy of a text, or the one that is made of it.
fn policy_from(alloc: Global, source: PolicySource, text: &[u8]) -> Result<Policy, LineFault>
    ensures made { Gives (λ policy. policy) result (rules_from source text.now) }
    ensures selects { IfOk result (λ policy. All SelectsSome policy) }
{
    match source {
        PolicySource::Groups => built_policy(alloc, text),
        PolicySource::Rules => Ok(read_rules(alloc, text)?),
    }
}

/// What is printed of a text, whose octets are given back, for these zones.
pub(crate) fn printed_in(
    alloc: Global,
    source: PolicySource,
    zones: WantedZones,
    text: Vec<u8>,
) -> Result<PrintedPolicy, LineFault>
    ensures { Gives (λ printed. printed) result (printed_from source zones text.items) }
{
    let policy = policy_from(alloc, source, &text)?;
    Ok(PrintedPolicy { policy, zones })
}

impl PrintedPolicy {
    /// The rules that are wanted, in order. The only error is out of memory.
    fn wanted(&self, alloc: Global) -> Result<Vec<&Rule>, AllocError>
        ensures wanted { IfOk result (λ wanted. AreWanted self.now.zones self.now.rules (map (λ rule. rule.now) wanted.items)) }
        ensures policy { IfOk result (λ wanted. AreRules (map (λ rule. rule.now) wanted.items)) }
        ensures selects { IfOk result (λ wanted. All SelectsSome (map (λ rule. rule.now) wanted.items)) }
    {
        match &self.zones.origins {
            Some(zones) => slice_of(alloc, &self.policy, zones),
            None => self.policy.rules().iter().collect(alloc),
        }
    }
}

/// The report that prints a policy: its text, which reads back as the rules that are wanted. It finds nothing. The only error is out of
/// memory.
pub(crate) fn policy_report(alloc: Global, printed: &PrintedPolicy) -> Result<Report, AllocError>
    ensures { IfOk result (λ report. IsPolicyText printed.now report.findings report.text.items) }
{
    let wanted = printed.wanted(alloc)?;
    let text = policy_text(alloc, &wanted)?;
    Ok(Report {
        findings: Findings::Absent,
        text: text.into_bytes(),
    })
}
