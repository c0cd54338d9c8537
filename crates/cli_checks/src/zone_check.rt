//! What other name servers refuse or warn of in a zone, as text.

ghost use Rattle.std.specs.Prelude.{◌≡◌, ◌++◌, ◌∷◌, [], IfOk, OnOk, codes, option_map};
ghost use Rattle.std.specs.List.{flat_map};
ghost use Rattle.cli_core.specs.LineFaults.{Gives};
ghost use Rattle.zone_core.specs.Sets.{listing};
ghost use Rattle.cli_checks.specs.ZoneCheck.{rule_named, filter_of, server_named, server_if, tests_of, asks_for, minds, is_minded, is_asked, worded, line_by, finding_text, told, IsSetsText, IsAdviceText, IsZoneReport};

use crate::check::{Findings, Report};
use cli_core::{Advice, LineFault, Refusal, RuleChoice, ZoneRules};
use cli_text::line_of;
use dns_data::Record;
use dns_names::Name;
use std::alloc::{AllocError, Global};
use zone_core::Zone;
use zone_tools::{Finding, NameServer, Reaction, ZoneRule, findings, large_sets, shared_addresses};

/// By which rules a zone is checked.
#[derive(Clone, Copy)]
pub(crate) enum RuleFilter {
    All,
    Only(ZoneRule),
    Not(ZoneRule),
}

impl RuleFilter {
    /// Whether a rule is asked for.
    fn asks_for(self, rule: ZoneRule) -> bool
        ensures { result ≡ asks_for self rule }
    {
        match self {
            RuleFilter::All => true,
            RuleFilter::Only(one) => one.place() == rule.place(),
            RuleFilter::Not(one) => one.place() != rule.place(),
        }
    }
}

/// By what a zone is checked, of words that were read.
#[derive(Clone, Copy)]
pub(crate) struct ZoneTests {
    /// By which rules.
    rules: RuleFilter,
    /// The server that has to mind a rule, where one is named.
    server: Option<NameServer>,
    /// How many records a set has at most, where that is given.
    most: Option<u64>,
    /// Whether addresses that several names have are reported.
    advice: Advice,
}

/// Whether a server refuses a record, or warns of it.
fn is_minded(reaction: Reaction) -> bool
    ensures { result ≡ is_minded reaction }
{
    match reaction {
        Reaction::Takes => false,
        Reaction::Warns | Reaction::Refuses => true,
    }
}

impl ZoneTests {
    /// Whether the server that is named, if any, minds what is at fault by a rule.
    fn minds(self, rule: ZoneRule) -> bool
        ensures { result ≡ minds self.server rule }
    {
        match self.server {
            Some(server) => is_minded(rule.minded_by(server)),
            None => true,
        }
    }

    /// Whether what is at fault by a rule is asked for.
    fn asks_for(self, rule: ZoneRule) -> bool
        ensures { result ≡ is_asked self rule }
    {
        self.rules.asks_for(rule) && self.minds(rule)
    }
}

/// The rule that a word names.
fn rule_named(word: &str) -> Result<ZoneRule, LineFault>
    ensures { Gives (λ rule. rule) result (rule_named word.now) }
{
    match ZoneRule::read(word) {
        Some(rule) => Ok(rule),
        None => Err(LineFault::Refused(Refusal::NoRule)),
    }
}

/// By which rules words ask to check a zone.
fn filter_of(rules: RuleChoice<'_>) -> Result<RuleFilter, LineFault>
    ensures { Gives (λ rules. rules) result (filter_of rules.entry) }
{
    match rules {
        RuleChoice::All => Ok(RuleFilter::All),
        RuleChoice::Only(word) => Ok(RuleFilter::Only(rule_named(word)?)),
        RuleChoice::Not(word) => Ok(RuleFilter::Not(rule_named(word)?)),
    }
}

/// The server that a word names.
fn server_named(word: &str) -> Result<NameServer, LineFault>
    ensures { Gives (λ server. server) result (server_named word.now) }
{
    match NameServer::read(word) {
        Some(server) => Ok(server),
        None => Err(LineFault::Refused(Refusal::NoServer)),
    }
}

/// The server that a word names, if one is given.
fn server_if(word: Option<&str>) -> Result<Option<NameServer>, LineFault>
    ensures { Gives (λ server. server) result (server_if (option_map (λ w. w.now) word.entry)) }
{
    match word {
        None => Ok(None),
        Some(word) => Ok(Some(server_named(word)?)),
    }
}

/// By what words ask to check a zone. The refusal of the rule comes before that of the server.
pub(crate) fn tests_of(rules: ZoneRules<'_>) -> Result<ZoneTests, LineFault>
    ensures { Gives (λ tests. tests) result (tests_of rules.entry) }
{
    let filter = filter_of(rules.choice)?;
    let server = server_if(rules.server)?;
    Ok(ZoneTests {
        rules: filter,
        server,
        most: rules.most,
        advice: rules.advice,
    })
}

/// Appends a word, and the line of a record.
fn push_worded(alloc: Global, word: &str, rr: &Record, text: &mut Vec<u8>) -> Result<(), AllocError>
    ensures { OnOk result (text.new.items ≡ text.old.items ++ worded word.now rr.now) }
{
    text.extend_from_slice(word.as_bytes())?;
    text.push(b' ')?;
    let line = line_of(alloc, rr)?;
    text.extend_from_slice(line.as_bytes())
}

/// Appends the word of a rule, and the line of a record, if there is one.
fn push_line(
    alloc: Global,
    rule: ZoneRule,
    rr: Option<&Record>,
    text: &mut Vec<u8>,
) -> Result<(), AllocError>
    ensures { OnOk result (text.new.items ≡ text.old.items ++ line_by rule (option_map (λ r. r.now) rr.entry)) }
{
    match rr {
        Some(rr) => push_worded(alloc, rule.text(), rr, text),
        None => Ok(()),
    }
}

/// Appends the line of a finding, if its rule is asked for.
fn push_finding(
    alloc: Global,
    tests: ZoneTests,
    records: &[Record],
    finding: Finding,
    text: &mut Vec<u8>,
) -> Result<(), AllocError>
    ensures { OnOk result (text.new.items ≡ text.old.items ++ finding_text tests records.now finding) }
{
    if tests.asks_for(finding.rule) {
        push_line(alloc, finding.rule, records.get(finding.place), text)
    } else {
        Ok(())
    }
}

/// The lines of findings whose rules are asked for.
fn findings_text(
    alloc: Global,
    tests: ZoneTests,
    records: &[Record],
    found: &[Finding],
) -> Result<Vec<u8>, AllocError>
    ensures { IfOk result (λ text. text.items ≡ flat_map (finding_text tests records.now) found.now) }
{
    let mut text = Vec::new(alloc);
    for finding in found {
        push_finding(alloc, tests, records, *finding, &mut text)?;
    }
    Ok(text)
}

/// Lines of records, each after a word.
fn worded_text(alloc: Global, word: &str, records: &[Record]) -> Result<Vec<u8>, AllocError>
    ensures { IfOk result (λ text. text.items ≡ flat_map (worded word.now) records.now) }
{
    let mut text = Vec::new(alloc);
    for record in records {
        push_worded(alloc, word, record, &mut text)?;
    }
    Ok(text)
}

/// The lines of large sets, by their first records, if a size is given.
fn sets_text(alloc: Global, most: Option<u64>, zone: &Zone) -> Result<Vec<u8>, AllocError>
    ensures { IfOk result (λ text. IsSetsText most (listing zone.now.records) text.items) }
{
    let Some(most) = most else {
        return Ok(Vec::new(alloc));
    };
    let large = large_sets(alloc, zone, most as usize)?;
    worded_text(alloc, "large-set", &large)
}

/// The name of the root.
fn root(alloc: Global) -> Result<Name, AllocError>
    ensures { IfOk result (λ name. name ≡ []) }
{
    match Name::read_absolute(alloc, b".") {
        Ok(name) => Ok(name),
        Err(_) => Err(AllocError),
    }
}

/// The lines of records whose addresses several names have, if they are wanted.
fn advice_text(alloc: Global, advice: Advice, records: &[Record]) -> Result<Vec<u8>, AllocError>
    ensures { IfOk result (λ text. IsAdviceText advice records.now text.items) }
{
    match advice {
        Advice::Unasked => Ok(Vec::new(alloc)),
        Advice::Wanted => {
            let root = root(alloc)?;
            let shared = shared_addresses(alloc, &root, records)?;
            worded_text(alloc, "shared-address", &shared)
        }
    }
}

/// Whether a text tells something.
pub(crate) fn told(text: &[u8]) -> Findings
    ensures { result ≡ told text.now }
{
    match text {
        [] => Findings::Absent,
        _ => Findings::Present,
    }
}

/// The report on a zone. The only error is out of memory.
pub(crate) fn zone_report(
    alloc: Global,
    zone: &Zone,
    tests: ZoneTests,
) -> Result<Report, AllocError>
    ensures { IfOk result (λ report. IsZoneReport zone.now tests report.findings report.text.items) }
{
    let found = findings(alloc, zone)?;
    let mut text = findings_text(alloc, tests, zone.records(), &found)?;
    text.extend_from_slice(&sets_text(alloc, tests.most, zone)?)?;
    text.extend_from_slice(&advice_text(alloc, tests.advice, zone.records())?)?;
    let findings = told(&text);
    Ok(Report { findings, text })
}
