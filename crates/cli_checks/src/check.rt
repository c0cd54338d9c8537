//! What is true of a policy whatever is asked: which of its rules never decide, what it changes, what it leaves out of zones, whether a
//! caller is isolated, and who may do what; and its text. And what is wrong in a zone, what a caller can change of its answers, or what
//! zones call for.

ghost use Rattle.std.specs.Prelude.{◌≡◌, ◌++◌, ◌<◌, ℕ, IfOk, OnOk, decimal, option_map};
ghost use Rattle.cli_checks.specs.ReportLines.{id_text, right_text, other_text};
ghost use Rattle.cli_checks.specs.RightsCheck.{IsRightsText};
ghost use Rattle.dns_names.specs.Spelling.{name_text};
ghost use Rattle.cli_core.specs.LineFaults.{Gives, GivesOf};
ghost use Rattle.cli_checks.specs.Check.{rules_in, name_if, asked_in, checking_of, checked_read, idle_head, idle_line, idle_text, findings_of, IsReport, exposure_line, isolation_line, exposures_of, IsIsolationReport, kind_of, IsReportOn, Reports, Checked};
ghost use Rattle.cli_text.specs.LineObjects.{IsPrintedAs};

use crate::expect::expect_report;
use crate::expectations::{Expectations, expectations_in};
use crate::origin_list::{OriginList, origins_in};
use crate::policy_changes::changes_report;
use crate::policy_zones::zones_report;
use crate::printed_policy::{PrintedPolicy, WantedZones, policy_report, printed_in, zones_if};
use crate::reach::{index_of_file, reach_report};
use crate::reach_examples::examples_report;
use crate::reverse::{ForwardRecords, forward_records, reverse_report};
use crate::rights_check::rights_list;
use crate::zone_check::{ZoneTests, tests_of, zone_report};
use cli_core::{
    Input, JobFault, LineFault, PolicySource, Reach, ReachContent, TextForm, ZoneRules, read_input,
    write_refusal, write_text,
};
use cli_text::{LineKind, in_form, read_caller, read_name, zone_of_file};
use dns_master::Sink;
use dns_names::Name;
use grant_policy::{Identifier, Policy, Rule, read_policy};
use policy_tools::{Exposure, IdleRule, Right, idle_rules, isolation};
use std::alloc::{AllocError, Global};
use zone_answers::ZoneIndex;
use zone_core::Zone;

/// What an input is checked for.
#[derive(Clone, Copy)]
pub enum Subject<'a> {
    /// Which of its rules never decide.
    Rules,
    /// What it changes against this policy.
    Changes(&'a Policy),
    /// What it expects of this policy that is not so.
    Expected(&'a Policy),
    /// What this policy leaves out of its zones, and what this caller may not list there.
    Zones(&'a Policy, Option<&'a Identifier>),
    /// Whether the caller that this word names is isolated.
    Isolation(&'a str),
    /// Who may do what, at the name that this word is, or at all names.
    Rights(Option<&'a str>),
    /// What is printed of the policy that it is, or that is made of it, for the zones that this text names.
    Printed(PolicySource, Option<&'a str>),
    /// The pointers that its addresses call for in the reverse zone of this origin.
    Reverse(&'a str),
    /// Which answers of a zone this policy lets this caller change, and what words name of it: its origin, and what is printed of them.
    Reach(&'a Policy, &'a Identifier, Reach<'a>),
    /// What other name servers refuse or warn of in the zone of this origin, and what else is asked for.
    Zone(&'a str, ZoneRules<'a>),
}

/// What an input is checked for, and as what the findings are printed.
#[derive(Clone, Copy)]
pub struct AskedCheck<'a> {
    /// What it is checked for.
    pub subject: Subject<'a>,
    /// As what the findings are printed.
    pub form: TextForm,
}

/// Whether a check found something.
#[derive(Clone, Copy)]
pub enum Findings {
    /// Nothing.
    Absent,
    /// What it wrote.
    Present,
}

/// What is asked of an input, by words that were read.
#[derive(Drop)]
enum Asked<'a> {
    Rules,
    Changes(&'a Policy),
    Expected(&'a Policy),
    Zones(&'a Policy, Option<&'a Identifier>),
    Isolation(Identifier),
    Rights(Option<Name>),
    Printed(PolicySource, WantedZones),
    Reverse(Name),
    Reach(&'a Policy, &'a Identifier, ReachContent, Name),
    Zone(Name, ZoneTests),
}

/// What is checked, of an input that was read.
#[derive(Drop)]
enum Checking<'a> {
    Rules(Policy),
    Changes(&'a Policy, Policy),
    Expected(&'a Policy, Expectations),
    Zones(&'a Policy, Option<&'a Identifier>, OriginList),
    Isolation(Identifier, Policy),
    Rights(Option<Name>, Policy),
    Printed(PrintedPolicy),
    Reverse(Name, ForwardRecords),
    Reach(&'a Policy, &'a Identifier, ReachContent, ZoneIndex),
    Zone(Zone, ZoneTests),
}

/// What a check found, and the text that tells it.
#[derive(Drop)]
pub(crate) struct Report {
    pub(crate) findings: Findings,
    pub(crate) text: Vec<u8>,
}

/// The name that a word is, if one is given.
pub fn name_if(alloc: Global, word: Option<&str>) -> Result<Option<Name>, LineFault>
    ensures { Gives (λ name. name) result (name_if (option_map (λ w. w.now) word.entry)) }
{
    match word {
        None => Ok(None),
        Some(word) => Ok(Some(read_name(alloc, word)?)),
    }
}

/// The origin of a zone to check, and by what. The refusal of the latter comes first.
fn zone_asked<'a>(alloc: Global, origin: &str, rules: ZoneRules<'_>) -> Result<Asked<'a>, LineFault>
    ensures { Gives (λ wanted. wanted) result (asked_in (Subject.Zone origin.entry rules.entry)) }
{
    let tests = tests_of(rules)?;
    Ok(Asked::Zone(read_name(alloc, origin)?, tests))
}

/// What words ask for.
fn asked_in<'a>(alloc: Global, subject: Subject<'a>) -> Result<Asked<'a>, LineFault>
    ensures { Gives (λ wanted. wanted) result (asked_in subject.entry) }
{
    match subject {
        Subject::Rules => Ok(Asked::Rules),
        Subject::Changes(old) => Ok(Asked::Changes(old)),
        Subject::Expected(policy) => Ok(Asked::Expected(policy)),
        Subject::Zones(policy, reader) => Ok(Asked::Zones(policy, reader)),
        Subject::Isolation(word) => Ok(Asked::Isolation(read_caller(alloc, word)?)),
        Subject::Rights(word) => Ok(Asked::Rights(name_if(alloc, word)?)),
        Subject::Printed(source, zones) => Ok(Asked::Printed(source, zones_if(alloc, zones)?)),
        Subject::Reverse(word) => Ok(Asked::Reverse(read_name(alloc, word)?)),
        Subject::Reach(policy, caller, words) => {
            let origin = read_name(alloc, words.origin)?;
            Ok(Asked::Reach(policy, caller, words.content, origin))
        }
        Subject::Zone(origin, rules) => zone_asked(alloc, origin, rules),
    }
}

/// The policy of a text, whose octets are given back.
pub(crate) fn policy_in(alloc: Global, text: Vec<u8>) -> Result<Policy, LineFault>
    ensures { Gives (λ policy. policy) result (rules_in text.items) }
{
    Ok(read_policy(alloc, &text)?)
}

/// What is checked, of the text of an input.
fn checking_of<'a>(
    alloc: Global,
    wanted: Asked<'a>,
    text: Vec<u8>,
) -> Result<Checking<'a>, LineFault>
    ensures { Gives (λ checking. checking) result (checking_of wanted.entry text.items) }
{
    match wanted {
        Asked::Rules => Ok(Checking::Rules(policy_in(alloc, text)?)),
        Asked::Changes(old) => Ok(Checking::Changes(old, policy_in(alloc, text)?)),
        Asked::Expected(policy) => Ok(Checking::Expected(policy, expectations_in(alloc, text)?)),
        Asked::Zones(policy, reader) => {
            Ok(Checking::Zones(policy, reader, origins_in(alloc, text)?))
        }
        Asked::Isolation(caller) => Ok(Checking::Isolation(caller, policy_in(alloc, text)?)),
        Asked::Rights(name) => Ok(Checking::Rights(name, policy_in(alloc, text)?)),
        Asked::Printed(source, zones) => {
            Ok(Checking::Printed(printed_in(alloc, source, zones, text)?))
        }
        Asked::Reverse(origin) => {
            let forward = forward_records(alloc, text)?;
            Ok(Checking::Reverse(origin, forward))
        }
        Asked::Reach(policy, caller, content, origin) => {
            let index = index_of_file(alloc, origin, text)?;
            Ok(Checking::Reach(policy, caller, content, index))
        }
        Asked::Zone(origin, tests) => {
            Ok(Checking::Zone(zone_of_file(alloc, origin, text)?, tests))
        }
    }
}

/// What is checked, of what a reader gives. The refusals of the words come before those of the input.
fn checked_read<'a, R: Input>(
    alloc: Global,
    wanted: AskedCheck<'a>,
    reader: &mut R,
) -> Result<Checking<'a>, LineFault>
    ensures { GivesOf (λ checking. checking) (R.left reader.old) (checked_read wanted.entry) result (R.fine reader.old reader.new)
        (R.failed reader.old reader.new) }
{
    let asked = asked_in(alloc, wanted.subject)?;
    let text = read_input(alloc, reader)?;
    checking_of(alloc, asked, text)
}

/// Appends a space, and the id of the rule of a place.
fn push_id(rules: &[Rule], place: usize, text: &mut Vec<u8>) -> Result<(), AllocError>
    ensures { OnOk result (text.new.items ≡ text.old.items ++ id_text rules.now place) }
{
    text.push(b' ')?;
    match rules.get(place) {
        Some(rule) => text.extend_from_slice(rule.id.as_bytes()),
        None => Ok(()),
    }
}

/// The beginning of the line of an idle rule: its place, from 0, and its id.
fn idle_head(alloc: Global, rules: &[Rule], place: usize) -> Result<Vec<u8>, AllocError>
    ensures { IfOk result (λ text. text.items ≡ idle_head rules.now place) }
{
    let head = format!(in alloc; "idle {place}")?;
    let mut text = Vec::from_slice(alloc, head.as_bytes())?;
    push_id(rules, place, &mut text)?;
    Ok(text)
}

/// The line of an idle rule: its place, its id, and the ids of the rules that take its questions.
fn idle_line(alloc: Global, rules: &[Rule], idle: &IdleRule) -> Result<Vec<u8>, AllocError>
    ensures { IfOk result (λ text. text.items ≡ idle_line rules.now idle.now) }
{
    let mut text = idle_head(alloc, rules, idle.rule)?;
    for taker in &idle.takers {
        push_id(rules, *taker, &mut text)?;
    }
    text.push(b'\n')?;
    Ok(text)
}

/// The lines of idle rules.
fn idle_text(alloc: Global, rules: &[Rule], idle: &[IdleRule]) -> Result<Vec<u8>, AllocError>
    ensures { IfOk result (λ text. text.items ≡ idle_text rules.now idle.now) }
{
    let mut text = Vec::new(alloc);
    for rule in idle {
        let line = idle_line(alloc, rules, rule)?;
        text.extend_from_slice(&line)?;
    }
    Ok(text)
}

/// Whether there are idle rules.
fn findings_of(idle: &[IdleRule]) -> Findings
    ensures { result ≡ findings_of idle.now }
{
    match idle {
        [] => Findings::Absent,
        _ => Findings::Present,
    }
}

/// The report on the rules of a policy. The only error is out of memory.
fn rules_report(alloc: Global, policy: &Policy) -> Result<Report, AllocError>
    ensures { IfOk result (λ report. IsReport policy.now report.findings report.text.items) }
{
    let idle = idle_rules(alloc, policy)?;
    let text = idle_text(alloc, policy.rules(), &idle)?;
    let findings = findings_of(&idle);
    Ok(Report { findings, text })
}

/// Appends a type, an action and the id of the rule that grants it, with a space before each.
pub(crate) fn push_right(rules: &[Rule], right: Right, text: &mut Vec<u8>) -> Result<(), AllocError>
    ensures { OnOk result (text.new.items ≡ text.old.items ++ right_text rules.now right) }
{
    text.push(b' ')?;
    text.extend_from_slice(right.record_type.text().as_bytes())?;
    text.push(b' ')?;
    text.extend_from_slice(right.action.text().as_bytes())?;
    push_id(rules, right.rule, text)
}

/// Appends a space, and another caller, or `*` for any that no rule names.
pub(crate) fn push_other(other: &Option<Identifier>, text: &mut Vec<u8>) -> Result<(), AllocError>
    ensures { OnOk result (text.new.items ≡ text.old.items ++ other_text other.now) }
{
    text.push(b' ')?;
    match other {
        None => text.extend_from_slice(b"*"),
        Some(caller) => text.extend_from_slice(caller.as_bytes()),
    }
}

/// A word, and a name after it.
fn named(alloc: Global, word: &str, name: &Name) -> Result<Vec<u8>, AllocError>
    ensures { IfOk result (λ text. text.items ≡ word.now ++ name_text name.now) }
{
    let line = format!(in alloc; "{word}{name}")?;
    Vec::from_slice(alloc, line.as_bytes())
}

/// What tells of an exposure: `soa`, the name, and the right; or `shared`, the name, what the caller may do there, the other
/// caller, and what that may do.
fn exposure_line(alloc: Global, rules: &[Rule], exposure: &Exposure) -> Result<Vec<u8>, AllocError>
    ensures { IfOk result (λ text. text.items ≡ exposure_line rules.now exposure.now) }
{
    match exposure {
        Exposure::Soa { name, right } => {
            let mut text = named(alloc, "soa ", name)?;
            push_right(rules, *right, &mut text)?;
            Ok(text)
        }
        Exposure::Shared {
            name,
            own,
            other,
            theirs,
        } => {
            let mut text = named(alloc, "shared ", name)?;
            push_right(rules, *own, &mut text)?;
            push_other(other, &mut text)?;
            push_right(rules, *theirs, &mut text)?;
            Ok(text)
        }
    }
}

/// What tells whether a caller is isolated.
fn isolation_line(
    alloc: Global,
    rules: &[Rule],
    found: &Option<Exposure>,
) -> Result<Vec<u8>, AllocError>
    ensures { IfOk result (λ text. text.items ≡ isolation_line rules.now found.now) }
{
    match found {
        None => Vec::from_slice(alloc, b"isolated"),
        Some(exposure) => exposure_line(alloc, rules, exposure),
    }
}

/// Whether something keeps a caller from being isolated.
fn exposures_of(found: &Option<Exposure>) -> Findings
    ensures { result ≡ exposures_of found.now }
{
    match found {
        None => Findings::Absent,
        Some(_) => Findings::Present,
    }
}

/// The report on the isolation of a caller. The only error is out of memory.
fn isolation_report(
    alloc: Global,
    policy: &Policy,
    caller: &Identifier,
) -> Result<Report, AllocError>
    ensures { IfOk result (λ report. IsIsolationReport policy.now caller.now report.findings report.text.items) }
{
    let found = isolation(alloc, policy, caller)?;
    let mut text = isolation_line(alloc, policy.rules(), &found)?;
    text.push(b'\n')?;
    let findings = exposures_of(&found);
    Ok(Report { findings, text })
}

/// What is printed of the rights of callers. The only error is out of memory.
fn rights_report(alloc: Global, policy: &Policy, name: &Option<Name>) -> Result<Report, AllocError>
    ensures { IfOk result (λ report. IsRightsText name.now policy.now report.text.items × (report.findings ≡ Findings.Absent)) }
{
    let text = rights_list(alloc, policy, name)?;
    Ok(Report {
        findings: Findings::Absent,
        text,
    })
}

/// The report on what is checked. The only error is out of memory.
fn report_on(alloc: Global, checking: &Checking<'_>) -> Result<Report, AllocError>
    ensures { IfOk result (λ report. IsReportOn checking.now report.findings report.text.items) }
{
    match checking {
        Checking::Rules(policy) => rules_report(alloc, policy),
        Checking::Changes(old, new) => changes_report(alloc, old, new),
        Checking::Expected(policy, expected) => expect_report(alloc, policy, expected),
        Checking::Zones(policy, reader, zones) => zones_report(alloc, policy, *reader, zones),
        Checking::Isolation(caller, policy) => isolation_report(alloc, policy, caller),
        Checking::Rights(name, policy) => rights_report(alloc, policy, name),
        Checking::Printed(printed) => policy_report(alloc, printed),
        Checking::Reverse(origin, forward) => reverse_report(alloc, origin, forward),
        Checking::Reach(policy, caller, ReachContent::Groups, index) => {
            reach_report(alloc, policy, caller, index)
        }
        Checking::Reach(policy, caller, ReachContent::Examples, index) => {
            examples_report(alloc, policy, caller, index)
        }
        Checking::Zone(zone, tests) => zone_report(alloc, zone, *tests),
    }
}

/// Of what the lines of a report are.
const fn kind_of(checking: &Checking<'_>) -> LineKind
    ensures { result ≡ kind_of checking.now }
{
    match checking {
        Checking::Rules(_) => LineKind::IdleRules,
        Checking::Changes(..) => LineKind::Changes,
        Checking::Expected(..) => LineKind::Expectations,
        Checking::Zones(..) => LineKind::Zones,
        Checking::Isolation(..) => LineKind::Isolation,
        Checking::Rights(..) => LineKind::Rights,
        Checking::Reach(_, _, ReachContent::Groups, _) => LineKind::Questions,
        Checking::Printed(_)
        | Checking::Reverse(..)
        | Checking::Reach(_, _, ReachContent::Examples, _) => LineKind::Others,
        Checking::Zone(..) => LineKind::Findings,
    }
}

/// The report on what is checked, as lines or as their objects. The only error is out of memory.
#[tactic(auto, using(crate::proofs::ReportTextLemmas::printed_so))]
fn report_in(alloc: Global, form: TextForm, checking: &Checking<'_>) -> Result<Report, AllocError>
    ensures { IfOk result (λ report. IsPrintedAs form (kind_of checking.now) (IsReportOn checking.now report.findings) report.text.items) }
{
    let report = report_on(alloc, checking)?;
    let text = in_form(alloc, form, kind_of(checking), report.text)?;
    Ok(Report {
        findings: report.findings,
        text,
    })
}

/// The report on what a reader gives.
fn report_read<R: Input>(
    alloc: Global,
    wanted: AskedCheck<'_>,
    reader: &mut R,
) -> Result<Report, LineFault>
    ensures { Reports wanted.entry (R.left reader.old) result (R.fine reader.old reader.new) (R.failed reader.old reader.new) }
{
    let checking = checked_read(alloc, wanted, reader)?;
    Ok(report_in(alloc, wanted.form, &checking)?)
}

/// Checks the policy that an input is. Of the rules, what is written is a line for each that never decides, in order: `idle`, its place
/// from 0, its id, and the ids of the rules that take its questions. Of the isolation of a caller it is `isolated`, or what keeps the
/// caller from that: `soa`, a name, and a type, an action and a rule by which the caller may see an SOA there; or `shared`, a name, what
/// the caller may do there, another caller or `*` for any that no rule names, and what that one may do. Of expectations it is a line for
/// each that is not so: `differs`, its line, and what is decided; or `exceeds`, its line, and a caller, a name, a type, an action and a
/// rule that grants beyond its limit. Of the zones of a list it is what `do_policy_zones` says. Of a policy that is printed it is the text of
/// it. Of the answers of a zone it is what `do_reach` says. Of forward zones it is the PTR records that their addresses call for. Otherwise
/// one line tells the refusal that comes first: of the caller, that the input is too large, or what is wrong in it. As JSON, each line is
/// an object, whose members have the words of the line.
pub fn do_check<R: Input, W: Sink>(
    alloc: Global,
    wanted: AskedCheck<'_>,
    reader: &mut R,
    writer: &mut W,
) -> Result<Findings, JobFault>
    ensures { Checked wanted.entry (R.left reader.old) (W.contents writer.old) (W.contents writer.new) result (R.fine reader.old reader.new)
        (R.failed reader.old reader.new) (W.failures writer.old) (W.failures writer.new) }
{
    match report_read(alloc, wanted, reader) {
        Ok(report) => {
            write_text(writer, &report.text)?;
            Ok(report.findings)
        }
        Err(fault) => Err(write_refusal(alloc, writer, fault)),
    }
}
