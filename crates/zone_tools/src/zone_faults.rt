//! Whether a record of a zone is at fault by a rule.

ghost use Rattle.std.specs.Prelude.{◌≡◌, ◌++◌, IfOk};
ghost use Rattle.zone_core.specs.Sets.{listing};
ghost use Rattle.zone_tools.specs.ZoneRules.{server_of};
ghost use Rattle.zone_tools.specs.ZoneTests.{IsSurvey, glue_rule, answer_rule, own_rule, is_sound, broken_by, server_rule, is_missing, dangles, AreLookups, is_rule, is_at_fault};
ghost use Rattle.zone_tools.specs.ZoneFindings.{finding_by, findings_by, findings_at};

use crate::host_names::has_host_names;
use crate::record_faults::{
    is_fit_digest, is_sha1, is_unread_record, is_wildcard_server, points_to_address,
};
use crate::zone_finding::Finding;
use crate::zone_names::{answering, records_at};
use crate::zone_rule::ZoneRule;
use crate::zone_survey::{
    Survey, has_address, has_cname, has_ns, is_address, is_cut, is_ds, server_of,
};
use dns_data::{Data, Record};
use dns_names::Name;
use std::alloc::{AllocError, Global};

/// The rule that a record breaks by a server at or below a cut, where these records are.
fn glue_rule(survey: &Survey<'_>, rr: &Record, there: &[Record]) -> Option<ZoneRule>
    requires { IsSurvey survey.now }
    ensures { result ≡ glue_rule survey.now.zone.now.origin (listing survey.now.zone.now.records) rr.now there.now }
{
    if !has_address(there) && is_cut(survey.zone.origin(), rr) && !survey.is_occluded(rr) {
        Some(ZoneRule::MissingGlue)
    } else {
        None
    }
}

/// The rule that records break that answer for a server.
fn answer_rule(answers: &[Record]) -> Option<ZoneRule>
    ensures { result ≡ answer_rule answers.now }
{
    if has_cname(answers) {
        Some(ZoneRule::AliasTarget)
    } else if has_address(answers) {
        None
    } else {
        Some(ZoneRule::MissingAddress)
    }
}

/// The rule that a record breaks by any other server of the zone. The only error is out of memory.
fn own_rule(
    alloc: Global,
    survey: &Survey<'_>,
    rr: &Record,
    server: &Name,
) -> Result<Option<ZoneRule>, AllocError>
    requires { IsSurvey survey.now }
    ensures { IfOk result (λ rule. rule ≡ own_rule survey.now.zone.now.origin (listing survey.now.zone.now.records) rr.now server.now) }
{
    if survey.is_occluded(rr) {
        return Ok(None);
    }
    Ok(answer_rule(answering(alloc, survey.zone, server)?))
}

/// Whether an address is among the records at a name, and no alias.
fn is_sound(there: &[Record]) -> bool
    ensures { result ≡ is_sound there.now }
{
    has_address(there) && !has_cname(there)
}

/// The rule that a record breaks by the server that it names. The only error is out of memory.
fn broken_by(
    alloc: Global,
    survey: &Survey<'_>,
    rr: &Record,
    server: &Name,
) -> Result<Option<ZoneRule>, AllocError>
    requires { IsSurvey survey.now }
    ensures { IfOk result (λ rule. rule ≡ broken_by survey.now.zone.now.origin (listing survey.now.zone.now.records) rr.now server.now) }
{
    if !server.is_within(survey.zone.origin()) {
        return Ok(None);
    }
    let there = records_at(survey.zone, server);
    if is_sound(there) {
        Ok(None)
    } else if survey.is_delegated(server) {
        Ok(glue_rule(survey, rr, there))
    } else {
        own_rule(alloc, survey, rr, server)
    }
}

/// The same of a record that may name no server.
fn server_rule(
    alloc: Global,
    survey: &Survey<'_>,
    rr: &Record,
) -> Result<Option<ZoneRule>, AllocError>
    requires { IsSurvey survey.now }
    ensures { IfOk result (λ rule. rule ≡ server_rule survey.now.zone.now.origin (listing survey.now.zone.now.records) rr.now) }
{
    match server_of(&rr.rdata) {
        Some(server) => broken_by(alloc, survey, rr, server),
        None => Ok(None),
    }
}

/// Whether the zone answers for the target of an alias that is not occluded, with no record. The only error is out of memory.
fn is_missing(
    alloc: Global,
    survey: &Survey<'_>,
    rr: &Record,
    target: &Name,
) -> Result<bool, AllocError>
    requires { IsSurvey survey.now }
    ensures { IfOk result (λ is. is ≡ is_missing survey.now.zone.now.origin (listing survey.now.zone.now.records) rr.now target.now) }
{
    let is_answered = target.is_within(survey.zone.origin()) && !survey.is_delegated(target);
    if !is_answered || survey.is_occluded(rr) {
        return Ok(false);
    }
    Ok(answering(alloc, survey.zone, target)?.is_empty())
}

/// Whether a record is an alias of nothing. The only error is out of memory.
fn dangles(alloc: Global, survey: &Survey<'_>, rr: &Record) -> Result<bool, AllocError>
    requires { IsSurvey survey.now }
    ensures { IfOk result (λ is. is ≡ dangles survey.now.zone.now.origin (listing survey.now.zone.now.records) rr.now) }
{
    match &rr.rdata {
        Data::Cname(target) => is_missing(alloc, survey, rr, target),
        _ => Ok(false),
    }
}

/// What is looked up for a record.
#[derive(Clone, Copy)]
struct Lookups {
    /// The rule that it breaks by the server that it names.
    broken: Option<ZoneRule>,
    /// Whether it is an alias of nothing.
    dangles: bool,
}

/// What is looked up for a record. The only error is out of memory.
fn looked_up(alloc: Global, survey: &Survey<'_>, rr: &Record) -> Result<Lookups, AllocError>
    requires { IsSurvey survey.now }
    ensures { IfOk result (λ lookups. AreLookups survey.now.zone.now.origin (listing survey.now.zone.now.records) rr.now lookups) }
{
    let broken = server_rule(alloc, survey, rr)?;
    let dangles = dangles(alloc, survey, rr)?;
    Ok(Lookups { broken, dangles })
}

/// Whether a rule is this one.
fn is_rule(rule: ZoneRule, other: Option<ZoneRule>) -> bool
    ensures { result ≡ is_rule rule other }
{
    match other {
        Some(other) => other.place() == rule.place(),
        None => false,
    }
}

/// Whether a delegation occludes a record that is no glue.
fn is_stray(survey: &Survey<'_>, rr: &Record) -> bool
    requires { IsSurvey survey.now }
    ensures { result ≡ is_at_fault ZoneRule.BelowCut survey.now.zone.now.origin (listing survey.now.zone.now.records) rr.now }
{
    survey.is_occluded(rr) && !(is_address(rr) && survey.is_server(&rr.owner))
}

/// Whether a record is a DS at a name without NS.
fn lacks_ns(survey: &Survey<'_>, rr: &Record) -> bool
    ensures { result ≡ is_at_fault ZoneRule.DsWithoutNs survey.now.zone.now.origin (listing survey.now.zone.now.records) rr.now }
{
    is_ds(rr) && !has_ns(records_at(survey.zone, &rr.owner))
}

/// Whether a record is at fault by a rule.
fn is_at_fault(survey: &Survey<'_>, rr: &Record, lookups: Lookups, rule: ZoneRule) -> bool
    requires survey { IsSurvey survey.now }
    requires lookups { AreLookups survey.now.zone.now.origin (listing survey.now.zone.now.records) rr.now lookups }
    ensures { result ≡ is_at_fault rule survey.now.zone.now.origin (listing survey.now.zone.now.records) rr.now }
{
    match rule {
        ZoneRule::HostName => !has_host_names(rr),
        ZoneRule::BelowCut => is_stray(survey, rr),
        ZoneRule::DsWithoutNs => lacks_ns(survey, rr),
        ZoneRule::WildcardNs => is_wildcard_server(&rr.owner, &rr.rdata),
        ZoneRule::DigestLength => !is_fit_digest(&rr.rdata),
        ZoneRule::WeakDigest => is_sha1(&rr.rdata),
        ZoneRule::AddressName => points_to_address(&rr.rdata),
        ZoneRule::UnreadOctet => is_unread_record(rr),
        ZoneRule::DanglingAlias => lookups.dangles,
        ZoneRule::AliasTarget | ZoneRule::MissingAddress | ZoneRule::MissingGlue => {
            is_rule(rule, lookups.broken)
        }
    }
}

/// Findings, and one of a record, if the record is at fault by its rule. The only error is out of memory.
fn with_finding(
    survey: &Survey<'_>,
    rr: &Record,
    lookups: Lookups,
    mut found: Vec<Finding>,
    finding: Finding,
) -> Result<Vec<Finding>, AllocError>
    requires survey { IsSurvey survey.now }
    requires lookups { AreLookups survey.now.zone.now.origin (listing survey.now.zone.now.records) rr.now lookups }
    ensures { IfOk result (λ all. all.items ≡ found.items ++ finding_by survey.now.zone.now.origin (listing survey.now.zone.now.records) rr.now finding) }
{
    if is_at_fault(survey, rr, lookups, finding.rule) {
        found.push(finding)?;
    }
    Ok(found)
}

/// Findings, and those of the record at a place by these rules. The only error is out of memory.
fn with_findings_by(
    alloc: Global,
    survey: &Survey<'_>,
    rr: &Record,
    place: usize,
    rules: &[ZoneRule],
    mut found: Vec<Finding>,
) -> Result<Vec<Finding>, AllocError>
    requires { IsSurvey survey.now }
    ensures { IfOk result
        (λ all. all.items ≡ found.items ++ findings_by survey.now.zone.now.origin (listing survey.now.zone.now.records) place rr.now rules.now) }
{
    let lookups = looked_up(alloc, survey, rr)?;
    for rule in rules {
        let finding = Finding { place, rule: *rule };
        found = with_finding(survey, rr, lookups, found, finding)?;
    }
    Ok(found)
}

/// Findings, and those of the record at a place. The only error is out of memory.
pub(crate) fn with_findings(
    alloc: Global,
    survey: &Survey<'_>,
    rr: &Record,
    place: usize,
    found: Vec<Finding>,
) -> Result<Vec<Finding>, AllocError>
    requires { IsSurvey survey.now }
    ensures { IfOk result (λ all. all.items ≡ found.items ++ findings_at survey.now.zone.now.origin (listing survey.now.zone.now.records) place rr.now) }
{
    with_findings_by(alloc, survey, rr, place, &ZoneRule::ALL, found)
}
