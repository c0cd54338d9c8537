//! What a policy leaves out of the zones of a list, as text.

ghost use Rattle.std.specs.Prelude.{◌≡◌, ◌++◌, IfOk, OnOk, map, option_map};
ghost use Rattle.std.specs.List.{flat_map};
ghost use Rattle.cli_checks.specs.ReportLines.{AreTexts};
ghost use Rattle.cli_checks.specs.PolicyZones.{stray_line, unspoken_line, hidden_line, IsStrayText, IsUnspokenText, IsHiddenText, AreHiddenTexts, IsZonesReport};
ghost use Rattle.cli_checks.specs.PolicyZoneAnswers.{AreZonesChecked};

use crate::check::{AskedCheck, Findings, Report, Subject, do_check};
use crate::origin_list::OriginList;
use crate::policy_changes::old_policy;
use crate::policy_zones_fault::PolicyZonesFault;
use crate::zone_check::told;
use cli_core::{Input, TextForm, write_refusal};
use cli_text::caller_if;
use dns_master::Sink;
use dns_names::Name;
use grant_policy::{Identifier, Policy, Rule};
use policy_tools::{Hidden, hidden_from, stray_rules, unspoken_origins};
use std::alloc::{AllocError, Global};

/// Appends the line of a rule that speaks of no name in the zones.
fn push_stray(rule: &Rule, text: &mut Vec<u8>) -> Result<(), AllocError>
    ensures { OnOk result (text.new.items ≡ text.old.items ++ stray_line rule.now) }
{
    text.extend_from_slice(b"stray ")?;
    text.extend_from_slice(rule.id.as_bytes())?;
    text.extend_from_slice(b"\n")
}

/// The lines of such rules.
fn stray_lines(alloc: Global, stray: &[&Rule]) -> Result<Vec<u8>, AllocError>
    ensures { IfOk result (λ text. text.items ≡ flat_map stray_line (map (λ rule. rule.now) stray.now)) }
{
    let mut text = Vec::new(alloc);
    for rule in stray {
        push_stray(rule, &mut text)?;
    }
    Ok(text)
}

/// What is told of the rules that speak of no name in the zones.
fn stray_text(alloc: Global, policy: &Policy, origins: &[Name]) -> Result<Vec<u8>, AllocError>
    ensures { IfOk result (λ text. IsStrayText policy.now origins.now text.items) }
{
    let stray = stray_rules(alloc, policy, origins)?;
    stray_lines(alloc, &stray)
}

/// Appends the line of a zone of which no rule speaks.
fn push_unspoken(alloc: Global, origin: &Name, text: &mut Vec<u8>) -> Result<(), AllocError>
    ensures { OnOk result (text.new.items ≡ text.old.items ++ unspoken_line origin.now) }
{
    let line = format!(in alloc; "unspoken {origin}\n")?;
    text.extend_from_slice(line.as_bytes())
}

/// The lines of such zones.
fn unspoken_lines(alloc: Global, unspoken: &[&Name]) -> Result<Vec<u8>, AllocError>
    ensures { IfOk result (λ text. text.items ≡ flat_map unspoken_line (map (λ origin. origin.now) unspoken.now)) }
{
    let mut text = Vec::new(alloc);
    for origin in unspoken {
        push_unspoken(alloc, origin, &mut text)?;
    }
    Ok(text)
}

/// What is told of the zones of which no rule speaks.
fn unspoken_text(alloc: Global, policy: &Policy, origins: &[Name]) -> Result<Vec<u8>, AllocError>
    ensures { IfOk result (λ text. IsUnspokenText policy.now origins.now text.items) }
{
    let unspoken = unspoken_origins(alloc, policy, origins)?;
    unspoken_lines(alloc, &unspoken)
}

/// The line of a zone, and of a name and a type that a caller may not list there.
fn hidden_line(alloc: Global, origin: &Name, hidden: &Hidden) -> Result<Vec<u8>, AllocError>
    ensures { IfOk result (λ text. text.items ≡ hidden_line origin.now hidden.now) }
{
    let name = &hidden.name;
    let record_type = hidden.record_type.text();
    let line = format!(in alloc; "hidden {origin} {name} {record_type}\n")?;
    Vec::from_slice(alloc, line.as_bytes())
}

/// What is told of what a caller may not list in a zone: nothing, if it may list all.
fn hidden_text(
    alloc: Global,
    policy: &Policy,
    reader: &Identifier,
    origin: &Name,
) -> Result<Vec<u8>, AllocError>
    ensures { IfOk result (λ text. IsHiddenText policy.now reader.now origin.now text.items) }
{
    match hidden_from(alloc, policy, reader, origin)? {
        None => Ok(Vec::new(alloc)),
        Some(hidden) => hidden_line(alloc, origin, &hidden),
    }
}

/// The same of zones.
fn hidden_texts(
    alloc: Global,
    policy: &Policy,
    reader: &Identifier,
    origins: &[Name],
) -> Result<Vec<u8>, AllocError>
    ensures { IfOk result (λ text. AreTexts (IsHiddenText policy.now reader.now) origins.now text.items) }
{
    let mut text = Vec::new(alloc);
    for origin in origins {
        let here = hidden_text(alloc, policy, reader, origin)?;
        text.extend_from_slice(&here)?;
    }
    Ok(text)
}

/// The same, if there is such a caller.
fn hidden_if(
    alloc: Global,
    policy: &Policy,
    reader: Option<&Identifier>,
    origins: &[Name],
) -> Result<Vec<u8>, AllocError>
    ensures { IfOk result (λ text. AreHiddenTexts policy.now (option_map (λ r. r.now) reader.entry) origins.now text.items) }
{
    match reader {
        None => Ok(Vec::new(alloc)),
        Some(reader) => hidden_texts(alloc, policy, reader, origins),
    }
}

/// The report on the zones of a list. The only error is out of memory.
pub(crate) fn zones_report(
    alloc: Global,
    policy: &Policy,
    reader: Option<&Identifier>,
    zones: &OriginList,
) -> Result<Report, AllocError>
    ensures { IfOk result (λ report. IsZonesReport policy.now (option_map (λ r. r.now) reader.entry) zones.now report.findings report.text.items) }
{
    let origins = zones.origins();
    let mut text = stray_text(alloc, policy, origins)?;
    text.extend_from_slice(&unspoken_text(alloc, policy, origins)?)?;
    text.extend_from_slice(&hidden_if(alloc, policy, reader, origins)?)?;
    let findings = told(&text);
    Ok(Report { findings, text })
}

/// Writes what a policy leaves out of the zones of an office: a line for each rule that speaks of no name in one of them, in order:
/// `stray` and its id; one for each zone of which no rule speaks, in order: `unspoken` and its origin; and, if a caller is given, one for
/// each zone in which there is something that it may not list, in order: `hidden`, the origin, and a name and a type. Two inputs are the
/// policy and, read after it, the zones: a line for each, whose first word is its origin. Otherwise one line tells the refusal that comes
/// first: of the caller; that the policy is too large, or what is wrong in it; that the list of zones is too large, or the first line of it
/// that begins with no origin.
pub fn do_policy_zones<R: Input, N: Input, W: Sink>(
    alloc: Global,
    what: (Option<&str>, TextForm),
    policy: &mut R,
    zones: &mut N,
    writer: &mut W,
) -> Result<Findings, PolicyZonesFault>
    ensures { AreZonesChecked (option_map (λ w. w.now) what.entry.0) what.entry.1
        (record { left = R.left policy.old; fine = R.fine policy.old policy.new; failed = R.failed policy.old policy.new })
        (record { left = N.left zones.old; fine = N.fine zones.old zones.new; failed = N.failed zones.old zones.new }) (W.contents writer.old)
        (W.contents writer.new) result (W.failures writer.old) (W.failures writer.new) }
{
    let (reader, form) = what;
    let reader = match caller_if(alloc, reader) {
        Ok(reader) => reader,
        Err(fault) => return Err(PolicyZonesFault::Reader(write_refusal(alloc, writer, fault))),
    };
    let policy = match old_policy(alloc, policy, writer) {
        Ok(policy) => policy,
        Err(fault) => return Err(PolicyZonesFault::Policy(fault)),
    };
    let wanted = AskedCheck {
        subject: Subject::Zones(&policy, reader.as_ref()),
        form,
    };
    match do_check(alloc, wanted, zones, writer) {
        Ok(findings) => Ok(findings),
        Err(fault) => Err(PolicyZonesFault::Zones(fault)),
    }
}
