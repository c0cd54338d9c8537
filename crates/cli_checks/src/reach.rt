//! The answers of a zone that a caller of a policy can change, as text.

ghost use Rattle.std.specs.Prelude.{◌≡◌, ◌++◌, IfOk, OnOk, string_bytes};
ghost use Rattle.std.specs.List.{flat_map};
ghost use Rattle.cli_core.specs.LineFaults.{Gives};
ghost use Rattle.cli_text.specs.Canon.{zone_of_file};
ghost use Rattle.cli_checks.specs.Reach.{reached_line, AreReached, IsReachReport};
ghost use Rattle.cli_checks.specs.ReachAnswers.{IsReachChecked};

use crate::check::{AskedCheck, Findings, Report, Subject, do_check};
use crate::policy_changes::old_policy;
use crate::reach_fault::ReachFault;
use crate::zone_check::told;
use answer_reach::{ReachedAnswers, ReachedNames, reached_answers};
use cli_core::{Input, LineFault, Reach, TextForm, write_refusal};
use cli_text::{push_questions, read_caller, zone_of_file};
use dns_master::Sink;
use dns_names::Name;
use grant_policy::{Identifier, Policy};
use std::alloc::{AllocError, Global};
use zone_answers::ZoneIndex;

/// The zone of an origin and a master file, whose octets are given back, to be asked.
pub(crate) fn index_of_file(
    alloc: Global,
    origin: Name,
    text: Vec<u8>,
) -> Result<ZoneIndex, LineFault>
    ensures { Gives (λ index. index) result (zone_of_file origin text.items) }
{
    let zone = zone_of_file(alloc, origin, text)?;
    Ok(ZoneIndex::new(alloc, zone)?)
}

/// Appends the line of a row. The only error is out of memory.
pub(crate) fn push_row(text: &mut String, row: &ReachedAnswers) -> Result<(), AllocError>
    ensures { OnOk result (string_bytes text.new ≡ string_bytes text.old ++ reached_line row.now) }
{
    match &row.names {
        ReachedNames::At(name) => push_questions(text, "at", name, &row.types),
        ReachedNames::Others(above) => push_questions(text, "below", above, &row.types),
    }
}

/// The lines of rows. The only error is out of memory.
fn rows_text(alloc: Global, rows: &[ReachedAnswers]) -> Result<String, AllocError>
    ensures { IfOk result (λ text. string_bytes text ≡ flat_map reached_line rows.now) }
{
    let mut text = String::new(alloc);
    for row in rows {
        push_row(&mut text, row)?;
    }
    Ok(text)
}

/// The report on the answers of a zone that a caller can change. The only error is out of memory.
pub(crate) fn reach_report(
    alloc: Global,
    policy: &Policy,
    caller: &Identifier,
    index: &ZoneIndex,
) -> Result<Report, AllocError>
    ensures { IfOk result (λ report. IsReachReport policy.now caller.now index.now report.findings report.text.items) }
{
    let rows = reached_answers(alloc, index, policy, caller)?;
    let text = rows_text(alloc, &rows)?.into_bytes();
    let findings = told(&text);
    Ok(Report { findings, text })
}

/// Writes which answers of a zone a caller can change, by any updates that a policy lets it make, in whatever order, nobody else acting: a
/// line for each group of names, in canonical order: `at` and a name, or `below` and a name, for those below it that are neither at nor
/// below a nearer one that exists, is above the target of an alias, or is that of a rule; and the types of the questions, or `*` for all. A
/// question that no line has is answered as it is, whatever the caller does; that of a line may be answered otherwise, or not. Where
/// examples are asked for, lines after two spaces follow each of these: `ask`, a name of the group and one of the types, and then the
/// operations of an update of the zone as it is that the policy lets the caller make, and after which this question is answered otherwise;
/// or `none found`, though there may be such an update. Two inputs are the policy and, read after it, the master file of the zone of this
/// origin. Otherwise one line tells the refusal that comes first: of the caller; that the policy is too large, or what is wrong in it; of
/// the origin, that the zone is too large, of the master file, of its records as a zone.
pub fn do_reach<R: Input, N: Input, W: Sink>(
    alloc: Global,
    what: (Reach<'_>, TextForm),
    policy: &mut R,
    zone: &mut N,
    writer: &mut W,
) -> Result<Findings, ReachFault>
    ensures { IsReachChecked what.entry.0 what.entry.1
        (record { left = R.left policy.old; fine = R.fine policy.old policy.new; failed = R.failed policy.old policy.new })
        (record { left = N.left zone.old; fine = N.fine zone.old zone.new; failed = N.failed zone.old zone.new }) (W.contents writer.old)
        (W.contents writer.new) result (W.failures writer.old) (W.failures writer.new) }
{
    let (words, form) = what;
    let caller = match read_caller(alloc, words.caller) {
        Ok(caller) => caller,
        Err(fault) => return Err(ReachFault::Caller(write_refusal(alloc, writer, fault))),
    };
    let policy = match old_policy(alloc, policy, writer) {
        Ok(policy) => policy,
        Err(fault) => return Err(ReachFault::Policy(fault)),
    };
    let wanted = AskedCheck {
        subject: Subject::Reach(&policy, &caller, words),
        form,
    };
    match do_check(alloc, wanted, zone, writer) {
        Ok(findings) => Ok(findings),
        Err(fault) => Err(ReachFault::Zone(fault)),
    }
}
