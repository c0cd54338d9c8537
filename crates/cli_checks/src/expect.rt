//! What is expected of a policy and is not so, as text.

ghost use Rattle.std.specs.Prelude.{◌≡◌, IfOk};
ghost use Rattle.cli_checks.specs.ExpectAnswers.{AreExpected};
ghost use Rattle.cli_checks.specs.Expect.{differs_line, exceeds_line, example_line, IsRowText, IsExpectReport};
ghost use Rattle.cli_checks.specs.ReportLines.{AreTexts};

use crate::check::{AskedCheck, Findings, Report, Subject, do_check, push_other, push_right};
use crate::expect_fault::ExpectFault;
use crate::expectations::Expectations;
use crate::policy_changes::old_policy;
use crate::zone_check::told;
use cli_core::{Input, TextForm};
use cli_text::decision_text;
use dns_master::Sink;
use grant_policy::{Decision, Policy, Rule};
use policy_tools::{Counterexample, Excess, ExpectationLine, expectation_fails};
use std::alloc::{AllocError, Global};

/// The line that tells what is decided in place of what a line expects.
fn differs_line(alloc: Global, line: usize, decision: Decision<'_>) -> Result<Vec<u8>, AllocError>
    ensures { IfOk result (λ text. text.items ≡ differs_line line decision.entry) }
{
    let head = format!(in alloc; "differs {line} ")?;
    let mut text = Vec::from_slice(alloc, head.as_bytes())?;
    text.extend_from_slice(&decision_text(alloc, decision)?)?;
    Ok(text)
}

/// The line that tells what is granted beyond the limit of a line.
fn exceeds_line(
    alloc: Global,
    rules: &[Rule],
    line: usize,
    excess: &Excess,
) -> Result<Vec<u8>, AllocError>
    ensures { IfOk result (λ text. text.items ≡ exceeds_line rules.now line excess.now) }
{
    let head = format!(in alloc; "exceeds {line}")?;
    let mut text = Vec::from_slice(alloc, head.as_bytes())?;
    push_other(&excess.caller, &mut text)?;
    let name = format!(in alloc; " {}", excess.name)?;
    text.extend_from_slice(name.as_bytes())?;
    push_right(rules, excess.right, &mut text)?;
    text.push(b'\n')?;
    Ok(text)
}

/// The line that tells why a policy is not as a line expects.
fn example_line(
    alloc: Global,
    rules: &[Rule],
    line: usize,
    example: &Counterexample<'_>,
) -> Result<Vec<u8>, AllocError>
    ensures { IfOk result (λ text. text.items ≡ example_line rules.now line example.now) }
{
    match example {
        Counterexample::Decided(decision) => differs_line(alloc, line, *decision),
        Counterexample::Granted(excess) => exceeds_line(alloc, rules, line, excess),
    }
}

/// What is told of a line: nothing, if the policy is as it expects.
fn row_text(alloc: Global, policy: &Policy, row: &ExpectationLine) -> Result<Vec<u8>, AllocError>
    ensures { IfOk result (λ text. IsRowText policy.now row.now text.items) }
{
    match expectation_fails(alloc, policy, &row.expectation)? {
        None => Ok(Vec::new(alloc)),
        Some(example) => example_line(alloc, policy.rules(), row.line, &example),
    }
}

/// What is told of lines.
fn rows_text(
    alloc: Global,
    policy: &Policy,
    rows: &[ExpectationLine],
) -> Result<Vec<u8>, AllocError>
    ensures { IfOk result (λ text. AreTexts (IsRowText policy.now) rows.now text.items) }
{
    let mut text = Vec::new(alloc);
    for row in rows {
        let here = row_text(alloc, policy, row)?;
        text.extend_from_slice(&here)?;
    }
    Ok(text)
}

/// The report on what is expected of a policy. The only error is out of memory.
pub(crate) fn expect_report(
    alloc: Global,
    policy: &Policy,
    expected: &Expectations,
) -> Result<Report, AllocError>
    ensures { IfOk result (λ report. IsExpectReport policy.now expected.now report.findings report.text.items) }
{
    let text = rows_text(alloc, policy, expected.rows())?;
    let findings = told(&text);
    Ok(Report { findings, text })
}

/// Writes what is expected of a policy and is not so: a line for each expectation that does not hold, in order. Two inputs are the policy
/// and what is expected of it, which is read after it. Otherwise one line tells the refusal that comes first: that the policy is too
/// large, or what is wrong in it; and that the expectations are too large, or the first line that is not one.
pub fn do_expect<R: Input, N: Input, W: Sink>(
    alloc: Global,
    form: TextForm,
    policy: &mut R,
    expected: &mut N,
    writer: &mut W,
) -> Result<Findings, ExpectFault>
    ensures { AreExpected form
        (record { left = R.left policy.old; fine = R.fine policy.old policy.new; failed = R.failed policy.old policy.new })
        (record { left = N.left expected.old; fine = N.fine expected.old expected.new; failed = N.failed expected.old expected.new }) (W.contents writer.old)
        (W.contents writer.new) result (W.failures writer.old) (W.failures writer.new) }
{
    let policy = match old_policy(alloc, policy, writer) {
        Ok(policy) => policy,
        Err(fault) => return Err(ExpectFault::Policy(fault)),
    };
    let wanted = AskedCheck {
        subject: Subject::Expected(&policy),
        form,
    };
    match do_check(alloc, wanted, expected, writer) {
        Ok(findings) => Ok(findings),
        Err(fault) => Err(ExpectFault::Expected(fault)),
    }
}
