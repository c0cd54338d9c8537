//! What another policy changes, as text.

ghost use Rattle.std.specs.Prelude.{◌≡◌, ◌++◌, ◌∷◌, ◌<◌, ℕ, IfOk, OnOk, codes, string_bytes};
ghost use Rattle.std.specs.List.{flat_map};
ghost use Rattle.cli_core.specs.LineFaults.{GivesOf};
ghost use Rattle.cli_checks.specs.PolicyChanges.{change_lines, or_same, change_row_text, changes_text, group_changes_text, changes_found, policy_read, IsChangesReport};
ghost use Rattle.cli_checks.specs.PolicyChangeAnswers.{IsPolicyRead, AreChangesChecked};

use crate::changes_fault::ChangesFault;
use crate::check::{AskedCheck, Findings, Report, Subject, do_check, policy_in};
use crate::rights_check::{caller_lines, head_of, scope_text};
use cli_core::{Input, JobFault, LineFault, TextForm, read_input, write_refusal};
use dns_master::Sink;
use grant_policy::Policy;
use policy_tools::{CallerChange, Change, GroupChanges, NameChanges, changes_by_group};
use std::alloc::{AllocError, Global};

/// A beginning of lines, and a word.
fn with_word(alloc: Global, head: &[u8], word: &str) -> Result<Vec<u8>, AllocError>
    ensures { IfOk result (λ text. text.items ≡ head.now ++ word.now) }
{
    let mut text = Vec::from_slice(alloc, head)?;
    text.extend_from_slice(word.as_bytes())?;
    Ok(text)
}

/// What changes for a caller: a line for each action that is given, with its types, and then for each that is taken.
fn change_lines(alloc: Global, head: &[u8], change: &Change) -> Result<Vec<u8>, AllocError>
    ensures { IfOk result (λ text. text.items ≡ change_lines head.now change.now) }
{
    let gives = with_word(alloc, head, " gives")?;
    let takes = with_word(alloc, head, " takes")?;
    let mut text = caller_lines(alloc, &gives, &change.gives)?;
    let taken = caller_lines(alloc, &takes, &change.takes)?;
    text.extend_from_slice(&taken)?;
    Ok(text)
}

/// Appends lines, or the one that says that nothing changes.
fn push_or_same(head: &[u8], lines: &[u8], text: &mut Vec<u8>) -> Result<(), AllocError>
    ensures { OnOk result (text.new.items ≡ text.old.items ++ or_same head.now lines.now) }
{
    if !lines.is_empty() {
        return text.extend_from_slice(lines);
    }
    text.extend_from_slice(head)?;
    text.extend_from_slice(b" same\n")
}

/// Appends what changes for a caller.
fn push_row(
    alloc: Global,
    scope: &[u8],
    row: &CallerChange,
    text: &mut Vec<u8>,
) -> Result<(), AllocError>
    ensures { OnOk result (text.new.items ≡ text.old.items ++ change_row_text scope.now row.now) }
{
    let head = head_of(alloc, scope, row.caller.as_bytes())?;
    let lines = change_lines(alloc, &head, &row.change)?;
    push_or_same(&head, &lines, text)
}

/// Appends what changes for callers.
fn push_rows(
    alloc: Global,
    scope: &[u8],
    rows: &[CallerChange],
    text: &mut Vec<u8>,
) -> Result<(), AllocError>
    ensures { OnOk result (text.new.items ≡ text.old.items ++ flat_map (change_row_text scope.now) rows.now) }
{
    for row in rows {
        push_row(alloc, scope, row, text)?;
    }
    Ok(())
}

/// Appends what changes for all other callers.
fn push_others(
    alloc: Global,
    scope: &[u8],
    change: &Change,
    text: &mut Vec<u8>,
) -> Result<(), AllocError>
    ensures { OnOk result (text.new.items ≡ text.old.items ++ change_lines (scope.now ++ codes " *") change.now) }
{
    let head = head_of(alloc, scope, b"*")?;
    let lines = change_lines(alloc, &head, change)?;
    text.extend_from_slice(&lines)
}

/// Appends what changes in a scope.
fn push_changes(
    alloc: Global,
    scope: &[u8],
    changes: &NameChanges,
    text: &mut Vec<u8>,
) -> Result<(), AllocError>
    ensures { OnOk result (text.new.items ≡ text.old.items ++ changes_text scope.now changes.now) }
{
    push_rows(alloc, scope, &changes.named, text)?;
    push_others(alloc, scope, &changes.others, text)
}

/// Appends what changes at the names of a group.
fn push_group(alloc: Global, row: &GroupChanges, text: &mut Vec<u8>) -> Result<(), AllocError>
    ensures { OnOk result (text.new.items ≡ text.old.items ++ group_changes_text row.now) }
{
    let scope = scope_text(alloc, &row.group)?;
    push_changes(alloc, scope.as_bytes(), &row.changes, text)
}

/// What changes at the names of groups.
fn groups_text(alloc: Global, rows: &[GroupChanges]) -> Result<Vec<u8>, AllocError>
    ensures { IfOk result (λ text. text.items ≡ flat_map group_changes_text rows.now) }
{
    let mut text = Vec::new(alloc);
    for row in rows {
        push_group(alloc, row, &mut text)?;
    }
    Ok(text)
}

/// Whether something changes.
fn changes_found(rows: &[GroupChanges]) -> Findings
    ensures { result ≡ changes_found rows.now }
{
    match rows {
        [] => Findings::Absent,
        _ => Findings::Present,
    }
}

/// The report on what a policy changes against another. The only error is out of memory.
pub(crate) fn changes_report(
    alloc: Global,
    old: &Policy,
    new: &Policy,
) -> Result<Report, AllocError>
    ensures { IfOk result (λ report. IsChangesReport old.now new.now report.findings report.text.items) }
{
    let rows = changes_by_group(alloc, old, new)?;
    let text = groups_text(alloc, &rows)?;
    let findings = changes_found(&rows);
    Ok(Report { findings, text })
}

/// The policy that a reader gives.
fn read_policy_of<R: Input>(alloc: Global, reader: &mut R) -> Result<Policy, LineFault>
    ensures { GivesOf (λ policy. policy) (R.left reader.old) policy_read result (R.fine reader.old reader.new) (R.failed reader.old reader.new) }
{
    let text = read_input(alloc, reader)?;
    policy_in(alloc, text)
}

/// The policy that a reader gives. On a failure, a line tells why.
pub(crate) fn old_policy<R: Input, W: Sink>(
    alloc: Global,
    reader: &mut R,
    writer: &mut W,
) -> Result<Policy, JobFault>
    ensures { IsPolicyRead (R.left reader.old) (W.contents writer.old) (W.contents writer.new) result (R.fine reader.old reader.new)
        (R.failed reader.old reader.new) (W.failures writer.old) (W.failures writer.new) }
{
    match read_policy_of(alloc, reader) {
        Ok(policy) => Ok(policy),
        Err(fault) => Err(write_refusal(alloc, writer, fault)),
    }
}

/// Writes what a policy changes against another: a line for each caller, and each action, that something is given or taken, by scopes
/// of names. Two inputs are the policy as it is and the other, which is read after it. Otherwise one line tells the refusal that comes
/// first: that the policy as it is is too large, or what is wrong in it; and the same of the other.
pub fn do_changes<R: Input, N: Input, W: Sink>(
    alloc: Global,
    form: TextForm,
    old: &mut R,
    new: &mut N,
    writer: &mut W,
) -> Result<Findings, ChangesFault>
    ensures { AreChangesChecked form
        (record { left = R.left old.old; fine = R.fine old.old old.new; failed = R.failed old.old old.new })
        (record { left = N.left new.old; fine = N.fine new.old new.new; failed = N.failed new.old new.new }) (W.contents writer.old)
        (W.contents writer.new) result (W.failures writer.old) (W.failures writer.new) }
{
    let old = match old_policy(alloc, old, writer) {
        Ok(policy) => policy,
        Err(fault) => return Err(ChangesFault::Old(fault)),
    };
    let wanted = AskedCheck {
        subject: Subject::Changes(&old),
        form,
    };
    match do_check(alloc, wanted, new, writer) {
        Ok(findings) => Ok(findings),
        Err(fault) => Err(ChangesFault::New(fault)),
    }
}
