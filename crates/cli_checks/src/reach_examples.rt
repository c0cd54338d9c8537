//! Examples of how a caller of a policy changes the answers of a zone, as text.

ghost use Rattle.std.specs.Prelude.{◌≡◌, ◌++◌, IfOk, OnOk, string_bytes};
ghost use Rattle.std.specs.List.{flat_map};
ghost use Rattle.cli_checks.specs.ReportLines.{AreTexts};
ghost use Rattle.cli_checks.specs.ReachExamples.{change_line, example_lines, found_lines, IsRowText, IsExamplesReport};

use crate::check::Report;
use crate::reach::push_row;
use crate::zone_check::told;
use answer_reach::{Example, ExampleSearch, ReachedAnswers, reached_answers};
use cli_text::push_questions;
use grant_policy::{Identifier, Policy};
use std::alloc::{AllocError, Global};
use std::slice;
use update_lines::lists_text;
use zone_answers::ZoneIndex;
use zone_core::Operation;

/// Appends the line of an operation. The only error is out of memory.
fn push_operation(alloc: Global, text: &mut String, operation: &Operation) -> Result<(), AllocError>
    ensures { OnOk result (string_bytes text.new ≡ string_bytes text.old ++ change_line operation.now) }
{
    let line = lists_text(alloc, &[], slice::from_ref(operation))?;
    text.push_str("  ")?;
    text.push_str(&line)
}

/// Appends the lines of operations. The only error is out of memory.
fn push_operations(
    alloc: Global,
    text: &mut String,
    operations: &[Operation],
) -> Result<(), AllocError>
    ensures { OnOk result (string_bytes text.new ≡ string_bytes text.old ++ flat_map change_line operations.now) }
{
    for operation in operations {
        push_operation(alloc, text, operation)?;
    }
    Ok(())
}

/// Appends the lines of an example. The only error is out of memory.
fn push_example(alloc: Global, text: &mut String, example: &Example) -> Result<(), AllocError>
    ensures { OnOk result (string_bytes text.new ≡ string_bytes text.old ++ example_lines example.now) }
{
    push_questions(text, "  ask", &example.name, &[example.asked])?;
    push_operations(alloc, text, example.update.operations())
}

/// Appends the lines of an example, or the one that says that none was found. The only error is out of memory.
fn push_found(alloc: Global, text: &mut String, found: &Option<Example>) -> Result<(), AllocError>
    ensures { OnOk result (string_bytes text.new ≡ string_bytes text.old ++ found_lines found.now) }
{
    match found {
        None => text.push_str("  none found\n"),
        Some(example) => push_example(alloc, text, example),
    }
}

/// The line of a row and those of an example for it, if one is found. The only error is out of memory.
fn row_text(
    alloc: Global,
    search: &ExampleSearch<'_>,
    row: &ReachedAnswers,
) -> Result<String, AllocError>
    ensures { IfOk result (λ text. IsRowText search.now row.now (string_bytes text)) }
{
    let found = search.example(alloc, row)?;
    let mut text = String::new(alloc);
    push_row(&mut text, row)?;
    push_found(alloc, &mut text, &found)?;
    Ok(text)
}

/// The lines of rows and of examples for them. The only error is out of memory.
fn rows_text(
    alloc: Global,
    search: &ExampleSearch<'_>,
    rows: &[ReachedAnswers],
) -> Result<String, AllocError>
    ensures { IfOk result (λ text. AreTexts (IsRowText search.now) rows.now (string_bytes text)) }
{
    let mut text = String::new(alloc);
    for row in rows {
        let here = row_text(alloc, search, row)?;
        text.push_str(&here)?;
    }
    Ok(text)
}

/// The report on the answers of a zone that a caller can change, with examples. The only error is out of memory.
pub(crate) fn examples_report(
    alloc: Global,
    policy: &Policy,
    caller: &Identifier,
    index: &ZoneIndex,
) -> Result<Report, AllocError>
    ensures { IfOk result (λ report. IsExamplesReport policy.now caller.now index.now report.findings report.text.items) }
{
    let rows = reached_answers(alloc, index, policy, caller)?;
    let search = ExampleSearch::new(alloc, index, policy, caller)?;
    let text = rows_text(alloc, &search, &rows)?.into_bytes();
    let findings = told(&text);
    Ok(Report { findings, text })
}
