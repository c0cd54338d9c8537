//! The number of a refusal, in words.

ghost use Rattle.std.specs.Prelude.{◌≡◌, IfOk, map, option_map, string_bytes};
ghost use Rattle.refusals.specs.Tables.{row_of};
ghost use Rattle.cli_core.specs.LineFaults.{Gives};
ghost use Rattle.cli_text.specs.Explain.{rows_asked, rows_text, explain_made, explain_text};

use crate::task::Task;
use cli_core::{Explain, Input, JobFault, LineFault, Refusal, TextForm, write_answer};
use dns_master::Sink;
use refusals::{RefusalRow, all_rows, explained, json_text, plain_text};
use std::alloc::{AllocError, Global};

/// The rows of a number that the program prints, and all where none is given.
fn rows_asked(alloc: Global, number: Option<&str>) -> Result<Vec<RefusalRow>, LineFault>
    ensures { Gives (λ rows. map row_of rows.items) result (rows_asked (option_map (λ n. n.now) number.entry)) }
{
    let Some(number) = number else {
        return Ok(all_rows(alloc)?);
    };
    match explained(alloc, number)? {
        Some(rows) => Ok(rows),
        None => Err(LineFault::Refused(Refusal::UnknownNumber)),
    }
}

/// The text of rows. The only error is out of memory.
fn rows_text(alloc: Global, rows: &[RefusalRow], form: TextForm) -> Result<String, AllocError>
    ensures { IfOk result (λ text. string_bytes text ≡ rows_text form (map row_of rows.now)) }
{
    match form {
        TextForm::Plain => plain_text(alloc, rows),
        TextForm::Json => json_text(alloc, rows),
    }
}

/// What is printed of a number.
fn answer(alloc: Global, number: Option<&str>, form: TextForm) -> Result<String, LineFault>
    ensures { Gives string_bytes result (explain_made (option_map (λ n. n.now) number.entry) form) }
{
    let rows = rows_asked(alloc, number)?;
    Ok(rows_text(alloc, &rows, form)?)
}

/// The task `explain`: to print what each part of a number means and what to do, and of all numbers where none is given. It reads
/// nothing. A number that the program never prints is refused.
impl Task for Explain<'_> {
    ghost answer = { λ asked. explain_text (option_map (λ n. n.now) asked.number) asked.form };

    fn run<R: Input, W: Sink>(
        self,
        alloc: Global,
        _reader: &mut R,
        writer: &mut W,
    ) -> Result<(), JobFault> {
        write_answer(alloc, writer, answer(alloc, self.number, self.form))
    }
}
