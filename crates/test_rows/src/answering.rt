use crate::octets::push_shown;
use crate::rows::Row;
use std::alloc::{AllocError, Global};
use std::fmt::Display;
use std::io;
use std::io::Write;

/// What a test program answers to its rows.
pub trait Answers {
    /// Appends the answer to a row, without a line end after it.
    fn answer(
        &mut self,
        alloc: Global,
        row: &Row<'_>,
        answer: &mut Vec<u8>,
    ) -> Result<(), AllocError>;
}

/// Appends nothing to an answer that was made, and otherwise why it was not.
pub fn push_unanswered<E: Display + Drop>(
    alloc: Global,
    answered: Result<(), E>,
    answer: &mut Vec<u8>,
) -> Result<(), AllocError> {
    match answered {
        Ok(()) => Ok(()),
        Err(fault) => push_fault(alloc, &fault, answer),
    }
}

fn push_fault<E: Display>(
    alloc: Global,
    fault: &E,
    answer: &mut Vec<u8>,
) -> Result<(), AllocError> {
    answer.extend_from_slice(format!(in alloc; "not answered: {fault}")?.as_bytes())
}

/// Reads all rows from the standard input, and prints what is answered to each.
pub fn run<R: Input + Print + AllocGlobal, A: Answers>(rt: &R, answers: &mut A) -> io::Result<()> {
    let text = io::read_to_string(rt.alloc(), rt.reader())?;
    print(rt, &shown(rt.alloc(), answers, text.as_str())?)
}

fn print<R: Print>(rt: &R, shown: &[u8]) -> io::Result<()> {
    let mut writer = io::writer(rt);
    writer.write_all(shown)?;
    writer.flush()
}

/// What is printed of a text of rows.
fn shown<A: Answers>(alloc: Global, answers: &mut A, text: &str) -> Result<Vec<u8>, AllocError> {
    let mut shown = Vec::new(alloc);
    let mut open = None;
    for line in text.lines() {
        take_line(alloc, answers, line, &mut open, &mut shown)?;
    }
    close(alloc, answers, &mut open, &mut shown)?;
    Ok(shown)
}

/// Appends a line to the body of the row that is open; or closes that row, and shows the line or opens its row.
fn take_line<'a, A: Answers>(
    alloc: Global,
    answers: &mut A,
    line: &'a str,
    open: &mut Option<Row<'a>>,
    shown: &mut Vec<u8>,
) -> Result<(), AllocError> {
    if line.starts_with("|")
        && let Some(row) = open
    {
        return row.push_line(line);
    }
    close(alloc, answers, open, shown)?;
    if line.is_empty() || line.starts_with(";") {
        return push_line(line.as_bytes(), shown);
    }
    *open = Some(Row::read(alloc, line)?);
    Ok(())
}

/// Closes the row that is open, and shows the answer to it.
fn close<A: Answers>(
    alloc: Global,
    answers: &mut A,
    open: &mut Option<Row<'_>>,
    shown: &mut Vec<u8>,
) -> Result<(), AllocError> {
    match open.take() {
        Some(row) => push_answer(alloc, answers, &row, shown),
        None => Ok(()),
    }
}

fn push_answer<A: Answers>(
    alloc: Global,
    answers: &mut A,
    row: &Row<'_>,
    shown: &mut Vec<u8>,
) -> Result<(), AllocError> {
    let mut answer = Vec::new(alloc);
    answers.answer(alloc, row, &mut answer)?;
    push_shown(&answer, shown)
}

fn push_line(line: &[u8], shown: &mut Vec<u8>) -> Result<(), AllocError> {
    shown.extend_from_slice(line)?;
    shown.push(b'\n')?;
    Ok(())
}
