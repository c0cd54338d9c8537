//! What commands print.

mod answers;
mod devices;
mod diffs;
mod plans;
mod policies;
mod trials;

use crate::commands::answers::push_answers;
use crate::commands::devices::{Command, Manner};
use crate::commands::diffs::push_diff;
use crate::commands::plans::push_plan;
use crate::commands::policies::{push_against, push_expect, push_reach, push_zones};
use cli_checks::Findings;
use cli_core::{JobFault, LineFault};
use std::alloc::{AllocError, Global};
use test_rows::Row;

/// Whether a verb asks for a diff, or for what is made by one.
fn is_diff(verb: &str) -> bool {
    verb.starts_with("diff") || verb.starts_with("edit")
}

/// Whether a verb asks for a plan.
fn is_plan(verb: &str) -> bool {
    verb.starts_with("plan")
}

/// Appends the answer to a row of commands.
pub fn push_command_answer(
    alloc: Global,
    row: &Row<'_>,
    answer: &mut Vec<u8>,
) -> Result<(), AllocError> {
    let text = str::from_utf8(&row.text).unwrap_or("");
    match row.verb {
        "many" => push_many(alloc, text, &row.body, answer),
        "shapes" => push_shapes(alloc, text, &row.body, answer),
        "pieces" => push_pieces(alloc, text, &row.body, answer),
        "reads" => push_reads(alloc, text, &row.body, answer),
        "writes" => push_writes(alloc, text, &row.body, answer),
        "heads" => push_heads(alloc, text, answer),
        verb if is_diff(verb) => push_diff(alloc, row, answer),
        "answers" | "answers-json" | "answers-reads" => push_answers(alloc, row, answer),
        verb if is_plan(verb) => push_plan(alloc, row, answer),
        "expect" | "expect-json" | "expect-reads" => push_expect(alloc, row, answer),
        "beside" | "beside-json" | "beside-reads" => push_zones(alloc, row, answer),
        "reach" | "reach-json" | "reach-example" | "reach-reads" | "reach-write" => push_reach(
            alloc, row, answer,
        ),
        "against" | "against-json" | "against-reads" | "against-write" => {
            push_against(alloc, row, answer)
        }
        "no-memory" => push_status(alloc, Err(JobFault::Reported(LineFault::NoMemory)), answer),
        name => push_run(
            alloc,
            Command {
                name,
                words: text,
                input: &row.body,
            },
            Manner::SOUND,
            answer,
        ),
    }
}

fn push(text: &str, answer: &mut Vec<u8>) -> Result<(), AllocError> {
    answer.extend_from_slice(text.as_bytes())
}

/// The command of a text, over an input.
fn command<'a>(text: &'a str, input: &'a [u8]) -> Command<'a> {
    let (name, words) = text.split_once(' ').unwrap_or((text, ""));
    Command { name, words, input }
}

/// The number before the first space of a text, and what follows it.
fn number(text: &str) -> (usize, &str) {
    let (digits, rest) = text.split_once(' ').unwrap_or((text, ""));
    (digits.parse::<usize>().unwrap_or(0), rest)
}

/// The lines of a text, each as often as the number before it says.
fn counted(alloc: Global, lines: &[u8]) -> Result<Vec<u8>, AllocError> {
    let mut input = Vec::new(alloc);
    for line in str::from_utf8(lines).unwrap_or("").lines() {
        push_counted(line, &mut input)?;
    }
    Ok(input)
}

/// Appends what a command prints of the lines of a text, each as often as the number before it says.
fn push_many(
    alloc: Global,
    text: &str,
    lines: &[u8],
    answer: &mut Vec<u8>,
) -> Result<(), AllocError> {
    let input = counted(alloc, lines)?;
    push_run(alloc, command(text, &input), Manner::SOUND, answer)
}

/// Appends the shape of each line that a command prints of such lines, and its exit status.
fn push_shapes(
    alloc: Global,
    text: &str,
    lines: &[u8],
    answer: &mut Vec<u8>,
) -> Result<(), AllocError> {
    let input = counted(alloc, lines)?;
    let (printed, done) = command(text, &input).run(alloc, Manner::SOUND, Manner::SOUND)?;
    for line in str::from_utf8(&printed).unwrap_or("").lines() {
        push_shape(alloc, line, answer)?;
    }
    push_status(alloc, done, answer)
}

/// Appends the beginning of a body, how many prerequisites and operations it has, how many octets with its line end, and the serial of
/// an SOA in it.
fn push_shape(alloc: Global, line: &str, answer: &mut Vec<u8>) -> Result<(), AllocError> {
    let head = line.split(',').next().unwrap_or("");
    let tests = line.split("\"test\":").count().saturating_sub(1);
    let operations = line.split("\"op\":").count().saturating_sub(1);
    let octets = line.len().saturating_add(1);
    push(
        format!(in alloc; "{head} {tests} {operations} {octets}")?.as_str(),
        answer,
    )?;
    push_serial(line, answer)?;
    push("\n", answer)
}

/// Appends the first serial, which the other numbers of these rows follow.
fn push_serial(line: &str, answer: &mut Vec<u8>) -> Result<(), AllocError> {
    let Some((front, _)) = line.split_once(" 3600 600 86400 60") else {
        return Ok(());
    };
    let serial = front.rsplit_once(' ').unwrap_or(("", front)).1;
    push(" serial ", answer)?;
    push(serial, answer)
}

/// Appends a line as often as the number before it says.
fn push_counted(counted: &str, lines: &mut Vec<u8>) -> Result<(), AllocError> {
    let (times, line) = number(counted);
    for _ in 0..times {
        push(line, lines)?;
        lines.push(b'\n')?;
    }
    Ok(())
}

/// Appends what a command prints with devices that move at most so many octets a call.
fn push_pieces(
    alloc: Global,
    text: &str,
    input: &[u8],
    answer: &mut Vec<u8>,
) -> Result<(), AllocError> {
    let (most, text) = number(text);
    push_run(
        alloc,
        command(text, input),
        Manner { most, fails: 0 },
        answer,
    )
}

/// Appends what a command prints with devices that work so, and its exit status.
fn push_run(
    alloc: Global,
    command: Command<'_>,
    manner: Manner,
    answer: &mut Vec<u8>,
) -> Result<(), AllocError> {
    let (printed, done) = command.run(alloc, manner, manner)?;
    answer.extend_from_slice(&printed)?;
    push_status(alloc, done, answer)
}

/// Appends, for each number of a text with bars between them, the first lines of its rows.
fn push_heads(alloc: Global, text: &str, answer: &mut Vec<u8>) -> Result<(), AllocError> {
    for number in text.split('|') {
        push_head(alloc, number, answer)?;
    }
    Ok(())
}

fn push_head(alloc: Global, number: &str, answer: &mut Vec<u8>) -> Result<(), AllocError> {
    push(number, answer)?;
    push(":", answer)?;
    let command = Command {
        name: "explain",
        words: number,
        input: &[],
    };
    push_rows(&command.run(alloc, Manner::SOUND, Manner::SOUND)?.0, answer)
}

/// Appends the lines of a text that begin with no space, as one line.
fn push_rows(text: &[u8], answer: &mut Vec<u8>) -> Result<(), AllocError> {
    for line in str::from_utf8(text).unwrap_or("").lines() {
        if !line.starts_with(' ') {
            push(" | ", answer)?;
            push(line, answer)?;
        }
    }
    push("\n", answer)
}

/// Appends a line, without its end, for how a command went.
fn push_status(
    alloc: Global,
    done: Result<Findings, JobFault>,
    answer: &mut Vec<u8>,
) -> Result<(), AllocError> {
    match done {
        Ok(Findings::Absent) => push("status 0", answer),
        Ok(Findings::Present) => push("status 1", answer),
        Err(fault) => push(format!(in alloc; "status 1: {fault}")?.as_str(), answer),
    }
}

/// Appends what a command prints where each of so many reads fails in turn.
fn push_reads(
    alloc: Global,
    text: &str,
    input: &[u8],
    answer: &mut Vec<u8>,
) -> Result<(), AllocError> {
    let (most, text) = number(text);
    let (count, text) = number(text);
    for fails in 1..=count {
        push_failed_read(alloc, command(text, input), Manner { most, fails }, answer)?;
    }
    Ok(())
}

fn push_failed_read(
    alloc: Global,
    command: Command<'_>,
    reading: Manner,
    answer: &mut Vec<u8>,
) -> Result<(), AllocError> {
    let (printed, done) = command.run(alloc, reading, Manner::SOUND)?;
    answer.extend_from_slice(&printed)?;
    push_status(alloc, done, answer)?;
    push("\n", answer)
}

/// Appends how much of its text a command prints where each of so many writes fails in turn.
fn push_writes(
    alloc: Global,
    text: &str,
    input: &[u8],
    answer: &mut Vec<u8>,
) -> Result<(), AllocError> {
    let (most, text) = number(text);
    let (count, text) = number(text);
    let command = command(text, input);
    let (whole, _) = command.run(alloc, Manner::SOUND, Manner::SOUND)?;
    for fails in 1..=count {
        push_failed_write(alloc, command, Manner { most, fails }, &whole, answer)?;
    }
    Ok(())
}

fn push_failed_write(
    alloc: Global,
    command: Command<'_>,
    writing: Manner,
    whole: &[u8],
    answer: &mut Vec<u8>,
) -> Result<(), AllocError> {
    let (printed, done) = command.run(alloc, Manner::SOUND, writing)?;
    push_part(alloc, &printed, whole, answer)?;
    push_status(alloc, done, answer)?;
    push("\n", answer)
}

/// Appends how many octets were printed, and whether they are a prefix of what is printed otherwise.
fn push_part(
    alloc: Global,
    printed: &[u8],
    whole: &[u8],
    answer: &mut Vec<u8>,
) -> Result<(), AllocError> {
    let octets = printed.len();
    push(format!(in alloc; "{octets}")?.as_str(), answer)?;
    if whole.starts_with(printed) {
        push(" octets of it, ", answer)
    } else {
        push(" other octets, ", answer)
    }
}
