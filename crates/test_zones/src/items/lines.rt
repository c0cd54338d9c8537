//! Item lines.

use crate::refusal::Refusal;
use std::alloc::{AllocError, Global};
use test_rows::number;
use update_lines::{items_text, read_items};
use zone_core::Update;

/// Appends the canonical lines of the items of a text, which have to be the same lines again when they are read.
pub fn push_items(alloc: Global, text: &[u8], answer: &mut Vec<u8>) -> Result<(), Refusal> {
    let lines = lines_of(alloc, text)?;
    answer.extend_from_slice(lines.as_bytes())?;
    if lines_of(alloc, lines.as_bytes())?.as_str() == lines.as_str() {
        return Ok(());
    }
    Ok(answer.extend_from_slice(b"which are others when they are read")?)
}

fn lines_of(alloc: Global, text: &[u8]) -> Result<String, Refusal> {
    Ok(items_text(alloc, &read_items(alloc, text)?)?)
}

/// Appends how many items a line makes so many times, and after them a text, and how many octets their canonical lines have.
pub fn push_many(
    alloc: Global,
    count: &[u8],
    line: &[u8],
    behind: &[u8],
    answer: &mut Vec<u8>,
) -> Result<(), Refusal> {
    let mut text = repeated(alloc, number(count).unwrap_or(0), line)?;
    text.extend_from_slice(behind)?;
    push_size(alloc, &read_items(alloc, &text)?, answer)
}

/// A line so many times.
fn repeated(alloc: Global, times: usize, line: &[u8]) -> Result<Vec<u8>, AllocError> {
    let mut text = Vec::new(alloc);
    for _ in 0..times {
        text.extend_from_slice(line)?;
        text.push(b'\n')?;
    }
    Ok(text)
}

fn push_size(alloc: Global, update: &Update, answer: &mut Vec<u8>) -> Result<(), Refusal> {
    let tests = update.prerequisites().len();
    let changes = update.operations().len();
    let octets = items_text(alloc, update)?.len();
    let size = format!(in alloc; "{tests} prerequisites, {changes} operations, {octets} octets")?;
    Ok(answer.extend_from_slice(size.as_bytes())?)
}
