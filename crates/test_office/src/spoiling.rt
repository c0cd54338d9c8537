//! Streams that are cut, and devices that fail.

use crate::steps::Told;
use crate::streams::Stream;
use std::alloc::{AllocError, Global};

/// What becomes of a stream.
#[derive(Clone, Copy, PartialEq, Eq)]
pub enum Spoiling {
    /// It ends after some octets.
    Cut,
    /// One of its reads fails.
    Read,
    /// One of its writes fails.
    Write,
}

impl Spoiling {
    /// Lets the stream of some octets end, or a call fail, at a number from 1 on.
    pub fn spoil(
        self,
        alloc: Global,
        stream: &mut Stream,
        octets: &[u8],
        number: usize,
    ) -> Result<(), AllocError> {
        match self {
            Spoiling::Cut => {
                let front = octets.get(..number).unwrap_or(octets);
                stream.octets = Vec::from_slice(alloc, front)?;
            }
            Spoiling::Read => stream.read_fails = number,
            Spoiling::Write => stream.write_fails = number,
        }
        Ok(())
    }
}

/// Takes from what is told of a stream the octets that were written before a write failed, if they are a prefix of what is written
/// otherwise.
pub fn without_front(
    alloc: Global,
    told: Told,
    whole: &[Vec<u8>],
    written: usize,
) -> Result<Told, AllocError> {
    let mut told = told;
    if let (Some(first), Some(whole)) = (told.first_mut(), whole.first()) {
        let front = whole.get(..written).unwrap_or(&[]);
        let rest = first.strip_prefix(front).unwrap_or(first);
        *first = Vec::from_slice(alloc, rest)?;
    }
    Ok(told)
}

/// Appends what was told, each once, after the numbers at which it was told one after the other, from 1 on.
pub fn push_runs(alloc: Global, outcomes: &[Told], answer: &mut Vec<u8>) -> Result<(), AllocError> {
    let mut from = 1usize;
    for (before, told) in outcomes.iter().enumerate() {
        let number = before.saturating_add(1);
        if outcomes.get(number) != Some(told) {
            let numbers = format!(in alloc; "{from} to {number}:\n")?;
            answer.extend_from_slice(numbers.as_bytes())?;
            push_parts(told, answer)?;
            from = number.saturating_add(1);
        }
    }
    Ok(())
}

/// Appends each part that was told and is not empty, with a line end after it.
pub fn push_parts(told: &[Vec<u8>], answer: &mut Vec<u8>) -> Result<(), AllocError> {
    for part in told {
        answer.extend_from_slice(part)?;
        if !part.is_empty() && !part.ends_with(b"\n") {
            answer.push(b'\n')?;
        }
    }
    Ok(())
}
