//! What is answered to each row.

mod lines;
mod points;

use crate::items::lines::{push_items, push_many};
use crate::items::points::{push_denial, push_points};
use crate::refusal::Refusal;
use grant_policy::{Policy, read_policy};
use std::alloc::{AllocError, Global};
use test_rows::{Answers, Row};
use update_lines::ItemsFault;

/// Answers to rows of items.
#[derive(Drop)]
pub struct Items {
    /// The policy that was read last.
    policy: Option<Policy>,
}

impl Answers for Items {
    fn answer(
        &mut self,
        alloc: Global,
        row: &Row<'_>,
        answer: &mut Vec<u8>,
    ) -> Result<(), AllocError> {
        match self.answer_to(alloc, row, answer) {
            Ok(()) => Ok(()),
            Err(refusal) => answer.extend_from_slice(refusal.text(alloc)?.as_bytes()),
        }
    }
}

impl Items {
    /// No policy.
    pub fn new() -> Items {
        Items { policy: None }
    }

    fn answer_to(
        &mut self,
        alloc: Global,
        row: &Row<'_>,
        answer: &mut Vec<u8>,
    ) -> Result<(), Refusal> {
        let (first, rest) = row.split();
        match row.verb {
            "items" => push_items(alloc, &row.body, answer),
            "many" => push_many(alloc, first, rest, &row.body, answer),
            "points" => push_points(alloc, first, rest, answer),
            "policy" => self.read_policy(alloc, &row.body, answer),
            "permission" => self.push_permission(alloc, row, answer),
            "no-memory" => Err(Refusal::Items(ItemsFault::NoMemory)),
            _ => push("no such verb", answer),
        }
    }

    /// Reads a policy, which later rows ask.
    fn read_policy(
        &mut self,
        alloc: Global,
        text: &[u8],
        answer: &mut Vec<u8>,
    ) -> Result<(), Refusal> {
        self.policy = Some(read_policy(alloc, text)?);
        push("read", answer)
    }

    fn push_permission(
        &self,
        alloc: Global,
        row: &Row<'_>,
        answer: &mut Vec<u8>,
    ) -> Result<(), Refusal> {
        match &self.policy {
            Some(policy) => push_denial(alloc, policy, row, answer),
            None => push("no policy", answer),
        }
    }
}

fn push(text: &str, answer: &mut Vec<u8>) -> Result<(), Refusal> {
    Ok(answer.extend_from_slice(text.as_bytes())?)
}
