//! The rows that are kept, and whether they are a state.

mod batches;
mod lines;
mod listed;
mod reads;

use crate::states::batches::{push_addition, push_new_zone, push_replacement};
use crate::states::lines::{no_rows, push_row};
use crate::states::listed::push_listed;
use crate::states::reads::push_read;
use anyhow::{Result, bail};
use std::alloc::{AllocError, Global};
use store_rows::ordered::records;
use store_rows::state::is_alone;
use store_rows::{
    RowFault, check_changes, check_receipts, check_records, checked_origins, origins,
    sorted_changes,
};
use store_sql::AllRows;
use test_rows::{Answers, Row, push_unanswered, text_of};

/// The lines of the rows that are kept.
#[derive(Drop)]
pub struct Kept {
    lines: Vec<u8>,
}

impl Answers for Kept {
    fn answer(
        &mut self,
        alloc: Global,
        row: &Row<'_>,
        answer: &mut Vec<u8>,
    ) -> Result<(), AllocError> {
        let answered = self.answer_to(alloc, row, answer);
        push_unanswered(alloc, answered, answer)
    }
}

/// Whether a text has a line.
fn has_line(text: &[u8], line: &str) -> bool {
    for other in text_of(text).lines() {
        if other == line {
            return true;
        }
    }
    false
}

impl Kept {
    /// No rows.
    pub fn new(alloc: Global) -> Kept {
        Kept {
            lines: Vec::new(alloc),
        }
    }

    fn answer_to(&mut self, alloc: Global, row: &Row<'_>, answer: &mut Vec<u8>) -> Result<()> {
        match row.verb {
            "rows" => self.keep(alloc, &row.body),
            "state" | "also" | "without" => self.push_state(alloc, row, answer),
            "reversed" => self.push_reversed(alloc, row, answer),
            "addition" => push_addition(alloc, row, answer),
            "new-zone" => push_new_zone(alloc, row, answer),
            "replacement" => push_replacement(alloc, row, answer),
            "zone" | "part" | "subtree" | "receipt" | "changes" => push_read(alloc, row, answer),
            "origins" | "receipts" | "longest" => push_listed(
                alloc,
                row,
                &self.rows(alloc, row)?,
                answer,
            ),
            _ => bail!("no such verb"),
        }
    }

    fn keep(&mut self, alloc: Global, lines: &[u8]) -> Result<()> {
        self.lines = Vec::from_slice(alloc, lines)?;
        Ok(())
    }

    fn push_state(&self, alloc: Global, row: &Row<'_>, answer: &mut Vec<u8>) -> Result<()> {
        push_is_state(alloc, row, self.rows(alloc, row)?, answer)
    }

    fn push_reversed(&self, alloc: Global, row: &Row<'_>, answer: &mut Vec<u8>) -> Result<()> {
        push_is_state(alloc, row, self.reversed(alloc, row)?, answer)
    }

    /// The rows that are kept, with those of a body after them, or without those.
    fn rows(&self, alloc: Global, row: &Row<'_>) -> Result<AllRows> {
        let mut rows = no_rows(alloc);
        for line in str::from_utf8(&self.lines)?.lines() {
            if row.verb != "without" || !has_line(&row.body, line) {
                push_row(alloc, line, &mut rows)?;
            }
        }
        if row.verb == "also" {
            for line in str::from_utf8(&row.body)?.lines() {
                push_row(alloc, line, &mut rows)?;
            }
        }
        Ok(rows)
    }

    /// The rows that are kept, the other way round.
    fn reversed(&self, alloc: Global, row: &Row<'_>) -> Result<AllRows> {
        let mut rows = self.rows(alloc, row)?;
        rows.zones.reverse();
        rows.records.reverse();
        rows.receipts.reverse();
        rows.changes.reverse();
        Ok(rows)
    }
}

/// Checks rows, one table after the other.
fn check(alloc: Global, version: i64, rows: AllRows) -> Result<(), RowFault> {
    if !is_alone(version, &rows.versions) {
        return Err(RowFault::BadRow);
    }
    check_receipts(alloc, rows.receipts)?;
    let origins = checked_origins(origins(alloc, &rows.zones)?)?;
    check_records(alloc, &origins, records(alloc, &rows.records)?)?;
    check_changes(alloc, &origins, sorted_changes(alloc, &rows.changes)?)?;
    Ok(())
}

fn push_is_state(alloc: Global, row: &Row<'_>, rows: AllRows, answer: &mut Vec<u8>) -> Result<()> {
    let version = str::from_utf8(&row.text)?.parse()?;
    let text = match check(alloc, version, rows) {
        Ok(()) => "a state",
        Err(RowFault::BadRow) => "no state",
        Err(RowFault::NoMemory) => bail!("out of memory"),
    };
    Ok(answer.extend_from_slice(text.as_bytes())?)
}
