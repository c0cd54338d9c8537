//! A store on disks, which rows make, change, and stop.

use crate::deed::Deed;
use crate::stores::Stores;
use crate::trial::{Trial, Whole};
use anyhow::Result;
use std::alloc::{AllocError, Global};
use test_rows::{Answers, Row, push_unanswered};
use test_tables::{Held, Loss, Stopping};

/// The store, and the text of the look.
#[derive(Drop)]
pub struct Stops {
    look: Vec<u8>,
    store: Stores,
}

/// The stops that are gone through, and what is said of each.
const STOPS: [(Stopping, Loss, &str); 4] = [
    (
        Stopping::Log,
        Loss::Unsynced,
        "the log stops, and what was not synced is lost",
    ),
    (
        Stopping::Log,
        Loss::Nothing,
        "the log stops, and nothing is lost",
    ),
    (
        Stopping::Database,
        Loss::Unsynced,
        "the database stops, and what was not synced is lost",
    ),
    (
        Stopping::Database,
        Loss::Nothing,
        "the database stops, and nothing is lost",
    ),
];

impl Answers for Stops {
    fn answer(
        &mut self,
        alloc: Global,
        row: &Row<'_>,
        answer: &mut Vec<u8>,
    ) -> Result<(), AllocError> {
        let answered = self.answer_to(alloc, row, answer);
        push_unanswered(alloc, answered, answer)
    }
}

impl Stops {
    /// No policy, no look, and empty disks.
    pub fn new(alloc: Global) -> Stops {
        Stops {
            look: Vec::new(alloc),
            store: Stores::new(alloc),
        }
    }

    fn answer_to(&mut self, alloc: Global, row: &Row<'_>, answer: &mut Vec<u8>) -> Result<()> {
        match row.verb {
            "policy" => self.store.take_policy(alloc, row),
            "look" => self.take_look(alloc, row),
            "disks" => self.begin(alloc),
            "stop" => self.stop(alloc, row, answer),
            _ => self.store.act(alloc, row, answer),
        }
    }

    /// Takes the look of a row.
    fn take_look(&mut self, alloc: Global, row: &Row<'_>) -> Result<()> {
        self.look = Vec::from_slice(alloc, &row.body)?;
        Ok(())
    }

    /// Begins with empty disks.
    fn begin(&mut self, alloc: Global) -> Result<()> {
        self.store.held = Held::new(alloc);
        Ok(())
    }

    /// Goes through the stops of what stands after the first word of a row.
    fn stop(&self, alloc: Global, row: &Row<'_>, answer: &mut Vec<u8>) -> Result<()> {
        push_trial(alloc, &self.trial(alloc, row)?, &self.store.held, answer)
    }

    fn trial(&self, alloc: Global, row: &Row<'_>) -> Result<Trial> {
        let deed = Deed::behind_verb(alloc, row)?;
        let look = Deed::below(alloc, "look", &self.look)?;
        Ok(Trial {
            policy: self.store.policy(alloc)?,
            deed,
            look,
        })
    }
}

fn push_trial(alloc: Global, trial: &Trial, held: &Held, answer: &mut Vec<u8>) -> Result<()> {
    let whole = trial.whole(alloc, held)?;
    whole.push(answer)?;
    push_stops(alloc, trial, &whole, held, answer)
}

fn push_stops(
    alloc: Global,
    trial: &Trial,
    whole: &Whole,
    held: &Held,
    answer: &mut Vec<u8>,
) -> Result<()> {
    for (stopping, loss, text) in STOPS {
        trial.go_through(alloc, whole, held, stopping, loss)?;
        let line = format!(in alloc; "all or nothing where {text}\n")?;
        answer.extend_from_slice(line.as_bytes())?;
    }
    Ok(())
}
