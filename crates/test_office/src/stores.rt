//! A database, which rows make, change and look at.

use crate::acting::act_settled;
use crate::deed::Deed;
use anyhow::Result;
use grant_policy::{Policy, read_policy};
use std::alloc::{AllocError, Global};
use test_rows::{Answers, Row, push_unanswered};
use test_tables::Held;

/// The texts of the policy and of the script that made a database, and the disks that hold it.
#[derive(Drop)]
pub struct Stores {
    policy: Vec<u8>,
    script: Vec<u8>,
    pub(crate) held: Held,
}

impl Answers for Stores {
    fn answer(
        &mut self,
        alloc: Global,
        row: &Row<'_>,
        answer: &mut Vec<u8>,
    ) -> Result<(), AllocError> {
        let answered = self.answer_to(alloc, row, answer);
        push_unanswered(alloc, answered, answer)
    }
}

impl Stores {
    /// No policy, no script and empty disks.
    pub fn new(alloc: Global) -> Stores {
        Stores {
            policy: Vec::new(alloc),
            script: Vec::new(alloc),
            held: Held::new(alloc),
        }
    }

    fn answer_to(&mut self, alloc: Global, row: &Row<'_>, answer: &mut Vec<u8>) -> Result<()> {
        match row.verb {
            "policy" => self.take_policy(alloc, row),
            "database" => self.make(alloc, row),
            "again" => self.make_again(alloc, row, answer),
            _ => self.act(alloc, row, answer),
        }
    }

    /// Takes the policy of a row.
    pub(crate) fn take_policy(&mut self, alloc: Global, row: &Row<'_>) -> Result<()> {
        self.policy = Vec::from_slice(alloc, &row.body)?;
        Ok(())
    }

    /// The policy.
    pub(crate) fn policy(&self, alloc: Global) -> Result<Policy> {
        Ok(read_policy(alloc, &self.policy)?)
    }

    /// Makes a database by a script.
    fn make(&mut self, alloc: Global, row: &Row<'_>) -> Result<()> {
        self.script = Vec::from_slice(alloc, &row.body)?;
        self.run_script(alloc)
    }

    /// Holds the database that the script makes on empty disks.
    fn run_script(&mut self, alloc: Global) -> Result<()> {
        self.held = Held::new(alloc);
        self.held = self
            .done(alloc, &Deed::below(alloc, "sql", &self.script)?)?
            .1;
        Ok(())
    }

    /// Makes it anew, runs another script, and migrates it or looks for the table.
    fn make_again(&mut self, alloc: Global, row: &Row<'_>, answer: &mut Vec<u8>) -> Result<()> {
        self.run_script(alloc)?;
        self.do_it(alloc, &Deed::below(alloc, "sql", &row.body)?, answer)?;
        let verb = if row.text.is_empty() {
            "adopt"
        } else {
            "migrate"
        };
        self.do_it(alloc, &Deed::below(alloc, verb, &[])?, answer)
    }

    /// Does what a row says to the database.
    pub(crate) fn act(&mut self, alloc: Global, row: &Row<'_>, answer: &mut Vec<u8>) -> Result<()> {
        self.do_it(alloc, &Deed::of(alloc, row)?, answer)
    }

    /// Does something to the database, and appends what is told.
    fn do_it(&mut self, alloc: Global, deed: &Deed, answer: &mut Vec<u8>) -> Result<()> {
        let (told, held) = self.done(alloc, deed)?;
        self.held = held;
        Ok(answer.extend_from_slice(&told)?)
    }

    /// What is told of something that is done to the database, and what the disks hold then.
    fn done(&self, alloc: Global, deed: &Deed) -> Result<(Vec<u8>, Held)> {
        let policy = self.policy(alloc)?;
        act_settled(alloc, &self.held, &policy, deed)
    }
}
