//! What the rows ask.

use crate::case::Case;
use crate::faults::push_faults;
use crate::given::Given;
use crate::spoiling::Spoiling;
use anyhow::Result;
use std::alloc::{AllocError, Global};
use test_rows::{Answers, Row, push_unanswered};

/// What the rows so far have given, and the case that they are about.
#[derive(Drop)]
pub struct Office {
    given: Given,
    case: Case,
}

impl Answers for Office {
    fn answer(
        &mut self,
        alloc: Global,
        row: &Row<'_>,
        answer: &mut Vec<u8>,
    ) -> Result<(), AllocError> {
        let answered = self.answer_to(alloc, row, answer);
        push_unanswered(alloc, answered, answer)
    }
}

impl Office {
    /// A service with no policy, no zone and no call.
    pub fn new(alloc: Global) -> Office {
        Office {
            given: Given::new(alloc),
            case: Case::new(alloc),
        }
    }

    fn answer_to(&mut self, alloc: Global, row: &Row<'_>, answer: &mut Vec<u8>) -> Result<()> {
        match row.verb {
            "policy" => self.given.take_policy(alloc, row, answer),
            "zone" => self.given.take_zone(alloc, row, answer),
            "faults" => Ok(push_faults(alloc, answer)?),
            "start" => self.case.start(alloc, row),
            "failing" => self.case.start_failing(alloc, row),
            "connect" => self.case.connect(alloc),
            _ => self.ask(alloc, row, answer),
        }
    }

    /// Asks more, or goes over what was asked.
    fn ask(&mut self, alloc: Global, row: &Row<'_>, answer: &mut Vec<u8>) -> Result<()> {
        let given = &self.given;
        match row.verb {
            "octets" | "get" | "post" => self.case.send(alloc, given, row, answer),
            "cuts" => self.case.go_over(alloc, given, Spoiling::Cut, answer),
            "failed-reads" => self.case.go_over(alloc, given, Spoiling::Read, answer),
            "failed-writes" => self.case.go_over(alloc, given, Spoiling::Write, answer),
            _ => self.case.call(alloc, given, row, answer),
        }
    }
}
