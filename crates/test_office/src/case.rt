//! A case: what is asked of new tables.

use crate::given::Given;
use crate::spoiling::{Spoiling, push_runs, without_front};
use crate::steps::{Step, Told};
use crate::streams::Stream;
use crate::tables::{over_failing, push_over_each};
use anyhow::{Result, bail};
use office_core::{Call, TableCall};
use std::alloc::Global;
use test_rows::Row;
use test_zones::call_of;

/// What a case asks.
#[derive(Drop)]
pub struct Case {
    /// The calls that fail for its first step.
    failing: Vec<TableCall>,
    steps: Vec<Step>,
    /// How many octets a call of a stream moves at most: all is asked once for each.
    most: Vec<usize>,
    /// How many of the octets that are answered to the last stream were printed.
    told: usize,
}

fn table_call(word: &[u8]) -> Result<TableCall> {
    match word {
        b"has-zone" => Ok(TableCall::HasZone),
        b"zone" => Ok(TableCall::Zone),
        b"part" => Ok(TableCall::Part),
        b"subtree" => Ok(TableCall::Subtree),
        b"receipt" => Ok(TableCall::Receipt),
        b"changes" => Ok(TableCall::Changes),
        b"commit" => Ok(TableCall::Commit),
        _ => bail!("there is no such call"),
    }
}

impl Case {
    /// A case of no call, and of no failure.
    pub fn new(alloc: Global) -> Case {
        Case {
            failing: Vec::new(alloc),
            steps: Vec::new(alloc),
            most: Vec::new(alloc),
            told: 0,
        }
    }

    fn clear(&mut self) {
        self.failing.clear();
        self.steps.clear();
        self.most.clear();
        self.told = 0;
    }

    /// Begins anew, with the numbers of octets that a row says.
    pub fn start(&mut self, alloc: Global, row: &Row<'_>) -> Result<()> {
        self.clear();
        if row.text.is_empty() {
            self.most.push(usize::MAX)?;
            return Ok(());
        }
        push_numbers(&row.words(alloc)?, &mut self.most)
    }

    /// Begins anew, with a table of which the calls fail that a row says.
    pub fn start_failing(&mut self, alloc: Global, row: &Row<'_>) -> Result<()> {
        self.clear();
        push_table_calls(&row.words(alloc)?, &mut self.failing)
    }

    /// Begins another stream.
    pub fn connect(&mut self, alloc: Global) -> Result<()> {
        self.steps.push(Step::Serve(Stream::new(alloc)))?;
        self.told = 0;
        Ok(())
    }

    /// Appends to the last stream, and prints what is answered to it after what was.
    pub fn send(
        &mut self,
        alloc: Global,
        given: &Given,
        row: &Row<'_>,
        answer: &mut Vec<u8>,
    ) -> Result<()> {
        if !matches!(self.steps.last(), Some(Step::Serve(_))) {
            self.connect(alloc)?;
        }
        if let Some(Step::Serve(stream)) = self.steps.last_mut() {
            push_request(alloc, stream, row)?;
        }
        self.push_told(alloc, given, answer)
    }

    /// Asks one call more, and prints the reply to it.
    pub fn call(
        &mut self,
        alloc: Global,
        given: &Given,
        row: &Row<'_>,
        answer: &mut Vec<u8>,
    ) -> Result<()> {
        self.push_call(alloc, call_of(alloc, row)?)?;
        self.told = 0;
        self.push_told(alloc, given, answer)
    }

    /// Each call of a case with failures is a step of its own.
    fn push_call(&mut self, alloc: Global, call: Call) -> Result<()> {
        if self.failing.is_empty() && matches!(self.steps.last(), Some(Step::Ask(_))) {
            push_to_last(&mut self.steps, call)
        } else {
            push_step(alloc, &mut self.steps, call)
        }
    }

    /// What each table answers, by each number of octets.
    fn all_told(&mut self, alloc: Global, given: &Given) -> Result<Vec<Told>> {
        if self.failing.is_empty() {
            told_by_pieces(alloc, given, &self.most, &mut self.steps)
        } else {
            told_by_failing(alloc, given, &self.steps, &self.failing)
        }
    }

    /// What all tables answer, if they answer the same.
    fn one_told(&mut self, alloc: Global, given: &Given) -> Result<Told> {
        same(self.all_told(alloc, given)?)
    }

    fn push_told(&mut self, alloc: Global, given: &Given, answer: &mut Vec<u8>) -> Result<()> {
        let told = self.one_told(alloc, given)?;
        if let Some(last) = told.last() {
            answer.extend_from_slice(last.get(self.told..).unwrap_or(last))?;
            self.told = last.len();
        }
        Ok(())
    }

    /// Goes over the case until nothing is spoiled, prints what was told, and ends it.
    pub fn go_over(
        &mut self,
        alloc: Global,
        given: &Given,
        spoiling: Spoiling,
        answer: &mut Vec<u8>,
    ) -> Result<()> {
        let outcomes = self.outcomes(alloc, given, spoiling)?;
        self.steps.clear();
        Ok(push_runs(alloc, &outcomes, answer)?)
    }

    /// What is told where something is spoiled, as long as that is not what is told of the whole.
    fn outcomes(&mut self, alloc: Global, given: &Given, spoiling: Spoiling) -> Result<Vec<Told>> {
        let whole = self.one_told(alloc, given)?;
        let octets = first_octets(alloc, &self.steps)?;
        self.outcomes_beside(alloc, given, spoiling, &whole, &octets)
    }

    fn outcomes_beside(
        &mut self,
        alloc: Global,
        given: &Given,
        spoiling: Spoiling,
        whole: &[Vec<u8>],
        octets: &[u8],
    ) -> Result<Vec<Told>> {
        let mut outcomes = Vec::new(alloc);
        for number in 1..10_000usize {
            let told = self.spoiled(alloc, given, spoiling, octets, number)?;
            if told.as_slice() == whole {
                break;
            }
            outcomes.push(self.kept(alloc, spoiling, told, whole, number)?)?;
        }
        Ok(outcomes)
    }

    /// What is told where a call or the octet of a number is spoiled.
    fn spoiled(
        &mut self,
        alloc: Global,
        given: &Given,
        spoiling: Spoiling,
        octets: &[u8],
        number: usize,
    ) -> Result<Told> {
        if let Some(Step::Serve(stream)) = self.steps.first_mut() {
            spoiling.spoil(alloc, stream, octets, number)?;
        }
        self.one_told(alloc, given)
    }

    /// What is printed of it.
    fn kept(
        &self,
        alloc: Global,
        spoiling: Spoiling,
        told: Told,
        whole: &[Vec<u8>],
        number: usize,
    ) -> Result<Told> {
        if spoiling != Spoiling::Write {
            return Ok(told);
        }
        let most = self.most.first().copied().unwrap_or(1);
        let written = number.saturating_sub(1).saturating_mul(most);
        Ok(without_front(alloc, told, whole, written)?)
    }
}

fn push_numbers(words: &[&[u8]], numbers: &mut Vec<usize>) -> Result<()> {
    for word in words {
        numbers.push(str::from_utf8(word)?.parse()?)?;
    }
    Ok(())
}

fn push_table_calls(words: &[&[u8]], calls: &mut Vec<TableCall>) -> Result<()> {
    for word in words {
        calls.push(table_call(word)?)?;
    }
    Ok(())
}

/// Appends a call to the last step.
fn push_to_last(steps: &mut [Step], call: Call) -> Result<()> {
    if let Some(Step::Ask(calls)) = steps.last_mut() {
        calls.push(call)?;
    }
    Ok(())
}

/// Appends a step of one call.
fn push_step(alloc: Global, steps: &mut Vec<Step>, call: Call) -> Result<()> {
    let mut calls = Vec::new(alloc);
    calls.push(call)?;
    steps.push(Step::Ask(calls))?;
    Ok(())
}

/// Appends to a stream what a row spells.
fn push_request(alloc: Global, stream: &mut Stream, row: &Row<'_>) -> Result<()> {
    let (target, caller) = row.split();
    match row.verb {
        "get" => stream.push_get(target, caller)?,
        "post" => stream.push_post(alloc, target, caller, &row.body)?,
        _ => stream.octets.extend_from_slice(&row.body)?,
    }
    Ok(())
}

/// What each table answers, where a call of each stream moves so many octets at most.
fn told_by_pieces(
    alloc: Global,
    given: &Given,
    numbers: &[usize],
    steps: &mut [Step],
) -> Result<Vec<Told>> {
    let mut all = Vec::new(alloc);
    for most in numbers {
        set_most(steps, *most);
        push_over_each(alloc, given, steps, &mut all)?;
    }
    Ok(all)
}

/// What a table answers of which some calls fail.
fn told_by_failing(
    alloc: Global,
    given: &Given,
    steps: &[Step],
    failing: &[TableCall],
) -> Result<Vec<Told>> {
    let mut all = Vec::new(alloc);
    all.push(over_failing(alloc, given, steps, failing)?)?;
    Ok(all)
}

/// Lets a call of each stream move so many octets at most.
fn set_most(steps: &mut [Step], most: usize) {
    for step in steps {
        if let Step::Serve(stream) = step {
            stream.most = most;
        }
    }
}

fn same(all: Vec<Told>) -> Result<Told> {
    let mut all = all;
    let Some(one) = all.pop() else {
        bail!("no case was started");
    };
    for other in &all {
        if *other != one {
            bail!("the tables answer differently");
        }
    }
    Ok(one)
}

fn first_octets(alloc: Global, steps: &[Step]) -> Result<Vec<u8>> {
    match steps.first() {
        Some(Step::Serve(stream)) => Ok(Vec::from_slice(alloc, &stream.octets)?),
        _ => bail!("the case has no stream"),
    }
}
