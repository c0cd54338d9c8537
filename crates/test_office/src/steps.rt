//! The steps of a case.

use crate::streams::{Stream, push_served};
use anyhow::Result;
use grant_policy::Policy;
use office_core::{Call, ZoneTable, run};
use std::alloc::Global;
use test_zones::reply_text;

/// What a table is asked: by a stream, or by calls one after the other.
#[derive(Drop)]
pub enum Step {
    Serve(Stream),
    Ask(Vec<Call>),
}

/// What is answered to each stream and each call.
pub type Told = Vec<Vec<u8>>;

/// What a table answers to some steps.
pub fn answered<T: ZoneTable>(
    alloc: Global,
    table: &mut T,
    policy: &Policy,
    steps: &[Step],
) -> Result<Told> {
    let mut told = Vec::new(alloc);
    for step in steps {
        match step {
            Step::Serve(stream) => push_served(alloc, table, policy, stream, &mut told)?,
            Step::Ask(calls) => push_replies(alloc, table, policy, calls, &mut told)?,
        }
    }
    Ok(told)
}

fn push_replies<T: ZoneTable>(
    alloc: Global,
    table: &mut T,
    policy: &Policy,
    calls: &[Call],
    told: &mut Told,
) -> Result<()> {
    for reply in &run(alloc, table, policy, calls)? {
        told.push(reply_text(alloc, reply)?)?;
    }
    Ok(())
}
