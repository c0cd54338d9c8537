//! What is found after stops.

use crate::acting::{Closing, act, act_and_close};
use crate::deed::Deed;
use anyhow::{Result, bail};
use grant_policy::Policy;
use std::alloc::{AllocError, Global};
use test_tables::{Held, Loss, Stop, Stopping};

/// What is done to a store, and how it is looked at.
#[derive(Drop)]
pub struct Trial {
    pub policy: Policy,
    pub deed: Deed,
    pub look: Deed,
}

/// What the look tells where no disk stops, before and after it, and what is told of it and of the same once more.
#[derive(Drop)]
pub struct Whole {
    old: Vec<u8>,
    new: Vec<u8>,
    told: Vec<u8>,
    twice: Vec<u8>,
}

/// What a store is after a stop.
#[derive(Clone, Copy, PartialEq, Eq)]
enum Found {
    Old,
    New,
}

/// What was found on disks that hold something.
#[derive(Drop)]
struct Seen {
    held: Held,
    found: Found,
}

impl Trial {
    /// Does it where no disk stops.
    pub fn whole(&self, alloc: Global, held: &Held) -> Result<Whole> {
        let (old, held) = self.look_at(alloc, held)?;
        let (told, held) = self.act(alloc, &held)?;
        let (new, twice) = self.look_and_act(alloc, &held)?;
        Ok(Whole {
            old,
            new,
            told,
            twice,
        })
    }

    /// Looks, and does it once more.
    fn look_and_act(&self, alloc: Global, held: &Held) -> Result<(Vec<u8>, Vec<u8>)> {
        let (new, held) = self.look_at(alloc, held)?;
        let (twice, _) = self.act(alloc, &held)?;
        Ok((new, twice))
    }

    fn look_at(&self, alloc: Global, held: &Held) -> Result<(Vec<u8>, Held)> {
        act(alloc, held, Stop::NEVER, &self.policy, &self.look)
    }

    fn act(&self, alloc: Global, held: &Held) -> Result<(Vec<u8>, Held)> {
        act(alloc, held, Stop::NEVER, &self.policy, &self.deed)
    }

    /// Sees what is found on disks after a stop, and that the same can be done then.
    fn see(&self, alloc: Global, whole: &Whole, held: &Held) -> Result<Found> {
        let (text, held) = self.look_at(alloc, held)?;
        let found = whole.found(&text)?;
        self.expect_again(alloc, whole, &held, found)?;
        Ok(found)
    }

    /// Does it where some store was found.
    fn expect_again(&self, alloc: Global, whole: &Whole, held: &Held, found: Found) -> Result<()> {
        let (told, held) = self.act(alloc, held)?;
        if told.as_slice() != whole.told_after(found) {
            bail!("the same is told otherwise");
        }
        let (text, _) = self.look_at(alloc, &held)?;
        if text != whole.new {
            bail!("the same does something else");
        }
        Ok(())
    }

    /// Does it over disks that stop and closes the store, and sees what is found after that, unless the last stop left the same on the
    /// disks. Tells whether it was done, and the store closed.
    fn is_done(
        &self,
        alloc: Global,
        whole: &Whole,
        held: &Held,
        stop: Stop,
        seen: &mut Seen,
    ) -> Result<bool> {
        let closing = act_and_close(alloc, held, stop, &self.policy, &self.deed)?;
        let Closing { told, held, copied } = closing;
        self.see_left(alloc, whole, held, seen)?;
        let done = kept_if_done(told == whole.told, seen.found)?;
        Ok(done && copied)
    }

    fn see_left(&self, alloc: Global, whole: &Whole, left: Held, seen: &mut Seen) -> Result<()> {
        if !left.is(&seen.held) {
            let found = self.see(alloc, whole, &left)?;
            *seen = Seen { held: left, found };
        }
        Ok(())
    }

    /// Lets a disk stop at one call after the other, until it is done and the store closed without a stop.
    pub fn go_through(
        &self,
        alloc: Global,
        whole: &Whole,
        held: &Held,
        stopping: Stopping,
        loss: Loss,
    ) -> Result<()> {
        let mut seen = Seen {
            held: held.copy(alloc)?,
            found: self.see(alloc, whole, held)?,
        };
        for calls in 0..10_000u64 {
            let stop = Stop::behind(stopping, calls, loss);
            if self.is_done(alloc, whole, held, stop, &mut seen)? {
                return Ok(());
            }
        }
        bail!("it is never done")
    }
}

impl Whole {
    /// What a look told that is the old store or the new one.
    fn found(&self, text: &[u8]) -> Result<Found> {
        if text == self.new.as_slice() {
            return Ok(Found::New);
        }
        if text == self.old.as_slice() {
            return Ok(Found::Old);
        }
        bail!("the store is another")
    }

    /// What is told of the same.
    fn told_after(&self, found: Found) -> &[u8] {
        match found {
            Found::Old => &self.told,
            Found::New => &self.twice,
        }
    }

    /// Appends what was found before and after the stop, and what was told.
    pub fn push(&self, answer: &mut Vec<u8>) -> Result<(), AllocError> {
        push_part("before:\n", &self.old, answer)?;
        push_part("told: ", &self.told, answer)?;
        push_part("behind:\n", &self.new, answer)?;
        push_part("told of the same again: ", &self.twice, answer)
    }
}

/// Whether something was done, which must be found then.
fn kept_if_done(is_done: bool, found: Found) -> Result<bool> {
    if is_done && found == Found::Old {
        bail!("what was done is lost");
    }
    Ok(is_done)
}

/// Appends a part on lines of its own.
fn push_part(head: &str, part: &[u8], answer: &mut Vec<u8>) -> Result<(), AllocError> {
    answer.extend_from_slice(head.as_bytes())?;
    answer.extend_from_slice(part)?;
    if !part.ends_with(b"\n") {
        answer.push(b'\n')?;
    }
    Ok(())
}
