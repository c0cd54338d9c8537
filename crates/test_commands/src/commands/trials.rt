//! Commands over devices whose failures are counted.

ghost use Rattle.std.specs.Prelude.{◌≡◌, ◌<◌};

use dns_master::{Counted, Pieces, Sink, Source};
use std::alloc::Global;
use std::marker::Brand;
use std::sync::ledger::{Blank, Ledger};

/// Two inputs, and what is written to. A command that has one input reads the first.
#[derive(Drop)]
pub struct Devices {
    pub first: Pieces,
    pub second: Pieces,
    pub writer: Pieces,
}

/// What is done with devices.
pub trait Trial {
    /// How it goes.
    type Outcome: Drop;

    /// Does it.
    fn run<R: Source, N: Source, W: Sink>(
        self,
        alloc: Global,
        first: &mut R,
        second: &mut N,
        writer: &mut W,
    ) -> Self::Outcome;
}

/// What is written to devices, and how it went.
pub fn tried<T: Trial>(alloc: Global, trial: T, devices: Devices) -> (Vec<u8>, T::Outcome) {
    let blanks = (Blank::new(1), Blank::new(1), Blank::new(1));
    let (first, second, writes) = blanks;
    tried_in::<_, Brand, Brand, Brand>(alloc, trial, devices, first, second, writes)
}

fn tried_in<T: Trial, A: Ledger, B: Ledger, C: Ledger>(
    alloc: Global,
    trial: T,
    devices: Devices,
    first: Blank,
    second: Blank,
    writes: Blank,
) -> (Vec<u8>, T::Outcome)
    requires first_name { first.name ≡ A.name }
    requires first_parts { first.parts ≡ A.parts }
    requires first_some { 0 < first.parts }
    requires second_name { second.name ≡ B.name }
    requires second_parts { second.parts ≡ B.parts }
    requires second_some { 0 < second.parts }
    requires writes_name { writes.name ≡ C.name }
    requires writes_parts { writes.parts ≡ C.parts }
    requires writes_some { 0 < writes.parts }
{
    let mut one: Counted<Pieces, A> = Counted::new(devices.first, first);
    let mut other: Counted<Pieces, B> = Counted::new(devices.second, second);
    let mut writer: Counted<Pieces, C> = Counted::new(devices.writer, writes);
    let outcome = trial.run(alloc, &mut one, &mut other, &mut writer);
    (writer.into_inner().octets, outcome)
}
