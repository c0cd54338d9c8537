//! When a connection is too old.

ghost use Rattle.std.specs.Prelude.{◌≡◌, ◌==◌, ◌<◌, ℕ, List, Option, None, not, option_map};
ghost use Rattle.std.specs.Duration.{as_nanos};
ghost use Rattle.std.proofs.Props.{props};
ghost use Rattle.wire_tcp.specs.Ages.{AreTold};

use crate::pace::Age;
use crate::peer::Watch;
use office_wire::Deadline;
use std::marker::{Brand, PhantomData};
use std::sync::ledger::{Blank, Book, Ledger, Share};
use std::time::{Clock, Duration};

/// What tells the age of a connection, and what it told when that began.
#[derive(Drop)]
pub(crate) struct Watched<W: Drop> {
    pub(crate) watch: W,
    pub(crate) begun: Option<Duration>,
}

/// The age of a connection and what was read of the clock when it began, for contracts alone.
pub(crate) trait AgeOf {
    /// At what age it ends.
    ghost longest: { Option ℕ };

    /// When it began.
    ghost begun: { Option ℕ };

    /// The readings until then, where they are known.
    ghost before: { Option (List (Option ℕ)) };
}

impl AgeOf for Brand {
    ghost longest = { None };

    ghost begun = { None };

    ghost before = { None };
}

/// The deadline of a connection, by its age. Once it has passed it stays so, whatever the clock tells then.
#[derive(Drop)]
pub(crate) struct AgeLimit<'a, C: Clock, W: Watch, L: Ledger, Q: AgeOf> {
    clock: &'a C,
    watch: W,
    age: Age,
    passed: bool,
    book: Book<L>,
    asks: Share<L>,
    passes: Share<L>,
    of: PhantomData<Q>,
    ghost counts_asks: { 0 < asks.parts },
    ghost counts_passes: { 0 < passes.parts },
    ghost longest: { option_map as_nanos age.longest ≡ Q.longest } by { Prim.hlevel props },
    ghost begun: { option_map as_nanos age.begun ≡ Q.begun } by { Prim.hlevel props },
    ghost stays: { passed ≡ not (passes.amount == 0) },
    ghost told: { AreTold Q.longest Q.begun Q.before (W.readings watch) asks.amount passes.amount } by { Prim.hlevel props },
}

impl<'a, C: Clock, W: Watch, L: Ledger, Q: AgeOf> AgeLimit<'a, C, W, L, Q> {
    /// One that was not asked yet.
    pub(crate) fn new(clock: &'a C, watch: W, age: Age, blank: Blank) -> AgeLimit<'a, C, W, L, Q>
        requires name { blank.name ≡ L.name }
        requires parts { blank.parts ≡ L.parts }
        requires some { 1 < blank.parts }
        requires longest { option_map as_nanos age.longest ≡ Q.longest }
        requires begun { option_map as_nanos age.begun ≡ Q.begun }
        requires before { W.readings watch ≡ Q.before }
        ensures asks { result.asks.amount ≡ 0 }
        ensures passes { result.passes.amount ≡ 0 }
    {
        let (book, mut asks) = blank.open::<L>();
        let passes = asks.split_off(1, 0);
        AgeLimit {
            clock,
            watch,
            age,
            passed: false,
            book,
            asks,
            passes,
            of: PhantomData,
        }
    }

    /// What told the age.
    pub(crate) fn into_watch(self) -> W
        ensures { result ≡ self.entry.watch }
    {
        self.watch
    }
}

impl<C: Clock, W: Watch, L: Ledger, Q: AgeOf> Deadline for AgeLimit<'_, C, W, L, Q> {
    ghost asked = { λ d. d.asks.amount };

    ghost passed = { λ d. d.passes.amount };

    fn has_passed(&mut self) -> bool {
        let now = self.watch.now(self.clock);
        self.book.add(&mut self.asks, 1);
        self.passed = self.age.is_over(self.passed, now);
        if self.passed {
            self.book.add(&mut self.passes, 1);
        }
        self.passed
    }
}
