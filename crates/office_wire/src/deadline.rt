//! When a stream is served no further.

ghost use Rattle.std.specs.Prelude.{◌≡◌, ◌+◌, ◌<◌, ℕ, if◌then◌else◌};

use std::sync::ledger::{Blank, Book, Ledger, Share};

/// What says, between two requests of a stream, that no further one is answered. What it is asked and answers is counted, for contracts
/// alone: the counts have no greatest value.
pub trait Deadline {
    /// How often it was asked so far.
    ghost asked: { Self → ℕ };

    /// How often it has answered that it had passed.
    ghost passed: { Self → ℕ };

    /// Whether it has passed.
    fn has_passed(&mut self) -> bool
        ensures asked { asked self.new ≡ asked self.old + 1 }
        ensures passed { passed self.new ≡ (if result then passed self.old + 1 else passed self.old) };
}

/// No deadline: it never passes.
#[derive(Drop)]
pub struct Never<L: Ledger> {
    book: Book<L>,
    share: Share<L>,
    ghost counts: { 0 < share.parts },
}

impl<L: Ledger> Never<L> {
    /// One that was not asked yet.
    pub fn new(blank: Blank) -> Never<L>
        requires name { blank.name ≡ L.name }
        requires parts { blank.parts ≡ L.parts }
        requires some { 0 < blank.parts }
    {
        let (book, share) = blank.open::<L>();
        Never { book, share }
    }
}

impl<L: Ledger> Deadline for Never<L> {
    ghost asked = { λ n. n.book.total };

    ghost passed = { λ _. 0 };

    fn has_passed(&mut self) -> bool {
        self.book.add(&mut self.share, 1);
        false
    }
}
