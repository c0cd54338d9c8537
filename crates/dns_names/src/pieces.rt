//! The pieces into which dots cut the text of a name.

ghost use Rattle.std.specs.Prelude.{◌≡◌, ◌+◌, ◌<◌, ◌≤◌, ◌^◌, [], length, slice_set, OnOk};
ghost use Rattle.dns_names.specs.Faults.{Reads};
ghost use Rattle.dns_names.specs.Reading.{Pieces, cut, checked, pieces_of};

use crate::name_fault::NameFault;
use crate::symbol::{Symbol, first_symbol};

/// The most octets of a label (RFC 1035 section 2.3.4).
const LABEL_MAX: usize = 63;

/// Puts an octet at a place, where there is room.
fn keep(row: &mut [u8], place: usize, octet: u8)
    ensures { row.new ≡ slice_set row.old place octet }
{
    if place < row.len() {
        row[place] = octet;
    }
}

/// The labels that dots end, and what stands after the last dot. Letters are folded. Octets and lengths are kept as far as
/// a name has room for them: 254 octets, and 127 labels of one octet each.
#[derive(Drop)]
pub(crate) struct PieceRows {
    pub octets: [u8; 254],
    /// The lengths of the labels that dots end, 255 for any that are longer.
    pub lengths: [u8; 127],
    /// How many octets the pieces have.
    pub total: usize,
    /// How many labels dots end.
    pub ended: usize,
    /// How many octets stand after the last dot.
    pub last: usize,
    /// Whether a label that a dot ends is empty.
    pub has_empty: bool,
    /// Whether a label that a dot ends is too long.
    pub has_long: bool,
}

impl PieceRows {
    ghost use Rattle.dns_names.specs.Rows.{AreKept, Keeps, with_octet, with_dot};

    /// Of no text.
    pub fn new() -> PieceRows
        ensures { AreKept result (record { ended = []; last = [] }) }
    {
        PieceRows {
            octets: [0; 254],
            lengths: [0; 127],
            total: 0,
            ended: 0,
            last: 0,
            has_empty: false,
            has_long: false,
        }
    }

    /// Puts an octet after the last dot.
    fn push(&mut self, octet: u8)
        requires total { self.old.total + 1 < 2 ^ 64 }
        requires last { self.old.last + 1 < 2 ^ 64 }
        ensures { (given : Pieces) → AreKept self.old given → AreKept self.new (with_octet given octet) }
    {
        keep(&mut self.octets, self.total, octet);
        self.total += 1;
        self.last += 1;
    }

    /// Ends the last label by a dot.
    pub fn end_label(&mut self)
        requires { self.old.ended + 1 < 2 ^ 64 }
        ensures { (given : Pieces) → AreKept self.old given → AreKept self.new (with_dot given) }
    {
        self.has_empty = self.has_empty | (self.last == 0);
        self.has_long = self.has_long | (self.last > LABEL_MAX);
        keep(&mut self.lengths, self.ended, self.last.min(255) as u8);
        self.ended += 1;
        self.last = 0;
    }

    /// The symbols of a text, cut at the dots.
    fn cut(&mut self, text: &[u8]) -> Result<(), NameFault>
        requires { AreKept self.old (record { ended = []; last = [] }) }
        ensures fits { OnOk result (self.new.total + self.new.ended ≤ length text.now) }
        ensures exact { Keeps self.new result (cut text.now) }
    {
        let mut rest = text;
        while !rest.is_empty() {
            let (symbol, after) = first_symbol(rest)?;
            match symbol {
                Symbol::Octet(octet) => self.push(octet.to_ascii_lowercase()),
                Symbol::Dot => self.end_label(),
            }
            rest = after;
        }
        Ok(())
    }

    /// Refuses an empty label that a dot ends, and then a label that is too long.
    fn check(&self) -> Result<(), NameFault>
        ensures { (given : Pieces) → AreKept self.now given → Reads (λ _. given) result (checked given) }
    {
        if self.has_empty {
            return Err(NameFault::EmptyLabel);
        }
        if self.has_long || self.last > LABEL_MAX {
            return Err(NameFault::LabelTooLong);
        }
        Ok(())
    }

    /// Reads the pieces of a text, none of which is too long, and none of which that a dot ends is empty.
    pub fn read(&mut self, text: &[u8]) -> Result<(), NameFault>
        requires { AreKept self.old (record { ended = []; last = [] }) }
        ensures fits { OnOk result (self.new.total + self.new.ended ≤ length text.now) }
        ensures exact { Keeps self.new result (pieces_of text.now) }
    {
        self.cut(text)?;
        self.check()
    }
}
