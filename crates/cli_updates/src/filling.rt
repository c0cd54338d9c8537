//! How parts of an update are filled: each as far as its limits go.

ghost use Rattle.std.specs.Prelude.{◌≡◌, ◌++◌, ◌∷◌, List, map, IfOk, OnOk};
ghost use Rattle.update_lines.specs.Reading.{behind, no_items};
ghost use Rattle.cli_updates.specs.Octets.{sum_up};
ghost use Rattle.cli_updates.specs.Filling.{is_bare, has_room, takes, filled, parts_of, PieceOf, piece_view, part_view};

use crate::request::BODY_MAX;
use std::alloc::{AllocError, Global};
use zone_core::{Operation, Prerequisite, Update};

/// The most octets of a part, as they are counted: 32 of a body's are left for its identifier, its serial and its line end.
const OCTETS_MAX: usize = BODY_MAX - 32;

/// Items that stay together.
#[derive(Clone, Copy)]
pub(crate) struct Piece<'a, 'b> {
    /// The prerequisites, in order.
    pub tests: &'b [&'a Prerequisite],
    /// The operation, where there is one.
    pub operation: Option<&'a Operation>,
    /// How many octets they are counted as.
    pub octets: u16,
}

/// The items of a part, each list in order.
#[derive(Drop)]
pub(crate) struct Part<'a> {
    /// The prerequisites.
    pub tests: Vec<&'a Prerequisite>,
    /// The operations.
    pub operations: Vec<&'a Operation>,
    /// How many octets they are counted as, with those of a part without items.
    octets: u16,
}

impl Piece<'_, '_> {
    /// Whether there are no items.
    fn is_bare(&self) -> bool
        ensures { result ≡ is_bare (piece_view self.now).items }
    {
        self.tests.is_empty() && self.operation.is_none()
    }
}

impl<'a> Part<'a> {
    /// A part without items, of so many octets.
    pub fn new(alloc: Global, frame: u16) -> Part<'a>
        ensures items { part_view result ≡ no_items }
        ensures octets { result.octets ≡ frame }
    {
        Part {
            tests: Vec::new(alloc),
            operations: Vec::new(alloc),
            octets: frame,
        }
    }

    /// Whether there are no items.
    fn is_bare(&self) -> bool
        ensures { result ≡ is_bare (part_view self.now) }
    {
        self.tests.is_empty() && self.operations.is_empty()
    }

    /// Whether there is room for others.
    pub fn has_room(&self, piece: &Piece<'_, '_>) -> bool
        ensures { result ≡ has_room self.now.octets (part_view self.now) (piece_view piece.now) }
    {
        let octets = usize::from(self.octets) + usize::from(piece.octets);
        let tests = self.tests.len() + piece.tests.len();
        let operations = self.operations.len() + usize::from(piece.operation.is_some());
        octets <= OCTETS_MAX
            && tests <= Update::PREREQUISITES_MAX
            && operations <= Update::OPERATIONS_MAX
    }

    /// Whether others go after the items.
    fn takes(&self, piece: &Piece<'_, '_>) -> bool
        ensures { result ≡ takes self.now.octets (part_view self.now) (piece_view piece.now) }
    {
        self.is_bare() || piece.is_bare() || self.has_room(piece)
    }

    /// Puts others after the items. The only error is out of memory.
    fn push(&mut self, piece: &Piece<'a, '_>) -> Result<(), AllocError>
        ensures items { OnOk result (part_view self.new ≡ behind (part_view self.old) (piece_view piece.now).items) }
        ensures octets { OnOk result (self.new.octets ≡ sum_up self.old.octets piece.now.octets) }
    {
        self.tests.extend_from_slice(piece.tests)?;
        if let Some(operation) = piece.operation {
            self.operations.push(operation)?;
        }
        self.octets = self.octets.saturating_add(piece.octets);
        Ok(())
    }
}

/// The part that is open for others: this one, or else a new one, where this is closed. The only error is out of memory.
fn open_part<'a>(
    alloc: Global,
    frame: u16,
    parts: &mut Vec<Part<'a>>,
    part: Part<'a>,
    piece: &Piece<'_, '_>,
) -> Result<Part<'a>, AllocError>
    ensures { IfOk result (λ next. (rest : List PieceOf) →
        map part_view parts.new.items ++ filled frame (sum_up next.octets piece.now.octets) (behind (part_view next) (piece_view piece.now).items) rest
        ≡ map part_view parts.old.items ++ filled frame part.entry.octets (part_view part.entry) (piece_view piece.now ∷ rest)) }
{
    if part.takes(piece) {
        return Ok(part);
    }
    parts.push(part)?;
    Ok(Part::new(alloc, frame))
}

/// The parts of pieces in order, where one without items is counted as so many octets. The only error is out of memory.
pub(crate) fn parts_of<'a>(
    alloc: Global,
    frame: u16,
    pieces: &[Piece<'a, '_>],
) -> Result<Vec<Part<'a>>, AllocError>
    ensures { IfOk result (λ parts. map part_view parts.items ≡ parts_of frame (map piece_view pieces.now)) }
{
    let mut parts = Vec::new(alloc);
    let mut part = Part::new(alloc, frame);
    for piece in pieces {
        part = open_part(alloc, frame, &mut parts, part, piece)?;
        part.push(piece)?;
    }
    parts.push(part)?;
    Ok(parts)
}
