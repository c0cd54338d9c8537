//! The pieces of which parts of an update are made: prerequisites at one name, and operations, each with the prerequisites that go with it.

ghost use Rattle.std.specs.Prelude.{◌≡◌, ◌++◌, ◌∷◌, [], length, map, IfOk, OnOk};
ghost use Rattle.std.specs.List.{flat_map, zip};
ghost use Rattle.cli_updates.specs.Octets.{bare_length, capped};
ghost use Rattle.cli_updates.specs.Slots.{lent, slots_view};
ghost use Rattle.cli_updates.specs.Filling.{piece_view, part_view};
ghost use Rattle.cli_updates.specs.Pieces.{tests_piece, operation_piece, guarded_piece, operation_pieces, split_of};

use crate::filling::{Part, Piece, parts_of};
use crate::octets::Scale;
use crate::slots::{Placed, place_tests, slots_by_name};
use grant_policy::Identifier;
use std::alloc::{AllocError, Global};
use zone_core::{Operation, Prerequisite};

/// A piece of prerequisites. The only error is out of memory.
fn tests_piece<'a, 'b>(
    alloc: Global,
    scale: &Scale<'_>,
    tests: &'b [&'a Prerequisite],
) -> Result<Piece<'a, 'b>, AllocError>
    ensures { IfOk result (λ piece. piece_view piece ≡ tests_piece scale.now.id.now (lent tests.now)) }
{
    Ok(Piece {
        tests,
        operation: None,
        octets: scale.tests(alloc, tests)?,
    })
}

/// A piece of an operation. The only error is out of memory.
fn operation_piece<'a, 'b>(
    alloc: Global,
    scale: &Scale<'_>,
    operation: &'a Operation,
) -> Result<Piece<'a, 'b>, AllocError>
    ensures { IfOk result (λ piece. piece_view piece ≡ operation_piece scale.now.id.now operation.now) }
{
    Ok(Piece {
        tests: &[],
        operation: Some(operation),
        octets: scale.operation(alloc, operation)?,
    })
}

/// A piece of an operation, and the prerequisites that go with it. The only error is out of memory.
fn guarded_piece<'a, 'b>(
    alloc: Global,
    scale: &Scale<'_>,
    tests: &'b [&'a Prerequisite],
    operation: &'a Operation,
) -> Result<Piece<'a, 'b>, AllocError>
    ensures { IfOk result (λ piece. piece_view piece ≡ guarded_piece scale.now.id.now (lent tests.now) operation.now) }
{
    let octets = scale.tests(alloc, tests)?;
    Ok(Piece {
        tests,
        operation: Some(operation),
        octets: octets.saturating_add(scale.operation(alloc, operation)?),
    })
}

/// Puts the pieces of an operation, and of the prerequisites that go with it, after others. The only error is out of memory.
fn push_operation<'a, 'b>(
    alloc: Global,
    pieces: &mut Vec<Piece<'a, 'b>>,
    scale: &Scale<'_>,
    tests: &'b [&'a Prerequisite],
    operation: &'a Operation,
) -> Result<(), AllocError>
    ensures { OnOk result
        (map piece_view pieces.new.items
        ≡ map piece_view pieces.old.items ++ operation_pieces scale.now.id.now (capped (bare_length scale.now.id.now)) (lent tests.now, operation.now)) }
{
    let guarded = guarded_piece(alloc, scale, tests, operation)?;
    let bare = Part::new(alloc, scale.frame());
    if bare.has_room(&guarded) {
        pieces.push(guarded)?;
        return Ok(());
    }
    pieces.push(tests_piece(alloc, scale, tests)?)?;
    pieces.push(operation_piece(alloc, scale, operation)?)?;
    Ok(())
}

/// Puts the pieces of prerequisites by their names after others. The only error is out of memory.
fn push_tests<'a, 'b>(
    alloc: Global,
    pieces: &mut Vec<Piece<'a, 'b>>,
    scale: &Scale<'_>,
    slots: &'b [Vec<&'a Prerequisite>],
) -> Result<(), AllocError>
    ensures { OnOk result (map piece_view pieces.new.items ≡ map piece_view pieces.old.items ++ map (tests_piece scale.now.id.now) (slots_view slots.now)) }
{
    for slot in slots {
        pieces.push(tests_piece(alloc, scale, slot)?)?;
    }
    Ok(())
}

/// Puts the pieces of operations, each with the prerequisites of its place, after others. The only error is out of memory.
fn push_operations<'a, 'b>(
    alloc: Global,
    pieces: &mut Vec<Piece<'a, 'b>>,
    scale: &Scale<'_>,
    slots: &'b [Vec<&'a Prerequisite>],
    operations: &'a [Operation],
) -> Result<(), AllocError>
    requires { length slots.now ≡ length operations.now }
    ensures { OnOk result
        (map piece_view pieces.new.items
        ≡ map piece_view pieces.old.items ++ flat_map (operation_pieces scale.now.id.now (capped (bare_length scale.now.id.now)))
        (zip (slots_view slots.now) operations.now)) }
{
    for (place, operation) in operations.iter().enumerate() {
        push_operation(alloc, pieces, scale, &slots[place], operation)?;
    }
    Ok(())
}

/// The parts of prerequisites and operations, whose bodies are measured under an identifier. The only error is out of memory.
pub(crate) fn split<'a>(
    alloc: Global,
    id: &Identifier,
    tests: &'a [Prerequisite],
    operations: &'a [Operation],
) -> Result<Vec<Part<'a>>, AllocError>
    ensures { IfOk result (λ parts. map part_view parts.items ≡ split_of id.now tests.now operations.now) }
{
    let scale = Scale::new(alloc, id)?;
    let Placed { before, beside } = place_tests(alloc, tests, operations)?;
    let by_name = slots_by_name(alloc, &before)?;
    let mut pieces = Vec::new(alloc);
    push_tests(alloc, &mut pieces, &scale, &by_name)?;
    push_operations(alloc, &mut pieces, &scale, &beside, operations)?;
    parts_of(alloc, scale.frame(), &pieces)
}
