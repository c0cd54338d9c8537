//! The operations of an update that change nothing, as text.

ghost use Rattle.std.specs.Prelude.{◌≡◌, ◌++◌, OnOk, IfOk, Some, map, string_bytes};
ghost use Rattle.zone_core.specs.Updates.{ActsWithin, acted_name};
ghost use Rattle.cli_updates.specs.IdleLines.{idle_line, idle_lines_from, idle_lines};

use dns_names::Name;
use std::alloc::{AllocError, Global};
use std::fmt::Write as _;
use zone_core::{Operation, Update, Zone};
use zone_tools::{Idleness, idle_operations};

/// The names at which operations act. The only error is out of memory.
fn acted_names(alloc: Global, operations: &[Operation]) -> Result<Vec<Name>, AllocError>
    ensures { IfOk result (λ names. names.items ≡ map acted_name operations.now) }
{
    let mut names = Vec::with_capacity(alloc, operations.len())?;
    for operation in operations {
        names.push(operation.name().try_copy(alloc)?)?;
    }
    Ok(names)
}

/// Appends the line of an operation that changes nothing. The only error is out of memory.
fn push_line(text: &mut String, item: usize, idleness: Idleness) -> Result<(), AllocError>
    ensures { OnOk result (string_bytes text.new ≡ string_bytes text.old ++ idle_line item (Some idleness)) }
{
    let why = idleness.text();
    writeln!(text, "operations {item} changes nothing: {why}")
}

/// Appends the line of an operation, if it changes nothing. The only error is out of memory.
fn push_idle(text: &mut String, item: usize, found: Option<Idleness>) -> Result<(), AllocError>
    ensures { OnOk result (string_bytes text.new ≡ string_bytes text.old ++ idle_line item found) }
{
    match found {
        Some(idleness) => push_line(text, item, idleness),
        None => Ok(()),
    }
}

/// Appends the lines of operations. The only error is out of memory.
fn push_each(text: &mut String, found: &[Option<Idleness>]) -> Result<(), AllocError>
    ensures { OnOk result (string_bytes text.new ≡ string_bytes text.old ++ idle_lines_from 0 found.now) }
{
    for (i, idleness) in found.iter().enumerate() {
        push_idle(text, i, *idleness)?;
    }
    Ok(())
}

/// Appends a line for each operation of an update that changes nothing in a zone: its number from 0, and why. The only error is out of
/// memory.
pub(crate) fn push_idle_lines(
    alloc: Global,
    text: &mut String,
    zone: &Zone,
    update: &Update,
) -> Result<(), AllocError>
    requires { ActsWithin zone.now.origin update.now }
    ensures { OnOk result (string_bytes text.new ≡ string_bytes text.old ++ idle_lines zone.now update.now) }
{
    let names = acted_names(alloc, update.operations())?;
    let part = zone.part(alloc, &names)?;
    let found = idle_operations(alloc, &part, update)?;
    push_each(text, &found)
}
