//! The items that lead from one zone to another, or the questions that a server answers otherwise from it.

ghost use Rattle.std.specs.Prelude.{◌≡◌, ◌<◌, ℕ, IfOk, string_bytes};
ghost use Rattle.cli_core.specs.LineFaults.{Gives, GivesOf};
ghost use Rattle.cli_text.specs.Canon.{zone_of_file};
ghost use Rattle.cli_updates.specs.Texts.{GivesText, Told};
ghost use Rattle.cli_updates.specs.Diff.{prerequisites_in, items_between, new_read, kind_of, AreDiffLines, IsDiffText, IsOldRead, Differs};

use crate::diff_fault::DiffFault;
use crate::guard::guards_of;
use cli_core::{
    DiffContent, DiffForm, Input, ItemForm, JobFault, LineFault, read_input, write_octets,
    write_refusal,
};
use cli_text::{LineKind, answer_lines, in_form, read_zone, zone_of_file};
use dns_master::Sink;
use std::alloc::{AllocError, Global};
use update_lines::lists_text;
use zone_core::{Operation, Prerequisite, Zone};
use zone_tools::operations_between;

/// The prerequisites that a diff prints before operations. The only error is out of memory.
fn prerequisites_in(
    alloc: Global,
    form: ItemForm,
    old: &Zone,
    new: &Zone,
    operations: &[Operation],
) -> Result<Vec<Prerequisite>, AllocError>
    ensures { IfOk result (λ guards. guards.items ≡ prerequisites_in form old.now new.now operations.now) }
{
    match form {
        ItemForm::Bare => Ok(Vec::new(alloc)),
        ItemForm::Guarded(scope) => guards_of(alloc, scope, old, new, operations),
    }
}

/// The items that lead from a zone to another of its origin. The only error is out of memory.
pub fn items_between(
    alloc: Global,
    form: ItemForm,
    old: &Zone,
    new: &Zone,
) -> Result<String, AllocError>
    requires { new.now.origin ≡ old.now.origin }
    ensures { IfOk result (λ text. string_bytes text ≡ items_between form old.now new.now) }
{
    let operations = operations_between(alloc, old, new)?;
    let prerequisites = prerequisites_in(alloc, form, old, new, &operations)?;
    lists_text(alloc, &prerequisites, &operations)
}

/// The lines of what is printed of two zones of an origin. The only error is out of memory.
fn diff_lines(
    alloc: Global,
    content: DiffContent,
    old: Zone,
    new: Zone,
) -> Result<String, AllocError>
    requires { new.origin ≡ old.origin }
    ensures { IfOk result (λ text. AreDiffLines content old new (string_bytes text)) }
{
    match content {
        DiffContent::Items(form) => items_between(alloc, form, &old, &new),
        DiffContent::Answers => answer_lines(alloc, old, new),
    }
}

/// Of what the lines of a diff are.
const fn kind_of(content: DiffContent) -> LineKind
    ensures { result ≡ kind_of content }
{
    match content {
        DiffContent::Items(_) => LineKind::Items,
        DiffContent::Answers => LineKind::Questions,
    }
}

/// The same, as lines or as their objects. The only error is out of memory.
#[tactic(auto, using(crate::proofs::DiffTextLemmas::printed_so))]
fn diff_text(alloc: Global, form: DiffForm, old: Zone, new: Zone) -> Result<Vec<u8>, AllocError>
    requires { new.origin ≡ old.origin }
    ensures { IfOk result (λ text. IsDiffText form old new text.items) }
{
    let lines = diff_lines(alloc, form.content, old, new)?;
    in_form(alloc, form.text, kind_of(form.content), lines.into_bytes())
}

/// The zone of a master file, of the origin of another zone. The octets are given back.
fn zone_beside(alloc: Global, old: &Zone, file: Vec<u8>) -> Result<Zone, LineFault>
    ensures read { Gives (λ zone. zone) result (zone_of_file old.now.origin file.items) }
    ensures origin { IfOk result (λ zone. zone.origin ≡ old.now.origin) }
{
    let origin = old.origin().try_copy(alloc)?;
    zone_of_file(alloc, origin, file)
}

/// The zone of the master file that a reader gives, of the origin of another.
fn read_new<R: Input>(alloc: Global, old: &Zone, reader: &mut R) -> Result<Zone, LineFault>
    ensures read { GivesOf (λ zone. zone) (R.left reader.old) (new_read old.now) result (R.fine reader.old reader.new) (R.failed reader.old reader.new) }
    ensures origin { IfOk result (λ zone. zone.origin ≡ old.now.origin) }
{
    let file = read_input(alloc, reader)?;
    zone_beside(alloc, old, file)
}

/// What is printed of a zone and that of the master file that a reader gives.
fn answer<R: Input>(
    alloc: Global,
    form: DiffForm,
    old: Zone,
    reader: &mut R,
) -> Result<Vec<u8>, LineFault>
    ensures { GivesText (λ text. text.items) (IsDiffText form old) (new_read old) (R.left reader.old) result (R.fine reader.old reader.new) (R.failed reader.old reader.new) }
{
    let new = read_new(alloc, &old, reader)?;
    Ok(diff_text(alloc, form, old, new)?)
}

/// Reads the master file of the zone as it is to be, and writes what is printed of it and the zone as it is. On a failure, a line tells
/// why.
fn write_diff<R: Input, W: Sink>(
    alloc: Global,
    form: DiffForm,
    old: Zone,
    reader: &mut R,
    writer: &mut W,
) -> Result<(), JobFault>
    ensures { Told (IsDiffText form old) (new_read old) (R.left reader.old) (W.contents writer.old) (W.contents writer.new) result (R.fine reader.old reader.new)
        (R.failed reader.old reader.new) (W.failures writer.old) (W.failures writer.new) }
{
    write_octets(alloc, writer, answer(alloc, form, old, reader))
}

/// The zone of an origin and a reader that gives its master file. On a failure, a line tells why.
fn old_zone<R: Input, W: Sink>(
    alloc: Global,
    origin: &str,
    reader: &mut R,
    writer: &mut W,
) -> Result<Zone, JobFault>
    ensures { IsOldRead origin.now (R.left reader.old) (W.contents writer.old) (W.contents writer.new) result (R.fine reader.old reader.new)
        (R.failed reader.old reader.new) (W.failures writer.old) (W.failures writer.new) }
{
    match read_zone(alloc, origin, reader) {
        Ok(zone) => Ok(zone),
        Err(fault) => Err(write_refusal(alloc, writer, fault)),
    }
}

/// Writes the items that lead from one zone to another of an origin, in a form; or a line for each group of names for which a server
/// answers questions otherwise from the other. Two inputs are the two master files: of the zone as it is, and as it is to be. Made in order,
/// the items give the new zone of the old one. If the two differ only in a serial that is not greater, it writes no item. Otherwise one
/// line tells the refusal that comes first: of the origin; that the old zone's file is too large, of it as a master file, of its records
/// as a zone; and the same of the new zone's, which is read after the other.
pub fn do_diff<R: Input, N: Input, W: Sink>(
    alloc: Global,
    what: (&str, DiffForm),
    old: &mut R,
    new: &mut N,
    writer: &mut W,
) -> Result<(), DiffFault>
    ensures { Differs what.entry.1 what.entry.0.now
        (record { left = R.left old.old; fine = R.fine old.old old.new; failed = R.failed old.old old.new })
        (record { left = N.left new.old; fine = N.fine new.old new.new; failed = N.failed new.old new.new }) (W.contents writer.old)
        (W.contents writer.new) result (W.failures writer.old) (W.failures writer.new) }
{
    let (origin, form) = what;
    let old = match old_zone(alloc, origin, old, writer) {
        Ok(zone) => zone,
        Err(fault) => return Err(DiffFault::Old(fault)),
    };
    match write_diff(alloc, form, old, new, writer) {
        Ok(()) => Ok(()),
        Err(fault) => Err(DiffFault::New(fault)),
    }
}
