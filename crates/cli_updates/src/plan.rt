//! What the office would answer to an update of a zone.

ghost use Rattle.std.specs.Prelude.{◌≡◌, ◌++◌, ◌∷◌, [], ◌<◌, ℕ, List, IfOk, OnOk, option_map, string_bytes};
ghost use Rattle.zone_core.specs.Changes.{change_in};
ghost use Rattle.zone_core.specs.Updates.{ActsWithin};
ghost use Rattle.zone_core.specs.Effects.{zone_after};
ghost use Rattle.cli_core.specs.LineFaults.{Gives, GivesOf};
ghost use Rattle.cli_updates.specs.Texts.{GivesText, Told};
ghost use Rattle.cli_updates.specs.Plan.{asker_in, asker_of, asker_read, reply_line, signed_lines, change_lines, serial_line, zone_update, zone_update_in, zone_update_read, plan_refusal, AreLinesAfter, ArePlanLines, IsReplyText, IsPlanObject, IsPlanText, IsAskerRead, IsPlanned};
ghost use Rattle.cli_updates.specs.Explained.{update_texts};
ghost use Rattle.zone_core.specs.Zones.{serial_of};
ghost use Rattle.cli_text.specs.ChangedAnswerLines.{AreAnswerLines};
ghost use Rattle.cli_text.specs.LineObjects.{objects_array};
ghost use Rattle.cli_text.specs.declared.line_objects.LineKind.TheVariants as kind;
ghost use Rattle.cli_updates.specs.PlanObjects.{answers_piece, items_piece, made, outcome_in, outcome_of, outcome_text};
ghost use Rattle.cli_updates.specs.PointObjects.{items_value};

use crate::explained::Explainer;
use crate::idle_lines::push_idle_lines;
use crate::plan_fault::PlanFault;
use crate::plan_object::{Outcome, push_outcome};
use cli_core::{
    Input, JobFault, LineFault, PlanForm, PlanLines, PlanObject, TextForm, read_input,
    write_octets, write_refusal,
};
use cli_text::{
    InputRead, LineKind, answer_lines, objects_array, read_caller, read_parts, zone_of_records,
};
use dns_data::Record;
use dns_master::Sink;
use grant_policy::{Identifier, Policy, read_policy};
use office_core::{UpdateReply, plan};
use office_model::reply_words;
use std::alloc::{AllocError, Global};
use std::fmt::Write as _;
use zone_core::{Change, Update, Zone, apply, apply_owned};

/// Who asks, and the policy that decides.
#[derive(Drop)]
struct Asker {
    policy: Policy,
    caller: Identifier,
}

/// A zone, and an update of it.
#[derive(Drop)]
struct ZoneUpdate {
    zone: Zone,
    update: Update,
}

/// A caller, and the policy of a text.
fn asker_of(alloc: Global, caller: Identifier, text: &[u8]) -> Result<Asker, LineFault>
    ensures { Gives asker_in result (asker_of caller text.now) }
{
    let policy = read_policy(alloc, text)?;
    Ok(Asker { policy, caller })
}

/// The caller that a word is, and the policy that a reader gives.
fn read_asker<R: Input>(alloc: Global, caller: &str, reader: &mut R) -> Result<Asker, LineFault>
    ensures { GivesOf asker_in (R.left reader.old) (asker_read caller.now) result (R.fine reader.old reader.new) (R.failed reader.old reader.new) }
{
    let caller = read_caller(alloc, caller)?;
    let text = read_input(alloc, reader)?;
    asker_of(alloc, caller, &text)
}

/// The line of a reply. The only error is out of memory.
fn reply_line(alloc: Global, reply: &UpdateReply) -> Result<String, AllocError>
    ensures { IfOk result (λ text. string_bytes text ≡ reply_line reply.now) }
{
    let mut text = reply_words(alloc, reply)?;
    text.push_str("\n")?;
    Ok(text)
}

/// Appends the lines of records, each after a sign. The only error is out of memory.
pub fn push_signed(text: &mut String, sign: &str, records: &[Record]) -> Result<(), AllocError>
    ensures { OnOk result (string_bytes text.new ≡ string_bytes text.old ++ signed_lines sign.now records.now) }
{
    for record in records {
        writeln!(text, "{sign} {record}")?;
    }
    Ok(())
}

/// Appends the lines of a change. The only error is out of memory.
fn push_change(text: &mut String, change: &Option<Change>) -> Result<(), AllocError>
    ensures { OnOk result (string_bytes text.new ≡ string_bytes text.old ++ change_lines (option_map change_in change.now)) }
{
    let Some(change) = change else {
        return Ok(());
    };
    push_signed(text, "-", &change.removed)?;
    push_signed(text, "+", &change.added)
}

/// Appends the line of the serial of a zone. The only error is out of memory.
fn push_serial(text: &mut String, zone: &Zone) -> Result<(), AllocError>
    ensures { OnOk result (string_bytes text.new ≡ string_bytes text.old ++ serial_line zone.now) }
{
    let serial = zone.serial();
    writeln!(text, "serial {serial}")
}

/// Appends the line of the serial of a zone after an update of it; and in forms the lines of the questions that a server answers otherwise
/// then, or those of the operations that change nothing. The only error is out of memory.
fn push_after(
    alloc: Global,
    text: &mut String,
    lines: PlanLines,
    zone: Zone,
    update: &Update,
) -> Result<(), AllocError>
    requires { ActsWithin zone.origin update.now }
    ensures { OnOk result (AreLinesAfter lines zone update.now (string_bytes text.old) (string_bytes text.new)) }
{
    match lines {
        PlanLines::Records => {
            let outcome = apply_owned(alloc, zone, update)?;
            push_serial(text, &outcome.zone)
        }
        PlanLines::Explained => {
            let outcome = apply(alloc, &zone, update)?;
            push_serial(text, &outcome.zone)?;
            push_idle_lines(alloc, text, &zone, update)
        }
        PlanLines::Answers => {
            let outcome = apply(alloc, &zone, update)?;
            push_serial(text, &outcome.zone)?;
            let answers = answer_lines(alloc, zone, outcome.zone)?;
            text.push_str(&answers)
        }
    }
}

/// What the office would answer to an update of a zone, and change, in lines. The only error is out of memory.
fn reply_text(
    alloc: Global,
    asker: &Asker,
    lines: PlanLines,
    asked: ZoneUpdate,
) -> Result<String, AllocError>
    ensures { IfOk result (λ text. IsReplyText lines (asker_in asker.now) (zone_update asked) (string_bytes text)) }
{
    let ZoneUpdate { zone, update } = asked;
    let (reply, change) = plan(alloc, &asker.policy, &asker.caller, &zone, &update)?;
    let mut text = reply_line(alloc, &reply)?;
    if let UpdateReply::NoError = reply {
        push_change(&mut text, &change)?;
        push_after(alloc, &mut text, lines, zone, &update)?;
    }
    Ok(text)
}

/// What the policy decides of each item, in a form. The only error is out of memory.
fn decided_items(
    alloc: Global,
    asker: &Asker,
    form: TextForm,
    asked: &ZoneUpdate,
) -> Result<Vec<u8>, AllocError>
    ensures { IfOk result (λ text. text.items ≡ update_texts form asker.now.policy asker.now.caller asked.now.zone.origin asked.now.update) }
{
    let explainer = Explainer {
        policy: &asker.policy,
        caller: &asker.caller,
        form,
        alloc,
    };
    let mut text = Vec::new(alloc);
    explainer.push_update(&mut text, asked.zone.origin(), &asked.update)?;
    Ok(text)
}

/// What the policy decides of each item, and then what the office would answer and change, in lines. The only error is out of memory.
fn explained(alloc: Global, asker: &Asker, asked: ZoneUpdate) -> Result<Vec<u8>, AllocError>
    ensures { IfOk result (λ text. ArePlanLines PlanLines.Explained (asker_in asker.now) (zone_update asked) text.items) }
{
    let mut text = decided_items(alloc, asker, TextForm::Plain, &asked)?;
    let reply = reply_text(alloc, asker, PlanLines::Explained, asked)?;
    text.extend_from_slice(reply.as_bytes())?;
    Ok(text)
}

/// The lines that are printed of an update of a zone. The only error is out of memory.
fn lines_text(
    alloc: Global,
    asker: &Asker,
    lines: PlanLines,
    asked: ZoneUpdate,
) -> Result<Vec<u8>, AllocError>
    ensures { IfOk result (λ text. ArePlanLines lines (asker_in asker.now) (zone_update asked) text.items) }
{
    match lines {
        PlanLines::Explained => explained(alloc, asker, asked),
        lines => Ok(reply_text(alloc, asker, lines, asked)?.into_bytes()),
    }
}

/// The member of what the policy decides of each item, and a comma. The only error is out of memory.
fn all_items(alloc: Global, asker: &Asker, asked: &ZoneUpdate) -> Result<Vec<u8>, AllocError>
    ensures { IfOk result
        (λ text. text.items ≡ items_piece (items_value asker.now.policy asker.now.caller asked.now.zone.origin asked.now.update)) }
{
    let mut items = decided_items(alloc, asker, TextForm::Json, asked)?;
    // An array has commas only between its values (RFC 8259 section 5).
    items.truncate(items.len().saturating_sub(1));
    let mut text = Vec::from_slice(alloc, r#""items":["#.as_bytes())?;
    text.extend_from_slice(&items)?;
    text.extend_from_slice(b"],")?;
    Ok(text)
}

/// What becomes of an update of a zone. The only error is out of memory.
fn outcome_of(alloc: Global, asker: &Asker, asked: ZoneUpdate) -> Result<Outcome, AllocError>
    ensures { IfOk result (λ outcome. outcome_in outcome ≡ outcome_of asked.zone asked.update (plan_refusal (asker_in asker.now) (zone_update asked))) }
{
    let ZoneUpdate { zone, update } = asked;
    let (reply, change) = plan(alloc, &asker.policy, &asker.caller, &zone, &update)?;
    match reply {
        UpdateReply::NoError => {
            let outcome = apply_owned(alloc, zone, &update)?;
            let serial = outcome.zone.serial();
            Ok(Outcome::Made { change, serial })
        }
        refused => Ok(Outcome::Refused(refused)),
    }
}

/// The object of an outcome with a member more, and a line end. The only error is out of memory.
fn outcome_text(alloc: Global, piece: &[u8], outcome: Outcome) -> Result<Vec<u8>, AllocError>
    ensures { IfOk result (λ text. text.items ≡ outcome_text piece.now (outcome_in outcome)) }
{
    let mut text = Vec::new(alloc);
    push_outcome(alloc, &mut text, piece, outcome)?;
    Ok(text)
}

/// The object of what becomes of an update of a zone, with a member more, and a line end. The only error is out of memory.
fn object_with(
    alloc: Global,
    asker: &Asker,
    piece: &[u8],
    asked: ZoneUpdate,
) -> Result<Vec<u8>, AllocError>
    ensures { IfOk result
        (λ text. text.items ≡ outcome_text piece.now (outcome_of asked.zone asked.update (plan_refusal (asker_in asker.now) (zone_update asked)))) }
{
    let outcome = outcome_of(alloc, asker, asked)?;
    outcome_text(alloc, piece, outcome)
}

/// The object with what is decided of each item. The only error is out of memory.
fn explained_object(alloc: Global, asker: &Asker, asked: ZoneUpdate) -> Result<Vec<u8>, AllocError>
    ensures { IfOk result (λ text. IsPlanObject PlanObject.Explained (asker_in asker.now) (zone_update asked) text.items) }
{
    let items = all_items(alloc, asker, &asked)?;
    object_with(alloc, asker, &items, asked)
}

/// The member of the questions of lines, and a comma. The only error is out of memory.
fn answers_member(alloc: Global, lines: &[u8]) -> Result<Vec<u8>, AllocError>
    ensures { IfOk result (λ text. text.items ≡ answers_piece (objects_array kind.Questions lines.now)) }
{
    let questions = objects_array(alloc, LineKind::Questions, lines)?;
    let mut text = Vec::from_slice(alloc, r#""answers":"#.as_bytes())?;
    text.extend_from_slice(&questions)?;
    text.push(b',')?;
    Ok(text)
}

/// The object of an update that is made, with the questions that a server answers otherwise after it. The only error is out of memory.
fn made_object(
    alloc: Global,
    zone: Zone,
    update: &Update,
    change: Option<Change>,
) -> Result<Vec<u8>, AllocError>
    requires { ActsWithin zone.origin update.now }
    ensures { IfOk result
        (λ text. (lines : List ℕ) × AreAnswerLines zone (zone_after zone update.now) lines
        × (text.items ≡ outcome_text (answers_piece (objects_array kind.Questions lines)) (made (option_map change_in change) (serial_of (zone_after zone update.now))))) }
{
    let outcome = apply(alloc, &zone, update)?;
    let serial = outcome.zone.serial();
    let lines = answer_lines(alloc, zone, outcome.zone)?;
    let member = answers_member(alloc, lines.as_bytes())?;
    outcome_text(alloc, &member, Outcome::Made { change, serial })
}

/// The object with the questions that a server answers otherwise after an update that is made. The only error is out of memory.
fn answers_object(alloc: Global, asker: &Asker, asked: ZoneUpdate) -> Result<Vec<u8>, AllocError>
    ensures { IfOk result (λ text. IsPlanObject PlanObject.Answers (asker_in asker.now) (zone_update asked) text.items) }
{
    let ZoneUpdate { zone, update } = asked;
    let (reply, change) = plan(alloc, &asker.policy, &asker.caller, &zone, &update)?;
    match reply {
        UpdateReply::NoError => made_object(alloc, zone, &update, change),
        refused => outcome_text(alloc, &[], Outcome::Refused(refused)),
    }
}

/// The object that is printed of an update of a zone, and a line end. The only error is out of memory.
fn object_text(
    alloc: Global,
    asker: &Asker,
    object: PlanObject,
    asked: ZoneUpdate,
) -> Result<Vec<u8>, AllocError>
    ensures { IfOk result (λ text. IsPlanObject object (asker_in asker.now) (zone_update asked) text.items) }
{
    match object {
        PlanObject::Reply => object_with(alloc, asker, &[], asked),
        PlanObject::Answers => answers_object(alloc, asker, asked),
        PlanObject::Explained => explained_object(alloc, asker, asked),
    }
}

/// What is printed of an update of a zone, in a form. The only error is out of memory.
fn planned(
    alloc: Global,
    asker: &Asker,
    form: PlanForm,
    asked: ZoneUpdate,
) -> Result<Vec<u8>, AllocError>
    ensures { IfOk result (λ text. IsPlanText form (asker_in asker.now) (zone_update asked) text.items) }
{
    match form {
        PlanForm::Lines(lines) => lines_text(alloc, asker, lines, asked),
        PlanForm::Object(object) => object_text(alloc, asker, object, asked),
    }
}

/// The zone and the update of an input, whose octets are given back.
fn zone_update_in(alloc: Global, input: Vec<u8>) -> Result<ZoneUpdate, LineFault>
    ensures { Gives zone_update result (zone_update_in input.items) }
{
    let InputRead { records, update } = read_parts(alloc, input)?;
    let zone = zone_of_records(alloc, records)?;
    Ok(ZoneUpdate {
        zone,
        update: update?,
    })
}

/// The zone and the update that a reader gives.
fn read_zone_update<R: Input>(alloc: Global, reader: &mut R) -> Result<ZoneUpdate, LineFault>
    ensures { GivesOf zone_update (R.left reader.old) zone_update_read result (R.fine reader.old reader.new) (R.failed reader.old reader.new) }
{
    let input = read_input(alloc, reader)?;
    zone_update_in(alloc, input)
}

/// What the office would answer to the update of the zone that a reader gives.
fn answer<R: Input>(
    alloc: Global,
    asker: &Asker,
    form: PlanForm,
    reader: &mut R,
) -> Result<Vec<u8>, LineFault>
    ensures { GivesText (λ text. text.items) (IsPlanText form (asker_in asker.now)) zone_update_read (R.left reader.old) result (R.fine reader.old reader.new)
        (R.failed reader.old reader.new) }
{
    let asked = read_zone_update(alloc, reader)?;
    Ok(planned(alloc, asker, form, asked)?)
}

/// Reads a master file, a line `--` and items of an update, and writes what the office would answer. On a failure, a line tells why.
fn write_plan<R: Input, W: Sink>(
    alloc: Global,
    asker: Asker,
    form: PlanForm,
    reader: &mut R,
    writer: &mut W,
) -> Result<(), JobFault>
    ensures { Told (IsPlanText form (asker_in asker)) zone_update_read (R.left reader.old) (W.contents writer.old) (W.contents writer.new) result
        (R.fine reader.old reader.new) (R.failed reader.old reader.new) (W.failures writer.old) (W.failures writer.new) }
{
    write_octets(alloc, writer, answer(alloc, &asker, form, reader))
}

/// The caller of a word, and the policy that a reader gives. On a failure, a line tells why.
fn first_asker<R: Input, W: Sink>(
    alloc: Global,
    caller: &str,
    reader: &mut R,
    writer: &mut W,
) -> Result<Asker, JobFault>
    ensures { IsAskerRead caller.now (R.left reader.old) (W.contents writer.old) (W.contents writer.new) result (R.fine reader.old reader.new)
        (R.failed reader.old reader.new) (W.failures writer.old) (W.failures writer.new) }
{
    match read_asker(alloc, caller, reader) {
        Ok(asker) => Ok(asker),
        Err(fault) => Err(write_refusal(alloc, writer, fault)),
    }
}

/// Writes what the office would answer to an update of a zone by a caller: the reply in words, as a receipt has it; and of an update that
/// would be made the records that go, after `-`, those that come, after `+`, and the serial; and in forms, after it the lines of the
/// questions that a server answers otherwise then, as `do_diff` writes them, or before it what the policy decides of each item; or the
/// reply as the office answers it over HTTP, and the rest, as an object of JSON. One input is the policy, and another the
/// master file of the zone, a line `--` and the items. Otherwise one line tells the refusal that comes first: of the caller, that the
/// policy is too large, of the policy; and of the other input, which is read after it, that it is too large, that it has no divider, of
/// the master file, of its records as a zone, of the items.
pub fn do_plan<R: Input, N: Input, W: Sink>(
    alloc: Global,
    what: (&str, PlanForm),
    policy: &mut R,
    input: &mut N,
    writer: &mut W,
) -> Result<(), PlanFault>
    ensures { IsPlanned what.entry.1 what.entry.0.now
        (record { left = R.left policy.old; fine = R.fine policy.old policy.new; failed = R.failed policy.old policy.new })
        (record { left = N.left input.old; fine = N.fine input.old input.new; failed = N.failed input.old input.new })
        (W.contents writer.old) (W.contents writer.new) result (W.failures writer.old) (W.failures writer.new) }
{
    let (caller, form) = what;
    let asker = match first_asker(alloc, caller, policy, writer) {
        Ok(asker) => asker,
        Err(fault) => return Err(PlanFault::Policy(fault)),
    };
    match write_plan(alloc, asker, form, input, writer) {
        Ok(()) => Ok(()),
        Err(fault) => Err(PlanFault::Input(fault)),
    }
}
