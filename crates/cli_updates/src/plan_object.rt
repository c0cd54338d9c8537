//! What becomes of an update of a zone, as an object of JSON.

ghost use Rattle.std.specs.Prelude.{◌≡◌, ◌++◌, ◌∷◌, [], IfOk, OnOk, codes, decimal, option_map};
ghost use Rattle.zone_core.specs.Changes.{change_in};
ghost use Rattle.cli_updates.specs.PlanObjects.{added_by, change_members, outcome_in, outcome_text, removed_by, reply_piece};

use crate::point_object::push_number;
use cli_text::push_section;
use dns_data::Record;
use office_model::{Reply, UpdateReply};
use std::alloc::{AllocError, Global};
use wire_json::reply_text;
use zone_core::Change;

/// What becomes of an update of a zone.
#[derive(Drop)]
pub(crate) enum Outcome {
    /// It is refused, with this reply.
    Refused(UpdateReply),
    /// It is made, and changes this, if it changes something; and this is the serial after it.
    Made { change: Option<Change>, serial: u32 },
}

/// The records that a change adds.
fn added(change: &Option<Change>) -> &[Record]
    ensures { result.now ≡ added_by (option_map change_in change.now) }
{
    match change {
        Some(change) => &change.added,
        None => &[],
    }
}

/// The records that a change removes.
fn removed(change: &Option<Change>) -> &[Record]
    ensures { result.now ≡ removed_by (option_map change_in change.now) }
{
    match change {
        Some(change) => &change.removed,
        None => &[],
    }
}

/// Appends the reply, as the office answers it over HTTP. The only error is out of memory.
fn push_reply(text: &mut Vec<u8>, reply: UpdateReply) -> Result<(), AllocError>
    ensures { OnOk result (text.new.items ≡ text.old.items ++ reply_piece reply) }
{
    text.extend_from_slice(r#""reply":"#.as_bytes())?;
    reply_text(&Reply::Update(reply), text)
}

/// Appends the members up to the reply, with those of the items. The only error is out of memory.
fn push_change(
    text: &mut Vec<u8>,
    line: &mut String,
    items: &[u8],
    change: &Option<Change>,
) -> Result<(), AllocError>
    ensures { OnOk result (text.new.items ≡ text.old.items ++ change_members items.now (option_map change_in change.now)) }
{
    push_section(text, line, r#"{"added":"#, added(change))?;
    text.push(b',')?;
    text.extend_from_slice(items)?;
    push_section(text, line, r#""removed":"#, removed(change))?;
    text.push(b',')?;
    Ok(())
}

/// Appends the object of an update that is refused, and a line end. The only error is out of memory.
fn push_refused(text: &mut Vec<u8>, items: &[u8], reply: UpdateReply) -> Result<(), AllocError>
    ensures { OnOk result (text.new.items ≡ text.old.items ++ 123 ∷ (items.now ++ (reply_piece reply ++ codes "}\n"))) }
{
    text.push(b'{')?;
    text.extend_from_slice(items)?;
    push_reply(text, reply)?;
    text.extend_from_slice(b"}\n")
}

/// Appends the object of an update that is made, and a line end. The only error is out of memory.
fn push_made(
    alloc: Global,
    text: &mut Vec<u8>,
    items: &[u8],
    change: &Option<Change>,
    serial: u32,
) -> Result<(), AllocError>
    ensures { OnOk result
        (text.new.items
        ≡ text.old.items ++ (change_members items.now (option_map change_in change.now)
        ++ (reply_piece UpdateReply.NoError ++ (codes ",\"serial\":" ++ (decimal serial ++ codes "}\n"))))) }
{
    let mut line = String::new(alloc);
    push_change(text, &mut line, items, change)?;
    push_reply(text, UpdateReply::NoError)?;
    push_number(text, &mut line, r#","serial":"#, u64::from(serial))?;
    text.extend_from_slice(b"}\n")?;
    Ok(())
}

/// Appends the object of what becomes of an update, and a line end. The only error is out of memory.
pub(crate) fn push_outcome(
    alloc: Global,
    text: &mut Vec<u8>,
    items: &[u8],
    outcome: Outcome,
) -> Result<(), AllocError>
    ensures { OnOk result (text.new.items ≡ text.old.items ++ outcome_text items.now (outcome_in outcome)) }
{
    match outcome {
        Outcome::Refused(reply) => push_refused(text, items, reply),
        Outcome::Made { change, serial } => push_made(alloc, text, items, &change, serial),
    }
}
