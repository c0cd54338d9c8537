//! The lines of records of any types.

ghost use Rattle.std.specs.Prelude.{◌≡◌, ◌∷◌, ◌++◌, ◌&&◌, false, codes, decimal, string_bytes, map, IfOk, OnOk};
ghost use Rattle.std.specs.List.{flat_map};
ghost use Rattle.dns_names.specs.Spelling.{name_text};
ghost use Rattle.dns_data.specs.Items.{item_of, item_text};
ghost use Rattle.dns_master.specs.ZoneText.{ended_line};
ghost use Rattle.dns_master.specs.OtherTypes.{has_keys};
ghost use Rattle.dns_master.specs.Joined.{gap, is_key, flagged, flagged_text};
ghost use Rattle.dns_master.specs.PartViews.{line_with};

use crate::other_type::{ends_with_equals, has_keys};
use dns_data::{Item, Record};
use std::alloc::{AllocError, Global};

/// Puts an item after a text, as it stood in its own.
fn push_item(text: &mut Vec<u8>, item: Item) -> Result<(), AllocError>
    ensures { OnOk result (text.new.items ≡ text.old.items ++ item_text (item_of item.entry)) }
{
    if item.quoted {
        text.push(b'"')?;
        text.extend_from_slice(item.raw)?;
        text.push(b'"')?;
        return Ok(());
    }
    text.extend_from_slice(item.raw)
}

/// How the items of data stand apart: whether their type has keys, and whether a key stands before the next item.
#[derive(Clone, Copy)]
struct Spacing {
    has_keys: bool,
    after_key: bool,
}

impl Spacing {
    /// Before the first item of the data of a type.
    fn new(kind: &[u8]) -> Spacing
        ensures keys { result.has_keys ≡ has_keys kind.now }
        ensures first { result.after_key ≡ false }
    {
        Spacing {
            has_keys: has_keys(kind),
            after_key: false,
        }
    }

    /// After one more item, which is a key if it ends with `=`.
    fn after(self, item: Item) -> Spacing
        ensures keys { result.has_keys ≡ self.has_keys }
        ensures key { result.after_key ≡ is_key self.has_keys (item_of item.entry) }
    {
        Spacing {
            has_keys: self.has_keys,
            after_key: self.has_keys && !item.quoted && ends_with_equals(item.raw),
        }
    }

    /// Whether the next item stands directly after the one before: a value in quotes after its key.
    fn joins(self, item: Item) -> bool
        ensures { result ≡ (item.entry.quoted && self.after_key) }
    {
        item.quoted && self.after_key
    }
}

/// Puts an item after a text, with a space before it, unless it stands directly after the one before.
fn push_spaced(text: &mut Vec<u8>, spacing: Spacing, item: Item) -> Result<(), AllocError>
    ensures { OnOk result (text.new.items ≡ text.old.items ++ gap (item.entry.quoted && spacing.after_key) (item_text (item_of item.entry))) }
{
    if spacing.joins(item) {
        return push_item(text, item);
    }
    text.push(b' ')?;
    push_item(text, item)
}

/// Puts the items of the data of another type after a text, and a line end.
fn push_items(text: &mut Vec<u8>, kind: &[u8], items: &[Item]) -> Result<(), AllocError>
    ensures { OnOk result (text.new.items ≡ text.old.items ++ flagged_text (flagged (has_keys kind.now) false (map item_of items.now))) }
{
    let mut spacing = Spacing::new(kind);
    for item in items {
        push_spaced(text, spacing, *item)?;
        spacing = spacing.after(*item);
    }
    text.push(b'\n')?;
    Ok(())
}

/// The word for another type, and the items of the data.
#[derive(Clone, Copy)]
pub(crate) struct OtherData<'a> {
    pub kind: &'a [u8],
    pub fields: &'a [Item<'a>],
}

/// What stands before the type in the line of a record of another type. The only error is out of memory.
fn other_head(alloc: Global, rr: &Record) -> Result<String, AllocError>
    ensures { IfOk result (λ text. string_bytes text ≡ name_text rr.now.owner ++ 32 ∷ (decimal rr.now.ttl ++ codes " IN ")) }
{
    let seconds = rr.ttl.seconds();
    format!(in alloc; "{} {seconds} IN ", rr.owner)
}

/// Puts the line of a record of another type after a text.
pub(crate) fn push_other(
    alloc: Global,
    text: &mut Vec<u8>,
    rr: &Record,
    written: OtherData,
) -> Result<(), AllocError>
    ensures { OnOk result (text.new.items ≡ text.old.items ++ line_with rr.now written.entry.kind.now (map item_of written.entry.fields.now)) }
{
    let head = other_head(alloc, rr)?;
    text.extend_from_slice(head.as_bytes())?;
    text.extend_from_slice(written.kind)?;
    push_items(text, written.kind, written.fields)
}

/// Puts a record line after a text.
fn push_kept(alloc: Global, text: &mut Vec<u8>, rr: &Record) -> Result<(), AllocError>
    ensures { OnOk result (text.new.items ≡ text.old.items ++ ended_line rr.now) }
{
    let line = format!(in alloc; "{rr}\n")?;
    text.extend_from_slice(line.as_bytes())
}

/// Puts record lines after a text.
pub(crate) fn push_records(
    alloc: Global,
    text: &mut Vec<u8>,
    records: &[Record],
) -> Result<(), AllocError>
    ensures { OnOk result (text.new.items ≡ text.old.items ++ flat_map ended_line records.now) }
{
    for rr in records {
        push_kept(alloc, text, rr)?;
    }
    Ok(())
}
