//! The entries of a text, one at a time.

ghost use Rattle.std.specs.Prelude.{◌≡◌, ◌+◌, ◌<◌, ◌≤◌, length};
ghost use Rattle.dns_master.specs.Reader.{ReadsEntry, Checks, ShorterRest};

use crate::reader::Position;
use crate::shape::ShapeFault;
use dns_data::Item;

/// Where an entry ends, and where it began.
#[derive(Clone, Copy)]
pub(crate) struct EntryEnd<'a> {
    /// The text after the entry.
    pub rest: &'a [u8],
    /// How many octets are left from its first item on, and 0 where it is blank.
    pub left: usize,
}

/// The items of the first entry of a text, none where it is blank, and where it ends.
pub(crate) fn read_entry<'a>(
    text: &'a [u8],
    items: &mut Vec<Item<'a>>,
) -> Result<EntryEnd<'a>, ShapeFault>
    ensures exact { ReadsEntry text.now items.new.items result }
    ensures shorter { ShorterRest text.now result }
{
    items.clear();
    let mut left = 0;
    let mut place = Position::new(text, 0, 0);
    while let Some(item) = place.next_item()? {
        if items.is_empty() {
            left = place.left_from(item);
        }
        items.push(item)?;
    }
    let rest = place.rest;
    Ok(EntryEnd { rest, left })
}

/// Goes on to the text's end, to look for a fault of parentheses and quotes.
pub(crate) fn check_rest<'a>(text: &'a [u8], items: &mut Vec<Item<'a>>) -> Result<(), ShapeFault>
    ensures { Checks text.now result }
{
    let mut rest = text;
    while !rest.is_empty() {
        rest = read_entry(rest, items)?.rest;
    }
    Ok(())
}
