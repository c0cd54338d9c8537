//! A reader that goes from item to item.

ghost use Rattle.std.specs.Prelude.{◌≡◌, ◌∷◌, [], ◌+◌, ◌-◌, ◌<◌, ◌≤◌, ℕ, length, take, drop, false, ◌^◌, IfOk, MatchResult};
ghost use Rattle.dns_data.specs.Items.{item_of, plain, in_quotes};
ghost use Rattle.dns_master.specs.declared.shape.ShapeFault.TheVariants.{QuoteOpen};
ghost use Rattle.dns_master.specs.Pieces.{scan, ends_item, is_quote};
ghost use Rattle.dns_master.specs.Reader.{found, NextItem, Shrinks};

use crate::scan::{at_line_end, body_len, first_octet, run_len};
use crate::shape::ShapeFault;
use dns_data::Item;

/// A place in a text: what is left of it, and the parentheses that are open there.
#[derive(Clone, Copy)]
pub(crate) struct Position<'a> {
    pub rest: &'a [u8],
    pub depth: usize,
    /// How many octets are left from the outermost open parenthesis on.
    pub outermost: usize,
}

impl<'a> Position<'a> {
    /// The place from which this is left, at this depth of parentheses.
    #[inline(always)]
    pub(crate) fn new(rest: &'a [u8], depth: usize, outermost: usize) -> Position<'a>
        ensures rest { result.rest.now ≡ rest.entry.now }
        ensures depth { result.depth ≡ depth }
        ensures outermost { result.outermost ≡ outermost }
    {
        Position {
            rest,
            depth,
            outermost,
        }
    }

    /// How many octets are left from an item on that ends here, from the first of its own, which is no quote around it.
    pub(crate) fn left_from(self, item: Item) -> usize
        requires { length item.raw.now + length self.rest.now < 2 ^ 64 - 1 }
        ensures { result ≡ (found item.entry self.entry).left }
    {
        let closing = if item.quoted { 1 } else { 0 };
        item.raw.len() + closing + self.rest.len()
    }
}

/// The item of a text after its opening quote, and the text after the closing one, or the quote that stays open.
#[inline]
fn quoted_item(text: &[u8]) -> Result<(Item<'_>, &[u8]), ShapeFault>
    requires { length text.now < 2 ^ 64 - 1 }
    ensures item { MatchResult result
        (λ x. (item_of x.0 ≡ in_quotes (take (scan is_quote false text.now) text.now))
        × ((quote : ℕ) × (drop (scan is_quote false text.now) text.now ≡ quote ∷ x.1.now)))
        (λ fault. (fault ≡ QuoteOpen (length text.now + 1)) × (drop (scan is_quote false text.now) text.now ≡ [])) }
    ensures shorter { IfOk result (λ x. length x.0.raw.now + length x.1.now < length text.now) }
{
    let (raw, end) = text.split_at(body_len(text));
    match first_octet(end) {
        Some((_, rest)) => Ok((Item { raw, quoted: true }, rest)),
        None => Err(ShapeFault::QuoteOpen(text.len() + 1)),
    }
}

/// The unquoted item at the front of a text, and the text after it.
#[inline]
fn plain_item(text: &[u8]) -> (Item<'_>, &[u8])
    ensures item { item_of result.0 ≡ plain (take (scan ends_item false text.now) text.now) }
    ensures rest { result.1.now ≡ drop (scan ends_item false text.now) text.now }
{
    let (raw, rest) = text.split_at(run_len(text));
    (Item { raw, quoted: false }, rest)
}

impl<'a> Position<'a> {
    /// Goes on after the next item of the entry, or after the entry's end, where it answers `None`.
    pub(crate) fn next_item(&mut self) -> Result<Option<Item<'a>>, ShapeFault>
        requires { self.old.depth + length self.old.rest.now < 2 ^ 64 }
        ensures exact { NextItem self.old self.new result }
        ensures shrinks { Shrinks self.old self.new result }
    {
        let mut rest = self.rest;
        let mut depth = self.depth;
        let mut outermost = self.outermost;
        while let Some((octet, after)) = first_octet(rest) {
            match octet {
                b'\n' if depth == 0 => {
                    *self = Position::new(after, depth, outermost);
                    return Ok(None);
                }
                b'\n' | b' ' | b'\t' | b'\r' => rest = after,
                b';' => rest = at_line_end(after),
                b'(' if depth == 0 => {
                    outermost = rest.len();
                    depth = 1;
                    rest = after;
                }
                b'(' => {
                    depth += 1;
                    rest = after;
                }
                b')' if depth == 0 => return Err(ShapeFault::ParenClose(rest.len())),
                b')' => {
                    depth -= 1;
                    rest = after;
                }
                b'"' => {
                    let (item, behind) = quoted_item(after)?;
                    *self = Position::new(behind, depth, outermost);
                    return Ok(Some(item));
                }
                _ => {
                    let (item, behind) = plain_item(rest);
                    *self = Position::new(behind, depth, outermost);
                    return Ok(Some(item));
                }
            }
        }
        if depth > 0 {
            return Err(ShapeFault::ParenOpen(outermost));
        }
        *self = Position::new(rest, depth, outermost);
        Ok(None)
    }
}
