//! The items of a text with their places.

ghost use Rattle.std.specs.Prelude.{◌≡◌, ◌+◌, ◌-◌, ◌<◌, ◌≤◌, ◌^◌, List, All, length, map, Ok, IfOk, IfErr};
ghost use Rattle.dns_master.specs.Faults.{Gives};
ghost use Rattle.dns_master.specs.Lines.{Marks};
ghost use Rattle.dns_master.specs.Reader.{found, GivesAt};
ghost use Rattle.dns_master.specs.Refusals.{HasFault};
ghost use Rattle.dns_master.specs.Spans.{IsSlice, AreInOrder};
ghost use Rattle.dns_master.specs.Tokens.{TokenText, AreTokens, token_at, token_of, placed_tokens, tokens_of};

use crate::line::{Mark, line_at};
use crate::master_fault::MasterFault;
use crate::reader::Position;
use crate::shape::ShapeFault;
use dns_data::Item;
use std::alloc::Global;

/// An item of a master file, with its place.
#[derive(Clone, Copy)]
pub struct Token<'a> {
    pub item: Item<'a>,
    /// How many octets stand before the first of the item's own, which is no quote around it.
    pub start: usize,
    /// The line of that octet. Lines count from 1.
    pub line: usize,
    /// The number of its entry. Entries count from 0, without those that are blank.
    pub entry: usize,
}

/// The token of an item that ends before a place.
fn token_before<'a>(
    text: &'a [u8],
    item: Item<'a>,
    after: Position<'a>,
    mark: Mark,
    entry: usize,
) -> Token<'a>
    requires marks { Marks text.now mark }
    requires within { length item.raw.now + length after.rest.now < 2 ^ 64 - 1 }
    ensures exact { token_of result ≡ token_at text.entry.now entry (found item.entry after.entry) }
    ensures within { result.start ≤ length text.entry.now }
{
    let start = text.len().saturating_sub(after.left_from(item));
    let line = line_at(text, mark, start);
    Token {
        item,
        start,
        line,
        entry,
    }
}

/// The items of a text in order, or the first fault of its parentheses and quotes, with the octets that are left there.
fn placed_tokens<'a>(alloc: Global, text: &'a [u8]) -> Result<Vec<Token<'a>>, ShapeFault>
    ensures { GivesAt (λ v. map token_of v.items) result (placed_tokens text.now) }
{
    let mut tokens = Vec::new(alloc);
    let mut place = Position::new(text, 0, 0);
    let mut mark = Mark { at: 0, line: 1 };
    let mut entry: usize = 0;
    let mut filled = false;
    'reading: loop {
        let Some(item) = place.next_item()? else {
            if place.rest.is_empty() {
                return Ok(tokens);
            }
            if filled {
                entry += 1;
                filled = false;
            }
            continue;
        };
        let token = token_before(text, item, place, mark, entry);
        mark = Mark {
            at: token.start,
            line: token.line,
        };
        tokens.push(token)?;
        filled = true;
    }
}

/// Tells the items of a master file apart (RFC 1035 section 5.1), in their order, each with its place, its line and the
/// number of its entry.
///
/// Of several faults the first from the left is answered, with its line: `ParenClose` at a closing parenthesis without an
/// open one; at the text's end `QuoteOpen` inside quotes, else `ParenOpen` inside parentheses. `NoMemory` comes at the
/// growth that was refused.
pub fn tokens<'a>(alloc: Global, text: &'a [u8]) -> Result<Vec<Token<'a>>, MasterFault>
    // What is answered are the tokens of the pieces of the text.
    ensures found { IfOk result (λ v. AreTokens text.now (map token_of v.items)) }
    // A text without a fault is told apart, unless memory runs out.
    ensures only { (tokens : List TokenText) → AreTokens text.now tokens → Gives (λ v. map token_of v.items) result (Ok tokens) }
    // Each item is the slice of the text at its place, with its quotes.
    ensures slices { IfOk result (λ v. All (IsSlice text.now) (map token_of v.items)) }
    // None begins before the end of the one before.
    ensures order { IfOk result (λ v. AreInOrder 0 (map token_of v.items)) }
    // A refusal is a fault of the text.
    ensures refused { IfErr result (HasFault text.now) }
    // Which refusal it is.
    ensures exact { Gives (λ v. map token_of v.items) result (tokens_of text.now) }
{
    match placed_tokens(alloc, text) {
        Ok(tokens) => Ok(tokens),
        Err(fault) => Err(fault.on_line(text)),
    }
}
