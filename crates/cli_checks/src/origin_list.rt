//! The zones of a list, by their origins.

ghost use Rattle.std.specs.Prelude.{◌≡◌, ◌++◌, ◌∷◌, [], ℕ, List, OnOk, map, option_map};
ghost use Rattle.cli_core.specs.LineFaults.{Gives};
ghost use Rattle.cli_checks.specs.OriginLists.{first_word, is_passed_over, origin_on, origins_from, origins_of};

use cli_core::LineFault;
use cli_text::name_on;
use dns_names::Name;
use policy_tools::{is_blank, is_comment, lines_of};
use std::alloc::{AllocError, Global};
use std::marker::Model;

/// The word of the line that `zones` prints of receipts of no zone.
const ELSEWHERE: &[u8] = b"elsewhere";

/// The origins of zones, in order. A contract sees the list of them.
#[derive(Drop)]
pub(crate) struct OriginList {
    origins: Vec<Name>,
}

impl Model for OriginList {
    ghost Value = { List (List (List ℕ)) };

    ghost view = { λ l. l.origins.items };
}

impl OriginList {
    /// The origins, in order.
    pub(crate) fn origins(&self) -> &[Name]
        ensures { result.now ≡ self.now }
    {
        &self.origins
    }
}

/// The first word of a line: the first part between its blanks that is not empty.
fn first_word(line: &[u8]) -> Option<&[u8]>
    ensures { option_map (λ word. word.now) result ≡ first_word line.now }
{
    line.split(|octet| is_blank(*octet))
        .find(|part| !part.is_empty())
}

/// Whether a word is no origin: it begins a comment, or is `elsewhere`.
fn is_passed_over(word: &[u8]) -> bool
    ensures { result ≡ is_passed_over word.now }
{
    is_comment(word) || word == ELSEWHERE
}

/// The origin of the line of this number whose first word is this, if it has one.
fn origin_on(alloc: Global, line: usize, word: Option<&[u8]>) -> Result<Option<Name>, LineFault>
    ensures { Gives (λ origin. origin) result (origin_on line (option_map (λ w. w.now) word.entry)) }
{
    let Some(word) = word else {
        return Ok(None);
    };
    if is_passed_over(word) {
        return Ok(None);
    }
    Ok(Some(name_on(alloc, line, word)?))
}

/// Appends an origin. The only error is out of memory.
pub(crate) fn push_origin(origins: &mut Vec<Name>, origin: Name) -> Result<(), AllocError>
    ensures { OnOk result (origins.new.items ≡ origins.old.items ++ origin ∷ []) }
{
    origins.push(origin)?;
    Ok(())
}

/// The origins of lines, or the refusal of the first word that is no absolute name.
fn origins_among(alloc: Global, lines: &[&[u8]]) -> Result<Vec<Name>, LineFault>
    ensures { Gives (λ origins. origins.items) result (origins_from 1 (map (λ line. line.now) lines.now)) }
{
    let mut origins = Vec::new(alloc);
    for (i, line) in lines.iter().enumerate() {
        if let Some(origin) = origin_on(alloc, i + 1, first_word(line))? {
            push_origin(&mut origins, origin)?;
        }
    }
    Ok(origins)
}

/// The origins of a text, whose octets are given back: that of each line is its first word, an absolute name, and what comes after it is
/// not read. A line without words, one that begins with `#` or `;`, and one whose first word is `elsewhere` are passed over.
pub(crate) fn origins_in(alloc: Global, text: Vec<u8>) -> Result<OriginList, LineFault>
    ensures { Gives (λ origins. origins) result (origins_of text.items) }
{
    let lines = lines_of(alloc, &text)?;
    let origins = origins_among(alloc, &lines)?;
    Ok(OriginList { origins })
}
