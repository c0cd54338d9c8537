//! The zones of a list with their files.

ghost use Rattle.std.specs.Prelude.{◌≡◌, ◌++◌, ◌∷◌, [], IfOk, OnOk, map, option_map};
ghost use Rattle.cli_core.specs.LineFaults.{Gives};
ghost use Rattle.cli_core.specs.declared.refusal.Refusal.TheVariants as refusal;
ghost use Rattle.cli_core.specs.declared.word_fault.WordFault.TheVariants as word;
ghost use Rattle.cli_store.specs.ZoneFiles.{zone_file_view, words_on, text_on, zone_file, zone_of_words, zone_on, zones_from, zone_files_of};

use cli_core::{LineFault, Refusal, WordFault};
use cli_text::name_on;
use dns_names::Name;
use policy_tools::{is_blank, is_comment, lines_of};
use std::alloc::{AllocError, Global};

/// A zone of a list.
#[derive(Drop)]
pub(crate) struct ZoneFile<'a> {
    /// Its origin, as it is written.
    pub(crate) word: &'a str,
    /// Its origin.
    pub(crate) origin: Name,
    /// The path of its file.
    pub(crate) path: &'a str,
}

/// The words of a line: the parts between its blanks that are not empty. The only error is out of memory.
fn words_on(alloc: Global, line: &[u8]) -> Result<Vec<&[u8]>, AllocError>
    ensures { IfOk result (λ words. map (λ w. w.now) words.items ≡ words_on line.now) }
{
    line.split(|octet| is_blank(*octet))
        .filter(|part| !part.is_empty())
        .collect(alloc)
}

/// The refusal of a line that is not an origin and a path.
fn refused(line: usize) -> LineFault
    ensures { result ≡ LineFault.Refused (refusal.Line line word.ZoneFile) }
{
    let fault = WordFault::ZoneFile;
    LineFault::Refused(Refusal::Line { line, fault })
}

/// A word that is a text in UTF-8.
fn text_on(line: usize, word: &[u8]) -> Result<&str, LineFault>
    ensures { Gives (λ text. text.now) result (text_on line word.now) }
{
    match str::from_utf8(word) {
        Ok(text) => Ok(text),
        Err(_) => Err(refused(line)),
    }
}

/// The zone of a word that is its origin and a word that is the path of its file.
fn zone_file<'a>(
    alloc: Global,
    line: usize,
    origin: &'a [u8],
    path: &'a [u8],
) -> Result<ZoneFile<'a>, LineFault>
    ensures { Gives zone_file_view result (zone_file line origin.entry.now path.entry.now) }
{
    let word = text_on(line, origin)?;
    let path = text_on(line, path)?;
    let origin = name_on(alloc, line, word.as_bytes())?;
    Ok(ZoneFile { word, origin, path })
}

/// The zone of the words of a line.
fn zone_of_words<'a>(
    alloc: Global,
    line: usize,
    words: &[&'a [u8]],
) -> Result<ZoneFile<'a>, LineFault>
    ensures { Gives zone_file_view result (zone_of_words line (map (λ w. w.now) words.now)) }
{
    match words {
        [origin, path] => zone_file(alloc, line, origin, path),
        _ => Err(refused(line)),
    }
}

/// The zone on a line of these words, if it has one.
fn zone_on<'a>(
    alloc: Global,
    line: usize,
    words: &[&'a [u8]],
) -> Result<Option<ZoneFile<'a>>, LineFault>
    ensures { Gives (option_map zone_file_view) result (zone_on line (map (λ w. w.now) words.now)) }
{
    match words {
        [] => Ok(None),
        [first, ..] => {
            if is_comment(first) {
                return Ok(None);
            }
            Ok(Some(zone_of_words(alloc, line, words)?))
        }
    }
}

/// The zone on a line, if it has one.
fn zone_on_line(alloc: Global, line: usize, text: &[u8]) -> Result<Option<ZoneFile<'_>>, LineFault>
    ensures { Gives (option_map zone_file_view) result (zone_on line (words_on text.now)) }
{
    let words = words_on(alloc, text)?;
    zone_on(alloc, line, &words)
}

/// Appends a zone. The only error is out of memory.
fn push_zone<'a>(zones: &mut Vec<ZoneFile<'a>>, zone: ZoneFile<'a>) -> Result<(), AllocError>
    ensures { OnOk result (zones.new.items ≡ zones.old.items ++ zone.entry ∷ []) }
{
    zones.push(zone)?;
    Ok(())
}

/// The zones of lines, or the refusal of the first that is no such line.
fn zones_among<'a>(alloc: Global, lines: &[&'a [u8]]) -> Result<Vec<ZoneFile<'a>>, LineFault>
    ensures { Gives (λ zones. map zone_file_view zones.items) result (zones_from 1 (map (λ line. line.now) lines.now)) }
{
    let mut zones = Vec::new(alloc);
    for (i, line) in lines.iter().enumerate() {
        if let Some(zone) = zone_on_line(alloc, i + 1, line)? {
            push_zone(&mut zones, zone)?;
        }
    }
    Ok(zones)
}

/// The zones of a text: on each line the origin of one, an absolute name, and the path of its file, with blanks between them. A line
/// without words, and one that begins with `#` or `;`, is passed over; any other is refused.
pub(crate) fn zone_files_in(alloc: Global, text: &[u8]) -> Result<Vec<ZoneFile<'_>>, LineFault>
    ensures { Gives (λ zones. map zone_file_view zones.items) result (zone_files_of text.now) }
{
    let lines = lines_of(alloc, text)?;
    zones_among(alloc, &lines)
}
