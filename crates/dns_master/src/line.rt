//! Lines of a text, which count from 1.

ghost use Rattle.std.specs.Prelude.{◌≡◌, ◌≤◌, length};
ghost use Rattle.dns_master.specs.Lines.{line_ends, line_at, Marks};

use crate::scan::first_octet;

/// A place of a text, and its line.
#[derive(Clone, Copy)]
pub(crate) struct Mark {
    /// How many octets stand before it.
    pub at: usize,
    pub line: usize,
}

/// How many line ends a text has.
fn line_ends(text: &[u8]) -> usize
    ensures value { result ≡ line_ends text.now }
    ensures within { result ≤ length text.now }
{
    let mut rest = text;
    let mut count: usize = 0;
    while let Some((octet, after)) = first_octet(rest) {
        if octet == b'\n' {
            count += 1;
        }
        rest = after;
    }
    count
}

/// The line of a place, counted on from a place before it.
pub(crate) fn line_at(text: &[u8], mark: Mark, start: usize) -> usize
    requires marks { Marks text.now mark }
    requires within { start ≤ length text.now }
    ensures { result ≡ line_at text.now start }
{
    let (front, _) = text.split_at(start);
    if start < mark.at {
        return line_ends(front) + 1;
    }
    let (_, between) = front.split_at(mark.at);
    mark.line + line_ends(between)
}
