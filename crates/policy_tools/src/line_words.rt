//! Lines of words with blanks between them, and comments.

ghost use Rattle.std.specs.Prelude.{◌≡◌, map, IfOk};
ghost use Rattle.policy_tools.specs.ExpectationLines.{is_blank, lines_of};
ghost use Rattle.policy_tools.specs.ExpectationReading.{is_comment};

use std::alloc::{AllocError, Global};

/// Whether an octet is blank: a space, a tab or a carriage return.
pub fn is_blank(octet: u8) -> bool
    ensures { result ≡ is_blank octet }
{
    octet == b' ' || octet == b'\t' || octet == b'\r'
}

/// The lines of a text, without the line feeds between them. The only error is out of memory.
pub fn lines_of(alloc: Global, text: &[u8]) -> Result<Vec<&[u8]>, AllocError>
    ensures { IfOk result (λ lines. map (λ line. line.now) lines.items ≡ lines_of text.now) }
{
    text.split(|octet| *octet == b'\n').collect(alloc)
}

/// Whether a part of a line begins a comment: its first octet is `#` or `;`.
pub fn is_comment(part: &[u8]) -> bool
    ensures { result ≡ is_comment part.now }
{
    match part {
        [octet, ..] => *octet == b'#' || *octet == b';',
        [] => false,
    }
}
