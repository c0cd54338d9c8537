//! An input of `apply` in its parts: a master file, the line `--`, and items.

ghost use Rattle.std.specs.Prelude.{◌≡◌, ◌+◌, length, IfSome, option_map};
ghost use Rattle.cli_text.specs.Parts.{is_divider, divided};
ghost use Rattle.cli_text.specs.PartViews.{parts_in, line_len};

use memchr::memchr;

/// The parts of an input, which stand in it one after the other.
#[derive(Clone, Copy)]
pub struct InputParts<'a> {
    /// The master file: what stands before the divider.
    pub file: &'a [u8],
    /// The divider, with its line end.
    pub divider: &'a [u8],
    /// The items: what stands after the divider.
    pub items: &'a [u8],
}

/// The length of the first line of a text, with its end.
fn line_len(text: &[u8]) -> usize
    ensures { result ≡ line_len text.now }
{
    match memchr(b'\n', text) {
        Some(end) => end + 1,
        None => text.len(),
    }
}

/// Whether a line is `--`, of which a carriage return before its end does not count. At the end of an input it has no line end.
fn is_divider(line: &[u8]) -> bool
    ensures { result ≡ is_divider line.now }
{
    line == b"--\n".as_slice()
        || line == b"--\r\n".as_slice()
        || line == b"--".as_slice()
        || line == b"--\r".as_slice()
}

/// The parts of an input, where it has a divider: its first line that is `--`, whatever quotes or parentheses stand open before.
pub fn divided(input: &[u8]) -> Option<InputParts<'_>>
    ensures exact { option_map parts_in result ≡ divided input.now }
    ensures whole { IfSome result (λ parts. length parts.file.now + length parts.divider.now + length parts.items.now ≡ length input.now) }
{
    let mut at = 0;
    while at < input.len() {
        let (file, rest) = input.split_at(at);
        let (divider, items) = rest.split_at(line_len(rest));
        if is_divider(divider) {
            return Some(InputParts {
                file,
                divider,
                items,
            });
        }
        at += divider.len();
    }
    None
}
