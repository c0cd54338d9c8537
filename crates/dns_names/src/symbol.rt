//! The symbols of which the text of a name is made.

ghost use Rattle.std.specs.Prelude.{◌≡◌, ◌<◌, length, true};
ghost use Rattle.std.specs.Char.{is_ascii_digit};
ghost use Rattle.dns_names.specs.Faults.{Reads};
ghost use Rattle.dns_names.specs.Reading.{symbol_at, escaped, numbered};

use crate::name_fault::NameFault;

/// What stands in the text of a name (RFC 1035 section 5.1).
#[derive(Clone, Copy, PartialEq, Eq)]
pub enum Symbol {
    /// A dot without a backslash before it, which ends a label.
    Dot,
    /// An octet of a label, by itself or escaped.
    Octet(u8),
}

/// The octet whose number three digits write, where the first is known to be a digit.
fn octet_numbered(a: u8, b: u8, c: u8) -> Result<u8, NameFault>
    requires { is_ascii_digit a ≡ true }
    ensures { Reads (λ octet. octet) result (numbered a b c) }
{
    if !b.is_ascii_digit() || !c.is_ascii_digit() {
        return Err(NameFault::BadEscape);
    }
    let number = 100 * u32::from(a - b'0') + 10 * u32::from(b - b'0') + u32::from(c - b'0');
    if number > 255 {
        return Err(NameFault::BadEscape);
    }
    Ok(number as u8)
}

/// The octet that an escape stands for and the text after it, of a text that begins after the backslash.
fn after_backslash(text: &[u8]) -> Result<(Symbol, &[u8]), NameFault>
    ensures { Reads (λ x. (x.0, x.1.now)) result (escaped text.now) }
{
    match text {
        [] => Err(NameFault::BadEscape),
        [octet, rest @ ..] if !octet.is_ascii_digit() => Ok((Symbol::Octet(*octet), rest)),
        [a, b, c, rest @ ..] => {
            let octet = octet_numbered(*a, *b, *c)?;
            Ok((Symbol::Octet(octet), rest))
        }
        [_, ..] => Err(NameFault::BadEscape),
    }
}

/// The first symbol of a text that is not empty, and the text after it. The only error is `BadEscape`, where a backslash
/// begins no escape.
pub fn first_symbol(text: &[u8]) -> Result<(Symbol, &[u8]), NameFault>
    requires { 0 < length text.now }
    ensures { Reads (λ x. (x.0, x.1.now)) result (symbol_at text.now) }
{
    match text {
        [] => Err(NameFault::Empty),
        [b'.', rest @ ..] => Ok((Symbol::Dot, rest)),
        [b'\\', rest @ ..] => after_backslash(rest),
        [octet, rest @ ..] => Ok((Symbol::Octet(*octet), rest)),
    }
}
