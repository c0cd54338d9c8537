//! How far an item, a quoted item or a comment goes.

ghost use Rattle.std.specs.Prelude.{◌≡◌, ◌∷◌, [], ◌+◌, ◌≤◌, length, false, drop, MatchOption};
ghost use Rattle.dns_master.specs.Pieces.{scan, ends_item, is_quote, line_len, is_special, Stopped};

/// Whether an octet does not stand for itself in an unquoted item (RFC 1035 section 5.1): at its number, true for tab, line
/// feed and return (9, 10, 13), space, `"`, `(`, `)` and `;` (32, 34, 40, 41, 59), which end the item, and for the backslash
/// (92), which takes the next octet. A table takes a third off the time of a `match`.
static SPECIAL: [bool; 256] = [
    false, false, false, false, false, false, false, false, false, true, true, false, false, true,
    false, false, false, false, false, false, false, false, false, false, false, false, false,
    false, false, false, false, false, true, false, true, false, false, false, false, false, true,
    true, false, false, false, false, false, false, false, false, false, false, false, false,
    false, false, false, false, false, true, false, false, false, false, false, false, false,
    false, false, false, false, false, false, false, false, false, false, false, false, false,
    false, false, false, false, false, false, false, false, false, false, false, false, true,
    false, false, false, false, false, false, false, false, false, false, false, false, false,
    false, false, false, false, false, false, false, false, false, false, false, false, false,
    false, false, false, false, false, false, false, false, false, false, false, false, false,
    false, false, false, false, false, false, false, false, false, false, false, false, false,
    false, false, false, false, false, false, false, false, false, false, false, false, false,
    false, false, false, false, false, false, false, false, false, false, false, false, false,
    false, false, false, false, false, false, false, false, false, false, false, false, false,
    false, false, false, false, false, false, false, false, false, false, false, false, false,
    false, false, false, false, false, false, false, false, false, false, false, false, false,
    false, false, false, false, false, false, false, false, false, false, false, false, false,
    false, false, false, false, false, false, false, false, false, false, false, false, false,
    false, false, false, false, false, false, false, false, false, false, false, false, false,
    false, false, false, false, false, false, false,
];

/// Whether an octet does not stand for itself in an unquoted item.
#[inline(always)]
fn is_special(octet: u8) -> bool
    ensures { result ≡ is_special octet }
{
    SPECIAL[octet as usize]
}

/// The number of octets at the front that stand for themselves in an unquoted item.
fn plain_len(text: &[u8]) -> usize
    ensures within { result ≤ length text.now }
    ensures passed { result + scan ends_item false (drop result text.now) ≡ scan ends_item false text.now }
    ensures stopped { Stopped (drop result text.now) }
{
    for (i, octet) in text.iter().enumerate() {
        if is_special(*octet) {
            return i;
        }
    }
    text.len()
}

/// The number of octets up to the first that ends an unquoted item. A backslash takes the octet after it.
pub(crate) fn run_len(text: &[u8]) -> usize
    ensures { result ≡ scan ends_item false text.now }
{
    let (_, mut rest) = text.split_at(plain_len(text));
    while let Some((octet, after)) = first_octet(rest) {
        if octet != b'\\' {
            break;
        }
        let further = match first_octet(after) {
            None => after,
            Some((_, further)) => further,
        };
        rest = further.split_at(plain_len(further)).1;
    }
    text.len() - rest.len()
}

/// The number of octets up to the first quote. A backslash takes the octet after it.
pub(crate) fn body_len(text: &[u8]) -> usize
    ensures { result ≡ scan is_quote false text.now }
{
    let mut rest = text;
    while let Some((octet, after)) = first_octet(rest) {
        rest = match octet {
            b'"' => break,
            b'\\' => match first_octet(after) {
                None => after,
                Some((_, further)) => further,
            },
            _ => after,
        };
    }
    text.len() - rest.len()
}

/// The octets from the line's end on.
pub(crate) fn at_line_end(text: &[u8]) -> &[u8]
    ensures { result.now ≡ drop (line_len text.now) text.now }
{
    let mut rest = text;
    while let [octet, after @ ..] = rest {
        if *octet == b'\n' {
            break;
        }
        rest = after;
    }
    rest
}

/// The first octet, and the octets after it.
#[inline(always)]
pub(crate) fn first_octet(text: &[u8]) -> Option<(u8, &[u8])>
    ensures { MatchOption result (text.now ≡ []) (λ x. text.now ≡ x.0 ∷ x.1.now) }
{
    match text {
        [] => None,
        [octet, after @ ..] => Some((*octet, after)),
    }
}
