//! The texts of IPv6 addresses, for which no memory is taken.

ghost use Rattle.std.specs.Prelude.{◌≡◌, ◌≤◌, ◌<◌, ◌+◌, ◌*◌, ◌∷◌, [], ◌++◌, length, take, drop};
ghost use Rattle.std.specs.Char.{digit_char};
ghost use Rattle.std.specs.Net.Addr.{ipv6_segments};
ghost use Rattle.std.specs.Net.Text.{hex, leading_zero_digits, groups_text, longest_zero_run, hex_groups_text};
ghost use Rattle.arrayvec.specs.ArrayVec.{array_vec_len};

use arrayvec::ArrayVec;
use std::net::Ipv6Addr;

/// Appends octets for which there is room.
fn push_octets<const N: usize>(text: &mut ArrayVec<u8, N>, octets: &[u8])
    requires { array_vec_len text.old + length octets.now ≤ N }
    ensures { text.new.items ≡ text.old.items ++ octets.now }
{
    // it fails for want of room alone
    let _ = text.try_extend_from_slice(octets);
}

/// A hexadecimal digit, in lower case.
fn hex_char(digit: u16) -> u8
    requires { digit < 16 }
    ensures { result ≡ digit_char digit }
{
    if digit < 10 {
        b'0' + digit as u8
    } else {
        b'a' + (digit - 10) as u8
    }
}

/// How many of the four hexadecimal digits of a segment are zeros in front, the last digit apart.
fn leading_zero_digits(segment: u16) -> usize
    ensures value { result ≡ leading_zero_digits segment }
    ensures within { result < 4 }
{
    match segment {
        0x1000.. => 0,
        0x100.. => 1,
        0x10.. => 2,
        _ => 3,
    }
}

/// Appends a segment: at most four hexadecimal digits, in lower case and with no zeros in front.
#[tactic(auto, unfolding(std::specs::Net::Text::hex))]
fn push_hex(text: &mut ArrayVec<u8, 48>, segment: u16)
    requires { array_vec_len text.old + 4 ≤ 48 }
    ensures items { text.new.items ≡ text.old.items ++ hex segment }
    ensures len { array_vec_len text.new ≤ array_vec_len text.old + 4 }
{
    let digits = [
        hex_char(segment / 0x1000),
        hex_char(segment / 0x100 % 16),
        hex_char(segment / 0x10 % 16),
        hex_char(segment % 16),
    ];
    let (_, shown) = digits.split_at(leading_zero_digits(segment));
    push_octets(text, shown);
}

/// The text of a segment.
pub(crate) fn group_text(segment: u16) -> ArrayVec<u8, 48>
    ensures { result.items ≡ hex segment }
{
    let mut text = ArrayVec::new();
    push_hex(&mut text, segment);
    text
}

/// The text of a segment with a colon after it.
pub(crate) fn ended_group_text(segment: u16) -> ArrayVec<u8, 48>
    ensures { result.items ≡ hex segment ++ 58 ∷ [] }
{
    let mut text = ArrayVec::new();
    push_hex(&mut text, segment);
    text.push(b':');
    text
}

/// Appends segments with colons between them.
fn push_groups(text: &mut ArrayVec<u8, 48>, segments: &[u16])
    requires { array_vec_len text.old + 5 * length segments.now ≤ 48 }
    ensures items { text.new.items ≡ text.old.items ++ groups_text segments.now }
    ensures len { array_vec_len text.new ≤ array_vec_len text.old + 5 * length segments.now }
{
    let [first, others @ ..] = segments else {
        return;
    };
    push_hex(text, *first);
    for segment in others {
        text.push(b':');
        push_hex(text, *segment);
    }
}

/// Where the longest run of zeros starts and how many they are, of two such runs the first.
pub(crate) fn longest_zero_run(segments: &[u16]) -> (usize, usize)
    ensures value { result ≡ longest_zero_run segments.now }
    ensures within { result.0 + result.1 ≤ length segments.now }
{
    let mut start = segments.len();
    let mut len = 0;
    let mut run = 0;
    for at in (0..segments.len()).rev() {
        run = if segments[at] == 0 { run + 1 } else { 0 };
        if run >= len {
            start = at;
            len = run;
        }
    }
    (start, len)
}

/// The segments before a run and those after it.
pub(crate) fn around(segments: &[u16], start: usize, len: usize) -> (&[u16], &[u16])
    requires { start + len ≤ length segments.now }
    ensures before { result.0.now ≡ take start segments.now }
    ensures behind { result.1.now ≡ drop (start + len) segments.now }
{
    let (before, rest) = segments.split_at(start);
    let (_, behind) = rest.split_at(len);
    (before, behind)
}

/// The text of an IPv6 address as RFC 5952 section 4 has it, with no dotted tail.
#[tactic(auto, unfolding(std::specs::Net::Text::hex_groups_text))]
pub(crate) fn ipv6_text(address: Ipv6Addr) -> ArrayVec<u8, 48>
    ensures { result.items ≡ hex_groups_text (ipv6_segments address) }
{
    let segments = address.segments();
    let (start, len) = longest_zero_run(&segments);
    let mut text = ArrayVec::new();
    if len < 2 {
        push_groups(&mut text, &segments);
        return text;
    }
    let (before, behind) = around(&segments, start, len);
    push_groups(&mut text, before);
    text.push(b':');
    text.push(b':');
    push_groups(&mut text, behind);
    text
}
