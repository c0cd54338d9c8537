//! The type that a word asks for.

ghost use Rattle.std.specs.Prelude.{◌≡◌, ◌≤◌, option_map};
ghost use Rattle.cli_text.specs.Questions.{digit_step, number_read, numbered_type, behind_type, type_by_number, other_type, query_type_of};

use dns_data::{RecordType, is_number};
use zone_answers::QueryType;

/// A number with one more digit, and at most 65,536.
fn digit_step(number: u64, digit: u8) -> u64
    requires { number ≤ 65536 }
    ensures next { result ≡ digit_step number digit }
    ensures within { result ≤ 65536 }
{
    let next = number * 10 + u64::from(digit.saturating_sub(48));
    next.min(65_536)
}

/// The number that digits are, and 65,536 where it has more than 16 bits.
fn number_read(digits: &[u8]) -> u64
    ensures { result ≡ number_read digits.now }
{
    let mut number = 0;
    for digit in digits {
        number = digit_step(number, *digit);
    }
    number
}

/// The kept type of a number.
fn numbered_type(number: u64) -> Option<RecordType>
    ensures { result ≡ numbered_type number }
{
    RecordType::ALL
        .iter()
        .copied()
        .find(|kept| u64::from(kept.number()) == number)
}

/// The type of a number of 16 bits (RFC 3597 section 5; 255 is that of `ANY`, RFC 1035 section 3.2.3).
fn type_by_number(number: u64) -> Option<QueryType>
    ensures { result ≡ type_by_number number }
{
    if number > 65_535 {
        return None;
    }
    match numbered_type(number) {
        Some(kept) => Some(QueryType::Kept(kept)),
        None if number == 255 => Some(QueryType::Any),
        None => Some(QueryType::Other),
    }
}

/// What is after `TYPE`, in capitals or not.
fn behind_type(word: &[u8]) -> Option<&[u8]>
    ensures { option_map (λ s. s.now) result ≡ behind_type word.now }
{
    let (head, rest) = word.split_at(word.len().min(4));
    if head == b"TYPE".as_slice() || head == b"type".as_slice() {
        Some(rest)
    } else {
        None
    }
}

/// The type that a word without a kept type's name asks for.
fn other_type(word: &[u8]) -> Option<QueryType>
    ensures { result ≡ other_type word.now }
{
    if word == b"ANY".as_slice() || word == b"any".as_slice() {
        return Some(QueryType::Any);
    }
    let digits = behind_type(word)?;
    if !is_number(digits) {
        return None;
    }
    type_by_number(number_read(digits))
}

/// The type that a word asks for: the name of a kept type in either letter case, `ANY` or `any`, or `TYPE` or `type` and a number of 16
/// bits (RFC 3597 section 5).
pub(crate) fn query_type_of(word: &[u8]) -> Option<QueryType>
    ensures { result ≡ query_type_of word.now }
{
    match RecordType::read(word) {
        Ok(kept) => Some(QueryType::Kept(kept)),
        Err(_) => other_type(word),
    }
}
