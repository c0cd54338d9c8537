//! Numbers in decimal digits, however many.

ghost use Rattle.std.specs.Prelude.{◌≡◌, ◌≤◌, ◌==◌, true, length};
ghost use Rattle.std.specs.List.{list_all};
ghost use Rattle.std.specs.Str.Parse.{digits_value};
ghost use Rattle.dns_data.specs.Numbers.{is_number};
ghost use Rattle.office_wire.specs.Fields.{number_up_to, number_of};

use dns_data::is_number;

/// Whether there are only zeros.
fn are_zeros(text: &[u8]) -> bool
    ensures { result ≡ list_all (λ digit. digit == 48) text.now }
{
    text.iter().all(|digit| *digit == b'0')
}

/// The number of digits, where it is at most so large.
#[tactic(auto, using(crate::proofs::DigitLemmas::digits_grow))]
pub(crate) fn number_up_to(most: u32, digits: &[u8]) -> Option<u32>
    requires { is_number digits.now ≡ true }
    ensures value { result ≡ number_up_to most digits.now }
{
    let mut number: u64 = 0;
    for digit in digits {
        if number > most as u64 {
            return None;
        }
        number = number * 10 + (*digit - b'0') as u64;
    }
    if number > most as u64 {
        return None;
    }
    Some(number as u32)
}

/// The number that a text is, where it is at most so large.
pub(crate) fn number_of(most: u32, text: &[u8]) -> Option<u32>
    ensures { result ≡ number_of most text.now }
{
    if !is_number(text) {
        return None;
    }
    number_up_to(most, text)
}

/// Whether two rows of digits, of which the second is no shorter, are one number: the second has only zeros before the first.
fn is_padded(short: &[u8], long: &[u8]) -> bool
    requires short { is_number short.now ≡ true }
    requires long { is_number long.now ≡ true }
    requires order { length short.now ≤ length long.now }
    ensures { result ≡ (digits_value 10 long.now == digits_value 10 short.now) }
{
    let extra = long.len() - short.len();
    are_zeros(&long[..extra]) && &long[extra..] == short
}

/// Whether two numbers in digits are one.
pub(crate) fn is_same_number(a: &[u8], b: &[u8]) -> bool
    requires a { is_number a.now ≡ true }
    requires b { is_number b.now ≡ true }
    ensures { result ≡ (digits_value 10 a.now == digits_value 10 b.now) }
{
    if a.len() < b.len() {
        return is_padded(a, b);
    }
    is_padded(b, a)
}
