//! Numbers in record data.

ghost use Rattle.std.specs.Prelude.{◌≡◌, ◌≤◌, ℕ, Ok, IfOk, IfSome, IsSome, ◌↔◌, true, length, ◌==◌, if◌then◌else◌, Some, None, nat_le, min, ◌^◌, ◌-◌};
ghost use Rattle.std.specs.Option.{option_map};
ghost use Rattle.std.specs.List.{list_all};
ghost use Rattle.std.specs.Char.{is_ascii_digit};
ghost use Rattle.std.specs.Str.Parse.{digits_value};
ghost use Rattle.dns_data.specs.Numbers.{IsDuration, is_number, unit_seconds, groups_after, number_of, duration_of};

use crate::data_fault::DataFault;
use std::marker::Model;

/// The version of a zone, a number of 32 bits that wraps (RFC 1035 section 3.3.13, RFC 1982).
#[derive(Clone, Copy, PartialEq, Eq)]
pub struct Serial(pub u32);

/// A duration in seconds, 0 to 4,294,967,295 (RFC 1035 section 3.3.13).
#[derive(Clone, Copy, PartialEq, Eq)]
pub struct Seconds(pub u32);

/// How long a record may be cached, in seconds, 0 to 2,147,483,647 (RFC 2181 section 8).
#[derive(Clone, Copy, PartialEq, Eq)]
pub struct Ttl {
    seconds: u32,
}

impl Model for Ttl {
    ghost Value = { ℕ };

    ghost view = { λ t. t.seconds };

    ghost invariant = { λ t. t.seconds ≤ 2147483647 };

    ghost inverse = { λ n. record { seconds = n } };
}

impl Ttl {
    /// The longest, in seconds.
    pub const MAX: u32 = 2_147_483_647;

    /// A TTL of so many seconds, and `None` above `MAX`.
    pub fn new(seconds: u32) -> Option<Ttl>
        ensures fits { IsSome result ↔ (seconds ≤ 2147483647) }
        ensures value { IfSome result (λ ttl. ttl ≡ seconds) }
    {
        if seconds > Ttl::MAX {
            None
        } else {
            Some(Ttl { seconds })
        }
    }

    /// Reads a TTL: a decimal number of seconds, or one or more numbers with a unit after each (`1h30m`), which are summed,
    /// else `BadNumber`; more than `MAX` is `NumberRange`.
    pub fn read(text: &[u8]) -> Result<Ttl, DataFault>
        // What is read is a duration that the text writes.
        ensures found { IfOk result (λ ttl. IsDuration text.now ttl × (ttl ≤ 2147483647)) }
        // A duration that the text writes is read.
        ensures only { (seconds : ℕ) → IsDuration text.now seconds → seconds ≤ 2147483647 → result ≡ Ok seconds }
        // Which refusal it is.
        ensures exact { result ≡ duration_of 2147483647 text.now }
    {
        let seconds = read_duration(text, Ttl::MAX)?;
        Ok(Ttl { seconds })
    }

    /// The seconds.
    pub fn seconds(self) -> u32
        ensures value { result ≡ self }
        ensures fits { result ≤ 2147483647 }
    {
        self.seconds
    }
}

/// Whether a text has nothing but decimal digits.
fn all_digits(text: &[u8]) -> bool
    ensures { result ≡ list_all is_ascii_digit text.now }
{
    text.iter().all(|octet| octet.is_ascii_digit())
}

/// Whether a text is one or more decimal digits.
pub fn is_number(text: &[u8]) -> bool
    ensures { result ≡ is_number text.now }
{
    !text.is_empty() && all_digits(text)
}

/// The number that decimal digits write, unless it is above `most`.
fn digits_up_to(digits: &[u8], most: u32) -> Option<u32>
    requires { is_number digits.now ≡ true }
    ensures { result ≡ (if nat_le (digits_value 10 digits.now) most then Some (digits_value 10 digits.now) else None) }
{
    let mut value: u32 = 0;
    for digit in digits {
        value = value
            .checked_mul(10)?
            .checked_add(u32::from(*digit - b'0'))?;
    }
    if value > most { None } else { Some(value) }
}

/// Reads a decimal number: one or more digits, else `BadNumber`, and at most `most`, else `NumberRange`. Leading zeros
/// are read.
pub fn read_number(text: &[u8], most: u32) -> Result<u32, DataFault>
    ensures { result ≡ number_of most text.now }
{
    if !is_number(text) {
        return Err(DataFault::BadNumber);
    }
    digits_up_to(text, most).ok_or(DataFault::NumberRange)
}

/// The seconds of a unit: week, day, hour, minute or second, in either letter case.
fn unit_seconds(unit: u8) -> Option<u64>
    ensures { result ≡ unit_seconds unit }
{
    match unit.to_ascii_lowercase() {
        b'w' => Some(604_800),
        b'd' => Some(86_400),
        b'h' => Some(3_600),
        b'm' => Some(60),
        b's' => Some(1),
        _ => None,
    }
}

/// The seconds of one or more numbers with a unit after each, summed, and `None` where the text is not so. From
/// `u64::MAX` on the sum stays there.
fn seconds_with_units(text: &[u8]) -> Option<u64>
    ensures { result ≡ (if length text.now == 0 then None else option_map (λ n. min n (2 ^ 64 - 1)) (groups_after None text.now)) }
{
    if text.is_empty() {
        return None;
    }
    let mut total: u64 = 0;
    let mut number: Option<u64> = None;
    for octet in text {
        if octet.is_ascii_digit() {
            let digit = u64::from(*octet - b'0');
            number = Some(number.unwrap_or(0).saturating_mul(10).saturating_add(digit));
        } else {
            let seconds = number?.saturating_mul(unit_seconds(*octet)?);
            total = total.saturating_add(seconds);
            number = None;
        }
    }
    if number.is_some() { None } else { Some(total) }
}

/// Reads a duration: a decimal number of seconds, or one or more numbers with a unit after each (`1h30m`), which are
/// summed, else `BadNumber`; more than `most` seconds are `NumberRange`.
pub fn read_duration(text: &[u8], most: u32) -> Result<u32, DataFault>
    ensures { result ≡ duration_of most text.now }
{
    if is_number(text) {
        return digits_up_to(text, most).ok_or(DataFault::NumberRange);
    }
    let seconds = seconds_with_units(text).ok_or(DataFault::BadNumber)?;
    if seconds > u64::from(most) {
        return Err(DataFault::NumberRange);
    }
    Ok(seconds as u32)
}
