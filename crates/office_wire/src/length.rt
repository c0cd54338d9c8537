//! What a head asks to be read after it.

ghost use Rattle.std.specs.Prelude.{◌≡◌, true, length, map, codes, All};
ghost use Rattle.httparse.specs.Spans.{header_bytes, IsHeaderWithin};
ghost use Rattle.dns_data.specs.Numbers.{is_number};
ghost use Rattle.office_wire.specs.Fields.{values_of, is_any};
ghost use Rattle.office_wire.specs.Lengths.{are_one_number, ask_by, body_up_to, BodyUpTo};
ghost use Rattle.office_wire.specs.Fields.{number_up_to};

use crate::digits::{is_same_number, number_up_to};
use crate::field::{has_field, next_value};
use crate::method::Method;
use crate::refusal::Refusal;
use dns_data::is_number;
use httparse::spans::HeaderSpan;

/// The most octets of a body.
const BODY_MAX: u32 = 65_536;

/// The most fields of a head.
const FIELDS_MAX: usize = 64;

/// What is read after a head.
#[derive(Clone, Copy)]
pub(crate) enum Ask {
    /// A body of so many octets.
    Body(usize),
    /// Nothing: the head is refused.
    Refused(Refusal),
}

/// Whether a stated length and those in further fields are one number.
fn are_one_number(head: &[u8], first: &[u8], fields: &[HeaderSpan]) -> bool
    requires { All (IsHeaderWithin (length head.now)) fields.now }
    ensures { result ≡ are_one_number first.now (values_of (codes "content-length") (map (header_bytes head.now) fields.now)) }
{
    if !is_number(first) {
        return false;
    }
    let mut rest = fields;
    while let Some((value, behind)) = next_value(head, rest, b"content-length") {
        if !is_number(value) || !is_same_number(value, first) {
            return false;
        }
        rest = behind;
    }
    true
}

/// A body of this length, in digits, unless it is too large.
fn body_up_to(digits: &[u8]) -> Ask
    requires { is_number digits.now ≡ true }
    ensures value { result ≡ body_up_to (number_up_to 65536 digits.now) }
    ensures small { BodyUpTo 65536 result }
{
    match number_up_to(BODY_MAX, digits) {
        Some(length) => Ask::Body(length as usize),
        None => Ask::Refused(Refusal::BodyTooLarge),
    }
}

/// What is read after a head with these fields.
pub(crate) fn asked(method: Method, head: &[u8], fields: &[HeaderSpan]) -> Ask
    requires { All (IsHeaderWithin (length head.now)) fields.now }
    ensures value { result
        ≡ ask_by method (length fields.now) (is_any (values_of (codes "transfer-encoding") (map (header_bytes head.now) fields.now)))
        (values_of (codes "content-length") (map (header_bytes head.now) fields.now)) }
    ensures small { BodyUpTo 65536 result }
{
    if fields.len() > FIELDS_MAX {
        return Ask::Refused(Refusal::BadHead);
    }
    let encoded = has_field(head, fields, b"transfer-encoding");
    match next_value(head, fields, b"content-length") {
        None if encoded || method.needs_length() => Ask::Refused(Refusal::NoLength),
        None => Ask::Body(0),
        Some((first, rest)) => {
            if !are_one_number(head, first, rest) {
                Ask::Refused(Refusal::BadHead)
            } else if encoded {
                Ask::Refused(Refusal::NoLength)
            } else {
                body_up_to(first)
            }
        }
    }
}
