//! Why a request is refused by the service, before the office is asked.

ghost use Rattle.std.specs.Prelude.{◌≡◌};

use refusals::words;
use std::error::Error;
use std::fmt::{self, Display, Formatter, Write};

/// Why a request is refused before the office is asked.
#[derive(Clone, Copy, Debug, PartialEq, Eq)]
pub enum Refusal {
    /// No head of HTTP/1.0 or HTTP/1.1 begins here (RFC 9112 section 2.1), it is longer than 16,384 octets or has more than 64
    /// fields, or its length is no number, or not one number alone (RFC 9112 section 6.3).
    BadHead,
    /// Not exactly one field `X-Office-Caller`, or its value is no identifier.
    NoCaller,
    /// A POST without `Content-Length`, or a field `Transfer-Encoding`.
    NoLength,
    /// The body is longer than 65,536 octets.
    BodyTooLarge,
    /// A part of the path is not of its form.
    BadPart,
    /// No route has this method and target.
    NoRoute,
    /// The stream ended within the request.
    CutShort,
}

impl Refusal {
    ghost use Rattle.office_wire.specs.Refusals.{refusal_number};

    /// The published number: 81 to 84, 88, 90 or 91.
    pub const fn number(self) -> u8
        ensures { result ≡ refusal_number self }
    {
        match self {
            Refusal::BadHead => 81,
            Refusal::NoCaller => 82,
            Refusal::NoLength => 83,
            Refusal::BodyTooLarge => 84,
            Refusal::BadPart => 88,
            Refusal::NoRoute => 90,
            Refusal::CutShort => 91,
        }
    }
}

/// What is wrong, in words.
impl Display for Refusal {
    fn fmt<W: Write>(&self, f: &mut Formatter<W>) -> fmt::Result {
        match self {
            Refusal::BadPart => f.write_str("a part of the path is not of its form"),
            refusal => f.write_str(words(refusal.number())),
        }
    }
}

impl Error for Refusal {}
