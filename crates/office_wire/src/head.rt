//! The head of a request.

ghost use Rattle.std.specs.Prelude.{◌≡◌, ◌≤◌, length};
ghost use Rattle.office_wire.specs.Framing.{ReadsHead};

use crate::field::{closes, only_value};
use crate::length::{Ask, asked};
use crate::method::Method;
use httparse::Status;
use httparse::spans::{HeaderSpan, parse_request};

/// The most octets of a head.
pub(crate) const HEAD_MAX: usize = 16_384;

/// As many fields as a head could have at all: a field takes three octets.
pub(crate) const SPANS: usize = 5_462;

/// What is kept of a head.
#[derive(Clone, Copy)]
pub(crate) struct Heading<'a> {
    /// How many octets it has.
    pub(crate) len: usize,
    pub(crate) ask: Ask,
    pub(crate) method: Method,
    pub(crate) target: &'a [u8],
    /// The value of the field that names the caller, where there is exactly one.
    pub(crate) caller: Option<&'a [u8]>,
    /// Whether the response is the last.
    pub(crate) closes: bool,
}

/// What a window of the octets begins with.
#[derive(Clone, Copy)]
pub(crate) enum HeadRead<'a> {
    /// No whole head.
    Partial,
    /// No head, however it goes on.
    Hopeless,
    /// A head.
    Whole(Heading<'a>),
}

/// Reads the head at the front of a window of octets (RFC 9112 sections 2 to 5).
pub(crate) fn read_head<'a>(window: &'a [u8], spans: &mut [HeaderSpan]) -> HeadRead<'a>
    requires window { length window.now ≤ 16384 }
    requires spans { length spans.old ≡ 5462 }
    ensures { ReadsHead window.now result }
{
    match parse_request(window, spans) {
        Ok(Status::Complete(head)) => {
            let fields = &spans[..head.headers];
            let method = Method::read(head.method.of(window));
            HeadRead::Whole(Heading {
                len: head.len,
                ask: asked(method, window, fields),
                method,
                target: head.path.of(window),
                caller: only_value(window, fields, b"x-office-caller"),
                closes: closes(head.version, window, fields),
            })
        }
        Ok(Status::Partial) => HeadRead::Partial,
        Err(_) => HeadRead::Hopeless,
    }
}
