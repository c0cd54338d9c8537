//! What the octets that were received begin with.

ghost use Rattle.std.specs.Prelude.{◌≡◌, take, length};
ghost use Rattle.office_wire.specs.Exchange.{Waits, IsMethodAt};
ghost use Rattle.office_wire.specs.Framing.{IsFraming};

use crate::head::{HEAD_MAX, HeadRead, Heading, read_head};
use crate::length::Ask;
use crate::method::Method;
use crate::refusal::Refusal;
use httparse::spans::HeaderSpan;

/// What the octets that were received begin with.
#[derive(Clone, Copy)]
pub(crate) enum Framing<'a> {
    /// An incomplete request, and still incomplete until there are so many octets.
    Waiting(usize),
    /// What no continuation makes a head.
    Bad,
    /// A head that is refused, and its method.
    Refused(Method, Refusal),
    /// A head, and a body of so many octets.
    Ready(Heading<'a>, usize),
}

/// The octets among which a head can stand.
fn window_of(bytes: &[u8]) -> &[u8]
    ensures { result.now ≡ take 16384 bytes.now }
{
    if bytes.len() < HEAD_MAX {
        bytes
    } else {
        &bytes[..HEAD_MAX]
    }
}

/// What the octets begin with.
pub(crate) fn framing_of<'a>(bytes: &'a [u8], spans: &mut [HeaderSpan]) -> Framing<'a>
    requires { length spans.old ≡ 5462 }
    ensures { IsFraming bytes.now result }
{
    match read_head(window_of(bytes), spans) {
        HeadRead::Hopeless => Framing::Bad,
        HeadRead::Partial if bytes.len() < HEAD_MAX => Framing::Waiting(0),
        HeadRead::Partial => Framing::Bad,
        HeadRead::Whole(heading) => match heading.ask {
            Ask::Refused(refusal) => Framing::Refused(heading.method, refusal),
            Ask::Body(n) if bytes.len() - heading.len < n => Framing::Waiting(heading.len + n),
            Ask::Body(n) => Framing::Ready(heading, n),
        },
    }
}

/// The method of the request that the octets begin with, where its head is complete; the request is not.
pub(crate) fn method_at(bytes: &[u8], spans: &mut [HeaderSpan]) -> Method
    requires spans { length spans.old ≡ 5462 }
    requires waits { Waits bytes.now }
    ensures { IsMethodAt bytes.now result }
{
    match read_head(window_of(bytes), spans) {
        HeadRead::Whole(heading) => heading.method,
        HeadRead::Partial => Method::Other,
        HeadRead::Hopeless => Method::Other,
    }
}
