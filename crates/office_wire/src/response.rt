//! What is answered to a request.

ghost use Rattle.std.specs.Prelude.{◌≡◌, ◌≤◌, ◌+◌, ◌++◌, length, IsOk, OnOk, OnErr};
ghost use Rattle.std.specs.Vec.{vec_capacity};
ghost use Rattle.office_wire.specs.Exchange.{names_nobody, refusing};
ghost use Rattle.office_wire.specs.Texts.{phrase_of, status_of, type_of, reply_type, response_body};
ghost use Rattle.office_wire.specs.ShortResponses.{IsShortResponse};

use crate::refusal::Refusal;
use crate::request_fault::RequestFault;
use crate::status::{refusal_status, reply_status};
use http::StatusCode;
use office_model::{Reading, Reply, StepFault, TableFault};
use std::alloc::AllocError;
use wire_json::{form_error_text, refusal_text, reply_text};

/// What is answered to a request.
#[derive(Drop)]
pub(crate) enum Response {
    /// It is refused.
    Refused(Refusal),
    /// Its body is, with a refusal of this published number.
    BadBody(u8),
    /// The office replies.
    Replied(Reply),
}

/// The media type of a reply's body.
const fn reply_type(reply: &Reply) -> &'static str
    ensures text { result.now ≡ reply_type reply.now }
    ensures short { length result.now ≤ 16 }
{
    match reply {
        Reply::Read(Reading::File { .. }) => "text/plain",
        _ => "application/json",
    }
}

impl Response {
    /// What is answered to a request that is no call of the office.
    pub(crate) fn refusing(fault: RequestFault) -> Response
        ensures { result ≡ refusing fault }
    {
        match fault {
            RequestFault::Refused(refusal) => Response::Refused(refusal),
            RequestFault::BadBody(number) => Response::BadBody(number),
            RequestFault::NoMemory => Response::Replied(Reply::Servfail(StepFault::BeforeCommit(
                TableFault::NoMemory,
            ))),
        }
    }

    /// Whether it refuses a request that names no caller.
    pub(crate) const fn names_nobody(&self) -> bool
        ensures { result ≡ names_nobody self.now }
    {
        matches!(self, Response::Refused(Refusal::NoCaller))
    }

    /// The status.
    pub(crate) fn status(&self) -> StatusCode
        ensures status { result ≡ status_of self.now }
        ensures short { length (phrase_of result) ≤ 21 }
    {
        match self {
            Response::Refused(refusal) => refusal_status(*refusal),
            Response::BadBody(_) => StatusCode::BAD_REQUEST,
            Response::Replied(reply) => reply_status(reply),
        }
    }

    /// The media type of the body.
    pub(crate) const fn media_type(&self) -> &'static str
        ensures text { result.now ≡ type_of self.now }
        ensures short { length result.now ≤ 16 }
    {
        match self {
            Response::Replied(reply) => reply_type(reply),
            Response::Refused(_) | Response::BadBody(_) => "application/json",
        }
    }

    /// Appends the body. The only error is out of memory, and then nothing is appended; to a short response 256 octets of room
    /// are enough.
    pub(crate) fn push_body(&self, out: &mut Vec<u8>) -> Result<(), AllocError>
        ensures text { OnOk result (out.new.items ≡ out.old.items ++ response_body self.now) }
        ensures same { OnErr result (out.new.items ≡ out.old.items) }
        ensures capacity { vec_capacity out.old ≤ vec_capacity out.new }
        ensures room { IsShortResponse self.now → length out.old.items + 256 ≤ vec_capacity out.old → IsOk result }
    {
        match self {
            Response::Refused(refusal) => refusal_text(refusal.number(), out),
            Response::BadBody(number) => form_error_text(*number, out),
            Response::Replied(reply) => reply_text(reply, out),
        }
    }
}
