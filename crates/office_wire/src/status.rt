//! Which status a response has, as the `http` crate has them.

ghost use Rattle.std.specs.Prelude.{◌≡◌, ◌≤◌, length};
ghost use Rattle.office_wire.specs.Texts.{phrase_of, refusal_status, update_status, reply_status};

use crate::refusal::Refusal;
use http::StatusCode;
use office_model::{Reply, UpdateReply};

/// The phrase of a status, and none where it is not a registered one (RFC 9110 section 15.1).
pub(crate) fn phrase(status: StatusCode) -> &'static str
    ensures { result.now ≡ phrase_of status }
{
    status.canonical_reason().unwrap_or("")
}

/// The status of a refusal.
pub(crate) fn refusal_status(refusal: Refusal) -> StatusCode
    ensures status { result ≡ refusal_status refusal }
    ensures short { length (phrase_of result) ≤ 21 }
{
    match refusal {
        Refusal::NoLength => StatusCode::LENGTH_REQUIRED,
        Refusal::BodyTooLarge => StatusCode::PAYLOAD_TOO_LARGE,
        Refusal::NoRoute => StatusCode::NOT_FOUND,
        Refusal::BadHead | Refusal::NoCaller | Refusal::BadPart | Refusal::CutShort => {
            StatusCode::BAD_REQUEST
        }
    }
}

/// The status of a reply to an update.
fn update_status(reply: &UpdateReply) -> StatusCode
    ensures status { result ≡ update_status reply.now }
    ensures short { length (phrase_of result) ≤ 21 }
{
    match reply {
        UpdateReply::NoError => StatusCode::OK,
        UpdateReply::NotAuth => StatusCode::NOT_FOUND,
        UpdateReply::NotZone(_) => StatusCode::BAD_REQUEST,
        UpdateReply::Refused { .. } => StatusCode::FORBIDDEN,
        UpdateReply::Failed(_) => StatusCode::PRECONDITION_FAILED,
    }
}

/// The status of a reply.
pub(crate) fn reply_status(reply: &Reply) -> StatusCode
    ensures status { result ≡ reply_status reply.now }
    ensures short { length (phrase_of result) ≤ 21 }
{
    match reply {
        Reply::Update(reply) => update_status(reply),
        Reply::IdReused => StatusCode::CONFLICT,
        Reply::Servfail(_) => StatusCode::INTERNAL_SERVER_ERROR,
        Reply::NotAuth => StatusCode::NOT_FOUND,
        Reply::NotZone => StatusCode::BAD_REQUEST,
        Reply::Read(_) => StatusCode::OK,
    }
}
