//! The bodies of replies.

ghost use Rattle.std.specs.Prelude.{◌≡◌, ◌≤◌, ◌+◌, ◌++◌, length, IsOk, OnOk, OnErr};
ghost use Rattle.std.specs.Vec.{vec_capacity};
ghost use Rattle.wire_json.specs.Appending.{Appends};
ghost use Rattle.wire_json.specs.Replies.{reading_body, body_of, IsShortReading, IsShort, refusal_body, form_error_body};

use crate::listing::{push_changes, push_delegations, push_file, push_records};
use crate::short::{push_code, push_form_error, push_refusal, push_right, push_update_reply};
use office_model::{Reading, Reply};
use std::alloc::AllocError;
use zone_core::Rcode;

/// Appends the body of what was read.
fn push_reading(reading: &Reading, out: &mut Vec<u8>) -> Result<(), AllocError>
    ensures text { Appends out.old out.new (reading_body reading.now) result }
    ensures room { IsShortReading reading.now → length out.old.items + 256 ≤ vec_capacity out.old → IsOk result }
{
    match reading {
        Reading::Records(records) => push_records(out, records),
        Reading::File { origin, records } => push_file(out, origin, records),
        Reading::Delegations(delegations) => push_delegations(out, delegations),
        Reading::Changes(changes) => push_changes(out, changes),
        Reading::Right(right) => push_right(out, right),
    }
}

/// Appends the body of a reply.
fn push_reply(reply: &Reply, out: &mut Vec<u8>) -> Result<(), AllocError>
    ensures text { Appends out.old out.new (body_of reply.now) result }
    ensures room { IsShort reply.now → length out.old.items + 256 ≤ vec_capacity out.old → IsOk result }
{
    match reply {
        Reply::Update(reply) => push_update_reply(out, reply),
        Reply::IdReused => push_refusal(out, 61),
        Reply::Servfail(_) => push_code(out, Rcode::ServFail),
        Reply::NotAuth => push_code(out, Rcode::NotAuth),
        Reply::NotZone => push_code(out, Rcode::NotZone),
        Reply::Read(reading) => push_reading(reading, out),
    }
}

/// Appends the body of a reply: a JSON text without white space, whose keys stand in byte order, and for a file the text of its
/// zone. The only error is out of memory, and then nothing is appended. To the replies to updates and on rights, and to those
/// that tell no more than a code or a refusal, 256 octets of room are enough.
pub fn reply_text(reply: &Reply, out: &mut Vec<u8>) -> Result<(), AllocError>
    ensures text { OnOk result (out.new.items ≡ out.old.items ++ body_of reply.now) }
    ensures same { OnErr result (out.new.items ≡ out.old.items) }
    ensures capacity { vec_capacity out.old ≤ vec_capacity out.new }
    ensures room { IsShort reply.now → length out.old.items + 256 ≤ vec_capacity out.old → IsOk result }
{
    let start = out.len();
    match push_reply(reply, out) {
        Ok(()) => Ok(()),
        Err(fault) => {
            out.truncate(start);
            Err(fault)
        }
    }
}

/// Appends the body that tells a refusal by its published number alone. The only error is out of memory, which does not come
/// where there is room for 256 octets, and then nothing is appended.
pub fn refusal_text(number: u8, out: &mut Vec<u8>) -> Result<(), AllocError>
    ensures text { OnOk result (out.new.items ≡ out.old.items ++ refusal_body number) }
    ensures same { OnErr result (out.new.items ≡ out.old.items) }
    ensures capacity { vec_capacity out.old ≤ vec_capacity out.new }
    ensures room { length out.old.items + 256 ≤ vec_capacity out.old → IsOk result }
{
    let start = out.len();
    match push_refusal(out, number) {
        Ok(()) => Ok(()),
        Err(fault) => {
            out.truncate(start);
            Err(fault)
        }
    }
}

/// Appends the body that tells FORMERR (RFC 2136 section 2.2) with the published number of the refusal of a body. The only error
/// is out of memory, which does not come where there is room for 256 octets, and then nothing is appended.
pub fn form_error_text(number: u8, out: &mut Vec<u8>) -> Result<(), AllocError>
    ensures text { OnOk result (out.new.items ≡ out.old.items ++ form_error_body number) }
    ensures same { OnErr result (out.new.items ≡ out.old.items) }
    ensures capacity { vec_capacity out.old ≤ vec_capacity out.new }
    ensures room { length out.old.items + 256 ≤ vec_capacity out.old → IsOk result }
{
    let start = out.len();
    match push_form_error(out, number) {
        Ok(()) => Ok(()),
        Err(fault) => {
            out.truncate(start);
            Err(fault)
        }
    }
}
