//! The line on standard error that tells of requests that were answered SERVFAIL.

ghost use Rattle.std.specs.Prelude.{◌≡◌};
ghost use Rattle.std.specs.List.{flat_map};
ghost use Rattle.cli_core.specs.Replies.{IsSent};
ghost use Rattle.wire_tcp.specs.Causes.{were_answered, trace_by};

use crate::cause::Cause;
use cli_core::write_text;
use dns_master::{DeviceFailed, Sink};
use itoa::Buffer;
use office_wire::Servfails;
use store_faults::StoreFault;

/// Writes texts, one after the other.
pub fn write_texts<W: Sink>(writer: &mut W, texts: &[&[u8]]) -> Result<(), DeviceFailed>
    ensures { IsSent (W.contents writer.old) (W.contents writer.new) (flat_map (λ text. text.now) texts.now) result (W.failures writer.old)
        (W.failures writer.new) }
{
    for text in texts {
        write_text(writer, text)?;
    }
    Ok(())
}

/// That so many requests were answered SERVFAIL.
const fn were_answered(count: u64) -> &'static str
    ensures { result.now ≡ were_answered count }
{
    if count == 1 {
        " request of a connection was answered SERVFAIL"
    } else {
        " requests of a connection were answered SERVFAIL"
    }
}

/// Writes the line that tells how many requests of a connection were answered SERVFAIL, and why the last of them was, if there are
/// some. It takes no memory, since memory may be what ran out.
pub(crate) fn tell_servfails<E: Sink>(
    trace: &mut E,
    servfails: Servfails,
    store: Option<StoreFault>,
) -> Result<(), DeviceFailed>
    ensures { IsSent (E.contents trace.old) (E.contents trace.new) (trace_by servfails.last servfails.count store) result (E.failures trace.old)
        (E.failures trace.new) }
{
    let Some(fault) = servfails.last else {
        return Ok(());
    };
    let mut digits = Buffer::new();
    write_texts(
        trace,
        &[
            b"zoneoffice: ",
            digits.format(servfails.count).as_bytes(),
            were_answered(servfails.count).as_bytes(),
            b"; the last because ",
            Cause::of(fault, store).words().as_bytes(),
            b"\n",
        ],
    )
}
