//! Pieces of JSON texts, which are appended to a row of octets.

ghost use Rattle.std.specs.Prelude.{◌≡◌, ◌<◌, ◌+◌, ◌++◌, length, decimal, OnErr, vec_len};
ghost use Rattle.std.specs.List.{flat_map, list_all};
ghost use Rattle.std.specs.Vec.{vec_capacity};
ghost use Rattle.wire_json.specs.Json.{is_plain_octet, escaped_octet, escaped, quoted};
ghost use Rattle.wire_json.specs.Appending.{Appends, comma_before};

use std::alloc::AllocError;

/// Appends pieces, one after the other. It fails only where there is no room for them all, and then may have appended some.
pub fn push_all(out: &mut Vec<u8>, pieces: &[&[u8]]) -> Result<(), AllocError>
    ensures text { Appends out.old out.new (flat_map (λ piece. piece.now) pieces.now) result }
    ensures full { OnErr result (vec_capacity out.old < length out.old.items + length (flat_map (λ piece. piece.now) pieces.now)) }
{
    for piece in pieces {
        out.extend_from_slice(piece)?;
    }
    Ok(())
}

/// Appends the comma before an item of this number, from 0, which the first has not.
pub(crate) fn push_comma(out: &mut Vec<u8>, item: usize) -> Result<(), AllocError>
    ensures { Appends out.old out.new (comma_before item) result }
{
    if item > 0 {
        out.push(b',')?;
    }
    Ok(())
}

/// Appends an octet of a string.
fn push_octet(out: &mut Vec<u8>, octet: u8) -> Result<(), AllocError>
    ensures { Appends out.old out.new (escaped_octet octet) result }
{
    if octet == b'"' || octet == b'\\' {
        out.push(b'\\')?;
    }
    out.push(octet)?;
    Ok(())
}

/// Appends the octets of a string one by one.
#[tactic(auto, using(crate::proofs::AppendLemmas::front_on))]
fn push_octets(out: &mut Vec<u8>, text: &[u8]) -> Result<(), AllocError>
    ensures { Appends out.old out.new (escaped text.now) result }
{
    for octet in text {
        push_octet(out, *octet)?;
    }
    Ok(())
}

/// Whether no octet of a string is escaped.
fn is_plain(text: &[u8]) -> bool
    ensures { result ≡ list_all is_plain_octet text.now }
{
    text.iter().all(|octet| *octet != b'"' && *octet != b'\\')
}

/// Appends the octets of a string: at once, if none is escaped, as in most.
#[tactic(auto, using(crate::proofs::EscapeLemmas::escaped_plain))]
fn push_escaped(out: &mut Vec<u8>, text: &[u8]) -> Result<(), AllocError>
    ensures { Appends out.old out.new (escaped text.now) result }
{
    if !is_plain(text) {
        return push_octets(out, text);
    }
    out.extend_from_slice(text)?;
    Ok(())
}

/// Appends a string. The only error is out of memory.
#[tactic(auto, using(crate::proofs::AppendLemmas::front_on))]
pub fn push_quoted(out: &mut Vec<u8>, text: &[u8]) -> Result<(), AllocError>
    ensures { Appends out.old out.new (quoted text.now) result }
{
    out.push(b'"')?;
    push_escaped(out, text)?;
    out.push(b'"')?;
    Ok(())
}
