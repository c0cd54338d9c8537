//! Devices that give and take octets in pieces, and fail.

ghost use Rattle.std.specs.Prelude.{◌≡◌, ◌<◌};

use dns_master::{Counted, Pieces, Sink, Source};
use std::alloc::{AllocError, Global};
use std::marker::Brand;
use std::sync::ledger::{Blank, Ledger};

/// How a device works.
#[derive(Clone, Copy)]
pub struct Device {
    /// The most octets that it moves in a call.
    pub most: usize,
    /// The number of the call that fails, from 1, and 0 where none does.
    pub fails: usize,
}

/// Appends what a device gives of octets, for `read`, or takes of them, and whether a call failed.
pub fn push_taken(
    alloc: Global,
    verb: &str,
    device: Device,
    octets: &[u8],
    answer: &mut Vec<u8>,
) -> Result<(), AllocError> {
    let has_failed = match verb {
        "read" => push_given(alloc, device, octets, answer)?,
        _ => push_written(alloc, device, octets, answer)?,
    };
    let end = if has_failed {
        ", and a call failed"
    } else {
        ""
    };
    answer.extend_from_slice(end.as_bytes())
}

/// Appends what a device gives, and tells whether a call failed.
fn push_given(
    alloc: Global,
    device: Device,
    octets: &[u8],
    answer: &mut Vec<u8>,
) -> Result<bool, AllocError> {
    let pieces = Pieces::new(Vec::from_slice(alloc, octets)?, device.most, device.fails);
    push_counted::<Brand>(pieces, Blank::new(1), answer)
}

fn push_counted<L: Ledger>(
    pieces: Pieces,
    blank: Blank,
    answer: &mut Vec<u8>,
) -> Result<bool, AllocError>
    requires name { blank.name ≡ L.name }
    requires parts { blank.parts ≡ L.parts }
    requires some { 0 < blank.parts }
{
    let mut source: Counted<Pieces, L> = Counted::new(pieces, blank);
    push_all(&mut source, answer)
}

/// Appends all octets of a source, or those before a failure, and tells whether there was one.
fn push_all<S: Source>(source: &mut S, answer: &mut Vec<u8>) -> Result<bool, AllocError> {
    let mut buffer = [0u8; 4];
    for _ in 0..100 {
        let Ok(count) = source.read_some(&mut buffer) else {
            return Ok(true);
        };
        if count == 0 {
            break;
        }
        answer.extend_from_slice(&buffer[..count])?;
    }
    Ok(false)
}

/// Appends what a device takes, and tells whether a call failed.
fn push_written(
    alloc: Global,
    device: Device,
    octets: &[u8],
    answer: &mut Vec<u8>,
) -> Result<bool, AllocError> {
    let pieces = Pieces::new(Vec::new(alloc), device.most, device.fails);
    let (taken, has_failed) = taken::<Brand>(pieces, Blank::new(1), octets);
    answer.extend_from_slice(&taken)?;
    Ok(has_failed)
}

fn taken<L: Ledger>(pieces: Pieces, blank: Blank, octets: &[u8]) -> (Vec<u8>, bool)
    requires name { blank.name ≡ L.name }
    requires parts { blank.parts ≡ L.parts }
    requires some { 0 < blank.parts }
{
    let mut sink: Counted<Pieces, L> = Counted::new(pieces, blank);
    let has_failed = filled(&mut sink, octets);
    (sink.into_inner().octets, has_failed)
}

/// Writes octets until all are written or a write fails, and tells whether one failed.
fn filled<S: Sink>(sink: &mut S, octets: &[u8]) -> bool {
    let mut rest = octets;
    for _ in 0..octets.len() {
        if rest.is_empty() {
            break;
        }
        let Ok(count) = sink.write_some(rest) else {
            return true;
        };
        rest = &rest[count..];
    }
    false
}
