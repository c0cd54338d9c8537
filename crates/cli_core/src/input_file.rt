//! The file of an input.

ghost use Rattle.std.specs.Prelude.{None, ⊤};
ghost use Rattle.cli_core.specs.LineFaults.{GivesOf, limited};

use crate::device::INPUT_MAX;
use crate::line_fault::LineFault;
use crate::refusal::Refusal;
use std::fs::{self, File};
use std::io::{self, ErrorKind, Read};

/// As many octets of a file as tell whether it is too large.
fn beginning(rt: &HostRuntime, path: &str) -> io::Result<Vec<u8>> {
    let file: File = fs::open(rt, path)?;
    let mut octets = Vec::new(rt.alloc());
    file.take(INPUT_MAX as u64 + 1).read_to_end(&mut octets)?;
    Ok(octets)
}

/// All octets of the file of a path. More than 4,194,304 are `TooLarge`, and `ReadFailed` comes where it cannot be opened or read. No
/// contract can say what it holds.
pub fn read_path(rt: &HostRuntime, path: &str) -> Result<Vec<u8>, LineFault>
    ensures { GivesOf (λ octets. octets.items) None limited result ⊤ ⊤ }
{
    match beginning(rt, path) {
        Ok(octets) if octets.len() > INPUT_MAX => Err(LineFault::Refused(Refusal::TooLarge)),
        Ok(octets) => Ok(octets),
        Err(fault) if fault.kind() == ErrorKind::OutOfMemory => Err(LineFault::NoMemory),
        Err(_) => Err(LineFault::ReadFailed),
    }
}
