//! Why serving a stream ended before the stream did.

ghost use Rattle.std.specs.Prelude.{◌≡◌};

use refusals::words;
use std::alloc::{AllocError, AllocFailed};
use std::error::Error;
use std::fmt::{self, Display, Formatter, Write};

/// Why serving a stream ended before the stream did, and before the last response.
#[derive(Clone, Copy, Debug, PartialEq, Eq)]
pub enum ServeFault {
    /// A read failed.
    ReadFailed,
    /// A write failed.
    WriteFailed,
    /// There were 2^64 - 1 reads.
    StreamTooLong,
    /// Memory ran out before anything was read.
    NoMemory,
}

impl ServeFault {
    ghost use Rattle.office_wire.specs.Refusals.{fault_number};

    /// The published number: 93, 94, 95 or 99.
    pub const fn number(self) -> u8
        ensures { result ≡ fault_number self }
    {
        match self {
            ServeFault::ReadFailed => 93,
            ServeFault::WriteFailed => 94,
            ServeFault::StreamTooLong => 95,
            ServeFault::NoMemory => 99,
        }
    }
}

/// What is wrong, in words.
impl Display for ServeFault {
    fn fmt<W: Write>(&self, f: &mut Formatter<W>) -> fmt::Result {
        match self {
            ServeFault::ReadFailed => f.write_str("the stream can't be read"),
            fault => f.write_str(words(fault.number())),
        }
    }
}

impl Error for ServeFault {}
