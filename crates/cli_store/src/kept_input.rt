//! A reader that keeps the beginning of its input.

ghost use Rattle.std.specs.Prelude.{◌≡◌};

use crate::beginning::Beginning;
use std::alloc::Global;
use std::io::{self, Read};

/// A reader that keeps the beginning of its input.
#[derive(Drop)]
pub(crate) struct KeptInput<I> {
    reader: I,
    beginning: Beginning,
}

impl<I> KeptInput<I> {
    /// A reader of which nothing was read yet.
    pub(crate) fn new(alloc: Global, reader: I) -> KeptInput<I>
        ensures { result.reader ≡ reader }
    {
        KeptInput {
            reader,
            beginning: Beginning::new(alloc),
        }
    }

    /// The reader, and the beginning of its input, as far as it was read.
    pub(crate) fn into_parts(self) -> (I, Beginning)
        ensures { result.0 ≡ self.reader }
    {
        (self.reader, self.beginning)
    }
}

impl<I: Read> Read for KeptInput<I> {
    ghost remaining = { λ input. I.remaining input.reader };

    fn read(&mut self, buffer: &mut [u8]) -> io::Result<usize> {
        match self.reader.read(buffer) {
            Ok(count) => {
                self.beginning.keep(&buffer[..count]);
                Ok(count)
            }
            Err(fault) => Err(fault),
        }
    }
}
