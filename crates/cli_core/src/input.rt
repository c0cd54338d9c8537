//! What an input is read from whole.

ghost use Rattle.std.specs.Prelude.{◌≡◌, ◌<◌, ℕ, List, Option, refl};
ghost use Rattle.cli_core.specs.LineFaults.{GivesOf, limited};

use crate::device::read_device;
use crate::line_fault::LineFault;
use dns_master::Source;
use std::alloc::Global;

/// What an input is read from whole: a device, or a file.
pub trait Input {
    // What there is to read, where it is known.
    ghost left: { Self → Option (List ℕ) };

    // It did not fail from one standing to another.
    ghost fine: { Self → Self → Type 0 };

    // It failed from one standing to another.
    ghost failed: { Self → Self → Type 0 };

    /// Reads all octets. More than 4,194,304 are `TooLarge`, and `ReadFailed` comes only where it fails.
    fn read_whole(&mut self, alloc: Global) -> Result<Vec<u8>, LineFault>
        ensures { GivesOf (λ input. input.items) (left self.old) limited result (fine self.old self.new) (failed self.old self.new) };

    // What is not read does not fail.
    ghost still: { (input : Self) → fine input input };
}

impl<R: Source> Input for R {
    ghost left = { R.remaining };

    ghost fine = { λ old new. R.failures new ≡ R.failures old };

    ghost failed = { λ old new. R.failures old < R.failures new };

    ghost still = { λ _. refl };

    fn read_whole(&mut self, alloc: Global) -> Result<Vec<u8>, LineFault> {
        read_device(alloc, self)
    }
}

/// All octets of an input, as `read_whole` gives them.
pub fn read_input<I: Input>(alloc: Global, input: &mut I) -> Result<Vec<u8>, LineFault>
    ensures { GivesOf (λ octets. octets.items) (I.left input.old) limited result (I.fine input.old input.new) (I.failed input.old input.new) }
{
    input.read_whole(alloc)
}
