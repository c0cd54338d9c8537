//! What the program does by reading an input and writing an answer.

ghost use Rattle.std.specs.Prelude.{List, ℕ, Result};
ghost use Rattle.cli_core.specs.declared.refusal.Refusal.{Refusal};
ghost use Rattle.cli_core.specs.Replies.{Answered};

use cli_core::{Input, JobFault};
use dns_master::Sink;
use std::alloc::Global;

/// What is answered to an input.
pub trait Task: Drop {
    ghost answer: { Self → List ℕ → Result (List ℕ) Refusal };

    /// Reads the input, and writes its answer, or one line that tells why it has none: `Reported` then, and `WriteFailed` where the
    /// writer failed.
    fn run<R: Input, W: Sink>(
        self,
        alloc: Global,
        reader: &mut R,
        writer: &mut W,
    ) -> Result<(), JobFault>
        ensures { Answered (R.left reader.old) (answer self) (W.contents writer.old) (W.contents writer.new) result (R.fine reader.old reader.new) (R.failed reader.old reader.new) (W.failures writer.old) (W.failures writer.new) };
}
