//! A part of a master file with records of any types.

ghost use Rattle.dns_master.specs.Parting.{part_of_text};
ghost use Rattle.cli_core.specs.LineFaults.{Gives, GivesOf, of_masters};
ghost use Rattle.cli_text.specs.Parting.{part_printed};

use crate::canon::read_name;
use crate::task::Task;
use cli_core::{Input, JobFault, LineFault, Split, read_input, write_octets};
use dns_master::{FilePart, Sink, part_of_file};
use dns_names::Name;
use std::alloc::Global;

/// The text of a part of a master file, whose octets are given back.
fn part_in(
    alloc: Global,
    text: Vec<u8>,
    origin: &Name,
    part: FilePart,
) -> Result<Vec<u8>, LineFault>
    ensures { Gives (λ lines. lines.items) result (of_masters (part_of_text part text.items origin.now)) }
{
    Ok(part_of_file(alloc, &text, origin, part)?)
}

/// The text of a part of the master file that a reader gives, under an origin that is a word.
fn answer<R: Input>(
    alloc: Global,
    origin: &str,
    part: FilePart,
    reader: &mut R,
) -> Result<Vec<u8>, LineFault>
    ensures { GivesOf (λ lines. lines.items) (R.left reader.old) (part_printed part origin.now) result (R.fine reader.old reader.new) (R.failed reader.old reader.new) }
{
    let origin = read_name(alloc, origin)?;
    let text = read_input(alloc, reader)?;
    part_in(alloc, text, &origin, part)
}

/// The task `split`: to read a master file with records of any types (RFC 1035 section 5.1, RFC 3597), and to print one of its parts: the
/// records of types that are kept, those that a signer made, or the rest. Otherwise one line tells the refusal that comes first: of the
/// origin, that the input is too large, of the master file.
impl Task for Split<'_> {
    ghost answer = { λ s. part_printed s.part s.origin.now };

    fn run<R: Input, W: Sink>(
        self,
        alloc: Global,
        reader: &mut R,
        writer: &mut W,
    ) -> Result<(), JobFault> {
        write_octets(alloc, writer, answer(alloc, self.origin, self.part, reader))
    }
}
