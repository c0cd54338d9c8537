//! Reading all of an input, and writing a text or the line of a fault.

ghost use Rattle.std.specs.Prelude.{◌≡◌, ◌<◌, ℕ, List, Option, Err, string_bytes, IfOk};
ghost use Rattle.dns_master.specs.Device.{TextWritten};
ghost use Rattle.cli_core.specs.LineFaults.{GivesOf, limited};
ghost use Rattle.cli_core.specs.Refusals.{refused_line};
ghost use Rattle.cli_core.specs.declared.line_fault.LineFault.{LineFault as LineFaultOf};
ghost use Rattle.cli_core.specs.Replies.{IsAnswerWritten, IsSent, IsRefusalWritten, IsPrinted, MayWrite, line_of};

use crate::line_fault::{JobFault, LineFault, NO_MEMORY_LINE, READ_FAILED_LINE};
use crate::refusal::{Refusal, RefusalLine};
use dns_master::{DeviceFailed, MasterFault, Sink, Source, write_all};
use std::alloc::{AllocError, Global};

/// The most octets of an input.
pub(crate) const INPUT_MAX: usize = 4_194_304;

/// How many octets are read at a time.
const PIECE: usize = 65_536;

/// All octets that a reader gives. More than 4,194,304 are `TooLarge`.
pub(crate) fn read_device<R: Source>(alloc: Global, reader: &mut R) -> Result<Vec<u8>, LineFault>
    ensures { GivesOf (λ input. input.items) (R.remaining reader.old) limited result (R.failures reader.new ≡ R.failures reader.old) (R.failures reader.old < R.failures reader.new) }
{
    let mut input = Vec::new(alloc);
    let mut piece = vec![in alloc; 0u8; PIECE]?;
    while input.len() <= INPUT_MAX {
        let Ok(count) = reader.read_some(&mut piece) else {
            return Err(LineFault::ReadFailed);
        };
        if count == 0 {
            return Ok(input);
        }
        input.extend_from_slice(&piece[..count])?;
    }
    Err(LineFault::Refused(Refusal::TooLarge))
}

/// Writes all octets, in as many pieces as the writer takes.
pub fn write_text<W: Sink>(writer: &mut W, text: &[u8]) -> Result<(), DeviceFailed>
    ensures { IsSent (W.contents writer.old) (W.contents writer.new) text.now result (W.failures writer.old) (W.failures writer.new) }
{
    write_all(writer, text)
}

/// The line that tells a refusal. The only error is out of memory.
fn refusal_text(alloc: Global, refusal: Refusal) -> Result<String, AllocError>
    ensures { IfOk result (λ text. string_bytes text ≡ refused_line refusal) }
{
    format!(in alloc; "{}", RefusalLine(refusal))
}

/// Writes the line of a fault: the fault is reported, or the writer failed.
fn write_line<W: Sink>(writer: &mut W, line: &[u8], fault: LineFault) -> JobFault
    ensures { (asked : LineFaultOf) → line.now ≡ line_of fault → MayWrite asked fault → IsRefusalWritten (W.contents writer.old) (W.contents writer.new) asked (Err result) (W.failures writer.old) (W.failures writer.new) }
{
    match write_text(writer, line) {
        Ok(()) => JobFault::Reported(fault),
        Err(_) => JobFault::WriteFailed,
    }
}

/// Reports out of memory.
fn write_no_memory<W: Sink>(writer: &mut W) -> JobFault
    ensures { IsRefusalWritten (W.contents writer.old) (W.contents writer.new) LineFault.NoMemory (Err result) (W.failures writer.old) (W.failures writer.new) }
{
    write_line(writer, NO_MEMORY_LINE.as_bytes(), LineFault::NoMemory)
}

/// What came of a printing that `dns_master` did. Where memory ran out, a line tells it after what went out.
pub fn ended<W: Sink>(writer: &mut W, printed: Result<(), MasterFault>) -> Result<(), JobFault>
    ensures { (old : Option (List ℕ)) (text : List ℕ) (failures : ℕ) → TextWritten old (W.contents writer.old) text printed failures (W.failures writer.old)
        → IsPrinted old (W.contents writer.new) text result failures (W.failures writer.new) }
{
    match printed {
        Ok(()) => Ok(()),
        Err(fault) => match fault {
            MasterFault::WriteFailed => Err(JobFault::WriteFailed),
            _ => Err(write_no_memory(writer)),
        },
    }
}

/// Reports a fault by its line, and returns it: `NoMemory` if there is no memory for the line, and `WriteFailed` if the writer failed.
pub fn write_refusal<W: Sink>(alloc: Global, writer: &mut W, fault: LineFault) -> JobFault
    ensures { IsRefusalWritten (W.contents writer.old) (W.contents writer.new) fault (Err result) (W.failures writer.old) (W.failures writer.new) }
{
    match fault {
        LineFault::Refused(refusal) => match refusal_text(alloc, refusal) {
            Ok(text) => write_line(writer, text.as_bytes(), fault),
            Err(_) => write_no_memory(writer),
        },
        // Reported without memory, so that out of memory never hides it.
        LineFault::ReadFailed => write_line(writer, READ_FAILED_LINE.as_bytes(), fault),
        LineFault::NoMemory => write_no_memory(writer),
    }
}

/// Writes the octets that were made of an input. On a failure, a line tells why.
pub fn write_octets<W: Sink>(
    alloc: Global,
    writer: &mut W,
    answer: Result<Vec<u8>, LineFault>,
) -> Result<(), JobFault>
    ensures { IsAnswerWritten (λ text. text.items) (W.contents writer.old) (W.contents writer.new) answer result (W.failures writer.old) (W.failures writer.new) }
{
    match answer {
        Ok(text) => {
            write_text(writer, &text)?;
            Ok(())
        }
        Err(fault) => Err(write_refusal(alloc, writer, fault)),
    }
}

/// Writes the text that was made of an input. On a failure, a line tells why.
pub fn write_answer<W: Sink>(
    alloc: Global,
    writer: &mut W,
    answer: Result<String, LineFault>,
) -> Result<(), JobFault>
    ensures { IsAnswerWritten string_bytes (W.contents writer.old) (W.contents writer.new) answer result (W.failures writer.old) (W.failures writer.new) }
{
    match answer {
        Ok(text) => {
            write_text(writer, text.as_bytes())?;
            Ok(())
        }
        Err(fault) => Err(write_refusal(alloc, writer, fault)),
    }
}
