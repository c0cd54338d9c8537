//! The body of an update, from its items.

ghost use Rattle.std.specs.Prelude.{string_bytes};
ghost use Rattle.cli_core.specs.LineFaults.{Gives, GivesOf, of_items};
ghost use Rattle.cli_updates.specs.Request.{identifier_in, body_line, body_of_items, request_text};
ghost use Rattle.update_lines.specs.Reading.{items_of};

use cli_core::{Input, JobFault, LineFault, Refusal, read_input, write_answer};
use cli_text::Task;
use dns_master::Sink;
use grant_policy::{Identifier, IdentifierFault};
use std::alloc::Global;
use update_lines::read_items;
use wire_json::update_text;
use zone_core::Update;

/// The most octets of a body that the office reads.
pub(crate) const BODY_MAX: usize = 65_536;

/// The identifier that a word is.
pub(crate) fn read_identifier(alloc: Global, word: &str) -> Result<Identifier, LineFault>
    ensures { Gives (λ id. id) result (identifier_in word.now) }
{
    match Identifier::read(alloc, word.as_bytes()) {
        Ok(id) => Ok(id),
        Err(IdentifierFault::Malformed) => Err(LineFault::Refused(Refusal::NoIdentifier)),
        Err(IdentifierFault::NoMemory) => Err(LineFault::NoMemory),
    }
}

/// The update of items, whose octets are given back.
fn read_update(alloc: Global, items: Vec<u8>) -> Result<Update, LineFault>
    ensures { Gives (λ update. update) result (of_items (items_of items.items)) }
{
    Ok(read_items(alloc, &items)?)
}

/// A body with a line end after it, unless it is too long.
pub(crate) fn body_line(body: String) -> Result<String, LineFault>
    ensures { Gives string_bytes result (body_line (string_bytes body)) }
{
    let mut line = body;
    line.push('\n')?;
    if line.len() > BODY_MAX {
        return Err(LineFault::Refused(Refusal::BodyTooLarge));
    }
    Ok(line)
}

/// The line of the body of items under an identifier.
fn body_of_items(alloc: Global, id: &Identifier, items: Vec<u8>) -> Result<String, LineFault>
    ensures { Gives string_bytes result (body_of_items id.now items.items) }
{
    let update = read_update(alloc, items)?;
    body_line(update_text(alloc, id, &update)?)
}

/// The line of the body of the items that a reader gives, under an identifier that is a word.
fn answer<R: Input>(alloc: Global, word: &str, reader: &mut R) -> Result<String, LineFault>
    ensures { GivesOf string_bytes (R.left reader.old) (request_text word.now) result (R.fine reader.old reader.new) (R.failed reader.old reader.new) }
{
    let id = read_identifier(alloc, word)?;
    let items = read_input(alloc, reader)?;
    body_of_items(alloc, &id, items)
}

/// The task `request`: to read the items of an update, and to print the body that asks the office for it under an identifier, as a
/// line. Otherwise one line tells the refusal that comes first: of the identifier, that the input is too large, of the items, that
/// the body has more than 65,536 octets.
#[derive(Clone, Copy)]
pub struct Request<'a> {
    /// The identifier of the update, a word of the command line.
    pub id: &'a str,
}

impl Task for Request<'_> {
    ghost answer = { λ r. request_text r.id.now };

    fn run<R: Input, W: Sink>(
        self,
        alloc: Global,
        reader: &mut R,
        writer: &mut W,
    ) -> Result<(), JobFault> {
        write_answer(alloc, writer, answer(alloc, self.id, reader))
    }
}
