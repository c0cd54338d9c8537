//! The bodies of the parts of an update, from its items.

ghost use Rattle.std.specs.Prelude.{◌≡◌, ◌<◌, ◌^◌, ◌++◌, ℕ, List, [], length, map, IfOk, OnOk, string_bytes};
ghost use Rattle.std.specs.List.{filter};
ghost use Rattle.zone_core.specs.Updates.{adds_soa};
ghost use Rattle.update_lines.specs.Views.{lists_view};
ghost use Rattle.cli_core.specs.LineFaults.{Gives, GivesOf};
ghost use Rattle.cli_updates.specs.Request.{identifier_in};
ghost use Rattle.cli_updates.specs.Slots.{lent};
ghost use Rattle.cli_updates.specs.Filling.{lent_operations, part_view};
ghost use Rattle.cli_updates.specs.PartLines.{IsPartLine, ArePartLines};
ghost use Rattle.cli_updates.specs.Split.{numbered, advance, advanced_data, advanced, part_update, part_body, with_body, bodies_behind, lists_in, split_items, split_text};

use crate::filling::Part;
use crate::guard::adds_soa;
use crate::pieces::split;
use crate::request::{body_line, read_identifier};
use cli_core::{Input, JobFault, LineFault, read_input, write_answer};
use cli_text::Task;
use dns_data::{Data, Record, Serial, Soa};
use dns_master::Sink;
use grant_policy::Identifier;
use std::alloc::{AllocError, Global};
use update_lines::{ItemLists, ItemsFault, read_item_lists};
use wire_json::update_text;
use zone_core::{Operation, Prerequisite, Update, UpdateFault, serial_add};

/// The most that is added to a serial (RFC 1982 section 3.1).
const ADVANCE_MAX: u32 = 0x7fff_ffff;

/// By how much serials are advanced after so many parts.
fn advance(before: usize) -> u32
    ensures { result ≡ advance before }
{
    if before < ADVANCE_MAX as usize {
        before as u32
    } else {
        ADVANCE_MAX
    }
}

/// Data with the serial of an SOA advanced. The only error is out of memory.
fn advanced_data(alloc: Global, by: u32, rdata: &Data) -> Result<Data, AllocError>
    requires { by < 2 ^ 31 }
    ensures { IfOk result (λ next. next ≡ advanced_data by rdata.now) }
{
    let Data::Soa(soa) = rdata else {
        return rdata.try_copy(alloc);
    };
    let mut next = soa.fields().try_copy(alloc)?;
    next.serial = Serial(serial_add(next.serial.0, by));
    Ok(Data::Soa(Soa::new(alloc, next)?))
}

/// An operation with the serial of an SOA that it adds advanced. The only error is out of memory.
fn advanced(alloc: Global, by: u32, operation: &Operation) -> Result<Operation, AllocError>
    requires { by < 2 ^ 31 }
    ensures { IfOk result (λ next. next ≡ advanced by operation.now) }
{
    let Operation::Add(record) = operation else {
        return operation.try_copy(alloc);
    };
    Ok(Operation::Add(Record {
        owner: record.owner.try_copy(alloc)?,
        ttl: record.ttl,
        rdata: advanced_data(alloc, by, &record.rdata)?,
    }))
}

/// The operations of a part, with serials advanced. The only error is out of memory.
fn advanced_all(
    alloc: Global,
    by: u32,
    operations: &[&Operation],
) -> Result<Vec<Operation>, AllocError>
    requires { by < 2 ^ 31 }
    ensures { IfOk result (λ all. all.items ≡ map (advanced by) (lent_operations operations.now)) }
{
    let mut all = Vec::with_capacity(alloc, operations.len())?;
    for operation in operations {
        all.push(advanced(alloc, by, operation)?)?;
    }
    Ok(all)
}

/// Copies of prerequisites. The only error is out of memory.
fn copied(alloc: Global, tests: &[&Prerequisite]) -> Result<Vec<Prerequisite>, AllocError>
    ensures { IfOk result (λ all. all.items ≡ lent tests.now) }
{
    let mut all = Vec::with_capacity(alloc, tests.len())?;
    for test in tests {
        all.push(test.try_copy(alloc)?)?;
    }
    Ok(all)
}

/// The update of a part after so many others.
fn part_update(alloc: Global, before: usize, part: &Part<'_>) -> Result<Update, LineFault>
    ensures { Gives (λ update. update) result (part_update before (part_view part.now)) }
{
    let tests = copied(alloc, &part.tests)?;
    let operations = advanced_all(alloc, advance(before), &part.operations)?;
    match Update::build(tests, operations) {
        Ok(update) => Ok(update),
        Err(fault) => Err(LineFault::from(ItemsFault::Update(fault))),
    }
}

/// The identifier of a part by its number. The only error of the text is out of memory.
fn numbered(alloc: Global, word: &str, number: usize) -> Result<String, AllocError>
    ensures { IfOk result (λ text. string_bytes text ≡ numbered word.now number) }
{
    format!(in alloc; "{word}-{number}")
}

/// The identifier of a part.
fn part_id(alloc: Global, word: &str, number: usize) -> Result<Identifier, LineFault>
    ensures { Gives (λ id. id) result (identifier_in (numbered word.now number)) }
{
    let text = numbered(alloc, word, number)?;
    read_identifier(alloc, text.as_str())
}

/// The line of the body of a part after so many others.
fn part_body(alloc: Global, word: &str, before: usize, part: &Part<'_>) -> Result<String, LineFault>
    requires { before < 2 ^ 63 }
    ensures exact { Gives string_bytes result (part_body word.now before (part_view part.now)) }
    // It is read as the part.
    ensures read { IfOk result (λ line. IsPartLine word.now before (part_view part.now) (string_bytes line)) }
{
    let id = part_id(alloc, word, before + 1)?;
    let update = part_update(alloc, before, part)?;
    body_line(update_text(alloc, &id, &update)?)
}

/// Puts the line of the body of a part after a text.
fn push_body(
    alloc: Global,
    text: &mut String,
    word: &str,
    before: usize,
    part: &Part<'_>,
) -> Result<(), LineFault>
    requires { before < 2 ^ 63 }
    ensures exact { Gives (λ done. string_bytes text.new) result (with_body word.now before (string_bytes text.old) (part_view part.now)) }
    ensures read { OnOk result
        ((line : List ℕ) × IsPartLine word.now before (part_view part.now) line × (string_bytes text.new ≡ string_bytes text.old ++ line)) }
{
    let body = part_body(alloc, word, before, part)?;
    text.push_str(body.as_str())?;
    Ok(())
}

/// The lines of the bodies of parts.
fn bodies(alloc: Global, word: &str, parts: &[Part<'_>]) -> Result<String, LineFault>
    ensures exact { Gives string_bytes result (bodies_behind word.now 0 [] (map part_view parts.now)) }
    // Each is read as its part.
    ensures read { IfOk result (λ text. ArePartLines word.now 0 (map part_view parts.now) (string_bytes text)) }
{
    let mut text = String::new(alloc);
    for (before, part) in parts.iter().enumerate() {
        push_body(alloc, &mut text, word, before, part)?;
    }
    Ok(text)
}

/// How many operations add an SOA.
fn soas_added(operations: &[Operation]) -> usize
    ensures { result ≡ length (filter adds_soa operations.now) }
{
    let mut soas = 0;
    for operation in operations {
        if adds_soa(operation) {
            soas += 1;
        }
    }
    soas
}

/// The prerequisites and the operations of items, however many there are, of which at most one adds an SOA.
fn read_lists(alloc: Global, items: Vec<u8>) -> Result<ItemLists, LineFault>
    ensures { Gives lists_view result (lists_in items.items) }
{
    let lists = read_item_lists(alloc, &items)?;
    if soas_added(&lists.operations) > 1 {
        return Err(LineFault::from(ItemsFault::Update(UpdateFault::TwoSoa)));
    }
    Ok(lists)
}

/// The lines of the bodies of the parts of items, which are measured under an identifier.
fn split_items(
    alloc: Global,
    word: &str,
    id: &Identifier,
    items: Vec<u8>,
) -> Result<String, LineFault>
    ensures { Gives string_bytes result (split_items word.now id.now items.items) }
{
    let lists = read_lists(alloc, items)?;
    let parts = split(alloc, id, &lists.prerequisites, &lists.operations)?;
    bodies(alloc, word, &parts)
}

/// The same of the items that a reader gives.
fn answer<R: Input>(alloc: Global, word: &str, reader: &mut R) -> Result<String, LineFault>
    ensures { GivesOf string_bytes (R.left reader.old) (split_text word.now) result (R.fine reader.old reader.new) (R.failed reader.old reader.new) }
{
    let id = part_id(alloc, word, 1)?;
    let items = read_input(alloc, reader)?;
    split_items(alloc, word, &id, items)
}

/// The task `request --split`: to read the items of an update, and to print the bodies that ask the office for it in parts, each as a
/// line: operations in order, and each prerequisite no later than the first operation at its name. Otherwise one line tells the refusal
/// that comes first: of the first identifier, that the input is too large, of the items; and of each part in order, of its identifier,
/// of its items, that its body has more than 65,536 octets.
#[derive(Clone, Copy)]
pub struct Split<'a> {
    /// With what the identifiers of the parts begin, a word of the command line.
    pub id: &'a str,
}

impl Task for Split<'_> {
    ghost answer = { λ s. split_text s.id.now };

    fn run<R: Input, W: Sink>(
        self,
        alloc: Global,
        reader: &mut R,
        writer: &mut W,
    ) -> Result<(), JobFault> {
        write_answer(alloc, writer, answer(alloc, self.id, reader))
    }
}
