//! The canonical text of an update.

ghost use Rattle.std.specs.Prelude.{◌≡◌, ◌++◌, IfOk, OnOk, string_bytes};
ghost use Rattle.std.specs.List.{flat_map};
ghost use Rattle.update_lines.specs.Texts.{name_line, set_line, datum_line, prerequisite_line, operation_line, update_text};

use dns_data::{Data, RecordType};
use dns_names::Name;
use std::alloc::{AllocError, Global};
use std::fmt::Write;
use zone_core::{Operation, Prerequisite, Update};

/// Appends the line of a word and a name. The only error is out of memory.
fn push_name(text: &mut String, word: &str, name: &Name) -> Result<(), AllocError>
    ensures { OnOk result (string_bytes text.new ≡ string_bytes text.old ++ name_line word.now name.now) }
{
    writeln!(text, "{word} {name}")
}

/// Appends the line of a word, a name and a type. The only error is out of memory.
fn push_set(
    text: &mut String,
    word: &str,
    name: &Name,
    record_type: RecordType,
) -> Result<(), AllocError>
    ensures { OnOk result (string_bytes text.new ≡ string_bytes text.old ++ set_line word.now name.now record_type) }
{
    let record_type = record_type.text();
    writeln!(text, "{word} {name} {record_type}")
}

/// Appends the line of a word, a name, a type and data of it. The only error is out of memory.
fn push_datum(text: &mut String, word: &str, name: &Name, rdata: &Data) -> Result<(), AllocError>
    ensures { OnOk result (string_bytes text.new ≡ string_bytes text.old ++ datum_line word.now name.now rdata.now) }
{
    let record_type = rdata.record_type().text();
    writeln!(text, "{word} {name} {record_type} {rdata}")
}

/// Appends the line of a prerequisite. The only error is out of memory.
fn push_prerequisite(text: &mut String, prerequisite: &Prerequisite) -> Result<(), AllocError>
    ensures { OnOk result (string_bytes text.new ≡ string_bytes text.old ++ prerequisite_line prerequisite.now) }
{
    let word = prerequisite.kind().text();
    match prerequisite {
        Prerequisite::RrsetExists { name, record_type }
        | Prerequisite::RrsetAbsent { name, record_type } => {
            push_set(text, word, name, *record_type)
        }
        Prerequisite::RrsetEquals { name, rdata } => push_datum(text, word, name, rdata),
        Prerequisite::NameUsed(name) | Prerequisite::NameUnused(name) => {
            push_name(text, word, name)
        }
    }
}

/// Appends the line of an operation. The only error is out of memory.
fn push_operation(text: &mut String, operation: &Operation) -> Result<(), AllocError>
    ensures { OnOk result (string_bytes text.new ≡ string_bytes text.old ++ operation_line operation.now) }
{
    let word = operation.kind().text();
    match operation {
        Operation::Add(rr) => {
            let name = &rr.owner;
            let ttl = rr.ttl.seconds();
            let record_type = rr.record_type().text();
            let rdata = &rr.rdata;
            writeln!(text, "{word} {name} {ttl} {record_type} {rdata}")
        }
        Operation::DeleteRrset { name, record_type } => push_set(text, word, name, *record_type),
        Operation::DeleteName(name) => push_name(text, word, name),
        Operation::DeleteRecord { name, rdata } => push_datum(text, word, name, rdata),
    }
}

/// Appends the lines of prerequisites. The only error is out of memory.
fn push_prerequisites(text: &mut String, prerequisites: &[Prerequisite]) -> Result<(), AllocError>
    ensures { OnOk result (string_bytes text.new ≡ string_bytes text.old ++ flat_map prerequisite_line prerequisites.now) }
{
    for prerequisite in prerequisites {
        push_prerequisite(text, prerequisite)?;
    }
    Ok(())
}

/// Appends the lines of operations. The only error is out of memory.
fn push_operations(text: &mut String, operations: &[Operation]) -> Result<(), AllocError>
    ensures { OnOk result (string_bytes text.new ≡ string_bytes text.old ++ flat_map operation_line operations.now) }
{
    for operation in operations {
        push_operation(text, operation)?;
    }
    Ok(())
}

/// The canonical text of prerequisites and operations: the prerequisites, and then the operations, each list in its order, one item
/// a line that a line feed ends, as `items_text` prints them. There may be more of them than an update has. The only error is out of
/// memory.
pub fn lists_text(
    alloc: Global,
    prerequisites: &[Prerequisite],
    operations: &[Operation],
) -> Result<String, AllocError>
    ensures canonical { IfOk result (λ text. string_bytes text ≡ update_text (record { prerequisites = prerequisites.now; operations = operations.now })) }
{
    let mut text = String::new(alloc);
    push_prerequisites(&mut text, prerequisites)?;
    push_operations(&mut text, operations)?;
    Ok(text)
}

/// The canonical text of an update, which `read_items` reads: the prerequisites, and then the operations, each list in its
/// order, one item a line that a line feed ends. Fields have one space between them; names, types and data have their canonical
/// texts, and the TTL is its seconds in decimal digits. The only error is out of memory.
pub fn items_text(alloc: Global, update: &Update) -> Result<String, AllocError>
    ensures canonical { IfOk result (λ text. string_bytes text ≡ update_text update.now) }
{
    lists_text(alloc, update.prerequisites(), update.operations())
}
