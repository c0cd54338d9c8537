//! The text of an update, as the body of a request.

ghost use Rattle.std.specs.Prelude.{◌≡◌, map, string_bytes, IfOk, OnOk, Ok};
ghost use Rattle.serde_json.specs.Data.{string, put};
ghost use Rattle.serde_json.specs.View.{view, members_view};
ghost use Rattle.dns_names.specs.Spelling.{name_text};
ghost use Rattle.dns_data.specs.Types.{type_text};
ghost use Rattle.dns_data.specs.Rdata.{type_of};
ghost use Rattle.dns_data.specs.Text.{data_text};
ghost use Rattle.grant_policy.specs.Identifiers.{IsIdentifier};
ghost use Rattle.zone_core.specs.Updates.{IsUpdate};
ghost use Rattle.wire_json.specs.Fields.{field_text};
ghost use Rattle.wire_json.specs.Reading.{update_of_body};
ghost use Rattle.wire_json.specs.UpdateTexts.{prerequisite_value, operation_value, update_value, update_text};

use crate::field::Field;
use dns_data::{Data, RecordType};
use dns_names::Name;
use grant_policy::Identifier;
use serde_json::{Map, Value};
use std::alloc::{AllocError, Global};
use zone_core::{Operation, Prerequisite, Update};

/// Puts a text at a field. The only error is out of memory.
fn put_text(
    members: &mut Map<String, Value>,
    alloc: Global,
    field: Field,
    text: String,
) -> Result<(), AllocError>
    ensures { OnOk result (members_view members.new.entries ≡ put (field_text field) (string (string_bytes text)) (members_view members.old.entries)) }
{
    serde_json::put(members, alloc, field.text(), Value::String(text))
}

/// Puts a word at a field. The only error is out of memory.
fn put_word(
    members: &mut Map<String, Value>,
    alloc: Global,
    field: Field,
    word: &str,
) -> Result<(), AllocError>
    ensures { OnOk result (members_view members.new.entries ≡ put (field_text field) (string word.now) (members_view members.old.entries)) }
{
    put_text(members, alloc, field, String::from_str(alloc, word)?)
}

/// Puts a name at its field. The only error is out of memory.
fn put_name(members: &mut Map<String, Value>, alloc: Global, name: &Name) -> Result<(), AllocError>
    ensures { OnOk result (members_view members.new.entries ≡ put (field_text Field.Name) (string (name_text name.now)) (members_view members.old.entries)) }
{
    put_text(members, alloc, Field::Name, format!(in alloc; "{name}")?)
}

/// Puts a name and a type at their fields. The only error is out of memory.
fn put_set(
    members: &mut Map<String, Value>,
    alloc: Global,
    name: &Name,
    record_type: RecordType,
) -> Result<(), AllocError>
    ensures { OnOk result
        (members_view members.new.entries
        ≡ put (field_text Field.Type) (string (type_text record_type))
        (put (field_text Field.Name) (string (name_text name.now)) (members_view members.old.entries))) }
{
    put_name(members, alloc, name)?;
    put_word(members, alloc, Field::Type, record_type.text())
}

/// Puts a name, a type and data of it at their fields. The only error is out of memory.
fn put_datum(
    members: &mut Map<String, Value>,
    alloc: Global,
    name: &Name,
    rdata: &Data,
) -> Result<(), AllocError>
    ensures { OnOk result
        (members_view members.new.entries
        ≡ put (field_text Field.Data) (string (data_text rdata.now))
        (put (field_text Field.Type) (string (type_text (type_of rdata.now)))
        (put (field_text Field.Name) (string (name_text name.now)) (members_view members.old.entries)))) }
{
    put_set(members, alloc, name, rdata.record_type())?;
    put_text(members, alloc, Field::Data, format!(in alloc; "{rdata}")?)
}

/// The value of a prerequisite. The only error is out of memory.
fn prerequisite_value(alloc: Global, prerequisite: &Prerequisite) -> Result<Value, AllocError>
    ensures { IfOk result (λ v. view v ≡ prerequisite_value prerequisite.now) }
{
    let mut members = Map::new(alloc);
    put_word(&mut members, alloc, Field::Test, prerequisite.kind().text())?;
    match prerequisite {
        Prerequisite::RrsetExists { name, record_type }
        | Prerequisite::RrsetAbsent { name, record_type } => {
            put_set(&mut members, alloc, name, *record_type)?;
        }
        Prerequisite::RrsetEquals { name, rdata } => {
            put_datum(&mut members, alloc, name, rdata)?;
        }
        Prerequisite::NameUsed(name) | Prerequisite::NameUnused(name) => {
            put_name(&mut members, alloc, name)?;
        }
    }
    Ok(Value::Object(members))
}

/// The value of an operation. The only error is out of memory.
fn operation_value(alloc: Global, operation: &Operation) -> Result<Value, AllocError>
    ensures { IfOk result (λ v. view v ≡ operation_value operation.now) }
{
    let mut members = Map::new(alloc);
    put_word(&mut members, alloc, Field::Op, operation.kind().text())?;
    match operation {
        Operation::Add(rr) => {
            put_datum(&mut members, alloc, &rr.owner, &rr.rdata)?;
            let ttl = Value::from(rr.ttl.seconds());
            serde_json::put(&mut members, alloc, Field::Ttl.text(), ttl)?;
        }
        Operation::DeleteRrset { name, record_type } => {
            put_set(&mut members, alloc, name, *record_type)?;
        }
        Operation::DeleteName(name) => put_name(&mut members, alloc, name)?,
        Operation::DeleteRecord { name, rdata } => {
            put_datum(&mut members, alloc, name, rdata)?;
        }
    }
    Ok(Value::Object(members))
}

/// The values of prerequisites. The only error is out of memory.
fn prerequisite_values(
    alloc: Global,
    prerequisites: &[Prerequisite],
) -> Result<Vec<Value>, AllocError>
    ensures { IfOk result (λ vs. map view vs.items ≡ map prerequisite_value prerequisites.now) }
{
    let mut values = Vec::new(alloc);
    for prerequisite in prerequisites {
        values.push(prerequisite_value(alloc, prerequisite)?)?;
    }
    Ok(values)
}

/// The values of operations. The only error is out of memory.
fn operation_values(alloc: Global, operations: &[Operation]) -> Result<Vec<Value>, AllocError>
    ensures { IfOk result (λ vs. map view vs.items ≡ map operation_value operations.now) }
{
    let mut values = Vec::new(alloc);
    for operation in operations {
        values.push(operation_value(alloc, operation)?)?;
    }
    Ok(values)
}

/// The value of an update under an identifier. The only error is out of memory.
fn update_value(alloc: Global, id: &Identifier, update: &Update) -> Result<Value, AllocError>
    ensures value { IfOk result (λ v. view v ≡ update_value id.now update.now) }
    // What both are.
    ensures identifier { IfOk result (λ _. IsIdentifier id.now) }
    ensures update { IfOk result (λ _. IsUpdate update.now) }
{
    let mut members = Map::new(alloc);
    put_word(&mut members, alloc, Field::Id, id.as_str())?;
    let operations = Value::Array(operation_values(alloc, update.operations())?);
    serde_json::put(&mut members, alloc, Field::Operations.text(), operations)?;
    let prerequisites = Value::Array(prerequisite_values(alloc, update.prerequisites())?);
    serde_json::put(
        &mut members,
        alloc,
        Field::Prerequisites.text(),
        prerequisites,
    )?;
    Ok(Value::Object(members))
}

/// The text of an update under an identifier, as the body of a request: a JSON object without white space, whose keys stand in byte
/// order. `read_update` reads it as this identifier and this update. The only error is out of memory.
pub fn update_text(alloc: Global, id: &Identifier, update: &Update) -> Result<String, AllocError>
    // Which text it is.
    ensures canonical { IfOk result (λ text. string_bytes text ≡ update_text id.now update.now) }
    // It is read as what it was made of.
    ensures again { IfOk result (λ text. update_of_body (string_bytes text) ≡ Ok (record { id = id.now; update = update.now })) }
{
    let text = update_value(alloc, id, update)?.to_string(alloc)?;
    Ok(text)
}
