//! The bodies of updates.

ghost use Rattle.std.specs.Prelude.{◌≡◌, ℕ, List, IfOk};
ghost use Rattle.serde_json.specs.View.{view, items_view};
ghost use Rattle.zone_core.specs.Updates.{UpdateOf, IsUpdate, update_of};
ghost use Rattle.wire_json.specs.Faults.{Gives, of_updates};
ghost use Rattle.wire_json.specs.Bodies.{AreItems, IsPrerequisiteBody, IsOperationBody, IsUpdateValue, IsUpdateBody};
ghost use Rattle.wire_json.specs.Reading.{few, lists_in, body_with, update_in, update_of_body};

use crate::body::UpdateBody;
use crate::body_fault::BodyFault;
use crate::field::Field;
use crate::field_values::read_id;
use crate::item::{read_operations, read_prerequisites};
use crate::value::{check_fields, json_of, read_items, read_items_or_none};
use serde_json::Value;
use std::alloc::Global;
use zone_core::{Update, UpdateFault};

#[tactic(auto, using(crate::proofs::ValueLemmas::counted))]
/// Tests that there are no more items than an update has.
fn check_counts(prerequisites: &[Value], operations: &[Value]) -> Result<(), BodyFault>
    ensures { Gives (λ done. done) result (few (items_view prerequisites.now) (items_view operations.now)) }
{
    if prerequisites.len() > Update::PREREQUISITES_MAX
        || operations.len() > Update::OPERATIONS_MAX
    {
        return Err(BodyFault::Update(UpdateFault::TooManyItems));
    }
    Ok(())
}

/// The update of arrays of prerequisites and of operations.
fn read_lists(
    alloc: Global,
    prerequisites: &[Value],
    operations: &[Value],
) -> Result<Update, BodyFault>
    ensures update { IfOk result IsUpdate }
    ensures exact { Gives (λ update. update) result (lists_in (items_view prerequisites.now) (items_view operations.now)) }
    ensures tests { IfOk result (λ update. AreItems IsPrerequisiteBody update.prerequisites (items_view prerequisites.now)) }
    ensures changes { IfOk result (λ update. AreItems IsOperationBody update.operations (items_view operations.now)) }
{
    check_counts(prerequisites, operations)?;
    let prerequisites = read_prerequisites(alloc, prerequisites)?;
    let operations = read_operations(alloc, operations)?;
    Ok(Update::build(prerequisites, operations)?)
}

/// The update of a JSON value.
fn read_value(alloc: Global, value: &Value) -> Result<UpdateBody, BodyFault>
    ensures update { IfOk result (λ body. IsUpdate body.update) }
    ensures exact { Gives (λ body. body) result (update_in (view value.now)) }
    ensures found { IfOk result (λ body. IsUpdateValue body.id body.update (view value.now)) }
{
    let known = [Field::Id, Field::Prerequisites, Field::Operations];
    check_fields(value, &known, &[Field::Id, Field::Operations])?;
    let id = read_id(alloc, value)?;
    let prerequisites = read_items_or_none(value, Field::Prerequisites)?;
    let operations = read_items(value, Field::Operations)?;
    let update = read_lists(alloc, prerequisites, operations)?;
    Ok(UpdateBody { id, update })
}

/// Reads the body of an update (RFC 2136 section 2), a JSON object in UTF-8 (RFC 8259). Of a key that comes twice the last value
/// stays.
///
/// ```text
/// {"id": "a1",
///  "prerequisites": [{"test": "rrset-exists", "name": "www.example.org.", "type": "A"}],
///  "operations": [{"op": "add", "name": "www.example.org.", "ttl": 300, "type": "A", "data": "192.0.2.5"}]}
/// ```
///
/// `prerequisites` may be absent. `id` is an identifier, names are absolute texts, `ttl` is a whole number of seconds, 0 to
/// 2,147,483,647, `type` is read in either letter case, and `data` is a text with the items of one entry of a master file.
///
/// Of several refusals the first of these is answered: `NotJson`; `BadField` where the body is no object; `UnknownField`;
/// `MissingField`; `BadField` for `id`, and where a list is no array; `Update` with `TooManyItems` above 64 prerequisites or
/// 256 operations; then item by item, prerequisites first, `BadField` where it is no object, `MissingField` without its word,
/// `BadField` where the word names nothing, `UnknownField`, `MissingField`, and `BadField` for its values; then `Update` with
/// `TwoSoa`. `NoMemory` comes at the growth that was refused.
pub fn read_update(alloc: Global, body: &[u8]) -> Result<UpdateBody, BodyFault>
    // What is read is what the body asks for.
    ensures found { IfOk result (λ read. IsUpdateBody body.now read.id read.update) }
    // What is read is an update.
    ensures update { IfOk result (λ read. IsUpdate read.update) }
    // A body that asks for these lists is read as their update, or refused as they are, unless memory runs out.
    ensures only { (id : List ℕ) (update : UpdateOf) → IsUpdateBody body.now id update
        → Gives (λ read. read) result (body_with id (of_updates (update_of update.prerequisites update.operations))) }
    // Which refusal it is.
    ensures exact { Gives (λ read. read) result (update_of_body body.now) }
{
    update_of_body(alloc, body)
}

/// The update of a body, or its first refusal.
fn update_of_body(alloc: Global, body: &[u8]) -> Result<UpdateBody, BodyFault>
    ensures found { IfOk result (λ read. IsUpdateBody body.now read.id read.update) }
    ensures update { IfOk result (λ read. IsUpdate read.update) }
    ensures exact { Gives (λ read. read) result (update_of_body body.now) }
{
    let value = json_of(alloc, body)?;
    read_value(alloc, &value)
}
