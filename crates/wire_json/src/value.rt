//! JSON values: their objects, texts and arrays.

ghost use Rattle.std.specs.Prelude.{◌≡◌, is_some, string_bytes, bytes_eq, option_map, IfOk, OnOk};
ghost use Rattle.std.specs.List.{list_any, list_all};
ghost use Rattle.std.specs.BTreeMap.{keys};
ghost use Rattle.serde_json.specs.Find.{as_array};
ghost use Rattle.serde_json.specs.View.{view, items_view, members_view};
ghost use Rattle.wire_json.specs.Fields.{field_text};
ghost use Rattle.wire_json.specs.Faults.{Gives};
ghost use Rattle.wire_json.specs.Bodies.{json_of, at, has_only, HasOnly, IsText, IsArray, IsArrayOrAbsent};
ghost use Rattle.wire_json.specs.Reading.{or_no_json, members_in, fields_in, text_at, text_in, items_in, items_or_none, word_in};

use crate::body_fault::BodyFault;
use crate::field::Field;
use serde_json::{Map, Value};
use std::alloc::Global;

/// The JSON value of a body.
pub(crate) fn json_of(alloc: Global, body: &[u8]) -> Result<Value, BodyFault>
    ensures { Gives view result (or_no_json (json_of body.now)) }
{
    match Value::from_slice(alloc, body) {
        Ok(value) => Ok(value),
        Err(fault) if fault.is_memory() => Err(BodyFault::NoMemory),
        Err(_) => Err(BodyFault::NotJson),
    }
}

/// The members of an object.
fn members(value: &Value) -> Result<&Map<String, Value>, BodyFault>
    ensures { Gives (λ ms. members_view ms.now.entries) result (members_in (view value.now)) }
{
    value.as_object().ok_or(BodyFault::BadField)
}

/// Whether a key is one of these fields.
fn is_known(fields: &[Field], key: &str) -> bool
    ensures { result ≡ list_any (λ f. bytes_eq (field_text f) key.now) fields.now }
{
    fields.iter().any(|field| field.text() == key)
}

/// Whether all keys are of these fields.
fn are_known(members: &Map<String, Value>, fields: &[Field]) -> bool
    ensures { result ≡ list_all (λ k. list_any (λ f. bytes_eq (field_text f) (string_bytes k)) fields.now) (keys members.now) }
{
    members.keys().all(|key| is_known(fields, key.as_str()))
}

/// Whether an object has no other members than these fields.
fn has_only(members: &Map<String, Value>, fields: &[Field]) -> bool
    ensures { result ≡ has_only fields.now (members_view members.now.entries) }
{
    are_known(members, fields)
}

/// Whether a field is there.
fn has(value: &Value, field: Field) -> bool
    ensures { result ≡ is_some (at field (view value.now)) }
{
    value.get(field.text()).is_some()
}

/// Whether all of these fields are there.
fn has_all(value: &Value, fields: &[Field]) -> bool
    ensures { result ≡ list_all (λ f. is_some (at f (view value.now))) fields.now }
{
    fields.iter().all(|field| has(value, *field))
}

/// Tests that a value is an object which has no fields but the known ones, and of these all that are needed.
pub(crate) fn check_fields(
    value: &Value,
    known: &[Field],
    needed: &[Field],
) -> Result<(), BodyFault>
    ensures exact { Gives (λ done. done) result (fields_in known.now needed.now (view value.now)) }
    ensures found { OnOk result (HasOnly known.now (view value.now)) }
{
    let members = members(value)?;
    if !has_only(members, known) {
        return Err(BodyFault::UnknownField);
    }
    if !has_all(value, needed) {
        return Err(BodyFault::MissingField);
    }
    Ok(())
}

/// The text of a field, where it is one.
fn text_at<'a>(value: &'a Value, field: Field) -> Option<&'a str>
    ensures { option_map (λ text. text.now) result ≡ text_at field (view value.entry.now) }
{
    value.get(field.text()).and_then(Value::as_str)
}

/// The text of a field.
pub(crate) fn read_text<'a>(value: &'a Value, field: Field) -> Result<&'a str, BodyFault>
    ensures exact { Gives (λ text. text.now) result (text_in field (view value.entry.now)) }
    ensures found { IfOk result (λ text. IsText field text.now (view value.entry.now)) }
{
    text_at(value, field).ok_or(BodyFault::BadField)
}

/// The word of an item, which is a field of it.
pub(crate) fn read_word<'a>(value: &'a Value, field: Field) -> Result<&'a str, BodyFault>
    ensures exact { Gives (λ text. text.now) result (word_in field (view value.entry.now)) }
    ensures found { IfOk result (λ text. IsText field text.now (view value.entry.now)) }
{
    members(value)?;
    if !has_all(value, &[field]) {
        return Err(BodyFault::MissingField);
    }
    read_text(value, field)
}

/// The items of an array.
fn array_items(value: &Value) -> Option<&[Value]>
    ensures { option_map (λ items. items_view items.now) result ≡ as_array (view value.now) }
{
    match value.as_array() {
        Some(items) => Some(items),
        None => None,
    }
}

/// The items of a field that is an array.
pub(crate) fn read_items<'a>(value: &'a Value, field: Field) -> Result<&'a [Value], BodyFault>
    ensures exact { Gives (λ items. items_view items.now) result (items_in field (view value.entry.now)) }
    ensures found { IfOk result (λ items. IsArray field (items_view items.now) (view value.entry.now)) }
{
    value
        .get(field.text())
        .and_then(array_items)
        .ok_or(BodyFault::BadField)
}

/// The items of a field that is an array, and none where the field is absent.
pub(crate) fn read_items_or_none<'a>(
    value: &'a Value,
    field: Field,
) -> Result<&'a [Value], BodyFault>
    ensures exact { Gives (λ items. items_view items.now) result (items_or_none (at field (view value.entry.now))) }
    ensures found { IfOk result (λ items. IsArrayOrAbsent field (items_view items.now) (view value.entry.now)) }
{
    match value.get(field.text()) {
        Some(found) => array_items(found).ok_or(BodyFault::BadField),
        None => Ok(&[]),
    }
}
