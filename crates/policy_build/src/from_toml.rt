//! What is read of the values of a TOML document.

ghost use Rattle.std.specs.Prelude.{◌≡◌, Result, [], bytes_eq, string_bytes};
ghost use Rattle.std.specs.BTreeMap.{keys};
ghost use Rattle.std.specs.List.{list_any, list_all};
ghost use Rattle.toml.specs.Data.{Data};
ghost use Rattle.toml.specs.View.{view, items_view, table_view};
ghost use Rattle.policy_build.specs.declared.build_fault.BuildFault.{BuildFault as FaultOf};
ghost use Rattle.policy_build.specs.declared.place.Place.{Place as PlaceOf};
ghost use Rattle.policy_build.specs.Faults.{Reads};
ghost use Rattle.policy_build.specs.Places.{key_text};
ghost use Rattle.policy_build.specs.Reading.{text_in, table_in, items_from, one_of, list_of, key_of, optional_of, known_keys};

use crate::build_fault::BuildFault;
use crate::place::{FileKey, Place};
use std::alloc::Global;
use toml::{Table, Value};

/// What a value of a document may stand for.
pub(crate) trait FromToml: Drop {
    ghost read_of: { PlaceOf → Data → Result Self FaultOf };

    /// What the value at a place stands for, or the refusal that comes first.
    fn read(alloc: Global, place: Place, value: &Value) -> Result<Self, BuildFault>
        ensures { Reads (λ x. x) result (read_of place (view value.now)) };
}

/// The text of a value.
pub(crate) fn text_at(place: Place, value: &Value) -> Result<&str, BuildFault>
    ensures { Reads (λ text. text.now) result (text_in place (view value.now)) }
{
    value.as_str().ok_or(BuildFault::BadValue(place))
}

/// The table of a value.
pub(crate) fn table_at(place: Place, value: &Value) -> Result<&Table, BuildFault>
    ensures { Reads (λ table. table_view table.now) result (table_in place (view value.now)) }
{
    value.as_table().ok_or(BuildFault::BadValue(place))
}

/// The items of an array, in order.
fn items<T: FromToml>(alloc: Global, place: Place, values: &[Value]) -> Result<Vec<T>, BuildFault>
    ensures { Reads (λ items. items.items) result (items_from T.read_of place [] (items_view values.now)) }
{
    let mut items = Vec::new(alloc);
    for (i, value) in values.iter().enumerate() {
        items.push(T::read(alloc, place.nth(i + 1), value)?)?;
    }
    Ok(items)
}

/// The only item of a value that is no array.
fn one<T: FromToml>(alloc: Global, place: Place, value: &Value) -> Result<Vec<T>, BuildFault>
    ensures { Reads (λ items. items.items) result (one_of T.read_of place (view value.now)) }
{
    let mut items = Vec::new(alloc);
    items.push(T::read(alloc, place.nth(1), value)?)?;
    Ok(items)
}

/// The items of an array of one or more, or of a value that stands for an array of it.
pub(crate) fn list<T: FromToml>(
    alloc: Global,
    place: Place,
    value: &Value,
) -> Result<Vec<T>, BuildFault>
    ensures { Reads (λ items. items.items) result (list_of T.read_of place (view value.now)) }
{
    match value.as_array() {
        Some(values) if values.is_empty() => Err(BuildFault::Empty(place)),
        Some(values) => items(alloc, place, values),
        None => one(alloc, place, value),
    }
}

/// What the value at a key of a table stands for.
pub(crate) fn at_key<T: FromToml>(
    alloc: Global,
    place: Place,
    table: &Table,
    key: FileKey,
) -> Result<T, BuildFault>
    ensures { Reads (λ x. x) result (key_of T.read_of place key (table_view table.now)) }
{
    match table.get(key.text()) {
        Some(value) => T::read(alloc, place.at(key), value),
        None => Err(BuildFault::MissingKey(place.at(key))),
    }
}

/// The items at a key of a table.
pub(crate) fn list_at<T: FromToml>(
    alloc: Global,
    place: Place,
    table: &Table,
    key: FileKey,
) -> Result<Vec<T>, BuildFault>
    ensures { Reads (λ items. items.items) result (key_of (list_of T.read_of) place key (table_view table.now)) }
{
    match table.get(key.text()) {
        Some(value) => list(alloc, place.at(key), value),
        None => Err(BuildFault::MissingKey(place.at(key))),
    }
}

/// The items at a key of a table, which may lack it.
pub(crate) fn optional_list_at<T: FromToml>(
    alloc: Global,
    place: Place,
    table: &Table,
    key: FileKey,
) -> Result<Vec<T>, BuildFault>
    ensures { Reads (λ items. items.items) result (optional_of T.read_of place key (table_view table.now)) }
{
    match table.get(key.text()) {
        Some(value) => list(alloc, place.at(key), value),
        None => Ok(Vec::new(alloc)),
    }
}

/// Whether a text is one of some keys.
fn is_key(keys: &[FileKey], text: &str) -> bool
    ensures { result ≡ list_any (λ key. bytes_eq (key_text key) text.now) keys.now }
{
    keys.iter().any(|key| key.text() == text)
}

/// Whether all keys of a table are among some.
fn are_keys(known: &[FileKey], table: &Table) -> bool
    ensures { result ≡ list_all (λ k. list_any (λ key. bytes_eq (key_text key) (string_bytes k)) known.now) (keys table.now) }
{
    table.keys().all(|key| is_key(known, key.as_str()))
}

/// Checks that a table has no other keys.
pub(crate) fn check_keys(place: Place, table: &Table, known: &[FileKey]) -> Result<(), BuildFault>
    ensures { Reads (λ _. tt) result (known_keys known.now place (table_view table.now)) }
{
    if !are_keys(known, table) {
        return Err(BuildFault::UnknownKey(place));
    }
    Ok(())
}
