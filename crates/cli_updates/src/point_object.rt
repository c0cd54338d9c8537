//! What a policy decides of what an item of an update asks for, as an object of JSON.

ghost use Rattle.std.specs.Prelude.{◌≡◌, ◌++◌, ◌∷◌, [], OnOk, decimal};
ghost use Rattle.grant_policy.specs.Decisions.{verdict_of};
ghost use Rattle.cli_updates.specs.PointObjects.{decided_object, item_key, place_members, name_members};
ghost use Rattle.cli_updates.specs.Explained.{point_in};

use crate::explained::AskedPoint;
use cli_text::{push_owner, push_string};
use grant_policy::Decision;
use std::alloc::{AllocError, Global};
use std::fmt::Write as _;

/// What stands before the number of the item: whether it is granted, and the key.
const fn item_key(decision: Decision<'_>) -> &'static str
    ensures { result.now ≡ item_key (verdict_of decision.entry) }
{
    match decision {
        Decision::Granted(_) => r#","granted":true,"item":"#,
        Decision::Denied(_) => r#","granted":false,"item":"#,
    }
}

/// Appends a text, and after it a number. The only error is out of memory.
pub(crate) fn push_number(
    text: &mut Vec<u8>,
    line: &mut String,
    key: &str,
    number: u64,
) -> Result<(), AllocError>
    ensures { OnOk result (text.new.items ≡ text.old.items ++ (key.now ++ decimal number)) }
{
    text.extend_from_slice(key.as_bytes())?;
    line.clear();
    write!(line, "{number}")?;
    text.extend_from_slice(line.as_bytes())
}

/// Appends the members up to the list, and the brace before them. The only error is out of memory.
fn push_place(
    text: &mut Vec<u8>,
    line: &mut String,
    point: AskedPoint<'_>,
    decision: Decision<'_>,
) -> Result<(), AllocError>
    ensures { OnOk result (text.new.items ≡ text.old.items ++ place_members (point_in point.entry) (verdict_of decision.entry)) }
{
    push_string(text, r#"{"action":"#, point.action.text().as_bytes())?;
    push_number(text, line, item_key(decision), point.place.item as u64)?;
    push_string(text, r#","list":"#, point.place.list.text().as_bytes())
}

/// Appends the members from the name on, and the brace after them. The only error is out of memory.
fn push_named(
    text: &mut Vec<u8>,
    line: &mut String,
    point: AskedPoint<'_>,
    decision: Decision<'_>,
) -> Result<(), AllocError>
    ensures { OnOk result (text.new.items ≡ text.old.items ++ name_members (point_in point.entry) (verdict_of decision.entry)) }
{
    push_owner(text, line, r#","name":"#, point.name)?;
    push_string(text, r#","rule":"#, decision.rule())?;
    push_string(text, r#","type":"#, point.record_type.text().as_bytes())?;
    text.push(b'}')?;
    Ok(())
}

/// Appends the object of a point and of what is decided, and a comma. The only error is out of memory.
pub(crate) fn push_object(
    alloc: Global,
    text: &mut Vec<u8>,
    point: AskedPoint<'_>,
    decision: Decision<'_>,
) -> Result<(), AllocError>
    ensures { OnOk result (text.new.items ≡ text.old.items ++ (decided_object (point_in point.entry) (verdict_of decision.entry) ++ 44 ∷ [])) }
{
    let mut line = String::new(alloc);
    push_place(text, &mut line, point, decision)?;
    push_named(text, &mut line, point, decision)?;
    text.push(b',')?;
    Ok(())
}
