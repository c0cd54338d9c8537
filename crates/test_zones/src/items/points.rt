//! What items ask for, and whether a policy permits them.

use crate::refusal::Refusal;
use dns_data::RecordType;
use dns_names::Name;
use grant_policy::{Action, Identifier, LookUps, Policy};
use office_core::{Denial, denied, operation_asks, prerequisite_asks};
use std::alloc::Global;
use test_rows::Row;
use update_lines::read_items;
use zone_core::{ItemList, Update};

/// Appends the points of an item of an update of the zone of this origin, by type number.
pub fn push_points(
    alloc: Global,
    origin: &[u8],
    item: &[u8],
    answer: &mut Vec<u8>,
) -> Result<(), Refusal> {
    let origin = Name::read_absolute(alloc, origin)?;
    push_all_points(&origin, &read_items(alloc, item)?, answer)
}

fn push_all_points(origin: &Name, update: &Update, answer: &mut Vec<u8>) -> Result<(), Refusal> {
    for record_type in RecordType::ALL {
        for test in update.prerequisites() {
            push_point(record_type, prerequisite_asks(test, record_type), answer)?;
        }
        for change in update.operations() {
            push_point(
                record_type,
                operation_asks(origin, change, record_type),
                answer,
            )?;
        }
    }
    Ok(())
}

fn push_point(
    record_type: RecordType,
    asked: Option<Action>,
    answer: &mut Vec<u8>,
) -> Result<(), Refusal> {
    if let Some(action) = asked {
        if !answer.is_empty() {
            answer.extend_from_slice(b", ")?;
        }
        answer.extend_from_slice(action.text().as_bytes())?;
        answer.push(b' ')?;
        answer.extend_from_slice(record_type.text().as_bytes())?;
    }
    Ok(())
}

/// Appends whether a policy permits the items below to the caller in the zone of the origin: else which of them is denied first,
/// by its list and its number from 0, and by which rule.
pub fn push_denial(
    alloc: Global,
    policy: &Policy,
    row: &Row<'_>,
    answer: &mut Vec<u8>,
) -> Result<(), Refusal> {
    let (caller, origin) = row.split();
    let update = read_items(alloc, &row.body)?;
    push_first_denial(alloc, policy, (caller, origin), &update, answer)
}

fn push_first_denial(
    alloc: Global,
    policy: &Policy,
    (caller, origin): (&[u8], &[u8]),
    update: &Update,
    answer: &mut Vec<u8>,
) -> Result<(), Refusal> {
    let caller = Identifier::read(alloc, caller)?;
    let origin = Name::read_absolute(alloc, origin)?;
    let mut look_ups = LookUps::new();
    match denied(policy, &caller, &origin, update, &mut look_ups) {
        Some(denial) => push_place(alloc, &denial, answer),
        None => Ok(answer.extend_from_slice(b"permitted")?),
    }
}

fn push_place(alloc: Global, denial: &Denial<'_>, answer: &mut Vec<u8>) -> Result<(), Refusal> {
    let list = match denial.place.list {
        ItemList::Prerequisites => "prerequisite",
        ItemList::Operations => "operation",
    };
    let place = format!(in alloc; "{list} {} denied by ", denial.place.item)?;
    answer.extend_from_slice(place.as_bytes())?;
    Ok(answer.extend_from_slice(denial.rule())?)
}
