//! What the items of an update ask for.
//!
//! An item asks for points: to do something with the records of a type at the item's own name. For each type it asks for one
//! action or for none, so its points by type number are those of `RecordType::ALL` in order. They are told from the item and
//! the zone's origin alone, never from a zone's records.

ghost use Rattle.std.specs.Prelude.{◌≡◌, ◌↔◌, Some};
ghost use Rattle.grant_policy.specs.declared.action.Action.{Action as ActionOf};
ghost use Rattle.grant_policy.specs.Rules.{same_type};
ghost use Rattle.office_core.specs.Footprints.{PrerequisiteAsks, OperationAsks, tests_type, changes_type, delegates, is_deleted_with, change_of, prerequisite_action, operation_action};

use dns_data::RecordType;
use dns_names::Name;
use grant_policy::Action;
use zone_core::{Operation, Prerequisite};

/// What a prerequisite asks to do with the records of a type at its name: to check them, or nothing.
///
/// One with a type asks to check that type (RFC 2136 sections 2.4.1 to 2.4.3), and a test of the name alone asks to check every
/// kept type but SOA (sections 2.4.4 and 2.4.5).
pub fn prerequisite_asks(prerequisite: &Prerequisite, record_type: RecordType) -> Option<Action>
    // Which points it asks for.
    ensures asks { (action : ActionOf) → (result ≡ Some action) ↔ PrerequisiteAsks prerequisite.now record_type action }
    // The same by a definition that computes.
    ensures exact { result ≡ prerequisite_action prerequisite.now record_type }
{
    tests_type(prerequisite, record_type).then_some(Action::Check)
}

/// What an operation asks to do with the records of a type at its name, in a zone of this origin: to add or to delete them,
/// to delegate where they make a delegation, or nothing.
///
/// NS at another name than the origin and DS at any name make a delegation (RFC 1034 section 4.2.1, RFC 4034 section 5). An
/// operation with a type asks for a change of that type (RFC 2136 sections 2.5.1, 2.5.2 and 2.5.4). One that deletes all sets
/// at a name asks for a change of every kept type but SOA, and at the origin of neither NS nor DS (section 2.5.3).
pub fn operation_asks(
    origin: &Name,
    operation: &Operation,
    record_type: RecordType,
) -> Option<Action>
    // Which points it asks for.
    ensures asks { (action : ActionOf) → (result ≡ Some action) ↔ OperationAsks origin.now operation.now record_type action }
    // The same by a definition that computes.
    ensures exact { result ≡ operation_action origin.now operation.now record_type }
{
    if !changes_type(origin, operation, record_type) {
        return None;
    }
    if delegates(origin, operation.name(), record_type) {
        return Some(Action::Delegate);
    }
    Some(change_of(operation))
}

/// Whether two types are one.
fn is_type(first: RecordType, second: RecordType) -> bool
    ensures { result ≡ same_type first second }
{
    first.number() == second.number()
}

/// Whether a prerequisite tests the records of a type.
fn tests_type(prerequisite: &Prerequisite, record_type: RecordType) -> bool
    ensures { result ≡ tests_type prerequisite.now record_type }
{
    match prerequisite {
        Prerequisite::RrsetExists {
            record_type: tested,
            ..
        }
        | Prerequisite::RrsetAbsent {
            record_type: tested,
            ..
        } => is_type(*tested, record_type),
        Prerequisite::RrsetEquals { rdata, .. } => is_type(rdata.record_type(), record_type),
        Prerequisite::NameUsed(_) | Prerequisite::NameUnused(_) => {
            !is_type(record_type, RecordType::Soa)
        }
    }
}

/// Whether an operation changes the records of a type, in a zone of this origin.
fn changes_type(origin: &Name, operation: &Operation, record_type: RecordType) -> bool
    ensures { result ≡ changes_type origin.now operation.now record_type }
{
    match operation {
        Operation::Add(record) => is_type(record.record_type(), record_type),
        Operation::DeleteRrset {
            record_type: deleted,
            ..
        } => is_type(*deleted, record_type),
        Operation::DeleteName(name) => is_deleted_with(origin, name, record_type),
        Operation::DeleteRecord { rdata, .. } => is_type(rdata.record_type(), record_type),
    }
}

/// Whether the records of a type are deleted where all sets at a name are: but SOA, and at the origin NS and DS.
fn is_deleted_with(origin: &Name, name: &Name, record_type: RecordType) -> bool
    ensures { result ≡ is_deleted_with origin.now name.now record_type }
{
    match record_type {
        RecordType::Soa => false,
        RecordType::Ns | RecordType::Ds => name != origin,
        _ => true,
    }
}

/// Whether the records of a type at a name make a delegation: NS but at the origin, and DS.
fn delegates(origin: &Name, name: &Name, record_type: RecordType) -> bool
    ensures { result ≡ delegates origin.now name.now record_type }
{
    match record_type {
        RecordType::Ns => name != origin,
        RecordType::Ds => true,
        _ => false,
    }
}

/// How an operation changes records that make no delegation.
fn change_of(operation: &Operation) -> Action
    ensures { result ≡ change_of operation.now }
{
    match operation {
        Operation::Add(_) => Action::Add,
        Operation::DeleteRrset { .. } | Operation::DeleteName(_) | Operation::DeleteRecord { .. } =>
            Action::Delete,
    }
}
