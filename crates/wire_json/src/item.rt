//! The items of an update.

ghost use Rattle.std.specs.Prelude.{◌≡◌, IfOk};
ghost use Rattle.serde_json.specs.View.{view, items_view};
ghost use Rattle.zone_core.specs.Kinds.{prerequisite_word, operation_word, prerequisite_kind, operation_kind};
ghost use Rattle.wire_json.specs.declared.field.Field.TheVariants.{Test, Op};
ghost use Rattle.wire_json.specs.Faults.{Gives};
ghost use Rattle.wire_json.specs.Bodies.{IsText, IsSetBody, IsDatumBody, IsRecordBody, TestsBody, ChangesBody, IsPrerequisiteBody, IsOperationBody, AreItems};
ghost use Rattle.wire_json.specs.Reading.{set_in, datum_in, record_in, test_in, change_in, prerequisite_kind_in, operation_kind_in, prerequisite_in, operation_in, each};

use crate::body_fault::BodyFault;
use crate::field::{Field, operation_fields, prerequisite_fields};
use crate::field_values::{read_name, read_rdata, read_ttl, read_type};
use crate::value::{check_fields, read_word};
use dns_data::{Data, Record, RecordType};
use dns_names::Name;
use serde_json::Value;
use std::alloc::Global;
use zone_core::{Operation, OperationKind, Prerequisite, PrerequisiteKind};

/// A name and a type.
fn read_set(alloc: Global, value: &Value) -> Result<(Name, RecordType), BodyFault>
    ensures exact { Gives (λ x. (x.0, x.1)) result (set_in (view value.now)) }
    ensures found { IfOk result (λ x. IsSetBody x.0 x.1 (view value.now)) }
{
    let name = read_name(alloc, value, Field::Name)?;
    let record_type = read_type(value)?;
    Ok((name, record_type))
}

/// A name, a type and data of it.
fn read_datum(alloc: Global, value: &Value) -> Result<(Name, Data), BodyFault>
    ensures exact { Gives (λ x. (x.0, x.1)) result (datum_in (view value.now)) }
    ensures found { IfOk result (λ x. IsDatumBody x.0 x.1 (view value.now)) }
{
    let name = read_name(alloc, value, Field::Name)?;
    let record_type = read_type(value)?;
    let rdata = read_rdata(alloc, record_type, value)?;
    Ok((name, rdata))
}

/// A name, a TTL, a type and data of it.
fn read_record(alloc: Global, value: &Value) -> Result<Record, BodyFault>
    ensures exact { Gives (λ r. r) result (record_in (view value.now)) }
    ensures found { IfOk result (λ r. IsRecordBody r (view value.now)) }
{
    let owner = read_name(alloc, value, Field::Name)?;
    let ttl = read_ttl(value)?;
    let record_type = read_type(value)?;
    let rdata = read_rdata(alloc, record_type, value)?;
    Ok(Record { owner, ttl, rdata })
}

/// The values of a prerequisite of a kind.
fn read_test(
    alloc: Global,
    kind: PrerequisiteKind,
    value: &Value,
) -> Result<Prerequisite, BodyFault>
    ensures exact { Gives (λ p. p) result (test_in kind (view value.now)) }
    ensures found { IfOk result (λ p. TestsBody p (view value.now)) }
    ensures kind { IfOk result (λ p. prerequisite_kind p ≡ kind) }
{
    match kind {
        PrerequisiteKind::RrsetExists => {
            let (name, record_type) = read_set(alloc, value)?;
            Ok(Prerequisite::RrsetExists { name, record_type })
        }
        PrerequisiteKind::RrsetEquals => {
            let (name, rdata) = read_datum(alloc, value)?;
            Ok(Prerequisite::RrsetEquals { name, rdata })
        }
        PrerequisiteKind::RrsetAbsent => {
            let (name, record_type) = read_set(alloc, value)?;
            Ok(Prerequisite::RrsetAbsent { name, record_type })
        }
        PrerequisiteKind::NameUsed => {
            let name = read_name(alloc, value, Field::Name)?;
            Ok(Prerequisite::NameUsed(name))
        }
        PrerequisiteKind::NameUnused => {
            let name = read_name(alloc, value, Field::Name)?;
            Ok(Prerequisite::NameUnused(name))
        }
    }
}

/// The values of an operation of a kind.
fn read_change(alloc: Global, kind: OperationKind, value: &Value) -> Result<Operation, BodyFault>
    ensures exact { Gives (λ op. op) result (change_in kind (view value.now)) }
    ensures found { IfOk result (λ op. ChangesBody op (view value.now)) }
    ensures kind { IfOk result (λ op. operation_kind op ≡ kind) }
{
    match kind {
        OperationKind::Add => {
            let record = read_record(alloc, value)?;
            Ok(Operation::Add(record))
        }
        OperationKind::DeleteRrset => {
            let (name, record_type) = read_set(alloc, value)?;
            Ok(Operation::DeleteRrset { name, record_type })
        }
        OperationKind::DeleteName => {
            let name = read_name(alloc, value, Field::Name)?;
            Ok(Operation::DeleteName(name))
        }
        OperationKind::DeleteRecord => {
            let (name, rdata) = read_datum(alloc, value)?;
            Ok(Operation::DeleteRecord { name, rdata })
        }
    }
}

/// The kind of a prerequisite.
fn read_prerequisite_kind(value: &Value) -> Result<PrerequisiteKind, BodyFault>
    ensures exact { Gives (λ kind. kind) result (prerequisite_kind_in (view value.now)) }
    ensures found { IfOk result (λ kind. IsText Test (prerequisite_word kind) (view value.now)) }
{
    let word = read_word(value, Field::Test)?;
    PrerequisiteKind::read(word.as_bytes()).ok_or(BodyFault::BadField)
}

/// The kind of an operation.
fn read_operation_kind(value: &Value) -> Result<OperationKind, BodyFault>
    ensures exact { Gives (λ kind. kind) result (operation_kind_in (view value.now)) }
    ensures found { IfOk result (λ kind. IsText Op (operation_word kind) (view value.now)) }
{
    let word = read_word(value, Field::Op)?;
    OperationKind::read(word.as_bytes()).ok_or(BodyFault::BadField)
}

/// A prerequisite.
fn read_prerequisite(alloc: Global, value: &Value) -> Result<Prerequisite, BodyFault>
    ensures exact { Gives (λ p. p) result (prerequisite_in (view value.now)) }
    ensures found { IfOk result (λ p. IsPrerequisiteBody p (view value.now)) }
{
    let kind = read_prerequisite_kind(value)?;
    let fields = prerequisite_fields(kind);
    check_fields(value, fields, fields)?;
    read_test(alloc, kind, value)
}

/// An operation.
fn read_operation(alloc: Global, value: &Value) -> Result<Operation, BodyFault>
    ensures exact { Gives (λ op. op) result (operation_in (view value.now)) }
    ensures found { IfOk result (λ op. IsOperationBody op (view value.now)) }
{
    let kind = read_operation_kind(value)?;
    let fields = operation_fields(kind);
    check_fields(value, fields, fields)?;
    read_change(alloc, kind, value)
}

/// Prerequisites, one after the other.
#[tactic(auto, using(crate::proofs::ListLemmas::read_stop, crate::proofs::ListLemmas::read_done, crate::proofs::ListLemmas::found_done))]
pub(crate) fn read_prerequisites(
    alloc: Global,
    items: &[Value],
) -> Result<Vec<Prerequisite>, BodyFault>
    ensures exact { Gives (λ ps. ps.items) result (each prerequisite_in (items_view items.now)) }
    ensures found { IfOk result (λ ps. AreItems IsPrerequisiteBody ps.items (items_view items.now)) }
{
    let mut prerequisites = Vec::new(alloc);
    for item in items {
        prerequisites.push(read_prerequisite(alloc, item)?)?;
    }
    Ok(prerequisites)
}

/// Operations, one after the other.
#[tactic(auto, using(crate::proofs::ListLemmas::read_stop, crate::proofs::ListLemmas::read_done, crate::proofs::ListLemmas::found_done))]
pub(crate) fn read_operations(alloc: Global, items: &[Value]) -> Result<Vec<Operation>, BodyFault>
    ensures exact { Gives (λ ops. ops.items) result (each operation_in (items_view items.now)) }
    ensures found { IfOk result (λ ops. AreItems IsOperationBody ops.items (items_view items.now)) }
{
    let mut operations = Vec::new(alloc);
    for item in items {
        operations.push(read_operation(alloc, item)?)?;
    }
    Ok(operations)
}
