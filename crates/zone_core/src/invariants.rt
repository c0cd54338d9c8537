//! What the types of records and of items say of their fields, for proofs. Nothing here does anything at run time.

ghost use Rattle.std.specs.List.{AllByRecursion};
ghost use Rattle.dns_data.specs.Rdata.{IsRecord};
ghost use Rattle.zone_core.specs.Updates.{IsPrerequisite, IsOperation};

use crate::update::{Operation, Prerequisite};
use dns_data::Record;

/// The names and the data of a prerequisite are such.
fn reveal_prerequisite(prerequisite: &Prerequisite)
    ensures { IsPrerequisite prerequisite.now }
{
    match prerequisite {
        Prerequisite::RrsetExists { name, .. }
        | Prerequisite::RrsetAbsent { name, .. }
        | Prerequisite::NameUsed(name)
        | Prerequisite::NameUnused(name) => {
            let _ = name.labels();
        }
        Prerequisite::RrsetEquals { name, rdata } => {
            let _ = name.labels();
            let _ = rdata.record_type();
        }
    }
}

/// So are those of all prerequisites.
pub(crate) fn reveal_prerequisites(prerequisites: &[Prerequisite])
    ensures { AllByRecursion IsPrerequisite prerequisites.now }
{
    for prerequisite in prerequisites {
        reveal_prerequisite(prerequisite);
    }
}

/// The record, or the names and the data, of an operation are such.
fn reveal_operation(operation: &Operation)
    ensures { IsOperation operation.now }
{
    match operation {
        Operation::Add(record) => {
            let _ = record.record_type();
        }
        Operation::DeleteRrset { name, .. } | Operation::DeleteName(name) => {
            let _ = name.labels();
        }
        Operation::DeleteRecord { name, rdata } => {
            let _ = name.labels();
            let _ = rdata.record_type();
        }
    }
}

/// So are those of all operations.
pub(crate) fn reveal_operations(operations: &[Operation])
    ensures { AllByRecursion IsOperation operations.now }
{
    for operation in operations {
        reveal_operation(operation);
    }
}

/// Records are such.
pub(crate) fn reveal_records(records: &[Record])
    ensures { AllByRecursion IsRecord records.now }
{
    for record in records {
        let _ = record.record_type();
    }
}
