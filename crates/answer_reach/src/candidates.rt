//! Updates at a name that a policy may permit a caller.

use crate::asker::Asker;
use crate::specimens::specimen_record;
use dns_data::{Record, RecordType, same_record};
use dns_names::Name;
use std::alloc::{AllocError, Global};
use zone_core::{Operation, Zone};

/// The most records within a name of which all sets are deleted at once.
const WITHIN_MAX: usize = 32;

/// Copies of operations. The only error is out of memory.
pub(crate) fn copied(
    alloc: Global,
    operations: &[Operation],
) -> Result<Vec<Operation>, AllocError> {
    let mut copies = Vec::with_capacity(alloc, operations.len())?;
    for operation in operations {
        copies.push(operation.try_copy(alloc)?)?;
    }
    Ok(copies)
}

/// Appends each of some operations as a list of its own, after others. The only error is out of memory.
fn push_each(
    alloc: Global,
    lists: &mut Vec<Vec<Operation>>,
    before: &[Operation],
    operations: &[Operation],
) -> Result<(), AllocError> {
    for operation in operations {
        let mut list = copied(alloc, before)?;
        list.push(operation.try_copy(alloc)?)?;
        lists.push(list)?;
    }
    Ok(())
}

/// Whether a record is the first of its set.
fn is_first(zone: &Zone, record: &Record) -> bool {
    match zone.rrset(&record.owner, record.record_type()).first() {
        Some(first) => same_record(first, record),
        None => false,
    }
}

impl<'a> Asker<'a> {
    /// Appends the deletion of a set, and at the origin that of its first record, if it is there and the deletion is permitted. The only
    /// error is out of memory.
    fn push_deletion(
        &self,
        alloc: Global,
        operations: &mut Vec<Operation>,
        name: &Name,
        record_type: RecordType,
    ) -> Result<(), AllocError> {
        if !self.may_go(name, record_type) {
            return Ok(());
        }
        let zone = self.index.zone();
        if name != zone.origin() {
            let name = name.try_copy(alloc)?;
            operations.push(Operation::DeleteRrset { name, record_type })?;
            return Ok(());
        }
        if let Some(record) = zone.rrset(name, record_type).first() {
            operations.push(Operation::record_deletion(alloc, name, &record.rdata)?)?;
        }
        Ok(())
    }

    /// The deletions of sets at a name that are permitted. The only error is out of memory.
    fn deletions(&self, alloc: Global, name: &Name) -> Result<Vec<Operation>, AllocError> {
        let mut operations = Vec::new(alloc);
        for record_type in &RecordType::ALL {
            self.push_deletion(alloc, &mut operations, name, *record_type)?;
        }
        Ok(operations)
    }

    /// An addition for each type that may be added at a name. The only error is out of memory.
    fn additions(&self, alloc: Global, name: &Name) -> Result<Vec<Operation>, AllocError> {
        let mut operations = Vec::new(alloc);
        for record_type in &RecordType::ALL {
            if self.may_come(name, *record_type) {
                let zone = self.index.zone();
                let record = specimen_record(alloc, zone, name, *record_type)?;
                operations.push(Operation::Add(record))?;
            }
        }
        Ok(operations)
    }

    /// The deletions of sets at and below a name that are permitted, if few records are there. The only error is out of memory.
    fn deletions_within(&self, alloc: Global, name: &Name) -> Result<Vec<Operation>, AllocError> {
        let mut operations = Vec::new(alloc);
        let records = self.index.zone().records_within(name);
        if records.len() > WITHIN_MAX {
            return Ok(operations);
        }
        for record in records {
            if is_first(self.index.zone(), record) {
                self.push_deletion(alloc, &mut operations, &record.owner, record.record_type())?;
            }
        }
        Ok(operations)
    }

    /// Lists of operations of which each may be permitted: the deletion of a set at a name; an addition; the deletion of all sets; the
    /// same and an addition; and the deletion of all sets at and below the name. The only error is out of memory.
    pub(crate) fn candidates(
        &self,
        alloc: Global,
        name: &Name,
    ) -> Result<Vec<Vec<Operation>>, AllocError> {
        let deletions = self.deletions(alloc, name)?;
        let additions = self.additions(alloc, name)?;
        let mut lists = Vec::new(alloc);
        push_each(alloc, &mut lists, &[], &deletions)?;
        push_each(alloc, &mut lists, &[], &additions)?;
        if !deletions.is_empty() {
            push_each(alloc, &mut lists, &deletions, &additions)?;
            lists.push(deletions)?;
        }
        let within = self.deletions_within(alloc, name)?;
        if !within.is_empty() {
            lists.push(within)?;
        }
        Ok(lists)
    }
}
