//! Updates: prerequisites and operations (RFC 2136 sections 2.4 and 2.5).

ghost use Rattle.std.specs.Prelude.{◌≡◌, ◌↔◌, ◌≤◌, None, Some, IfOk, IsTrue, length, not};
ghost use Rattle.std.specs.List.{filter, position};
ghost use Rattle.dns_names.specs.Labels.{is_within};
ghost use Rattle.zone_core.specs.Kinds.{list_word, list_named};
ghost use Rattle.zone_core.specs.Updates.{tested_name, acted_name, adds_soa, update_of, IsUpdate, ActsWithin, first_outside, same_update};

use crate::faults::UpdateFault;
use crate::invariants::{reveal_operations, reveal_prerequisites};
use crate::rows::has_type;
use dns_data::{Data, Record, RecordType};
use dns_names::Name;
use std::alloc::{AllocError, Global};
use std::marker::Model;

/// A test of the records before an update (RFC 2136 section 2.4).
#[derive(PartialEq, Eq, Drop)]
pub enum Prerequisite {
    /// Some record has this owner and type (section 2.4.1).
    RrsetExists { name: Name, record_type: RecordType },
    /// These data are among those of the set at this owner, and together with those of the other such tests for the owner
    /// and type they are all of them (section 2.4.2).
    RrsetEquals { name: Name, rdata: Data },
    /// No record has this owner and type (section 2.4.3).
    RrsetAbsent { name: Name, record_type: RecordType },
    /// Some record has this owner (section 2.4.4).
    NameUsed(Name),
    /// No record has this owner (section 2.4.5).
    NameUnused(Name),
}

/// A change of the records at a name (RFC 2136 section 2.5).
#[derive(PartialEq, Eq, Drop)]
pub enum Operation {
    /// Adds a record to a set (section 2.5.1).
    Add(Record),
    /// Deletes a set (section 2.5.2).
    DeleteRrset { name: Name, record_type: RecordType },
    /// Deletes all sets at a name (section 2.5.3).
    DeleteName(Name),
    /// Deletes a record of a set (section 2.5.4).
    DeleteRecord { name: Name, rdata: Data },
}

/// One of the two lists of an update.
#[derive(Clone, Copy, PartialEq, Eq)]
pub enum ItemList {
    /// The prerequisites.
    Prerequisites,
    /// The operations.
    Operations,
}

impl ItemList {
    /// The two lists.
    pub const ALL: [ItemList; 2] = [ItemList::Prerequisites, ItemList::Operations];

    /// The word for it in replies.
    pub const fn text(self) -> &'static str
        ensures text { result.now ≡ list_word self }
        ensures short { length result.now ≤ 13 }
    {
        match self {
            ItemList::Prerequisites => "prerequisites",
            ItemList::Operations => "operations",
        }
    }

    /// The list of this word, which is read only as it is written.
    pub fn read(word: &[u8]) -> Option<ItemList>
        ensures exact { result ≡ list_named word.now }
        ensures spelled { (list : ItemList) → (result ≡ Some list) ↔ (list_word list ≡ word.now) }
    {
        ItemList::called(word)
    }

    /// The first of the lists with this word.
    fn called(word: &[u8]) -> Option<ItemList>
        ensures { result ≡ list_named word.now }
    {
        ItemList::ALL
            .iter()
            .copied()
            .find(|list| list.text().as_bytes() == word)
    }
}

/// An item of an update: its list, and its number in it, from 0.
#[derive(Clone, Copy, PartialEq, Eq)]
pub struct Place {
    /// The list.
    pub list: ItemList,
    /// The number of the item, from 0.
    pub item: usize,
}

impl Prerequisite {
    /// The name that is tested.
    pub fn name(&self) -> &Name
        ensures { result.now ≡ tested_name self.now }
    {
        match self {
            Prerequisite::RrsetExists { name, .. }
            | Prerequisite::RrsetEquals { name, .. }
            | Prerequisite::RrsetAbsent { name, .. }
            | Prerequisite::NameUsed(name)
            | Prerequisite::NameUnused(name) => name,
        }
    }

    /// An equal prerequisite in memory of its own. The only error is out of memory.
    pub fn try_copy(&self, alloc: Global) -> Result<Prerequisite, AllocError>
        ensures { IfOk result (λ copy. copy ≡ self.now) }
    {
        Ok(match self {
            Prerequisite::RrsetExists { name, record_type } => Prerequisite::RrsetExists {
                name: name.try_copy(alloc)?,
                record_type: *record_type,
            },
            Prerequisite::RrsetEquals { name, rdata } => Prerequisite::RrsetEquals {
                name: name.try_copy(alloc)?,
                rdata: rdata.try_copy(alloc)?,
            },
            Prerequisite::RrsetAbsent { name, record_type } => Prerequisite::RrsetAbsent {
                name: name.try_copy(alloc)?,
                record_type: *record_type,
            },
            Prerequisite::NameUsed(name) => Prerequisite::NameUsed(name.try_copy(alloc)?),
            Prerequisite::NameUnused(name) => Prerequisite::NameUnused(name.try_copy(alloc)?),
        })
    }
}

impl Operation {
    /// The name whose records are changed.
    pub fn name(&self) -> &Name
        ensures { result.now ≡ acted_name self.now }
    {
        match self {
            Operation::Add(record) => &record.owner,
            Operation::DeleteRrset { name, .. }
            | Operation::DeleteName(name)
            | Operation::DeleteRecord { name, .. } => name,
        }
    }

    /// Whether it adds an SOA.
    fn adds_soa(&self) -> bool
        ensures { result ≡ adds_soa self.now }
    {
        match self {
            Operation::Add(record) => has_type(record, RecordType::Soa),
            _ => false,
        }
    }

    /// The deletion of a set. The only error is out of memory.
    pub(crate) fn rrset_deletion(
        alloc: Global,
        name: &Name,
        record_type: RecordType,
    ) -> Result<Operation, AllocError>
        ensures { IfOk result (λ op. op ≡ Operation.DeleteRrset name.now record_type) }
    {
        Ok(Operation::DeleteRrset {
            name: name.try_copy(alloc)?,
            record_type,
        })
    }

    /// The deletion of a record. The only error is out of memory.
    pub fn record_deletion(
        alloc: Global,
        name: &Name,
        rdata: &Data,
    ) -> Result<Operation, AllocError>
        ensures { IfOk result (λ op. op ≡ Operation.DeleteRecord name.now rdata.now) }
    {
        Ok(Operation::DeleteRecord {
            name: name.try_copy(alloc)?,
            rdata: rdata.try_copy(alloc)?,
        })
    }

    /// An equal operation in memory of its own. The only error is out of memory.
    pub fn try_copy(&self, alloc: Global) -> Result<Operation, AllocError>
        ensures { IfOk result (λ copy. copy ≡ self.now) }
    {
        match self {
            Operation::Add(record) => Ok(Operation::Add(record.try_copy(alloc)?)),
            Operation::DeleteRrset { name, record_type } => {
                Operation::rrset_deletion(alloc, name, *record_type)
            }
            Operation::DeleteName(name) => Ok(Operation::DeleteName(name.try_copy(alloc)?)),
            Operation::DeleteRecord { name, rdata } => {
                Operation::record_deletion(alloc, name, rdata)
            }
        }
    }
}

/// Prerequisites and operations: at most 64 and 256, and at most one operation that adds an SOA.
#[derive(Drop)]
pub struct Update {
    prerequisites: Vec<Prerequisite>,
    operations: Vec<Operation>,
}

impl Model for Update {
    ghost use Rattle.zone_core.specs.Updates.{UpdateOf, IsUpdate};

    ghost Value = { UpdateOf };

    ghost view = { λ u. record { prerequisites = u.prerequisites.items; operations = u.operations.items } };

    ghost invariant = { λ u. IsUpdate (record { prerequisites = u.prerequisites.items; operations = u.operations.items }) };
}

impl Update {
    /// The most prerequisites of an update.
    pub const PREREQUISITES_MAX: usize = 64;

    /// The most operations of an update.
    pub const OPERATIONS_MAX: usize = 256;

    /// The update of prerequisites and operations. `TooManyItems` comes above 64 prerequisites or 256 operations, and then
    /// `TwoSoa` where two operations add an SOA.
    pub fn build(
        prerequisites: Vec<Prerequisite>,
        operations: Vec<Operation>,
    ) -> Result<Update, UpdateFault>
        // What is built is an update.
        ensures found { IfOk result IsUpdate }
        // Which one it is, or which refusal.
        ensures exact { result ≡ update_of prerequisites.items operations.items }
    {
        if prerequisites.len() > Update::PREREQUISITES_MAX
            || operations.len() > Update::OPERATIONS_MAX
        {
            return Err(UpdateFault::TooManyItems);
        }
        if soas_added(&operations) > 1 {
            return Err(UpdateFault::TwoSoa);
        }
        reveal_prerequisites(&prerequisites);
        reveal_operations(&operations);
        Ok(Update {
            prerequisites,
            operations,
        })
    }

    /// The prerequisites, in order.
    pub fn prerequisites(&self) -> &[Prerequisite]
        ensures value { result.now ≡ self.now.prerequisites }
        // What holds of every update.
        ensures update { IsUpdate self.now }
    {
        &self.prerequisites
    }

    /// The operations, in order.
    pub fn operations(&self) -> &[Operation]
        ensures value { result.now ≡ self.now.operations }
        ensures update { IsUpdate self.now }
    {
        &self.operations
    }

    /// The first item whose name is not within an origin, prerequisites before operations (RFC 2136 sections 3.2 and
    /// 3.4.1).
    pub fn outside(&self, origin: &Name) -> Option<Place>
        ensures inside { (result ≡ None) ↔ ActsWithin origin.now self.now }
        ensures exact { result ≡ first_outside origin.now self.now }
    {
        let list = ItemList::Prerequisites;
        if let Some(item) = prerequisite_outside(&self.prerequisites, origin) {
            return Some(Place { list, item });
        }
        let list = ItemList::Operations;
        operation_outside(&self.operations, origin).map(|item| Place { list, item })
    }

    /// Whether two updates have the same prerequisites and operations, in the same order.
    pub fn is_same(&self, other: &Update) -> bool
        ensures equal { IsTrue result ↔ (self.now ≡ other.now) }
        // The same by a definition that computes.
        ensures value { result ≡ same_update self.now other.now }
    {
        self.prerequisites == other.prerequisites && self.operations == other.operations
    }

    /// An equal update in memory of its own. The only error is out of memory.
    pub fn try_copy(&self, alloc: Global) -> Result<Update, AllocError>
        ensures { IfOk result (λ copy. copy ≡ self.now) }
    {
        Ok(Update {
            prerequisites: copied_prerequisites(alloc, &self.prerequisites)?,
            operations: copied_operations(alloc, &self.operations)?,
        })
    }
}

/// Equal prerequisites in memory of their own. The only error is out of memory.
fn copied_prerequisites(
    alloc: Global,
    prerequisites: &[Prerequisite],
) -> Result<Vec<Prerequisite>, AllocError>
    ensures { IfOk result (λ copies. copies.items ≡ prerequisites.now) }
{
    let mut copies = Vec::with_capacity(alloc, prerequisites.len())?;
    for prerequisite in prerequisites {
        copies.push(prerequisite.try_copy(alloc)?)?;
    }
    Ok(copies)
}

/// Equal operations in memory of their own. The only error is out of memory.
fn copied_operations(alloc: Global, operations: &[Operation]) -> Result<Vec<Operation>, AllocError>
    ensures { IfOk result (λ copies. copies.items ≡ operations.now) }
{
    let mut copies = Vec::with_capacity(alloc, operations.len())?;
    for operation in operations {
        copies.push(operation.try_copy(alloc)?)?;
    }
    Ok(copies)
}

/// How many operations add an SOA.
fn soas_added(operations: &[Operation]) -> usize
    ensures { result ≡ length (filter adds_soa operations.now) }
{
    let mut soas = 0;
    for operation in operations {
        if operation.adds_soa() {
            soas += 1;
        }
    }
    soas
}

/// The first prerequisite whose name is not within an origin.
fn prerequisite_outside(prerequisites: &[Prerequisite], origin: &Name) -> Option<usize>
    ensures { result ≡ position (λ p. not (is_within (tested_name p) origin.now)) prerequisites.now }
{
    prerequisites
        .iter()
        .position(|prerequisite| !prerequisite.name().is_within(origin))
}

/// The first operation whose name is not within an origin.
fn operation_outside(operations: &[Operation], origin: &Name) -> Option<usize>
    ensures { result ≡ position (λ op. not (is_within (acted_name op) origin.now)) operations.now }
{
    operations
        .iter()
        .position(|operation| !operation.name().is_within(origin))
}
