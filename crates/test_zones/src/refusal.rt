//! Why a row has no other answer.

use dns_data::DataFault;
use dns_master::MasterFault;
use dns_names::NameFault;
use grant_policy::{IdentifierFault, PolicyFault};
use std::alloc::{AllocError, AllocFailed, Global};
use std::fmt::Display;
use update_lines::ItemsFault;
use wire_json::BodyFault;
use zone_core::{DelegationFault, UpdateFault, ZoneFault};

/// The refusal of a row.
#[derive(Clone, Copy)]
pub enum Refusal {
    Name(NameFault),
    Data(DataFault),
    Master(MasterFault),
    Identifier(IdentifierFault),
    Policy(PolicyFault),
    Zone(ZoneFault),
    Update(UpdateFault),
    Delegation(DelegationFault),
    Items(ItemsFault),
    Body(BodyFault),
    /// What stands in the row is not what its verb wants.
    Row,
    NoMemory,
}

impl Refusal {
    /// Its number and line, where it has them, and its words.
    pub fn text(self, alloc: Global) -> Result<String, AllocError> {
        match self {
            Refusal::Name(fault) => numbered(alloc, fault.number(), &fault),
            Refusal::Data(fault) => numbered(alloc, fault.number(), &fault),
            Refusal::Master(fault) => numbered(alloc, fault.number(), &fault),
            Refusal::Identifier(fault) => format!(in alloc; "refused: {fault}"),
            Refusal::Policy(fault) => numbered(alloc, fault.number(), &fault),
            Refusal::Zone(fault) => numbered(alloc, fault.number(), &fault),
            Refusal::Update(fault) => numbered(alloc, fault.number(), &fault),
            Refusal::Delegation(fault) => numbered(alloc, fault.number(), &fault),
            Refusal::Items(fault) => items_text(alloc, fault),
            Refusal::Body(fault) => numbered(alloc, fault.number(), &fault),
            Refusal::Row => String::from_str(alloc, "another row is wanted"),
            Refusal::NoMemory => String::from_str(alloc, "out of memory"),
        }
    }
}

fn numbered<F: Display>(alloc: Global, number: u8, fault: &F) -> Result<String, AllocError> {
    format!(in alloc; "refused {number}: {fault}")
}

fn items_text(alloc: Global, fault: ItemsFault) -> Result<String, AllocError> {
    let number = fault.number();
    match fault.line() {
        Some(line) => format!(in alloc; "refused {number}, line {line}: {fault}"),
        None => numbered(alloc, number, &fault),
    }
}

impl From<NameFault> for Refusal {
    fn from(fault: NameFault) -> Refusal {
        Refusal::Name(fault)
    }
}

impl From<DataFault> for Refusal {
    fn from(fault: DataFault) -> Refusal {
        Refusal::Data(fault)
    }
}

impl From<MasterFault> for Refusal {
    fn from(fault: MasterFault) -> Refusal {
        Refusal::Master(fault)
    }
}

impl From<IdentifierFault> for Refusal {
    fn from(fault: IdentifierFault) -> Refusal {
        Refusal::Identifier(fault)
    }
}

impl From<PolicyFault> for Refusal {
    fn from(fault: PolicyFault) -> Refusal {
        Refusal::Policy(fault)
    }
}

impl From<ZoneFault> for Refusal {
    fn from(fault: ZoneFault) -> Refusal {
        Refusal::Zone(fault)
    }
}

impl From<UpdateFault> for Refusal {
    fn from(fault: UpdateFault) -> Refusal {
        Refusal::Update(fault)
    }
}

impl From<DelegationFault> for Refusal {
    fn from(fault: DelegationFault) -> Refusal {
        Refusal::Delegation(fault)
    }
}

impl From<ItemsFault> for Refusal {
    fn from(fault: ItemsFault) -> Refusal {
        Refusal::Items(fault)
    }
}

impl From<BodyFault> for Refusal {
    fn from(fault: BodyFault) -> Refusal {
        Refusal::Body(fault)
    }
}

impl From<AllocError> for Refusal {
    fn from(_e: AllocError) -> Refusal {
        Refusal::NoMemory
    }
}

impl<T: Drop> From<AllocFailed<T>> for Refusal {
    fn from(_e: AllocFailed<T>) -> Refusal {
        Refusal::NoMemory
    }
}
