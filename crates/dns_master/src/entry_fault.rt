//! Why an entry is no directive and no record, while it is read.

ghost use Rattle.std.specs.Prelude.{◌≡◌};
ghost use Rattle.dns_master.specs.declared.entry_fault.EntryFault.TheVariants.{NoMemory};
ghost use Rattle.dns_master.specs.EntryFaults.{of_data, of_name, entry_fault_on_line};

use crate::master_fault::MasterFault;
use dns_data::DataFault;
use dns_names::NameFault;
use std::alloc::{AllocError, AllocFailed};

/// What is wrong with an entry. Its line is told later.
#[derive(Clone, Copy)]
pub(crate) enum EntryFault {
    /// The entry begins with white space, and no owner was stated before it.
    NoOwner,
    /// A record without a TTL, and none is in force.
    NoTtl,
    /// A class that is not IN.
    ClassNotIn,
    /// A directive that is neither `$ORIGIN` nor `$TTL`.
    DirectiveNotKept,
    /// A malformed TTL.
    BadTtl,
    /// A name, the type or the data, or an item after a directive.
    Data(DataFault),
    /// The entry ends before its type, or a directive before its item.
    EntryShort,
    /// Memory ran out. This says nothing of the entry.
    NoMemory,
}

impl EntryFault {
    /// The fault with the line of the entry's first item.
    pub(crate) fn on_line(self, line: usize) -> MasterFault
        ensures { result ≡ entry_fault_on_line line self }
    {
        match self {
            EntryFault::NoOwner => MasterFault::NoOwner(line),
            EntryFault::NoTtl => MasterFault::NoTtl(line),
            EntryFault::ClassNotIn => MasterFault::ClassNotIn(line),
            EntryFault::DirectiveNotKept => MasterFault::DirectiveNotKept(line),
            EntryFault::BadTtl => MasterFault::BadTtl(line),
            EntryFault::Data(fault) => MasterFault::Data { line, fault },
            EntryFault::EntryShort => MasterFault::EntryShort(line),
            EntryFault::NoMemory => MasterFault::NoMemory,
        }
    }
}

impl From<DataFault> for EntryFault {
    ghost from_gives = { λ f e. e ≡ of_data f };

    fn from(fault: DataFault) -> EntryFault {
        match fault {
            DataFault::NoMemory => EntryFault::NoMemory,
            fault => EntryFault::Data(fault),
        }
    }
}

impl From<NameFault> for EntryFault {
    ghost from_gives = { λ f e. e ≡ of_name f };

    fn from(fault: NameFault) -> EntryFault {
        match fault {
            NameFault::NoMemory => EntryFault::NoMemory,
            fault => EntryFault::Data(DataFault::Name(fault)),
        }
    }
}

impl From<AllocError> for EntryFault {
    ghost from_gives = { λ _ e. e ≡ NoMemory };

    fn from(_e: AllocError) -> EntryFault {
        EntryFault::NoMemory
    }
}

impl<T: Drop> From<AllocFailed<T>> for EntryFault {
    ghost from_gives = { λ _ e. e ≡ NoMemory };

    fn from(_e: AllocFailed<T>) -> EntryFault {
        EntryFault::NoMemory
    }
}
