//! Why an entry is no item, while it is read.

ghost use Rattle.std.specs.Prelude.{◌≡◌};

use crate::items_fault::ItemsFault;
use dns_data::DataFault;
use dns_names::NameFault;
use std::alloc::{AllocError, AllocFailed};

/// Why an entry was not read.
#[derive(Clone, Copy, PartialEq, Eq)]
pub(crate) enum ItemFault {
    /// It is no item of an update.
    NoItem,
    /// Memory ran out. This says nothing of the entry.
    NoMemory,
}

impl ItemFault {
    ghost use Rattle.update_lines.specs.ItemFaults.{on_line};

    /// The fault of an entry whose first item is on this line.
    pub(crate) fn on_line(self, line: usize) -> ItemsFault
        ensures { result ≡ on_line line self }
    {
        match self {
            ItemFault::NoItem => ItemsFault::BadLine(line),
            ItemFault::NoMemory => ItemsFault::NoMemory,
        }
    }
}

impl From<NameFault> for ItemFault {
    ghost use Rattle.update_lines.specs.ItemFaults.{of_name};

    ghost from_gives = { λ f e. e ≡ of_name f };

    fn from(fault: NameFault) -> ItemFault {
        match fault {
            NameFault::NoMemory => ItemFault::NoMemory,
            _ => ItemFault::NoItem,
        }
    }
}

impl From<DataFault> for ItemFault {
    ghost use Rattle.update_lines.specs.ItemFaults.{of_data};

    ghost from_gives = { λ f e. e ≡ of_data f };

    fn from(fault: DataFault) -> ItemFault {
        match fault {
            DataFault::NoMemory => ItemFault::NoMemory,
            _ => ItemFault::NoItem,
        }
    }
}

impl From<AllocError> for ItemFault {
    ghost use Rattle.update_lines.specs.declared.item_fault.ItemFault.TheVariants.{NoMemory};

    ghost from_gives = { λ _ e. e ≡ NoMemory };

    fn from(_e: AllocError) -> ItemFault {
        ItemFault::NoMemory
    }
}

impl<T: Drop> From<AllocFailed<T>> for ItemFault {
    ghost use Rattle.update_lines.specs.declared.item_fault.ItemFault.TheVariants.{NoMemory};

    ghost from_gives = { λ _ e. e ≡ NoMemory };

    fn from(_e: AllocFailed<T>) -> ItemFault {
        ItemFault::NoMemory
    }
}
