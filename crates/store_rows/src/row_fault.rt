//! Why a row cannot be one that this crate writes.

ghost use Rattle.std.specs.Prelude.{◌≡◌};

use dns_data::DataFault;
use dns_master::MasterFault;
use dns_names::NameFault;
use grant_policy::IdentifierFault;
use sqlite::{Error as StoreError, ErrorCode};
use std::alloc::{AllocError, AllocFailed};
use store_faults::StoreFault;
use store_sql::RowsFault;
use thiserror::Error;
use update_lines::ItemsFault;

/// Why a row was not read.
#[derive(Clone, Copy, Debug, PartialEq, Eq, Error)]
pub enum RowFault {
    /// It is no row of a record, a receipt or a change: a column is no canonical text, or has a value that it cannot have.
    #[error("a row of the store is not one that zoneoffice writes")]
    BadRow,
    /// Memory ran out. This says nothing of the row.
    #[error("out of memory")]
    NoMemory,
}

impl From<NameFault> for RowFault {
    ghost use Rattle.store_rows.specs.RowFaults.{of_name};

    ghost from_gives = { λ f e. e ≡ of_name f };

    fn from(fault: NameFault) -> RowFault {
        match fault {
            NameFault::NoMemory => RowFault::NoMemory,
            _ => RowFault::BadRow,
        }
    }
}

impl From<DataFault> for RowFault {
    ghost use Rattle.store_rows.specs.RowFaults.{of_data};

    ghost from_gives = { λ f e. e ≡ of_data f };

    fn from(fault: DataFault) -> RowFault {
        match fault {
            DataFault::NoMemory => RowFault::NoMemory,
            _ => RowFault::BadRow,
        }
    }
}

impl From<MasterFault> for RowFault {
    ghost use Rattle.store_rows.specs.RowFaults.{of_master};

    ghost from_gives = { λ f e. e ≡ of_master f };

    fn from(fault: MasterFault) -> RowFault {
        match fault {
            MasterFault::NoMemory => RowFault::NoMemory,
            _ => RowFault::BadRow,
        }
    }
}

impl From<ItemsFault> for RowFault {
    ghost use Rattle.store_rows.specs.RowFaults.{of_items};

    ghost from_gives = { λ f e. e ≡ of_items f };

    fn from(fault: ItemsFault) -> RowFault {
        match fault {
            ItemsFault::NoMemory => RowFault::NoMemory,
            _ => RowFault::BadRow,
        }
    }
}

impl From<IdentifierFault> for RowFault {
    ghost use Rattle.store_rows.specs.RowFaults.{of_identifier};

    ghost from_gives = { λ f e. e ≡ of_identifier f };

    fn from(fault: IdentifierFault) -> RowFault {
        match fault {
            IdentifierFault::Malformed => RowFault::BadRow,
            IdentifierFault::NoMemory => RowFault::NoMemory,
        }
    }
}

impl From<AllocError> for RowFault {
    ghost use Rattle.store_rows.specs.declared.row_fault.RowFault.TheVariants.{NoMemory};

    ghost from_gives = { λ _ e. e ≡ NoMemory };

    fn from(_e: AllocError) -> RowFault {
        RowFault::NoMemory
    }
}

impl<T: Drop> From<AllocFailed<T>> for RowFault {
    ghost use Rattle.store_rows.specs.declared.row_fault.RowFault.TheVariants.{NoMemory};

    ghost from_gives = { λ _ e. e ≡ NoMemory };

    fn from(_e: AllocFailed<T>) -> RowFault {
        RowFault::NoMemory
    }
}

impl From<RowFault> for RowsFault {
    ghost use Rattle.store_rows.specs.RowFaults.{of_table};

    ghost from_gives = { λ f e. e ≡ of_table f };

    fn from(fault: RowFault) -> RowsFault {
        match fault {
            RowFault::BadRow => RowsFault::BadRow,
            RowFault::NoMemory => RowsFault::NoMemory,
        }
    }
}

impl From<RowFault> for StoreFault {
    ghost use Rattle.store_rows.specs.RowRefusals.{of_row};

    ghost from_gives = { λ f e. e ≡ of_row f };

    fn from(fault: RowFault) -> StoreFault {
        match fault {
            RowFault::BadRow => StoreFault::Store(StoreError::SqliteFailure(
                ErrorCode::DatabaseCorrupt,
            )),
            RowFault::NoMemory => StoreFault::NoMemory,
        }
    }
}
