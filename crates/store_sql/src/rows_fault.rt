//! Why a call over the tables fails.

use sqlite::Error as StoreError;
use std::alloc::{AllocError, AllocFailed};
use thiserror::Error;

/// Why a call over the tables gave no answer, or wrote nothing.
#[derive(Clone, Copy, Debug, PartialEq, Eq, Error)]
pub enum RowsFault {
    /// The store failed, or refused a row whose key is taken.
    #[error("{0}")]
    Store(StoreError),
    /// A row that no batch of this crate makes.
    #[error("the tables have a row that was not written here")]
    BadRow,
    /// Memory ran out. This says nothing of the tables.
    #[error("out of memory")]
    NoMemory,
}

impl From<StoreError> for RowsFault {
    ghost use Rattle.std.specs.Prelude.{◌≡◌};
    ghost use Rattle.store_sql.specs.Faults.{fault_of};

    ghost from_gives = { λ e f. f ≡ fault_of e };

    fn from(error: StoreError) -> RowsFault {
        match error {
            StoreError::SqliteFailure(sqlite::ErrorCode::OutOfMemory) => RowsFault::NoMemory,
            _ => RowsFault::Store(error),
        }
    }
}

impl From<AllocError> for RowsFault {
    ghost use Rattle.std.specs.Prelude.{◌≡◌};
    ghost use Rattle.store_sql.specs.declared.rows_fault.RowsFault.TheVariants.{NoMemory};

    ghost from_gives = { λ _ e. e ≡ NoMemory };

    fn from(_: AllocError) -> RowsFault {
        RowsFault::NoMemory
    }
}

impl<T: Drop> From<AllocFailed<T>> for RowsFault {
    ghost use Rattle.std.specs.Prelude.{◌≡◌};
    ghost use Rattle.store_sql.specs.declared.rows_fault.RowsFault.TheVariants.{NoMemory};

    ghost from_gives = { λ _ e. e ≡ NoMemory };

    fn from(_: AllocFailed<T>) -> RowsFault {
        RowsFault::NoMemory
    }
}
