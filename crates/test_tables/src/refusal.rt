//! Why a row has no other answer.

use std::alloc::{AllocError, AllocFailed, Global};
use store_rows::RowFault;
use store_sql::RowsFault;

/// The refusal of a row.
#[derive(Clone, Copy)]
pub enum Refusal {
    Row(RowFault),
    Store(RowsFault),
    /// What stands in the row are not the columns that its verb wants.
    Columns,
}

impl Refusal {
    /// Its words.
    pub fn text(self, alloc: Global) -> Result<String, AllocError> {
        match self {
            Refusal::Row(fault) => format!(in alloc; "refused: {fault}"),
            Refusal::Store(fault) => format!(in alloc; "refused: {fault}"),
            Refusal::Columns => String::from_str(alloc, "other columns"),
        }
    }
}

impl From<RowFault> for Refusal {
    fn from(fault: RowFault) -> Refusal {
        Refusal::Row(fault)
    }
}

impl From<RowsFault> for Refusal {
    fn from(fault: RowsFault) -> Refusal {
        Refusal::Store(fault)
    }
}

impl From<AllocError> for Refusal {
    fn from(_e: AllocError) -> Refusal {
        Refusal::Row(RowFault::NoMemory)
    }
}

impl<T: Drop> From<AllocFailed<T>> for Refusal {
    fn from(_e: AllocFailed<T>) -> Refusal {
        Refusal::Row(RowFault::NoMemory)
    }
}
