//! Why a table answers nothing, and where a step failed.

ghost use Rattle.std.specs.Prelude.{◌≡◌};
ghost use Rattle.office_model.specs.TableFaults.{table_fault_number, cause};
ghost use Rattle.office_model.specs.declared.table_fault.TableFault.TheVariants.{NoMemory};
ghost use Rattle.office_model.specs.declared.table_fault.StepFault.TheVariants.{BeforeCommit};

use refusals::words;
use std::alloc::{AllocError, AllocFailed};
use std::error::Error;
use std::fmt::{self, Display, Formatter, Write};

/// Why a table answers nothing. What it holds has not changed.
#[derive(Clone, Copy, Debug, PartialEq, Eq)]
pub enum TableFault {
    /// The store failed, or does not keep what was written to it.
    Store,
    /// Memory ran out. This says nothing of the store.
    NoMemory,
}

impl TableFault {
    /// The published number of the refusal: 75, and 99 for `NoMemory`.
    pub const fn number(self) -> u8
        ensures { result ≡ table_fault_number self }
    {
        match self {
            TableFault::Store => 75,
            TableFault::NoMemory => 99,
        }
    }
}

/// What is wrong, in words.
impl Display for TableFault {
    fn fmt<W: Write>(&self, f: &mut Formatter<W>) -> fmt::Result {
        f.write_str(words(self.number()))
    }
}

impl Error for TableFault {}

impl From<AllocError> for TableFault {
    ghost from_gives = { λ _ e. e ≡ NoMemory };

    fn from(_e: AllocError) -> TableFault {
        TableFault::NoMemory
    }
}

impl<T: Drop> From<AllocFailed<T>> for TableFault {
    ghost from_gives = { λ _ e. e ≡ NoMemory };

    fn from(_e: AllocFailed<T>) -> TableFault {
        TableFault::NoMemory
    }
}

/// Why a request is answered SERVFAIL. What the table holds has not changed.
#[derive(Clone, Copy, Debug, PartialEq, Eq)]
pub enum StepFault {
    /// A read of the table failed, or memory ran out, before anything was written. A crash leaves what it would have left before.
    BeforeCommit(TableFault),
    /// The commit failed. A crash leaves the state before the request or the one after it.
    Commit(TableFault),
}

impl StepFault {
    /// What failed: the store, or memory.
    pub const fn cause(self) -> TableFault
        ensures { result ≡ cause self }
    {
        match self {
            StepFault::BeforeCommit(fault) => fault,
            StepFault::Commit(fault) => fault,
        }
    }

    /// The published number of the refusal: 75, and 99 where memory ran out.
    pub const fn number(self) -> u8
        ensures { result ≡ table_fault_number (cause self) }
    {
        self.cause().number()
    }
}

impl From<TableFault> for StepFault {
    ghost from_gives = { λ fault e. e ≡ BeforeCommit fault };

    fn from(fault: TableFault) -> StepFault {
        StepFault::BeforeCommit(fault)
    }
}

impl From<AllocError> for StepFault {
    ghost from_gives = { λ _ e. e ≡ BeforeCommit NoMemory };

    fn from(_e: AllocError) -> StepFault {
        StepFault::BeforeCommit(TableFault::NoMemory)
    }
}
