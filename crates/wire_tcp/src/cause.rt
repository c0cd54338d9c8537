//! Why requests were answered SERVFAIL, in words.

ghost use Rattle.std.specs.Prelude.{◌≡◌, Option, None};
ghost use Rattle.store_faults.specs.declared.store_fault.StoreFault.{StoreFault as StoreFaultOf};
ghost use Rattle.wire_tcp.specs.Causes.{cause_words, cause_of, of_code, of_store};

use office_model::TableFault;
use sqlite::{Error, ErrorCode};
use store_faults::StoreFault;

/// Why a request was answered SERVFAIL.
#[derive(Clone, Copy)]
pub enum Cause {
    /// Memory ran out.
    NoMemory,
    /// Another program has the store open.
    Locked,
    /// The file of the store cannot be opened, as for want of a permission.
    NotOpened,
    /// The disk is full.
    DiskFull,
    /// The disk cannot be read or written.
    InputOutput,
    /// The store has octets that SQLite does not write.
    Corrupt,
    /// The file of the store is no database.
    NotADatabase,
    /// An earlier failure shut the store.
    Shut,
    /// The store failed, and says no more of it.
    StoreFailed,
}

/// The cause of an error of the store.
const fn cause_of_code(code: ErrorCode) -> Cause
    ensures { result ≡ of_code code }
{
    match code {
        ErrorCode::DatabaseBusy => Cause::Locked,
        ErrorCode::CannotOpen => Cause::NotOpened,
        ErrorCode::DiskFull => Cause::DiskFull,
        ErrorCode::SystemIoFailure => Cause::InputOutput,
        ErrorCode::DatabaseCorrupt => Cause::Corrupt,
        ErrorCode::NotADatabase => Cause::NotADatabase,
        ErrorCode::Closed => Cause::Shut,
        _ => Cause::StoreFailed,
    }
}

/// The cause of a fault of the table in SQLite, as far as it is known.
const fn cause_of_store(fault: Option<StoreFault>) -> Cause
    ensures { result ≡ of_store fault }
{
    match fault {
        Some(StoreFault::Store(Error::SqliteFailure(code))) => cause_of_code(code),
        Some(StoreFault::BadRow) => Cause::Corrupt,
        _ => Cause::StoreFailed,
    }
}

impl Cause {
    /// Why a request failed for this, with what is known of the store.
    pub const fn of(fault: TableFault, store: Option<StoreFault>) -> Cause
        ensures { result ≡ cause_of fault store }
    {
        match fault {
            TableFault::NoMemory => Cause::NoMemory,
            TableFault::Store => cause_of_store(store),
        }
    }

    /// The cause in words, which follow "because".
    pub const fn words(self) -> &'static str
        ensures { result.now ≡ cause_words self }
    {
        match self {
            Cause::NoMemory => "memory ran out",
            Cause::Locked => "the store is locked by another program",
            Cause::NotOpened => "the file of the store cannot be opened",
            Cause::DiskFull => "the disk is full",
            Cause::InputOutput => "of an input/output error",
            Cause::Corrupt => "the store is corrupt",
            Cause::NotADatabase => "the file of the store is not a database",
            Cause::Shut => "an earlier failure shut the store",
            Cause::StoreFailed => "the store failed",
        }
    }
}

/// What tells why the store of a table failed.
pub trait Diagnosis<T> {
    // Why the last call of the table failed that answered `Store`, where that is known.
    ghost fault: { Self → T → Option StoreFaultOf };

    /// Why the last call of a table failed that answered `Store`, where that is known.
    fn store_fault(&self, table: &T) -> Option<StoreFault>
        ensures { result ≡ fault self.now table.now };
}

/// No diagnosis: it is not known why the store of a table failed.
#[derive(Clone, Copy)]
pub struct Undiagnosed;

impl<T> Diagnosis<T> for Undiagnosed {
    ghost fault = { λ _ _. None };

    fn store_fault(&self, _table: &T) -> Option<StoreFault> {
        None
    }
}
