//! Why the table in SQLite refuses a call, and by which number.

ghost use Rattle.std.specs.Prelude.{◌≡◌};
ghost use Rattle.store_faults.specs.StoreFaults.{store_fault_number, of_rows, of_store, of_zone};
ghost use Rattle.store_faults.specs.declared.store_fault.StoreFault.TheVariants.{NoMemory};

use refusals::words;
use sqlite::{Error as StoreError, ErrorCode};
use std::alloc::{AllocError, AllocFailed};
use std::error::Error;
use std::fmt::{self, Display, Formatter, Write};
use store_sql::RowsFault;
use zone_core::ZoneFault;

/// Why a call of the table in SQLite was refused. What it holds has not changed.
#[derive(Clone, Copy, Debug, PartialEq, Eq)]
pub enum StoreFault {
    /// There is a zone of the origin.
    ZoneExists,
    /// There is no zone of the origin.
    NoZone,
    /// The serial is not greater than that of the zone that is there (RFC 1982 section 3.2).
    SerialNotGreater,
    /// The store has no tables, others, or those of another version; or it has some where they are to be made.
    WrongVersion,
    /// The store failed, or does not keep what was written to it.
    Store(StoreError),
    /// The rows of the tables are not those of a state.
    BadRow,
    /// The records are no zone.
    Zone(ZoneFault),
    /// Memory ran out. This says nothing of the store.
    NoMemory,
}

impl StoreFault {
    /// The published number of the refusal: 71 to 76, that of the zone's (41 to 47, 50), or 99 when out of memory.
    pub const fn number(self) -> u8
        ensures { result ≡ store_fault_number self }
    {
        match self {
            StoreFault::ZoneExists => 71,
            StoreFault::NoZone => 72,
            StoreFault::SerialNotGreater => 73,
            StoreFault::WrongVersion => 74,
            StoreFault::Store(_) => 75,
            StoreFault::BadRow => 76,
            StoreFault::Zone(fault) => fault.number(),
            StoreFault::NoMemory => 99,
        }
    }
}

/// What is wrong, in words.
impl Display for StoreFault {
    fn fmt<W: Write>(&self, f: &mut Formatter<W>) -> fmt::Result {
        match self {
            StoreFault::Store(error) => write!(f, "{error}"),
            StoreFault::Zone(fault) => write!(f, "{fault}"),
            fault => f.write_str(words(fault.number())),
        }
    }
}

impl Error for StoreFault {}

impl From<RowsFault> for StoreFault {
    ghost from_gives = { λ f e. e ≡ of_rows f };

    fn from(fault: RowsFault) -> StoreFault {
        match fault {
            RowsFault::Store(cause) => StoreFault::Store(cause),
            RowsFault::BadRow => StoreFault::Store(StoreError::SqliteFailure(
                ErrorCode::DatabaseCorrupt,
            )),
            RowsFault::NoMemory => StoreFault::NoMemory,
        }
    }
}

impl From<StoreError> for StoreFault {
    ghost from_gives = { λ f e. e ≡ of_store f };

    fn from(error: StoreError) -> StoreFault {
        StoreFault::from(RowsFault::from(error))
    }
}

impl From<ZoneFault> for StoreFault {
    ghost from_gives = { λ f e. e ≡ of_zone f };

    fn from(fault: ZoneFault) -> StoreFault {
        match fault {
            ZoneFault::NoMemory => StoreFault::NoMemory,
            _ => StoreFault::Zone(fault),
        }
    }
}

impl From<AllocError> for StoreFault {
    ghost from_gives = { λ _ e. e ≡ NoMemory };

    fn from(_e: AllocError) -> StoreFault {
        StoreFault::NoMemory
    }
}

impl<T: Drop> From<AllocFailed<T>> for StoreFault {
    ghost from_gives = { λ _ e. e ≡ NoMemory };

    fn from(_e: AllocFailed<T>) -> StoreFault {
        StoreFault::NoMemory
    }
}
