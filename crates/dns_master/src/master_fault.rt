//! Why a text is no master file, or why none was written.

ghost use Rattle.std.specs.Prelude.{◌≡◌};
ghost use Rattle.dns_master.specs.declared.master_fault.MasterFault.TheVariants.{NoMemory};

use dns_data::DataFault;
use refusals::words;
use std::alloc::{AllocError, AllocFailed};
use std::error::Error;
use std::fmt::{self, Debug, Display, Formatter, Write};

/// What is wrong with a master file, or with the device that one is written to. Lines count from 1.
#[derive(Clone, Copy, PartialEq, Eq)]
pub enum MasterFault {
    /// The text ends inside parentheses (RFC 1035 section 5.1): the line of the outermost one that is open.
    ParenOpen(usize),
    /// A closing parenthesis without an open one (RFC 1035 section 5.1): its line.
    ParenClose(usize),
    /// The text ends inside quotes (RFC 1035 section 5.1): the line of the opening quote.
    QuoteOpen(usize),
    /// An entry without an owner, and none was stated before it (RFC 1035 section 5.1).
    NoOwner(usize),
    /// A record without a TTL, and none is in force (RFC 2308 section 4).
    NoTtl(usize),
    /// A class that is not IN (RFC 1035 section 3.2.4).
    ClassNotIn(usize),
    /// A directive that is neither `$ORIGIN` nor `$TTL` (RFC 1035 section 5.1, RFC 2308 section 4).
    DirectiveNotKept(usize),
    /// A malformed TTL (RFC 2181 section 8).
    BadTtl(usize),
    /// The type, a name or the data of a record, or an item after a directive.
    Data {
        /// The line of the entry's first item.
        line: usize,
        /// What is wrong with the items.
        fault: DataFault,
    },
    /// A text of more than 4,194,304 octets.
    TooLarge,
    /// An entry that ends before its type, or a directive without its item (RFC 1035 section 5.1).
    EntryShort(usize),
    /// The writer failed.
    WriteFailed,
    /// Memory ran out. This says nothing of the text.
    NoMemory,
}

impl MasterFault {
    ghost use Rattle.dns_master.specs.Faults.{fault_number, fault_line};

    /// The published number of the refusal, 21 to 32, or 99 when out of memory. Data's own number is that of their fault.
    pub const fn number(self) -> u8
        ensures { result ≡ fault_number self }
    {
        match self {
            MasterFault::ParenOpen(_) => 21,
            MasterFault::ParenClose(_) => 22,
            MasterFault::QuoteOpen(_) => 23,
            MasterFault::NoOwner(_) => 24,
            MasterFault::NoTtl(_) => 25,
            MasterFault::ClassNotIn(_) => 26,
            MasterFault::DirectiveNotKept(_) => 27,
            MasterFault::BadTtl(_) => 28,
            MasterFault::Data { .. } => 29,
            MasterFault::TooLarge => 30,
            MasterFault::EntryShort(_) => 31,
            MasterFault::WriteFailed => 32,
            MasterFault::NoMemory => 99,
        }
    }

    /// The line of the text at which the fault is, from 1. `TooLarge`, `WriteFailed` and `NoMemory` are at none: `None`.
    pub const fn line(self) -> Option<usize>
        ensures { result ≡ fault_line self }
    {
        match self {
            MasterFault::ParenOpen(line)
            | MasterFault::ParenClose(line)
            | MasterFault::QuoteOpen(line)
            | MasterFault::NoOwner(line)
            | MasterFault::NoTtl(line)
            | MasterFault::ClassNotIn(line)
            | MasterFault::DirectiveNotKept(line)
            | MasterFault::BadTtl(line)
            | MasterFault::Data { line, .. }
            | MasterFault::EntryShort(line) => Some(line),
            MasterFault::TooLarge | MasterFault::WriteFailed | MasterFault::NoMemory => None,
        }
    }
}

/// The line, where the fault is at one, and what is wrong there.
impl Display for MasterFault {
    fn fmt<W: Write>(&self, f: &mut Formatter<W>) -> fmt::Result {
        if let Some(line) = self.line() {
            write!(f, "line {line}: ")?;
        }
        match self {
            MasterFault::Data { fault, .. } => write!(f, "{fault}"),
            MasterFault::TooLarge => f.write_str("the master file has more than 4194304 octets"),
            fault => f.write_str(words(fault.number())),
        }
    }
}

/// As `Display` tells it.
impl Debug for MasterFault {
    fn fmt<W: Write>(&self, f: &mut Formatter<W>) -> fmt::Result {
        Display::fmt(self, f)
    }
}

impl Error for MasterFault {}

impl From<AllocError> for MasterFault {
    ghost from_gives = { λ _ e. e ≡ NoMemory };

    fn from(_e: AllocError) -> MasterFault {
        MasterFault::NoMemory
    }
}

impl<T: Drop> From<AllocFailed<T>> for MasterFault {
    ghost from_gives = { λ _ e. e ≡ NoMemory };

    fn from(_e: AllocFailed<T>) -> MasterFault {
        MasterFault::NoMemory
    }
}
