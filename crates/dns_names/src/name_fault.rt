//! Why a text is no name.

ghost use Rattle.std.specs.Prelude.{◌≡◌};
ghost use Rattle.dns_names.specs.declared.name_fault.NameFault.TheVariants.{NoMemory};

use refusals::words;
use std::alloc::{AllocError, AllocFailed};
use std::error::Error;
use std::fmt::{self, Display, Formatter, Write};

/// What is wrong with the text of a name (RFC 1035 sections 2.3.4, 3.1 and 5.1).
#[derive(Clone, Copy, Debug, PartialEq, Eq)]
pub enum NameFault {
    /// A dot has no label before it, and is not the whole text.
    EmptyLabel,
    /// A label has more than 63 octets.
    LabelTooLong,
    /// The name has more than 255 octets, counting one before each label and one for the root.
    NameTooLong,
    /// A backslash stands at the end, before a digit that two more do not follow, or with a number above 255.
    BadEscape,
    /// The text does not end in a dot, where only absolute names are read.
    NotAbsolute,
    /// The text has no octet.
    Empty,
    /// Memory ran out. This says nothing of the text.
    NoMemory,
}

impl NameFault {
    ghost use Rattle.dns_names.specs.Faults.{fault_number};

    /// The published number of the refusal, 1 to 6, or 99 when out of memory.
    pub const fn number(self) -> u8
        ensures { result ≡ fault_number self }
    {
        match self {
            NameFault::EmptyLabel => 1,
            NameFault::LabelTooLong => 2,
            NameFault::NameTooLong => 3,
            NameFault::BadEscape => 4,
            NameFault::NotAbsolute => 5,
            NameFault::Empty => 6,
            NameFault::NoMemory => 99,
        }
    }
}

/// What is wrong, in words.
impl Display for NameFault {
    fn fmt<W: Write>(&self, f: &mut Formatter<W>) -> fmt::Result {
        f.write_str(words(self.number()))
    }
}

impl Error for NameFault {}

impl From<AllocError> for NameFault {
    ghost from_gives = { λ _ e. e ≡ NoMemory };

    fn from(_e: AllocError) -> NameFault {
        NameFault::NoMemory
    }
}

impl<T: Drop> From<AllocFailed<T>> for NameFault {
    ghost from_gives = { λ _ e. e ≡ NoMemory };

    fn from(_e: AllocFailed<T>) -> NameFault {
        NameFault::NoMemory
    }
}
