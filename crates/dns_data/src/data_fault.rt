//! Why items are no record data.

ghost use Rattle.std.specs.Prelude.{◌≡◌};
ghost use Rattle.dns_data.specs.declared.data_fault.DataFault.TheVariants.{NoMemory};

use dns_names::NameFault;
use refusals::words;
use std::alloc::{AllocError, AllocFailed};
use std::error::Error;
use std::fmt;

/// What is wrong with the items of record data, or with the name of a type.
#[derive(Clone, Copy, Debug, PartialEq, Eq)]
pub enum DataFault {
    /// No IPv4 address for A (RFC 1035 section 3.4.1), or no IPv6 address for AAAA (RFC 4291 section 2.2).
    BadAddress,
    /// No decimal number; in a place of seconds, no number with units either.
    BadNumber,
    /// A number that its field has no room for.
    NumberRange,
    /// A character-string of more than 255 octets (RFC 1035 section 3.3).
    StringTooLong,
    /// The data end before their last field.
    FieldMissing,
    /// Items stand after the last field.
    FieldExtra,
    /// A type that is not kept here, or data in the generic form of RFC 3597.
    TypeNotKept,
    /// Data of more than 65,535 octets (RFC 1035 section 3.2.1).
    DataTooLong,
    /// A malformed name, or a bad escape in a character-string.
    Name(NameFault),
    /// A quoted item in the place of a name, a number, an address or a digest.
    QuotedItem,
    /// A digest that is no row of pairs of hexadecimal digits, one pair or more (RFC 4034 section 5.3).
    BadDigest,
    /// Memory ran out. This says nothing of the items.
    NoMemory,
}

impl DataFault {
    ghost use Rattle.dns_data.specs.Faults.{fault_number};

    /// The published number of the refusal, 11 to 20 or 33, or 99 when out of memory. A name's own number is that of its
    /// fault.
    pub const fn number(self) -> u8
        ensures { result ≡ fault_number self }
    {
        match self {
            DataFault::BadAddress => 11,
            DataFault::BadNumber => 12,
            DataFault::NumberRange => 13,
            DataFault::StringTooLong => 14,
            DataFault::FieldMissing => 15,
            DataFault::FieldExtra => 16,
            DataFault::TypeNotKept => 17,
            DataFault::DataTooLong => 18,
            DataFault::Name(_) => 19,
            DataFault::QuotedItem => 20,
            DataFault::BadDigest => 33,
            DataFault::NoMemory => 99,
        }
    }
}

impl fmt::Display for DataFault {
    fn fmt<W: fmt::Write>(&self, f: &mut fmt::Formatter<W>) -> fmt::Result {
        match self {
            DataFault::Name(fault) => write!(f, "{fault}"),
            fault => f.write_str(words(fault.number())),
        }
    }
}

impl Error for DataFault {}

impl From<NameFault> for DataFault {
    ghost use Rattle.dns_data.specs.Faults.{of_name};

    ghost from_gives = { λ f e. e ≡ of_name f };

    fn from(fault: NameFault) -> DataFault {
        match fault {
            NameFault::NoMemory => DataFault::NoMemory,
            fault => DataFault::Name(fault),
        }
    }
}

impl From<AllocError> for DataFault {
    ghost from_gives = { λ _ e. e ≡ NoMemory };

    fn from(_e: AllocError) -> DataFault {
        DataFault::NoMemory
    }
}

impl<T: Drop> From<AllocFailed<T>> for DataFault {
    ghost from_gives = { λ _ e. e ≡ NoMemory };

    fn from(_e: AllocFailed<T>) -> DataFault {
        DataFault::NoMemory
    }
}
