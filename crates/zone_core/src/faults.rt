//! Why records are no zone, or items no update.

ghost use Rattle.std.specs.Prelude.{◌≡◌};

use refusals::words;
use std::alloc::{AllocError, AllocFailed};
use std::error::Error;
use std::fmt::{self, Display, Formatter, Write};

/// Why records are no zone.
#[derive(Clone, Copy, Debug, PartialEq, Eq)]
pub enum ZoneFault {
    /// The origin is the root, which is no zone's origin here.
    RootOrigin,
    /// An owner is outside the origin, or that of a DS is not below it (RFC 1035 section 5.2, RFC 4034 section 5).
    OutOfZone,
    /// An SOA stands elsewhere than at the origin (RFC 1035 section 5.2).
    SoaNotAtOrigin,
    /// There is no SOA (RFC 1035 section 5.2).
    NoSoa,
    /// There are two SOA records that are not the same (RFC 1035 section 5.2).
    TwoSoa,
    /// There is no NS at the origin (RFC 1034 section 4.2.1).
    NoOriginNs,
    /// A name has two CNAME records that are not the same (RFC 1034 section 3.6.2).
    TwoCnames,
    /// A name has a CNAME and a record of another type (RFC 1034 section 3.6.2).
    CnameAndOther,
    /// Memory ran out. This says nothing of the records.
    NoMemory,
}

impl ZoneFault {
    ghost use Rattle.zone_core.specs.Faults.{zone_fault_number};

    /// The published number of the refusal: 41 to 47, 50, or 99 when out of memory.
    pub const fn number(self) -> u8
        ensures { result ≡ zone_fault_number self }
    {
        match self {
            ZoneFault::NoSoa => 41,
            ZoneFault::TwoSoa => 42,
            ZoneFault::SoaNotAtOrigin => 43,
            ZoneFault::NoOriginNs => 44,
            ZoneFault::CnameAndOther => 45,
            ZoneFault::TwoCnames => 46,
            ZoneFault::OutOfZone => 47,
            ZoneFault::RootOrigin => 50,
            ZoneFault::NoMemory => 99,
        }
    }
}

/// What is wrong, in words.
impl Display for ZoneFault {
    fn fmt<W: Write>(&self, f: &mut Formatter<W>) -> fmt::Result {
        f.write_str(words(self.number()))
    }
}

impl Error for ZoneFault {}

impl From<AllocError> for ZoneFault {
    ghost use Rattle.zone_core.specs.declared.faults.ZoneFault.TheVariants.{NoMemory};

    ghost from_gives = { λ _ e. e ≡ NoMemory };

    fn from(_e: AllocError) -> ZoneFault {
        ZoneFault::NoMemory
    }
}

impl<T: Drop> From<AllocFailed<T>> for ZoneFault {
    ghost use Rattle.zone_core.specs.declared.faults.ZoneFault.TheVariants.{NoMemory};

    ghost from_gives = { λ _ e. e ≡ NoMemory };

    fn from(_e: AllocFailed<T>) -> ZoneFault {
        ZoneFault::NoMemory
    }
}

/// Why prerequisites and operations are no update.
#[derive(Clone, Copy, Debug, PartialEq, Eq)]
pub enum UpdateFault {
    /// More than 64 prerequisites or more than 256 operations.
    TooManyItems,
    /// Two operations add an SOA, be it the same one.
    TwoSoa,
}

impl UpdateFault {
    ghost use Rattle.zone_core.specs.Faults.{update_fault_number};

    /// The published number of the refusal: 89 or 92.
    pub const fn number(self) -> u8
        ensures { result ≡ update_fault_number self }
    {
        match self {
            UpdateFault::TooManyItems => 89,
            UpdateFault::TwoSoa => 92,
        }
    }
}

/// What is wrong, in words.
impl Display for UpdateFault {
    fn fmt<W: Write>(&self, f: &mut Formatter<W>) -> fmt::Result {
        f.write_str(words(self.number()))
    }
}

impl Error for UpdateFault {}

/// Why a delegation is no update.
#[derive(Clone, Copy, Debug, PartialEq, Eq)]
pub enum DelegationFault {
    /// The child is not below the origin (RFC 1034 section 4.2).
    NotBelowOrigin,
    /// No server is named.
    NoServer,
    /// A server within the child has no address, without which it can't be reached (RFC 1034 section 4.2.1).
    GlueMissing,
    /// More than 256 operations.
    TooManyItems,
    /// Memory ran out. This says nothing of the request.
    NoMemory,
}

impl DelegationFault {
    ghost use Rattle.zone_core.specs.Faults.{delegation_fault_number};

    /// The published number of the refusal: 40, 48, 49, 89, or 99 when out of memory.
    pub const fn number(self) -> u8
        ensures { result ≡ delegation_fault_number self }
    {
        match self {
            DelegationFault::NoServer => 40,
            DelegationFault::GlueMissing => 48,
            DelegationFault::NotBelowOrigin => 49,
            DelegationFault::TooManyItems => 89,
            DelegationFault::NoMemory => 99,
        }
    }
}

/// What is wrong, in words.
impl Display for DelegationFault {
    fn fmt<W: Write>(&self, f: &mut Formatter<W>) -> fmt::Result {
        match self {
            DelegationFault::TooManyItems => f.write_str(
                "a delegation makes at most 256 operations",
            ),
            fault => f.write_str(words(fault.number())),
        }
    }
}

impl Error for DelegationFault {}

impl From<AllocError> for DelegationFault {
    ghost use Rattle.zone_core.specs.declared.faults.DelegationFault.TheVariants.{NoMemory};

    ghost from_gives = { λ _ e. e ≡ NoMemory };

    fn from(_e: AllocError) -> DelegationFault {
        DelegationFault::NoMemory
    }
}
