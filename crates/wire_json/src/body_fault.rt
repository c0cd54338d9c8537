//! Why the body of a request is refused.

ghost use Rattle.std.specs.Prelude.{◌≡◌};

use dns_data::DataFault;
use dns_master::MasterFault;
use dns_names::NameFault;
use grant_policy::IdentifierFault;
use refusals::words;
use std::alloc::{AllocError, AllocFailed};
use std::error::Error;
use std::fmt::{self, Display, Formatter, Write};
use zone_core::{DelegationFault, UpdateFault};

/// What is wrong with the body of a request.
#[derive(Clone, Copy, Debug, PartialEq, Eq)]
pub enum BodyFault {
    /// It is no JSON text (RFC 8259).
    NotJson,
    /// An object has a field that is not asked for.
    UnknownField,
    /// An object lacks a field.
    MissingField,
    /// A value is not of its form.
    BadField,
    /// The items make no update.
    Update(UpdateFault),
    /// The delegation makes no update.
    Delegation(DelegationFault),
    /// Memory ran out. This says nothing of the body.
    NoMemory,
}

impl BodyFault {
    ghost use Rattle.wire_json.specs.Faults.{fault_number};

    /// The published number of the refusal: 85 to 88, that of the update's fault (89 or 92) or the delegation's (40, 48, 49 or
    /// 89), or 99 when out of memory.
    pub const fn number(self) -> u8
        ensures { result ≡ fault_number self }
    {
        match self {
            BodyFault::NotJson => 85,
            BodyFault::UnknownField => 86,
            BodyFault::MissingField => 87,
            BodyFault::BadField => 88,
            BodyFault::Update(fault) => fault.number(),
            BodyFault::Delegation(fault) => fault.number(),
            BodyFault::NoMemory => 99,
        }
    }
}

/// What is wrong, in words.
impl Display for BodyFault {
    fn fmt<W: Write>(&self, f: &mut Formatter<W>) -> fmt::Result {
        match self {
            BodyFault::Update(fault) => write!(f, "{fault}"),
            BodyFault::Delegation(fault) => write!(f, "{fault}"),
            fault => f.write_str(words(fault.number())),
        }
    }
}

impl Error for BodyFault {}

impl From<NameFault> for BodyFault {
    ghost use Rattle.wire_json.specs.Faults.{of_name};

    ghost from_gives = { λ f e. e ≡ of_name f };

    fn from(fault: NameFault) -> BodyFault {
        match fault {
            NameFault::NoMemory => BodyFault::NoMemory,
            _ => BodyFault::BadField,
        }
    }
}

impl From<IdentifierFault> for BodyFault {
    ghost use Rattle.wire_json.specs.Faults.{of_identifier};

    ghost from_gives = { λ f e. e ≡ of_identifier f };

    fn from(fault: IdentifierFault) -> BodyFault {
        match fault {
            IdentifierFault::NoMemory => BodyFault::NoMemory,
            IdentifierFault::Malformed => BodyFault::BadField,
        }
    }
}

impl From<MasterFault> for BodyFault {
    ghost use Rattle.wire_json.specs.Faults.{of_shape};

    ghost from_gives = { λ f e. e ≡ of_shape f };

    fn from(fault: MasterFault) -> BodyFault {
        match fault {
            MasterFault::NoMemory => BodyFault::NoMemory,
            _ => BodyFault::BadField,
        }
    }
}

impl From<DataFault> for BodyFault {
    ghost use Rattle.wire_json.specs.Faults.{of_data};

    ghost from_gives = { λ f e. e ≡ of_data f };

    fn from(fault: DataFault) -> BodyFault {
        match fault {
            DataFault::NoMemory => BodyFault::NoMemory,
            _ => BodyFault::BadField,
        }
    }
}

impl From<UpdateFault> for BodyFault {
    ghost use Rattle.wire_json.specs.declared.body_fault.BodyFault.TheVariants.{Update};

    ghost from_gives = { λ f e. e ≡ Update f };

    fn from(fault: UpdateFault) -> BodyFault {
        BodyFault::Update(fault)
    }
}

impl From<DelegationFault> for BodyFault {
    ghost use Rattle.wire_json.specs.Faults.{of_delegation};

    ghost from_gives = { λ f e. e ≡ of_delegation f };

    fn from(fault: DelegationFault) -> BodyFault {
        match fault {
            DelegationFault::NoMemory => BodyFault::NoMemory,
            other => BodyFault::Delegation(other),
        }
    }
}

impl From<AllocError> for BodyFault {
    ghost use Rattle.wire_json.specs.declared.body_fault.BodyFault.TheVariants.{NoMemory};

    ghost from_gives = { λ _ e. e ≡ NoMemory };

    fn from(_e: AllocError) -> BodyFault {
        BodyFault::NoMemory
    }
}

impl<T: Drop> From<AllocFailed<T>> for BodyFault {
    ghost use Rattle.wire_json.specs.declared.body_fault.BodyFault.TheVariants.{NoMemory};

    ghost from_gives = { λ _ e. e ≡ NoMemory };

    fn from(_e: AllocFailed<T>) -> BodyFault {
        BodyFault::NoMemory
    }
}
