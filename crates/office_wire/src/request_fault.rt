//! Why what was read is no call of the office.

ghost use Rattle.std.specs.Prelude.{◌≡◌};

use crate::refusal::Refusal;
use dns_names::NameFault;
use std::alloc::{AllocError, AllocFailed};
use wire_json::BodyFault;

/// Why a head and a body are no call of the office.
#[derive(Clone, Copy, PartialEq, Eq)]
pub(crate) enum RequestFault {
    /// The request is refused.
    Refused(Refusal),
    /// Its body is, with a refusal of this published number.
    BadBody(u8),
    /// Memory ran out. This says nothing of the request.
    NoMemory,
}

impl From<NameFault> for RequestFault {
    ghost use Rattle.office_wire.specs.Requests.{of_name};

    ghost from_gives = { λ f e. e ≡ of_name f };

    fn from(fault: NameFault) -> RequestFault {
        match fault {
            NameFault::NoMemory => RequestFault::NoMemory,
            _ => RequestFault::Refused(Refusal::BadPart),
        }
    }
}

impl From<BodyFault> for RequestFault {
    ghost use Rattle.office_wire.specs.Requests.{of_body};

    ghost from_gives = { λ f e. e ≡ of_body f };

    fn from(fault: BodyFault) -> RequestFault {
        match fault {
            BodyFault::NoMemory => RequestFault::NoMemory,
            other => RequestFault::BadBody(other.number()),
        }
    }
}

impl From<AllocError> for RequestFault {
    ghost use Rattle.office_wire.specs.declared.request_fault.RequestFault.TheVariants.{NoMemory};

    ghost from_gives = { λ _ e. e ≡ NoMemory };

    fn from(_e: AllocError) -> RequestFault {
        RequestFault::NoMemory
    }
}
