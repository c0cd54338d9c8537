//! Why a policy was not checked beside zones.

use cli_core::{JobFault, LineFault, Refusal};
use std::fmt::{self, Display, Formatter, Write};

/// Why a policy was not checked beside zones, and what is at fault.
#[derive(Clone, Copy)]
pub enum PolicyZonesFault {
    /// The word of the caller, or the output.
    Reader(JobFault),
    /// The policy, or the output.
    Policy(JobFault),
    /// The list of zones, or the output.
    Zones(JobFault),
}

/// The fault in words, and before it that it is of the policy or of the zones, where the words do not tell.
impl Display for PolicyZonesFault {
    fn fmt<W: Write>(&self, f: &mut Formatter<W>) -> fmt::Result {
        let (input, fault) = match *self {
            PolicyZonesFault::Reader(fault) => ("reader", fault),
            PolicyZonesFault::Policy(fault) => ("policy", fault),
            PolicyZonesFault::Zones(fault) => ("zones", fault),
        };
        if let JobFault::Reported(
            LineFault::ReadFailed | LineFault::Refused(Refusal::TooLarge),
        ) = fault
        {
            write!(f, "the {input}: ")?;
        }
        write!(f, "{fault}")
    }
}
