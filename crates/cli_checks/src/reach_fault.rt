//! Why it was not found which answers a caller can change.

use cli_core::{JobFault, LineFault, Refusal};
use std::fmt::{self, Display, Formatter, Write};

/// Why it was not found which answers a caller can change, and what is at fault.
#[derive(Clone, Copy)]
pub enum ReachFault {
    /// The word of the caller, or the output.
    Caller(JobFault),
    /// The policy, or the output.
    Policy(JobFault),
    /// The word of the origin, the zone, or the output.
    Zone(JobFault),
}

/// The fault in words, and before it that it is of the policy or of the zone, where the words do not tell.
impl Display for ReachFault {
    fn fmt<W: Write>(&self, f: &mut Formatter<W>) -> fmt::Result {
        let (input, fault) = match *self {
            ReachFault::Caller(fault) => ("caller", fault),
            ReachFault::Policy(fault) => ("policy", fault),
            ReachFault::Zone(fault) => ("zone", fault),
        };
        if let JobFault::Reported(
            LineFault::ReadFailed | LineFault::Refused(Refusal::TooLarge),
        ) = fault
        {
            write!(f, "the {input}: ")?;
        }
        write!(f, "{fault}")
    }
}
