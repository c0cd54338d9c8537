//! Why a comparison of policies did not go through.

use cli_core::{JobFault, LineFault};
use std::fmt::{self, Display, Formatter, Write};

/// Why a comparison of policies did not go through, and of which policy.
#[derive(Clone, Copy)]
pub enum ChangesFault {
    /// The policy as it is.
    Old(JobFault),
    /// The other policy, or the output.
    New(JobFault),
}

/// Whether a fault is of the input that was read.
fn is_of_input(fault: JobFault) -> bool {
    matches!(
        fault,
        JobFault::Reported(LineFault::ReadFailed | LineFault::Refused(_))
    )
}

/// The fault in words, and before it the policy that it is of.
impl Display for ChangesFault {
    fn fmt<W: Write>(&self, f: &mut Formatter<W>) -> fmt::Result {
        let (policy, fault) = match *self {
            ChangesFault::Old(fault) => ("old", fault),
            ChangesFault::New(fault) => ("new", fault),
        };
        if is_of_input(fault) {
            write!(f, "the {policy} policy: ")?;
        }
        write!(f, "{fault}")
    }
}
