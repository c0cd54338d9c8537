//! Why expectations were not checked.

use cli_core::{JobFault, LineFault, Refusal};
use std::fmt::{self, Display, Formatter, Write};

/// Why expectations were not checked, and which input is at fault.
#[derive(Clone, Copy)]
pub enum ExpectFault {
    /// The policy.
    Policy(JobFault),
    /// What is expected of it, or the output.
    Expected(JobFault),
}

/// The fault in words, and before it that it is of the policy or of the expectations, where the words do not tell.
impl Display for ExpectFault {
    fn fmt<W: Write>(&self, f: &mut Formatter<W>) -> fmt::Result {
        let (input, fault) = match *self {
            ExpectFault::Policy(fault) => ("policy", fault),
            ExpectFault::Expected(fault) => ("expectations", fault),
        };
        if let JobFault::Reported(
            LineFault::ReadFailed | LineFault::Refused(Refusal::TooLarge),
        ) = fault
        {
            write!(f, "the {input}: ")?;
        }
        write!(f, "{fault}")
    }
}
