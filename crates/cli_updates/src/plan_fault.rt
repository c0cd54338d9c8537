//! Why a plan did not go through.

use cli_core::{JobFault, LineFault, Refusal};
use std::fmt::{self, Display, Formatter, Write};

/// Why a plan did not go through, and of which input.
#[derive(Clone, Copy)]
pub enum PlanFault {
    /// The caller, or the policy.
    Policy(JobFault),
    /// The zone and the update, or the output.
    Input(JobFault),
}

/// The fault in words, and before it that it is of the policy's file, where that cannot be read.
impl Display for PlanFault {
    fn fmt<W: Write>(&self, f: &mut Formatter<W>) -> fmt::Result {
        match *self {
            PlanFault::Policy(fault) => {
                if let JobFault::Reported(
                    LineFault::ReadFailed | LineFault::Refused(Refusal::TooLarge),
                ) = fault
                {
                    f.write_str("the policy: ")?;
                }
                write!(f, "{fault}")
            }
            PlanFault::Input(fault) => write!(f, "{fault}"),
        }
    }
}
