//! Why a diff did not go through.

use cli_core::{JobFault, LineFault, Refusal};
use std::fmt::{self, Display, Formatter, Write};

/// Why a diff did not go through, and of which zone's file.
#[derive(Clone, Copy)]
pub enum DiffFault {
    /// The origin, or the zone as it is.
    Old(JobFault),
    /// The zone as it is to be, or the output.
    New(JobFault),
}

/// Whether a fault is of the input that was read.
fn is_of_input(fault: JobFault) -> bool {
    match fault {
        JobFault::Reported(LineFault::ReadFailed) => true,
        JobFault::Reported(LineFault::Refused(refusal)) => !matches!(refusal, Refusal::Name(_)),
        _ => false,
    }
}

/// The fault in words, and before it the zone whose file it is of.
impl Display for DiffFault {
    fn fmt<W: Write>(&self, f: &mut Formatter<W>) -> fmt::Result {
        let (zone, fault) = match *self {
            DiffFault::Old(fault) => ("old", fault),
            DiffFault::New(fault) => ("new", fault),
        };
        if is_of_input(fault) {
            write!(f, "the {zone} zone: ")?;
        }
        write!(f, "{fault}")
    }
}
