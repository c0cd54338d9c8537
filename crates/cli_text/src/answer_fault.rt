//! Why questions were not answered.

use cli_core::{JobFault, LineFault, Refusal};
use std::fmt::{self, Display, Formatter, Write};

/// Why questions were not answered, and which input is at fault.
#[derive(Clone, Copy)]
pub enum AnswerFault {
    /// The origin, or the questions.
    Questions(JobFault),
    /// The zone, or the output.
    Zone(JobFault),
}

/// The fault in words, and before it that it is of the questions, where that cannot be told from the words.
impl Display for AnswerFault {
    fn fmt<W: Write>(&self, f: &mut Formatter<W>) -> fmt::Result {
        match *self {
            AnswerFault::Questions(fault) => {
                if let JobFault::Reported(
                    LineFault::ReadFailed
                    | LineFault::Refused(Refusal::TooLarge | Refusal::Master(_)),
                ) = fault
                {
                    f.write_str("the questions: ")?;
                }
                write!(f, "{fault}")
            }
            AnswerFault::Zone(fault) => write!(f, "{fault}"),
        }
    }
}
