//! Why a text falls into no entries, while it is read.

ghost use Rattle.std.specs.Prelude.{◌≡◌, ◌-◌, length};
ghost use Rattle.dns_master.specs.declared.shape.ShapeFault.TheVariants.{NoMemory};
ghost use Rattle.dns_master.specs.Faults.{on_line};
ghost use Rattle.dns_master.specs.Lines.{line_at};

use crate::line::{Mark, line_at};
use crate::master_fault::MasterFault;
use std::alloc::{AllocError, AllocFailed};

/// What is wrong with parentheses or quotes. The number says how many octets are left from the place on.
#[derive(Clone, Copy)]
pub(crate) enum ShapeFault {
    /// The text ends inside parentheses: the outermost open one.
    ParenOpen(usize),
    /// A closing parenthesis without an open one.
    ParenClose(usize),
    /// The text ends inside quotes: the quote that is open.
    QuoteOpen(usize),
    /// Memory ran out. This says nothing of the text.
    NoMemory,
}

impl ShapeFault {
    /// The fault with its line in place of the octets that are left of the text.
    pub(crate) fn on_line(self, text: &[u8]) -> MasterFault
        ensures { result ≡ on_line text.now self }
    {
        match self {
            ShapeFault::ParenOpen(left) => MasterFault::ParenOpen(line_before(text, left)),
            ShapeFault::ParenClose(left) => MasterFault::ParenClose(line_before(text, left)),
            ShapeFault::QuoteOpen(left) => MasterFault::QuoteOpen(line_before(text, left)),
            ShapeFault::NoMemory => MasterFault::NoMemory,
        }
    }
}

/// The line of the place from which so many octets are left.
pub(crate) fn line_before(text: &[u8], left: usize) -> usize
    ensures { result ≡ line_at text.now (length text.now - left) }
{
    line_at(
        text,
        Mark { at: 0, line: 1 },
        text.len().saturating_sub(left),
    )
}

impl From<AllocError> for ShapeFault {
    ghost from_gives = { λ _ e. e ≡ NoMemory };

    fn from(_e: AllocError) -> ShapeFault {
        ShapeFault::NoMemory
    }
}

impl<T: Drop> From<AllocFailed<T>> for ShapeFault {
    ghost from_gives = { λ _ e. e ≡ NoMemory };

    fn from(_e: AllocFailed<T>) -> ShapeFault {
        ShapeFault::NoMemory
    }
}
