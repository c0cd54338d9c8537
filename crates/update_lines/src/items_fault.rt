//! Why a text has no items of an update.

ghost use Rattle.std.specs.Prelude.{◌≡◌};

use refusals::words;
use std::alloc::{AllocError, AllocFailed};
use std::error::Error;
use std::fmt::{self, Display, Formatter, Write};
use zone_core::UpdateFault;

/// What is wrong with item lines. Lines count from 1.
#[derive(Clone, Copy, Debug, PartialEq, Eq)]
pub enum ItemsFault {
    /// A parenthesis or a quote is wrong, or an entry is no item: the line of the parenthesis or quote, else that of the
    /// entry's first item.
    BadLine(usize),
    /// The items make no update.
    Update(UpdateFault),
    /// Memory ran out. This says nothing of the text.
    NoMemory,
}

impl ItemsFault {
    ghost use Rattle.update_lines.specs.ItemFaults.{fault_number, fault_line};

    /// The published number of the refusal: 97, that of the update's fault (89 or 92), or 99 when out of memory.
    pub const fn number(self) -> u8
        ensures { result ≡ fault_number self }
    {
        match self {
            ItemsFault::BadLine(_) => 97,
            ItemsFault::Update(fault) => fault.number(),
            ItemsFault::NoMemory => 99,
        }
    }

    /// The line of the text at which the fault is, from 1. `Update` and `NoMemory` are at none: `None`.
    pub const fn line(self) -> Option<usize>
        ensures { result ≡ fault_line self }
    {
        match self {
            ItemsFault::BadLine(line) => Some(line),
            ItemsFault::Update(_) | ItemsFault::NoMemory => None,
        }
    }
}

/// What is wrong, in words.
impl Display for ItemsFault {
    fn fmt<W: Write>(&self, f: &mut Formatter<W>) -> fmt::Result {
        match self {
            ItemsFault::BadLine(line) => write!(f, "line {line} {}", words(self.number())),
            ItemsFault::Update(fault) => write!(f, "{fault}"),
            ItemsFault::NoMemory => f.write_str(words(self.number())),
        }
    }
}

impl Error for ItemsFault {}

impl From<UpdateFault> for ItemsFault {
    ghost use Rattle.update_lines.specs.declared.items_fault.ItemsFault.TheVariants.{Update};

    ghost from_gives = { λ f e. e ≡ Update f };

    fn from(fault: UpdateFault) -> ItemsFault {
        ItemsFault::Update(fault)
    }
}

impl From<AllocError> for ItemsFault {
    ghost use Rattle.update_lines.specs.declared.items_fault.ItemsFault.TheVariants.{NoMemory};

    ghost from_gives = { λ _ e. e ≡ NoMemory };

    fn from(_e: AllocError) -> ItemsFault {
        ItemsFault::NoMemory
    }
}

impl<T: Drop> From<AllocFailed<T>> for ItemsFault {
    ghost use Rattle.update_lines.specs.declared.items_fault.ItemsFault.TheVariants.{NoMemory};

    ghost from_gives = { λ _ e. e ≡ NoMemory };

    fn from(_e: AllocFailed<T>) -> ItemsFault {
        ItemsFault::NoMemory
    }
}
