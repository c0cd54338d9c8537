//! Why a text tells no expectations.

ghost use Rattle.std.specs.Prelude.{◌≡◌};
ghost use Rattle.policy_tools.specs.declared.expectation_fault.ExpectationFault.TheVariants.{NoMemory};
ghost use Rattle.policy_tools.specs.ExpectationFaults.{of_name};

use dns_names::NameFault;
use std::alloc::{AllocError, AllocFailed};
use std::fmt::{self, Display, Formatter, Write};

/// What is wrong with a line.
#[derive(Clone, Copy)]
pub enum ExpectationFault {
    /// The words are not `granted CALLER NAME TYPE ACTION [by RULE]`, the same with `denied`, or
    /// `only CALLER.. may ACTION TYPE at NAME`, with `nobody`, `within` or `below` for some of them.
    Form,
    /// A word is no identifier of a caller, or `nobody` is one of several.
    NoCaller,
    /// A word is no absolute name.
    Name(NameFault),
    /// A word is no type that is kept.
    TypeNotKept,
    /// A word is no action.
    NoAction,
    /// A word is no identifier of a rule.
    NoRule,
    /// Memory ran out. This says nothing of the line.
    NoMemory,
}

/// What is wrong with a text, at the first line where something is.
#[derive(Clone, Copy)]
pub struct ExpectationsFault {
    /// The line, from 1. It says nothing where memory ran out.
    pub line: usize,
    /// What is wrong there.
    pub fault: ExpectationFault,
}

impl ExpectationFault {
    /// What is wrong, in words, where it is not a name.
    fn words(self) -> &'static str {
        match self {
            ExpectationFault::Form =>
                "the line is neither granted or denied CALLER NAME TYPE ACTION [by RULE] nor only CALLER.. may ACTION TYPE at, within or below NAME",
            ExpectationFault::NoCaller =>
                "a caller is 1 to 64 of the octets a to z, A to Z, 0 to 9, -, _ and ., and nobody stands alone",
            ExpectationFault::Name(_) => "the name is malformed",
            ExpectationFault::TypeNotKept => "records of this type are not kept",
            ExpectationFault::NoAction =>
                "the action is not one of list, check, add, delete and delegate",
            ExpectationFault::NoRule =>
                "a rule is 1 to 64 of the octets a to z, A to Z, 0 to 9, -, _ and .",
            ExpectationFault::NoMemory => "out of memory",
        }
    }
}

/// What is wrong, in words.
impl Display for ExpectationFault {
    fn fmt<W: Write>(&self, f: &mut Formatter<W>) -> fmt::Result {
        match self {
            ExpectationFault::Name(fault) => write!(f, "{fault}"),
            fault => f.write_str(fault.words()),
        }
    }
}

impl From<NameFault> for ExpectationFault {
    ghost from_gives = { λ fault e. e ≡ of_name fault };

    fn from(fault: NameFault) -> ExpectationFault {
        match fault {
            NameFault::NoMemory => ExpectationFault::NoMemory,
            fault => ExpectationFault::Name(fault),
        }
    }
}

impl From<AllocError> for ExpectationFault {
    ghost from_gives = { λ _ e. e ≡ NoMemory };

    fn from(_e: AllocError) -> ExpectationFault {
        ExpectationFault::NoMemory
    }
}

impl<T: Drop> From<AllocFailed<T>> for ExpectationFault {
    ghost from_gives = { λ _ e. e ≡ NoMemory };

    fn from(_e: AllocFailed<T>) -> ExpectationFault {
        ExpectationFault::NoMemory
    }
}

impl From<AllocError> for ExpectationsFault {
    ghost from_gives = { λ _ e. e.fault ≡ NoMemory };

    fn from(_e: AllocError) -> ExpectationsFault {
        ExpectationsFault {
            line: 0,
            fault: ExpectationFault::NoMemory,
        }
    }
}

impl<T: Drop> From<AllocFailed<T>> for ExpectationsFault {
    ghost from_gives = { λ _ e. e.fault ≡ NoMemory };

    fn from(_e: AllocFailed<T>) -> ExpectationsFault {
        ExpectationsFault {
            line: 0,
            fault: ExpectationFault::NoMemory,
        }
    }
}
