//! Why a text is no file of groups, or makes no policy.

ghost use Rattle.std.specs.Prelude.{◌≡◌};
ghost use Rattle.policy_build.specs.declared.build_fault.BuildFault.TheVariants.{NoMemory};

use crate::place::Place;
use dns_names::NameFault;
use grant_policy::Policy;
use refusals::words;
use std::alloc::{AllocError, AllocFailed};
use std::error::Error;
use std::fmt::{self, Debug, Display, Formatter, Write};

/// What is wrong with a file of groups, and where. Tables are counted from 1.
#[derive(Clone, Copy, PartialEq, Eq)]
pub enum BuildFault {
    /// The text is no TOML document, or not UTF-8.
    NotToml,
    /// A table has a key that none of its kind has.
    UnknownKey(Place),
    /// A table lacks a key, as a use lacks one of its parameters.
    MissingKey(Place),
    /// A value is not one of those that its key may have.
    BadValue(Place),
    /// An array has no items, as a group without members.
    Empty(Place),
    /// An absolute name is malformed.
    Name(Place, NameFault),
    /// A group, a template or a rule that is made has the name of one before it.
    Repeated(Place),
    /// A rule would be called as the closing default is.
    Reserved(Place),
    /// A rule would be called by more than 64 octets.
    IdTooLong(Place),
    /// No group above is called so.
    UnknownGroup(Place),
    /// No template is called so.
    UnknownTemplate(Place),
    /// A group, or a list, has this many members with those of its groups, more than 1,024.
    TooManyMembers(Place, usize),
    /// With those of this table the rules would be this many, more than 1,024.
    TooManyRules(Place, usize),
    /// Memory ran out. This says nothing of the file.
    NoMemory,
}

impl BuildFault {
    ghost use Rattle.policy_build.specs.Faults.{fault_number, name_fault};

    /// The published number of the refusal, as that of a policy: 51 to 58, or 99 when out of memory. A name's own number is that of its
    /// fault.
    pub const fn number(self) -> u8
        ensures { result ≡ fault_number self }
    {
        match self {
            BuildFault::NotToml => 51,
            BuildFault::UnknownKey(_) => 52,
            BuildFault::MissingKey(_) => 53,
            BuildFault::BadValue(_)
            | BuildFault::Empty(_)
            | BuildFault::IdTooLong(_)
            | BuildFault::UnknownGroup(_)
            | BuildFault::UnknownTemplate(_) => 54,
            BuildFault::Repeated(_) => 55,
            BuildFault::Reserved(_) => 56,
            BuildFault::TooManyMembers(..) | BuildFault::TooManyRules(..) => 57,
            BuildFault::Name(..) => 58,
            BuildFault::NoMemory => 99,
        }
    }

    /// The refusal where a name is refused.
    pub(crate) fn of_name(place: Place, fault: NameFault) -> BuildFault
        ensures { result ≡ name_fault place fault }
    {
        match fault {
            NameFault::NoMemory => BuildFault::NoMemory,
            fault => BuildFault::Name(place, fault),
        }
    }
}

/// The place, where there is one, and what is wrong there.
impl Display for BuildFault {
    fn fmt<W: Write>(&self, f: &mut Formatter<W>) -> fmt::Result {
        match self {
            BuildFault::NotToml | BuildFault::NoMemory => f.write_str(words(self.number())),
            BuildFault::UnknownKey(place)
            | BuildFault::MissingKey(place)
            | BuildFault::BadValue(place)
            | BuildFault::Reserved(place) => write!(f, "{place} {}", words(self.number())),
            BuildFault::Empty(place) => write!(f, "{place} has no members"),
            BuildFault::Name(place, fault) => write!(f, "{place}: {fault}"),
            BuildFault::Repeated(place) => write!(f, "{place} has the id of one before it"),
            BuildFault::IdTooLong(place) => {
                write!(f, "{place} makes a rule of an id of more than 64 octets")
            }
            BuildFault::UnknownGroup(place) => write!(f, "{place} names no group above it"),
            BuildFault::UnknownTemplate(place) => write!(f, "{place} names no template"),
            BuildFault::TooManyMembers(place, count) => {
                write!(
                    f,
                    "{place} has {count} members, more than {}",
                    Policy::RULES_MAX
                )
            }
            BuildFault::TooManyRules(place, count) => {
                write!(
                    f,
                    "{place} makes {count} rules with those before it, more than {}",
                    Policy::RULES_MAX
                )
            }
        }
    }
}

impl Debug for BuildFault {
    fn fmt<W: Write>(&self, f: &mut Formatter<W>) -> fmt::Result {
        Display::fmt(self, f)
    }
}

impl Error for BuildFault {}

impl From<AllocError> for BuildFault {
    ghost from_gives = { λ _ e. e ≡ NoMemory };

    fn from(_e: AllocError) -> BuildFault {
        BuildFault::NoMemory
    }
}

impl<T: Drop> From<AllocFailed<T>> for BuildFault {
    ghost from_gives = { λ _ e. e ≡ NoMemory };

    fn from(_e: AllocFailed<T>) -> BuildFault {
        BuildFault::NoMemory
    }
}
