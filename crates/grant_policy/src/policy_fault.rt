//! Why a text is no policy, or rules make none.

ghost use Rattle.std.specs.Prelude.{◌≡◌};
ghost use Rattle.grant_policy.specs.declared.policy_fault.PolicyFault.TheVariants.{NoMemory};

use dns_names::NameFault;
use refusals::words;
use std::alloc::{AllocError, AllocFailed};
use std::error::Error;
use std::fmt::{self, Debug, Display, Formatter, Write};

/// A key of a rule.
#[derive(Clone, Copy, Debug, PartialEq, Eq)]
pub enum RuleKey {
    Id,
    Effect,
    Caller,
    Scope,
    At,
    Types,
    Actions,
}

impl RuleKey {
    ghost use Rattle.grant_policy.specs.Documents.{key_text};

    /// The keys of a rule, in the order in which they are read.
    pub const ALL: [RuleKey; 7] = [
        RuleKey::Id,
        RuleKey::Effect,
        RuleKey::Caller,
        RuleKey::Scope,
        RuleKey::At,
        RuleKey::Types,
        RuleKey::Actions,
    ];

    /// The key as it is written: `id`, `effect`, `caller`, `scope`, `at`, `types` or `actions`.
    pub const fn text(self) -> &'static str
        ensures { result.now ≡ key_text self }
    {
        match self {
            RuleKey::Id => "id",
            RuleKey::Effect => "effect",
            RuleKey::Caller => "caller",
            RuleKey::Scope => "scope",
            RuleKey::At => "at",
            RuleKey::Types => "types",
            RuleKey::Actions => "actions",
        }
    }
}

/// Where in the document of a policy something is wrong.
#[derive(Clone, Copy, PartialEq, Eq)]
pub enum PolicyPlace {
    /// At the top of the document.
    Document,
    /// At its key `rule`.
    Rules,
    /// In the rule of this number, counted from 1.
    Rule(usize),
    /// At a key of the rule of this number, counted from 1.
    Key(usize, RuleKey),
}

impl Display for PolicyPlace {
    fn fmt<W: Write>(&self, f: &mut Formatter<W>) -> fmt::Result {
        match self {
            PolicyPlace::Document => f.write_str("the top of the policy"),
            PolicyPlace::Rules => f.write_str("`rule`"),
            PolicyPlace::Rule(number) => write!(f, "rule {number}"),
            PolicyPlace::Key(number, key) => write!(f, "`{}` of rule {number}", key.text()),
        }
    }
}

impl Debug for PolicyPlace {
    fn fmt<W: Write>(&self, f: &mut Formatter<W>) -> fmt::Result {
        Display::fmt(self, f)
    }
}

/// What is wrong with the document of a policy, or with the rules of one. Rules are counted from 1.
#[derive(Clone, Copy, PartialEq, Eq)]
pub enum PolicyFault {
    /// The text is no TOML document, or not UTF-8.
    NotToml,
    /// A table has a key that none of its kind has.
    UnknownKey(PolicyPlace),
    /// A rule lacks a key.
    MissingKey(PolicyPlace),
    /// A value is not one of those that its key may have.
    BadValue(PolicyPlace),
    /// The rule of this number has the id of one before it.
    IdRepeated(usize),
    /// The rule of this number is called as the closing default is.
    IdReserved(usize),
    /// There are more than 1,024 rules.
    TooManyRules,
    /// The `at` of the rule of this number is no absolute name.
    Name(usize, NameFault),
    /// Memory ran out. This says nothing of the policy.
    NoMemory,
}

impl PolicyFault {
    ghost use Rattle.grant_policy.specs.Faults.{fault_number, fault_place, of_name};

    /// The published number of the refusal, 51 to 58, or 99 when out of memory. A name's own number is that of its fault.
    pub const fn number(self) -> u8
        ensures { result ≡ fault_number self }
    {
        match self {
            PolicyFault::NotToml => 51,
            PolicyFault::UnknownKey(_) => 52,
            PolicyFault::MissingKey(_) => 53,
            PolicyFault::BadValue(_) => 54,
            PolicyFault::IdRepeated(_) => 55,
            PolicyFault::IdReserved(_) => 56,
            PolicyFault::TooManyRules => 57,
            PolicyFault::Name(..) => 58,
            PolicyFault::NoMemory => 99,
        }
    }

    /// Where in the document it is, unless the whole of it is meant.
    const fn place(self) -> Option<PolicyPlace>
        ensures { result ≡ fault_place self }
    {
        match self {
            PolicyFault::UnknownKey(place)
            | PolicyFault::MissingKey(place)
            | PolicyFault::BadValue(place) => Some(place),
            PolicyFault::IdRepeated(number) | PolicyFault::IdReserved(number) => {
                Some(PolicyPlace::Rule(number))
            }
            PolicyFault::Name(number, _) => Some(PolicyPlace::Key(number, RuleKey::At)),
            PolicyFault::NotToml | PolicyFault::TooManyRules | PolicyFault::NoMemory => None,
        }
    }

    /// The refusal of the rule of this number, whose name is refused.
    pub(crate) fn of_name(number: usize, fault: NameFault) -> PolicyFault
        ensures { result ≡ of_name number fault }
    {
        match fault {
            NameFault::NoMemory => PolicyFault::NoMemory,
            fault => PolicyFault::Name(number, fault),
        }
    }
}

/// The place, where there is one, and what is wrong there.
impl Display for PolicyFault {
    fn fmt<W: Write>(&self, f: &mut Formatter<W>) -> fmt::Result {
        let Some(place) = self.place() else {
            return f.write_str(words(self.number()));
        };
        match self {
            PolicyFault::Name(_, fault) => write!(f, "{place}: {fault}"),
            fault => write!(f, "{place} {}", words(fault.number())),
        }
    }
}

impl Debug for PolicyFault {
    fn fmt<W: Write>(&self, f: &mut Formatter<W>) -> fmt::Result {
        Display::fmt(self, f)
    }
}

impl Error for PolicyFault {}

impl From<AllocError> for PolicyFault {
    ghost from_gives = { λ _ e. e ≡ NoMemory };

    fn from(_e: AllocError) -> PolicyFault {
        PolicyFault::NoMemory
    }
}

impl<T: Drop> From<AllocFailed<T>> for PolicyFault {
    ghost from_gives = { λ _ e. e ≡ NoMemory };

    fn from(_e: AllocFailed<T>) -> PolicyFault {
        PolicyFault::NoMemory
    }
}
