//! Why a job has no answer, and how that is told.

ghost use Rattle.std.specs.Prelude.{◌≡◌, Some};
ghost use Rattle.cli_core.specs.Refusals.{data_numbers, master_numbers, policy_numbers, group_numbers, refusal_number, refusal_numbers, dotted, refusal_place, refused_line};

use crate::word_fault::WordFault;
use dns_data::DataFault;
use dns_master::MasterFault;
use dns_names::NameFault;
use grant_policy::PolicyFault;
use policy_build::BuildFault;
use refusals::words;
use std::error::Error;
use std::fmt::{self, Display, Formatter, Write};
use store_faults::StoreFault;
use update_lines::ItemsFault;
use zone_core::{Rcode, ZoneFault};

/// Why a job has no answer, however much memory there is and whatever devices do.
#[derive(Clone, Copy, Debug)]
pub enum Refusal {
    /// A word of the command line is no absolute name.
    Name(NameFault),
    /// A word of the command line is no type that is kept.
    TypeNotKept,
    /// A word of the command line is no identifier of a caller.
    NoCaller,
    /// A word of the command line is no action.
    NoAction,
    /// A word of the command line is no rule for zones.
    NoRule,
    /// A word of the command line is no name server.
    NoServer,
    /// The input has more than 4,194,304 octets.
    TooLarge,
    /// No line of the input is `--`.
    NoDivider,
    /// The input is no master file.
    Master(MasterFault),
    /// The records are no zone.
    Zone(ZoneFault),
    /// The input is no policy.
    Policy(PolicyFault),
    /// The input is no file of groups, or makes no policy.
    Groups(BuildFault),
    /// The items are no update. Lines count from that of the whole input.
    Items(ItemsFault),
    /// An item of the update has a name outside the zone (`NotZone`), or is a prerequisite that does not hold.
    Unmet {
        /// The code of the reply (RFC 2136 section 2.2).
        code: Rcode,
        /// The number of the item in its list, from 0.
        item: usize,
    },
    /// A line of the input is no question or no expectation.
    Line {
        /// The line, from 1.
        line: usize,
        /// What is wrong with it.
        fault: WordFault,
    },
    /// A word of the command line is no number that the program prints for a refusal.
    UnknownNumber,
    /// A word of the command line is no identifier of an update.
    NoIdentifier,
    /// The body of the update has more than 65,536 octets.
    BodyTooLarge,
    /// A number of the command line is that of no change of the zone.
    NoChange,
    /// The store refuses it, or failed.
    Store(StoreFault),
}

impl Refusal {
    /// The published number of the refusal, and that of the code where an item is refused. The numbers of what it stands for are
    /// those of its own fault.
    pub const fn number(self) -> u8
        ensures { result ≡ refusal_number self }
    {
        match self {
            Refusal::Name(fault) => fault.number(),
            Refusal::TypeNotKept => 17,
            Refusal::NoCaller | Refusal::NoAction | Refusal::NoRule | Refusal::NoServer => 54,
            Refusal::TooLarge => 30,
            Refusal::NoDivider => 96,
            Refusal::UnknownNumber => 98,
            Refusal::NoIdentifier => 88,
            Refusal::BodyTooLarge => 84,
            Refusal::NoChange => 77,
            Refusal::Master(fault) => fault.number(),
            Refusal::Zone(fault) => fault.number(),
            Refusal::Policy(fault) => fault.number(),
            Refusal::Groups(fault) => fault.number(),
            Refusal::Items(fault) => fault.number(),
            Refusal::Unmet { code, .. } => code.number(),
            Refusal::Line { fault, .. } => fault.number(),
            Refusal::Store(fault) => fault.number(),
        }
    }

    /// The line of the input that it is in, from 1, and 0 where it is of the input as a whole; `None` for a refusal without a line.
    fn place(self) -> Option<usize>
        ensures { result ≡ refusal_place self }
    {
        match self {
            Refusal::TooLarge => Some(0),
            Refusal::Master(fault) => fault.line(),
            Refusal::Items(fault) => fault.line(),
            Refusal::Line { line, .. } => Some(line),
            _ => None,
        }
    }

    /// What is wrong, in words, where it is not the fault of a lower crate.
    fn own_words(self) -> &'static str {
        match self {
            Refusal::NoCaller =>
                "a caller is 1 to 64 of the octets a to z, A to Z, 0 to 9, -, _ and .",
            Refusal::NoAction => "the action is not one of list, check, add, delete and delegate",
            Refusal::NoRule => "no rule for zones has this name: see zoneoffice check --help",
            Refusal::NoServer => "the server is not one of bind, knot and nsd",
            Refusal::NoIdentifier =>
                "an identifier is 1 to 64 of the octets a to z, A to Z, 0 to 9, -, _ and .",
            Refusal::BodyTooLarge => "the body has more than 65536 octets",
            refusal => words(refusal.number()),
        }
    }
}

/// What is wrong, in words.
impl Display for Refusal {
    fn fmt<W: Write>(&self, f: &mut Formatter<W>) -> fmt::Result {
        match self {
            Refusal::Name(fault) => write!(f, "{fault}"),
            Refusal::Master(fault) => write!(f, "{fault}"),
            Refusal::Zone(fault) => write!(f, "{fault}"),
            Refusal::Policy(fault) => write!(f, "{fault}"),
            Refusal::Groups(fault) => write!(f, "{fault}"),
            Refusal::Items(fault) => write!(f, "{fault}"),
            Refusal::Store(fault) => write!(f, "{fault}"),
            Refusal::Line { line, fault } => write!(f, "line {line}: {fault}"),
            Refusal::Unmet { code, item } => {
                write!(f, "item {item} of the update is refused: {}", code.text())
            }
            refusal => f.write_str(refusal.own_words()),
        }
    }
}

impl Error for Refusal {}

/// The number of a fault of data, with that of the name in it.
#[derive(Clone, Copy)]
struct DataNumbers(DataFault);

impl Display for DataNumbers {
    ghost output = { λ n. Some (dotted (data_numbers n.0)) };

    fn fmt<W: Write>(&self, f: &mut Formatter<W>) -> fmt::Result {
        match self.0 {
            DataFault::Name(fault) => write!(f, "{}.{}", self.0.number(), fault.number()),
            fault => write!(f, "{}", fault.number()),
        }
    }
}

/// The number of a fault of a master file, with those of the data in it.
#[derive(Clone, Copy)]
struct MasterNumbers(MasterFault);

impl Display for MasterNumbers {
    ghost output = { λ n. Some (dotted (master_numbers n.0)) };

    fn fmt<W: Write>(&self, f: &mut Formatter<W>) -> fmt::Result {
        match self.0 {
            MasterFault::Data { fault, .. } => {
                write!(f, "{}.{}", self.0.number(), DataNumbers(fault))
            }
            fault => write!(f, "{}", fault.number()),
        }
    }
}

/// The number of a fault of a policy, with that of the name in it.
#[derive(Clone, Copy)]
struct PolicyNumbers(PolicyFault);

impl Display for PolicyNumbers {
    ghost output = { λ n. Some (dotted (policy_numbers n.0)) };

    fn fmt<W: Write>(&self, f: &mut Formatter<W>) -> fmt::Result {
        match self.0 {
            PolicyFault::Name(_, fault) => write!(f, "{}.{}", self.0.number(), fault.number()),
            fault => write!(f, "{}", fault.number()),
        }
    }
}

/// The number of a fault of a file of groups, with that of the name in it.
#[derive(Clone, Copy)]
struct GroupNumbers(BuildFault);

impl Display for GroupNumbers {
    ghost output = { λ n. Some (dotted (group_numbers n.0)) };

    fn fmt<W: Write>(&self, f: &mut Formatter<W>) -> fmt::Result {
        match self.0 {
            BuildFault::Name(_, fault) => write!(f, "{}.{}", self.0.number(), fault.number()),
            fault => write!(f, "{}", fault.number()),
        }
    }
}

/// The published number of a refusal, with those of what it stands for after it, and dots between them.
#[derive(Clone, Copy)]
struct Numbers(Refusal);

impl Display for Numbers {
    ghost output = { λ n. Some (dotted (refusal_numbers n.0)) };

    fn fmt<W: Write>(&self, f: &mut Formatter<W>) -> fmt::Result {
        match self.0 {
            Refusal::Master(fault) => write!(f, "{}", MasterNumbers(fault)),
            Refusal::Policy(fault) => write!(f, "{}", PolicyNumbers(fault)),
            Refusal::Groups(fault) => write!(f, "{}", GroupNumbers(fault)),
            refusal => write!(f, "{}", refusal.number()),
        }
    }
}

/// The line that tells a refusal: `refused`, its numbers, and the line that it is in where there is one; or the code and the
/// number of an item.
#[derive(Clone, Copy)]
pub struct RefusalLine(pub Refusal);

impl Display for RefusalLine {
    ghost output = { λ l. Some (refused_line l.0) };

    fn fmt<W: Write>(&self, f: &mut Formatter<W>) -> fmt::Result {
        if let Refusal::Unmet { code, item } = self.0 {
            return writeln!(f, "refused {} item {item}", code.text());
        }
        match self.0.place() {
            None => writeln!(f, "refused {}", Numbers(self.0)),
            Some(line) => writeln!(f, "refused {} line {line}", Numbers(self.0)),
        }
    }
}
