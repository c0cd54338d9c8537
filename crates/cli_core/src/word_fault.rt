//! What is wrong with a line of questions or expectations.

ghost use Rattle.std.specs.Prelude.{◌≡◌};
ghost use Rattle.cli_core.specs.Refusals.{word_number};

use dns_names::NameFault;
use refusals::words;
use std::error::Error;
use std::fmt::{self, Display, Formatter, Write};

/// What is wrong with a line of questions or expectations.
#[derive(Clone, Copy, Debug)]
pub enum WordFault {
    /// A word is no absolute name.
    Name(NameFault),
    /// A word is no type that can be asked for.
    Type,
    /// A word is no identifier of a caller.
    Caller,
    /// A word is no action.
    Action,
    /// A word is no identifier of a rule.
    Rule,
    /// The words are no question.
    Question,
    /// The words are no expectation.
    Expectation,
    /// The words are not an origin and a file.
    ZoneFile,
}

impl WordFault {
    /// The published number of the fault.
    pub const fn number(self) -> u8
        ensures { result ≡ word_number self }
    {
        match self {
            WordFault::Name(fault) => fault.number(),
            WordFault::Type => 17,
            WordFault::Caller
            | WordFault::Action
            | WordFault::Rule
            | WordFault::Question
            | WordFault::Expectation
            | WordFault::ZoneFile => 54,
        }
    }
}

/// What is wrong, in words.
impl Display for WordFault {
    fn fmt<W: Write>(&self, f: &mut Formatter<W>) -> fmt::Result {
        match self {
            WordFault::Name(fault) => write!(f, "{fault}"),
            WordFault::Type => f.write_str(words(17)),
            WordFault::Caller => f.write_str(
                "a caller is 1 to 64 of the octets a to z, A to Z, 0 to 9, -, _ and ., and nobody is none of several",
            ),
            WordFault::Action => {
                f.write_str("the action is not one of list, check, add, delete and delegate")
            }
            WordFault::Rule => f.write_str(
                "a rule is 1 to 64 of the octets a to z, A to Z, 0 to 9, -, _ and .",
            ),
            WordFault::Question => f.write_str("a question is NAME or NAME TYPE, without quotes"),
            WordFault::Expectation => f.write_str(
                "the line is neither granted or denied CALLER NAME TYPE ACTION [by RULE] nor only CALLER.. may ACTION TYPE at, within or below NAME",
            ),
            WordFault::ZoneFile => {
                f.write_str("a zone of a list is ORIGIN FILE, and a file is named in UTF-8")
            }
        }
    }
}

impl Error for WordFault {}
