//! A refusal in words, and where its number may be.

ghost use Rattle.std.specs.Prelude.{◌≡◌};

use crate::table::Line;

/// A place in a printed number, whose parts have dots between them, as `29.19.1`.
#[derive(Clone, Copy)]
pub enum NumberPlace {
    /// Its first part.
    Start,
    /// The part that says what is wrong with an entry.
    Entry,
    /// The part that says what is wrong with a name.
    Name,
    /// After its last part.
    End,
}

/// Where a number is printed, and what follows it.
#[derive(Clone, Copy)]
pub enum Kind {
    /// At the start, with nothing after it.
    Whole,
    /// What is wrong with a name: at the start, or after another number.
    Name,
    /// The type of records: at the start, or after the number of an entry.
    Type,
    /// What is wrong with record data: after the number of an entry.
    Data,
    /// A name in an entry: after the number of the entry, with that of the name after it.
    InnerName,
    /// An entry of a master file: at the start, with what is wrong with it after it.
    Entry,
    /// A name in a rule: at the start, with that of the name after it.
    RuleName,
    /// Nowhere.
    Unprinted,
}

impl Kind {
    ghost use Rattle.refusals.specs.Numbers.{may_be, behind};

    /// Whether a number of this kind may be in a place.
    pub(crate) const fn may_be(self, place: NumberPlace) -> bool
        ensures { result ≡ may_be self place }
    {
        match place {
            NumberPlace::Start => matches!(
                self,
                Kind::Whole | Kind::Name | Kind::Type | Kind::Entry | Kind::RuleName
            ),
            NumberPlace::Entry => matches!(self, Kind::Type | Kind::Data | Kind::InnerName),
            NumberPlace::Name => matches!(self, Kind::Name),
            NumberPlace::End => false,
        }
    }

    /// The place after a number of this kind.
    pub(crate) const fn behind(self) -> NumberPlace
        ensures { result ≡ behind self }
    {
        match self {
            Kind::Entry => NumberPlace::Entry,
            Kind::InnerName | Kind::RuleName => NumberPlace::Name,
            Kind::Whole | Kind::Name | Kind::Type | Kind::Data | Kind::Unprinted =>
                NumberPlace::End,
        }
    }
}

/// A refusal in words.
#[derive(Clone, Copy)]
pub struct RefusalRow {
    /// Its number, or its code (RFC 2136 section 2.2).
    pub number: &'static str,
    /// Where its number is printed.
    pub kind: Kind,
    /// What it is called.
    pub name: &'static str,
    /// What is wrong, in a few words, for standard error; of a policy and of an item of an update, what follows its place.
    pub words: &'static str,
    /// What it means, in a sentence or two.
    pub meaning: &'static str,
    /// What to do.
    pub advice: &'static str,
    /// The standard that it comes from, or an empty text.
    pub source: &'static str,
}

impl RefusalRow {
    /// The row of a line of a table.
    pub(crate) const fn of(line: Line) -> RefusalRow
        ensures number { result.number ≡ line.entry.0 }
        ensures kind { result.kind ≡ line.entry.1 }
        ensures name { result.name ≡ line.entry.2 }
        ensures words { result.words ≡ line.entry.3 }
        ensures meaning { result.meaning ≡ line.entry.4 }
        ensures advice { result.advice ≡ line.entry.5 }
        ensures source { result.source ≡ line.entry.6 }
    {
        RefusalRow {
            number: line.0,
            kind: line.1,
            name: line.2,
            words: line.3,
            meaning: line.4,
            advice: line.5,
            source: line.6,
        }
    }
}
