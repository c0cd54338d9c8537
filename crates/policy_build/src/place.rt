//! Where in a file something is.

ghost use Rattle.std.specs.Prelude.{◌≡◌, Some, None};

use std::fmt::{self, Display, Formatter, Write};

/// A key of a file of groups.
#[derive(Clone, Copy, PartialEq, Eq)]
pub enum FileKey {
    Callers,
    Names,
    Template,
    Rule,
    Members,
    Id,
    Effect,
    Types,
    Actions,
}

impl FileKey {
    ghost use Rattle.policy_build.specs.Places.{key_text};

    /// The key as it is written.
    pub const fn text(self) -> &'static str
        ensures { result.now ≡ key_text self }
    {
        match self {
            FileKey::Callers => "callers",
            FileKey::Names => "names",
            FileKey::Template => "template",
            FileKey::Rule => "rule",
            FileKey::Members => "members",
            FileKey::Id => "id",
            FileKey::Effect => "effect",
            FileKey::Types => "types",
            FileKey::Actions => "actions",
        }
    }
}

/// A table of a file.
#[derive(Clone, Copy, PartialEq, Eq)]
pub enum Spot {
    /// The document.
    Document,
    /// The table of this number, counted from 1, of the array at a key of the document.
    Table(FileKey, usize),
    /// Of the template of this number the rule of this number, both counted from 1.
    TemplateRule(usize, usize),
}

/// A table of a file, or a key of one.
#[derive(Clone, Copy, PartialEq, Eq)]
pub struct Place {
    /// The table.
    pub spot: Spot,
    /// The key, unless the whole table is meant.
    pub key: Option<FileKey>,
}

impl Place {
    ghost use Rattle.policy_build.specs.Places.{at_key, nth_of};

    /// The document.
    pub(crate) const DOCUMENT: Place = Place {
        spot: Spot::Document,
        key: None,
    };

    /// A key of the table of this place.
    pub(crate) fn at(self, key: FileKey) -> Place
        ensures { result ≡ at_key self key }
    {
        Place {
            spot: self.spot,
            key: Some(key),
        }
    }

    /// The place of the item of this number, counted from 1, of the array at this place. Items that are no tables are at the place
    /// of their array.
    pub(crate) fn nth(self, number: usize) -> Place
        ensures { result ≡ nth_of self number }
    {
        let spot = match (self.spot, self.key) {
            (Spot::Document, Some(key)) => Spot::Table(key, number),
            (Spot::Table(FileKey::Template, template), Some(FileKey::Rule)) => {
                Spot::TemplateRule(template, number)
            }
            _ => return self,
        };
        Place { spot, key: None }
    }
}

impl Display for Spot {
    fn fmt<W: Write>(&self, f: &mut Formatter<W>) -> fmt::Result {
        match self {
            Spot::Document => f.write_str("the top of the file"),
            Spot::Table(key, number) => write!(f, "[[{}]] {number}", key.text()),
            Spot::TemplateRule(template, number) => {
                write!(f, "rule {number} of [[template]] {template}")
            }
        }
    }
}

impl Display for Place {
    fn fmt<W: Write>(&self, f: &mut Formatter<W>) -> fmt::Result {
        match self.key {
            Some(key) => write!(f, "`{}` of {}", key.text(), self.spot),
            None => Display::fmt(&self.spot, f),
        }
    }
}
