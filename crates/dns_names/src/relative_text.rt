//! The spelling of names relative to an origin.

ghost use Rattle.std.specs.Prelude.{◌≡◌, Some};
ghost use Rattle.std.specs.List.{flat_map};
ghost use Rattle.std.specs.Fmt.{WritesOnOk};
ghost use Rattle.dns_names.specs.Spelling.{dotted_label, dotted_text, labels_before, relative_text};

use crate::labels::Labels;
use crate::name::Name;
use crate::text::write_octets;
use std::fmt::{self, Display};

/// The labels of a name before the last ones, which are as many as an origin's.
fn labels_before<'a>(name: &'a Name, origin: &Name) -> Labels<'a>
    ensures { result ≡ labels_before origin.now name.now }
{
    let mut before = name.labels();
    for _ in origin.labels() {
        let _ = before.next_back();
    }
    before
}

/// Writes labels with a dot before each.
fn write_dotted<W: fmt::Write>(f: &mut fmt::Formatter<W>, labels: Labels<'_>) -> fmt::Result
    ensures { WritesOnOk W.write_str_gives f.old result (flat_map dotted_label labels.entry) f.new }
{
    for label in labels {
        f.write_str(".")?;
        write_octets(f, label)?;
    }
    Ok(())
}

/// Writes labels with a dot between them, and `@` for no labels.
fn write_before<W: fmt::Write>(f: &mut fmt::Formatter<W>, before: Labels<'_>) -> fmt::Result
    ensures { WritesOnOk W.write_str_gives f.old result (dotted_text before.entry) f.new }
{
    let mut labels = before;
    let Some(first) = labels.next() else {
        return f.write_str("@");
    };
    write_octets(f, first)?;
    write_dotted(f, labels)
}

/// A name as it is printed relative to an origin (RFC 1035 section 5.1): `@` for the origin, the labels before the origin's with
/// a dot between them for a name below it, and any other name whole.
#[derive(Clone, Copy)]
pub struct RelativeName<'a> {
    /// The name.
    pub name: &'a Name,
    /// The origin.
    pub origin: &'a Name,
}

impl Display for RelativeName<'_> {
    ghost output = { λ r. Some (relative_text r.origin.now r.name.now) };

    fn fmt<W: fmt::Write>(&self, f: &mut fmt::Formatter<W>) -> fmt::Result {
        if self.name.is_within(self.origin) {
            write_before(f, labels_before(self.name, self.origin))
        } else {
            self.name.fmt(f)
        }
    }
}
