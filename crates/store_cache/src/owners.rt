//! Which records of a zone are meant, by their owners.

ghost use Rattle.std.specs.Prelude.{◌≡◌};
ghost use Rattle.std.specs.List.{filter};
ghost use Rattle.std.specs.Ordering.{is_lt};
ghost use Rattle.dns_names.specs.Order.{canonical_cmp};
ghost use Rattle.zone_core.specs.Sets.{key_of, at_name, within, InOrder};
ghost use Rattle.store_cache.specs.Owners.{has_key, first_name};

use dns_data::Record;
use dns_names::Name;

/// Which records of a zone are meant, by their owners.
#[derive(Clone, Copy)]
pub(crate) enum Owners<'a> {
    /// Those at a name.
    At(&'a Name),
    /// Those within a name.
    Within(&'a Name),
}

/// The records at a name.
fn rows_at<'a>(records: &'a [Record], name: &Name) -> &'a [Record]
    requires { InOrder records.now }
    ensures { result.now ≡ filter (λ r. at_name name.now (key_of r)) records.now }
{
    let start = records.partition_point(|record| record.owner < *name);
    let rest = &records[start..];
    let count = rest.partition_point(|record| record.owner <= *name);
    &rest[..count]
}

/// The records within a name.
fn rows_within<'a>(records: &'a [Record], name: &Name) -> &'a [Record]
    requires { InOrder records.now }
    ensures { result.now ≡ filter (λ r. within name.now (key_of r)) records.now }
{
    let start = records.partition_point(|record| record.owner < *name);
    let rest = &records[start..];
    let count = rest.partition_point(|record| record.owner.is_within(name));
    &rest[..count]
}

impl<'a> Owners<'a> {
    /// The first of them in canonical order.
    pub(crate) fn first(self) -> &'a Name
        ensures { result.now ≡ first_name self.entry }
    {
        match self {
            Owners::At(name) | Owners::Within(name) => name,
        }
    }

    /// The records of rows whose owners are meant.
    pub(crate) fn rows_of<'b>(self, rows: &'b [Record]) -> &'b [Record]
        requires { InOrder rows.now }
        ensures { result.now ≡ filter (λ r. has_key self.entry (key_of r)) rows.now }
    {
        match self {
            Owners::At(name) => rows_at(rows, name),
            Owners::Within(name) => rows_within(rows, name),
        }
    }
}
