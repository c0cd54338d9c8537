//! The servers of a cut and their addresses, most of which are near it in record order.

ghost use Rattle.std.specs.Prelude.{◌≡◌, List, ℕ};
ghost use Rattle.dns_names.specs.Keys.{key_of};
ghost use Rattle.zone_core.specs.Sets.{InOrder};
ghost use Rattle.zone_answers.specs.Answers.{Delegated};
ghost use Rattle.zone_answers.specs.Places.{node_of, IsRest, IsReferral};

use crate::places::{count_at, count_before, set_in};
use dns_data::{Record, RecordType};
use dns_names::Name;

/// How many records from a cut on are searched for the addresses of its servers before all are.
const NEAR: usize = 16;

/// The servers of a cut.
#[derive(Drop)]
pub(crate) struct Referral<'a> {
    pub servers: &'a [Record],
    /// The records that are not before the cut.
    pub rest: &'a [Record],
}

/// The servers of a cut.
pub(crate) fn referral_at<'a>(records: &'a [Record], cut: &Name) -> Referral<'a>
    requires { InOrder records.now }
    ensures { IsReferral records.now (Delegated cut.now) result }
{
    let rest = &records[count_before(records, cut.key())..];
    let node = &rest[..count_at(rest, cut.key())];
    Referral {
        servers: set_in(node, RecordType::Ns),
        rest,
    }
}

/// The records at a name.
fn node_at<'a>(records: &'a [Record], key: &[u8]) -> &'a [Record]
    requires { InOrder records.now }
    ensures { (name : List (List ℕ)) → key.now ≡ key_of name → result.now ≡ node_of records.now name }
{
    let rest = &records[count_before(records, key)..];
    &rest[..count_at(rest, key)]
}

/// The records at a name, which is looked for among the few first of the last records before it is among all.
pub(crate) fn node_near<'a>(records: &'a [Record], rest: &'a [Record], key: &[u8]) -> &'a [Record]
    requires order { InOrder records.now }
    requires rest { IsRest records.now rest.now }
    ensures { (name : List (List ℕ)) → key.now ≡ key_of name → result.now ≡ node_of records.now name }
{
    let few = &rest[..rest.len().min(NEAR)];
    let count = count_before(few, key);
    if count == 0 || count == few.len() {
        return node_at(records, key);
    }
    let from = &rest[count..];
    &from[..count_at(from, key)]
}
