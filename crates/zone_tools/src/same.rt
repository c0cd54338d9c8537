//! Records that are the same, or equal.

ghost use Rattle.std.specs.Prelude.{◌≡◌, ◌==◌, is_some};
ghost use Rattle.std.specs.FinMap.{get};
ghost use Rattle.zone_core.specs.Sets.{key_of, same_key, rank_of, set_of, InOrder, at};
ghost use Rattle.zone_tools.specs.Differences.{is_equal};

use dns_data::{Record, RecordType, record_order};
use dns_names::Name;
use zone_core::has_type;

/// Whether two records are the same, with whatever TTLs.
pub fn is_same(a: &Record, b: &Record) -> bool
    ensures { result ≡ same_key (key_of a.now) (key_of b.now) }
{
    record_order(a, b).is_eq()
}

/// Whether two records are equal, TTLs counted.
pub fn is_equal(a: &Record, b: &Record) -> bool
    ensures { result ≡ is_equal a.now b.now }
{
    is_same(a, b) && a.ttl.seconds() == b.ttl.seconds()
}

/// Whether a record is of the set of a name and type.
pub(crate) fn is_at(rr: &Record, name: &Name, record_type: RecordType) -> bool
    ensures { result ≡ at name.now record_type (key_of rr.now) }
{
    rr.owner == *name && has_type(rr, record_type)
}

/// Whether a row has the same record as this one, with whatever TTL.
pub(crate) fn has_same(records: &[Record], rr: &Record) -> bool
    requires { InOrder records.now }
    ensures { result ≡ is_some (get (set_of records.now) (key_of rr.now)) }
{
    let place = records.partition_point(|record| record_order(record, rr).is_lt());
    match records[place..].first() {
        Some(found) => is_same(found, rr),
        None => false,
    }
}
