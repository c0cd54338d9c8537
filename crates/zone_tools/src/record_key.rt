//! The keys of records.

ghost use Rattle.std.specs.Prelude.{◌≡◌};
ghost use Rattle.std.specs.Ordering.{as_partial_cmp};
ghost use Rattle.std.proofs.Common.{rules};
ghost use Rattle.zone_core.specs.Sets.{Key, key_of, key_cmp, same_key};
ghost use Rattle.dns_data.specs.RecordOrder.{key_total};
ghost use Rattle.zone_tools.specs.RecordKeys.{same_key_equiv, same_key_partial, key_partial};

use dns_data::{Record, record_order};
use std::cmp::Ordering;
use std::marker::Model;

/// A record as it is told from others: by its owner, its type and its data, whatever its TTL (RFC 2136 section 1.1.1). The order is
/// record order.
#[derive(Drop)]
pub(crate) struct RecordKey<'a>(&'a Record);

impl<'a> Model for RecordKey<'a> {
    ghost Value = { Key };

    ghost view = { λ k. key_of k.0.now };
}

impl<'a> RecordKey<'a> {
    /// The key of a record.
    pub(crate) fn of(rr: &'a Record) -> RecordKey<'a>
        ensures { result ≡ key_of rr.now }
    {
        RecordKey(rr)
    }
}

impl<'a> PartialEq for RecordKey<'a> {
    ghost eq = { same_key };

    ghost laws = { same_key_partial };

    fn eq(&self, other: &RecordKey<'a>) -> bool {
        record_order(self.0, other.0).is_eq()
    }
}

impl<'a> Eq for RecordKey<'a> {
    ghost laws = { same_key_equiv };
}

impl<'a> Ord for RecordKey<'a> {
    ghost cmp = { key_cmp };

    ghost total = { key_total };

    ghost matches_partial_cmp = { λ x y. Prim.search rules };

    ghost matches_eq = { λ x y. Prim.search rules };

    fn cmp(&self, other: &RecordKey<'a>) -> Ordering {
        record_order(self.0, other.0)
    }
}

impl<'a> PartialOrd for RecordKey<'a> {
    ghost partial_cmp = { as_partial_cmp key_cmp };

    ghost laws = { key_partial };

    fn partial_cmp(&self, other: &RecordKey<'a>) -> Option<Ordering> {
        Some(self.cmp(other))
    }
}
