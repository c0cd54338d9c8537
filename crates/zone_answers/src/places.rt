//! Where a name is among records in record order, and which are at it. The name is given by its key, since the order of keys is the
//! canonical order of names (RFC 4034 section 6.1).

ghost use Rattle.std.specs.Prelude.{◌≡◌, ◌<◌, ◌≤◌, List, length, not, nat_eq, IfSome};
ghost use Rattle.std.specs.Ordering.{nat_cmp};
ghost use Rattle.std.specs.Cmp.Lexicographic.{slice_cmp, pointwise};
ghost use Rattle.std.specs.List.{position};
ghost use Rattle.dns_names.specs.Keys.{key_of};
ghost use Rattle.dns_data.specs.declared.record.Record.{Record};
ghost use Rattle.dns_data.specs.Rdata.{type_of};
ghost use Rattle.zone_core.specs.Sets.{InOrder, rank_of};
ghost use Rattle.zone_answers.specs.Answers.{Name, asked_at};
ghost use Rattle.zone_answers.specs.Places.{EndsBefore, EndsAt, node_of, begins_within, beside, IsLocated};
ghost use Rattle.zone_answers.specs.declared.query_type.QueryType.TheVariants.{Kept};

use crate::query_type::QueryType;
use dns_data::{Record, RecordType};
use dns_names::cmp_octets;
use std::cmp::Ordering;

/// How many records are looked at one by one before all are searched: few names have more.
const FEW: usize = 8;

/// Where a name is among records.
#[derive(Drop)]
pub(crate) enum Located<'a> {
    /// It exists, and these are the records at it.
    Node(&'a [Record]),
    /// It does not exist, and these are the last record before it and the first after it, as far as there are such.
    Between(&'a [Record]),
}

/// The order of the owner of a record to a name.
fn owner_order(rr: &Record, key: &[u8]) -> Ordering
    ensures { result ≡ slice_cmp nat_cmp (key_of rr.now.owner) key.now }
{
    cmp_octets(rr.owner.key(), key)
}

/// How many records are before a name.
pub(crate) fn count_before(records: &[Record], key: &[u8]) -> usize
    ensures bound { result ≤ length records.now }
    ensures place { (name : Name) → key.now ≡ key_of name → EndsBefore name records.now result }
{
    records.partition_point(|record| owner_order(record, key).is_lt())
}

/// Whether a record is at a name.
fn is_at(rr: &Record, key: &[u8]) -> bool
    ensures { result ≡ pointwise nat_eq (key_of rr.now.owner) key.now }
{
    rr.owner.key() == key
}

/// The first of some records that is not at a name.
fn first_other(records: &[Record], key: &[u8]) -> Option<usize>
    ensures value { result ≡ position (λ r. not (pointwise nat_eq (key_of r.owner) key.now)) records.now }
    ensures within { IfSome result (λ place. place < length records.now) }
{
    records.iter().position(|record| !is_at(record, key))
}

/// How many records are at a name, of those that are not before it.
pub(crate) fn count_at(rest: &[Record], key: &[u8]) -> usize
    ensures bound { result ≤ length rest.now }
    ensures place { (name : Name) → key.now ≡ key_of name → EndsAt name rest.now result }
{
    let few = &rest[..rest.len().min(FEW)];
    if let Some(count) = first_other(few, key) {
        return count;
    }
    rest.partition_point(|record| owner_order(record, key).is_le())
}

/// Whether the first of records is at a name or below it.
fn begins_within(rest: &[Record], key: &[u8]) -> bool
    ensures { (name : Name) → key.now ≡ key_of name → result ≡ begins_within rest.now name }
{
    match rest {
        [first, ..] => first.owner.key().starts_with(key),
        [] => false,
    }
}

/// The records on both sides of a place: the one before it and the one after it, as far as there are such.
fn beside(records: &[Record], place: usize) -> &[Record]
    requires { place ≤ length records.now }
    ensures { result.now ≡ beside records.now place }
{
    let start = place.saturating_sub(1);
    let rest = &records[start..];
    &rest[..rest.len().min(place - start + 1)]
}

/// Finds where a name is among records.
pub(crate) fn locate<'a>(records: &'a [Record], key: &[u8]) -> Located<'a>
    requires { InOrder records.now }
    ensures { (name : Name) → key.now ≡ key_of name → IsLocated records.now name result }
{
    let place = count_before(records, key);
    let rest = &records[place..];
    if begins_within(rest, key) {
        Located::Node(&rest[..count_at(rest, key)])
    } else {
        Located::Between(beside(records, place))
    }
}

/// The order of the type of a record to another type.
fn type_order(rr: &Record, record_type: RecordType) -> Ordering
    ensures { result ≡ nat_cmp (rank_of (type_of rr.now.rdata)) (rank_of record_type) }
{
    rr.record_type().rank().cmp(&record_type.rank())
}

/// The records of a type among those at a name.
pub(crate) fn set_in(node: &[Record], record_type: RecordType) -> &[Record]
    ensures { (rs : List Record) (name : Name) → InOrder rs → node.now ≡ node_of rs name → result.now ≡ asked_at rs name (Kept record_type) }
{
    let start = node.partition_point(|record| type_order(record, record_type).is_lt());
    let rest = &node[start..];
    let count = rest.partition_point(|record| type_order(record, record_type).is_le());
    &rest[..count]
}

/// The records that a question asks for among those at a name.
pub(crate) fn asked_in(node: &[Record], asked: QueryType) -> &[Record]
    ensures { (rs : List Record) (name : Name) → InOrder rs → node.now ≡ node_of rs name → result.now ≡ asked_at rs name asked }
{
    match asked {
        QueryType::Kept(record_type) => set_in(node, record_type),
        QueryType::Any => node,
        QueryType::Other => &[],
    }
}
