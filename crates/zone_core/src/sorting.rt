//! Records are sorted by their positions: a sort moves what it sorts some dozen times, and a record is large. Then each record is
//! moved once. Most pairs are decided by a prefix of 16 octets of their owners' keys, taken after the octets that all keys share.

ghost use Rattle.std.specs.Prelude.{◌≡◌, List, length, drop, map, slice_index_or, IfOk};
ghost use Rattle.std.specs.List.{range_with_len};
ghost use Rattle.std.specs.List.Sorted.{IsPermutation, IsSorted};
ghost use Rattle.dns_data.specs.declared.record.Record.{Record as RecordOf};
ghost use Rattle.zone_core.specs.Sets.{record_order, set_of};
ghost use Rattle.zone_core.specs.KeyPrefixes.{written, prefix_behind, no_prefix, prefix_order, ShareOctets};
ghost use Rattle.zone_core.specs.Views.{position_order, ArePositions, AreInverse, AreTaken};

use crate::invariants::reveal_records;
use dns_data::{Record, record_order};
use dns_names::Name;
use std::alloc::{AllocError, Global};
use std::cmp::Ordering;

/// A prefix of a name's key: 16 octets after those that all keys share, as two numbers.
#[derive(Clone, Copy)]
struct KeyPrefix {
    high: u64,
    low: u64,
}

/// The first eight octets of a row as the number that they are written as, with zeros for those that it lacks.
fn written(octets: &[u8]) -> u64
    ensures { result ≡ written octets.now }
{
    if let Some((head, _)) = octets.split_first_chunk::<8>() {
        return u64::from_be_bytes(*head);
    }
    let mut head = [0; 8];
    head[..octets.len()].copy_from_slice(octets);
    u64::from_be_bytes(head)
}

/// A row without its first octets.
fn behind(octets: &[u8], count: usize) -> &[u8]
    ensures { result.now ≡ drop count octets.now }
{
    &octets[count.min(octets.len())..]
}

/// The prefix of a name's key after the shared octets.
fn prefix_behind(name: &Name, shared: usize) -> KeyPrefix
    ensures { result ≡ prefix_behind shared name.now }
{
    let octets = behind(name.key(), shared);
    KeyPrefix {
        high: written(octets),
        low: written(behind(octets, 8)),
    }
}

/// The prefixes of the records' owners after the shared octets.
fn prefixes_behind(
    alloc: Global,
    records: &[Record],
    shared: usize,
) -> Result<Vec<KeyPrefix>, AllocError>
    ensures { IfOk result (λ prefixes. prefixes.items ≡ map (λ r. prefix_behind shared r.owner) records.now) }
{
    let prefixes = records.iter().map(|rr| prefix_behind(&rr.owner, shared));
    prefixes.collect(alloc)
}

/// The prefix at a position.
fn prefix_at(prefixes: &[KeyPrefix], place: usize) -> KeyPrefix
    ensures { result ≡ slice_index_or prefixes.now place no_prefix }
{
    const NO_PREFIX: KeyPrefix = KeyPrefix { high: 0, low: 0 };
    prefixes.get(place).copied().unwrap_or(NO_PREFIX)
}

/// The order of prefixes.
fn prefix_order(first: KeyPrefix, second: KeyPrefix) -> Ordering
    ensures { result ≡ prefix_order first second }
{
    first
        .high
        .cmp(&second.high)
        .then(first.low.cmp(&second.low))
}

/// The record at a position, or another one after the last.
fn record_at<'a>(records: &'a [Record], place: usize, other: &'a Record) -> &'a Record
    ensures { result.now ≡ slice_index_or records.now place other.now }
{
    records.get(place).unwrap_or(other)
}

/// The order of positions: by the prefixes there, then by the records, then by the positions.
fn position_order(
    records: &[Record],
    prefixes: &[KeyPrefix],
    other: &Record,
    first: usize,
    second: usize,
) -> Ordering
    ensures { result ≡ position_order records.now prefixes.now other.now first second }
{
    match prefix_order(prefix_at(prefixes, first), prefix_at(prefixes, second)) {
        Ordering::Equal => {
            let record = record_at(records, first, other);
            record_order(record, record_at(records, second, other)).then(first.cmp(&second))
        }
        order => order,
    }
}

/// The positions in their order.
fn sorted_positions(
    mut positions: Vec<usize>,
    records: &[Record],
    prefixes: &[KeyPrefix],
    other: &Record,
) -> Vec<usize>
    ensures permutation { IsPermutation positions.items result.items }
    ensures order { IsSorted (position_order records.now prefixes.now other.now) result.items }
{
    positions.sort_unstable_by(|first, second| position_order(
        records, prefixes, other, *first, *second,
    ));
    positions
}

/// The positions of so many records.
fn all_positions(alloc: Global, count: usize) -> Result<Vec<usize>, AllocError>
    ensures { IfOk result (λ positions. positions.items ≡ range_with_len 0 count) }
{
    (0..count).collect(alloc)
}

/// Where the records stand that come first, second and so on in record order; those that are the same stay in theirs. The keys of
/// all owners begin with the same octets, `shared` in number. The only error is out of memory.
pub(crate) fn sources(
    alloc: Global,
    records: &[Record],
    shared: usize,
) -> Result<Vec<usize>, AllocError>
    requires { ShareOctets shared records.now }
    ensures positions { IfOk result (λ positions. ArePositions (length records.now) positions.items) }
    ensures order { IfOk result (λ positions. (rows : List RecordOf) → AreTaken records.now positions.items rows → IsSorted record_order rows) }
    ensures set { IfOk result (λ positions. (rows : List RecordOf) → AreTaken records.now positions.items rows → set_of rows ≡ set_of records.now) }
{
    reveal_records(records);
    let Some(other) = records.first() else {
        return Ok(Vec::new(alloc));
    };
    let prefixes = prefixes_behind(alloc, records, shared)?;
    let positions = all_positions(alloc, records.len())?;
    Ok(sorted_positions(positions, records, &prefixes, other))
}

/// For each position the one that has it as its source.
fn inverse(alloc: Global, sources: &[usize]) -> Result<Vec<usize>, AllocError>
    requires { ArePositions (length sources.now) sources.now }
    ensures { IfOk result (λ positions. AreInverse sources.now positions.items) }
{
    let mut positions = vec![in alloc; 0; sources.len()]?;
    for i in 0..sources.len() {
        positions[sources[i]] = i;
    }
    Ok(positions)
}

/// The records that stand at the sources, in their order. They are moved in place: at each step one comes to where it is to stand,
/// and that which stood there goes to where it was.
pub(crate) fn arranged(
    alloc: Global,
    mut records: Vec<Record>,
    mut sources: Vec<usize>,
) -> Result<Vec<Record>, AllocError>
    requires { ArePositions (length records.items) sources.items }
    ensures { IfOk result (λ rows. AreTaken records.items sources.items rows.items) }
{
    let mut positions = inverse(alloc, &sources)?;
    for i in 0..records.len() {
        let source = sources[i];
        let place = positions[i];
        records.swap(i, source);
        sources[place] = source;
        positions[source] = place;
    }
    Ok(records)
}
