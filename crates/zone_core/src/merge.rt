//! Rows in record order, out of which records go and into which others come.

ghost use Rattle.std.specs.Prelude.{◌≡◌, List, [], ◌∷◌, ◌++◌, drop, if◌then◌else◌, not, IfOk};
ghost use Rattle.std.specs.List.{position, position_or_len};
ghost use Rattle.std.specs.Ordering.{is_lt};
ghost use Rattle.dns_data.specs.declared.record.Record.{Record as RecordOf};
ghost use Rattle.zone_core.specs.Sets.{Records, record_order, AreRows};
ghost use Rattle.zone_core.specs.Merges.{before, behind, is_first, merged};
ghost use Rattle.zone_core.specs.Changes.{changed, FitsIn};

use crate::rows::push_copies;
use dns_data::{Record, record_order};
use std::alloc::{AllocError, Global};

/// The first of some records that does not stand before one.
fn first_from(records: &[Record], rr: &Record) -> Option<usize>
    ensures { result ≡ position (λ r. not (is_lt (record_order r rr.now))) records.now }
{
    records
        .iter()
        .position(|record| !record_order(record, rr).is_lt())
}

/// How many records stand before one, as far as they stand first.
fn count_before(records: &[Record], rr: &Record) -> usize
    ensures { result ≡ position_or_len (λ r. not (is_lt (record_order r rr.now))) records.now }
{
    first_from(records, rr).unwrap_or(records.len())
}

/// Whether the first of some records is the same as one.
fn is_first(records: &[Record], rr: &Record) -> bool
    ensures { result ≡ is_first rr.now records.now }
{
    match records {
        [] => false,
        [first, ..] => record_order(first, rr).is_eq(),
    }
}

/// Appends copies of the records that come before a row, and returns the rest. The only error is out of memory.
fn push_before<'a>(
    alloc: Global,
    rows: &mut Vec<Record>,
    come: &'a [Record],
    row: &Record,
) -> Result<&'a [Record], AllocError>
    ensures rows { IfOk result (λ _. rows.new.items ≡ rows.old.items ++ before row.now come.now) }
    ensures left { IfOk result (λ left. left.now ≡ behind row.now come.now) }
{
    let count = count_before(come, row);
    push_copies(alloc, rows, &come[..count])?;
    Ok(&come[count..])
}

/// Appends a row, unless it is the first of those that go, and returns those that are still to go. The only error is out of memory.
fn push_unless_gone<'a>(
    rows: &mut Vec<Record>,
    gone: &'a [Record],
    row: Record,
) -> Result<&'a [Record], AllocError>
    ensures rows { IfOk result (λ _. rows.new.items ≡ rows.old.items ++ (if is_first row gone.now then [] else row ∷ [])) }
    ensures left { IfOk result (λ left. left.now ≡ (if is_first row gone.now then drop 1 gone.now else gone.now)) }
{
    if is_first(gone, &row) {
        return Ok(&gone[1..]);
    }
    rows.push(row)?;
    Ok(gone)
}

/// What is left of the records that go out of rows and of those that come into them.
#[derive(Clone, Copy)]
struct Left<'a> {
    gone: &'a [Record],
    come: &'a [Record],
}

impl<'a> Left<'a> {
    /// Appends the records that come before a row, and the row unless it goes, and returns the rest. The only error is out of
    /// memory.
    fn put(self, alloc: Global, rows: &mut Vec<Record>, row: Record) -> Result<Left<'a>, AllocError>
        ensures { IfOk result (λ left. (rest : List RecordOf) → rows.new.items ++ merged rest left.gone.now left.come.now ≡ rows.old.items ++ merged (row ∷ rest) self.entry.gone.now self.entry.come.now) }
    {
        let come = push_before(alloc, rows, self.come, &row)?;
        let gone = push_unless_gone(rows, self.gone, row)?;
        Ok(Left { gone, come })
    }
}

/// The rows of a set after a change that fits it, from those before. The only error is out of memory.
pub(crate) fn merged<'a>(
    alloc: Global,
    rows: Vec<Record>,
    removed: &'a [Record],
    added: &'a [Record],
) -> Result<Vec<Record>, AllocError>
    ensures { (set : Records) → AreRows rows.items set → FitsIn set removed.now added.now → IfOk result (λ rs. AreRows rs.items (changed set removed.now added.now)) }
{
    let mut all = Vec::with_capacity(alloc, rows.len().saturating_add(added.len()))?;
    let mut left = Left {
        gone: removed,
        come: added,
    };
    for row in rows {
        left = left.put(alloc, &mut all, row)?;
    }
    push_copies(alloc, &mut all, left.come)?;
    Ok(all)
}
