//! Rows in record order, out of which a record goes or into which one comes.

ghost use Rattle.std.specs.Prelude.{◌≡◌, not, OnOk};
ghost use Rattle.std.specs.List.{filter};
ghost use Rattle.zone_core.specs.Sets.{key_of, same_key, InOrder};
ghost use Rattle.zone_core.specs.Merges.{is_first};
ghost use Rattle.store_cache.specs.RowPieces.{placed};

use dns_data::{Record, record_order};
use std::alloc::{AllocError, Global};

/// Whether the first of some records is the same as one.
fn is_first(records: &[Record], rr: &Record) -> bool
    ensures { result ≡ is_first rr.now records.now }
{
    match records {
        [] => false,
        [first, ..] => record_order(first, rr).is_eq(),
    }
}

/// Takes out the row that is the same as a record, if there is one.
pub(crate) fn remove_record(rows: &mut Vec<Record>, rr: &Record)
    requires { InOrder rows.old.items }
    ensures { rows.new.items ≡ filter (λ r. not (same_key (key_of rr.now) (key_of r))) rows.old.items }
{
    let place = rows.partition_point(|row| record_order(row, rr).is_lt());
    if !is_first(&rows[place..], rr) {
        return;
    }
    drop(rows.remove(place));
}

/// Puts a copy of a record at its place, where it takes that of the same one. The only error is out of memory.
pub(crate) fn put_record(
    alloc: Global,
    rows: &mut Vec<Record>,
    rr: &Record,
) -> Result<(), AllocError>
    requires { InOrder rows.old.items }
    ensures { OnOk result (rows.new.items ≡ placed rr.now rows.old.items) }
{
    remove_record(rows, rr);
    let place = rows.partition_point(|row| record_order(row, rr).is_lt());
    rows.insert(place, rr.try_copy(alloc)?)?;
    Ok(())
}
