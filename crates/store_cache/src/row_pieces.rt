//! Rows in record order, in pieces, so that a change moves few of them.

ghost use Rattle.std.specs.Prelude.{◌≡◌, ◌++◌, List, IfOk};
ghost use Rattle.std.specs.List.{filter, flat_map};
ghost use Rattle.std.specs.Ordering.{is_lt};
ghost use Rattle.dns_names.specs.Order.{canonical_cmp};
ghost use Rattle.dns_data.specs.declared.record.Record.{Record as RecordOf};
ghost use Rattle.zone_core.specs.Sets.{key_of, set_of, record_order, at_name, within, InOrder, AreRows};
ghost use Rattle.office_model.specs.Tables.{included};
ghost use Rattle.zone_core.specs.Changes.{changed};
ghost use Rattle.store_cache.specs.Owners.{has_key};
ghost use Rattle.store_cache.specs.RowPieces.{flat, ArePieces, IsPlace, IsPlaceAmong, last_passes, is_other, placed, put_back, removed};

use crate::owners::Owners;
use crate::record_rows::{put_record, remove_record};
use dns_data::{Record, record_order};
use dns_names::Name;
use grant_policy::Grants;
use office_model::with_included;
use std::alloc::{AllocError, Global};
use std::marker::Model;
use zone_core::Change;

/// How many rows a piece has at most.
const MOST_ROWS: usize = 512;

/// How many rows a piece has at first, so that it has room.
const FIRST_ROWS: usize = 256;

/// Rows in record order, in pieces of at most 512, so that a record comes or goes among the rows of its piece.
#[derive(Drop)]
pub(crate) struct RowPieces {
    pieces: Vec<Vec<Record>>,
}

impl Model for RowPieces {
    ghost Value = { List RecordOf };

    ghost view = { λ p. flat p.pieces.items };

    ghost invariant = { λ p. ArePieces p.pieces.items };
}

/// Whether the last row of a piece stands before a record.
fn ends_before(piece: &[Record], rr: &Record) -> bool
    ensures { result ≡ last_passes (λ r. is_lt (record_order r rr.now)) piece.now }
{
    match piece {
        [.., last] => record_order(last, rr).is_lt(),
        [] => true,
    }
}

/// Whether the owner of the last row of a piece stands before a name.
fn ends_before_name(piece: &[Record], name: &Name) -> bool
    ensures { result ≡ last_passes (λ r. is_lt (canonical_cmp r.owner name.now)) piece.now }
{
    match piece {
        [.., last] => last.owner < *name,
        [] => true,
    }
}

/// The first piece whose last owner does not stand before a name, or how many pieces there are.
fn place_of_name(pieces: &[Vec<Record>], name: &Name) -> usize
    requires { ArePieces pieces.now }
    ensures { IsPlace (λ v. last_passes (λ r. is_lt (canonical_cmp r.owner name.now)) v.items) pieces.now result }
{
    pieces.partition_point(|piece| ends_before_name(piece, name))
}

/// The first piece whose last row does not stand before a record, or how many pieces there are.
fn place_of(pieces: &[Vec<Record>], rr: &Record) -> usize
    requires { ArePieces pieces.now }
    ensures { IsPlace (λ v. last_passes (λ r. is_lt (record_order r rr.now)) v.items) pieces.now result }
{
    pieces.partition_point(|piece| ends_before(piece, rr))
}

/// Takes out the row that is the same as a record, if there is one.
fn remove(pieces: &mut Vec<Vec<Record>>, rr: &Record)
    requires { ArePieces pieces.old.items }
    ensures pieces { ArePieces pieces.new.items }
    ensures rows { flat pieces.new.items ≡ filter (is_other rr.now) (flat pieces.old.items) }
{
    let place = place_of(pieces, rr);
    let Some(piece) = pieces.get_mut(place) else {
        return;
    };
    remove_record(piece, rr);
    if piece.is_empty() {
        drop(pieces.remove(place));
    }
}

/// The piece in which a record has its place: the first that does not end before it, or else the last one.
fn place_among(pieces: &[Vec<Record>], rr: &Record) -> usize
    requires { ArePieces pieces.now }
    ensures { IsPlaceAmong (λ v. last_passes (λ r. is_lt (record_order r rr.now)) v.items) pieces.now result }
{
    place_of(pieces, rr).min(pieces.len().saturating_sub(1))
}

/// The pieces, of which the one at a place is cut in two if it has too many rows. The only error is out of memory.
fn with_cut(mut pieces: Vec<Vec<Record>>, place: usize) -> Result<Vec<Vec<Record>>, AllocError>
    requires { ArePieces pieces.items }
    ensures pieces { IfOk result (λ ps. ArePieces ps.items) }
    ensures rows { IfOk result (λ ps. flat ps.items ≡ flat pieces.items) }
{
    let Some(piece) = pieces.get_mut(place) else {
        return Ok(pieces);
    };
    if piece.len() <= MOST_ROWS {
        return Ok(pieces);
    }
    let behind = piece.split_off(piece.len() / 2)?;
    pieces.insert(place + 1, behind)?;
    Ok(pieces)
}

/// The pieces with a copy of a record at its place, where it takes that of the same one. The only error is out of memory.
fn with_record(
    alloc: Global,
    mut pieces: Vec<Vec<Record>>,
    rr: &Record,
) -> Result<Vec<Vec<Record>>, AllocError>
    requires { ArePieces pieces.items }
    ensures pieces { IfOk result (λ ps. ArePieces ps.items) }
    ensures rows { IfOk result (λ ps. flat ps.items ≡ placed rr.now (flat pieces.items)) }
{
    let place = place_among(&pieces, rr);
    let Some(piece) = pieces.get_mut(place) else {
        return Ok(vec![in alloc; vec![in alloc; rr.try_copy(alloc)?]?]?);
    };
    put_record(alloc, piece, rr)?;
    with_cut(pieces, place)
}

/// Takes out the rows that are the same as some records.
fn remove_all(pieces: &mut Vec<Vec<Record>>, records: &[Record])
    requires { ArePieces pieces.old.items }
    ensures pieces { ArePieces pieces.new.items }
    ensures rows { flat pieces.new.items ≡ removed records.now (flat pieces.old.items) }
{
    for record in records {
        remove(pieces, record);
    }
}

/// The pieces with copies of records at their places, the last one first. The only error is out of memory.
fn with_all(
    alloc: Global,
    mut pieces: Vec<Vec<Record>>,
    records: &[Record],
) -> Result<Vec<Vec<Record>>, AllocError>
    requires { ArePieces pieces.items }
    ensures pieces { IfOk result (λ ps. ArePieces ps.items) }
    ensures rows { IfOk result (λ ps. flat ps.items ≡ put_back records.now (flat pieces.items)) }
{
    for at in (0..records.len()).rev() {
        pieces = with_record(alloc, pieces, &records[at])?;
    }
    Ok(pieces)
}

/// Rows, and copies of records after them. The only error is out of memory.
fn with_copies(
    alloc: Global,
    mut rows: Vec<Record>,
    records: &[Record],
) -> Result<Vec<Record>, AllocError>
    ensures { IfOk result (λ all. all.items ≡ rows.items ++ records.now) }
{
    for record in records {
        rows.push(record.try_copy(alloc)?)?;
    }
    Ok(rows)
}

impl RowPieces {
    /// Rows in record order, in pieces. The only error is out of memory.
    pub(crate) fn of_rows(alloc: Global, mut rows: Vec<Record>) -> Result<RowPieces, AllocError>
        requires { InOrder rows.items }
        ensures { IfOk result (λ p. p ≡ rows.items) }
    {
        let mut pieces = Vec::new(alloc);
        while !rows.is_empty() {
            let start = rows.len().saturating_sub(FIRST_ROWS);
            pieces.push(rows.split_off(start)?)?;
        }
        pieces.reverse();
        Ok(RowPieces { pieces })
    }

    /// How many rows there are, as far as a number of this kind goes.
    pub(crate) fn count(&self) -> usize {
        let mut count = 0usize;
        for piece in &self.pieces {
            count = count.saturating_add(piece.len());
        }
        count
    }

    /// The rows whose owners are meant, in record order: those of one piece after those of another. The only error is out of memory.
    fn parts_of(&self, alloc: Global, owners: Owners<'_>) -> Result<Vec<&[Record]>, AllocError>
        ensures value { IfOk result (λ parts. flat_map (λ part. part.now) parts.items ≡ filter (λ r. has_key owners.entry (key_of r)) self.now) }
        // What holds of all rows.
        ensures rows { InOrder self.now }
    {
        let start = place_of_name(&self.pieces, owners.first());
        let mut parts = Vec::new(alloc);
        for piece in &self.pieces[start..] {
            let rows = owners.rows_of(piece);
            if rows.is_empty() {
                return Ok(parts);
            }
            parts.push(rows)?;
        }
        Ok(parts)
    }

    /// Copies of the rows at a name, in record order. The only error is out of memory.
    pub(crate) fn copied_at(&self, alloc: Global, name: &Name) -> Result<Vec<Record>, AllocError>
        ensures value { IfOk result (λ rs. rs.items ≡ filter (λ r. at_name name.now (key_of r)) self.now) }
        ensures rows { InOrder self.now }
    {
        let mut found = Vec::new(alloc);
        for rows in self.parts_of(alloc, Owners::At(name))? {
            found = with_copies(alloc, found, rows)?;
        }
        Ok(found)
    }

    /// Copies of the rows within a name that grants include, in record order. The only error is out of memory.
    pub(crate) fn included_within(
        &self,
        alloc: Global,
        top: &Name,
        grants: &mut Grants<'_>,
    ) -> Result<Vec<Record>, AllocError>
        ensures value { IfOk result (λ rs. rs.items ≡ included grants.old (filter (λ r. within top.now (key_of r)) self.now)) }
        ensures same { grants.new ≡ grants.old }
        ensures rows { InOrder self.now }
    {
        let mut found = Vec::new(alloc);
        for rows in self.parts_of(alloc, Owners::Within(top))? {
            found = with_included(alloc, found, grants, rows)?;
        }
        Ok(found)
    }

    /// The rows, one after the other. The only error is out of memory.
    pub(crate) fn into_rows(self, alloc: Global) -> Result<Vec<Record>, AllocError>
        ensures value { IfOk result (λ rs. rs.items ≡ self) }
        ensures order { IfOk result (λ rs. InOrder rs.items) }
        // What holds of all rows.
        ensures rows { InOrder self }
    {
        let mut rows = Vec::new(alloc);
        for mut piece in self.pieces {
            rows.append(&mut piece)?;
        }
        Ok(rows)
    }

    /// The rows after a change of their zone. The only error is out of memory.
    pub(crate) fn changed(self, alloc: Global, change: &Change) -> Result<RowPieces, AllocError>
        ensures { IfOk result (λ p. AreRows p (changed (set_of self) change.now.removed.items change.now.added.items)) }
    {
        let mut pieces = self.pieces;
        remove_all(&mut pieces, &change.removed);
        let pieces = with_all(alloc, pieces, &change.added)?;
        Ok(RowPieces { pieces })
    }
}
