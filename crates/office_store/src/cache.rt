//! What is read of the zone that was read last, and of others by their rows. The cached zone follows the commits.

ghost use Rattle.std.specs.Prelude.{◌≡◌, IfOk, IfSome, OnOk, is_some, option_map};
ghost use Rattle.sqlite.specs.Held.{state};
ghost use Rattle.sqlite.specs.State.{HasCleanDisk};
ghost use Rattle.zone_core.specs.Sets.{InOrder};
ghost use Rattle.office_model.specs.States.{State, part_at, subtree_at};
ghost use Rattle.office_model.specs.Tables.{Fits, addition_in, committed, included};
ghost use Rattle.store_faults.specs.StoreFaults.{Gives};
ghost use Rattle.store_cache.specs.Cache.{cached_in};
ghost use Rattle.store_sql.specs.Rows.{RowsOf};
ghost use Rattle.store_sql.specs.Holds.{Holds};
ghost use Rattle.office_store.specs.Queries.{Asked, AsksOnly};
ghost use Rattle.office_store.specs.Holds.{HoldsState};
ghost use Rattle.office_store.specs.Turns.{Turns};
ghost use Rattle.office_store.specs.Zones.{exported};
ghost use Rattle.office_store.specs.Cache.{FitsCache};

use crate::batch::commit;
use crate::queries::check_open;
use crate::reads::{is_held, part_at, subtree_at, zone_at};
use crate::zones::export;
use dns_data::Record;
use dns_names::Name;
use grant_policy::Grants;
use office_model::{Addition, included};
use sqlite::{Alter, Connection};
use std::alloc::{AllocError, Global};
use store_cache::{
    CachedZone, cached_of, follow, is_cached, part_of_cached, subtree_of_cached, take_cached,
};
use store_faults::StoreFault;
use zone_core::Zone;

/// Reads the zone of an origin, and caches it.
fn cache_zone<S: Alter>(
    alloc: Global,
    conn: &mut Connection<S>,
    cache: &mut Option<CachedZone>,
    origin: &Name,
) -> Result<(), StoreFault>
    requires fits { FitsCache (state S.Store conn.old) (cached_in cache.old) }
    ensures asks { AsksOnly (state S.Store conn.old) (state S.Store conn.new) result }
    ensures fits { FitsCache (state S.Store conn.new) (cached_in cache.new) }
{
    *cache = None;
    let found = zone_at(alloc, conn, origin)?;
    *cache = cached_of(alloc, found);
    Ok(())
}

/// Whether there is the zone of an origin, none of whose records is read: it is the cached one, or else its row is there.
pub(crate) fn cached_or_held<S: Alter>(
    alloc: Global,
    conn: &mut Connection<S>,
    cache: &Option<CachedZone>,
    origin: &Name,
) -> Result<bool, StoreFault>
    requires fits { FitsCache (state S.Store conn.old) (cached_in cache.now) }
    ensures answer { HasCleanDisk (state S.Store conn.new)
        → IfOk result (λ found. (s : State) → HoldsState (state S.Store conn.old) s → found ≡ is_some (s.zones origin.now)) }
    ensures asks { AsksOnly (state S.Store conn.old) (state S.Store conn.new) result }
{
    if is_cached(cache, origin) {
        check_open(conn)?;
        return Ok(true);
    }
    is_held(alloc, conn, origin)
}

/// The records of the zone of an origin, in record order: those of the cached zone, which are handed over, or else those of its rows.
pub(crate) fn export_cached<S: Alter>(
    alloc: Global,
    conn: &mut Connection<S>,
    cache: &mut Option<CachedZone>,
    origin: &Name,
) -> Result<Vec<Record>, StoreFault>
    requires fits { FitsCache (state S.Store conn.old) (cached_in cache.old) }
    ensures answer { HasCleanDisk (state S.Store conn.new) → (s : State) → HoldsState (state S.Store conn.old) s
        → Gives (λ records. records.items) result (exported (s.zones origin.now)) }
    ensures asks { AsksOnly (state S.Store conn.old) (state S.Store conn.new) result }
    ensures fits { FitsCache (state S.Store conn.new) (cached_in cache.new) }
{
    if let Some(records) = take_cached(alloc, cache, origin)? {
        check_open(conn)?;
        return Ok(records);
    }
    export(alloc, conn, origin)
}

/// The part of a zone that has its records at the origin and at some names, where there is the zone: that of the cached zone, or else
/// that of its rows.
pub(crate) fn cached_part<S: Alter>(
    alloc: Global,
    conn: &mut Connection<S>,
    cache: &Option<CachedZone>,
    origin: &Name,
    names: &[Name],
) -> Result<Option<Zone>, StoreFault>
    requires fits { FitsCache (state S.Store conn.old) (cached_in cache.now) }
    ensures answer { HasCleanDisk (state S.Store conn.new)
        → IfOk result (λ zone. (s : State) → HoldsState (state S.Store conn.old) s → zone ≡ part_at s origin.now names.now) }
    ensures asks { AsksOnly (state S.Store conn.old) (state S.Store conn.new) result }
{
    if let Some(part) = part_of_cached(alloc, cache, origin, names)? {
        check_open(conn)?;
        return Ok(Some(part));
    }
    part_at(alloc, conn, origin, names)
}

/// By what a subtree of a zone that is not cached is read.
#[derive(Clone, Copy)]
pub(crate) enum SubtreeRead {
    /// By its rows, and nothing is cached.
    Rows,
    /// By all of the zone, which is cached then.
    Zone,
}

/// From an answer of so many records on, the next subtree is read by its zone.
const MANY_RECORDS: usize = 256;

/// By what the next subtree is read after this one: who asks for many records is likely to ask again.
fn next_read(found: &Option<Vec<Record>>) -> SubtreeRead {
    match found {
        Some(records) if records.len() >= MANY_RECORDS => SubtreeRead::Zone,
        _ => SubtreeRead::Rows,
    }
}

/// Caches the zone of an origin, where it is not cached and is to be.
fn cache_wanted<S: Alter>(
    alloc: Global,
    conn: &mut Connection<S>,
    cache: &mut Option<CachedZone>,
    read: SubtreeRead,
    origin: &Name,
) -> Result<(), StoreFault>
    requires fits { FitsCache (state S.Store conn.old) (cached_in cache.old) }
    ensures asked { Asked (state S.Store conn.old) (state S.Store conn.new) }
    ensures only { HasCleanDisk (state S.Store conn.new)
        → OnOk result ((rows : RowsOf) → Holds (state S.Store conn.new) rows → Holds (state S.Store conn.old) rows) }
    ensures fits { FitsCache (state S.Store conn.new) (cached_in cache.new) }
{
    match read {
        SubtreeRead::Zone if !is_cached(cache, origin) => { cache_zone(alloc, conn, cache, origin) }
        _ => Ok(()),
    }
}

/// Those of some records that grants include, where there are some. The only error is out of memory.
fn included_of(
    alloc: Global,
    grants: &mut Grants<'_>,
    found: Option<Vec<Record>>,
) -> Result<Option<Vec<Record>>, AllocError>
    requires { IfSome found (λ rs. InOrder rs.items) }
    ensures value { IfOk result (λ some. option_map (λ rs. rs.items) some ≡ option_map (included grants.old) (option_map (λ rs. rs.items) found)) }
    ensures order { IfOk result (λ some. IfSome some (λ rs. InOrder rs.items)) }
    ensures same { grants.new ≡ grants.old }
{
    let Some(records) = found else {
        return Ok(None);
    };
    Ok(Some(included(alloc, grants, records)?))
}

/// The records of a zone within a name that grants include, in record order, where there is the zone: those of its rows.
fn included_at<S: Alter>(
    alloc: Global,
    conn: &mut Connection<S>,
    origin: &Name,
    top: &Name,
    grants: &mut Grants<'_>,
) -> Result<Option<Vec<Record>>, StoreFault>
    ensures answer { HasCleanDisk (state S.Store conn.new)
        → IfOk result
        (λ records. (s : State) → HoldsState (state S.Store conn.old) s
        → option_map (λ rs. rs.items) records ≡ option_map (included grants.old) (subtree_at s origin.now top.now)) }
    ensures order { IfOk result (λ records. IfSome records (λ rs. InOrder rs.items)) }
    ensures same { grants.new ≡ grants.old }
    ensures asks { AsksOnly (state S.Store conn.old) (state S.Store conn.new) result }
{
    let found = subtree_at(alloc, conn, origin, top)?;
    Ok(included_of(alloc, grants, found)?)
}

/// The records of a zone within a name that grants include, in record order, where there is the zone: those of the cached zone, or else
/// those of its rows.
fn subtree_by<S: Alter>(
    alloc: Global,
    conn: &mut Connection<S>,
    cache: &Option<CachedZone>,
    origin: &Name,
    top: &Name,
    grants: &mut Grants<'_>,
) -> Result<Option<Vec<Record>>, StoreFault>
    requires fits { FitsCache (state S.Store conn.old) (cached_in cache.now) }
    ensures answer { HasCleanDisk (state S.Store conn.new)
        → IfOk result
        (λ records. (s : State) → HoldsState (state S.Store conn.old) s
        → option_map (λ rs. rs.items) records ≡ option_map (included grants.old) (subtree_at s origin.now top.now)) }
    ensures order { IfOk result (λ records. IfSome records (λ rs. InOrder rs.items)) }
    ensures same { grants.new ≡ grants.old }
    ensures asks { AsksOnly (state S.Store conn.old) (state S.Store conn.new) result }
{
    if let Some(records) = subtree_of_cached(alloc, cache, origin, top, grants)? {
        check_open(conn)?;
        return Ok(Some(records));
    }
    included_at(alloc, conn, origin, top, grants)
}

/// The records of a zone within a name that grants include, in record order, where there is the zone: those of the cached zone, or else
/// those that are read, and then by what the next ones are.
pub(crate) fn cached_subtree<S: Alter>(
    alloc: Global,
    conn: &mut Connection<S>,
    cache: &mut Option<CachedZone>,
    read: &mut SubtreeRead,
    origin: &Name,
    top: &Name,
    grants: &mut Grants<'_>,
) -> Result<Option<Vec<Record>>, StoreFault>
    requires fits { FitsCache (state S.Store conn.old) (cached_in cache.old) }
    ensures answer { HasCleanDisk (state S.Store conn.new)
        → IfOk result
        (λ records. (s : State) → HoldsState (state S.Store conn.old) s
        → option_map (λ rs. rs.items) records ≡ option_map (included grants.old) (subtree_at s origin.now top.now)) }
    ensures order { IfOk result (λ records. IfSome records (λ rs. InOrder rs.items)) }
    ensures same { grants.new ≡ grants.old }
    ensures asks { AsksOnly (state S.Store conn.old) (state S.Store conn.new) result }
    ensures fits { FitsCache (state S.Store conn.new) (cached_in cache.new) }
{
    cache_wanted(alloc, conn, cache, *read, origin)?;
    let found = subtree_by(alloc, conn, cache, origin, top, grants)?;
    *read = next_read(&found);
    Ok(found)
}

/// Makes an addition: all of it, or nothing. The cached zone follows it; after a failure none is cached.
pub(crate) fn commit_cached<S: Alter>(
    alloc: Global,
    conn: &mut Connection<S>,
    cache: &mut Option<CachedZone>,
    addition: &Addition,
) -> Result<(), StoreFault>
    requires cache { FitsCache (state S.Store conn.old) (cached_in cache.old) }
    requires fits { HasCleanDisk (state S.Store conn.old) → (s : State) → HoldsState (state S.Store conn.old) s → Fits s (addition_in addition.now) }
    ensures turns { Turns (state S.Store conn.old) (state S.Store conn.new) result (committed (addition_in addition.now)) }
    ensures cache { FitsCache (state S.Store conn.new) (cached_in cache.new) }
{
    match commit(alloc, conn, addition) {
        Ok(()) => {
            follow(alloc, cache, addition);
            Ok(())
        }
        Err(fault) => {
            *cache = None;
            Err(fault)
        }
    }
}
