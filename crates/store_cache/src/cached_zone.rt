//! A zone in memory that follows its changes: each is made among its rows at once, in the time of the logarithm of their number.

ghost use Rattle.std.specs.Prelude.{◌≡◌, ◌⊎◌, false, Some, None, IfOk, IfSome, IsNone};
ghost use Rattle.zone_core.specs.Sets.{InOrder, part};
ghost use Rattle.zone_core.specs.Zones.{IsZone, ZoneOf};
ghost use Rattle.zone_core.specs.Parts.{part_of, at_names};
ghost use Rattle.zone_core.specs.Rebuilt.{AreAllOf};
ghost use Rattle.zone_core.specs.Changes.{change_in};
ghost use Rattle.office_model.specs.Tables.{addition_in};
ghost use Rattle.store_cache.specs.Cache.{AreAllRecordsOf, AreIncludedOf, IsPartOf, cached_after, cached_in, changed_at, current_zone, is_cached_of};

use crate::row_pieces::RowPieces;
use crate::shelf::OfZone;
use dns_data::Record;
use dns_names::Name;
use grant_policy::Grants;
use office_model::Addition;
use std::alloc::{AllocError, Global};
use zone_core::{Change, Zone, ZoneFault};

/// The zone that was read last, as the commits since then have left it.
#[derive(Drop)]
pub struct CachedZone {
    origin: Name,
    rows: RowPieces,
}

impl CachedZone {
    /// A zone that was read just now. The only error is out of memory.
    fn of(alloc: Global, zone: Zone) -> Result<CachedZone, AllocError>
        ensures { IfOk result (λ cached. current_zone cached ≡ zone) }
    {
        let origin = zone.origin().try_copy(alloc)?;
        let rows = RowPieces::of_rows(alloc, zone.into_records())?;
        Ok(CachedZone { origin, rows })
    }

    /// What is cached after a change of the zone of an origin. Where memory runs out, nothing is.
    fn behind(self, alloc: Global, origin: &Name, change: &Change) -> Option<CachedZone>
        ensures { IfSome result (λ cached. current_zone cached ≡ changed_at origin.now (change_in change.now) (current_zone self)) }
    {
        if self.origin != *origin {
            return Some(self);
        }
        let CachedZone { origin, rows } = self;
        match rows.changed(alloc, change) {
            Ok(rows) => Some(CachedZone { origin, rows }),
            Err(_) => None,
        }
    }

    /// Copies of the records at the origin and at some names. The only error is out of memory.
    fn copied_at(&self, alloc: Global, names: &[Name]) -> Result<Vec<Record>, AllocError>
        ensures { IfOk result (λ rs. AreAllOf rs.items (part (current_zone self.now).records (at_names self.now.origin names.now))) }
    {
        let mut records = self.rows.copied_at(alloc, &self.origin)?;
        for name in names {
            let mut more = self.rows.copied_at(alloc, name)?;
            records.append(&mut more)?;
        }
        Ok(records)
    }

    /// The part of the zone that has its records at the origin and at some names, if they make one, which they do unless the store has
    /// broken its word. The only error is out of memory.
    fn part(&self, alloc: Global, names: &[Name]) -> Result<Option<Zone>, AllocError>
        ensures { IfOk result (λ found. IsZone (current_zone self.now) → found ≡ Some (part_of (current_zone self.now) (at_names self.now.origin names.now))) }
    {
        let records = self.copied_at(alloc, names)?;
        let origin = self.origin.try_copy(alloc)?;
        match Zone::build(alloc, origin, records) {
            Ok(zone) => Ok(Some(zone)),
            Err(fault) => match fault {
                ZoneFault::NoMemory => Err(AllocError),
                _ => Ok(None),
            },
        }
    }
}

/// About how many octets of memory a record takes.
const RECORD: usize = 400;

impl OfZone for CachedZone {
    ghost zone_origin = { λ cached. cached.origin };

    fn is_of(&self, origin: &Name) -> bool {
        self.origin == *origin
    }

    fn size(&self) -> usize {
        self.rows.count().saturating_mul(RECORD)
    }
}

/// The cached zone, if it is the one of an origin.
fn cached_at<'a>(cache: &'a Option<CachedZone>, origin: &Name) -> Option<&'a CachedZone>
    ensures found { IfSome result (λ cached. (cached_in cache.entry.now ≡ Some (current_zone cached.now)) × (cached.now.origin ≡ origin.now)) }
    ensures none { IsNone result → is_cached_of (cached_in cache.entry.now) origin.now ≡ false }
{
    match cache {
        Some(cached) if cached.origin == *origin => Some(cached),
        _ => None,
    }
}

/// Whether the cached zone is the one of an origin.
pub fn is_cached(cache: &Option<CachedZone>, origin: &Name) -> bool
    ensures { result ≡ is_cached_of (cached_in cache.now) origin.now }
{
    cached_at(cache, origin).is_some()
}

/// Copies of the records of the cached zone within a name that grants include, in record order, if it is the zone of an origin. The only
/// error is out of memory.
pub fn subtree_of_cached(
    alloc: Global,
    cache: &Option<CachedZone>,
    origin: &Name,
    top: &Name,
    grants: &mut Grants<'_>,
) -> Result<Option<Vec<Record>>, AllocError>
    ensures found { IfOk result (λ found. IfSome found (λ rs. AreIncludedOf (cached_in cache.now) origin.now top.now grants.old rs.items)) }
    ensures none { IfOk result (λ found. IsNone found → is_cached_of (cached_in cache.now) origin.now ≡ false) }
    ensures order { IfOk result (λ found. IfSome found (λ rs. InOrder rs.items)) }
    ensures same { grants.new ≡ grants.old }
{
    match cached_at(cache, origin) {
        Some(cached) => Ok(Some(cached.rows.included_within(alloc, top, grants)?)),
        None => Ok(None),
    }
}

/// The part of the cached zone that has its records at the origin and at some names, if it is the zone of an origin and its rows make
/// one. The only error is out of memory.
pub fn part_of_cached(
    alloc: Global,
    cache: &Option<CachedZone>,
    origin: &Name,
    names: &[Name],
) -> Result<Option<Zone>, AllocError>
    ensures found { IfOk result (λ found. IfSome found (λ part. IsPartOf (cached_in cache.now) origin.now names.now part)) }
    ensures none { IfOk result (λ found. IsNone found → (zone : ZoneOf) → cached_in cache.now ≡ Some zone → zone.origin ≡ origin.now → ¬ IsZone zone) }
{
    match cached_at(cache, origin) {
        Some(cached) => cached.part(alloc, names),
        None => Ok(None),
    }
}

/// Takes the rows of the cached zone, if it is the one of an origin. The zone of another origin stays cached. The only error is out of
/// memory.
pub fn take_cached(
    alloc: Global,
    cache: &mut Option<CachedZone>,
    origin: &Name,
) -> Result<Option<Vec<Record>>, AllocError>
    ensures found { IfOk result (λ found. IfSome found (λ rs. AreAllRecordsOf (cached_in cache.old) origin.now rs.items)) }
    ensures none { IfOk result (λ found. IsNone found → (is_cached_of (cached_in cache.old) origin.now ≡ false) × (cached_in cache.new ≡ cached_in cache.old)) }
    ensures kept { (cached_in cache.new ≡ cached_in cache.old) ⊎ (cached_in cache.new ≡ None) }
{
    let Some(cached) = cache.take() else {
        return Ok(None);
    };
    if cached.origin != *origin {
        *cache = Some(cached);
        return Ok(None);
    }
    Ok(Some(cached.rows.into_rows(alloc)?))
}

/// What is cached of a zone that was read: the zone, as far as there is memory.
pub fn cached_of(alloc: Global, read: Option<Zone>) -> Option<CachedZone>
    ensures { IfSome (cached_in result) (λ zone. read ≡ Some zone) }
{
    CachedZone::of(alloc, read?).ok()
}

/// What is cached after an addition.
pub fn follow(alloc: Global, cache: &mut Option<CachedZone>, addition: &Addition)
    ensures { (cached_in cache.new ≡ cached_after (addition_in addition.now) (cached_in cache.old)) ⊎ (cached_in cache.new ≡ None) }
{
    let Some(change) = &addition.change else {
        return;
    };
    let Some(cached) = cache.take() else {
        return;
    };
    *cache = cached.behind(alloc, &addition.receipt.origin, change);
}
