//! A zone.

ghost use Rattle.std.specs.Prelude.{◌≡◌, Some, IfOk};
ghost use Rattle.zone_core.specs.Sets.{set_of, listing, part, minus, at_name, at, within, InOrder, AreRows};
ghost use Rattle.zone_core.specs.Zones.{IsZone, IsSoaOf, soa_at, serial_of};
ghost use Rattle.zone_core.specs.Views.{zone_in, AreOfZone};
ghost use Rattle.zone_core.specs.Parts.{part_of, at_names};
ghost use Rattle.zone_core.specs.Changes.{changed, FitsIn};

use crate::change::Change;
use crate::merge::merged;
use crate::rows;
use dns_data::{Data, Record, RecordType};
use dns_names::Name;
use std::alloc::{AllocError, Global};
use std::marker::Model;

/// A zone: an origin and a set of records (RFC 1034 section 4.2). It has one SOA, which is at the origin, and an NS there
/// (RFC 1035 section 5.2); a CNAME stands alone at its name (RFC 1034 section 3.6.2); all owners are within the origin, and
/// those of a DS below it; no two records are the same, and those of one owner and type have one TTL (RFC 2181 section 5).
#[derive(Drop)]
pub struct Zone {
    origin: Name,
    // in record order, in which the SOA comes first
    records: Vec<Record>,
}

impl Model for Zone {
    ghost use Rattle.zone_core.specs.Zones.{ZoneOf};
    ghost use Rattle.zone_core.specs.Codes.{zone_code};

    ghost Value = { ZoneOf };

    ghost coded = { zone_code };

    ghost use Rattle.zone_core.specs.Views.{zone_in, AreOfZone};

    ghost view = { λ z. zone_in z.origin z.records.items };

    ghost invariant = { λ z. AreOfZone z.origin z.records.items };
}

impl Zone {
    /// The zone of records in record order.
    pub(crate) fn of_rows(origin: Name, records: Vec<Record>) -> Zone
        requires { AreOfZone origin records.items }
        ensures { result ≡ zone_in origin records.items }
    {
        Zone { origin, records }
    }

    /// The origin, and the records in record order.
    pub(crate) fn into_parts(self) -> (Name, Vec<Record>)
        ensures origin { result.0 ≡ self.origin }
        ensures rows { AreRows result.1.items self.records }
        ensures zone { IsZone self }
    {
        (self.origin, self.records)
    }

    /// The origin.
    pub fn origin(&self) -> &Name
        ensures value { result.now ≡ self.now.origin }
        // What holds of every zone.
        ensures zone { IsZone self.now }
    {
        &self.origin
    }

    /// The records, in record order.
    pub fn records(&self) -> &[Record]
        ensures value { result.now ≡ listing self.now.records }
        ensures order { InOrder result.now }
        ensures set { set_of result.now ≡ self.now.records }
        ensures zone { IsZone self.now }
    {
        &self.records
    }

    /// The records, in record order, without the zone.
    pub fn into_records(self) -> Vec<Record>
        ensures value { result.items ≡ listing self.records }
        ensures order { InOrder result.items }
    {
        self.records
    }

    /// The SOA.
    pub fn soa(&self) -> &Record
        ensures one { IsSoaOf self.now result.now }
        ensures value { soa_at self.now.origin self.now.records ≡ Some result.now }
    {
        &self.records[0]
    }

    /// The serial.
    pub fn serial(&self) -> u32
        ensures { result ≡ serial_of self.now }
    {
        match &self.soa().rdata {
            Data::Soa(soa) => soa.fields().serial.0,
            _ => unreachable!(),
        }
    }

    /// The records at a name, in record order.
    pub fn records_at(&self, name: &Name) -> &[Record]
        ensures { result.now ≡ listing (part self.now.records (at_name name.now)) }
    {
        rows::at_name(&self.records, name)
    }

    /// The records of a set: those of this owner and type, in record order.
    pub fn rrset(&self, name: &Name, record_type: RecordType) -> &[Record]
        ensures { result.now ≡ listing (part self.now.records (at name.now record_type)) }
    {
        rows::of_set(&self.records, name, record_type)
    }

    /// The records within a name, in record order.
    pub fn records_within(&self, name: &Name) -> &[Record]
        ensures { result.now ≡ listing (part self.now.records (within name.now)) }
    {
        rows::within(&self.records, name)
    }

    /// The zone that has those records of this one that are at its origin or at one of some names, in memory of its own. It is
    /// all that an update at these names reads. The only error is out of memory.
    pub fn part(&self, alloc: Global, names: &[Name]) -> Result<Zone, AllocError>
        ensures { IfOk result (λ zone. zone ≡ part_of self.now (at_names self.now.origin names.now)) }
    {
        let origin = self.origin().try_copy(alloc)?;
        let mut records = rows::copied(alloc, self.records_at(&self.origin))?;
        for name in names {
            rows::push_copies(alloc, &mut records, self.records_at(name))?;
        }
        Ok(Zone::of_rows(origin, rows::in_order(alloc, records)?))
    }

    /// The zone with a change made. The only error is out of memory.
    pub fn changed(self, alloc: Global, change: &Change) -> Result<Zone, AllocError>
        // The records that go are in the zone, and in the place of those that come nothing is left; each side is in record order.
        requires fits { FitsIn self.records change.now.removed.items change.now.added.items }
        // What comes of it is a zone.
        requires zone { IsZone (record self { records = changed self.records change.now.removed.items change.now.added.items }) }
        ensures { IfOk result (λ zone. zone ≡ record self { records = changed self.records change.now.removed.items change.now.added.items }) }
    {
        let (origin, rows) = self.into_parts();
        let rows = merged(alloc, rows, &change.removed, &change.added)?;
        Ok(Zone::of_rows(origin, rows))
    }

    /// An equal zone in memory of its own. The only error is out of memory.
    pub fn try_copy(&self, alloc: Global) -> Result<Zone, AllocError>
        ensures { IfOk result (λ copy. copy ≡ self.now) }
    {
        Ok(Zone {
            origin: self.origin.try_copy(alloc)?,
            records: rows::copied(alloc, &self.records)?,
        })
    }
}
