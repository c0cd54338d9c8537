//! The policy and the zone of the cases.

use anyhow::Result;
use dns_data::Record;
use dns_master::read_file;
use dns_names::Name;
use grant_policy::{Policy, read_policy};
use office_core::MemTable;
use std::alloc::Global;
use test_rows::Row;
use zone_core::Zone;

/// The texts of the policy, of the origin of the zone, and of its master file.
#[derive(Drop)]
pub struct Given {
    policy: Vec<u8>,
    origin: Vec<u8>,
    zone: Vec<u8>,
}

impl Given {
    /// No policy and no zone, which are empty texts.
    pub fn new(alloc: Global) -> Given {
        Given {
            policy: Vec::new(alloc),
            origin: Vec::new(alloc),
            zone: Vec::new(alloc),
        }
    }

    /// Takes the policy of a row, which must be one.
    pub fn take_policy(
        &mut self,
        alloc: Global,
        row: &Row<'_>,
        answer: &mut Vec<u8>,
    ) -> Result<()> {
        self.policy = Vec::from_slice(alloc, &row.body)?;
        drop(self.policy(alloc)?);
        Ok(answer.extend_from_slice(b"taken")?)
    }

    /// Takes the zone of a row, by its origin and its master file, which must be one.
    pub fn take_zone(&mut self, alloc: Global, row: &Row<'_>, answer: &mut Vec<u8>) -> Result<()> {
        self.origin = Vec::from_slice(alloc, &row.text)?;
        self.zone = Vec::from_slice(alloc, &row.body)?;
        drop(self.mem_table(alloc)?);
        Ok(answer.extend_from_slice(b"taken")?)
    }

    /// The policy.
    pub fn policy(&self, alloc: Global) -> Result<Policy> {
        Ok(read_policy(alloc, &self.policy)?)
    }

    /// The zone's origin.
    pub fn origin(&self, alloc: Global) -> Result<Name> {
        Ok(Name::read_absolute(alloc, &self.origin)?)
    }

    /// The records of the zone's master file.
    pub fn records(&self, alloc: Global) -> Result<Vec<Record>> {
        let origin = self.origin(alloc)?;
        Ok(read_file(alloc, &self.zone, &origin)?)
    }

    /// A table in memory that has the zone.
    pub fn mem_table(&self, alloc: Global) -> Result<MemTable> {
        let zone = self.zone(alloc)?;
        let mut zones = Vec::new(alloc);
        zones.push(zone)?;
        Ok(MemTable::new(alloc, zones)?)
    }

    fn zone(&self, alloc: Global) -> Result<Zone> {
        let records = self.records(alloc)?;
        Ok(Zone::build(alloc, self.origin(alloc)?, records)?)
    }
}
