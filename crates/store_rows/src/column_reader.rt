//! The columns that rows of `records` and of `changes` have alike.

ghost use Rattle.std.specs.Prelude.{IfOk};
ghost use Rattle.dns_names.specs.Labels.{IsName};
ghost use Rattle.dns_data.specs.Rdata.{IsRecord};
ghost use Rattle.store_rows.specs.RowFaults.{Reads};
ghost use Rattle.store_rows.specs.RowReading.{name_from, name_in, record_from, record_at};

use crate::columns::{name_from, ttl_in, type_in};
use crate::data_reader::DataReader;
use crate::name_reader::NameReader;
use crate::row_fault::RowFault;
use dns_data::Record;
use dns_names::Name;
use std::alloc::Global;

/// Reads the columns of one row after the other, each in its canonical spelling.
#[derive(Drop)]
pub(crate) struct ColumnReader {
    origins: NameReader,
    owners: NameReader,
    rdata: DataReader,
}

impl ColumnReader {
    /// A reader that has read nothing.
    pub(crate) const fn new() -> ColumnReader {
        ColumnReader {
            origins: NameReader::new(),
            owners: NameReader::new(),
            rdata: DataReader::new(),
        }
    }

    /// Reads the origin of a row.
    pub(crate) fn origin(&mut self, alloc: Global, text: &str) -> Result<Name, RowFault>
        ensures name { IfOk result IsName }
        ensures exact { Reads (λ name. name) result (name_in text.now) }
    {
        self.origins.read(alloc, text)
    }

    /// Reads the owner of a record, which is the origin where it is an SOA record.
    fn owner(&mut self, alloc: Global, text: &str) -> Result<Name, RowFault>
        ensures name { IfOk result IsName }
        ensures exact { Reads (λ name. name) result (name_in text.now) }
    {
        if let Some(origin) = self.origins.known(text) {
            return Ok(origin.try_copy(alloc)?);
        }
        self.owners.read(alloc, text)
    }

    /// Reads the record of a row.
    pub(crate) fn record(
        &mut self,
        alloc: Global,
        owner: &str,
        record_type: i64,
        rdata: &str,
        ttl: i64,
    ) -> Result<Record, RowFault>
        ensures record { IfOk result IsRecord }
        ensures exact { Reads (λ r. r) result (record_at owner.now record_type rdata.now ttl) }
    {
        let owner = self.owner(alloc, owner)?;
        let record_type = type_in(record_type)?;
        let ttl = ttl_in(ttl)?;
        let rdata = self.rdata.read(alloc, record_type, rdata)?;
        let rr = Record { owner, ttl, rdata };
        // the proof needs that it is a record
        let _ = rr.record_type();
        Ok(rr)
    }

    /// The origin of a row that the store has, in whichever spelling.
    pub(crate) fn stored_origin(&mut self, alloc: Global, text: &str) -> Result<Name, RowFault>
        ensures name { IfOk result IsName }
        ensures exact { Reads (λ name. name) result (name_from text.now) }
    {
        self.origins.stored(alloc, text)
    }

    /// The owner of a record that the store has, in whichever spelling.
    fn stored_owner(&self, alloc: Global, text: &str) -> Result<Name, RowFault>
        ensures name { IfOk result IsName }
        ensures exact { Reads (λ name. name) result (name_from text.now) }
    {
        if let Some(origin) = self.origins.known(text) {
            return Ok(origin.try_copy(alloc)?);
        }
        name_from(alloc, text)
    }

    /// The record of a row that the store has, in whichever spelling.
    pub(crate) fn stored_record(
        &mut self,
        alloc: Global,
        owner: &str,
        record_type: i64,
        rdata: &str,
        ttl: i64,
    ) -> Result<Record, RowFault>
        ensures record { IfOk result IsRecord }
        ensures exact { Reads (λ r. r) result (record_from owner.now record_type rdata.now ttl) }
    {
        let owner = self.stored_owner(alloc, owner)?;
        let record_type = type_in(record_type)?;
        let ttl = ttl_in(ttl)?;
        let rdata = self.rdata.stored(alloc, record_type, rdata)?;
        let rr = Record { owner, ttl, rdata };
        // the proof needs that it is a record
        let _ = rr.record_type();
        Ok(rr)
    }
}
