//! Data, read from columns in which those of an SOA record often repeat.

ghost use Rattle.std.specs.Prelude.{◌≡◌, Ok, IfOk, IfSome};
ghost use Rattle.store_rows.specs.RowFaults.{Reads};
ghost use Rattle.store_rows.specs.RowReading.{data_from, data_in};

use crate::columns::{data_from, data_in};
use crate::last_soa::LastSoa;
use crate::row_fault::RowFault;
use dns_data::{Data, RecordType};
use std::alloc::{AllocError, Global};

/// Reads the canonical texts of data. It keeps those of the last SOA record. Each change takes away the SOA record that the change before
/// it brought, and mostly it brings one with the next serial: of either text only the serial is read, and the rest is compared.
#[derive(Drop)]
pub(crate) struct DataReader {
    soa: Option<LastSoa>,
}

impl DataReader {
    /// A reader that has read nothing.
    pub(crate) const fn new() -> DataReader {
        DataReader { soa: None }
    }

    /// The data of an SOA record, if they are the last ones or those with the next serial. The only error is out of memory.
    fn known_soa(&mut self, alloc: Global, text: &str) -> Result<Option<Data>, AllocError>
        ensures { IfOk result (λ found. IfSome found (λ rdata. data_in RecordType.Soa text.now ≡ Ok rdata)) }
    {
        match &mut self.soa {
            Some(soa) => soa.read(alloc, text),
            None => Ok(None),
        }
    }

    /// Reads the data of an SOA record, and keeps them.
    fn read_soa(&mut self, alloc: Global, text: &str) -> Result<Data, RowFault>
        ensures { Reads (λ made. made) result (data_in RecordType.Soa text.now) }
    {
        if let Some(rdata) = self.known_soa(alloc, text)? {
            return Ok(rdata);
        }
        let rdata = data_in(alloc, RecordType::Soa, text)?;
        self.soa = LastSoa::of(alloc, &rdata)?;
        Ok(rdata)
    }

    /// Reads the canonical text of data of a type. Any other text is `BadRow`.
    pub(crate) fn read(
        &mut self,
        alloc: Global,
        record_type: RecordType,
        text: &str,
    ) -> Result<Data, RowFault>
        ensures { Reads (λ made. made) result (data_in record_type text.now) }
    {
        match record_type {
            RecordType::Soa => self.read_soa(alloc, text),
            _ => data_in(alloc, record_type, text),
        }
    }

    /// The data of an SOA record by a text that the store has, in whichever spelling.
    fn stored_soa(&mut self, alloc: Global, text: &str) -> Result<Data, RowFault>
        ensures { Reads (λ made. made) result (data_from RecordType.Soa text.now) }
    {
        match self.read(alloc, RecordType::Soa, text) {
            Ok(rdata) => Ok(rdata),
            Err(RowFault::BadRow) => data_from(alloc, RecordType::Soa, text),
            Err(RowFault::NoMemory) => Err(RowFault::NoMemory),
        }
    }

    /// The data of a type by a text that the store has, in whichever spelling.
    pub(crate) fn stored(
        &mut self,
        alloc: Global,
        record_type: RecordType,
        text: &str,
    ) -> Result<Data, RowFault>
        ensures { Reads (λ made. made) result (data_from record_type text.now) }
    {
        match record_type {
            RecordType::Soa => self.stored_soa(alloc, text),
            _ => data_from(alloc, record_type, text),
        }
    }
}
