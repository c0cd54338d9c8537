//! The data of the SOA record that was read last, by which the text of the next one is known.

ghost use Rattle.std.specs.Prelude.{◌≡◌, ◌++◌, true, decimal, Ok, IfOk, IfSome, string_bytes};
ghost use Rattle.dns_data.specs.Text.{data_text};
ghost use Rattle.store_rows.specs.RowReading.{data_in};
ghost use Rattle.store_rows.specs.SoaTexts.{before_serial, behind_serial};

use dns_data::{Data, RecordType, Serial, Soa, SoaFields};
use itoa::Buffer;
use std::alloc::{AllocError, Global};

/// Whether octets are the decimal digits of a number.
fn are_digits_of(octets: &[u8], number: u32) -> bool
    ensures { result ≡ true → octets.now ≡ decimal number }
{
    Buffer::new().format(number).as_bytes() == octets
}

/// The data of an SOA record, with what their canonical text has before the serial and after it.
#[derive(Drop)]
pub(crate) struct LastSoa {
    fields: SoaFields,
    before: String,
    behind: String,
    ghost before_is: { string_bytes before ≡ before_serial fields },
    ghost behind_is: { string_bytes behind ≡ behind_serial fields },
}

impl LastSoa {
    /// Those of data, if they are of an SOA record. The only error is out of memory.
    pub(crate) fn of(alloc: Global, rdata: &Data) -> Result<Option<LastSoa>, AllocError> {
        let Data::Soa(soa) = rdata else {
            return Ok(None);
        };
        let fields = soa.fields().try_copy(alloc)?;
        let before = format!(in alloc; "{} {} ", fields.mname, fields.rname)?;
        let behind = format!(in alloc;
            " {} {} {} {}",
            fields.refresh.0, fields.retry.0, fields.expire.0, fields.minimum.0
        )?;
        Ok(Some(LastSoa {
            fields,
            before,
            behind,
        }))
    }

    /// What a text has in the place of the serial, if the rest of it is the same.
    fn serial_in<'a>(&self, text: &'a str) -> Option<&'a [u8]>
        ensures { IfSome result (λ digits. text.now ≡ before_serial self.now.fields ++ (digits.now ++ behind_serial self.now.fields)) }
    {
        let rest = text.as_bytes().strip_prefix(self.before.as_bytes())?;
        rest.strip_suffix(self.behind.as_bytes())
    }

    /// Goes on to the data of a text, if they are the same ones, or those with the next serial.
    fn goes_on(&mut self, text: &str) -> bool
        ensures { result ≡ true → text.now ≡ data_text (Data.Soa self.new.fields) }
    {
        let Some(digits) = self.serial_in(text) else {
            return false;
        };
        let serial = self.fields.serial.0;
        let next = serial.wrapping_add(1);
        if are_digits_of(digits, next) {
            self.fields.serial = Serial(next);
            return true;
        }
        are_digits_of(digits, serial)
    }

    /// The data. The only error is out of memory.
    fn data(&self, alloc: Global) -> Result<Data, AllocError>
        ensures { IfOk result (λ rdata. rdata ≡ Data.Soa self.now.fields) }
    {
        Ok(Data::Soa(Soa::new(alloc, self.fields.try_copy(alloc)?)?))
    }

    /// The data of a text, if they are the same ones, or those with the next serial: these are the last ones from now on. The only error
    /// is out of memory.
    pub(crate) fn read(&mut self, alloc: Global, text: &str) -> Result<Option<Data>, AllocError>
        ensures { IfOk result (λ found. IfSome found (λ rdata. data_in RecordType.Soa text.now ≡ Ok rdata)) }
    {
        if !self.goes_on(text) {
            return Ok(None);
        }
        let rdata = self.data(alloc)?;
        // the proof needs that these are data
        let _ = rdata.record_type();
        Ok(Some(rdata))
    }
}
