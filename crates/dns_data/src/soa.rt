//! The data of SOA records.

ghost use Rattle.std.specs.Prelude.{◌≡◌, IfOk};

use crate::number::{Seconds, Serial};
use dns_names::Name;
use std::alloc::{AllocError, Global};
use std::marker::Model;

/// The fields of an SOA record (RFC 1035 section 3.3.13).
#[derive(PartialEq, Eq, Drop)]
pub struct SoaFields {
    /// The primary server of the zone.
    pub mname: Name,
    /// The mailbox of its hostmaster, as a name.
    pub rname: Name,
    pub serial: Serial,
    pub refresh: Seconds,
    pub retry: Seconds,
    pub expire: Seconds,
    pub minimum: Seconds,
}

impl SoaFields {
    /// Equal fields in memory of their own. The only error is out of memory.
    pub fn try_copy(&self, alloc: Global) -> Result<SoaFields, AllocError>
        ensures { IfOk result (λ copy. copy ≡ self.now) }
    {
        Ok(SoaFields {
            mname: self.mname.try_copy(alloc)?,
            rname: self.rname.try_copy(alloc)?,
            serial: self.serial,
            refresh: self.refresh,
            retry: self.retry,
            expire: self.expire,
            minimum: self.minimum,
        })
    }
}

/// The data of an SOA record, in an allocation of their own: a zone has one such record among many, and the others need no
/// room for it.
#[derive(Drop)]
pub struct Soa {
    fields: Box<SoaFields>,
}

impl Model for Soa {
    ghost use Rattle.dns_data.specs.declared.soa.SoaFields.{SoaFields};

    ghost Value = { SoaFields };

    ghost view = { λ s. s.fields.value };
}

impl Soa {
    /// The data of these fields. The only error is out of memory.
    pub fn new(alloc: Global, fields: SoaFields) -> Result<Soa, AllocError>
        ensures { IfOk result (λ soa. soa ≡ fields) }
    {
        Ok(Soa {
            fields: Box::new(alloc, fields)?,
        })
    }

    /// The fields.
    pub fn fields(&self) -> &SoaFields
        ensures { result.now ≡ self.now }
    {
        &self.fields
    }

    /// Equal data in memory of their own. The only error is out of memory.
    pub fn try_copy(&self, alloc: Global) -> Result<Soa, AllocError>
        ensures { IfOk result (λ copy. copy ≡ self.now) }
    {
        Soa::new(alloc, self.fields.try_copy(alloc)?)
    }
}

impl PartialEq for Soa {
    ghost use Rattle.dns_data.specs.SameSoa.{same_soa, same_soa_partial};

    ghost eq = { same_soa };

    ghost laws = { same_soa_partial };

    fn eq(&self, other: &Soa) -> bool {
        self.fields() == other.fields()
    }
}

impl Eq for Soa {
    ghost use Rattle.dns_data.specs.SameSoa.{same_soa_equiv};

    ghost laws = { same_soa_equiv };
}
