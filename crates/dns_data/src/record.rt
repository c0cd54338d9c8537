//! Records.

ghost use Rattle.std.specs.Prelude.{◌≡◌, ◌↔◌, Some, IfOk, IsTrue, string_bytes};
ghost use Rattle.dns_data.specs.Text.{record_line};
ghost use Rattle.dns_data.specs.Rdata.{type_of, IsRecord, SameRecord};

use crate::number::Ttl;
use crate::rdata::Data;
use crate::record_type::RecordType;
use dns_names::Name;
use std::alloc::{AllocError, Global};
use std::fmt;

/// A record of class IN (RFC 1035 section 3.2.1).
#[derive(PartialEq, Eq, Drop)]
pub struct Record {
    pub owner: Name,
    pub ttl: Ttl,
    pub rdata: Data,
}

impl Record {
    /// The type of the record.
    pub fn record_type(&self) -> RecordType
        ensures value { result ≡ type_of self.now.rdata }
        // What all records are.
        ensures record { IsRecord self.now }
    {
        // the proof needs that these are a name and a TTL
        let _ = self.owner.labels();
        let _ = self.ttl.seconds();
        self.rdata.record_type()
    }

    /// An equal record in memory of its own. The only error is out of memory.
    pub fn try_copy(&self, alloc: Global) -> Result<Record, AllocError>
        ensures { IfOk result (λ copy. copy ≡ self.now) }
    {
        Ok(Record {
            owner: self.owner.try_copy(alloc)?,
            ttl: self.ttl,
            rdata: self.rdata.try_copy(alloc)?,
        })
    }
}

impl fmt::Display for Record {
    ghost output = { λ r. Some (record_line r) };

    fn fmt<W: fmt::Write>(&self, f: &mut fmt::Formatter<W>) -> fmt::Result {
        let ttl = self.ttl.seconds();
        let record_type = self.record_type().text();
        write!(f, "{} {ttl} IN {record_type} {}", self.owner, self.rdata)
    }
}

/// Whether two records are the same: owner, type and data agree. The TTL does not count (RFC 2136 section 1.1.1).
pub fn same_record(a: &Record, b: &Record) -> bool
    ensures { IsTrue result ↔ SameRecord a.now b.now }
{
    a.owner == b.owner && a.rdata == b.rdata
}

/// The record as one line of a master file, without the line's end: owner, TTL, `IN`, type and data, joined by one space.
/// The only error is out of memory.
pub fn record_line(alloc: Global, rr: &Record) -> Result<String, AllocError>
    ensures { IfOk result (λ line. string_bytes line ≡ record_line rr.now) }
{
    rr.to_string(alloc)
}
