//! Answers that are the same but for the serial of an SOA in the authority section.

ghost use Rattle.std.specs.Prelude.{◌≡◌, ◌==◌, ◌&&◌, not, if◌then◌else◌};
ghost use Rattle.std.specs.Option.{option_copied};
ghost use Rattle.std.specs.Cmp.Lexicographic.{pointwise};
ghost use Rattle.zone_core.specs.Zones.{soa_in};
ghost use Rattle.zone_answers.specs.ChangeTests.{same_fields, same_data, same_but_serial, same_whole, same_answers};
ghost use Rattle.zone_answers.specs.Views.{answer_of};

use crate::answer::Answer;
use dns_data::{Data, Record, SoaFields};

/// Whether the fields of two SOA agree but for the serial.
fn same_fields(a: &SoaFields, b: &SoaFields) -> bool
    ensures { result ≡ same_fields a.now b.now }
{
    a.mname == b.mname
        && a.rname == b.rname
        && a.refresh.0 == b.refresh.0
        && a.retry.0 == b.retry.0
        && a.expire.0 == b.expire.0
        && a.minimum.0 == b.minimum.0
}

/// The fields of an SOA.
fn soa_in(rdata: &Data) -> Option<&SoaFields>
    ensures { option_copied result ≡ soa_in rdata.now }
{
    match rdata {
        Data::Soa(soa) => Some(soa.fields()),
        _ => None,
    }
}

/// Whether data agree but for the serial of an SOA.
fn same_data(a: &Data, b: &Data) -> bool
    ensures { result ≡ same_data a.now b.now }
{
    match soa_in(a) {
        Some(fields) => match soa_in(b) {
            Some(others) => same_fields(fields, others),
            None => false,
        },
        None => a == b,
    }
}

/// Whether records agree, TTLs included, but for the serial of an SOA.
fn same_but_serial(a: &Record, b: &Record) -> bool
    ensures { result ≡ same_but_serial a.now b.now }
{
    a.owner == b.owner && a.ttl.seconds() == b.ttl.seconds() && same_data(&a.rdata, &b.rdata)
}

/// Whether records agree, TTLs included.
fn same_whole(a: &Record, b: &Record) -> bool
    ensures { result ≡ same_whole a.now b.now }
{
    a.owner == b.owner && a.ttl.seconds() == b.ttl.seconds() && a.rdata == b.rdata
}

/// Whether rows agree but for the serials of SOA records.
pub(crate) fn all_but_serials(a: &[Record], b: &[Record]) -> bool
    ensures { result ≡ pointwise same_but_serial a.now b.now }
{
    match (a, b) {
        ([], []) => true,
        ([first, rest @ ..], [other, others @ ..]) => {
            same_but_serial(first, other) && all_but_serials(rest, others)
        }
        _ => false,
    }
}

/// Whether rows agree.
pub(crate) fn all_same(a: &[Record], b: &[Record]) -> bool
    ensures { result ≡ pointwise same_whole a.now b.now }
{
    match (a, b) {
        ([], []) => true,
        ([first, rest @ ..], [other, others @ ..]) => {
            same_whole(first, other) && all_same(rest, others)
        }
        _ => false,
    }
}

/// Whether answers are the same but for the serial of an SOA in the authority section.
pub(crate) fn same_answers(a: &Answer, b: &Answer) -> bool
    ensures { result ≡ same_answers (answer_of a.now) (answer_of b.now) }
{
    a.code.number() == b.code.number()
        && (if a.authoritative {
            b.authoritative
        } else {
            !b.authoritative
        })
        && all_same(&a.answer, &b.answer)
        && all_but_serials(&a.authority, &b.authority)
        && all_same(&a.additional, &b.additional)
}
