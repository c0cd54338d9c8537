//! Answers that differ, but for the serial of an SOA in the authority section.

ghost use Rattle.std.specs.Prelude.{◌≡◌, ◌≢◌, map};
ghost use Rattle.std.specs.Bool.{OnTrue};
ghost use Rattle.zone_answers.specs.AnswerChanges.{AreSame, but_serial};
ghost use Rattle.zone_answers.specs.Views.{answer_of};
ghost use Rattle.answer_reach.specs.Trials.{minimum_in};

use dns_data::{Data, Record, same_record};
use zone_answers::Answer;

/// Whether two records differ, TTLs included.
fn records_differ(a: &Record, b: &Record) -> bool
    ensures { OnTrue result (a.now ≢ b.now) }
{
    a.ttl.seconds() != b.ttl.seconds() || !same_record(a, b)
}

/// Whether two rows of records differ.
fn rows_differ(a: &[Record], b: &[Record]) -> bool
    ensures { OnTrue result (a.now ≢ b.now) }
{
    match (a, b) {
        ([], []) => false,
        ([first, rest @ ..], [other, others @ ..]) => {
            records_differ(first, other) || rows_differ(rest, others)
        }
        _ => true,
    }
}

/// The time for which negative answers are cached, of the data of an SOA (RFC 2308 section 5).
fn minimum_in(rdata: &Data) -> Option<u32>
    ensures { result ≡ minimum_in rdata.now }
{
    match rdata {
        Data::Soa(soa) => Some(soa.fields().minimum.0),
        _ => None,
    }
}

/// Whether two records differ in more than the serial of an SOA. Of two SOA only the time for which negative answers are cached counts.
fn differ_but_serial(a: &Record, b: &Record) -> bool
    ensures { OnTrue result (but_serial a.now ≢ but_serial b.now) }
{
    match (minimum_in(&a.rdata), minimum_in(&b.rdata)) {
        (None, None) => records_differ(a, b),
        (Some(minimum), Some(other)) => minimum != other,
        _ => true,
    }
}

/// Whether two rows of records differ so.
fn rows_differ_but_serial(a: &[Record], b: &[Record]) -> bool
    ensures { OnTrue result (map but_serial a.now ≢ map but_serial b.now) }
{
    match (a, b) {
        ([], []) => false,
        ([first, rest @ ..], [other, others @ ..]) => {
            differ_but_serial(first, other) || rows_differ_but_serial(rest, others)
        }
        _ => true,
    }
}

/// Whether two answers differ in more than the serial of an SOA in the authority section.
pub(crate) fn answers_differ(a: &Answer, b: &Answer) -> bool
    ensures { OnTrue result (¬ AreSame (answer_of a.now) (answer_of b.now)) }
{
    a.code.number() != b.code.number()
        || a.authoritative != b.authoritative
        || rows_differ(&a.answer, &b.answer)
        || rows_differ_but_serial(&a.authority, &b.authority)
        || rows_differ(&a.additional, &b.additional)
}
