//! Records as they are found in a zone and appended to an answer.

ghost use Rattle.std.specs.Prelude.{◌≡◌, ◌∷◌, ◌++◌, [], IfOk, map};
ghost use Rattle.zone_core.specs.Sets.{listing};
ghost use Rattle.zone_answers.specs.Answers.{asked_at, answered_as, negative_ttl, as_negative};
ghost use Rattle.zone_answers.specs.AnswerTests.{is_there};

use crate::places::{Located, asked_in, locate};
use crate::query_type::QueryType;
use dns_data::{Data, Record, Ttl};
use dns_names::Name;
use std::alloc::{AllocError, Global};
use zone_core::Zone;

/// The records of a name that a question asks for, in record order.
pub(crate) fn asked_at<'a>(zone: &'a Zone, name: &Name, asked: QueryType) -> &'a [Record]
    ensures { result.now ≡ asked_at (listing zone.now.records) name.now asked }
{
    match locate(zone.records(), name.key()) {
        Located::Node(node) => asked_in(node, asked),
        Located::Between(_) => &[],
    }
}

/// Whether a name exists: a record is at it or below it (RFC 4592 section 2.2.2).
pub(crate) fn is_there(zone: &Zone, name: &Name) -> bool
    ensures { result ≡ is_there (listing zone.now.records) name.now }
{
    match locate(zone.records(), name.key()) {
        Located::Node(_) => true,
        Located::Between(_) => false,
    }
}

/// Appends a copy of a record as one of another owner. The only error is out of memory.
pub(crate) fn push_as(
    alloc: Global,
    rows: &mut Vec<Record>,
    owner: &Name,
    rr: &Record,
) -> Result<(), AllocError>
    ensures { IfOk result (λ _. rows.new.items ≡ rows.old.items ++ answered_as owner.now rr.now ∷ []) }
{
    rows.push(Record {
        owner: owner.try_copy(alloc)?,
        ttl: rr.ttl,
        rdata: rr.rdata.try_copy(alloc)?,
    })?;
    Ok(())
}

/// Appends copies of records as those of another owner. The only error is out of memory.
pub(crate) fn push_all_as(
    alloc: Global,
    rows: &mut Vec<Record>,
    owner: &Name,
    records: &[Record],
) -> Result<(), AllocError>
    ensures { IfOk result (λ _. rows.new.items ≡ rows.old.items ++ map (answered_as owner.now) records.now) }
{
    for record in records {
        push_as(alloc, rows, owner, record)?;
    }
    Ok(())
}

/// Appends a copy of a record. The only error is out of memory.
fn push_copy(alloc: Global, rows: &mut Vec<Record>, rr: &Record) -> Result<(), AllocError>
    ensures { IfOk result (λ _. rows.new.items ≡ rows.old.items ++ rr.now ∷ []) }
{
    rows.push(rr.try_copy(alloc)?)?;
    Ok(())
}

/// Appends copies of records. The only error is out of memory.
pub(crate) fn push_all(
    alloc: Global,
    rows: &mut Vec<Record>,
    records: &[Record],
) -> Result<(), AllocError>
    ensures { IfOk result (λ _. rows.new.items ≡ rows.old.items ++ records.now) }
{
    for record in records {
        push_copy(alloc, rows, record)?;
    }
    Ok(())
}

/// The TTL of an SOA in a negative answer: the least of its own and its MINIMUM (RFC 2308 section 5).
fn negative_ttl(ttl: Ttl, rdata: &Data) -> Ttl
    ensures { result ≡ negative_ttl ttl rdata.now }
{
    match rdata {
        Data::Soa(soa) => match Ttl::new(soa.fields().minimum.0) {
            Some(minimum) if minimum.seconds() < ttl.seconds() => minimum,
            _ => ttl,
        },
        _ => ttl,
    }
}

/// Appends a copy of an SOA with the TTL that it has in a negative answer. The only error is out of memory.
pub(crate) fn push_negative(
    alloc: Global,
    rows: &mut Vec<Record>,
    rr: &Record,
) -> Result<(), AllocError>
    ensures { IfOk result (λ _. rows.new.items ≡ rows.old.items ++ as_negative rr.now ∷ []) }
{
    rows.push(Record {
        owner: rr.owner.try_copy(alloc)?,
        ttl: negative_ttl(rr.ttl, &rr.rdata),
        rdata: rr.rdata.try_copy(alloc)?,
    })?;
    Ok(())
}
