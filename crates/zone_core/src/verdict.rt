//! Whether the prerequisites of an update hold (RFC 2136 section 3.2).

ghost use Rattle.std.specs.Prelude.{◌≡◌, ◌↔◌, Ok, None};
ghost use Rattle.std.specs.Option.{option_copied, option_to_list};
ghost use Rattle.std.specs.List.{AllByRecursion, list_any, list_all, flat_map};
ghost use Rattle.zone_core.specs.Sets.{set_of, part, at, InOrder};
ghost use Rattle.zone_core.specs.Met.{AreMet};
ghost use Rattle.zone_core.specs.Prerequisites.{fails, set_fails, same_data, given_for, is_of_set, are_of_one_set, are_data, first_failed, verdict, failure};

use crate::prerequisite_code::PrerequisiteCode;
use crate::rows::{has_name, has_set, of_set, same_data};
use crate::update::{Prerequisite, Update};
use crate::zone::Zone;
use dns_data::{Data, Record, RecordType};
use dns_names::Name;

/// A prerequisite that does not hold: its code, and the item's number among the prerequisites, from 0.
#[derive(Clone, Copy, PartialEq, Eq)]
pub struct Failed {
    /// The code with which it fails.
    pub code: PrerequisiteCode,
    /// The number of the item among the prerequisites, from 0.
    pub item: usize,
}

/// Whether the prerequisites of an update hold in a zone, or the first that does not: tests by themselves in their order,
/// and then sets that are given whole, each named by its first item (RFC 2136 section 3.2). A name outside the zone has no
/// records in it: `Update::outside` tells of such names.
pub fn holds(zone: &Zone, update: &Update) -> Result<(), Failed>
    // All hold exactly where all are met.
    ensures met { (result ≡ Ok tt) ↔ AreMet zone.now.records update.now.prerequisites }
    // Else which one fails, and how.
    ensures exact { failure result ≡ verdict zone.now.records update.now.prerequisites }
{
    verdict(zone.records(), update.prerequisites())
}

/// The first prerequisite that does not hold among records.
fn verdict(records: &[Record], prerequisites: &[Prerequisite]) -> Result<(), Failed>
    requires { InOrder records.now }
    ensures { failure result ≡ verdict (set_of records.now) prerequisites.now }
{
    if let Some(failed) = first_failed(records, prerequisites) {
        return Err(failed);
    }
    match first_set_failed(records, prerequisites) {
        Some(failed) => Err(failed),
        None => Ok(()),
    }
}

/// The first test by itself that fails.
fn first_failed(records: &[Record], prerequisites: &[Prerequisite]) -> Option<Failed>
    requires { InOrder records.now }
    ensures { result ≡ first_failed (fails (set_of records.now)) 0 prerequisites.now }
{
    for (item, prerequisite) in prerequisites.iter().enumerate() {
        if let Some(code) = fails(records, prerequisite) {
            return Some(Failed { code, item });
        }
    }
    None
}

/// The code with which a test by itself fails.
fn fails(records: &[Record], prerequisite: &Prerequisite) -> Option<PrerequisiteCode>
    requires { InOrder records.now }
    ensures { result ≡ fails (set_of records.now) prerequisite.now }
{
    match prerequisite {
        Prerequisite::RrsetExists { name, record_type } if !has_set(records, name, *record_type) =>
            { Some(PrerequisiteCode::NxRrset) }
        Prerequisite::RrsetAbsent { name, record_type } if has_set(records, name, *record_type) => {
            Some(PrerequisiteCode::YxRrset)
        }
        Prerequisite::NameUsed(name) if !has_name(records, name) => Some(
            PrerequisiteCode::NxDomain,
        ),
        Prerequisite::NameUnused(name) if has_name(records, name) => Some(
            PrerequisiteCode::YxDomain,
        ),
        _ => None,
    }
}

/// The first item whose set is given whole and is another.
fn first_set_failed(records: &[Record], prerequisites: &[Prerequisite]) -> Option<Failed>
    requires { InOrder records.now }
    ensures { result ≡ first_failed (set_fails (set_of records.now) prerequisites.now) 0 prerequisites.now }
{
    for (item, prerequisite) in prerequisites.iter().enumerate() {
        let earlier = &prerequisites[..item];
        if let Some(code) = next_set_fails(records, prerequisites, earlier, prerequisite) {
            return Some(Failed { code, item });
        }
    }
    None
}

/// Whether a test gives a set whole, of a name and a type.
fn is_of_set(test: &Prerequisite, name: &Name, record_type: RecordType) -> bool
    ensures { result ≡ is_of_set name.now record_type test.now }
{
    match test {
        Prerequisite::RrsetEquals { name: given, rdata } => {
            given == name && rdata.record_type().rank() == record_type.rank()
        }
        _ => false,
    }
}

/// Whether a test gives the same set whole as another.
fn are_of_one_set(test: &Prerequisite, other: &Prerequisite) -> bool
    ensures { result ≡ are_of_one_set test.now other.now }
{
    match other {
        Prerequisite::RrsetEquals { name, rdata } => is_of_set(test, name, rdata.record_type()),
        _ => false,
    }
}

/// Whether one of some tests gives the same set whole as another test does.
fn is_tested(tests: &[Prerequisite], prerequisite: &Prerequisite) -> bool
    ensures { result ≡ list_any (λ p. are_of_one_set p prerequisite.now) tests.now }
{
    tests.iter().any(|test| are_of_one_set(test, prerequisite))
}

/// The code with which a set that is given whole fails, where no earlier one does. All tests of one set fail or hold together, so a
/// set is compared once.
fn next_set_fails(
    records: &[Record],
    all: &[Prerequisite],
    earlier: &[Prerequisite],
    prerequisite: &Prerequisite,
) -> Option<PrerequisiteCode>
    requires order { InOrder records.now }
    requires earlier { AllByRecursion (λ p. set_fails (set_of records.now) all.now p ≡ None) earlier.now }
    ensures { result ≡ set_fails (set_of records.now) all.now prerequisite.now }
{
    if is_tested(earlier, prerequisite) {
        return None;
    }
    set_fails(records, all, prerequisite)
}

/// The code with which a set that is given whole fails.
fn set_fails(
    records: &[Record],
    all: &[Prerequisite],
    prerequisite: &Prerequisite,
) -> Option<PrerequisiteCode>
    requires { InOrder records.now }
    ensures { result ≡ set_fails (set_of records.now) all.now prerequisite.now }
{
    match prerequisite {
        Prerequisite::RrsetEquals { name, rdata }
            if !is_given_whole(records, name, rdata.record_type(), all) => {
            Some(PrerequisiteCode::NxRrset)
        }
        _ => None,
    }
}

/// Whether the data of a record set are those that are given for it.
fn is_given_whole(
    records: &[Record],
    name: &Name,
    record_type: RecordType,
    all: &[Prerequisite],
) -> bool
    requires { InOrder records.now }
    ensures { result ≡ are_data (part (set_of records.now) (at name.now record_type)) (flat_map (given_for name.now record_type) all.now) }
{
    let set = of_set(records, name, record_type);
    // a set with more data than an update can give fails the first test, so the second seeks in few
    all_given(set, name, record_type, all) && all_there(all, name, record_type, set)
}

/// Whether the data of each record are given for a name and a type.
fn all_given(set: &[Record], name: &Name, record_type: RecordType, all: &[Prerequisite]) -> bool
    ensures { result ≡ list_all (λ r. list_any (λ p. list_any (same_data r.rdata) (given_for name.now record_type p)) all.now) set.now }
{
    set.iter()
        .all(|record| is_given(&record.rdata, name, record_type, all))
}

/// Whether data are given for a name and a type.
fn is_given(rdata: &Data, name: &Name, record_type: RecordType, all: &[Prerequisite]) -> bool
    ensures { result ≡ list_any (λ p. list_any (same_data rdata.now) (given_for name.now record_type p)) all.now }
{
    all.iter().any(|prerequisite| gives(prerequisite, name, record_type, rdata))
}

/// The data that a test gives for a name and a type.
fn given_for<'a>(
    prerequisite: &'a Prerequisite,
    name: &Name,
    record_type: RecordType,
) -> Option<&'a Data>
    ensures { option_to_list (option_copied result) ≡ given_for name.now record_type prerequisite.now }
{
    match prerequisite {
        Prerequisite::RrsetEquals { name: given, rdata }
            if given == name && rdata.record_type().rank() == record_type.rank() => { Some(rdata) }
        _ => None,
    }
}

/// Whether a test gives these data for a name and a type.
fn gives(prerequisite: &Prerequisite, name: &Name, record_type: RecordType, rdata: &Data) -> bool
    ensures { result ≡ list_any (same_data rdata.now) (given_for name.now record_type prerequisite.now) }
{
    match given_for(prerequisite, name, record_type) {
        Some(given) => same_data(rdata, given),
        None => false,
    }
}

/// Whether all data that are given for a name and a type are those of records.
fn all_there(all: &[Prerequisite], name: &Name, record_type: RecordType, set: &[Record]) -> bool
    ensures { result ≡ list_all (λ p. list_all (λ d. list_any (λ r. same_data d r.rdata) set.now) (given_for name.now record_type p)) all.now }
{
    all.iter().all(|prerequisite| is_there(prerequisite, name, record_type, set))
}

/// Whether what a test gives for a name and a type are data of a record.
fn is_there(
    prerequisite: &Prerequisite,
    name: &Name,
    record_type: RecordType,
    set: &[Record],
) -> bool
    ensures { result ≡ list_all (λ d. list_any (λ r. same_data d r.rdata) set.now) (given_for name.now record_type prerequisite.now) }
{
    match given_for(prerequisite, name, record_type) {
        Some(given) => is_datum(given, set),
        None => true,
    }
}

/// Whether data are those of a record.
fn is_datum(rdata: &Data, set: &[Record]) -> bool
    ensures { result ≡ list_any (λ r. same_data rdata.now r.rdata) set.now }
{
    set.iter().any(|record| same_data(rdata, &record.rdata))
}
