//! The zones of a store, as text.

ghost use Rattle.std.specs.Prelude.{◌≡◌, ◌++◌, ◌+◌, ◌<◌, ◌^◌, ℕ, List, length, Some, None, if◌then◌else◌, option_map, unwrap_or, is_some, is_none, IfOk, IfSome, OnOk, string_bytes};
ghost use Rattle.std.specs.List.{filter, flat_map};
ghost use Rattle.std.specs.BTreeMap.{get};
ghost use Rattle.dns_names.specs.Order.{canonical_cmp, same_name};
ghost use Rattle.cli_store.specs.ZoneList.{is_listed, receipts_of, zone_line, elsewhere_line, zones_text};

use dns_names::Name;
use std::alloc::{AllocError, Global};
use std::collections::BTreeMap;
use std::fmt::Write as _;
use store_rows::KeptReceipt;

/// What there is of a zone of a store.
#[derive(Drop)]
pub struct ZoneSummary {
    /// The origin of the zone.
    pub origin: Name,
    /// The serial of its SOA.
    pub serial: u32,
    /// How many records it has.
    pub records: usize,
    /// How many changes were made of it.
    pub changes: usize,
}

/// How many receipts there are of updates of each origin.
type Counts = BTreeMap<Name, usize>;

/// No receipts of updates of each of the zones. The only error is out of memory.
fn no_receipts(alloc: Global, zones: &[ZoneSummary]) -> Result<Counts, AllocError>
    ensures { IfOk result (λ counts. (origin : List (List ℕ)) → get canonical_cmp counts origin ≡ (if is_listed zones.now origin then Some 0 else None)) }
{
    let mut counts = BTreeMap::new(alloc);
    for zone in zones {
        counts.insert(zone.origin.try_copy(alloc)?, 0)?;
    }
    Ok(counts)
}

/// Counts one more receipt of an origin, if the origin is there, and returns whether it is.
fn count_one(counts: &mut Counts, origin: &Name) -> bool
    requires { IfSome (get canonical_cmp counts.old origin.now) (λ n. n + 1 < 2 ^ 64) }
    ensures counts { (other : List (List ℕ))
        → get canonical_cmp counts.new other ≡ option_map (λ n. n + (if same_name origin.now other then 1 else 0)) (get canonical_cmp counts.old other) }
    ensures found { result ≡ is_some (get canonical_cmp counts.old origin.now) }
{
    match counts.get_mut(origin) {
        Some(count) => {
            *count += 1;
            true
        }
        None => false,
    }
}

/// Counts receipts by the origins that are there, and returns how many are of others.
fn count(counts: &mut Counts, all: &[KeptReceipt]) -> usize
    requires { (origin : List (List ℕ)) → IfSome (get canonical_cmp counts.old origin) (λ n. n ≡ 0) }
    ensures counts { (origin : List (List ℕ))
        → get canonical_cmp counts.new origin ≡ option_map (λ n. receipts_of all.now origin) (get canonical_cmp counts.old origin) }
    ensures others { result ≡ length (filter (λ k. is_none (get canonical_cmp counts.old k.receipt.origin)) all.now) }
{
    let mut others = 0;
    for kept in all {
        if !count_one(counts, &kept.receipt.origin) {
            others += 1;
        }
    }
    others
}

/// Appends the line of a zone. The only error is out of memory.
fn push_zone(text: &mut String, zone: &ZoneSummary, receipts: usize) -> Result<(), AllocError>
    ensures { OnOk result (string_bytes text.new ≡ string_bytes text.old ++ zone_line zone.now receipts) }
{
    let origin = &zone.origin;
    let serial = zone.serial;
    let records = zone.records;
    let changes = zone.changes;
    writeln!(
        text,
        "{origin} serial {serial} records {records} changes {changes} receipts {receipts}"
    )
}

/// Appends the lines of zones. The only error is out of memory.
fn push_zones(text: &mut String, zones: &[ZoneSummary], counts: &Counts) -> Result<(), AllocError>
    ensures { OnOk result
        (string_bytes text.new ≡ string_bytes text.old ++ flat_map (λ z. zone_line z (unwrap_or (get canonical_cmp counts.now z.origin) 0)) zones.now) }
{
    for zone in zones {
        let receipts = counts.get(&zone.origin).copied().unwrap_or(0);
        push_zone(text, zone, receipts)?;
    }
    Ok(())
}

/// Appends the line of the receipts of other origins, if there are some. The only error is out of memory.
fn push_elsewhere(text: &mut String, receipts: usize) -> Result<(), AllocError>
    ensures { OnOk result (string_bytes text.new ≡ string_bytes text.old ++ elsewhere_line receipts) }
{
    if receipts == 0 {
        return Ok(());
    }
    writeln!(text, "elsewhere receipts {receipts}")
}

/// The zones of a store: of each, in the order in which they come, a line `ORIGIN serial S records R changes C receipts N`, where N is how
/// many receipts there are of updates of this origin; and after them, if there are receipts of other origins, a line
/// `elsewhere receipts N`. The only error is out of memory.
pub fn zones_text(
    alloc: Global,
    zones: &[ZoneSummary],
    kept: &[KeptReceipt],
) -> Result<String, AllocError>
    ensures { IfOk result (λ text. string_bytes text ≡ zones_text zones.now kept.now) }
{
    let mut counts = no_receipts(alloc, zones)?;
    let others = count(&mut counts, kept);
    let mut text = String::new(alloc);
    push_zones(&mut text, zones, &counts)?;
    push_elsewhere(&mut text, others)?;
    Ok(text)
}
