//! A record of a type that is not kept, as its entry states it.

ghost use Rattle.std.specs.Prelude.{◌≡◌, ◌<◌, ◌==◌, ◌&&◌, ℕ, Option, length, map, not, None, false, IfOk};
ghost use Rattle.std.specs.List.{list_any};
ghost use Rattle.dns_data.specs.Items.{item_of};
ghost use Rattle.dns_master.specs.Grammar.{taken_behind};
ghost use Rattle.dns_master.specs.EntryFaults.{Tells};
ghost use Rattle.dns_master.specs.Fields.{part_of};
ghost use Rattle.dns_master.specs.AnyRecords.{is_not_kept, other_part, other_lead_of, whole_lead};
ghost use Rattle.dns_master.specs.PartViews.{lead_with, lead_view};

use crate::entry_fault::EntryFault;
use crate::field::{Part, TtlAndClass, next_part};
use crate::other_type::is_other_type;
use dns_data::{DataFault, Item, Ttl};
use dns_names::NameFault;

/// Whether an entry is refused for its type.
pub(crate) fn is_not_kept(fault: EntryFault) -> bool
    ensures { result ≡ is_not_kept fault }
{
    match fault {
        EntryFault::Data(data) => matches!(data, DataFault::TypeNotKept),
        _ => false,
    }
}

/// An item before the data.
#[derive(Clone, Copy)]
pub(crate) enum OtherPart {
    /// A TTL or the class, with which this was read.
    More(TtlAndClass),
    /// The word for a type that is not kept, and the TTL that was read before it.
    Kind(Option<Ttl>),
}

/// What the next item is.
fn next_other(read: TtlAndClass, item: Item) -> Result<OtherPart, EntryFault>
    ensures { Tells (λ part. part) result (other_part read.ttl (part_of read (item_of item.entry))) }
{
    let ttl = read.ttl;
    match next_part(read, item) {
        Ok(Part::More(next)) => Ok(OtherPart::More(next)),
        Ok(Part::Type { .. }) => Err(EntryFault::Data(DataFault::TypeNotKept)),
        Err(fault) => {
            if is_not_kept(fault) {
                Ok(OtherPart::Kind(ttl))
            } else {
                Err(fault)
            }
        }
    }
}

/// The TTL, and how many items stand before the type.
#[derive(Clone, Copy)]
pub(crate) struct OtherLead {
    pub ttl: Option<Ttl>,
    pub before: usize,
}

/// TTL and class, each at most once and in either order, and then a type that is not kept.
pub(crate) fn read_other_lead(items: &[Item]) -> Result<OtherLead, EntryFault>
    ensures within { IfOk result (λ lead. lead.before < length items.now) }
    ensures exact { Tells (lead_view (map item_of items.now)) result (other_lead_of (record { ttl = None; has_class = false }) (map item_of items.now)) }
{
    let mut read = TtlAndClass {
        ttl: None,
        has_class: false,
    };
    for (i, item) in items.iter().enumerate() {
        match next_other(read, *item)? {
            OtherPart::More(next) => read = next,
            OtherPart::Kind(ttl) => return Ok(OtherLead { ttl, before: i }),
        }
    }
    Err(EntryFault::EntryShort)
}

/// Whether a backslash takes the octet after this one.
fn takes_next(taken: bool, octet: u8) -> bool
    ensures { result ≡ (not taken && octet == 92) }
{
    !taken && octet == b'\\'
}

/// Whether octets end with a backslash that takes nothing.
fn ends_open(raw: &[u8]) -> bool
    ensures { result ≡ taken_behind false raw.now }
{
    let mut taken = false;
    for octet in raw {
        taken = takes_next(taken, *octet);
    }
    taken
}

/// Whether an item ends so.
fn one_ends_open(items: &[Item]) -> bool
    ensures { result ≡ list_any (λ item. taken_behind false item.raw.now) items.now }
{
    items.iter().any(|item| ends_open(item.raw))
}

/// Refuses a word that can stand for no other type, and an item of the data that ends with a backslash that takes nothing, as
/// one may at the end of the text.
pub(crate) fn check_data(kind: &[u8], fields: &[Item]) -> Result<(), EntryFault>
    ensures { (ttl : Option ℕ) → Tells (λ _. lead_with ttl kind.now (map item_of fields.now)) result (whole_lead (lead_with ttl kind.now (map item_of fields.now))) }
{
    if is_other_type(kind) {
        if one_ends_open(fields) {
            return Err(EntryFault::Data(DataFault::Name(NameFault::BadEscape)));
        }
        return Ok(());
    }
    Err(EntryFault::Data(DataFault::TypeNotKept))
}
