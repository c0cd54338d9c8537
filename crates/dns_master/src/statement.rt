//! What an entry of a master file states.

ghost use Rattle.std.specs.Prelude.{◌≡◌, map, codes};
ghost use Rattle.std.specs.Option.{option_copied};
ghost use Rattle.std.specs.Str.{str_eq_ignore_ascii_case};
ghost use Rattle.dns_data.specs.Items.{item_of};
ghost use Rattle.dns_master.specs.EntryFaults.{Tells};
ghost use Rattle.dns_master.specs.Statements.{ttl_at, behind_of, is_directive, no_more, directive_of, origin_of, default_ttl_of, owner_of, behind_owner, record_of, statement_of};

use crate::entry_fault::EntryFault;
use crate::field::{read_lead, read_name, read_ttl, unquoted};
use dns_data::{Data, DataFault, Item, Ttl, read_data};
use dns_names::Name;
use std::alloc::Global;

/// A record as its entry states it: the owner and the TTL may be left to the entries before.
#[derive(Drop)]
pub(crate) struct StatedRecord {
    pub owner: Option<Name>,
    pub ttl: Option<Ttl>,
    pub rdata: Data,
}

/// What an entry states (RFC 1035 section 5.1, RFC 2308 section 4).
#[derive(Drop)]
pub(crate) enum Statement {
    /// `$ORIGIN`: names are relative to this one from here on.
    Origin(Name),
    /// `$TTL`: the TTL of records that state none.
    DefaultTtl(Ttl),
    /// A record.
    Record(StatedRecord),
}

/// The items of an entry, and whether it begins with white space.
#[derive(Clone, Copy)]
pub(crate) struct EntryItems<'a> {
    pub white: bool,
    pub items: &'a [Item<'a>],
}

/// Whether an item that stands first makes a directive: it is unquoted, and begins with `$`.
fn is_directive(item: Item) -> bool
    ensures { result ≡ is_directive (item_of item.entry) }
{
    match item.raw {
        [b'$', ..] => !item.quoted,
        _ => false,
    }
}

/// Refuses items that stand after a directive's own.
fn no_more(items: &[Item]) -> Result<(), EntryFault>
    ensures { Tells (λ _. tt) result (no_more (map item_of items.now)) }
{
    if items.is_empty() {
        Ok(())
    } else {
        Err(EntryFault::Data(DataFault::FieldExtra))
    }
}

/// The name after `$ORIGIN`, relative to the origin in force.
fn read_origin(alloc: Global, items: &[Item], origin: &Name) -> Result<Statement, EntryFault>
    ensures { Tells (λ s. s) result (origin_of origin.now (map item_of items.now)) }
{
    let [item, behind @ ..] = items else {
        return Err(EntryFault::EntryShort);
    };
    let name = read_name(alloc, *item, origin)?;
    no_more(behind)?;
    Ok(Statement::Origin(name))
}

/// The TTL of an item.
fn read_ttl_item(item: Item) -> Result<Ttl, EntryFault>
    ensures { Tells (λ ttl. ttl) result (ttl_at (item_of item.entry)) }
{
    read_ttl(unquoted(item)?)
}

/// The TTL after `$TTL`.
fn read_default_ttl(items: &[Item]) -> Result<Statement, EntryFault>
    ensures { Tells (λ s. s) result (default_ttl_of (map item_of items.now)) }
{
    let [item, behind @ ..] = items else {
        return Err(EntryFault::EntryShort);
    };
    let ttl = read_ttl_item(*item)?;
    no_more(behind)?;
    Ok(Statement::DefaultTtl(ttl))
}

/// A directive of this name, in either letter case, with the items after it.
fn read_directive(
    alloc: Global,
    name: &[u8],
    items: &[Item],
    origin: &Name,
) -> Result<Statement, EntryFault>
    ensures { Tells (λ s. s) result (directive_of origin.now name.now (map item_of items.now)) }
{
    if name.eq_ignore_ascii_case(b"$ORIGIN") {
        return read_origin(alloc, items, origin);
    }
    if name.eq_ignore_ascii_case(b"$TTL") {
        return read_default_ttl(items);
    }
    Err(EntryFault::DirectiveNotKept)
}

/// The owner that a record states: none where it begins with white space, and then one must be in force.
pub(crate) fn read_owner(
    alloc: Global,
    entry: EntryItems,
    origin: &Name,
    owner: Option<&Name>,
) -> Result<Option<Name>, EntryFault>
    ensures { Tells (λ own. own) result (owner_of origin.now (option_copied owner.entry) entry.entry.white (map item_of entry.entry.items.now)) }
{
    if entry.white {
        return match owner {
            Some(_) => Ok(None),
            None => Err(EntryFault::NoOwner),
        };
    }
    match entry.items {
        [] => Err(EntryFault::EntryShort),
        [item, ..] => Ok(Some(read_name(alloc, *item, origin)?)),
    }
}

/// The items after the owner.
pub(crate) fn behind_owner<'a>(entry: EntryItems<'a>) -> &'a [Item<'a>]
    ensures { map item_of result.now ≡ behind_owner entry.entry.white (map item_of entry.entry.items.now) }
{
    match entry.items {
        [_, behind @ ..] if !entry.white => behind,
        items => items,
    }
}

/// The TTL, if there is one, and the data of a record from the items after its owner.
fn read_behind(
    alloc: Global,
    items: &[Item],
    origin: &Name,
) -> Result<(Option<Ttl>, Data), EntryFault>
    ensures { Tells (λ x. x) result (behind_of origin.now (map item_of items.now)) }
{
    let lead = read_lead(items)?;
    let (_, items) = items.split_at(lead.len);
    let rdata = read_data(alloc, lead.record_type, items, Some(origin))?;
    Ok((lead.ttl, rdata))
}

/// A record as its entry states it.
fn read_record(
    alloc: Global,
    entry: EntryItems,
    origin: &Name,
    owner: Option<&Name>,
) -> Result<Statement, EntryFault>
    ensures { Tells (λ s. s) result (record_of origin.now (option_copied owner.entry) entry.entry.white (map item_of entry.entry.items.now)) }
{
    let owner = read_owner(alloc, entry, origin, owner)?;
    let (ttl, rdata) = read_behind(alloc, behind_owner(entry), origin)?;
    Ok(Statement::Record(StatedRecord { owner, ttl, rdata }))
}

/// What an entry states where this origin and this owner are in force, or the first refusal: no owner, then the leftmost item
/// at fault, then an item that is missing, then a fault of the data as a whole.
pub(crate) fn read_statement(
    alloc: Global,
    entry: EntryItems,
    origin: &Name,
    owner: Option<&Name>,
) -> Result<Statement, EntryFault>
    ensures { Tells (λ s. s) result (statement_of origin.now (option_copied owner.entry) entry.entry.white (map item_of entry.entry.items.now)) }
{
    match entry.items {
        [item, behind @ ..] if is_directive(*item) => {
            read_directive(alloc, item.raw, behind, origin)
        }
        _ => read_record(alloc, entry, origin, owner),
    }
}
