//! What a caller sees of the changes of a zone.

ghost use Rattle.std.specs.Prelude.{◌≡◌, ◌+◌, ◌<◌, ◌≤◌, ◌++◌, [], ◌∷◌, true, Ok, Some, IfOk, OnOk, map, length, nat_le};
ghost use Rattle.std.specs.List.{filter};
ghost use Rattle.zone_core.specs.Changes.{change_in};
ghost use Rattle.office_model.specs.Replies.{numbered_of, seen_in};
ghost use Rattle.office_model.specs.States.{Held, State};
ghost use Rattle.office_model.specs.Tables.{ReadsOnly};
ghost use Rattle.office_core.specs.Machine.{unchanged, of_zone, changes_reply, if_some, listed, seen, seen_of, numbered};
ghost use Rattle.office_core.specs.Steps.{IsAnswer, Takes};
ghost use Rattle.office_core.specs.Bookmarks.{AreBookmarks, IsStart};
ghost use Rattle.office_core.specs.Seen.{IsNext, IsSeenBehind};

use crate::bookmark::{Bookmarks, Point};
use dns_data::Record;
use dns_names::Name;
use grant_policy::{Action, Grants, Identifier, Policy};
use office_model::{NumberedChange, Reading, Reply, SeenChange, TableFault, ZoneTable, included};
use std::alloc::{AllocError, Global};
use zone_core::Change;

/// Those of some records that a caller may list. The only error is out of memory.
fn listed(
    alloc: Global,
    grants: &mut Grants<'_>,
    records: Vec<Record>,
) -> Result<Vec<Record>, AllocError>
    requires { grants.old.action ≡ Action.List }
    ensures value { IfOk result (λ rs. rs.items ≡ listed grants.old.rules grants.old.caller records.items) }
    ensures same { grants.new ≡ grants.old }
{
    included(alloc, grants, records)
}

/// What a caller may list of a change. The only error is out of memory.
fn seen_of(alloc: Global, grants: &mut Grants<'_>, change: Change) -> Result<Change, AllocError>
    requires { grants.old.action ≡ Action.List }
    ensures value { IfOk result (λ c. change_in c ≡ seen_of grants.old.rules grants.old.caller (change_in change)) }
    ensures same { grants.new ≡ grants.old }
{
    Ok(Change {
        removed: listed(alloc, grants, change.removed)?,
        added: listed(alloc, grants, change.added)?,
    })
}

/// Appends what the caller sees of a change, if it sees some record of it. The only error is out of memory.
fn push_seen(
    alloc: Global,
    room: &mut String,
    all: &mut Vec<SeenChange>,
    grants: &mut Grants<'_>,
    change: Change,
) -> Result<(), AllocError>
    requires { grants.old.action ≡ Action.List }
    ensures value { OnOk result
        (map seen_in all.new.items ≡ map seen_in all.old.items ++ if_some (seen_of grants.old.rules grants.old.caller (change_in change))) }
    ensures same { grants.new ≡ grants.old }
{
    let seen = seen_of(alloc, grants, change)?;
    if !seen.is_empty() {
        all.push(SeenChange::of(alloc, room, &seen)?)?;
    }
    Ok(())
}

/// A count with more counted. Where a number of 32 bits cannot say it, it is as without memory.
fn counted(count: u32, more: usize) -> Result<u32, AllocError>
    ensures { IfOk result (λ sum. sum ≡ count + more) }
{
    let Ok(more) = u32::try_from(more) else {
        return Err(AllocError);
    };
    count.checked_add(more).ok_or(AllocError)
}

/// What a caller sees of the changes of a zone, and up to where they were read.
#[derive(Drop)]
struct Seen {
    /// How many changes of the zone come before the next one.
    read: u32,
    /// Of each the records that the caller may list; those of which it sees nothing are left out.
    changes: Vec<SeenChange>,
    /// The room in which lines are written.
    room: String,
}

impl Seen {
    /// Appends what the caller sees of the next changes.
    fn push(
        &mut self,
        alloc: Global,
        grants: &mut Grants<'_>,
        changes: Vec<Change>,
    ) -> Result<(), AllocError>
        requires { grants.old.action ≡ Action.List }
        ensures read { OnOk result (self.new.read ≡ self.old.read + length changes.items) }
        ensures fits { OnOk result (self.new.read ≤ 4294967295) }
        ensures changes { OnOk result
            (map seen_in self.new.changes.items
            ≡ map seen_in self.old.changes.items ++ seen grants.old.rules grants.old.caller (map change_in changes.items)) }
        ensures same { grants.new ≡ grants.old }
    {
        self.read = counted(self.read, changes.len())?;
        for change in changes {
            push_seen(alloc, &mut self.room, &mut self.changes, grants, change)?;
        }
        Ok(())
    }

    /// Reads the next changes of the zone of an origin, and tells whether there may be more after them, where there is the zone.
    fn read_next<T: ZoneTable>(
        &mut self,
        alloc: Global,
        table: &mut T,
        grants: &mut Grants<'_>,
        origin: &Name,
    ) -> Result<Option<bool>, TableFault>
        requires { grants.old.action ≡ Action.List }
        ensures answer { T.is_honest table.new
            → IfOk result (λ found. (s : State) → T.holds table.old s → IsNext grants.old (s.zones origin.now) self.old self.new found) }
        ensures further { result ≡ Ok (Some true) → self.old.read < self.new.read }
        ensures fits { result ≡ Ok (Some true) → self.new.read ≤ 4294967295 }
        ensures same { grants.new ≡ grants.old }
        ensures reads { ReadsOnly T.holds T.is_honest T.leaves T.failures table.old table.new result }
    {
        let ahead = table.ahead(origin, self.read, grants)?;
        let read = counted(self.read, ahead.hidden as usize)?;
        let most = ahead.shown.max(1);
        let Some(changes) = table.changes_behind(alloc, origin, read, most)? else {
            return Ok(None);
        };
        let is_full = changes.len() >= most as usize;
        self.read = read;
        self.push(alloc, grants, changes)?;
        Ok(Some(is_full))
    }
}

/// What a caller sees of the changes of the zone of an origin after the first ones, so many, where there is the zone. They are read in
/// pieces, and those of which the table knows that the caller sees nothing are not read at all.
fn seen_behind<T: ZoneTable>(
    alloc: Global,
    table: &mut T,
    grants: &mut Grants<'_>,
    origin: &Name,
    count: u32,
) -> Result<Option<Seen>, TableFault>
    requires { grants.old.action ≡ Action.List }
    ensures answer { T.is_honest table.new
        → IfOk result (λ found. (s : State) → T.holds table.old s → IsSeenBehind grants.old count (s.zones origin.now) found) }
    ensures reads { ReadsOnly T.holds T.is_honest T.leaves T.failures table.old table.new result }
{
    let mut seen = Seen {
        read: count,
        changes: Vec::new(alloc),
        room: String::new(alloc),
    };
    'pieces: loop {
        match seen.read_next(alloc, table, grants, origin)? {
            None => return Ok(None),
            Some(false) => return Ok(Some(seen)),
            Some(true) => {}
        }
    }
}

/// Appends a change with its number, if that is not below a least one. The only error is out of memory.
fn push_numbered(
    all: &mut Vec<NumberedChange>,
    from: u32,
    number: u64,
    change: SeenChange,
) -> Result<(), AllocError>
    ensures { OnOk result
        (map numbered_of all.new.items ≡ map numbered_of all.old.items ++ filter (λ c. nat_le from c.number) (numbered number (seen_in change ∷ []))) }
{
    let change = NumberedChange { number, change };
    if number >= u64::from(from) {
        all.push(change)?;
    }
    Ok(())
}

/// Changes with the numbers after one, of which those from a number on are left. The only error is out of memory.
fn numbered_from(
    alloc: Global,
    from: u32,
    behind: u32,
    changes: Vec<SeenChange>,
) -> Result<Vec<NumberedChange>, AllocError>
    ensures { IfOk result (λ all. map numbered_of all.items ≡ filter (λ c. nat_le from c.number) (numbered (behind + 1) (map seen_in changes.items))) }
{
    let mut all = Vec::new(alloc);
    let mut number = u64::from(behind);
    for change in changes {
        number += 1;
        push_numbered(&mut all, from, number, change)?;
    }
    Ok(all)
}

/// How many changes that a caller sees may be passed over from a point on, so that one with a number from one on is not.
fn most_passed(began: Point, from: u32) -> u32
    ensures { 0 < result → began.seen + result < from }
{
    from.saturating_sub(began.seen).saturating_sub(1)
}

/// A point from which on all changes with a number from one on are found: another such point, or one after it, as far as the table
/// remembers what the changes between them touch.
fn passed_on<T: ZoneTable>(
    table: &mut T,
    grants: &mut Grants<'_>,
    origin: &Name,
    began: Point,
    from: u32,
) -> Result<Point, TableFault>
    requires { grants.old.action ≡ Action.List }
    ensures start { T.is_honest table.new
        → IfOk result
        (λ point. (s : State) (held : Held) → T.holds table.old s → s.zones origin.now ≡ Some held
        → IsStart grants.old.rules grants.old.caller from held.changes began → IsStart grants.old.rules grants.old.caller from held.changes point) }
    ensures same { grants.new ≡ grants.old }
    ensures reads { ReadsOnly T.holds T.is_honest T.leaves T.failures table.old table.new result }
{
    let most = most_passed(began, from);
    if most == 0 {
        return Ok(began);
    }
    let passed = table.pass(origin, began.read, most, grants)?;
    Ok(began.past(passed))
}

/// What the caller sees of the changes of a zone, from a number on. Only the changes after its bookmark are read, if it has one that
/// is before that number, and of these only those after what the table passes over; and where they end is its bookmark from now on.
pub(crate) fn changes<T: ZoneTable>(
    alloc: Global,
    table: &mut T,
    policy: &Policy,
    bookmarks: &mut Bookmarks,
    caller: &Identifier,
    origin: &Name,
    from: u32,
) -> Result<Reply, TableFault>
    ensures takes { T.is_honest table.new → (s : State) → T.holds table.old s → AreBookmarks policy.now s bookmarks.old
        → Takes (T.holds table.new) s (unchanged s (of_zone (s.zones origin.now) (changes_reply policy.now caller.now from))) result }
    ensures bookmarks { T.is_honest table.new → (s : State) → T.holds table.old s → AreBookmarks policy.now s bookmarks.old
        → AreBookmarks policy.now s bookmarks.new }
    ensures answers { IfOk result IsAnswer }
    ensures reads { ReadsOnly T.holds T.is_honest T.leaves T.failures table.old table.new result }
{
    let began = bookmarks.start(caller, origin, from);
    let mut grants = Grants::new(alloc, policy, caller, Action::List);
    let began = passed_on(table, &mut grants, origin, began, from)?;
    let Some(seen) = seen_behind(alloc, table, &mut grants, origin, began.read)? else {
        return Ok(Reply::NotAuth);
    };
    let Seen { read, changes, .. } = seen;
    let ended = began.after(read, changes.len());
    let changes = numbered_from(alloc, from, began.seen, changes)?;
    bookmarks.keep(alloc, caller, origin, began, ended);
    Ok(Reply::Read(Reading::Changes(changes)))
}
