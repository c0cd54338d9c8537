//! Where callers have read the changes of zones.

ghost use Rattle.std.specs.Prelude.{◌≡◌, ◌⊎◌, ◌+◌, List, Some, not, IfOk, IfSome};
ghost use Rattle.std.specs.List.{filter};
ghost use Rattle.grant_policy.specs.declared.rule.Rule.{Rule};
ghost use Rattle.zone_core.specs.Changes.{ChangeOf};
ghost use Rattle.office_model.specs.States.{Held, State};
ghost use Rattle.office_core.specs.Bookmarks.{AreBookmarks, IsBookmark, IsPoint, IsStart, is_of};

use dns_names::Name;
use grant_policy::Identifier;
use office_model::Passed;
use std::alloc::{AllocError, Global};

/// A point in the changes of a zone, by what comes before it.
#[derive(Clone, Copy)]
pub(crate) struct Point {
    /// How many changes do.
    pub(crate) read: u32,
    /// How many of these the caller sees.
    pub(crate) seen: u32,
}

impl Point {
    /// The point before all changes.
    const START: Point = Point { read: 0, seen: 0 };

    /// The point up to which so many changes were read, and of those after this point so many are seen; `None` where a number of 32
    /// bits cannot say it.
    pub(crate) fn after(self, read: u32, seen: usize) -> Option<Point>
        ensures { IfSome result (λ point. (point.read ≡ read) × (point.seen ≡ self.seen + seen)) }
    {
        let seen = self.seen.checked_add(u32::try_from(seen).ok()?)?;
        Some(Point { read, seen })
    }

    /// The point past changes that were passed over; this one, where numbers of 32 bits cannot say it.
    pub(crate) fn past(self, passed: Passed) -> Point
        ensures { ((result.read ≡ self.read + passed.read) × (result.seen ≡ self.seen + passed.seen)) ⊎ (result ≡ self) }
    {
        let read = self.read.checked_add(passed.read);
        let seen = self.seen.checked_add(passed.seen);
        match (read, seen) {
            (Some(read), Some(seen)) => Point { read, seen },
            _ => self,
        }
    }
}

/// Up to where a caller has read the changes of a zone: where it began to read the last time, and where it ended.
#[derive(Drop)]
struct Bookmark {
    caller: Identifier,
    origin: Name,
    began: Point,
    ended: Point,
}

impl Bookmark {
    /// Whether it is a caller's in the zone of an origin.
    fn is_of(&self, caller: &Identifier, origin: &Name) -> bool
        ensures { result ≡ is_of caller.now origin.now self.now }
    {
        self.caller.as_bytes() == caller.as_bytes() && self.origin == *origin
    }

    /// The last of its points from which on all changes with a number from one on are found; else the point before all.
    fn start(&self, from: u32) -> Point
        ensures { (rules : List Rule) (cs : List ChangeOf) → IsPoint rules self.now.caller cs self.now.began
            → IsPoint rules self.now.caller cs self.now.ended → IsStart rules self.now.caller from cs result }
    {
        if self.ended.seen < from {
            self.ended
        } else if self.began.seen < from {
            self.began
        } else {
            Point::START
        }
    }
}

/// Up to where callers have read the changes of zones, so that who asks again pays for those after. At most 1,024 are kept: one more
/// takes the place of all.
#[derive(Drop)]
pub struct Bookmarks {
    rows: Vec<Bookmark>,
}

/// Whether two bookmarks are not of one caller and zone.
fn is_other(bookmark: &Bookmark, other: &Bookmark) -> bool
    ensures { result ≡ not (is_of other.now.caller other.now.origin bookmark.now) }
{
    !bookmark.is_of(&other.caller, &other.origin)
}

impl Bookmarks {
    /// The most bookmarks that are kept.
    const MOST: usize = 1024;

    /// No bookmarks. They are right of whatever is held.
    pub fn new(alloc: Global) -> Bookmarks
        ensures { (rules : _) (s : State) → AreBookmarks rules s result }
    {
        Bookmarks {
            rows: Vec::new(alloc),
        }
    }

    /// A point from which on all changes are found that a caller sees in the zone of an origin with a number from one on.
    pub(crate) fn start(&self, caller: &Identifier, origin: &Name, from: u32) -> Point
        ensures { (rules : List Rule) (s : State) (held : Held) → AreBookmarks rules s self.now → s.zones origin.now ≡ Some held
            → IsStart rules caller.now from held.changes result }
    {
        for bookmark in &self.rows {
            if bookmark.is_of(caller, origin) {
                return bookmark.start(from);
            }
        }
        Point::START
    }

    /// Keeps where a caller began and ended to read the changes of the zone of an origin. Where memory runs out it is not kept.
    pub(crate) fn keep(
        &mut self,
        alloc: Global,
        caller: &Identifier,
        origin: &Name,
        began: Point,
        ended: Option<Point>,
    )
        ensures { (rules : List Rule) (s : State) → AreBookmarks rules s self.old
            →
            ((held : Held) → s.zones origin.now ≡ Some held
            → IsPoint rules caller.now held.changes began × IfSome ended (λ point. IsPoint rules caller.now held.changes point))
            → AreBookmarks rules s self.new }
    {
        let Some(ended) = ended else {
            return;
        };
        let Ok(bookmark) = bookmark_of(alloc, caller, origin, began, ended) else {
            return;
        };
        self.put(bookmark);
    }

    /// Takes the bookmark of the same caller and zone away.
    fn take(&mut self, bookmark: &Bookmark)
        ensures { self.new.rows.items ≡ filter (λ row. not (is_of bookmark.now.caller bookmark.now.origin row)) self.old.rows.items }
    {
        self.rows.retain(|row| is_other(row, bookmark));
    }

    /// Makes room for one more.
    fn make_room(&mut self)
        ensures { (rules : List Rule) (s : State) → AreBookmarks rules s self.old → AreBookmarks rules s self.new }
    {
        if self.rows.len() >= Bookmarks::MOST {
            self.rows.clear();
        }
    }

    /// Puts a bookmark in the place of the one of its caller and zone. Where memory runs out it is not kept.
    fn put(&mut self, bookmark: Bookmark)
        ensures { (rules : List Rule) (s : State) → AreBookmarks rules s self.old → IsBookmark rules s bookmark → AreBookmarks rules s self.new }
    {
        self.take(&bookmark);
        self.make_room();
        let _ = self.rows.push(bookmark);
    }
}

/// A caller's bookmark in the zone of an origin. The only error is out of memory.
fn bookmark_of(
    alloc: Global,
    caller: &Identifier,
    origin: &Name,
    began: Point,
    ended: Point,
) -> Result<Bookmark, AllocError>
    ensures { IfOk result (λ bookmark. (bookmark.caller ≡ caller.now) × (bookmark.origin ≡ origin.now) × (bookmark.began ≡ began) × (bookmark.ended ≡ ended)) }
{
    Ok(Bookmark {
        caller: caller.try_copy(alloc)?,
        origin: origin.try_copy(alloc)?,
        began,
        ended,
    })
}
