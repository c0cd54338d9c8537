//! What the changes of a zone touch, as far as they were read. A change stays as it was made, so it need not be read again for who sees
//! nothing of it.

ghost use Rattle.std.specs.Prelude.{◌≡◌, ◌+◌, ◌++◌, ◌∷◌, ◌≤◌, ◌&&◌, ℕ, List, [], Some, true, not, IfOk, OnOk, OnErr, IsTrue, length, map, take, drop};
ghost use Rattle.std.specs.List.{filter, list_all};
ghost use Rattle.dns_data.specs.Rdata.{type_of};
ghost use Rattle.grant_policy.specs.Grants.{GrantsOf, includes};
ghost use Rattle.zone_core.specs.Changes.{ChangeOf, change_in};
ghost use Rattle.office_model.specs.States.{Held, State};
ghost use Rattle.office_model.specs.Tables.{ArePassed};
ghost use Rattle.store_cache.specs.History.{AreTouched, Covers, HasAlso, KnowsAll, Remembers, are_hidden, hides_each, includes_none, leaves_out, without_records};

use crate::shelf::OfZone;
use dns_data::{Record, RecordType};
use dns_names::Name;
use grant_policy::Grants;
use office_model::{Ahead, Passed};
use std::alloc::{AllocError, Global};
use zone_core::Change;

/// The most changes that are remembered and read at once. What others touch is remembered between the pieces in which they are read, so
/// that small pieces leave the memory that was free after them in as many places.
const PIECE: usize = 4096;

/// The most records of the changes that are read at once, unless one change has more: a row takes some 440 octets while it is read.
const RECORDS: usize = 8192;

/// How many changes are read at once of which nothing is remembered: each may have any number of records.
const UNKNOWN: u32 = 4;

/// What is said where nothing is known.
fn unknown() -> Ahead
    ensures { result.hidden ≡ 0 }
{
    Ahead {
        hidden: 0,
        shown: UNKNOWN,
    }
}

/// Whether two types are one.
fn is_type(first: RecordType, second: RecordType) -> bool
    ensures { result ≡ true → first ≡ second }
{
    first.number() == second.number()
}

/// The owner and the type of a record.
#[derive(Drop)]
struct Point {
    owner: Name,
    record_type: RecordType,
}

impl Point {
    /// Whether it is that of a record.
    fn is_of(&self, rr: &Record) -> bool
        ensures { result ≡ true → (self.now.owner ≡ rr.now.owner) × (self.now.record_type ≡ type_of rr.now.rdata) }
    {
        is_type(self.record_type, rr.record_type()) && self.owner == rr.owner
    }
}

/// Up to how many owners and types take no more memory than they need. Most changes touch one or two.
const FEW: usize = 4;

/// Makes room for one more, and for no other where there are few. The only error is out of memory.
fn reserve_one(points: &mut Vec<Point>) -> Result<(), AllocError>
    ensures { points.new.items ≡ points.old.items }
{
    if points.len() < FEW {
        points.reserve_exact(1)?;
    }
    Ok(())
}

/// Appends the owner and the type of a record, if they are not like the last ones. The only error is out of memory.
fn push_point(alloc: Global, points: &mut Vec<Point>, rr: &Record) -> Result<(), AllocError>
    ensures { OnOk result
        ((grants : GrantsOf)
        → includes_none grants points.new.items ≡ (includes_none grants points.old.items && not (includes grants rr.now.owner (type_of rr.now.rdata)))) }
{
    if let Some(last) = points.last() {
        if last.is_of(rr) {
            return Ok(());
        }
    }
    let owner = rr.owner.try_copy(alloc)?;
    let record_type = rr.record_type();
    reserve_one(points)?;
    points.push(Point { owner, record_type })?;
    Ok(())
}

/// What a change touches: whether its zone's SOA, and the owners and types of its other records.
#[derive(Drop)]
struct Touched {
    soa: bool,
    points: Vec<Point>,
    /// How many records it has, with the SOA.
    records: usize,
}

impl Touched {
    /// Nothing yet.
    fn new(alloc: Global) -> Touched
        ensures { (grants : GrantsOf) (origin : List (List ℕ)) → leaves_out grants origin result ≡ true }
    {
        Touched {
            soa: false,
            points: Vec::new(alloc),
            records: 0,
        }
    }

    /// Notes one more record of a change of the zone of an origin. The only error is out of memory.
    fn note(&mut self, alloc: Global, origin: &Name, rr: &Record) -> Result<(), AllocError>
        ensures { OnOk result
            ((grants : GrantsOf)
            → leaves_out grants origin.now self.new
            ≡ (leaves_out grants origin.now self.old && not (includes grants rr.now.owner (type_of rr.now.rdata)))) }
    {
        self.records = self.records.saturating_add(1);
        if is_type(rr.record_type(), RecordType::Soa) && rr.owner == *origin {
            self.soa = true;
            return Ok(());
        }
        push_point(alloc, &mut self.points, rr)
    }

    /// Notes records of a change of the zone of an origin. The only error is out of memory.
    fn note_each(
        &mut self,
        alloc: Global,
        origin: &Name,
        records: &[Record],
    ) -> Result<(), AllocError>
        ensures { OnOk result
            ((grants : GrantsOf)
            → leaves_out grants origin.now self.new ≡ (leaves_out grants origin.now self.old && hides_each grants records.now)) }
    {
        for record in records {
            self.note(alloc, origin, record)?;
        }
        Ok(())
    }

    /// What a change of the zone of an origin touches. The only error is out of memory.
    fn of(alloc: Global, origin: &Name, change: &Change) -> Result<Touched, AllocError>
        ensures { IfOk result (λ touched. Covers origin.now touched (change_in change.now)) }
    {
        let mut touched = Touched::new(alloc);
        touched.note_each(alloc, origin, &change.removed)?;
        touched.note_each(alloc, origin, &change.added)?;
        Ok(touched)
    }

    /// Whether grants, which include the SOA of the zone of an origin or not, leave out all of it.
    fn is_hidden(&self, sees_soa: bool, grants: &mut Grants<'_>) -> bool
        ensures value { result ≡ (not (self.now.soa && sees_soa) && includes_none grants.old self.now.points.items) }
        ensures same { grants.new ≡ grants.old }
    {
        if self.soa && sees_soa {
            return false;
        }
        for point in &self.points {
            if grants.include(&point.owner, point.record_type) {
                return false;
            }
        }
        true
    }
}

/// How many of some changes come before the first of which grants include something.
fn first_hidden(changes: &[Touched], sees_soa: bool, grants: &mut Grants<'_>) -> usize
    ensures there { result ≤ length changes.now }
    ensures hidden { IsTrue (list_all (λ t. not (t.soa && sees_soa) && includes_none grants.old t.points.items) (take result changes.now)) }
    ensures same { grants.new ≡ grants.old }
{
    let mut count = 0;
    for touched in changes {
        if !touched.is_hidden(sees_soa, grants) {
            return count;
        }
        count += 1;
    }
    count
}

/// The first of some changes, up to the first of which grants include something after so many of such.
fn passed_of(changes: &[Touched], most: u32, sees_soa: bool, grants: &mut Grants<'_>) -> Passed
    ensures there { result.read ≤ length changes.now }
    ensures seen { result.seen
        ≡ length (filter (λ t. not (not (t.soa && sees_soa) && includes_none grants.old t.points.items)) (take result.read changes.now)) }
    ensures few { result.seen ≤ most }
    ensures same { grants.new ≡ grants.old }
{
    let mut passed = Passed::NONE;
    for touched in changes {
        let Some(read) = passed.read.checked_add(1) else {
            return passed;
        };
        if !touched.is_hidden(sees_soa, grants) {
            if passed.seen >= most {
                return passed;
            }
            passed.seen += 1;
        }
        passed.read = read;
    }
    passed
}

/// The changes that may be read at once, and how many records they have together.
#[derive(Clone, Copy)]
struct Piece {
    changes: u32,
    records: usize,
}

impl Piece {
    /// No change yet.
    const fn new() -> Piece {
        Piece {
            changes: 0,
            records: 0,
        }
    }

    /// Takes one more change, unless the records are too many then, and tells whether it did.
    fn takes(&mut self, touched: &Touched) -> bool {
        self.records = self.records.saturating_add(touched.records);
        if self.records > RECORDS {
            return false;
        }
        self.changes = self.changes.saturating_add(1);
        true
    }
}

/// Those of some changes that are read at once.
fn near(changes: &[Touched]) -> &[Touched] {
    changes.get(..PIECE).unwrap_or(changes)
}

/// How many of some changes to read at once: those that have few records together, up to the first of which grants include nothing, and
/// some that are not remembered after all of them.
fn first_shown(changes: &[Touched], sees_soa: bool, grants: &mut Grants<'_>) -> u32
    ensures { grants.new ≡ grants.old }
{
    let mut piece = Piece::new();
    for touched in near(changes) {
        if touched.is_hidden(sees_soa, grants) || !piece.takes(touched) {
            return piece.changes;
        }
    }
    piece.changes.saturating_add(UNKNOWN)
}

/// What is after the first ones, so many.
fn behind(changes: &[Touched], count: u32) -> &[Touched]
    ensures { result.now ≡ drop count changes.now }
{
    changes.get(count as usize..).unwrap_or_default()
}

/// What the first changes of the zone of an origin touch, one after the other.
#[derive(Drop)]
pub struct ZoneHistory {
    origin: Name,
    changes: Vec<Touched>,
    /// How many owners and types they touch together.
    points: usize,
}

impl ZoneHistory {
    /// Nothing of the zone of an origin yet. The only error is out of memory.
    pub fn new(alloc: Global, origin: &Name) -> Result<ZoneHistory, AllocError>
        ensures origin { IfOk result (λ zone. zone.origin ≡ origin.now) }
        ensures none { IfOk result (λ zone. KnowsAll zone []) }
    {
        Ok(ZoneHistory {
            origin: origin.try_copy(alloc)?,
            changes: Vec::new(alloc),
            points: 0,
        })
    }

    /// How many changes are remembered.
    pub fn count(&self) -> usize
        ensures { (cs : List ChangeOf) → KnowsAll self.now cs → result ≡ length cs }
    {
        self.changes.len()
    }

    /// Goes on to the next change, which has no record yet. The only error is out of memory, after which nothing has changed.
    pub fn begin_change(&mut self, alloc: Global) -> Result<(), AllocError>
        ensures origin { self.new.origin ≡ self.old.origin }
        ensures next { OnOk result ((cs : List ChangeOf) → KnowsAll self.old cs → KnowsAll self.new (cs ++ without_records ∷ [])) }
        ensures failed { OnErr result ((cs : List ChangeOf) → KnowsAll self.old cs → KnowsAll self.new cs) }
    {
        self.changes.push(Touched::new(alloc))?;
        Ok(())
    }

    /// Notes one more record of the last change, if there is one. The only error is out of memory, after which that change is forgotten.
    pub fn note(&mut self, alloc: Global, rr: &Record) -> Result<(), AllocError>
        ensures origin { self.new.origin ≡ self.old.origin }
        ensures last { OnOk result
            ((cs : List ChangeOf) (c more : ChangeOf) → KnowsAll self.old (cs ++ c ∷ []) → HasAlso rr.now c more → KnowsAll self.new (cs ++ more ∷ [])) }
        ensures none { OnOk result (KnowsAll self.old [] → KnowsAll self.new []) }
        ensures failed { OnErr result
            ((cs : List ChangeOf) → KnowsAll self.old cs
            → (front : List ChangeOf) × (last : ChangeOf) × (cs ≡ front ++ last ∷ []) × KnowsAll self.new front) }
    {
        let Some(mut last) = self.changes.pop() else {
            return Ok(());
        };
        let before = last.points.len();
        last.note(alloc, &self.origin, rr)?;
        let more = last.points.len().saturating_sub(before);
        self.points = self.points.saturating_add(more);
        self.changes.push(last)?;
        Ok(())
    }

    /// Appends what the next changes touch, as far as there is memory.
    fn push(&mut self, alloc: Global, changes: &[Change])
        ensures origin { self.new.origin ≡ self.old.origin }
        ensures touched { (cs : List ChangeOf) → AreTouched self.old.origin self.old.changes.items cs
            → map change_in changes.now ≡ take (length changes.now) (drop (length self.old.changes.items) cs)
            → AreTouched self.new.origin self.new.changes.items cs }
    {
        for change in changes {
            let Ok(touched) = Touched::of(alloc, &self.origin, change) else {
                return;
            };
            let more = touched.points.len();
            if self.changes.push(touched).is_err() {
                return;
            }
            self.points = self.points.saturating_add(more);
        }
    }

    /// What comes next after the first changes, so many.
    fn ahead(&self, count: u32, grants: &mut Grants<'_>) -> Ahead
        ensures hidden { (cs : List ChangeOf) → AreTouched self.now.origin self.now.changes.items cs
            → IsTrue (are_hidden grants.old (drop count cs) result.hidden) }
        ensures same { grants.new ≡ grants.old }
    {
        let rest = behind(&self.changes, count);
        let sees_soa = grants.include(&self.origin, RecordType::Soa);
        let hidden = first_hidden(rest, sees_soa, grants);
        let shown = first_shown(&rest[hidden..], sees_soa, grants);
        match u32::try_from(hidden) {
            Ok(hidden) => Ahead { hidden, shown },
            Err(_) => unknown(),
        }
    }
}

impl ZoneHistory {
    /// Passes over the next changes after the first ones, so many, up to the first of which grants include something after so many of
    /// such.
    fn passed(&self, count: u32, most: u32, grants: &mut Grants<'_>) -> Passed
        ensures passed { (cs : List ChangeOf) → AreTouched self.now.origin self.now.changes.items cs → ArePassed grants.old (drop count cs) most result }
        ensures same { grants.new ≡ grants.old }
    {
        let sees_soa = grants.include(&self.origin, RecordType::Soa);
        passed_of(behind(&self.changes, count), most, sees_soa, grants)
    }
}

/// About how many octets of memory a change takes, with the room after the last one, and each owner and type that it touches.
const CHANGE: usize = 72;

const POINT: usize = 128;

impl OfZone for ZoneHistory {
    ghost zone_origin = { λ zone. zone.origin };

    fn is_of(&self, origin: &Name) -> bool {
        self.origin == *origin
    }

    fn size(&self) -> usize {
        let changes = self.changes.len().saturating_mul(CHANGE);
        changes.saturating_add(self.points.saturating_mul(POINT))
    }
}

/// Whether what is remembered is of the zone of an origin.
fn is_of(history: &Option<ZoneHistory>, origin: &Name) -> bool {
    match history {
        Some(zone) => zone.origin == *origin,
        None => false,
    }
}

/// Forgets another zone than the one of an origin, of which nothing is remembered then.
fn begin(alloc: Global, history: &mut Option<ZoneHistory>, origin: &Name)
    ensures { (s : State) → Remembers s history.old → Remembers s history.new }
{
    if !is_of(history, origin) {
        *history = ZoneHistory::new(alloc, origin).ok();
    }
}

/// Remembers what changes of the zone of an origin touch, if the changes before them, so many, are remembered, and no more.
fn append(
    alloc: Global,
    history: &mut Option<ZoneHistory>,
    origin: &Name,
    count: u32,
    changes: &[Change],
)
    ensures { (s : State) (held : Held) → s.zones origin.now ≡ Some held
        → map change_in changes.now ≡ take (length changes.now) (drop count held.changes) → Remembers s history.old
        → Remembers s history.new }
{
    let Some(zone) = history else {
        return;
    };
    if zone.origin == *origin && zone.changes.len() == count as usize {
        zone.push(alloc, changes);
    }
}

/// Remembers what changes of the zone of an origin touch, if the changes before them, so many, are remembered. With the first change of a
/// zone it forgets another one.
pub fn remember(
    alloc: Global,
    history: &mut Option<ZoneHistory>,
    origin: &Name,
    count: u32,
    changes: &[Change],
)
    ensures { (s : State) (held : Held) → s.zones origin.now ≡ Some held
        → map change_in changes.now ≡ take (length changes.now) (drop count held.changes) → Remembers s history.old
        → Remembers s history.new }
{
    if count == 0 {
        begin(alloc, history, origin);
    }
    append(alloc, history, origin, count, changes);
}

/// What comes next among the changes of the zone of an origin after the first ones, so many, by what is remembered.
pub fn ahead_in(
    history: &Option<ZoneHistory>,
    origin: &Name,
    count: u32,
    grants: &mut Grants<'_>,
) -> Ahead
    ensures hidden { (s : State) (held : Held) → s.zones origin.now ≡ Some held → Remembers s history.now
        → IsTrue (are_hidden grants.old (drop count held.changes) result.hidden) }
    ensures same { grants.new ≡ grants.old }
{
    match history {
        Some(zone) if zone.origin == *origin => zone.ahead(count, grants),
        _ => unknown(),
    }
}

/// What is passed over of the changes of the zone of an origin after the first ones, so many, by what is remembered.
pub fn passed_in(
    history: &Option<ZoneHistory>,
    origin: &Name,
    count: u32,
    most: u32,
    grants: &mut Grants<'_>,
) -> Passed
    ensures passed { (s : State) (held : Held) → s.zones origin.now ≡ Some held → Remembers s history.now
        → ArePassed grants.old (drop count held.changes) most result }
    ensures same { grants.new ≡ grants.old }
{
    match history {
        Some(zone) if zone.origin == *origin => zone.passed(count, most, grants),
        _ => Passed::NONE,
    }
}
