//! What is kept of several zones in memory, in the order in which it was put there.

ghost use Rattle.std.specs.Prelude.{◌≡◌, ◌++◌, ◌∷◌, [], ◌<◌, ℕ, List, length, drop, true, false, IfSome, IsNone, IsSome, not};
ghost use Rattle.std.specs.List.{All, HoldsAt, filter};
ghost use Rattle.dns_names.specs.Order.{same_name};
ghost use Rattle.store_cache.specs.Shelf.{on, on_any, IsTaken, IsTurned};

use dns_names::Name;
use std::alloc::Global;

/// What is kept of a zone.
pub trait OfZone {
    // the origin of the zone
    ghost zone_origin: { Self → List (List ℕ) };

    /// Whether it is of the zone of an origin.
    fn is_of(&self, origin: &Name) -> bool
        ensures { result ≡ same_name (zone_origin self.now) origin.now };

    /// About how many octets of memory it takes.
    fn size(&self) -> usize;
}

/// The most zones of which something is kept, since they are looked through one after the other.
const MOST: usize = 1024;

/// What is kept of several zones, the one that was put there last at the end. Together they take a bounded amount of memory: for a new
/// one the oldest go.
#[derive(Drop)]
pub struct Shelf<T> {
    kept: Vec<T>,
    /// How many octets they take together.
    size: usize,
    /// How many they may take.
    room: usize,
}

/// The place of the first that is of the zone of an origin.
fn place_of<T: OfZone>(kept: &[T], origin: &Name) -> Option<usize>
    ensures found { IfSome result (λ i. (i < length kept.now) × HoldsAt (λ x. same_name (T.zone_origin x) origin.now ≡ true) kept.now i) }
    ensures none { IsNone result → All (λ x. same_name (T.zone_origin x) origin.now ≡ false) kept.now }
{
    for i in 0..kept.len() {
        if kept[i].is_of(origin) {
            return Some(i);
        }
    }
    None
}

impl<T: OfZone + Drop> Shelf<T> {
    /// A shelf on which nothing is yet, for what takes at most so many octets together.
    fn new(alloc: Global, room: usize) -> Shelf<T>
        ensures { on result ≡ [] }
    {
        Shelf {
            kept: Vec::new(alloc),
            size: 0,
            room,
        }
    }

    /// Takes the first that is of the zone of an origin, if there is one.
    fn take(&mut self, origin: &Name) -> Option<T>
        ensures { IsTaken (λ x. same_name (T.zone_origin x) origin.now) (on self.old) result (on self.new) }
    {
        let place = place_of(&self.kept, origin)?;
        let found = self.kept.remove(place);
        self.size = self.size.saturating_sub(found.size());
        Some(found)
    }

    /// Takes away all that is of the zone of an origin.
    fn forget(&mut self, origin: &Name)
        ensures { on self.new ≡ filter (λ x. not (same_name (T.zone_origin x) origin.now)) (on self.old) }
    {
        while self.take(origin).is_some() {}
    }

    /// Whether what is kept takes too much, or is of too many zones. One stays, however large: else who asks for another zone, with
    /// rights there or without, would have it read again.
    fn is_over(&self) -> bool {
        self.kept.len() > 1 && (self.size > self.room || self.kept.len() > MOST)
    }

    /// Drops the oldest until the others have room.
    fn make_room(&mut self)
        ensures { (n : ℕ) × (on self.new ≡ drop n (on self.old)) }
    {
        while self.is_over() {
            if self.kept.is_empty() {
                return;
            }
            let oldest = self.kept.remove(0);
            self.size = self.size.saturating_sub(oldest.size());
        }
    }

    /// Puts one more there, and drops the oldest until all have room. Where memory runs out, all are dropped.
    fn put(&mut self, one: T)
        ensures { (n : ℕ) × (on self.new ≡ drop n (on self.old ++ one ∷ [])) }
    {
        let size = self.size.saturating_add(one.size());
        match self.kept.push(one) {
            Ok(()) => {
                self.size = size;
                self.make_room();
            }
            Err(_) => {
                self.kept.clear();
                self.size = 0;
            }
        }
    }
}

/// Has at hand what is of the zone of an origin, if it is kept. What was at hand of another zone is put on the shelf.
fn turn<T: OfZone + Drop>(hand: &mut Option<T>, shelf: &mut Shelf<T>, origin: &Name)
    ensures { IsTurned (λ x. same_name (T.zone_origin x) origin.now) hand.old (on shelf.old) hand.new (on shelf.new) }
{
    let was = match hand.take() {
        Some(one) if one.is_of(origin) => {
            *hand = Some(one);
            return;
        }
        was => was,
    };
    *hand = shelf.take(origin);
    if let Some(one) = was {
        shelf.put(one);
    }
}

/// Has at hand what is of the zone of an origin, if it is kept. What was at hand of another zone is put on the shelf, which has room for
/// so many octets if it is made now.
pub fn turn_to<T: OfZone + Drop>(
    alloc: Global,
    hand: &mut Option<T>,
    shelf: &mut Option<Shelf<T>>,
    room: usize,
    origin: &Name,
)
    ensures { IsTurned (λ x. same_name (T.zone_origin x) origin.now) hand.old (on_any shelf.old) hand.new (on_any shelf.new) }
{
    let mut all = match shelf.take() {
        Some(all) => all,
        None => Shelf::new(alloc, room),
    };
    turn(hand, &mut all, origin);
    *shelf = Some(all);
}

/// The same if there is a shelf; else nothing happens.
pub fn turn_on<T: OfZone + Drop>(hand: &mut Option<T>, shelf: &mut Option<Shelf<T>>, origin: &Name)
    ensures turned { IsSome shelf.old → IsTurned (λ x. same_name (T.zone_origin x) origin.now) hand.old (on_any shelf.old) hand.new (on_any shelf.new) }
    ensures same { IsNone shelf.old → (hand.new ≡ hand.old) × (shelf.new ≡ shelf.old) }
{
    let Some(mut all) = shelf.take() else {
        return;
    };
    turn(hand, &mut all, origin);
    *shelf = Some(all);
}

/// Takes away all that a shelf has of the zone of an origin.
pub fn forget_on<T: OfZone + Drop>(shelf: &mut Option<Shelf<T>>, origin: &Name)
    ensures { on_any shelf.new ≡ filter (λ x. not (same_name (T.zone_origin x) origin.now)) (on_any shelf.old) }
{
    let Some(mut all) = shelf.take() else {
        return;
    };
    all.forget(origin);
    *shelf = Some(all);
}
