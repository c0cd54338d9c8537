//! Where prerequisites go when an update is cut into parts: to the first operation at their name.

ghost use Rattle.std.specs.Prelude.{◌≡◌, ℕ, ◌<◌, ◌==◌, List, [], ◌∷◌, ◌++◌, length, IfOk, OnOk, Some, None, if◌then◌else◌, get_or, is_none};
ghost use Rattle.std.specs.Option.{option_copied, option_or};
ghost use Rattle.std.specs.BTreeMap as tree;
ghost use Rattle.dns_names.specs.Order.{canonical_cmp, same_name};
ghost use Rattle.zone_core.specs.Updates.{tested_name};
ghost use Rattle.cli_updates.specs.Slots.{is_soa_data, tests_soa, first_at, tested_names, acted_names, acted_place, unplaced, is_place, tested_place, in_places, lent, slots_view};

use dns_data::Data;
use dns_names::Name;
use std::alloc::{AllocError, Global};
use std::collections::BTreeMap;
use zone_core::{Operation, Prerequisite};

/// The places of the first of some items at names.
type Places = BTreeMap<Name, usize>;

/// The prerequisites of each place, in order.
pub(crate) type Slots<'a> = Vec<Vec<&'a Prerequisite>>;

/// Whether data are those of an SOA.
fn is_soa_data(rdata: &Data) -> bool
    ensures { result ≡ is_soa_data rdata.now }
{
    matches!(rdata, Data::Soa(_))
}

/// Whether a prerequisite tests the data of an SOA.
fn tests_soa(test: &Prerequisite) -> bool
    ensures { result ≡ tests_soa test.now }
{
    match test {
        Prerequisite::RrsetEquals { rdata, .. } => is_soa_data(rdata),
        _ => false,
    }
}

/// Puts the place of a name, unless one is there. The only error is out of memory.
fn put_place(
    alloc: Global,
    places: &mut Places,
    name: &Name,
    place: usize,
) -> Result<(), AllocError>
    ensures { OnOk result
        ((q : List (List ℕ))
        → tree.get canonical_cmp places.new q ≡ option_or (tree.get canonical_cmp places.old q) (if same_name name.now q then Some place else None)) }
{
    if !places.contains_key(name) {
        places.insert(name.try_copy(alloc)?, place)?;
    }
    Ok(())
}

/// The places of the first operations at names. The only error is out of memory.
fn acted_places(alloc: Global, operations: &[Operation]) -> Result<Places, AllocError>
    ensures { IfOk result (λ places. (q : List (List ℕ)) → tree.get canonical_cmp places q ≡ first_at (acted_names operations.now) q) }
{
    let mut places = BTreeMap::new(alloc);
    for (place, operation) in operations.iter().enumerate() {
        put_place(alloc, &mut places, operation.name(), place)?;
    }
    Ok(places)
}

/// The places of the first prerequisites at names. The only error is out of memory.
fn tested_places(alloc: Global, tests: &[&Prerequisite]) -> Result<Places, AllocError>
    ensures { IfOk result (λ places. (q : List (List ℕ)) → tree.get canonical_cmp places q ≡ first_at (tested_names (lent tests.now)) q) }
{
    let mut places = BTreeMap::new(alloc);
    for (place, test) in tests.iter().enumerate() {
        put_place(alloc, &mut places, test.name(), place)?;
    }
    Ok(places)
}

/// So many places without prerequisites. The only error is out of memory.
fn empty_slots<'a>(alloc: Global, count: usize) -> Result<Slots<'a>, AllocError>
    ensures count { IfOk result (λ slots. length slots.items ≡ count) }
    ensures empty { IfOk result (λ slots. (k : ℕ) → get_or (slots_view slots.items) k [] ≡ []) }
{
    let mut slots = Vec::with_capacity(alloc, count)?;
    for _ in 0..count {
        slots.push(Vec::new(alloc))?;
    }
    Ok(slots)
}

/// Puts a prerequisite after those of its place. The only error is out of memory.
fn put<'a>(
    slots: &mut [Vec<&'a Prerequisite>],
    place: usize,
    test: &'a Prerequisite,
) -> Result<(), AllocError>
    requires { place < length slots.old }
    ensures count { length slots.new ≡ length slots.old }
    ensures put { OnOk result
        ((k : ℕ)
        → get_or (slots_view slots.new) k []
        ≡ (if place == k then get_or (slots_view slots.old) k [] ++ test.now ∷ [] else get_or (slots_view slots.old) k [])) }
{
    slots[place].push(test)?;
    Ok(())
}

/// The prerequisites of an update by the operations that they go with.
#[derive(Drop)]
pub(crate) struct Placed<'a> {
    /// Those that go before all operations, in order.
    pub before: Vec<&'a Prerequisite>,
    /// Those that go with each operation, in order.
    pub beside: Slots<'a>,
}

/// The operation that a prerequisite goes with, where the places of the first ones at names are these.
fn acted_place(places: &Places, test: &Prerequisite) -> Option<usize>
    ensures { result ≡ (if tests_soa test.now then None else tree.get canonical_cmp places.now (tested_name test.now)) }
{
    if tests_soa(test) {
        return None;
    }
    places.get(test.name()).copied()
}

/// Puts a prerequisite where it goes. The only error is out of memory.
fn put_test<'a>(
    placed: &mut Placed<'a>,
    place: Option<usize>,
    test: &'a Prerequisite,
) -> Result<(), AllocError>
    requires { (i : ℕ) → place ≡ Some i → i < length placed.old.beside.items }
    ensures count { length placed.new.beside.items ≡ length placed.old.beside.items }
    ensures before { OnOk result (lent placed.new.before.items ≡ lent placed.old.before.items ++ (if is_none place then test.now ∷ [] else [])) }
    ensures beside { OnOk result
        ((k : ℕ)
        → get_or (slots_view placed.new.beside.items) k []
        ≡ get_or (slots_view placed.old.beside.items) k [] ++ (if is_place k place then test.now ∷ [] else [])) }
{
    match place {
        Some(place) => put(&mut placed.beside, place, test),
        None => {
            placed.before.push(test)?;
            Ok(())
        }
    }
}

/// Each prerequisite where it goes: with the first operation at its name, if there is one and no data of an SOA are tested. The only
/// error is out of memory.
pub(crate) fn place_tests<'a>(
    alloc: Global,
    tests: &'a [Prerequisite],
    operations: &[Operation],
) -> Result<Placed<'a>, AllocError>
    ensures before { IfOk result (λ p. lent p.before.items ≡ unplaced operations.now tests.now) }
    ensures beside { IfOk result (λ p. slots_view p.beside.items ≡ in_places (acted_place operations.now) tests.now (length operations.now)) }
{
    let places = acted_places(alloc, operations)?;
    let mut placed = Placed {
        before: Vec::new(alloc),
        beside: empty_slots(alloc, operations.len())?,
    };
    for test in tests {
        let at = acted_place(&places, test);
        put_test(&mut placed, at, test)?;
    }
    Ok(placed)
}

/// Puts a prerequisite after those of its place, if it has one. The only error is out of memory.
fn put_if<'a>(
    slots: &mut Slots<'a>,
    place: Option<usize>,
    test: &'a Prerequisite,
) -> Result<(), AllocError>
    requires { (i : ℕ) → place ≡ Some i → i < length slots.old.items }
    ensures count { length slots.new.items ≡ length slots.old.items }
    ensures put { OnOk result
        ((k : ℕ) → get_or (slots_view slots.new.items) k [] ≡ get_or (slots_view slots.old.items) k [] ++ (if is_place k place then test.now ∷ [] else [])) }
{
    match place {
        Some(place) => put(slots, place, test),
        None => Ok(()),
    }
}

/// Prerequisites by the first of them at their name, so that those of a name are in one place. The only error is out of memory.
pub(crate) fn slots_by_name<'a>(
    alloc: Global,
    tests: &[&'a Prerequisite],
) -> Result<Slots<'a>, AllocError>
    ensures { IfOk result (λ slots. slots_view slots.items ≡ in_places (tested_place (lent tests.now)) (lent tests.now) (length (lent tests.now))) }
{
    let places = tested_places(alloc, tests)?;
    let mut slots = empty_slots(alloc, tests.len())?;
    for test in tests {
        let place = places.get(test.name()).copied();
        put_if(&mut slots, place, test)?;
    }
    Ok(slots)
}
