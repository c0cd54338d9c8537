//! The boundaries of a caller's rules.

ghost use Rattle.std.specs.Prelude.{◌≡◌, ◌==◌, ◌∷◌, ◌++◌, [], List, ℕ, nat_lt, IfOk};
ghost use Rattle.std.specs.List.Sorted.{IsPermutation, IsSortedBy};
ghost use Rattle.std.specs.Ordering.{nat_cmp, is_lt};
ghost use Rattle.std.specs.Cmp.Lexicographic.{slice_cmp};
ghost use Rattle.grant_policy.specs.Boundaries.{boundaries, boundaries_at, boundaries_of, is_reached, region_of};

use crate::identifier::Identifier;
use crate::rule::Rule;
use dns_names::cmp_octets;
use std::alloc::{AllocError, Global};
use std::cmp::Ordering;
use std::marker::Model;

/// A key from which on decisions may be others.
#[derive(Drop)]
struct Boundary {
    octets: Vec<u8>,
}

impl Model for Boundary {
    ghost Value = { List ℕ };

    ghost view = { λ b. b.octets.items };
}

impl Boundary {
    /// The boundary at a key. The only error is out of memory.
    fn at(alloc: Global, key: &[u8]) -> Result<Boundary, AllocError>
        ensures { IfOk result (λ boundary. boundary ≡ key.now) }
    {
        Ok(Boundary {
            octets: Vec::from_slice(alloc, key)?,
        })
    }

    /// The boundary at the first key after one. The only error is out of memory.
    fn after(alloc: Global, key: &[u8]) -> Result<Boundary, AllocError>
        ensures { IfOk result (λ boundary. boundary ≡ key.now ++ 0 ∷ []) }
    {
        let mut octets = Vec::with_capacity(alloc, key.len() + 1)?;
        octets.extend_from_slice(key)?;
        octets.push(0)?;
        Ok(Boundary { octets })
    }

    /// How it lies to another.
    fn cmp_boundary(&self, other: &Boundary) -> Ordering
        ensures { result ≡ slice_cmp nat_cmp self.now other.now }
    {
        cmp_octets(&self.octets, &other.octets)
    }

    /// Whether it is at a key or before it.
    fn is_reached(&self, key: &[u8]) -> bool
        ensures { result ≡ is_reached key.now self.now }
    {
        cmp_octets(&self.octets, key).is_le()
    }
}

/// Adds the boundary at a key, and the one after it. The only error is out of memory.
fn push_key(alloc: Global, all: &mut Vec<Boundary>, key: &[u8]) -> Result<(), AllocError>
    ensures { IfOk result (λ _. all.new.items ≡ all.old.items ++ key.now ∷ (key.now ++ 0 ∷ []) ∷ []) }
{
    all.push(Boundary::at(alloc, key)?)?;
    all.push(Boundary::after(alloc, key)?)?;
    Ok(())
}

/// Adds the boundaries of the name of a rule. The only error is out of memory.
fn push_boundaries(alloc: Global, all: &mut Vec<Boundary>, rule: &Rule) -> Result<(), AllocError>
    ensures { IfOk result (λ _. all.new.items ≡ all.old.items ++ boundaries_at rule.now.at) }
{
    let range = rule.at.key_range(alloc)?;
    push_key(alloc, all, range.first)?;
    if let Some(octets) = range.end {
        all.push(Boundary { octets })?;
    }
    Ok(())
}

/// Adds the boundaries of a rule, if it is one of the caller or of every caller. The only error is out of memory.
fn push_boundaries_of(
    alloc: Global,
    all: &mut Vec<Boundary>,
    caller: &Identifier,
    rule: &Rule,
) -> Result<(), AllocError>
    ensures { IfOk result (λ _. all.new.items ≡ all.old.items ++ boundaries_of caller.now rule.now) }
{
    if rule.callers.include(caller) {
        push_boundaries(alloc, all, rule)?;
    }
    Ok(())
}

/// The boundaries of the rules of a caller and of every caller, in the order of keys. The keys between two of them are a region,
/// whose number is how many boundaries are before it.
#[derive(Drop)]
pub(crate) struct Boundaries {
    sorted: Vec<Boundary>,
}

impl Model for Boundaries {
    ghost Value = { List (List ℕ) };

    ghost view = { λ b. b.sorted.items };

    ghost invariant = { λ b. IsSortedBy (λ x y. is_lt (slice_cmp nat_cmp x y)) b.sorted.items };
}

impl Boundaries {
    /// Those of the rules of a caller. The only error is out of memory.
    pub(crate) fn of(
        alloc: Global,
        caller: &Identifier,
        rules: &[Rule],
    ) -> Result<Boundaries, AllocError>
        ensures { IfOk result (λ bs. IsPermutation (boundaries caller.now rules.now) bs) }
    {
        let mut sorted = Vec::new(alloc);
        for rule in rules {
            push_boundaries_of(alloc, &mut sorted, caller, rule)?;
        }
        sorted.sort_by(|a, b| a.cmp_boundary(b))?;
        Ok(Boundaries { sorted })
    }

    /// The region of a key.
    pub(crate) fn region(&self, key: &[u8]) -> usize
        ensures { result ≡ region_of self.now key.now }
    {
        self.sorted
            .partition_point(|boundary| boundary.is_reached(key))
    }

    /// Whether the boundary of a place is there, and at a key or before it.
    fn is_reached(&self, place: usize, key: &[u8]) -> bool
        ensures { result ≡ nat_lt place (region_of self.now key.now) }
    {
        match self.sorted.get(place) {
            None => false,
            Some(boundary) => boundary.is_reached(key),
        }
    }

    /// Whether a region is that of a key.
    pub(crate) fn is_region(&self, region: usize, key: &[u8]) -> bool
        ensures { result ≡ (region_of self.now key.now == region) }
    {
        (region == 0 || self.is_reached(region - 1, key)) && !self.is_reached(region, key)
    }
}
