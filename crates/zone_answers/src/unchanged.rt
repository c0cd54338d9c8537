//! Names at which nothing has changed, for which no answers need to be compared.

ghost use Rattle.std.specs.Prelude.{◌≡◌, ◌∷◌, ◌&&◌, Some, IfOk};
ghost use Rattle.std.specs.Cmp.Lexicographic.{pointwise};
ghost use Rattle.zone_core.specs.Sets.{listing};
ghost use Rattle.zone_answers.specs.Answers.{asterisk, negative_soa};
ghost use Rattle.zone_answers.specs.AnswerTests.{if_there};
ghost use Rattle.zone_answers.specs.ChangeTests.{same_but_serial, same_at, same_sources, is_own, is_unchanged};

use crate::answer::push_soa;
use crate::finding::wildcard_there;
use crate::query_type::QueryType;
use crate::rows::{asked_at, is_there};
use crate::sameness::{all_but_serials, all_same};
use crate::zone_index::ZoneIndex;
use dns_data::RecordType;
use dns_names::Name;
use std::alloc::{AllocError, Global};
use zone_core::Zone;

/// Whether the same records are at a name in two zones, and no alias.
fn same_at(old: &Zone, new: &Zone, name: &Name) -> bool
    ensures { result ≡ same_at (listing old.now.records) (listing new.now.records) name.now }
{
    let alias = asked_at(old, name, QueryType::Kept(RecordType::Cname));
    let before = asked_at(old, name, QueryType::Any);
    let after = asked_at(new, name, QueryType::Any);
    alias.is_empty() && all_same(before, after)
}

/// Whether neither of two zones has a source, or the same records are at both.
fn same_sources(old: &Zone, new: &Zone, source: &Option<Name>, other: &Option<Name>) -> bool
    ensures { result ≡ same_sources (listing old.now.records) (listing new.now.records) source.now other.now }
{
    match source {
        Some(source) => match other {
            Some(_) => same_at(old, new, source),
            None => false,
        },
        None => match other {
            Some(_) => false,
            None => true,
        },
    }
}

/// Whether neither of two zones has a wildcard below a name, or the same records are at both. The only error is out of memory.
fn same_wildcards(
    alloc: Global,
    old: &Zone,
    new: &Zone,
    encloser: &Name,
) -> Result<bool, AllocError>
    ensures { IfOk result (λ b. b ≡ same_sources (listing old.now.records) (listing new.now.records) (if_there (listing old.now.records) (Some (asterisk ∷ encloser.now))) (if_there (listing new.now.records) (Some (asterisk ∷ encloser.now)))) }
{
    let source = wildcard_there(alloc, old, encloser)?;
    let other = wildcard_there(alloc, new, encloser)?;
    Ok(same_sources(old, new, &source, &other))
}

/// Whether the SOA of the negative answers of two zones is the same but for the serial. The only error is out of memory.
fn same_soa(alloc: Global, old: &Zone, new: &Zone) -> Result<bool, AllocError>
    ensures { IfOk result (λ b. b ≡ pointwise same_but_serial (negative_soa old.now.origin (listing old.now.records)) (negative_soa new.now.origin (listing new.now.records))) }
{
    let (mut before, mut after) = (Vec::new(alloc), Vec::new(alloc));
    push_soa(alloc, &mut before, old)?;
    push_soa(alloc, &mut after, new)?;
    Ok(all_but_serials(&before, &after))
}

impl ZoneIndex {
    /// Whether a name exists, and no cut is at or above it.
    fn is_own(&self, name: &Name) -> bool
        ensures { result ≡ is_own self.now.origin (listing self.now.records) name.now }
    {
        match self.outermost_cut(name) {
            Some(_) => false,
            None => is_there(self.zone(), name),
        }
    }
}

/// Whether a name exists in two zones with the same records, no alias, and no cut at or above it.
fn stays(old: &ZoneIndex, new: &ZoneIndex, name: &Name) -> bool
    ensures { result ≡ (is_own old.now.origin (listing old.now.records) name.now && is_own new.now.origin (listing new.now.records) name.now && same_at (listing old.now.records) (listing new.now.records) name.now) }
{
    old.is_own(name) && new.is_own(name) && same_at(old.zone(), new.zone(), name)
}

/// Whether nothing has changed at a name, nor for the names below it that do not exist. The only error is out of memory.
pub(crate) fn is_unchanged(
    alloc: Global,
    old: &ZoneIndex,
    new: &ZoneIndex,
    name: &Name,
) -> Result<bool, AllocError>
    requires { old.now.origin ≡ new.now.origin }
    ensures { IfOk result (λ b. b ≡ is_unchanged old.now.origin (listing old.now.records) (listing new.now.records) name.now) }
{
    if !stays(old, new, name) {
        return Ok(false);
    }
    let wildcards = same_wildcards(alloc, old.zone(), new.zone(), name)?;
    let soa = same_soa(alloc, old.zone(), new.zone())?;
    Ok(wildcards && soa)
}
