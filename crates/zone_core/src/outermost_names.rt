//! Names that are within no other.

ghost use Rattle.std.specs.Prelude.{◌≡◌, true, IfOk};
ghost use Rattle.std.specs.List.{All, list_any};
ghost use Rattle.std.specs.List.Sorted.{IsSorted};
ghost use Rattle.std.specs.Ordering.{is_le};
ghost use Rattle.dns_names.specs.Labels.{is_within};
ghost use Rattle.dns_names.specs.Order.{canonical_cmp};
ghost use Rattle.zone_core.specs.Outermost.{AreApart, AreOutermost};

use dns_names::Name;
use std::alloc::{AllocError, Global};

/// Whether a name is within one of some names, none of which comes after it; that one is the last.
fn is_within_last(tops: &[Name], name: &Name) -> bool
    requires apart { AreApart tops.now }
    requires before { All (λ top. is_le (canonical_cmp top name.now) ≡ true) tops.now }
    ensures { result ≡ list_any (λ top. is_within name.now top) tops.now }
{
    if tops.is_empty() {
        return false;
    }
    name.is_within(&tops[tops.len() - 1])
}

/// The outermost of some names, in canonical order: those that are within no other, each once. The names are in canonical order. The
/// only error is out of memory.
pub fn outermost(alloc: Global, names: &[Name]) -> Result<Vec<Name>, AllocError>
    requires { IsSorted canonical_cmp names.now }
    ensures { IfOk result (λ tops. AreOutermost names.now tops.items) }
{
    let mut tops = Vec::new(alloc);
    for name in names {
        if !is_within_last(&tops, name) {
            tops.push(name.try_copy(alloc)?)?;
        }
    }
    Ok(tops)
}
