//! The cuts of a zone that are within no other, and which of them a name is within.

ghost use Rattle.std.specs.Prelude.{◌≡◌, IfOk};
ghost use Rattle.std.specs.List.{find};
ghost use Rattle.std.specs.Option.{option_copied};
ghost use Rattle.dns_names.specs.Labels.{is_within};
ghost use Rattle.zone_core.specs.Sets.{listing};
ghost use Rattle.zone_core.specs.Outermost.{AreApart};
ghost use Rattle.zone_answers.specs.AnswerTests.{AreTopCuts};

use dns_names::Name;
use std::alloc::{AllocError, Global};
use zone_core::{Zone, cuts, outermost};

/// The cuts of a zone that are below no other. The only error is out of memory.
pub(crate) fn top_cuts(alloc: Global, zone: &Zone) -> Result<Vec<Name>, AllocError>
    ensures { IfOk result (λ cuts. AreTopCuts zone.now.origin (listing zone.now.records) cuts.items) }
{
    let all = cuts(alloc, zone.origin(), zone.records())?;
    let tops = outermost(alloc, &all)?;
    Ok(tops)
}

/// The cut at or above a name.
pub(crate) fn cut_over<'a>(cuts: &'a [Name], name: &Name) -> Option<&'a Name>
    requires { AreApart cuts.now }
    ensures { option_copied result ≡ find (λ cut. is_within name.now cut) cuts.now }
{
    let count = cuts.partition_point(|cut| *cut <= *name);
    if count == 0 {
        return None;
    }
    let nearest = &cuts[count - 1];
    if name.is_within(nearest) {
        Some(nearest)
    } else {
        None
    }
}
