//! The records of a zone within several names.

ghost use Rattle.std.specs.Prelude.{◌≡◌, ◌↔◌, ◌<◌, ◌++◌, true, length, option_map, IfOk, IfSome};
ghost use Rattle.zone_core.specs.Outermost.{AreApart};
ghost use Rattle.zone_core.specs.Sets.{InOrder};
ghost use Rattle.office_model.specs.States.{State};
ghost use Rattle.office_model.specs.Tables.{ReadsOnly, included};
ghost use Rattle.office_core.specs.Subtrees.{subtrees_at};

use dns_data::{Record, record_order};
use dns_names::Name;
use grant_policy::Grants;
use office_model::{TableFault, ZoneTable};
use std::alloc::{AllocError, Global};

/// Whether records in record order are in record order with others before them.
fn are_behind(first: &[Record], second: &[Record]) -> bool
    requires first { InOrder first.now }
    requires second { InOrder second.now }
    ensures { (result ≡ true) ↔ InOrder (first.now ++ second.now) }
{
    if first.is_empty() || second.is_empty() {
        return true;
    }
    record_order(&first[first.len() - 1], &second[0]).is_lt()
}

/// Records in record order, with others after them; without these, if they would not be in record order. The only error is out of
/// memory.
fn joined(mut all: Vec<Record>, mut more: Vec<Record>) -> Result<Vec<Record>, AllocError>
    requires first { InOrder all.items }
    requires second { InOrder more.items }
    ensures order { IfOk result (λ rs. InOrder rs.items) }
    ensures whole { IfOk result (λ rs. InOrder (all.items ++ more.items) → rs.items ≡ all.items ++ more.items) }
{
    if are_behind(&all, &more) {
        all.append(&mut more)?;
    }
    Ok(all)
}

/// The records of a zone within each of some names that grants include, where there is the zone. The names are in canonical order, and
/// none is within another.
pub(crate) fn within_each<T: ZoneTable>(
    alloc: Global,
    table: &mut T,
    origin: &Name,
    tops: &[Name],
    grants: &mut Grants<'_>,
) -> Result<Option<Vec<Record>>, TableFault>
    requires apart { AreApart tops.now }
    requires some { 0 < length tops.now }
    ensures answer { T.is_honest table.new
        → IfOk result
        (λ found. (s : State) → T.holds table.old s
        → option_map (λ rs. rs.items) found ≡ option_map (included grants.old) (subtrees_at s origin.now tops.now)) }
    // They are in record order, whatever the store has done.
    ensures order { IfOk result (λ found. IfSome found (λ rs. InOrder rs.items)) }
    ensures reads { ReadsOnly T.holds T.is_honest T.leaves T.failures table.old table.new result }
{
    let mut all = Vec::new(alloc);
    for top in tops {
        let Some(more) = table.subtree(alloc, origin, top, grants)? else {
            return Ok(None);
        };
        all = joined(all, more)?;
    }
    Ok(Some(all))
}
