//! Lists in order, and lists in which each element stands before the next one.

ghost use Rattle.std.specs.Prelude.{◌≡◌, IfOk};
ghost use Rattle.std.specs.Cmp.{IsTotalOrder};
ghost use Rattle.std.specs.List.Sorted.{IsPermutation, IsSorted};
ghost use Rattle.std.specs.declared.cmp.Ordering.{Ordering};
ghost use Rattle.store_rows.specs.Orders.{rises_above, rises};

use dns_data::{Record, record_order};
use dns_names::Name;
use std::alloc::AllocError;
use std::cmp::Ordering;

/// What rows of one kind are put in order by.
pub(crate) trait Ordered: Sized {
    // what `compare` answers
    ghost compare: { Self → Self → Ordering };

    /// The order of two.
    fn compare(&self, other: &Self) -> Ordering
        ensures { result ≡ compare self.now other.now };

    // it is an order
    ghost total: { IsTotalOrder compare };
}

impl Ordered for Name {
    ghost use Rattle.dns_names.specs.Order.{canonical_cmp, canonical_total};

    ghost compare = { canonical_cmp };

    fn compare(&self, other: &Name) -> Ordering {
        self.cmp(other)
    }

    ghost total = { canonical_total };
}

impl Ordered for Record {
    ghost use Rattle.dns_data.specs.RecordOrder.{record_order, record_order_total};

    ghost compare = { record_order };

    fn compare(&self, other: &Record) -> Ordering {
        record_order(self, other)
    }

    ghost total = { record_order_total };
}

/// Whether the first of some stands after one, and each before the next one.
fn rise_above<T: Ordered>(first: &T, others: &[T]) -> bool
    ensures { result ≡ rises_above T.Ordered.compare first.now others.now }
{
    let mut before = first;
    for next in others {
        if !before.compare(next).is_lt() {
            return false;
        }
        before = next;
    }
    true
}

/// Whether each stands before the next one, so that none comes twice.
pub(crate) fn rise<T: Ordered>(all: &[T]) -> bool
    ensures { result ≡ rises T.Ordered.compare all.now }
{
    match all {
        [] => true,
        [first, others @ ..] => rise_above(first, others),
    }
}

/// A list in order. One in which each stands before the next one already, as the rows of a store mostly come, is not sorted again. The only
/// error is out of memory.
pub(crate) fn sorted<T: Ordered + Drop>(mut all: Vec<T>) -> Result<Vec<T>, AllocError>
    ensures { IfOk result (λ xs. IsPermutation all.items xs.items × IsSorted T.Ordered.compare xs.items) }
{
    if rise(&all) {
        return Ok(all);
    }
    all.sort_by(|first, second| first.compare(second))?;
    Ok(all)
}
