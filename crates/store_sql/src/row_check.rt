//! What checks the rows of whole tables.

ghost use Rattle.std.specs.Prelude.{◌≡◌, ◌∷◌, List, [], Err, OnOk};
ghost use Rattle.store_sql.specs.Taken.{TakesMore};
ghost use Rattle.store_sql.specs.declared.rows_fault.RowsFault.TheVariants.{BadRow};

use crate::rows_fault::RowsFault;
use std::alloc::Global;

/// What takes the rows of a table, one after the other, as the store hands them over, and refuses those that it does not know. Of a row
/// it keeps what it needs.
pub trait RowCheck<R> {
    // it has taken these rows, in their order
    ghost has_taken: { Self → List R → Type 0 };

    // a row that it takes
    ghost is_good: { R → Type 0 };

    /// Takes the next row. `BadRow` comes only where it is none that it takes, and `NoMemory` where memory runs out.
    fn take(&mut self, alloc: Global, row: R) -> Result<(), RowsFault>
        ensures taken { OnOk result (TakesMore has_taken self.old self.new (row ∷ [])) }
        ensures bad { result ≡ Err BadRow → is_good row → ⊥ };
}
