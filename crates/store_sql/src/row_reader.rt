//! What reads the rows of whole tables.

ghost use Rattle.std.specs.Prelude.{◌≡◌, Err, IfOk};
ghost use Rattle.store_sql.specs.declared.rows_fault.RowsFault.TheVariants.{BadRow};

use crate::rows_fault::RowsFault;
use std::alloc::Global;

/// What reads the rows of a table, one after the other, as the store hands them over. It may keep something from row to row, as the
/// origin that it read last.
pub trait RowReader<R, T> {
    // the row of what is read
    ghost row_of: { T → R };

    // what is read of a row
    ghost is_read: { T → Type 0 };

    /// Reads the next row. `BadRow` comes where it is the row of nothing that is read, and `NoMemory` where memory runs out.
    fn read(&mut self, alloc: Global, row: R) -> Result<T, RowsFault>
        ensures found { IfOk result (λ x. (row ≡ row_of x) × is_read x) }
        ensures bad { result ≡ Err BadRow → (x : T) → is_read x → row ≡ row_of x → ⊥ };
}

/// Reads each row as it is.
#[derive(Drop)]
pub struct WholeRows;

impl<R: Drop> RowReader<R, R> for WholeRows {
    ghost row_of = { λ row. row };

    ghost is_read = { λ _. Unit {0} };

    fn read(&mut self, _alloc: Global, row: R) -> Result<R, RowsFault> {
        Ok(row)
    }
}
