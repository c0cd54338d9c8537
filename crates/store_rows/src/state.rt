//! Whether the rows of `meta` and `receipts` are those of a state.

ghost use Rattle.std.specs.Prelude.{◌≡◌, ◌↔◌, [], ◌∷◌, true};
ghost use Rattle.store_rows.specs.Orders.{rises};
ghost use Rattle.store_rows.specs.Checks.{AreReceiptRows, Checks, receipt_key_order};

use crate::ascending::rise;
use crate::ordered::{self, ReceiptKey};
use crate::row_fault::RowFault;
use std::alloc::Global;
use store_sql::ReceiptRow;

/// Whether there is one version, which is this.
pub fn is_alone(version: i64, versions: &[i64]) -> bool
    ensures { (result ≡ true) ↔ (versions.now ≡ version ∷ []) }
{
    match versions {
        [one] => *one == version,
        _ => false,
    }
}

/// Checks the rows of `receipts`, each of which goes as soon as it is read. They are `BadRow` where one is that of no receipt, or two
/// of one caller have one identifier.
pub fn check_receipts(alloc: Global, rows: Vec<ReceiptRow>) -> Result<(), RowFault>
    ensures { Checks (AreReceiptRows rows.items) result }
{
    let keys = ordered::receipts(alloc, rows)?;
    if !are_apart(&keys) {
        return Err(RowFault::BadRow);
    }
    Ok(())
}

/// Whether each key stands before the next one by caller and identifier, so that no two of one caller have one identifier.
fn are_apart(keys: &[ReceiptKey]) -> bool
    ensures { result ≡ rises receipt_key_order keys.now }
{
    rise(keys)
}
