//! What is read of rows.

ghost use Rattle.std.specs.Prelude.{◌≡◌, List, true, Ok, IfOk};
ghost use Rattle.std.specs.List.Sorted.{IsPermutation};
ghost use Rattle.dns_data.specs.RecordOrder.{record_order};
ghost use Rattle.dns_data.specs.declared.record.Record.{Record as RecordOf};
ghost use Rattle.store_rows.specs.Orders.{rises};
ghost use Rattle.store_rows.specs.RowReading.{each_read, record_in};

use dns_data::Record;
use std::alloc::Global;
use store_rows::RowFault;
use store_sql::RecordRow;

/// `records_within`, by what each row says.
pub fn records_within(alloc: Global, rows: &[RecordRow]) -> Result<Vec<Record>, RowFault>
    ensures { IfOk result (λ records. (rs : List RecordOf) × (each_read record_in rows.now ≡ Ok rs) × IsPermutation rs records.items × (rises record_order records.items ≡ true)) }
{
    store_rows::records_within(alloc, rows)
}
