//! The rows of `receipts`, read one after the other.

ghost use Rattle.std.specs.Prelude.{◌≡◌, List, ℕ, Ok, IfOk};
ghost use Rattle.std.specs.List.{AllByRecursion};
ghost use Rattle.office_model.specs.declared.receipt.Receipt.{Receipt as ReceiptOf};
ghost use Rattle.store_rows.specs.Contents.{ReceiptAt, receipt_under, row_of_receipt, IsReceiptAt};
ghost use Rattle.store_rows.specs.ReceiptRows.{HasReceipt, IsRowOfReceipt, IsReceipt};
ghost use Rattle.store_rows.specs.RowFaults.{Reads};
ghost use Rattle.store_rows.specs.Checks.{Checks, IsReceiptRow};

use crate::columns::identifier_in;
use crate::name_reader::NameReader;
use crate::receipts::{request_at, reveal_caller_receipt, reveal_receipt};
use crate::replies::read_reply;
use crate::row_fault::RowFault;
use grant_policy::Identifier;
use office_model::Receipt;
use std::alloc::Global;
use store_sql::{ReceiptRow, RowCheck, RowsFault};

/// Reads rows of `receipts`, as `read_receipt` does. It keeps the last origin, so that a text that comes again is not read again. As a
/// check it takes the rows that are read so, and keeps nothing of them.
#[derive(Drop)]
pub struct ReceiptReader {
    origins: NameReader,
}

impl ReceiptReader {
    /// A reader that has read nothing.
    pub const fn new() -> ReceiptReader {
        ReceiptReader {
            origins: NameReader::new(),
        }
    }

    /// Reads the receipt of a row, whatever its caller and identifier.
    fn receipt_in(&mut self, alloc: Global, row: &ReceiptRow) -> Result<Receipt, RowFault>
        ensures found { IfOk result (λ receipt. HasReceipt row.now receipt × IsReceipt receipt) }
        ensures only { (r : ReceiptAt) → IsReceiptAt r → row.now ≡ row_of_receipt r → Reads (λ receipt. receipt) result (Ok r.receipt) }
    {
        let origin = self.origins.read(alloc, row.origin.as_str())?;
        let update = request_at(alloc, row.request.as_str())?;
        let reply = read_reply(alloc, row.reply.as_str())?;
        let receipt = Receipt {
            origin,
            update,
            reply,
        };
        reveal_receipt(&receipt);
        Ok(receipt)
    }

    /// Reads the next row.
    pub(crate) fn read_row(
        &mut self,
        alloc: Global,
        row: &ReceiptRow,
    ) -> Result<(Identifier, Identifier, Receipt), RowFault>
        // The row is that of what is read.
        ensures found { IfOk result (λ x. IsRowOfReceipt x.0 x.1 x.2 row.now × IsReceiptAt (receipt_under x.0 x.1 x.2)) }
        // The row of a receipt is read as this receipt, unless memory runs out.
        ensures only { (r : ReceiptAt) → IsReceiptAt r → row.now ≡ row_of_receipt r
            → Reads {Y = List ℕ × (List ℕ × ReceiptOf)} (λ x. (x.0, (x.1, x.2))) result (Ok (r.caller, (r.id, r.receipt))) }
    {
        let caller = identifier_in(alloc, row.caller.as_bytes())?;
        let id = identifier_in(alloc, row.id.as_bytes())?;
        let receipt = self.receipt_in(alloc, row)?;
        reveal_caller_receipt(&caller, &id, &receipt);
        Ok((caller, id, receipt))
    }

    /// Checks the next row, which is `BadRow` where it is that of no receipt.
    fn check_row(&mut self, alloc: Global, row: &ReceiptRow) -> Result<(), RowFault>
        ensures { Checks (IsReceiptRow row.now) result }
    {
        let _read = self.read_row(alloc, row)?;
        Ok(())
    }
}

impl RowCheck<ReceiptRow> for ReceiptReader {
    ghost has_taken = { λ _ rows. AllByRecursion IsReceiptRow rows };

    ghost is_good = { IsReceiptRow };

    fn take(&mut self, alloc: Global, row: ReceiptRow) -> Result<(), RowsFault> {
        Ok(self.check_row(alloc, &row)?)
    }
}
