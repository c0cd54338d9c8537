//! The rows of `receipts`.

ghost use Rattle.std.specs.Prelude.{◌≡◌, List, ℕ, Ok, IfOk};
ghost use Rattle.office_model.specs.declared.receipt.Receipt.{Receipt as ReceiptOf};
ghost use Rattle.store_rows.specs.Contents.{ReceiptAt, receipt_under, row_of_receipt, IsReceiptAt};
ghost use Rattle.store_rows.specs.ReceiptRows.{receipt_row, IsRowOfReceipt, IsReceipt};
ghost use Rattle.store_rows.specs.RowFaults.{Reads};
ghost use Rattle.store_rows.specs.RowReading.{request_in, request_at, receipt_in};

use crate::columns::name_from;
use crate::receipt_reader::ReceiptReader;
use crate::replies::{reply_in, reveal_reply};
use crate::row_fault::RowFault;
use grant_policy::Identifier;
use office_model::{Receipt, reply_words};
use std::alloc::{AllocError, Global};
use store_sql::ReceiptRow;
use update_lines::{items_text, read_items};
use zone_core::Update;

/// A receipt is of an origin, an update and a reply. Only proofs need it.
pub(crate) fn reveal_receipt(receipt: &Receipt)
    ensures { IsReceipt receipt.now }
{
    let _ = receipt.origin.labels();
    let _ = receipt.update.operations();
    reveal_reply(&receipt.reply);
}

/// And it is kept under two identifiers. Only proofs need it.
pub(crate) fn reveal_caller_receipt(caller: &Identifier, id: &Identifier, receipt: &Receipt)
    ensures { IsReceiptAt (receipt_under caller.now id.now receipt.now) }
{
    let _ = caller.as_bytes();
    let _ = id.as_bytes();
    reveal_receipt(receipt);
}

/// The row of the receipt of a caller under an identifier: the request by its item lines, and the reply by its words. The only
/// error is out of memory.
pub fn receipt_row(
    alloc: Global,
    caller: &Identifier,
    id: &Identifier,
    receipt: &Receipt,
) -> Result<ReceiptRow, AllocError>
    ensures row { IfOk result (λ row. row ≡ receipt_row caller.now id.now receipt.now) }
    // What all receipts are.
    ensures receipt { IsReceiptAt (receipt_under caller.now id.now receipt.now) }
{
    reveal_caller_receipt(caller, id, receipt);
    let caller = caller.as_str();
    let id = id.as_str();
    Ok(ReceiptRow {
        caller: String::from_str(alloc, caller)?,
        id: String::from_str(alloc, id)?,
        origin: receipt.origin.text(alloc)?,
        request: items_text(alloc, &receipt.update)?,
        reply: reply_words(alloc, &receipt.reply)?,
    })
}

/// Reads a row of `receipts`: the caller, the identifier, and the receipt under it. The reply may be in the wording of rows that
/// were written before, as `read_reply` has it. A row that is that of no receipt is `BadRow`: a text is in another spelling than the
/// canonical one, or is no identifier, no name, no update or no reply.
pub fn read_receipt(
    alloc: Global,
    row: &ReceiptRow,
) -> Result<(Identifier, Identifier, Receipt), RowFault>
    // The row is that of what is read.
    ensures found { IfOk result (λ x. IsRowOfReceipt x.0 x.1 x.2 row.now × IsReceiptAt (receipt_under x.0 x.1 x.2)) }
    // The row of a receipt is read as this receipt, unless memory runs out.
    ensures only { (r : ReceiptAt) → IsReceiptAt r → row.now ≡ row_of_receipt r
        → Reads {Y = List ℕ × (List ℕ × ReceiptOf)} (λ x. (x.0, (x.1, x.2))) result (Ok (r.caller, (r.id, r.receipt))) }
{
    ReceiptReader::new().read_row(alloc, row)
}

/// Reads the item lines of an update, as `items_text` gives them. Any other text is `BadRow`.
pub(crate) fn request_at(alloc: Global, text: &str) -> Result<Update, RowFault>
    ensures { Reads (λ update. update) result (request_at text.now) }
{
    let update = request_in(alloc, text)?;
    if items_text(alloc, &update)?.as_str() != text {
        return Err(RowFault::BadRow);
    }
    Ok(update)
}

/// The update of item lines.
fn request_in(alloc: Global, text: &str) -> Result<Update, RowFault>
    ensures { Reads (λ update. update) result (request_in text.now) }
{
    Ok(read_items(alloc, text.as_bytes())?)
}

/// The receipt of a row that is known to be that of a receipt. Its caller, its identifier and its spelling are not looked at.
pub(crate) fn stored_receipt(alloc: Global, row: &ReceiptRow) -> Result<Receipt, RowFault>
    ensures { Reads (λ receipt. receipt) result (receipt_in row.now) }
{
    let origin = name_from(alloc, row.origin.as_str())?;
    let update = request_in(alloc, row.request.as_str())?;
    let reply = reply_in(alloc, row.reply.as_str())?;
    Ok(Receipt {
        origin,
        update,
        reply,
    })
}
