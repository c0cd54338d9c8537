//! The changes and the receipts of a zone, as objects of JSON.

ghost use Rattle.std.specs.Prelude.{◌≡◌, ◌++◌, ◌∷◌, [], OnOk, codes, decimal};
ghost use Rattle.zone_core.specs.Changes.{change_in};
ghost use Rattle.wire_json.specs.Json.{quoted};
ghost use Rattle.wire_json.specs.Replies.{lines_value, update_body};
ghost use Rattle.wire_json.specs.UpdateTexts.{update_text as body_text};
ghost use Rattle.cli_store.specs.Log.{numbered_as, change_object, receipt_object};

use dns_data::Record;
use office_model::{Reply, UpdateReply};
use std::alloc::{AllocError, Global};
use store_rows::KeptReceipt;
use wire_json::{push_lines, push_quoted, reply_text, update_text};
use zone_core::Change;

/// Appends a text, and after it records as an array of lines. The only error is out of memory.
fn push_records(
    text: &mut Vec<u8>,
    line: &mut String,
    key: &str,
    records: &[Record],
) -> Result<(), AllocError>
    ensures { OnOk result (text.new.items ≡ text.old.items ++ (key.now ++ lines_value records.now)) }
{
    text.extend_from_slice(key.as_bytes())?;
    push_lines(text, line, records)
}

/// Appends the key of a number, and after it the number. The only error is out of memory.
fn push_number(alloc: Global, text: &mut Vec<u8>, number: u64) -> Result<(), AllocError>
    ensures { OnOk result (text.new.items ≡ text.old.items ++ (codes ",\"number\":" ++ decimal number)) }
{
    let member = format!(in alloc; r#","number":{number}"#)?;
    text.extend_from_slice(member.as_bytes())
}

/// Appends a change with its number as an object, as the office answers it over HTTP, and a line end. The only error is out of memory.
pub(crate) fn push_change_object(
    alloc: Global,
    text: &mut Vec<u8>,
    number: u64,
    change: &Change,
) -> Result<(), AllocError>
    ensures { OnOk result (text.new.items ≡ text.old.items ++ (change_object (numbered_as number (change_in change.now)) ++ 10 ∷ [])) }
{
    let mut line = String::new(alloc);
    push_records(text, &mut line, r#"{"added":"#, &change.added)?;
    push_number(alloc, text, number)?;
    push_records(text, &mut line, r#","removed":"#, &change.removed)?;
    text.extend_from_slice(b"}\n")
}

/// Appends a reply, as the office answers it over HTTP. The only error is out of memory.
fn push_reply(alloc: Global, text: &mut Vec<u8>, reply: &UpdateReply) -> Result<(), AllocError>
    ensures { OnOk result (text.new.items ≡ text.old.items ++ (codes ",\"reply\":" ++ update_body reply.now)) }
{
    text.extend_from_slice(r#","reply":"#.as_bytes())?;
    reply_text(&Reply::Update(reply.try_copy(alloc)?), text)
}

/// Appends the caller of a receipt, and the brace before it. The only error is out of memory.
fn push_caller(text: &mut Vec<u8>, kept: &KeptReceipt) -> Result<(), AllocError>
    ensures { OnOk result (text.new.items ≡ text.old.items ++ (codes "{\"caller\":" ++ quoted kept.now.caller)) }
{
    text.extend_from_slice(r#"{"caller":"#.as_bytes())?;
    push_quoted(text, kept.caller.as_bytes())
}

/// Appends two texts. The only error is out of memory.
fn push_member(text: &mut Vec<u8>, key: &str, value: &[u8]) -> Result<(), AllocError>
    ensures { OnOk result (text.new.items ≡ text.old.items ++ (key.now ++ value.now)) }
{
    text.extend_from_slice(key.as_bytes())?;
    text.extend_from_slice(value)
}

/// Appends the request of a receipt, as the body that was sent. The only error is out of memory.
fn push_request(alloc: Global, text: &mut Vec<u8>, kept: &KeptReceipt) -> Result<(), AllocError>
    ensures { OnOk result (text.new.items ≡ text.old.items ++ (codes ",\"request\":" ++ body_text kept.now.id kept.now.receipt.update)) }
{
    let request = update_text(alloc, &kept.id, &kept.receipt.update)?;
    push_member(text, r#","request":"#, request.as_bytes())
}

/// Appends a receipt as an object: its caller, the body of the reply, and that of the request; and a line end. The only error is out of
/// memory.
pub(crate) fn push_receipt_object(
    alloc: Global,
    text: &mut Vec<u8>,
    kept: &KeptReceipt,
) -> Result<(), AllocError>
    ensures { OnOk result (text.new.items ≡ text.old.items ++ (receipt_object kept.now ++ 10 ∷ [])) }
{
    push_caller(text, kept)?;
    push_reply(alloc, text, &kept.receipt.reply)?;
    push_request(alloc, text, kept)?;
    text.extend_from_slice(b"}\n")?;
    Ok(())
}
