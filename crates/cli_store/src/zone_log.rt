//! The changes and the receipts of a zone, as text.

ghost use Rattle.std.specs.Prelude.{◌≡◌, ◌++◌, [], ◌∷◌, map, IfOk, OnOk, string_bytes};
ghost use Rattle.std.specs.List.{filter, flat_map};
ghost use Rattle.zone_core.specs.Changes.{change_in};
ghost use Rattle.office_core.specs.Machine.{numbered};
ghost use Rattle.cli_store.specs.Log.{numbered_as, change_text, receipt_line, receipt_text, change_shown, receipt_shown, asks_change, asks_receipt, changes_asked, receipts_asked, log_text};

use crate::log_choice::LogAsked;
use crate::log_object::{push_change_object, push_receipt_object};
use cli_core::TextForm;
use cli_updates::push_signed;
use office_model::reply_words;
use std::alloc::{AllocError, Global};
use std::fmt::Write as _;
use store_rows::KeptReceipt;
use update_lines::items_text;
use zone_core::Change;

/// Appends a change with its number: the records that went, and those that came. The only error is out of memory.
fn push_change(text: &mut String, number: u64, change: &Change) -> Result<(), AllocError>
    ensures { OnOk result (string_bytes text.new ≡ string_bytes text.old ++ change_text (numbered_as number (change_in change.now))) }
{
    writeln!(text, "change {number}")?;
    push_signed(text, "-", &change.removed)?;
    push_signed(text, "+", &change.added)
}

/// Appends a change in a form. The only error is out of memory.
fn push_shown_change(
    alloc: Global,
    text: &mut Vec<u8>,
    form: TextForm,
    number: u64,
    change: &Change,
) -> Result<(), AllocError>
    ensures { OnOk result (text.new.items ≡ text.old.items ++ change_shown form (numbered_as number (change_in change.now))) }
{
    match form {
        TextForm::Plain => {
            let mut lines = String::new(alloc);
            push_change(&mut lines, number, change)?;
            text.extend_from_slice(lines.as_bytes())
        }
        TextForm::Json => push_change_object(alloc, text, number, change),
    }
}

/// Appends a change, if it is asked for. The only error is out of memory.
fn push_asked_change(
    alloc: Global,
    text: &mut Vec<u8>,
    asked: &LogAsked,
    number: u64,
    change: &Change,
) -> Result<(), AllocError>
    ensures { OnOk result
        (text.new.items ≡ text.old.items ++ flat_map (change_shown asked.now.form) (filter (asks_change asked.now) (numbered_as number (change_in change.now) ∷ []))) }
{
    if !asked.asks_change(number, change) {
        return Ok(());
    }
    push_shown_change(alloc, text, asked.form, number, change)
}

/// Appends those of the changes that are asked for, where changes are. The only error is out of memory.
fn push_asked_changes(
    alloc: Global,
    text: &mut Vec<u8>,
    asked: &LogAsked,
    changes: &[Change],
) -> Result<(), AllocError>
    ensures { OnOk result
        (text.new.items ≡ text.old.items ++ flat_map (change_shown asked.now.form) (filter (asks_change asked.now) (numbered 1 (map change_in changes.now)))) }
{
    for (i, change) in changes.iter().enumerate() {
        push_asked_change(alloc, text, asked, i as u64 + 1, change)?;
    }
    Ok(())
}

/// Appends those of the changes that are asked for. The only error is out of memory.
fn push_changes(
    alloc: Global,
    text: &mut Vec<u8>,
    asked: &LogAsked,
    changes: &[Change],
) -> Result<(), AllocError>
    ensures { OnOk result (text.new.items ≡ text.old.items ++ flat_map (change_shown asked.now.form) (changes_asked asked.now (map change_in changes.now))) }
{
    if !asked.asks_changes() {
        return Ok(());
    }
    push_asked_changes(alloc, text, asked, changes)
}

/// Appends the line of a receipt. The only error is out of memory.
fn push_receipt_line(alloc: Global, text: &mut String, kept: &KeptReceipt) -> Result<(), AllocError>
    ensures { OnOk result (string_bytes text.new ≡ string_bytes text.old ++ receipt_line kept.now) }
{
    let answer = reply_words(alloc, &kept.receipt.reply)?;
    let caller = kept.caller.as_str();
    let id = kept.id.as_str();
    writeln!(text, "receipt {caller} {id} {answer}")
}

/// Appends a receipt with the items of its update. The only error is out of memory.
fn push_receipt(alloc: Global, text: &mut String, kept: &KeptReceipt) -> Result<(), AllocError>
    ensures { OnOk result (string_bytes text.new ≡ string_bytes text.old ++ receipt_text kept.now) }
{
    push_receipt_line(alloc, text, kept)?;
    let items = items_text(alloc, &kept.receipt.update)?;
    text.push_str(&items)
}

/// Appends a receipt in a form. The only error is out of memory.
fn push_shown_receipt(
    alloc: Global,
    text: &mut Vec<u8>,
    form: TextForm,
    kept: &KeptReceipt,
) -> Result<(), AllocError>
    ensures { OnOk result (text.new.items ≡ text.old.items ++ receipt_shown form kept.now) }
{
    match form {
        TextForm::Plain => {
            let mut lines = String::new(alloc);
            push_receipt(alloc, &mut lines, kept)?;
            text.extend_from_slice(lines.as_bytes())
        }
        TextForm::Json => push_receipt_object(alloc, text, kept),
    }
}

/// Appends a receipt, if it is asked for. The only error is out of memory.
fn push_asked_receipt(
    alloc: Global,
    text: &mut Vec<u8>,
    asked: &LogAsked,
    kept: &KeptReceipt,
) -> Result<(), AllocError>
    ensures { OnOk result (text.new.items ≡ text.old.items ++ flat_map (receipt_shown asked.now.form) (filter (asks_receipt asked.now) (kept.now ∷ []))) }
{
    if !asked.asks_receipt(kept) {
        return Ok(());
    }
    push_shown_receipt(alloc, text, asked.form, kept)
}

/// Appends those of the receipts that are asked for, where receipts are. The only error is out of memory.
fn push_asked_receipts(
    alloc: Global,
    text: &mut Vec<u8>,
    asked: &LogAsked,
    all: &[KeptReceipt],
) -> Result<(), AllocError>
    ensures { OnOk result (text.new.items ≡ text.old.items ++ flat_map (receipt_shown asked.now.form) (filter (asks_receipt asked.now) all.now)) }
{
    for kept in all {
        push_asked_receipt(alloc, text, asked, kept)?;
    }
    Ok(())
}

/// Appends those of the receipts that are asked for. The only error is out of memory.
fn push_receipts(
    alloc: Global,
    text: &mut Vec<u8>,
    asked: &LogAsked,
    all: &[KeptReceipt],
) -> Result<(), AllocError>
    ensures { OnOk result (text.new.items ≡ text.old.items ++ flat_map (receipt_shown asked.now.form) (receipts_asked asked.now all.now)) }
{
    if !asked.asks_receipts() {
        return Ok(());
    }
    push_asked_receipts(alloc, text, asked, all)
}

/// The log of a zone, as far as it is asked for: of each change, in order, a line `change NUMBER`, the records that went, each after `-`,
/// and those that came, each after `+`; then of each receipt, in the order in which they come, a line `receipt CALLER ID ANSWER` and the
/// items of its update, as `items_text` prints them; or of each an object of JSON on a line of its own. The changes are all of the zone, from the first on. The only error is out of memory.
pub fn log_text(
    alloc: Global,
    asked: &LogAsked,
    changes: &[Change],
    kept: &[KeptReceipt],
) -> Result<Vec<u8>, AllocError>
    ensures { IfOk result (λ text. text.items ≡ log_text asked.now (map change_in changes.now) kept.now) }
{
    let mut text = Vec::new(alloc);
    push_changes(alloc, &mut text, asked, changes)?;
    push_receipts(alloc, &mut text, asked, kept)?;
    Ok(text)
}
