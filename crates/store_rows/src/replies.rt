//! Replies to updates, read from their words.

ghost use Rattle.std.specs.Prelude.{◌≡◌, ◌↔◌, ◌<◌, ◌^◌, ◌∷◌, ◌++◌, [], map, true, nat_le, if◌then◌else◌, Some, None, Ok, IfOk, codes};
ghost use Rattle.std.specs.Str.Parse.{digits_value};
ghost use Rattle.dns_data.specs.Items.{item_of};
ghost use Rattle.dns_data.specs.Numbers.{is_number};
ghost use Rattle.office_model.specs.declared.reply.UpdateReply.{UpdateReply as ReplyOf};
ghost use Rattle.office_model.specs.ReplyWords.{reply_words, is_by_default, AreWordsOf, IsReply};
ghost use Rattle.store_rows.specs.RowFaults.{Reads};
ghost use Rattle.store_rows.specs.RowReading.{number_named, reply_alone, reply_with, reply_at, denier_in, denied_by, reply_of, reply_in};

use crate::columns::{fields_of, identifier_in};
use crate::row_fault::RowFault;
use dns_data::{Item, is_number};
use grant_policy::{CLOSING, Identifier};
use office_model::{UpdateReply, reply_words};
use std::alloc::{AllocError, Global};
use zone_core::{Failed, ItemList, Place, PrerequisiteCode, Rcode};

/// Reads a reply in words, as `reply_words` gives them, or as they were written once: a denial by the closing default had no
/// word for it. Any other text is `BadRow`.
pub fn read_reply(alloc: Global, words: &str) -> Result<UpdateReply, RowFault>
    // The words are those of what is read.
    ensures found { IfOk result (λ reply. AreWordsOf reply words.now × IsReply reply) }
    // The words of a reply are read as this reply, unless memory runs out.
    ensures only { (reply : ReplyOf) → IsReply reply → AreWordsOf reply words.now → Reads (λ read. read) result (Ok reply) }
{
    // most receipts are of updates that were made
    if words == Rcode::NoError.text() {
        return Ok(UpdateReply::NoError);
    }
    let reply = reply_in(alloc, words)?;
    let written = reply_words(alloc, &reply)?;
    if !are_words_of(words, written.as_str(), &reply) {
        return Err(RowFault::BadRow);
    }
    reveal_reply(&reply);
    Ok(reply)
}

/// Whether words are those of a reply, of which these are written now.
fn are_words_of(words: &str, written: &str, reply: &UpdateReply) -> bool
    requires { written.now ≡ reply_words reply.now }
    ensures { (result ≡ true) ↔ AreWordsOf reply.now words.now }
{
    words == written || (is_by_default(reply) && ends_in_closing(words, written))
}

/// Whether a reply is a denial by the closing default.
fn is_by_default(reply: &UpdateReply) -> bool
    ensures { result ≡ is_by_default reply.now }
{
    matches!(reply, UpdateReply::Refused { by: None, .. })
}

/// Whether a text is another one and the word of the closing default.
fn ends_in_closing(words: &str, written: &str) -> bool
    ensures { (result ≡ true) ↔ (written.now ≡ words.now ++ codes " closing") }
{
    match written.as_bytes().strip_suffix(b" closing".as_slice()) {
        Some(front) => front == words.as_bytes(),
        None => false,
    }
}

/// The reply of words, whatever their spelling.
pub(crate) fn reply_in(alloc: Global, words: &str) -> Result<UpdateReply, RowFault>
    ensures { Reads (λ reply. reply) result (reply_in words.now) }
{
    let fields = fields_of(alloc, words)?;
    reply_of(alloc, &fields)
}

/// The number of an item has 64 bits, and a rule has an identifier. Only proofs need it.
pub(crate) fn reveal_reply(reply: &UpdateReply)
    ensures { IsReply reply.now }
{
    match reply {
        UpdateReply::NoError | UpdateReply::NotAuth => {}
        UpdateReply::NotZone(place) => reveal_number(&place.item),
        UpdateReply::Refused { place, by } => {
            reveal_number(&place.item);
            if let Some(rule) = by {
                let _ = rule.as_bytes();
            }
        }
        UpdateReply::Failed(failed) => reveal_number(&failed.item),
    }
}

/// A number has 64 bits. Only proofs need it.
fn reveal_number(number: &usize)
    ensures { number.now < 2 ^ 64 }
{
    let _number = *number;
}

/// The number that decimal digits write, unless it is above `most`.
fn digits_up_to(digits: &[u8], most: usize) -> Option<usize>
    requires { is_number digits.now ≡ true }
    ensures { result ≡ (if nat_le (digits_value 10 digits.now) most then Some (digits_value 10 digits.now) else None) }
{
    let mut value: usize = 0;
    for digit in digits {
        value = value
            .checked_mul(10)?
            .checked_add(usize::from(*digit - b'0'))?;
    }
    if value > most { None } else { Some(value) }
}

/// The number that a word writes.
fn number_named(word: &[u8]) -> Option<usize>
    ensures { result ≡ number_named word.now }
{
    if !is_number(word) {
        return None;
    }
    digits_up_to(word, usize::MAX)
}

/// The reply that is a code alone.
fn reply_alone(code: Rcode) -> Result<UpdateReply, RowFault>
    ensures { result ≡ reply_alone code }
{
    match code {
        Rcode::NoError => Ok(UpdateReply::NoError),
        Rcode::NotAuth => Ok(UpdateReply::NotAuth),
        _ => Err(RowFault::BadRow),
    }
}

/// The reply of a code at an item of a list.
fn reply_with(code: Rcode, list: ItemList, item: usize) -> Result<UpdateReply, RowFault>
    ensures { result ≡ reply_with code list item }
{
    let code = match (code, list) {
        (Rcode::NotZone, list) => return Ok(UpdateReply::NotZone(Place { list, item })),
        (Rcode::Refused, list) => {
            return Ok(UpdateReply::Refused {
                place: Place { list, item },
                by: None,
            });
        }
        (Rcode::NxDomain, ItemList::Prerequisites) => PrerequisiteCode::NxDomain,
        (Rcode::YxDomain, ItemList::Prerequisites) => PrerequisiteCode::YxDomain,
        (Rcode::YxRrset, ItemList::Prerequisites) => PrerequisiteCode::YxRrset,
        (Rcode::NxRrset, ItemList::Prerequisites) => PrerequisiteCode::NxRrset,
        _ => return Err(RowFault::BadRow),
    };
    Ok(UpdateReply::Failed(Failed { code, item }))
}

/// The reply of a code, a list and the number of an item.
fn reply_at(code: &[u8], list: &[u8], item: &[u8]) -> Result<UpdateReply, RowFault>
    ensures { result ≡ reply_at code.now list.now item.now }
{
    let code = Rcode::read(code).ok_or(RowFault::BadRow)?;
    let list = ItemList::read(list).ok_or(RowFault::BadRow)?;
    let item = number_named(item).ok_or(RowFault::BadRow)?;
    reply_with(code, list, item)
}

/// Who denied an item: the closing default, by its word, which is not in quotes, or a rule.
fn denier_in(alloc: Global, word: &Item) -> Result<Option<Identifier>, RowFault>
    ensures { Reads (λ by. by) result (denier_in (item_of word.now)) }
{
    if !word.quoted && word.raw == CLOSING.as_bytes() {
        return Ok(None);
    }
    Ok(Some(identifier_in(alloc, word.raw)?))
}

/// A denial, with who denied it.
fn denied_by(reply: UpdateReply, by: Option<Identifier>) -> Result<UpdateReply, RowFault>
    ensures { result ≡ denied_by reply by }
{
    match reply {
        UpdateReply::Refused { place, by: None } => Ok(UpdateReply::Refused { place, by }),
        _ => Err(RowFault::BadRow),
    }
}

/// The reply of a code, a list, the number of an item and who denied it.
fn reply_by(
    alloc: Global,
    code: &Item,
    list: &Item,
    item: &Item,
    by: &Item,
) -> Result<UpdateReply, RowFault>
    ensures { Reads (λ reply. reply) result (reply_of (item_of code.now ∷ item_of list.now ∷ item_of item.now ∷ item_of by.now ∷ [])) }
{
    let by = denier_in(alloc, by)?;
    denied_by(reply_at(code.raw, list.raw, item.raw)?, by)
}

/// The reply of words.
fn reply_of(alloc: Global, words: &[Item]) -> Result<UpdateReply, RowFault>
    ensures { Reads (λ reply. reply) result (reply_of (map item_of words.now)) }
{
    match words {
        [] => Err(RowFault::BadRow),
        [code] => reply_alone(Rcode::read(code.raw).ok_or(RowFault::BadRow)?),
        [_, _] => Err(RowFault::BadRow),
        [code, list, item] => reply_at(code.raw, list.raw, item.raw),
        [code, list, item, by] => reply_by(alloc, code, list, item, by),
        [_, _, _, _, _, ..] => Err(RowFault::BadRow),
    }
}
