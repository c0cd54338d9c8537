//! Replies to updates, as lines of words.

ghost use Rattle.std.specs.Prelude.{◌≡◌, ◌∷◌, ◌++◌, IfOk, decimal, string_bytes};
ghost use Rattle.dns_data.specs.Items.{item_text};
ghost use Rattle.office_model.specs.ReplyWords.{denier_item, reply_words};

use crate::reply::UpdateReply;
use grant_policy::{CLOSING, Identifier};
use std::alloc::{AllocError, Global};
use zone_core::ItemList;

/// An identifier that is this word, which no rule of a policy has.
const QUOTED_CLOSING: &str = "\"closing\"";

/// A reply in words, with one space between them: the name of its code; then, as far as it has them, the list, the item's number
/// from 0, and the identifier of the rule that denied it or `closing`. The only error is out of memory.
pub fn reply_words(alloc: Global, reply: &UpdateReply) -> Result<String, AllocError>
    ensures { IfOk result (λ words. string_bytes words ≡ reply_words reply.now) }
{
    let code = reply.rcode().text();
    match reply {
        UpdateReply::NoError | UpdateReply::NotAuth => String::from_str(alloc, code),
        UpdateReply::NotZone(place) => words_at(alloc, code, place.list.text(), place.item),
        UpdateReply::Refused { place, by } => {
            let words = words_at(alloc, code, place.list.text(), place.item)?;
            with_denier(words, by)
        }
        UpdateReply::Failed(failed) => {
            words_at(alloc, code, ItemList::Prerequisites.text(), failed.item)
        }
    }
}

/// A code, a list and the number of an item in it.
fn words_at(alloc: Global, code: &str, list: &str, item: usize) -> Result<String, AllocError>
    ensures { IfOk result (λ words. string_bytes words ≡ code.now ++ 32 ∷ (list.now ++ 32 ∷ decimal item)) }
{
    format!(in alloc; "{code} {list} {item}")
}

/// Words and one more.
fn with_word(mut words: String, word: &str) -> Result<String, AllocError>
    ensures { IfOk result (λ more. string_bytes more ≡ string_bytes words ++ 32 ∷ word.now) }
{
    words.push_str(" ")?;
    words.push_str(word)?;
    Ok(words)
}

/// Words, and who denies an item: a rule, or the closing default.
fn with_denier(words: String, by: &Option<Identifier>) -> Result<String, AllocError>
    ensures { IfOk result (λ more. string_bytes more ≡ string_bytes words ++ 32 ∷ item_text (denier_item by.now)) }
{
    match by {
        None => with_word(words, CLOSING),
        Some(rule) if rule.as_bytes() == CLOSING.as_bytes() => with_word(words, QUOTED_CLOSING),
        Some(rule) => with_word(words, rule.as_str()),
    }
}
