//! Replies in words.

use crate::columns::text_of;
use crate::refusal::Refusal;
use grant_policy::Identifier;
use office_model::{UpdateReply, reply_words};
use std::alloc::Global;
use store_rows::read_reply;
use zone_core::{Failed, ItemList, Place};

/// Appends the reply of words: its words again, and then its code, its item and its rule.
pub fn push_reply(alloc: Global, words: &[u8], answer: &mut Vec<u8>) -> Result<(), Refusal> {
    push_read_reply(alloc, &read_reply(alloc, text_of(words)?)?, answer)
}

fn push_read_reply(
    alloc: Global,
    reply: &UpdateReply,
    answer: &mut Vec<u8>,
) -> Result<(), Refusal> {
    answer.extend_from_slice(reply_words(alloc, reply)?.as_bytes())?;
    answer.extend_from_slice(b": code ")?;
    answer.extend_from_slice(reply.rcode().text().as_bytes())?;
    match reply {
        UpdateReply::NoError | UpdateReply::NotAuth => Ok(()),
        UpdateReply::NotZone(place) => push_place(alloc, *place, answer),
        UpdateReply::Refused { place, by } => {
            push_place(alloc, *place, answer)?;
            push_rule(by, answer)
        }
        UpdateReply::Failed(failed) => push_failed(alloc, *failed, answer),
    }
}

fn push_rule(by: &Option<Identifier>, answer: &mut Vec<u8>) -> Result<(), Refusal> {
    if let Some(rule) = by {
        answer.extend_from_slice(b", rule ")?;
        answer.extend_from_slice(rule.as_bytes())?;
    }
    Ok(())
}

fn push_failed(alloc: Global, failed: Failed, answer: &mut Vec<u8>) -> Result<(), Refusal> {
    let item = format!(in alloc; ", prerequisite {} failed", failed.item)?;
    Ok(answer.extend_from_slice(item.as_bytes())?)
}

fn push_place(alloc: Global, place: Place, answer: &mut Vec<u8>) -> Result<(), Refusal> {
    let list = match place.list {
        ItemList::Prerequisites => "prerequisite",
        ItemList::Operations => "operation",
    };
    let place = format!(in alloc; ", {list} {}", place.item)?;
    Ok(answer.extend_from_slice(place.as_bytes())?)
}
