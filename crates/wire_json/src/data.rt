//! Record data in a text.

ghost use Rattle.std.specs.Prelude.{◌≡◌, ◌==◌, map, IfOk};
ghost use Rattle.std.specs.List.{list_all};
ghost use Rattle.dns_data.specs.Rdata.{type_of};
ghost use Rattle.wire_json.specs.Faults.{Gives};
ghost use Rattle.wire_json.specs.Bodies.{SpellsData};
ghost use Rattle.wire_json.specs.Reading.{data_of_text};

use crate::body_fault::BodyFault;
use dns_data::{Data, Item, RecordType, read_data};
use dns_master::{Token, tokens};
use std::alloc::{AllocError, Global};

/// Whether all tokens are of the first entry.
fn are_of_one_entry(tokens: &[Token]) -> bool
    ensures { result ≡ list_all (λ t. t.entry == 0) tokens.now }
{
    tokens.iter().all(|token| token.entry == 0)
}

/// The items of tokens, without their places.
fn items_of<'a>(alloc: Global, tokens: &[Token<'a>]) -> Result<Vec<Item<'a>>, AllocError>
    ensures { IfOk result (λ items. items.items ≡ map (λ t. t.item) tokens.now) }
{
    tokens.iter().map(|token| token.item).collect(alloc)
}

/// The data of a type that a text says: the items of one entry of a master file (RFC 1035 section 5.1), with absolute names.
pub(crate) fn data_of_text(
    alloc: Global,
    record_type: RecordType,
    text: &[u8],
) -> Result<Data, BodyFault>
    ensures exact { Gives (λ rdata. rdata) result (data_of_text record_type text.now) }
    ensures found { IfOk result (λ rdata. SpellsData rdata text.now) }
    ensures typed { IfOk result (λ rdata. type_of rdata ≡ record_type) }
{
    let tokens = tokens(alloc, text)?;
    if !are_of_one_entry(&tokens) {
        return Err(BodyFault::BadField);
    }
    let items = items_of(alloc, &tokens)?;
    Ok(read_data(alloc, record_type, &items, None)?)
}
