//! The update of a text of item lines.

ghost use Rattle.std.specs.Prelude.{◌≡◌, ◌<◌, ◌++◌, ◌==◌, map, Ok, IfOk, OnOk};
ghost use Rattle.std.specs.List.{AllByRecursion, prefix_len};
ghost use Rattle.dns_master.specs.Tokens.{token_of};
ghost use Rattle.zone_core.specs.Updates.{UpdateOf, IsUpdate, update_of};
ghost use Rattle.update_lines.specs.ItemLines.{IsUpdateText};
ghost use Rattle.update_lines.specs.ItemFaults.{Gives, of_shape, of_updates};
ghost use Rattle.update_lines.specs.Reading.{update_item, no_items, behind, one_item, or_bad_line, lists_in, lists_of, items_of};
ghost use Rattle.update_lines.specs.Views.{entry_of, gathered, lists_view};

use crate::item::{UpdateItem, read_item};
use crate::items_fault::ItemsFault;
use dns_data::Item;
use dns_master::{MasterFault, Token, tokens};
use std::alloc::{AllocError, Global};
use zone_core::{Operation, Prerequisite, Update};

/// The items of an update, each list in order.
#[derive(Drop)]
pub struct ItemLists {
    /// The prerequisites.
    pub prerequisites: Vec<Prerequisite>,
    /// The operations.
    pub operations: Vec<Operation>,
}

impl ItemLists {
    /// No items.
    fn new(alloc: Global) -> ItemLists
        ensures { lists_view result ≡ no_items }
    {
        ItemLists {
            prerequisites: Vec::new(alloc),
            operations: Vec::new(alloc),
        }
    }

    /// Takes an item after the others.
    fn push(&mut self, item: UpdateItem) -> Result<(), AllocError>
        ensures { OnOk result (lists_view self.new ≡ behind (lists_view self.old) (one_item item)) }
    {
        match item {
            UpdateItem::Prerequisite(prerequisite) => self.prerequisites.push(prerequisite)?,
            UpdateItem::Operation(operation) => self.operations.push(operation)?,
        }
        Ok(())
    }
}

/// The fault of a text whose parentheses or quotes are wrong.
fn of_shape(fault: MasterFault) -> ItemsFault
    ensures { result ≡ of_shape fault }
{
    match fault.line() {
        Some(line) => ItemsFault::BadLine(line),
        None => ItemsFault::NoMemory,
    }
}

/// How many tokens there are before the first of another entry.
fn entry_len(tokens: &[Token], entry: usize) -> usize
    ensures { result ≡ prefix_len (λ t. t.entry == entry) tokens.now }
{
    tokens
        .iter()
        .take_while(|token| token.entry == entry)
        .count()
}

/// The items of tokens, without their places. The only error is out of memory.
pub fn entry_items<'a>(alloc: Global, tokens: &[Token<'a>]) -> Result<Vec<Item<'a>>, AllocError>
    ensures { IfOk result (λ v. v.items ≡ map (λ t. t.item) tokens.now) }
{
    tokens.iter().map(|token| token.item).collect(alloc)
}

/// The item of an update that the tokens of an entry are, the first of which is on this line.
fn read_entry(alloc: Global, line: usize, tokens: &[Token]) -> Result<UpdateItem, ItemsFault>
    ensures { Gives (λ item. item) result (or_bad_line line (update_item (entry_of tokens.now))) }
{
    let items = entry_items(alloc, tokens)?;
    match read_item(alloc, &items) {
        Ok(item) => Ok(item),
        Err(fault) => Err(fault.on_line(line)),
    }
}

/// The items of all entries, or the line of the first entry that is not an item.
fn read_lists(alloc: Global, tokens: &[Token]) -> Result<ItemLists, ItemsFault>
    ensures { Gives lists_view result (lists_in (gathered (map token_of tokens.now))) }
{
    let mut lists = ItemLists::new(alloc);
    let mut at = 0;
    while at < tokens.len() {
        let Token { line, entry, .. } = tokens[at];
        let (_, rest) = tokens.split_at(at);
        let len = entry_len(rest, entry);
        lists.push(read_entry(alloc, line, &rest[..len])?)?;
        at += len;
    }
    Ok(lists)
}

/// The items of a text, or the line of what is no item.
fn lists_of(alloc: Global, text: &[u8]) -> Result<ItemLists, ItemsFault>
    ensures { Gives lists_view result (lists_of text.now) }
{
    match tokens(alloc, text) {
        Ok(tokens) => read_lists(alloc, &tokens),
        Err(fault) => Err(of_shape(fault)),
    }
}

/// The update of a text, or its first refusal.
fn items_of(alloc: Global, text: &[u8]) -> Result<Update, ItemsFault>
    ensures update { IfOk result IsUpdate }
    ensures exact { Gives (λ u. u) result (items_of text.now) }
{
    let ItemLists {
        prerequisites,
        operations,
    } = lists_of(alloc, text)?;
    Ok(Update::build(prerequisites, operations)?)
}

/// A text has octets. Only proofs need it.
fn reveal_octets(text: &[u8])
    ensures { AllByRecursion (λ o. o < 256) text.now }
{
    let _ = text;
}

/// Reads item lines: each entry of the text that is not blank (RFC 1035 section 5.1) is a prerequisite or an operation of one
/// update (RFC 2136 sections 2.4 and 2.5), a word and fields after it:
///
/// ```text
/// rrset-exists NAME TYPE
/// rrset-equals NAME TYPE DATA
/// rrset-absent NAME TYPE
/// name-used NAME
/// name-unused NAME
/// add NAME TTL TYPE DATA
/// delete-rrset NAME TYPE
/// delete-name NAME
/// delete-record NAME TYPE DATA
/// ```
///
/// Words are read as they are written here, types in either letter case; names are absolute; a TTL is one of a master file.
/// None of these stands in quotes. Prerequisites and operations may be mixed; each list keeps its order.
///
/// Of several refusals the first of these is answered: `BadLine` with the line of a parenthesis or quote at fault, wherever in
/// the text it is, as `dns_master::tokens` has it; `BadLine` with the line of the first item of the first entry that is no item;
/// `Update` with `TooManyItems`, and then with `TwoSoa`. `NoMemory` comes at the growth that was refused.
pub fn read_items(alloc: Global, text: &[u8]) -> Result<Update, ItemsFault>
    // The text has the items of what is read.
    ensures found { IfOk result (IsUpdateText text.now) }
    // What is read is an update.
    ensures update { IfOk result IsUpdate }
    // A text that has the items of two lists is read as the update of these lists, or refused as they are, unless memory runs out.
    ensures only { (update : UpdateOf) → IsUpdateText text.now update → Gives (λ u. u) result (of_updates (update_of update.prerequisites update.operations)) }
    // Which refusal it is.
    ensures exact { Gives (λ u. u) result (items_of text.now) }
{
    reveal_octets(text);
    items_of(alloc, text)
}

/// Reads item lines as `read_items` does, however many items there are: they need not make an update. The refusals are `BadLine`, as
/// there, and `NoMemory`.
pub fn read_item_lists(alloc: Global, text: &[u8]) -> Result<ItemLists, ItemsFault>
    ensures { Gives lists_view result (lists_of text.now) }
{
    lists_of(alloc, text)
}
