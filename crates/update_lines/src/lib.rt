//! Reads and prints an update as item lines, each of which is one prerequisite or one operation
//! (RFC 2136 sections 2.4 and 2.5).
#![tactic(auto)]

mod item;
mod item_fault;
mod items_fault;
mod laws;
mod lines;
mod text;

pub use items_fault::ItemsFault;
pub use laws::items_are_read;
pub use lines::{ItemLists, entry_items, read_item_lists, read_items};
pub use text::{items_text, lists_text};
