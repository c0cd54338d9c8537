//! The one table of all refusals: the published number of each, or its code, its words, what it means, what to do, and the standard
//! that it comes from. Every crate above takes the words of its faults from here.
#![tactic(auto)]

mod laws;
mod number;
mod row;
mod table;
mod text;

pub use laws::{numbers_are_apart, rows_are_of_their_number, texts_are_plain};
pub use number::{all_rows, explained, words};
pub use row::{Kind, NumberPlace, RefusalRow};
pub use text::{json_text, plain_text};
