//! Rows of the test programs: what such a program reads from its standard input, and how it prints what it answers.
//!
//! A row is a line `VERB TEXT`. Lines `| TEXT` after it are its body, each with a line end, or `|- TEXT` with none. All other
//! lines, blank ones and those that begin with `;`, are printed as they are: so a comment above a row gives its reason in both
//! files. In a row `<0D>` stands for the octet of that number, and `<a.*127>` for the octets `a.` 127 times. In an answer the
//! octets outside printable ASCII are written in the same way.
#![tactic(auto)]

mod answering;
mod octets;
mod rows;

pub use answering::{Answers, push_unanswered, run};
pub use octets::push_repeated;
pub use rows::{Row, number, text_of, word};
