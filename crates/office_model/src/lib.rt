//! What callers ask of the office, what it replies and keeps, and the trait of a table that keeps
//! it.
#![tactic(auto)]

mod ahead;
mod included_records;
mod passed;
mod receipt;
mod record_lines;
mod reply;
mod reply_text;
mod request;
mod table;
mod table_fault;

pub use ahead::Ahead;
pub use included_records::{included, with_included};
pub use passed::Passed;
pub use receipt::{Addition, Receipt};
pub use record_lines::{RecordLines, first_line};
pub use reply::{NumberedChange, Reading, Reply, Right, SeenChange, UpdateReply};
pub use reply_text::reply_words;
pub use request::{Call, Query, Request};
pub use table::ZoneTable;
pub use table_fault::{StepFault, TableFault};
