//! The bodies of requests and replies in JSON (RFC 8259): reading updates and delegations, and printing updates and
//! what the office replies.
#![tactic(auto)]

mod body;
mod body_fault;
mod data;
mod delegation;
mod field;
mod field_values;
mod item;
mod laws;
mod listing;
mod piece;
mod reply;
mod server;
mod short;
mod update;
mod update_body;
mod value;

pub use body::UpdateBody;
pub use body_fault::BodyFault;
pub use delegation::read_delegation;
pub use laws::delegations_are_one;
pub use listing::{push_lines, push_name};
pub use piece::{push_all, push_quoted};
pub use reply::{form_error_text, refusal_text, reply_text};
pub use update::read_update;
pub use update_body::update_text;
