//! The office over HTTP/1.1 (RFC 9112): requests are read from a stream, asked of the office one after the other, and answered on it.
#![tactic(auto)]

mod deadline;
mod digits;
mod ending;
mod exchange;
mod field;
mod framing;
mod head;
mod laws;
mod length;
mod method;
mod part;
mod refusal;
mod request;
mod request_buffer;
mod request_fault;
mod responder;
mod response;
mod response_buffer;
mod route;
mod serve_fault;
mod servfails;
mod serving;
mod status;
mod stream;
mod workspace;

pub use deadline::{Deadline, Never};
pub use ending::Ending;
pub use laws::{
    crashes_leave_one_more, exchanges_are_runs, framing_is_unique, histories_are_one,
    parts_are_segments, routes_are_their_paths, segments_are_between_slashes, targets_have_one_row,
};
pub use refusal::Refusal;
pub use responder::{Responder, serve};
pub use serve_fault::ServeFault;
pub use servfails::Servfails;
pub use serving::Served;
pub use stream::Stream;
pub use wire_json::{read_delegation, read_update, reply_text};
