//! Serving callers over TCP, one connection after the other: a peer is waited for, but not for ever, and a line on standard error tells why
//! requests failed.
#![tactic(auto)]

mod age;
mod cause;
mod laws;
mod limits;
mod lingering;
mod listener;
mod pace;
mod patience;
mod peer;
mod serving;
mod trace;

pub use cause::{Cause, Diagnosis, Undiagnosed};
pub use laws::waits_end_in_time;
pub use limits::{longest_of, patience_of};
pub use lingering::linger;
pub use listener::Listener;
pub use peer::{Peer, Unnoted, Watch};
pub use serving::Connections;
pub use trace::write_texts;
