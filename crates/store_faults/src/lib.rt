//! Why a store refuses a call, by the published numbers.
#![tactic(auto)]

mod store_fault;

pub use store_fault::StoreFault;
