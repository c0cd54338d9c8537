//! The machine: who may ask what of the office, and what is replied and kept, over any table.
#![tactic(auto)]

mod bookmark;
mod changes;
mod delegations;
mod fail_table;
mod file;
mod footprint;
mod item;
mod laws;
mod list;
mod list_within;
mod listed;
mod memory;
mod permission;
mod query;
mod rights;
mod runs;
mod steps;
mod submission;
mod subtrees;
mod update;

pub use bookmark::Bookmarks;
pub use fail_table::{FailTable, TableCall};
pub use footprint::{operation_asks, prerequisite_asks};
pub use laws::{
    answers_are_right, callers_are_alone, calls_are_right, changes_are_exact,
    footprints_are_asked_in_order, lists_are_exact, updates_are_made_once,
};
pub use memory::MemTable;
pub use office_model::{
    Addition, Call, NumberedChange, Query, Reading, Receipt, Reply, Request, Right, StepFault,
    TableFault, UpdateReply, ZoneTable,
};
pub use permission::{Denial, denied};
pub use runs::run;
pub use steps::{step, step_with_bookmarks};
pub use update::plan;
