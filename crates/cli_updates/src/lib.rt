//! The commands that make or try updates, `diff`, `request` and `plan`: what leads from a zone to another, the bodies that ask the office for it,
//! and what it would answer.
#![tactic(auto)]

mod diff;
mod diff_fault;
mod explained;
mod filling;
mod guard;
mod idle_lines;
mod laws;
mod octets;
mod pieces;
mod plan;
mod plan_fault;
mod plan_object;
mod point_object;
mod request;
mod slots;
mod split;

pub use diff::{do_diff, items_between};
pub use diff_fault::DiffFault;
pub use laws::{
    diffs_are_guarded, diffs_lead, guards_test_sets, splits_are_parts, splits_make_the_update,
};
pub use plan::{do_plan, push_signed};
pub use plan_fault::PlanFault;
pub use request::Request;
pub use split::Split;
