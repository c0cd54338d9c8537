//! The commands `check`, `policy` and `reverse`: what is true of a policy whatever is asked, what is wrong in a zone, and what zones call for.
#![tactic(auto)]

mod changes_fault;
mod check;
mod expect;
mod expect_fault;
mod expectations;
mod laws;
mod origin_list;
mod policy_changes;
mod policy_zones;
mod policy_zones_fault;
mod printed_policy;
mod reach;
mod reach_examples;
mod reach_fault;
mod reverse;
mod rights_check;
mod zone_check;

pub use changes_fault::ChangesFault;
pub use check::{AskedCheck, Findings, Subject, do_check, name_if};
pub use expect::do_expect;
pub use expect_fault::ExpectFault;
pub use laws::{lists_are_read, reach_asks_as_the_office};
pub use policy_changes::do_changes;
pub use policy_zones::do_policy_zones;
pub use policy_zones_fault::PolicyZonesFault;
pub use reach::do_reach;
pub use reach_fault::ReachFault;
