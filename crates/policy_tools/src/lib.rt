//! What is true of a policy whatever is asked: which of its rules never decide, what keeps a caller from being isolated, and who may do
//! what at each name, and what another policy changes of that. Names are infinitely many, but each is covered by the same rules as one of a
//! short list of names, and each caller that no rule names is like any other.
#![tactic(auto)]

mod caller_list;
mod changes;
mod claims;
mod entry_rights;
mod expectation;
mod expectation_fault;
mod expectation_lines;
mod expectations;
mod exposure;
mod free_names;
mod idle;
mod laws;
mod limits;
mod line_words;
mod name_changes;
mod name_groups;
mod name_rights;
mod points;
mod readers;
mod representatives;
mod rights;
mod shared_callers;
mod slices;
mod taking;
mod wanted;

pub use caller_list::CallerList;
pub use changes::{GroupChanges, changes_by_group};
pub use expectation::{Expectation, ExpectedDecision, Limit};
pub use expectation_fault::{ExpectationFault, ExpectationsFault};
pub use expectation_lines::{ExpectationLine, read_expectations};
pub use expectations::{Counterexample, expectation_fails};
pub use exposure::{Exposure, Right, isolation};
pub use idle::{IdleRule, idle_rules};
pub use laws::each_name_is_in_one_group;
pub use limits::Excess;
pub use line_words::{is_blank, is_comment, lines_of};
pub use name_changes::{CallerChange, Change, NameChanges};
pub use name_groups::{GroupRights, NameGroup, rights_by_group};
pub use name_rights::{CallerRights, NameRights, rights_at};
pub use readers::{Hidden, hidden_from};
pub use rights::Rights;
pub use slices::{slice_of, stray_rules, unspoken_origins};
