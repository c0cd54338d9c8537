//! How far a caller of a policy reaches into what a zone answers: the questions that it can have answered otherwise by updates that the
//! policy lets it make, over all names; and examples of such updates.
#![tactic(auto)]

mod asker;
mod candidates;
mod differing;
mod example;
mod name_lists;
mod names;
mod places;
mod questions;
mod reach_map;
mod reached;
mod rights;
mod specimens;
mod trial;
mod whole_zone;

pub use example::{Example, ExampleSearch};
pub use reached::{ReachedAnswers, ReachedNames, reached_answers};
