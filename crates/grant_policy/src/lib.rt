//! The policy: an ordered list of rules, each of which grants or denies some callers to do something with records at some
//! names, and the decision by the first rule that matches what is asked.
#![tactic(auto)]

mod action;
mod boundaries;
mod callers;
mod deciding;
mod decision;
mod document;
mod effect;
mod grants;
mod identifier;
mod ids;
mod index_row;
mod known;
mod laws;
mod look_ups;
mod policy;
mod policy_fault;
mod reaching;
mod rule;
mod scope;
mod selection;
mod table;
mod word;

pub use action::Action;
pub use callers::Callers;
pub use deciding::{decide, has_any_right};
pub use decision::{CLOSING, Decision};
pub use document::read_policy;
pub use effect::Effect;
pub use grants::Grants;
pub use identifier::{Identifier, IdentifierFault};
pub use laws::{
    a_rule_at_the_end_changes_no_decision_of_a_rule, a_rule_is_named_where_it_decided,
    closing_denies_where_no_rule_matches, each_question_has_one_decision,
    names_between_boundaries_are_decided_alike, no_rules_deny_everything,
};
pub use look_ups::LookUps;
pub use policy::Policy;
pub use policy_fault::{PolicyFault, PolicyPlace, RuleKey};
pub use reaching::{reach, reaches};
pub use rule::Rule;
pub use scope::{Scope, covers};
pub use selection::{Actions, Types};
