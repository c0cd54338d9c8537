//! Policies built from groups: a TOML file with groups of callers, groups of names and templates, the entries that it makes of
//! them in order, and the rules of the office that decide every question as those entries do.
#![tactic(auto)]

mod build_fault;
mod building;
mod entry;
mod from_toml;
mod group;
mod group_rule;
mod laws;
mod list_or_parameter;
mod made_rule;
mod member;
mod names;
mod place;
mod printing;
mod reading;
mod resolving;
mod selection;
mod source;
mod statement;
mod tables;
mod template;
mod template_use;
mod values;

pub use build_fault::BuildFault;
pub use building::{Built, build};
pub use entry::{Entry, Listing};
pub use group::Group;
pub use group_rule::GroupRule;
pub use laws::built_rules_decide_as_the_file_means;
pub use list_or_parameter::ListOrParameter;
pub use made_rule::MadeRule;
pub use member::Member;
pub use names::Names;
pub use place::{FileKey, Place, Spot};
pub use printing::policy_text;
pub use reading::read_rules;
pub use selection::Selection;
pub use source::Source;
pub use statement::Statement;
pub use tables::read_source;
pub use template::Template;
pub use template_use::TemplateUse;
