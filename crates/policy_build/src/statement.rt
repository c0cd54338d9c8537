//! Statements of a file.

use crate::group_rule::GroupRule;
use crate::template_use::TemplateUse;

/// A table of the array `rule`.
#[derive(Drop)]
pub enum Statement {
    /// A rule for groups.
    Rule(GroupRule),
    /// The rules of a template.
    Use(TemplateUse),
}
