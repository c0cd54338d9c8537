//! Members of groups.

use grant_policy::Identifier;

/// A member of a group, or of a list of a rule.
#[derive(Drop)]
pub enum Member<T> {
    /// A caller or every caller, or names with a scope.
    One(T),
    /// The members of the group of this name, which is written with an `@` before it.
    Group(Identifier),
}
