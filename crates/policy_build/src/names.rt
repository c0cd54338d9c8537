//! Names with a scope.

ghost use Rattle.std.specs.Prelude.{◌≡◌};

use dns_names::Name;
use grant_policy::Scope;

/// The names that a member of a group of names is, as a rule has them.
#[derive(Drop)]
pub struct Names {
    /// Which names, counted from `at`.
    pub scope: Scope,
    /// The name that they are counted from.
    pub at: Name,
}
