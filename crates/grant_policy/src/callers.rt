//! Whose rule it is.

ghost use Rattle.std.specs.Prelude.{◌≡◌, ◌↔◌, IsTrue};

use crate::identifier::Identifier;

/// Whom a rule speaks of.
#[derive(Drop)]
pub enum Callers {
    /// Every caller, which is written `*`.
    Every,
    /// The caller of this identifier, compared exactly.
    One(Identifier),
}

impl Callers {
    ghost use Rattle.grant_policy.specs.Rules.{IsOf, is_of};

    /// Whether a caller is one of them.
    pub fn include(&self, caller: &Identifier) -> bool
        ensures test { IsTrue result ↔ IsOf self.now caller.now }
        ensures value { result ≡ is_of self.now caller.now }
    {
        match self {
            Callers::Every => true,
            Callers::One(identifier) => identifier.as_bytes() == caller.as_bytes(),
        }
    }
}
