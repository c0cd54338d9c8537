//! What a policy decides.

ghost use Rattle.std.specs.Prelude.{◌≡◌};

use crate::identifier::Identifier;

/// What a policy decides of a question.
#[derive(Clone, Copy)]
pub enum Decision<'a> {
    /// The rule of this identifier grants it.
    Granted(&'a Identifier),
    /// The rule of this identifier denies it, or no rule matches and the closing default denies it.
    Denied(Option<&'a Identifier>),
}

/// By what the closing default is named. No rule may have it as its identifier.
pub const CLOSING: &str = "closing";

impl<'a> Decision<'a> {
    ghost use Rattle.grant_policy.specs.Decisions.{verdict_of, decider, is_granted};

    /// Whether it is a grant.
    pub fn is_granted(self) -> bool
        ensures { result ≡ is_granted (verdict_of self.entry) }
    {
        match self {
            Decision::Granted(_) => true,
            Decision::Denied(_) => false,
        }
    }

    /// The identifier of the rule that decided, or `closing` where none did.
    pub fn rule(self) -> &'a [u8]
        ensures { result.now ≡ decider (verdict_of self.entry) }
    {
        match self {
            Decision::Granted(id) => id.as_bytes(),
            Decision::Denied(Some(id)) => id.as_bytes(),
            Decision::Denied(None) => CLOSING.as_bytes(),
        }
    }
}
