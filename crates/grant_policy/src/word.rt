//! Words of a policy, by what they are read as.

ghost use Rattle.std.specs.Prelude.{◌≡◌, List, ℕ, Option, IfOk};

use crate::action::Action;
use crate::callers::Callers;
use crate::effect::Effect;
use crate::identifier::{Identifier, IdentifierFault};
use crate::scope::Scope;
use dns_data::RecordType;
use std::alloc::{AllocError, Global};

/// What a text of a policy may stand for.
pub(crate) trait Word: Drop {
    ghost word_of: { List ℕ → Option Self };

    /// What a text stands for, if it is such a word. The only error is out of memory.
    fn of_text(alloc: Global, text: &str) -> Result<Option<Self>, AllocError>
        ensures { IfOk result (λ word. word ≡ word_of text.now) };
}

impl Word for Effect {
    ghost use Rattle.grant_policy.specs.Words.{effect_of};

    ghost word_of = { effect_of };

    fn of_text(_alloc: Global, text: &str) -> Result<Option<Effect>, AllocError> {
        Ok(Effect::read(text.as_bytes()))
    }
}

impl Word for Scope {
    ghost use Rattle.grant_policy.specs.Words.{scope_of};

    ghost word_of = { scope_of };

    fn of_text(_alloc: Global, text: &str) -> Result<Option<Scope>, AllocError> {
        Ok(Scope::read(text.as_bytes()))
    }
}

impl Word for Action {
    ghost use Rattle.grant_policy.specs.Words.{action_of};

    ghost word_of = { action_of };

    fn of_text(_alloc: Global, text: &str) -> Result<Option<Action>, AllocError> {
        Ok(Action::read(text.as_bytes()))
    }
}

impl Word for RecordType {
    ghost use Rattle.grant_policy.specs.Reading.{type_of};

    ghost word_of = { type_of };

    fn of_text(_alloc: Global, text: &str) -> Result<Option<RecordType>, AllocError> {
        Ok(RecordType::read(text.as_bytes()).ok())
    }
}

impl Word for Identifier {
    ghost use Rattle.grant_policy.specs.Reading.{identifier_of};

    ghost word_of = { identifier_of };

    fn of_text(alloc: Global, text: &str) -> Result<Option<Identifier>, AllocError> {
        match Identifier::read(alloc, text.as_bytes()) {
            Ok(identifier) => Ok(Some(identifier)),
            Err(IdentifierFault::Malformed) => Ok(None),
            Err(IdentifierFault::NoMemory) => Err(AllocError),
        }
    }
}

impl Word for Callers {
    ghost use Rattle.grant_policy.specs.Reading.{callers_of};

    ghost word_of = { callers_of };

    fn of_text(alloc: Global, text: &str) -> Result<Option<Callers>, AllocError> {
        if text == "*" {
            return Ok(Some(Callers::Every));
        }
        Ok(match Identifier::of_text(alloc, text)? {
            Some(identifier) => Some(Callers::One(identifier)),
            None => None,
        })
    }
}
