//! Rules.

ghost use Rattle.std.specs.Prelude.{◌≡◌, ◌↔◌, IsTrue};

use crate::action::Action;
use crate::callers::Callers;
use crate::decision::Decision;
use crate::effect::Effect;
use crate::identifier::Identifier;
use crate::scope::{Scope, covers};
use crate::selection::{Actions, Types};
use dns_data::RecordType;
use dns_names::Name;

/// A rule of a policy: it grants or denies some callers some actions on the records of some types at some names.
#[derive(Drop)]
pub struct Rule {
    /// By what the rule is named where it decides.
    pub id: Identifier,
    /// Whether it grants or denies.
    pub effect: Effect,
    /// Whom it speaks of.
    pub callers: Callers,
    /// Which names it speaks of, counted from `at`.
    pub scope: Scope,
    /// The name that it names.
    pub at: Name,
    /// The record types that it speaks of.
    pub types: Types,
    /// The actions that it speaks of.
    pub actions: Actions,
}

impl Rule {
    ghost use Rattle.grant_policy.specs.Rules.{Matches, matches};
    ghost use Rattle.grant_policy.specs.Decisions.{decided, verdict_of};

    /// Whether it speaks of what is asked: of the caller, the name, the type and the action.
    pub fn matches(
        &self,
        caller: &Identifier,
        name: &Name,
        record_type: RecordType,
        action: Action,
    ) -> bool
        ensures test { IsTrue result ↔ Matches (record { caller = caller.now; name = name.now; record_type = record_type; action = action }) self.now }
        ensures value { result ≡ matches (record { caller = caller.now; name = name.now; record_type = record_type; action = action }) self.now }
    {
        self.callers.include(caller)
            && covers(self.scope, &self.at, name)
            && self.types.include(record_type)
            && self.actions.include(action)
    }

    /// What it decides where it matches.
    pub(crate) fn decision(&self) -> Decision<'_>
        ensures { verdict_of result ≡ decided self.now }
    {
        match self.effect {
            Effect::Grant => Decision::Granted(&self.id),
            Effect::Deny => Decision::Denied(Some(&self.id)),
        }
    }
}
