//! Of which types and actions a rule speaks.

ghost use Rattle.std.specs.Prelude.{◌≡◌, ◌↔◌, List, Option, Some, None, IsTrue, option_map};
ghost use Rattle.dns_data.specs.declared.record_type.RecordType.{RecordType as RecordTypeOf};
ghost use Rattle.grant_policy.specs.declared.action.Action.{Action as ActionOf};

use crate::action::Action;
use dns_data::RecordType;
use std::marker::Model;

/// The record types of which a rule speaks: every kept one, or those that are listed.
#[derive(Drop)]
pub struct Types {
    listed: Option<Vec<RecordType>>,
}

impl Model for Types {
    ghost Value = { Option (List RecordTypeOf) };

    ghost view = { λ t. option_map (λ v. v.items) t.listed };
}

impl Types {
    ghost use Rattle.grant_policy.specs.Rules.{Has, has, same_type};

    /// Every kept type, which is written `*`.
    pub fn every() -> Types
        ensures { result ≡ None }
    {
        Types { listed: None }
    }

    /// The types of a list.
    pub fn of(listed: Vec<RecordType>) -> Types
        ensures { result ≡ Some listed.items }
    {
        Types {
            listed: Some(listed),
        }
    }

    /// The types of the list, unless every one is meant.
    pub fn listed(&self) -> Option<&[RecordType]>
        ensures { option_map (λ types. types.now) result ≡ self.now }
    {
        match &self.listed {
            Some(listed) => Some(listed.as_slice()),
            None => None,
        }
    }

    /// Whether a type is one of them.
    pub fn include(&self, record_type: RecordType) -> bool
        ensures test { IsTrue result ↔ Has self.now record_type }
        ensures value { result ≡ has same_type self.now record_type }
    {
        match &self.listed {
            None => true,
            Some(listed) => listed.contains(&record_type),
        }
    }
}

/// The actions of which a rule speaks: every one, or those that are listed.
#[derive(Drop)]
pub struct Actions {
    listed: Option<Vec<Action>>,
}

impl Model for Actions {
    ghost Value = { Option (List ActionOf) };

    ghost view = { λ a. option_map (λ v. v.items) a.listed };
}

impl Actions {
    ghost use Rattle.grant_policy.specs.Rules.{Has, has, same_action};

    /// Every action, which is written `*`.
    pub fn every() -> Actions
        ensures { result ≡ None }
    {
        Actions { listed: None }
    }

    /// The actions of a list.
    pub fn of(listed: Vec<Action>) -> Actions
        ensures { result ≡ Some listed.items }
    {
        Actions {
            listed: Some(listed),
        }
    }

    /// The actions of the list, unless every one is meant.
    pub fn listed(&self) -> Option<&[Action]>
        ensures { option_map (λ actions. actions.now) result ≡ self.now }
    {
        match &self.listed {
            Some(listed) => Some(listed.as_slice()),
            None => None,
        }
    }

    /// Whether an action is one of them.
    pub fn include(&self, action: Action) -> bool
        ensures test { IsTrue result ↔ Has self.now action }
        ensures value { result ≡ has same_action self.now action }
    {
        match &self.listed {
            None => true,
            Some(listed) => listed.contains(&action),
        }
    }
}
