//! Lists of the rules of templates.

ghost use Rattle.std.specs.Prelude.{◌≡◌, List, Option, Some, None, option_map};
ghost use Rattle.policy_build.specs.declared.member.Member.{Member as MemberOf};

use crate::member::Member;
use std::marker::Model;

/// The members that a list of a rule names, or that a template leaves to its uses.
#[derive(Drop)]
pub struct ListOrParameter<T> {
    listed: Option<Vec<Member<T>>>,
}

impl<T> Model for ListOrParameter<T> {
    ghost Value = { Option (List (MemberOf T)) };

    ghost view = { λ l. option_map (λ v. v.items) l.listed };
}

impl<T> ListOrParameter<T> {
    /// What a use of the template gives.
    pub fn parameter() -> ListOrParameter<T>
        ensures { result ≡ None }
    {
        ListOrParameter { listed: None }
    }

    /// These members.
    pub fn of(listed: Vec<Member<T>>) -> ListOrParameter<T>
        ensures { result ≡ Some listed.items }
    {
        ListOrParameter {
            listed: Some(listed),
        }
    }

    /// The members, unless it is a parameter.
    pub fn listed(&self) -> Option<&[Member<T>]>
        ensures { option_map (λ members. members.now) result ≡ self.now }
    {
        match &self.listed {
            Some(listed) => Some(listed.as_slice()),
            None => None,
        }
    }
}
