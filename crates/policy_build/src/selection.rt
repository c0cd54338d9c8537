//! The types and the actions of a rule.

ghost use Rattle.std.specs.Prelude.{◌≡◌, ◌<◌, List, Option, Some, None, length, option_map};
ghost use Rattle.policy_build.specs.Selections.{IsSelection};

use std::marker::Model;

/// All types or all actions, which is written `*`, or those that are listed.
#[derive(Drop)]
pub struct Selection<T> {
    listed: Option<Vec<T>>,
}

impl<T> Model for Selection<T> {
    ghost Value = { Option (List T) };

    ghost view = { λ s. option_map (λ v. v.items) s.listed };

    ghost invariant = { λ s. IsSelection (option_map (λ v. v.items) s.listed) };
}

impl<T> Selection<T> {
    /// All there are.
    pub fn every() -> Selection<T>
        ensures { result ≡ None }
    {
        Selection { listed: None }
    }

    /// Those of a list that is not empty.
    pub fn of(listed: Vec<T>) -> Selection<T>
        requires { 0 < length listed.items }
        ensures { result ≡ Some listed.items }
    {
        Selection {
            listed: Some(listed),
        }
    }

    /// Those that are listed, unless all are meant.
    pub fn listed(&self) -> Option<&[T]>
        ensures value { option_map (λ items. items.now) result ≡ self.now }
        ensures some { IsSelection self.now }
    {
        match &self.listed {
            Some(listed) => Some(listed.as_slice()),
            None => None,
        }
    }
}
