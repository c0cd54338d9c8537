//! Callers, as a list.

ghost use Rattle.std.specs.Prelude.{◌≡◌, ◌<◌, ◌^◌, ℕ, List, length};

use grant_policy::Identifier;
use std::marker::Model;

/// Callers, in order. A contract sees the list of their identifiers.
#[derive(Drop)]
pub struct CallerList {
    callers: Vec<Identifier>,
}

impl Model for CallerList {
    ghost Value = { List (List ℕ) };

    ghost view = { λ c. c.callers.items };
}

impl CallerList {
    /// The callers of a list.
    pub fn of(callers: Vec<Identifier>) -> CallerList
        ensures { result ≡ callers.items }
    {
        CallerList { callers }
    }

    /// The callers, in order.
    pub fn as_slice(&self) -> &[Identifier]
        ensures callers { result.now ≡ self.now }
        ensures len { length self.now < 2 ^ 64 }
    {
        &self.callers
    }
}
