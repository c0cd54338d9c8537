//! Groups of callers and of names.

ghost use Rattle.policy_build.specs.Groups.{GroupOf};

use crate::member::Member;
use crate::place::Place;
use grant_policy::Identifier;
use std::marker::Model;

/// A group of callers or of names.
#[derive(Drop)]
pub struct Group<T> {
    place: Place,
    id: Identifier,
    members: Vec<Member<T>>,
}

impl<T> Model for Group<T> {
    ghost Value = { GroupOf T };

    ghost view = { λ g. record { place = g.place; id = g.id; members = g.members.items } };
}

impl<T> Group<T> {
    ghost use Rattle.std.specs.Prelude.{◌≡◌};

    /// The group of these members.
    pub(crate) fn new(place: Place, id: Identifier, members: Vec<Member<T>>) -> Group<T>
        ensures { result ≡ record { place = place; id = id; members = members.items } }
    {
        Group { place, id, members }
    }

    /// Where in its file it is.
    pub fn place(&self) -> Place
        ensures { result ≡ self.now.place }
    {
        self.place
    }

    /// What it is called.
    pub fn id(&self) -> &Identifier
        ensures { result.now ≡ self.now.id }
    {
        &self.id
    }

    /// Its members, in order.
    pub fn members(&self) -> &[Member<T>]
        ensures { result.now ≡ self.now.members }
    {
        &self.members
    }
}
