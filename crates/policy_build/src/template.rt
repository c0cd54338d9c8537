//! Templates.

ghost use Rattle.std.specs.Prelude.{◌≡◌};
ghost use Rattle.policy_build.specs.Templates.{TemplateOf};

use crate::group_rule::GroupRule;
use crate::place::Place;
use grant_policy::Identifier;
use std::marker::Model;

/// Rules that are written once for many callers and names.
#[derive(Drop)]
pub struct Template {
    place: Place,
    id: Identifier,
    rules: Vec<GroupRule>,
}

impl Model for Template {
    ghost Value = { TemplateOf };

    ghost view = { λ t. record { place = t.place; id = t.id; rules = t.rules.items } };
}

impl Template {
    /// The template of these rules.
    pub(crate) fn new(place: Place, id: Identifier, rules: Vec<GroupRule>) -> Template
        ensures { result ≡ record { place = place; id = id; rules = rules.items } }
    {
        Template { place, id, rules }
    }

    /// Where in its file it is.
    pub fn place(&self) -> Place
        ensures { result ≡ self.now.place }
    {
        self.place
    }

    /// What it is called.
    pub fn id(&self) -> &Identifier
        ensures { result.now ≡ self.now.id }
    {
        &self.id
    }

    /// Its rules, in order.
    pub fn rules(&self) -> &[GroupRule]
        ensures { result.now ≡ self.now.rules }
    {
        &self.rules
    }
}
