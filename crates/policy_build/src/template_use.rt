//! Uses of templates.

ghost use Rattle.std.specs.Prelude.{◌≡◌};
ghost use Rattle.policy_build.specs.Templates.{TemplateUseOf};

use crate::member::Member;
use crate::names::Names;
use crate::place::Place;
use grant_policy::{Callers, Identifier};
use std::marker::Model;

/// The rules of a template, for these callers and these names.
#[derive(Drop)]
pub struct TemplateUse {
    place: Place,
    id: Identifier,
    template: Identifier,
    callers: Vec<Member<Callers>>,
    names: Vec<Member<Names>>,
}

impl Model for TemplateUse {
    ghost Value = { TemplateUseOf };

    ghost view = { λ u. record { place = u.place; id = u.id; template = u.template; callers = u.callers.items; names = u.names.items } };
}

impl TemplateUse {
    /// The use of a template for callers and names.
    pub(crate) fn new(
        place: Place,
        id: Identifier,
        template: Identifier,
        callers: Vec<Member<Callers>>,
        names: Vec<Member<Names>>,
    ) -> TemplateUse
        ensures { result ≡ record { place = place; id = id; template = template; callers = callers.items; names = names.items } }
    {
        TemplateUse {
            place,
            id,
            template,
            callers,
            names,
        }
    }

    /// Where in its file it is.
    pub fn place(&self) -> Place
        ensures { result ≡ self.now.place }
    {
        self.place
    }

    /// What the rules that are made of it are called, before the ids of the template's rules.
    pub fn id(&self) -> &Identifier
        ensures { result.now ≡ self.now.id }
    {
        &self.id
    }

    /// What the template is called.
    pub fn template(&self) -> &Identifier
        ensures { result.now ≡ self.now.template }
    {
        &self.template
    }

    /// The callers that it is used for.
    pub fn callers(&self) -> &[Member<Callers>]
        ensures { result.now ≡ self.now.callers }
    {
        &self.callers
    }

    /// The names that it is used for.
    pub fn names(&self) -> &[Member<Names>]
        ensures { result.now ≡ self.now.names }
    {
        &self.names
    }
}
