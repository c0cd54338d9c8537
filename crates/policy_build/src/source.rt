//! What a file of groups says.

ghost use Rattle.std.specs.Prelude.{◌≡◌};
ghost use Rattle.policy_build.specs.Sources.{SourceOf};

use crate::group::Group;
use crate::names::Names;
use crate::statement::Statement;
use crate::template::Template;
use grant_policy::Callers;
use std::marker::Model;

/// What a file of groups says.
#[derive(Drop)]
pub struct Source {
    callers: Vec<Group<Callers>>,
    names: Vec<Group<Names>>,
    templates: Vec<Template>,
    statements: Vec<Statement>,
}

impl Model for Source {
    ghost Value = { SourceOf };

    ghost view = { λ s. record { callers = s.callers.items; names = s.names.items; templates = s.templates.items; statements = s.statements.items } };
}

impl Source {
    /// The groups, templates and statements of a file.
    pub(crate) fn new(
        callers: Vec<Group<Callers>>,
        names: Vec<Group<Names>>,
        templates: Vec<Template>,
        statements: Vec<Statement>,
    ) -> Source
        ensures { result ≡ record { callers = callers.items; names = names.items; templates = templates.items; statements = statements.items } }
    {
        Source {
            callers,
            names,
            templates,
            statements,
        }
    }

    /// The groups of callers, in order.
    pub fn callers(&self) -> &[Group<Callers>]
        ensures { result.now ≡ self.now.callers }
    {
        &self.callers
    }

    /// The groups of names, in order.
    pub fn names(&self) -> &[Group<Names>]
        ensures { result.now ≡ self.now.names }
    {
        &self.names
    }

    /// The templates, in order.
    pub fn templates(&self) -> &[Template]
        ensures { result.now ≡ self.now.templates }
    {
        &self.templates
    }

    /// The rules for groups and the uses of templates, in order.
    pub fn statements(&self) -> &[Statement]
        ensures { result.now ≡ self.now.statements }
    {
        &self.statements
    }
}
