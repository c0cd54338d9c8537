//! Scopes of rules.

ghost use Rattle.std.specs.Prelude.{◌≡◌, ◌↔◌, Some, IsTrue, bytes_eq};
ghost use Rattle.std.specs.List.{find};
ghost use Rattle.grant_policy.specs.Scopes.{Covers, covers as covers_of};

use dns_names::Name;

/// Which names a rule speaks of, counted from the name that it names.
#[derive(Clone, Copy, PartialEq, Eq)]
pub enum Scope {
    /// That name alone.
    Name,
    /// That name and all below it.
    Subtree,
    /// All names below that name, and not the name itself.
    Below,
}

impl Scope {
    ghost use Rattle.grant_policy.specs.Words.{scope_text, scope_of};

    /// The scopes that there are.
    pub const ALL: [Scope; 3] = [Scope::Name, Scope::Subtree, Scope::Below];

    /// The word for it: `name`, `subtree` or `below`.
    pub const fn text(self) -> &'static str
        ensures { result.now ≡ scope_text self }
    {
        match self {
            Scope::Name => "name",
            Scope::Subtree => "subtree",
            Scope::Below => "below",
        }
    }

    /// The scope of this word, which is read only as it is written.
    pub fn read(word: &[u8]) -> Option<Scope>
        ensures found { (scope : Scope) → (result ≡ Some scope) ↔ (scope_text scope ≡ word.now) }
        ensures exact { result ≡ scope_of word.now }
    {
        Scope::ALL
            .iter()
            .copied()
            .find(|scope| scope.text().as_bytes() == word)
    }
}

/// Whether a rule of this scope at the name `at` speaks of a name. Names are compared label by label: neither
/// `badexample.org.` nor `x\.example.org.`, of the labels `x.example` and `org`, is within `example.org.`.
pub fn covers(scope: Scope, at: &Name, name: &Name) -> bool
    ensures test { IsTrue result ↔ Covers scope at.now name.now }
    ensures value { result ≡ covers_of scope at.now name.now }
{
    match scope {
        Scope::Name => name == at,
        Scope::Subtree => name.is_within(at),
        Scope::Below => name.is_below(at),
    }
}
