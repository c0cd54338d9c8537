//! What a rule does.

ghost use Rattle.std.specs.Prelude.{◌≡◌, ◌↔◌, Some, bytes_eq};
ghost use Rattle.std.specs.List.{find};

/// What a rule does where it matches.
#[derive(Clone, Copy, PartialEq, Eq)]
pub enum Effect {
    /// It grants what is asked.
    Grant,
    /// It denies it.
    Deny,
}

impl Effect {
    ghost use Rattle.grant_policy.specs.Words.{effect_text, effect_of};

    /// The effects that there are.
    pub const ALL: [Effect; 2] = [Effect::Grant, Effect::Deny];

    /// The word for it: `grant` or `deny`.
    pub const fn text(self) -> &'static str
        ensures { result.now ≡ effect_text self }
    {
        match self {
            Effect::Grant => "grant",
            Effect::Deny => "deny",
        }
    }

    /// The effect of this word, which is read only as it is written.
    pub fn read(word: &[u8]) -> Option<Effect>
        ensures found { (effect : Effect) → (result ≡ Some effect) ↔ (effect_text effect ≡ word.now) }
        ensures exact { result ≡ effect_of word.now }
    {
        Effect::ALL
            .iter()
            .copied()
            .find(|effect| effect.text().as_bytes() == word)
    }
}
