//! What a caller does with records.

ghost use Rattle.std.specs.Prelude.{◌≡◌, ◌↔◌, Some, bytes_eq};
ghost use Rattle.std.specs.List.{find};

/// What a caller asks to do with the records of a name and type.
#[derive(Clone, Copy, PartialEq, Eq)]
pub enum Action {
    /// To see them in lists, files, changes and reports.
    List,
    /// To ask by a prerequisite whether there are any.
    Check,
    /// To add one.
    Add,
    /// To delete one, or all.
    Delete,
    /// To change what makes a delegation: NS below the origin, and DS.
    Delegate,
}

impl Action {
    ghost use Rattle.grant_policy.specs.Words.{action_text, action_of, action_place};

    /// The actions that there are.
    pub const ALL: [Action; 5] = [
        Action::List,
        Action::Check,
        Action::Add,
        Action::Delete,
        Action::Delegate,
    ];

    /// The word for it: `list`, `check`, `add`, `delete` or `delegate`.
    pub const fn text(self) -> &'static str
        ensures { result.now ≡ action_text self }
    {
        match self {
            Action::List => "list",
            Action::Check => "check",
            Action::Add => "add",
            Action::Delete => "delete",
            Action::Delegate => "delegate",
        }
    }

    /// Its place in `ALL`, from 0.
    pub fn place(self) -> usize
        ensures { result ≡ action_place self }
    {
        self as usize
    }

    /// The action of this word, which is read only as it is written.
    pub fn read(word: &[u8]) -> Option<Action>
        ensures found { (action : Action) → (result ≡ Some action) ↔ (action_text action ≡ word.now) }
        ensures exact { result ≡ action_of word.now }
    {
        Action::called(word)
    }

    /// The first of the actions with this word.
    fn called(word: &[u8]) -> Option<Action>
        ensures { result ≡ action_of word.now }
    {
        Action::ALL
            .iter()
            .copied()
            .find(|action| action.text().as_bytes() == word)
    }
}
