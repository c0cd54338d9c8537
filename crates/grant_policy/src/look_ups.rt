//! A counter for contracts alone.

ghost use Rattle.std.specs.Prelude.{◌≡◌, ◌+◌, ℕ};
ghost use base.Fml.{ftrue};

use std::marker::Model;
use std::mem::size_of;

/// How many look-ups in a policy were made: searches of its index, and readings of a rule. Contracts alone see the count.
/// It takes no octets, and its calls do nothing when the program runs.
#[derive(Drop)]
pub struct LookUps {
    pub ghost count: { ℕ },
}

const _: () = prove!(size_of::<LookUps>() == 0);

impl Model for LookUps {
    ghost also_owns = { λ _. ftrue };
}

impl LookUps {
    /// A counter that stands at none.
    pub fn new() -> LookUps
        ensures { result.count ≡ 0 }
    {
        LookUps {}
    }

    /// A counter that stands one higher.
    fn raised(&self) -> LookUps
        ensures { result.count ≡ self.now.count + 1 }
    {
        LookUps {}
    }

    /// Counts one look-up.
    pub(crate) fn add_one(&mut self)
        ensures { self.new.count ≡ self.old.count + 1 }
    {
        *self = self.raised();
    }
}
