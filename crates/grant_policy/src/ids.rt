//! The ids of rules.

ghost use Rattle.std.specs.Prelude.{◌≡◌, List, ℕ, [], ◌∷◌, ◌++◌, IfOk};
ghost use Rattle.grant_policy.specs.Faults.{Reads};
ghost use Rattle.grant_policy.specs.Reading.{SameIds, free_id};

use crate::decision::CLOSING;
use crate::identifier::Identifier;
use crate::policy_fault::PolicyFault;
use std::alloc::Global;
use std::collections::BTreeSet;
use std::marker::Model;

/// The ids of the rules so far.
#[derive(Drop)]
pub(crate) struct Ids {
    seen: BTreeSet<Identifier>,
}

impl Model for Ids {
    ghost Value = { List (List ℕ) };

    ghost view = { λ i. i.seen.keys };
}

impl Ids {
    /// No ids.
    pub(crate) fn new(alloc: Global) -> Ids
        ensures { result ≡ [] }
    {
        Ids {
            seen: BTreeSet::new(alloc),
        }
    }

    /// Adds the id of the rule of this number, unless it is `closing` or was added before. `NoMemory` comes at the growth that
    /// was refused.
    pub(crate) fn add(
        &mut self,
        alloc: Global,
        number: usize,
        id: &Identifier,
    ) -> Result<(), PolicyFault>
        ensures exact { (ids : List (List ℕ)) → SameIds self.old ids → Reads (λ _. id.now) result (free_id number ids id.now) }
        ensures added { IfOk result (λ _. (ids : List (List ℕ)) → SameIds self.old ids → SameIds self.new (ids ++ id.now ∷ [])) }
    {
        if id.as_bytes() == CLOSING.as_bytes() {
            return Err(PolicyFault::IdReserved(number));
        }
        if !self.seen.insert(id.try_copy(alloc)?)? {
            return Err(PolicyFault::IdRepeated(number));
        }
        Ok(())
    }
}
