//! What a policy grants a caller, at one name after another.

ghost use Rattle.std.specs.Prelude.{◌≡◌, ◌⊎◌, None, IfSome};
ghost use Rattle.dns_data.specs.declared.record_type.RecordType.{RecordType as RecordTypeOf};
ghost use Rattle.grant_policy.specs.declared.action.Action.{Action as ActionOf};
ghost use Rattle.grant_policy.specs.Boundaries.{region_of};
ghost use Rattle.grant_policy.specs.Known.{known};
ghost use Rattle.grant_policy.specs.Grants.{GrantsOf, AreKnown, includes};

use crate::action::Action;
use crate::boundaries::Boundaries;
use crate::deciding::is_granted;
use crate::identifier::Identifier;
use crate::known::Known;
use crate::policy::Policy;
use dns_data::RecordType;
use dns_names::Name;
use std::alloc::Global;
use std::marker::Model;

/// The boundaries of a caller's rules, a region between them, and what is known of the decisions there.
#[derive(Drop)]
struct Regions {
    boundaries: Boundaries,
    region: usize,
    known: Known,
}

impl Regions {
    /// Those of a caller's rules, of which nothing is known, if there is memory for them.
    fn of(alloc: Global, policy: &Policy, caller: &Identifier) -> Option<Regions>
        ensures { IfSome result (λ r. (action : ActionOf) → AreKnown (record { rules = policy.now; caller = caller.now; action = action }) r.boundaries r.region r.known) }
    {
        match Boundaries::of(alloc, caller, policy.rules()) {
            Ok(boundaries) => Some(Regions {
                boundaries,
                region: 0,
                known: Known::nothing(),
            }),
            Err(_) => None,
        }
    }

    /// Goes to the region of a key. Of another region nothing is known.
    fn go_to(&mut self, key: &[u8])
        ensures same { self.new.boundaries ≡ self.old.boundaries }
        ensures region { region_of self.old.boundaries key.now ≡ self.new.region }
        ensures known { (record_type : RecordTypeOf) → (known self.new.known record_type ≡ None) ⊎ ((self.new.region ≡ self.old.region) × (known self.new.known record_type ≡ known self.old.known record_type)) }
    {
        if !self.boundaries.is_region(self.region, key) {
            self.region = self.boundaries.region(key);
            self.known = Known::nothing();
        }
    }

    /// Whether a policy grants a caller an action on the records of a type at a name. It is asked, if that is not known.
    fn include(
        &mut self,
        policy: &Policy,
        caller: &Identifier,
        action: Action,
        name: &Name,
        record_type: RecordType,
    ) -> bool
        requires { AreKnown (record { rules = policy.now; caller = caller.now; action = action }) self.old.boundaries self.old.region self.old.known }
        ensures value { result ≡ includes (record { rules = policy.now; caller = caller.now; action = action }) name.now record_type }
        ensures known { AreKnown (record { rules = policy.now; caller = caller.now; action = action }) self.new.boundaries self.new.region self.new.known }
    {
        self.go_to(name.key());
        if let Some(granted) = self.known.of(record_type) {
            return granted;
        }
        let granted = is_granted(policy, caller, name, record_type, action);
        self.known.keep(record_type, granted);
        granted
    }
}

/// For how many rules of the policy one question is decided by itself. For more questions, to look for the boundaries costs less than it
/// saves.
const RULES_A_QUESTION: usize = 64;

/// What a policy grants a caller of an action. Of many questions the policy decides one for each type in each region of names that it
/// decides alike, as long as the names come in canonical order.
#[derive(Drop)]
pub struct Grants<'a> {
    alloc: Global,
    policy: &'a Policy,
    caller: &'a Identifier,
    action: Action,
    asked: usize,
    regions: Option<Regions>,
}

impl<'a> Model for Grants<'a> {
    ghost Value = { GrantsOf };

    ghost view = { λ g. record { rules = g.policy.now; caller = g.caller.now; action = g.action } };

    ghost invariant = { λ g. IfSome g.regions (λ r. AreKnown (record { rules = g.policy.now; caller = g.caller.now; action = g.action }) r.boundaries r.region r.known) };
}

impl<'a> Grants<'a> {
    /// What a policy grants a caller of an action.
    pub fn new(
        alloc: Global,
        policy: &'a Policy,
        caller: &'a Identifier,
        action: Action,
    ) -> Grants<'a>
        ensures { result ≡ record { rules = policy.now; caller = caller.now; action = action } }
    {
        Grants {
            alloc,
            policy,
            caller,
            action,
            asked: 0,
            regions: None,
        }
    }

    /// Counts a question, and looks for the boundaries after a few of them.
    fn count_question(&mut self)
        ensures { self.new ≡ self.old }
    {
        if self.asked < self.policy.rules().len() / RULES_A_QUESTION {
            self.asked += 1;
            return;
        }
        self.asked = 0;
        self.regions = Regions::of(self.alloc, self.policy, self.caller);
    }

    /// Whether the policy grants it on the records of a type at a name. It always answers: where there is no memory, each question is
    /// decided by itself.
    pub fn include(&mut self, name: &Name, record_type: RecordType) -> bool
        ensures value { result ≡ includes self.old name.now record_type }
        ensures same { self.new ≡ self.old }
    {
        let Some(mut regions) = self.regions.take() else {
            self.count_question();
            return is_granted(self.policy, self.caller, name, record_type, self.action);
        };
        let granted = regions.include(self.policy, self.caller, self.action, name, record_type);
        self.regions = Some(regions);
        granted
    }
}
