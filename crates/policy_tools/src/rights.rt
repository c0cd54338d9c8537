//! What may be done with records, as a set.

ghost use Rattle.std.specs.Prelude.{◌≡◌, ◌↔◌, ◌&&◌, not, ℕ, true, false, IsTrue};
ghost use Rattle.dns_data.specs.declared.record_type.RecordType.{RecordType as TypeOf};
ghost use Rattle.grant_policy.specs.declared.action.Action.{Action as ActionOf};
ghost use Rattle.policy_tools.specs.Points.{has_point, Differ};

use crate::points::Points;
use dns_data::RecordType;
use grant_policy::Action;
use std::marker::Model;

/// What may be done with the records of each type. A contract sees a number, and by `has_point` which pairs of a type and an action
/// are in it.
#[derive(Drop)]
pub struct Rights {
    points: Points,
}

impl Model for Rights {
    ghost Value = { ℕ };

    ghost view = { λ r. r.points.bits };
}

impl Rights {
    /// The rights of these pairs.
    pub(crate) fn of(points: Points) -> Rights
        ensures { result ≡ points.bits }
    {
        Rights { points }
    }

    /// Whether an action may be done with the records of a type.
    pub fn include(&self, record_type: RecordType, action: Action) -> bool
        ensures { result ≡ has_point self.now record_type action }
    {
        self.points.include(record_type, action)
    }

    /// What these rights have and others have not.
    pub(crate) fn without(&self, others: &Rights) -> Rights
        ensures { (t : TypeOf) (a : ActionOf) → has_point result t a ≡ (has_point self.now t a && not (has_point others.now t a)) }
    {
        Rights {
            points: self.points.without(others.points),
        }
    }

    /// Whether one of these rights and others has something that the other has not.
    pub(crate) fn differs(&self, others: &Rights) -> bool
        ensures some { result ≡ true → Differ self.now others.now }
        ensures none { result ≡ false → (t : TypeOf) (a : ActionOf) → has_point self.now t a ≡ has_point others.now t a }
    {
        self.points.differs(others.points)
    }

    /// Whether nothing may be done.
    pub fn is_empty(&self) -> bool
        ensures { IsTrue result ↔ ((t : TypeOf) (a : ActionOf) → has_point self.now t a ≡ false) }
    {
        self.points.is_empty()
    }
}
