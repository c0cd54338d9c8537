//! Pairs of a record type and an action that are looked for.

ghost use Rattle.std.specs.Prelude.{◌≡◌};
ghost use Rattle.policy_tools.specs.Wanted.{changes, wants};

use dns_data::RecordType;
use grant_policy::Action;

/// Which pairs are looked for.
#[derive(Clone, Copy)]
pub(crate) enum Wanted {
    /// Every pair.
    Every,
    /// To list or to check an SOA.
    SoaShown,
    /// To change records of any type.
    Changes,
}

impl Wanted {
    /// Whether a pair is one of them.
    pub(crate) fn has(self, record_type: RecordType, action: Action) -> bool
        ensures { result ≡ wants self record_type action }
    {
        match self {
            Wanted::Every => true,
            Wanted::SoaShown => {
                record_type.number() == RecordType::Soa.number() && !changes_records(action)
            }
            Wanted::Changes => changes_records(action),
        }
    }
}

/// Whether an action changes records.
fn changes_records(action: Action) -> bool
    ensures { result ≡ changes action }
{
    match action {
        Action::List | Action::Check => false,
        Action::Add | Action::Delete | Action::Delegate => true,
    }
}
