//! Decisions that are known.

ghost use Rattle.std.specs.Prelude.{◌≡◌, List, Bool, Option, Some, None, length, if◌then◌else◌};
ghost use Rattle.dns_data.specs.declared.record_type.RecordType.{RecordType as RecordTypeOf};
ghost use Rattle.dns_data.specs.Types.{kept_types};
ghost use Rattle.grant_policy.specs.Rules.{same_type};
ghost use Rattle.grant_policy.specs.Known.{known};

use dns_data::RecordType;
use std::marker::Model;

/// How many record types are kept.
const TYPES: usize = RecordType::ALL.len();

/// For each record type whether it is granted, where that is known.
#[derive(Drop)]
pub(crate) struct Known {
    granted: [Option<bool>; TYPES],
}

impl Model for Known {
    ghost Value = { List (Option Bool) };

    ghost view = { λ k. k.granted };

    ghost invariant = { λ k. length k.granted ≡ length kept_types };
}

impl Known {
    /// Nothing is known.
    pub(crate) fn nothing() -> Known
        ensures { (record_type : RecordTypeOf) → known result record_type ≡ None }
    {
        Known {
            granted: [None; TYPES],
        }
    }

    /// Whether a type is granted, where that is known.
    pub(crate) fn of(&self, record_type: RecordType) -> Option<bool>
        ensures { result ≡ known self.now record_type }
    {
        self.granted[record_type.place()]
    }

    /// Keeps whether a type is granted.
    pub(crate) fn keep(&mut self, record_type: RecordType, granted: bool)
        ensures { (other : RecordTypeOf) → known self.new other ≡ (if same_type other record_type then Some granted else known self.old other) }
    {
        self.granted[record_type.place()] = Some(granted);
    }
}
