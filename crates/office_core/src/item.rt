//! The items of an update.

ghost use Rattle.std.specs.Prelude.{◌≡◌};

use crate::footprint::{operation_asks, prerequisite_asks};
use dns_data::RecordType;
use dns_names::Name;
use grant_policy::Action;
use zone_core::{Operation, Prerequisite};

/// An item of an update of a zone.
#[derive(Clone, Copy)]
pub(crate) enum Item<'a> {
    /// A prerequisite.
    Prerequisite(&'a Prerequisite),
    /// An operation, in a zone of this origin.
    Operation {
        origin: &'a Name,
        operation: &'a Operation,
    },
}

impl<'a> Item<'a> {
    ghost use Rattle.office_core.specs.Items.{item_name, item_action};

    /// The name of its points.
    pub(crate) fn name(self) -> &'a Name
        ensures { result.now ≡ item_name self.entry }
    {
        match self {
            Item::Prerequisite(prerequisite) => prerequisite.name(),
            Item::Operation { operation, .. } => operation.name(),
        }
    }

    /// What it asks to do with the records of a type at its name.
    pub(crate) fn asks(self, record_type: RecordType) -> Option<Action>
        ensures { result ≡ item_action self.entry record_type }
    {
        match self {
            Item::Prerequisite(prerequisite) => prerequisite_asks(prerequisite, record_type),
            Item::Operation { origin, operation } => operation_asks(origin, operation, record_type),
        }
    }
}
