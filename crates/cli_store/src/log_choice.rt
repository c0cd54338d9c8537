//! Which of the changes and receipts of a zone are asked for.

ghost use Rattle.std.specs.Prelude.{◌≡◌, ◌||◌, nat_le, bytes_eq};
ghost use Rattle.std.specs.List.{list_any};
ghost use Rattle.dns_names.specs.Labels.{is_within};
ghost use Rattle.zone_core.specs.Changes.{change_in};
ghost use Rattle.zone_core.specs.Updates.{tested_name, acted_name};
ghost use Rattle.cli_store.specs.Log.{passes, numbered_as, update_names, some_within, asks_changes, asks_receipts, asks_change, asks_receipt};

use cli_core::TextForm;
use dns_data::Record;
use dns_names::Name;
use grant_policy::Identifier;
use store_rows::KeptReceipt;
use zone_core::{Change, Operation, Prerequisite, Update};

/// Which of the changes and receipts of a zone are asked for.
#[derive(Drop)]
pub struct LogAsked {
    /// The origin of the zone.
    pub origin: Name,
    /// From which change on, where a number is given. The changes of a zone are numbered from 1.
    pub from: Option<u64>,
    /// Within which name, where one is given.
    pub name: Option<Name>,
    /// Of which caller the receipts are, where one is given.
    pub caller: Option<Identifier>,
    /// As what they are printed.
    pub form: TextForm,
}

/// Whether some record has its owner within a name.
fn records_within(records: &[Record], top: &Name) -> bool
    ensures { result ≡ list_any (λ r. is_within r.owner top.now) records.now }
{
    records.iter().any(|rr| rr.owner.is_within(top))
}

/// Whether some prerequisite tests a name within another.
fn prerequisites_within(prerequisites: &[Prerequisite], top: &Name) -> bool
    ensures { result ≡ list_any (λ p. is_within (tested_name p) top.now) prerequisites.now }
{
    prerequisites
        .iter()
        .any(|prerequisite| prerequisite.name().is_within(top))
}

/// Whether some operation acts at a name within another.
fn operations_within(operations: &[Operation], top: &Name) -> bool
    ensures { result ≡ list_any (λ op. is_within (acted_name op) top.now) operations.now }
{
    operations
        .iter()
        .any(|operation| operation.name().is_within(top))
}

/// Whether some item of an update is at a name within another.
fn update_within(update: &Update, top: &Name) -> bool
    ensures { result ≡ some_within (update_names update.now) top.now }
{
    prerequisites_within(update.prerequisites(), top) || operations_within(update.operations(), top)
}

impl LogAsked {
    /// Whether changes are asked for: they are, unless a caller is given and no number.
    pub fn asks_changes(&self) -> bool
        ensures { result ≡ asks_changes self.now }
    {
        self.from.is_some() || self.caller.is_none()
    }

    /// Whether receipts are asked for: they are, unless a number is given and no caller.
    pub fn asks_receipts(&self) -> bool
        ensures { result ≡ asks_receipts self.now }
    {
        self.caller.is_some() || self.from.is_none()
    }

    /// Whether a number is not below the one that is given.
    fn asks_number(&self, number: u64) -> bool
        ensures { result ≡ passes (λ first. nat_le first number) self.now.from }
    {
        match self.from {
            Some(first) => first <= number,
            None => true,
        }
    }

    /// Whether some record of a change is within the name that is given.
    fn asks_records(&self, change: &Change) -> bool
        ensures { result
            ≡ passes
            (λ top. list_any (λ r. is_within r.owner top) change.now.removed.items || list_any
            (λ r. is_within r.owner top) change.now.added.items) self.now.name }
    {
        match &self.name {
            Some(top) => {
                records_within(&change.removed, top) || records_within(&change.added, top)
            }
            None => true,
        }
    }

    /// Whether a change of the zone is asked for, where changes are.
    pub(crate) fn asks_change(&self, number: u64, change: &Change) -> bool
        ensures { result ≡ asks_change self.now (numbered_as number (change_in change.now)) }
    {
        self.asks_number(number) && self.asks_records(change)
    }

    /// Whether a caller is the one that is given.
    fn asks_caller(&self, caller: &Identifier) -> bool
        ensures { result ≡ passes (λ asked. bytes_eq caller.now asked) self.now.caller }
    {
        match &self.caller {
            Some(asked) => caller == asked,
            None => true,
        }
    }

    /// Whether some item of an update is within the name that is given.
    fn asks_items(&self, update: &Update) -> bool
        ensures { result ≡ passes (some_within (update_names update.now)) self.now.name }
    {
        match &self.name {
            Some(top) => update_within(update, top),
            None => true,
        }
    }

    /// Whether a receipt is asked for, where receipts are.
    pub(crate) fn asks_receipt(&self, kept: &KeptReceipt) -> bool
        ensures { result ≡ asks_receipt self.now kept.now }
    {
        kept.receipt.origin == self.origin
            && self.asks_caller(&kept.caller)
            && self.asks_items(&kept.receipt.update)
    }
}
