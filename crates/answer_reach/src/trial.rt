//! An update that is tried on the part of a zone that the answer to a question reads.

ghost use Rattle.std.specs.Prelude.{◌≡◌, IfOk, IfSome};
ghost use Rattle.std.specs.Bool.{OnTrue};
ghost use Rattle.std.specs.List.{Contains, list_all};
ghost use Rattle.std.specs.List.Sorted.{IsSorted};
ghost use Rattle.dns_names.specs.Labels.{is_within};
ghost use Rattle.dns_names.specs.Order.{canonical_cmp};
ghost use Rattle.zone_core.specs.Sets.{listing};
ghost use Rattle.zone_core.specs.Effects.{zone_after};
ghost use Rattle.zone_answers.specs.AnswerChanges.{Differs};
ghost use Rattle.answer_reach.specs.ReachTests.{has_name as has_name_of};
ghost use Rattle.zone_core.specs.Updates.{acted_name};
ghost use Rattle.answer_reach.specs.Trials.{permits, IsTried, IsTrial, agrees, both_agree, is_whole_at, is_server_covered, covers_servers};

use crate::asker::{Asker, is_there};
use crate::differing::answers_differ;
use crate::names::{has_name, wildcard};
use crate::questions::asked_in_turn;
use dns_data::{Data, Record};
use dns_names::Name;
use grant_policy::Action;
use std::alloc::{AllocError, Global};
use zone_answers::{QueryType, ZoneIndex};
use zone_core::{Operation, Update, apply_owned};

/// An update, and what it makes of the part of a zone that is at some names.
#[derive(Drop)]
pub(crate) struct Trial {
    pub(crate) update: Update,
    /// The names of the part, in canonical order.
    pub(crate) covered: Vec<Name>,
    /// The part after the update.
    pub(crate) after: ZoneIndex,
}

/// Whether the data of a record name no server, or one of some names.
fn is_server_covered(covered: &[Name], rdata: &Data) -> bool
    requires { IsSorted canonical_cmp covered.now }
    ensures { result ≡ is_server_covered covered.now rdata.now }
{
    match rdata {
        Data::Ns(server) => has_name(covered, server),
        _ => true,
    }
}

/// Whether all operations act at some names.
fn act_at(covered: &[Name], operations: &[Operation]) -> bool
    requires { IsSorted canonical_cmp covered.now }
    ensures { result ≡ list_all (λ op. has_name_of covered.now (acted_name op)) operations.now }
{
    operations
        .iter()
        .all(|operation| has_name(covered, operation.name()))
}

/// Whether all owners are among some names.
fn are_covered(covered: &[Name], records: &[Record]) -> bool
    requires { IsSorted canonical_cmp covered.now }
    ensures { result ≡ list_all (λ r. has_name_of covered.now r.owner) records.now }
{
    records
        .iter()
        .all(|record| has_name(covered, &record.owner))
}

/// Whether the servers of a referral are among some names.
fn covers_servers(covered: &[Name], authority: &[Record]) -> bool
    requires { IsSorted canonical_cmp covered.now }
    ensures { result ≡ covers_servers covered.now authority.now }
{
    authority
        .iter()
        .all(|record| is_server_covered(covered, &record.rdata))
}

impl<'a> Asker<'a> {
    /// Whether an operation is permitted. The deletion of a name, which no example has, counts as not permitted.
    fn permits(&self, operation: &Operation) -> bool
        ensures { result ≡ permits self.now.rights.now.rules self.now.rights.now.caller self.now.index.now.origin operation.now }
    {
        match operation {
            Operation::Add(record) => self.may(Action::Add, &record.owner, record.record_type()),
            Operation::DeleteRrset { name, record_type } => {
                self.may(Action::Delete, name, *record_type)
            }
            Operation::DeleteName(_) => false,
            Operation::DeleteRecord { name, rdata } => {
                self.may(Action::Delete, name, rdata.record_type())
            }
        }
    }

    /// Whether all operations are.
    fn permits_all(&self, operations: &[Operation]) -> bool
        ensures { result ≡ list_all (permits self.now.rights.now.rules self.now.rights.now.caller self.now.index.now.origin) operations.now }
    {
        operations.iter().all(|operation| self.permits(operation))
    }

    /// Whether an update is permitted, has no prerequisites, and acts at some names only.
    fn permits_at(&self, covered: &[Name], update: &Update) -> bool
        requires { IsSorted canonical_cmp covered.now }
        ensures { OnTrue result (IsTried self.now.rights.now.rules self.now.rights.now.caller self.now.index.now.origin covered.now update.now) }
    {
        if !update.prerequisites().is_empty() {
            return false;
        }
        if update.outside(self.index.zone().origin()).is_some() {
            return false;
        }
        let operations = update.operations();
        if !self.permits_all(operations) {
            return false;
        }
        act_at(covered, operations)
    }

    /// The trial of an update on the part of the zone at some names, if the update is permitted and acts there only. The only error is
    /// out of memory.
    pub(crate) fn trial(
        &self,
        alloc: Global,
        covered: Vec<Name>,
        update: Update,
    ) -> Result<Option<Trial>, AllocError>
        requires { IsSorted canonical_cmp covered.items }
        ensures { IfOk result (λ found. IfSome found (IsTrial self.now.rights.now.rules self.now.rights.now.caller self.now.index.now)) }
    {
        if !self.permits_at(&covered, &update) {
            return Ok(None);
        }
        let part = self.index.zone().part(alloc, &covered)?;
        let outcome = apply_owned(alloc, part, &update)?;
        let after = ZoneIndex::new(alloc, outcome.zone)?;
        Ok(Some(Trial {
            update,
            covered,
            after,
        }))
    }

    /// Whether the part after a trial has the records at a name that the zone after the update has, and tells whether the name exists in
    /// that.
    fn agrees(&self, trial: &Trial, name: &Name) -> bool
        requires { IsTrial self.now.rights.now.rules self.now.rights.now.caller self.now.index.now trial.now }
        ensures { result ≡ agrees self.now.index.now trial.now name.now }
    {
        has_name(&trial.covered, name)
            && (is_there(trial.after.zone(), name)
                || are_covered(&trial.covered, self.index.zone().records_within(name)))
    }

    /// The same of a name and the wildcard below it. The only error is out of memory.
    fn both_agree(&self, alloc: Global, trial: &Trial, name: &Name) -> Result<bool, AllocError>
        requires { IsTrial self.now.rights.now.rules self.now.rights.now.caller self.now.index.now trial.now }
        ensures { IfOk result (λ b. b ≡ both_agree self.now.index.now trial.now name.now) }
    {
        if !self.agrees(trial, name) {
            return Ok(false);
        }
        match wildcard(alloc, name)? {
            Some(child) => Ok(self.agrees(trial, &child)),
            None => Ok(false),
        }
    }

    /// Whether a name is within the origin.
    pub(crate) fn is_inside(&self, name: &Name) -> bool
        ensures { result ≡ is_within name.now self.now.index.now.origin }
    {
        name.is_within(self.index.zone().origin())
    }

    /// The same of all names from one up to the origin. The only error is out of memory.
    fn is_whole_at(&self, alloc: Global, trial: &Trial, name: &Name) -> Result<bool, AllocError>
        requires { IsTrial self.now.rights.now.rules self.now.rights.now.caller self.now.index.now trial.now }
        ensures { IfOk result (λ b. b ≡ is_whole_at self.now.index.now trial.now name.now) }
    {
        if !self.is_inside(name) {
            return Ok(true);
        }
        if !self.both_agree(alloc, trial, name)? {
            return Ok(false);
        }
        match name.parent(alloc)? {
            Some(above) => self.is_whole_at(alloc, trial, &above),
            None => Ok(true),
        }
    }

    /// The same of some names. The only error is out of memory.
    fn are_whole_at(&self, alloc: Global, trial: &Trial, names: &[Name]) -> Result<bool, AllocError>
        requires { IsTrial self.now.rights.now.rules self.now.rights.now.caller self.now.index.now trial.now }
        ensures { IfOk result (λ b. b ≡ list_all (is_whole_at self.now.index.now trial.now) names.now) }
    {
        match names {
            [] => Ok(true),
            [name, rest @ ..] => {
                if !self.is_whole_at(alloc, trial, name)? {
                    return Ok(false);
                }
                self.are_whole_at(alloc, trial, rest)
            }
        }
    }

    /// Whether a question is answered otherwise after the update of a trial, as far as its part tells. The only error is out of memory.
    fn answers_otherwise(
        &self,
        alloc: Global,
        trial: &Trial,
        name: &Name,
        asked: QueryType,
    ) -> Result<bool, AllocError>
        requires { IsTrial self.now.rights.now.rules self.now.rights.now.caller self.now.index.now trial.now }
        ensures { IfOk result (λ b. OnTrue b (Differs self.now.index.now.origin (listing self.now.index.now.records) (listing (zone_after self.now.index.now trial.now.update).records) name.now asked)) }
    {
        // the proof needs that it is a zone
        let _ = self.index.zone().records();
        let before = self.index.answer(alloc, name, asked)?;
        let after = trial.after.answer(alloc, name, asked)?;
        if !answers_differ(&before, &after) {
            return Ok(false);
        }
        if !covers_servers(&trial.covered, &after.authority) {
            return Ok(false);
        }
        let names = asked_in_turn(alloc, name, asked, &after)?;
        self.are_whole_at(alloc, trial, &names)
    }

    /// The first of some types for which a name is answered otherwise after the update of a trial. The only error is out of memory.
    pub(crate) fn first_changed(
        &self,
        alloc: Global,
        trial: &Trial,
        name: &Name,
        types: &[QueryType],
    ) -> Result<Option<QueryType>, AllocError>
        requires { IsTrial self.now.rights.now.rules self.now.rights.now.caller self.now.index.now trial.now }
        ensures { IfOk result (λ found. IfSome found (λ asked. Contains types.now asked × Differs self.now.index.now.origin (listing self.now.index.now.records) (listing (zone_after self.now.index.now trial.now.update).records) name.now asked)) }
    {
        match types {
            [] => Ok(None),
            [asked, rest @ ..] => {
                if self.answers_otherwise(alloc, trial, name, *asked)? {
                    return Ok(Some(*asked));
                }
                self.first_changed(alloc, trial, name, rest)
            }
        }
    }
}
