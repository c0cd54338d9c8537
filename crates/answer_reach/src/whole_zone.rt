//! Which names may have rows, by what is the same for all names of a zone.

ghost use Rattle.std.specs.Prelude.{◌≡◌, ◌∷◌, ◌++◌, not, [], if◌then◌else◌, IfOk};
ghost use Rattle.std.specs.List.{list_any, filter};
ghost use Rattle.zone_core.specs.Sets.{listing};
ghost use Rattle.answer_reach.specs.Rights.{may_grant};
ghost use Rattle.answer_reach.specs.ReachTests.{AreSorted, within_any, has_alias, is_wildcard, is_wildcard_alias, IsWhole, wildcards_above, may_change_near, may_have_rows};

use crate::asker::{Asker, asked_at, is_type};
use crate::names::{has_name, within_any};
use crate::questions::alias_under;
use crate::reach_map::ReachMap;
use dns_data::{Record, RecordType};
use dns_names::Name;
use std::alloc::{AllocError, Global};
use zone_answers::QueryType;
use zone_core::Zone;

/// Whether a name is that of a wildcard (RFC 4592 section 2.1.1).
fn is_wildcard(name: &Name) -> bool
    ensures { result ≡ is_wildcard name.now }
{
    match name.labels().next() {
        Some(label) => label == b"*".as_slice(),
        None => false,
    }
}

/// Whether a record is an alias at a wildcard.
fn is_wildcard_alias(rr: &Record) -> bool
    ensures { result ≡ is_wildcard_alias rr.now }
{
    is_wildcard(&rr.owner) && is_type(rr.record_type(), RecordType::Cname)
}

/// Whether some record is.
fn has_wildcard_alias(records: &[Record]) -> bool
    ensures { result ≡ list_any is_wildcard_alias records.now }
{
    records.iter().any(|rr| is_wildcard_alias(rr))
}

/// What is the same for all names of a zone.
#[derive(Drop)]
pub(crate) struct WholeZone {
    /// Whether a wildcard below a name above the origin may answer.
    pub(crate) above: bool,
    /// Whether an alias is at a wildcard.
    pub(crate) aliases: bool,
    /// Cuts to which the referral can change, though no rule can grant changes there.
    pub(crate) glue: Vec<Name>,
}

/// Whether an alias is at a name, or answers for names below it of which none nearer exists, if one is at a wildcard. The only error is
/// out of memory.
fn has_alias(alloc: Global, zone: &Zone, wildcards: bool, name: &Name) -> Result<bool, AllocError>
    requires { wildcards ≡ list_any is_wildcard_alias (listing zone.now.records) }
    ensures { IfOk result (λ b. b ≡ has_alias (listing zone.now.records) name.now) }
{
    if !asked_at(zone, name, QueryType::Kept(RecordType::Cname)).is_empty() {
        return Ok(true);
    }
    if !wildcards {
        return Ok(false);
    }
    Ok(alias_under(alloc, zone, name)?.is_some())
}

impl<'a> Asker<'a> {
    /// Whether a wildcard below a name above this one may answer for it, for some question. The only error is out of memory.
    fn wildcards_above(
        &self,
        alloc: Global,
        lists: &ReachMap,
        name: &Name,
    ) -> Result<bool, AllocError>
        requires { AreSorted lists.now }
        ensures { IfOk result (λ b. b ≡ wildcards_above self.now.rights.now.rules self.now.rights.now.caller self.now.index.now.origin (listing self.now.index.now.records) lists.now name.now) }
    {
        match name.parent(alloc)? {
            Some(above) => self.wildcards_may_change(alloc, lists, &above, QueryType::Any),
            None => Ok(false),
        }
    }

    /// Appends a name, if no rule can grant changes there. The only error is out of memory.
    fn push_ungranted(
        &self,
        alloc: Global,
        names: &mut Vec<Name>,
        name: &Name,
    ) -> Result<(), AllocError>
        ensures { IfOk result (λ _. names.new.items ≡ names.old.items ++ (if not (may_grant self.now.rights.now.rules self.now.rights.now.caller name.now) then name.now ∷ [] else [])) }
    {
        if !self.rights.may_grant(name) {
            names.push(name.try_copy(alloc)?)?;
        }
        Ok(())
    }

    /// The names where no rule can grant changes. The only error is out of memory.
    fn ungranted(&self, alloc: Global, all: &[Name]) -> Result<Vec<Name>, AllocError>
        ensures { IfOk result (λ names. names.items ≡ filter (λ name. not (may_grant self.now.rights.now.rules self.now.rights.now.caller name)) all.now) }
    {
        let mut names = Vec::new(alloc);
        for name in all {
            self.push_ungranted(alloc, &mut names, name)?;
        }
        Ok(names)
    }

    /// Whether a name is at or below a cut that may change, or to which the referral can. Where no rule can grant changes, it is neither
    /// at nor below a name where one can. The only error is out of memory.
    fn is_opened(
        &self,
        alloc: Global,
        lists: &ReachMap,
        whole: &WholeZone,
        name: &Name,
    ) -> Result<bool, AllocError>
        requires sorted { AreSorted lists.now }
        requires whole { IsWhole self.now.rights.now.rules self.now.rights.now.caller self.now.index.now.origin (listing self.now.index.now.records) lists.now whole.now }
        ensures { IfOk result (λ b. b ≡ within_any lists.now.openers.items name.now) }
    {
        if self.rights.may_grant(name) {
            return within_any(alloc, &lists.openers, name);
        }
        within_any(alloc, &whole.glue, name)
    }

    /// What is the same for all names of the zone. The only error is out of memory.
    pub(crate) fn whole(&self, alloc: Global, lists: &ReachMap) -> Result<WholeZone, AllocError>
        requires { AreSorted lists.now }
        ensures { IfOk result (λ whole. IsWhole self.now.rights.now.rules self.now.rights.now.caller self.now.index.now.origin (listing self.now.index.now.records) lists.now whole) }
    {
        let zone = self.index.zone();
        Ok(WholeZone {
            above: self.wildcards_above(alloc, lists, zone.origin())?,
            aliases: has_wildcard_alias(zone.records()),
            glue: self.ungranted(alloc, &lists.openers)?,
        })
    }

    /// Whether what is found for a name, or for those below it that are not known, can change for some question. The only error is out
    /// of memory.
    fn may_change_near(
        &self,
        alloc: Global,
        lists: &ReachMap,
        whole: &WholeZone,
        name: &Name,
    ) -> Result<bool, AllocError>
        requires sorted { AreSorted lists.now }
        requires whole { IsWhole self.now.rights.now.rules self.now.rights.now.caller self.now.index.now.origin (listing self.now.index.now.records) lists.now whole.now }
        ensures { IfOk result (λ b. b ≡ may_change_near self.now.rights.now.rules self.now.rights.now.caller self.now.index.now.origin (listing self.now.index.now.records) lists.now name.now) }
    {
        if lists.soa {
            return Ok(true);
        }
        if self.is_opened(alloc, lists, whole, name)? {
            return Ok(true);
        }
        if has_name(&lists.under, name)
            || !has_name(&lists.staying, name)
            || self.records_may_change(lists, name, QueryType::Any)
        {
            return Ok(true);
        }
        let below = self.wildcard_may_change(alloc, lists, name, false, QueryType::Any)?;
        Ok(below || whole.above)
    }

    /// Whether a name may have rows. The only error is out of memory.
    pub(crate) fn may_have_rows(
        &self,
        alloc: Global,
        lists: &ReachMap,
        whole: &WholeZone,
        name: &Name,
    ) -> Result<bool, AllocError>
        requires sorted { AreSorted lists.now }
        requires whole { IsWhole self.now.rights.now.rules self.now.rights.now.caller self.now.index.now.origin (listing self.now.index.now.records) lists.now whole.now }
        ensures { IfOk result (λ b. b ≡ may_have_rows self.now.rights.now.rules self.now.rights.now.caller self.now.index.now.origin (listing self.now.index.now.records) lists.now name.now) }
    {
        if self.may_change_near(alloc, lists, whole, name)? {
            return Ok(true);
        }
        has_alias(alloc, self.index.zone(), whole.aliases, name)
    }
}
