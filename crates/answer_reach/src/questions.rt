//! Whether what is answered to a question can change.

ghost use Rattle.std.specs.Prelude.{◌≡◌, ◌∷◌, ◌++◌, ◌&&◌, ◌||◌, not, [], if◌then◌else◌, IfOk};
ghost use Rattle.std.specs.List.{list_any, flat_map};
ghost use Rattle.std.specs.Option.{option_copied};
ghost use Rattle.dns_names.specs.Order.{same_name};
ghost use Rattle.dns_data.specs.Types.{kept_types};
ghost use Rattle.dns_data.specs.declared.record_type.RecordType.TheVariants as types;
ghost use Rattle.zone_core.specs.Sets.{listing};
ghost use Rattle.zone_answers.specs.Answers.{Name as NameOf, asks_alias};
ghost use Rattle.zone_answers.specs.AnswerTests.{is_ds};
ghost use Rattle.zone_answers.specs.Views.{answer_of};
ghost use Rattle.answer_reach.specs.Reach.{matters, may_change};
ghost use Rattle.answer_reach.specs.ReachTests.{AreSorted, is_cut_off, has_name, within_any, may_exist, child_may_exist, records_may_change, own_may_change, wildcard_may_change, wildcards_may_change, may_change_at, sources_under, may_change_under, target_list, targets, target_in, asked_in_turn, may_change_inside, reaches, alias_by, alias_under, reaches_by, reaches_under};
ghost use Rattle.std.specs.List.Sorted.{IsSorted};
ghost use Rattle.dns_names.specs.Order.{canonical_cmp};

use crate::asker::{Asker, asked_at, is_there, matters};
use crate::names::{below_any, has_name, wildcard, within_any};
use crate::reach_map::ReachMap;
use dns_data::{Data, Record, RecordType};
use dns_names::Name;
use std::alloc::{AllocError, Global};
use zone_answers::{Answer, QueryType};
use zone_core::Zone;

/// Whether a question is for a DS.
fn is_ds(asked: QueryType) -> bool
    ensures { result ≡ is_ds asked }
{
    matches!(asked, QueryType::Kept(RecordType::Ds))
}

/// Whether a question is for aliases themselves.
fn asks_alias(asked: QueryType) -> bool
    ensures { result ≡ asks_alias asked }
{
    matches!(asked, QueryType::Kept(RecordType::Cname) | QueryType::Any)
}

/// Whether one of some cuts is at or above a name; for a DS, above it. The only error is out of memory.
fn is_cut_off(
    alloc: Global,
    cuts: &[Name],
    name: &Name,
    asked: QueryType,
) -> Result<bool, AllocError>
    requires { IsSorted canonical_cmp cuts.now }
    ensures { IfOk result (λ b. b ≡ is_cut_off cuts.now name.now asked) }
{
    if is_ds(asked) {
        return below_any(alloc, cuts, name);
    }
    within_any(alloc, cuts, name)
}

/// Appends the target of an alias. The only error is out of memory.
fn push_target(alloc: Global, names: &mut Vec<Name>, rdata: &Data) -> Result<(), AllocError>
    ensures { IfOk result (λ _. names.new.items ≡ names.old.items ++ target_list rdata.now) }
{
    if let Data::Cname(target) = rdata {
        names.push(target.try_copy(alloc)?)?;
    }
    Ok(())
}

/// Appends the targets of aliases. The only error is out of memory.
fn push_targets(alloc: Global, names: &mut Vec<Name>, records: &[Record]) -> Result<(), AllocError>
    ensures { IfOk result (λ _. names.new.items ≡ names.old.items ++ targets records.now) }
{
    for record in records {
        push_target(alloc, names, &record.rdata)?;
    }
    Ok(())
}

/// The names that are asked for in turn, as an answer has them. The only error is out of memory.
pub(crate) fn asked_in_turn(
    alloc: Global,
    name: &Name,
    asked: QueryType,
    answer: &Answer,
) -> Result<Vec<Name>, AllocError>
    ensures { IfOk result (λ names. names.items ≡ asked_in_turn name.now asked (answer_of answer.now)) }
{
    let mut names = Vec::new(alloc);
    names.push(name.try_copy(alloc)?)?;
    if !asks_alias(asked) {
        push_targets(alloc, &mut names, &answer.answer)?;
    }
    Ok(names)
}

/// The target of an alias. The only error is out of memory.
fn target_of(alloc: Global, rdata: &Data) -> Result<Option<Name>, AllocError>
    ensures { IfOk result (λ found. found ≡ target_in rdata.now) }
{
    match rdata {
        Data::Cname(target) => Ok(Some(target.try_copy(alloc)?)),
        _ => Ok(None),
    }
}

/// The alias at the wildcard below a name. The only error is out of memory.
fn alias_by<'a>(
    alloc: Global,
    zone: &'a Zone,
    above: &Name,
) -> Result<Option<&'a Record>, AllocError>
    ensures { IfOk result (λ found. option_copied found ≡ alias_by (listing zone.now.records) above.now) }
{
    match wildcard(alloc, above)? {
        Some(name) => { Ok(asked_at(zone, &name, QueryType::Kept(RecordType::Cname)).first()) }
        None => Ok(None),
    }
}

/// The alias of the wildcard that answers for the names below one of which none nearer exists. The only error is out of memory.
pub(crate) fn alias_under<'a>(
    alloc: Global,
    zone: &'a Zone,
    above: &Name,
) -> Result<Option<&'a Record>, AllocError>
    ensures { IfOk result (λ found. option_copied found ≡ alias_under (listing zone.now.records) above.now) }
{
    if is_there(zone, above) {
        return alias_by(alloc, zone, above);
    }
    match above.parent(alloc)? {
        Some(next) => alias_under(alloc, zone, &next),
        None => Ok(None),
    }
}

impl<'a> Asker<'a> {
    /// Whether a name may exist.
    fn may_exist(&self, lists: &ReachMap, name: &Name) -> bool
        requires { AreSorted lists.now }
        ensures { result ≡ may_exist self.now.rights.now.rules self.now.rights.now.caller self.now.index.now.origin (listing self.now.index.now.records) lists.now name.now }
    {
        is_there(self.index.zone(), name) || has_name(&lists.arising, name)
    }

    /// Whether a name one label below another may exist.
    fn child_may_exist(&self, lists: &ReachMap, above: &Name, child: &Name) -> bool
        requires { AreSorted lists.now }
        ensures { result ≡ child_may_exist self.now.rights.now.rules self.now.rights.now.caller self.now.index.now.origin (listing self.now.index.now.records) lists.now above.now child.now }
    {
        self.may_exist(lists, child) || has_name(&lists.under, above)
    }

    /// Whether the serial of the SOA makes a difference to a question, and can change.
    fn serial_matters(&self, lists: &ReachMap, name: &Name, asked: QueryType) -> bool
        ensures { result ≡ (lists.now.serial && (same_name name.now self.now.index.now.origin && matters asked types.Soa)) }
    {
        lists.serial && name == self.index.zone().origin() && matters(asked, RecordType::Soa)
    }

    /// Whether the records of a type make a difference to a question, and can change.
    fn type_may_change(&self, name: &Name, asked: QueryType, record_type: RecordType) -> bool
        ensures { result ≡ (matters asked record_type && may_change self.now.rights.now.rules self.now.rights.now.caller self.now.index.now.origin (listing self.now.index.now.records) name.now record_type) }
    {
        matters(asked, record_type) && self.may_change(name, record_type)
    }

    /// Whether the records of some type make a difference to a question, and can change.
    fn some_type_may_change(&self, name: &Name, asked: QueryType) -> bool
        ensures { result ≡ list_any (λ t. matters asked t && may_change self.now.rights.now.rules self.now.rights.now.caller self.now.index.now.origin (listing self.now.index.now.records) name.now t) kept_types }
    {
        if !self.rights.may_grant(name) {
            return false;
        }
        RecordType::ALL.iter().any(|record_type| self.type_may_change(name, asked, *record_type))
    }

    /// Whether the records of a name that make a difference to a question can change.
    pub(crate) fn records_may_change(&self, lists: &ReachMap, name: &Name, asked: QueryType) -> bool
        ensures { result ≡ records_may_change self.now.rights.now.rules self.now.rights.now.caller self.now.index.now.origin (listing self.now.index.now.records) lists.now name.now asked }
    {
        self.some_type_may_change(name, asked) || self.serial_matters(lists, name, asked)
    }

    /// Whether a name itself may answer, and may not or with other records.
    fn own_may_change(&self, lists: &ReachMap, name: &Name, asked: QueryType) -> bool
        requires { AreSorted lists.now }
        ensures { result ≡ own_may_change self.now.rights.now.rules self.now.rights.now.caller self.now.index.now.origin (listing self.now.index.now.records) lists.now name.now asked }
    {
        self.may_exist(lists, name)
            && (!has_name(&lists.staying, name) || self.records_may_change(lists, name, asked))
    }

    /// Whether a wildcard below a name may answer, and may not or with other records.
    fn child_may_change(
        &self,
        lists: &ReachMap,
        above: &Name,
        child: &Name,
        nearer: bool,
        asked: QueryType,
    ) -> bool
        requires { AreSorted lists.now }
        ensures { result ≡ (child_may_exist self.now.rights.now.rules self.now.rights.now.caller self.now.index.now.origin (listing self.now.index.now.records) lists.now above.now child.now && (not (has_name lists.now.staying.items child.now) || (nearer || records_may_change self.now.rights.now.rules self.now.rights.now.caller self.now.index.now.origin (listing self.now.index.now.records) lists.now child.now asked))) }
    {
        self.child_may_exist(lists, above, child)
            && (!has_name(&lists.staying, child)
                || nearer
                || self.records_may_change(lists, child, asked))
    }

    /// Whether the wildcard below a name may answer, and may not or with other records, for a name below it that itself may exist or
    /// not. The only error is out of memory.
    pub(crate) fn wildcard_may_change(
        &self,
        alloc: Global,
        lists: &ReachMap,
        above: &Name,
        nearer: bool,
        asked: QueryType,
    ) -> Result<bool, AllocError>
        requires { AreSorted lists.now }
        ensures { IfOk result (λ b. b ≡ wildcard_may_change self.now.rights.now.rules self.now.rights.now.caller self.now.index.now.origin (listing self.now.index.now.records) lists.now above.now nearer asked) }
    {
        match wildcard(alloc, above)? {
            Some(child) => Ok(self.child_may_change(lists, above, &child, nearer, asked)),
            None => Ok(true),
        }
    }

    /// The same for a name, one label above which is another, unless the name exists whatever the caller does. The only error is out of
    /// memory.
    fn wildcard_beside(
        &self,
        alloc: Global,
        lists: &ReachMap,
        name: &Name,
        above: &Name,
        asked: QueryType,
    ) -> Result<bool, AllocError>
        requires { AreSorted lists.now }
        ensures { IfOk result (λ b. b ≡ (not (has_name lists.now.staying.items name.now) && wildcard_may_change self.now.rights.now.rules self.now.rights.now.caller self.now.index.now.origin (listing self.now.index.now.records) lists.now above.now (may_exist self.now.rights.now.rules self.now.rights.now.caller self.now.index.now.origin (listing self.now.index.now.records) lists.now name.now) asked)) }
    {
        if has_name(&lists.staying, name) {
            return Ok(false);
        }
        self.wildcard_may_change(alloc, lists, above, self.may_exist(lists, name), asked)
    }

    /// Whether one of the wildcards below the names above a name may answer, and may not or with other records. The only error is out of
    /// memory.
    pub(crate) fn wildcards_may_change(
        &self,
        alloc: Global,
        lists: &ReachMap,
        name: &Name,
        asked: QueryType,
    ) -> Result<bool, AllocError>
        requires { AreSorted lists.now }
        ensures { IfOk result (λ b. b ≡ wildcards_may_change self.now.rights.now.rules self.now.rights.now.caller self.now.index.now.origin (listing self.now.index.now.records) lists.now name.now asked) }
    {
        let Some(above) = name.parent(alloc)? else {
            return Ok(false);
        };
        if self.wildcard_beside(alloc, lists, name, &above, asked)? {
            return Ok(true);
        }
        self.wildcards_may_change(alloc, lists, &above, asked)
    }

    /// Whether what the zone itself has for a name can change. The only error is out of memory.
    fn sources_may_change(
        &self,
        alloc: Global,
        lists: &ReachMap,
        name: &Name,
        asked: QueryType,
    ) -> Result<bool, AllocError>
        requires { AreSorted lists.now }
        ensures { IfOk result (λ b. b ≡ (own_may_change self.now.rights.now.rules self.now.rights.now.caller self.now.index.now.origin (listing self.now.index.now.records) lists.now name.now asked || wildcards_may_change self.now.rights.now.rules self.now.rights.now.caller self.now.index.now.origin (listing self.now.index.now.records) lists.now name.now asked)) }
    {
        if self.own_may_change(lists, name, asked) {
            return Ok(true);
        }
        self.wildcards_may_change(alloc, lists, name, asked)
    }

    /// Whether what is found for a name can change, before aliases are followed. The only error is out of memory.
    fn may_change_at(
        &self,
        alloc: Global,
        lists: &ReachMap,
        name: &Name,
        asked: QueryType,
    ) -> Result<bool, AllocError>
        requires { AreSorted lists.now }
        ensures { IfOk result (λ b. b ≡ may_change_at self.now.rights.now.rules self.now.rights.now.caller self.now.index.now.origin (listing self.now.index.now.records) lists.now name.now asked) }
    {
        if lists.soa {
            return Ok(true);
        }
        if is_cut_off(alloc, &lists.openers, name, asked)? {
            return Ok(true);
        }
        if is_cut_off(alloc, &lists.cuts, name, asked)? {
            return Ok(false);
        }
        self.sources_may_change(alloc, lists, name, asked)
    }

    /// The same of a name within the origin. The only error is out of memory.
    fn may_change_inside(
        &self,
        alloc: Global,
        lists: &ReachMap,
        name: &Name,
        asked: QueryType,
    ) -> Result<bool, AllocError>
        requires { AreSorted lists.now }
        ensures { IfOk result (λ b. b ≡ may_change_inside self.now.rights.now.rules self.now.rights.now.caller self.now.index.now.origin (listing self.now.index.now.records) lists.now asked name.now) }
    {
        if !name.is_within(self.index.zone().origin()) {
            return Ok(false);
        }
        self.may_change_at(alloc, lists, name, asked)
    }

    /// Whether something was found, or what is found for a name within the origin can change. The only error is out of memory.
    fn or_may_change(
        &self,
        alloc: Global,
        lists: &ReachMap,
        found: bool,
        name: &Name,
        asked: QueryType,
    ) -> Result<bool, AllocError>
        requires { AreSorted lists.now }
        ensures { IfOk result (λ b. b ≡ (found || may_change_inside self.now.rights.now.rules self.now.rights.now.caller self.now.index.now.origin (listing self.now.index.now.records) lists.now asked name.now)) }
    {
        if found {
            return Ok(true);
        }
        self.may_change_inside(alloc, lists, name, asked)
    }

    /// Whether what is found for one of some names can change. The only error is out of memory.
    fn any_may_change(
        &self,
        alloc: Global,
        lists: &ReachMap,
        names: &[Name],
        asked: QueryType,
    ) -> Result<bool, AllocError>
        requires { AreSorted lists.now }
        ensures { IfOk result (λ b. b ≡ list_any (may_change_inside self.now.rights.now.rules self.now.rights.now.caller self.now.index.now.origin (listing self.now.index.now.records) lists.now asked) names.now) }
    {
        let mut found = false;
        for name in names {
            found = self.or_may_change(alloc, lists, found, name, asked)?;
        }
        Ok(found)
    }

    /// Whether the caller reaches a question. The only error is out of memory.
    pub(crate) fn reaches(
        &self,
        alloc: Global,
        lists: &ReachMap,
        name: &Name,
        asked: QueryType,
    ) -> Result<bool, AllocError>
        requires { AreSorted lists.now }
        ensures { IfOk result (λ b. b ≡ reaches self.now.rights.now.rules self.now.rights.now.caller self.now.index.now.origin (listing self.now.index.now.records) lists.now name.now asked) }
    {
        let answer = self.index.answer(alloc, name, asked)?;
        let names = asked_in_turn(alloc, name, asked, &answer)?;
        self.any_may_change(alloc, lists, &names, asked)
    }

    /// Whether what the zone itself has for names below one, which are not known, can change. The only error is out of memory.
    fn sources_under(
        &self,
        alloc: Global,
        lists: &ReachMap,
        above: &Name,
        asked: QueryType,
    ) -> Result<bool, AllocError>
        requires { AreSorted lists.now }
        ensures { IfOk result (λ b. b ≡ sources_under self.now.rights.now.rules self.now.rights.now.caller self.now.index.now.origin (listing self.now.index.now.records) lists.now above.now asked) }
    {
        if has_name(&lists.under, above) {
            return Ok(true);
        }
        if self.wildcards_may_change(alloc, lists, above, asked)? {
            return Ok(true);
        }
        self.wildcard_may_change(alloc, lists, above, false, asked)
    }

    /// Whether what is found for names below one, which are not known, can change. The only error is out of memory.
    fn may_change_under(
        &self,
        alloc: Global,
        lists: &ReachMap,
        above: &Name,
        asked: QueryType,
    ) -> Result<bool, AllocError>
        requires { AreSorted lists.now }
        ensures { IfOk result (λ b. b ≡ may_change_under self.now.rights.now.rules self.now.rights.now.caller self.now.index.now.origin (listing self.now.index.now.records) lists.now above.now asked) }
    {
        if lists.soa {
            return Ok(true);
        }
        if within_any(alloc, &lists.openers, above)? {
            return Ok(true);
        }
        if within_any(alloc, &lists.cuts, above)? {
            return Ok(false);
        }
        self.sources_under(alloc, lists, above, asked)
    }

    /// Whether the caller reaches a question for the target of an alias, if there is one. The only error is out of memory.
    fn reaches_by(
        &self,
        alloc: Global,
        lists: &ReachMap,
        asked: QueryType,
        alias: Option<&Record>,
    ) -> Result<bool, AllocError>
        requires { AreSorted lists.now }
        ensures { IfOk result (λ b. b ≡ reaches_by self.now.rights.now.rules self.now.rights.now.caller self.now.index.now.origin (listing self.now.index.now.records) lists.now asked (option_copied alias.entry)) }
    {
        let Some(alias) = alias else {
            return Ok(false);
        };
        match target_of(alloc, &alias.rdata)? {
            Some(target) => self.reaches(alloc, lists, &target, asked),
            None => Ok(false),
        }
    }

    /// Whether the caller reaches a question by the alias of the wildcard that answers. The only error is out of memory.
    fn reaches_by_wildcard(
        &self,
        alloc: Global,
        lists: &ReachMap,
        above: &Name,
        asked: QueryType,
    ) -> Result<bool, AllocError>
        requires { AreSorted lists.now }
        ensures { IfOk result (λ b. b ≡ (not (within_any lists.now.cuts.items above.now) && (not (asks_alias asked) && reaches_by self.now.rights.now.rules self.now.rights.now.caller self.now.index.now.origin (listing self.now.index.now.records) lists.now asked (alias_under (listing self.now.index.now.records) above.now)))) }
    {
        if within_any(alloc, &lists.cuts, above)? {
            return Ok(false);
        }
        if asks_alias(asked) {
            return Ok(false);
        }
        let alias = alias_under(alloc, self.index.zone(), above)?;
        self.reaches_by(alloc, lists, asked, alias)
    }

    /// Whether the caller reaches a question for names below one, which are not known. The only error is out of memory.
    pub(crate) fn reaches_under(
        &self,
        alloc: Global,
        lists: &ReachMap,
        above: &Name,
        asked: QueryType,
    ) -> Result<bool, AllocError>
        requires { AreSorted lists.now }
        ensures { IfOk result (λ b. b ≡ reaches_under self.now.rights.now.rules self.now.rights.now.caller self.now.index.now.origin (listing self.now.index.now.records) lists.now above.now asked) }
    {
        if self.may_change_under(alloc, lists, above, asked)? {
            return Ok(true);
        }
        self.reaches_by_wildcard(alloc, lists, above, asked)
    }
}
