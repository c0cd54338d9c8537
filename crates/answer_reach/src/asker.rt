//! What a policy lets a caller change of the records of a zone.

ghost use Rattle.std.specs.Prelude.{◌≡◌, ◌&&◌, ◌||◌, not};
ghost use Rattle.std.specs.List.{list_any};
ghost use Rattle.dns_data.specs.Rdata.{type_of};
ghost use Rattle.dns_data.specs.declared.record_type.RecordType.TheVariants as types;
ghost use Rattle.grant_policy.specs.declared.action.Action.TheVariants as actions;
ghost use Rattle.grant_policy.specs.Isolated.{question, ChangesRecords};
ghost use Rattle.grant_policy.specs.Decisions.{decision, is_granted, decided};
ghost use Rattle.zone_core.specs.Sets.{listing};
ghost use Rattle.zone_answers.specs.declared.query_type.QueryType.TheVariants as asks;
ghost use Rattle.zone_answers.specs.Answers.{asked_at};
ghost use Rattle.zone_answers.specs.AnswerTests.{is_there};
ghost use Rattle.answer_reach.specs.Turns.{delegates, action_for, may};
ghost use Rattle.answer_reach.specs.Reach.{is_type, are_apart, matters, remains, are_kept_out, has_place, may_come, may_go, may_change};
ghost use Rattle.answer_reach.specs.ReachTests.{covers_under, matches_under, decision_under, action_under, may_under, comes_at, comes_under, updates_at, updates_under, updates, is_cut, stays_cut, server_may_change, cut_may_change};

use crate::rights::Rights;
use dns_data::{Data, Record, RecordType};
use dns_names::Name;
use grant_policy::{Action, Decision, Effect, Identifier, LookUps, Policy, Rule, Scope, decide};
use zone_answers::{QueryType, ZoneIndex};
use zone_core::{Zone, is_below};

/// A caller of a policy, that may update a zone.
#[derive(Clone, Copy)]
pub(crate) struct Asker<'a> {
    pub(crate) rights: &'a Rights<'a>,
    pub(crate) index: &'a ZoneIndex,
}

/// Whether two types are one.
#[tactic(auto, using(crate::proofs::GrowLemmas::type_same))]
pub(crate) fn is_type(record_type: RecordType, other: RecordType) -> bool
    ensures { result ≡ is_type record_type other }
{
    record_type.number() == other.number()
}

/// Whether records of two types cannot be at one name: a CNAME and others (RFC 1034 section 3.6.2).
fn are_apart(record_type: RecordType, other: RecordType) -> bool
    ensures { result ≡ are_apart record_type other }
{
    let cname = RecordType::Cname;
    (is_type(record_type, cname) && !is_type(other, cname))
        || (is_type(other, cname) && !is_type(record_type, cname))
}

/// Whether records of a type make a difference to a question: those that it asks for, and an alias.
pub(crate) fn matters(asked: QueryType, record_type: RecordType) -> bool
    ensures { result ≡ matters asked record_type }
{
    match asked {
        QueryType::Kept(kept) => {
            is_type(kept, record_type) || is_type(record_type, RecordType::Cname)
        }
        QueryType::Any => true,
        QueryType::Other => is_type(record_type, RecordType::Cname),
    }
}

/// Whether the records of a type at a name make a delegation: NS below the origin, and DS.
fn delegates(origin: &Name, name: &Name, record_type: RecordType) -> bool
    ensures { result ≡ delegates origin.now name.now record_type }
{
    match record_type {
        RecordType::Ns => name != origin,
        RecordType::Ds => true,
        _ => false,
    }
}

/// The action that a change of records asks for.
fn action_for(origin: &Name, change: Action, name: &Name, record_type: RecordType) -> Action
    ensures { result ≡ action_for origin.now change name.now record_type }
{
    if delegates(origin, name, record_type) {
        Action::Delegate
    } else {
        change
    }
}

/// The action that a change of records asks for, below the origin.
fn action_under(change: Action, record_type: RecordType) -> Action
    ensures { result ≡ action_under change record_type }
{
    match record_type {
        RecordType::Ns | RecordType::Ds => Action::Delegate,
        _ => change,
    }
}

/// Whether a policy grants an action.
fn is_granted(
    policy: &Policy,
    caller: &Identifier,
    name: &Name,
    record_type: RecordType,
    action: Action,
) -> bool
    ensures { result ≡ is_granted (decision (question caller.now name.now record_type action) policy.now) }
{
    matches!(
        decide(
            policy,
            caller,
            name,
            record_type,
            action,
            &mut LookUps::new()
        ),
        Decision::Granted(_)
    )
}

/// Whether a rule of this scope speaks of names below one, at or below which no rule is.
fn covers_under(scope: Scope, at: &Name, above: &Name) -> bool
    ensures { result ≡ covers_under scope at.now above.now }
{
    match scope {
        Scope::Name => false,
        Scope::Subtree | Scope::Below => above.is_within(at),
    }
}

/// Whether a rule speaks of what is asked of these names.
fn matches_under(
    rule: &Rule,
    caller: &Identifier,
    above: &Name,
    record_type: RecordType,
    action: Action,
) -> bool
    ensures { result ≡ matches_under (question caller.now above.now record_type action) rule.now }
{
    rule.callers.include(caller)
        && covers_under(rule.scope, &rule.at, above)
        && rule.types.include(record_type)
        && rule.actions.include(action)
}

/// Whether a rule grants what it speaks of.
fn grants(rule: &Rule) -> bool
    ensures { result ≡ is_granted (decided rule.now) }
{
    match rule.effect {
        Effect::Grant => true,
        Effect::Deny => false,
    }
}

/// Whether rules grant what is asked of these names.
fn are_granted_under(
    rules: &[Rule],
    caller: &Identifier,
    above: &Name,
    record_type: RecordType,
    action: Action,
) -> bool
    ensures { result ≡ is_granted (decision_under (question caller.now above.now record_type action) rules.now) }
{
    match rules {
        [] => false,
        [rule, rest @ ..] => {
            if matches_under(rule, caller, above, record_type, action) {
                return grants(rule);
            }
            are_granted_under(rest, caller, above, record_type, action)
        }
    }
}

/// Whether records of a type may be at a name: an SOA only at the origin, a DS only below it.
fn has_place(origin: &Name, name: &Name, record_type: RecordType) -> bool
    ensures { result ≡ has_place origin.now name.now record_type }
{
    match record_type {
        RecordType::Soa => name == origin,
        RecordType::Ds => name != origin,
        _ => true,
    }
}

/// Whether records of a type stay at the origin.
fn is_guarded(record_type: RecordType) -> bool
    ensures { result ≡ (is_type record_type types.Soa || is_type record_type types.Ns) }
{
    is_type(record_type, RecordType::Soa) || is_type(record_type, RecordType::Ns)
}

/// The records of a name that a question asks for, in record order.
pub(crate) fn asked_at<'a>(zone: &'a Zone, name: &Name, asked: QueryType) -> &'a [Record]
    ensures { result.now ≡ asked_at (listing zone.now.records) name.now asked }
{
    // the proof needs that the records are in order
    let _ = zone.records();
    match asked {
        QueryType::Kept(record_type) => zone.rrset(name, record_type),
        QueryType::Any => zone.records_at(name),
        QueryType::Other => &[],
    }
}

/// Whether a name exists: a record is at it or below it (RFC 4592 section 2.2.2).
pub(crate) fn is_there(zone: &Zone, name: &Name) -> bool
    ensures { result ≡ is_there (listing zone.now.records) name.now }
{
    // the proof needs that the records are in order
    let _ = zone.records();
    !zone.records_within(name).is_empty()
}

impl<'a> Asker<'a> {
    /// Whether a change of the records of a type at a name is granted.
    pub(crate) fn may(&self, change: Action, name: &Name, record_type: RecordType) -> bool
        requires { ChangesRecords change }
        ensures { result ≡ may self.now.rights.now.rules self.now.rights.now.caller self.now.index.now.origin change name.now record_type }
    {
        if !self.rights.may_grant(name) {
            return false;
        }
        let asked = action_for(self.index.zone().origin(), change, name, record_type);
        let (policy, caller) = (self.rights.policy(), self.rights.caller());
        is_granted(policy, caller, name, record_type, asked)
    }

    /// The same at names below one, at or below which no rule is.
    fn may_under(&self, change: Action, above: &Name, record_type: RecordType) -> bool
        requires { ChangesRecords change }
        ensures { result ≡ may_under self.now.rights.now.rules self.now.rights.now.caller change above.now record_type }
    {
        if !self.rights.may_grant(above) {
            return false;
        }
        let asked = action_under(change, record_type);
        let (policy, caller) = (self.rights.policy(), self.rights.caller());
        are_granted_under(policy.rules(), caller, above, record_type, asked)
    }

    /// Whether a record, or another of its set, is there whatever the caller does.
    pub(crate) fn remains(&self, rr: &Record) -> bool
        ensures { result ≡ remains self.now.rights.now.rules self.now.rights.now.caller self.now.index.now.origin rr.now }
    {
        !self.may(Action::Delete, &rr.owner, rr.record_type())
            || (rr.owner == *self.index.zone().origin() && is_guarded(rr.record_type()))
    }

    /// Whether a record remains, and keeps records of a type from its name.
    fn keeps_out(&self, rr: &Record, record_type: RecordType) -> bool
        ensures { result ≡ (remains self.now.rights.now.rules self.now.rights.now.caller self.now.index.now.origin rr.now && are_apart (type_of rr.now.rdata) record_type) }
    {
        self.remains(rr) && are_apart(rr.record_type(), record_type)
    }

    /// Whether a record that remains keeps records of a type from a name.
    fn are_kept_out(&self, name: &Name, record_type: RecordType) -> bool
        ensures { result ≡ are_kept_out self.now.rights.now.rules self.now.rights.now.caller self.now.index.now.origin (listing self.now.index.now.records) name.now record_type }
    {
        asked_at(self.index.zone(), name, QueryType::Any)
            .iter()
            .any(|rr| self.keeps_out(rr, record_type))
    }

    /// Whether the caller can add records of a type at a name.
    pub(crate) fn may_come(&self, name: &Name, record_type: RecordType) -> bool
        ensures { result ≡ may_come self.now.rights.now.rules self.now.rights.now.caller self.now.index.now.origin (listing self.now.index.now.records) name.now record_type }
    {
        let origin = self.index.zone().origin();
        name.is_within(origin)
            && self.may(Action::Add, name, record_type)
            && has_place(origin, name, record_type)
            && !self.are_kept_out(name, record_type)
    }

    /// Whether it can delete some.
    pub(crate) fn may_go(&self, name: &Name, record_type: RecordType) -> bool
        ensures { result ≡ may_go self.now.rights.now.rules self.now.rights.now.caller self.now.index.now.origin (listing self.now.index.now.records) name.now record_type }
    {
        self.may(Action::Delete, name, record_type)
            && !asked_at(self.index.zone(), name, QueryType::Kept(record_type)).is_empty()
    }

    /// Whether the records of a type at a name can change.
    pub(crate) fn may_change(&self, name: &Name, record_type: RecordType) -> bool
        ensures { result ≡ may_change self.now.rights.now.rules self.now.rights.now.caller self.now.index.now.origin (listing self.now.index.now.records) name.now record_type }
    {
        self.may_come(name, record_type) || self.may_go(name, record_type)
    }

    /// Whether records of some type may come at a name.
    fn comes_at(&self, name: &Name) -> bool
        ensures { result ≡ comes_at self.now.rights.now.rules self.now.rights.now.caller self.now.index.now.origin (listing self.now.index.now.records) name.now }
    {
        if !self.rights.may_grant(name) {
            return false;
        }
        RecordType::ALL
            .iter()
            .any(|record_type| self.may_come(name, *record_type))
    }

    /// Whether records of a type may come at names below one, at or below which no rule is.
    fn may_come_under(&self, above: &Name, record_type: RecordType) -> bool
        ensures { result ≡ (not (is_type record_type types.Soa) && may_under self.now.rights.now.rules self.now.rights.now.caller actions.Add above.now record_type) }
    {
        !is_type(record_type, RecordType::Soa) && self.may_under(Action::Add, above, record_type)
    }

    /// The same, of some type.
    pub(crate) fn comes_under(&self, above: &Name) -> bool
        ensures { result ≡ comes_under self.now.rights.now.rules self.now.rights.now.caller self.now.index.now.origin (listing self.now.index.now.records) above.now }
    {
        if !self.rights.may_grant(above) {
            return false;
        }
        RecordType::ALL
            .iter()
            .any(|record_type| self.may_come_under(above, *record_type))
    }

    /// Whether records of some type may come at a name or at such names below it.
    pub(crate) fn comes(&self, name: &Name) -> bool
        ensures { result ≡ (comes_at self.now.rights.now.rules self.now.rights.now.caller self.now.index.now.origin (listing self.now.index.now.records) name.now || comes_under self.now.rights.now.rules self.now.rights.now.caller self.now.index.now.origin (listing self.now.index.now.records) name.now) }
    {
        self.comes_at(name) || self.comes_under(name)
    }

    /// Whether a change of the records of a type at a name is granted.
    fn may_update(&self, name: &Name, record_type: RecordType) -> bool
        ensures { result ≡ (may self.now.rights.now.rules self.now.rights.now.caller self.now.index.now.origin actions.Add name.now record_type || may self.now.rights.now.rules self.now.rights.now.caller self.now.index.now.origin actions.Delete name.now record_type) }
    {
        self.may(Action::Add, name, record_type) || self.may(Action::Delete, name, record_type)
    }

    /// The same at such names below it.
    fn may_update_under(&self, above: &Name, record_type: RecordType) -> bool
        ensures { result ≡ (may_under self.now.rights.now.rules self.now.rights.now.caller actions.Add above.now record_type || may_under self.now.rights.now.rules self.now.rights.now.caller actions.Delete above.now record_type) }
    {
        self.may_under(Action::Add, above, record_type)
            || self.may_under(Action::Delete, above, record_type)
    }

    /// Whether some change is granted at a name.
    fn updates_at(&self, name: &Name) -> bool
        ensures { result ≡ updates_at self.now.rights.now.rules self.now.rights.now.caller self.now.index.now.origin (listing self.now.index.now.records) name.now }
    {
        if !self.rights.may_grant(name) {
            return false;
        }
        RecordType::ALL
            .iter()
            .any(|record_type| self.may_update(name, *record_type))
    }

    /// Whether some change is granted at such names below it.
    fn updates_under(&self, above: &Name) -> bool
        ensures { result ≡ updates_under self.now.rights.now.rules self.now.rights.now.caller self.now.index.now.origin (listing self.now.index.now.records) above.now }
    {
        if !self.rights.may_grant(above) {
            return false;
        }
        RecordType::ALL
            .iter()
            .any(|record_type| self.may_update_under(above, *record_type))
    }

    /// Whether some change is granted at a name or at such names below it.
    pub(crate) fn updates(&self, name: &Name) -> bool
        ensures { result ≡ updates self.now.rights.now.rules self.now.rights.now.caller self.now.index.now.origin (listing self.now.index.now.records) name.now }
    {
        self.updates_at(name) || self.updates_under(name)
    }

    /// Whether the zone is cut at a name.
    fn is_cut(&self, name: &Name) -> bool
        ensures { result ≡ is_cut self.now.rights.now.rules self.now.rights.now.caller self.now.index.now.origin (listing self.now.index.now.records) name.now }
    {
        let servers = asked_at(self.index.zone(), name, QueryType::Kept(RecordType::Ns));
        is_below(name, self.index.zone().origin()) && !servers.is_empty()
    }

    /// Whether a cut stays, with its servers, whatever the caller does.
    pub(crate) fn stays_cut(&self, name: &Name) -> bool
        ensures { result ≡ stays_cut self.now.rights.now.rules self.now.rights.now.caller self.now.index.now.origin (listing self.now.index.now.records) name.now }
    {
        self.is_cut(name) && !self.may_change(name, RecordType::Ns)
    }

    /// Whether an address of a server can change.
    fn server_may_change(&self, rdata: &Data) -> bool
        ensures { result ≡ server_may_change self.now.rights.now.rules self.now.rights.now.caller self.now.index.now.origin (listing self.now.index.now.records) rdata.now }
    {
        match rdata {
            Data::Ns(server) => {
                self.may_change(server, RecordType::A) || self.may_change(server, RecordType::Aaaa)
            }
            _ => false,
        }
    }

    /// Whether an address of a server of a name can change.
    fn servers_may_change(&self, name: &Name) -> bool
        ensures { result ≡ list_any (λ r. server_may_change self.now.rights.now.rules self.now.rights.now.caller self.now.index.now.origin (listing self.now.index.now.records) r.rdata) (asked_at (listing self.now.index.now.records) name.now (asks.Kept types.Ns)) }
    {
        asked_at(self.index.zone(), name, QueryType::Kept(RecordType::Ns))
            .iter()
            .any(|rr| self.server_may_change(&rr.rdata))
    }

    /// Whether the zone may be cut at a name or not, or a referral to that cut can change.
    pub(crate) fn cut_may_change(&self, name: &Name) -> bool
        ensures { result ≡ cut_may_change self.now.rights.now.rules self.now.rights.now.caller self.now.index.now.origin (listing self.now.index.now.records) name.now }
    {
        is_below(name, self.index.zone().origin())
            && (self.may_change(name, RecordType::Ns) || self.servers_may_change(name))
    }
}
