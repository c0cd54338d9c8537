//! Answers.

ghost use Rattle.std.specs.Prelude.{◌≡◌, ◌+◌, ◌∷◌, [], ◌++◌, IfOk, ◌==◌};
ghost use Rattle.std.specs.List.{flat_map};
ghost use Rattle.zone_core.specs.Sets.{listing, InOrder};
ghost use Rattle.zone_answers.specs.Places.{IsRest, IsReferral, servers_in};
ghost use Rattle.zone_answers.specs.Answers.{code_of, authority_over, answered_as, negative_soa, answer_in, authority_in, addresses_in, answer_with, AnswerOf, IsAnswer};
ghost use Rattle.zone_answers.specs.AnswerTests.{was_asked, target_of, follow, answer_from, answer_to};
ghost use Rattle.zone_answers.specs.ChangeTests.{answer_under};
ghost use Rattle.zone_answers.specs.Views.{found_in, answer_of, Steps};

use crate::finding::{Finding, alias_in};
use crate::places::set_in;
use crate::query_type::QueryType;
use crate::referrals::{Referral, node_near, referral_at};
use crate::rows::{push_all, push_all_as, push_as, push_negative};
use crate::zone_index::ZoneIndex;
use dns_data::{Data, Record, RecordType};
use dns_names::Name;
use std::alloc::{AllocError, Global};
use zone_core::{Rcode, Zone};

/// What a server answers to a question.
#[derive(Drop)]
pub struct Answer {
    /// NOERROR, NXDOMAIN or REFUSED.
    pub code: Rcode,
    /// Whether the server has authority over the name that was asked for (AA, RFC 1035 section 4.1.1).
    pub authoritative: bool,
    /// The aliases that were followed, in their order, and the records that were asked for.
    pub answer: Vec<Record>,
    /// The servers of a cut, or the SOA of a negative answer.
    pub authority: Vec<Record>,
    /// The addresses of the servers of a cut.
    pub additional: Vec<Record>,
}

/// The code of an answer (RFC 6604 section 3).
fn code_of(first: bool, finding: &Finding<'_>) -> Rcode
    ensures { result ≡ code_of first (found_in finding.now) }
{
    match finding {
        Finding::Outside if first => Rcode::Refused,
        Finding::Missing => Rcode::NxDomain,
        _ => Rcode::NoError,
    }
}

/// Whether the server has authority over the first name.
fn authority_over(first: bool, finding: &Finding<'_>) -> bool
    ensures { result ≡ authority_over first (found_in finding.now) }
{
    match finding {
        Finding::Outside | Finding::Delegated(_) => !first,
        _ => true,
    }
}

/// Appends what is found to the answer section. The only error is out of memory.
fn push_answer(
    alloc: Global,
    rows: &mut Vec<Record>,
    name: &Name,
    finding: &Finding<'_>,
) -> Result<(), AllocError>
    ensures { IfOk result (λ _. rows.new.items ≡ rows.old.items ++ answer_in name.now (found_in finding.now)) }
{
    match finding {
        Finding::Listed(records) => push_all_as(alloc, rows, name, records),
        _ => Ok(()),
    }
}

/// Appends the SOA of a negative answer. The only error is out of memory.
pub(crate) fn push_soa(alloc: Global, rows: &mut Vec<Record>, zone: &Zone) -> Result<(), AllocError>
    ensures { IfOk result (λ _. rows.new.items ≡ rows.old.items ++ negative_soa zone.now.origin (listing zone.now.records)) }
{
    // the proof needs that there is no other
    let _ = zone.records();
    push_negative(alloc, rows, zone.soa())
}

/// The servers to which a question is referred.
fn referral_in<'a>(zone: &'a Zone, finding: &Finding<'_>) -> Referral<'a>
    ensures { IsReferral (listing zone.now.records) (found_in finding.now) result }
{
    match finding {
        Finding::Delegated(cut) => referral_at(zone.records(), cut),
        _ => Referral {
            servers: &[],
            rest: &[],
        },
    }
}

/// Appends what the authority section has. The only error is out of memory.
fn push_authority(
    alloc: Global,
    rows: &mut Vec<Record>,
    zone: &Zone,
    finding: &Finding<'_>,
    servers: &[Record],
) -> Result<(), AllocError>
    requires { servers.now ≡ servers_in (listing zone.now.records) (found_in finding.now) }
    ensures { IfOk result (λ _. rows.new.items ≡ rows.old.items ++ authority_in zone.now.origin (listing zone.now.records) (found_in finding.now)) }
{
    match finding {
        Finding::Delegated(_) => push_all(alloc, rows, servers),
        Finding::Missing | Finding::Listed([]) => push_soa(alloc, rows, zone),
        _ => Ok(()),
    }
}

/// Appends the addresses of the server that data name, if they are those of an NS. The only error is out of memory.
fn push_addresses(
    alloc: Global,
    rows: &mut Vec<Record>,
    records: &[Record],
    rest: &[Record],
    rdata: &Data,
) -> Result<(), AllocError>
    requires order { InOrder records.now }
    requires rest { IsRest records.now rest.now }
    ensures { IfOk result (λ _. rows.new.items ≡ rows.old.items ++ addresses_in records.now rdata.now) }
{
    if let Data::Ns(server) = rdata {
        let node = node_near(records, rest, server.key());
        push_all(alloc, rows, set_in(node, RecordType::A))?;
        push_all(alloc, rows, set_in(node, RecordType::Aaaa))?;
    }
    Ok(())
}

/// Appends the addresses of servers. The only error is out of memory.
fn push_all_addresses(
    alloc: Global,
    rows: &mut Vec<Record>,
    records: &[Record],
    referral: &Referral<'_>,
) -> Result<(), AllocError>
    requires order { InOrder records.now }
    requires rest { IsRest records.now referral.now.rest.now }
    ensures { IfOk result (λ _. rows.new.items ≡ rows.old.items ++ flat_map (λ r. addresses_in records.now r.rdata) referral.now.servers.now) }
{
    for server in referral.servers {
        push_addresses(alloc, rows, records, referral.rest, &server.rdata)?;
    }
    Ok(())
}

/// The name to which an alias leads. The only error is out of memory.
fn target_of(alloc: Global, name: &Name, rdata: &Data) -> Result<Name, AllocError>
    ensures { IfOk result (λ target. target ≡ target_of name.now rdata.now) }
{
    match rdata {
        Data::Cname(target) => target.try_copy(alloc),
        _ => name.try_copy(alloc),
    }
}

/// Whether a name was asked for before, as the owner of an alias that was followed.
fn was_asked(aliases: &[Record], name: &Name) -> bool
    ensures { result ≡ was_asked aliases.now name.now }
{
    aliases.iter().any(|alias| alias.owner == *name)
}

/// Follows an alias from a name. The only error is out of memory.
fn follow_one(
    alloc: Global,
    aliases: &mut Vec<Record>,
    name: &mut Name,
    alias: &Record,
) -> Result<(), AllocError>
    ensures aliases { IfOk result (λ _. aliases.new.items ≡ aliases.old.items ++ answered_as name.old alias.now ∷ []) }
    ensures name { IfOk result (λ _. name.new ≡ target_of name.old alias.now.rdata) }
{
    let target = target_of(alloc, name, &alias.rdata)?;
    push_as(alloc, aliases, name, alias)?;
    *name = target;
    Ok(())
}

/// The root. The only error is out of memory.
fn root(alloc: Global) -> Result<Name, AllocError>
    ensures { IfOk result (λ name. name ≡ []) }
{
    match Name::read_absolute(alloc, b".") {
        Ok(name) => Ok(name),
        Err(_) => Err(AllocError),
    }
}

impl ZoneIndex {
    /// One step from a name: follows the alias that is found, or gives what else is found. The only error is out of memory.
    fn step(
        &self,
        alloc: Global,
        aliases: &mut Vec<Record>,
        name: &mut Name,
        asked: QueryType,
    ) -> Result<Option<Finding<'_>>, AllocError>
        ensures { IfOk result (Steps self.now.origin (listing self.now.records) asked aliases.old.items name.old aliases.new.items name.new) }
    {
        if was_asked(aliases, name) {
            return Ok(Some(Finding::Again));
        }
        let finding = self.find(alloc, name, asked)?;
        match alias_in(&finding) {
            Some(alias) => {
                follow_one(alloc, aliases, name, alias)?;
                Ok(None)
            }
            None => Ok(Some(finding)),
        }
    }

    /// Follows at most so many aliases from a name to a last one, and gives what is found there. The only error is out of memory.
    fn follow(
        &self,
        alloc: Global,
        aliases: &mut Vec<Record>,
        name: &mut Name,
        asked: QueryType,
        most: usize,
    ) -> Result<Finding<'_>, AllocError>
        ensures { IfOk result (λ finding. answer_with self.now.origin (listing self.now.records) aliases.new.items name.new (found_in finding) ≡ follow self.now.origin (listing self.now.records) asked most aliases.old.items name.old) }
    {
        for _ in 0..most {
            if let Some(finding) = self.step(alloc, aliases, name, asked)? {
                return Ok(finding);
            }
        }
        Ok(Finding::Again)
    }

    /// The answer where aliases lead to a name. The only error is out of memory.
    fn finish(
        &self,
        alloc: Global,
        mut aliases: Vec<Record>,
        name: &Name,
        finding: &Finding<'_>,
    ) -> Result<Answer, AllocError>
        ensures { IfOk result (λ answer. answer_of answer ≡ answer_with self.now.origin (listing self.now.records) aliases.items name.now (found_in finding.now)) }
    {
        let first = aliases.is_empty();
        let (mut authority, mut additional) = (Vec::new(alloc), Vec::new(alloc));
        push_answer(alloc, &mut aliases, name, finding)?;
        let referral = referral_in(&self.zone, finding);
        push_authority(alloc, &mut authority, &self.zone, finding, referral.servers)?;
        push_all_addresses(alloc, &mut additional, self.zone.records(), &referral)?;
        Ok(Answer {
            code: code_of(first, finding),
            authoritative: authority_over(first, finding),
            answer: aliases,
            authority,
            additional,
        })
    }

    /// The answer for a name, from what is found for it. The only error is out of memory.
    fn answer_from(
        &self,
        alloc: Global,
        name: &Name,
        finding: &Finding<'_>,
        asked: QueryType,
    ) -> Result<Answer, AllocError>
        ensures { IfOk result (λ answer. answer_of answer ≡ answer_from self.now.origin (listing self.now.records) name.now asked (found_in finding.now)) }
    {
        let mut aliases = Vec::new(alloc);
        match alias_in(finding) {
            Some(alias) => {
                let mut last = name.try_copy(alloc)?;
                follow_one(alloc, &mut aliases, &mut last, alias)?;
                let most = 1 + self.zone.records().len();
                let end = self.follow(alloc, &mut aliases, &mut last, asked, most)?;
                self.finish(alloc, aliases, &last, &end)
            }
            None => self.finish(alloc, aliases, name, finding),
        }
    }

    /// The answer to a question. The only error is out of memory.
    pub(crate) fn answered(
        &self,
        alloc: Global,
        name: &Name,
        asked: QueryType,
    ) -> Result<Answer, AllocError>
        ensures { IfOk result (λ answer. answer_of answer ≡ answer_to self.now.origin (listing self.now.records) name.now asked) }
    {
        let finding = self.find(alloc, name, asked)?;
        self.answer_from(alloc, name, &finding, asked)
    }

    /// The answer for the names below a name of which none nearer exists, and to which no alias leads, with the root in the place of
    /// the name. The only error is out of memory.
    pub(crate) fn answer_under(
        &self,
        alloc: Global,
        encloser: &Name,
        asked: QueryType,
    ) -> Result<Answer, AllocError>
        ensures { IfOk result (λ answer. answer_of answer ≡ answer_under self.now.origin (listing self.now.records) encloser.now asked) }
    {
        let root = root(alloc)?;
        let finding = self.find_under(alloc, encloser, asked)?;
        self.answer_from(alloc, &root, &finding, asked)
    }

    /// What an authoritative server answers to a question (RFC 1034 section 4.3.2). It takes a search of the zone for each name that is asked
    /// for, one for each wildcard over such a name and for each server of a cut, a copy of the answer, and a comparison for each two
    /// aliases that are followed: a chain of n aliases takes n² / 2. The only error is out of memory.
    pub fn answer(&self, alloc: Global, name: &Name, asked: QueryType) -> Result<Answer, AllocError>
        // It is an answer of the zone.
        ensures found { IfOk result (λ answer. IsAnswer self.now.origin (listing self.now.records) name.now asked (answer_of answer)) }
        // There is no other.
        ensures only { IfOk result (λ answer. (other : AnswerOf) → IsAnswer self.now.origin (listing self.now.records) name.now asked other → other ≡ answer_of answer) }
        // The same by a definition that computes.
        ensures exact { IfOk result (λ answer. answer_of answer ≡ answer_to self.now.origin (listing self.now.records) name.now asked) }
    {
        // the proof needs that it is a zone
        let _ = self.zone().records();
        self.answered(alloc, name, asked)
    }
}
