//! What is found in a zone for one name, before aliases are followed.

ghost use Rattle.std.specs.Prelude.{◌≡◌, ◌∷◌, List, ℕ, Some, IfOk};
ghost use Rattle.std.specs.Option.{option_copied};
ghost use Rattle.dns_names.specs.Keys.{key_of};
ghost use Rattle.dns_data.specs.declared.record.Record.{Record};
ghost use Rattle.zone_core.specs.Sets.{listing, InOrder};
ghost use Rattle.zone_answers.specs.Answers.{asterisk, asks_alias};
ghost use Rattle.zone_answers.specs.AnswerTests.{wildcard_over, if_there, source_of, is_ds, unless_parent, cut_over, referral, followed_at, found_by, found_from, found_at, alias_in};
ghost use Rattle.zone_answers.specs.ChangeTests.{wildcard_under, found_under};
ghost use Rattle.zone_answers.specs.Places.{node_of, AreNearest};
ghost use Rattle.zone_answers.specs.Views.{found_in};

use crate::cut_names::cut_over;
use crate::enclosers::{encloser_key, wildcard_key};
use crate::places::{Located, asked_in, locate, set_in};
use crate::query_type::QueryType;
use crate::rows::is_there;
use crate::zone_index::ZoneIndex;
use dns_data::{Record, RecordType};
use dns_names::{Name, NameFault};
use std::alloc::{AllocError, Global};
use zone_core::Zone;

/// What is found for one name.
#[derive(Drop)]
pub(crate) enum Finding<'a> {
    /// The name is outside the origin.
    Outside,
    /// A cut at or above the name.
    Delegated(&'a Name),
    /// Neither the name nor a wildcard over it.
    Missing,
    /// An alias that is followed.
    Alias(&'a Record),
    /// The records that are asked for, if there are any.
    Listed(&'a [Record]),
    /// The name was asked for before.
    Again,
}

/// A name, if it exists.
fn if_there(zone: &Zone, name: Option<Name>) -> Option<Name>
    ensures { result ≡ if_there (listing zone.now.records) name }
{
    match name {
        Some(name) => {
            if is_there(zone, &name) {
                Some(name)
            } else {
                None
            }
        }
        None => None,
    }
}

/// The wildcard below a name, if it exists. The only error is out of memory.
pub(crate) fn wildcard_there(
    alloc: Global,
    zone: &Zone,
    encloser: &Name,
) -> Result<Option<Name>, AllocError>
    ensures { IfOk result (λ found. found ≡ if_there (listing zone.now.records) (Some (asterisk ∷ encloser.now))) }
{
    // the proof needs that all owners are names
    let _ = zone.records();
    match Name::read_relative(alloc, b"*", encloser) {
        Ok(name) => Ok(if_there(zone, Some(name))),
        // no owner is so long
        Err(NameFault::NameTooLong) => Ok(None),
        Err(_) => Err(AllocError),
    }
}

/// Whether a question is for aliases themselves.
fn asks_alias(asked: QueryType) -> bool
    ensures { result ≡ asks_alias asked }
{
    matches!(asked, QueryType::Kept(RecordType::Cname) | QueryType::Any)
}

/// Whether a question is for a DS.
fn is_ds(asked: QueryType) -> bool
    ensures { result ≡ is_ds asked }
{
    matches!(asked, QueryType::Kept(RecordType::Ds))
}

/// The alias that is followed, among the records at a name.
fn followed_in(node: &[Record], asked: QueryType) -> Option<&Record>
    ensures { (rs : List Record) (name : List (List ℕ)) → InOrder rs → node.now ≡ node_of rs name → option_copied result ≡ followed_at rs name asked }
{
    if asks_alias(asked) {
        return None;
    }
    set_in(node, RecordType::Cname).first()
}

/// What is found at a name that exists, among the records at it.
fn found_in_node(node: &[Record], asked: QueryType) -> Finding<'_>
    ensures { (rs : List Record) (name : List (List ℕ)) → InOrder rs → node.now ≡ node_of rs name → found_in result ≡ found_by rs name asked (followed_at rs name asked) }
{
    match followed_in(node, asked) {
        Some(alias) => Finding::Alias(alias),
        None => Finding::Listed(asked_in(node, asked)),
    }
}

/// What is found at a name, if it exists.
fn found_there<'a>(records: &'a [Record], key: &[u8], asked: QueryType) -> Finding<'a>
    requires { InOrder records.now }
    ensures { (name : List (List ℕ)) → key.now ≡ key_of name → found_in result ≡ found_from records.now asked (if_there records.now (Some name)) }
{
    match locate(records, key) {
        Located::Node(node) => found_in_node(node, asked),
        Located::Between(_) => Finding::Missing,
    }
}

/// The cut at or above a name, unless the question is for its DS, which the parent answers (RFC 4035 section 3.1.4.1).
fn unless_parent<'a>(name: &Name, asked: QueryType, cut: Option<&'a Name>) -> Option<&'a Name>
    ensures { option_copied result ≡ unless_parent name.now asked (option_copied cut.entry) }
{
    match cut {
        Some(cut) => {
            if is_ds(asked) && name == cut {
                None
            } else {
                Some(cut)
            }
        }
        None => None,
    }
}

/// The alias that is found.
pub(crate) fn alias_in<'a>(finding: &Finding<'a>) -> Option<&'a Record>
    ensures { option_copied result ≡ alias_in (found_in finding.now) }
{
    match finding {
        Finding::Alias(alias) => Some(*alias),
        _ => None,
    }
}

impl ZoneIndex {
    /// The cut to whose servers a question is referred.
    fn referral(&self, name: &Name, asked: QueryType) -> Option<&Name>
        ensures { option_copied result ≡ referral self.now.origin (listing self.now.records) name.now asked }
    {
        unless_parent(name, asked, self.outermost_cut(name))
    }

    /// The outermost cut at or above a name.
    pub(crate) fn outermost_cut(&self, name: &Name) -> Option<&Name>
        ensures { option_copied result ≡ cut_over self.now.origin (listing self.now.records) name.now }
    {
        cut_over(&self.cuts, name)
    }

    /// What is found at the wildcard below a name, if it exists. The only error is out of memory.
    fn found_at_wildcard(
        &self,
        alloc: Global,
        encloser: &[u8],
        asked: QueryType,
    ) -> Result<Finding<'_>, AllocError>
        ensures { IfOk result (λ finding. (name : List (List ℕ)) → encloser.now ≡ key_of name → found_in finding ≡ found_from (listing self.now.records) asked (if_there (listing self.now.records) (Some (asterisk ∷ name)))) }
    {
        let records = self.zone.records();
        if !self.asterisks {
            return Ok(Finding::Missing);
        }
        let wildcard = wildcard_key(alloc, encloser)?;
        Ok(found_there(records, &wildcard, asked))
    }

    /// What is found for a name that does not exist, by the records beside it: at the wildcard below its closest encloser, if that
    /// exists. The only error is out of memory.
    fn found_over(
        &self,
        alloc: Global,
        near: &[Record],
        key: &[u8],
        asked: QueryType,
    ) -> Result<Finding<'_>, AllocError>
        ensures { IfOk result (λ finding. (name : List (List ℕ)) → key.now ≡ key_of name → AreNearest (listing self.now.records) near.now name → found_in finding ≡ found_from (listing self.now.records) asked (if_there (listing self.now.records) (wildcard_over (listing self.now.records) name))) }
    {
        match encloser_key(near, key) {
            Some(encloser) => self.found_at_wildcard(alloc, encloser, asked),
            None => Ok(Finding::Missing),
        }
    }

    /// What is found at the name whose records answer: the name itself, if it exists, else the wildcard, if that exists. The only error
    /// is out of memory.
    fn found_own(
        &self,
        alloc: Global,
        name: &Name,
        asked: QueryType,
    ) -> Result<Finding<'_>, AllocError>
        ensures { IfOk result (λ finding. found_in finding ≡ found_from (listing self.now.records) asked (source_of (listing self.now.records) name.now)) }
    {
        match locate(self.zone.records(), name.key()) {
            Located::Node(node) => Ok(found_in_node(node, asked)),
            Located::Between(near) => self.found_over(alloc, near, name.key(), asked),
        }
    }

    /// What is found for the names below a name of which none nearer exists, where none is at or below a cut: at the wildcard below
    /// their closest encloser, if that exists. The only error is out of memory.
    fn found_under(
        &self,
        alloc: Global,
        encloser: &Name,
        asked: QueryType,
    ) -> Result<Finding<'_>, AllocError>
        ensures { IfOk result (λ finding. found_in finding ≡ found_from (listing self.now.records) asked (if_there (listing self.now.records) (wildcard_under (listing self.now.records) encloser.now))) }
    {
        match locate(self.zone.records(), encloser.key()) {
            Located::Node(_) => self.found_at_wildcard(alloc, encloser.key(), asked),
            Located::Between(near) => self.found_over(alloc, near, encloser.key(), asked),
        }
    }

    /// What is found for a name (RFC 1034 section 4.3.2, steps 2 and 3). The only error is out of memory.
    pub(crate) fn find(
        &self,
        alloc: Global,
        name: &Name,
        asked: QueryType,
    ) -> Result<Finding<'_>, AllocError>
        ensures { IfOk result (λ finding. found_in finding ≡ found_at self.now.origin (listing self.now.records) name.now asked) }
    {
        if !name.is_within(self.zone.origin()) {
            return Ok(Finding::Outside);
        }
        match self.referral(name, asked) {
            Some(cut) => Ok(Finding::Delegated(cut)),
            None => self.found_own(alloc, name, asked),
        }
    }

    /// What is found for the names below a name of which none nearer exists. The only error is out of memory.
    pub(crate) fn find_under(
        &self,
        alloc: Global,
        encloser: &Name,
        asked: QueryType,
    ) -> Result<Finding<'_>, AllocError>
        ensures { IfOk result (λ finding. found_in finding ≡ found_under self.now.origin (listing self.now.records) encloser.now asked) }
    {
        match self.outermost_cut(encloser) {
            Some(cut) => Ok(Finding::Delegated(cut)),
            None => self.found_under(alloc, encloser, asked),
        }
    }
}
