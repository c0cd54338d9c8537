//! What name servers do with records that are at fault.

ghost use Rattle.std.specs.Prelude.{◌≡◌, map, find, bytes_eq};
ghost use Rattle.zone_tools.specs.ServerReactions.{bind_reaction, knot_reaction};

use crate::zone_rule::ZoneRule;

/// A name server that a zone may be published to, with its check of zones: BIND 9.18 (`named-checkzone`), Knot 3.2 (`kzonecheck`) and
/// NSD 4.6 (`nsd-checkzone`).
#[derive(Clone, Copy, PartialEq, Eq)]
pub enum NameServer {
    Bind,
    Knot,
    Nsd,
}

/// What a server does with a record that is at fault by a rule, at worst.
#[derive(Clone, Copy, PartialEq, Eq)]
pub enum Reaction {
    /// It loads the zone, and its check says nothing.
    Takes,
    /// Its check warns of the record.
    Warns,
    /// It does not load the zone, or its check refuses it.
    Refuses,
}

impl NameServer {
    ghost use Rattle.zone_tools.specs.ServerReactions.{server_text, server_of_word};

    /// The servers that there are.
    pub const ALL: [NameServer; 3] = [NameServer::Bind, NameServer::Knot, NameServer::Nsd];

    /// The word for it, as `bind`.
    pub const fn text(self) -> &'static str
        ensures { result.now ≡ server_text self }
    {
        match self {
            NameServer::Bind => "bind",
            NameServer::Knot => "knot",
            NameServer::Nsd => "nsd",
        }
    }

    /// The server of this word.
    pub fn read(word: &str) -> Option<NameServer>
        ensures { result ≡ server_of_word word.now }
    {
        NameServer::ALL
            .iter()
            .copied()
            .find(|server| server.text() == word)
    }
}

impl Reaction {
    ghost use Rattle.zone_tools.specs.ServerReactions.{reaction_text};

    /// The word for it, as `refuses`.
    pub const fn text(self) -> &'static str
        ensures { result.now ≡ reaction_text self }
    {
        match self {
            Reaction::Takes => "takes",
            Reaction::Warns => "warns",
            Reaction::Refuses => "refuses",
        }
    }
}

/// What BIND does with a record that is at fault by a rule.
const fn bind_reaction(rule: ZoneRule) -> Reaction
    ensures { result ≡ bind_reaction rule }
{
    match rule {
        ZoneRule::HostName
        | ZoneRule::AliasTarget
        | ZoneRule::MissingAddress
        | ZoneRule::WildcardNs
        | ZoneRule::DigestLength => Reaction::Refuses,
        ZoneRule::MissingGlue | ZoneRule::WeakDigest | ZoneRule::AddressName => Reaction::Warns,
        ZoneRule::BelowCut
        | ZoneRule::DsWithoutNs
        | ZoneRule::UnreadOctet
        | ZoneRule::DanglingAlias => Reaction::Takes,
    }
}

/// What Knot does with one.
const fn knot_reaction(rule: ZoneRule) -> Reaction
    ensures { result ≡ knot_reaction rule }
{
    match rule {
        ZoneRule::AliasTarget
        | ZoneRule::MissingAddress
        | ZoneRule::MissingGlue
        | ZoneRule::DigestLength
        | ZoneRule::UnreadOctet => Reaction::Refuses,
        ZoneRule::HostName
        | ZoneRule::BelowCut
        | ZoneRule::DsWithoutNs
        | ZoneRule::WildcardNs
        | ZoneRule::WeakDigest
        | ZoneRule::AddressName
        | ZoneRule::DanglingAlias => Reaction::Takes,
    }
}

impl ZoneRule {
    ghost use Rattle.zone_tools.specs.ServerReactions.{reaction};

    /// What a server does with a record that is at fault by this rule, at worst.
    pub const fn minded_by(self, server: NameServer) -> Reaction
        ensures { result ≡ reaction server self }
    {
        match server {
            NameServer::Bind => bind_reaction(self),
            NameServer::Knot => knot_reaction(self),
            NameServer::Nsd => Reaction::Takes,
        }
    }
}
