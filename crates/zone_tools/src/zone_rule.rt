//! The rules that are checked of a zone.

ghost use Rattle.std.specs.Prelude.{◌≡◌, map, find, bytes_eq};

/// A rule for zones. The office takes what is at fault by it, and other name servers refuse it or warn of it.
#[derive(Clone, Copy, PartialEq, Eq)]
pub enum ZoneRule {
    /// A name that has to be that of a host is not.
    HostName,
    /// A server is an alias.
    AliasTarget,
    /// A server has no address in the zone that answers for it.
    MissingAddress,
    /// The server of a delegation has no address, where it needs glue.
    MissingGlue,
    /// A delegation occludes a record that is no glue.
    BelowCut,
    /// A DS is at a name without NS.
    DsWithoutNs,
    /// An NS is at a wildcard.
    WildcardNs,
    /// The digest of a DS has not the length of its type.
    DigestLength,
    /// The digest of a DS is of SHA-1.
    WeakDigest,
    /// A record points to a name that is an IPv4 address.
    AddressName,
    /// A name has an octet that Knot does not read as it is printed.
    UnreadOctet,
    /// The target of an alias has no records in the zone that answers for it.
    DanglingAlias,
}

impl ZoneRule {
    ghost use Rattle.zone_tools.specs.ZoneRules.{rule_text, rule_reason, rule_source, rule_place, rule_of};

    /// The rules that there are.
    pub const ALL: [ZoneRule; 12] = [
        ZoneRule::HostName,
        ZoneRule::AliasTarget,
        ZoneRule::MissingAddress,
        ZoneRule::MissingGlue,
        ZoneRule::BelowCut,
        ZoneRule::DsWithoutNs,
        ZoneRule::WildcardNs,
        ZoneRule::DigestLength,
        ZoneRule::WeakDigest,
        ZoneRule::AddressName,
        ZoneRule::UnreadOctet,
        ZoneRule::DanglingAlias,
    ];

    /// The word for it, as `host-name`.
    pub const fn text(self) -> &'static str
        ensures { result.now ≡ rule_text self }
    {
        match self {
            ZoneRule::HostName => "host-name",
            ZoneRule::AliasTarget => "alias-target",
            ZoneRule::MissingAddress => "missing-address",
            ZoneRule::MissingGlue => "missing-glue",
            ZoneRule::BelowCut => "below-cut",
            ZoneRule::DsWithoutNs => "ds-without-ns",
            ZoneRule::WildcardNs => "wildcard-ns",
            ZoneRule::DigestLength => "digest-length",
            ZoneRule::WeakDigest => "weak-digest",
            ZoneRule::AddressName => "address-name",
            ZoneRule::UnreadOctet => "unread-octet",
            ZoneRule::DanglingAlias => "dangling-alias",
        }
    }

    /// The rule of this word.
    pub fn read(word: &str) -> Option<ZoneRule>
        ensures { result ≡ rule_of word.now }
    {
        ZoneRule::ALL
            .iter()
            .copied()
            .find(|rule| rule.text() == word)
    }

    /// What is wrong by it, in one line.
    pub const fn reason(self) -> &'static str
        ensures { result.now ≡ rule_reason self }
    {
        match self {
            ZoneRule::HostName =>
                "a name is not that of a host: labels of letters, digits and hyphens, with no hyphen at either end",
            ZoneRule::AliasTarget => "the server that the record names is an alias",
            ZoneRule::MissingAddress =>
                "the server that the record names is in this zone and has no address there",
            ZoneRule::MissingGlue =>
                "the server of the delegation is at or below a cut and has no glue",
            ZoneRule::BelowCut => "a delegation occludes the record, which is no glue",
            ZoneRule::DsWithoutNs => "a DS is at a name without NS",
            ZoneRule::WildcardNs => "an NS is at a wildcard",
            ZoneRule::DigestLength => "the digest of a DS has not the length of its type",
            ZoneRule::WeakDigest => "the digest of a DS is of SHA-1",
            ZoneRule::AddressName => "the name to which the record points is an IPv4 address",
            ZoneRule::UnreadOctet =>
                "a name has one of ! # % & ' + , : < = > ? [ ] ^ ` { | } ~, which Knot does not read",
            ZoneRule::DanglingAlias =>
                "the target of the alias is in this zone and has no records there",
        }
    }

    /// Where the standards have it.
    pub const fn source(self) -> &'static str
        ensures { result.now ≡ rule_source self }
    {
        match self {
            ZoneRule::HostName => "RFC 952, RFC 1123 section 2.1",
            ZoneRule::AliasTarget => "RFC 2181 section 10.3, RFC 2782",
            ZoneRule::MissingAddress => "RFC 1034 section 3.6, RFC 2782",
            ZoneRule::MissingGlue => "RFC 1034 section 4.2.1, RFC 9471 section 2",
            ZoneRule::BelowCut => "RFC 1034 section 4.2.1, RFC 5936 section 3.5",
            ZoneRule::DsWithoutNs => "RFC 4034 section 5",
            ZoneRule::WildcardNs => "RFC 4592 section 4.2",
            ZoneRule::DigestLength =>
                "RFC 4034 section 5.1, RFC 4509 section 2.1, RFC 6605 section 2",
            ZoneRule::WeakDigest => "RFC 8624 section 3.3",
            ZoneRule::AddressName => "RFC 1035 section 3.3, RFC 1123 section 2.1",
            ZoneRule::UnreadOctet => "RFC 1035 section 5.1",
            ZoneRule::DanglingAlias => "RFC 1034 section 3.6.2",
        }
    }

    /// The place of the rule in `ALL`, from 0.
    pub const fn place(self) -> usize
        ensures { result ≡ rule_place self }
    {
        self as usize
    }
}
