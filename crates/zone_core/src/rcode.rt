//! The codes of replies.

ghost use Rattle.std.specs.Prelude.{◌≡◌, ◌↔◌, Some};
ghost use Rattle.zone_core.specs.Rcodes.{rcode_number, rcode_text, rcode_named};

/// The code of a reply to an update (RFC 2136 section 2.2, RFC 1035 section 4.1.1).
#[derive(Clone, Copy, Debug, PartialEq, Eq)]
pub enum Rcode {
    /// The update was carried out.
    NoError = 0,
    /// The update could not be read.
    FormErr = 1,
    /// The server failed.
    ServFail = 2,
    /// A name that ought to be in use is not.
    NxDomain = 3,
    /// The kind of request is not served.
    NotImp = 4,
    /// The caller may not do this.
    Refused = 5,
    /// A name that ought not to be in use is.
    YxDomain = 6,
    /// A record set that ought not to exist does.
    YxRrset = 7,
    /// A record set that ought to exist does not, or has other data.
    NxRrset = 8,
    /// There is no such zone here.
    NotAuth = 9,
    /// A name is outside the zone.
    NotZone = 10,
}

impl Rcode {
    /// The codes that there are.
    pub const ALL: [Rcode; 11] = [
        Rcode::NoError,
        Rcode::FormErr,
        Rcode::ServFail,
        Rcode::NxDomain,
        Rcode::NotImp,
        Rcode::Refused,
        Rcode::YxDomain,
        Rcode::YxRrset,
        Rcode::NxRrset,
        Rcode::NotAuth,
        Rcode::NotZone,
    ];

    /// The number of the code in messages, 0 to 10.
    pub const fn number(self) -> u8
        ensures { result ≡ rcode_number self }
    {
        self as u8
    }

    /// The name of the code, in capitals.
    pub const fn text(self) -> &'static str
        ensures { result.now ≡ rcode_text self }
    {
        match self {
            Rcode::NoError => "NOERROR",
            Rcode::FormErr => "FORMERR",
            Rcode::ServFail => "SERVFAIL",
            Rcode::NxDomain => "NXDOMAIN",
            Rcode::NotImp => "NOTIMP",
            Rcode::Refused => "REFUSED",
            Rcode::YxDomain => "YXDOMAIN",
            Rcode::YxRrset => "YXRRSET",
            Rcode::NxRrset => "NXRRSET",
            Rcode::NotAuth => "NOTAUTH",
            Rcode::NotZone => "NOTZONE",
        }
    }

    /// The code of this name, which is read only as it is written.
    pub fn read(word: &[u8]) -> Option<Rcode>
        ensures exact { result ≡ rcode_named word.now }
        ensures spelled { (code : Rcode) → (result ≡ Some code) ↔ (rcode_text code ≡ word.now) }
    {
        Rcode::called(word)
    }

    /// The first of the codes with this name.
    fn called(word: &[u8]) -> Option<Rcode>
        ensures { result ≡ rcode_named word.now }
    {
        Rcode::ALL
            .iter()
            .copied()
            .find(|code| code.text().as_bytes() == word)
    }
}
