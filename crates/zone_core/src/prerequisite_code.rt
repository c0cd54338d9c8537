//! The codes of prerequisites that do not hold.

ghost use Rattle.std.specs.Prelude.{◌≡◌};
ghost use Rattle.zone_core.specs.Rcodes.{rcode_of};

use crate::rcode::Rcode;

/// The code of a prerequisite that does not hold (RFC 2136 section 2.4).
#[derive(Clone, Copy, PartialEq, Eq)]
pub enum PrerequisiteCode {
    /// A name that ought to be in use is not.
    NxDomain,
    /// A name that ought not to be in use is.
    YxDomain,
    /// A record set that ought not to exist does.
    YxRrset,
    /// A record set that ought to exist does not, or has other data.
    NxRrset,
}

impl PrerequisiteCode {
    /// The code of the reply.
    pub const fn rcode(self) -> Rcode
        ensures { result ≡ rcode_of self }
    {
        match self {
            PrerequisiteCode::NxDomain => Rcode::NxDomain,
            PrerequisiteCode::YxDomain => Rcode::YxDomain,
            PrerequisiteCode::YxRrset => Rcode::YxRrset,
            PrerequisiteCode::NxRrset => Rcode::NxRrset,
        }
    }
}
