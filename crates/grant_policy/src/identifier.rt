//! What callers, requests and rules are called.

ghost use Rattle.std.specs.Prelude.{◌≡◌, ◌↔◌, List, ℕ, IfOk, IsTrue, Err};
ghost use Rattle.std.specs.List.{list_all};
ghost use Rattle.std.specs.Ordering.{nat_cmp, eq_by_cmp, as_partial_cmp};
ghost use Rattle.std.specs.Cmp.{eq_by_cmp_equiv, partial_equiv_from_equiv, partial_order_from_agreeing_total};
ghost use Rattle.std.specs.Cmp.Lexicographic.{slice_cmp, nat_list_cmp_total};
ghost use Rattle.std.proofs.Common.{rules, refl};
ghost use Rattle.grant_policy.specs.Identifiers.{IsIdentifier, is_identifier_octet};
ghost use Rattle.grant_policy.specs.declared.identifier.IdentifierFault.TheVariants.{NoMemory};

use std::alloc::{AllocError, AllocFailed, Global};
use std::cmp::Ordering;
use std::marker::Model;
use std::str;
use thiserror::Error;

/// Why a text is no identifier.
#[derive(Clone, Copy, Debug, PartialEq, Eq, Error)]
pub enum IdentifierFault {
    /// The text does not have 1 to 64 octets, or one of them is not allowed.
    #[error("this is not 1 to 64 of the octets a to z, A to Z, 0 to 9, -, _ and .")]
    Malformed,
    /// Memory ran out. This says nothing of the text.
    #[error("out of memory")]
    NoMemory,
}

impl From<AllocError> for IdentifierFault {
    ghost from_gives = { λ _ e. e ≡ NoMemory };

    fn from(_e: AllocError) -> IdentifierFault {
        IdentifierFault::NoMemory
    }
}

impl<T: Drop> From<AllocFailed<T>> for IdentifierFault {
    ghost from_gives = { λ _ e. e ≡ NoMemory };

    fn from(_e: AllocFailed<T>) -> IdentifierFault {
        IdentifierFault::NoMemory
    }
}

/// The identifier of a caller, a request or a rule: 1 to 64 octets out of a to z, A to Z, 0 to 9, `-`, `_` and `.`.
/// Two are compared exactly, octet by octet: capitals count.
#[derive(Drop)]
pub struct Identifier {
    octets: Vec<u8>,
}

impl Model for Identifier {
    ghost Value = { List ℕ };

    ghost view = { λ i. i.octets.items };

    ghost invariant = { λ i. IsIdentifier i.octets.items };
}

/// Whether an octet may stand in an identifier.
fn is_allowed(octet: u8) -> bool
    ensures { result ≡ is_identifier_octet octet }
{
    octet.is_ascii_alphanumeric() || octet == b'-' || octet == b'_' || octet == b'.'
}

/// Whether all octets of a text may stand in an identifier.
fn are_allowed(text: &[u8]) -> bool
    ensures { result ≡ list_all is_identifier_octet text.now }
{
    text.iter().all(|octet| is_allowed(*octet))
}

impl Identifier {
    /// The most octets of an identifier.
    pub const MAX: usize = 64;

    /// Reads an identifier, which stands for itself. Any other text is `Malformed`; `NoMemory` comes at the growth that was
    /// refused.
    pub fn read(alloc: Global, text: &[u8]) -> Result<Identifier, IdentifierFault>
        ensures found { IfOk result (λ identifier. (identifier ≡ text.now) × IsIdentifier text.now) }
        ensures refused { (result ≡ Err IdentifierFault.Malformed) ↔ ¬ IsIdentifier text.now }
    {
        if !Identifier::is_written_as(text) {
            return Err(IdentifierFault::Malformed);
        }
        Ok(Identifier {
            octets: Vec::from_slice(alloc, text)?,
        })
    }

    /// Whether a text is that of an identifier.
    fn is_written_as(text: &[u8]) -> bool
        ensures { IsTrue result ↔ IsIdentifier text.now }
    {
        !text.is_empty() && text.len() <= Identifier::MAX && are_allowed(text)
    }

    /// The octets.
    pub fn as_bytes(&self) -> &[u8]
        ensures octets { result.now ≡ self.now }
        ensures identifier { IsIdentifier self.now }
    {
        &self.octets
    }

    /// The octets, as text.
    pub fn as_str(&self) -> &str
        ensures octets { result.now ≡ self.now }
        ensures identifier { IsIdentifier self.now }
    {
        let Ok(text) = str::from_utf8(&self.octets) else {
            unreachable!()
        };
        text
    }

    /// An equal identifier in memory of its own. The only error is out of memory.
    pub fn try_copy(&self, alloc: Global) -> Result<Identifier, AllocError>
        ensures { IfOk result (λ copy. copy ≡ self.now) }
    {
        Ok(Identifier {
            octets: Vec::from_slice(alloc, &self.octets)?,
        })
    }
}

impl PartialEq for Identifier {
    ghost eq = { eq_by_cmp (slice_cmp nat_cmp) };

    ghost laws = { partial_equiv_from_equiv (eq_by_cmp_equiv nat_list_cmp_total) };

    fn eq(&self, other: &Identifier) -> bool {
        self.cmp(other).is_eq()
    }
}

impl Eq for Identifier {
    ghost laws = { eq_by_cmp_equiv nat_list_cmp_total };
}

impl Ord for Identifier {
    ghost cmp = { slice_cmp nat_cmp };

    ghost total = { nat_list_cmp_total };

    ghost matches_partial_cmp = { λ x y. Prim.search rules };

    ghost matches_eq = { λ x y. Prim.search rules };

    fn cmp(&self, other: &Identifier) -> Ordering {
        self.as_bytes().cmp(other.as_bytes())
    }
}

impl PartialOrd for Identifier {
    ghost partial_cmp = { as_partial_cmp (slice_cmp nat_cmp) };

    ghost laws = { partial_order_from_agreeing_total (slice_cmp nat_cmp) nat_list_cmp_total (λ x y. refl) (λ x y. refl) };

    fn partial_cmp(&self, other: &Identifier) -> Option<Ordering> {
        Some(self.cmp(other))
    }
}
