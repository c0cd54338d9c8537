//! Digests of DS records.

ghost use Rattle.std.specs.Prelude.{◌≡◌, ◌<◌, List, ℕ, IfOk, nat_eq};
ghost use Rattle.std.specs.List.{AllByRecursion};
ghost use Rattle.std.specs.Cmp.{partial_equiv_from_equiv};
ghost use Rattle.std.specs.Cmp.Lexicographic.{pointwise};
ghost use Rattle.std.proofs.lemmas.Cmp.{nat_list_eq_equiv};
ghost use Rattle.hex.specs.Hex.{decode_of};
ghost use Rattle.dns_data.specs.Faults.{Reads};
ghost use Rattle.dns_data.specs.Digests.{IsDigest, of_pairs, digest_of};

use crate::data_fault::DataFault;
use hex::FromHexError;
use std::alloc::{AllocError, Global};
use std::marker::Model;

/// The octets that pairs of hexadecimal digits say.
fn octets_of(alloc: Global, text: &[u8]) -> Result<Vec<u8>, DataFault>
    ensures octets { IfOk result (λ octets. AllByRecursion (λ o. o < 256) octets.items) }
    ensures exact { Reads (λ octets. octets.items) result (of_pairs (decode_of text.now)) }
{
    match hex::decode(alloc, text) {
        Ok(octets) => Ok(octets),
        Err(FromHexError::OutOfMemory) => Err(DataFault::NoMemory),
        Err(_) => Err(DataFault::BadDigest),
    }
}

/// A digest of a key: 1 to 65,531 octets (RFC 4034 section 5.1.4).
#[derive(Drop)]
pub struct Digest {
    octets: Vec<u8>,
}

impl Model for Digest {
    ghost Value = { List ℕ };

    ghost view = { λ d. d.octets.items };

    ghost invariant = { λ d. IsDigest d.octets.items };
}

impl Digest {
    /// The most octets of a digest: with the four octets before them they are `65_535`.
    pub const MAX: usize = 65_531;

    /// Reads hexadecimal digits, two for each octet, in either letter case. Digits that are no such pairs, and none at
    /// all, are `BadDigest`, more than `MAX` octets `DataTooLong`.
    pub(crate) fn read(alloc: Global, text: &[u8]) -> Result<Digest, DataFault>
        ensures { Reads (λ digest. digest) result (digest_of text.now) }
    {
        let octets = octets_of(alloc, text)?;
        if octets.is_empty() {
            return Err(DataFault::BadDigest);
        }
        if octets.len() > Digest::MAX {
            return Err(DataFault::DataTooLong);
        }
        Ok(Digest { octets })
    }

    /// The octets.
    pub fn octets(&self) -> &[u8]
        ensures octets { result.now ≡ self.now }
        ensures digest { IsDigest self.now }
    {
        &self.octets
    }

    /// An equal digest in memory of its own. The only error is out of memory.
    pub fn try_copy(&self, alloc: Global) -> Result<Digest, AllocError>
        ensures { IfOk result (λ copy. copy ≡ self.now) }
    {
        Ok(Digest {
            octets: Vec::from_slice(alloc, &self.octets)?,
        })
    }
}

impl PartialEq for Digest {
    ghost eq = { pointwise nat_eq };

    ghost laws = { partial_equiv_from_equiv nat_list_eq_equiv };

    fn eq(&self, other: &Digest) -> bool {
        self.octets.as_slice() == other.octets.as_slice()
    }
}

impl Eq for Digest {
    ghost laws = { nat_list_eq_equiv };
}
