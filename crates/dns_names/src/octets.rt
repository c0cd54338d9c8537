//! The order of rows of octets.

ghost use Rattle.std.specs.Prelude.{◌≡◌};
ghost use Rattle.std.specs.Ordering.{nat_cmp};
ghost use Rattle.std.specs.Cmp.Lexicographic.{slice_cmp};

use std::cmp::Ordering;

/// The order of two rows of eight octets, as that of the numbers that they are written as.
fn cmp_eight(first: &[u8; 8], second: &[u8; 8]) -> Ordering
    ensures { result ≡ slice_cmp nat_cmp first.now second.now }
{
    u64::from_be_bytes(*first).cmp(&u64::from_be_bytes(*second))
}

/// The order of two rows of octets, as keys are: by the first octet that differs, a missing one first. Eight are compared at a
/// time.
pub fn cmp_octets(first: &[u8], second: &[u8]) -> Ordering
    ensures { result ≡ slice_cmp nat_cmp first.now second.now }
{
    let (mut ours, mut theirs) = (first, second);
    while let Some((our, our_rest)) = ours.split_first_chunk::<8>()
        && let Some((their, their_rest)) = theirs.split_first_chunk::<8>()
    {
        let order = cmp_eight(our, their);
        if order.is_ne() {
            return order;
        }
        ours = our_rest;
        theirs = their_rest;
    }
    ours.cmp(theirs)
}
