//! The order of names by the octets of their texts.

ghost use Rattle.std.specs.Prelude.{◌≡◌, ◌<◌, ◌++◌};
ghost use Rattle.std.specs.List.{AllByRecursion, flat_map};
ghost use Rattle.std.specs.Ordering.{nat_cmp};
ghost use Rattle.std.specs.Cmp.Lexicographic.{slice_cmp};
ghost use Rattle.dns_names.specs.Labels.{IsLabel};
ghost use Rattle.dns_names.specs.Spelling.{label_text, name_text};

use crate::labels::Labels;
use crate::name::Name;
use crate::text::spelling;
use std::cmp::Ordering;

/// The order of two labels with a dot after each, by their texts.
fn cmp_labels(first: &[u8], second: &[u8]) -> Ordering
    ensures { result ≡ slice_cmp nat_cmp (label_text first.now) (label_text second.now) }
{
    let (mut ours, mut theirs) = (first, second);
    loop {
        match (ours.split_first(), theirs.split_first()) {
            (None, None) => return Ordering::Equal,
            (None, Some((their, _))) => return b".".as_slice().cmp(spelling(*their).as_slice()),
            (Some((our, _)), None) => return spelling(*our).as_slice().cmp(b".".as_slice()),
            (Some((our, _)), Some((their, _))) if our != their => {
                return spelling(*our).as_slice().cmp(spelling(*their).as_slice());
            }
            (Some((_, our_rest)), Some((_, their_rest))) => {
                ours = our_rest;
                theirs = their_rest;
            }
        }
    }
}

/// The next label, or one without octets, as which the root is printed.
fn head<'a>(labels: &mut Labels<'a>) -> &'a [u8]
    requires { AllByRecursion IsLabel labels.old }
    ensures text { name_text labels.old ≡ label_text result.now ++ flat_map label_text labels.new }
    ensures octets { AllByRecursion (λ o. o < 256) result.now }
    ensures labels { AllByRecursion IsLabel labels.new }
{
    match labels.next() {
        None => b"",
        Some(label) => label,
    }
}

impl Name {
    /// The order of two names by the octets of their texts, for which no memory is taken.
    pub fn cmp_text(&self, other: &Name) -> Ordering
        ensures { result ≡ slice_cmp nat_cmp (name_text self.now) (name_text other.now) }
    {
        let (mut ours, mut theirs) = (self.labels(), other.labels());
        let mut order = cmp_labels(head(&mut ours), head(&mut theirs));
        while order.is_eq() {
            match (ours.next(), theirs.next()) {
                (None, None) => return Ordering::Equal,
                (None, Some(_)) => return Ordering::Less,
                (Some(_), None) => return Ordering::Greater,
                (Some(our), Some(their)) => order = cmp_labels(our, their),
            }
        }
        order
    }
}
