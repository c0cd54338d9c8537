//! How a name stands in memory.

ghost use Rattle.std.specs.Prelude.{◌≡◌, ◌≤◌, ◌++◌, [], ◌∷◌, List, ℕ, IfNone, IfSome, OnOk, length, map, nat_le, nat_lt, sum};
ghost use Rattle.std.specs.List.{count_by, list_all};
ghost use Rattle.std.specs.Option.{option_copied};
ghost use Rattle.dns_names.specs.Labels.{IsName, labels_of};
ghost use Rattle.dns_names.specs.Keys.{key_octet, label_front, key_of};
ghost use Rattle.dns_names.specs.Rows.{AreRows, AreRowsOf, AreEscaped, row_of, labels_in, name_in, escaped_in, behind_label};

use std::alloc::AllocError;
use std::marker::Model;

/// What stands in place of the number of labels in a name with an octet 0 or 1, which has a row beside its key.
pub(crate) const ESCAPED: u8 = 255;

/// The lengths of a name's labels, the labels from the right to the left with an octet 0 after each, and the name's key. The
/// last two are one in a name without an octet 0 or 1.
#[derive(Drop)]
pub(crate) struct Rows<'a> {
    pub lengths: &'a [u8],
    pub row: &'a [u8],
    pub key: &'a [u8],
}

impl<'a> Model for Rows<'a> {
    ghost Value = { List (List ℕ) };

    ghost view = { λ r. labels_in r.lengths.now r.row.now };

    ghost invariant = { λ r. AreRowsOf (labels_in r.lengths.now r.row.now) r.lengths.now r.row.now r.key.now };
}

impl<'a> Rows<'a> {
    /// Those of the root.
    pub fn of_root() -> Rows<'a>
        ensures { result ≡ [] }
    {
        Rows {
            lengths: &[],
            row: &[],
            key: &[],
        }
    }

    /// Those that stand in memory: after an octet, which says how many labels there are, or after three, which say that the
    /// key has escapes, how many labels there are and how long their row is.
    pub fn cut(memory: &'a [u8]) -> Rows<'a>
        requires { AreRows memory.now }
        ensures { result ≡ name_in memory.now }
    {
        let [count, rest @ ..] = memory else {
            unreachable!();
        };
        if *count == ESCAPED {
            return Rows::cut_escaped(rest);
        }
        let (lengths, key) = rest.split_at(usize::from(*count));
        Rows {
            lengths,
            row: key,
            key,
        }
    }

    /// Those of a name with an octet 0 or 1.
    fn cut_escaped(memory: &'a [u8]) -> Rows<'a>
        requires { AreEscaped memory.now }
        ensures { result ≡ escaped_in memory.now }
    {
        let [count, total, rest @ ..] = memory else {
            unreachable!();
        };
        let (lengths, rest) = rest.split_at(usize::from(*count));
        let (row, key) = rest.split_at(usize::from(*total));
        Rows { lengths, row, key }
    }
}

/// Labels whose octets stand leftmost first, as a text gives them.
#[derive(Drop)]
pub(crate) struct NewLabels<'a> {
    lengths: &'a [u8],
    octets: &'a [u8],
}

impl<'a> Model for NewLabels<'a> {
    ghost Value = { List (List ℕ) };

    ghost view = { λ l. labels_of l.lengths.now l.octets.now };

    ghost invariant = { λ l. sum l.lengths.now ≡ length l.octets.now };
}

impl<'a> NewLabels<'a> {
    /// The labels that a row of octets has when it is cut into pieces of these lengths.
    pub fn of_rows(lengths: &'a [u8], octets: &'a [u8]) -> NewLabels<'a>
        requires { sum lengths.now ≡ length octets.now }
        ensures { result ≡ labels_of lengths.now octets.now }
    {
        NewLabels { lengths, octets }
    }

    /// Takes the last label off.
    fn take_last(&mut self) -> Option<&'a [u8]>
        ensures none { IfNone result (self.old ≡ []) }
        ensures some { IfSome result (λ label. self.old ≡ self.new ++ label.now ∷ []) }
    {
        let (length, lengths) = self.lengths.split_last()?;
        let start = self.octets.len() - usize::from(*length);
        let (octets, label) = self.octets.split_at(start);
        self.lengths = lengths;
        self.octets = octets;
        Some(label)
    }
}

/// What stands after the key of the first label, where there is one.
pub(crate) fn behind_label(key: &[u8]) -> Option<&[u8]>
    ensures { option_copied result ≡ behind_label key.now }
{
    let mut rest = key;
    while let Some((octet, after)) = rest.split_first() {
        if *octet == 0 {
            return Some(after);
        }
        rest = after;
    }
    None
}

/// Whether octets of labels all stand for themselves in keys.
pub(crate) fn stand_in_keys(octets: &[u8]) -> bool
    ensures { result ≡ list_all (λ o. nat_lt 1 o) octets.now }
{
    octets.iter().all(|octet| *octet > 1)
}

/// How many octets of labels take two in keys.
fn escapes(octets: &[u8]) -> usize
    ensures { result ≡ count_by (λ o. nat_le o 1) octets.now }
{
    octets.iter().filter(|octet| **octet <= 1).count()
}

/// Puts an octet of a label after a key. The only error is out of memory.
fn push_octet(key: &mut Vec<u8>, octet: u8) -> Result<(), AllocError>
    ensures { OnOk result (key.new.items ≡ key.old.items ++ key_octet octet) }
{
    if octet > 1 {
        key.push(octet)?;
    } else {
        key.extend_from_slice(&[1, octet + 1])?;
    }
    Ok(())
}

/// Puts the octets of a label after a key. The only error is out of memory.
fn push_label(key: &mut Vec<u8>, label: &[u8]) -> Result<(), AllocError>
    ensures { OnOk result (key.new.items ≡ key.old.items ++ label_front label.now) }
{
    if stand_in_keys(label) {
        return key.extend_from_slice(label);
    }
    for octet in label {
        push_octet(key, *octet)?;
    }
    Ok(())
}

/// Puts the key of labels after that of a name that they stand before. The only error is out of memory.
fn push_key(key: &mut Vec<u8>, labels: &NewLabels) -> Result<(), AllocError>
    ensures { OnOk result (key.new.items ≡ key.old.items ++ key_of labels.now) }
{
    let mut left = NewLabels::of_rows(labels.lengths, labels.octets);
    while let Some(label) = left.take_last() {
        push_label(key, label)?;
        key.push(0)?;
    }
    Ok(())
}

/// Puts the row of labels after that of a name that they stand before. The only error is out of memory.
fn push_row(row: &mut Vec<u8>, labels: &NewLabels) -> Result<(), AllocError>
    ensures { OnOk result (row.new.items ≡ row.old.items ++ row_of labels.now) }
{
    let mut left = NewLabels::of_rows(labels.lengths, labels.octets);
    while let Some(label) = left.take_last() {
        row.extend_from_slice(label)?;
        row.push(0)?;
    }
    Ok(())
}

/// How many labels a name has, of which some stand before those of another name.
pub(crate) fn label_count(front: &NewLabels, tail: &Rows) -> u8
    requires { IsName (front.now ++ tail.now) }
    ensures { result ≡ length (front.now ++ tail.now) }
{
    (front.lengths.len() + tail.lengths.len()) as u8
}

/// How many octets the row of such a name has.
pub(crate) fn row_len(front: &NewLabels, tail: &Rows) -> u8
    requires { IsName (front.now ++ tail.now) }
    ensures { result ≡ length (row_of (front.now ++ tail.now)) }
{
    (tail.row.len() + front.octets.len() + front.lengths.len()) as u8
}

/// How many octets the key of such a name has.
pub(crate) fn key_len(front: &NewLabels, tail: &Rows) -> usize
    requires { IsName (front.now ++ tail.now) }
    ensures { result ≡ length (key_of (front.now ++ tail.now)) }
{
    tail.key.len() + front.octets.len() + front.lengths.len() + escapes(front.octets)
}

/// Puts the lengths of such a name's labels, and its row, into memory. The only error is out of memory.
pub(crate) fn push_rows(
    memory: &mut Vec<u8>,
    front: &NewLabels,
    tail: &Rows,
) -> Result<(), AllocError>
    ensures { OnOk result (memory.new.items ≡ memory.old.items ++ (map length (front.now ++ tail.now) ++ row_of (front.now ++ tail.now))) }
{
    memory.extend_from_slice(front.lengths)?;
    memory.extend_from_slice(tail.lengths)?;
    memory.extend_from_slice(tail.row)?;
    push_row(memory, front)
}

/// Puts the key of such a name into memory. The only error is out of memory.
pub(crate) fn push_key_of(
    memory: &mut Vec<u8>,
    front: &NewLabels,
    tail: &Rows,
) -> Result<(), AllocError>
    ensures { OnOk result (memory.new.items ≡ memory.old.items ++ key_of (front.now ++ tail.now)) }
{
    memory.extend_from_slice(tail.key)?;
    push_key(memory, front)
}
