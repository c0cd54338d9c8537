//! The labels of a name, one after the other.

ghost use Rattle.std.specs.Prelude.{◌≡◌, ◌+◌, List, ℕ, length, sum};
ghost use Rattle.std.specs.Iterator.{YieldsFirstRef, YieldsLastRef, item_count};
ghost use Rattle.dns_names.specs.Rows.{labels_in};

use std::marker::Model;

/// The labels of a name, leftmost first. From the back they come rightmost first.
#[derive(Drop)]
pub struct Labels<'a> {
    lengths: &'a [u8],
    /// The labels from the right to the left, with an octet 0 after each.
    row: &'a [u8],
}

impl<'a> Model for Labels<'a> {
    ghost Value = { List (List ℕ) };

    ghost view = { λ l. labels_in l.lengths.now l.row.now };

    ghost invariant = { λ l. sum l.lengths.now + length l.lengths.now ≡ length l.row.now };
}

impl<'a> Labels<'a> {
    /// The labels of a row, leftmost first by their lengths.
    pub(crate) fn of_row(lengths: &'a [u8], row: &'a [u8]) -> Labels<'a>
        requires { sum lengths.now + length lengths.now ≡ length row.now }
        ensures { result ≡ labels_in lengths.now row.now }
    {
        Labels { lengths, row }
    }
}

impl<'a> Iterator for Labels<'a> {
    type Item = &'a [u8];

    ghost next_gives = { YieldsFirstRef (λ l. l) };

    ghost remaining = { item_count (λ l. l) };

    fn next(&mut self) -> Option<&'a [u8]> {
        let (length, lengths) = self.lengths.split_first()?;
        let length = usize::from(*length);
        let (row, last) = self.row.split_at(self.row.len() - (length + 1));
        self.lengths = lengths;
        self.row = row;
        Some(&last[..length])
    }
}

impl<'a> DoubleEndedIterator for Labels<'a> {
    ghost next_back_gives = { YieldsLastRef (λ l. l) };

    fn next_back(&mut self) -> Option<&'a [u8]> {
        let (length, lengths) = self.lengths.split_last()?;
        let length = usize::from(*length);
        let (first, row) = self.row.split_at(length + 1);
        self.lengths = lengths;
        self.row = row;
        Some(&first[..length])
    }
}
