//! A domain name.

ghost use Rattle.std.specs.Prelude.{◌≡◌, ◌↔◌, ◌+◌, ◌^◌, ◌<◌, List, [], ◌++◌, ℕ, length, sum, IsTrue, IfOk, Ok, string_bytes};
ghost use Rattle.std.specs.Option.{option_map, option_copied};
ghost use Rattle.std.specs.Ordering.{as_partial_cmp};
ghost use Rattle.std.proofs.Common.{rules};
ghost use Rattle.dns_names.specs.Faults.{Reads};
ghost use Rattle.dns_names.specs.Labels.{IsName, IsWithin, IsBelow, is_within, parent_of, labels_of};
ghost use Rattle.dns_names.specs.Order.{canonical_cmp, same_name, canonical_total, same_name_equiv, same_name_partial, canonical_partial};
ghost use Rattle.dns_names.specs.Keys.{key_of, key_end, ancestor_key, OrdersNames, IsKeyOfOne, RangesOver, BeginsAll, BeginsAtAncestor};
ghost use Rattle.dns_names.specs.Rows.{AreRows, IsPlain, name_in};
ghost use Rattle.dns_names.specs.Spelling.{SpellsAbsolute, SpellsRelative, name_text, relative_text};
ghost use Rattle.dns_names.specs.Reading.{absolute_name, ended_name, relative_name, placed_name};

use crate::labels::Labels;
use crate::name_fault::NameFault;
use crate::octets::cmp_octets;
use crate::pieces::PieceRows;
use crate::relative_text::RelativeName;
use crate::representation::{
    ESCAPED, NewLabels, Rows, behind_label, key_len, label_count, push_key_of, push_rows, row_len,
    stand_in_keys,
};
use std::alloc::{AllocError, Global};
use std::cmp::Ordering;
use std::marker::Model;

/// The most octets of a name, counting one before each label and one for the root (RFC 1035 section 2.3.4).
const NAME_MAX: usize = 255;

/// A domain name: labels of 1 to 63 octets, at most 255 octets in all, with the letters A to Z folded to lower case
/// (RFC 1034 section 3.1, RFC 1035 section 2.3). The order is the canonical one (RFC 4034 section 6.1). A name stands in
/// one allocation, with its key.
#[derive(Drop)]
pub struct Name {
    memory: Vec<u8>,
}

impl Model for Name {
    ghost Value = { List (List ℕ) };

    ghost view = { λ n. name_in n.memory.items };

    ghost invariant = { λ n. AreRows n.memory.items };
}

/// The range of the keys of all names within a name: from the first to before the end.
#[derive(Drop)]
pub struct KeyRange<'a> {
    /// The key of the name itself.
    pub first: &'a [u8],
    /// The first key after those of the names within; `None` for the root, after whose names no key comes.
    pub end: Option<Vec<u8>>,
}

impl Name {
    ghost use Rattle.dns_names.specs.Rows.{AreKept, AreEnded, ArePlaced};
    ghost use Rattle.dns_names.specs.Reading.{Pieces, fitting};

    /// The name of labels, which lengths cut from a row of octets, before those of another name. The only error is want of
    /// memory.
    fn joined(alloc: Global, lengths: &[u8], octets: &[u8], tail: &Rows) -> Result<Name, AllocError>
        requires whole { sum lengths.now ≡ length octets.now }
        requires name { IsName (labels_of lengths.now octets.now ++ tail.now) }
        ensures { IfOk result (λ name. name ≡ labels_of lengths.now octets.now ++ tail.now) }
    {
        let front = NewLabels::of_rows(lengths, octets);
        if stand_in_keys(octets) && tail.row == tail.key {
            return Name::joined_plain(alloc, &front, tail);
        }
        Name::joined_escaped(alloc, &front, tail)
    }

    /// The same, where the name has no octet 0 or 1. Its row is its key, and stands once.
    fn joined_plain(alloc: Global, front: &NewLabels, tail: &Rows) -> Result<Name, AllocError>
        requires name { IsName (front.now ++ tail.now) }
        requires plain { IsPlain (front.now ++ tail.now) }
        ensures { IfOk result (λ name. name ≡ front.now ++ tail.now) }
    {
        let count = label_count(front, tail);
        let room = 1 + usize::from(count) + usize::from(row_len(front, tail));
        let mut memory = Vec::with_capacity(alloc, room)?;
        memory.push(count)?;
        push_rows(&mut memory, front, tail)?;
        Ok(Name { memory })
    }

    /// The same, where the name has an octet 0 or 1. Its row stands beside its key.
    fn joined_escaped(alloc: Global, front: &NewLabels, tail: &Rows) -> Result<Name, AllocError>
        requires name { IsName (front.now ++ tail.now) }
        ensures { IfOk result (λ name. name ≡ front.now ++ tail.now) }
    {
        let count = label_count(front, tail);
        let total = row_len(front, tail);
        let room = 3 + usize::from(count) + usize::from(total) + key_len(front, tail);
        let mut memory = Vec::with_capacity(alloc, room)?;
        memory.extend_from_slice(&[ESCAPED, count, total])?;
        push_rows(&mut memory, front, tail)?;
        push_key_of(&mut memory, front, tail)?;
        Ok(Name { memory })
    }

    /// Reads an absolute name (RFC 1035 section 5.1): labels with a dot after each, or `.` for the root. An octet stands
    /// for itself, `\X` for X where X is no digit, `\DDD` for the octet of that number. Letters are folded.
    ///
    /// Of several refusals the first of these is answered: `Empty`, `BadEscape`, `EmptyLabel`, `LabelTooLong`,
    /// `NotAbsolute`, `NameTooLong`. `NoMemory` comes at the growth that was refused.
    pub fn read_absolute(alloc: Global, text: &[u8]) -> Result<Name, NameFault>
        // What is read is spelled so.
        ensures found { IfOk result (λ name. IsName name × SpellsAbsolute name text.now) }
        // What is spelled so is read, unless memory runs out.
        ensures only { (name : List (List ℕ)) → IsName name → SpellsAbsolute name text.now → Reads (λ read. read) result (Ok name) }
        // Which refusal it is.
        ensures exact { Reads (λ name. name) result (absolute_name text.now) }
    {
        Name::absolute(alloc, text)
    }

    /// The name of an absolute text, or the refusal that comes first.
    fn absolute(alloc: Global, text: &[u8]) -> Result<Name, NameFault>
        ensures { Reads (λ name. name) result (absolute_name text.now) }
    {
        match text {
            [] => Err(NameFault::Empty),
            [b'.'] => Ok(Name::joined(alloc, &[], &[], &Rows::of_root())?),
            _ => Name::ended(alloc, text),
        }
    }

    /// The name of a text that is more than a dot, or the refusal that comes first.
    fn ended(alloc: Global, text: &[u8]) -> Result<Name, NameFault>
        ensures { Reads (λ name. name) result (ended_name text.now) }
    {
        let mut pieces = PieceRows::new();
        pieces.read(text)?;
        if pieces.last > 0 {
            return Err(NameFault::NotAbsolute);
        }
        Name::of_pieces(alloc, &pieces, &Rows::of_root())
    }

    /// Reads a name that may be relative to an origin (RFC 1035 section 5.1): an absolute name as it stands, `@` alone
    /// as the origin, and other labels, which lack the last dot, before the origin's.
    ///
    /// Of several refusals the first of these is answered: `Empty`, `BadEscape`, `EmptyLabel`, `LabelTooLong`,
    /// `NameTooLong`. `NoMemory` comes at the growth that was refused.
    pub fn read_relative(alloc: Global, text: &[u8], origin: &Name) -> Result<Name, NameFault>
        // What is read is spelled so.
        ensures found { IfOk result (λ name. IsName name × SpellsRelative origin.now name text.now) }
        // What is spelled so is read, unless memory runs out.
        ensures only { (name : List (List ℕ)) → IsName name → SpellsRelative origin.now name text.now → Reads (λ read. read) result (Ok name) }
        // Which refusal it is.
        ensures exact { Reads (λ name. name) result (relative_name origin.now text.now) }
    {
        // the proof needs that the origin is a name
        let _ = &origin.memory;
        Name::relative(alloc, text, origin)
    }

    /// The name of a text relative to an origin, or the refusal that comes first.
    fn relative(alloc: Global, text: &[u8], origin: &Name) -> Result<Name, NameFault>
        ensures { Reads (λ name. name) result (relative_name origin.now text.now) }
    {
        match text {
            [] => Err(NameFault::Empty),
            [b'.'] => Ok(Name::joined(alloc, &[], &[], &Rows::of_root())?),
            [b'@'] => Ok(origin.try_copy(alloc)?),
            _ => Name::placed(alloc, text, origin),
        }
    }

    /// The name of a text that is more than a dot or an at, with the labels of an origin after a last one that no dot ends,
    /// or the refusal that comes first.
    fn placed(alloc: Global, text: &[u8], origin: &Name) -> Result<Name, NameFault>
        ensures { Reads (λ name. name) result (placed_name origin.now text.now) }
    {
        let mut pieces = PieceRows::new();
        pieces.read(text)?;
        if pieces.last == 0 {
            return Name::of_pieces(alloc, &pieces, &Rows::of_root());
        }
        pieces.end_label();
        Name::of_pieces(alloc, &pieces, &origin.rows())
    }

    /// The name of pieces that dots end, before the labels of another name, unless it is too long.
    fn of_pieces(alloc: Global, pieces: &PieceRows, tail: &Rows) -> Result<Name, NameFault>
        requires fits { pieces.now.total + pieces.now.ended < 2 ^ 64 }
        requires tail { IsName tail.now }
        requires name { ArePlaced pieces.now tail.now }
        ensures { (given : Pieces) → AreKept pieces.now given → AreEnded given → Reads (λ name. name) result (fitting (given.ended ++ tail.now)) }
    {
        let room = NAME_MAX - 1 - tail.row.len();
        if pieces.total + pieces.ended > room {
            return Err(NameFault::NameTooLong);
        }
        let lengths = &pieces.lengths[..pieces.ended];
        let octets = &pieces.octets[..pieces.total];
        Ok(Name::joined(alloc, lengths, octets, tail)?)
    }

    /// The name in its one canonical spelling: each label with a dot after it, and `.` for the root. The octets `.` `\`
    /// `"` `(` `)` `;` `@` `$` have a backslash before them, other octets from 33 to 126 stand for themselves, and all
    /// others are `\DDD`. The only error is out of memory.
    pub fn text(&self, alloc: Global) -> Result<String, AllocError>
        ensures canonical { IfOk result (λ text. string_bytes text ≡ name_text self.now) }
        // Reading it gives the name back.
        ensures again { IfOk result (λ text. absolute_name (string_bytes text) ≡ Ok self.now) }
    {
        // the proof needs that it is a name
        let _ = &self.memory;
        self.to_string(alloc)
    }

    /// The name in its one canonical spelling relative to an origin (RFC 1035 section 5.1): `@` for the origin, the labels before
    /// the origin's with a dot between them for a name below it, and `text()` for any other. The only error is out of memory.
    pub fn relative_text<'a>(
        &'a self,
        alloc: Global,
        origin: &'a Name,
    ) -> Result<String, AllocError>
        ensures canonical { IfOk result (λ text. string_bytes text ≡ relative_text origin.now self.now) }
        // Reading it relative to the origin gives the name back.
        ensures again { IfOk result (λ text. relative_name origin.now (string_bytes text) ≡ Ok self.now) }
    {
        // the proof needs that they are names
        let _ = &self.memory;
        let _ = &origin.memory;
        let relative = RelativeName { name: self, origin };
        relative.to_string(alloc)
    }

    /// What the name holds, row by row.
    fn rows(&self) -> Rows<'_>
        ensures rows { result ≡ self.now }
        ensures name { IsName self.now }
    {
        Rows::cut(&self.memory)
    }

    /// The labels, leftmost first.
    pub fn labels(&self) -> Labels<'_>
        ensures labels { result ≡ self.now }
        ensures name { IsName self.now }
    {
        let rows = self.rows();
        Labels::of_row(rows.lengths, rows.row)
    }

    /// The key: for the labels from the right to the left their octets, with 0 as 1 1 and 1 as 1 2, and then an octet 0. The
    /// root's is empty. As rows of octets, keys stand in the canonical order of their names (RFC 4034 section 6.1).
    pub fn key(&self) -> &[u8]
        ensures key { result.now ≡ key_of self.now }
        // The order of keys is the canonical order of names.
        ensures order { OrdersNames self.now }
        // No other name has this key.
        ensures unique { IsKeyOfOne self.now }
        // The names within are those that have keys in its range, and those that have keys which begin with it.
        ensures range { RangesOver self.now }
        ensures begins { BeginsAll self.now }
    {
        self.rows().key
    }

    /// The key of the name of the last `labels` labels, which is a prefix of `key()`; `None` where there are not so
    /// many.
    pub fn ancestor_key(&self, labels: usize) -> Option<&[u8]>
        ensures key { option_copied result ≡ ancestor_key self.now labels }
        ensures begins { BeginsAtAncestor self.now labels }
    {
        let key = self.key();
        let mut rest = key;
        for _ in 0..labels {
            rest = behind_label(rest)?;
        }
        Some(&key[..key.len() - rest.len()])
    }

    /// The range of the keys of the names within this one: from its key to the same with its last octet 0 made 1. All keys
    /// are in that of the root. The only error is out of memory.
    pub fn key_range(&self, alloc: Global) -> Result<KeyRange<'_>, AllocError>
        ensures first { IfOk result (λ range. range.first.now ≡ key_of self.now) }
        ensures end { IfOk result (λ range. option_map (λ end. end.items) range.end ≡ key_end self.now) }
        // The names within are those that have keys in it.
        ensures range { RangesOver self.now }
    {
        let first = self.key();
        if first.is_empty() {
            return Ok(KeyRange { first, end: None });
        }
        let mut end = Vec::from_slice(alloc, first)?;
        end[first.len() - 1] = 1;
        Ok(KeyRange {
            first,
            end: Some(end),
        })
    }

    /// Whether the name is some labels followed by those of `top`: equal to it or a subdomain (RFC 1034 section 3.1).
    pub fn is_within(&self, top: &Name) -> bool
        ensures test { IsTrue result ↔ IsWithin self.now top.now }
        ensures value { result ≡ is_within self.now top.now }
    {
        self.key().starts_with(top.key())
    }

    /// Whether the name is within `top` and not equal to it.
    pub fn is_below(&self, top: &Name) -> bool
        ensures { IsTrue result ↔ IsBelow self.now top.now }
    {
        self.key().len() > top.key().len() && self.is_within(top)
    }

    /// The name without its first label, and `None` for the root. The only error is out of memory.
    pub fn parent(&self, alloc: Global) -> Result<Option<Name>, AllocError>
        ensures { IfOk result (λ parent. parent ≡ parent_of self.now) }
    {
        let rows = self.rows();
        let Some((length, lengths)) = rows.lengths.split_first() else {
            return Ok(None);
        };
        let row = &rows.row[..rows.row.len() - (usize::from(*length) + 1)];
        let Some(key) = self.ancestor_key(lengths.len()) else {
            unreachable!();
        };
        let parent = Name::joined(alloc, &[], &[], &Rows { lengths, row, key })?;
        Ok(Some(parent))
    }

    /// An equal name in memory of its own. The only error is out of memory.
    pub fn try_copy(&self, alloc: Global) -> Result<Name, AllocError>
        ensures { IfOk result (λ copy. copy ≡ self.now) }
    {
        Ok(Name {
            memory: Vec::from_slice(alloc, &self.memory)?,
        })
    }
}

impl PartialEq for Name {
    ghost eq = { same_name };

    ghost laws = { same_name_partial };

    fn eq(&self, other: &Name) -> bool {
        self.key() == other.key()
    }
}

impl Eq for Name {
    ghost laws = { same_name_equiv };
}

impl Ord for Name {
    ghost cmp = { canonical_cmp };

    ghost total = { canonical_total };

    ghost matches_partial_cmp = { λ x y. Prim.search rules };

    ghost matches_eq = { λ x y. Prim.search rules };

    fn cmp(&self, other: &Name) -> Ordering {
        cmp_octets(self.key(), other.key())
    }
}

impl PartialOrd for Name {
    ghost partial_cmp = { as_partial_cmp canonical_cmp };

    ghost laws = { canonical_partial };

    fn partial_cmp(&self, other: &Name) -> Option<Ordering> {
        Some(self.cmp(other))
    }
}
