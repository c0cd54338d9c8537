//! Character-strings.

ghost use Rattle.std.specs.Prelude.{◌≡◌, ◌↔◌, ◌≤◌, ◌<◌, List, ℕ, Ok, IfOk, IfSome, IsSome, length, map, nat_eq};
ghost use Rattle.std.specs.List.{AllByRecursion};
ghost use Rattle.std.specs.Cmp.{partial_equiv_from_equiv};
ghost use Rattle.std.specs.Cmp.Lexicographic.{pointwise};
ghost use Rattle.std.proofs.lemmas.Cmp.{lists_equiv, nat_list_eq_equiv};
ghost use Rattle.dns_names.specs.Reading.{symbols};
ghost use Rattle.dns_data.specs.Faults.{Reads, of_names, ◌>>=◌ as bind};
ghost use Rattle.dns_data.specs.Strings.{IsString, AreStrings, strings_len, SpellsString, symbol_octet, string_of};

use crate::data_fault::DataFault;
use dns_names::{Symbol, first_symbol};
use std::alloc::{AllocError, Global};
use std::marker::Model;

/// The octet that a symbol of an item stands for.
fn octet_of(symbol: Symbol) -> u8
    ensures { result ≡ symbol_octet symbol }
{
    match symbol {
        Symbol::Dot => b'.',
        Symbol::Octet(octet) => octet,
    }
}

/// The octets that an item stands for.
fn octets_of(alloc: Global, raw: &[u8]) -> Result<Vec<u8>, DataFault>
    ensures octets { IfOk result (λ octets. AllByRecursion (λ o. o < 256) octets.items) }
    ensures exact { Reads (λ octets. octets.items) result (bind (of_names (symbols raw.now)) (λ all. Ok (map symbol_octet all))) }
{
    let mut octets = Vec::with_capacity(alloc, raw.len())?;
    let mut rest = raw;
    while !rest.is_empty() {
        let (symbol, after) = first_symbol(rest)?;
        octets.push(octet_of(symbol))?;
        rest = after;
    }
    Ok(octets)
}

/// A character-string: 0 to 255 octets (RFC 1035 section 3.3).
#[derive(Drop)]
pub struct CharacterString {
    octets: Vec<u8>,
}

impl Model for CharacterString {
    ghost Value = { List ℕ };

    ghost view = { λ s. s.octets.items };

    ghost invariant = { λ s. IsString s.octets.items };
}

impl CharacterString {
    /// The most octets of a character-string.
    pub const MAX: usize = 255;

    /// Reads the octets of an item, quoted or not: each stands for itself, but `\X` for X where X is no digit, and
    /// `\DDD` for the octet of that number. A bad escape is `Name(BadEscape)`, more than 255 octets are `StringTooLong`.
    pub fn read(alloc: Global, raw: &[u8]) -> Result<CharacterString, DataFault>
        // What is read is spelled so.
        ensures found { IfOk result (λ string. IsString string × SpellsString string raw.now) }
        // What is spelled so is read, unless memory runs out.
        ensures only { (string : List ℕ) → IsString string → SpellsString string raw.now → Reads (λ read. read) result (Ok string) }
        // Which refusal it is.
        ensures exact { Reads (λ string. string) result (string_of raw.now) }
    {
        CharacterString::read_exact(alloc, raw)
    }

    /// The string of the octets of an item, or the refusal that comes first.
    fn read_exact(alloc: Global, raw: &[u8]) -> Result<CharacterString, DataFault>
        ensures { Reads (λ string. string) result (string_of raw.now) }
    {
        let octets = octets_of(alloc, raw)?;
        if octets.len() > CharacterString::MAX {
            return Err(DataFault::StringTooLong);
        }
        Ok(CharacterString { octets })
    }

    /// The octets.
    pub fn octets(&self) -> &[u8]
        ensures octets { result.now ≡ self.now }
        ensures string { IsString self.now }
    {
        &self.octets
    }

    /// An equal string in memory of its own. The only error is out of memory.
    pub fn try_copy(&self, alloc: Global) -> Result<CharacterString, AllocError>
        ensures { IfOk result (λ copy. copy ≡ self.now) }
    {
        Ok(CharacterString {
            octets: Vec::from_slice(alloc, &self.octets)?,
        })
    }
}

impl PartialEq for CharacterString {
    ghost eq = { pointwise nat_eq };

    ghost laws = { partial_equiv_from_equiv nat_list_eq_equiv };

    fn eq(&self, other: &CharacterString) -> bool {
        self.octets.as_slice() == other.octets.as_slice()
    }
}

impl Eq for CharacterString {
    ghost laws = { nat_list_eq_equiv };
}

/// The data of a TXT record: one or more character-strings, at most 65,535 octets with one for the length of each
/// (RFC 1035 sections 3.2.1 and 3.3.14).
#[derive(Drop)]
pub struct Strings {
    strings: Vec<CharacterString>,
}

impl Model for Strings {
    ghost Value = { List (List ℕ) };

    ghost view = { λ s. s.strings.items };

    ghost invariant = { λ s. AreStrings s.strings.items };
}

impl Strings {
    /// The most octets, with one for the length of each string.
    pub const MAX: usize = 65_535;

    /// Strings of which there is at least one, if they have no more than `MAX` octets together.
    pub(crate) fn new(strings: Vec<CharacterString>) -> Option<Strings>
        requires some { 0 < length strings.items }
        requires each { AllByRecursion IsString strings.items }
        ensures fits { IsSome result ↔ (strings_len strings.items ≤ 65535) }
        ensures value { IfSome result (λ made. made ≡ strings.items) }
    {
        let mut total: usize = 0;
        for string in &strings {
            total += string.octets().len() + 1;
            if total > Strings::MAX {
                return None;
            }
        }
        Some(Strings { strings })
    }

    /// The strings, in order.
    pub fn as_slice(&self) -> &[CharacterString]
        ensures strings { result.now ≡ self.now }
        ensures each { AreStrings self.now }
    {
        &self.strings
    }

    /// Equal strings in memory of their own. The only error is out of memory.
    pub fn try_copy(&self, alloc: Global) -> Result<Strings, AllocError>
        ensures { IfOk result (λ copy. copy ≡ self.now) }
    {
        // the proof needs that these are strings
        let _ = &self.strings;
        let mut strings = Vec::with_capacity(alloc, self.strings.len())?;
        for string in &self.strings {
            strings.push(string.try_copy(alloc)?)?;
        }
        Ok(Strings { strings })
    }
}

impl PartialEq for Strings {
    ghost eq = { pointwise (pointwise nat_eq) };

    ghost laws = { partial_equiv_from_equiv (lists_equiv nat_list_eq_equiv) };

    fn eq(&self, other: &Strings) -> bool {
        self.strings.as_slice() == other.strings.as_slice()
    }
}

impl Eq for Strings {
    ghost laws = { lists_equiv nat_list_eq_equiv };
}
