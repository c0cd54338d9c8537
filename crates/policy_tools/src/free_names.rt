//! Free names, which no rule has, one label below another name.

ghost use Rattle.std.specs.Prelude.{◌≡◌, ◌↔◌, ◌+◌, ◌/◌, ◌%◌, ◌<◌, ◌≤◌, [], ◌∷◌, length, is_ok, IfOk, IsTrue};
ghost use Rattle.std.specs.List.{list_any};
ghost use Rattle.dns_names.specs.Labels.{IsName, wire_len};
ghost use Rattle.dns_names.specs.Order.{same_name};
ghost use Rattle.dns_names.specs.Reading.{relative_name};
ghost use Rattle.policy_tools.specs.FreeNames.{IsFree, IsFreeChild, IsFreeOctet, letter_of, pair_of};

use dns_names::{Name, NameFault};
use grant_policy::Rule;
use std::alloc::{AllocError, Global};

/// Whether no rule has this name.
pub(crate) fn is_free(rules: &[Rule], name: &Name) -> bool
    ensures { IsTrue result ↔ IsFree rules.now name.now }
{
    !is_at(rules, name)
}

/// Whether a rule has this name.
fn is_at(rules: &[Rule], name: &Name) -> bool
    ensures { result ≡ list_any (λ rule. same_name rule.at name.now) rules.now }
{
    rules.iter().any(|rule| rule.at == *name)
}

/// A name one label below `top` that no rule has, if there is one. The only error is out of memory.
pub(crate) fn free_child(
    alloc: Global,
    rules: &[Rule],
    top: &Name,
) -> Result<Option<Name>, AllocError>
    requires { length rules.now ≤ 2048 }
    ensures { IfOk result (IsFreeChild rules.now top.now) }
{
    let has_two = fits(alloc, b"aa", top)?;
    if has_two {
        return long_child(alloc, rules, top);
    }
    let has_one = fits(alloc, b"a", top)?;
    if has_one {
        return short_child(alloc, rules, top);
    }
    Ok(None)
}

/// Whether labels of this text in front of `top` are no longer than a name may be.
#[tactic(auto, using(crate::proofs::FreeNameLemmas::read_ok, crate::proofs::FreeNameLemmas::read_err))]
pub(crate) fn fits(alloc: Global, text: &[u8], top: &Name) -> Result<bool, AllocError>
    ensures read { IfOk result (λ fits. fits ≡ is_ok (relative_name top.now text.now)) }
    ensures name { IsName top.now }
{
    let _ = top.labels();
    match Name::read_relative(alloc, text, top) {
        Ok(_read) => Ok(true),
        Err(NameFault::NameTooLong) => Ok(false),
        Err(_) => Err(AllocError),
    }
}

/// A free name below one that has room for two octets more. There are more names of two such letters than rules.
fn long_child(alloc: Global, rules: &[Rule], top: &Name) -> Result<Option<Name>, AllocError>
    requires few { length rules.now ≤ 2048 }
    requires name { IsName top.now }
    requires room { wire_len top.now ≤ 252 }
    ensures { IfOk result (IsFreeChild rules.now top.now) }
{
    for number in 0..rules.len() + 1 {
        let child = numbered_child(alloc, number, top)?;
        if is_free(rules, &child) {
            return Ok(Some(child));
        }
    }
    unreachable!()
}

/// The name of the label of this number, of two letters, below `top`.
fn numbered_child(alloc: Global, number: usize, top: &Name) -> Result<Name, AllocError>
    requires number { number < 2209 }
    requires name { IsName top.now }
    requires room { wire_len top.now ≤ 252 }
    ensures { IfOk result (λ name. name ≡ pair_of number ∷ top.now) }
{
    let text = [letter(number / 47), letter(number % 47)];
    match Name::read_relative(alloc, &text, top) {
        Ok(name) => Ok(name),
        Err(_) => Err(AllocError),
    }
}

/// An octet that is folded and stands for itself in a label: a lower-case letter, one from `0` to `@`, or one from `]` to `` ` ``.
fn letter(number: usize) -> u8
    requires { number < 47 }
    ensures { result ≡ letter_of number }
{
    let octet = match number {
        0..26 => 97 + number,
        26..43 => 22 + number,
        _ => 50 + number,
    };
    octet as u8
}

/// A free name below one that has room for one octet more, if there is one.
fn short_child(alloc: Global, rules: &[Rule], top: &Name) -> Result<Option<Name>, AllocError>
    requires name { IsName top.now }
    requires full { 252 < wire_len top.now }
    requires room { wire_len top.now ≤ 253 }
    ensures { IfOk result (IsFreeChild rules.now top.now) }
{
    for number in 0..256usize {
        if let Some(child) = free_octet(alloc, rules, number as u8, top)? {
            return Ok(Some(child));
        }
    }
    Ok(None)
}

/// The name of the label of one octet below `top`, if it is folded and free.
fn free_octet(
    alloc: Global,
    rules: &[Rule],
    octet: u8,
    top: &Name,
) -> Result<Option<Name>, AllocError>
    requires name { IsName top.now }
    requires room { wire_len top.now ≤ 253 }
    ensures { IfOk result (IsFreeOctet rules.now top.now octet) }
{
    if octet.to_ascii_lowercase() != octet {
        return Ok(None);
    }
    let child = octet_child(alloc, octet, top)?;
    if is_free(rules, &child) {
        return Ok(Some(child));
    }
    Ok(None)
}

/// The name of the label of one octet below `top`.
fn octet_child(alloc: Global, octet: u8, top: &Name) -> Result<Name, AllocError>
    requires { IsName ((octet ∷ []) ∷ top.now) }
    ensures { IfOk result (λ name. name ≡ (octet ∷ []) ∷ top.now) }
{
    let text = [
        b'\\',
        b'0' + octet / 100,
        b'0' + octet / 10 % 10,
        b'0' + octet % 10,
    ];
    match Name::read_relative(alloc, &text, top) {
        Ok(name) => Ok(name),
        Err(_) => Err(AllocError),
    }
}
