//! The closest encloser of a name that does not exist (RFC 4592 section 3.3.1), and the wildcard below it, by their keys.

ghost use Rattle.std.specs.Prelude.{◌≡◌, ◌≤◌, ◌-◌, ◌∷◌, length, List, ℕ, IfOk, nat_eq};
ghost use Rattle.std.specs.List.{list_any, starts_with};
ghost use Rattle.std.specs.Option.{option_copied, option_map};
ghost use Rattle.dns_names.specs.Keys.{key_of};
ghost use Rattle.zone_answers.specs.Answers.{Name, asterisk};
ghost use Rattle.zone_answers.specs.Places.{encloser_over, have_asterisks};

use dns_data::Record;
use std::alloc::{AllocError, Global};

/// The most octets of the key of a name.
const KEY_MAX: usize = 512;

/// The key of the name above another, which is the other's key without its last label and the 0 after that.
fn parent_key(key: &[u8]) -> &[u8]
    ensures shorter { length result.now ≤ length key.now - 1 }
    ensures above { (label : List ℕ) (labels : Name) → key.now ≡ key_of (label ∷ labels) → result.now ≡ key_of labels }
{
    let Some((_, mut rest)) = key.split_last() else {
        return key;
    };
    while let Some((octet, front)) = rest.split_last() {
        if *octet == 0 {
            return rest;
        }
        rest = front;
    }
    rest
}

/// Whether one of some records is at a name or below it.
fn any_within(near: &[Record], key: &[u8]) -> bool
    ensures { result ≡ list_any (λ r. starts_with nat_eq (key_of r.owner) key.now) near.now }
{
    near.iter()
        .any(|record| record.owner.key().starts_with(key))
}

/// The key of the nearest name above another at which or below which one of some records is.
pub(crate) fn encloser_key<'a>(near: &[Record], key: &'a [u8]) -> Option<&'a [u8]>
    ensures { (name : Name) → key.now ≡ key_of name → option_copied result ≡ option_map key_of (encloser_over near.now name) }
{
    if key.is_empty() {
        return None;
    }
    let above = parent_key(key);
    if any_within(near, above) {
        return Some(above);
    }
    encloser_key(near, above)
}

/// Whether the owners of some records have an octet `*`. If none has, there is no wildcard.
pub(crate) fn have_asterisks(records: &[Record]) -> bool
    ensures { result ≡ have_asterisks records.now }
{
    records
        .iter()
        .any(|record| record.owner.key().contains(&b'*'))
}

/// The key of the wildcard below a name. The only error is out of memory.
pub(crate) fn wildcard_key(alloc: Global, encloser: &[u8]) -> Result<Vec<u8>, AllocError>
    ensures { IfOk result (λ key. (name : Name) → encloser.now ≡ key_of name → key.items ≡ key_of (asterisk ∷ name)) }
{
    let mut key = Vec::with_capacity(alloc, KEY_MAX)?;
    key.extend_from_slice(encloser)?;
    key.extend_from_slice(b"*\0")?;
    Ok(key)
}
