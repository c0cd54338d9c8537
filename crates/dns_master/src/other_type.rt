//! The words for types that are not kept.

ghost use Rattle.std.specs.Prelude.{◌≡◌, take};
ghost use Rattle.std.specs.List.{list_all};
ghost use Rattle.dns_master.specs.OtherTypes.{has_keys, last_octet, ends_with_equals, begins_with_word, is_signer_name, is_signer_number, is_signer_type, is_kept_number, is_class, is_type_octet, begins_with_letter, is_other_type};

use crate::field::{is_class_in, is_other_class};

/// The first octets of a text, as many as these, or all of them.
fn front_of(text: &[u8], len: usize) -> &[u8]
    ensures { result.now ≡ take len text.now }
{
    if len < text.len() {
        text.split_at(len).0
    } else {
        text
    }
}

/// Whether a text begins with a word, in either letter case.
fn begins_with_word(word: &[u8], text: &[u8]) -> bool
    ensures { result ≡ begins_with_word word.now text.now }
{
    front_of(text, word.len()).eq_ignore_ascii_case(word)
}

/// Whether a text names a type that a signer makes (RFC 4034, RFC 5155, RFC 7344, RFC 8976), in either letter case.
fn is_signer_name(text: &[u8]) -> bool
    ensures { result ≡ is_signer_name text.now }
{
    text.eq_ignore_ascii_case(b"RRSIG")
        || text.eq_ignore_ascii_case(b"NSEC")
        || text.eq_ignore_ascii_case(b"NSEC3")
        || text.eq_ignore_ascii_case(b"NSEC3PARAM")
        || text.eq_ignore_ascii_case(b"DNSKEY")
        || text.eq_ignore_ascii_case(b"CDS")
        || text.eq_ignore_ascii_case(b"CDNSKEY")
        || text.eq_ignore_ascii_case(b"ZONEMD")
}

/// Whether a text has the number of such a type, or of BIND's own (RFC 3597 section 5).
fn is_signer_number(text: &[u8]) -> bool
    ensures { result ≡ is_signer_number text.now }
{
    text.eq_ignore_ascii_case(b"TYPE46")
        || text.eq_ignore_ascii_case(b"TYPE47")
        || text.eq_ignore_ascii_case(b"TYPE50")
        || text.eq_ignore_ascii_case(b"TYPE51")
        || text.eq_ignore_ascii_case(b"TYPE48")
        || text.eq_ignore_ascii_case(b"TYPE59")
        || text.eq_ignore_ascii_case(b"TYPE60")
        || text.eq_ignore_ascii_case(b"TYPE63")
        || text.eq_ignore_ascii_case(b"TYPE65534")
}

/// Whether a text is the word for a type that a signer makes.
pub(crate) fn is_signer_type(text: &[u8]) -> bool
    ensures { result ≡ is_signer_type text.now }
{
    is_signer_name(text) || is_signer_number(text)
}

/// Whether a text is the word for SVCB or HTTPS, whose data have keys with values (RFC 9460 section 2.1).
pub(crate) fn has_keys(text: &[u8]) -> bool
    ensures { result ≡ has_keys text.now }
{
    text.eq_ignore_ascii_case(b"SVCB")
        || text.eq_ignore_ascii_case(b"HTTPS")
        || text.eq_ignore_ascii_case(b"TYPE64")
        || text.eq_ignore_ascii_case(b"TYPE65")
}

/// The last octet of a text, and 0 of an empty one.
fn last_octet(text: &[u8]) -> u8
    ensures { result ≡ last_octet 0 text.now }
{
    let mut last = 0;
    for octet in text {
        last = *octet;
    }
    last
}

/// Whether the last octet of a text is `=`.
pub(crate) fn ends_with_equals(text: &[u8]) -> bool
    ensures { result ≡ ends_with_equals text.now }
{
    last_octet(text) == b'='
}

/// Whether a text has the number of a kept type (RFC 3597 section 5).
fn is_kept_number(text: &[u8]) -> bool
    ensures { result ≡ is_kept_number text.now }
{
    text.eq_ignore_ascii_case(b"TYPE1")
        || text.eq_ignore_ascii_case(b"TYPE2")
        || text.eq_ignore_ascii_case(b"TYPE5")
        || text.eq_ignore_ascii_case(b"TYPE6")
        || text.eq_ignore_ascii_case(b"TYPE12")
        || text.eq_ignore_ascii_case(b"TYPE15")
        || text.eq_ignore_ascii_case(b"TYPE16")
        || text.eq_ignore_ascii_case(b"TYPE28")
        || text.eq_ignore_ascii_case(b"TYPE33")
        || text.eq_ignore_ascii_case(b"TYPE43")
}

/// Whether an octet may stand in the word for a type.
fn is_type_octet(octet: u8) -> bool
    ensures { result ≡ is_type_octet octet }
{
    octet.is_ascii_alphanumeric() || octet == b'-'
}

/// Whether a text has nothing but such octets.
fn are_type_octets(text: &[u8]) -> bool
    ensures { result ≡ list_all is_type_octet text.now }
{
    text.iter().all(|octet| is_type_octet(*octet))
}

/// Whether the first octet of a text is a letter.
fn begins_with_letter(text: &[u8]) -> bool
    ensures { result ≡ begins_with_letter text.now }
{
    match text {
        [] => false,
        [octet, ..] => octet.is_ascii_alphabetic(),
    }
}

/// Whether a text names a class (RFC 1035 section 3.2.4).
fn is_class(text: &[u8]) -> bool
    ensures { result ≡ is_class text.now }
{
    is_class_in(text) || is_other_class(text)
}

/// Whether a text can be the word for a type that is not kept.
pub(crate) fn is_other_type(text: &[u8]) -> bool
    ensures { result ≡ is_other_type text.now }
{
    begins_with_letter(text)
        && are_type_octets(text)
        && !begins_with_word(b"CLASS", text)
        && !begins_with_word(b"TYPE0", text)
        && !is_kept_number(text)
        && !is_class(text)
}
