//! The canonical text of record data.

ghost use Rattle.std.specs.Prelude.{◌≡◌, ◌≤◌, ◌<◌, ◌*◌, ◌∷◌, ◌++◌, [], length, true, false, Some, IfSome, IfOk, string_bytes, ◌==◌, ◌||◌};
ghost use Rattle.std.specs.List.{AllByRecursion, position};
ghost use Rattle.std.specs.Fmt.{WritesOnOk};
ghost use Rattle.hex.specs.Hex.{encode_lower};
ghost use Rattle.dns_data.specs.Items.{items_text};
ghost use Rattle.dns_data.specs.Again.{ReadsBack, IsTextOfOnly};
ghost use Rattle.dns_data.specs.Strings.{is_escaped, octet_text, string_text};
ghost use Rattle.dns_data.specs.Text.{strings_items, data_text};

use crate::ds::Digest;
use crate::rdata::Data;
use crate::soa::Soa;
use crate::strings::{CharacterString, Strings};
use arrayvec::ArrayVec;
use dns_names::Name;
use std::alloc::{AllocError, Global};
use std::{fmt, str};

/// Whether an octet means something within quotes, so that a backslash stands before it.
fn ends_quotes(octet: u8) -> bool
    ensures { result ≡ (octet == 34 || octet == 92) }
{
    matches!(octet, b'"' | b'\\')
}

/// Whether an octet does not stand for itself within quotes.
fn is_escaped(octet: u8) -> bool
    ensures { result ≡ is_escaped octet }
{
    !matches!(octet, b' '..=b'~') || ends_quotes(octet)
}

/// Where the first octet is that does not stand for itself within quotes.
fn first_escaped(octets: &[u8]) -> Option<usize>
    ensures value { result ≡ position is_escaped octets.now }
    ensures within { IfSome result (λ at. at < length octets.now) }
{
    octets.iter().position(|octet| is_escaped(*octet))
}

/// Writes octets that stand for themselves within quotes.
fn write_run<W: fmt::Write>(f: &mut fmt::Formatter<W>, octets: &[u8]) -> fmt::Result
    requires { AllByRecursion (λ o. is_escaped o ≡ false) octets.now }
    ensures { WritesOnOk W.write_str_gives f.old result octets.now f.new }
{
    f.write_str(unsafe { str::from_utf8_unchecked(octets) })
}

/// An octet of a character-string, as it is printed.
pub(crate) fn spelling(octet: u8) -> ArrayVec<u8, 4>
    ensures text { result.items ≡ octet_text octet }
    ensures octet { octet < 256 }
{
    let mut spelling = ArrayVec::new();
    if !is_escaped(octet) {
        spelling.push(octet);
    } else if ends_quotes(octet) {
        spelling.push(b'\\');
        spelling.push(octet);
    } else {
        spelling.push(b'\\');
        spelling.push(b'0' + octet / 100);
        spelling.push(b'0' + octet / 10 % 10);
        spelling.push(b'0' + octet % 10);
    }
    spelling
}

/// Writes an octet as it is printed within quotes.
fn write_octet<W: fmt::Write>(f: &mut fmt::Formatter<W>, octet: u8) -> fmt::Result
    ensures { WritesOnOk W.write_str_gives f.old result (octet_text octet) f.new }
{
    let spelling = spelling(octet);
    f.write_str(unsafe { str::from_utf8_unchecked(spelling.as_slice()) })
}

/// Octets that stand for themselves go out in runs, each in one piece.
impl fmt::Display for CharacterString {
    ghost output = { λ x. Some (34 ∷ string_text x ++ 34 ∷ []) };

    fn fmt<W: fmt::Write>(&self, f: &mut fmt::Formatter<W>) -> fmt::Result {
        f.write_str("\"")?;
        let mut rest = self.octets();
        while let Some(at) = first_escaped(rest) {
            write_run(f, &rest[..at])?;
            write_octet(f, rest[at])?;
            rest = &rest[at + 1..];
        }
        write_run(f, rest)?;
        f.write_str("\"")
    }
}

impl fmt::Display for Strings {
    ghost output = { λ x. Some (items_text (strings_items x)) };

    fn fmt<W: fmt::Write>(&self, f: &mut fmt::Formatter<W>) -> fmt::Result {
        let [first, others @ ..] = self.as_slice() else {
            return Ok(());
        };
        write!(f, "{first}")?;
        for string in others {
            write!(f, " {string}")?;
        }
        Ok(())
    }
}

impl fmt::Display for Soa {
    ghost use Rattle.dns_data.specs.declared.rdata.Data.{Data};

    ghost output = { λ x. Some (data_text (Data.Soa x)) };

    fn fmt<W: fmt::Write>(&self, f: &mut fmt::Formatter<W>) -> fmt::Result {
        let soa = self.fields();
        write!(f, "{} {} {}", soa.mname, soa.rname, soa.serial.0)?;
        write!(
            f,
            " {} {} {} {}",
            soa.refresh.0, soa.retry.0, soa.expire.0, soa.minimum.0
        )
    }
}

/// The most octets whose digits are written at once.
const DIGITS_AT_ONCE: usize = 64;

/// Fills a slice with the hexadecimal digits of half as many octets, in lower case.
fn put_digits(octets: &[u8], digits: &mut [u8])
    requires { length digits.old ≡ 2 * length octets.now }
    ensures { digits.new ≡ encode_lower octets.now }
{
    // it fails at another length alone
    let _ = hex::encode_to_slice(octets, digits);
}

/// Writes the hexadecimal digits of a few octets, in lower case.
fn write_digits<W: fmt::Write>(f: &mut fmt::Formatter<W>, octets: &[u8]) -> fmt::Result
    requires { length octets.now ≤ 64 }
    ensures { WritesOnOk W.write_str_gives f.old result (encode_lower octets.now) f.new }
{
    let mut room = [0; 2 * DIGITS_AT_ONCE];
    let digits = &mut room[..2 * octets.len()];
    put_digits(octets, digits);
    f.write_str(unsafe { str::from_utf8_unchecked(digits) })
}

/// The digits in lower case.
impl fmt::Display for Digest {
    ghost output = { λ x. Some (encode_lower x) };

    fn fmt<W: fmt::Write>(&self, f: &mut fmt::Formatter<W>) -> fmt::Result {
        let mut rest = self.octets();
        while !rest.is_empty() {
            let (front, after) = rest.split_at(rest.len().min(DIGITS_AT_ONCE));
            write_digits(f, front)?;
            rest = after;
        }
        Ok(())
    }
}

/// Writes the data of an SRV.
fn write_service<W: fmt::Write>(
    f: &mut fmt::Formatter<W>,
    priority: u16,
    weight: u16,
    port: u16,
    target: &Name,
) -> fmt::Result
    ensures { WritesOnOk W.write_str_gives f.old result (data_text (Data.Srv priority weight port target.now)) f.new }
{
    write!(f, "{priority} {weight} {port} {target}")
}

/// Writes the data of a DS.
fn write_delegation_signer<W: fmt::Write>(
    f: &mut fmt::Formatter<W>,
    key_tag: u16,
    algorithm: u8,
    digest_type: u8,
    digest: &Digest,
) -> fmt::Result
    ensures { WritesOnOk W.write_str_gives f.old result (data_text (Data.Ds key_tag algorithm digest_type digest.now)) f.new }
{
    write!(f, "{key_tag} {algorithm} {digest_type} {digest}")
}

impl fmt::Display for Data {
    ghost output = { λ x. Some (data_text x) };

    fn fmt<W: fmt::Write>(&self, f: &mut fmt::Formatter<W>) -> fmt::Result {
        match self {
            Data::A(address) => write!(f, "{address}"),
            Data::Ns(name) | Data::Cname(name) | Data::Ptr(name) => write!(f, "{name}"),
            Data::Soa(soa) => write!(f, "{soa}"),
            Data::Mx {
                preference,
                exchange,
            } => write!(f, "{preference} {exchange}"),
            Data::Txt(strings) => write!(f, "{strings}"),
            Data::Aaaa(address) => write!(f, "{}", address.hex_groups()),
            Data::Srv {
                priority,
                weight,
                port,
                target,
            } => write_service(f, *priority, *weight, *port, target),
            Data::Ds {
                key_tag,
                algorithm,
                digest_type,
                digest,
            } => write_delegation_signer(f, *key_tag, *algorithm, *digest_type, digest),
        }
    }
}

/// The data in their one canonical text: fields joined by one space, numbers without leading zeros, names in their
/// canonical spelling, an IPv6 address as RFC 5952 section 4 has it with no dotted tail, a digest in lower case as one item,
/// and character-strings in quotes, in which `"` and `\` have a backslash before them, other octets from 32 to 126 stand
/// plain, and all others are `\DDD`.
/// The only error is out of memory.
pub fn data_text(alloc: Global, rdata: &Data) -> Result<String, AllocError>
    ensures canonical { IfOk result (λ text. string_bytes text ≡ data_text rdata.now) }
    // Its items, read again, are the data.
    ensures again { IfOk result (λ text. ReadsBack rdata.now) }
    // No other data of its type have this text.
    ensures apart { IfOk result (λ text. IsTextOfOnly (string_bytes text) rdata.now) }
{
    // the proof needs that these are data
    let _ = rdata.record_type();
    rdata.to_string(alloc)
}
