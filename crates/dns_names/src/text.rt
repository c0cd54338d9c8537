//! The canonical spelling of names.

ghost use Rattle.std.specs.Prelude.{◌≡◌, ◌≢◌, ◌<◌, [], ◌++◌, Some, IfSome, IfNone};
ghost use Rattle.std.specs.List.{AllPass, flat_map, prefix_len};
ghost use Rattle.std.specs.Fmt.{WritesOnOk};
ghost use Rattle.dns_names.specs.Spelling.{is_special, is_plain, octet_text, label_octets, label_text, name_text};

use crate::labels::Labels;
use crate::name::Name;
use arrayvec::{ArrayString, ArrayVec};
use std::{fmt, str};

/// Whether an octet means something in a master file, so that a backslash stands before it.
fn is_special(octet: u8) -> bool
    ensures { result ≡ is_special octet }
{
    matches!(
        octet,
        b'.' | b'\\' | b'"' | b'(' | b')' | b';' | b'@' | b'$'
    )
}

/// Whether an octet of a label is printed as it stands.
fn is_plain(octet: u8) -> bool
    ensures { result ≡ is_plain octet }
{
    octet.is_ascii_graphic() && !is_special(octet)
}

/// An octet of a label, as it is printed.
pub(crate) fn spelling(octet: u8) -> ArrayVec<u8, 4>
    ensures text { result.items ≡ octet_text octet }
    ensures octet { octet < 256 }
{
    let mut spelling = ArrayVec::new();
    if is_plain(octet) {
        spelling.push(octet);
    } else if is_special(octet) {
        spelling.push(b'\\');
        spelling.push(octet);
    } else {
        spelling.push(b'\\');
        spelling.push(b'0' + octet / 100);
        spelling.push(b'0' + octet / 10 % 10);
        spelling.push(b'0' + octet % 10);
    }
    spelling
}

/// Writes an octet of a label.
fn write_octet<W: fmt::Write>(f: &mut fmt::Formatter<W>, octet: u8) -> fmt::Result
    ensures { WritesOnOk W.write_str_gives f.old result (octet_text octet) f.new }
{
    let spelling = spelling(octet);
    f.write_str(unsafe { str::from_utf8_unchecked(spelling.as_slice()) })
}

/// Octets that are printed as they stand, as text.
fn plain_text(run: &[u8]) -> &str
    requires { AllPass is_plain run.now }
    ensures { result.now ≡ run.now }
{
    unsafe { str::from_utf8_unchecked(run) }
}

/// How many octets at the beginning of a label are printed as they stand.
fn plain_len(label: &[u8]) -> usize
    ensures { result ≡ prefix_len is_plain label.now }
{
    let place = label.iter().position(|octet| !is_plain(*octet));
    place.unwrap_or(label.len())
}

/// Writes the octets of a label.
pub(crate) fn write_octets<W: fmt::Write>(f: &mut fmt::Formatter<W>, label: &[u8]) -> fmt::Result
    ensures { WritesOnOk W.write_str_gives f.old result (label_octets label.now) f.new }
{
    let mut rest = label;
    loop {
        let (run, others) = rest.split_at(plain_len(rest));
        f.write_str(plain_text(run))?;
        let Some((octet, others)) = others.split_first() else {
            return Ok(());
        };
        write_octet(f, *octet)?;
        rest = others;
    }
}

/// Writes a label with a dot after it.
fn write_label<W: fmt::Write>(f: &mut fmt::Formatter<W>, label: &[u8]) -> fmt::Result
    ensures { WritesOnOk W.write_str_gives f.old result (label_text label.now) f.new }
{
    write_octets(f, label)?;
    f.write_str(".")
}

/// The most octets of the text of a name without escapes.
const PLAIN_MAX: usize = 255;

/// Puts a label and a dot after a text, where each octet is printed as it stands and there is room.
fn push_plain(text: &mut ArrayString<PLAIN_MAX>, label: &[u8]) -> Option<()>
    ensures { IfSome result (λ _. text.new.bytes ≡ text.old.bytes ++ label_text label.now) }
{
    if plain_len(label) < label.len() {
        return None;
    }
    let Ok(()) = text.try_push_str(plain_text(label)) else {
        return None;
    };
    let Ok(()) = text.try_push_str(".") else {
        return None;
    };
    Some(())
}

/// The text of labels, where each octet is printed as it stands and there is room for it, which there is for those of a name.
fn plain_labels(labels: Labels<'_>) -> Option<ArrayString<PLAIN_MAX>>
    ensures some { IfSome result (λ text. text.bytes ≡ flat_map label_text labels.entry) }
    ensures none { IfNone result (labels.entry ≢ []) }
{
    let mut labels = labels;
    let mut text = ArrayString::new();
    while let Some(label) = labels.next() {
        push_plain(&mut text, label)?;
    }
    Some(text)
}

/// Writes labels with a dot after each.
fn write_labels<W: fmt::Write>(f: &mut fmt::Formatter<W>, labels: Labels<'_>) -> fmt::Result
    ensures { WritesOnOk W.write_str_gives f.old result (flat_map label_text labels.entry) f.new }
{
    for label in labels {
        write_label(f, label)?;
    }
    Ok(())
}

impl fmt::Display for Name {
    ghost output = { λ n. Some (name_text n) };

    fn fmt<W: fmt::Write>(&self, f: &mut fmt::Formatter<W>) -> fmt::Result {
        match plain_labels(self.labels()) {
            // most names of a zone are written at once
            Some(text) if !text.is_empty() => f.write_str(text.as_str()),
            // the root has no label
            Some(_) => f.write_str("."),
            None => write_labels(f, self.labels()),
        }
    }
}
