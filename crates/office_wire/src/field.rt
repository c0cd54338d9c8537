//! The fields of a head, by their names.

ghost use Rattle.std.specs.Prelude.{◌≡◌, ◌<◌, ◌∷◌, [], length, map, codes, All, IfSome, MatchOption, option_map, ◌||◌, ◌==◌};
ghost use Rattle.std.specs.List.{list_any};
ghost use Rattle.httparse.specs.Spans.{header_bytes, IsHeaderWithin};
ghost use Rattle.office_wire.specs.Fields.{values_of, is_any, only, is_same_text};
ghost use Rattle.office_wire.specs.Exchange.{closes_by};

use httparse::spans::HeaderSpan;

/// Whether two texts are the same but for the case of their letters.
fn is_same_text(a: &[u8], b: &[u8]) -> bool
    ensures { result ≡ is_same_text a.now b.now }
{
    a.eq_ignore_ascii_case(b)
}

/// The value of the first field of a name, and the fields after it.
pub(crate) fn next_value<'b, 'h>(
    head: &'b [u8],
    fields: &'h [HeaderSpan],
    name: &[u8],
) -> Option<(&'b [u8], &'h [HeaderSpan])>
    requires { All (IsHeaderWithin (length head.now)) fields.now }
    ensures found { MatchOption result (values_of name.now (map (header_bytes head.now) fields.now) ≡ [])
        (λ r. values_of name.now (map (header_bytes head.now) fields.now) ≡ r.0.now ∷ values_of name.now (map (header_bytes head.now) r.1.now)) }
    ensures within { IfSome result (λ r. All (IsHeaderWithin (length head.now)) r.1.now) }
    ensures fewer { IfSome result (λ r. length r.1.now < length fields.now) }
{
    let mut rest = fields;
    while let [field, behind @ ..] = rest {
        if is_same_text(field.name.of(head), name) {
            return Some((field.value.of(head), behind));
        }
        rest = behind;
    }
    None
}

/// Whether there is a field of a name.
pub(crate) fn has_field(head: &[u8], fields: &[HeaderSpan], name: &[u8]) -> bool
    requires { All (IsHeaderWithin (length head.now)) fields.now }
    ensures { result ≡ is_any (values_of name.now (map (header_bytes head.now) fields.now)) }
{
    match next_value(head, fields, name) {
        Some(_) => true,
        None => false,
    }
}

/// The value of the fields of a name, where there is exactly one.
pub(crate) fn only_value<'b>(head: &'b [u8], fields: &[HeaderSpan], name: &[u8]) -> Option<&'b [u8]>
    requires { All (IsHeaderWithin (length head.now)) fields.now }
    ensures { option_map (λ v. v.now) result ≡ only (values_of name.now (map (header_bytes head.now) fields.now)) }
{
    match next_value(head, fields, name) {
        None => None,
        Some((value, rest)) => match next_value(head, rest, name) {
            None => Some(value),
            Some(_) => None,
        },
    }
}

/// Whether a field of a name has this value, in either letter case.
fn has_value(head: &[u8], fields: &[HeaderSpan], name: &[u8], wanted: &[u8]) -> bool
    requires { All (IsHeaderWithin (length head.now)) fields.now }
    ensures { result ≡ list_any (λ v. is_same_text v wanted.now) (values_of name.now (map (header_bytes head.now) fields.now)) }
{
    let mut rest = fields;
    while let Some((value, behind)) = next_value(head, rest, name) {
        if is_same_text(value, wanted) {
            return true;
        }
        rest = behind;
    }
    false
}

/// Whether the response to a head of this minor version is the last (RFC 9112 section 9.3).
pub(crate) fn closes(minor: u8, head: &[u8], fields: &[HeaderSpan]) -> bool
    requires { All (IsHeaderWithin (length head.now)) fields.now }
    ensures { result ≡ closes_by minor (map (header_bytes head.now) fields.now) }
{
    minor == 0 || has_value(head, fields, b"connection", b"close")
}
