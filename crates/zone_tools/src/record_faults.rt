//! What is wrong with a record by itself.

ghost use Rattle.std.specs.Prelude.{◌≡◌, ◌==◌, ◌&&◌, length, is_some};
ghost use Rattle.std.specs.List.{list_all, list_any};
ghost use Rattle.zone_tools.specs.ReverseNames.{octet_of};
ghost use Rattle.zone_tools.specs.RecordFaults.{is_wildcard_server, has_length, is_fit_digest, is_sha1, is_address_name, points_to_address, is_unread, is_unread_name, has_unread_name, is_unread_record};

use crate::host_names::is_wildcard;
use crate::reverse_blocks::octet_of;
use dns_data::{Data, Record};
use dns_names::{Labels, Name};

/// Whether a record is an NS at a wildcard (RFC 4592 section 4.2).
pub(crate) fn is_wildcard_server(owner: &Name, rdata: &Data) -> bool
    ensures { result ≡ is_wildcard_server owner.now rdata.now }
{
    match rdata {
        Data::Ns(_) => is_wildcard(owner),
        _ => false,
    }
}

/// Whether a digest of a type has its length: SHA-1, SHA-256 and SHA-384 (RFC 4034 appendix A.2, RFC 4509 section 2.1, RFC 6605
/// section 2).
fn has_length(digest_type: u8, digest: &[u8]) -> bool
    ensures { result ≡ has_length digest_type digest.now }
{
    match digest_type {
        1 => digest.len() == 20,
        2 => digest.len() == 32,
        4 => digest.len() == 48,
        _ => true,
    }
}

/// Whether the digest of a DS has the length of its type.
pub(crate) fn is_fit_digest(rdata: &Data) -> bool
    ensures { result ≡ is_fit_digest rdata.now }
{
    match rdata {
        Data::Ds {
            digest_type,
            digest,
            ..
        } => has_length(*digest_type, digest.octets()),
        _ => true,
    }
}

/// Whether data are a DS with a digest of SHA-1 (RFC 8624 section 3.3).
pub(crate) fn is_sha1(rdata: &Data) -> bool
    ensures { result ≡ is_sha1 rdata.now }
{
    match rdata {
        Data::Ds { digest_type, .. } => *digest_type == 1,
        _ => false,
    }
}

/// Whether all of labels are octets in decimal.
fn are_octets(mut labels: Labels<'_>) -> bool
    ensures { result ≡ list_all (λ label. is_some (octet_of label)) labels.entry }
{
    labels.all(|label| octet_of(label).is_some())
}

/// Whether a name has four labels.
fn has_four_labels(name: &Name) -> bool
    ensures { result ≡ (length name.now == 4) }
{
    name.labels().count() == 4
}

/// Whether the labels of a name are the octets of an IPv4 address, in decimal.
fn is_address_name(name: &Name) -> bool
    ensures { result ≡ is_address_name name.now }
{
    has_four_labels(name) && are_octets(name.labels())
}

/// Whether data point to a name that is an IPv4 address.
pub(crate) fn points_to_address(rdata: &Data) -> bool
    ensures { result ≡ points_to_address rdata.now }
{
    match rdata {
        Data::Ns(name) | Data::Cname(name) | Data::Ptr(name) => is_address_name(name),
        Data::Mx { exchange, .. } => is_address_name(exchange),
        Data::Srv { target, .. } => is_address_name(target),
        _ => false,
    }
}

/// Whether an octet is printed as it stands, and Knot does not read it so.
fn is_unread(octet: u8) -> bool
    ensures { result ≡ is_unread octet }
{
    matches!(
        octet,
        b'!' | b'#'
            | b'%'
            | b'&'
            | b'\''
            | b'+'
            | b','
            | b':'
            | b'<'
            | b'='
            | b'>'
            | b'?'
            | b'['
            | b']'
            | b'^'
            | b'`'
            | b'{'
            | b'|'
            | b'}'
            | b'~'
    )
}

/// Whether a label has such an octet.
fn is_unread_label(label: &[u8]) -> bool
    ensures { result ≡ list_any is_unread label.now }
{
    label.iter().any(|octet| is_unread(*octet))
}

/// Whether a name has one.
fn is_unread_name(name: &Name) -> bool
    ensures { result ≡ is_unread_name name.now }
{
    let mut labels = name.labels();
    labels.any(is_unread_label)
}

/// Whether data have such a name.
fn has_unread_name(rdata: &Data) -> bool
    ensures { result ≡ has_unread_name rdata.now }
{
    match rdata {
        Data::Ns(name) | Data::Cname(name) | Data::Ptr(name) => is_unread_name(name),
        Data::Soa(soa) => is_unread_name(&soa.fields().mname)
            || is_unread_name(&soa.fields().rname),
        Data::Mx { exchange, .. } => is_unread_name(exchange),
        Data::Srv { target, .. } => is_unread_name(target),
        _ => false,
    }
}

/// Whether a record has one.
pub(crate) fn is_unread_record(rr: &Record) -> bool
    ensures { result ≡ is_unread_record rr.now }
{
    is_unread_name(&rr.owner) || has_unread_name(&rr.rdata)
}
