//! The parts of a path.

ghost use Rattle.std.specs.Prelude.{◌≡◌, ◌==◌, IfOk};
ghost use Rattle.std.specs.List.{position};
ghost use Rattle.office_wire.specs.Parts.{before_slash, behind_slash, part, decoded_part};

use percent_encoding::percent_decode;
use std::alloc::{AllocError, Global};

/// Where the first slash of a text stands.
fn slash_in(text: &[u8]) -> Option<usize>
    ensures { result ≡ position (λ o. o == 47) text.now }
{
    text.iter().position(|octet| *octet == b'/')
}

/// What stands before the first slash of a text.
fn before_slash(text: &[u8]) -> &[u8]
    ensures { result.now ≡ before_slash text.now }
{
    match slash_in(text) {
        Some(at) => &text[..at],
        None => text,
    }
}

/// What stands after it.
fn behind_slash(text: &[u8]) -> &[u8]
    ensures { result.now ≡ behind_slash text.now }
{
    match slash_in(text) {
        Some(at) => &text[at + 1..],
        None => &[],
    }
}

/// A path, and the path of its route, in which the parts have names.
#[derive(Clone, Copy)]
pub(crate) struct Parts<'a> {
    pub(crate) route: &'a [u8],
    pub(crate) path: &'a [u8],
}

impl<'a> Parts<'a> {
    /// The part of this name, in braces as in the route's path.
    fn get(&self, name: &[u8]) -> &'a [u8]
        ensures { result.now ≡ part self.now.route.now self.now.path.now name.now }
    {
        let mut route = self.route;
        let mut path = self.path;
        while let [octet, rest @ ..] = route {
            if *octet == b'/' {
                path = behind_slash(path);
                if before_slash(rest) == name {
                    return before_slash(path);
                }
            }
            route = rest;
        }
        &[]
    }

    /// The same with its escapes decoded (RFC 3986 section 2.1). The only error is out of memory.
    pub(crate) fn decoded(&self, alloc: Global, name: &str) -> Result<Vec<u8>, AllocError>
        ensures { IfOk result (λ octets. octets.items ≡ decoded_part self.now.route.now self.now.path.now name.now) }
    {
        let mut octets = Vec::new(alloc);
        percent_decode(self.get(name.as_bytes())).append_to(&mut octets)?;
        Ok(octets)
    }
}
