//! Items of a master file.

/// An item of a master file (RFC 1035 section 5.1): its octets as they stand there, with escapes unread, and whether it
/// stood in quotes, which are not among them.
#[derive(Clone, Copy)]
pub struct Item<'a> {
    pub raw: &'a [u8],
    pub quoted: bool,
}
