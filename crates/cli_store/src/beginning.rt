//! The beginning of an input.

use std::alloc::Global;

/// The most octets that are kept: as many as are read at a time, so that a long input costs no more memory.
const KEPT_MAX: usize = 65_536;

/// The first 65,536 octets of an input, for what is said of it later. If memory is short they are fewer.
#[derive(Drop)]
pub(crate) struct Beginning {
    octets: Vec<u8>,
    /// How many more are kept.
    room: usize,
}

impl Beginning {
    /// The beginning of an input of which nothing was read yet.
    pub(crate) fn new(alloc: Global) -> Beginning {
        Beginning {
            octets: Vec::new(alloc),
            room: KEPT_MAX,
        }
    }

    /// Keeps the octets that were read next, as many as there is room for.
    pub(crate) fn keep(&mut self, octets: &[u8]) {
        let fitting = octets.get(..self.room).unwrap_or(octets);
        self.room = match self.octets.extend_from_slice(fitting) {
            Ok(()) => self.room.saturating_sub(fitting.len()),
            Err(_) => 0,
        };
    }

    /// The octets that were kept, up to their last line end if there may be more.
    pub(crate) fn octets(&self) -> &[u8] {
        if self.room > 0 {
            return &self.octets;
        }
        let last = self.octets.iter().rposition(|octet| *octet == b'\n');
        let end = last.map_or(0, |at| at.saturating_add(1));
        self.octets.get(..end).unwrap_or(&[])
    }
}
