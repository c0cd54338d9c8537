//! The octets that were received and are not answered yet.

ghost use Rattle.std.specs.Prelude.{◌≡◌, ◌<◌, ◌≤◌, ◌++◌, ◌-◌, ℕ, List, [], ◌∷◌, true, vec_len, take, drop, replicate, length, IfOk, OnErr};
ghost use Rattle.std.specs.Io.KnownBytes.{Consumes, IsAtEnd, Keeps};
ghost use Rattle.std.specs.List.{slice_range};
ghost use Rattle.office_wire.specs.Exchange.{Waits};
ghost use Rattle.office_wire.specs.Framing.{WaitsUpTo};
ghost use Rattle.office_wire.specs.Order.{Follows, CountsOnce, read};

use crate::stream::Stream;
use dns_master::DeviceFailed;
use std::alloc::{AllocError, Global};
use std::marker::Model;

/// The room for a head and a body.
const ROOM: usize = 81_920;

/// The octets that were received and are not answered yet. They move to the start of the buffer at a read, and at no other time.
/// The request is incomplete until as many octets are there as are awaited, so that a head is not parsed again for each piece of
/// its body.
#[derive(Drop)]
pub(crate) struct RequestBuffer {
    bytes: Vec<u8>,
    start: usize,
    end: usize,
    awaited: usize,
}

impl Model for RequestBuffer {
    ghost Value = { List ℕ };

    ghost view = { λ s. slice_range s.bytes.items s.start s.end };

    ghost invariant = { λ s. (s.start ≤ s.end) × (s.end ≤ 81920) × (vec_len s.bytes ≡ 81920) × (s.awaited ≤ 81920) × WaitsUpTo (slice_range s.bytes.items s.start s.end) s.awaited };
}

/// Moves the octets of a range to the start, and returns how many they are.
fn to_front(bytes: &mut Vec<u8>, start: usize, end: usize) -> usize
    requires order { start ≤ end }
    requires within { end ≤ vec_len bytes.old }
    ensures front { take result bytes.new.items ≡ slice_range bytes.old.items start end }
    ensures count { result ≡ end - start }
    ensures len { vec_len bytes.new ≡ vec_len bytes.old }
{
    if start == 0 {
        return end;
    }
    bytes.copy_within(start..end, 0);
    end - start
}

impl RequestBuffer {
    /// An empty buffer. The only error is out of memory.
    pub(crate) fn new(alloc: Global) -> Result<RequestBuffer, AllocError>
        ensures { IfOk result (λ buffer. length buffer ≡ 0) }
    {
        let bytes = vec![in alloc; 0; ROOM]?;
        Ok(RequestBuffer {
            bytes,
            start: 0,
            end: 0,
            awaited: 0,
        })
    }

    /// The octets.
    pub(crate) fn as_slice(&self) -> &[u8]
        ensures value { result.now ≡ self.now }
        ensures bound { length result.now ≤ 81920 }
    {
        &self.bytes[self.start..self.end]
    }

    /// Reads once after what is there, and returns how many octets were received: none only at the end.
    pub(crate) fn fill<S: Stream>(&mut self, stream: &mut S) -> Result<usize, DeviceFailed>
        requires { length self.old < 81920 }
        ensures got { IfOk result
            (λ n. (got : List ℕ) × (self.new ≡ self.old ++ got) × (length got ≡ n)
            × Consumes (S.flow stream.old).remaining (S.flow stream.new).remaining got × (n ≡ 0 → IsAtEnd (S.flow stream.new).remaining)
            × (idle : ℕ) × Follows (S.flow stream.old).events (S.flow stream.new).events (replicate idle (read []) ++ read got ∷ [])) }
        ensures kept { OnErr result
            ((self.new ≡ self.old) × Keeps (S.flow stream.old).remaining (S.flow stream.new).remaining
            × (idle : ℕ) × Follows (S.flow stream.old).events (S.flow stream.new).events (replicate idle (read []) ++ [])) }
        ensures failed { CountsOnce result (S.failed_reads stream.old) (S.failed_reads stream.new) }
        ensures same { (S.flow stream.new).contents ≡ (S.flow stream.old).contents }
        ensures still { S.failed_writes stream.new ≡ S.failed_writes stream.old }
        ensures stays { S.keeps stream.old stream.new }
    {
        self.end = to_front(&mut self.bytes, self.start, self.end);
        self.start = 0;
        let got = stream.read_some(&mut self.bytes[self.end..])?;
        self.end += got;
        Ok(got)
    }

    /// Drops the first octets.
    pub(crate) fn consume(&mut self, n: usize)
        requires { n ≤ length self.old }
        ensures { self.new ≡ drop n self.old }
    {
        self.start += n;
        self.awaited = 0;
    }

    /// Drops all octets, as if none had been received.
    pub(crate) fn clear(&mut self)
        ensures { length self.new ≡ 0 }
    {
        self.start = 0;
        self.end = 0;
        self.awaited = 0;
    }

    /// Lets the octets wait until so many are there.
    pub(crate) fn await_octets(&mut self, n: usize)
        requires waits { WaitsUpTo self.old n }
        requires bound { n ≤ 81920 }
        ensures { self.new ≡ self.old }
    {
        self.awaited = n;
    }

    /// Whether fewer octets are there than are awaited.
    pub(crate) fn is_awaiting(&self) -> bool
        ensures { result ≡ true → Waits self.now × (length self.now < 81920) }
    {
        self.end - self.start < self.awaited
    }
}
