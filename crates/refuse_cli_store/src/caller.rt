//! A caller in memory.

ghost use Rattle.std.specs.Prelude.{Some, None, drop};

use dns_master::Pieces;
use std::alloc::Global;
use std::io::{self, Read, Write};
use std::time::{Clock, Duration};
use wire_tcp::{Peer, Unnoted};

/// A caller in memory.
#[derive(Drop)]
pub struct Caller {
    /// What it sends.
    pub sent: Pieces,
    /// What it was sent.
    pub got: Pieces,
}

impl Peer for Caller {
    type Watch = Unnoted;

    ghost flow = { λ c. record { remaining = Some (drop c.sent.read c.sent.octets.items); contents = Some c.got.octets.items; events = None } };

    ghost times = { λ _. record { waits = None; ages = None } };

    fn now<C: Clock>(&mut self, clock: &C) -> Option<Duration> {
        clock.monotonic().ok()
    }

    fn read_within(&mut self, buffer: &mut [u8], _limit: Option<Duration>) -> io::Result<usize> {
        self.sent.read(buffer)
    }

    fn write_within(&mut self, octets: &[u8], _limit: Option<Duration>) -> io::Result<usize> {
        self.got.write(octets)
    }

    fn take_watch(&mut self) -> Unnoted {
        Unnoted
    }

    fn put_watch(&mut self, _watch: Unnoted) {}
}

impl Caller {
    /// Nobody: a caller that sends nothing.
    pub fn nobody(alloc: Global) -> Caller {
        Caller {
            sent: Pieces::new(Vec::new(alloc), 0, 0),
            got: Pieces::new(Vec::new(alloc), 0, 0),
        }
    }
}
