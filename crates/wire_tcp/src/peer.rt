//! The peers of connections.

ghost use Rattle.std.specs.Prelude.{◌≡◌, ◌<◌, ℕ, List, [], ◌∷◌, Option, None, option_map, length};
ghost use Rattle.std.specs.Duration.{as_nanos};
ghost use Rattle.std.specs.Io.{ReadsAtMost, WritesAtMost};
ghost use Rattle.office_wire.specs.Order.{Flow as FlowOf, Follows, ReadsOnce, WritesOnce, read_by, written_by};
ghost use Rattle.wire_tcp.specs.Waits.{Times as TimesOf, clock as reading_of, made, outcome, reading, writing};

use std::io::{self, Read, Write};
use std::net::TcpStream;
use std::time::{Clock, Duration};

/// What tells the age of a connection, by a clock.
pub trait Watch {
    /// Its readings so far, in nanoseconds since some start, where they are known; none where the clock could not be read.
    ghost readings: { Self → Option (List (Option ℕ)) };

    /// The time since some start, unless the clock cannot be read.
    fn now<C: Clock>(&mut self, clock: &C) -> Option<Duration>
        ensures { Follows (readings self.old) (readings self.new) (option_map as_nanos result ∷ []) };
}

/// Who sends requests and takes responses. Each read and each write waits at most as long as it is asked to. What is read of the clock
/// meanwhile is noted with them.
pub trait Peer {
    /// What tells the age of its connection.
    type Watch: Watch + Drop;

    /// What is still to come from it, what was written to it, and the reads and writes so far, each where it is known.
    ghost flow: { Self → FlowOf };

    /// The limits of these reads and writes and the readings of the clock between them, and those by which its age was told.
    ghost times: { Self → TimesOf };

    /// The time since some start, unless the clock cannot be read.
    fn now<C: Clock>(&mut self, clock: &C) -> Option<Duration>
        ensures noted { Follows (times self.old).waits (times self.new).waits (reading_of (option_map as_nanos result) ∷ []) }
        ensures ages { (times self.new).ages ≡ (times self.old).ages }
        ensures flow { flow self.new ≡ flow self.old };

    /// Reads once, into a slice that is not empty, and answers how many octets came: none only at the end.
    fn read_within(&mut self, buffer: &mut [u8], limit: Option<Duration>) -> io::Result<usize>
        requires { 0 < length buffer.old }
        ensures bound { ReadsAtMost result buffer.new }
        ensures read { ReadsOnce (flow self.old) (flow self.new) result buffer.new }
        ensures once { Follows (flow self.old).events (flow self.new).events (read_by result buffer.new ∷ []) }
        ensures limited { Follows (times self.old).waits (times self.new).waits (made reading (option_map as_nanos limit) (outcome result) ∷ []) }
        ensures ages { (times self.new).ages ≡ (times self.old).ages };

    /// Writes once, a prefix of a slice that is not empty, and answers how many octets were taken.
    fn write_within(&mut self, octets: &[u8], limit: Option<Duration>) -> io::Result<usize>
        requires { 0 < length octets.now }
        ensures bound { WritesAtMost result octets.now }
        ensures written { WritesOnce (flow self.old) (flow self.new) result octets.now }
        ensures once { Follows (flow self.old).events (flow self.new).events (written_by result octets.now ∷ []) }
        ensures limited { Follows (times self.old).waits (times self.new).waits (made writing (option_map as_nanos limit) (outcome result) ∷ []) }
        ensures ages { (times self.new).ages ≡ (times self.old).ages };

    /// Hands out what tells the age of the connection.
    fn take_watch(&mut self) -> Self::Watch
        ensures watch { Self.Watch.Watch.readings result ≡ (times self.old).ages }
        ensures waits { (times self.new).waits ≡ (times self.old).waits }
        ensures flow { flow self.new ≡ flow self.old };

    /// Takes it back.
    fn put_watch(&mut self, watch: Self::Watch)
        ensures ages { (times self.new).ages ≡ Self.Watch.Watch.readings watch }
        ensures waits { (times self.new).waits ≡ (times self.old).waits }
        ensures flow { flow self.new ≡ flow self.old };
}

/// A clock's readings, of which nothing is known.
#[derive(Clone, Copy, Drop)]
pub struct Unnoted;

impl Watch for Unnoted {
    ghost readings = { λ _. None };

    fn now<C: Clock>(&mut self, clock: &C) -> Option<Duration> {
        clock.monotonic().ok()
    }
}

/// A peer of whose octets nothing is known.
impl Peer for TcpStream {
    type Watch = Unnoted;

    ghost flow = { λ _. record { remaining = None; contents = None; events = None } };

    ghost times = { λ _. record { waits = None; ages = None } };

    fn now<C: Clock>(&mut self, clock: &C) -> Option<Duration> {
        clock.monotonic().ok()
    }

    fn read_within(&mut self, buffer: &mut [u8], limit: Option<Duration>) -> io::Result<usize> {
        self.set_read_timeout(limit)?;
        self.read(buffer)
    }

    fn write_within(&mut self, octets: &[u8], limit: Option<Duration>) -> io::Result<usize> {
        self.set_write_timeout(limit)?;
        self.write(octets)
    }

    fn take_watch(&mut self) -> Unnoted {
        Unnoted
    }

    fn put_watch(&mut self, _watch: Unnoted) {}
}
