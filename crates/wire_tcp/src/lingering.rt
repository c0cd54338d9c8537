//! What a peer still sends after the last response. A socket that is closed before all of it is read takes back responses that the peer
//! has not read yet (RFC 9112 section 9.6).

ghost use Rattle.std.specs.Prelude.{◌≡◌, ◌<◌};
ghost use Rattle.wire_tcp.specs.Lingering.{Drops};

use crate::pace::Age;
use dns_master::{Counted, Source};
use std::io::{self, Read};
use std::marker::Brand;
use std::net::{Shutdown, TcpStream};
use std::sync::ledger::{Blank, Ledger};
use std::time::{Clock, Duration};

/// For how many seconds it is read.
const LONGEST: u64 = 1;

/// The most octets of it that are read.
const MOST: usize = 1_048_576;

/// A stream that is read until its time is over.
#[derive(Drop)]
struct Rest<'a, C: Clock> {
    stream: &'a TcpStream,
    clock: &'a C,
    age: Age,
}

impl<C: Clock> Read for &Rest<'_, C> {
    fn read(&mut self, buffer: &mut [u8]) -> io::Result<usize> {
        let now = self.clock.monotonic().ok();
        self.stream.set_read_timeout(self.age.left(now))?;
        let mut stream = self.stream;
        stream.read(buffer)
    }
}

/// Reads octets and drops them, so many at most, until there are no more or the reader fails.
fn drop_rest<R: Source>(reader: &mut R, most: usize)
    ensures { Drops most (R.remaining reader.old) (R.remaining reader.new) (R.failures reader.old) (R.failures reader.new) }
{
    let mut octets = [0; 4096];
    let mut left = most;
    while left > 0 {
        let room = left.min(octets.len());
        match reader.read_some(&mut octets[..room]) {
            Ok(0) | Err(_) => return,
            Ok(count) => left -= count,
        }
    }
}

/// Reads the rest of a stream and drops it, as far as the limits let it.
fn drop_counted<C: Clock, L: Ledger>(rest: &Rest<'_, C>, blank: Blank)
    requires name { blank.name ≡ L.name }
    requires parts { blank.parts ≡ L.parts }
    requires some { 0 < blank.parts }
{
    let mut reader: Counted<&Rest<'_, C>, L> = Counted::new(rest, blank);
    drop_rest(&mut reader, MOST);
}

/// Says that nothing follows the last response, and takes what the peer still sends until it ends too, for one second and 1 MiB at most.
/// A failure is nothing to report: the responses were written.
pub fn linger<C: Clock>(stream: &TcpStream, clock: &C) {
    if stream.shutdown(Shutdown::Write).is_ok() {
        let age = Age {
            begun: clock.monotonic().ok(),
            longest: Some(Duration::from_secs(LONGEST)),
        };
        let rest = Rest { stream, clock, age };
        drop_counted::<C, Brand>(&rest, Blank::new(1));
    }
}
