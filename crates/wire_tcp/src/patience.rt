//! Connections whose peers are waited for, but not for ever.

ghost use Rattle.std.specs.Prelude.{◌↔◌, ◌≡◌, ◌<◌, [], ◌∷◌, IsTrue, IsErrAnd, option_map, length};
ghost use Rattle.std.specs.Duration.{as_nanos};
ghost use Rattle.std.specs.Io.{ReadsAtMost, WritesAtMost};
ghost use Rattle.std.specs.IoError.{error_kind};
ghost use Rattle.office_wire.specs.Order.{Follows, ReadsOnce, WritesOnce};
ghost use Rattle.std.proofs.Common.{◌∙◌, refl, subst};
ghost use Rattle.wire_tcp.specs.declared.pace.Awaited.TheVariants.{First};
ghost use Rattle.wire_tcp.specs.declared.pace.Pace.{Pace as PaceOf};
ghost use Rattle.wire_tcp.specs.Waits.{clock as reading_of, reading, writing};
ghost use Rattle.wire_tcp.specs.Tries.{IsOnce, IsTry};
ghost use Rattle.wire_tcp.specs.Trials.{AreTriedSince, tried_none, tried_join};
ghost use Rattle.wire_tcp.specs.Deadlines.{ArePaced, paced_none, paced_join};

use crate::pace::{Age, Awaited, Pace, Running, between};
use crate::peer::Peer;
use dns_master::DeviceFailed;
use office_wire::Stream;
use std::io::{self, ErrorKind};
use std::sync::ledger::{Blank, Book, Ledger, Share};
use std::time::{Clock, Duration};

/// How often in a row a read or a write is begun again that a signal has cut short. A process that is stopped and goes on, as for a
/// backup, has its waits cut short so, where they have a limit (signal(7)).
const INTERRUPTIONS: u32 = 1_000;

/// Whether a signal has cut a read or a write short.
fn is_interrupted(done: &io::Result<usize>) -> bool
    ensures { IsTrue result ↔ IsErrAnd done.now (λ e. error_kind e ≡ ErrorKind.Interrupted) }
{
    match done {
        Ok(_) => false,
        Err(fault) => fault.kind() == ErrorKind::Interrupted,
    }
}

/// A stream whose reads and writes fail once its peer has been waited for too long: for a request to begin, for the rest of one that has
/// begun, or for what is written to be taken. Only the time spent in waiting counts, and it counts anew for each of the three. A request
/// after the first is not waited for beyond the age that the connection gets.
#[derive(Drop)]
pub(crate) struct PatientStream<'a, P, C: Clock, L: Ledger> {
    peer: P,
    clock: &'a C,
    pace: Pace,
    running: Running,
    book: Book<L>,
    reads: Share<L>,
    writes: Share<L>,
    ghost counts_reads: { 0 < reads.parts },
    ghost counts_writes: { 0 < writes.parts },
}

impl<'a, P: Peer, C: Clock, L: Ledger> PatientStream<'a, P, C, L> {
    /// The stream of a peer that has just connected.
    pub(crate) fn new(
        peer: P,
        clock: &'a C,
        patience: Option<Duration>,
        longest: Option<Duration>,
        blank: Blank,
    ) -> PatientStream<'a, P, C, L>
        requires name { blank.name ≡ L.name }
        requires parts { blank.parts ≡ L.parts }
        requires some { 1 < blank.parts }
        ensures flow { P.flow result.peer ≡ P.flow peer }
        ensures ages { (P.times result.peer).ages ≡ (P.times peer).ages }
        ensures connected { Follows (P.times peer).waits (P.times result.peer).waits (reading_of (option_map as_nanos result.pace.age.begun) ∷ []) }
        ensures patience { result.pace.patience ≡ patience }
        ensures longest { result.pace.age.longest ≡ longest }
        ensures first { result.running.awaited ≡ First }
        ensures left { result.running.left ≡ patience }
        ensures reads { result.reads.amount ≡ 0 }
        ensures writes { result.writes.amount ≡ 0 }
    {
        let mut peer = peer;
        let begun = peer.now(clock);
        let (book, mut reads) = blank.open::<L>();
        let writes = reads.split_off(1, 0);
        PatientStream {
            peer,
            clock,
            pace: Pace {
                patience,
                age: Age { begun, longest },
            },
            running: Running {
                awaited: Awaited::First,
                left: patience,
            },
            book,
            reads,
            writes,
        }
    }

    /// The peer.
    pub(crate) fn into_peer(self) -> P
        ensures { result ≡ self.entry.peer }
    {
        self.peer
    }

    /// Reads once. Where nothing is left to wait that is an error.
    fn read_once(&mut self, buffer: &mut [u8]) -> io::Result<usize>
        requires { 0 < length buffer.old }
        ensures bound { ReadsAtMost result buffer.new }
        ensures read { ReadsOnce (P.flow self.old.peer) (P.flow self.new.peer) result buffer.new }
        ensures paced { ArePaced self.old.pace self.old.running self.new.running (P.times self.old.peer).waits (P.times self.new.peer).waits }
        ensures once { IsOnce reading result (P.times self.old.peer).waits (P.times self.new.peer).waits }
        ensures ages { (P.times self.new.peer).ages ≡ (P.times self.old.peer).ages }
        ensures pace { self.new.pace ≡ self.old.pace }
        ensures reads { self.new.reads ≡ self.old.reads }
        ensures writes { self.new.writes ≡ self.old.writes }
    {
        let running = self.running.while_reading(self.pace.patience);
        let begun = self.peer.now(self.clock);
        let limit = self.pace.limit(running, begun);
        let read = self.peer.read_within(buffer, limit);
        let ended = self.peer.now(self.clock);
        self.running = running.after(between(begun, ended), read.is_ok(), self.pace.patience);
        read
    }

    /// Writes once. Where nothing is left to wait that is an error.
    fn write_once(&mut self, octets: &[u8]) -> io::Result<usize>
        requires { 0 < length octets.now }
        ensures bound { WritesAtMost result octets.now }
        ensures written { WritesOnce (P.flow self.old.peer) (P.flow self.new.peer) result octets.now }
        ensures paced { ArePaced self.old.pace self.old.running self.new.running (P.times self.old.peer).waits (P.times self.new.peer).waits }
        ensures once { IsOnce writing result (P.times self.old.peer).waits (P.times self.new.peer).waits }
        ensures ages { (P.times self.new.peer).ages ≡ (P.times self.old.peer).ages }
        ensures pace { self.new.pace ≡ self.old.pace }
        ensures reads { self.new.reads ≡ self.old.reads }
        ensures writes { self.new.writes ≡ self.old.writes }
    {
        let running = self.running.while_writing(self.pace.patience);
        let begun = self.peer.now(self.clock);
        let limit = self.pace.limit(running, begun);
        let written = self.peer.write_within(octets, limit);
        let ended = self.peer.now(self.clock);
        self.running = running.after(between(begun, ended), written.is_ok(), self.pace.patience);
        written
    }

    /// Reads, again where a signal has cut it short.
    fn read_again(&mut self, buffer: &mut [u8]) -> io::Result<usize>
        requires { 0 < length buffer.old }
        ensures bound { ReadsAtMost result buffer.new }
        ensures read { ReadsOnce (P.flow self.old.peer) (P.flow self.new.peer) result buffer.new }
        ensures paced { ArePaced self.old.pace self.old.running self.new.running (P.times self.old.peer).waits (P.times self.new.peer).waits }
        ensures tried { IsTry reading result (P.times self.old.peer).waits (P.times self.new.peer).waits }
        ensures ages { (P.times self.new.peer).ages ≡ (P.times self.old.peer).ages }
        ensures pace { self.new.pace ≡ self.old.pace }
        ensures reads { self.new.reads ≡ self.old.reads }
        ensures writes { self.new.writes ≡ self.old.writes }
    {
        'cut: for _ in 0..INTERRUPTIONS {
            let read = self.read_once(buffer);
            if !is_interrupted(&read) {
                return read;
            }
        }
        self.read_once(buffer)
    }

    /// Writes, again where a signal has cut it short.
    fn write_again(&mut self, octets: &[u8]) -> io::Result<usize>
        requires { 0 < length octets.now }
        ensures bound { WritesAtMost result octets.now }
        ensures written { WritesOnce (P.flow self.old.peer) (P.flow self.new.peer) result octets.now }
        ensures paced { ArePaced self.old.pace self.old.running self.new.running (P.times self.old.peer).waits (P.times self.new.peer).waits }
        ensures tried { IsTry writing result (P.times self.old.peer).waits (P.times self.new.peer).waits }
        ensures ages { (P.times self.new.peer).ages ≡ (P.times self.old.peer).ages }
        ensures pace { self.new.pace ≡ self.old.pace }
        ensures reads { self.new.reads ≡ self.old.reads }
        ensures writes { self.new.writes ≡ self.old.writes }
    {
        'cut: for _ in 0..INTERRUPTIONS {
            let written = self.write_once(octets);
            if !is_interrupted(&written) {
                return written;
            }
        }
        self.write_once(octets)
    }
}

impl<P: Peer, C: Clock, L: Ledger> Stream for PatientStream<'_, P, C, L> {
    ghost flow = { λ s. P.flow s.peer };

    ghost failed_reads = { λ s. s.reads.amount };

    ghost failed_writes = { λ s. s.writes.amount };

    ghost keeps = { λ s t. (t.pace ≡ s.pace) × ArePaced s.pace s.running t.running (P.times s.peer).waits (P.times t.peer).waits × ((P.times t.peer).ages ≡ (P.times s.peer).ages)
        × AreTriedSince s.reads.amount t.reads.amount s.writes.amount t.writes.amount (P.times s.peer).waits (P.times t.peer).waits };

    fn read_some(&mut self, buffer: &mut [u8]) -> Result<usize, DeviceFailed> {
        match self.read_again(buffer) {
            Ok(count) => Ok(count),
            Err(_) => {
                self.book.add(&mut self.reads, 1);
                Err(DeviceFailed)
            }
        }
    }

    fn write_some(&mut self, octets: &[u8]) -> Result<usize, DeviceFailed> {
        match self.write_again(octets) {
            // a write that takes nothing has failed
            Ok(0) => {
                self.book.add(&mut self.writes, 1);
                Err(DeviceFailed)
            }
            Ok(count) => Ok(count),
            Err(_) => {
                self.book.add(&mut self.writes, 1);
                Err(DeviceFailed)
            }
        }
    }

    ghost same = { λ s. (refl, paced_none s.pace s.running (P.times s.peer).waits, refl, tried_none s.reads.amount s.writes.amount (P.times s.peer).waits) };

    ghost joins = { λ a b c p q. (
      q.0 ∙ p.0,
      paced_join a.pace a.running b.running c.running (P.times a.peer).waits (P.times b.peer).waits (P.times c.peer).waits p.1
          (subst (λ (pace : PaceOf). ArePaced pace b.running c.running (P.times b.peer).waits (P.times c.peer).waits) p.0 q.1),
      q.2 ∙ p.2,
      tried_join a.reads.amount b.reads.amount c.reads.amount a.writes.amount b.writes.amount c.writes.amount
          (P.times a.peer).waits (P.times b.peer).waits (P.times c.peer).waits p.3 q.3,
    ) };
}
