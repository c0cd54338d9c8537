//! Serving callers over TCP, one connection after the other.

ghost use Rattle.std.specs.Prelude.{◌≡◌, ◌+◌, ◌<◌, ℕ, List, [], ◌∷◌, Option, length, option_map};
ghost use Rattle.std.specs.Duration.{as_nanos};
ghost use Rattle.office_model.specs.Tables.{Keeps, Kept};
ghost use Rattle.office_wire.specs.Exchange.{Turn, Run};
ghost use Rattle.office_wire.specs.Responders.{rules_of, Fits};
ghost use Rattle.office_wire.specs.Serving.{standing, IsStreamServed};
ghost use Rattle.office_wire.specs.Order.{Follows};
ghost use Rattle.office_wire.specs.Servfails.{AreNoted, servfails};
ghost use Rattle.office_wire.specs.declared.serve_fault.ServeFault.{ServeFault as FaultOf};
ghost use Rattle.cli_core.specs.Replies.{IsSent};
ghost use Rattle.wire_tcp.specs.Limits.{limits_in};
ghost use Rattle.wire_tcp.specs.Waits.{AreWaits};
ghost use Rattle.wire_tcp.specs.Tries.{AreTried};
ghost use Rattle.wire_tcp.specs.Ages.{AreAges};
ghost use Rattle.wire_tcp.specs.Connections.{connection_line, ended_line, fault_of, AreReported, AreServedFrom};

use crate::age::{AgeLimit, AgeOf, Watched};
use crate::cause::Diagnosis;
use crate::listener::Listener;
use crate::pace::Age;
use crate::patience::PatientStream;
use crate::peer::{Peer, Watch};
use crate::trace::{tell_servfails, write_texts};
use cli_core::{JobFault, LineFault, write_refusal};
use dns_master::{DeviceFailed, Sink};
use grant_policy::Policy;
use itoa::Buffer;
use office_core::ZoneTable;
use office_wire::{Ending, Responder, ServeFault, Served};
use std::alloc::Global;
use std::marker::Brand;
use std::sync::ledger::{Blank, Ledger};
use std::time::{Clock, Duration};

/// Writes the line that reports the fault by which a connection ended. It takes no memory, so running out of memory on one connection
/// does not end the office.
fn tell_fault<W: Sink>(writer: &mut W, fault: ServeFault) -> Result<(), DeviceFailed>
    ensures { IsSent (W.contents writer.old) (W.contents writer.new) (connection_line fault) result (W.failures writer.old) (W.failures writer.new) }
{
    let mut digits = Buffer::new();
    write_texts(
        writer,
        &[
            b"connection ",
            digits.format(fault.number()).as_bytes(),
            b"\n",
        ],
    )
}

/// Writes that line, if a fault ended the connection.
fn tell_ended<W: Sink>(
    writer: &mut W,
    ended: Result<Ending, ServeFault>,
) -> Result<(), DeviceFailed>
    ensures { IsSent (W.contents writer.old) (W.contents writer.new) (ended_line (fault_of ended)) result (W.failures writer.old) (W.failures writer.new) }
{
    match ended {
        Ok(_) => Ok(()),
        Err(fault) => tell_fault(writer, fault),
    }
}

/// How connections are served.
#[derive(Drop)]
pub struct Connections<'a, C: Clock, D> {
    /// What memory is taken from.
    pub alloc: Global,
    /// The policy by which requests are answered.
    pub policy: &'a Policy,
    /// How many connections are served.
    pub most: u64,
    /// What tells the time.
    pub clock: &'a C,
    /// For how long a peer is waited for that sends no request or takes no response, where there is a limit.
    pub patience: Option<Duration>,
    /// At what age a connection ends between two requests, where there is a limit. It counts from when the connection was accepted.
    pub longest: Option<Duration>,
    /// What tells why the store of the table failed.
    pub diagnosis: &'a D,
}

impl<C: Clock, D> Connections<'_, C, D> {
    /// Serves the stream of a peer, of which a watch gives the age, and hands the peer back with it.
    fn serve_stream<P: Peer + Drop, T: ZoneTable, A: Ledger, B: Ledger, Q: AgeOf>(
        &self,
        responder: &mut Responder<'_>,
        peer: P,
        watched: Watched<P::Watch>,
        table: &mut T,
        blanks: (Blank, Blank),
    ) -> (P, Served)
        requires counts_name { blanks.0.name ≡ A.name }
        requires counts_parts { blanks.0.parts ≡ A.parts }
        requires counts_some { 1 < blanks.0.parts }
        requires asks_name { blanks.1.name ≡ B.name }
        requires asks_parts { blanks.1.parts ≡ B.parts }
        requires asks_some { 1 < blanks.1.parts }
        requires longest { option_map as_nanos self.now.longest ≡ Q.longest }
        requires begun { option_map as_nanos watched.begun ≡ Q.begun }
        requires before { P.Watch.Watch.readings watched.watch ≡ Q.before }
        ensures run { T.is_honest table.new → (s : Kept) → Keeps (T.holds table.old) (T.leaves table.old) s × Fits responder.old s.state
            → (turns : List Turn) × (t : Kept) × (Keeps (T.holds table.new) (T.leaves table.new) t × Fits responder.new t.state)
            × Run (rules_of responder.old) (standing s (T.failures table.old)) turns (standing t (T.failures table.new))
            × AreNoted (servfails turns) result.1.servfails × IsStreamServed turns result.1.ended (P.flow peer) (P.flow result.0)
            × ((start : Option (List (Option ℕ))) → Follows start Q.before (Q.begun ∷ [])
            → AreAges (option_map as_nanos self.now.longest) turns result.1.ended start (P.times result.0).ages) }
        ensures waited { AreWaits (limits_in self.now.patience self.now.longest) (P.times peer).waits (P.times result.0).waits }
        ensures tried { AreTried result.1.ended (P.times peer).waits (P.times result.0).waits }
        ensures rules { rules_of responder.new ≡ rules_of responder.old }
        ensures honest { T.is_honest table.new → T.is_honest table.old }
    {
        let age = Age {
            begun: watched.begun,
            longest: self.longest,
        };
        let mut limit: AgeLimit<'_, C, P::Watch, B, Q> = AgeLimit::new(
            self.clock,
            watched.watch,
            age,
            blanks.1,
        );
        let mut stream: PatientStream<'_, P, C, A> = PatientStream::new(
            peer,
            self.clock,
            self.patience,
            self.longest,
            blanks.0,
        );
        let served = responder.serve_stream(&mut stream, table, &mut limit);
        let mut peer = stream.into_peer();
        peer.put_watch(limit.into_watch());
        (peer, served)
    }

    /// Serves a peer, and hands it back.
    fn serve_peer<P: Peer + Drop, T: ZoneTable>(
        &self,
        responder: &mut Responder<'_>,
        peer: P,
        table: &mut T,
    ) -> (P, Served)
        ensures run { T.is_honest table.new → (s : Kept) → Keeps (T.holds table.old) (T.leaves table.old) s × Fits responder.old s.state
            → (turns : List Turn) × (t : Kept) × (Keeps (T.holds table.new) (T.leaves table.new) t × Fits responder.new t.state)
            × Run (rules_of responder.old) (standing s (T.failures table.old)) turns (standing t (T.failures table.new))
            × AreNoted (servfails turns) result.1.servfails × IsStreamServed turns result.1.ended (P.flow peer) (P.flow result.0)
            × AreAges (option_map as_nanos self.now.longest) turns result.1.ended (P.times peer).ages (P.times result.0).ages }
        ensures waited { AreWaits (limits_in self.now.patience self.now.longest) (P.times peer).waits (P.times result.0).waits }
        ensures tried { AreTried result.1.ended (P.times peer).waits (P.times result.0).waits }
        ensures rules { rules_of responder.new ≡ rules_of responder.old }
        ensures honest { T.is_honest table.new → T.is_honest table.old }
    {
        let mut peer = peer;
        let mut watch = peer.take_watch();
        let begun = watch.now(self.clock);
        let watched = Watched { watch, begun };
        let blanks = (Blank::new(2), Blank::new(2));
        self.serve_stream::<_, _, Brand, Brand, Brand>(responder, peer, watched, table, blanks)
    }

    /// Serves connections one after the other. A line tells each that ended by a fault. `ReadFailed` is written where a connection cannot
    /// be had, and `WriteFailed` comes where a line cannot be written. A line of the trace tells of each connection in which requests were
    /// answered SERVFAIL: how many, and why the last of them was; one that cannot be written is let go.
    pub fn serve<H: Listener, T: ZoneTable, W: Sink, E: Sink>(
        &self,
        listener: &mut H,
        table: &mut T,
        writer: &mut W,
        trace: &mut E,
    ) -> Result<(), JobFault>
    where
        D: Diagnosis<T>,
        // Where the store has kept its word: each peer that the listener gave is served, and what it was sent are the responses to the
        // requests that it sent, in order. They are answered by the policy and the states that they found, one connection after the other,
        // which leads the table from how it stood to how it stands, and so what a crash leaves of it; and what the office promises of calls
        // holds of all of them together, whichever connection each came by. By the clock, each peer is waited for within the patience and
        // the age, and asked for another request only below the age. A line is written for each connection that a fault ended, and the
        // trace tells of those of the requests that were answered SERVFAIL.
        ensures served { T.is_honest table.new → AreServedFrom
            (record {
              holds = T.holds;
              leaves = T.leaves;
              failures = T.failures;
              fault = D.fault self.now.diagnosis.now;
              gives = H.gives;
              ends = H.ends;
              flow = H.Peer.flow;
              times = H.Peer.times;
            })
            (record { rules = self.now.policy.now; limits = limits_in self.now.patience self.now.longest; most = self.now.most; cut = H.cut listener.old })
            table.old listener.old table.new listener.new result
            (record { old = W.contents writer.old; new = W.contents writer.new; before = W.failures writer.old; after = W.failures writer.new })
            (record { old = E.contents trace.old; new = E.contents trace.new; before = E.failures trace.old; after = E.failures trace.new }) }
        // Each connection that was taken is served. A line is written for each that a fault ended, and one where fewer were served than
        // asked for, which comes only where no connection can be had.
        ensures written { (ends : List (Option FaultOf))
            × AreReported (H.cut listener.old) self.now.most ends (W.contents writer.old) (W.contents writer.new) result (W.failures writer.old) (W.failures writer.new)
            × (H.taken listener.new ≡ H.taken listener.old + length ends) }
        // A store that has kept its word had kept it before.
        ensures honest { T.is_honest table.new → T.is_honest table.old }
    {
        let mut responder = Responder::new(self.alloc, self.policy);
        'accepted: for _ in 0..self.most {
            let Ok(peer) = listener.accept() else {
                return Err(write_refusal(self.alloc, writer, LineFault::ReadFailed));
            };
            let (peer, served) = self.serve_peer(&mut responder, peer, table);
            let _ = tell_servfails(trace, served.servfails, self.diagnosis.store_fault(table));
            listener.end(peer, served.ended);
            tell_ended(writer, served.ended)?;
        }
        Ok(())
    }
}
