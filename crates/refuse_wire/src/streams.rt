//! Streams of requests.

ghost use Rattle.std.specs.Prelude.{◌≡◌, ◌<◌, ℕ, List, [], Option, Some};
ghost use Rattle.office_model.specs.Tables.{Keeps, Kept};
ghost use Rattle.office_wire.specs.Exchange.{Turn, Run};
ghost use Rattle.office_wire.specs.Serving.{standing, IsDone, CountsServed};
ghost use Rattle.office_wire.specs.Deadlines.{CountsPassed};
ghost use Rattle.office_wire.specs.Order.{IsServedInTurn};
ghost use Rattle.office_wire.specs.Responders.{rules_of, Fits};
ghost use Rattle.office_wire.specs.Servfails.{AreNoted, servfails};

use dns_master::{Counted, Pieces, Sink, Source};
use grant_policy::Policy;
use office_core::ZoneTable;
use office_wire::{Deadline, Responder, ServeFault, Served, Stream};
use std::alloc::Global;
use std::sync::ledger::{Blank, Ledger};

/// `serve`, by how often its devices fail.
pub fn serve_counted<R: Source, W: Sink, T: ZoneTable>(
    alloc: Global,
    reader: &mut R,
    writer: &mut W,
    table: &mut T,
    policy: &Policy,
) -> Result<(), ServeFault>
    ensures { CountsServed result (R.failures reader.old) (R.failures reader.new) (W.failures writer.old) (W.failures writer.new) }
{
    let ended = office_wire::serve(alloc, reader, writer, table, policy);
    ended
}

/// `Responder::serve_stream`, by what it notes, and by the order of what it reads and writes.
pub fn serve_stream<S: Stream, T: ZoneTable, D: Deadline>(
    responder: &mut Responder<'_>,
    stream: &mut S,
    table: &mut T,
    deadline: &mut D,
) -> Served
    ensures { T.is_honest table.new → (s : Kept) → Keeps (T.holds table.old) (T.leaves table.old) s × Fits responder.old s.state
        → (turns : List Turn) × (t : Kept) × (Keeps (T.holds table.new) (T.leaves table.new) t × Fits responder.new t.state)
        × Run (rules_of responder.old) (standing s (T.failures table.old)) turns (standing t (T.failures table.new))
        × AreNoted (servfails turns) result.servfails
        × IsServedInTurn turns (S.flow stream.old).events (S.flow stream.new).events }
{
    let served = responder.serve_stream(stream, table, deadline);
    served
}

/// `Responder::serve_stream`, by what its deadline answers.
pub fn serve_until<S: Stream, T: ZoneTable, D: Deadline>(
    responder: &mut Responder<'_>,
    stream: &mut S,
    table: &mut T,
    deadline: &mut D,
) -> Served
    ensures { CountsPassed result.ended (D.passed deadline.old) (D.passed deadline.new) }
{
    let until = responder.serve_stream(stream, table, deadline);
    until
}

/// `serve`, of octets in memory, to a text in memory.
pub fn serve_octets<L: Ledger, T: ZoneTable>(
    alloc: Global,
    octets: Vec<u8>,
    reads: Blank,
    writes: Blank,
    table: &mut T,
    policy: &Policy,
) -> (Vec<u8>, Result<(), ServeFault>)
    requires reads_name { reads.name ≡ L.name }
    requires reads_parts { reads.parts ≡ L.parts }
    requires reads_some { 0 < reads.parts }
    requires writes_name { writes.name ≡ L.name }
    requires writes_parts { writes.parts ≡ L.parts }
    requires writes_some { 0 < writes.parts }
    ensures { T.is_honest table.new → (s : Kept) → Keeps (T.holds table.old) (T.leaves table.old) s
        → (turns : List Turn) × (t : Kept) × (left : Option (List ℕ)) × Keeps (T.holds table.new) (T.leaves table.new) t
        × Run policy.now (standing s (T.failures table.old)) turns (standing t (T.failures table.new))
        × IsDone turns result.1 (Some octets.items) left (Some []) (Some result.0.items) }
{
    let mut reader: Counted<Pieces, L> = Counted::new(Pieces::new(octets, usize::MAX, 0), reads);
    let room = Pieces::new(Vec::new(alloc), usize::MAX, 0);
    let mut writer: Counted<Pieces, L> = Counted::new(room, writes);
    let served = office_wire::serve(alloc, &mut reader, &mut writer, table, policy);
    let text = writer.into_inner().octets;
    (text, served)
}
