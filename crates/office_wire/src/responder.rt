//! Serving streams, one after the other.

ghost use Rattle.std.specs.Prelude.{◌≡◌, ◌<◌, List};
ghost use Rattle.office_model.specs.States.{State};
ghost use Rattle.office_model.specs.Tables.{Keeps, Kept};
ghost use Rattle.office_wire.specs.Exchange.{Turn, Run};
ghost use Rattle.office_wire.specs.Promises.{ArePromised};
ghost use Rattle.office_wire.specs.Serving.{standing, IsDone, IsStreamServed, CountsServed, CountsEnded};
ghost use Rattle.office_wire.specs.Deadlines.{CountsAsked, CountsPassed};
ghost use Rattle.office_wire.specs.Servfails.{AreNoted, servfails};

use crate::deadline::{Deadline, Never};
use crate::ending::Ending;
use crate::exchange::Service;
use crate::serve_fault::ServeFault;
use crate::servfails::Servfails;
use crate::serving::Served;
use crate::stream::{Apart, Stream};
use crate::workspace::{Workspace, make_workspace};
use dns_master::{Sink, Source};
use grant_policy::Policy;
use office_core::{Bookmarks, ZoneTable};
use std::alloc::Global;
use std::marker::Brand;
use std::sync::ledger::{Blank, Ledger};

/// Answers the requests of streams by a policy, one stream after the other. The bookmarks of callers and the memory for a request are
/// kept from one stream to the next; of what a stream sent, nothing is.
#[derive(Drop)]
pub struct Responder<'a> {
    service: Service<'a>,
    workspace: Option<Workspace>,
}

impl<'a> Responder<'a> {
    ghost use Rattle.office_wire.specs.Responders.{rules_of, Fits};

    /// A responder that has served no stream. It takes no memory before the first one.
    pub fn new(alloc: Global, policy: &'a Policy) -> Responder<'a>
        ensures rules { rules_of result ≡ policy.now }
        ensures fits { (s : State) → Fits result s }
    {
        let service = Service {
            alloc,
            policy,
            bookmarks: Bookmarks::new(alloc),
            servfails: Servfails::none(),
        };
        Responder {
            service,
            workspace: None,
        }
    }

    /// Serves a stream as `serve` does, and counts the requests that were answered SERVFAIL, with the fault of the last. After each
    /// response that is not the last it asks a deadline, and leaves the stream there if that has passed. It reads only when all whole
    /// requests received before are answered, and their responses written whole.
    pub fn serve_stream<S: Stream, T: ZoneTable, D: Deadline>(
        &mut self,
        stream: &mut S,
        table: &mut T,
        deadline: &mut D,
    ) -> Served
        // Each response goes out whole before the next read, so a peer that waits for it before it sends more gets it. What is noted
        // is noted of the turns of the stream.
        ensures run { T.is_honest table.new → (s : Kept) → Keeps (T.holds table.old) (T.leaves table.old) s × Fits self.old s.state
            → (turns : List Turn) × (t : Kept) × (Keeps (T.holds table.new) (T.leaves table.new) t × Fits self.new t.state)
            × Run (rules_of self.old) (standing s (T.failures table.old)) turns (standing t (T.failures table.new))
            × ArePromised (rules_of self.old) s.state turns t.state × AreNoted (servfails turns) result.servfails
            × IsStreamServed turns result.ended (S.flow stream.old) (S.flow stream.new)
            × CountsAsked turns result.ended (D.asked deadline.old) (D.asked deadline.new) }
        ensures rules { rules_of self.new ≡ rules_of self.old }
        ensures honest { T.is_honest table.new → T.is_honest table.old }
        // No further request is answered where the deadline has passed, and only there.
        ensures passed { CountsPassed result.ended (D.passed deadline.old) (D.passed deadline.new) }
        ensures devices { CountsEnded result.ended (S.failed_reads stream.old) (S.failed_reads stream.new) (S.failed_writes stream.old)
            (S.failed_writes stream.new) }
        ensures kept { S.keeps stream.old stream.new }
    {
        let Responder { service, workspace } = self;
        service.servfails = Servfails::none();
        make_workspace(service.alloc, workspace);
        let Some(workspace) = workspace else {
            return Served {
                ended: Err(ServeFault::NoMemory),
                servfails: service.servfails,
            };
        };
        workspace.requests.clear();
        let ended = service.serve(workspace, stream, table, deadline);
        workspace.drop_response(service.alloc);
        Served {
            ended,
            servfails: service.servfails,
        }
    }
}

/// Answers each request of a stream without a deadline.
fn serve_whole<S: Stream, T: ZoneTable, L: Ledger>(
    alloc: Global,
    stream: &mut S,
    table: &mut T,
    policy: &Policy,
    blank: Blank,
) -> Result<(), ServeFault>
    requires name { blank.name ≡ L.name }
    requires parts { blank.parts ≡ L.parts }
    requires some { 0 < blank.parts }
    ensures run { T.is_honest table.new → (s : Kept) → Keeps (T.holds table.old) (T.leaves table.old) s
        → (turns : List Turn) × (t : Kept) × Keeps (T.holds table.new) (T.leaves table.new) t
        × Run policy.now (standing s (T.failures table.old)) turns (standing t (T.failures table.new))
        × IsDone turns result (S.flow stream.old).remaining (S.flow stream.new).remaining (S.flow stream.old).contents (S.flow stream.new).contents
        × ArePromised policy.now s.state turns t.state }
    ensures honest { T.is_honest table.new → T.is_honest table.old }
    ensures devices { CountsServed result (S.failed_reads stream.old) (S.failed_reads stream.new) (S.failed_writes stream.old)
        (S.failed_writes stream.new) }
    ensures kept { S.keeps stream.old stream.new }
{
    let mut responder = Responder::new(alloc, policy);
    let mut never: Never<L> = Never::new(blank);
    let served = responder.serve_stream(stream, table, &mut never);
    match served.ended {
        Ok(Ending::Answered) => Ok(()),
        Ok(Ending::Overdue) => unreachable!(),
        Err(fault) => Err(fault),
    }
}

/// Answers each request of a stream (RFC 9112), in order, by the policy and over the table, to the end of the stream or to the
/// first response that closes it.
///
/// A request is a head of at most 16,384 octets and 64 fields, and a body of at most 65,536. It is refused, first of all, for its
/// head, its length or its body, then for its caller, its route, the parts of its path, and what its body asks; else the office
/// is asked. Each response is written whole before the next request is looked at; a list that there is no memory for is answered
/// SERVFAIL, and nothing takes memory between the change that an update makes and the end of its response.
///
/// `ReadFailed` comes where the reader failed in this call, and then the writer did not; `WriteFailed` comes where the writer
/// failed, and then the reader did not; after `Ok` neither failed. `StreamTooLong` comes after
/// 2^64 - 1 reads. `NoMemory` comes before anything is read.
pub fn serve<R: Source, W: Sink, T: ZoneTable>(
    alloc: Global,
    reader: &mut R,
    writer: &mut W,
    table: &mut T,
    policy: &Policy,
) -> Result<(), ServeFault>
    // Where the store has kept its word, there are turns that take the table from how it stood to how it stands, and what a crash
    // would leave of it from the one to the other: they are the requests of the stream, their responses are what was written, and
    // what the office promises of calls holds of theirs.
    ensures run { T.is_honest table.new → (s : Kept) → Keeps (T.holds table.old) (T.leaves table.old) s
        → (turns : List Turn) × (t : Kept) × Keeps (T.holds table.new) (T.leaves table.new) t
        × Run policy.now (standing s (T.failures table.old)) turns (standing t (T.failures table.new))
        × IsDone turns result (R.remaining reader.old) (R.remaining reader.new) (W.contents writer.old) (W.contents writer.new)
        × ArePromised policy.now s.state turns t.state }
    // A store that has kept its word had kept it before.
    ensures honest { T.is_honest table.new → T.is_honest table.old }
    // A fault of a device is reported only if the device failed in this call, and it failed once. `Ok` means that neither failed.
    ensures devices { CountsServed result (R.failures reader.old) (R.failures reader.new) (W.failures writer.old) (W.failures writer.new) }
{
    let mut stream = Apart { reader, writer };
    serve_whole::<_, T, Brand>(alloc, &mut stream, table, policy, Blank::new(1))
}
