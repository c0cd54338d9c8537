//! Serving a stream.

ghost use Rattle.std.specs.Prelude.{◌≡◌, length, List};
ghost use Rattle.std.specs.List.{list_all};
ghost use Rattle.office_model.specs.Tables.{Keeps, Kept};
ghost use Rattle.office_core.specs.Bookmarks.{AreBookmarks};
ghost use Rattle.office_wire.specs.Exchange.{Turn, Waits, is_line_end};
ghost use Rattle.office_wire.specs.Serving.{mark, Leads, IsStreamServed, CountsEnded, Finishes};
ghost use Rattle.office_wire.specs.Deadlines.{CountsAsked, CountsPassed};
ghost use Rattle.office_wire.specs.Order.{moment, CountsOnce};

use crate::deadline::Deadline;
use crate::ending::Ending;
use crate::exchange::{Service, Stage};
use crate::framing::method_at;
use crate::refusal::Refusal;
use crate::response::Response;
use crate::serve_fault::ServeFault;
use crate::servfails::Servfails;
use crate::stream::{Stream, write_all};
use crate::workspace::Workspace;
use dns_master::DeviceFailed;
use office_core::ZoneTable;

/// Whether there are only line ends.
fn is_quiet(bytes: &[u8]) -> bool
    ensures { result ≡ list_all is_line_end bytes.now }
{
    bytes.iter().all(|octet| *octet == b'\r' || *octet == b'\n')
}

/// Answers the end of a stream at what is left of it.
fn finish<S: Stream>(workspace: &mut Workspace, stream: &mut S) -> Result<(), DeviceFailed>
    requires { Waits workspace.old.requests }
    ensures finishes { Finishes workspace.old.requests result (moment (S.flow stream.old)) (moment (S.flow stream.new)) }
    ensures failed { CountsOnce result (S.failed_writes stream.old) (S.failed_writes stream.new) }
    ensures unread { (S.flow stream.new).remaining ≡ (S.flow stream.old).remaining }
    ensures still { S.failed_reads stream.new ≡ S.failed_reads stream.old }
    ensures kept { S.keeps stream.old stream.new }
{
    let rest = workspace.requests.as_slice();
    if is_quiet(rest) {
        return Ok(());
    }
    let method = method_at(rest, &mut workspace.spans);
    let out = &mut workspace.out;
    out.put_short(method, &Response::Refused(Refusal::CutShort), true);
    write_all(stream, out.as_slice())
}

impl Service<'_> {
    /// Answers each request of a stream in a workspace that holds no octets, and notes those that are answered SERVFAIL.
    pub(crate) fn serve<S: Stream, T: ZoneTable, D: Deadline>(
        &mut self,
        workspace: &mut Workspace,
        stream: &mut S,
        table: &mut T,
        deadline: &mut D,
    ) -> Result<Ending, ServeFault>
        requires { length workspace.old.requests ≡ 0 }
        ensures run { T.is_honest table.new → (s : Kept) → Keeps (T.holds table.old) (T.leaves table.old) s × AreBookmarks self.old.policy.now s.state self.old.bookmarks
            → (turns : List Turn) × (t : Kept) × (Keeps (T.holds table.new) (T.leaves table.new) t × AreBookmarks self.old.policy.now t.state self.new.bookmarks)
            × Leads self.old.policy.now (mark s (T.failures table.old) self.old.servfails) turns
            (mark t (T.failures table.new) self.new.servfails)
            × IsStreamServed turns result (S.flow stream.old) (S.flow stream.new)
            × CountsAsked turns result (D.asked deadline.old) (D.asked deadline.new) }
        ensures policy { self.new.policy ≡ self.old.policy }
        ensures honest { T.is_honest table.new → T.is_honest table.old }
        ensures passed { CountsPassed result (D.passed deadline.old) (D.passed deadline.new) }
        ensures devices { CountsEnded result (S.failed_reads stream.old) (S.failed_reads stream.new) (S.failed_writes stream.old)
            (S.failed_writes stream.new) }
        ensures kept { S.keeps stream.old stream.new }
    {
        'reads: for _ in 0..u64::MAX {
            let got = match workspace.requests.fill(stream) {
                Err(_) => return Err(ServeFault::ReadFailed),
                Ok(got) => got,
            };
            if got == 0 {
                match finish(workspace, stream) {
                    Err(_) => return Err(ServeFault::WriteFailed),
                    Ok(()) => return Ok(Ending::Answered),
                }
            }
            match self.answer_all(workspace, stream, table, deadline) {
                Err(_) => return Err(ServeFault::WriteFailed),
                Ok(Stage::Closed) => return Ok(Ending::Answered),
                Ok(Stage::Overdue) => return Ok(Ending::Overdue),
                Ok(Stage::Open) => {}
            }
        }
        Err(ServeFault::StreamTooLong)
    }
}

/// How serving a stream ended, and which of its requests were answered SERVFAIL.
#[derive(Clone, Copy, Debug, PartialEq, Eq)]
pub struct Served {
    /// Why it ended before the stream did, before the last response and before the deadline; `Ok` if it did not.
    pub ended: Result<Ending, ServeFault>,
    /// The requests that were answered SERVFAIL.
    pub servfails: Servfails,
}
