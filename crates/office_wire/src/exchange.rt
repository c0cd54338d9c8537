//! Answering requests, one after the other.

ghost use Rattle.std.specs.Prelude.{◌≡◌, ◌||◌, length, IsUtf8};
ghost use Rattle.httparse.specs.Grammar.{RequestHead};
ghost use Rattle.office_model.specs.Tables.{Keeps, Kept};
ghost use Rattle.office_core.specs.Bookmarks.{AreBookmarks};
ghost use Rattle.office_wire.specs.Exchange.{Answers, names_nobody};
ghost use Rattle.office_wire.specs.Framing.{IsAsked};
ghost use Rattle.office_wire.specs.Requests.{call_of};
ghost use Rattle.office_wire.specs.Order.{moment, CountsOnce};
ghost use Rattle.office_wire.specs.Serving.{standing, mark, IsReplied, IsProgress, Stands, IsIdle, IsServed, CountsHalt};

use crate::deadline::Deadline;
use crate::framing::{Framing, framing_of};
use crate::head::Heading;
use crate::method::Method;
use crate::refusal::Refusal;
use crate::request::read_call;
use crate::response::Response;
use crate::response_buffer::ResponseBuffer;
use crate::route::Routes;
use crate::servfails::Servfails;
use crate::stream::{Stream, write_all};
use crate::workspace::Workspace;
use dns_master::DeviceFailed;
use grant_policy::Policy;
use httparse::spans::HeaderSpan;
use office_core::{Bookmarks, TableFault, ZoneTable, step_with_bookmarks};
use std::alloc::Global;

/// How far the octets that were received are answered.
pub(crate) enum Progress {
    /// They begin with an incomplete request, which stays so until there are so many.
    Waiting(usize),
    /// A request of so many octets, and the next may follow.
    Next(usize),
    /// The last response.
    Last,
}

/// How serving goes on after the requests that had come whole.
pub(crate) enum Stage {
    /// More requests may come.
    Open,
    /// The last response was among the responses.
    Closed,
    /// The deadline had passed after one of the responses, and none followed.
    Overdue,
}

/// What requests are answered by, the bookmarks of callers, and a note of the requests that were answered SERVFAIL.
#[derive(Drop)]
pub(crate) struct Service<'a> {
    pub(crate) alloc: Global,
    pub(crate) policy: &'a Policy,
    pub(crate) bookmarks: Bookmarks,
    pub(crate) servfails: Servfails,
}

/// A whole request: what is kept of its head, and its body.
#[derive(Clone, Copy)]
struct Received<'a> {
    heading: Heading<'a>,
    body: &'a [u8],
}

/// Whether a response is the last: the head asks for that, or the response refuses a request that names no caller.
fn is_last(heading: &Heading<'_>, response: &Response) -> bool
    ensures { result ≡ heading.now.closes || names_nobody response.now }
{
    heading.closes || response.names_nobody()
}

impl Service<'_> {
    /// What is answered to a request.
    fn respond<T: ZoneTable>(
        &mut self,
        routes: &Routes,
        table: &mut T,
        received: &Received<'_>,
    ) -> Response
        requires { IsUtf8 received.now.heading.target.now }
        ensures answers { T.is_honest table.new → (s : Kept) → Keeps (T.holds table.old) (T.leaves table.old) s × AreBookmarks self.old.policy.now s.state self.old.bookmarks
            → (h : RequestHead) → IsAsked received.now.heading h
            → (t : Kept) × (Keeps (T.holds table.new) (T.leaves table.new) t × AreBookmarks self.old.policy.now t.state self.new.bookmarks)
            × Answers self.old.policy.now (standing s (T.failures table.old)) (call_of h received.now.body.now) result (standing t (T.failures table.new)) }
        ensures policy { self.new.policy ≡ self.old.policy }
        ensures noted { self.new.servfails ≡ self.old.servfails }
        ensures honest { T.is_honest table.new → T.is_honest table.old }
    {
        match read_call(self.alloc, routes, &received.heading, received.body) {
            Ok(call) => {
                let reply = step_with_bookmarks(
                    self.alloc,
                    table,
                    self.policy,
                    &mut self.bookmarks,
                    &call.caller,
                    &call.request,
                );
                Response::Replied(reply)
            }
            Err(fault) => Response::refusing(fault),
        }
    }

    /// Puts what is answered to a request, and answers whether it is the last response. Where there is no memory for a long response
    /// it is SERVFAIL, which is noted.
    fn reply<T: ZoneTable>(
        &mut self,
        routes: &Routes,
        table: &mut T,
        received: &Received<'_>,
        out: &mut ResponseBuffer,
    ) -> bool
        requires { IsUtf8 received.now.heading.target.now }
        ensures answered { T.is_honest table.new → (s : Kept) → Keeps (T.holds table.old) (T.leaves table.old) s × AreBookmarks self.old.policy.now s.state self.old.bookmarks
            → (h : RequestHead) → IsAsked received.now.heading h
            → (t : Kept) × (Keeps (T.holds table.new) (T.leaves table.new) t × AreBookmarks self.old.policy.now t.state self.new.bookmarks)
            × IsReplied self.old.policy.now (mark s (T.failures table.old) self.old.servfails) (call_of h received.now.body.now)
            received.now.heading.method received.now.heading.closes result out.new (mark t (T.failures table.new) self.new.servfails) }
        ensures policy { self.new.policy ≡ self.old.policy }
        ensures honest { T.is_honest table.new → T.is_honest table.old }
    {
        let response = self.respond(routes, table, received);
        let last = is_last(&received.heading, &response);
        if out.put(received.heading.method, &response, last) {
            self.servfails.note(&response);
            return last;
        }
        self.servfails.add(TableFault::NoMemory);
        last
    }

    /// Answers the request that the octets begin with, where it is complete.
    fn answer<T: ZoneTable>(&mut self, workspace: &mut Workspace, table: &mut T) -> Progress
        ensures stands { Stands workspace.old.requests result }
        ensures answered { T.is_honest table.new → (s : Kept) → Keeps (T.holds table.old) (T.leaves table.old) s × AreBookmarks self.old.policy.now s.state self.old.bookmarks
            → (t : Kept) × (Keeps (T.holds table.new) (T.leaves table.new) t × AreBookmarks self.old.policy.now t.state self.new.bookmarks)
            × IsProgress self.old.policy.now (mark s (T.failures table.old) self.old.servfails) workspace.old.requests result
            workspace.new.out (mark t (T.failures table.new) self.new.servfails) }
        ensures same { workspace.new.requests ≡ workspace.old.requests }
        ensures policy { self.new.policy ≡ self.old.policy }
        ensures honest { T.is_honest table.new → T.is_honest table.old }
    {
        let pending = workspace.requests.as_slice();
        let out = &mut workspace.out;
        match framing_of(pending, &mut workspace.spans) {
            Framing::Waiting(n) => Progress::Waiting(n),
            Framing::Bad => {
                out.put_short(Method::Other, &Response::Refused(Refusal::BadHead), true);
                Progress::Last
            }
            Framing::Refused(method, refusal) => {
                out.put_short(method, &Response::Refused(refusal), true);
                Progress::Last
            }
            Framing::Ready(heading, n) => {
                let end = heading.len + n;
                let body = &pending[heading.len..end];
                let received = Received { heading, body };
                let last = self.reply(&workspace.routes, table, &received, out);
                if last {
                    Progress::Last
                } else {
                    Progress::Next(end)
                }
            }
        }
    }

    /// Answers each request that has come whole, and asks the deadline after each response that is not the last.
    pub(crate) fn answer_all<S: Stream, T: ZoneTable, D: Deadline>(
        &mut self,
        workspace: &mut Workspace,
        stream: &mut S,
        table: &mut T,
        deadline: &mut D,
    ) -> Result<Stage, DeviceFailed>
        ensures idle { IsIdle result workspace.new.requests }
        ensures served { T.is_honest table.new → (s : Kept) → Keeps (T.holds table.old) (T.leaves table.old) s × AreBookmarks self.old.policy.now s.state self.old.bookmarks
            → (t : Kept) × (Keeps (T.holds table.new) (T.leaves table.new) t × AreBookmarks self.old.policy.now t.state self.new.bookmarks)
            × IsServed self.old.policy.now (mark s (T.failures table.old) self.old.servfails) workspace.old.requests result
            workspace.new.requests (moment (S.flow stream.old)) (moment (S.flow stream.new)) (D.asked deadline.old) (D.asked deadline.new)
            (mark t (T.failures table.new) self.new.servfails) }
        ensures policy { self.new.policy ≡ self.old.policy }
        ensures honest { T.is_honest table.new → T.is_honest table.old }
        ensures passed { CountsHalt result (D.passed deadline.old) (D.passed deadline.new) }
        ensures failed { CountsOnce result (S.failed_writes stream.old) (S.failed_writes stream.new) }
        ensures unread { (S.flow stream.new).remaining ≡ (S.flow stream.old).remaining }
        ensures still { S.failed_reads stream.new ≡ S.failed_reads stream.old }
        ensures kept { S.keeps stream.old stream.new }
    {
        if workspace.requests.is_awaiting() {
            return Ok(Stage::Open);
        }
        'turns: loop {
            match self.answer(workspace, table) {
                Progress::Waiting(n) => {
                    workspace.requests.await_octets(n);
                    return Ok(Stage::Open);
                }
                Progress::Next(n) => {
                    write_all(stream, workspace.out.as_slice())?;
                    workspace.requests.consume(n);
                    if deadline.has_passed() {
                        return Ok(Stage::Overdue);
                    }
                }
                Progress::Last => {
                    write_all(stream, workspace.out.as_slice())?;
                    return Ok(Stage::Closed);
                }
            }
        }
    }
}
