//! The requests of a stream that were answered SERVFAIL.

ghost use Rattle.std.specs.Prelude.{◌≡◌};
ghost use Rattle.office_model.specs.TableFaults.{cause};
ghost use Rattle.office_wire.specs.Servfails.{noted, one_more, none_noted, servfail_in};

use crate::response::Response;
use office_model::{Reply, TableFault};

/// How many requests were answered SERVFAIL, and why the last of them was.
#[derive(Clone, Copy, Debug, PartialEq, Eq)]
pub struct Servfails {
    /// How many; one that has reached 2^64 - 1 stays there.
    pub count: u64,
    /// What failed for the last of them, if there is one: the table, or memory.
    pub last: Option<TableFault>,
}

impl Servfails {
    /// No request was.
    pub(crate) const fn none() -> Servfails
        ensures { result ≡ none_noted }
    {
        Servfails {
            count: 0,
            last: None,
        }
    }

    /// Notes one more request, for which this failed.
    pub(crate) fn add(&mut self, fault: TableFault)
        ensures { self.new ≡ one_more self.old fault }
    {
        self.count = self.count.saturating_add(1);
        self.last = Some(fault);
    }

    /// Notes a request that was answered so, if that is SERVFAIL.
    pub(crate) fn note(&mut self, response: &Response)
        ensures { self.new ≡ noted self.old (servfail_in response.now) }
    {
        if let Response::Replied(Reply::Servfail(fault)) = response {
            self.add(fault.cause());
        }
    }
}
