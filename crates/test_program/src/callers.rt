//! Answers to rows of an office over sockets, in one thread: what callers send lies in the sockets before they are served.

ghost use Rattle.std.specs.Prelude.{◌≡◌, ◌<◌};

use crate::callers_office::{listening, policy, table};
use crate::client::{begun, push_answered, sent};
use anyhow::{Result, bail};
use cli_store::{CountedListener, JobFault};
use dns_master::Counted;
use grant_policy::Policy;
use office_model::ZoneTable;
use std::alloc::{AllocError, Global};
use std::marker::Brand;
use std::net::{TcpListener, TcpStream};
use std::sync::ledger::{Blank, Ledger};
use std::time::Duration;
use test_rows::{Answers, Row, push_unanswered};
use wire_tcp::{Connections, Undiagnosed};

/// An office and its callers.
#[derive(Drop)]
pub struct Callers<'a> {
    rt: &'a HostRuntime,
    listener: Option<TcpListener>,
    callers: Vec<TcpStream>,
}

impl Answers for Callers<'_> {
    fn answer(
        &mut self,
        alloc: Global,
        row: &Row<'_>,
        answer: &mut Vec<u8>,
    ) -> Result<(), AllocError> {
        let answered = self.answer_to(row, answer);
        push_unanswered(alloc, answered, answer)
    }
}

impl<'a> Callers<'a> {
    /// Nobody listens, and nobody calls.
    pub fn new(rt: &'a HostRuntime) -> Callers<'a> {
        Callers {
            rt,
            listener: None,
            callers: Vec::new(rt.alloc()),
        }
    }

    fn answer_to(&mut self, row: &Row<'_>, answer: &mut Vec<u8>) -> Result<()> {
        match row.verb {
            "listen" => self.listen(),
            "call" => self.call(&row.body),
            "begin" => self.begin(&row.body),
            "leave" => self.leave(number(&row.text)?, &row.body),
            "answer" => self.serve(number(&row.text)?, None, answer),
            "once" => self.serve(number(&row.text)?, Some(Duration::ZERO), answer),
            _ => bail!("no such verb"),
        }
    }

    fn listen(&mut self) -> Result<()> {
        self.callers.clear();
        self.listener = Some(listening(self.rt)?);
        Ok(())
    }

    fn listener(&self) -> Result<&TcpListener> {
        match &self.listener {
            Some(listener) => Ok(listener),
            None => bail!("nobody listens"),
        }
    }

    /// Connects and sends a text. More can be sent after it.
    fn begin(&mut self, text: &[u8]) -> Result<()> {
        let caller = begun(self.rt, self.listener()?, text)?;
        self.callers.push(caller)?;
        Ok(())
    }

    /// Connects, sends a text and shuts the sending side.
    fn call(&mut self, text: &[u8]) -> Result<()> {
        let caller = sent(self.rt, self.listener()?, text)?;
        self.callers.push(caller)?;
        Ok(())
    }

    /// Connects, sends a text so many times and closes the connection.
    fn leave(&self, times: u64, text: &[u8]) -> Result<()> {
        let mut all = Vec::new(self.rt.alloc());
        for _ in 0..times {
            all.extend_from_slice(text)?;
        }
        drop(sent(self.rt, self.listener()?, &all)?);
        Ok(())
    }

    /// Serves so many connections, up to an age between requests, and appends what was told and answered.
    fn serve(
        &mut self,
        connections: u64,
        longest: Option<Duration>,
        answer: &mut Vec<u8>,
    ) -> Result<()> {
        push_served(self.rt, self.listener()?, connections, longest, answer)?;
        for caller in &mut self.callers {
            push_answered(caller, answer)?;
            answer.push(b'\n')?;
        }
        self.callers.clear();
        Ok(())
    }
}

fn number(text: &[u8]) -> Result<u64> {
    Ok(str::from_utf8(text)?.parse()?)
}

/// Appends what the office tells while it serves so many connections, and its trace.
fn push_served(
    rt: &HostRuntime,
    listener: &TcpListener,
    connections: u64,
    longest: Option<Duration>,
    answer: &mut Vec<u8>,
) -> Result<()> {
    let alloc = rt.alloc();
    let policy = policy(alloc)?;
    let mut table = table(alloc)?;
    let socket = listener.try_clone()?;
    let served = served_from(rt, socket, connections, longest, &mut table, &policy);
    push_told(&served, answer)
}

fn push_told(served: &Served, answer: &mut Vec<u8>) -> Result<()> {
    if served.result.is_err() {
        bail!("a connection is not served");
    }
    answer.extend_from_slice(&served.told)?;
    Ok(answer.extend_from_slice(&served.trace)?)
}

/// What the office told, its trace, and how its service ended.
#[derive(Drop)]
struct Served {
    told: Vec<u8>,
    trace: Vec<u8>,
    result: Result<(), JobFault>,
}

/// For how many milliseconds callers are waited for.
const PATIENCE: u64 = 300;

/// Serves so many connections from a table.
fn served_from<T: ZoneTable>(
    rt: &HostRuntime,
    socket: TcpListener,
    most: u64,
    longest: Option<Duration>,
    table: &mut T,
    policy: &Policy,
) -> Served {
    let (taken, writes, traces) = (Blank::new(1), Blank::new(1), Blank::new(1));
    served_in::<_, Brand, Brand, Brand>(
        rt, socket, most, longest, table, policy, taken, writes, traces,
    )
}

fn served_in<T: ZoneTable, L: Ledger, A: Ledger, B: Ledger>(
    rt: &HostRuntime,
    socket: TcpListener,
    most: u64,
    longest: Option<Duration>,
    table: &mut T,
    policy: &Policy,
    taken: Blank,
    writes: Blank,
    traces: Blank,
) -> Served
    requires taken_name { taken.name ≡ L.name }
    requires taken_parts { taken.parts ≡ L.parts }
    requires taken_some { 0 < taken.parts }
    requires writes_name { writes.name ≡ A.name }
    requires writes_parts { writes.parts ≡ A.parts }
    requires writes_some { 0 < writes.parts }
    requires traces_name { traces.name ≡ B.name }
    requires traces_parts { traces.parts ≡ B.parts }
    requires traces_some { 0 < traces.parts }
{
    let alloc = rt.alloc();
    let mut sink: Counted<Vec<u8>, A> = Counted::new(Vec::new(alloc), writes);
    let mut trace: Counted<Vec<u8>, B> = Counted::new(Vec::new(alloc), traces);
    let mut listener: CountedListener<'_, _, _, L> = CountedListener::new(rt, socket, taken);
    let connections = Connections {
        alloc,
        policy,
        most,
        clock: rt,
        patience: Some(Duration::from_millis(PATIENCE)),
        longest,
        diagnosis: &Undiagnosed,
    };
    let result = connections.serve(&mut listener, table, &mut sink, &mut trace);
    Served {
        told: sink.into_inner(),
        trace: trace.into_inner(),
        result,
    }
}
