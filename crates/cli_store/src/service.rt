//! The job `serve`: a policy, a store, and a listener.

ghost use Rattle.std.specs.Prelude.{◌≡◌, ◌*◌, ◌<◌, ⊤, List, Option, IfErr, IfOk, option_map, string_bytes};
ghost use Rattle.std.specs.Duration.{as_nanos};
ghost use Rattle.std.specs.declared.net.socket_addr.SocketAddr.{SocketAddr};
ghost use Rattle.office_wire.specs.declared.serve_fault.ServeFault.{ServeFault as FaultOf};
ghost use Rattle.sqlite.specs.Held.{state};
ghost use Rattle.cli_core.specs.LineFaults.{GivesOf};
ghost use Rattle.cli_store.specs.Stores.{stores_of};
ghost use Rattle.wire_tcp.specs.Limits.{patience_in, longest_in, limits_in};
ghost use Rattle.wire_tcp.specs.Connections.{AreReported, AreServedFrom};
ghost use Rattle.cli_store.specs.Serve.{policy_read, most_of, listening_line, IsHeard, IsNoListener, IsServiceTold, IsServedBy, BeginsBy, Serves};

use crate::diagnosis::Remembered;
use crate::files::StoreFiles;
use crate::listening::{CountedListener, Socket};
use crate::store_file::open_store;
use crate::surroundings::Surroundings;
use cli_core::{JobFault, LineFault, Service, write_refusal, write_text};
use dns_master::Sink;
use grant_policy::{Policy, read_policy};
use office_model::ZoneTable;
use office_store::SqlTable;
use sqlite::{Alter, Connection};
use std::alloc::{AllocError, Global};
use std::marker::Brand;
use std::net::SocketAddr;
use std::sync::ledger::{Blank, Ledger};
use std::time::Clock;
use wire_tcp::{Connections, Diagnosis, longest_of, patience_of};

/// The policy of a path.
fn policy_of<M: Surroundings>(around: &M, alloc: Global, path: &str) -> Result<Policy, LineFault>
    ensures { GivesOf (λ policy. policy) ((M.around around.now).file path.now) policy_read result ⊤ ((M.around around.now).unreadable path.now) }
{
    let text = around.file(alloc, path)?;
    Ok(read_policy(alloc, &text)?)
}

/// What is said on standard error where others than programs of this machine can connect.
const REACHABLE: &str =
    "zoneoffice: this is no loopback address, and whoever reaches it may name any caller";

/// Says so where an address is no loopback one.
fn warn_if_reachable<M: Surroundings>(around: &M, address: SocketAddr) {
    if !address.ip().is_loopback() {
        around.say(REACHABLE);
    }
}

/// The line that tells where the office listens. The only error is out of memory.
fn listening_text(alloc: Global, address: SocketAddr) -> Result<String, AllocError>
    ensures { IfOk result (λ text. string_bytes text ≡ listening_line address) }
{
    format!(in alloc; "listening {address}\n")
}

/// Says on standard error that nothing can listen at an address, which the refusal's number does not tell from an input that cannot be
/// read.
fn complain_unheard<M: Surroundings>(around: &M, listen: &str) {
    if let Ok(words) = format!(in around.alloc(); "zoneoffice: nothing can listen at {listen}") {
        around.say(words.as_str());
    }
}

/// A listener at an address and a port, and where it listens. `ReadFailed` comes where there can be none.
fn listener_at<M: Surroundings>(
    around: &M,
    listen: &str,
) -> Result<(M::Listener, SocketAddr), LineFault>
    ensures heard { IfOk result (λ heard. IsHeard (M.around around.now) listen.now heard.0 heard.1) }
    ensures refused { IfErr result (IsNoListener (M.around around.now) listen.now) }
{
    let Ok(address) = listen.parse::<SocketAddr>() else {
        return Err(LineFault::ReadFailed);
    };
    match around.listen(address) {
        Ok(heard) => Ok(heard),
        Err(_) => Err(LineFault::ReadFailed),
    }
}

/// A listener at an address and a port, and the line that tells where it listens. If others than programs of this machine can reach it,
/// that is said on standard error.
pub fn listening_at<M: Surroundings>(
    around: &M,
    listen: &str,
) -> Result<(M::Listener, String), LineFault>
    // The line is of the address at which this listener listens, which was had at the one that the word is.
    ensures told { IfOk result
        (λ listening. (address : SocketAddr) × IsHeard (M.around around.now) listen.now listening.0 address × (string_bytes listening.1 ≡ listening_line address)) }
    ensures refused { IfErr result (IsNoListener (M.around around.now) listen.now) }
{
    let (listener, address) = match listener_at(around, listen) {
        Ok(heard) => heard,
        Err(fault) => {
            complain_unheard(around, listen);
            return Err(fault);
        }
    };
    warn_if_reachable(around, address);
    let text = listening_text(around.alloc(), address)?;
    Ok((listener, text))
}

/// How many octets a number of MB is, or the most that there can be.
fn octets_of(megabytes: u64) -> usize {
    usize::try_from(megabytes.saturating_mul(1 << 20)).unwrap_or(usize::MAX)
}

/// Lets a table take so many MB of memory for zones that were asked for before, if the words of a service give a number.
fn limit<S: Alter + Drop, L: Ledger>(table: &mut SqlTable<S, L>, megabytes: Option<u64>)
    ensures conn { table.new.conn ≡ table.old.conn }
    ensures counts { table.new.book.total ≡ table.old.book.total }
    ensures fault { table.new.fault ≡ table.old.fault }
{
    if let Some(megabytes) = megabytes {
        table.limit_memory(octets_of(megabytes));
    }
}

/// How connections are served by a policy, as the words say.
fn connections_of<'a, M: Surroundings, D>(
    around: &'a M,
    service: &Service<'_>,
    policy: &'a Policy,
    diagnosis: &'a D,
) -> Connections<'a, M::Clock, D>
    ensures policy { result.policy.now ≡ policy.now }
    ensures most { result.most ≡ most_of service.now }
    ensures patience { option_map as_nanos result.patience ≡ option_map (λ n. n * 1_000_000_000) (patience_in service.now.patience) }
    ensures longest { option_map as_nanos result.longest ≡ option_map (λ n. n * 1_000_000_000) (longest_in service.now.longest) }
    ensures diagnosis { result.diagnosis.now ≡ diagnosis.now }
{
    Connections {
        alloc: around.alloc(),
        policy,
        most: service.connections.unwrap_or(u64::MAX),
        clock: around.clock(),
        patience: patience_of(service.patience),
        longest: longest_of(service.longest),
        diagnosis,
    }
}

/// Serves connections of a listener from a table.
fn serve_listening<
    C: Clock,
    K: Socket + Drop,
    L: Ledger,
    T: ZoneTable,
    D: Diagnosis<T>,
    W: Sink,
    E: Sink,
>(
    connections: &Connections<'_, C, D>,
    socket: K,
    blank: Blank,
    table: &mut T,
    writer: &mut W,
    trace: &mut E,
) -> Result<(), JobFault>
    requires name { blank.name ≡ L.name }
    requires parts { blank.parts ≡ L.parts }
    requires some { 0 < blank.parts }
    ensures served { (after : K)
        ×
        (T.is_honest table.new → AreServedFrom
        (record {
          holds = T.holds;
          leaves = T.leaves;
          failures = T.failures;
          fault = D.fault connections.now.diagnosis.now;
          gives = K.gives;
          ends = K.ends;
          flow = K.Peer.flow;
          times = K.Peer.times;
        })
        (record { rules = connections.now.policy.now; limits = limits_in connections.now.patience connections.now.longest; most = connections.now.most; cut = K.cut socket })
        table.old socket table.new after result
        (record { old = W.contents writer.old; new = W.contents writer.new; before = W.failures writer.old; after = W.failures writer.new })
        (record { old = E.contents trace.old; new = E.contents trace.new; before = E.failures trace.old; after = E.failures trace.new })) }
    ensures honest { T.is_honest table.new → T.is_honest table.old }
    ensures written { (ends : List (Option FaultOf))
        × AreReported (K.cut socket) connections.now.most ends (W.contents writer.old) (W.contents writer.new) result (W.failures writer.old)
        (W.failures writer.new) }
{
    let mut listener: CountedListener<'_, C, K, L> = CountedListener::new(
        connections.clock,
        socket,
        blank,
    );
    connections.serve(&mut listener, table, writer, trace)
}

/// Serves connections from a table: it listens, tells where, and serves as many as the words say.
fn serve_table<M: Surroundings, T: ZoneTable, D: Diagnosis<T>, W: Sink, E: Sink>(
    around: &M,
    listen: &str,
    connections: &Connections<'_, M::Clock, D>,
    table: &mut T,
    writer: &mut W,
    trace: &mut E,
) -> Result<(), JobFault>
    ensures told { IsServiceTold (M.around around.now) listen.now connections.now.most M.Listener.cut
        ((table.new ≡ table.old) × (E.contents trace.new ≡ E.contents trace.old) × (E.failures trace.new ≡ E.failures trace.old))
        (λ mid listener after. T.is_honest table.new → AreServedFrom
        (record {
          holds = T.holds;
          leaves = T.leaves;
          failures = T.failures;
          fault = D.fault connections.now.diagnosis.now;
          gives = M.Listener.gives;
          ends = M.Listener.ends;
          flow = M.Listener.Peer.flow;
          times = M.Listener.Peer.times;
        })
        (record {
          rules = connections.now.policy.now;
          limits = limits_in connections.now.patience connections.now.longest;
          most = connections.now.most;
          cut = M.Listener.cut listener;
        })
        table.old listener table.new after result
        (record { old = mid; new = W.contents writer.new; before = W.failures writer.old; after = W.failures writer.new })
        (record { old = E.contents trace.old; new = E.contents trace.new; before = E.failures trace.old; after = E.failures trace.new }))
        (W.contents writer.old) (W.contents writer.new) result (W.failures writer.old) (W.failures writer.new) }
    ensures honest { T.is_honest table.new → T.is_honest table.old }
{
    let (listener, text) = match listening_at(around, listen) {
        Ok(listening) => listening,
        Err(fault) => return Err(write_refusal(around.alloc(), writer, fault)),
    };
    write_text(writer, text.as_bytes())?;
    let blank = Blank::new(1);
    serve_listening::<_, _, Brand, T, D, W, E>(connections, listener, blank, table, writer, trace)
}

/// Serves connections from the table of a store, and hands its connection back.
fn serve_opened<M: Surroundings, S: Alter + Drop, L: Ledger, W: Sink, E: Sink>(
    around: &M,
    service: Service<'_>,
    policy: &Policy,
    table: SqlTable<S, L>,
    writer: &mut W,
    trace: &mut E,
) -> (Connection<S>, Result<(), JobFault>)
    ensures { IsServedBy (state S.Store) (M.around around.now)
        (record { cut = M.Listener.cut; gives = M.Listener.gives; ends = M.Listener.ends; flow = M.Listener.Peer.flow; times = M.Listener.Peer.times })
        service.entry policy.now table.conn result.0
        (record { old = W.contents writer.old; new = W.contents writer.new; before = W.failures writer.old; after = W.failures writer.new }) result.1
        (record { old = E.contents trace.old; new = E.contents trace.new; before = E.failures trace.old; after = E.failures trace.new }) }
{
    let mut table = table;
    limit(&mut table, service.memory);
    let connections = connections_of(around, &service, policy, &Remembered);
    let done = serve_table(
        around,
        service.listen,
        &connections,
        &mut table,
        writer,
        trace,
    );
    (table.into_connection(), done)
}

/// Opens the store, listens, and serves connections by a policy that was read. The connection to the store is handed back, if one was
/// made.
fn serve_by<M: Surroundings, S: Alter + Drop, P: StoreFiles<S> + Drop, L: Ledger, W: Sink, E: Sink>(
    around: &M,
    files: P,
    service: Service<'_>,
    policy: &Policy,
    blank: Blank,
    writer: &mut W,
    trace: &mut E,
) -> (Option<Connection<S>>, Result<(), JobFault>)
    requires name { blank.name ≡ L.name }
    requires parts { blank.parts ≡ L.parts }
    requires some { 0 < blank.parts }
    ensures { BeginsBy (M.around around.now)
        (record { cut = M.Listener.cut; gives = M.Listener.gives; ends = M.Listener.ends; flow = M.Listener.Peer.flow; times = M.Listener.Peer.times })
        (stores_of (state S.Store) (P.finds files) (P.refuses files) (P.connects files)) service.entry policy.now result.0
        (record { old = W.contents writer.old; new = W.contents writer.new; before = W.failures writer.old; after = W.failures writer.new }) result.1
        (record { old = E.contents trace.old; new = E.contents trace.new; before = E.failures trace.old; after = E.failures trace.new }) }
{
    let alloc = around.alloc();
    let opened: Result<SqlTable<S, L>, _> = open_store(alloc, files, service.store, blank);
    match opened {
        Ok(table) => {
            let (conn, done) = serve_opened(around, service, policy, table, writer, trace);
            (Some(conn), done)
        }
        Err(unreached) => {
            let fault = LineFault::from(unreached.fault);
            (unreached.conn, Err(write_refusal(alloc, writer, fault)))
        }
    }
}

/// The job `serve`: reads the policy, opens the store, listens, and serves connections one after the other, so many of them as the
/// words say. A line tells where it listens, and one tells each connection that ended by a fault; or a line tells the refusal that
/// comes first: of the policy, of the store, or `ReadFailed` where there can be no listener or a connection cannot be had. A line of
/// the trace tells of each connection in which requests were answered SERVFAIL. The connection to the store is handed back, if one was
/// made.
pub fn serve<M: Surroundings, S: Alter + Drop, P: StoreFiles<S> + Drop, W: Sink, E: Sink>(
    around: &M,
    files: P,
    service: Service<'_>,
    writer: &mut W,
    trace: &mut E,
) -> (Option<Connection<S>>, Result<(), JobFault>)
    // The line of the first refusal is written, of the policy or of the store of its path; or connections were served from that store by
    // that policy, as `Connections::serve` says, which is what the store is left with, and what a crash leaves of it; and their lines are
    // written.
    ensures { Serves (M.around around.now)
        (record { cut = M.Listener.cut; gives = M.Listener.gives; ends = M.Listener.ends; flow = M.Listener.Peer.flow; times = M.Listener.Peer.times })
        (stores_of (state S.Store) (P.finds files) (P.refuses files) (P.connects files)) service.entry result.0
        (record { old = W.contents writer.old; new = W.contents writer.new; before = W.failures writer.old; after = W.failures writer.new }) result.1
        (record { old = E.contents trace.old; new = E.contents trace.new; before = E.failures trace.old; after = E.failures trace.new }) }
{
    let alloc = around.alloc();
    match policy_of(around, alloc, service.policy) {
        Ok(policy) => {
            let blank = Blank::new(1);
            serve_by::<M, S, P, Brand, W, E>(around, files, service, &policy, blank, writer, trace)
        }
        Err(fault) => (None, Err(write_refusal(alloc, writer, fault))),
    }
}
