//! What listens for connections.

ghost use Rattle.std.specs.Prelude.{◌≡◌, ◌<◌, ⊤, Result, IfOk, OnErr};
ghost use Rattle.office_wire.specs.declared.ending.Ending.{Ending as EndingOf};
ghost use Rattle.office_wire.specs.declared.serve_fault.ServeFault.{ServeFault as FaultOf};

use dns_master::DeviceFailed;
use office_wire::{Ending, ServeFault};
use std::io;
use std::net::{SocketAddr, TcpListener, TcpStream};
use std::sync::ledger::{Blank, Book, Ledger, Share};
use std::time::Clock;
use wire_tcp::{Listener, Peer, linger};

/// What listens at an address.
pub trait Socket {
    /// What connects to it.
    type Peer: Peer + Drop;

    // No connection can be had.
    ghost cut: { Self → Type 0 };

    // This peer was the next to connect: the socket before it was taken, and after.
    ghost gives: { Self → Self.Peer → Self → Type 0 };

    // This peer is handed back, and its connection ended so: the socket before, and after.
    ghost ends: { Self → Self.Peer → Result EndingOf FaultOf → Self → Type 0 };

    /// The next peer that connects. An error comes only where there is none to be had.
    fn accept(&mut self) -> Result<Self::Peer, DeviceFailed>
        ensures given { IfOk result (λ peer. gives self.old peer self.new) }
        ensures failed { OnErr result (cut self.old) }
        ensures none { OnErr result (self.new ≡ self.old) }
        ensures same { cut self.new → cut self.old };

    /// Takes back a peer whose connection has ended so, and closes it. Where all was answered, the peer may take the last response first.
    fn end<C: Clock>(&mut self, peer: Self::Peer, ended: Result<Ending, ServeFault>, clock: &C)
        ensures given_back { ends self.old peer ended self.new }
        ensures same { cut self.new → cut self.old };
}

/// A socket of this machine. Nothing is known of who connects.
impl Socket for TcpListener {
    type Peer = TcpStream;

    ghost cut = { λ _. ⊤ };

    ghost gives = { λ _ _ _. ⊤ };

    ghost ends = { λ _ _ _ _. ⊤ };

    fn accept(&mut self) -> Result<TcpStream, DeviceFailed> {
        let Ok((stream, _)) = TcpListener::accept(self) else {
            return Err(DeviceFailed);
        };
        // a short response goes out at once
        let _ = stream.set_nodelay(true);
        Ok(stream)
    }

    fn end<C: Clock>(&mut self, stream: TcpStream, ended: Result<Ending, ServeFault>, clock: &C) {
        if ended.is_ok() {
            linger(&stream, clock);
        }
    }
}

/// A socket whose connections are counted, and a clock for the end of each.
#[derive(Drop)]
pub struct CountedListener<'a, C, K: Drop, L: Ledger> {
    clock: &'a C,
    socket: K,
    taken: Book<L>,
    share: Share<L>,
    ghost counts: { 0 < share.parts },
}

impl<'a, C, K: Drop, L: Ledger> CountedListener<'a, C, K, L> {
    /// Counts the connections of a socket from none on.
    pub fn new(clock: &'a C, socket: K, blank: Blank) -> CountedListener<'a, C, K, L>
        requires name { blank.name ≡ L.name }
        requires parts { blank.parts ≡ L.parts }
        requires some { 0 < blank.parts }
        ensures socket { result.socket ≡ socket }
        ensures none { result.taken.total ≡ 0 }
    {
        let (taken, share) = blank.open::<L>();
        CountedListener {
            clock,
            socket,
            taken,
            share,
        }
    }
}

impl<C: Clock, K: Socket + Drop, L: Ledger> Listener for CountedListener<'_, C, K, L> {
    type Peer = K::Peer;

    ghost taken = { λ l. l.taken.total };

    ghost cut = { λ l. K.cut l.socket };

    ghost gives = { λ old peer new. K.gives old.socket peer new.socket };

    ghost ends = { λ old peer ended new. K.ends old.socket peer ended new.socket };

    fn accept(&mut self) -> Result<K::Peer, DeviceFailed> {
        let peer = self.socket.accept()?;
        self.taken.add(&mut self.share, 1);
        Ok(peer)
    }

    fn end(&mut self, peer: K::Peer, ended: Result<Ending, ServeFault>) {
        self.socket.end(peer, ended, self.clock);
    }
}

/// A listener, and where it listens.
pub fn heard(bound: io::Result<TcpListener>) -> Result<(TcpListener, SocketAddr), DeviceFailed> {
    let Ok(listener) = bound else {
        return Err(DeviceFailed);
    };
    match listener.local_addr() {
        Ok(address) => Ok((listener, address)),
        Err(_) => Err(DeviceFailed),
    }
}

/// A listener of this machine, and where it listens.
pub fn listen_at(
    rt: &HostRuntime,
    address: SocketAddr,
) -> Result<(TcpListener, SocketAddr), DeviceFailed> {
    heard(TcpListener::bind(rt, address))
}
