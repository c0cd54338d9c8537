//! Where connections come from.

ghost use Rattle.std.specs.Prelude.{◌≡◌, ◌+◌, ℕ, Result, IfOk, OnOk, OnErr};
ghost use Rattle.office_wire.specs.declared.ending.Ending.{Ending as EndingOf};
ghost use Rattle.office_wire.specs.declared.serve_fault.ServeFault.{ServeFault as FaultOf};

use crate::peer::Peer;
use dns_master::DeviceFailed;
use office_wire::{Ending, ServeFault};

/// What peers connect to. It counts the connections that it has taken, for contracts alone: the count has no greatest value.
pub trait Listener {
    /// What connects to it.
    type Peer: Peer + Drop;

    // How many connections it has taken.
    ghost taken: { Self → ℕ };

    // No connection can be had.
    ghost cut: { Self → Type 0 };

    // This peer was the next to connect: the listener before it was taken, and after.
    ghost gives: { Self → Self.Peer → Self → Type 0 };

    // This peer is handed back, and its connection ended so: the listener before, and after.
    ghost ends: { Self → Self.Peer → Result EndingOf FaultOf → Self → Type 0 };

    /// The next peer that connects. An error comes only where there is none to be had.
    fn accept(&mut self) -> Result<Self::Peer, DeviceFailed>
        ensures one { OnOk result (taken self.new ≡ taken self.old + 1) }
        ensures given { IfOk result (λ peer. gives self.old peer self.new) }
        ensures failed { OnErr result (cut self.old) }
        ensures none { OnErr result (self.new ≡ self.old) }
        ensures same { cut self.new → cut self.old };

    /// Takes back a peer whose connection has ended so, and closes it. Where all was answered, the peer may take the last response first.
    fn end(&mut self, peer: Self::Peer, ended: Result<Ending, ServeFault>)
        ensures given_back { ends self.old peer ended self.new }
        ensures count { taken self.new ≡ taken self.old }
        ensures same { cut self.new → cut self.old };
}
