//! Connections of callers in memory, of whom all is known.

ghost use Rattle.std.specs.Prelude.{◌≡◌, ◌+◌, ◌-◌, ◌<◌, ◌≤◌, List, Option, Some, ⊤, length, slice_get, slice_set, vec_len};
ghost use Rattle.office_wire.specs.declared.serve_fault.ServeFault.{ServeFault as FaultOf};
ghost use Rattle.wire_tcp.specs.Limits.{limits_in};
ghost use Rattle.wire_tcp.specs.Connections.{AreReported, AreServedFrom};
ghost use Rattle.refuse_cli_store.specs.declared.caller.Caller.{Caller as CallerOf};

use crate::caller::Caller;
use cli_core::JobFault;
use dns_master::{DeviceFailed, Sink};
use office_model::ZoneTable;
use office_wire::{Ending, ServeFault};
use std::alloc::Global;
use std::mem;
use std::sync::ledger::{Book, Ledger, Share};
use std::time::Clock;
use wire_tcp::{Connections, Diagnosis, Listener, Peer};

/// Callers in memory, which connect one after the other.
#[derive(Drop)]
pub struct Callers<L: Ledger> {
    alloc: Global,
    /// All of them; in the place of the one that is served there is nobody.
    pub callers: Vec<Caller>,
    /// How many have connected.
    pub next: usize,
    /// How the connection of the last one that was served ended.
    pub ended: Result<Ending, ServeFault>,
    taken: Book<L>,
    share: Share<L>,
    ghost counts: { 0 < share.parts },
    ghost within: { next ≤ vec_len callers },
}

impl<L: Ledger> Listener for Callers<L> {
    type Peer = Caller;

    ghost taken = { λ l. l.taken.total };

    ghost cut = { λ _. ⊤ };

    ghost gives = { λ old peer new. (slice_get old.callers.items old.next ≡ Some peer) × (new.next ≡ old.next + 1)
        × (nobody : CallerOf) × (new.callers.items ≡ slice_set old.callers.items old.next nobody) };

    ghost ends = { λ old peer ended new. (new.next ≡ old.next) × (new.ended ≡ ended)
        × (new.callers.items ≡ slice_set old.callers.items (old.next - 1) peer) };

    fn accept(&mut self) -> Result<Caller, DeviceFailed> {
        if self.next == self.callers.len() {
            return Err(DeviceFailed);
        }
        let peer = mem::replace(&mut self.callers[self.next], Caller::nobody(self.alloc));
        self.next += 1;
        self.taken.add(&mut self.share, 1);
        Ok(peer)
    }

    fn end(&mut self, peer: Caller, ended: Result<Ending, ServeFault>) {
        self.ended = ended;
        let place = self.next.saturating_sub(1);
        if place < self.callers.len() {
            self.callers[place] = peer;
        }
    }
}

/// `Connections::serve`, of callers in memory.
pub fn serve_callers<L: Ledger, T: ZoneTable, D: Diagnosis<T>, C: Clock, W: Sink, E: Sink>(
    connections: &Connections<'_, C, D>,
    callers: &mut Callers<L>,
    table: &mut T,
    writer: &mut W,
    trace: &mut E,
) -> Result<(), JobFault>
    ensures served { T.is_honest table.new → AreServedFrom
        (record {
          holds = T.holds;
          leaves = T.leaves;
          failures = T.failures;
          fault = D.fault connections.now.diagnosis.now;
          gives = ⟦<Callers<L> as Listener>⟧.gives;
          ends = ⟦<Callers<L> as Listener>⟧.ends;
          flow = ⟦<Caller as Peer>⟧.flow;
          times = ⟦<Caller as Peer>⟧.times;
        })
        (record {
          rules = connections.now.policy.now;
          limits = limits_in connections.now.patience connections.now.longest;
          most = connections.now.most;
          cut = ⊤;
        })
        table.old callers.old table.new callers.new result
        (record { old = W.contents writer.old; new = W.contents writer.new; before = W.failures writer.old; after = W.failures writer.new })
        (record { old = E.contents trace.old; new = E.contents trace.new; before = E.failures trace.old; after = E.failures trace.new }) }
    ensures written { (ends : List (Option FaultOf))
        × AreReported ⊤ connections.now.most ends (W.contents writer.old) (W.contents writer.new) result
        (W.failures writer.old) (W.failures writer.new)
        × (callers.new.taken.total ≡ callers.old.taken.total + length ends) }
{
    let done = connections.serve(callers, table, writer, trace);
    done
}
