//! Connections of any listener, of whom nothing is known but what its contract says.

ghost use Rattle.std.specs.Prelude.{◌≡◌, ◌+◌, List, Option, length};
ghost use Rattle.office_wire.specs.declared.serve_fault.ServeFault.{ServeFault as FaultOf};
ghost use Rattle.wire_tcp.specs.Limits.{limits_in};
ghost use Rattle.wire_tcp.specs.Connections.{AreReported, AreServedFrom};

use cli_core::JobFault;
use dns_master::Sink;
use office_model::ZoneTable;
use std::time::Clock;
use wire_tcp::{Connections, Diagnosis, Listener};

/// `Connections::serve`, of any listener.
pub fn serve_any<H: Listener, T: ZoneTable, D: Diagnosis<T>, C: Clock, W: Sink, E: Sink>(
    connections: &Connections<'_, C, D>,
    listener: &mut H,
    table: &mut T,
    writer: &mut W,
    trace: &mut E,
) -> Result<(), JobFault>
    ensures served { T.is_honest table.new → AreServedFrom
        (record {
          holds = T.holds;
          leaves = T.leaves;
          failures = T.failures;
          fault = D.fault connections.now.diagnosis.now;
          gives = H.gives;
          ends = H.ends;
          flow = H.Peer.flow;
          times = H.Peer.times;
        })
        (record {
          rules = connections.now.policy.now;
          limits = limits_in connections.now.patience connections.now.longest;
          most = connections.now.most;
          cut = H.cut listener.old;
        })
        table.old listener.old table.new listener.new result
        (record { old = W.contents writer.old; new = W.contents writer.new; before = W.failures writer.old; after = W.failures writer.new })
        (record { old = E.contents trace.old; new = E.contents trace.new; before = E.failures trace.old; after = E.failures trace.new }) }
    ensures written { (ends : List (Option FaultOf))
        × AreReported (H.cut listener.old) connections.now.most ends (W.contents writer.old) (W.contents writer.new) result
        (W.failures writer.old) (W.failures writer.new)
        × (H.taken listener.new ≡ H.taken listener.old + length ends) }
{
    let done = connections.serve(listener, table, writer, trace);
    done
}
