//! Laws of the definitions. The functions do nothing: their contracts are the laws.

ghost use Rattle.wire_tcp.specs.Waits.{WaitsEndInTime};

/// A peer is waited for no longer than its patience: what the waits took so far, and what the next of them is allowed, are no more
/// together, by the clock.
pub fn waits_end_in_time()
    ensures { WaitsEndInTime }
{}
