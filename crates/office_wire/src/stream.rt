//! Streams of octets, and the order of what is read from them and written to them.

ghost use Rattle.std.specs.Prelude.{◌≡◌, ◌<◌, ◌≤◌, ℕ, None, length, IfOk};
ghost use Rattle.std.proofs.Common.{◌∙◌, refl};
ghost use Rattle.office_wire.specs.Order.{Flow as FlowOf, ReadsOnce, WritesOnce, CountsOnce, WritesAll, moment};

use dns_master::{DeviceFailed, Sink, Source};

/// A stream of octets in both directions. Each call is one read or one write, and they have an order.
pub trait Stream {
    /// What is still to come, what was written, and the reads and writes so far, each where it is known.
    ghost flow: { Self → FlowOf };

    /// How many of its reads have failed so far.
    ghost failed_reads: { Self → ℕ };

    /// How many of its writes have failed so far.
    ghost failed_writes: { Self → ℕ };

    /// What a read or a write keeps, of the stream before the call and after it.
    ghost keeps: { Self → Self → Type 0 };

    /// Reads once, into a slice that is not empty, and answers how many octets came: none only at the end.
    fn read_some(&mut self, buffer: &mut [u8]) -> Result<usize, DeviceFailed>
        requires { 0 < length buffer.old }
        ensures bound { IfOk result (λ n. n ≤ length buffer.new) }
        ensures read { ReadsOnce (flow self.old) (flow self.new) result buffer.new }
        ensures failed { CountsOnce result (failed_reads self.old) (failed_reads self.new) }
        ensures still { failed_writes self.new ≡ failed_writes self.old }
        ensures kept { keeps self.old self.new };

    /// Writes once, a prefix of a slice that is not empty, and answers how many octets were taken, at least one.
    fn write_some(&mut self, octets: &[u8]) -> Result<usize, DeviceFailed>
        requires { 0 < length octets.now }
        ensures some { IfOk result (λ n. 0 < n) }
        ensures bound { IfOk result (λ n. n ≤ length octets.now) }
        ensures written { WritesOnce (flow self.old) (flow self.new) result octets.now }
        ensures failed { CountsOnce result (failed_writes self.old) (failed_writes self.new) }
        ensures still { failed_reads self.new ≡ failed_reads self.old }
        ensures kept { keeps self.old self.new };

    // No call keeps it, and several calls keep it if each does.
    ghost same: { (s : Self) → keeps s s };

    ghost joins: { (a b c : Self) → keeps a b → keeps b c → keeps a c };
}

/// A reader and a writer. Nothing is known of their order.
#[derive(Drop)]
pub(crate) struct Apart<'a, R, W> {
    pub(crate) reader: &'a mut R,
    pub(crate) writer: &'a mut W,
}

impl<R: Source, W: Sink> Stream for Apart<'_, R, W> {
    ghost flow = { λ s. record { remaining = R.remaining s.reader.now; contents = W.contents s.writer.now; events = None } };

    ghost failed_reads = { λ s. R.failures s.reader.now };

    ghost failed_writes = { λ s. W.failures s.writer.now };

    ghost keeps = { λ s t. (t.reader.ghost_name ≡ s.reader.ghost_name) × (t.writer.ghost_name ≡ s.writer.ghost_name) };

    ghost same = { λ s. (refl, refl) };

    ghost joins = { λ a b c p q. (q.0 ∙ p.0, q.1 ∙ p.1) };

    fn read_some(&mut self, buffer: &mut [u8]) -> Result<usize, DeviceFailed> {
        self.reader.read_some(buffer)
    }

    fn write_some(&mut self, octets: &[u8]) -> Result<usize, DeviceFailed> {
        self.writer.write_some(octets)
    }
}

// It is not `dns_master::write_all`, since each of its writes is one of the stream's calls.
/// Writes all octets, in as many pieces as the stream takes. A write that failed is the last one.
pub(crate) fn write_all<S: Stream>(stream: &mut S, octets: &[u8]) -> Result<(), DeviceFailed>
    ensures written { WritesAll octets.now result (moment (S.flow stream.old)) (moment (S.flow stream.new)) }
    ensures failed { CountsOnce result (S.failed_writes stream.old) (S.failed_writes stream.new) }
    ensures unread { (S.flow stream.new).remaining ≡ (S.flow stream.old).remaining }
    ensures still { S.failed_reads stream.new ≡ S.failed_reads stream.old }
    ensures kept { S.keeps stream.old stream.new }
{
    let mut rest = octets;
    while !rest.is_empty() {
        let count = stream.write_some(rest)?;
        rest = &rest[count..];
    }
    Ok(())
}
