//! Readers and writers that are asked for one piece at a time, and whose failures are counted.

ghost use Rattle.std.specs.Prelude.{◌≡◌, ◌+◌, ◌<◌, ◌≤◌, ◌↔◌, ◌⊎◌, ℕ, List, Option, Some, None, drop, length, min, max, vec_len, IfOk, IfErr, IsOk, IsErr, OnOk, OnErr};
ghost use Rattle.std.specs.IoError.{error_kind};
ghost use Rattle.std.specs.Io.KnownBytes.{ReadConsumes, WriteAppends};
ghost use Rattle.dns_master.specs.Written.{IsWritten};

use std::io::{self, ErrorKind, Read, Write};
use std::sync::ledger::{Blank, Book, Ledger, Share};

/// A device failed. What it was asked to do is not tried again.
#[derive(Clone, Copy, PartialEq, Eq)]
pub struct DeviceFailed;

/// A device whose failed reads or writes are counted, for contracts alone: the count has no greatest value and takes no
/// bytes.
pub trait FaultCount {
    /// How many of its reads or writes have failed so far.
    ghost failures: { Self → ℕ };
}

/// A device that octets are read from.
pub trait Source: FaultCount {
    /// The octets that are still to come, where they are known.
    ghost remaining: { Self → Option (List ℕ) };

    /// Reads once, into a slice that is not empty, and answers how many octets came: none only at the end. Any error counts
    /// as a failure.
    fn read_some(&mut self, buffer: &mut [u8]) -> Result<usize, DeviceFailed>
        requires { 0 < length buffer.old }
        ensures bound { IfOk result (λ n. n ≤ length buffer.new) }
        ensures bytes { ReadConsumes (remaining self.old) (remaining self.new) result buffer.new }
        ensures fine { OnOk result (Self.failures self.new ≡ Self.failures self.old) }
        ensures failed { OnErr result (Self.failures self.new ≡ Self.failures self.old + 1) };
}

/// A device that octets are written to.
pub trait Sink: FaultCount {
    /// The octets that it holds, where they are known.
    ghost contents: { Self → Option (List ℕ) };

    /// Writes once, a prefix of a slice that is not empty, and answers how many octets were taken, at least one. Any error
    /// counts as a failure, and so does a write that takes none.
    fn write_some(&mut self, bytes: &[u8]) -> Result<usize, DeviceFailed>
        requires { 0 < length bytes.now }
        ensures some { IfOk result (λ n. 0 < n) }
        ensures bound { IfOk result (λ n. n ≤ length bytes.now) }
        ensures bytes { WriteAppends (contents self.old) (contents self.new) result bytes.now }
        ensures fine { OnOk result (Self.failures self.new ≡ Self.failures self.old) }
        ensures failed { OnErr result (Self.failures self.new ≡ Self.failures self.old + 1) };
}

/// Writes all octets, in as many pieces as the writer takes. A write that failed is the last one.
pub fn write_all<W: Sink>(writer: &mut W, octets: &[u8]) -> Result<(), DeviceFailed>
    ensures { IsWritten (W.contents writer.old) (W.contents writer.new) octets.now result (W.failures writer.old) (W.failures writer.new) }
{
    let mut rest = octets;
    while !rest.is_empty() {
        let count = writer.write_some(rest)?;
        rest = &rest[count..];
    }
    Ok(())
}

/// A reader or a writer of std, with its failures counted.
#[derive(Drop)]
pub struct Counted<T, L: Ledger> {
    inner: T,
    book: Book<L>,
    share: Share<L>,
    ghost counts: { 0 < share.parts },
}

impl<T, L: Ledger> Counted<T, L> {
    /// Counts the failures of a reader or a writer from none on.
    pub fn new(inner: T, blank: Blank) -> Counted<T, L>
        requires name { blank.name ≡ L.name }
        requires parts { blank.parts ≡ L.parts }
        requires some { 0 < blank.parts }
        ensures device { result.inner ≡ inner }
        ensures none { result.book.total ≡ 0 }
    {
        let (book, share) = blank.open::<L>();
        Counted { inner, book, share }
    }

    /// The reader or the writer.
    pub fn into_inner(self) -> T
        ensures { result ≡ self.inner }
    {
        self.inner
    }
}

impl<T, L: Ledger> FaultCount for Counted<T, L> {
    ghost failures = { λ c. c.book.total };
}

impl<T: Read, L: Ledger> Source for Counted<T, L> {
    ghost remaining = { λ c. T.remaining c.inner };

    fn read_some(&mut self, buffer: &mut [u8]) -> Result<usize, DeviceFailed> {
        match self.inner.read(buffer) {
            Ok(count) => Ok(count),
            Err(_) => {
                self.book.add(&mut self.share, 1);
                Err(DeviceFailed)
            }
        }
    }
}

impl<T: Write, L: Ledger> Sink for Counted<T, L> {
    ghost contents = { λ c. T.contents c.inner };

    fn write_some(&mut self, bytes: &[u8]) -> Result<usize, DeviceFailed> {
        match self.inner.write(bytes) {
            Ok(count) if count > 0 => Ok(count),
            _ => {
                self.book.add(&mut self.share, 1);
                Err(DeviceFailed)
            }
        }
    }
}

/// A reader and a writer over memory, for tests: it gives and takes octets in pieces, and fails at a chosen call. A read
/// gives one octet at least, until the end.
#[derive(Drop)]
pub struct Pieces {
    /// What there is to read, and what was written after it.
    pub octets: Vec<u8>,
    /// How many of the octets were read.
    pub read: usize,
    /// The most octets that a call moves.
    pub most: usize,
    /// How many calls there were.
    pub calls: usize,
    /// The call that fails, counted from 1, and 0 where none does.
    pub fails: usize,
    ghost within: { read ≤ vec_len octets },
}

impl Pieces {
    ghost use Rattle.dns_master.specs.Device.{TurnsOnce};

    /// Octets to read or to write after, at most so many in a call, of which the one of this number fails.
    pub fn new(octets: Vec<u8>, most: usize, fails: usize) -> Pieces
        ensures octets { result.octets ≡ octets }
        ensures none_read { result.read ≡ 0 }
        ensures most { result.most ≡ most }
        ensures no_call { result.calls ≡ 0 }
        ensures fails { result.fails ≡ fails }
    {
        Pieces {
            octets,
            read: 0,
            most,
            calls: 0,
            fails,
        }
    }

    /// How many octets the next call moves where it is asked for so many, or its failure.
    fn turn(&mut self, asked: usize) -> io::Result<usize>
        ensures count { IfOk result (λ count. count ≡ min asked self.old.most) }
        ensures fails { IsErr result ↔ (self.new.calls ≡ self.old.fails) }
        ensures kind { IfErr result (λ e. error_kind e ≡ ErrorKind.Other) }
        ensures turns { TurnsOnce self.old self.new }
        ensures read { self.new.read ≡ self.old.read }
        ensures octets { self.new.octets ≡ self.old.octets }
    {
        self.calls = self.calls.saturating_add(1);
        if self.calls == self.fails {
            return Err(io::Error::from(ErrorKind::Other));
        }
        Ok(asked.min(self.most))
    }
}

impl Read for Pieces {
    ghost use Rattle.dns_master.specs.Device.{TurnsOnce};
    ghost use Rattle.std.specs.Io.{ReadsAtMost};

    ghost remaining = { λ p. Some (drop p.read p.octets.items) };

    fn read(&mut self, buffer: &mut [u8]) -> io::Result<usize>
        ensures bound { ReadsAtMost result buffer.new }
        ensures bytes { ReadConsumes (Some (drop self.old.read self.old.octets.items)) (Some (drop self.new.read self.new.octets.items)) result buffer.new }
        ensures most { IfOk result (λ count. count ≤ max self.old.most 1) }
        ensures fails { IsErr result ↔ (self.new.calls ≡ self.old.fails) }
        ensures turns { TurnsOnce self.old self.new }
    {
        let left = self.octets.len() - self.read;
        let room = left.min(buffer.len());
        // a read of none would say that this is the end
        let count = self.turn(room)?.max(room.min(1));
        let end = self.read + count;
        buffer[..count].copy_from_slice(&self.octets[self.read..end]);
        self.read = end;
        Ok(count)
    }
}

impl Write for Pieces {
    ghost use Rattle.dns_master.specs.Device.{TurnsOnce};
    ghost use Rattle.std.specs.Io.{WritesAtMost};
    ghost use Rattle.std.specs.Io.KnownBytes.{Keeps};

    ghost contents = { λ p. Some p.octets.items };

    fn write(&mut self, octets: &[u8]) -> io::Result<usize>
        ensures bound { WritesAtMost result octets.now }
        ensures bytes { WriteAppends (Some self.old.octets.items) (Some self.new.octets.items) result octets.now }
        ensures most { IfOk result (λ count. count ≡ min (length octets.now) self.old.most) }
        ensures fails { self.new.calls ≡ self.old.fails → IsErr result }
        ensures only { IfErr result (λ e. (self.new.calls ≡ self.old.fails) ⊎ (error_kind e ≡ ErrorKind.OutOfMemory)) }
        ensures turns { TurnsOnce self.old self.new }
    {
        let count = self.turn(octets.len())?;
        self.octets.extend_from_slice(&octets[..count])?;
        Ok(count)
    }

    fn flush(&mut self) -> io::Result<()>
        ensures bytes { Keeps (Some self.old.octets.items) (Some self.new.octets.items) }
        ensures fine { IsOk result }
    {
        Ok(())
    }
}
