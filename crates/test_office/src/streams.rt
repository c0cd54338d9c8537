//! Streams of requests, and what is answered on them.

ghost use Rattle.std.specs.Prelude.{◌≡◌, ◌<◌};

use anyhow::Result;
use dns_master::{Counted, Pieces};
use grant_policy::Policy;
use office_model::ZoneTable;
use office_wire::{ServeFault, serve};
use std::alloc::{AllocError, Global};
use std::marker::Brand;
use std::sync::ledger::{Blank, Ledger};

/// The octets of a stream, how many a call moves at most, and which read and which write fail, from 1 on, and 0 where none does.
#[derive(Drop)]
pub struct Stream {
    pub octets: Vec<u8>,
    pub most: usize,
    pub read_fails: usize,
    pub write_fails: usize,
}

impl Stream {
    /// A stream of no octets, of which a call moves as many as there are.
    pub fn new(alloc: Global) -> Stream {
        Stream {
            octets: Vec::new(alloc),
            most: usize::MAX,
            read_fails: 0,
            write_fails: 0,
        }
    }

    /// Appends a request of a caller without a body.
    pub fn push_get(&mut self, target: &[u8], caller: &[u8]) -> Result<(), AllocError> {
        self.push_head(b"GET ", target, caller)?;
        self.octets.extend_from_slice(b"\r\n\r\n")
    }

    /// Appends a request of a caller with a body.
    pub fn push_post(
        &mut self,
        alloc: Global,
        target: &[u8],
        caller: &[u8],
        body: &[u8],
    ) -> Result<(), AllocError> {
        self.push_head(b"POST ", target, caller)?;
        let length = format!(in alloc; "\r\nContent-Length: {}\r\n\r\n", body.len())?;
        self.octets.extend_from_slice(length.as_bytes())?;
        self.octets.extend_from_slice(body)
    }

    fn push_head(&mut self, method: &[u8], target: &[u8], caller: &[u8]) -> Result<(), AllocError> {
        self.octets.extend_from_slice(method)?;
        self.octets.extend_from_slice(target)?;
        self.octets
            .extend_from_slice(b" HTTP/1.1\r\nX-Office-Caller: ")?;
        self.octets.extend_from_slice(caller)
    }

    /// The device from which its octets are read.
    fn reader(&self, alloc: Global) -> Result<Pieces, AllocError> {
        let octets = Vec::from_slice(alloc, &self.octets)?;
        Ok(Pieces::new(octets, self.most, self.read_fails))
    }

    /// The device to which the answers are written.
    fn writer(&self, alloc: Global) -> Pieces {
        Pieces::new(Vec::new(alloc), self.most, self.write_fails)
    }
}

/// What is answered to a stream, and how it ended.
type Served = (Vec<u8>, Result<(), ServeFault>);

fn served<R: Ledger, W: Ledger, T: ZoneTable>(
    alloc: Global,
    table: &mut T,
    policy: &Policy,
    devices: (Pieces, Pieces),
    reads: Blank,
    writes: Blank,
) -> Served
    requires reads_name { reads.name ≡ R.name }
    requires reads_parts { reads.parts ≡ R.parts }
    requires reads_some { 0 < reads.parts }
    requires writes_name { writes.name ≡ W.name }
    requires writes_parts { writes.parts ≡ W.parts }
    requires writes_some { 0 < writes.parts }
{
    let (reader, writer) = devices;
    let mut reader: Counted<Pieces, R> = Counted::new(reader, reads);
    let mut writer: Counted<Pieces, W> = Counted::new(writer, writes);
    let result = serve(alloc, &mut reader, &mut writer, table, policy);
    (writer.into_inner().octets, result)
}

fn serve_stream<T: ZoneTable>(
    alloc: Global,
    table: &mut T,
    policy: &Policy,
    devices: (Pieces, Pieces),
) -> Served {
    let (reads, writes) = (Blank::new(1), Blank::new(1));
    served::<Brand, Brand, T>(alloc, table, policy, devices, reads, writes)
}

/// Appends what is answered to a stream, and then the fault by which it ended, where there is one.
pub fn push_served<T: ZoneTable>(
    alloc: Global,
    table: &mut T,
    policy: &Policy,
    stream: &Stream,
    told: &mut Vec<Vec<u8>>,
) -> Result<()> {
    let devices = (stream.reader(alloc)?, stream.writer(alloc));
    let (octets, result) = serve_stream(alloc, table, policy, devices);
    told.push(octets)?;
    if let Err(fault) = result {
        told.push(fault_text(alloc, fault)?)?;
    }
    Ok(())
}

fn fault_text(alloc: Global, fault: ServeFault) -> Result<Vec<u8>> {
    let number = fault.number();
    let text = format!(in alloc; "refused {number}: {fault}")?;
    Ok(Vec::from_slice(alloc, text.as_bytes())?)
}
