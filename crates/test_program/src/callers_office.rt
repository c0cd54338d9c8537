//! The office that callers find, and where it listens.

use anyhow::Result;
use dns_master::read_file;
use dns_names::Name;
use grant_policy::{Policy, read_policy};
use office_core::MemTable;
use std::alloc::Global;
use std::net::{SocketAddr, TcpListener};
use zone_core::Zone;

/// The zone.
const ZONE: &str = "\
example.org. 3600 IN SOA ns1.example.org. admin.example.org. 7 3600 600 86400 60
example.org. 3600 IN NS ns1.example.org.
ns1.example.org. 3600 IN A 192.0.2.1
";

/// A policy that grants all to one caller.
const POLICY: &str = "\
rule = [
  { id = 'r4', effect = 'grant', caller = 'admin', scope = 'subtree', at = 'example.org.', types = '*', actions = '*' },
]
";

/// The policy that callers find.
pub fn policy(alloc: Global) -> Result<Policy> {
    Ok(read_policy(alloc, POLICY.as_bytes())?)
}

/// A table that has the zone.
pub fn table(alloc: Global) -> Result<MemTable> {
    let zone = zone(alloc)?;
    let mut zones = Vec::new(alloc);
    zones.push(zone)?;
    Ok(MemTable::new(alloc, zones)?)
}

fn zone(alloc: Global) -> Result<Zone> {
    let origin = Name::read_absolute(alloc, b"example.org.")?;
    let records = read_file(alloc, ZONE.as_bytes(), &origin)?;
    Ok(Zone::build(alloc, origin, records)?)
}

/// A listener at a port of this machine.
pub fn listening(rt: &HostRuntime) -> Result<TcpListener> {
    let anywhere: SocketAddr = "127.0.0.1:0".parse()?;
    Ok(TcpListener::bind(rt, anywhere)?)
}
