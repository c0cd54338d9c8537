//! What is known of a zone while its records are checked: where it is cut, and which servers its NS records name.

ghost use Rattle.std.specs.Prelude.{◌≡◌, IfOk};
ghost use Rattle.std.specs.List.{find, list_any};
ghost use Rattle.std.specs.Option.{option_copied};
ghost use Rattle.dns_names.specs.Labels.{is_within};
ghost use Rattle.dns_data.specs.Rdata.{type_of};
ghost use Rattle.zone_core.specs.Sets.{listing};
ghost use Rattle.zone_core.specs.Outermost.{AreApart};
ghost use Rattle.zone_tools.specs.ZoneRules.{server_of};
ghost use Rattle.zone_tools.specs.ZoneTests.{is_ns, is_cname, is_ds, is_address, some_type, is_cut, is_delegated, is_below_cut, is_occluded, is_server, AreTopCuts, AreServers, IsSurvey};

use dns_data::{Data, Record, RecordType};
use dns_names::Name;
use std::alloc::{AllocError, Global};
use zone_core::{Zone, cuts, is_below, outermost, servers};

/// A zone, and what is looked up in it again and again.
#[derive(Drop)]
pub(crate) struct Survey<'a> {
    pub(crate) zone: &'a Zone,
    /// The cuts that are below no other, in canonical order.
    pub(crate) cuts: Vec<Name>,
    /// The servers that NS records name, in canonical order.
    pub(crate) servers: Vec<Name>,
}

/// Whether a record is an NS.
fn is_ns(rr: &Record) -> bool
    ensures { result ≡ is_ns (type_of rr.now.rdata) }
{
    matches!(rr.record_type(), RecordType::Ns)
}

/// Whether a record is a CNAME.
fn is_cname(rr: &Record) -> bool
    ensures { result ≡ is_cname (type_of rr.now.rdata) }
{
    matches!(rr.record_type(), RecordType::Cname)
}

/// Whether a record is a DS.
pub(crate) fn is_ds(rr: &Record) -> bool
    ensures { result ≡ is_ds (type_of rr.now.rdata) }
{
    matches!(rr.record_type(), RecordType::Ds)
}

/// Whether a record is an address.
pub(crate) fn is_address(rr: &Record) -> bool
    ensures { result ≡ is_address (type_of rr.now.rdata) }
{
    matches!(rr.record_type(), RecordType::A | RecordType::Aaaa)
}

/// The server that data name.
pub(crate) fn server_of(rdata: &Data) -> Option<&Name>
    ensures { option_copied result ≡ server_of rdata.now }
{
    match rdata {
        Data::Ns(server) => Some(server),
        Data::Mx { exchange, .. } => Some(exchange),
        Data::Srv { target, .. } => Some(target),
        _ => None,
    }
}

/// Whether a record cuts a zone of this origin at its owner.
pub(crate) fn is_cut(origin: &Name, rr: &Record) -> bool
    ensures { result ≡ is_cut origin.now rr.now }
{
    is_ns(rr) && is_below(&rr.owner, origin)
}

/// The cut at or above a name.
fn cut_over<'a>(cuts: &'a [Name], name: &Name) -> Option<&'a Name>
    requires { AreApart cuts.now }
    ensures { option_copied result ≡ find (λ cut. is_within name.now cut) cuts.now }
{
    let count = cuts.partition_point(|cut| *cut <= *name);
    if count == 0 {
        return None;
    }
    let nearest = &cuts[count - 1];
    if name.is_within(nearest) {
        Some(nearest)
    } else {
        None
    }
}

/// Whether a name is at or below one of the cuts.
fn is_covered(cuts: &[Name], name: &Name) -> bool
    requires { AreApart cuts.now }
    ensures { result ≡ list_any (λ cut. is_within name.now cut) cuts.now }
{
    cut_over(cuts, name).is_some()
}

/// The cuts of a zone that are below no other. The only error is out of memory.
fn top_cuts(alloc: Global, zone: &Zone) -> Result<Vec<Name>, AllocError>
    ensures { IfOk result (λ cuts. AreTopCuts zone.now.origin (listing zone.now.records) cuts.items) }
{
    let all = cuts(alloc, zone.origin(), zone.records())?;
    let tops = outermost(alloc, &all)?;
    Ok(tops)
}

/// The servers that NS records of a zone name, in order. The only error is out of memory.
fn servers_of(alloc: Global, zone: &Zone) -> Result<Vec<Name>, AllocError>
    ensures { IfOk result (λ servers. AreServers (listing zone.now.records) servers.items) }
{
    let names = servers(alloc, zone.records())?;
    Ok(names)
}

impl<'a> Survey<'a> {
    /// The survey of a zone. The only error is out of memory.
    pub(crate) fn of(alloc: Global, zone: &'a Zone) -> Result<Survey<'a>, AllocError>
        ensures survey { IfOk result (λ survey. IsSurvey survey) }
        ensures zone { IfOk result (λ survey. survey.zone.now ≡ zone.now) }
    {
        Ok(Survey {
            zone,
            cuts: top_cuts(alloc, zone)?,
            servers: servers_of(alloc, zone)?,
        })
    }

    /// Whether a name is at or below a cut.
    pub(crate) fn is_delegated(&self, name: &Name) -> bool
        requires { IsSurvey self.now }
        ensures { result ≡ is_delegated self.now.zone.now.origin (listing self.now.zone.now.records) name.now }
    {
        is_covered(&self.cuts, name)
    }

    /// Whether a name is below a cut.
    fn is_below_cut(&self, name: &Name) -> bool
        requires { IsSurvey self.now }
        ensures { result ≡ is_below_cut self.now.zone.now.origin (listing self.now.zone.now.records) name.now }
    {
        match cut_over(&self.cuts, name) {
            Some(cut) => name != cut,
            None => false,
        }
    }

    /// Whether a delegation occludes a record.
    pub(crate) fn is_occluded(&self, rr: &Record) -> bool
        requires { IsSurvey self.now }
        ensures { result ≡ is_occluded self.now.zone.now.origin (listing self.now.zone.now.records) rr.now }
    {
        self.is_delegated(&rr.owner) && !((is_ns(rr) || is_ds(rr)) && !self.is_below_cut(&rr.owner))
    }

    /// Whether an NS names this server.
    pub(crate) fn is_server(&self, name: &Name) -> bool
        requires { IsSurvey self.now }
        ensures { result ≡ is_server (listing self.now.zone.now.records) name.now }
    {
        self.servers.binary_search(name).is_ok()
    }
}

/// Whether an address is among records.
pub(crate) fn has_address(records: &[Record]) -> bool
    ensures { result ≡ some_type is_address records.now }
{
    records.iter().any(is_address)
}

/// Whether a CNAME is among records.
pub(crate) fn has_cname(records: &[Record]) -> bool
    ensures { result ≡ some_type is_cname records.now }
{
    records.iter().any(is_cname)
}

/// Whether an NS is among records.
pub(crate) fn has_ns(records: &[Record]) -> bool
    ensures { result ≡ some_type is_ns records.now }
{
    records.iter().any(is_ns)
}
