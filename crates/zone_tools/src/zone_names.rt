//! The records that answer for a name: those at it, and where it does not exist, those of a wildcard (RFC 4592).

ghost use Rattle.std.specs.Prelude.{◌≡◌, ◌∷◌, ◌+◌, ◌≤◌, IfOk};
ghost use Rattle.dns_names.specs.Labels.{wire_len};
ghost use Rattle.zone_core.specs.Sets.{listing};
ghost use Rattle.zone_tools.specs.ZoneRules.{asterisk};
ghost use Rattle.zone_tools.specs.ZoneTests.{records_at, is_there, wildcard_over, records_from, answering};

use dns_data::Record;
use dns_names::Name;
use std::alloc::{AllocError, Global};
use zone_core::Zone;

/// The records at a name, in record order.
pub(crate) fn records_at<'a>(zone: &'a Zone, name: &Name) -> &'a [Record]
    ensures { result.now ≡ records_at (listing zone.now.records) name.now }
{
    // the proof needs that the records are in order
    let _ = zone.records();
    zone.records_at(name)
}

/// Whether a name exists: a record is at it or below it (RFC 4592 section 2.2.2).
fn is_there(zone: &Zone, name: &Name) -> bool
    ensures { result ≡ is_there (listing zone.now.records) name.now }
{
    // the proof needs that the records are in order
    let _ = zone.records();
    !zone.records_within(name).is_empty()
}

/// The wildcard below a name. The only error is out of memory.
fn wildcard(alloc: Global, encloser: &Name) -> Result<Name, AllocError>
    requires { wire_len encloser.now + 2 ≤ 255 }
    ensures { IfOk result (λ name. name ≡ asterisk ∷ encloser.now) }
{
    match Name::read_relative(alloc, b"*", encloser) {
        Ok(name) => Ok(name),
        Err(_) => Err(AllocError),
    }
}

/// The wildcard below the closest encloser of a name that does not exist (RFC 4592 section 3.3.1). The only error is out of memory.
fn wildcard_over(alloc: Global, zone: &Zone, name: &Name) -> Result<Option<Name>, AllocError>
    ensures { IfOk result (λ found. found ≡ wildcard_over (listing zone.now.records) name.now) }
{
    // the proof needs that it is a name
    let _ = name.labels();
    let Some(encloser) = name.parent(alloc)? else {
        return Ok(None);
    };
    if is_there(zone, &encloser) {
        return Ok(Some(wildcard(alloc, &encloser)?));
    }
    wildcard_over(alloc, zone, &encloser)
}

/// The records at a name, if there is one.
fn records_from<'a>(zone: &'a Zone, name: &Option<Name>) -> &'a [Record]
    ensures { result.now ≡ records_from (listing zone.now.records) name.now }
{
    match name {
        Some(name) => records_at(zone, name),
        None => &[],
    }
}

/// The records that answer for a name. The only error is out of memory.
pub(crate) fn answering<'a>(
    alloc: Global,
    zone: &'a Zone,
    name: &Name,
) -> Result<&'a [Record], AllocError>
    ensures { IfOk result (λ records. records.now ≡ answering (listing zone.now.records) name.now) }
{
    if is_there(zone, name) {
        return Ok(records_at(zone, name));
    }
    let source = wildcard_over(alloc, zone, name)?;
    Ok(records_from(zone, &source))
}
