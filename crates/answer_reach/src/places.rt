//! The names that an answer reads, and those at which a change may change it.

use crate::asker::{Asker, asked_at};
use crate::names::{ordered, push_up_to, wildcard};
use crate::specimens::name_outside;
use dns_data::{Data, Record, RecordType};
use dns_names::{Name, NameFault};
use std::alloc::{AllocError, Global};
use zone_answers::QueryType;
use zone_core::Zone;

/// How many names of aliases are followed at most.
const ALIASES_MAX: usize = 8;

/// The name with a label before another, unless it is too long. The only error is out of memory.
pub(crate) fn child(alloc: Global, label: &[u8], above: &Name) -> Result<Option<Name>, AllocError> {
    match Name::read_relative(alloc, label, above) {
        Ok(name) => Ok(Some(name)),
        Err(NameFault::NoMemory) => Err(AllocError),
        Err(_) => Ok(None),
    }
}

/// Appends a copy of a name that is not yet among some. The only error is out of memory.
fn push_new(alloc: Global, names: &mut Vec<Name>, name: &Name) -> Result<(), AllocError> {
    if names.iter().any(|known| known == name) {
        return Ok(());
    }
    names.push(name.try_copy(alloc)?)?;
    Ok(())
}

/// Appends the names that the records at a name lead to: servers to some, and targets of aliases to others. The only error is out of memory.
fn push_led(
    alloc: Global,
    servers: &mut Vec<Name>,
    targets: &mut Vec<Name>,
    records: &[Record],
) -> Result<(), AllocError> {
    for record in records {
        match &record.rdata {
            Data::Ns(server) => push_new(alloc, servers, server)?,
            Data::Cname(target) => push_new(alloc, targets, target)?,
            _ => {}
        }
    }
    Ok(())
}

/// The names from one up to an origin, with the wildcard below each. The only error is out of memory.
fn near(alloc: Global, origin: &Name, name: &Name) -> Result<Vec<Name>, AllocError> {
    let mut above = Vec::new(alloc);
    push_up_to(alloc, &mut above, origin, name)?;
    let mut names = Vec::new(alloc);
    for one in above {
        if let Some(child) = wildcard(alloc, &one)? {
            names.push(child)?;
        }
        names.push(one)?;
    }
    Ok(names)
}

/// What the answers to questions for a name read, and those that they are led to.
#[derive(Drop)]
pub(crate) struct Places {
    /// The name, and those to which aliases lead.
    pub(crate) asked: Vec<Name>,
    /// Those from these up to the origin, and the wildcards below them.
    pub(crate) near: Vec<Name>,
    /// The servers of cuts.
    pub(crate) servers: Vec<Name>,
}

impl Places {
    /// Appends the places of one more name. The only error is out of memory.
    fn push(&mut self, alloc: Global, zone: &Zone, name: &Name) -> Result<(), AllocError> {
        for one in near(alloc, zone.origin(), name)? {
            let records = asked_at(zone, &one, QueryType::Any);
            push_led(alloc, &mut self.servers, &mut self.asked, records)?;
            push_new(alloc, &mut self.near, &one)?;
        }
        Ok(())
    }
}

/// The places of a name. The only error is out of memory.
pub(crate) fn places_of(alloc: Global, zone: &Zone, name: &Name) -> Result<Places, AllocError> {
    let mut places = Places {
        asked: Vec::new(alloc),
        near: Vec::new(alloc),
        servers: Vec::new(alloc),
    };
    places.asked.push(name.try_copy(alloc)?)?;
    for i in 0..ALIASES_MAX {
        if i < places.asked.len() {
            let next = places.asked[i].try_copy(alloc)?;
            places.push(alloc, zone, &next)?;
        }
    }
    Ok(places)
}

/// Appends the owners of the first and the last of some records. The only error is out of memory.
fn push_ends(alloc: Global, names: &mut Vec<Name>, records: &[Record]) -> Result<(), AllocError> {
    if let Some(first) = records.first() {
        names.push(first.owner.try_copy(alloc)?)?;
    }
    if let Some(last) = records.last() {
        names.push(last.owner.try_copy(alloc)?)?;
    }
    Ok(())
}

/// The names whose records tell what answers read at some places: those at them, and for each place a record within it, if there is one,
/// which no operation at one name takes away. The only error is out of memory.
pub(crate) fn names_read(
    alloc: Global,
    zone: &Zone,
    places: &Places,
) -> Result<Vec<Name>, AllocError> {
    let mut names = Vec::new(alloc);
    for name in &places.near {
        names.push(name.try_copy(alloc)?)?;
        push_ends(alloc, &mut names, zone.records_within(name))?;
    }
    for server in &places.servers {
        names.push(server.try_copy(alloc)?)?;
    }
    names.push(name_outside(alloc)?)?;
    ordered(names)
}

impl<'a> Asker<'a> {
    /// Whether a rule can grant changes at or below a name.
    fn may_grant_within(&self, name: &Name) -> bool {
        self.rights.may_grant(name) || self.rights.tops().iter().any(|top| top.is_within(name))
    }

    /// Appends a name, if a rule can grant changes at or below it. The only error is out of memory.
    fn push_granted(
        &self,
        alloc: Global,
        names: &mut Vec<Name>,
        name: &Name,
    ) -> Result<(), AllocError> {
        if !self.is_inside(name) || !self.may_grant_within(name) {
            return Ok(());
        }
        push_new(alloc, names, name)
    }

    /// Appends a name and one below it, if a rule can grant changes there. The only error is out of memory.
    fn push_with_below(
        &self,
        alloc: Global,
        names: &mut Vec<Name>,
        name: &Name,
    ) -> Result<(), AllocError> {
        self.push_granted(alloc, names, name)?;
        match child(alloc, b"a", name)? {
            Some(below) => self.push_granted(alloc, names, &below),
            None => Ok(()),
        }
    }

    /// Whether a change at a name may make one of some places exist or not, or the origin is asked for, the serial of whose SOA each change
    /// advances.
    fn makes_exist(&self, places: &Places, name: &Name) -> bool {
        let origin = self.index.zone().origin();
        places.asked.iter().any(|asked| asked == origin)
            || places
                .near
                .iter()
                .any(|near| near != origin && name.is_within(near))
    }

    /// Names at which changes are tried that may change the answers at some places: these, names below them, servers, and the names of
    /// rules below them. The only error is out of memory.
    pub(crate) fn tried(&self, alloc: Global, places: &Places) -> Result<Vec<Name>, AllocError> {
        let mut names = Vec::new(alloc);
        for name in &places.asked {
            self.push_granted(alloc, &mut names, name)?;
        }
        for name in &places.near {
            self.push_with_below(alloc, &mut names, name)?;
        }
        for name in &places.servers {
            self.push_granted(alloc, &mut names, name)?;
        }
        for rule in self.rights.policy().rules() {
            if self.makes_exist(places, &rule.at) {
                self.push_with_below(alloc, &mut names, &rule.at)?;
            }
        }
        Ok(names)
    }
}
