//! What is looked up in a zone and a policy for each question.

ghost use Rattle.std.specs.Prelude.{◌≡◌, ◌∷◌, ◌++◌, [], ◌&&◌, ◌||◌, not, if◌then◌else◌, IfOk};
ghost use Rattle.std.specs.List.{filter, flat_map, list_any};
ghost use Rattle.std.specs.List.Sorted.{IsSorted, IsStrictlySortedBy};
ghost use Rattle.dns_names.specs.Order.{canonical_cmp};
ghost use Rattle.dns_data.specs.declared.record_type.RecordType.TheVariants as types;
ghost use Rattle.zone_core.specs.Sets.{listing};
ghost use Rattle.zone_core.specs.Delegations.{AreNamesOf};
ghost use Rattle.answer_reach.specs.Reach.{may_come};
ghost use Rattle.answer_reach.specs.ReachTests.{below_any, comes_under, updates, stays_cut, cut_may_change, arising_from, staying_from, opens, may_be_cut, IsPlaces, IsMap};

use crate::asker::Asker;
use crate::names::{below_any, has_name, ordered, push_up_to};
use dns_data::{Record, RecordType};
use dns_names::Name;
use std::alloc::{AllocError, Global};
use zone_core::cuts;

/// Lists of names in canonical order, and what holds of the whole zone.
#[derive(Drop)]
pub(crate) struct ReachMap {
    /// Names at or below which the caller can add records.
    pub(crate) arising: Vec<Name>,
    /// Names at or below which there is a record whatever the caller does.
    pub(crate) staying: Vec<Name>,
    /// Known names below which it can add records at names that are not known.
    pub(crate) under: Vec<Name>,
    /// Cuts that stay with their servers whatever the caller does.
    pub(crate) cuts: Vec<Name>,
    /// Names where the zone may be cut or not, or the referral to a cut can change, and which are below no cut that stays.
    pub(crate) openers: Vec<Name>,
    /// Whether the caller can replace the SOA.
    pub(crate) soa: bool,
    /// Whether it can make an update.
    pub(crate) serial: bool,
}

impl<'a> Asker<'a> {
    /// Appends a name and those above it, if something may come there. The only error is out of memory.
    fn push_arising(
        &self,
        alloc: Global,
        names: &mut Vec<Name>,
        name: &Name,
    ) -> Result<(), AllocError>
        ensures { IfOk result (λ _. names.new.items ≡ names.old.items ++ arising_from self.now.rights.now.rules self.now.rights.now.caller self.now.index.now.origin (listing self.now.index.now.records) name.now) }
    {
        if self.comes(name) {
            return push_up_to(alloc, names, self.index.zone().origin(), name);
        }
        Ok(())
    }

    /// Names at or below which something may come. The only error is out of memory.
    fn arising(&self, alloc: Global, known: &[Name]) -> Result<Vec<Name>, AllocError>
        ensures { IfOk result (λ names. AreNamesOf names.items (flat_map (arising_from self.now.rights.now.rules self.now.rights.now.caller self.now.index.now.origin (listing self.now.index.now.records)) known.now)) }
    {
        let mut names = Vec::new(alloc);
        for name in known {
            self.push_arising(alloc, &mut names, name)?;
        }
        ordered(names)
    }

    /// Appends the owner of a record and the names above it, if it remains. The only error is out of memory.
    fn push_staying(
        &self,
        alloc: Global,
        names: &mut Vec<Name>,
        rr: &Record,
    ) -> Result<(), AllocError>
        ensures { IfOk result (λ _. names.new.items ≡ names.old.items ++ staying_from self.now.rights.now.rules self.now.rights.now.caller self.now.index.now.origin (listing self.now.index.now.records) rr.now) }
    {
        if self.remains(rr) {
            return push_up_to(alloc, names, self.index.zone().origin(), &rr.owner);
        }
        Ok(())
    }

    /// Names at or below which there is a record whatever the caller does. The only error is out of memory.
    fn staying(&self, alloc: Global, records: &[Record]) -> Result<Vec<Name>, AllocError>
        ensures { IfOk result (λ names. AreNamesOf names.items (flat_map (staying_from self.now.rights.now.rules self.now.rights.now.caller self.now.index.now.origin (listing self.now.index.now.records)) records.now)) }
    {
        let mut names = Vec::new(alloc);
        for record in records {
            self.push_staying(alloc, &mut names, record)?;
        }
        ordered(names)
    }

    /// Appends a name, if something may come below it. The only error is out of memory.
    fn push_under(
        &self,
        alloc: Global,
        names: &mut Vec<Name>,
        name: &Name,
    ) -> Result<(), AllocError>
        ensures { IfOk result (λ _. names.new.items ≡ names.old.items ++ (if comes_under self.now.rights.now.rules self.now.rights.now.caller self.now.index.now.origin (listing self.now.index.now.records) name.now then name.now ∷ [] else [])) }
    {
        if self.comes_under(name) {
            names.push(name.try_copy(alloc)?)?;
        }
        Ok(())
    }

    /// Known names below which something may come. The only error is out of memory.
    fn under(&self, alloc: Global, known: &[Name]) -> Result<Vec<Name>, AllocError>
        ensures { IfOk result (λ names. names.items ≡ filter (comes_under self.now.rights.now.rules self.now.rights.now.caller self.now.index.now.origin (listing self.now.index.now.records)) known.now) }
    {
        let mut names = Vec::new(alloc);
        for name in known {
            self.push_under(alloc, &mut names, name)?;
        }
        Ok(names)
    }

    /// Appends a name, if a cut stays there. The only error is out of memory.
    fn push_cut(&self, alloc: Global, names: &mut Vec<Name>, name: &Name) -> Result<(), AllocError>
        ensures { IfOk result (λ _. names.new.items ≡ names.old.items ++ (if stays_cut self.now.rights.now.rules self.now.rights.now.caller self.now.index.now.origin (listing self.now.index.now.records) name.now then name.now ∷ [] else [])) }
    {
        if self.stays_cut(name) {
            names.push(name.try_copy(alloc)?)?;
        }
        Ok(())
    }

    /// Cuts that stay. The only error is out of memory.
    fn staying_cuts(&self, alloc: Global, known: &[Name]) -> Result<Vec<Name>, AllocError>
        ensures { IfOk result (λ names. names.items ≡ filter (stays_cut self.now.rights.now.rules self.now.rights.now.caller self.now.index.now.origin (listing self.now.index.now.records)) known.now) }
    {
        let mut names = Vec::new(alloc);
        for name in known {
            self.push_cut(alloc, &mut names, name)?;
        }
        Ok(names)
    }

    /// Whether a cut may change that is below none of some cuts. The only error is out of memory.
    fn opens(&self, alloc: Global, cuts: &[Name], name: &Name) -> Result<bool, AllocError>
        requires { IsSorted canonical_cmp cuts.now }
        ensures { IfOk result (λ b. b ≡ opens self.now.rights.now.rules self.now.rights.now.caller self.now.index.now.origin (listing self.now.index.now.records) cuts.now name.now) }
    {
        if !self.cut_may_change(name) {
            return Ok(false);
        }
        let hidden = below_any(alloc, cuts, name)?;
        Ok(!hidden)
    }

    /// Appends a name, if a cut may change there that is below none of some cuts. The only error is out of memory.
    fn push_opener(
        &self,
        alloc: Global,
        names: &mut Vec<Name>,
        cuts: &[Name],
        name: &Name,
    ) -> Result<(), AllocError>
        requires { IsSorted canonical_cmp cuts.now }
        ensures { IfOk result (λ _. names.new.items ≡ names.old.items ++ (if opens self.now.rights.now.rules self.now.rights.now.caller self.now.index.now.origin (listing self.now.index.now.records) cuts.now name.now then name.now ∷ [] else [])) }
    {
        if self.opens(alloc, cuts, name)? {
            names.push(name.try_copy(alloc)?)?;
        }
        Ok(())
    }

    /// Cuts that may change, and are below none of some cuts. The only error is out of memory.
    fn openers(&self, alloc: Global, cuts: &[Name], known: &[Name]) -> Result<Vec<Name>, AllocError>
        requires { IsSorted canonical_cmp cuts.now }
        ensures { IfOk result (λ names. names.items ≡ filter (opens self.now.rights.now.rules self.now.rights.now.caller self.now.index.now.origin (listing self.now.index.now.records) cuts.now) known.now) }
    {
        let mut names = Vec::new(alloc);
        for name in known {
            self.push_opener(alloc, &mut names, cuts, name)?;
        }
        Ok(names)
    }

    /// Appends a name, if the zone may be cut there. The only error is out of memory.
    fn push_place(
        &self,
        alloc: Global,
        names: &mut Vec<Name>,
        cuts: &[Name],
        name: &Name,
    ) -> Result<(), AllocError>
        requires { IsSorted canonical_cmp cuts.now }
        ensures { IfOk result (λ _. names.new.items ≡ names.old.items ++ (if may_be_cut self.now.rights.now.rules self.now.rights.now.caller self.now.index.now.origin (listing self.now.index.now.records) cuts.now name.now then name.now ∷ [] else [])) }
    {
        if has_name(cuts, name) || self.rights.may_grant(name) {
            names.push(name.try_copy(alloc)?)?;
        }
        Ok(())
    }

    /// Names where the zone may be cut, of whose cuts these are the names. The only error is out of memory.
    fn places(&self, alloc: Global, cuts: &[Name], known: &[Name]) -> Result<Vec<Name>, AllocError>
        requires { IsSorted canonical_cmp cuts.now }
        ensures { IfOk result (λ names. names.items ≡ filter (may_be_cut self.now.rights.now.rules self.now.rights.now.caller self.now.index.now.origin (listing self.now.index.now.records) cuts.now) known.now) }
    {
        let mut names = Vec::new(alloc);
        for name in known {
            self.push_place(alloc, &mut names, cuts, name)?;
        }
        Ok(names)
    }

    /// Known names where the zone may be cut. The only error is out of memory.
    fn cut_places(&self, alloc: Global, known: &[Name]) -> Result<Vec<Name>, AllocError>
        ensures { IfOk result (λ names. IsPlaces self.now.rights.now.rules self.now.rights.now.caller self.now.index.now.origin (listing self.now.index.now.records) known.now names.items) }
    {
        let zone = self.index.zone();
        let cuts = cuts(alloc, zone.origin(), zone.records())?;
        self.places(alloc, &cuts, known)
    }

    /// What is looked up, of all names that are known. The only error is out of memory.
    pub(crate) fn lists(&self, alloc: Global, known: &[Name]) -> Result<ReachMap, AllocError>
        requires { IsStrictlySortedBy canonical_cmp known.now }
        ensures { IfOk result (IsMap self.now.rights.now.rules self.now.rights.now.caller self.now.index.now.origin (listing self.now.index.now.records) known.now) }
    {
        let places = self.cut_places(alloc, known)?;
        let cuts = self.staying_cuts(alloc, &places)?;
        let openers = self.openers(alloc, &cuts, &places)?;
        let arising = self.arising(alloc, known)?;
        let staying = self.staying(alloc, self.index.zone().records())?;
        let under = self.under(alloc, known)?;
        let soa = self.may_come(self.index.zone().origin(), RecordType::Soa);
        let serial = self.any_updates(known);
        Ok(ReachMap {
            arising,
            staying,
            under,
            cuts,
            openers,
            soa,
            serial,
        })
    }

    /// Whether some change is granted at some of the known names, or below one at names that are not known.
    fn any_updates(&self, known: &[Name]) -> bool
        ensures { result ≡ list_any (updates self.now.rights.now.rules self.now.rights.now.caller self.now.index.now.origin (listing self.now.index.now.records)) known.now }
    {
        known.iter().any(|name| self.updates(name))
    }
}
