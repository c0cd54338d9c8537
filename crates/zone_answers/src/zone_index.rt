//! A zone, and its cuts as they are looked up for each question.

ghost use Rattle.std.specs.Prelude.{◌≡◌, IfOk};

use crate::cut_names::top_cuts;
use crate::enclosers::have_asterisks;
use dns_names::Name;
use std::alloc::{AllocError, Global};
use std::marker::Model;
use zone_core::Zone;

/// A zone that answers questions. Its memory is that of the zone, and a name for each cut.
#[derive(Drop)]
pub struct ZoneIndex {
    pub(crate) zone: Zone,
    // those that are below no other, in canonical order
    pub(crate) cuts: Vec<Name>,
    // whether an owner has an octet `*`, without which there is no wildcard
    pub(crate) asterisks: bool,
}

impl Model for ZoneIndex {
    ghost use Rattle.zone_core.specs.Zones.{ZoneOf};
    ghost use Rattle.zone_core.specs.Sets.{listing};
    ghost use Rattle.zone_core.specs.Codes.{zone_code};
    ghost use Rattle.std.specs.Prelude.{◌≡◌};
    ghost use Rattle.zone_answers.specs.AnswerTests.{AreTopCuts};
    ghost use Rattle.zone_answers.specs.Places.{have_asterisks};

    ghost Value = { ZoneOf };

    ghost coded = { zone_code };

    ghost view = { λ z. z.zone };

    ghost invariant = { λ z. AreTopCuts z.zone.origin (listing z.zone.records) z.cuts.items × (z.asterisks ≡ have_asterisks (listing z.zone.records)) };
}

impl ZoneIndex {
    /// The index of a zone. The only error is out of memory.
    pub fn new(alloc: Global, zone: Zone) -> Result<ZoneIndex, AllocError>
        ensures { IfOk result (λ index. index ≡ zone) }
    {
        let cuts = top_cuts(alloc, &zone)?;
        let asterisks = have_asterisks(zone.records());
        Ok(ZoneIndex {
            zone,
            cuts,
            asterisks,
        })
    }

    /// The zone.
    pub fn zone(&self) -> &Zone
        ensures { result.now ≡ self.now }
    {
        &self.zone
    }
}
