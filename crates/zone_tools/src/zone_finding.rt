//! What is found in a zone.

ghost use Rattle.std.specs.Prelude.{◌≡◌, IfOk};
ghost use Rattle.zone_core.specs.Sets.{listing};
ghost use Rattle.zone_tools.specs.ZoneFindings.{AreFindings, findings_from};

use crate::zone_faults::with_findings;
use crate::zone_rule::ZoneRule;
use crate::zone_survey::Survey;
use std::alloc::{AllocError, Global};
use zone_core::Zone;

/// A record that is at fault by a rule.
#[derive(Clone, Copy, PartialEq, Eq)]
pub struct Finding {
    /// The place of the record among those of the zone in record order, from 0.
    pub place: usize,
    pub rule: ZoneRule,
}

/// The findings in a zone: a record and a rule each, in the order of the records and then of the rules in `ZoneRule::ALL`. The
/// only error is out of memory.
pub fn findings(alloc: Global, zone: &Zone) -> Result<Vec<Finding>, AllocError>
    // They are exactly the records that are at fault, with the rules.
    ensures found { IfOk result (λ found. AreFindings zone.now.origin (listing zone.now.records) found.items) }
    // The same by a definition that computes.
    ensures exact { IfOk result (λ found. found.items ≡ findings_from zone.now.origin (listing zone.now.records) 0 (listing zone.now.records)) }
{
    let survey = Survey::of(alloc, zone)?;
    let mut found = Vec::new(alloc);
    for (place, record) in zone.records().iter().enumerate() {
        found = with_findings(alloc, &survey, record, place, found)?;
    }
    Ok(found)
}
