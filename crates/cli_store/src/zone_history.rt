//! What a store has of a zone: the zone as it is, and its changes.

ghost use Rattle.std.specs.Prelude.{◌≡◌, drop, map, option_map};
ghost use Rattle.std.specs.Result.{result_map_both};
ghost use Rattle.zone_core.specs.Changes.{change_in};
ghost use Rattle.cli_core.specs.LineFaults.{Gives};
ghost use Rattle.cli_store.specs.ZoneHistory.{history_in, later, records_after, zone_after, IsHistoryRead};

use crate::table_job::TableJob;
use cli_core::{LineFault, Refusal};
use dns_data::Record;
use dns_names::Name;
use office_store::{SqlTable, StoreFault};
use sqlite::Alter;
use std::alloc::Global;
use std::sync::ledger::Ledger;
use zone_core::{Change, Zone};
use zone_tools::records_before;

/// What a store has of a zone.
#[derive(Drop)]
pub struct ZoneHistory {
    /// The zone as it is.
    pub zone: Zone,
    /// Its changes, the oldest first.
    pub changes: Vec<Change>,
}

/// What there is of the zone of an origin.
#[derive(Drop)]
pub(crate) struct HistoryOf<'a>(pub(crate) &'a Name);

impl TableJob<ZoneHistory> for HistoryOf<'_> {
    ghost does = { λ of now after result. IsHistoryRead of.0.now now after (result_map_both history_in (λ fault. fault) result) };

    fn run<S: Alter + Drop, L: Ledger>(
        &self,
        alloc: Global,
        table: &mut SqlTable<S, L>,
    ) -> Result<ZoneHistory, StoreFault> {
        let Some(changes) = table.stored_changes(alloc, self.0)? else {
            return Err(StoreFault::NoZone);
        };
        let Some(zone) = table.stored_zone(alloc, self.0)? else {
            return Err(StoreFault::NoZone);
        };
        Ok(ZoneHistory { zone, changes })
    }
}

/// The changes after the first ones, so many, where there are so many.
fn later(changes: &[Change], number: u64) -> Option<&[Change]>
    ensures { option_map (λ cs. map change_in cs.now) result ≡ later number (map change_in changes.now) }
{
    if number <= changes.len() as u64 {
        return Some(&changes[number as usize..]);
    }
    None
}

impl ZoneHistory {
    /// The records of the zone after the change of a number, and with 0 as they were before the first, in record order. `NoChange`
    /// comes where the zone was not changed so often.
    pub(crate) fn records_after(&self, alloc: Global, number: u64) -> Result<Vec<Record>, LineFault>
        ensures { Gives (λ rows. rows.items) result (records_after number (history_in self.now)) }
    {
        let Some(later) = later(&self.changes, number) else {
            return Err(LineFault::Refused(Refusal::NoChange));
        };
        Ok(records_before(alloc, self.zone.records(), later)?)
    }

    /// The zone of an origin after the change of a number. Beside `NoChange` a refusal of the records comes where they are no zone.
    pub(crate) fn zone_after(
        &self,
        alloc: Global,
        origin: &Name,
        number: u64,
    ) -> Result<Zone, LineFault>
        ensures { Gives (λ zone. zone) result (zone_after origin.now number (history_in self.now)) }
    {
        let records = self.records_after(alloc, number)?;
        let origin = origin.try_copy(alloc)?;
        Ok(Zone::build(alloc, origin, records)?)
    }
}
