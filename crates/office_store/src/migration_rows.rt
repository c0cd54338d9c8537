//! What takes the rows of all tables from version 1 to version 2. They are alike, but in version 1 the records of one owner and type
//! could have different TTLs, and in version 2 they have one (RFC 2181 section 5.2).

ghost use Rattle.std.specs.Prelude.{◌≡◌, pos, Err, IfOk, IfErr};
ghost use Rattle.store_sql.specs.Holds.{SameRows};
ghost use Rattle.store_rows.specs.declared.row_fault.RowFault.TheVariants.{BadRow};
ghost use Rattle.store_rows.specs.Contents.{ContentOf, rows_of};
ghost use Rattle.office_store.specs.OldZones.{IsOldContent};
ghost use Rattle.office_store.specs.MigratedContents.{Migrates};
ghost use Rattle.office_store.specs.MigrationSteps.{AreOldZoneRows, AreSteps};

use crate::migration_steps::{MigrationSteps, steps_in_turn};
use std::alloc::Global;
use store_rows::state::{check_receipts, is_alone};
use store_rows::zones::are_apart;
use store_rows::{RowFault, ordered, sorted_changes};
use store_sql::{AllRows, Batch, ChangeRow, RecordRow, ZoneRow};

/// What takes tables of version 1 to version 2.
#[derive(Drop)]
pub struct Migration {
    /// What is written.
    pub batch: Batch,
    /// How many zones it changes.
    pub zones: usize,
}

/// What is written for the zones of rows of `zones`, `records` and `changes`. Rows that are those of no zones with their changes,
/// once each set of records has its least TTL, are `BadRow`.
fn zone_steps(
    alloc: Global,
    zones: &[ZoneRow],
    records: Vec<RecordRow>,
    changes: Vec<ChangeRow>,
) -> Result<MigrationSteps, RowFault>
    ensures found { IfOk result (λ steps. (are : AreOldZoneRows zones.now records.items changes.items) × AreSteps steps are.zones) }
    ensures only { AreOldZoneRows zones.now records.items changes.items → IfErr result (λ e. e ≡ RowFault.NoMemory) }
{
    let origins = ordered::origins(alloc, zones)?;
    if !are_apart(&origins) {
        return Err(RowFault::BadRow);
    }
    let records = ordered::records(alloc, &records)?;
    let changes = sorted_changes(alloc, &changes)?;
    steps_in_turn(alloc, &origins, &records, &changes)
}

/// What is written to take the rows of all tables from version 1 to version 2, and how many zones that changes: each set of records has
/// its least TTL then; the zones in which that changes something have their serial one further (RFC 1982 section 3.1), and one change
/// more, of the records that go and those that come; and `meta` has version 2. Rows that are not those of a state in tables of version
/// 1 are `BadRow`: what the checks of an opening say of others, but for the TTLs of one set.
pub fn migration_of(alloc: Global, rows: AllRows) -> Result<Migration, RowFault>
    // The rows are those of a content of version 1, and once this is written those of that content migrated. It is the least that is:
    // only what differs goes and comes, of the zones that are changed.
    ensures found { IfOk result (λ m. Migrates rows m.batch m.zones) }
    // Rows are refused only where they are those of no such content.
    ensures only { result ≡ Err BadRow → ¬ ((content : ContentOf) × IsOldContent content × SameRows (rows_of (pos 1) content) rows) }
{
    let AllRows {
        versions,
        zones,
        records,
        receipts,
        changes,
    } = rows;
    if !is_alone(1, &versions) {
        return Err(RowFault::BadRow);
    }
    check_receipts(alloc, receipts)?;
    let steps = zone_steps(alloc, &zones, records, changes)?;
    Ok(Migration {
        batch: Batch {
            version: Some(2),
            zones: Vec::new(alloc),
            removed: steps.removed,
            added: steps.added,
            changes: steps.changes,
            receipts: Vec::new(alloc),
        },
        zones: steps.zones,
    })
}
