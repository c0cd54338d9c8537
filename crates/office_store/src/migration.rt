//! The migration of a store of version 1 to version 2.

ghost use Rattle.std.specs.Prelude.{◌≡◌, ◌⊎◌, pos, false, Err, IfOk, IfErr, OnErr};
ghost use Rattle.sqlite.specs.Held.{state};
ghost use Rattle.sqlite.specs.State.{HasCleanDisk};
ghost use Rattle.store_sql.specs.Holds.{Keeps, Leaves, SameRows};
ghost use Rattle.store_rows.specs.Contents.{ContentOf, rows_of};
ghost use Rattle.office_store.specs.OldZones.{IsOldContent};
ghost use Rattle.office_store.specs.MigratedContents.{Migrates};
ghost use Rattle.store_faults.specs.declared.store_fault.StoreFault.TheVariants.{BadRow, WrongVersion};
ghost use Rattle.office_store.specs.Queries.{Asked};
ghost use Rattle.store_faults.specs.StoreFaults.{IsFailure, IsOfRows};
ghost use Rattle.office_store.specs.Holds.{IsOfVersion};
ghost use Rattle.office_store.specs.Migration.{HoldsOld, IsMigratedFrom, IsMigrated, IsRead};

use crate::migration_rows::{Migration, migration_of};
use crate::opening::{check_version, found};
use sqlite::{Alter, Connection};
use std::alloc::Global;
use store_faults::StoreFault;
use store_rows::RowFault;
use store_sql::{AllRows, all_rows, write};

/// The version of the tables that are migrated.
const OLD_VERSION: i64 = 1;

/// What takes rows to version 2. Rows that are those of no state of version 1 are `BadRow`.
fn migration_from(alloc: Global, rows: AllRows) -> Result<Migration, StoreFault>
    ensures found { IfOk result (λ m. Migrates rows m.batch m.zones) }
    ensures only { IfErr result (λ e. (content : ContentOf) → IsOldContent content → SameRows (rows_of (pos 1) content) rows → IsFailure e) }
    ensures named { IfErr result IsOfRows }
{
    match migration_of(alloc, rows) {
        Ok(migration) => Ok(migration),
        Err(RowFault::BadRow) => Err(StoreFault::BadRow),
        Err(RowFault::NoMemory) => Err(StoreFault::NoMemory),
    }
}

/// What takes all rows that the connection shows to version 2.
fn read_migration<S: Alter>(
    alloc: Global,
    conn: &mut Connection<S>,
) -> Result<Migration, StoreFault>
    requires { conn.old.in_transaction ≡ false }
    ensures found { HasCleanDisk (state S.Store conn.new) → IfOk result (λ m. IsRead (state S.Store conn.old) (state S.Store conn.new) m.batch m.zones) }
    ensures good { HasCleanDisk (state S.Store conn.new) → IfErr result (λ e. (content : ContentOf) → HoldsOld (state S.Store conn.old) content → IsFailure e) }
    ensures named { IfErr result IsOfRows }
    ensures asked { Asked (state S.Store conn.old) (state S.Store conn.new) }
    ensures shown { Keeps (state S.Store conn.old) (state S.Store conn.new) }
    ensures ended { conn.new.in_transaction ≡ false }
{
    match all_rows(alloc, conn) {
        Ok(rows) => migration_from(alloc, rows),
        Err(fault) => Err(found(fault)),
    }
}

/// Takes the tables from version 1 to version 2, in one transaction, and tells how many zones that changes.
pub(crate) fn migrate<S: Alter>(
    alloc: Global,
    conn: &mut Connection<S>,
) -> Result<usize, StoreFault>
    requires { conn.old.in_transaction ≡ false }
    ensures made { HasCleanDisk (state S.Store conn.new) → IfOk result (IsMigrated (state S.Store conn.old) (state S.Store conn.new)) }
    ensures failed { OnErr result (Keeps (state S.Store conn.old) (state S.Store conn.new)) }
    ensures same { (result ≡ Err WrongVersion) ⊎ (result ≡ Err BadRow) → Asked (state S.Store conn.old) (state S.Store conn.new) }
    ensures crash { OnErr result (Leaves (state S.Store conn.new) (λ db. (state S.Store conn.old).may_leave db ⊎ IsMigratedFrom (state S.Store conn.old) db)) }
    ensures good { HasCleanDisk (state S.Store conn.new) → IfErr result (λ e. (content : ContentOf) → HoldsOld (state S.Store conn.old) content → IsFailure e) }
    ensures wrong { HasCleanDisk (state S.Store conn.new) → result ≡ Err WrongVersion → ¬ IsOfVersion (pos 1) (state S.Store conn.old) }
    ensures bad { HasCleanDisk (state S.Store conn.new) → result ≡ Err BadRow → IsOfVersion (pos 1) (state S.Store conn.old) }
    ensures named { IfErr result (λ e. (e ≡ WrongVersion) ⊎ IsOfRows e) }
    ensures honest { HasCleanDisk (state S.Store conn.new) → HasCleanDisk (state S.Store conn.old) }
    ensures ended { conn.new.in_transaction ≡ false }
{
    check_version(alloc, conn, OLD_VERSION)?;
    let migration = read_migration(alloc, conn)?;
    write(conn, &migration.batch)?;
    Ok(migration.zones)
}
