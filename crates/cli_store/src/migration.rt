//! Taking a store from version 1 of the tables to version 2.

ghost use Rattle.std.specs.Prelude.{ℕ};
ghost use Rattle.sqlite.specs.Held.{state};
ghost use Rattle.cli_core.specs.Replies.{IsSent};
ghost use Rattle.cli_store.specs.Migrate.{migrated_line, migration_told, MigrationWritten, StoreMigrated};
ghost use Rattle.cli_store.specs.Reports.{IsReported};
ghost use Rattle.cli_store.specs.Stores.{stores_of};

use crate::files::StoreFiles;
use crate::store_file::migrate_store;
use cli_core::{JobFault, LineFault, write_refusal};
use dns_master::{DeviceFailed, Sink};
use itoa::Buffer;
use office_store::StoreFault;
use sqlite::{Alter, Connection};
use std::alloc::Global;
use wire_tcp::write_texts;

/// Writes the line that tells how many zones a migration changed. It takes no memory, so that memory cannot run out after the migration.
fn tell_migrated<W: Sink>(writer: &mut W, zones: usize) -> Result<(), DeviceFailed>
    ensures { IsSent (W.contents writer.old) (W.contents writer.new) (migrated_line zones) result (W.failures writer.old) (W.failures writer.new) }
{
    let mut digits = Buffer::new();
    write_texts(
        writer,
        &[b"migrated ", digits.format(zones).as_bytes(), b"\n"],
    )
}

/// Writes the line of how many zones a migration changed, or the one of its refusal.
fn report<W: Sink>(
    alloc: Global,
    writer: &mut W,
    migrated: Result<usize, StoreFault>,
) -> Result<(), JobFault>
    ensures { IsReported (migration_told migrated) (W.contents writer.old) (W.contents writer.new) result (W.failures writer.old) (W.failures writer.new) }
{
    match migrated {
        Ok(zones) => {
            tell_migrated(writer, zones)?;
            Ok(())
        }
        Err(fault) => Err(write_refusal(alloc, writer, LineFault::from(fault))),
    }
}

/// Takes the store of a path from version 1 of the tables to version 2, and a line tells how many zones that changed. Otherwise a
/// line tells the refusal: `NoZone` where there is no file, and those of the migration. The connection to the store is handed back, if
/// one was made.
pub fn migrate<W: Sink, S: Alter + Drop, P: StoreFiles<S> + Drop>(
    alloc: Global,
    files: P,
    store: &str,
    writer: &mut W,
) -> (Option<Connection<S>>, Result<(), JobFault>)
    ensures written { MigrationWritten (W.contents writer.old) (W.contents writer.new) result.1 (W.failures writer.old) (W.failures writer.new) }
    // It is the store of this path, which is left so; and a refusal is that of the files, or of what they hold.
    ensures migrated { StoreMigrated (stores_of (state S.Store) (P.finds files) (P.refuses files) (P.connects files)) store.now result.0
        (W.contents writer.old) (W.contents writer.new) result.1 (W.failures writer.old) (W.failures writer.new) }
{
    let (conn, migrated) = migrate_store(alloc, files, store);
    (conn, report(alloc, writer, migrated))
}
