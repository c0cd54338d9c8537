//! The tables of a case: in memory, in SQLite over files of memory, and one that fails.

ghost use Rattle.std.specs.Prelude.{◌≡◌, ◌<◌, false};

use crate::given::Given;
use crate::steps::{Step, Told, answered};
use anyhow::{Result, anyhow, bail};
use office_core::{FailTable, MemTable, TableCall, ZoneTable};
use office_store::{SqlTable, StoreFault};
use sqlite::{Alter, Connection, Files};
use sqlite_disk::Disk;
use std::alloc::Global;
use std::marker::Brand;
use std::sync::ledger::{Blank, Ledger};
use test_tables::{empty_files, opened};

/// What a table answers to some steps, and no more.
fn answered_by<T: ZoneTable + Drop>(
    alloc: Global,
    given: &Given,
    table: T,
    steps: &[Step],
) -> Result<Told> {
    let mut table = table;
    answered(alloc, &mut table, &given.policy(alloc)?, steps)
}

fn over_memory(alloc: Global, given: &Given, steps: &[Step]) -> Result<Told> {
    answered_by(alloc, given, given.mem_table(alloc)?, steps)
}

/// Makes the table in a database without tables, imports the zone, and asks it some steps.
fn over_connection<S: Alter + Drop>(
    alloc: Global,
    given: &Given,
    steps: &[Step],
    conn: Connection<S>,
) -> Result<Told> {
    if !conn.is_autocommit() {
        bail!("a transaction goes on");
    }
    made::<S, Brand>(alloc, given, steps, conn, Blank::new(1))
}

fn made<S: Alter + Drop, L: Ledger>(
    alloc: Global,
    given: &Given,
    steps: &[Step],
    conn: Connection<S>,
    blank: Blank,
) -> Result<Told>
    requires alone { conn.in_transaction ≡ false }
    requires name { blank.name ≡ L.name }
    requires parts { blank.parts ≡ L.parts }
    requires some { 0 < blank.parts }
{
    match SqlTable::<S, L>::create(conn, blank) {
        Ok(table) => {
            let mut table = table;
            asked(alloc, given, steps, &mut table)
        }
        Err(refused) => unmade(refused.fault),
    }
}

fn unmade(fault: StoreFault) -> Result<Told> {
    Err(anyhow!("{fault}"))
}

fn asked<S: Alter + Drop, L: Ledger>(
    alloc: Global,
    given: &Given,
    steps: &[Step],
    table: &mut SqlTable<S, L>,
) -> Result<Told> {
    let origin = given.origin(alloc)?;
    drop(table.import(alloc, origin, given.records(alloc)?)?);
    answered(alloc, table, &given.policy(alloc)?, steps)
}

fn over_files<D: Disk + Drop>(
    alloc: Global,
    given: &Given,
    steps: &[Step],
    files: Files<D>,
) -> Result<Told> {
    match opened(alloc, files) {
        Ok(conn) => over_connection(alloc, given, steps, conn),
        Err(_) => Err(anyhow!("the files are not opened")),
    }
}

/// Appends what each table answers to some steps.
pub fn push_over_each(
    alloc: Global,
    given: &Given,
    steps: &[Step],
    all: &mut Vec<Told>,
) -> Result<()> {
    all.push(over_memory(alloc, given, steps)?)?;
    all.push(over_files(alloc, given, steps, empty_files(alloc))?)?;
    Ok(())
}

/// What a table in memory answers to some steps, of which the first finds that some calls fail.
pub fn over_failing(
    alloc: Global,
    given: &Given,
    steps: &[Step],
    failing: &[TableCall],
) -> Result<Told> {
    let (first, rest) = steps.split_at(steps.len().min(1));
    let failing = Vec::from_slice(alloc, failing)?;
    let table = given.mem_table(alloc)?;
    let (told, table) = failed::<Brand>(alloc, given, first, failing, table, Blank::new(1));
    answered_behind(alloc, given, told, table, rest)
}

/// What was told, and after it what a table answers to more steps.
fn answered_behind<T: ZoneTable + Drop>(
    alloc: Global,
    given: &Given,
    told: Result<Told>,
    table: T,
    steps: &[Step],
) -> Result<Told> {
    let more = answered_by(alloc, given, table, steps)?;
    let mut told = told?;
    for text in more {
        told.push(text)?;
    }
    Ok(told)
}

/// What a table answers while some calls fail, and the table without the failures.
fn failed<L: Ledger>(
    alloc: Global,
    given: &Given,
    steps: &[Step],
    failing: Vec<TableCall>,
    table: MemTable,
    blank: Blank,
) -> (Result<Told>, MemTable)
    requires name { blank.name ≡ L.name }
    requires parts { blank.parts ≡ L.parts }
    requires some { 0 < blank.parts }
{
    let mut table: FailTable<L> = FailTable::new(table, failing, blank);
    let told = asked_all(alloc, given, steps, &mut table);
    (told, table.into_inner())
}

fn asked_all<T: ZoneTable>(
    alloc: Global,
    given: &Given,
    steps: &[Step],
    table: &mut T,
) -> Result<Told> {
    answered(alloc, table, &given.policy(alloc)?, steps)
}
