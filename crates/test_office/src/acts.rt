//! What is done to a store.

ghost use Rattle.std.specs.Prelude.{◌≡◌, ◌<◌, false};

use crate::deed::Deed;
use crate::told::{fault_text, spelled, told};
use anyhow::Result;
use grant_policy::Policy;
use office_store::{SqlTable, StoreFault};
use sqlite::{Alter, Connection};
use std::alloc::Global;
use std::marker::Brand;
use std::sync::ledger::{Blank, Ledger};

/// What is told of what was done to a store, and a connection to it.
pub type Done<S> = (Result<Vec<u8>>, Connection<S>);

/// Does something to a store.
pub fn done<S: Alter + Drop>(
    alloc: Global,
    conn: Connection<S>,
    policy: &Policy,
    deed: &Deed,
) -> Done<S> {
    if !conn.is_autocommit() {
        return (spelled(alloc, "a transaction goes on"), conn);
    }
    match deed.verb.as_str() {
        "sql" => executed(alloc, conn, &deed.body),
        "create" => create(alloc, conn),
        "migrate" => migrate(alloc, conn),
        _ => adopt(alloc, conn, policy, deed),
    }
}

fn executed<S: Alter + Drop>(alloc: Global, conn: Connection<S>, script: &[u8]) -> Done<S> {
    let mut conn = conn;
    let ran = run_script(alloc, &mut conn, script);
    (ran, conn)
}

fn run_script<S: Alter + Drop>(
    alloc: Global,
    conn: &mut Connection<S>,
    script: &[u8],
) -> Result<Vec<u8>> {
    conn.execute_batch(str::from_utf8(script)?)?;
    Ok(Vec::new(alloc))
}

fn create<S: Alter + Drop>(alloc: Global, conn: Connection<S>) -> Done<S>
    requires { conn.in_transaction ≡ false }
{
    let (made, conn) = created::<S, Brand>(conn, Blank::new(1));
    (made_text(alloc, made), conn)
}

fn made_text(alloc: Global, made: Result<(), StoreFault>) -> Result<Vec<u8>> {
    match made {
        Ok(()) => spelled(alloc, "done"),
        Err(fault) => fault_text(alloc, fault),
    }
}

fn created<S: Alter + Drop, L: Ledger>(
    conn: Connection<S>,
    blank: Blank,
) -> (Result<(), StoreFault>, Connection<S>)
    requires alone { conn.in_transaction ≡ false }
    requires name { blank.name ≡ L.name }
    requires parts { blank.parts ≡ L.parts }
    requires some { 0 < blank.parts }
{
    match SqlTable::<S, L>::create(conn, blank) {
        Ok(table) => (Ok(()), table.into_connection()),
        Err(refused) => (Err(refused.fault), refused.conn),
    }
}

fn migrate<S: Alter + Drop>(alloc: Global, conn: Connection<S>) -> Done<S>
    requires { conn.in_transaction ≡ false }
{
    let mut conn = conn;
    let zones = SqlTable::<S, Brand>::migrate(alloc, &mut conn);
    (migrated_text(alloc, zones), conn)
}

/// What is told of a migration: how many zones it changed.
fn migrated_text(alloc: Global, zones: Result<usize, StoreFault>) -> Result<Vec<u8>> {
    match zones {
        Ok(zones) => spelled(alloc, format!(in alloc; "migrated {zones}")?.as_str()),
        Err(fault) => fault_text(alloc, fault),
    }
}

fn adopt<S: Alter + Drop>(
    alloc: Global,
    conn: Connection<S>,
    policy: &Policy,
    deed: &Deed,
) -> Done<S>
    requires { conn.in_transaction ≡ false }
{
    adopted::<S, Brand>(alloc, conn, policy, deed, Blank::new(1))
}

/// Finds the table of a store, and asks it.
fn adopted<S: Alter + Drop, L: Ledger>(
    alloc: Global,
    conn: Connection<S>,
    policy: &Policy,
    deed: &Deed,
    blank: Blank,
) -> Done<S>
    requires alone { conn.in_transaction ≡ false }
    requires name { blank.name ≡ L.name }
    requires parts { blank.parts ≡ L.parts }
    requires some { 0 < blank.parts }
{
    match SqlTable::<S, L>::adopt(alloc, conn, blank) {
        Ok(table) => {
            let mut table = table;
            let text = told(alloc, &mut table, policy, deed);
            (text, table.into_connection())
        }
        Err(refused) => (fault_text(alloc, refused.fault), refused.conn),
    }
}
