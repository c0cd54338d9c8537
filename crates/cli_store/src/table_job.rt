//! What is done at the table of a store, whose connection is then handed back.

ghost use Rattle.std.specs.Prelude.{◌≡◌, ◌<◌, Result};
ghost use Rattle.sqlite.specs.Held.{state};
ghost use Rattle.sqlite.specs.State.{State as Shown};
ghost use Rattle.store_faults.specs.declared.store_fault.StoreFault.{StoreFault as StoreFaultOf};
ghost use Rattle.cli_store.specs.Stores.{IsGot};

use crate::files::StoreFiles;
use crate::store_file::{StorePath, open_store};
use office_store::{SqlTable, StoreFault};
use sqlite::{Alter, Connection};
use std::alloc::Global;
use std::sync::ledger::{Blank, Ledger};

/// What is done at the table of a store.
pub(crate) trait TableJob<A: Drop> {
    // What the connection showed before and shows after, and the answer.
    ghost does: { Self → Shown → Shown → Result A StoreFaultOf → Type 0 };

    /// Does it.
    fn run<S: Alter + Drop, L: Ledger>(
        &self,
        alloc: Global,
        table: &mut SqlTable<S, L>,
    ) -> Result<A, StoreFault>
        ensures { does self.now (state S.Store table.old.conn) (state S.Store table.new.conn) result };
}

/// Does a job at a table, and hands its connection back.
pub(crate) fn done_at<S: Alter + Drop, L: Ledger, A: Drop, J: TableJob<A>>(
    alloc: Global,
    table: SqlTable<S, L>,
    job: &J,
) -> (Connection<S>, Result<A, StoreFault>)
    ensures { J.does job.now (state S.Store table.conn) (state S.Store result.0) result.1 }
{
    let mut table = table;
    let answer = job.run(alloc, &mut table);
    (table.into_connection(), answer)
}

/// Does a job at the table of the store of a path, by a ledger for the table's failures. The connection is handed back, if one was made.
pub(crate) fn asked_by<
    S: Alter + Drop,
    L: Ledger,
    P: StoreFiles<S> + Drop,
    A: Drop,
    J: TableJob<A>,
>(
    alloc: Global,
    files: P,
    path: StorePath<'_>,
    job: &J,
    blank: Blank,
) -> (Option<Connection<S>>, Result<A, StoreFault>)
    requires name { blank.name ≡ L.name }
    requires parts { blank.parts ≡ L.parts }
    requires some { 0 < blank.parts }
    ensures { IsGot (state S.Store) (P.finds files path.entry.0.now) (P.refuses files path.entry.0.now) (P.connects files path.entry.0.now)
        (J.does job.now) result.0 result.1 }
{
    let opened: Result<SqlTable<S, L>, _> = open_store(alloc, files, path.0, blank);
    match opened {
        Ok(table) => {
            let (conn, answer) = done_at(alloc, table, job);
            (Some(conn), answer)
        }
        Err(unreached) => (unreached.conn, Err(unreached.fault)),
    }
}
