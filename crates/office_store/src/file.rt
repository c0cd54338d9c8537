//! The table in a file.

ghost use Rattle.std.specs.Prelude.{◌≡◌, ◌⊎◌, ◌<◌, None, IfOk, IfErr, IfSome};
ghost use Rattle.sqlite_trees.specs.Tree.{Trees};
ghost use Rattle.sqlite.specs.WalFiles.{image_at};
ghost use Rattle.sqlite.specs.Files.{file_state, HoldsDatabase};
ghost use Rattle.sqlite.specs.State.{HasCleanDisk};
ghost use Rattle.office_model.specs.States.{State};
ghost use Rattle.store_sql.specs.Holds.{Leaves};
ghost use Rattle.store_faults.specs.declared.store_fault.StoreFault.TheVariants.{BadRow, WrongVersion};
ghost use Rattle.store_faults.specs.StoreFaults.{IsFailure, IsOfRows};
ghost use Rattle.office_store.specs.Files.{AreOfVersion, HoldStateIn, HoldVersionIn, ShowsStill};
ghost use Rattle.office_store.specs.Holds.{HoldsState, IsStateIn, LeavesStates};

use crate::table::SqlTable;
use sqlite::{Alter, Connection, FileFrom, FileStore, Start};
use std::sync::ledger::{Blank, Ledger};
use store_faults::StoreFault;

/// Why there is no table in the file of a path.
#[derive(Drop)]
pub struct Unopened<S: Alter + Drop> {
    pub fault: StoreFault,
    /// The connection to the file, where there is one.
    pub conn: Option<Connection<S>>,
}

impl<S: Start, L: Ledger> SqlTable<FileStore<FileFrom<S>>, L> {
    /// The table in the file of a path, which is made, without tables, if it is missing; `start` says what the file held. The
    /// count of failures begins at none.
    ///
    /// `WrongVersion` comes where the tables are missing or others, or `meta` has not the one row of this version; else `BadRow`
    /// where the rows are not those of a state; `Store` where the file is no database or the store fails, and `NoMemory` where
    /// memory runs out.
    pub fn open(
        rt: &HostRuntime,
        path: &str,
        start: S,
        blank: Blank,
    ) -> Result<SqlTable<FileStore<FileFrom<S>>, L>, Unopened<FileStore<FileFrom<S>>>>
        requires name { blank.name ≡ L.name }
        requires parts { blank.parts ≡ L.parts }
        requires some { 0 < blank.parts }
        // The table holds a state, and a crash leaves that.
        ensures found { IfOk result
            (λ table. HasCleanDisk (file_state table.conn) → (s : State) × HoldsState (file_state table.conn) s × LeavesStates (file_state table.conn) s s) }
        // It is the state of the rows that the files held.
        ensures held { IfOk result
            (λ table. HasCleanDisk (file_state table.conn) → (trees : Trees) → HoldsDatabase (image_at S.Start) trees
            → (s : State) × IsStateIn trees s × HoldsState (file_state table.conn) s) }
        ensures none { IfOk result (λ table. table.book.total ≡ 0) }
        // Where the files held a state only the store fails or memory runs out.
        ensures good { IfErr result
            (λ refused. IfSome refused.conn
            (λ conn. HasCleanDisk (file_state conn) → (s : State) → HoldStateIn (image_at S.Start) s → IsFailure refused.fault)) }
        ensures named { IfErr result (λ refused. (refused.fault ≡ WrongVersion) ⊎ IsOfRows refused.fault) }
        // Else the first names files that held no tables of this version, and `BadRow` files that held them.
        ensures wrong { IfErr result
            (λ refused. IfSome refused.conn (λ conn. HasCleanDisk (file_state conn) → refused.fault ≡ WrongVersion → ¬ HoldVersionIn (image_at S.Start))) }
        ensures bad { IfErr result
            (λ refused. IfSome refused.conn
            (λ conn. HasCleanDisk (file_state conn) → refused.fault ≡ BadRow → (trees : Trees)
            → HoldsDatabase (image_at S.Start) trees → AreOfVersion trees)) }
        // What the files held is shown still, and a crash leaves it.
        ensures shown { IfErr result
            (λ refused. IfSome refused.conn (λ conn. HasCleanDisk (file_state conn) → ShowsStill (image_at S.Start) (file_state conn))) }
        ensures left { IfErr result
            (λ refused. IfSome refused.conn
            (λ conn. (trees : Trees) → HoldsDatabase (image_at S.Start) trees → Leaves (file_state conn) (λ db. db ≡ trees))) }
        // Without a connection nothing is said of what they held.
        ensures unopened { IfErr result (λ refused. refused.conn ≡ None → IsFailure refused.fault) }
    {
        let conn = match Connection::open_from(rt, path, false, start) {
            Ok(conn) => conn,
            Err((error, _)) => {
                return Err(Unopened {
                    fault: StoreFault::from(error),
                    conn: None,
                });
            }
        };
        match SqlTable::adopt(rt.alloc(), conn, blank) {
            Ok(table) => Ok(table),
            Err(refused) => Err(Unopened {
                fault: refused.fault,
                conn: Some(refused.conn),
            }),
        }
    }
}
