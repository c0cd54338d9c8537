//! Why the table in SQLite failed.

use office_store::{SqlTable, StoreFault};
use sqlite::Alter;
use std::sync::ledger::Ledger;
use wire_tcp::Diagnosis;

/// The diagnosis of the table in SQLite: the table remembers it.
#[derive(Clone, Copy)]
pub struct Remembered;

impl<S: Alter + Drop, L: Ledger> Diagnosis<SqlTable<S, L>> for Remembered {
    ghost fault = { λ _ t. t.fault };

    fn store_fault(&self, table: &SqlTable<S, L>) -> Option<StoreFault> {
        table.store_fault()
    }
}
