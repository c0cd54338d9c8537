//! The order of the tables and the index in a database.

ghost use Rattle.std.specs.Prelude.{◌≡◌, ◌<◌};
ghost use Rattle.store_sql.specs.Tables.{receipts_tree, changes_tree, records_by_key_tree};

/// The order in which the tables and the index were made. `sqlite_schema` has them in that order, and it numbers their trees: a
/// table takes one, the index of its key the next.
#[derive(Clone, Copy)]
pub(crate) enum Layout {
    /// The index comes right after `records`, as `make_tables` makes it.
    IndexAfterRecords,
    /// The index comes after all tables, as a `.dump` of `sqlite3` and `VACUUM` make it.
    IndexLast,
}

impl Layout {
    /// The tree of `receipts`.
    pub(crate) const fn receipts(self) -> u32
        ensures tree { result ≡ receipts_tree self }
        ensures low { result < 9 }
    {
        match self {
            Layout::IndexAfterRecords => 6,
            Layout::IndexLast => 5,
        }
    }

    /// The tree of `changes`.
    pub(crate) const fn changes(self) -> u32
        ensures tree { result ≡ changes_tree self }
        ensures low { result < 9 }
    {
        match self {
            Layout::IndexAfterRecords => 8,
            Layout::IndexLast => 7,
        }
    }

    /// The tree of the index `records_by_key`.
    pub(crate) const fn records_by_key(self) -> u32
        ensures { result ≡ records_by_key_tree self }
    {
        match self {
            Layout::IndexAfterRecords => 5,
            Layout::IndexLast => 9,
        }
    }
}
