//! The tables in SQLite: the files of a store are opened, and rows are asked for and written, all at once or not at all.
#![tactic(auto)]

mod batch;
mod creation;
mod files;
mod from_row;
mod layout;
mod lookups;
mod path;
mod query;
mod removal;
mod row_check;
mod row_reader;
mod rows;
mod rows_fault;
mod scans;
mod schema;
mod writing;

pub use batch::write;
pub use creation::make_tables;
pub use files::connect;
pub use lookups::{
    changes_between, changes_of, has_zone, last_number, receipts_of, records_at, records_between,
    records_of,
};
pub use path::connect_at;
pub use removal::remove_zone;
pub use row_check::RowCheck;
pub use row_reader::{RowReader, WholeRows};
pub use rows::{Batch, ChangeRow, ReceiptRow, RecordRow, ZoneRow};
pub use rows_fault::RowsFault;
pub use scans::{
    AllRows, all_changes, all_receipts, all_records, all_rows, all_zones, each_receipt, versions,
};
pub use schema::{has_no_tables, has_tables};
