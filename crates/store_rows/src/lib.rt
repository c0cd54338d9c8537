//! Rows and states, both ways: what the rows of the tables say of the office's state, and which rows are written for a state that
//! follows.
#![tactic(auto)]

mod ascending;
mod batches;
mod change_reader;
mod changes;
mod column_reader;
mod columns;
mod data_reader;
mod gathering;
mod largest_zone;
mod last_soa;
mod laws;
mod name_reader;
pub mod ordered;
mod origin_reader;
pub mod reads;
mod receipt_reader;
mod receipts;
mod record_reader;
mod records;
mod replies;
mod row_fault;
mod side;
pub mod state;
mod zone_changes;
pub mod zone_records;
pub mod zones;

pub use batches::{addition_batch, receipt_batch, replacement_batch, zone_batch};
pub use change_reader::ChangeReader;
pub use changes::{ChangedRecord, change_rows};
pub use columns::read_origin;
pub use gathering::{are_numbered, read_changes, sorted_changes};
pub use laws::{
    change_rows_are_apart, histories_are_one, last_numbers_count, lists_are_whole,
    new_tables_hold_nothing, order_does_not_count, receipt_rows_are_apart, record_rows_are_apart,
    rows_are_by_table, states_are_by_table, states_are_sound, zones_are_listed, zones_go,
    zones_stand_at_origins,
};
pub use ordered::{KeptReceipt, kept_receipts, origins, sorted_origins};
pub use origin_reader::OriginReader;
pub use reads::{changes_behind, changes_of, part_of, receipt_of, records_within, zone_of};
pub use receipt_reader::ReceiptReader;
pub use receipts::{read_receipt, receipt_row};
pub use record_reader::RecordReader;
pub use records::{read_record, record_row};
pub use replies::read_reply;
pub use row_fault::RowFault;
pub use side::Side;
pub use state::check_receipts;
pub use zone_changes::ZoneChanges;
pub use zones::{check_changes, check_records, checked_origins};
