//! The machine's table in SQLite: zones are imported, replaced and exported, and a store is opened and migrated; a connection holds a
//! state, each call asks for a part of it or turns it into the next one, and a crash at any moment leaves the state before the call
//! or the one after it.
#![tactic(auto)]

mod batch;
mod cache;
mod file;
mod laws;
mod migration;
mod migration_change;
mod migration_rows;
mod migration_steps;
mod opening;
mod queries;
mod reads;
mod table;
mod zones;

pub use file::Unopened;
pub use laws::migrated_zones_are_even;
pub use migration_rows::{Migration, migration_of};
pub use opening::Refused;
pub use store_faults::StoreFault;
pub use store_rows::KeptReceipt;
pub use table::SqlTable;
pub use update_lines::{items_text, read_items};
