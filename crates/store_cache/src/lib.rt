//! What is kept in memory of a zone beside its store: its records, as its changes leave them, and what its changes touch.
#![tactic(auto)]

mod cached_zone;
mod history;
mod owners;
mod record_rows;
mod row_pieces;
mod shelf;

pub use cached_zone::{
    CachedZone, cached_of, follow, is_cached, part_of_cached, subtree_of_cached, take_cached,
};
pub use history::{ZoneHistory, ahead_in, passed_in, remember};
pub use shelf::{OfZone, Shelf, forget_on, turn_on, turn_to};
