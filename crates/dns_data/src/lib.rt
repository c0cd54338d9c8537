//! Record types, record data and record lines (RFC 1035 sections 3.2 to 3.4 and 5.1, RFC 2782, RFC 3596, RFC 4034 section
//! 5): reading data from the items of a master file, and printing them in one canonical text.
#![tactic(auto)]

mod address_text;
mod data_fault;
mod ds;
mod fields;
mod invariants;
mod item;
mod number;
mod order;
mod rdata;
mod record;
mod record_type;
mod soa;
mod strings;
mod text;

pub use data_fault::DataFault;
pub use ds::Digest;
pub use fields::read_data;
pub use item::Item;
pub use number::{Seconds, Serial, Ttl, is_number};
pub use order::{data_order, record_order};
pub use rdata::Data;
pub use record::{Record, record_line, same_record};
pub use record_type::RecordType;
pub use soa::{Soa, SoaFields};
pub use strings::{CharacterString, Strings};
pub use text::data_text;
