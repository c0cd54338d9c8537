//! Master files (RFC 1035 section 5.1): telling the items and the entries of a text apart, reading its records, and printing
//! a zone; and the devices that texts are read from and written to.
#![tactic(auto)]

mod device;
mod entry;
mod entry_fault;
mod field;
mod file;
mod laws;
mod line;
mod master_fault;
mod other;
mod other_type;
mod part_laws;
mod part_lines;
mod parting;
mod reader;
mod scan;
mod shape;
mod statement;
mod token;
mod zone_text;

pub use device::{Counted, DeviceFailed, FaultCount, Pieces, Sink, Source, write_all};
pub use file::read_file;
pub use laws::{
    defaults_are_one, defaults_are_there, depths_are_counted, pieces_are_one_list, pieces_are_read,
    printed_is_read,
};
pub use master_fault::MasterFault;
pub use part_laws::{
    kept_part_is_read, others_are_stated, parts_are_apart, parts_are_read, stated_others_are_read,
};
pub use parting::{FilePart, part_of_file};
pub use token::{Token, tokens};
pub use zone_text::{print_records, print_relative_zone, print_zone};
