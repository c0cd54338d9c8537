//! Domain names (RFC 1034 section 3.1, RFC 1035 section 2.3): reading them from the text of master files with every
//! escape, printing them in one canonical spelling, and comparing them label by label. Whatever the code keeps,
//! a contract sees a name as the list of its labels, leftmost first.
#![tactic(auto)]

mod labels;
mod name;
mod name_fault;
mod octets;
mod pieces;
mod relative_text;
mod representation;
mod symbol;
mod text;
mod text_order;

pub use labels::Labels;
pub use name::{KeyRange, Name};
pub use name_fault::NameFault;
pub use octets::cmp_octets;
pub use relative_text::RelativeName;
pub use symbol::{Symbol, first_symbol};
