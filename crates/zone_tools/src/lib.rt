//! What the hostmaster's tools ask of zones: which operations lead from one zone to another (RFC 2136 section 2.5); which records a
//! zone had before some of its changes, and which change brought each of those that it has; which pointers the addresses of forward
//! zones call for in a reverse zone, and which addresses several names have (RFC 1035 section 3.5, RFC 2317, RFC 3596 section 2.5);
//! and what is wrong in a zone that the office takes, and other name servers refuse or warn of: names that are no hosts', servers
//! that are aliases or have no addresses, and records that a delegation hides (RFC 1034 section 4.2.1, RFC 1123 section 2.1,
//! RFC 2181 section 10.3, RFC 4034 section 5).
#![tactic(auto)]

mod change_makers;
mod difference;
mod history;
mod host_names;
mod idle;
mod large_record_sets;
mod laws;
mod name_server;
mod past;
mod pointers;
mod record_faults;
mod record_key;
mod repeated_addresses;
mod reverse_blocks;
mod reverse_names;
mod same;
mod shared;
mod zone_faults;
mod zone_finding;
mod zone_names;
mod zone_rule;
mod zone_survey;

pub use change_makers::makers;
pub use difference::operations_between;
pub use history::{bringers, records_before};
pub use host_names::is_reverse;
pub use idle::{Idleness, idle_operations};
pub use large_record_sets::large_sets;
pub use laws::{
    bringers_are_last, changes_are_undone, clean_zones_have_glue, idle_operations_change_nothing,
    makers_are_found, pointers_are_one, records_were_there, updates_in_turn,
};
pub use name_server::{NameServer, Reaction};
pub use pointers::reverse_pointers;
pub use same::{is_equal, is_same};
pub use shared::shared_addresses;
pub use zone_finding::{Finding, findings};
pub use zone_rule::ZoneRule;
