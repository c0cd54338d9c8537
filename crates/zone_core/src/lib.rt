//! Zones (RFC 1035 section 5.2) and updates of them (RFC 2136): what a zone is, whether the prerequisites of an update hold
//! in it, what operations change, and how a serial advances; and where a zone is cut, and by which update (RFC 1034 section 4.2.1).
#![tactic(auto)]

mod build;
mod change;
mod delegation;
mod effect;
mod faults;
mod invariants;
mod kind;
mod laws;
mod merge;
mod ordered_names;
mod outcome;
mod outermost_names;
mod prerequisite_code;
mod rcode;
mod report;
mod rows;
mod serial;
mod serial_advance;
mod sorting;
mod update;
mod verdict;
mod zone;

pub use change::Change;
pub use delegation::{ChildServer, DelegationRequest, delegation_update, is_below};
pub use faults::{DelegationFault, UpdateFault, ZoneFault};
pub use kind::{OperationKind, PrerequisiteKind};
pub use laws::{
    changes_are_indistinguishable, changes_make_the_zone_after, equal_sets_are_one,
    equal_updates_are_one, invisible_updates_are_indistinguishable, listings_are_indistinguishable,
    operations_read_their_names, outsides_are_first, reports_are_exact, updates_advance_serials,
    updates_keep_zones, updates_leave_records, updates_make_records, updates_need_their_part,
    updates_stay_indistinguishable, verdicts_are_first_unmet, verdicts_are_indistinguishable,
    verdicts_read_their_names, zones_are_built_of_their_records,
};
pub use outcome::{Outcome, apply, apply_owned};
pub use outermost_names::outermost;
pub use prerequisite_code::PrerequisiteCode;
pub use rcode::Rcode;
pub use report::{DelegatedServer, Delegation, Glue, cuts, delegation_report, servers};
pub use rows::{has_type, in_order};
pub use serial::{serial_add, serial_less};
pub use update::{ItemList, Operation, Place, Prerequisite, Update};
pub use verdict::{Failed, holds};
pub use zone::Zone;
