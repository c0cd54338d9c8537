//! What is known of an update when it comes.

use dns_names::Name;
use grant_policy::{Identifier, Policy};
use zone_core::Update;

/// An update of the zone of an origin that a caller submits under an identifier, and the policy by which it is decided.
#[derive(Clone, Copy)]
pub(crate) struct Submission<'a> {
    pub(crate) policy: &'a Policy,
    pub(crate) caller: &'a Identifier,
    pub(crate) id: &'a Identifier,
    pub(crate) origin: &'a Name,
    pub(crate) update: &'a Update,
}
