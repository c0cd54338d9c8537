//! What the body of a request says.

use grant_policy::Identifier;
use zone_core::Update;

/// An update, under an identifier of the caller's choice.
#[derive(Drop)]
pub struct UpdateBody {
    pub id: Identifier,
    pub update: Update,
}
