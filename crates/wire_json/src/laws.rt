//! What the definitions promise.

ghost use Rattle.wire_json.specs.Delegating.{DelegationsAreOne};

/// The update of a delegation, by the lists of its request, is the one that delegations have.
pub fn delegations_are_one()
    ensures { DelegationsAreOne }
{}
