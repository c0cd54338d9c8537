//! What the definitions promise.

ghost use Rattle.cli_checks.specs.OriginLists.{ListsAreRead};
ghost use Rattle.cli_checks.specs.ReachAsks.{PermittedUpdatesCount, CountedUpdatesArePermitted};

/// What `zones` prints is read as the list of its zones, if no origin is printed with a `#` at its beginning.
pub fn lists_are_read()
    ensures { ListsAreRead }
{}

/// An update counts as one by which a caller reaches answers if the office permits it, whatever it tests; and one that counts and tests
/// nothing, the office permits.
pub fn reach_asks_as_the_office()
    ensures count { PermittedUpdatesCount }
    ensures permitted { CountedUpdatesArePermitted }
{}
