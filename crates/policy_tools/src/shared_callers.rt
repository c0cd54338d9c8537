//! Callers among others.

ghost use Rattle.std.specs.Prelude.{◌≡◌};
ghost use Rattle.std.specs.Option.{option_copied};
ghost use Rattle.policy_tools.specs.Taking.{AreCallers, includes, shared_of};

use grant_policy::Callers;

/// The callers of whom both speak, where there are any: all, or one.
pub(crate) fn shared<'a>(own: &'a Callers, other: &'a Callers) -> Option<&'a Callers>
    ensures { option_copied result ≡ shared_of own.now other.now }
{
    match (own, other) {
        (Callers::Every, _) => Some(other),
        (Callers::One(_), Callers::Every) => Some(own),
        (Callers::One(one), Callers::One(_)) => other.include(one).then_some(own),
    }
}

/// Whether callers have others among them.
pub(crate) fn include_all(callers: &Callers, others: &Callers) -> bool
    ensures { result ≡ includes callers.now others.now }
{
    match others {
        Callers::One(caller) => callers.include(caller),
        Callers::Every => matches!(callers, Callers::Every),
    }
}

/// Makes known to a proof that callers are named by identifiers. It does nothing when it runs.
pub(crate) fn reveal_callers(callers: &Callers)
    ensures { AreCallers callers.now }
{
    if let Callers::One(identifier) = callers {
        let _ = identifier.as_bytes();
    }
}
