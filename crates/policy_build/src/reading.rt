//! Policies of the office that can be printed again.

ghost use Rattle.std.specs.Prelude.{◌≡◌, Some, IfOk};
ghost use Rattle.std.specs.List.{All};
ghost use Rattle.toml.specs.Data.{Members};
ghost use Rattle.grant_policy.specs.Documents.{IsPolicy, document_of};
ghost use Rattle.grant_policy.specs.Faults.{Reads};
ghost use Rattle.grant_policy.specs.Reading.{policy_of};
ghost use Rattle.policy_build.specs.Selections.{SelectsSome};

use grant_policy::{Policy, PolicyFault, read_policy};
use std::alloc::Global;

/// Reads a policy from a TOML document, as `read_policy` does, with its refusals.
pub fn read_rules(alloc: Global, text: &[u8]) -> Result<Policy, PolicyFault>
    // What is read is a policy with these rules.
    ensures found { IfOk result (λ policy. (top : Members) × (document_of text.now ≡ Some top) × IsPolicy top policy) }
    // Each of them selects a type and an action.
    ensures selects { IfOk result (λ policy. All SelectsSome policy) }
    // Which refusal it is.
    ensures exact { Reads (λ policy. policy) result (policy_of (document_of text.now)) }
{
    read_policy(alloc, text)
}
