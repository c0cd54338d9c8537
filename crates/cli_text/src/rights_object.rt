//! A decision of a policy, as an object of JSON.

ghost use Rattle.std.specs.Prelude.{◌≡◌, ◌++◌, ◌∷◌, [], IfOk};
ghost use Rattle.grant_policy.specs.Decisions.{verdict_of};
ghost use Rattle.cli_text.specs.RightsObjects.{verdict_object, rule_key};

use grant_policy::Decision;
use std::alloc::{AllocError, Global};
use wire_json::push_quoted;

/// What stands before the rule: whether it is a grant, and the key.
const fn rule_key(decision: Decision<'_>) -> &'static str
    ensures { result.now ≡ rule_key (verdict_of decision.entry) }
{
    match decision {
        Decision::Granted(_) => r#"{"granted":true,"rule":"#,
        Decision::Denied(_) => r#"{"granted":false,"rule":"#,
    }
}

/// The object of a decision, and a line end. The only error is out of memory.
pub(crate) fn decision_object(alloc: Global, decision: Decision<'_>) -> Result<Vec<u8>, AllocError>
    ensures { IfOk result (λ text. text.items ≡ verdict_object (verdict_of decision.entry) ++ 10 ∷ []) }
{
    let mut text = Vec::from_slice(alloc, rule_key(decision).as_bytes())?;
    push_quoted(&mut text, decision.rule())?;
    text.extend_from_slice(b"}\n")?;
    Ok(text)
}
