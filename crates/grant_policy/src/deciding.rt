//! The decision, by the index of a policy.

ghost use Rattle.std.specs.Prelude.{◌≡◌, ◌↔◌, ◌+◌, ◌*◌, ◌<◌, ◌≤◌, ℕ, length, slice_index_or, count_by, true, codes, IsTrue};
ghost use Rattle.std.specs.List.{All};
ghost use Rattle.std.specs.Option.{option_copied};
ghost use Rattle.dns_names.specs.Keys.{IsKeyOfOne};
ghost use Rattle.grant_policy.specs.declared.rule.Rule.{Rule as RuleOf};
ghost use Rattle.grant_policy.specs.Rules.{matches};
ghost use Rattle.grant_policy.specs.Decisions.{IsDecision, NoneMatches, HasRight, decider, decision, verdict_of, concerns, is_granted as is_grant, has_right, has_right_to as has_right_to_type};
ghost use Rattle.grant_policy.specs.Index.{is_at, place_of};
ghost use Rattle.grant_policy.specs.Found.{IsFound, question_of, bound_of, is_before};

use crate::action::Action;
use crate::decision::Decision;
use crate::identifier::Identifier;
use crate::look_ups::LookUps;
use crate::policy::{Policy, reveal_rules};
use crate::rule::Rule;
use crate::table::RuleTable;
use dns_data::RecordType;
use dns_names::Name;

/// What is asked.
#[derive(Clone, Copy)]
struct Asked<'a> {
    caller: &'a Identifier,
    name: &'a Name,
    record_type: RecordType,
    action: Action,
}

/// A rule that matches, and its number.
#[derive(Clone, Copy)]
struct Found<'a> {
    number: usize,
    rule: &'a Rule,
}

/// The lesser of what was found and of the rules that match, among those of a caller or of every caller at a key.
fn least_at<'a, T: RuleTable>(
    table: &'a T,
    group: Option<&[u8]>,
    key: &[u8],
    asked: Asked<'_>,
    so_far: Option<Found<'a>>,
    look_ups: &mut T::LookUps,
) -> Option<Found<'a>>
    requires { IsFound (question_of asked) (T.rules table.now) so_far }
    ensures found { IsFound (question_of asked.entry) (T.rules table.now) result }
    ensures upto { bound_of (T.rules table.now) result ≤ bound_of (T.rules table.now) so_far.entry }
    ensures all { (i : ℕ) → (d : RuleOf) → i < length (T.rules table.now) → place_of (slice_index_or (T.rules table.now) i d) ≡ record { caller = option_copied group.entry; key = key.now } → matches (question_of asked.entry) (slice_index_or (T.rules table.now) i d) ≡ true → bound_of (T.rules table.now) result ≤ i }
    ensures keys { All (λ rule. IsKeyOfOne rule.at) (T.rules table.now) }
    ensures search { T.count look_ups.old + 1 ≤ T.count look_ups.new }
    ensures cost { T.count look_ups.new ≤ T.count look_ups.old + 1 + count_by (is_at (option_copied group.entry) key.now) (T.rules table.now) }
{
    let mut found = so_far;
    for row in table.search(group, key, look_ups) {
        let number = row.number();
        if is_less(number, found) {
            let rule = table.rule(number, look_ups);
            if rule.matches(asked.caller, asked.name, asked.record_type, asked.action) {
                found = Some(Found { number, rule });
            }
        }
    }
    found
}

/// Whether a rule of this number stands before the one that was found.
fn is_less(number: usize, found: Option<Found<'_>>) -> bool
    ensures { result ≡ is_before number found.entry }
{
    match found {
        None => true,
        Some(found) => number < found.number,
    }
}

/// How many names a name and those above it are, the root too.
fn ancestor_count(name: &Name) -> usize
    ensures { result ≡ length name.now + 1 }
{
    name.labels().count() + 1
}

/// The first rule of a table that matches.
fn first_match<'a, T: RuleTable>(
    table: &'a T,
    asked: Asked<'_>,
    look_ups: &mut T::LookUps,
) -> Option<Found<'a>>
    ensures found { IsFound (question_of asked.entry) (T.rules table.now) result }
    ensures least { (i : ℕ) → (d : RuleOf) → i < length (T.rules table.now) → matches (question_of asked.entry) (slice_index_or (T.rules table.now) i d) ≡ true → bound_of (T.rules table.now) result ≤ i }
    ensures cost { T.count look_ups.new ≤ T.count look_ups.old + 2 * (length asked.entry.name.now + 1) + count_by (concerns asked.entry.caller.now asked.entry.name.now) (T.rules table.now) }
    ensures searches { T.count look_ups.old + 2 * (length asked.entry.name.now + 1) ≤ T.count look_ups.new }
{
    let mut found = None;
    for labels in 0..ancestor_count(asked.name) {
        if let Some(key) = asked.name.ancestor_key(labels) {
            found = least_at(table, None, key, asked, found, look_ups);
            let own = Some(asked.caller.as_bytes());
            found = least_at(table, own, key, asked, found, look_ups);
        }
    }
    found
}

/// Decides whether a caller may do something with the records of a type at a name: the first rule that matches grants or
/// denies it, and where none matches the closing default denies it. It takes no memory, and always answers.
///
/// Rules are found by an index. For the name and each name above it, the root too, the rules of the caller and those of
/// every caller are searched once, and of the rules found so only those are read that may come first.
pub fn decide<'a>(
    policy: &'a Policy,
    caller: &Identifier,
    name: &Name,
    record_type: RecordType,
    action: Action,
    look_ups: &mut LookUps,
) -> Decision<'a>
    // The decision is that of the rule that matches while none before it does, or the closing denial.
    ensures found { IsDecision (record { caller = caller.now; name = name.now; record_type = record_type; action = action }) policy.now (verdict_of result) }
    // Which decision it is.
    ensures first { verdict_of result ≡ decision (record { caller = caller.now; name = name.now; record_type = record_type; action = action }) policy.now }
    // The closing default is named exactly where no rule matches.
    ensures closing { decider (verdict_of result) ≡ codes "closing" ↔ NoneMatches (record { caller = caller.now; name = name.now; record_type = record_type; action = action }) policy.now }
    // No more look-ups than two for each name from the name to the root, and one for each rule of the caller or of every
    // caller whose name is one of them.
    ensures cost { look_ups.new.count ≤ look_ups.old.count + 2 * (length name.now + 1) + count_by (concerns caller.now name.now) policy.now }
    // The searches are counted.
    ensures searches { look_ups.old.count + 2 * (length name.now + 1) ≤ look_ups.new.count }
{
    let asked = Asked {
        caller,
        name,
        record_type,
        action,
    };
    reveal_rules(policy);
    match first_match(policy, asked, look_ups) {
        Some(found) => found.rule.decision(),
        None => Decision::Denied(None),
    }
}

/// Whether a policy grants a question.
pub(crate) fn is_granted(
    policy: &Policy,
    caller: &Identifier,
    name: &Name,
    record_type: RecordType,
    action: Action,
) -> bool
    ensures { result ≡ is_grant (decision (record { caller = caller.now; name = name.now; record_type = record_type; action = action }) policy.now) }
{
    let mut look_ups = LookUps::new();
    decide(policy, caller, name, record_type, action, &mut look_ups).is_granted()
}

/// Whether a policy grants some action on the records of a type.
fn has_right_to(policy: &Policy, caller: &Identifier, name: &Name, record_type: RecordType) -> bool
    ensures { result ≡ has_right_to_type policy.now caller.now name.now record_type }
{
    Action::ALL.iter().any(|action| is_granted(policy, caller, name, record_type, *action))
}

/// Whether a policy grants a caller some action on the records of some kept type at a name. It takes no memory, and always
/// answers.
pub fn has_any_right(policy: &Policy, caller: &Identifier, name: &Name) -> bool
    ensures { IsTrue result ↔ HasRight policy.now caller.now name.now }
{
    has_some_right(policy, caller, name)
}

/// Whether a policy grants some action on the records of some kept type.
fn has_some_right(policy: &Policy, caller: &Identifier, name: &Name) -> bool
    ensures { result ≡ has_right policy.now caller.now name.now }
{
    RecordType::ALL.iter().any(|record_type| has_right_to(policy, caller, name, *record_type))
}
