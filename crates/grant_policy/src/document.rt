//! Reading a policy from a TOML document.

ghost use Rattle.std.specs.Prelude.{◌≡◌, ◌+◌, ◌≤◌, ◌∷◌, ◌++◌, List, ℕ, [], Some, Ok, length, map, codes, bytes_eq, string_bytes, None, ◌⊎◌, IfOk, MatchResult};
ghost use Rattle.std.specs.Option.{option_map};
ghost use Rattle.toml.specs.Data.{Members, string, get_member};
ghost use Rattle.toml.specs.View.{view, table_view, items_view};
ghost use Rattle.grant_policy.specs.declared.rule.Rule.{Rule as RuleOf};
ghost use Rattle.grant_policy.specs.Documents.{document_of, rule_keys, key_text, AreRules, IsPolicy};
ghost use Rattle.grant_policy.specs.Words.{action_of};
ghost use Rattle.grant_policy.specs.Faults.{Reads};
ghost use Rattle.grant_policy.specs.Reading.{SameIds, text_in, word_in, words_of, type_of, name_in, selection_in, needed, rule_data, rule_in, rule_of, rules_of, rule_tables, known_keys, policy_of, data_of, IsNamed, IsNamedIn, AreNamedIn, has_only, tables_of};
ghost use Rattle.std.specs.List.{list_any, list_all};
ghost use Rattle.std.specs.Option.{ok_or};
ghost use Rattle.std.specs.BTreeMap.{keys};

use crate::identifier::Identifier;
use crate::ids::Ids;
use crate::policy::Policy;
use crate::policy_fault::{PolicyFault, PolicyPlace, RuleKey};
use crate::rule::Rule;
use crate::selection::{Actions, Types};
use crate::word::Word;
use dns_names::Name;
use std::alloc::Global;
use std::str;
use toml::{Table, Value};

/// The text of a value.
fn text_of(value: &Value, place: PolicyPlace) -> Result<&str, PolicyFault>
    ensures { Reads (λ text. text.now) result (text_in place (view value.now)) }
{
    value.as_str().ok_or(PolicyFault::BadValue(place))
}

/// The word of a value.
fn word_of<T: Word>(alloc: Global, value: &Value, place: PolicyPlace) -> Result<T, PolicyFault>
    ensures { Reads (λ word. word) result (word_in T.word_of place (view value.now)) }
{
    let text = text_of(value, place)?;
    T::of_text(alloc, text)?.ok_or(PolicyFault::BadValue(place))
}

/// The name of the rule of this number.
fn rule_name(alloc: Global, number: usize, value: &Value) -> Result<Name, PolicyFault>
    ensures exact { Reads (λ name. name) result (name_in number (view value.now)) }
    ensures found { IfOk result (λ name. IsNamed name (view value.now)) }
{
    let text = text_of(value, PolicyPlace::Key(number, RuleKey::At))?;
    match Name::read_absolute(alloc, text.as_bytes()) {
        Ok(name) => Ok(name),
        Err(fault) => Err(PolicyFault::of_name(number, fault)),
    }
}

/// The seven values of a rule.
#[derive(Drop)]
struct Values<'a> {
    id: &'a Value,
    effect: &'a Value,
    caller: &'a Value,
    scope: &'a Value,
    at: &'a Value,
    types: &'a Value,
    actions: &'a Value,
}

/// The value of a key of the rule of this number.
fn value_at(number: usize, table: &Table, key: RuleKey) -> Result<&Value, PolicyFault>
    ensures { Reads (λ v. view v.now) result (needed number (table_view table.now) key) }
{
    let place = PolicyPlace::Key(number, key);
    table.get(key.text()).ok_or(PolicyFault::MissingKey(place))
}

/// The values of the rule of this number.
fn rule_values(number: usize, table: &Table) -> Result<Values<'_>, PolicyFault>
    ensures { Reads data_of result (rule_data number (table_view table.now)) }
{
    Ok(Values {
        id: value_at(number, table, RuleKey::Id)?,
        effect: value_at(number, table, RuleKey::Effect)?,
        caller: value_at(number, table, RuleKey::Caller)?,
        scope: value_at(number, table, RuleKey::Scope)?,
        at: value_at(number, table, RuleKey::At)?,
        types: value_at(number, table, RuleKey::Types)?,
        actions: value_at(number, table, RuleKey::Actions)?,
    })
}

/// The words of an array, one after the other.
fn array_words<T: Word>(
    alloc: Global,
    items: &[Value],
    place: PolicyPlace,
) -> Result<Vec<T>, PolicyFault>
    ensures { Reads (λ words. words.items) result (words_of T.word_of place (items_view items.now)) }
{
    let mut words = Vec::new(alloc);
    for item in items {
        words.push(word_of(alloc, item, place)?)?;
    }
    Ok(words)
}

/// What `*`, which is read as `None`, or an array of one word or more selects.
fn selection<T: Word>(
    alloc: Global,
    value: &Value,
    place: PolicyPlace,
) -> Result<Option<Vec<T>>, PolicyFault>
    ensures { Reads (λ selection. option_map (λ words. words.items) selection) result (selection_in T.word_of place (view value.now)) }
{
    let bad = PolicyFault::BadValue(place);
    if let Some(text) = value.as_str() {
        return if text == "*" { Ok(None) } else { Err(bad) };
    }
    match value.as_array() {
        Some(items) if !items.is_empty() => Ok(Some(array_words(alloc, items, place)?)),
        _ => Err(bad),
    }
}

/// The types of a rule.
fn rule_types(alloc: Global, number: usize, value: &Value) -> Result<Types, PolicyFault>
    ensures { Reads (λ types. types) result (selection_in type_of (PolicyPlace.Key number RuleKey.Types) (view value.now)) }
{
    match selection(alloc, value, PolicyPlace::Key(number, RuleKey::Types))? {
        Some(listed) => Ok(Types::of(listed)),
        None => Ok(Types::every()),
    }
}

/// The actions of a rule.
fn rule_actions(alloc: Global, number: usize, value: &Value) -> Result<Actions, PolicyFault>
    ensures { Reads (λ actions. actions) result (selection_in action_of (PolicyPlace.Key number RuleKey.Actions) (view value.now)) }
{
    match selection(alloc, value, PolicyPlace::Key(number, RuleKey::Actions))? {
        Some(listed) => Ok(Actions::of(listed)),
        None => Ok(Actions::every()),
    }
}

/// The rule that values make, the rule of this number, whose id becomes one of `ids`.
fn rule_from(
    alloc: Global,
    number: usize,
    values: &Values<'_>,
    ids: &mut Ids,
) -> Result<Rule, PolicyFault>
    ensures exact { (before : List (List ℕ)) → SameIds ids.old before → Reads (λ rule. rule) result (rule_in number before (data_of values.now)) }
    ensures added { IfOk result (λ rule. (before : List (List ℕ)) → SameIds ids.old before → SameIds ids.new (before ++ rule.id ∷ [])) }
    ensures named { IfOk result (λ rule. IsNamed rule.at (view values.now.at.now)) }
{
    let id: Identifier = word_of(alloc, values.id, PolicyPlace::Key(number, RuleKey::Id))?;
    ids.add(alloc, number, &id)?;
    Ok(Rule {
        id,
        effect: word_of(
            alloc,
            values.effect,
            PolicyPlace::Key(number, RuleKey::Effect),
        )?,
        callers: word_of(
            alloc,
            values.caller,
            PolicyPlace::Key(number, RuleKey::Caller),
        )?,
        scope: word_of(
            alloc,
            values.scope,
            PolicyPlace::Key(number, RuleKey::Scope),
        )?,
        at: rule_name(alloc, number, values.at)?,
        types: rule_types(alloc, number, values.types)?,
        actions: rule_actions(alloc, number, values.actions)?,
    })
}

/// Whether a text is a key of a rule.
fn is_rule_key(text: &str) -> bool
    ensures { result ≡ list_any (λ key. bytes_eq (key_text key) text.now) RuleKey.ALL }
{
    RuleKey::ALL.iter().any(|key| key.text() == text)
}

/// Whether all keys of a table are keys of a rule.
fn are_rule_keys(table: &Table) -> bool
    ensures { result ≡ list_all (λ k. list_any (λ key. bytes_eq (key_text key) (string_bytes k)) RuleKey.ALL) (keys table.now) }
{
    table.keys().all(|key| is_rule_key(key.as_str()))
}

/// Whether a table has no keys but those of rules.
fn has_rule_keys_only(table: &Table) -> bool
    ensures { result ≡ has_only rule_keys (table_view table.now) }
{
    are_rule_keys(table)
}

/// Whether all keys of a table are the one at the top of a policy.
fn are_top_keys(table: &Table) -> bool
    ensures { result ≡ list_all (λ k. bytes_eq (codes "rule") (string_bytes k)) (keys table.now) }
{
    table.keys().all(|key| "rule" == key.as_str())
}

/// Whether a table has no key but that at the top of a policy.
fn has_top_keys_only(table: &Table) -> bool
    ensures { result ≡ has_only (codes "rule" ∷ []) (table_view table.now) }
{
    are_top_keys(table)
}

/// The rule of a table, the rule of this number, whose id becomes one of `ids`.
fn read_rule(
    alloc: Global,
    number: usize,
    table: &Table,
    ids: &mut Ids,
) -> Result<Rule, PolicyFault>
    ensures exact { (before : List (List ℕ)) → SameIds ids.old before → number ≡ length before + 1 → Reads (λ rule. rule) result (rule_of before (table_view table.now)) }
    ensures added { IfOk result (λ rule. (before : List (List ℕ)) → SameIds ids.old before → SameIds ids.new (before ++ rule.id ∷ [])) }
    ensures named { IfOk result (λ rule. IsNamedIn rule.at (table_view table.now)) }
{
    if !has_rule_keys_only(table) {
        return Err(PolicyFault::UnknownKey(PolicyPlace::Rule(number)));
    }
    let values = rule_values(number, table)?;
    rule_from(alloc, number, &values, ids)
}

/// The rules of few tables, in order.
fn read_rules(alloc: Global, tables: &[&Table]) -> Result<Vec<Rule>, PolicyFault>
    requires { length tables.now ≤ 1024 }
    ensures exact { Reads (λ rules. rules.items) result (rules_of [] (map (λ table. table_view table.now) tables.now)) }
    ensures named { IfOk result (λ rules. AreNamedIn rules.items (map (λ table. table_view table.now) tables.now)) }
    ensures are { IfOk result (λ rules. AreRules rules.items) }
{
    let mut ids = Ids::new(alloc);
    let mut rules = Vec::new(alloc);
    for (i, table) in tables.iter().enumerate() {
        rules.push(read_rule(alloc, i + 1, table, &mut ids)?)?;
    }
    Ok(rules)
}

/// The tables of an array that has nothing else.
fn array_tables(alloc: Global, items: &[Value]) -> Result<Vec<&Table>, PolicyFault>
    ensures { Reads (λ tables. map (λ table. table_view table.now) tables.items) result (ok_or (tables_of (items_view items.now)) (PolicyFault.BadValue PolicyPlace.Rules)) }
{
    let mut tables = Vec::new(alloc);
    for item in items {
        match item.as_table() {
            Some(table) => tables.push(table)?,
            None => return Err(PolicyFault::BadValue(PolicyPlace::Rules)),
        }
    }
    Ok(tables)
}

/// The tables of the rules of a document.
fn document_tables(alloc: Global, top: &Table) -> Result<Vec<&Table>, PolicyFault>
    ensures { Reads (λ tables. map (λ table. table_view table.now) tables.items) result (rule_tables (get_member (codes "rule") (table_view top.now))) }
{
    match top.get("rule") {
        Some(value) => value_tables(alloc, value),
        None => Ok(Vec::new(alloc)),
    }
}

/// The tables of the value of `rule`.
fn value_tables(alloc: Global, value: &Value) -> Result<Vec<&Table>, PolicyFault>
    ensures { Reads (λ tables. map (λ table. table_view table.now) tables.items) result (rule_tables (Some (view value.now))) }
{
    match value.as_array() {
        Some(items) => array_tables(alloc, items),
        None => Err(PolicyFault::BadValue(PolicyPlace::Rules)),
    }
}

/// The rules of a document.
fn document_rules(alloc: Global, top: &Table) -> Result<Vec<Rule>, PolicyFault>
    ensures exact { Reads (λ rules. rules.items) result (policy_of (Some (table_view top.now))) }
    ensures named { IfOk result (λ rules. (mss : List Members) → rule_tables (get_member (codes "rule") (table_view top.now)) ≡ Ok mss → AreNamedIn rules.items mss) }
    ensures are { IfOk result (λ rules. AreRules rules.items) }
{
    if !has_top_keys_only(top) {
        return Err(PolicyFault::UnknownKey(PolicyPlace::Document));
    }
    let tables = document_tables(alloc, top)?;
    if tables.len() > Policy::RULES_MAX {
        return Err(PolicyFault::TooManyRules);
    }
    read_rules(alloc, &tables)
}

/// The document of a text.
fn document(alloc: Global, text: &[u8]) -> Result<Table, PolicyFault>
    ensures { MatchResult result (λ top. document_of text.now ≡ Some (table_view top)) (λ e. (e ≡ PolicyFault.NoMemory) ⊎ ((e ≡ PolicyFault.NotToml) × (document_of text.now ≡ None))) }
{
    let Ok(text) = str::from_utf8(text) else {
        return Err(PolicyFault::NotToml);
    };
    match toml::table_from_str(alloc, text) {
        Ok(top) => Ok(top),
        Err(e) if e.is_memory() => Err(PolicyFault::NoMemory),
        Err(_) => Err(PolicyFault::NotToml),
    }
}

/// Reads a policy from a TOML document, in UTF-8, whose only key is `rule`, an array of tables; without it there is no rule.
/// Each table has exactly the keys `id`, `effect`, `caller`, `scope`, `at`, `types` and `actions`. `caller` is `*` or an
/// identifier, `at` an absolute name, `types` and `actions` are `*` or an array of one or more; types are read in either
/// letter case, all other words as they are written.
///
/// Of several refusals the first of these is answered: `NotToml`; `UnknownKey` at the top; `BadValue` where `rule` is no
/// array of tables; `TooManyRules` above 1,024; and then rule by rule `UnknownKey`, `MissingKey`, and for the values in the
/// order of the keys above `BadValue`, for the id then `IdReserved` and `IdRepeated`, and for `at` then `Name`. `NoMemory`
/// comes at the growth that was refused. The time grows with the octets, and with the rules n as n log n.
pub fn read_policy(alloc: Global, text: &[u8]) -> Result<Policy, PolicyFault>
    // What is read is a policy with these rules.
    ensures found { IfOk result (λ policy. (top : Members) × (document_of text.now ≡ Some top) × IsPolicy top policy) }
    // A document that is a policy is read, unless memory runs out.
    ensures only { (top : Members) (rules : List RuleOf) → document_of text.now ≡ Some top → IsPolicy top rules → Reads (λ policy. policy) result (Ok rules) }
    // Which refusal it is.
    ensures exact { Reads (λ policy. policy) result (policy_of (document_of text.now)) }
{
    policy_in(alloc, text)
}

/// The policy of a text, or the refusal that comes first.
fn policy_in(alloc: Global, text: &[u8]) -> Result<Policy, PolicyFault>
    ensures exact { Reads (λ policy. policy) result (policy_of (document_of text.now)) }
    ensures found { IfOk result (λ policy. (top : Members) × (document_of text.now ≡ Some top) × IsPolicy top policy) }
{
    let top = document(alloc, text)?;
    let rules = document_rules(alloc, &top)?;
    Ok(Policy::indexed(alloc, rules)?)
}
