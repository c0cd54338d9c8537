//! The rules of the office in its own TOML.

ghost use Rattle.std.specs.Prelude.{◌≡◌, ◌≤◌, List, ℕ, Ok, IfOk, map, option_map, string_bytes};
ghost use Rattle.std.specs.List.{All};
ghost use Rattle.dns_names.specs.Labels.{IsName};
ghost use Rattle.dns_names.specs.Spelling.{SpellsAbsolute};
ghost use Rattle.toml.specs.Data.{string, items_depth, members_depth};
ghost use Rattle.toml.specs.View.{view, items_view, table_view};
ghost use Rattle.grant_policy.specs.declared.rule.Rule.{Rule as RuleOf};
ghost use Rattle.grant_policy.specs.Documents.{AreRules, SpellsCallers, SpellsRule, SpellsRules, document_of};
ghost use Rattle.grant_policy.specs.Reading.{policy_of};
ghost use Rattle.policy_build.specs.Making.{made_of, rules_made};
ghost use Rattle.policy_build.specs.Printing.{put_member, rule_with, selection_data, words_data};
ghost use Rattle.policy_build.specs.Selections.{SelectsSome};

use crate::building::Built;
use crate::made_rule::MadeRule;
use dns_data::RecordType;
use dns_names::Name;
use grant_policy::{Action, Callers, Effect, Identifier, Rule, Scope};
use std::alloc::{AllocError, Global};
use toml::{Table, Value};

/// A word of a rule.
trait Word: Copy {
    ghost word_text: { Self → List ℕ };

    /// How it is written.
    fn word(self) -> &'static str
        ensures { result.now ≡ word_text self };
}

impl Word for RecordType {
    ghost use Rattle.dns_data.specs.Types.{type_text};

    ghost word_text = { type_text };

    fn word(self) -> &'static str {
        self.text()
    }
}

impl Word for Action {
    ghost use Rattle.grant_policy.specs.Words.{action_text};

    ghost word_text = { action_text };

    fn word(self) -> &'static str {
        self.text()
    }
}

/// The texts of words, in order. The only error is out of memory.
fn words_value<T: Word>(alloc: Global, words: &[T]) -> Result<Vec<Value>, AllocError>
    ensures { IfOk result (λ values. items_view values.items ≡ words_data T.word_text words.now) }
{
    let mut values = Vec::new(alloc);
    for word in words {
        values.push(Value::string(alloc, word.word())?)?;
    }
    Ok(values)
}

/// `*`, or an array of the words that are listed. The only error is out of memory.
fn selection_value<T: Word>(alloc: Global, listed: Option<&[T]>) -> Result<Value, AllocError>
    ensures { IfOk result (λ value. view value ≡ selection_data T.word_text (option_map (λ words. words.now) listed.entry)) }
{
    match listed {
        Some(words) => Ok(Value::Array(words_value(alloc, words)?)),
        None => Value::string(alloc, "*"),
    }
}

/// `*`, or the identifier of a caller.
fn callers_text(callers: &Callers) -> &str
    ensures { SpellsCallers callers.now result.now }
{
    match callers {
        Callers::Every => "*",
        Callers::One(identifier) => identifier.as_str(),
    }
}

/// The text of a name. The only error is out of memory.
fn name_text(alloc: Global, name: &Name) -> Result<String, AllocError>
    ensures name { IsName name.now }
    ensures spells { IfOk result (λ text. SpellsAbsolute name.now (string_bytes text)) }
{
    // the proof needs that it is a name
    let _ = name.labels();
    name.text(alloc)
}

/// Puts a value at a key of a table. The only error is out of memory.
fn put(alloc: Global, table: &mut Table, key: &str, value: Value) -> Result<(), AllocError>
    ensures { IfOk result (λ _. table_view table.new ≡ put_member key.now (view value) (table_view table.old)) }
{
    let key = String::from_str(alloc, key)?;
    table.insert(key, value)?;
    Ok(())
}

/// Puts a text at a key of a table. The only error is out of memory.
fn put_text(alloc: Global, table: &mut Table, key: &str, text: &str) -> Result<(), AllocError>
    ensures { IfOk result (λ _. table_view table.new ≡ put_member key.now (string text.now) (table_view table.old)) }
{
    put(alloc, table, key, Value::string(alloc, text)?)
}

/// What is printed of a rule.
#[derive(Clone, Copy)]
struct RuleParts<'a> {
    id: &'a Identifier,
    effect: Effect,
    callers: &'a Callers,
    scope: Scope,
    at: &'a Name,
    types: Option<&'a [RecordType]>,
    actions: Option<&'a [Action]>,
}

/// What is printed as a rule.
trait Printed {
    ghost rule: { Self → RuleOf };

    ghost selects: { Self → Type 0 };

    /// The parts of the rule.
    fn parts(&self) -> RuleParts<'_>
        ensures rule { rule_with result ≡ rule self.now }
        ensures some { selects self.now → SelectsSome (rule self.now) };
}

impl<'a> Printed for MadeRule<'a> {
    ghost use Rattle.policy_build.specs.Making.{made_of};

    ghost rule = { λ made. (made_of made).rule };

    ghost selects = { λ _. Unit {0} };

    fn parts(&self) -> RuleParts<'_> {
        RuleParts {
            id: &self.id,
            effect: self.effect,
            callers: self.callers,
            scope: self.names.scope,
            at: &self.names.at,
            types: self.types.listed(),
            actions: self.actions.listed(),
        }
    }
}

impl<'a> Printed for &'a Rule {
    ghost use Rattle.policy_build.specs.Selections.{SelectsSome};

    ghost rule = { λ r. r.now };

    ghost selects = { λ r. SelectsSome r.now };

    fn parts(&self) -> RuleParts<'_> {
        let rule = *self;
        RuleParts {
            id: &rule.id,
            effect: rule.effect,
            callers: &rule.callers,
            scope: rule.scope,
            at: &rule.at,
            types: rule.types.listed(),
            actions: rule.actions.listed(),
        }
    }
}

/// The table of a rule. The only error is out of memory.
fn rule_table(alloc: Global, rule: &RuleParts<'_>) -> Result<Table, AllocError>
    ensures spells { IfOk result (λ table. SelectsSome (rule_with rule.now) → SpellsRule (rule_with rule.now) (table_view table)) }
    ensures shallow { IfOk result (λ table. members_depth (table_view table) ≤ 1) }
{
    let at = name_text(alloc, rule.at)?;
    let mut table = Table::new(alloc);
    put_text(alloc, &mut table, "id", rule.id.as_str())?;
    put_text(alloc, &mut table, "effect", rule.effect.text())?;
    put_text(alloc, &mut table, "caller", callers_text(rule.callers))?;
    put_text(alloc, &mut table, "scope", rule.scope.text())?;
    put_text(alloc, &mut table, "at", at.as_str())?;
    let types = selection_value(alloc, rule.types)?;
    put(alloc, &mut table, "types", types)?;
    let actions = selection_value(alloc, rule.actions)?;
    put(alloc, &mut table, "actions", actions)?;
    Ok(table)
}

/// The tables of rules, in order. The only error is out of memory.
fn rule_tables<T: Printed>(alloc: Global, rules: &[T]) -> Result<Vec<Value>, AllocError>
    ensures spells { IfOk result (λ tables. All T.selects rules.now → SpellsRules (map T.rule rules.now) (items_view tables.items)) }
    ensures shallow { IfOk result (λ tables. items_depth (items_view tables.items) ≤ 2) }
{
    let mut tables = Vec::new(alloc);
    for rule in rules {
        tables.push(Value::Table(rule_table(alloc, &rule.parts())?))?;
    }
    Ok(tables)
}

/// Rules as a policy of the office, in TOML. The only error is out of memory.
fn rules_text<T: Printed>(alloc: Global, rules: &[T]) -> Result<String, AllocError>
    ensures { IfOk result (λ text. All T.selects rules.now → AreRules (map T.rule rules.now) → policy_of (document_of (string_bytes text)) ≡ Ok (map T.rule rules.now)) }
{
    let mut top = Table::new(alloc);
    let tables = rule_tables(alloc, rules)?;
    put(alloc, &mut top, "rule", Value::Array(tables))?;
    match toml::table_to_string(alloc, &top) {
        Ok(text) => {
            // the proof needs that it is UTF-8
            let _ = text.as_str();
            Ok(text)
        }
        Err(_) => Err(AllocError),
    }
}

impl<'a> Built<'a> {
    /// The rules as a policy of the office, in TOML. The only error is out of memory.
    pub fn text(&self, alloc: Global) -> Result<String, AllocError>
        // The reader of policies reads exactly these rules again.
        ensures again { IfOk result (λ text. AreRules (rules_made (map made_of self.now.rules.items)) → policy_of (document_of (string_bytes text)) ≡ Ok (rules_made (map made_of self.now.rules.items))) }
    {
        rules_text(alloc, &self.rules)
    }
}

/// The rules as a policy of the office, in TOML. The only error is out of memory.
pub fn policy_text(alloc: Global, rules: &[&Rule]) -> Result<String, AllocError>
    // The reader of policies reads exactly these rules again, if they are those of a policy and each selects a type and an action.
    ensures again { IfOk result (λ text. AreRules (map (λ r. r.now) rules.now) → All SelectsSome (map (λ r. r.now) rules.now) → policy_of (document_of (string_bytes text)) ≡ Ok (map (λ r. r.now) rules.now)) }
{
    rules_text(alloc, rules)
}
