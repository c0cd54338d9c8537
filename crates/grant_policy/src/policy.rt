//! A policy: rules, and their index.

ghost use Rattle.std.specs.Prelude.{◌≡◌, ◌+◌, ◌<◌, ◌≤◌, ℕ, List, [], Ok, length, slice_index_or, count_by, IfOk};
ghost use Rattle.std.specs.List.{All};
ghost use Rattle.std.specs.Option.{option_copied};
ghost use Rattle.grant_policy.specs.declared.rule.Rule.{Rule as RuleOf};
ghost use Rattle.grant_policy.specs.Documents.{AreRules};
ghost use Rattle.grant_policy.specs.Faults.{Reads};
ghost use Rattle.grant_policy.specs.Reading.{free_rules, built};
ghost use Rattle.grant_policy.specs.Index.{IsIndex, IsRow, Names, is_at, place_of};

use crate::ids::Ids;
use crate::index_row::IndexRow;
use crate::look_ups::LookUps;
use crate::policy_fault::PolicyFault;
use crate::rule::Rule;
use crate::table::RuleTable;
use std::alloc::{AllocError, Global};
use std::marker::Model;

/// A policy: an ordered list of rules. What it decides is read by an index from the caller and the key of a rule's name.
#[derive(Drop)]
pub struct Policy {
    rules: Vec<Rule>,
    index: Vec<IndexRow>,
}

impl Model for Policy {
    ghost Value = { List RuleOf };

    ghost view = { λ p. p.rules.items };

    ghost invariant = { λ p. IsIndex p.rules.items p.index.items × AreRules p.rules.items };
}

impl Policy {
    /// The most rules of a policy.
    pub const RULES_MAX: usize = 1024;

    /// The policy of a list of rules. The only error is out of memory.
    pub(crate) fn indexed(alloc: Global, rules: Vec<Rule>) -> Result<Policy, AllocError>
        requires { AreRules rules.items }
        ensures { IfOk result (λ policy. policy ≡ rules.items) }
    {
        let mut index = Vec::new(alloc);
        for (number, rule) in rules.iter().enumerate() {
            index.push(IndexRow::of(alloc, rule, number)?)?;
        }
        index.sort_by(|a, b| a.cmp_row(b))?;
        Ok(Policy { rules, index })
    }

    /// The policy of a list of rules, in order.
    ///
    /// More than 1,024 rules are `TooManyRules`; else the first rule decides that is called `closing`, which is `IdReserved`, or
    /// as one before it, which is `IdRepeated`. `NoMemory` comes at the growth that was refused.
    pub fn build(alloc: Global, rules: Vec<Rule>) -> Result<Policy, PolicyFault>
        // The rules that make a policy are at most 1,024, no two of one id, and none called as the closing default.
        ensures found { IfOk result (λ policy. (policy ≡ rules.items) × AreRules rules.items) }
        // Such rules make one, unless memory runs out.
        ensures only { AreRules rules.items → Reads (λ policy. policy) result (Ok rules.items) }
        // Which refusal it is.
        ensures exact { Reads (λ policy. policy) result (built rules.items) }
    {
        Policy::checked(alloc, rules)
    }

    /// The rules, in order.
    pub fn rules(&self) -> &[Rule]
        ensures rules { result.now ≡ self.now }
        ensures policy { AreRules self.now }
    {
        &self.rules
    }

    /// The policy of a list of rules, or the refusal that comes first.
    fn checked(alloc: Global, rules: Vec<Rule>) -> Result<Policy, PolicyFault>
        ensures { Reads (λ policy. policy) result (built rules.items) }
    {
        if rules.len() > Policy::RULES_MAX {
            return Err(PolicyFault::TooManyRules);
        }
        check_ids(alloc, &rules)?;
        Ok(Policy::indexed(alloc, rules)?)
    }
}

/// Makes known to a proof that the rules of a policy are such. It does nothing when it runs.
pub(crate) fn reveal_rules(policy: &Policy)
    ensures { AreRules policy.now }
{
    let _ = &policy.rules;
}

/// Checks that no two rules have one id, and none that of the closing default.
fn check_ids(alloc: Global, rules: &[Rule]) -> Result<(), PolicyFault>
    ensures { Reads (λ _. rules.now) result (free_rules [] rules.now) }
{
    let mut ids = Ids::new(alloc);
    for (i, rule) in rules.iter().enumerate() {
        ids.add(alloc, i + 1, &rule.id)?;
    }
    Ok(())
}

impl RuleTable for Policy {
    type LookUps = LookUps;

    ghost rules = { λ p. p };

    ghost count = { λ u. u.count };

    fn search(&self, caller: Option<&[u8]>, key: &[u8], look_ups: &mut LookUps) -> &[IndexRow] {
        look_ups.add_one();
        let from = self
            .index
            .partition_point(|row| row.cmp_place(caller, key).is_lt());
        let to = self
            .index
            .partition_point(|row| row.cmp_place(caller, key).is_le());
        let rest = &self.index[from..];
        &rest[..to - from]
    }

    fn rule(&self, number: usize, look_ups: &mut LookUps) -> &Rule {
        look_ups.add_one();
        &self.rules[number]
    }
}
