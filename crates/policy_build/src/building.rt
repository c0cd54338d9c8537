//! The rules that a file makes.

ghost use Rattle.std.specs.Prelude.{◌≡◌, ◌≤◌, ◌++◌, [], length, map, bytes_eq, IfOk};
ghost use Rattle.std.specs.List.{list_any};
ghost use Rattle.policy_build.specs.Faults.{Reads};
ghost use Rattle.policy_build.specs.Entries.{entry_of};
ghost use Rattle.policy_build.specs.Making.{made_of, pair_of, pairs_with, products, made_id, is_taken, free_id, with_rule, numbered, made_in, made_from, built_of, built_view};

use crate::build_fault::BuildFault;
use crate::entry::{Entry, check_count, entries};
use crate::made_rule::MadeRule;
use crate::names::Names;
use crate::place::{FileKey, Place};
use crate::resolving::{Row, members_of, resolve};
use crate::source::Source;
use grant_policy::{CLOSING, Callers, Identifier, IdentifierFault};
use itoa::Buffer;
use std::alloc::{AllocError, Global};

/// The entries of a file, and the rules that are made of them, in order.
#[derive(Drop)]
pub struct Built<'a> {
    /// The entries, in order.
    pub entries: Vec<Entry<'a>>,
    /// The rules, in order.
    pub rules: Vec<MadeRule<'a>>,
}

/// A caller, or every caller, and names.
#[derive(Clone, Copy)]
struct Pair<'a> {
    callers: &'a Callers,
    names: &'a Names,
}

/// Appends a caller with each of some names. The only error is out of memory.
fn push_pairs<'a>(
    pairs: &mut Vec<Pair<'a>>,
    callers: &'a Callers,
    names: &[&'a Names],
) -> Result<(), AllocError>
    ensures { IfOk result (λ _. map pair_of pairs.new.items ≡ map pair_of pairs.old.items ++ pairs_with callers.now (map (λ n. n.now) names.now)) }
{
    for one in names {
        pairs.push(Pair {
            callers,
            names: *one,
        })?;
    }
    Ok(())
}

/// Each of some callers with each of some names. The only error is out of memory.
fn pairs_of<'a>(
    alloc: Global,
    callers: &[&'a Callers],
    names: &[&'a Names],
) -> Result<Vec<Pair<'a>>, AllocError>
    ensures { IfOk result (λ pairs. map pair_of pairs.items ≡ products [] (map (λ c. c.now) callers.now) (map (λ n. n.now) names.now)) }
{
    let mut pairs = Vec::new(alloc);
    for one in callers {
        push_pairs(&mut pairs, *one, names)?;
    }
    Ok(pairs)
}

/// The text of the id of the rule of this number, from 1, of the rules that an entry makes. The only error is out of memory.
fn id_text(alloc: Global, id: &[u8], count: usize, number: usize) -> Result<Vec<u8>, AllocError>
    ensures { IfOk result (λ text. text.items ≡ made_id id.now count number) }
{
    let mut text = Vec::from_slice(alloc, id)?;
    if count != 1 {
        text.push(b'.')?;
        text.extend_from_slice(Buffer::new().format(number).as_bytes())?;
    }
    Ok(text)
}

/// Whether some rule has this id.
fn any_has_id(rules: &[MadeRule<'_>], id: &[u8]) -> bool
    ensures { result ≡ list_any (λ rule. bytes_eq rule.id id.now) rules.now }
{
    rules.iter().any(|rule| rule.id.as_bytes() == id)
}

/// Whether an id is taken by a rule.
fn has_id(rules: &[MadeRule<'_>], id: &[u8]) -> bool
    ensures { result ≡ is_taken id.now (map made_of rules.now) }
{
    any_has_id(rules, id)
}

/// The identifier of a text, unless it is that of a rule before it or of the closing default.
fn rule_id(
    alloc: Global,
    place: Place,
    rules: &[MadeRule<'_>],
    text: &[u8],
) -> Result<Identifier, BuildFault>
    ensures { Reads (λ id. id) result (free_id place (map made_of rules.now) text.now) }
{
    if text == CLOSING.as_bytes() {
        return Err(BuildFault::Reserved(place));
    }
    if has_id(rules, text) {
        return Err(BuildFault::Repeated(place));
    }
    match Identifier::read(alloc, text) {
        Ok(id) => Ok(id),
        Err(IdentifierFault::Malformed) => Err(BuildFault::IdTooLong(place)),
        Err(IdentifierFault::NoMemory) => Err(BuildFault::NoMemory),
    }
}

/// Appends the rule of a pair, the one of this number, from 1, that an entry makes.
fn push_rule<'a>(
    alloc: Global,
    rules: &mut Vec<MadeRule<'a>>,
    numbers: Numbers,
    entry: &Entry<'a>,
    pair: Pair<'a>,
) -> Result<(), BuildFault>
    ensures { Reads (λ _. map made_of rules.new.items) result (with_rule (entry_of entry.now) numbers.entry numbers.count numbers.number (map made_of rules.old.items) (pair_of pair.entry)) }
{
    let text = id_text(alloc, &entry.id, numbers.count, numbers.number)?;
    let id = rule_id(alloc, entry.place, rules, &text)?;
    rules.push(MadeRule {
        id,
        effect: entry.rule.effect,
        callers: pair.callers,
        names: pair.names,
        types: &entry.rule.types,
        actions: &entry.rule.actions,
        entry: numbers.entry,
    })?;
    Ok(())
}

/// Which rule of which entry is made.
#[derive(Clone, Copy)]
struct Numbers {
    /// The number of the entry, from 0.
    entry: usize,
    /// How many rules it makes.
    count: usize,
    /// The number of the rule among them, from 1.
    number: usize,
}

/// Appends the rules of pairs, those that the entry of this number makes.
fn push_rules<'a>(
    alloc: Global,
    rules: &mut Vec<MadeRule<'a>>,
    number: usize,
    entry: &Entry<'a>,
    pairs: &[Pair<'a>],
) -> Result<(), BuildFault>
    requires { length pairs.now ≤ 1024 }
    ensures { Reads (λ _. map made_of rules.new.items) result (numbered (entry_of entry.now) number (length pairs.now) 1 (map made_of rules.old.items) (map pair_of pairs.now)) }
{
    for (i, pair) in pairs.iter().enumerate() {
        let numbers = Numbers {
            entry: number,
            count: pairs.len(),
            number: i + 1,
        };
        push_rule(alloc, rules, numbers, entry, *pair)?;
    }
    Ok(())
}

/// The members of all groups of a file.
#[derive(Drop)]
struct Groups<'a> {
    callers: Vec<Row<'a, Callers>>,
    names: Vec<Row<'a, Names>>,
}

/// Appends the rules that the entry of this number makes.
fn push_entry<'a>(
    alloc: Global,
    groups: &Groups<'a>,
    rules: &mut Vec<MadeRule<'a>>,
    number: usize,
    entry: &Entry<'a>,
) -> Result<(), BuildFault>
    requires { length rules.old.items ≤ 1024 }
    ensures exact { Reads (λ _. map made_of rules.new.items) result (made_in groups.now.callers.items groups.now.names.items number (map made_of rules.old.items) (entry_of entry.now)) }
    ensures few { IfOk result (λ _. length rules.new.items ≤ 1024) }
{
    let place = entry.callers.place.at(FileKey::Callers);
    let callers = members_of(alloc, place, &groups.callers, entry.callers.members)?;
    let place = entry.names.place.at(FileKey::Names);
    let names = members_of(alloc, place, &groups.names, entry.names.members)?;
    check_count(entry.place, rules.len() + callers.len() * names.len())?;
    let pairs = pairs_of(alloc, &callers, &names)?;
    push_rules(alloc, rules, number, entry, &pairs)
}

/// The rules that entries make, in order.
fn rules_of<'a>(
    alloc: Global,
    groups: &Groups<'a>,
    entries: &[Entry<'a>],
) -> Result<Vec<MadeRule<'a>>, BuildFault>
    ensures { Reads (λ rules. map made_of rules.items) result (made_from groups.now.callers.items groups.now.names.items 0 [] (map entry_of entries.now)) }
{
    let mut rules = Vec::new(alloc);
    for (i, entry) in entries.iter().enumerate() {
        push_entry(alloc, groups, &mut rules, i, entry)?;
    }
    Ok(rules)
}

/// Makes the rules of the office from a file of groups.
///
/// Each entry makes one rule for each of its callers with each of its names, in order. One rule has the id of its entry, several have
/// a dot and their number after it.
pub fn build(alloc: Global, source: &Source) -> Result<Built<'_>, BuildFault>
    ensures { Reads built_view result (built_of source.now) }
{
    let groups = Groups {
        callers: resolve(alloc, source.callers())?,
        names: resolve(alloc, source.names())?,
    };
    let entries = entries(alloc, source)?;
    let rules = rules_of(alloc, &groups, &entries)?;
    Ok(Built { entries, rules })
}
