//! The entries of a file, in order: its rules for groups, and in the place of each use the rules of the template.

ghost use Rattle.std.specs.Prelude.{◌≡◌, ◌≤◌, ◌++◌, [], length, map, option_map, IfOk};
ghost use Rattle.policy_build.specs.Faults.{Reads};
ghost use Rattle.policy_build.specs.Entries.{entry_of, listing_of, listing, plain, used, used_id, called, few_rules, fresh_templates, with_plain, with_use, with_template, entries_of, entries_in};

use crate::build_fault::BuildFault;
use crate::group_rule::GroupRule;
use crate::list_or_parameter::ListOrParameter;
use crate::member::Member;
use crate::names::Names;
use crate::place::{FileKey, Place};
use crate::source::Source;
use crate::statement::Statement;
use crate::template::Template;
use crate::template_use::TemplateUse;
use grant_policy::{Callers, Identifier, Policy};
use std::alloc::{AllocError, Global};

/// A list of members, and the place of its table.
#[derive(Clone, Copy)]
pub struct Listing<'a, T> {
    /// Where the list is.
    pub place: Place,
    /// Its members, in order.
    pub members: &'a [Member<T>],
}

/// An entry of a file: a rule for groups, and in a template for the callers and the names of one of its uses.
#[derive(Drop)]
pub struct Entry<'a> {
    /// The table of the array `rule` that it is, or that uses its template.
    pub place: Place,
    /// What the rules that are made of it are called, before their numbers.
    pub id: Vec<u8>,
    /// What it does, with which types and actions.
    pub rule: &'a GroupRule,
    /// Whom it speaks of.
    pub callers: Listing<'a, Callers>,
    /// Which names it speaks of.
    pub names: Listing<'a, Names>,
}

/// The list of a rule, or what its parameter stands for.
fn chosen<'a, T>(
    place: Place,
    list: &'a ListOrParameter<T>,
    given: Listing<'a, T>,
) -> Listing<'a, T>
    ensures { listing_of result ≡ listing place list.now (listing_of given.entry) }
{
    match list.listed() {
        Some(members) => Listing { place, members },
        None => given,
    }
}

/// The entry of a rule for groups. The only error is out of memory.
fn entry_of_rule(alloc: Global, rule: &GroupRule) -> Result<Entry<'_>, AllocError>
    ensures { IfOk result (λ entry. entry_of entry ≡ plain rule.now) }
{
    let place = rule.place;
    let callers = Listing {
        place,
        members: &[],
    };
    let names = Listing {
        place,
        members: &[],
    };
    Ok(Entry {
        place,
        id: Vec::from_slice(alloc, rule.id.as_bytes())?,
        rule,
        callers: chosen(place, &rule.callers, callers),
        names: chosen(place, &rule.names, names),
    })
}

/// What the rules of a template's rule are called in a use. The only error is out of memory.
fn id_in_use(alloc: Global, used: &Identifier, rule: &Identifier) -> Result<Vec<u8>, AllocError>
    ensures { IfOk result (λ id. id.items ≡ used_id used.now rule.now) }
{
    let mut id = Vec::from_slice(alloc, used.as_bytes())?;
    id.push(b'.')?;
    id.extend_from_slice(rule.as_bytes())?;
    Ok(id)
}

/// The entry of a rule of a template in a use. The only error is out of memory.
fn entry_of_use<'a>(
    alloc: Global,
    usage: &'a TemplateUse,
    rule: &'a GroupRule,
) -> Result<Entry<'a>, AllocError>
    ensures { IfOk result (λ entry. entry_of entry ≡ used usage.now rule.now) }
{
    let place = usage.place();
    let callers = Listing {
        place,
        members: usage.callers(),
    };
    let names = Listing {
        place,
        members: usage.names(),
    };
    Ok(Entry {
        place,
        id: id_in_use(alloc, usage.id(), &rule.id)?,
        rule,
        callers: chosen(rule.place, &rule.callers, callers),
        names: chosen(rule.place, &rule.names, names),
    })
}

/// Checks that this many rules with those before are not more than a policy may have.
pub(crate) fn check_count(place: Place, count: usize) -> Result<(), BuildFault>
    ensures exact { Reads (λ _. count) result (few_rules place count) }
    ensures few { IfOk result (λ _. count ≤ 1024) }
{
    if count > Policy::RULES_MAX {
        return Err(BuildFault::TooManyRules(place, count));
    }
    Ok(())
}

/// The first of some templates that is called so.
fn template_called<'a>(templates: &'a [Template], id: &Identifier) -> Option<&'a Template>
    ensures { option_map (λ t. t.now) result ≡ called id.now templates.now }
{
    templates
        .iter()
        .find(|template| template.id().as_bytes() == id.as_bytes())
}

/// Checks that no template is called as one before it.
fn check_templates(templates: &[Template]) -> Result<(), BuildFault>
    ensures { Reads (λ _. templates.now) result (fresh_templates [] templates.now) }
{
    for (i, template) in templates.iter().enumerate() {
        if template_called(&templates[..i], template.id()).is_some() {
            return Err(BuildFault::Repeated(template.place()));
        }
    }
    Ok(())
}

/// Appends the entry of a rule for groups.
fn push_plain<'a>(
    alloc: Global,
    entries: &mut Vec<Entry<'a>>,
    rule: &'a GroupRule,
) -> Result<(), BuildFault>
    requires { length entries.old.items ≤ 1024 }
    ensures exact { Reads (λ _. map entry_of entries.new.items) result (with_plain (map entry_of entries.old.items) rule.now) }
    ensures few { IfOk result (λ _. length entries.new.items ≤ 1024) }
{
    check_count(rule.place, entries.len() + 1)?;
    entries.push(entry_of_rule(alloc, rule)?)?;
    Ok(())
}

/// Appends the entries of a use of these rules. The only error is out of memory.
fn push_rules<'a>(
    alloc: Global,
    entries: &mut Vec<Entry<'a>>,
    usage: &'a TemplateUse,
    rules: &'a [GroupRule],
) -> Result<(), AllocError>
    ensures { IfOk result (λ _. map entry_of entries.new.items ≡ map entry_of entries.old.items ++ map (used usage.now) rules.now) }
{
    for rule in rules {
        entries.push(entry_of_use(alloc, usage, rule)?)?;
    }
    Ok(())
}

/// Appends the entries of a use of a template.
fn push_use<'a>(
    alloc: Global,
    entries: &mut Vec<Entry<'a>>,
    templates: &'a [Template],
    usage: &'a TemplateUse,
) -> Result<(), BuildFault>
    requires { length entries.old.items ≤ 1024 }
    ensures exact { Reads (λ _. map entry_of entries.new.items) result (with_use templates.now (map entry_of entries.old.items) usage.now) }
    ensures few { IfOk result (λ _. length entries.new.items ≤ 1024) }
{
    match template_called(templates, usage.template()) {
        Some(template) => push_template(alloc, entries, template, usage),
        None => Err(BuildFault::UnknownTemplate(usage.place().at(FileKey::Template))),
    }
}

/// Appends the entries of a use of this template.
fn push_template<'a>(
    alloc: Global,
    entries: &mut Vec<Entry<'a>>,
    template: &'a Template,
    usage: &'a TemplateUse,
) -> Result<(), BuildFault>
    requires { length entries.old.items ≤ 1024 }
    ensures exact { Reads (λ _. map entry_of entries.new.items) result (with_template (map entry_of entries.old.items) usage.now template.now) }
    ensures few { IfOk result (λ _. length entries.new.items ≤ 1024) }
{
    let rules = template.rules();
    check_count(template.place(), rules.len())?;
    check_count(usage.place(), entries.len() + rules.len())?;
    Ok(push_rules(alloc, entries, usage, rules)?)
}

/// Appends the entries of a statement.
fn push_statement<'a>(
    alloc: Global,
    entries: &mut Vec<Entry<'a>>,
    templates: &'a [Template],
    statement: &'a Statement,
) -> Result<(), BuildFault>
    requires { length entries.old.items ≤ 1024 }
    ensures exact { Reads (λ _. map entry_of entries.new.items) result (entries_of templates.now (map entry_of entries.old.items) statement.now) }
    ensures few { IfOk result (λ _. length entries.new.items ≤ 1024) }
{
    match statement {
        Statement::Rule(rule) => push_plain(alloc, entries, rule),
        Statement::Use(usage) => push_use(alloc, entries, templates, usage),
    }
}

/// The entries of a file, in order.
pub(crate) fn entries(alloc: Global, source: &Source) -> Result<Vec<Entry<'_>>, BuildFault>
    ensures { Reads (λ entries. map entry_of entries.items) result (entries_in source.now) }
{
    let templates = source.templates();
    check_templates(templates)?;
    let statements = source.statements();
    let mut entries = Vec::new(alloc);
    for statement in statements {
        push_statement(alloc, &mut entries, templates, statement)?;
    }
    Ok(entries)
}
