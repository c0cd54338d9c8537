//! The tables of a file of groups.

ghost use Rattle.std.specs.Prelude.{◌≡◌, ◌⊎◌, Some, None, Ok, IfOk, MatchResult};
ghost use Rattle.toml.specs.Data.{Members};
ghost use Rattle.toml.specs.View.{view, table_view};
ghost use Rattle.grant_policy.specs.Documents.{document_of};
ghost use Rattle.policy_build.specs.Documents.{IsSource};
ghost use Rattle.policy_build.specs.Faults.{Reads};
ghost use Rattle.policy_build.specs.Reading.{group_in, rule_in, template_in, use_in, use_statement_in, rule_statement_in, statement_in, plain_rule, source_in, source_of};
ghost use Rattle.policy_build.specs.Sources.{SourceOf};

use crate::build_fault::BuildFault;
use crate::from_toml::{FromToml, at_key, check_keys, list_at, optional_list_at, table_at};
use crate::group::Group;
use crate::group_rule::GroupRule;
use crate::place::{FileKey, Place};
use crate::source::Source;
use crate::statement::Statement;
use crate::template::Template;
use crate::template_use::TemplateUse;
use crate::values::FromText;
use std::alloc::Global;
use std::str;
use toml::{Table, Value};

/// The group of a table.
fn group<T: FromText>(alloc: Global, place: Place, table: &Table) -> Result<Group<T>, BuildFault>
    ensures { Reads (λ group. group) result (group_in T.text_of place (table_view table.now)) }
{
    check_keys(place, table, &[FileKey::Id, FileKey::Members])?;
    let id = at_key(alloc, place, table, FileKey::Id)?;
    let members = list_at(alloc, place, table, FileKey::Members)?;
    Ok(Group::new(place, id, members))
}

impl<T: FromText> FromToml for Group<T> {
    ghost use Rattle.policy_build.specs.Reading.{of_table, group_in};

    ghost read_of = { of_table (group_in T.text_of) };

    fn read(alloc: Global, place: Place, value: &Value) -> Result<Group<T>, BuildFault> {
        group(alloc, place, table_at(place, value)?)
    }
}

/// The rule for groups of a table.
fn group_rule(alloc: Global, place: Place, table: &Table) -> Result<GroupRule, BuildFault>
    ensures { Reads (λ rule. rule) result (rule_in place (table_view table.now)) }
{
    let known = [
        FileKey::Id,
        FileKey::Effect,
        FileKey::Callers,
        FileKey::Names,
        FileKey::Types,
        FileKey::Actions,
    ];
    check_keys(place, table, &known)?;
    Ok(GroupRule {
        place,
        id: at_key(alloc, place, table, FileKey::Id)?,
        effect: at_key(alloc, place, table, FileKey::Effect)?,
        callers: at_key(alloc, place, table, FileKey::Callers)?,
        names: at_key(alloc, place, table, FileKey::Names)?,
        types: at_key(alloc, place, table, FileKey::Types)?,
        actions: at_key(alloc, place, table, FileKey::Actions)?,
    })
}

impl FromToml for GroupRule {
    ghost use Rattle.policy_build.specs.Reading.{of_table, rule_in};

    ghost read_of = { of_table rule_in };

    fn read(alloc: Global, place: Place, value: &Value) -> Result<GroupRule, BuildFault> {
        group_rule(alloc, place, table_at(place, value)?)
    }
}

/// The template of a table.
fn template(alloc: Global, place: Place, table: &Table) -> Result<Template, BuildFault>
    ensures { Reads (λ template. template) result (template_in place (table_view table.now)) }
{
    check_keys(place, table, &[FileKey::Id, FileKey::Rule])?;
    let id = at_key(alloc, place, table, FileKey::Id)?;
    let rules = list_at(alloc, place, table, FileKey::Rule)?;
    Ok(Template::new(place, id, rules))
}

impl FromToml for Template {
    ghost use Rattle.policy_build.specs.Reading.{of_table, template_in};

    ghost read_of = { of_table template_in };

    fn read(alloc: Global, place: Place, value: &Value) -> Result<Template, BuildFault> {
        template(alloc, place, table_at(place, value)?)
    }
}

/// The use of a template of a table.
fn template_use(alloc: Global, place: Place, table: &Table) -> Result<TemplateUse, BuildFault>
    ensures { Reads (λ usage. usage) result (use_in place (table_view table.now)) }
{
    let known = [
        FileKey::Id,
        FileKey::Template,
        FileKey::Callers,
        FileKey::Names,
    ];
    check_keys(place, table, &known)?;
    let id = at_key(alloc, place, table, FileKey::Id)?;
    let template = at_key(alloc, place, table, FileKey::Template)?;
    let callers = list_at(alloc, place, table, FileKey::Callers)?;
    let names = list_at(alloc, place, table, FileKey::Names)?;
    Ok(TemplateUse::new(place, id, template, callers, names))
}

/// The rule, unless one of its lists is a parameter.
fn without_parameters(rule: GroupRule) -> Result<GroupRule, BuildFault>
    ensures { Reads (λ rule. rule) result (plain_rule rule) }
{
    if rule.callers.listed().is_none() {
        return Err(BuildFault::BadValue(rule.place.at(FileKey::Callers)));
    }
    if rule.names.listed().is_none() {
        return Err(BuildFault::BadValue(rule.place.at(FileKey::Names)));
    }
    Ok(rule)
}

/// The use of a template of a table, as a statement.
fn use_statement(alloc: Global, place: Place, table: &Table) -> Result<Statement, BuildFault>
    ensures { Reads (λ statement. statement) result (use_statement_in place (table_view table.now)) }
{
    Ok(Statement::Use(template_use(alloc, place, table)?))
}

/// The rule for groups of a table, as a statement.
fn rule_statement(alloc: Global, place: Place, table: &Table) -> Result<Statement, BuildFault>
    ensures { Reads (λ statement. statement) result (rule_statement_in place (table_view table.now)) }
{
    let rule = group_rule(alloc, place, table)?;
    Ok(Statement::Rule(without_parameters(rule)?))
}

/// The rule for groups or the use of a template of a table.
fn statement(alloc: Global, place: Place, table: &Table) -> Result<Statement, BuildFault>
    ensures { Reads (λ statement. statement) result (statement_in place (table_view table.now)) }
{
    match table.get("template") {
        Some(_) => use_statement(alloc, place, table),
        None => rule_statement(alloc, place, table),
    }
}

impl FromToml for Statement {
    ghost use Rattle.policy_build.specs.Reading.{of_table, statement_in};

    ghost read_of = { of_table statement_in };

    fn read(alloc: Global, place: Place, value: &Value) -> Result<Statement, BuildFault> {
        statement(alloc, place, table_at(place, value)?)
    }
}

/// The file of a document.
fn source(alloc: Global, top: &Table) -> Result<Source, BuildFault>
    ensures { Reads (λ source. source) result (source_in (table_view top.now)) }
{
    let place = Place::DOCUMENT;
    let known = [
        FileKey::Callers,
        FileKey::Names,
        FileKey::Template,
        FileKey::Rule,
    ];
    check_keys(place, top, &known)?;
    let callers = optional_list_at(alloc, place, top, FileKey::Callers)?;
    let names = optional_list_at(alloc, place, top, FileKey::Names)?;
    let templates = optional_list_at(alloc, place, top, FileKey::Template)?;
    let statements = optional_list_at(alloc, place, top, FileKey::Rule)?;
    Ok(Source::new(callers, names, templates, statements))
}

/// The document of a text.
fn document(alloc: Global, text: &[u8]) -> Result<Table, BuildFault>
    ensures { MatchResult result (λ top. document_of text.now ≡ Some (table_view top)) (λ e. (e ≡ BuildFault.NoMemory) ⊎ ((e ≡ BuildFault.NotToml) × (document_of text.now ≡ None))) }
{
    let Ok(text) = str::from_utf8(text) else {
        return Err(BuildFault::NotToml);
    };
    match toml::table_from_str(alloc, text) {
        Ok(top) => Ok(top),
        Err(e) if e.is_memory() => Err(BuildFault::NoMemory),
        Err(_) => Err(BuildFault::NotToml),
    }
}

/// Reads a file of groups from a TOML document, in UTF-8, of at most four keys. `callers` and `names` are arrays of groups, each with
/// an `id` and `members`; `template` is an array of templates, each with an `id` and an array `rule`; `rule` is an array of rules for
/// groups and of uses of templates.
///
/// Of several refusals the first of these is answered: `NotToml`; `UnknownKey` at the top; and then array by array, in the order above,
/// table by table, `UnknownKey`, and key by key what is wrong there.
pub fn read_source(alloc: Global, text: &[u8]) -> Result<Source, BuildFault>
    // What is read is what the document says.
    ensures found { IfOk result (λ source. (top : Members) × (document_of text.now ≡ Some top) × IsSource top source) }
    // A document that says a file is read as this file, unless memory runs out.
    ensures only { (top : Members) (source : SourceOf) → document_of text.now ≡ Some top → IsSource top source → Reads (λ source. source) result (Ok source) }
    // Which refusal it is.
    ensures exact { Reads (λ source. source) result (source_of (document_of text.now)) }
{
    text_source(alloc, text)
}

/// The file of a text, or the refusal that comes first.
fn text_source(alloc: Global, text: &[u8]) -> Result<Source, BuildFault>
    ensures exact { Reads (λ source. source) result (source_of (document_of text.now)) }
    ensures found { IfOk result (λ source. (top : Members) × (document_of text.now ≡ Some top) × IsSource top source) }
{
    let top = document(alloc, text)?;
    source(alloc, &top)
}
