//! Who may do what by a policy, as text.

ghost use Rattle.std.specs.Prelude.{◌≡◌, ◌++◌, ◌∷◌, List, ℕ, IfOk, OnOk, codes, string_bytes};
ghost use Rattle.std.specs.List.{flat_map};
ghost use Rattle.cli_checks.specs.RightsCheck.{type_if, types_text, line_of_types, action_line, caller_lines, or_nothing, row_text, rights_text, name_scope, scope_text, group_text, IsRightsText};

use dns_data::RecordType;
use dns_names::Name;
use grant_policy::{Action, Policy};
use policy_tools::{
    CallerRights, GroupRights, NameGroup, NameRights, Rights, rights_at, rights_by_group,
};
use std::alloc::{AllocError, Global};

/// Appends a type after a space, if an action may be done with it.
fn push_type(
    rights: &Rights,
    action: Action,
    record_type: RecordType,
    text: &mut Vec<u8>,
) -> Result<(), AllocError>
    ensures { OnOk result (text.new.items ≡ text.old.items ++ type_if rights.now action record_type) }
{
    if !rights.include(record_type, action) {
        return Ok(());
    }
    text.push(b' ')?;
    text.extend_from_slice(record_type.text().as_bytes())
}

/// Those of some types with which an action may be done, each after a space.
fn types_among(
    alloc: Global,
    rights: &Rights,
    action: Action,
    types: &[RecordType],
) -> Result<Vec<u8>, AllocError>
    ensures { IfOk result (λ text. text.items ≡ flat_map (type_if rights.now action) types.now) }
{
    let mut text = Vec::new(alloc);
    for record_type in types {
        push_type(rights, action, *record_type, &mut text)?;
    }
    Ok(text)
}

/// Appends a line of an action and its types, if there are some.
fn push_types(
    head: &[u8],
    action: Action,
    types: &[u8],
    text: &mut Vec<u8>,
) -> Result<(), AllocError>
    ensures { OnOk result (text.new.items ≡ text.old.items ++ line_of_types head.now action types.now) }
{
    if types.is_empty() {
        return Ok(());
    }
    text.extend_from_slice(head)?;
    text.push(b' ')?;
    text.extend_from_slice(action.text().as_bytes())?;
    text.extend_from_slice(types)?;
    Ok(text.push(b'\n')?)
}

/// Appends the line of an action of a caller, if there are types with which it may be done.
fn push_action(
    alloc: Global,
    head: &[u8],
    rights: &Rights,
    action: Action,
    text: &mut Vec<u8>,
) -> Result<(), AllocError>
    ensures { OnOk result (text.new.items ≡ text.old.items ++ action_line head.now rights.now action) }
{
    let types = types_among(alloc, rights, action, &RecordType::ALL)?;
    push_types(head, action, &types, text)
}

/// The lines of some actions of a caller.
fn lines_of(
    alloc: Global,
    head: &[u8],
    rights: &Rights,
    actions: &[Action],
) -> Result<Vec<u8>, AllocError>
    ensures { IfOk result (λ text. text.items ≡ flat_map (action_line head.now rights.now) actions.now) }
{
    let mut text = Vec::new(alloc);
    for action in actions {
        push_action(alloc, head, rights, *action, &mut text)?;
    }
    Ok(text)
}

/// What a caller may do: a line for each action, with its types.
pub(crate) fn caller_lines(
    alloc: Global,
    head: &[u8],
    rights: &Rights,
) -> Result<Vec<u8>, AllocError>
    ensures { IfOk result (λ text. text.items ≡ caller_lines head.now rights.now) }
{
    lines_of(alloc, head, rights, &Action::ALL)
}

/// Appends lines, or the one that says that nothing is granted.
fn push_or_nothing(head: &[u8], lines: &[u8], text: &mut Vec<u8>) -> Result<(), AllocError>
    ensures { OnOk result (text.new.items ≡ text.old.items ++ or_nothing head.now lines.now) }
{
    if !lines.is_empty() {
        return text.extend_from_slice(lines);
    }
    text.extend_from_slice(head)?;
    text.extend_from_slice(b" nothing\n")
}

/// A scope and a caller, with a space between them.
pub(crate) fn head_of(alloc: Global, scope: &[u8], caller: &[u8]) -> Result<Vec<u8>, AllocError>
    ensures { IfOk result (λ head. head.items ≡ scope.now ++ 32 ∷ caller.now) }
{
    let mut head = Vec::from_slice(alloc, scope)?;
    head.push(b' ')?;
    head.extend_from_slice(caller)?;
    Ok(head)
}

/// Appends what a caller may do.
fn push_row(
    alloc: Global,
    scope: &[u8],
    row: &CallerRights,
    text: &mut Vec<u8>,
) -> Result<(), AllocError>
    ensures { OnOk result (text.new.items ≡ text.old.items ++ row_text scope.now row.now) }
{
    let head = head_of(alloc, scope, row.caller.as_bytes())?;
    let lines = caller_lines(alloc, &head, &row.rights)?;
    push_or_nothing(&head, &lines, text)
}

/// Appends what callers may do.
fn push_rows(
    alloc: Global,
    scope: &[u8],
    rows: &[CallerRights],
    text: &mut Vec<u8>,
) -> Result<(), AllocError>
    ensures { OnOk result (text.new.items ≡ text.old.items ++ flat_map (row_text scope.now) rows.now) }
{
    for row in rows {
        push_row(alloc, scope, row, text)?;
    }
    Ok(())
}

/// Appends what all other callers may do.
fn push_others(
    alloc: Global,
    scope: &[u8],
    rights: &Rights,
    text: &mut Vec<u8>,
) -> Result<(), AllocError>
    ensures { OnOk result (text.new.items ≡ text.old.items ++ caller_lines (scope.now ++ codes " *") rights.now) }
{
    let head = head_of(alloc, scope, b"*")?;
    let lines = caller_lines(alloc, &head, rights)?;
    text.extend_from_slice(&lines)
}

/// Appends who may do what in a scope.
fn push_rights(
    alloc: Global,
    scope: &[u8],
    rights: &NameRights,
    text: &mut Vec<u8>,
) -> Result<(), AllocError>
    ensures { OnOk result (text.new.items ≡ text.old.items ++ rights_text scope.now rights.now) }
{
    push_rows(alloc, scope, &rights.named, text)?;
    push_others(alloc, scope, &rights.others, text)
}

/// The words for a name by itself.
fn name_scope(alloc: Global, name: &Name) -> Result<String, AllocError>
    ensures { IfOk result (λ scope. string_bytes scope ≡ name_scope name.now) }
{
    format!(in alloc; "name {name}")
}

/// The words for a group of names.
pub(crate) fn scope_text(alloc: Global, group: &NameGroup) -> Result<String, AllocError>
    ensures { IfOk result (λ scope. string_bytes scope ≡ scope_text group.now) }
{
    match group {
        NameGroup::Exactly(name) => name_scope(alloc, name),
        NameGroup::Below(name) => format!(in alloc; "below {name}"),
    }
}

/// Appends who may do what at the names of a group.
fn push_group(alloc: Global, row: &GroupRights, text: &mut Vec<u8>) -> Result<(), AllocError>
    ensures { OnOk result (text.new.items ≡ text.old.items ++ group_text row.now) }
{
    let scope = scope_text(alloc, &row.group)?;
    push_rights(alloc, scope.as_bytes(), &row.rights, text)
}

/// Who may do what at the names of groups.
fn groups_text(alloc: Global, rows: &[GroupRights]) -> Result<Vec<u8>, AllocError>
    ensures { IfOk result (λ text. text.items ≡ flat_map group_text rows.now) }
{
    let mut text = Vec::new(alloc);
    for row in rows {
        push_group(alloc, row, &mut text)?;
    }
    Ok(text)
}

/// Who may do what at a name.
fn name_text(alloc: Global, name: &Name, rights: &NameRights) -> Result<Vec<u8>, AllocError>
    ensures { IfOk result (λ text. text.items ≡ rights_text (name_scope name.now) rights.now) }
{
    let scope = name_scope(alloc, name)?;
    let mut text = Vec::new(alloc);
    push_rights(alloc, scope.as_bytes(), rights, &mut text)?;
    Ok(text)
}

/// Who may do what by a policy: at a name, or by groups of names. The only error is out of memory.
pub(crate) fn rights_list(
    alloc: Global,
    policy: &Policy,
    name: &Option<Name>,
) -> Result<Vec<u8>, AllocError>
    ensures { IfOk result (λ text. IsRightsText name.now policy.now text.items) }
{
    match name {
        Some(name) => {
            let rights = rights_at(alloc, policy, name)?;
            name_text(alloc, name, &rights)
        }
        None => {
            let rows = rights_by_group(alloc, policy)?;
            groups_text(alloc, &rows)
        }
    }
}
