//! The members of groups, and of lists that name groups.

ghost use Rattle.std.specs.Prelude.{◌≡◌, ◌++◌, ◌≤◌, [], length, map, None, IfOk, MatchOption};
ghost use Rattle.policy_build.specs.Faults.{Reads};
ghost use Rattle.policy_build.specs.Resolving.{RowOf, IsRowAt, row_called, with_member, few_members, members_from, row_in, rows_from};

use crate::build_fault::BuildFault;
use crate::group::Group;
use crate::member::Member;
use crate::place::{FileKey, Place};
use grant_policy::{Identifier, Policy};
use std::alloc::{AllocError, Global};
use std::marker::Model;

/// A group with all its members, those of the groups that it names too.
#[derive(Drop)]
pub(crate) struct Row<'a, T> {
    id: &'a Identifier,
    members: Vec<&'a T>,
}

impl<'a, T> Model for Row<'a, T> {
    ghost Value = { RowOf T };

    ghost view = { λ r. record { id = r.id.now; members = map (λ m. m.now) r.members.items } };
}

/// The place of the first row of a group that is called so.
fn row_at<T>(rows: &[Row<'_, T>], id: &Identifier) -> Option<usize>
    ensures { MatchOption result (row_called id.now rows.now ≡ None) (IsRowAt id.now rows.now) }
{
    for (i, row) in rows.iter().enumerate() {
        if row.id.as_bytes() == id.as_bytes() {
            return Some(i);
        }
    }
    None
}

/// Appends members. The only error is out of memory.
fn push_all<'a, T>(members: &mut Vec<&'a T>, more: &[&'a T]) -> Result<(), AllocError>
    ensures { IfOk result (λ _. map (λ m. m.now) members.new.items ≡ map (λ m. m.now) members.old.items ++ map (λ m. m.now) more.now) }
{
    for member in more {
        members.push(*member)?;
    }
    Ok(())
}

/// Appends a member, or those of the group that it names.
fn push_member<'a, T>(
    place: Place,
    rows: &[Row<'a, T>],
    members: &mut Vec<&'a T>,
    member: &'a Member<T>,
) -> Result<(), BuildFault>
    ensures { Reads (λ _. map (λ m. m.now) members.new.items) result (with_member place rows.now (map (λ m. m.now) members.old.items) member.now) }
{
    match member {
        Member::One(one) => Ok(members.push(one)?),
        Member::Group(id) => match row_at(rows, id) {
            Some(at) => {
                let row = &rows[at];
                Ok(push_all(members, &row.members)?)
            }
            None => Err(BuildFault::UnknownGroup(place)),
        },
    }
}

/// Checks that these are not more members than a policy may have rules.
fn check_size(place: Place, count: usize) -> Result<(), BuildFault>
    ensures exact { Reads (λ _. count) result (few_members place count) }
    ensures few { IfOk result (λ _. count ≤ 1024) }
{
    if count > Policy::RULES_MAX {
        return Err(BuildFault::TooManyMembers(place, count));
    }
    Ok(())
}

/// The members of a list, those of the groups that it names too, in order.
pub(crate) fn members_of<'a, T>(
    alloc: Global,
    place: Place,
    rows: &[Row<'a, T>],
    list: &'a [Member<T>],
) -> Result<Vec<&'a T>, BuildFault>
    ensures exact { Reads (λ members. map (λ m. m.now) members.items) result (members_from place rows.now [] list.now) }
    ensures few { IfOk result (λ members. length members.items ≤ 1024) }
{
    let mut members = Vec::new(alloc);
    for member in list {
        push_member(place, rows, &mut members, member)?;
        check_size(place, members.len())?;
    }
    Ok(members)
}

/// The row of a group, after those of the groups before it.
fn row_of<'a, T>(
    alloc: Global,
    rows: &[Row<'a, T>],
    group: &'a Group<T>,
) -> Result<Row<'a, T>, BuildFault>
    ensures { Reads (λ row. row) result (row_in rows.now group.now) }
{
    if row_at(rows, group.id()).is_some() {
        return Err(BuildFault::Repeated(group.place()));
    }
    let place = group.place().at(FileKey::Members);
    let members = members_of(alloc, place, rows, group.members())?;
    Ok(Row {
        id: group.id(),
        members,
    })
}

/// The rows of groups, each of which names groups before it only.
pub(crate) fn resolve<T>(alloc: Global, groups: &[Group<T>]) -> Result<Vec<Row<'_, T>>, BuildFault>
    ensures { Reads (λ rows. rows.items) result (rows_from [] groups.now) }
{
    let mut rows = Vec::new(alloc);
    for group in groups {
        let row = row_of(alloc, &rows, group)?;
        rows.push(row)?;
    }
    Ok(rows)
}
