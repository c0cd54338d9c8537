//! Whether a policy permits an update.

ghost use Rattle.std.specs.Prelude.{◌≡◌, ◌↔◌, ◌+◌, ◌≤◌, None, IfSome, option_map, sum_by};
ghost use Rattle.std.specs.Option.{option_to_list};
ghost use Rattle.zone_core.specs.Updates.{tested_name, acted_name};
ghost use Rattle.zone_core.specs.declared.update.ItemList.TheVariants as lists;
ghost use Rattle.office_core.specs.Footprints.{point_of, points_at, points_from, prerequisite_action, operation_action, footprint};
ghost use Rattle.office_core.specs.Items.{item_name, item_action};
ghost use Rattle.office_core.specs.Permissions.{denial_of, rule_of, point_cost, point_denial, first_denial, IsPermitted, IsFirstDenial};

use crate::item::Item;
use dns_data::RecordType;
use dns_names::Name;
use grant_policy::{Decision, Identifier, LookUps, Policy, decide};
use zone_core::{ItemList, Operation, Place, Prerequisite, Update};

/// The denial of an update: the item that asks for its first point that is not granted, and by what that is denied.
#[derive(Clone, Copy)]
pub struct Denial<'a> {
    /// The item that asks for the point.
    pub place: Place,
    /// The identifier of the rule that denies it, or none where no rule matches and the closing default denies it.
    pub by: Option<&'a Identifier>,
}

impl<'a> Denial<'a> {
    /// The identifier of the rule that denies it, or `closing`.
    pub fn rule(self) -> &'a [u8]
        ensures { result.now ≡ rule_of (denial_of self.entry) }
    {
        Decision::Denied(self.by).rule()
    }
}

/// The denial of an update of a zone of this origin for a caller, or none where a policy permits it: where the policy grants
/// the caller every point of every item. Else it is the denial of the first point that is not granted: prerequisites before
/// operations, items in their order, and the points of an item by type number. It takes no memory, and always answers.
pub fn denied<'a>(
    policy: &'a Policy,
    caller: &Identifier,
    origin: &Name,
    update: &Update,
    look_ups: &mut LookUps,
) -> Option<Denial<'a>>
    // The update is permitted exactly where every point of every item is granted.
    ensures permitted { (result ≡ None) ↔ IsPermitted policy.now caller.now origin.now update.now }
    // A denial is that of a point that is denied, and all points before it are granted.
    ensures first { IfSome result (λ denial. IsFirstDenial policy.now caller.now (footprint origin.now update.now) (denial_of denial)) }
    // The same by a definition that computes.
    ensures exact { option_map denial_of result ≡ first_denial policy.now caller.now (footprint origin.now update.now) }
    // No more look-ups are made than to decide each of its points.
    ensures cost { look_ups.new.count ≤ look_ups.old.count + sum_by (point_cost policy.now caller.now) (footprint origin.now update.now) }
{
    first_denied(policy, caller, origin, update, look_ups)
}

/// The denial of the first point of an update that is not granted.
fn first_denied<'a>(
    policy: &'a Policy,
    caller: &Identifier,
    origin: &Name,
    update: &Update,
    look_ups: &mut LookUps,
) -> Option<Denial<'a>>
    ensures denial { option_map denial_of result ≡ first_denial policy.now caller.now (footprint origin.now update.now) }
    ensures cost { look_ups.new.count ≤ look_ups.old.count + sum_by (point_cost policy.now caller.now) (footprint origin.now update.now) }
{
    match denied_prerequisite(policy, caller, update.prerequisites(), look_ups) {
        Some(denial) => Some(denial),
        None => denied_operation(policy, caller, origin, update.operations(), look_ups),
    }
}

/// The denial of the first point of prerequisites that is not granted.
fn denied_prerequisite<'a>(
    policy: &'a Policy,
    caller: &Identifier,
    prerequisites: &[Prerequisite],
    look_ups: &mut LookUps,
) -> Option<Denial<'a>>
    ensures denial { option_map denial_of result
        ≡ first_denial policy.now caller.now (points_from tested_name prerequisite_action lists.Prerequisites 0 prerequisites.now) }
    ensures cost { look_ups.new.count ≤ look_ups.old.count + sum_by (point_cost policy.now caller.now)
        (points_from tested_name prerequisite_action lists.Prerequisites 0 prerequisites.now) }
{
    let list = ItemList::Prerequisites;
    for (item, prerequisite) in prerequisites.iter().enumerate() {
        let tested = Item::Prerequisite(prerequisite);
        let place = Place { list, item };
        let denial = denied_item(policy, caller, place, tested, &RecordType::ALL, look_ups);
        if denial.is_some() {
            return denial;
        }
    }
    None
}

/// The denial of the first point of operations that is not granted.
fn denied_operation<'a>(
    policy: &'a Policy,
    caller: &Identifier,
    origin: &Name,
    operations: &[Operation],
    look_ups: &mut LookUps,
) -> Option<Denial<'a>>
    ensures denial { option_map denial_of result
        ≡ first_denial policy.now caller.now (points_from acted_name (operation_action origin.now) lists.Operations 0 operations.now) }
    ensures cost { look_ups.new.count ≤ look_ups.old.count + sum_by (point_cost policy.now caller.now)
        (points_from acted_name (operation_action origin.now) lists.Operations 0 operations.now) }
{
    let list = ItemList::Operations;
    for (item, operation) in operations.iter().enumerate() {
        let acting = Item::Operation { origin, operation };
        let place = Place { list, item };
        let denial = denied_item(policy, caller, place, acting, &RecordType::ALL, look_ups);
        if denial.is_some() {
            return denial;
        }
    }
    None
}

/// The denial of the first point of an item, among those of some types, that is not granted.
fn denied_item<'a>(
    policy: &'a Policy,
    caller: &Identifier,
    place: Place,
    item: Item<'_>,
    record_types: &[RecordType],
    look_ups: &mut LookUps,
) -> Option<Denial<'a>>
    ensures denial { option_map denial_of result
        ≡ first_denial policy.now caller.now (points_at place (item_name item.entry) (item_action item.entry) record_types.now) }
    ensures cost { look_ups.new.count ≤ look_ups.old.count + sum_by (point_cost policy.now caller.now)
        (points_at place (item_name item.entry) (item_action item.entry) record_types.now) }
{
    for record_type in record_types {
        let denial = denied_point(policy, caller, place, item, *record_type, look_ups);
        if denial.is_some() {
            return denial;
        }
    }
    None
}

/// The denial of the point of an item that is of this type, where it asks for one and that is not granted.
fn denied_point<'a>(
    policy: &'a Policy,
    caller: &Identifier,
    place: Place,
    item: Item<'_>,
    record_type: RecordType,
    look_ups: &mut LookUps,
) -> Option<Denial<'a>>
    ensures denial { option_map denial_of result
        ≡ point_denial policy.now caller.now (point_of place (item_name item.entry) (item_action item.entry) record_type) }
    ensures cost { look_ups.new.count ≤ look_ups.old.count + sum_by (point_cost policy.now caller.now)
        (option_to_list (point_of place (item_name item.entry) (item_action item.entry) record_type)) }
{
    let action = item.asks(record_type)?;
    match decide(policy, caller, item.name(), record_type, action, look_ups) {
        Decision::Granted(_) => None,
        Decision::Denied(by) => Some(Denial { place, by }),
    }
}
