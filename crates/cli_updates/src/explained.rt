//! What a policy decides of each item of an update, as lines or as objects of JSON.

ghost use Rattle.std.specs.Prelude.{◌≡◌, ◌++◌, OnOk, option_map, string_bytes};
ghost use Rattle.std.specs.List.{flat_map};
ghost use Rattle.std.specs.Option.{option_to_list};
ghost use Rattle.dns_data.specs.declared.record_type.RecordType.{RecordType as RecordTypeOf};
ghost use Rattle.grant_policy.specs.Decisions.{decider, verdict_of};
ghost use Rattle.zone_core.specs.declared.update.ItemList.TheVariants as lists;
ghost use Rattle.zone_core.specs.Updates.{acted_name, place_in, tested_name};
ghost use Rattle.office_core.specs.Footprints.{item_points, operation_action, points_from, prerequisite_action};
ghost use Rattle.cli_updates.specs.Explained.{point_in, decided_line, decided_text, point_text, point_texts, update_texts};
ghost use Rattle.cli_text.specs.Rights.{verdict_word};

use crate::point_object::push_object;
use cli_core::TextForm;
use dns_data::RecordType;
use dns_names::Name;
use grant_policy::{Action, CLOSING, Decision, Identifier, LookUps, Policy, decide};
use office_core::{operation_asks, prerequisite_asks};
use std::alloc::{AllocError, Global};
use std::fmt::Write as _;
use zone_core::{ItemList, Operation, Place, Prerequisite, Update};

/// Whose update is explained, by which policy, and in which form.
#[derive(Clone, Copy)]
pub(crate) struct Explainer<'a> {
    pub(crate) policy: &'a Policy,
    pub(crate) caller: &'a Identifier,
    pub(crate) form: TextForm,
    pub(crate) alloc: Global,
}

/// What an item asks to do with the records of a type at its name.
#[derive(Clone, Copy)]
pub(crate) struct AskedPoint<'a> {
    pub(crate) place: Place,
    pub(crate) name: &'a Name,
    pub(crate) record_type: RecordType,
    pub(crate) action: Action,
}

/// The word that tells whether a decision is a grant.
fn verdict_word(decision: Decision<'_>) -> &'static str
    ensures { result.now ≡ verdict_word (verdict_of decision.entry) }
{
    match decision {
        Decision::Granted(_) => "granted ",
        Decision::Denied(_) => "denied ",
    }
}

/// The identifier of the rule that decided, or `closing`.
fn decider(decision: Decision<'_>) -> &str
    ensures { result.now ≡ decider (verdict_of decision.entry) }
{
    match decision {
        Decision::Granted(id) | Decision::Denied(Some(id)) => id.as_str(),
        Decision::Denied(None) => CLOSING,
    }
}

/// Appends the line of a point: what is asked for, and what is decided. The only error is out of memory.
fn write_decided(
    line: &mut String,
    point: AskedPoint<'_>,
    decision: Decision<'_>,
) -> Result<(), AllocError>
    ensures { OnOk result (string_bytes line.new ≡ string_bytes line.old ++ decided_line (point_in point.entry) (verdict_of decision.entry)) }
{
    let AskedPoint {
        place,
        name,
        record_type,
        action,
    } = point;
    let (list, item) = (place.list.text(), place.item);
    let (word, rule) = (verdict_word(decision), decider(decision));
    let (record_type, action) = (record_type.text(), action.text());
    writeln!(
        line,
        "{list} {item} {name} {record_type} {action} {word}{rule}"
    )
}

/// Appends that line to a text. The only error is out of memory.
fn push_line(
    alloc: Global,
    text: &mut Vec<u8>,
    point: AskedPoint<'_>,
    decision: Decision<'_>,
) -> Result<(), AllocError>
    ensures { OnOk result (text.new.items ≡ text.old.items ++ decided_line (point_in point.entry) (verdict_of decision.entry)) }
{
    let mut line = String::new(alloc);
    write_decided(&mut line, point, decision)?;
    text.extend_from_slice(line.as_bytes())
}

/// Appends a point and what is decided, in a form. The only error is out of memory.
fn push_decided(
    alloc: Global,
    text: &mut Vec<u8>,
    form: TextForm,
    point: AskedPoint<'_>,
    decision: Decision<'_>,
) -> Result<(), AllocError>
    ensures { OnOk result (text.new.items ≡ text.old.items ++ decided_text form (point_in point.entry) (verdict_of decision.entry)) }
{
    match form {
        TextForm::Plain => push_line(alloc, text, point, decision),
        TextForm::Json => push_object(alloc, text, point, decision),
    }
}

impl<'a> Explainer<'a> {
    /// Appends a point: what is asked for, and what the policy decides. The only error is out of memory.
    fn push_point(self, text: &mut Vec<u8>, point: AskedPoint<'_>) -> Result<(), AllocError>
        ensures { OnOk result (text.new.items ≡ text.old.items ++ point_text self.entry.form self.entry.policy.now self.entry.caller.now (point_in point.entry)) }
    {
        let decision = decide(
            self.policy,
            self.caller,
            point.name,
            point.record_type,
            point.action,
            &mut LookUps::new(),
        );
        push_decided(self.alloc, text, self.form, point, decision)
    }

    /// Appends a point, if one is asked for. The only error is out of memory.
    fn push_if(
        self,
        text: &mut Vec<u8>,
        place: Place,
        name: &Name,
        record_type: RecordType,
        action: Option<Action>,
    ) -> Result<(), AllocError>
        ensures { OnOk result (text.new.items ≡ text.old.items ++ point_texts self.entry.form self.entry.policy.now self.entry.caller.now
            (option_to_list (option_map (λ a. record { place = place; name = name.now; record_type = record_type; action = a }) action))) }
    {
        let Some(action) = action else {
            return Ok(());
        };
        self.push_point(
            text,
            AskedPoint {
                place,
                name,
                record_type,
                action,
            },
        )
    }

    /// Appends what is asked for by a prerequisite. The only error is out of memory.
    fn push_prerequisite(
        self,
        text: &mut Vec<u8>,
        item: usize,
        prerequisite: &Prerequisite,
    ) -> Result<(), AllocError>
        ensures { OnOk result (text.new.items ≡ text.old.items ++ point_texts self.entry.form self.entry.policy.now self.entry.caller.now
            (item_points (place_in lists.Prerequisites item) (tested_name prerequisite.now) (prerequisite_action prerequisite.now))) }
    {
        let list = ItemList::Prerequisites;
        let place = Place { list, item };
        let name = prerequisite.name();
        for record_type in &RecordType::ALL {
            let action = prerequisite_asks(prerequisite, *record_type);
            self.push_if(text, place, name, *record_type, action)?;
        }
        Ok(())
    }

    /// Appends what is asked for by an operation of an update of the zone of an origin. The only error is out of memory.
    fn push_operation(
        self,
        text: &mut Vec<u8>,
        origin: &Name,
        item: usize,
        operation: &Operation,
    ) -> Result<(), AllocError>
        ensures { OnOk result (text.new.items ≡ text.old.items ++ point_texts self.entry.form self.entry.policy.now self.entry.caller.now
            (item_points (place_in lists.Operations item) (acted_name operation.now) (operation_action origin.now operation.now))) }
    {
        let list = ItemList::Operations;
        let place = Place { list, item };
        let name = operation.name();
        for record_type in &RecordType::ALL {
            let action = operation_asks(origin, operation, *record_type);
            self.push_if(text, place, name, *record_type, action)?;
        }
        Ok(())
    }

    /// Appends what is asked for by prerequisites. The only error is out of memory.
    fn push_prerequisites(
        self,
        text: &mut Vec<u8>,
        prerequisites: &[Prerequisite],
    ) -> Result<(), AllocError>
        ensures { OnOk result (text.new.items ≡ text.old.items ++ point_texts self.entry.form self.entry.policy.now self.entry.caller.now
            (points_from tested_name prerequisite_action lists.Prerequisites 0 prerequisites.now)) }
    {
        for (i, prerequisite) in prerequisites.iter().enumerate() {
            self.push_prerequisite(text, i, prerequisite)?;
        }
        Ok(())
    }

    /// Appends what is asked for by operations of an update of the zone of an origin. The only error is out of memory.
    fn push_operations(
        self,
        text: &mut Vec<u8>,
        origin: &Name,
        operations: &[Operation],
    ) -> Result<(), AllocError>
        ensures { OnOk result (text.new.items ≡ text.old.items ++ point_texts self.entry.form self.entry.policy.now self.entry.caller.now
            (points_from acted_name (operation_action origin.now) lists.Operations 0 operations.now)) }
    {
        for (i, operation) in operations.iter().enumerate() {
            self.push_operation(text, origin, i, operation)?;
        }
        Ok(())
    }

    /// Appends a line for each type of records that an item of an update of the zone of an origin tests or changes, prerequisites first,
    /// items in order, and types by number: the list of the item, its number there from 0, its name, the type, the action that it asks
    /// for, and by which rule that is granted or denied; or these as an object of JSON, and a comma. The only error is out of memory.
    pub(crate) fn push_update(
        self,
        text: &mut Vec<u8>,
        origin: &Name,
        update: &Update,
    ) -> Result<(), AllocError>
        ensures { OnOk result (text.new.items ≡ text.old.items ++ update_texts self.entry.form self.entry.policy.now self.entry.caller.now origin.now update.now) }
    {
        self.push_prerequisites(text, update.prerequisites())?;
        self.push_operations(text, origin, update.operations())
    }
}
