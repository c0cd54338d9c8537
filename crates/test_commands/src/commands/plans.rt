//! What the office would answer to updates.

use crate::commands::devices::Manner;
use crate::commands::diffs::push_outcome;
use crate::commands::trials::{Devices, Trial, tried};
use cli_core::{PlanForm, PlanLines, PlanObject};
use cli_updates::{PlanFault, do_plan};
use dns_master::{Sink, Source};
use std::alloc::{AllocError, Global};
use test_rows::{Row, text_of};

/// A policy, and a zone with an update of it.
#[derive(Clone, Copy)]
struct TwoInputs<'a> {
    policy: &'a str,
    update: &'a str,
}

impl<'a> TwoInputs<'a> {
    /// The two inputs of a body, with a line `==` between them.
    fn of(body: &'a [u8]) -> TwoInputs<'a> {
        let text = text_of(body);
        let (policy, update) = text.split_once("==\n").unwrap_or((text, ""));
        TwoInputs { policy, update }
    }
}

/// To write what the office would answer to a caller, in a form.
#[derive(Clone, Copy)]
struct Plans<'a>(&'a str, PlanForm);

impl Trial for Plans<'_> {
    type Outcome = Result<(), PlanFault>;

    fn run<R: Source, N: Source, W: Sink>(
        self,
        alloc: Global,
        first: &mut R,
        second: &mut N,
        writer: &mut W,
    ) -> Result<(), PlanFault> {
        do_plan(alloc, (self.0, self.1), first, second, writer)
    }
}

/// A device whose first call fails.
const FAILING: Manner = Manner { most: 64, fails: 1 };

/// The form that a verb asks for.
fn form_of(verb: &str) -> PlanForm {
    match verb {
        "plan-answers" => PlanForm::Lines(PlanLines::Answers),
        "plan-explained" => PlanForm::Lines(PlanLines::Explained),
        "plan-json" => PlanForm::Object(PlanObject::Reply),
        "plan-answers-json" => PlanForm::Object(PlanObject::Answers),
        "plan-explained-json" => PlanForm::Object(PlanObject::Explained),
        _ => PlanForm::Lines(PlanLines::Records),
    }
}

/// Appends the answer to a row of a plan: what is printed for the caller, in a form; the same where the first read of each input fails; or
/// where the first write does.
pub fn push_plan(alloc: Global, row: &Row<'_>, answer: &mut Vec<u8>) -> Result<(), AllocError> {
    let sound = Manner::SOUND;
    match row.verb {
        "plan-reads" => {
            push_planned(
                alloc,
                row,
                PlanForm::Lines(PlanLines::Records),
                [FAILING, sound, sound],
                answer,
            )?;
            answer.push(b'\n')?;
            push_planned(
                alloc,
                row,
                PlanForm::Lines(PlanLines::Records),
                [sound, FAILING, sound],
                answer,
            )
        }
        "plan-write" => push_planned(
            alloc,
            row,
            PlanForm::Lines(PlanLines::Records),
            [sound, sound, FAILING],
            answer,
        ),
        verb => push_planned(alloc, row, form_of(verb), [sound, sound, sound], answer),
    }
}

/// Appends what is printed with devices that work so: for the policy, for the update, and for the answer.
fn push_planned(
    alloc: Global,
    row: &Row<'_>,
    form: PlanForm,
    manners: [Manner; 3],
    answer: &mut Vec<u8>,
) -> Result<(), AllocError> {
    let inputs = TwoInputs::of(&row.body);
    let [policy, update, writing] = manners;
    let devices = Devices {
        first: policy.device(Vec::from_slice(alloc, inputs.policy.as_bytes())?),
        second: update.device(Vec::from_slice(alloc, inputs.update.as_bytes())?),
        writer: writing.device(Vec::new(alloc)),
    };
    let (printed, done) = tried(alloc, Plans(text_of(&row.text), form), devices);
    answer.extend_from_slice(&printed)?;
    push_outcome(alloc, done, answer)
}
