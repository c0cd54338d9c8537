//! What a server answers to questions.

use crate::commands::devices::Manner;
use crate::commands::diffs::push_outcome;
use crate::commands::trials::{Devices, Trial, tried};
use cli_core::TextForm;
use cli_text::{AnswerFault, do_answers};
use dns_master::{Sink, Source};
use std::alloc::{AllocError, Global};
use test_rows::{Row, text_of};

/// To write what a server answers from the zone of an origin, in a form.
#[derive(Clone, Copy)]
struct Asks<'a>(&'a str, TextForm);

impl Trial for Asks<'_> {
    type Outcome = Result<(), AnswerFault>;

    fn run<R: Source, N: Source, W: Sink>(
        self,
        alloc: Global,
        first: &mut R,
        second: &mut N,
        writer: &mut W,
    ) -> Result<(), AnswerFault> {
        do_answers(alloc, (self.0, self.1), first, second, writer)
    }
}

/// A device whose first call fails.
const FAILING: Manner = Manner { most: 64, fails: 1 };

/// Appends the answers to the questions of a body, about the zone after a line `==`, as lines or as JSON; or the same where the first read of each fails.
pub fn push_answers(alloc: Global, row: &Row<'_>, answer: &mut Vec<u8>) -> Result<(), AllocError> {
    let sound = Manner::SOUND;
    let plain = TextForm::Plain;
    match row.verb {
        "answers" => push_asked(alloc, row, plain, [sound, sound, sound], answer),
        "answers-json" => push_asked(alloc, row, TextForm::Json, [sound, sound, sound], answer),
        _ => {
            push_asked(alloc, row, plain, [FAILING, sound, sound], answer)?;
            answer.push(b'\n')?;
            push_asked(alloc, row, plain, [sound, FAILING, sound], answer)
        }
    }
}

/// Appends what is printed with devices that work so: for the questions, for the zone, and for the answers.
fn push_asked(
    alloc: Global,
    row: &Row<'_>,
    form: TextForm,
    manners: [Manner; 3],
    answer: &mut Vec<u8>,
) -> Result<(), AllocError> {
    let text = text_of(&row.body);
    let (questions, zone) = text.split_once("==\n").unwrap_or((text, ""));
    let [asking, reading, writing] = manners;
    let devices = Devices {
        first: asking.device(Vec::from_slice(alloc, questions.as_bytes())?),
        second: reading.device(Vec::from_slice(alloc, zone.as_bytes())?),
        writer: writing.device(Vec::new(alloc)),
    };
    let (printed, done) = tried(alloc, Asks(text_of(&row.text), form), devices);
    answer.extend_from_slice(&printed)?;
    push_outcome(alloc, done, answer)
}
