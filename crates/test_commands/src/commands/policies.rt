//! What policies change, whether they are as expected, what they leave out of zones, and which answers they let a caller change.

use crate::commands::devices::Manner;
use crate::commands::trials::{Devices, Trial, tried};
use cli_checks::{
    ChangesFault, ExpectFault, Findings, PolicyZonesFault, ReachFault, do_changes, do_expect,
    do_policy_zones, do_reach,
};
use cli_core::{Reach, ReachContent, TextForm};
use dns_master::{Sink, Source};
use std::alloc::{AllocError, Global};
use std::fmt::Display;
use test_rows::{Row, text_of};

/// A policy, and another, what is expected of it, zones, or a zone.
#[derive(Clone, Copy)]
struct TwoTexts<'a> {
    first: &'a str,
    second: &'a str,
}

impl<'a> TwoTexts<'a> {
    /// The two texts of a body, with a line `==` between them.
    fn of(body: &'a [u8]) -> TwoTexts<'a> {
        let text = text_of(body);
        let (first, second) = text.split_once("==\n").unwrap_or((text, ""));
        TwoTexts { first, second }
    }
}

/// To write what a policy changes against another.
#[derive(Clone, Copy)]
struct Compares(TextForm);

impl Trial for Compares {
    type Outcome = Result<Findings, ChangesFault>;

    fn run<R: Source, N: Source, W: Sink>(
        self,
        alloc: Global,
        first: &mut R,
        second: &mut N,
        writer: &mut W,
    ) -> Result<Findings, ChangesFault> {
        do_changes(alloc, self.0, first, second, writer)
    }
}

/// To write what is expected of a policy and is not so.
#[derive(Clone, Copy)]
struct Expects(TextForm);

impl Trial for Expects {
    type Outcome = Result<Findings, ExpectFault>;

    fn run<R: Source, N: Source, W: Sink>(
        self,
        alloc: Global,
        first: &mut R,
        second: &mut N,
        writer: &mut W,
    ) -> Result<Findings, ExpectFault> {
        do_expect(alloc, self.0, first, second, writer)
    }
}

/// To write what a policy leaves out of zones, and what a reader may not list in them.
#[derive(Clone, Copy)]
struct Beside<'a> {
    reader: Option<&'a str>,
    form: TextForm,
}

impl Trial for Beside<'_> {
    type Outcome = Result<Findings, PolicyZonesFault>;

    fn run<R: Source, N: Source, W: Sink>(
        self,
        alloc: Global,
        first: &mut R,
        second: &mut N,
        writer: &mut W,
    ) -> Result<Findings, PolicyZonesFault> {
        do_policy_zones(alloc, (self.reader, self.form), first, second, writer)
    }
}

/// To write which answers of a zone a caller can change.
#[derive(Clone, Copy)]
struct Reaches<'a> {
    caller: &'a str,
    origin: &'a str,
    content: ReachContent,
    form: TextForm,
}

impl Trial for Reaches<'_> {
    type Outcome = Result<Findings, ReachFault>;

    fn run<R: Source, N: Source, W: Sink>(
        self,
        alloc: Global,
        first: &mut R,
        second: &mut N,
        writer: &mut W,
    ) -> Result<Findings, ReachFault> {
        let words = Reach {
            policy: "policy",
            caller: self.caller,
            origin: self.origin,
            file: None,
            content: self.content,
        };
        do_reach(alloc, (words, self.form), first, second, writer)
    }
}

/// What the verb of a row has printed of the answers that a caller can change.
fn content_of(verb: &str) -> ReachContent {
    if verb.starts_with("reach-example") {
        ReachContent::Examples
    } else {
        ReachContent::Groups
    }
}

/// As what the verb of a row has something printed.
pub fn form_of(verb: &str) -> TextForm {
    if verb.ends_with("-json") {
        TextForm::Json
    } else {
        TextForm::Plain
    }
}

/// A device whose first call fails.
const FAILING: Manner = Manner { most: 64, fails: 1 };

/// Appends the answer to a row of two policies: what is printed of them; the same where the first read of each fails; or where the first
/// write does.
pub fn push_against(alloc: Global, row: &Row<'_>, answer: &mut Vec<u8>) -> Result<(), AllocError> {
    let sound = Manner::SOUND;
    match row.verb {
        "against-reads" => {
            push_compared(alloc, row, [FAILING, sound, sound], answer)?;
            answer.push(b'\n')?;
            push_compared(alloc, row, [sound, FAILING, sound], answer)
        }
        "against-write" => push_compared(alloc, row, [sound, sound, FAILING], answer),
        _ => push_compared(alloc, row, [sound, sound, sound], answer),
    }
}

/// Appends the answer to a row of a policy and expectations: what is printed of them; or the same where the first read of each fails.
pub fn push_expect(alloc: Global, row: &Row<'_>, answer: &mut Vec<u8>) -> Result<(), AllocError> {
    let sound = Manner::SOUND;
    if row.verb != "expect-reads" {
        return push_expected(alloc, row, [sound, sound, sound], answer);
    }
    push_expected(alloc, row, [FAILING, sound, sound], answer)?;
    answer.push(b'\n')?;
    push_expected(alloc, row, [sound, FAILING, sound], answer)
}

/// Appends what is printed of expectations, with devices that work so.
fn push_expected(
    alloc: Global,
    row: &Row<'_>,
    manners: [Manner; 3],
    answer: &mut Vec<u8>,
) -> Result<(), AllocError> {
    let devices = devices_of(alloc, row, manners)?;
    let (printed, done) = tried(alloc, Expects(form_of(row.verb)), devices);
    answer.extend_from_slice(&printed)?;
    push_findings(alloc, done, answer)
}

/// Appends the answer to a row of a policy and zones, with the reader of its text: what is printed of them; or the same where the first
/// read of each fails.
pub fn push_zones(alloc: Global, row: &Row<'_>, answer: &mut Vec<u8>) -> Result<(), AllocError> {
    let sound = Manner::SOUND;
    if row.verb != "beside-reads" {
        return push_beside(alloc, row, [sound, sound, sound], answer);
    }
    push_beside(alloc, row, [FAILING, sound, sound], answer)?;
    answer.push(b'\n')?;
    push_beside(alloc, row, [sound, FAILING, sound], answer)
}

/// Appends what is printed of zones, with devices that work so.
fn push_beside(
    alloc: Global,
    row: &Row<'_>,
    manners: [Manner; 3],
    answer: &mut Vec<u8>,
) -> Result<(), AllocError> {
    let reader = text_of(&row.text);
    let beside = Beside {
        reader: (!reader.is_empty()).then_some(reader),
        form: form_of(row.verb),
    };
    let (printed, done) = tried(alloc, beside, devices_of(alloc, row, manners)?);
    answer.extend_from_slice(&printed)?;
    push_findings(alloc, done, answer)
}

/// Appends the answer to a row of a policy and a zone, with a caller and an origin in its text: what is printed of them; the same where the
/// first read of each fails; or where the first write does.
pub fn push_reach(alloc: Global, row: &Row<'_>, answer: &mut Vec<u8>) -> Result<(), AllocError> {
    let sound = Manner::SOUND;
    match row.verb {
        "reach-reads" => {
            push_reached(alloc, row, [FAILING, sound, sound], answer)?;
            answer.push(b'\n')?;
            push_reached(alloc, row, [sound, FAILING, sound], answer)
        }
        "reach-write" => push_reached(alloc, row, [sound, sound, FAILING], answer),
        _ => push_reached(alloc, row, [sound, sound, sound], answer),
    }
}

/// Appends what is printed of the answers of a zone, with devices that work so.
fn push_reached(
    alloc: Global,
    row: &Row<'_>,
    manners: [Manner; 3],
    answer: &mut Vec<u8>,
) -> Result<(), AllocError> {
    let text = text_of(&row.text);
    let (caller, origin) = text.split_once('|').unwrap_or((text, ""));
    let devices = devices_of(alloc, row, manners)?;
    let form = form_of(row.verb);
    let content = content_of(row.verb);
    let reaches = Reaches {
        caller,
        origin,
        content,
        form,
    };
    let (printed, done) = tried(alloc, reaches, devices);
    answer.extend_from_slice(&printed)?;
    push_findings(alloc, done, answer)
}

/// Devices that work so: for the two texts of a row, and for the answer.
fn devices_of(alloc: Global, row: &Row<'_>, manners: [Manner; 3]) -> Result<Devices, AllocError> {
    let texts = TwoTexts::of(&row.body);
    let [first, second, writing] = manners;
    Ok(Devices {
        first: first.device(Vec::from_slice(alloc, texts.first.as_bytes())?),
        second: second.device(Vec::from_slice(alloc, texts.second.as_bytes())?),
        writer: writing.device(Vec::new(alloc)),
    })
}

/// Appends what is printed with devices that work so: for the two policies, and for the answer.
fn push_compared(
    alloc: Global,
    row: &Row<'_>,
    manners: [Manner; 3],
    answer: &mut Vec<u8>,
) -> Result<(), AllocError> {
    let devices = devices_of(alloc, row, manners)?;
    let (printed, done) = tried(alloc, Compares(form_of(row.verb)), devices);
    answer.extend_from_slice(&printed)?;
    push_findings(alloc, done, answer)
}

/// Appends the exit status of a check of two inputs, and the words of its refusal.
fn push_findings<F: Display + Drop>(
    alloc: Global,
    done: Result<Findings, F>,
    answer: &mut Vec<u8>,
) -> Result<(), AllocError> {
    match done {
        Ok(Findings::Absent) => answer.extend_from_slice(b"status 0"),
        Ok(Findings::Present) => answer.extend_from_slice(b"status 1"),
        Err(fault) => {
            let status = format!(in alloc; "status 1: {fault}")?;
            answer.extend_from_slice(status.as_bytes())
        }
    }
}
