//! Diffs of two zones.

use crate::commands::devices::{Does, Manner};
use crate::commands::trials::{Devices, Trial, tried};
use cli_core::{DiffContent, DiffForm, GuardScope, ItemForm, TextForm};
use cli_text::Apply;
use cli_updates::{DiffFault, do_diff};
use dns_master::{Sink, Source};
use std::alloc::{AllocError, Global};
use std::fmt::Display;
use test_rows::{Row, text_of};

/// The master files of two zones of an origin.
#[derive(Clone, Copy)]
struct TwoZones<'a> {
    origin: &'a str,
    old: &'a str,
    new: &'a str,
}

/// What a diff prints, and how its devices work.
#[derive(Clone, Copy)]
struct Manners {
    content: DiffContent,
    text: TextForm,
    old: Manner,
    new: Manner,
    writing: Manner,
}

impl Manners {
    /// The operations alone, and devices that never fail.
    const SOUND: Manners = Manners {
        content: DiffContent::Items(ItemForm::Bare),
        text: TextForm::Plain,
        old: Manner::SOUND,
        new: Manner::SOUND,
        writing: Manner::SOUND,
    };

    /// Prerequisites and operations, and devices that never fail.
    const GUARDED: Manners = Manners {
        content: DiffContent::Items(ItemForm::Guarded(GuardScope::Names)),
        ..Manners::SOUND
    };

    /// Prerequisites on sets only, and devices that never fail.
    const GUARDED_BY_SETS: Manners = Manners {
        content: DiffContent::Items(ItemForm::Guarded(GuardScope::Sets)),
        ..Manners::SOUND
    };

    /// The questions that are answered otherwise, and devices that never fail.
    const ANSWERS: Manners = Manners {
        content: DiffContent::Answers,
        ..Manners::SOUND
    };

    /// The same, as JSON.
    fn as_json(self) -> Manners {
        Manners {
            text: TextForm::Json,
            ..self
        }
    }
}

/// To write what a diff prints of two zones of an origin, in a form.
#[derive(Clone, Copy)]
struct Differs<'a>(&'a str, DiffForm);

impl Trial for Differs<'_> {
    type Outcome = Result<(), DiffFault>;

    fn run<R: Source, N: Source, W: Sink>(
        self,
        alloc: Global,
        first: &mut R,
        second: &mut N,
        writer: &mut W,
    ) -> Result<(), DiffFault> {
        do_diff(alloc, (self.0, self.1), first, second, writer)
    }
}

impl<'a> TwoZones<'a> {
    /// The two files of a body, with a line `--` between them.
    fn of(origin: &'a str, body: &'a [u8]) -> TwoZones<'a> {
        let text = text_of(body);
        let (old, new) = text.split_once("--\n").unwrap_or((text, ""));
        TwoZones { origin, old, new }
    }

    /// What their diff prints, and how it went.
    fn diff(
        self,
        alloc: Global,
        manners: Manners,
    ) -> Result<(Vec<u8>, Result<(), DiffFault>), AllocError> {
        let old = manners
            .old
            .device(Vec::from_slice(alloc, self.old.as_bytes())?);
        let new = manners
            .new
            .device(Vec::from_slice(alloc, self.new.as_bytes())?);
        let devices = Devices {
            first: old,
            second: new,
            writer: manners.writing.device(Vec::new(alloc)),
        };
        let form = DiffForm {
            content: manners.content,
            text: manners.text,
        };
        Ok(tried(alloc, Differs(self.origin, form), devices))
    }

    /// What `apply` prints of the old zone and the items.
    fn edited(self, alloc: Global, manners: Manners) -> Result<Vec<u8>, AllocError> {
        let (items, _) = self.diff(alloc, manners)?;
        applied(alloc, self.old.as_bytes(), &items)
    }
}

/// What `apply` prints of a zone and items.
fn applied(alloc: Global, zone: &[u8], items: &[u8]) -> Result<Vec<u8>, AllocError> {
    let mut input = Vec::from_slice(alloc, zone)?;
    input.extend_from_slice(b"--\n")?;
    input.extend_from_slice(items)?;
    let devices = Devices {
        first: Manner::SOUND.device(input),
        second: Manner::SOUND.device(Vec::new(alloc)),
        writer: Manner::SOUND.device(Vec::new(alloc)),
    };
    Ok(tried(alloc, Does(Apply), devices).0)
}

/// A device whose first call fails.
const FAILING: Manner = Manner { most: 64, fails: 1 };

/// Appends the answer to a row of a diff, of operations alone or with prerequisites, or of answers: what it prints; what `apply` makes of
/// the old zone and the items; what is printed where the first read of each file fails; and how much is printed where each of some writes
/// fails.
pub fn push_diff(alloc: Global, row: &Row<'_>, answer: &mut Vec<u8>) -> Result<(), AllocError> {
    let zones = TwoZones::of(text_of(&row.text), &row.body);
    match row.verb {
        "edit" => push_edited(alloc, zones, Manners::SOUND, answer),
        "edit-guarded" => push_edited(alloc, zones, Manners::GUARDED, answer),
        "diff-guarded" => push_run(alloc, zones, Manners::GUARDED, answer),
        "edit-guarded-sets" => push_edited(alloc, zones, Manners::GUARDED_BY_SETS, answer),
        "diff-guarded-sets" => push_run(alloc, zones, Manners::GUARDED_BY_SETS, answer),
        "diff-answers" => push_run(alloc, zones, Manners::ANSWERS, answer),
        "diff-json" => push_run(alloc, zones, Manners::SOUND.as_json(), answer),
        "diff-guarded-json" => push_run(alloc, zones, Manners::GUARDED.as_json(), answer),
        "diff-answers-json" => push_run(alloc, zones, Manners::ANSWERS.as_json(), answer),
        "diff-reads" => push_failed_reads(alloc, zones, answer),
        "diff-write" => push_failed_write(alloc, zones, answer),
        _ => push_run(alloc, zones, Manners::SOUND, answer),
    }
}

fn push_edited(
    alloc: Global,
    zones: TwoZones<'_>,
    manners: Manners,
    answer: &mut Vec<u8>,
) -> Result<(), AllocError> {
    answer.extend_from_slice(&zones.edited(alloc, manners)?)
}

fn push_failed_reads(
    alloc: Global,
    zones: TwoZones<'_>,
    answer: &mut Vec<u8>,
) -> Result<(), AllocError> {
    let mut manners = Manners::SOUND;
    manners.old = FAILING;
    push_run(alloc, zones, manners, answer)?;
    answer.push(b'\n')?;
    manners = Manners::SOUND;
    manners.new = FAILING;
    push_run(alloc, zones, manners, answer)
}

fn push_failed_write(
    alloc: Global,
    zones: TwoZones<'_>,
    answer: &mut Vec<u8>,
) -> Result<(), AllocError> {
    let mut manners = Manners::SOUND;
    manners.writing = FAILING;
    push_run(alloc, zones, manners, answer)
}

/// Appends what a diff prints with devices that work so, and its exit status.
fn push_run(
    alloc: Global,
    zones: TwoZones<'_>,
    manners: Manners,
    answer: &mut Vec<u8>,
) -> Result<(), AllocError> {
    let (printed, done) = zones.diff(alloc, manners)?;
    answer.extend_from_slice(&printed)?;
    push_outcome(alloc, done, answer)
}

/// Appends the exit status of a command that reads two inputs, and the words of its refusal.
pub fn push_outcome<F: Display + Drop>(
    alloc: Global,
    done: Result<(), F>,
    answer: &mut Vec<u8>,
) -> Result<(), AllocError> {
    match done {
        Ok(()) => answer.extend_from_slice(b"status 0"),
        Err(fault) => {
            let status = format!(in alloc; "status 1: {fault}")?;
            answer.extend_from_slice(status.as_bytes())
        }
    }
}
