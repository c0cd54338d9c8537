//! Commands, and the devices that they read and write.

use crate::commands::policies::form_of;
use crate::commands::trials::{Devices, Trial, tried};
use cli_checks::{AskedCheck, Findings, Subject, do_check};
use cli_core::{
    Answer, Canon, Explain, JobFault, PolicySource, QuestionWords, Rights, TextForm, ZoneForm,
};
use cli_text::{Apply, Task};
use cli_updates::{Request, Split};
use dns_master::{FilePart, Pieces, Sink, Source};
use std::alloc::{AllocError, Global};

/// How a device works.
#[derive(Clone, Copy)]
pub struct Manner {
    /// The most octets that it moves in a call.
    pub most: usize,
    /// The number of the call that fails, from 1, and 0 where none does.
    pub fails: usize,
}

impl Manner {
    /// A device that never fails.
    pub const SOUND: Manner = Manner {
        most: 4096,
        fails: 0,
    };

    /// A device that holds these octets and goes this manner.
    pub fn device(self, octets: Vec<u8>) -> Pieces {
        Pieces::new(octets, self.most, self.fails)
    }
}

/// What a command printed, and how it went. A command that checks nothing finds nothing.
pub type Printed = (Vec<u8>, Result<Findings, JobFault>);

/// A command, its words, and its input.
#[derive(Clone, Copy)]
pub struct Command<'a> {
    pub name: &'a str,
    pub words: &'a str,
    pub input: &'a [u8],
}

impl Command<'_> {
    /// What the command prints with devices that work so, and how it went.
    pub fn run(
        self,
        alloc: Global,
        reading: Manner,
        writing: Manner,
    ) -> Result<Printed, AllocError> {
        let (words, form) = (self.words, form_of(self.name));
        match self.name {
            "apply" => self.run_task(alloc, Apply, reading, writing),
            "canon" => self.run_task(alloc, canon(words, ZoneForm::Whole), reading, writing),
            "canon-relative" => {
                self.run_task(alloc, canon(words, ZoneForm::Relative), reading, writing)
            }
            "request" => self.run_task(alloc, Request { id: words }, reading, writing),
            "split" => self.run_task(alloc, Split { id: words }, reading, writing),
            "rights" | "rights-json" => {
                self.run_task(alloc, question(words, form), reading, writing)
            }
            "answer" | "answer-json" => {
                self.run_task(alloc, question_in(words, form), reading, writing)
            }
            "explain" => self.run_task(alloc, asked(words), reading, writing),
            "part-kept" => self.run_task(alloc, part(FilePart::Kept, words), reading, writing),
            "part-rest" => self.run_task(alloc, part(FilePart::Rest, words), reading, writing),
            "part-signer" => {
                self.run_task(alloc, part(FilePart::Signer, words), reading, writing)
            }
            "check" | "check-json" => self.run_check(alloc, Subject::Rules, reading, writing),
            "reverse" => self.run_check(alloc, Subject::Reverse(words), reading, writing),
            "build" => {
                self.run_check(alloc, made(PolicySource::Groups, words), reading, writing)
            }
            "print" => { self.run_check(alloc, made(PolicySource::Rules, words), reading, writing) }
            "isolation" | "isolation-json" => {
                self.run_check(alloc, Subject::Isolation(words), reading, writing)
            }
            _ => no_command(alloc),
        }
    }

    fn run_task<T: Task>(
        self,
        alloc: Global,
        task: T,
        reading: Manner,
        writing: Manner,
    ) -> Result<Printed, AllocError> {
        let (printed, done) = tried(alloc, Does(task), self.devices(alloc, reading, writing)?);
        Ok((printed, found_none(done)))
    }

    fn run_check(
        self,
        alloc: Global,
        subject: Subject<'_>,
        reading: Manner,
        writing: Manner,
    ) -> Result<Printed, AllocError> {
        Ok(tried(
            alloc,
            Checks(AskedCheck {
                subject,
                form: form_of(self.name),
            }),
            self.devices(alloc, reading, writing)?,
        ))
    }

    fn devices(
        self,
        alloc: Global,
        reading: Manner,
        writing: Manner,
    ) -> Result<Devices, AllocError> {
        Ok(Devices {
            first: reading.device(Vec::from_slice(alloc, self.input)?),
            second: Manner::SOUND.device(Vec::new(alloc)),
            writer: writing.device(Vec::new(alloc)),
        })
    }
}

/// To do a task.
#[derive(Drop)]
pub struct Does<T>(pub T);

impl<T: Task> Trial for Does<T> {
    type Outcome = Result<(), JobFault>;

    fn run<R: Source, N: Source, W: Sink>(
        self,
        alloc: Global,
        first: &mut R,
        _second: &mut N,
        writer: &mut W,
    ) -> Result<(), JobFault> {
        let Does(task) = self;
        task.run(alloc, first, writer)
    }
}

/// To check a policy.
#[derive(Clone, Copy)]
struct Checks<'a>(AskedCheck<'a>);

impl Trial for Checks<'_> {
    type Outcome = Result<Findings, JobFault>;

    fn run<R: Source, N: Source, W: Sink>(
        self,
        alloc: Global,
        first: &mut R,
        _second: &mut N,
        writer: &mut W,
    ) -> Result<Findings, JobFault> {
        do_check(alloc, self.0, first, writer)
    }
}

/// A policy of the zones of words.
fn made(source: PolicySource, words: &str) -> Subject<'_> {
    Subject::Printed(source, zones_in(words))
}

fn no_command(alloc: Global) -> Result<Printed, AllocError> {
    let told = Vec::from_slice(alloc, b"no such command")?;
    Ok((told, Ok(Findings::Absent)))
}

/// How a command went that finds nothing.
fn found_none(done: Result<(), JobFault>) -> Result<Findings, JobFault> {
    match done {
        Ok(()) => Ok(Findings::Absent),
        Err(fault) => Err(fault),
    }
}

/// The zones that words name, if there are words: only the rules that matter in them are printed.
fn zones_in(words: &str) -> Option<&str> {
    (!words.is_empty()).then_some(words)
}

/// The task `canon` for an origin.
fn canon(origin: &str, form: ZoneForm) -> Canon<'_> {
    Canon { origin, form }
}

/// The task `split` for a part and an origin.
const fn part(part: FilePart, origin: &str) -> cli_core::Split<'_> {
    cli_core::Split {
        origin,
        file: "-",
        part,
    }
}

/// What words with bars between them ask of a policy.
fn question(words: &str, form: TextForm) -> Rights<'_> {
    let mut words = words.split('|');
    let asked = QuestionWords {
        caller: words.next().unwrap_or(""),
        name: words.next().unwrap_or(""),
        record_type: words.next().unwrap_or(""),
        action: words.next().unwrap_or(""),
    };
    Rights {
        policy: "-",
        asked,
        form,
    }
}

/// What words with bars between them ask about a zone: its origin, a name, and a type, if there is one.
fn question_in(words: &str, form: TextForm) -> Answer<'_> {
    let mut words = words.split('|');
    Answer {
        origin: words.next().unwrap_or(""),
        file: "-",
        name: words.next().unwrap_or(""),
        asked: words.next(),
        form,
    }
}

/// What words with a bar between them ask about refusals: a number, or `all`, and then `json` for that form.
fn asked(words: &str) -> Explain<'_> {
    let (number, form) = words.split_once('|').unwrap_or((words, ""));
    Explain {
        number: (number != "all").then_some(number),
        form: if form == "json" {
            TextForm::Json
        } else {
            TextForm::Plain
        },
    }
}
