//! What the program does with the words of its command line, in surroundings, with files of stores and with streams that are handed in.

ghost use Rattle.std.specs.Prelude.{◌≡◌, ◌↔◌, ⊤, IsTrue, map, option_map, codes};
ghost use Rattle.std.specs.Process.{exit_status};
ghost use Rattle.sqlite.specs.Held.{state};
ghost use Rattle.cli_updates.specs.Plan.{IsPlanned};
ghost use Rattle.cli_store.specs.Stores.{stores_of};
ghost use Rattle.cli_store.specs.ImportList.{ListImported};
ghost use Rattle.cli_store.specs.Program.{Ends, OfInput, EndsTask, EndsCheck, EndsChanges, EndsPolicy, EndsCheckOf, EndsPolicyText, EndsExpectedBy, EndsExpected, EndsZonesBy, EndsZones, EndsReachBy, EndsReach, EndsTaskOf, IsInquiredOf, AnswerEnds, DiffersBy, named, standard, requested, asked, CheckEnds, TextJobEnds, StoreJobEnds, JobEnds, EndsFault, WordsEnd, IsToldWhole, status_of, check_status_of};

use crate::files::StoreFiles;
use crate::import_list::import_all;
use crate::migration::migrate;
use crate::past_zone::export_by;
use crate::removal::remove;
use crate::service::serve;
use crate::store_list::list_zones;
use crate::store_log::log;
use crate::surroundings::{Ended, NamedFile, Surroundings};
use crate::zone_makers::blame_by;
use crate::zone_undo::undo;
use crate::zones::import;
use cli_checks::{
    AskedCheck, Findings, Subject, do_changes, do_check, do_expect, do_policy_zones, do_reach,
};
use cli_core::{
    Answer, Check, CheckSubject, DiffForm, ImportList, Input, Job, JobFault, NO_MEMORY_LINE,
    PlanForm, PolicyText, Reach, RequestForm, StoreJob, TextForm, TextJob, WordsFault, ZoneFiles,
    read_words, write_text,
};
use cli_text::{AnswerFault, Apply, Task, do_answers};
use cli_updates::{DiffFault, Request, Split, do_diff, do_plan};
use dns_master::{Sink, Source};
use sqlite::{Alter, Connection};
use std::fmt::Display;
use std::process::ExitCode;

/// Says in words on standard error why a job was not done.
fn complain<M: Surroundings, F: Display + Drop>(around: &M, fault: F) {
    if let Ok(words) = format!(in around.alloc(); "zoneoffice: {fault}") {
        around.say(words.as_str());
    }
}

/// The exit status of what was done: 0 if it went through, else 1, after the words that say why it did not.
fn ended<M: Surroundings, F: Display + Drop>(around: &M, done: Result<(), F>) -> ExitCode
    ensures { exit_status result ≡ status_of done }
{
    match done {
        Ok(()) => ExitCode::SUCCESS,
        Err(fault) => {
            complain(around, fault);
            ExitCode::FAILURE
        }
    }
}

/// Does a task with an input and a writer.
fn do_task<M: Surroundings, T: Task, I: Input, W: Sink>(
    around: &M,
    task: T,
    input: &mut I,
    output: &mut W,
) -> ExitCode
    ensures { EndsTask (I.left input.old) (I.fine input.old input.new) (I.failed input.old input.new) (T.answer task)
        (record { old = W.contents output.old; new = W.contents output.new; before = W.failures output.old; after = W.failures output.new })
        (exit_status result) }
{
    ended(around, task.run(around.alloc(), input, output))
}

/// The exit status of a check: 0 if it found nothing, else 1, after the words that say why it was not done.
fn check_status<M: Surroundings, F: Display + Drop>(
    around: &M,
    done: Result<Findings, F>,
) -> ExitCode
    ensures { exit_status result ≡ check_status_of done }
{
    match done {
        Ok(Findings::Absent) => ExitCode::SUCCESS,
        Ok(Findings::Present) => ExitCode::FAILURE,
        Err(fault) => {
            complain(around, fault);
            ExitCode::FAILURE
        }
    }
}

/// A check, as what its findings are printed.
const fn asked(subject: Subject<'_>, form: TextForm) -> AskedCheck<'_>
    ensures { result ≡ asked subject.entry form }
{
    AskedCheck { subject, form }
}

/// Checks what an input is, with a writer.
fn check<M: Surroundings, I: Input, W: Sink>(
    around: &M,
    wanted: AskedCheck<'_>,
    input: &mut I,
    output: &mut W,
) -> ExitCode
    ensures { EndsCheck wanted.entry (I.left input.old) (I.fine input.old input.new) (I.failed input.old input.new)
        (record { old = W.contents output.old; new = W.contents output.new; before = W.failures output.old; after = W.failures output.new })
        (exit_status result) }
{
    check_status(around, do_check(around.alloc(), wanted, input, output))
}

/// Checks the file of a path.
fn check_file<M: Surroundings, W: Sink>(
    around: &M,
    wanted: AskedCheck<'_>,
    path: &str,
    output: &mut W,
) -> ExitCode
    ensures { EndsCheck wanted.entry ((M.around around.now).file path.now) ⊤ ((M.around around.now).unreadable path.now)
        (record { old = W.contents output.old; new = W.contents output.new; before = W.failures output.old; after = W.failures output.new })
        (exit_status result) }
{
    let mut file = NamedFile { around, path };
    check(around, wanted, &mut file, output)
}

/// Writes what the policy of a path changes against that of another.
fn changes<M: Surroundings, W: Sink>(
    around: &M,
    form: TextForm,
    against: &str,
    policy: &str,
    output: &mut W,
) -> ExitCode
    ensures { EndsChanges (M.around around.now) form against.now policy.now
        (record { old = W.contents output.old; new = W.contents output.new; before = W.failures output.old; after = W.failures output.new })
        (exit_status result) }
{
    let mut old = NamedFile {
        around,
        path: against,
    };
    let mut new = NamedFile {
        around,
        path: policy,
    };
    check_status(
        around,
        do_changes(around.alloc(), form, &mut old, &mut new, output),
    )
}

/// Checks the policy of a path by itself, or writes what it changes against that of another, if one is given.
fn policy_or_changes<M: Surroundings, W: Sink>(
    around: &M,
    form: TextForm,
    policy: &str,
    against: Option<&str>,
    output: &mut W,
) -> ExitCode
    ensures { EndsPolicy (M.around around.now) form policy.now (option_map (λ p. p.now) against.entry)
        (record { old = W.contents output.old; new = W.contents output.new; before = W.failures output.old; after = W.failures output.new })
        (exit_status result) }
{
    match against {
        None => check_file(around, asked(Subject::Rules, form), policy, output),
        Some(against) => changes(around, form, against, policy, output),
    }
}

/// Writes what is expected of the policy of a path and is not so, by an input.
fn expect_of<M: Surroundings, N: Input, W: Sink>(
    around: &M,
    what: (&str, TextForm),
    expected: &mut N,
    output: &mut W,
) -> ExitCode
    ensures { EndsExpectedBy (M.around around.now) what.entry.1 what.entry.0.now
        (record { left = N.left expected.old; fine = N.fine expected.old expected.new; failed = N.failed expected.old expected.new })
        (record { old = W.contents output.old; new = W.contents output.new; before = W.failures output.old; after = W.failures output.new })
        (exit_status result) }
{
    let (policy, form) = what;
    let mut policy = NamedFile {
        around,
        path: policy,
    };
    check_status(
        around,
        do_expect(around.alloc(), form, &mut policy, expected, output),
    )
}

/// The same by the input that a path names: standard input, if it is `-` or none is given, or a file.
fn expect<M: Surroundings, R: Source, W: Sink>(
    around: &M,
    what: (&str, TextForm),
    file: Option<&str>,
    input: &mut R,
    output: &mut W,
) -> ExitCode
    ensures { EndsExpected (M.around around.now)
        (record { left = R.remaining input.old; rest = R.remaining input.new; before = R.failures input.old; after = R.failures input.new }) what.entry.1
        what.entry.0.now (option_map (λ f. f.now) file.entry)
        (record { old = W.contents output.old; new = W.contents output.new; before = W.failures output.old; after = W.failures output.new })
        (exit_status result) }
{
    let path = file.unwrap_or("-");
    if is_standard(path) {
        return expect_of(around, what, input, output);
    }
    let mut file = NamedFile { around, path };
    expect_of(around, what, &mut file, output)
}

/// Writes what the policy of a path leaves out of the zones of a list, by an input.
fn policy_zones_of<M: Surroundings, N: Input, W: Sink>(
    around: &M,
    what: (&str, Option<&str>, TextForm),
    zones: &mut N,
    output: &mut W,
) -> ExitCode
    ensures { EndsZonesBy (M.around around.now) what.entry.2 what.entry.0.now (option_map (λ r. r.now) what.entry.1)
        (record { left = N.left zones.old; fine = N.fine zones.old zones.new; failed = N.failed zones.old zones.new })
        (record { old = W.contents output.old; new = W.contents output.new; before = W.failures output.old; after = W.failures output.new })
        (exit_status result) }
{
    let (policy, reader, form) = what;
    let mut policy = NamedFile {
        around,
        path: policy,
    };
    check_status(
        around,
        do_policy_zones(around.alloc(), (reader, form), &mut policy, zones, output),
    )
}

/// The same by the list of a path: standard input, if it is `-`, or a file.
fn policy_zones<M: Surroundings, R: Source, W: Sink>(
    around: &M,
    what: (&str, Option<&str>, TextForm),
    zones: &str,
    input: &mut R,
    output: &mut W,
) -> ExitCode
    ensures { EndsZones (M.around around.now)
        (record { left = R.remaining input.old; rest = R.remaining input.new; before = R.failures input.old; after = R.failures input.new })
        what.entry.2 what.entry.0.now (option_map (λ r. r.now) what.entry.1) zones.now
        (record { old = W.contents output.old; new = W.contents output.new; before = W.failures output.old; after = W.failures output.new })
        (exit_status result) }
{
    if is_standard(zones) {
        return policy_zones_of(around, what, input, output);
    }
    let mut file = NamedFile {
        around,
        path: zones,
    };
    policy_zones_of(around, what, &mut file, output)
}

/// Writes which answers of a zone the policy of a path lets a caller change, by an input.
fn reach_of<M: Surroundings, N: Input, W: Sink>(
    around: &M,
    what: (Reach<'_>, TextForm),
    zone: &mut N,
    output: &mut W,
) -> ExitCode
    ensures { EndsReachBy (M.around around.now) what.entry.1 what.entry.0
        (record { left = N.left zone.old; fine = N.fine zone.old zone.new; failed = N.failed zone.old zone.new })
        (record { old = W.contents output.old; new = W.contents output.new; before = W.failures output.old; after = W.failures output.new })
        (exit_status result) }
{
    let mut policy = NamedFile {
        around,
        path: what.0.policy,
    };
    check_status(
        around,
        do_reach(around.alloc(), what, &mut policy, zone, output),
    )
}

/// The same by the zone that a path names: standard input, if it is `-` or none is given, or a file.
fn reach<M: Surroundings, R: Source, W: Sink>(
    around: &M,
    what: (Reach<'_>, TextForm),
    input: &mut R,
    output: &mut W,
) -> ExitCode
    ensures { EndsReach (M.around around.now)
        (record { left = R.remaining input.old; rest = R.remaining input.new; before = R.failures input.old; after = R.failures input.new })
        what.entry.1 what.entry.0
        (record { old = W.contents output.old; new = W.contents output.new; before = W.failures output.old; after = W.failures output.new })
        (exit_status result) }
{
    let path = what.0.file.unwrap_or("-");
    if is_standard(path) {
        return reach_of(around, what, input, output);
    }
    let mut file = NamedFile { around, path };
    reach_of(around, what, &mut file, output)
}

/// Checks what the words of `check` name.
fn check_job<M: Surroundings, R: Source, W: Sink>(
    around: &M,
    words: Check<'_>,
    input: &mut R,
    output: &mut W,
) -> ExitCode
    ensures { CheckEnds (M.around around.now)
        (record { left = R.remaining input.old; rest = R.remaining input.new; before = R.failures input.old; after = R.failures input.new })
        (record { old = W.contents output.old; new = W.contents output.new; before = W.failures output.old; after = W.failures output.new }) words.entry
        (exit_status result) }
{
    let form = words.form;
    match words.subject {
        CheckSubject::Policy { policy, against } => {
            policy_or_changes(around, form, policy, against, output)
        }
        CheckSubject::PolicyZones {
            policy,
            zones,
            reader,
        } => policy_zones(around, (policy, reader, form), zones, input, output),
        CheckSubject::Expect { policy, file } => {
            expect(around, (policy, form), file, input, output)
        }
        CheckSubject::Reach(words) => reach(around, (words, form), input, output),
        CheckSubject::Isolation { policy, caller } => {
            let wanted = asked(Subject::Isolation(caller), form);
            check_file(around, wanted, policy, output)
        }
        CheckSubject::Rights { policy, name } => {
            check_file(around, asked(Subject::Rights(name), form), policy, output)
        }
        CheckSubject::Zone { origin, rules } => {
            let wanted = asked(Subject::Zone(origin, rules), form);
            check(around, wanted, input, output)
        }
    }
}

/// Whether a path is standard input.
fn is_standard(path: &str) -> bool
    ensures { IsTrue result ↔ (path.now ≡ codes "-") }
{
    path == "-"
}

/// Writes what a diff prints of the zones of two files. A path that is `-` is standard input, of which nothing is left for the second file
/// where the first is it too.
fn diff<M: Surroundings, R: Source, W: Sink>(
    around: &M,
    what: (&str, DiffForm),
    files: ZoneFiles<'_>,
    input: &mut R,
    output: &mut W,
) -> Result<(), DiffFault>
    ensures { DiffersBy (M.around around.now)
        (record
        { left = R.remaining input.old; rest = R.remaining input.new; before = R.failures input.old; after = R.failures input.new }) what.entry.1 what.entry.0.now files.entry
        (record { old = W.contents output.old; new = W.contents output.new; before = W.failures output.old; after = W.failures output.new }) result }
{
    let alloc = around.alloc();
    let mut old = NamedFile {
        around,
        path: files.old,
    };
    let mut new = NamedFile {
        around,
        path: files.new,
    };
    match (is_standard(files.old), is_standard(files.new)) {
        (false, false) => do_diff(alloc, what, &mut old, &mut new, output),
        (false, true) => do_diff(alloc, what, &mut old, input, output),
        (true, false) => do_diff(alloc, what, input, &mut new, output),
        (true, true) => do_diff(alloc, what, input, &mut Ended, output),
    }
}

/// Writes the body of an update, or the bodies of its parts.
fn request<M: Surroundings, I: Input, W: Sink>(
    around: &M,
    id: &str,
    form: RequestForm,
    input: &mut I,
    output: &mut W,
) -> ExitCode
    ensures { EndsTask (I.left input.old) (I.fine input.old input.new) (I.failed input.old input.new) (requested form id.now)
        (record { old = W.contents output.old; new = W.contents output.new; before = W.failures output.old; after = W.failures output.new })
        (exit_status result) }
{
    match form {
        RequestForm::Whole => do_task(around, Request { id }, input, output),
        RequestForm::Split => do_task(around, Split { id }, input, output),
    }
}

/// Does a task with the input that a path names: standard input, if it is `-`, or a file.
fn do_task_of<M: Surroundings, T: Task, R: Source, W: Sink>(
    around: &M,
    task: T,
    path: &str,
    input: &mut R,
    output: &mut W,
) -> ExitCode
    ensures { EndsTaskOf (M.around around.now)
        (record { left = R.remaining input.old; rest = R.remaining input.new; before = R.failures input.old; after = R.failures input.new }) path.now
        (T.answer task)
        (record { old = W.contents output.old; new = W.contents output.new; before = W.failures output.old; after = W.failures output.new })
        (exit_status result) }
{
    if is_standard(path) {
        return do_task(around, task, input, output);
    }
    let mut file = NamedFile { around, path };
    do_task(around, task, &mut file, output)
}

/// Checks the input that a path names: standard input, if it is `-`, or a file.
fn check_of<M: Surroundings, R: Source, W: Sink>(
    around: &M,
    wanted: AskedCheck<'_>,
    path: &str,
    input: &mut R,
    output: &mut W,
) -> ExitCode
    ensures { EndsCheckOf (M.around around.now)
        (record { left = R.remaining input.old; rest = R.remaining input.new; before = R.failures input.old; after = R.failures input.new }) wanted.entry path.now
        (record { old = W.contents output.old; new = W.contents output.new; before = W.failures output.old; after = W.failures output.new })
        (exit_status result) }
{
    if is_standard(path) {
        return check(around, wanted, input, output);
    }
    check_file(around, wanted, path, output)
}

/// Writes what a server answers to the questions of standard input, from the zone of a path.
fn answers<M: Surroundings, R: Source, W: Sink>(
    around: &M,
    words: Answer<'_>,
    input: &mut R,
    output: &mut W,
) -> Result<(), AnswerFault>
    ensures { IsInquiredOf (M.around around.now)
        (record { left = R.remaining input.old; rest = R.remaining input.new; before = R.failures input.old; after = R.failures input.new }) words.entry
        (record { old = W.contents output.old; new = W.contents output.new; before = W.failures output.old; after = W.failures output.new }) result }
{
    let what = (words.origin, words.form);
    if is_standard(words.file) {
        return do_answers(around.alloc(), what, input, &mut Ended, output);
    }
    let mut zone = NamedFile {
        around,
        path: words.file,
    };
    do_answers(around.alloc(), what, input, &mut zone, output)
}

/// Writes what a server answers from the zone of a path: to one question, or to those of standard input.
fn answer<M: Surroundings, R: Source, W: Sink>(
    around: &M,
    words: Answer<'_>,
    input: &mut R,
    output: &mut W,
) -> ExitCode
    ensures { AnswerEnds (M.around around.now)
        (record { left = R.remaining input.old; rest = R.remaining input.new; before = R.failures input.old; after = R.failures input.new }) words.entry
        (record { old = W.contents output.old; new = W.contents output.new; before = W.failures output.old; after = W.failures output.new })
        (exit_status result) }
{
    if is_standard(words.name) {
        return ended(around, answers(around, words, input, output));
    }
    do_task_of(around, words, words.file, input, output)
}

/// Writes what an office with the policy of a path would answer a caller, by an input that has a zone and an update.
fn plan<M: Surroundings, R: Source, W: Sink>(
    around: &M,
    path: &str,
    what: (&str, PlanForm),
    input: &mut R,
    output: &mut W,
) -> ExitCode
    ensures { Ends
        (λ outcome. IsPlanned what.entry.1 what.entry.0.now (named (M.around around.now) path.now)
        (standard (record { left = R.remaining input.old; rest = R.remaining input.new; before = R.failures input.old; after = R.failures input.new }))
        (W.contents output.old) (W.contents output.new) outcome (W.failures output.old) (W.failures output.new))
        (exit_status result) }
{
    let mut policy = NamedFile { around, path };
    ended(
        around,
        do_plan(around.alloc(), what, &mut policy, input, output),
    )
}

/// Writes a policy that the input of a path has, or that is made of it: standard input, if it is `-` or none is given, or a file.
fn policy_text<M: Surroundings, R: Source, W: Sink>(
    around: &M,
    words: PolicyText<'_>,
    input: &mut R,
    output: &mut W,
) -> ExitCode
    ensures { EndsPolicyText (M.around around.now)
        (record { left = R.remaining input.old; rest = R.remaining input.new; before = R.failures input.old; after = R.failures input.new })
        (record { old = W.contents output.old; new = W.contents output.new; before = W.failures output.old; after = W.failures output.new }) words.entry
        (exit_status result) }
{
    let path = words.file.unwrap_or("-");
    let wanted = AskedCheck {
        subject: Subject::Printed(words.source, words.zones),
        form: TextForm::Plain,
    };
    check_of(around, wanted, path, input, output)
}

/// Does a job that needs no store, with standard input and output. The status is 0 if it went through, and a check found nothing; else
/// 1.
pub fn do_text_job<M: Surroundings, R: Source, W: Sink>(
    around: &M,
    job: TextJob<'_>,
    input: &mut R,
    output: &mut W,
) -> ExitCode
    // Each job reads its own input and answers to its own words.
    ensures { TextJobEnds (M.around around.now)
        (record { left = R.remaining input.old; rest = R.remaining input.new; before = R.failures input.old; after = R.failures input.new })
        (record { old = W.contents output.old; new = W.contents output.new; before = W.failures output.old; after = W.failures output.new }) job.entry
        (exit_status result) }
{
    match job {
        TextJob::Apply => do_task(around, Apply, input, output),
        TextJob::Canon(words) => do_task(around, words, input, output),
        TextJob::Diff(words) => {
            let what = (words.origin, words.form);
            ended(around, diff(around, what, words.files, input, output))
        }
        TextJob::Request(words) => request(around, words.id, words.form, input, output),
        TextJob::Rights(words) => {
            let mut policy = NamedFile {
                around,
                path: words.policy,
            };
            do_task(around, words, &mut policy, output)
        }
        TextJob::Plan(words) => {
            let what = (words.caller, words.form);
            plan(around, words.policy, what, input, output)
        }
        TextJob::Check(words) => check_job(around, words, input, output),
        TextJob::Policy(words) => policy_text(around, words, input, output),
        TextJob::Answer(words) => answer(around, words, input, output),
        TextJob::Reverse(words) => {
            let wanted = asked(Subject::Reverse(words.origin), TextForm::Plain);
            check_of(around, wanted, words.file, input, output)
        }
        TextJob::Split(words) => do_task_of(around, words, words.file, input, output),
        TextJob::Explain(words) => do_task(around, words, &mut Ended, output),
    }
}

/// What a job hands back, if anything, and the exit status of what was done.
fn left<M: Surroundings, C: Drop, F: Display + Drop>(
    around: &M,
    done: (Option<C>, Result<(), F>),
) -> (Option<C>, ExitCode)
    ensures left { result.0 ≡ done.0 }
    ensures status { exit_status result.1 ≡ status_of done.1 }
{
    let (conn, done) = done;
    (conn, ended(around, done))
}

/// Puts the zones of a list into a store, by the list of a path: standard input, if it is `-`, or a file.
fn import_list<M: Surroundings, S: Alter + Drop, P: StoreFiles<S> + Drop, R: Source, W: Sink>(
    around: &M,
    files: P,
    words: ImportList<'_>,
    input: &mut R,
    output: &mut W,
) -> (Option<Connection<S>>, Result<(), JobFault>)
    ensures { OfInput (M.around around.now)
        (record { left = R.remaining input.old; rest = R.remaining input.new; before = R.failures input.old; after = R.failures input.new })
        words.entry.list.now
        (λ list. ListImported (M.around around.now) (stores_of (state S.Store) (P.finds files) (P.refuses files) (P.connects files)) words.entry list result.0
        (record { old = W.contents output.old; new = W.contents output.new; before = W.failures output.old; after = W.failures output.new }) result.1) }
{
    let path = words.list;
    if is_standard(path) {
        return import_all(around, files, words, input, output);
    }
    let mut file = NamedFile { around, path };
    import_all(around, files, words, &mut file, output)
}

/// Does a job with a store, by the files of stores, with standard input and output and a trace. The connection to the store is handed
/// back, if one was made.
fn done<M: Surroundings, S: Alter + Drop, P: StoreFiles<S> + Drop, R: Source, W: Sink, E: Sink>(
    around: &M,
    files: P,
    job: StoreJob<'_>,
    input: &mut R,
    output: &mut W,
    trace: &mut E,
) -> (Option<Connection<S>>, Result<(), JobFault>)
    ensures { StoreJobEnds (M.around around.now)
        (record { cut = M.Listener.cut; gives = M.Listener.gives; ends = M.Listener.ends; flow = M.Listener.Peer.flow; times = M.Listener.Peer.times })
        (stores_of (state S.Store) (P.finds files) (P.refuses files) (P.connects files))
        (record { left = R.remaining input.old; rest = R.remaining input.new; before = R.failures input.old; after = R.failures input.new })
        (record { old = W.contents output.old; new = W.contents output.new; before = W.failures output.old; after = W.failures output.new })
        (record { old = E.contents trace.old; new = E.contents trace.new; before = E.failures trace.old; after = E.failures trace.new }) job.entry result.0
        (status_of result.1) }
{
    let alloc = around.alloc();
    match job {
        StoreJob::Import(words) => {
            import(alloc, files, (words.zone, words.existing), input, output)
        }
        StoreJob::ImportList(words) => import_list(around, files, words, input, output),
        StoreJob::Export(words) => export_by(alloc, files, words, output),
        StoreJob::Zones(words) => list_zones(alloc, files, words.store, output),
        StoreJob::Log(words) => log(alloc, files, words.zone, words.choice, output),
        StoreJob::Blame(words) => blame_by(alloc, files, words, output),
        StoreJob::Undo(words) => undo(alloc, files, words, output),
        StoreJob::Migrate(words) => migrate(alloc, files, words.store, output),
        StoreJob::Remove(words) => remove(alloc, files, words.zone, output),
        StoreJob::Serve(service) => serve(around, files, service, output, trace),
    }
}

/// Does a job with a store, by the files of stores, with standard input and output and a trace. The status is 0 if it went through, else
/// 1. The connection to the store is handed back, if one was made.
pub fn do_store_job<
    M: Surroundings,
    S: Alter + Drop,
    P: StoreFiles<S> + Drop,
    R: Source,
    W: Sink,
    E: Sink,
>(
    around: &M,
    files: P,
    job: StoreJob<'_>,
    input: &mut R,
    output: &mut W,
    trace: &mut E,
) -> (Option<Connection<S>>, ExitCode)
    // Each job answers to its own words, and what the connection shows is what it left of the store of its path.
    ensures { StoreJobEnds (M.around around.now)
        (record { cut = M.Listener.cut; gives = M.Listener.gives; ends = M.Listener.ends; flow = M.Listener.Peer.flow; times = M.Listener.Peer.times })
        (stores_of (state S.Store) (P.finds files) (P.refuses files) (P.connects files))
        (record { left = R.remaining input.old; rest = R.remaining input.new; before = R.failures input.old; after = R.failures input.new })
        (record { old = W.contents output.old; new = W.contents output.new; before = W.failures output.old; after = W.failures output.new })
        (record { old = E.contents trace.old; new = E.contents trace.new; before = E.failures trace.old; after = E.failures trace.new }) job.entry result.0
        (exit_status result.1) }
{
    left(around, done(around, files, job, input, output, trace))
}

/// Does a job, with standard input and output, a trace, and the files of stores. The connection to the store that it reached is handed
/// back, if it made one.
pub fn do_job<
    M: Surroundings,
    S: Alter + Drop,
    P: StoreFiles<S> + Drop,
    R: Source,
    W: Sink,
    E: Sink,
>(
    around: &M,
    files: P,
    job: Job<'_>,
    input: &mut R,
    output: &mut W,
    trace: &mut E,
) -> (Option<Connection<S>>, ExitCode)
    ensures { JobEnds (M.around around.now)
        (record { cut = M.Listener.cut; gives = M.Listener.gives; ends = M.Listener.ends; flow = M.Listener.Peer.flow; times = M.Listener.Peer.times })
        (stores_of (state S.Store) (P.finds files) (P.refuses files) (P.connects files))
        (record { left = R.remaining input.old; rest = R.remaining input.new; before = R.failures input.old; after = R.failures input.new })
        (record { old = W.contents output.old; new = W.contents output.new; before = W.failures output.old; after = W.failures output.new })
        (record { old = E.contents trace.old; new = E.contents trace.new; before = E.failures trace.old; after = E.failures trace.new }) job.entry result.0
        (exit_status result.1) }
{
    match job {
        Job::Text(job) => (None, do_text_job(around, job, input, output)),
        Job::Store(job) => do_store_job(around, files, job, input, output, trace),
    }
}

/// Writes a text, and answers whether it went out whole.
fn told<W: Sink>(output: &mut W, text: &str) -> ExitCode
    ensures { IsToldWhole text.now
        (record { old = W.contents output.old; new = W.contents output.new; before = W.failures output.old; after = W.failures output.new })
        (exit_status result) }
{
    match write_text(output, text.as_bytes()) {
        Ok(()) => ExitCode::SUCCESS,
        Err(_) => ExitCode::FAILURE,
    }
}

/// Tells why words are no job: the help that they ask for is written to standard output, with status 0 if that went through and else 1;
/// what is wrong with them is said on standard error, with status 2.
fn tell_fault<M: Surroundings, W: Sink>(around: &M, fault: WordsFault, output: &mut W) -> ExitCode
    ensures { EndsFault fault
        (record { old = W.contents output.old; new = W.contents output.new; before = W.failures output.old; after = W.failures output.new })
        (exit_status result) }
{
    match fault {
        WordsFault::Help(text) => told(output, text.as_str()),
        WordsFault::Misused(text) => {
            around.say(text.as_str().strip_suffix('\n').unwrap_or(text.as_str()));
            ExitCode::from(2)
        }
        WordsFault::NoMemory => {
            let _ = told(output, NO_MEMORY_LINE);
            ExitCode::FAILURE
        }
    }
}

/// Does the job that words ask for. If they ask for help, it is written to standard output, with status 0 if that went through and
/// else 1; if they ask for no job, what is wrong with them is said on standard error, with status 2. The connection to the store that
/// the job reached is handed back, if it made one.
pub fn do_words<
    M: Surroundings,
    S: Alter + Drop,
    P: StoreFiles<S> + Drop,
    R: Source,
    W: Sink,
    E: Sink,
>(
    around: &M,
    files: P,
    words: &[&str],
    input: &mut R,
    output: &mut W,
    trace: &mut E,
) -> (Option<Connection<S>>, ExitCode)
    ensures { WordsEnd (M.around around.now)
        (record { cut = M.Listener.cut; gives = M.Listener.gives; ends = M.Listener.ends; flow = M.Listener.Peer.flow; times = M.Listener.Peer.times })
        (stores_of (state S.Store) (P.finds files) (P.refuses files) (P.connects files))
        (record { left = R.remaining input.old; rest = R.remaining input.new; before = R.failures input.old; after = R.failures input.new })
        (record { old = W.contents output.old; new = W.contents output.new; before = W.failures output.old; after = W.failures output.new })
        (record { old = E.contents trace.old; new = E.contents trace.new; before = E.failures trace.old; after = E.failures trace.new })
        (map (λ s. s.now) words.now) result.0 (exit_status result.1) }
{
    match read_words(around.alloc(), words) {
        Ok(job) => do_job(around, files, job, input, output, trace),
        Err(fault) => (None, tell_fault(around, fault, output)),
    }
}
