//! What the words of a command line ask for.

use cli_core::{
    Advice, Answer, BlameForm, CheckSubject, DiffContent, Existing, GuardScope, ItemForm, Job,
    LogChoice, PlanForm, PlanLines, PlanObject, PolicySource, PolicyText, QuestionWords, Reach,
    ReachContent, RequestForm, RuleChoice, Service, Split, StoreJob, StoredZone, TextForm, TextJob,
    WordsFault, ZoneFiles, ZoneForm, ZoneRules, read_words,
};
use dns_master::FilePart;
use std::alloc::{AllocError, Global};
use test_rows::Row;

/// Appends the answer to a row of words.
pub fn push_words_answer(
    alloc: Global,
    row: &Row<'_>,
    answer: &mut Vec<u8>,
) -> Result<(), AllocError> {
    let words = words_of(alloc, &row.text)?;
    push_read(alloc, row.verb, &read_words(alloc, &words), answer)
}

/// The words of a text, which is one of ASCII.
fn words_of(alloc: Global, text: &[u8]) -> Result<Vec<&str>, AllocError> {
    match str::from_utf8(text) {
        Ok(text) if !text.is_empty() => text.split('|').collect(alloc),
        _ => Ok(Vec::new(alloc)),
    }
}

fn push(text: &str, answer: &mut Vec<u8>) -> Result<(), AllocError> {
    answer.extend_from_slice(text.as_bytes())
}

fn push_all(texts: &[&str], answer: &mut Vec<u8>) -> Result<(), AllocError> {
    for text in texts {
        push(text, answer)?;
    }
    Ok(())
}

fn push_read(
    alloc: Global,
    verb: &str,
    read: &Result<Job<'_>, WordsFault>,
    answer: &mut Vec<u8>,
) -> Result<(), AllocError> {
    match (verb, read) {
        ("job", Ok(job)) => push_job(alloc, job, answer),
        ("job", Err(fault)) => push(kind_of(fault), answer),
        ("text", Ok(_)) => push("a job", answer),
        ("text", Err(fault)) => push(text_of(fault), answer),
        _ => push("no such verb", answer),
    }
}

fn kind_of(fault: &WordsFault) -> &'static str {
    match fault {
        WordsFault::Help(_) => "help",
        WordsFault::Misused(_) => "misused",
        WordsFault::NoMemory => "no memory",
    }
}

fn text_of(fault: &WordsFault) -> &str {
    match fault {
        WordsFault::Help(text) => text.as_str(),
        WordsFault::Misused(text) => text.as_str(),
        WordsFault::NoMemory => "no memory",
    }
}

/// Appends what a job was told by the words.
fn push_job(alloc: Global, job: &Job<'_>, answer: &mut Vec<u8>) -> Result<(), AllocError> {
    match job {
        Job::Text(job) => push_text_job(alloc, job, answer),
        Job::Store(job) => push_store_job(alloc, job, answer),
    }
}

fn push_text_job(alloc: Global, job: &TextJob<'_>, answer: &mut Vec<u8>) -> Result<(), AllocError> {
    match job {
        TextJob::Apply => push("apply", answer),
        TextJob::Canon(words) => {
            push_given("canon", words.origin, form_text(words.form), answer)
        }
        TextJob::Diff(words) => {
            push_diff(
                words.origin,
                &words.files,
                diff_text(words.form.content),
                answer,
            )?;
            push(json_text(words.form.text), answer)
        }
        TextJob::Request(words) => {
            push_given("request", words.id, request_text(words.form), answer)
        }
        TextJob::Rights(words) => {
            push_question(words.policy, &words.asked, answer)?;
            push(json_text(words.form), answer)
        }
        TextJob::Plan(words) => {
            push_plan(words.policy, words.caller, plan_text(words.form), answer)
        }
        TextJob::Check(words) => {
            push_check(alloc, &words.subject, answer)?;
            push(json_text(words.form), answer)
        }
        TextJob::Policy(words) => push_policy(words, answer),
        TextJob::Answer(words) => push_inquiry(words, answer),
        TextJob::Reverse(words) => {
            push_all(&["reverse (", words.origin, ") (", words.file, ")"], answer)
        }
        TextJob::Split(words) => push_part(words, answer),
        TextJob::Explain(words) => push_explain(words.number, words.form, answer),
    }
}

/// Appends which policy is printed.
fn push_policy(words: &PolicyText<'_>, answer: &mut Vec<u8>) -> Result<(), AllocError> {
    let source = match words.source {
        PolicySource::Groups => "policy of groups",
        PolicySource::Rules => "policy of rules",
    };
    push(source, answer)?;
    push_if_given(words.file, answer)?;
    push_named(" zones", words.zones, answer)
}

/// Appends what a server is asked.
fn push_inquiry(words: &Answer<'_>, answer: &mut Vec<u8>) -> Result<(), AllocError> {
    let name = words.name;
    push_all(
        &[
            "answer (",
            words.origin,
            ") (",
            words.file,
            ") (",
            name,
            ")",
        ],
        answer,
    )?;
    push_if_given(words.asked, answer)?;
    push_all(&[text_form(words.form)], answer)
}

/// Appends texts, and a word, if one is given.
fn push_with(texts: &[&str], given: Option<&str>, answer: &mut Vec<u8>) -> Result<(), AllocError> {
    push_all(texts, answer)?;
    push_if_given(given, answer)
}

/// Appends of which answers it is asked whether a caller can change them.
fn push_reach(words: &Reach<'_>, answer: &mut Vec<u8>) -> Result<(), AllocError> {
    let (policy, caller, origin) = (words.policy, words.caller, words.origin);
    let texts = ["check reach (", policy, ") (", caller, ") (", origin, ")"];
    push_with(&texts, words.file, answer)?;
    match words.content {
        ReachContent::Groups => Ok(()),
        ReachContent::Examples => push(" examples", answer),
    }
}

/// The word of a part.
const fn part_text(part: FilePart) -> &'static str {
    match part {
        FilePart::Kept => " kept",
        FilePart::Signer => " signer",
        FilePart::Rest => " rest",
    }
}

/// Appends which part of a master file is printed.
fn push_part(words: &Split<'_>, answer: &mut Vec<u8>) -> Result<(), AllocError> {
    push_all(&["split (", words.origin, ") (", words.file, ")"], answer)?;
    push(part_text(words.part), answer)
}

fn push_check(
    alloc: Global,
    subject: &CheckSubject<'_>,
    answer: &mut Vec<u8>,
) -> Result<(), AllocError> {
    match subject {
        CheckSubject::Policy { policy, against } => {
            push_with(&["check policy (", policy, ")"], *against, answer)
        }
        CheckSubject::PolicyZones {
            policy,
            zones,
            reader,
        } => {
            push_all(&["check policy (", policy, ") zones (", zones, ")"], answer)?;
            push_named(" reader", *reader, answer)
        }
        CheckSubject::Expect { policy, file } => {
            push_with(&["check expect (", policy, ")"], *file, answer)
        }
        CheckSubject::Isolation { policy, caller } => {
            push_all(&["check isolation (", policy, ") (", caller, ")"], answer)
        }
        CheckSubject::Reach(words) => push_reach(words, answer),
        CheckSubject::Rights { policy, name } => {
            push_with(&["check rights (", policy, ")"], *name, answer)
        }
        CheckSubject::Zone { origin, rules } => {
            push_all(&["check zone (", origin, ")"], answer)?;
            push_zone_rules(alloc, rules, answer)
        }
    }
}

/// The word of what records are printed with.
const fn blame_text(form: BlameForm) -> &'static str {
    match form {
        BlameForm::Changes => "",
        BlameForm::Receipts => " receipts",
    }
}

fn push_store_job(
    alloc: Global,
    job: &StoreJob<'_>,
    answer: &mut Vec<u8>,
) -> Result<(), AllocError> {
    match job {
        StoreJob::Import(words) => push_zone(
            "import",
            &words.zone,
            existing_text(words.existing),
            answer,
        ),
        StoreJob::ImportList(words) => {
            push_given("import", words.store, "", answer)?;
            push_given(" list", words.list, existing_text(words.existing), answer)
        }
        StoreJob::Export(words) => {
            push_zone("export", &words.zone, form_text(words.form), answer)?;
            push_number(alloc, " at ", words.at, answer)
        }
        StoreJob::Zones(words) => push_given("zones", words.store, "", answer),
        StoreJob::Log(words) => push_log(alloc, &words.zone, &words.choice, answer),
        StoreJob::Blame(words) => {
            push_zone("blame", &words.zone, blame_text(words.form), answer)?;
            push_named(" name", words.name, answer)
        }
        StoreJob::Undo(words) => {
            push_zone("undo", &words.zone, "", answer)?;
            push_number(alloc, " change ", words.first, answer)?;
            push_number(alloc, " to ", words.last, answer)
        }
        StoreJob::Migrate(words) => push_given("migrate", words.store, "", answer),
        StoreJob::Remove(words) => push_zone("remove", &words.zone, "", answer),
        StoreJob::Serve(service) => push_service(alloc, service, answer),
    }
}

/// Appends a word, if one is given.
fn push_if_given(given: Option<&str>, answer: &mut Vec<u8>) -> Result<(), AllocError> {
    match given {
        Some(word) => push_all(&[" (", word, ")"], answer),
        None => Ok(()),
    }
}

/// Appends by which rules a zone is checked.
fn push_choice(rules: RuleChoice<'_>, answer: &mut Vec<u8>) -> Result<(), AllocError> {
    match rules {
        RuleChoice::All => Ok(()),
        RuleChoice::Only(rule) => push_all(&[" only (", rule, ")"], answer),
        RuleChoice::Not(rule) => push_all(&[" not (", rule, ")"], answer),
    }
}

/// Appends by what a zone is checked.
fn push_zone_rules(
    alloc: Global,
    rules: &ZoneRules<'_>,
    answer: &mut Vec<u8>,
) -> Result<(), AllocError> {
    push_choice(rules.choice, answer)?;
    push_named(" server", rules.server, answer)?;
    push_number(alloc, " most ", rules.most, answer)?;
    match rules.advice {
        Advice::Unasked => Ok(()),
        Advice::Wanted => push_all(&[" warn"], answer),
    }
}

/// Appends the word of a job, what it was given, and an end.
fn push_given(word: &str, given: &str, end: &str, answer: &mut Vec<u8>) -> Result<(), AllocError> {
    push_all(&[word, " (", given, ")", end], answer)
}

fn push_diff(
    origin: &str,
    files: &ZoneFiles<'_>,
    end: &str,
    answer: &mut Vec<u8>,
) -> Result<(), AllocError> {
    push_all(
        &[
            "diff (", origin, ") (", files.old, ") (", files.new, ")", end,
        ],
        answer,
    )
}

fn push_plan(
    policy: &str,
    caller: &str,
    end: &str,
    answer: &mut Vec<u8>,
) -> Result<(), AllocError> {
    push_all(&["plan (", policy, ") (", caller, ")", end], answer)
}

fn plan_text(form: PlanForm) -> &'static str {
    match form {
        PlanForm::Lines(PlanLines::Records) => "",
        PlanForm::Lines(PlanLines::Answers) => " answers",
        PlanForm::Lines(PlanLines::Explained) => " explained",
        PlanForm::Object(PlanObject::Reply) => " json",
        PlanForm::Object(PlanObject::Answers) => " answers json",
        PlanForm::Object(PlanObject::Explained) => " explained json",
    }
}

fn request_text(form: RequestForm) -> &'static str {
    match form {
        RequestForm::Whole => "",
        RequestForm::Split => " split",
    }
}

/// Appends a zone of a store, and which of its changes and receipts are asked for.
fn push_log(
    alloc: Global,
    zone: &StoredZone<'_>,
    choice: &LogChoice<'_>,
    answer: &mut Vec<u8>,
) -> Result<(), AllocError> {
    push_zone("log", zone, "", answer)?;
    push_number(alloc, " from ", choice.from, answer)?;
    push_named(" name", choice.name, answer)?;
    push_named(" caller", choice.caller, answer)?;
    push(json_text(choice.form), answer)
}

/// Appends what a word is, and the word, if one is given.
fn push_named(name: &str, given: Option<&str>, answer: &mut Vec<u8>) -> Result<(), AllocError> {
    match given {
        Some(word) => push_all(&[name, " (", word, ")"], answer),
        None => Ok(()),
    }
}

fn diff_text(content: DiffContent) -> &'static str {
    match content {
        DiffContent::Items(ItemForm::Bare) => "",
        DiffContent::Items(ItemForm::Guarded(GuardScope::Names)) => " guarded",
        DiffContent::Items(ItemForm::Guarded(GuardScope::Sets)) => " guarded by sets",
        DiffContent::Answers => " answers",
    }
}

fn existing_text(existing: Existing) -> &'static str {
    match existing {
        Existing::Kept => " kept",
        Existing::Replaced => " replaced",
    }
}

fn push_zone(
    verb: &str,
    zone: &StoredZone<'_>,
    end: &str,
    answer: &mut Vec<u8>,
) -> Result<(), AllocError> {
    push_all(
        &[verb, " (", zone.store, ") (", zone.origin, ")", end],
        answer,
    )
}

fn form_text(form: ZoneForm) -> &'static str {
    match form {
        ZoneForm::Whole => "",
        ZoneForm::Relative => " relative",
    }
}

fn push_explain(
    number: Option<&str>,
    form: TextForm,
    answer: &mut Vec<u8>,
) -> Result<(), AllocError> {
    match number {
        Some(number) => push_given("explain", number, text_form(form), answer),
        None => {
            push("explain all", answer)?;
            push(text_form(form), answer)
        }
    }
}

fn text_form(form: TextForm) -> &'static str {
    match form {
        TextForm::Plain => " plain",
        TextForm::Json => " json",
    }
}

/// What is told of a form that is plain if nothing is.
fn json_text(form: TextForm) -> &'static str {
    match form {
        TextForm::Plain => "",
        TextForm::Json => " json",
    }
}

fn push_question(
    policy: &str,
    asked: &QuestionWords<'_>,
    answer: &mut Vec<u8>,
) -> Result<(), AllocError> {
    push_all(&["rights (", policy, ") (", asked.caller], answer)?;
    push_all(&[") (", asked.name, ") (", asked.record_type], answer)?;
    push_all(&[") (", asked.action, ")"], answer)
}

fn push_service(
    alloc: Global,
    service: &Service<'_>,
    answer: &mut Vec<u8>,
) -> Result<(), AllocError> {
    push_all(&["serve (", service.store, ") (", service.policy], answer)?;
    push_all(&[") (", service.listen, ")"], answer)?;
    push_number(alloc, " ", service.connections, answer)?;
    push_number(alloc, " patience ", service.patience, answer)?;
    push_number(alloc, " longest ", service.longest, answer)?;
    push_number(alloc, " memory ", service.memory, answer)
}

/// Appends a number after a word where one was given.
fn push_number(
    alloc: Global,
    word: &str,
    number: Option<u64>,
    answer: &mut Vec<u8>,
) -> Result<(), AllocError> {
    match number {
        None => Ok(()),
        Some(number) => push(format!(in alloc; "{word}{number}")?.as_str(), answer),
    }
}
