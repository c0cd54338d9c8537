//! What is said on standard error of a master file beside its refusal: a byte order mark before it, and the type that is not kept.

use crate::beginning::Beginning;
use crate::kept_files::KeptFile;
use crate::surroundings::Surroundings;
use cli_core::{CheckSubject, Job, StoreJob, TextJob, read_words};
use dns_data::{DataFault, RecordType};
use dns_master::{MasterFault, Token, read_file, tokens};
use dns_names::Name;
use std::alloc::Global;
use std::process::ExitCode;

/// U+FEFF in UTF-8 (RFC 3629 section 6).
const BYTE_ORDER_MARK: &[u8] = &[0xEF, 0xBB, 0xBF];

/// The most octets of a type that are said: no type of the registry has as many.
const TYPE_MAX: usize = 32;

/// The beginning of a master file that a command read.
#[derive(Clone, Copy)]
struct Input<'a> {
    /// The origin that the command names.
    origin: &'a str,
    /// The file as the command names it.
    file: &'a str,
    text: &'a [u8],
}

/// Whether an item stands at the beginning of its line, so that it is an owner or a directive (RFC 1035 section 5.1).
fn is_owner(text: &[u8], token: &Token<'_>) -> bool {
    match token.start.checked_sub(1) {
        Some(before) => text.get(before) == Some(&b'\n'),
        None => true,
    }
}

/// Whether an item is a TTL or a class before a type (RFC 1035 section 5.1).
fn is_before_type(raw: &[u8]) -> bool {
    let is_ttl = matches!(raw.first(), Some(b'0'..=b'9'));
    let is_class = ["IN", "CS", "CH", "HS"]
        .iter()
        .any(|class| raw.eq_ignore_ascii_case(class.as_bytes()));
    is_ttl || is_class
}

/// The type of the entry that begins on a line.
fn type_on_line<'a>(text: &[u8], items: &[Token<'a>], line: usize) -> Option<&'a [u8]> {
    let first = items.iter().find(|token| token.line == line)?;
    items
        .iter()
        .filter(|token| token.entry == first.entry)
        .filter(|token| token.start != first.start || !is_owner(text, token))
        .map(|token| token.item.raw)
        .find(|raw| !is_before_type(raw))
}

/// Says that a type on a line is not kept, or that data of it in the generic form are not.
fn tell_type<M: Surroundings>(around: &M, line: usize, name: &str) {
    let why = match RecordType::read(name.as_bytes()) {
        Ok(_) => " in the generic form (RFC 3597) is not kept",
        Err(_) => " is not kept; zoneoffice split puts such records aside",
    };
    if let Ok(words) = format!(in around.alloc(); "zoneoffice: line {line}: {name}{why}") {
        around.say(words.as_str());
    }
}

/// Says which type of a text on a line is not kept.
fn tell_type_on_line<M: Surroundings>(around: &M, text: &[u8], line: usize) {
    let Ok(items) = tokens(around.alloc(), text) else {
        return;
    };
    let Some(raw) = type_on_line(text, &items, line) else {
        return;
    };
    if raw.len() > TYPE_MAX || !raw.iter().all(u8::is_ascii_graphic) {
        return;
    }
    if let Ok(name) = str::from_utf8(raw) {
        tell_type(around, line, name);
    }
}

/// Says which type a master file has that is not kept, if that is why it is refused.
fn tell_refused_type<M: Surroundings>(around: &M, input: Input<'_>) {
    let Ok(origin) = Name::read_absolute(around.alloc(), input.origin.as_bytes()) else {
        return;
    };
    if let Err(
        MasterFault::Data {
            line,
            fault: DataFault::TypeNotKept,
        },
    ) = read_file(around.alloc(), input.text, &origin)
    {
        tell_type_on_line(around, input.text, line);
    }
}

/// Whether an input begins with a byte order mark.
fn is_marked(text: &[u8]) -> bool {
    text.starts_with(BYTE_ORDER_MARK)
}

/// Says what is known of a master file beside its refusal, if it was refused.
fn tell<M: Surroundings>(around: &M, input: Input<'_>, status: ExitCode) {
    if is_marked(input.text) {
        let file = input.file;
        if let Ok(words) = format!(in around.alloc();
            "zoneoffice: {file} begins with a byte order mark, which is read as a part of its first item"
        ) {
            around.say(words.as_str());
        }
    }
    if status != ExitCode::SUCCESS {
        tell_refused_type(around, input);
    }
}

/// What a job reads as master files.
#[derive(Clone, Copy)]
struct Masters<'a> {
    /// The origin of their zones.
    origin: &'a str,
    /// The path of a file that it reads as a policy, if there is one.
    policy: Option<&'a str>,
}

/// Master files of an origin, beside which no policy is read.
const fn only_masters(origin: &str) -> Masters<'_> {
    Masters {
        origin,
        policy: None,
    }
}

/// What a check reads as master files, if anything.
fn checked_masters(subject: CheckSubject<'_>) -> Option<Masters<'_>> {
    match subject {
        CheckSubject::Zone { origin, .. } => Some(only_masters(origin)),
        CheckSubject::Reach(words) => Some(Masters {
            origin: words.origin,
            policy: Some(words.policy),
        }),
        _ => None,
    }
}

/// What a job reads as master files, if anything.
fn masters_of(job: Job<'_>) -> Option<Masters<'_>> {
    match job {
        Job::Text(TextJob::Canon(words)) => Some(only_masters(words.origin)),
        Job::Text(TextJob::Diff(words)) => Some(only_masters(words.origin)),
        Job::Text(TextJob::Check(words)) => checked_masters(words.subject),
        Job::Store(StoreJob::Import(words)) => Some(only_masters(words.zone.origin)),
        Job::Text(_) | Job::Store(_) => None,
    }
}

/// Whether there may be something to say of what a job read.
fn may_tell(files: &[KeptFile], standard: &Beginning, status: ExitCode) -> bool {
    status != ExitCode::SUCCESS
        || is_marked(standard.octets())
        || files
            .iter()
            .any(|file| is_marked(file.beginning().octets()))
}

/// Says on standard error what is known of the master files that a job read, beside their refusal: that one begins with a byte order
/// mark, and of which type the record is that is not kept. `files` are those that the words name, `standard` is the beginning of
/// standard input, and `status` how the job ended.
pub(crate) fn tell_hints<M: Surroundings>(
    around: &M,
    words: &[&str],
    files: &[KeptFile],
    standard: &Beginning,
    status: ExitCode,
) {
    // Most jobs end here, so their words are read only once.
    if !may_tell(files, standard, status) {
        return;
    }
    let Ok(job) = read_words(around.alloc(), words) else {
        return;
    };
    let Some(Masters { origin, policy }) = masters_of(job) else {
        return;
    };
    for file in files.iter().filter(|file| Some(file.path()) != policy) {
        let input = Input {
            origin,
            file: file.path(),
            text: file.beginning().octets(),
        };
        tell(around, input, status);
    }
    let input = Input {
        origin,
        file: "standard input",
        text: standard.octets(),
    };
    tell(around, input, status);
}
