//! The lines of a report as objects of JSON, whose members have words of the lines.

ghost use Rattle.std.specs.Prelude.{◌≡◌, ◌++◌, ◌∷◌, [], IfOk, OnOk, drop, map};
ghost use Rattle.std.specs.List.{flat_map, join_with_byte};
ghost use Rattle.wire_json.specs.Json.{quoted, array, member};
ghost use Rattle.policy_tools.specs.ExpectationLines.{lines_of};
ghost use Rattle.cli_text.specs.LineObjects.{members_of, member_in, item_members, words_of, place_of, value_at, member_if, is_granted, object_by, first_of, line_object, line_value, objects_array, objects_text, in_form, each_after};

use cli_core::TextForm;
use policy_tools::lines_of;
use std::alloc::{AllocError, Global};
use wire_json::push_quoted;

/// Of what the lines of a report are.
#[derive(Clone, Copy)]
pub enum LineKind {
    /// Of rules that never decide.
    IdleRules,
    /// Of what a policy changes.
    Changes,
    /// Of what a policy leaves out of zones.
    Zones,
    /// Of what is expected and is not so.
    Expectations,
    /// Of what keeps a caller from being isolated.
    Isolation,
    /// Of who may do what.
    Rights,
    /// Of questions.
    Questions,
    /// Of records that are at fault.
    Findings,
    /// Of the items of an update.
    Items,
    /// Of something else.
    Others,
}

/// What a member has of the words of a line, which are counted from 0.
#[derive(Clone, Copy)]
pub enum Part {
    /// A word, as a string.
    Word(usize),
    /// A word, as a number.
    Number(usize),
    /// Whether a word is `granted`.
    Granted(usize),
    /// The words from one on, as one string.
    Rest(usize),
    /// The words from one on, as an array of strings.
    Words(usize),
}

impl Part {
    /// The place of its first word.
    const fn place(self) -> usize
        ensures { result ≡ place_of self }
    {
        match self {
            Part::Word(place)
            | Part::Number(place)
            | Part::Granted(place)
            | Part::Rest(place)
            | Part::Words(place) => place,
        }
    }
}

/// A member of an object.
#[derive(Clone, Copy)]
pub struct Member {
    key: &'static str,
    part: Part,
}

/// `idle NUMBER ID TAKER ..`
static IDLE: [Member; 4] = [
    Member {
        key: "found",
        part: Part::Word(0),
    },
    Member {
        key: "number",
        part: Part::Number(1),
    },
    Member {
        key: "rule",
        part: Part::Word(2),
    },
    Member {
        key: "takers",
        part: Part::Words(3),
    },
];

/// `SCOPE NAME CALLER gives ACTION TYPE ..`, with `takes`, and `SCOPE NAME CALLER same`
static CHANGE: [Member; 6] = [
    Member {
        key: "action",
        part: Part::Word(4),
    },
    Member {
        key: "caller",
        part: Part::Word(2),
    },
    Member {
        key: "change",
        part: Part::Word(3),
    },
    Member {
        key: "name",
        part: Part::Word(1),
    },
    Member {
        key: "scope",
        part: Part::Word(0),
    },
    Member {
        key: "types",
        part: Part::Words(5),
    },
];

/// `stray ID`
static STRAY: [Member; 2] = [
    Member {
        key: "found",
        part: Part::Word(0),
    },
    Member {
        key: "rule",
        part: Part::Word(1),
    },
];

/// `unspoken ORIGIN`, `hidden ORIGIN NAME TYPE`
static ZONE: [Member; 4] = [
    Member {
        key: "found",
        part: Part::Word(0),
    },
    Member {
        key: "name",
        part: Part::Word(2),
    },
    Member {
        key: "origin",
        part: Part::Word(1),
    },
    Member {
        key: "type",
        part: Part::Word(3),
    },
];

/// `differs LINE granted RULE`, with `denied`
static DIFFERENCE: [Member; 4] = [
    Member {
        key: "found",
        part: Part::Word(0),
    },
    Member {
        key: "granted",
        part: Part::Granted(2),
    },
    Member {
        key: "line",
        part: Part::Number(1),
    },
    Member {
        key: "rule",
        part: Part::Word(3),
    },
];

/// `exceeds LINE CALLER NAME TYPE ACTION RULE`
static EXCESS: [Member; 7] = [
    Member {
        key: "action",
        part: Part::Word(5),
    },
    Member {
        key: "caller",
        part: Part::Word(2),
    },
    Member {
        key: "found",
        part: Part::Word(0),
    },
    Member {
        key: "line",
        part: Part::Number(1),
    },
    Member {
        key: "name",
        part: Part::Word(3),
    },
    Member {
        key: "rule",
        part: Part::Word(6),
    },
    Member {
        key: "type",
        part: Part::Word(4),
    },
];

/// `isolated`, `soa NAME TYPE ACTION RULE`, `shared NAME TYPE ACTION RULE OTHER TYPE ACTION RULE`
static ISOLATION: [Member; 9] = [
    Member {
        key: "action",
        part: Part::Word(3),
    },
    Member {
        key: "found",
        part: Part::Word(0),
    },
    Member {
        key: "name",
        part: Part::Word(1),
    },
    Member {
        key: "other",
        part: Part::Word(5),
    },
    Member {
        key: "other_action",
        part: Part::Word(7),
    },
    Member {
        key: "other_rule",
        part: Part::Word(8),
    },
    Member {
        key: "other_type",
        part: Part::Word(6),
    },
    Member {
        key: "rule",
        part: Part::Word(4),
    },
    Member {
        key: "type",
        part: Part::Word(2),
    },
];

/// `SCOPE NAME CALLER ACTION TYPE ..`, `SCOPE NAME CALLER nothing`
static RIGHT: [Member; 5] = [
    Member {
        key: "action",
        part: Part::Word(3),
    },
    Member {
        key: "caller",
        part: Part::Word(2),
    },
    Member {
        key: "name",
        part: Part::Word(1),
    },
    Member {
        key: "scope",
        part: Part::Word(0),
    },
    Member {
        key: "types",
        part: Part::Words(4),
    },
];

/// `at NAME TYPE ..`, `below NAME TYPE ..`
static QUESTIONS: [Member; 3] = [
    Member {
        key: "name",
        part: Part::Word(1),
    },
    Member {
        key: "scope",
        part: Part::Word(0),
    },
    Member {
        key: "types",
        part: Part::Words(2),
    },
];

/// `RULE RECORDLINE`
static FINDING: [Member; 2] = [
    Member {
        key: "record",
        part: Part::Rest(1),
    },
    Member {
        key: "rule",
        part: Part::Word(0),
    },
];

/// `add NAME TTL TYPE DATA`
static ADDITION: [Member; 5] = [
    Member {
        key: "data",
        part: Part::Rest(4),
    },
    Member {
        key: "name",
        part: Part::Word(1),
    },
    Member {
        key: "op",
        part: Part::Word(0),
    },
    Member {
        key: "ttl",
        part: Part::Number(2),
    },
    Member {
        key: "type",
        part: Part::Word(3),
    },
];

/// `delete-record NAME TYPE DATA`
static DELETION: [Member; 4] = [
    Member {
        key: "data",
        part: Part::Rest(3),
    },
    Member {
        key: "name",
        part: Part::Word(1),
    },
    Member {
        key: "op",
        part: Part::Word(0),
    },
    Member {
        key: "type",
        part: Part::Word(2),
    },
];

/// `rrset-equals NAME TYPE DATA`, `rrset-absent NAME TYPE`, `name-unused NAME`
static TEST: [Member; 4] = [
    Member {
        key: "data",
        part: Part::Rest(3),
    },
    Member {
        key: "name",
        part: Part::Word(1),
    },
    Member {
        key: "test",
        part: Part::Word(0),
    },
    Member {
        key: "type",
        part: Part::Word(2),
    },
];

/// Any line
static LINE: [Member; 1] = [Member {
    key: "line",
    part: Part::Rest(0),
}];

/// The members of the object of an item, by its word.
fn item_members(word: &[u8]) -> &'static [Member]
    ensures { map member_in result.now ≡ item_members word.now }
{
    if word == b"add".as_slice() {
        &ADDITION
    } else if word == b"delete-record".as_slice() {
        &DELETION
    } else {
        &TEST
    }
}

/// The members of the object of a line of a report, by its first word.
fn members_of(kind: LineKind, word: &[u8]) -> &'static [Member]
    ensures { map member_in result.now ≡ members_of kind word.now }
{
    match kind {
        LineKind::IdleRules => &IDLE,
        LineKind::Changes => &CHANGE,
        LineKind::Zones if word == b"stray".as_slice() => &STRAY,
        LineKind::Zones => &ZONE,
        LineKind::Expectations if word == b"differs".as_slice() => &DIFFERENCE,
        LineKind::Expectations => &EXCESS,
        LineKind::Isolation => &ISOLATION,
        LineKind::Rights => &RIGHT,
        LineKind::Questions => &QUESTIONS,
        LineKind::Findings => &FINDING,
        LineKind::Items => item_members(word),
        LineKind::Others => &LINE,
    }
}

/// The words of a line, with a space between each two. The only error is out of memory.
fn words_of(alloc: Global, line: &[u8]) -> Result<Vec<&[u8]>, AllocError>
    ensures { IfOk result (λ words. map (λ w. w.now) words.items ≡ words_of line.now) }
{
    line.split(|octet| *octet == b' ').collect(alloc)
}

/// A text as a string. The only error is out of memory.
fn quoted(alloc: Global, text: &[u8]) -> Result<Vec<u8>, AllocError>
    ensures { IfOk result (λ value. value.items ≡ quoted text.now) }
{
    let mut value = Vec::new(alloc);
    push_quoted(&mut value, text)?;
    Ok(value)
}

/// The literal name of whether a word is `granted` (RFC 8259 section 3).
fn is_granted(word: &[u8]) -> &'static [u8]
    ensures { result.now ≡ is_granted word.now }
{
    if word == b"granted".as_slice() {
        b"true"
    } else {
        b"false"
    }
}

/// All octets but the first.
fn after_first(text: &[u8]) -> &[u8]
    ensures { result.now ≡ drop 1 text.now }
{
    match text {
        [] => text,
        [_, rest @ ..] => rest,
    }
}

/// Words, each after a space. The only error is out of memory.
fn words_after(alloc: Global, words: &[&[u8]]) -> Result<Vec<u8>, AllocError>
    ensures { IfOk result (λ text. text.items ≡ flat_map (λ w. 32 ∷ w.now) words.now) }
{
    let mut text = Vec::new(alloc);
    for word in words {
        text.push(b' ')?;
        text.extend_from_slice(word)?;
    }
    Ok(text)
}

/// Words as strings, each after a comma. The only error is out of memory.
fn strings_after(alloc: Global, words: &[&[u8]]) -> Result<Vec<u8>, AllocError>
    ensures { IfOk result (λ text. text.items ≡ flat_map (λ w. 44 ∷ quoted w.now) words.now) }
{
    let mut text = Vec::new(alloc);
    for word in words {
        text.push(b',')?;
        push_quoted(&mut text, word)?;
    }
    Ok(text)
}

/// Words as one string, with a space between each two. The only error is out of memory.
fn one_string(alloc: Global, words: &[&[u8]]) -> Result<Vec<u8>, AllocError>
    ensures { IfOk result (λ value. value.items ≡ quoted (join_with_byte 32 (map (λ w. w.now) words.now))) }
{
    let text = words_after(alloc, words)?;
    quoted(alloc, after_first(&text))
}

/// Words as an array of strings. The only error is out of memory.
fn array(alloc: Global, words: &[&[u8]]) -> Result<Vec<u8>, AllocError>
    ensures { IfOk result (λ value. value.items ≡ array (map quoted (map (λ w. w.now) words.now))) }
{
    let strings = strings_after(alloc, words)?;
    let mut value = Vec::from_slice(alloc, b"[")?;
    value.extend_from_slice(after_first(&strings))?;
    value.push(b']')?;
    Ok(value)
}

/// The first of words.
fn first_of<'a>(words: &[&'a [u8]]) -> &'a [u8]
    ensures { result.now ≡ first_of (map (λ w. w.now) words.now) }
{
    match words {
        [first, ..] => first,
        [] => b"".as_slice(),
    }
}

/// The value of a part of words, of which these are those from its place on. The only error is out of memory.
fn value_at(alloc: Global, part: Part, rest: &[&[u8]]) -> Result<Vec<u8>, AllocError>
    ensures { IfOk result (λ value. value.items ≡ value_at part (map (λ w. w.now) rest.now)) }
{
    match part {
        Part::Word(_) => quoted(alloc, first_of(rest)),
        Part::Number(_) => Vec::from_slice(alloc, first_of(rest)),
        Part::Granted(_) => Vec::from_slice(alloc, is_granted(first_of(rest))),
        Part::Rest(_) => one_string(alloc, rest),
        Part::Words(_) => array(alloc, rest),
    }
}

/// Appends a comma and a member. The only error is out of memory.
fn push_member(text: &mut Vec<u8>, key: &str, value: &[u8]) -> Result<(), AllocError>
    ensures { OnOk result (text.new.items ≡ text.old.items ++ 44 ∷ member key.now value.now) }
{
    text.push(b',')?;
    push_quoted(text, key.as_bytes())?;
    text.push(b':')?;
    text.extend_from_slice(value)
}

/// Appends a comma and a member of words, if there are some from its place on. The only error is out of memory.
fn push_member_if(
    alloc: Global,
    text: &mut Vec<u8>,
    words: &[&[u8]],
    wanted: &Member,
) -> Result<(), AllocError>
    ensures { OnOk result (text.new.items ≡ text.old.items ++ each_after 44 (member_if (map (λ w. w.now) words.now) (member_in wanted.now))) }
{
    let place = wanted.part.place();
    if place >= words.len() {
        return Ok(());
    }
    let value = value_at(alloc, wanted.part, &words[place..])?;
    push_member(text, wanted.key, &value)
}

/// The members of words, each after a comma. The only error is out of memory.
fn members_after(alloc: Global, members: &[Member], words: &[&[u8]]) -> Result<Vec<u8>, AllocError>
    ensures { IfOk result (λ text. text.items ≡ flat_map (λ m. each_after 44 (member_if (map (λ w. w.now) words.now) (member_in m))) members.now) }
{
    let mut text = Vec::new(alloc);
    for wanted in members {
        push_member_if(alloc, &mut text, words, wanted)?;
    }
    Ok(text)
}

/// Appends the object of words by members. The only error is out of memory.
fn push_object(
    alloc: Global,
    out: &mut Vec<u8>,
    members: &[Member],
    words: &[&[u8]],
) -> Result<(), AllocError>
    ensures { OnOk result (out.new.items ≡ out.old.items ++ object_by (map member_in members.now) (map (λ w. w.now) words.now)) }
{
    let text = members_after(alloc, members, words)?;
    out.push(b'{')?;
    out.extend_from_slice(after_first(&text))?;
    out.push(b'}')?;
    Ok(())
}

/// Appends the object of words, by the first of them, and a line end. The only error is out of memory.
fn push_words(
    alloc: Global,
    out: &mut Vec<u8>,
    kind: LineKind,
    words: &[&[u8]],
) -> Result<(), AllocError>
    ensures { OnOk result
        (out.new.items
        ≡ out.old.items ++ (object_by (members_of kind (first_of (map (λ w. w.now) words.now))) (map (λ w. w.now) words.now) ++ 10 ∷ [])) }
{
    push_object(alloc, out, members_of(kind, first_of(words)), words)?;
    out.push(b'\n')?;
    Ok(())
}

/// Appends the object of a line and a line end, or nothing for an empty line. The only error is out of memory.
fn push_line(
    alloc: Global,
    out: &mut Vec<u8>,
    kind: LineKind,
    line: &[u8],
) -> Result<(), AllocError>
    ensures { OnOk result (out.new.items ≡ out.old.items ++ line_object kind line.now) }
{
    match line {
        [] => Ok(()),
        [..] => {
            let words = words_of(alloc, line)?;
            push_words(alloc, out, kind, &words)
        }
    }
}

/// The objects of lines. The only error is out of memory.
fn objects_of(alloc: Global, kind: LineKind, lines: &[&[u8]]) -> Result<Vec<u8>, AllocError>
    ensures { IfOk result (λ objects. objects.items ≡ flat_map (λ line. line_object kind line.now) lines.now) }
{
    let mut objects = Vec::new(alloc);
    for line in lines {
        push_line(alloc, &mut objects, kind, line)?;
    }
    Ok(objects)
}

/// The objects of the lines of a text. The only error is out of memory.
fn objects_text(alloc: Global, kind: LineKind, text: &[u8]) -> Result<Vec<u8>, AllocError>
    ensures { IfOk result (λ objects. objects.items ≡ objects_text kind text.now) }
{
    let lines = lines_of(alloc, text)?;
    objects_of(alloc, kind, &lines)
}

/// Appends a comma and the object of words, by the first of them. The only error is out of memory.
fn push_value(
    alloc: Global,
    out: &mut Vec<u8>,
    kind: LineKind,
    words: &[&[u8]],
) -> Result<(), AllocError>
    ensures { OnOk result
        (out.new.items
        ≡ out.old.items ++ each_after 44 (object_by (members_of kind (first_of (map (λ w. w.now) words.now))) (map (λ w. w.now) words.now) ∷ [])) }
{
    out.push(b',')?;
    push_object(alloc, out, members_of(kind, first_of(words)), words)
}

/// Appends a comma and the object of a line, or nothing for an empty line. The only error is out of memory.
fn push_line_value(
    alloc: Global,
    out: &mut Vec<u8>,
    kind: LineKind,
    line: &[u8],
) -> Result<(), AllocError>
    ensures { OnOk result (out.new.items ≡ out.old.items ++ each_after 44 (line_value kind line.now)) }
{
    match line {
        [] => Ok(()),
        [..] => {
            let words = words_of(alloc, line)?;
            push_value(alloc, out, kind, &words)
        }
    }
}

/// The objects of lines, each after a comma. The only error is out of memory.
fn values_after(alloc: Global, kind: LineKind, lines: &[&[u8]]) -> Result<Vec<u8>, AllocError>
    ensures { IfOk result (λ values. values.items ≡ flat_map (λ line. each_after 44 (line_value kind line.now)) lines.now) }
{
    let mut values = Vec::new(alloc);
    for line in lines {
        push_line_value(alloc, &mut values, kind, line)?;
    }
    Ok(values)
}

/// The objects of the lines of a text, each after a comma. The only error is out of memory.
fn text_values(alloc: Global, kind: LineKind, text: &[u8]) -> Result<Vec<u8>, AllocError>
    ensures { IfOk result (λ values. values.items ≡ each_after 44 (flat_map (line_value kind) (lines_of text.now))) }
{
    let lines = lines_of(alloc, text)?;
    values_after(alloc, kind, &lines)
}

/// The objects of the lines of a text, as an array. The only error is out of memory.
pub fn objects_array(alloc: Global, kind: LineKind, text: &[u8]) -> Result<Vec<u8>, AllocError>
    ensures { IfOk result (λ array. array.items ≡ objects_array kind text.now) }
{
    let values = text_values(alloc, kind, text)?;
    let mut array = Vec::from_slice(alloc, b"[")?;
    array.extend_from_slice(after_first(&values))?;
    array.push(b']')?;
    Ok(array)
}

/// A text of lines, as what it is printed. The only error is out of memory.
pub fn in_form(
    alloc: Global,
    form: TextForm,
    kind: LineKind,
    text: Vec<u8>,
) -> Result<Vec<u8>, AllocError>
    ensures { IfOk result (λ printed. printed.items ≡ in_form form kind text.items) }
{
    match form {
        TextForm::Plain => Ok(text),
        TextForm::Json => objects_text(alloc, kind, &text),
    }
}
