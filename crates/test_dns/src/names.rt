use dns_names::{KeyRange, Name, NameFault, Symbol, first_symbol};
use std::alloc::{AllocError, Global};
use std::cmp::Ordering;
use test_rows::{Row, number, text_of};

/// Appends the answer to a row of names.
pub fn push_name_answer(
    alloc: Global,
    row: &Row<'_>,
    answer: &mut Vec<u8>,
) -> Result<(), AllocError> {
    match answer_to(alloc, row, answer) {
        Ok(()) => Ok(()),
        Err(fault) => push_fault(alloc, &fault, answer),
    }
}

fn answer_to(alloc: Global, row: &Row<'_>, answer: &mut Vec<u8>) -> Result<(), NameFault> {
    let (first, rest) = row.split();
    match row.verb {
        "absolute" | "labels" | "parents" | "key" => push_told(alloc, row, answer),
        "relative" | "print-relative" | "within" | "range" => push_of_two(alloc, row, answer),
        "ancestor-key" => push_ancestor_key(alloc, first, rest, answer),
        "order" => push_order(alloc, Order::Canonical, &row.body, answer),
        "text-order" => push_order(alloc, Order::ByText, &row.body, answer),
        "symbol" => push_symbol(alloc, &row.text, answer),
        "no-memory" => Err(NameFault::NoMemory),
        _ => push("no such verb", answer),
    }
}

/// Appends what a row asks of its name.
fn push_told(alloc: Global, row: &Row<'_>, answer: &mut Vec<u8>) -> Result<(), NameFault> {
    push_of_name(
        alloc,
        row.verb,
        &Name::read_absolute(alloc, &row.text)?,
        answer,
    )
}

fn push_of_name(
    alloc: Global,
    verb: &str,
    name: &Name,
    answer: &mut Vec<u8>,
) -> Result<(), NameFault> {
    match verb {
        "labels" => push_labels(name, answer),
        "parents" => push_parents(alloc, name, answer),
        "key" => push_key(alloc, name, answer),
        _ => push_name(alloc, name, answer),
    }
}

fn push(text: &str, answer: &mut Vec<u8>) -> Result<(), NameFault> {
    Ok(answer.extend_from_slice(text.as_bytes())?)
}

fn push_fault(alloc: Global, fault: &NameFault, answer: &mut Vec<u8>) -> Result<(), AllocError> {
    let number = fault.number();
    answer.extend_from_slice(format!(in alloc; "refused {number}: {fault}")?.as_bytes())
}

/// Appends the text of the name, which has to be the same name again.
fn push_name(alloc: Global, name: &Name, answer: &mut Vec<u8>) -> Result<(), NameFault> {
    let text = name.text(alloc)?;
    push_text(alloc, text.as_str(), name, answer)
}

fn push_text(
    alloc: Global,
    text: &str,
    name: &Name,
    answer: &mut Vec<u8>,
) -> Result<(), NameFault> {
    push(text, answer)?;
    push_whether_same(&Name::read_absolute(alloc, text.as_bytes())?, name, answer)
}

fn push_whether_same(again: &Name, name: &Name, answer: &mut Vec<u8>) -> Result<(), NameFault> {
    if again == name {
        return Ok(());
    }
    push(", which is another name", answer)
}

/// Appends what a row asks of its name and of the one after that.
fn push_of_two(alloc: Global, row: &Row<'_>, answer: &mut Vec<u8>) -> Result<(), NameFault> {
    let (first, second) = row.split();
    let first = Name::read_absolute(alloc, first)?;
    push_of_second(alloc, row.verb, &first, second, answer)
}

fn push_of_second(
    alloc: Global,
    verb: &str,
    first: &Name,
    second: &[u8],
    answer: &mut Vec<u8>,
) -> Result<(), NameFault> {
    if verb == "relative" {
        return push_name(alloc, &Name::read_relative(alloc, second, first)?, answer);
    }
    push_of_names(
        alloc,
        verb,
        first,
        &Name::read_absolute(alloc, second)?,
        answer,
    )
}

fn push_of_names(
    alloc: Global,
    verb: &str,
    first: &Name,
    second: &Name,
    answer: &mut Vec<u8>,
) -> Result<(), NameFault> {
    match verb {
        "print-relative" => push_printed(alloc, first, second, answer),
        "range" => push_range(alloc, first, second, answer),
        _ => push(place(first, second), answer),
    }
}

/// Appends the text of a name relative to an origin, which has to be the same name again.
fn push_printed(
    alloc: Global,
    origin: &Name,
    name: &Name,
    answer: &mut Vec<u8>,
) -> Result<(), NameFault> {
    let text = name.relative_text(alloc, origin)?;
    push(text.as_str(), answer)?;
    push_whether_same(
        &Name::read_relative(alloc, text.as_bytes(), origin)?,
        name,
        answer,
    )
}

fn push_labels(name: &Name, answer: &mut Vec<u8>) -> Result<(), NameFault> {
    for label in name.labels() {
        answer.push(b'(')?;
        answer.extend_from_slice(label)?;
        answer.push(b')')?;
    }
    Ok(())
}

fn push_parents(alloc: Global, name: &Name, answer: &mut Vec<u8>) -> Result<(), NameFault> {
    let mut above = push_and_step(alloc, name, answer)?;
    for _ in name.labels() {
        above = match above {
            Some(name) => push_and_step(alloc, &name, answer)?,
            None => None,
        };
    }
    push(if above.is_none() { "none" } else { "more" }, answer)
}

/// Appends the text of a name, and tells its parent.
fn push_and_step(
    alloc: Global,
    name: &Name,
    answer: &mut Vec<u8>,
) -> Result<Option<Name>, NameFault> {
    push(name.text(alloc)?.as_str(), answer)?;
    push(" ", answer)?;
    Ok(name.parent(alloc)?)
}

fn push_key(alloc: Global, name: &Name, answer: &mut Vec<u8>) -> Result<(), NameFault> {
    answer.extend_from_slice(name.key())?;
    if name.try_copy(alloc)?.key() != name.key() {
        push(", and another of its copy", answer)?;
    }
    Ok(())
}

fn push_ancestor_key(
    alloc: Global,
    labels: &[u8],
    name: &[u8],
    answer: &mut Vec<u8>,
) -> Result<(), NameFault> {
    push_ancestor_key_of(&Name::read_absolute(alloc, name)?, number(labels), answer)
}

fn push_ancestor_key_of(
    name: &Name,
    labels: Option<usize>,
    answer: &mut Vec<u8>,
) -> Result<(), NameFault> {
    let key = match labels {
        Some(labels) => name.ancestor_key(labels),
        None => None,
    };
    match key {
        Some(key) => Ok(answer.extend_from_slice(key)?),
        None => push("none", answer),
    }
}

/// Where a name stands to another.
fn place(name: &Name, top: &Name) -> &'static str {
    match (name.is_within(top), name.is_below(top)) {
        (true, true) => "below",
        (true, false) => "within, not below",
        (false, false) => "outside",
        (false, true) => "below, not within",
    }
}

fn push_range(
    alloc: Global,
    top: &Name,
    name: &Name,
    answer: &mut Vec<u8>,
) -> Result<(), NameFault> {
    let range = top.key_range(alloc)?;
    push_bounds(&range, answer)?;
    let is_in = is_in(&range, name);
    push(if is_in { ": in" } else { ": not in" }, answer)
}

fn push_bounds(range: &KeyRange<'_>, answer: &mut Vec<u8>) -> Result<(), NameFault> {
    answer.extend_from_slice(range.first)?;
    push(" to ", answer)?;
    match &range.end {
        Some(end) => Ok(answer.extend_from_slice(end)?),
        None => push("the last", answer),
    }
}

fn is_in(range: &KeyRange<'_>, name: &Name) -> bool {
    let is_before_end = match &range.end {
        Some(end) => name.key() < end.as_slice(),
        None => true,
    };
    range.first <= name.key() && is_before_end
}

/// By which order names are compared.
#[derive(Clone, Copy)]
enum Order {
    Canonical,
    ByText,
}

impl Order {
    fn cmp(self, one: &Name, other: &Name) -> Ordering {
        match self {
            Order::Canonical => one.cmp(other),
            Order::ByText => one.cmp_text(other),
        }
    }
}

/// Appends a line for each name of the body: how it compares with each of them.
fn push_order(
    alloc: Global,
    order: Order,
    body: &[u8],
    answer: &mut Vec<u8>,
) -> Result<(), NameFault> {
    let names = names(alloc, body)?;
    for one in &names {
        push_comparisons(order, one, &names, answer)?;
        push_name(alloc, one, answer)?;
        push("\n", answer)?;
    }
    Ok(())
}

/// The names of a body, each on a line.
fn names(alloc: Global, body: &[u8]) -> Result<Vec<Name>, NameFault> {
    let mut names = Vec::new(alloc);
    for line in text_of(body).lines() {
        names.push(Name::read_absolute(alloc, line.as_bytes())?)?;
    }
    Ok(names)
}

fn push_comparisons(
    order: Order,
    one: &Name,
    names: &[Name],
    answer: &mut Vec<u8>,
) -> Result<(), NameFault> {
    for other in names {
        push(sign(order, one, other), answer)?;
    }
    push(" ", answer)
}

fn sign(order: Order, one: &Name, other: &Name) -> &'static str {
    match order.cmp(one, other) {
        Ordering::Less => "<",
        Ordering::Equal if one == other => "=",
        Ordering::Equal => "~",
        Ordering::Greater => ">",
    }
}

fn push_symbol(alloc: Global, text: &[u8], answer: &mut Vec<u8>) -> Result<(), NameFault> {
    if text.is_empty() {
        return push("no text", answer);
    }
    let (symbol, rest) = first_symbol(text)?;
    push_symbol_itself(alloc, symbol, answer)?;
    push(", before (", answer)?;
    answer.extend_from_slice(rest)?;
    push(")", answer)
}

fn push_symbol_itself(
    alloc: Global,
    symbol: Symbol,
    answer: &mut Vec<u8>,
) -> Result<(), NameFault> {
    match symbol {
        Symbol::Dot => push("dot", answer),
        Symbol::Octet(octet) => push(format!(in alloc; "octet {octet}")?.as_str(), answer),
    }
}
