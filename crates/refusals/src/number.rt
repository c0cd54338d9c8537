//! Which rows a printed number has.

ghost use Rattle.std.specs.Prelude.{◌≡◌, ◌++◌, ◌&&◌, IfOk, bytes_eq, decimal, find, map, option_map};
ghost use Rattle.refusals.specs.Tables.{row_of, input_rows, rows};
ghost use Rattle.refusals.specs.Numbers.{may_be, row_numbered, words_of, parts_of, row_in, rows_from, explained};

use crate::row::{NumberPlace, RefusalRow};
use crate::table::{Line, codes, commands, data, files, names, policies, requests, stores, zones};
use itoa::Buffer;
use std::alloc::{AllocError, Global};

/// Appends the rows of a table.
fn push_rows(all: &mut Vec<RefusalRow>, table: &[Line]) -> Result<(), AllocError>
    ensures { IfOk result (λ _. map row_of all.new.items ≡ map row_of all.old.items ++ map (λ r. record { number = r.0.now; kind = r.1; name = r.2.now; words = r.3.now; meaning = r.4.now; advice = r.5.now; source = r.6.now }) table.now) }
{
    for line in table {
        all.push(RefusalRow::of(*line))?;
    }
    Ok(())
}

/// The rows of what an input has. The only error is out of memory.
fn input_rows(alloc: Global) -> Result<Vec<RefusalRow>, AllocError>
    ensures { IfOk result (λ all. map row_of all.items ≡ input_rows) }
{
    let mut all = Vec::new(alloc);
    push_rows(&mut all, names())?;
    push_rows(&mut all, data())?;
    push_rows(&mut all, files())?;
    push_rows(&mut all, zones())?;
    push_rows(&mut all, policies())?;
    Ok(all)
}

/// All rows: by number, and then those that have a code. The only error is out of memory.
pub fn all_rows(alloc: Global) -> Result<Vec<RefusalRow>, AllocError>
    ensures { IfOk result (λ all. map row_of all.items ≡ rows) }
{
    let mut all = input_rows(alloc)?;
    push_rows(&mut all, stores())?;
    push_rows(&mut all, requests())?;
    push_rows(&mut all, commands())?;
    push_rows(&mut all, codes())?;
    Ok(all)
}

/// The first line of a table that is of a number.
fn line_of(table: &[Line], number: &str) -> Option<Line>
    ensures { result ≡ find (λ line. bytes_eq line.0.now number.now) table.now }
{
    table.iter().copied().find(|line| line.0 == number)
}

/// The row of a number in a table.
fn row_among(table: &[Line], number: &str) -> Option<RefusalRow>
    ensures { option_map row_of result ≡ row_numbered (map (λ r. record { number = r.0.now; kind = r.1; name = r.2.now; words = r.3.now; meaning = r.4.now; advice = r.5.now; source = r.6.now }) table.now) number.now }
{
    match line_of(table, number) {
        Some(line) => Some(RefusalRow::of(line)),
        None => None,
    }
}

/// The row of a number among those of what an input has.
fn input_row(number: &str) -> Option<RefusalRow>
    ensures { option_map row_of result ≡ row_numbered input_rows number.now }
{
    row_among(names(), number)
        .or(row_among(data(), number))
        .or(row_among(files(), number))
        .or(row_among(zones(), number))
        .or(row_among(policies(), number))
}

/// The row of a number.
fn row_numbered(number: &str) -> Option<RefusalRow>
    ensures { option_map row_of result ≡ row_numbered rows number.now }
{
    input_row(number)
        .or(row_among(stores(), number))
        .or(row_among(requests(), number))
        .or(row_among(commands(), number))
        .or(row_among(codes(), number))
}

/// What is wrong, in a few words: those of the row of a number, and an empty text of a number that no refusal has.
pub fn words(number: u8) -> &'static str
    ensures { result.now ≡ words_of number }
{
    let mut buffer = Buffer::new();
    match row_numbered(buffer.format(number)) {
        Some(row) => row.words,
        None => "",
    }
}

/// The first row of a number that may be in a place.
fn first_in(all: &[RefusalRow], place: NumberPlace, part: &str) -> Option<RefusalRow>
    ensures { result ≡ find (λ row. may_be row.kind place && bytes_eq row.number.now part.now) all.now }
{
    all.iter()
        .copied()
        .find(|row| row.kind.may_be(place) && row.number == part)
}

/// The row of a part of a number, in a place.
fn row_in(all: &[RefusalRow], place: NumberPlace, part: &str) -> Option<RefusalRow>
    ensures { option_map row_of result ≡ row_in (map row_of all.now) place part.now }
{
    first_in(all, place, part)
}

/// The parts of a number, between its dots. The only error is out of memory.
fn parts_of(alloc: Global, number: &str) -> Result<Vec<&str>, AllocError>
    ensures { IfOk result (λ parts. map (λ part. part.now) parts.items ≡ parts_of number.now) }
{
    number.split('.').collect(alloc)
}

/// The rows of a number's parts. The only error is out of memory.
fn rows_of_parts(
    alloc: Global,
    all: &[RefusalRow],
    parts: &[&str],
) -> Result<Option<Vec<RefusalRow>>, AllocError>
    ensures { IfOk result (λ found. option_map (λ v. map row_of v.items) found ≡ rows_from (map row_of all.now) NumberPlace.Start (map (λ part. part.now) parts.now)) }
{
    let mut found = Vec::new(alloc);
    let mut place = NumberPlace::Start;
    for part in parts {
        let Some(row) = row_in(all, place, part) else {
            return Ok(None);
        };
        found.push(row)?;
        place = row.kind.behind();
    }
    if place == NumberPlace::End {
        Ok(Some(found))
    } else {
        Ok(None)
    }
}

/// The rows of a number that the program prints, one for each part of it, and `None` of one that it never prints. The only error is
/// out of memory.
pub fn explained(alloc: Global, number: &str) -> Result<Option<Vec<RefusalRow>>, AllocError>
    ensures { IfOk result (λ found. option_map (λ v. map row_of v.items) found ≡ explained number.now) }
{
    let all = all_rows(alloc)?;
    let parts = parts_of(alloc, number)?;
    rows_of_parts(alloc, &all, &parts)
}
