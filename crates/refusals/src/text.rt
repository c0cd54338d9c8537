//! Rows as texts.

ghost use Rattle.std.specs.Prelude.{◌≡◌, IfOk, Some, map, string_bytes};
ghost use Rattle.refusals.specs.Tables.{row_of};
ghost use Rattle.refusals.specs.Texts.{row_head, row_text, row_json, text_of, further, json_of};

use crate::row::RefusalRow;
use std::alloc::{AllocError, Global};
use std::fmt::{self, Display, Formatter, Write};

/// A row without its standard.
#[derive(Clone, Copy)]
struct RowHead<'a>(&'a RefusalRow);

impl Display for RowHead<'_> {
    ghost output = { λ row. Some (row_head (row_of row.0.now)) };

    fn fmt<W: Write>(&self, f: &mut Formatter<W>) -> fmt::Result {
        let row = self.0;
        write!(
            f,
            "{}  {}\n    {}\n    {}\n",
            row.number, row.name, row.meaning, row.advice
        )
    }
}

/// A row for a person: its number and its name, what it means, what to do, and the standard that it comes from.
impl Display for RefusalRow {
    ghost output = { λ row. Some (row_text (row_of row)) };

    fn fmt<W: Write>(&self, f: &mut Formatter<W>) -> fmt::Result {
        write!(f, "{}", RowHead(self))?;
        if self.source.is_empty() {
            return Ok(());
        }
        write!(f, "    {}\n", self.source)
    }
}

/// A row as an object of JSON (RFC 8259). No text of the table has an octet that needs an escape.
#[derive(Clone, Copy)]
struct JsonRow<'a>(&'a RefusalRow);

impl Display for JsonRow<'_> {
    ghost output = { λ row. Some (row_json (row_of row.0.now)) };

    fn fmt<W: Write>(&self, f: &mut Formatter<W>) -> fmt::Result {
        let row = self.0;
        write!(
            f,
            r#"{{"number":"{}","name":"{}","meaning":"{}","advice":"{}","source":"{}"}}"#,
            row.number, row.name, row.meaning, row.advice, row.source
        )
    }
}

/// Rows for a person. The only error is out of memory.
pub fn plain_text(alloc: Global, rows: &[RefusalRow]) -> Result<String, AllocError>
    ensures { IfOk result (λ text. string_bytes text ≡ text_of (map row_of rows.now)) }
{
    let mut text = String::new(alloc);
    for row in rows {
        write!(text, "{row}")?;
    }
    Ok(text)
}

/// The rows after the first of an array, each after a comma and on a line of its own. The only error is out of memory.
fn further_text(alloc: Global, rows: &[RefusalRow]) -> Result<String, AllocError>
    ensures { IfOk result (λ text. string_bytes text ≡ further (map row_of rows.now)) }
{
    let mut text = String::new(alloc);
    for row in rows {
        write!(text, ",\n{}", JsonRow(row))?;
    }
    Ok(text)
}

/// Rows as an array of JSON, a row a line. The only error is out of memory.
pub fn json_text(alloc: Global, rows: &[RefusalRow]) -> Result<String, AllocError>
    ensures { IfOk result (λ text. string_bytes text ≡ json_of (map row_of rows.now)) }
{
    let Some((first, more)) = rows.split_first() else {
        return String::from_str(alloc, "[]\n");
    };
    let further = further_text(alloc, more)?;
    format!(in alloc; "[{}{further}]\n", JsonRow(first))
}
