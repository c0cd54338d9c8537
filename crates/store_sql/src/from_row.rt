//! Reading the rows of an answer.

ghost use Rattle.std.specs.Prelude.{◌≡◌, ◌+◌, ◌<◌, ◌≤◌, ◌↔◌, ℕ, ℤ, List, length, map, drop, true, Err, IfOk, string_bytes, IsUtf8};
ghost use Rattle.std.specs.List.{AllByRecursion};
ghost use Rattle.sqlite_value.specs.declared.value.Value.TheVariants.{Int, Text, Blob};
ghost use Rattle.sqlite_value.specs.Order.{column, Row as SqlRow};
ghost use Rattle.store_sql.specs.Stores.{IsReadableRow};
ghost use Rattle.store_sql.specs.declared.rows_fault.RowsFault.TheVariants.{BadRow};

use crate::rows::{ChangeRow, ReceiptRow, RecordRow, ZoneRow};
use crate::rows_fault::RowsFault;
use sqlite::types::FromSql;
use sqlite::{Error, ErrorCode, Row};
use std::alloc::Global;

/// What a row of an answer is read as.
pub(crate) trait FromRow: Sized + Drop {
    // what such a row has
    ghost stored: { Self → SqlRow };

    /// Reads the columns from a first one on; before them there is at most a rowid. `BadRow` comes where they are not those of
    /// such a row, or a text in them is not UTF-8.
    fn read(row: &Row, first: usize) -> Result<Self, RowsFault>
        requires { first ≤ 1 }
        ensures found { IfOk result (λ x. (drop first row.now ≡ stored x) × IsReadableRow (drop first row.now)) }
        ensures bad { result ≡ Err BadRow → (x : Self) → drop first row.now ≡ stored x → IsReadableRow (drop first row.now) → ⊥ };
}

/// Whether a row has so many columns from a first one on.
fn has_columns(row: &Row, first: usize, count: usize) -> bool
    ensures { (result ≡ true) ↔ (length (drop first row.now) ≡ count) }
{
    row.column_count().saturating_sub(first) == count
}

/// The value at a place among the columns from a first one on. `BadRow` comes where the row ends before it or the value is of another
/// type, and `NoMemory` where memory runs out.
fn value_at<T: FromSql>(row: &Row, first: usize, at: usize) -> Result<T, RowsFault>
    // Seven columns after a rowid are the most that a table has.
    requires { first + at ≤ 7 }
    ensures found { IfOk result (λ x. (at < length (drop first row.now)) × T.FromSql.reads_as (column (drop first row.now) at) x) }
    ensures bad { result ≡ Err BadRow → at < length (drop first row.now) → ¬ T.FromSql.is_readable (column (drop first row.now) at) }
{
    match row.get(first + at) {
        Ok(value) => Ok(value),
        Err(Error::SqliteFailure(ErrorCode::OutOfMemory)) => Err(RowsFault::NoMemory),
        Err(_) => Err(RowsFault::BadRow),
    }
}

/// The number at such a place. `BadRow` comes where the row ends before it or has something else there.
pub(crate) fn number_at(row: &Row, first: usize, at: usize) -> Result<i64, RowsFault>
    requires { first + at ≤ 7 }
    ensures found { IfOk result (λ n. (at < length (drop first row.now)) × (column (drop first row.now) at ≡ Int n)) }
    ensures bad { result ≡ Err BadRow → at < length (drop first row.now) → (n : ℤ) → column (drop first row.now) at ≡ Int n → ⊥ }
{
    value_at(row, first, at)
}

/// The text at such a place. `BadRow` comes where the row ends before it or has something else there, or the text is not UTF-8.
fn text_at(row: &Row, first: usize, at: usize) -> Result<String, RowsFault>
    requires { first + at ≤ 7 }
    ensures found { IfOk result (λ t. (at < length (drop first row.now)) × (column (drop first row.now) at ≡ Text (string_bytes t)) × IsUtf8 (string_bytes t)) }
    ensures bad { result ≡ Err BadRow → at < length (drop first row.now) → (t : List ℕ) → column (drop first row.now) at ≡ Text t → IsUtf8 t → ⊥ }
{
    let text: String = value_at(row, first, at)?;
    let _utf8 = text.as_str();
    Ok(text)
}

/// The octets at such a place. `BadRow` comes where the row ends before it or has something else there.
fn key_at(row: &Row, first: usize, at: usize) -> Result<Vec<u8>, RowsFault>
    requires { first + at ≤ 7 }
    ensures found { IfOk result (λ key. (at < length (drop first row.now)) × (column (drop first row.now) at ≡ Blob key.items)) }
    ensures bad { result ≡ Err BadRow → at < length (drop first row.now) → (key : List ℕ) → column (drop first row.now) at ≡ Blob key → ⊥ }
{
    value_at(row, first, at)
}

impl FromRow for i64 {
    ghost use Rattle.store_sql.specs.Tables.{stored_version};

    ghost stored = { stored_version };

    fn read(row: &Row, first: usize) -> Result<i64, RowsFault> {
        if !has_columns(row, first, 1) {
            return Err(RowsFault::BadRow);
        }
        number_at(row, first, 0)
    }
}

impl FromRow for ZoneRow {
    ghost use Rattle.store_sql.specs.Tables.{stored_zone};

    ghost stored = { stored_zone };

    fn read(row: &Row, first: usize) -> Result<ZoneRow, RowsFault> {
        if !has_columns(row, first, 1) {
            return Err(RowsFault::BadRow);
        }
        Ok(ZoneRow {
            origin: text_at(row, first, 0)?,
        })
    }
}

impl FromRow for RecordRow {
    ghost use Rattle.store_sql.specs.Tables.{stored_record};

    ghost stored = { stored_record };

    fn read(row: &Row, first: usize) -> Result<RecordRow, RowsFault> {
        if !has_columns(row, first, 6) {
            return Err(RowsFault::BadRow);
        }
        Ok(RecordRow {
            origin: text_at(row, first, 0)?,
            owner: text_at(row, first, 1)?,
            record_type: number_at(row, first, 2)?,
            rdata: text_at(row, first, 3)?,
            ttl: number_at(row, first, 4)?,
            owner_key: key_at(row, first, 5)?,
        })
    }
}

impl FromRow for ReceiptRow {
    ghost use Rattle.store_sql.specs.Tables.{stored_receipt};

    ghost stored = { stored_receipt };

    fn read(row: &Row, first: usize) -> Result<ReceiptRow, RowsFault> {
        if !has_columns(row, first, 5) {
            return Err(RowsFault::BadRow);
        }
        Ok(ReceiptRow {
            caller: text_at(row, first, 0)?,
            id: text_at(row, first, 1)?,
            origin: text_at(row, first, 2)?,
            request: text_at(row, first, 3)?,
            reply: text_at(row, first, 4)?,
        })
    }
}

impl FromRow for ChangeRow {
    ghost use Rattle.store_sql.specs.Tables.{stored_change};

    ghost stored = { stored_change };

    fn read(row: &Row, first: usize) -> Result<ChangeRow, RowsFault> {
        if !has_columns(row, first, 7) {
            return Err(RowsFault::BadRow);
        }
        Ok(ChangeRow {
            origin: text_at(row, first, 0)?,
            number: number_at(row, first, 1)?,
            side: number_at(row, first, 2)?,
            owner: text_at(row, first, 3)?,
            record_type: number_at(row, first, 4)?,
            rdata: text_at(row, first, 5)?,
            ttl: number_at(row, first, 6)?,
        })
    }
}

/// The rows of an answer, each read. A row goes as soon as it is read, so that not all of them are held twice. `BadRow` comes where one
/// of them is no such row.
pub(crate) fn read_rows<T: FromRow>(alloc: Global, rows: Vec<Row>) -> Result<Vec<T>, RowsFault>
    ensures found { IfOk result (λ xs. (rows.items ≡ map T.FromRow.stored xs.items) × AllByRecursion IsReadableRow rows.items) }
    ensures bad { result ≡ Err BadRow → (xs : List T) → rows.items ≡ map T.FromRow.stored xs → AllByRecursion IsReadableRow rows.items → ⊥ }
{
    let mut values = Vec::with_capacity(alloc, rows.len())?;
    for row in rows {
        values.push(T::read(&row, 0)?)?;
    }
    Ok(values)
}
