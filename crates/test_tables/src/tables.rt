//! What is answered to each row.

ghost use Rattle.std.specs.Prelude.{◌≡◌, false};

use crate::batch::batch_of;
use crate::columns::text_of;
use crate::disks::Held;
use crate::files::opened;
use crate::refusal::Refusal;
use crate::replies::push_reply;
use crate::rows;
use crate::table_queries::{
    push_all, push_changes, push_last, push_receipts, push_records, push_records_at,
    push_records_between, push_versions, push_zone,
};
use sqlite::{Alter, Connection, Files};
use sqlite_disk::Disk;
use std::alloc::{AllocError, Global};
use store_rows::RowFault;
use store_sql::{RowsFault, has_no_tables, has_tables, make_tables, write};
use test_rows::{Answers, Row};

/// Answers to rows over the store that some disks hold.
#[derive(Drop)]
pub struct Tables {
    held: Held,
}

impl Answers for Tables {
    fn answer(
        &mut self,
        alloc: Global,
        row: &Row<'_>,
        answer: &mut Vec<u8>,
    ) -> Result<(), AllocError> {
        match self.answer_to(alloc, row, answer) {
            Ok(()) => Ok(()),
            Err(refusal) => answer.extend_from_slice(refusal.text(alloc)?.as_bytes()),
        }
    }
}

impl Tables {
    /// Empty disks.
    pub fn new(alloc: Global) -> Tables {
        Tables {
            held: Held::new(alloc),
        }
    }

    fn answer_to(
        &mut self,
        alloc: Global,
        row: &Row<'_>,
        answer: &mut Vec<u8>,
    ) -> Result<(), Refusal> {
        if row.verb == "new" {
            self.held = Held::new(alloc);
            return push("new", answer);
        }
        let disks = self.held.sound_disks(alloc).or(Err(Refusal::Columns))?;
        let (answered, disks) = act(alloc, disks, row, answer);
        self.held = Held::of(alloc, disks).or(Err(Refusal::Columns))?;
        answered
    }
}

/// Answers a row over the store on some disks, and gives the disks back.
fn act<D: Disk + Drop>(
    alloc: Global,
    disks: Files<D>,
    row: &Row<'_>,
    answer: &mut Vec<u8>,
) -> (Result<(), Refusal>, Files<D>) {
    match opened(alloc, disks) {
        Ok(conn) => {
            let mut conn = conn;
            let answered = act_on(alloc, &mut conn, row, answer);
            (answered, conn.into_store().close())
        }
        Err(disks) => (Err(Refusal::Columns), disks),
    }
}

/// Answers a row over a connection.
fn act_on<S: Alter>(
    alloc: Global,
    conn: &mut Connection<S>,
    row: &Row<'_>,
    answer: &mut Vec<u8>,
) -> Result<(), Refusal> {
    if !conn.is_autocommit() {
        return push("a transaction goes on", answer);
    }
    match row.verb {
        "make" => make(conn, row, answer),
        "write" => write_below(alloc, conn, row, answer),
        "sql" => run(conn, row, answer),
        "tables" => push(tables_of(conn), answer),
        _ => answer_from(alloc, conn, row, answer),
    }
}

fn push(text: &str, answer: &mut Vec<u8>) -> Result<(), Refusal> {
    Ok(answer.extend_from_slice(text.as_bytes())?)
}

fn make<S: Alter>(
    conn: &mut Connection<S>,
    row: &Row<'_>,
    answer: &mut Vec<u8>,
) -> Result<(), Refusal>
    requires { conn.old.in_transaction ≡ false }
{
    if !has_no_tables(conn) {
        return push("there are tables", answer);
    }
    let version = text_of(&row.text)?.parse::<i64>();
    make_tables(conn, version.unwrap_or(0))?;
    push("made", answer)
}

fn write_below<S: Alter>(
    alloc: Global,
    conn: &mut Connection<S>,
    row: &Row<'_>,
    answer: &mut Vec<u8>,
) -> Result<(), Refusal>
    requires { conn.old.in_transaction ≡ false }
{
    write(conn, &batch_of(alloc, text_of(&row.body)?)?)?;
    push("written", answer)
}

fn run<S: Alter>(
    conn: &mut Connection<S>,
    row: &Row<'_>,
    answer: &mut Vec<u8>,
) -> Result<(), Refusal> {
    let _count = conn
        .execute(text_of(&row.text)?, &[])
        .map_err(RowsFault::from)?;
    push("run", answer)
}

fn tables_of<S: Alter>(conn: &Connection<S>) -> &'static str {
    match (has_no_tables(conn), has_tables(conn)) {
        (true, false) => "none",
        (false, true) => "the tables",
        (false, false) => "others",
        (true, true) => "none, and the tables",
    }
}

/// Appends the answer to a question.
fn answer_from<S: Alter>(
    alloc: Global,
    conn: &mut Connection<S>,
    row: &Row<'_>,
    answer: &mut Vec<u8>,
) -> Result<(), Refusal>
    requires { conn.old.in_transaction ≡ false }
{
    match row.verb {
        "zone" => push_zone(conn, row, answer),
        "records" => push_records(alloc, conn, row, answer),
        "records-at" => push_records_at(alloc, conn, row, answer),
        "records-between" => push_records_between(alloc, conn, row, answer),
        "receipts" => push_receipts(alloc, conn, row, answer),
        "changes" => push_changes(alloc, conn, row, answer),
        "last" => push_last(alloc, conn, row, answer),
        "versions" => push_versions(alloc, conn, answer),
        "all" => push_all(alloc, conn, answer),
        _ => answer_of(alloc, row, answer),
    }
}

/// Appends what is written or read of rows without a store.
fn answer_of(alloc: Global, row: &Row<'_>, answer: &mut Vec<u8>) -> Result<(), Refusal> {
    let (first, rest) = row.split();
    match row.verb {
        "write-record" => rows::push_record_row(alloc, first, rest, answer),
        "write-receipt" => rows::push_receipt_row(alloc, row, answer),
        "read-origin" => rows::push_origin(alloc, &row.text, answer),
        "read-reply" => push_reply(alloc, &row.text, answer),
        "read-record" => rows::push_record(alloc, &row.text, answer),
        "read-receipt" => rows::push_receipt(alloc, &row.text, answer),
        "read-changes" => rows::push_changes(alloc, row, answer),
        "no-memory" => Err(Refusal::Store(RowsFault::NoMemory)),
        "no-memory-row" => Err(Refusal::Row(RowFault::NoMemory)),
        _ => push("no such verb", answer),
    }
}
