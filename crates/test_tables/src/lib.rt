//! Rows of the tables, the tables in SQLite, and the rows that are a state, by rows: worked examples, whose wanted values are written by
//! hand from the texts of RFC 1035 section 5.1 and the numbers of its section 3.2.2.
//!
//! `Tables`: a row of a table is written with a bar between two columns. `write-record ORIGIN ITEM` prints the row of the record that an
//! item adds, and `write-receipt CALLER ID ORIGIN REPLY` that of the receipt of the items below; both read it again. `read-origin TEXT`,
//! `read-reply WORDS`, `read-record ROW`, `read-receipt ROW` and `read-changes ORIGIN`, with the rows below, print what is read.
//!
//! `new` takes a store without tables, in files of memory, `make VERSION` makes the tables, `sql STATEMENT` runs a statement, and `tables`
//! prints whether the tables, none or others are there. `write` writes what stands below: `version NUMBER`, `zone ORIGIN`, `add`, `remove`,
//! `change` and `receipt` with a row. `zone ORIGIN`, `records ORIGIN`, `records-at ORIGIN KEY`, `records-between ORIGIN FROM TO`, `receipts
//! CALLER ID`, `changes ORIGIN`, `last ORIGIN`, `versions` and `all` print what is answered, in the order of the texts. `no-memory` and
//! `no-memory-row` print those refusals.
//!
//! `Kept`: in a body, and in answers, a row of a table is a line: `version N`, `zone ORIGIN`,
//! `record ORIGIN OWNER TYPE TTL KEY DATA`, `change ORIGIN NUMBER SIDE OWNER TYPE TTL DATA` or
//! `receipt CALLER ID ORIGIN ITEM|..|REPLY`. `rows` keeps the rows of its body. `state VERSION` tells whether they are a state of that
//! version, `reversed` the same of them the other way round, `also` of them and those of the body, and `without` of them without
//! those. `origins` and `receipts` print what is listed of them, and `longest` the changes of the zone with the most rows of changes.
//! `zone ORIGIN`, `part ORIGIN`, `subtree`, `receipt` and `changes` print what is read of the rows of the body.
//! `addition NUMBER REPLY` prints what is written for an update of the items that lines `item` say, whose change lines `gone` and
//! `come` say; `new-zone` for the zone of the records of the body; and `replacement NUMBER` for that of lines `new` in the place of
//! that of lines `old`.
//!
//! Databases, here and in the crates above, are in files of memory, on disks that can stop at any of their calls and lose what was not
//! synced.
#![tactic(auto)]

mod batch;
mod columns;
mod disks;
mod files;
mod refusal;
mod replies;
mod rows;
mod states;
mod table_queries;
mod tables;

pub use disks::{Disks, Held, Loss, Stop, Stopping};
pub use files::{empty_files, opened};
pub use states::Kept;
pub use tables::Tables;
