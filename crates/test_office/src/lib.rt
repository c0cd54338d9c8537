//! The office over its stores, by rows. The wanted answers are written by hand, and the rows of a store by SQL, as any other program would
//! write them.
//!
//! Stores over databases in files of memory, and on disks that stop: tables that are made and found, zones that come and go, rows that are
//! no state, stores of version 1, and what is found after each stop.
//!
//! Of a store `create` makes the tables, `migrate` takes them from version 1 to version 2, and `sql` runs the script below. All else
//! finds the table anew: `adopt` tells whether there is one, `import ORIGIN` and `replace ORIGIN` take the zone of the master file
//! below, `remove ORIGIN` takes one out, `export ORIGIN` and `subtree CALLER ORIGIN TOP` print records, `origins` prints those of all
//! zones and `receipts` all receipts, `receipt CALLER ID` tells whether there is one, a call of the office (`test_zones`) is answered,
//! and `look` asks each line below.
//!
//! `Stores`: `policy` takes its text from the body. `database` makes a database by the script of the body, and what is said above is
//! done to it. `again` makes it anew, runs the script below too, and looks for the table, or migrates it for `again migrate`.
//!
//! `Stops`: what is done to a store is found whole or not at all after each stop, and can be done then. `policy` takes its text from the
//! body, and `look` the lines by which a store is looked at. `disks` begins with empty disks, and the same things are done to the store on
//! them. `stop` prints what the look tells before and after what the row says, and what is told of that and of the same once more. Then it
//! does it again and again, and closes the store, over disks of which one stops at one call after the other, until it is done and closed
//! without a stop, and tells whether each stop left the store as it was or as it is to be, and never as it was where it was told to be
//! done; and whether the same, done after the stop, is told and found as it is to be.
//!
//! `Office`: what the office answers, over HTTP and in words, over a table in memory and over SQLite in files of memory, which answer the
//! same.
//!
//! `policy` and `zone ORIGIN` take their text from the body. `start MOST..` begins a case: new tables with that zone, and a stream
//! that is read and written by pieces of at most so many octets, once for each number. `octets`, `get TARGET CALLER` and
//! `post TARGET CALLER` append to the stream what the row spells, and print what is answered to it; `connect` begins another
//! stream. The calls of `test_zones` print the reply in words. `failing CALL..` begins a case whose first stream or request finds a
//! table of which these calls fail. `cuts`, `failed-reads` and `failed-writes` go over the case again and again, with its first
//! stream cut after each octet, or with each of its reads or writes failing, and print the numbers of the octets or calls before
//! what is answered then. `faults` prints what the refusals of requests and streams say.
#![tactic(auto)]

mod acting;
mod acts;
mod case;
mod deed;
mod faults;
mod given;
mod office;
mod spoiling;
mod steps;
mod stops;
mod stores;
mod streams;
mod tables;
mod told;
mod trial;

pub use office::Office;
pub use stops::Stops;
pub use stores::Stores;
