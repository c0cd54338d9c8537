//! Rows of names, record data and master files: outside vectors and worked examples, whose wanted values come from the standards or
//! from hand.
//!
//! `names`: `absolute TEXT` and `relative ORIGIN TEXT` read a name and print its text, or the number and the words of the refusal;
//! `labels`, `parents` and `key NAME` print what they are called; `ancestor-key N NAME` prints the key of the ancestor with N
//! labels; `within NAME TOP` tells where the name stands; `range TOP NAME` tells whether the name's key is in the range of the
//! top's; `order` and `text-order` compare each name of the body with each, a line a name; and `symbol TEXT` reads one symbol.
//!
//! `data`: `type TEXT` reads a type, `numbered N` finds it by its number, and `ttl TEXT` prints seconds. `data TYPE ITEMS` and
//! `data-at ORIGIN TYPE ITEMS` read data and print their text, and `count TYPE ITEMS` how many strings or octets they have;
//! `ipv4 NUMBERS` and `ipv6 GROUPS` print addresses. One space stands between items, and a quoted item in its quotes.
//! `line OWNER TTL TYPE ITEMS` prints a record, `same` compares the two records of its body, and `ranked RECORD` tells how
//! many records of earlier such rows a record stands after and before.
//!
//! `files`: the body of a row is a master file. `tokens` prints its items, each as `ITEM@START:LINE:ENTRY`, with its quotes if it
//! has them; `entries` counts its items, and those of each entry with its line; `file ORIGIN` prints the lines of its records;
//! `print N ORIGIN` prints them as a zone, N octets at a time, and reads them again; and `print-records N ORIGIN` prints only the
//! lines. `failing N CALL ORIGIN` and `failing-records N CALL ORIGIN` print what goes out, up to a bar, where the write of that number
//! fails, and `long N CALL TIMES` how much of a zone of one line so many times. `read N CALL` and `write N CALL` print what a device
//! gives or takes of the body. A refusal is printed as its number, with those of the faults inside it, its line, and its words.
//!
//! In each section `no-memory` prints that refusal.
#![tactic(auto)]

mod data;
mod devices;
mod files;
mod items;
mod names;
mod page;
mod records;

pub use data::Records;
pub use files::push_file_answer;
pub use names::push_name_answer;
