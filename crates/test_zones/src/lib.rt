//! Rows of policies, zones, items of updates, JSON bodies, and calls of the office in words: worked examples, whose wanted values come from
//! the standards, from the formats, or from hand.
//!
//! `policies`: `policy` reads the document of its body and keeps it, and `many N` that of its body N times, where `#` stands for the
//! number of each time, from 0. `build` keeps the policy of the rules of its body, a line `ID EFFECT CALLER SCOPE AT TYPES ACTIONS`
//! each. Of the policy that is kept, `decide CALLER NAME TYPE ACTION` tells the decision, with the rule that made it, and
//! `rights CALLER NAME` whether the caller has any right there; `idle` prints each rule that never decides with those that take its
//! questions after a colon, by their ids; `slice ORIGIN..` prints the rules that can matter in zones, `stray ORIGIN..` those that
//! cannot, `unspoken ORIGIN..` the zones of which no rule speaks, and `hidden CALLER ORIGIN` what the caller may not list there. `covers AT NAME` tells which scopes cover the name;
//! `identifier TEXT` reads an identifier, and `identifiers ONE OTHER` compares two; `effect WORD`, `scope WORD` and
//! `action WORD` read a word.
//!
//! `zones`: `zone ORIGIN` builds the zone of the body's record lines, and the rows below it are about that zone; `build ORIGIN` prints
//! the zone instead. `tells`, `at NAME`, `set NAME TYPE`, `within NAME` and `report` print what the zone tells, lists and delegates.
//! `holds` tests the prerequisites of the body, an item a line or with bars between them; `change` prints what its operations
//! remove and add, `after` the zone after them, an SOA as its serial, and `serial-after` only that. `to ORIGIN` prints the operations
//! from that zone to the one of the body, as item lines, and the serial of the zone after them. `read` reads such items,
//! `outside ORIGIN` tells which is the first outside, and `same ITEMS` whether they are those of the line. `delegate ORIGIN CHILD
//! TTL` prints the operations for the servers of the body, each with its addresses, and `delegate-count` how many there are.
//! `less N M` and `sum N M` compare and add serials. `large N` prints the first records of sets of more than N records. `before` prints
//! the records of the zone before the changes of the body, whose lines are records after `- ` and `+ `, with a line `--` between two changes;
//! and `bringers` its records with the numbers of the changes that brought them.
//!
//! `items`: `items` prints the canonical lines of the items below; `many N LINE` prints how many items a line makes so many times,
//! before the lines below. `points ORIGIN ITEM` prints what an item asks for, by type number. `policy` reads the policy below, and
//! `permission CALLER ORIGIN` prints whether it permits the items below, or which of them is denied first and by which rule.
//!
//! `bodies`: `update BODY` and `delegation ORIGIN BODY` read a body and print its identifier and a line for each item;
//! `update-size` and `delegation-size` print how many items it has. The other verbs print the body of a reply:
//! `reply WORDS` to an update, `id-reused`, `servfail`, `not-auth`, `not-zone`, `granted RULE`, `denied RULE` or `denied` by the
//! closing default; `records` and `file ORIGIN`, with the items that add the records below; `changes`, with lines
//! `NUMBER|REMOVED|ADDED` of such items; `delegations`, with lines `CHILD|GLUE SERVER|..`; and `refusals FORMERR REFUSAL` prints the
//! bodies of two refusals after each other.
//!
//! Calls of the office, which the crates above ask of their tables: `update CALLER ID ORIGIN` with item lines,
//! `delegate CALLER ID ORIGIN CHILD TTL` with lines `SERVER ADDRESS..`, `list CALLER ORIGIN`, `list-within CALLER ORIGIN TOP`,
//! `file CALLER ORIGIN`, `delegations CALLER ORIGIN`, `changes CALLER ORIGIN FROM` and `rights CALLER NAME TYPE ACTION`. The reply is
//! printed in words.
//!
//! A refusal is answered by its number and its line, if it has them, and its words, and in each section `no-memory` prints that one.
#![tactic(auto)]

mod bodies;
mod calls;
mod items;
mod policies;
mod refusal;
mod replies;
mod zones;

pub use bodies::push_body_answer;
pub use calls::{call, call_of, identifier, name};
pub use items::Items;
pub use policies::Policies;
pub use replies::{push_records, reply_text};
pub use zones::Zones;
