//! All rows: outside vectors and worked examples, whose wanted values come from the standards, from the formats, or from hand.
//! `section NAME` says what the rows below are about, and a crate for its rows: `names`, `data` and `files` (`test_dns`); `policies`,
//! `zones`, `items` and `bodies` (`test_zones`); `tables` and `states` (`test_tables`); `stores`, `stops` and `exchanges`
//! (`test_office`); `commands` and `words` (`test_commands`); `stored` and `callers` (`test_program`).
//!
//! A refusal is answered by its number and its line, if it has them, and its words, and in each section `no-memory` prints that one.
#![tactic(auto)]

mod sections;

use std::io;

fn main(rt: HostRuntime) -> io::Result<()> {
    test_rows::run(&rt, &mut sections::Sections::new(&rt))
}
