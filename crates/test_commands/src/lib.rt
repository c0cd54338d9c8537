//! Rows of commands that need no store, and of the words of a command line. The wanted answers are written by hand, from the formats
//! and from worked examples.
//!
//! `commands`: `apply`, `canon ORIGIN`, `canon-relative ORIGIN`, `request ID`, `split ID`, `rights CALLER|NAME|TYPE|ACTION` and `rights-json`, `check`,
//! `isolation CALLER`, `build ZONES`, `print ZONES` and `explain NUMBER|FORM` give the body to the command, and print what it prints, and its exit status with the words
//! of the refusal. In front of a command stands `many`, where each line of the body has before it how often it comes; `pieces N`, where the
//! devices move at most N octets a call; `reads N COUNT` or `writes N COUNT`, where they do and so many of the calls fail, each in a run of
//! its own. `shapes COMMAND` has lines as `many`, and prints of each line the words up to its first comma, how many prerequisites and
//! operations it has, how many octets, and a serial. `heads NUMBER|..` prints the first lines of what `explain` prints of each number.
//!
//! `diff ORIGIN` gives two master files, with a line `--` between them, to the command, and `diff-guarded` has it print prerequisites too,
//! `diff-guarded-sets` those on sets only; `edit ORIGIN`, `edit-guarded` and `edit-guarded-sets` print what `apply` makes of the first and
//! the items; in `diff-reads` the first read of each file fails, and in `diff-write` the first write.
//!
//! `plan CALLER` gives a policy, and after a line `==` what `apply` reads, to the command, and `plan-answers`, `plan-explained`, `plan-json`,
//! `plan-answers-json` and `plan-explained-json` ask for these forms; in `plan-reads` the first read of each input
//! fails, and in `plan-write` the first write.
//!
//! `reach CALLER|ORIGIN` gives a policy, and after a line `==` a master file, to the command; in `reach-reads` the first read of each input
//! fails, and in `reach-write` the first write.
//!
//! `words`: in a row the words of the command line have bars between them, and a verb alone has no words. `job WORDS` prints the job
//! that they ask for, or `help` or `misused`; `text WORDS` prints what is told where they ask for none.
#![tactic(auto)]

mod commands;
mod words;

pub use commands::push_command_answer;
pub use words::push_words_answer;
