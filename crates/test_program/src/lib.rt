//! Answers to rows of what the program does with a store in a file (section `stored`), and of what it answers over sockets
//! (`callers`).
//!
//! `stored`: stores and policies in files. `files NAME` begins with a store and a policy that have no files, whose paths end in that name,
//! and `remove` ends with them. `store` and `policy` write what stands below to one of the two, `comment N` writes a comment of N octets to
//! the policy, and `sql` runs the script below on the store. `look` tells whether the store has a file, and `pages` prints its octets 16
//! and 17, and `frames` how many frames its log has. What the commands print is printed: `import ORIGIN` and `replace ORIGIN` of the master
//! file below, `export ORIGIN` and `relative ORIGIN`, `migrate`, and `serve ADDRESS` for no connection. `listens ADDRESS` prints that
//! without the port, and `taken` what `serve` prints at an address where another one listens. `run WORDS`, with bars between the words,
//! prints what the program writes of the body, and its exit status; `STORE` and `POLICY` are the two paths. `listed WORDS` does so with the
//! path of the policy after each line of the body. `request WORDS` prints what it writes without the port at which it listens, and what a
//! client is answered that calls it there with the body.
//!
//! `callers`: an office over sockets. `listen` begins with no callers. `call` connects and sends what stands below and nothing after
//! it, `begin` leaves that side open, and `leave N` sends the same N times and is gone. `answer N` serves N connections from a table in
//! memory, and prints what the office tells and its trace, and then what each caller that is there was answered; `once N` does so with
//! connections that get too old with their first request.
//!
//! A refusal is answered by its number and its line, if it has them, and its words.
#![tactic(auto)]

mod callers;
mod callers_office;
mod client;
mod program;
mod store_file;
mod stored;

pub use callers::Callers;
pub use stored::Files;
