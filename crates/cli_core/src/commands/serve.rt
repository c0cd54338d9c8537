//! The command `serve`.

ghost use Rattle.cli_core.specs.declared.commands.Command.TheVariants as command;

use crate::argument::Argument;
use crate::commands::{CommandWords, Row};
use crate::job::{Job, StoreJob};
use crate::matched::{number_at, text_at, texts_at};
use clap::ArgMatches;

/// The words of `serve`.
#[derive(Clone, Copy)]
pub struct Service<'a> {
    /// The path of the store.
    pub store: &'a str,
    /// The path of the policy.
    pub policy: &'a str,
    /// The address and the port to listen at.
    pub listen: &'a str,
    /// After how many connections to end, where a number is given.
    pub connections: Option<u64>,
    /// For how many seconds to wait for a peer, where a number is given.
    pub patience: Option<u64>,
    /// After how many seconds to end a connection between two requests, where a number is given.
    pub longest: Option<u64>,
    /// How many MB of memory zones may take that were asked for before, where a number is given.
    pub memory: Option<u64>,
}

pub(super) static ROW: Row = Row {
    word: "serve",
    about: "Answers callers over HTTP",
    example: "Example: zoneoffice serve --store office.db --policy policy.toml --listen 127.0.0.1:8053",
    arguments: &[
        Argument::Store,
        Argument::Policy,
        Argument::Listen,
        Argument::Connections,
        Argument::Patience,
        Argument::Longest,
        Argument::Memory,
    ],
};

impl<'a> CommandWords<'a> for Service<'a> {
    ghost command = { command.Serve };

    fn read(matches: &ArgMatches<'a>) -> Option<Job<'a>> {
        let (store, policy) = texts_at(matches, Argument::Store, Argument::Policy)?;
        let listen = text_at(matches, Argument::Listen)?;
        let connections = number_at(matches, Argument::Connections)?;
        let patience = number_at(matches, Argument::Patience)?;
        let longest = number_at(matches, Argument::Longest)?;
        let memory = number_at(matches, Argument::Memory)?;
        let service = Service {
            store,
            policy,
            listen,
            connections,
            patience,
            longest,
            memory,
        };
        Some(Job::Store(StoreJob::Serve(service)))
    }
}
