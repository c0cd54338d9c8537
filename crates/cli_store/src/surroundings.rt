//! What is around the program: the files that words name, listeners, the time, and standard error.

ghost use Rattle.std.specs.Prelude.{⊤, Some, [], IfOk, OnErr};
ghost use Rattle.cli_core.specs.LineFaults.{GivesOf, limited};
ghost use Rattle.cli_store.specs.Around.{Around};

use crate::listening::Socket;
use cli_core::{Input, LineFault};
use dns_master::DeviceFailed;
use std::alloc::Global;
use std::net::SocketAddr;
use std::time::Clock;

/// What the program runs in, beside its streams and the files of stores. It reaches nothing else of the machine.
pub trait Surroundings {
    /// What tells the time.
    type Clock: Clock;

    /// What listens for connections.
    type Listener: Socket + Drop;

    // What the named files hold, where a listener listens, and when there can be none.
    ghost around: { Self → Around Self.Listener };

    /// The allocator.
    fn alloc(&self) -> Global;

    /// What tells the time.
    fn clock(&self) -> &Self::Clock;

    /// Writes a line to standard error, as why a job was not done. A failure is ignored.
    fn say(&self, line: &str);

    /// All octets of the file of a path. More than 4,194,304 are `TooLarge`, and `ReadFailed` comes only where it cannot be read.
    fn file(&self, alloc: Global, path: &str) -> Result<Vec<u8>, LineFault>
        ensures { GivesOf (λ octets. octets.items) ((around self.now).file path.now) limited result ⊤ ((around self.now).unreadable path.now) };

    /// A listener at an address and a port, and where it listens. An error comes only where there can be none.
    fn listen(&self, address: SocketAddr) -> Result<(Self::Listener, SocketAddr), DeviceFailed>
        ensures heard { IfOk result (λ heard. (around self.now).heard address heard.0 heard.1) }
        ensures unheard { OnErr result ((around self.now).unheard address) };
}

/// A file that words name, which is an input.
#[derive(Clone, Copy)]
pub(crate) struct NamedFile<'a, M> {
    /// What it is read from.
    pub(crate) around: &'a M,
    /// Its path.
    pub(crate) path: &'a str,
}

impl<M: Surroundings> Input for NamedFile<'_, M> {
    ghost left = { λ f. (M.around f.around.now).file f.path.now };

    ghost fine = { λ _ _. ⊤ };

    ghost failed = { λ f _. (M.around f.around.now).unreadable f.path.now };

    ghost still = { λ _. tt };

    fn read_whole(&mut self, alloc: Global) -> Result<Vec<u8>, LineFault> {
        self.around.file(alloc, self.path)
    }
}

/// An input that has nothing left.
#[derive(Clone, Copy)]
pub(crate) struct Ended;

impl Input for Ended {
    ghost left = { λ _. Some [] };

    ghost fine = { λ _ _. ⊤ };

    ghost failed = { λ _ _. ⊥ };

    ghost still = { λ _. tt };

    fn read_whole(&mut self, alloc: Global) -> Result<Vec<u8>, LineFault> {
        Ok(Vec::new(alloc))
    }
}
