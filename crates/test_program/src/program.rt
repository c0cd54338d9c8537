//! What the program does with words, over the files of a row.

ghost use Rattle.std.specs.Prelude.{⊤, None};
ghost use Rattle.cli_store.specs.Around.{Around};

use cli_store::{
    DeviceFailed, LineFault, MachineFiles, Streams, Surroundings, fold_log, heard, listen_at,
    read_path, run_words,
};
use std::alloc::{AllocError, Global};
use std::net::{SocketAddr, TcpListener};
use std::process::ExitCode;

/// A machine, and a listener that the program gets wherever it is to listen, if there is one.
#[derive(Clone, Copy)]
pub struct Given<'a> {
    /// The machine.
    pub rt: &'a HostRuntime,
    /// The listener.
    pub listener: Option<&'a TcpListener>,
}

impl Surroundings for Given<'_> {
    type Clock = HostRuntime;

    type Listener = TcpListener;

    ghost around = { λ _. record { file = λ _. None; unreadable = λ _. ⊤; heard = λ _ _ _. ⊤; unheard = λ _. ⊤ } };

    fn alloc(&self) -> Global {
        self.rt.alloc()
    }

    fn clock(&self) -> &HostRuntime {
        self.rt
    }

    fn say(&self, line: &str) {
        let _ = self.rt.eprintln(line);
    }

    fn file(&self, _alloc: Global, path: &str) -> Result<Vec<u8>, LineFault> {
        read_path(self.rt, path)
    }

    fn listen(&self, address: SocketAddr) -> Result<(TcpListener, SocketAddr), DeviceFailed> {
        match self.listener {
            Some(listener) => heard(listener.try_clone()),
            None => listen_at(self.rt, address),
        }
    }
}

/// What the program told, its trace, and its exit status.
#[derive(Drop)]
pub struct Told {
    /// What it wrote to standard output.
    pub output: Vec<u8>,
    /// What it wrote to its trace.
    pub trace: Vec<u8>,
    /// Its exit status.
    pub status: ExitCode,
}

/// What the program does with words and an input, at a listener if there is one.
pub fn told_by<'a>(
    rt: &'a HostRuntime,
    listener: Option<&'a TcpListener>,
    words: &[&str],
    input: &[u8],
) -> Told {
    let streams = Streams {
        input,
        output: Vec::new(rt.alloc()),
        trace: Vec::new(rt.alloc()),
    };
    let around = Given { rt, listener };
    let (conn, streams, status) = run_words(&around, MachineFiles(rt), words, streams);
    fold_log(&around, conn);
    Told {
        output: streams.output,
        trace: streams.trace,
        status,
    }
}

/// Appends what the program writes of an input to standard output and to its trace, and its exit status.
pub fn push_run(
    rt: &HostRuntime,
    words: &[&str],
    input: &[u8],
    answer: &mut Vec<u8>,
) -> Result<(), AllocError> {
    let told = told_by(rt, None, words, input);
    answer.extend_from_slice(&told.output)?;
    answer.extend_from_slice(&told.trace)?;
    answer.extend_from_slice(status_text(told.status).as_bytes())
}

fn status_text(status: ExitCode) -> &'static str {
    if status == ExitCode::SUCCESS {
        "status 0"
    } else if status == ExitCode::FAILURE {
        "status 1"
    } else {
        "status 2"
    }
}
