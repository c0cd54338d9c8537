//! The program: it does the job that the words of the command line ask for, in this process and with the files of this machine.
#![tactic(auto)]

ghost use Rattle.std.specs.Prelude.{⊤, None};
ghost use Rattle.cli_store.specs.Around.{Around};

use cli_store::{
    DeviceFailed, LineFault, MachineFiles, NO_MEMORY_LINE, Streams, Surroundings, fold_log,
    listen_at, read_path, run_words,
};
use std::alloc::{AllocError, Global};
use std::env;
use std::io::{self, ErrorKind};
use std::net::{SocketAddr, TcpListener};
use std::process::ExitCode;

/// Says on standard error which file cannot be read.
fn complain_unread(rt: &HostRuntime, path: &str) {
    if let Ok(words) = format!(in rt.alloc(); "zoneoffice: cannot read {path}") {
        let _ = rt.eprintln(words.as_str());
    }
}

/// This process, and the files of this machine. No contract can say what they hold.
#[derive(Clone, Copy)]
struct Process<'a>(&'a HostRuntime);

impl Surroundings for Process<'_> {
    type Clock = HostRuntime;

    type Listener = TcpListener;

    ghost around = { λ _. record { file = λ _. None; unreadable = λ _. ⊤; heard = λ _ _ _. ⊤; unheard = λ _. ⊤ } };

    fn alloc(&self) -> Global {
        self.0.alloc()
    }

    fn clock(&self) -> &HostRuntime {
        self.0
    }

    fn say(&self, line: &str) {
        let _ = self.0.eprintln(line);
    }

    fn file(&self, _alloc: Global, path: &str) -> Result<Vec<u8>, LineFault> {
        let read = read_path(self.0, path);
        if matches!(read, Err(LineFault::ReadFailed)) {
            complain_unread(self.0, path);
        }
        read
    }

    fn listen(&self, address: SocketAddr) -> Result<(TcpListener, SocketAddr), DeviceFailed> {
        listen_at(self.0, address)
    }
}

/// Prints that there is no memory for the words.
fn no_memory(rt: &HostRuntime) -> ExitCode {
    let _ = rt.print(NO_MEMORY_LINE);
    ExitCode::FAILURE
}

/// `--guard=sets` as the flag `--guard-sets`, since a flag of the parser takes no value. Any other word is as it is.
fn spelled(word: &str) -> &str {
    if word == "--guard=sets" {
        "--guard-sets"
    } else {
        word
    }
}

/// Borrows each of the words, as it is spelled; after `--` no word is an option.
fn borrowed(alloc: Global, words: &[String]) -> Result<Vec<&str>, AllocError> {
    let mut texts = Vec::new(alloc);
    let mut are_options = true;
    for word in words {
        let word = word.as_str();
        are_options = are_options && word != "--";
        texts.push(if are_options { spelled(word) } else { word })?;
    }
    Ok(texts)
}

/// The words after the program's name.
fn given_words(rt: &HostRuntime) -> io::Result<Vec<String>> {
    let mut words = env::args(rt)?;
    let _ = words.next();
    Ok(words.collect(rt.alloc())?)
}

/// Does what words ask for with the streams of this process.
fn run(rt: &HostRuntime, words: &[&str]) -> ExitCode {
    let streams = Streams {
        input: rt.stdin(),
        output: rt.stdout(),
        trace: rt.stderr(),
    };
    let (conn, _, status) = run_words(&Process(rt), MachineFiles(rt), words, streams);
    fold_log(&Process(rt), conn);
    status
}

fn main(rt: HostRuntime) -> ExitCode {
    match given_words(&rt) {
        Ok(words) => match borrowed(rt.alloc(), &words) {
            Ok(words) => run(&rt, &words),
            Err(_) => no_memory(&rt),
        },
        Err(fault) if fault.kind() == ErrorKind::OutOfMemory => no_memory(&rt),
        Err(_) => {
            let _ = rt.eprintln("the words of the command line are no texts");
            ExitCode::from(2)
        }
    }
}
