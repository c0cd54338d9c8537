//! Surroundings that keep the beginnings of the files that they read last.

ghost use Rattle.std.specs.Prelude.{◌≡◌};

use crate::beginning::Beginning;
use crate::surroundings::Surroundings;
use cli_core::LineFault;
use dns_master::DeviceFailed;
use std::alloc::{AllocError, Global};
use std::cell::RefCell;
use std::net::SocketAddr;

/// A file that was read.
#[derive(Drop)]
pub(crate) struct KeptFile {
    path: String,
    beginning: Beginning,
}

impl KeptFile {
    /// A file of this path that holds these octets.
    fn new(alloc: Global, path: &str, octets: &[u8]) -> Result<KeptFile, AllocError> {
        let mut beginning = Beginning::new(alloc);
        beginning.keep(octets);
        Ok(KeptFile {
            path: String::from_str(alloc, path)?,
            beginning,
        })
    }

    /// Its path.
    pub(crate) fn path(&self) -> &str {
        &self.path
    }

    /// Its beginning.
    pub(crate) fn beginning(&self) -> &Beginning {
        &self.beginning
    }
}

/// How many files are kept: no job that hints are given of reads more, and an import of a list reads many.
const FILES_MAX: usize = 2;

/// Surroundings that keep the beginnings of the last two files that they read. If memory is short they keep fewer.
#[derive(Drop)]
pub(crate) struct KeptFiles<'a, M> {
    around: &'a M,
    files: RefCell<Vec<KeptFile>>,
}

impl<'a, M> KeptFiles<'a, M> {
    /// Surroundings of which no file was read yet.
    pub(crate) fn new(alloc: Global, around: &'a M) -> KeptFiles<'a, M>
        ensures { result.around.now ≡ around.now }
    {
        KeptFiles {
            around,
            files: RefCell::new(Vec::new(alloc)),
        }
    }

    /// The files that were read last, in the order in which they were read.
    pub(crate) fn into_files(self) -> Vec<KeptFile> {
        let KeptFiles { around: _, files } = self;
        files.into_inner()
    }

    /// Keeps the beginning of a file that holds these octets.
    fn keep(&self, alloc: Global, path: &str, octets: &[u8]) {
        let Ok(file) = KeptFile::new(alloc, path, octets) else {
            return;
        };
        if let Ok(mut files) = self.files.try_borrow_mut() {
            if files.len() >= FILES_MAX {
                let _ = files.remove(0);
            }
            let _ = files.push(file);
        }
    }
}

impl<M: Surroundings> Surroundings for KeptFiles<'_, M> {
    type Clock = M::Clock;

    type Listener = M::Listener;

    ghost around = { λ kept. M.around kept.around.now };

    fn alloc(&self) -> Global {
        self.around.alloc()
    }

    fn clock(&self) -> &M::Clock {
        self.around.clock()
    }

    fn say(&self, line: &str) {
        self.around.say(line)
    }

    fn file(&self, alloc: Global, path: &str) -> Result<Vec<u8>, LineFault> {
        let read = self.around.file(alloc, path);
        if let Ok(octets) = &read {
            self.keep(alloc, path, octets);
        }
        read
    }

    fn listen(&self, address: SocketAddr) -> Result<(M::Listener, SocketAddr), DeviceFailed> {
        self.around.listen(address)
    }
}
