//! Disks that stop.

use crate::files::{MemoryDisk, opened};
use anyhow::{Result, anyhow, bail};
use sqlite::Files;
use sqlite_disk::{Crash, Disk, Fuse, Memory};
use std::alloc::Global;

/// What two disks hold: the log of a database, and the database.
#[derive(Drop)]
pub struct Held {
    log: Vec<u8>,
    db: Vec<u8>,
}

/// Two disks, each of which passes some calls.
pub type Disks = Files<MemoryDisk>;

/// The disk that stops.
#[derive(Clone, Copy, PartialEq, Eq)]
pub enum Stopping {
    Log,
    Database,
}

/// What is lost of the disks where the machine stops.
#[derive(Clone, Copy, PartialEq, Eq)]
pub enum Loss {
    /// What was not synced.
    Unsynced,
    /// Nothing that was written.
    Nothing,
}

/// When the disks stop, and what is lost then.
#[derive(Clone, Copy)]
pub struct Stop {
    /// How many calls each disk passes.
    log_calls: u64,
    database_calls: u64,
    loss: Loss,
}

impl Stop {
    /// The disks pass all calls, and nothing is lost.
    pub const NEVER: Stop = Stop {
        log_calls: u64::MAX,
        database_calls: u64::MAX,
        loss: Loss::Nothing,
    };

    /// A disk stops after so many calls.
    pub fn behind(stopping: Stopping, calls: u64, loss: Loss) -> Stop {
        match stopping {
            Stopping::Log => Stop {
                log_calls: calls,
                database_calls: u64::MAX,
                loss,
            },
            Stopping::Database => Stop {
                log_calls: u64::MAX,
                database_calls: calls,
                loss,
            },
        }
    }
}

/// A disk with these octets.
fn disk(alloc: Global, octets: &[u8], calls: u64) -> Result<MemoryDisk> {
    let mut memory = Memory::new(alloc);
    memory.write_at(0, octets)?;
    memory.sync()?;
    Ok(Fuse::new(memory, calls))
}

/// What a disk holds after a stop of the machine.
fn octets_behind(alloc: Global, disk: MemoryDisk, loss: Loss) -> Result<Vec<u8>> {
    let mut disk = disk;
    if loss == Loss::Unsynced {
        disk.crash();
    }
    Ok(Vec::from_slice(alloc, disk.inner().bytes())?)
}

/// Copies the log into the database.
fn settled<D: Disk + Drop>(alloc: Global, disks: Files<D>) -> Result<Files<D>> {
    match opened(alloc, disks) {
        Ok(conn) => match conn.close_files() {
            Ok(disks) => Ok(disks),
            Err((error, _)) => Err(anyhow!("{error}")),
        },
        Err(_) => bail!("the disks are not opened"),
    }
}

impl Held {
    /// Nothing.
    pub fn new(alloc: Global) -> Held {
        Held {
            log: Vec::new(alloc),
            db: Vec::new(alloc),
        }
    }

    /// The same octets once more.
    pub fn copy(&self, alloc: Global) -> Result<Held> {
        let log = Vec::from_slice(alloc, &self.log)?;
        Ok(Held {
            log,
            db: Vec::from_slice(alloc, &self.db)?,
        })
    }

    /// Whether both files have the same octets as those of another.
    pub fn is(&self, other: &Held) -> bool {
        self.log == other.log && self.db == other.db
    }

    /// Disks that hold this and stop.
    pub fn disks(&self, alloc: Global, stop: Stop) -> Result<Disks> {
        let log = disk(alloc, &self.log, stop.log_calls)?;
        Ok(Files {
            log,
            db: disk(alloc, &self.db, stop.database_calls)?,
        })
    }

    /// Disks that hold this and never stop.
    pub fn sound_disks(&self, alloc: Global) -> Result<Disks> {
        self.disks(alloc, Stop::NEVER)
    }

    /// What some disks hold.
    pub fn of(alloc: Global, disks: Disks) -> Result<Held> {
        Held::behind(alloc, disks, Stop::NEVER)
    }

    /// What two disks hold after a stop of the machine.
    pub fn behind(alloc: Global, disks: Disks, stop: Stop) -> Result<Held> {
        let Files { log, db } = disks;
        let log = octets_behind(alloc, log, stop.loss)?;
        Ok(Held {
            log,
            db: octets_behind(alloc, db, stop.loss)?,
        })
    }

    /// What disks hold with the log copied into the database.
    pub fn settle(&self, alloc: Global) -> Result<Held> {
        Held::of(alloc, settled(alloc, self.sound_disks(alloc)?)?)
    }
}
