//! What is done to a store on disks.

use crate::acts::done;
use crate::deed::Deed;
use anyhow::Result;
use grant_policy::Policy;
use sqlite::{Connection, FileStore, Files};
use sqlite_disk::Disk;
use std::alloc::Global;
use test_tables::{Held, Stop, opened};

/// How a connection ends.
#[derive(Clone, Copy)]
enum End {
    /// The log stays as it is.
    Dropped,
    /// The log is copied into the database.
    Closed,
}

/// The disks after a connection, and whether the log was copied.
#[derive(Drop)]
struct Left<D: Disk> {
    disks: Files<D>,
    copied: bool,
}

fn end_of<D: Disk + Drop>(conn: Connection<FileStore<D>>, end: End) -> Left<D> {
    match end {
        End::Dropped => unclosed(conn.into_store().close()),
        End::Closed => match conn.close_files() {
            Ok(disks) => Left {
                disks,
                copied: true,
            },
            Err((_, store)) => unclosed(store.close()),
        },
    }
}

fn unclosed<D: Disk>(disks: Files<D>) -> Left<D> {
    Left {
        disks,
        copied: false,
    }
}

/// Does something to the store on some disks.
fn acted<D: Disk + Drop>(
    alloc: Global,
    disks: Files<D>,
    policy: &Policy,
    deed: &Deed,
    end: End,
) -> (Result<Vec<u8>>, Left<D>) {
    match opened(alloc, disks) {
        Ok(conn) => {
            let (told, conn) = done(alloc, conn, policy, deed);
            (told, end_of(conn, end))
        }
        Err(disks) => (unopened(alloc), unclosed(disks)),
    }
}

fn unopened(alloc: Global) -> Result<Vec<u8>> {
    Ok(Vec::from_slice(alloc, b"not opened")?)
}

/// Does something to the store on disks that stop, and tells what is told of it, and what they hold then.
pub fn act(
    alloc: Global,
    held: &Held,
    stop: Stop,
    policy: &Policy,
    deed: &Deed,
) -> Result<(Vec<u8>, Held)> {
    let disks = held.disks(alloc, stop)?;
    let (told, left) = acted(alloc, disks, policy, deed, End::Dropped);
    let held = Held::behind(alloc, left.disks, stop)?;
    Ok((told?, held))
}

/// What is told of something that was done to a store before it was closed, what the disks hold then, and whether the log was copied.
#[derive(Drop)]
pub struct Closing {
    pub told: Vec<u8>,
    pub held: Held,
    pub copied: bool,
}

/// Does something to the store on disks that stop, and closes it.
pub fn act_and_close(
    alloc: Global,
    held: &Held,
    stop: Stop,
    policy: &Policy,
    deed: &Deed,
) -> Result<Closing> {
    let disks = held.disks(alloc, stop)?;
    let (told, left) = acted(alloc, disks, policy, deed, End::Closed);
    let Left { disks, copied } = left;
    let held = Held::behind(alloc, disks, stop)?;
    Ok(Closing {
        told: told?,
        held,
        copied,
    })
}

/// Does something to the store on disks that never stop, and copies the log into the database.
pub fn act_settled(
    alloc: Global,
    held: &Held,
    policy: &Policy,
    deed: &Deed,
) -> Result<(Vec<u8>, Held)> {
    let (told, held) = act(alloc, held, Stop::NEVER, policy, deed)?;
    Ok((told, held.settle(alloc)?))
}
