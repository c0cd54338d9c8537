//! Stores in files of memory.

use sqlite::{Connection, FileStore, Files, Options};
use sqlite_disk::{Disk, Fuse, Memory};
use std::alloc::Global;
use store_sql::connect;

/// A disk of memory that can stop.
pub type MemoryDisk = Fuse<Memory>;

/// Two empty files of memory, on disks that never stop.
pub fn empty_files(alloc: Global) -> Files<MemoryDisk> {
    Files {
        log: Fuse::new(Memory::new(alloc), u64::MAX),
        db: Fuse::new(Memory::new(alloc), u64::MAX),
    }
}

/// A connection to the database of two files, of which few pages are kept; or the files, where it can't be opened.
pub fn opened<D: Disk + Drop>(
    alloc: Global,
    files: Files<D>,
) -> Result<Connection<FileStore<D>>, Files<D>> {
    let options = Options {
        cache_pages: 16,
        spill_pages: 16,
        ..Options::new(1)
    };
    if !files.log.may_be_used() {
        return Err(files);
    }
    if !files.db.may_be_used() {
        return Err(files);
    }
    match connect(alloc, files, options) {
        Ok(conn) => Ok(conn),
        Err((_, left)) => Err(left.into_files()),
    }
}
