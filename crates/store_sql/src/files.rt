//! A connection to files, whatever they stand on.

ghost use Rattle.std.specs.Prelude.{◌≡◌, ◌≤◌, ◌↔◌, IfOk, IfErr, IsTrue, ⊤};
ghost use Rattle.sqlite_trees.specs.declared.error.StoreError.{StoreError};
ghost use Rattle.sqlite_wal.specs.PageSize.{bytes_of};
ghost use Rattle.sqlite_wal.specs.Reads.{AreClean, OnlyReads};
ghost use Rattle.sqlite_pool.specs.Opening.{IsBlankFile};
ghost use Rattle.sqlite_store.specs.FileStore.{is_shielded, view};
ghost use Rattle.sqlite.specs.Files.{FailsToOpenAs, IsCleanLeft, IsFullLeft, IsOpened, IsTooLong, LeavesFiles, faults_left, faults_of, file_state, image_of};
ghost use Rattle.sqlite.specs.Held.{IsNew};
ghost use Rattle.sqlite.specs.Opening as the;
ghost use Rattle.sqlite.specs.Opening.{FailsFor, is_open_error, probed, reported};
ghost use Rattle.sqlite.specs.State.{HasCleanDisk};
ghost use Rattle.store_sql.specs.Files.{IsBlank, IsMadeIn, ShowsThose};

use sqlite::{Connection, Error, ErrorCode, FileStore, Leftover, Options};
use sqlite_disk::{Disk, Files};
use sqlite_pager::Pager;
use sqlite_pool::probe_blank;
use sqlite_store::{OpenError, Unopened};
use sqlite_wal::{Error as LogError, PageSize};
use std::alloc::{AllocFailed, Global};

/// The size of the pages of a new database, in octets. A change writes some ten pages, and each of them costs by its octets.
const NEW_SIZE: usize = 1024;

pub(crate) const NO_MEMORY: Error = Error::SqliteFailure(ErrorCode::OutOfMemory);

const FULL: Error = Error::SqliteFailure(ErrorCode::DiskFull);

const NO_DATABASE: Error = Error::SqliteFailure(ErrorCode::NotADatabase);

const IO: Error = Error::SqliteFailure(ErrorCode::SystemIoFailure);

/// Tells why files could not be looked at.
fn unread(error: LogError) -> Error
    ensures named { IsTrue (is_open_error result) }
    ensures value { result ≡ probed error }
{
    match error {
        LogError::OutOfMemory => NO_MEMORY,
        LogError::Io(_) => IO,
        LogError::Full => FULL,
        _ => NO_DATABASE,
    }
}

/// Tells why no database was made.
fn unmade(error: OpenError) -> Error
    ensures named { IsTrue (is_open_error result) }
    ensures value { result ≡ reported error }
{
    match error {
        OpenError::OutOfMemory => NO_MEMORY,
        OpenError::Io => IO,
        OpenError::Full => FULL,
        OpenError::Refused => Error::SqliteFailure(ErrorCode::DatabaseCorrupt),
    }
}

/// A failure of the disk, by whatever name a connection tells it.
fn blurred(error: Error) -> Error
    ensures named { IsTrue (is_open_error error) → IsTrue (is_open_error result) }
    ensures value { result ≡ the.blurred error }
{
    match error {
        Error::SqliteFailure(ErrorCode::DatabaseCorrupt | ErrorCode::DiskFull) => IO,
        other => other,
    }
}

/// Whether there is no database in files, or one with pages of a size was begun and not made.
fn are_blank<D: Disk>(alloc: Global, files: &mut Files<D>, size: PageSize) -> Result<bool, Error>
    requires log { IsTrue (D.Disk.is_usable files.old.log) }
    requires db { IsTrue (D.Disk.is_usable files.old.db) }
    ensures answer { IfOk result (λ yes. AreClean D.Disk files.new.log files.new.db → (IsTrue yes ↔ IsBlankFile (bytes_of size) (image_of D.Disk files.old))) }
    ensures log { OnlyReads D.Disk files.old.log files.new.log }
    ensures db { OnlyReads D.Disk files.old.db files.new.db }
    ensures named { IfErr result (λ e. IsTrue (is_open_error e)) }
    ensures counts { faults_of D.Disk files.old ≤ faults_of D.Disk files.new }
    ensures cause { IfErr result
        (λ e. AreClean D.Disk files.new.log files.new.db
        → FailsFor (faults_of D.Disk files.old) (faults_of D.Disk files.new) (IsTooLong (image_of D.Disk files.old)) ⊤ e) }
{
    match probe_blank(alloc, files, size, false) {
        Ok(are_blank) => Ok(are_blank),
        Err(error) => Err(unread(error)),
    }
}

/// Makes an empty database, with pages of a size, in files that hold none.
fn make<D: Disk + Drop>(
    alloc: Global,
    files: Files<D>,
    size: PageSize,
    options: Options,
) -> Result<FileStore<D>, (Error, Leftover<D>)>
    requires log { IsTrue (D.Disk.is_usable files.log) }
    requires db { IsTrue (D.Disk.is_usable files.db) }
    ensures made { IfOk result (λ store. IsTrue (view store).is_clean → IsMadeIn files store) }
    ensures guarded { IfOk result (λ store. IsTrue (view store).is_clean → is_shielded store) }
    ensures named { IfErr result (λ e. IsTrue (is_open_error e.0)) }
    ensures honest { IfErr result (λ e. IsCleanLeft e.1 → AreClean D.Disk files.log files.db) }
    ensures cause { IfErr result
        (λ e. IsCleanLeft e.1
        → FailsFor (faults_of D.Disk files) (faults_left e.1) (IsFullLeft e.1) (IsBlankFile (bytes_of size) (image_of D.Disk files)) e.0) }
{
    let pager = match Pager::new(alloc, files, size, options) {
        Ok(pager) => pager,
        Err(AllocFailed { value: files }) => return Err((NO_MEMORY, Leftover::Files(files))),
    };
    let unopened = match Unopened::with_sums(alloc, pager, &[], false) {
        Ok(unopened) => unopened,
        Err(AllocFailed { value: pager }) => {
            return Err((NO_MEMORY, Leftover::Files(pager.close())));
        }
    };
    match unopened.create() {
        Ok(store) => Ok(store),
        Err((error, left)) => Err((unmade(error), Leftover::Unopened(left))),
    }
}

/// A connection to a new database.
fn new<D: Disk + Drop>(
    alloc: Global,
    files: Files<D>,
    size: PageSize,
    options: Options,
) -> Result<Connection<FileStore<D>>, (Error, Leftover<D>)>
    requires log { IsTrue (D.Disk.is_usable files.log) }
    requires db { IsTrue (D.Disk.is_usable files.db) }
    requires blank { AreClean D.Disk files.log files.db → IsBlankFile (bytes_of size) (image_of D.Disk files) }
    ensures shows { IfOk result (λ conn. HasCleanDisk (file_state conn) → ShowsThose files conn) }
    ensures opened { IfOk result (λ conn. HasCleanDisk (file_state conn) → IsOpened conn) }
    ensures guarded { IfOk result (λ conn. HasCleanDisk (file_state conn) → (file_state conn).IsShielded) }
    ensures fresh { IfOk result IsNew }
    ensures named { IfErr result (λ e. IsTrue (is_open_error e.0)) }
    ensures honest { IfErr result (λ e. IsCleanLeft e.1 → AreClean D.Disk files.log files.db) }
    ensures cause { IfErr result (λ e. IsCleanLeft e.1 → FailsFor (faults_of D.Disk files) (faults_left e.1) (IsFullLeft e.1) ⊤ e.0) }
{
    let store = make(alloc, files, size, options)?;
    match Connection::over(alloc, store) {
        Ok(conn) => Ok(conn),
        Err((error, store)) => Err((blurred(error), Leftover::Store(store))),
    }
}

/// A connection to the database in files, which is made with pages of 1,024 octets if they are not there yet. A refusal comes with what
/// is left of the files.
///
/// It is named as `Connection::open_files` names it: files that are no database, a disk that fails or is full, and out of memory.
pub fn connect<D: Disk + Drop>(
    alloc: Global,
    files: Files<D>,
    options: Options,
) -> Result<Connection<FileStore<D>>, (Error, Leftover<D>)>
    requires log { IsTrue (D.Disk.is_usable files.log) }
    requires db { IsTrue (D.Disk.is_usable files.db) }
    // The database that the files held is there, and an empty one where they held none.
    ensures shows { IfOk result (λ conn. HasCleanDisk (file_state conn) → ShowsThose files conn) }
    ensures opened { IfOk result (λ conn. HasCleanDisk (file_state conn) → IsOpened conn) }
    ensures guarded { IfOk result (λ conn. HasCleanDisk (file_state conn) → (file_state conn).IsShielded) }
    ensures fresh { IfOk result IsNew }
    ensures named { IfErr result (λ e. IsTrue (is_open_error e.0)) }
    // When each of them comes.
    ensures cause { IfErr result (λ e. IsCleanLeft e.1 → (kind : StoreError) × FailsToOpenAs kind files e.1 e.0) }
    // After a refusal files that held something hold it still, whatever a crash leaves of them.
    ensures unharmed { IfErr result (λ e. IsCleanLeft e.1 → ¬ IsBlank (image_of D.Disk files) → LeavesFiles files e.1) }
{
    let mut files = files;
    let size = PageSize::new(NEW_SIZE).unwrap();
    match are_blank(alloc, &mut files, size) {
        Ok(true) => new(alloc, files, size, options),
        Ok(false) => Connection::open_files(alloc, files, options),
        Err(error) => Err((error, Leftover::Files(files))),
    }
}
