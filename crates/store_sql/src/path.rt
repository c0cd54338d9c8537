//! A connection to the file of a path.

ghost use Rattle.std.specs.Prelude.{codes, ◌≡◌, true, false, Err, IfOk, IfErr, IsTrue};
ghost use Rattle.sqlite_wal.specs.Files.{image_at};
ghost use Rattle.sqlite.specs.Files.{IsOpened, file_state};
ghost use Rattle.sqlite.specs.Held.{IsNew};
ghost use Rattle.sqlite.specs.Opening.{is_open_error};
ghost use Rattle.sqlite.specs.State.{HasCleanDisk};
ghost use Rattle.sqlite_std_file.specs.File.{IsFresh, file_is_usable};
ghost use Rattle.store_sql.specs.Files.{Shows};

use crate::files::{NO_MEMORY, connect};
use sqlite::{Connection, Error, ErrorCode, FileFrom, FileStore, Options, Start};
use sqlite_disk::Files;
use sqlite_std_file::OpenError;
use std::hash::{BuildHasher, RandomState};
use std::io::ErrorKind;

const CANNOT_OPEN: Error = Error::SqliteFailure(ErrorCode::CannotOpen);

/// Tells why the files of a path could not be opened.
fn unopened(error: OpenError) -> Error
    ensures { IsTrue (is_open_error result) }
{
    match error {
        OpenError::OutOfMemory => NO_MEMORY,
        OpenError::Busy => Error::SqliteFailure(ErrorCode::DatabaseBusy),
        OpenError::Io(error) if error.kind() == ErrorKind::OutOfMemory => NO_MEMORY,
        OpenError::Io(_) | OpenError::HotJournal => CANNOT_OPEN,
    }
}

/// The database file of a path and its log, which are made where they are not there. What SQLite calls by the names `:memory:` and
/// `file:` is no file.
fn files_at<S: Start>(rt: &HostRuntime, path: &str, start: S) -> Result<Files<FileFrom<S>>, Error>
    ensures memory { path.now ≡ codes ":memory:" → result ≡ Err (Error.SqliteFailure ErrorCode.CannotOpen) }
    ensures usable { IfOk result (λ files. IsTrue (file_is_usable S.Start files.log) × IsTrue (file_is_usable S.Start files.db)) }
    ensures fresh { IfOk result (λ files. IsFresh true files.log × IsFresh false files.db) }
    ensures named { IfErr result (λ e. IsTrue (is_open_error e)) }
{
    if path == ":memory:" || path.starts_with("file:") {
        return Err(CANNOT_OPEN);
    }
    match sqlite_std_file::open(rt, path, start) {
        Ok(files) => Ok(files),
        Err(error) => Err(unopened(error)),
    }
}

/// A connection to the database in the file of a path: a new one, with pages of 1,024 octets, where there is no file or none with a
/// database. `start` says what the file held.
///
/// What is refused is named as `Connection::open_from` names it: a file that is no database, that another process has open, or that
/// cannot be opened; a disk that fails or is full; and out of memory.
pub fn connect_at<S: Start>(
    rt: &HostRuntime,
    path: &str,
    start: S,
) -> Result<Connection<FileStore<FileFrom<S>>>, Error>
    ensures memory { path.now ≡ codes ":memory:" → result ≡ Err (Error.SqliteFailure ErrorCode.CannotOpen) }
    // The database that the file held is there, and an empty one where it held none.
    ensures shows { IfOk result (λ conn. HasCleanDisk (file_state conn) → Shows (image_at S.Start) (file_state conn)) }
    ensures opened { IfOk result (λ conn. HasCleanDisk (file_state conn) → IsOpened conn) }
    ensures guarded { IfOk result (λ conn. HasCleanDisk (file_state conn) → (file_state conn).IsShielded) }
    ensures fresh { IfOk result IsNew }
    ensures named { IfErr result (λ e. IsTrue (is_open_error e)) }
{
    let files = files_at(rt, path, start)?;
    let Ok(keys) = RandomState::new(rt) else {
        return Err(CANNOT_OPEN);
    };
    match connect(rt.alloc(), files, Options::new(keys.hash_one(&0u8))) {
        Ok(conn) => Ok(conn),
        Err((error, _left)) => Err(error),
    }
}
