//! A database in a copy, in memory, of its two files.

ghost use Rattle.std.specs.Prelude.{◌≡◌, IfErr, IfOk};
ghost use Rattle.memory_database.specs.Copies.{FailsToCopy, IsCopyOf};
ghost use Rattle.memory_database.specs.Errors.{opening_error};

use crate::file::VolatileFile;
use crate::open::options;
use crate::want::want_of_memory;
use sqlite::{Connection, Error, ErrorCode, FileStore, Files};
use std::alloc::{AllocError, Global};

/// The store of a database in a copy of its files.
pub type CopyStore = FileStore<VolatileFile>;

// What a failed opening is told as: what memory fails, it fails for want of room.
fn opening_error(error: Error) -> Error
    ensures { result ≡ opening_error error }
{
    match error {
        Error::SqliteFailure(ErrorCode::SystemIoFailure | ErrorCode::DiskFull) => {
            AllocError::from(want_of_memory(error)).into()
        }
        other => other,
    }
}

/// The database in a copy of two files: that of a database, and its log, which may be empty. The log
/// is recovered in the copy. Where both are empty this is an empty database.
///
/// # Errors
///
/// `NotADatabase` or `DatabaseCorrupt` where the bytes hold none; else `OutOfMemory`.
pub fn open_copy(
    alloc: Global,
    log: Vec<u8>,
    database: Vec<u8>,
) -> Result<Connection<CopyStore>, Error>
    ensures copy { IfOk result (IsCopyOf log.items database.items) }
    ensures cause { IfErr result (FailsToCopy log.items database.items) }
{
    let files = Files {
        log: VolatileFile::of(log),
        db: VolatileFile::of(database),
    };
    match Connection::open_files(alloc, files, options()) {
        Ok(conn) => Ok(conn),
        Err((error, _)) => Err(opening_error(error)),
    }
}
