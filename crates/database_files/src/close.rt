//! A database is closed with a mark.

ghost use Rattle.std.specs.Prelude.{◌≡◌, Some, IfErr, IfOk};
ghost use Rattle.sqlite_wal.specs.Reads.{AreClean};
ghost use Rattle.sqlite.specs.State.{store_error};
ghost use Rattle.database_files.specs.Marks.{IsCopiedAs, MayBeLeft};

use sqlite::{Connection, Error, ErrorCode, FileStore};
use sqlite_disk::{Disk, Files};
use sqlite_trees::error::StoreError;
use sqlite_trees::store::Alter;

// What a connection names a failure of its store.
fn store_error(error: StoreError) -> Error
    ensures { result ≡ store_error error }
{
    Error::SqliteFailure(match error {
        StoreError::OutOfMemory => ErrorCode::OutOfMemory,
        StoreError::Io => ErrorCode::SystemIoFailure,
        StoreError::Corrupt => ErrorCode::DatabaseCorrupt,
        StoreError::Full => ErrorCode::DiskFull,
        StoreError::Broken => ErrorCode::Closed,
        StoreError::Unstorable => ErrorCode::TooBig,
    })
}

// Rolls back, commits this mark, copies the log into the file of the database, and gives the files
// back.
fn close_marked<D: Disk + Drop>(
    conn: Connection<FileStore<D>>,
    mark: u32,
) -> Result<Files<D>, (Error, FileStore<D>)>
    ensures copied { IfOk result (λ files.
        AreClean D.Disk files.log files.db → IsCopiedAs conn (Some mark) files) }
    ensures left { IfErr result (λ refusal. MayBeLeft conn (Some mark) refusal.1) }
{
    let mut store = conn.into_store();
    if let Err(error) = store.set_version(mark) {
        return Err((store_error(error), store));
    }
    if let Err(error) = store.commit() {
        return Err((store_error(error), store));
    }
    match store.checkpoint() {
        Ok(()) => Ok(store.close()),
        Err(error) => Err((store_error(error), store)),
    }
}

/// As [`Connection::close_files`], where no mark is given. Else that is committed before the log is
/// copied into the file of the database.
pub fn close_with<D: Disk + Drop>(
    conn: Connection<FileStore<D>>,
    mark: Option<u32>,
) -> Result<Files<D>, (Error, FileStore<D>)>
    ensures copied { IfOk result (λ files.
        AreClean D.Disk files.log files.db → IsCopiedAs conn mark files) }
    ensures left { IfErr result (λ refusal. MayBeLeft conn mark refusal.1) }
{
    match mark {
        Some(mark) => close_marked(conn, mark),
        None => conn.close_files(),
    }
}
