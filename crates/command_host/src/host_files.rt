//! The databases in the files of the host.

ghost use Rattle.std.specs.Prelude.{[], true, false, IfOk, IsTrue};
ghost use Rattle.sqlite_std_file.specs.File.{file_is_usable, IsFresh};
ghost use Rattle.sqlite_wal.specs.Files.{image_at};
ghost use Rattle.command_host.specs.HostFiles.{IsClosedInto, IsFoundIn};

use crate::databases::Databases;
use crate::host_name::{HostFile, HostName};
use crate::made::make_file;
use database_files::{HEAD, NamedDisk, close_with, user_version};
use no_memory::NoMemory;
use sqlite::{Connection, Error, ErrorCode, FileFrom, FileStore, Options, Start};
use sqlite_disk::Files;
use sqlite_std_file::OpenError;
use std::alloc::AllocError;
use std::fs::File;
use std::hash::{BuildHasher, RandomState};
use std::io::{ErrorKind, Read};
use std::{fs, io};

const CANNOT_OPEN: Error = Error::SqliteFailure(ErrorCode::CannotOpen);

// Whether SQLite takes a path for a file's, and not for a name in memory or a URI.
fn names_file(path: &str) -> bool {
    path != ":memory:" && !path.starts_with("file:")
}

// Why a database can't be opened, by an error of its files.
fn unopened(error: &io::Error) -> Error {
    match error.kind() {
        ErrorKind::OutOfMemory => AllocError::from(NoMemory::told()).into(),
        _ => CANNOT_OPEN,
    }
}

// Sees to it that there is a file for a database at a path, an empty one where nothing was.
fn have_file(rt: &HostRuntime, path: &str) -> Result<(), Error> {
    if !names_file(path) {
        return Err(CANNOT_OPEN);
    }
    match make_file(rt, path) {
        Ok(_) => Ok(()),
        Err(error) if error.kind() == ErrorKind::AlreadyExists => Ok(()),
        Err(error) => Err(unopened(&error)),
    }
}

// The files of the database at a path, which nobody else can open then.
fn locked_files<T: Start>(
    rt: &HostRuntime,
    path: &str,
    start: T,
) -> Result<Files<FileFrom<T>>, Error>
    ensures log { IfOk result (λ files. IsTrue (file_is_usable T.Start files.log)) }
    ensures db { IfOk result (λ files. IsTrue (file_is_usable T.Start files.db)) }
    ensures fresh { IfOk result (λ files. IsFresh true files.log × IsFresh false files.db) }
{
    match sqlite_std_file::open(rt, path, start) {
        Ok(files) => Ok(files),
        Err(OpenError::OutOfMemory) => Err(AllocError::from(NoMemory::told()).into()),
        Err(OpenError::Busy) => Err(Error::SqliteFailure(ErrorCode::DatabaseBusy)),
        Err(OpenError::Io(error)) => Err(unopened(&error)),
        Err(OpenError::HotJournal) => Err(CANNOT_OPEN),
    }
}

// The name of one of them, or why it has none.
fn named(name: io::Result<HostName>) -> Result<HostName, Error> {
    match name {
        Ok(name) => Ok(name),
        Err(error) => Err(unopened(&error)),
    }
}

// What a connection draws its numbers by.
fn options(rt: &HostRuntime) -> Result<Options, Error> {
    match RandomState::new(rt) {
        Ok(state) => Ok(Options::new(state.hash_one(&0u8))),
        Err(_) => Err(CANNOT_OPEN),
    }
}

// A connection over files that were opened by these names.
fn connection<T: Start>(
    rt: &HostRuntime,
    files: Files<FileFrom<T>>,
    log: HostName,
    db: HostName,
) -> Result<Connection<FileStore<HostFile<T>>>, Error>
    requires log { IsTrue (file_is_usable T.Start files.log) }
    requires db { IsTrue (file_is_usable T.Start files.db) }
    requires fresh { IsFresh true files.log × IsFresh false files.db }
    ensures { IfOk result (IsFoundIn (image_at T.Start)) }
{
    let options = options(rt)?;
    let files = Files {
        log: NamedDisk::new(files.log, log),
        db: NamedDisk::new(files.db, db),
    };
    match Connection::open_files(rt.alloc(), files, options) {
        Ok(conn) => Ok(conn),
        Err((error, _)) => Err(error),
    }
}

// The mark of the database in a file, by its first bytes.
fn mark_in(rt: &HostRuntime, path: &str) -> io::Result<u32> {
    let mut head = [0; HEAD];
    let mut file = File::open(rt, path)?;
    let mut count = 0;
    for _ in 0..head.len() {
        let read = file.read(&mut head[count..])?;
        if read == 0 {
            break;
        }
        count += read;
    }
    Ok(user_version(&head[..count]))
}

// The same where a path leads to a file that SQLite takes; else 0.
fn mark_at(rt: &HostRuntime, path: &str) -> io::Result<u32> {
    if !names_file(path) {
        return Ok(0);
    }
    match fs::metadata(rt, path) {
        Ok(metadata) if metadata.is_file() => mark_in(rt, path),
        Ok(_) => Ok(0),
        Err(error) if error.kind() == ErrorKind::NotFound => Ok(0),
        Err(error) => Err(error),
    }
}

/// The databases in the files of the host. `T` stands for what the files hold as they are opened:
/// what is proved of a command over them is proved for all contents.
#[derive(Drop)]
pub struct HostFiles<'r, T: Start + Copy> {
    rt: &'r HostRuntime,
    start: T,
}

impl<'r, T: Start + Copy> HostFiles<'r, T> {
    /// The databases in the files of this host.
    pub fn new(rt: &'r HostRuntime, start: T) -> HostFiles<'r, T> {
        HostFiles { rt, start }
    }
}

/// The files of the host that a database was closed into.
#[derive(Drop)]
pub struct ClosedFiles<T: Start + Copy> {
    /// The database's file and its log.
    pub files: Files<HostFile<T>>,
}

impl<T: Start + Copy> Databases for HostFiles<'_, T> {
    type Database = Connection<FileStore<HostFile<T>>>;

    type Closed = ClosedFiles<T>;

    ghost opened = { λ path. IsFoundIn (image_at T.Start) };

    ghost closed = { λ conn mark given. IsClosedInto conn mark given.files };

    fn is_there(&self, path: &str) -> io::Result<bool> {
        fs::exists(self.rt, path)
    }

    fn mark_at(&self, path: &str) -> io::Result<u32> {
        mark_at(self.rt, path)
    }

    // It was opened by this name where that led to one file before and after: who opens it asks how
    // long it is.
    fn open(&self, path: &str) -> Result<Connection<FileStore<HostFile<T>>>, Error> {
        have_file(self.rt, path)?;
        let db = named(HostName::new(self.rt, path))?;
        let files = locked_files(self.rt, path, self.start)?;
        let log = named(HostName::of_log(self.rt, path))?;
        connection(self.rt, files, log, db)
    }

    fn close(
        &self,
        database: Connection<FileStore<HostFile<T>>>,
        mark: Option<u32>,
    ) -> Result<ClosedFiles<T>, Error> {
        match close_with(database, mark) {
            Ok(files) => Ok(ClosedFiles { files }),
            Err((error, store)) => {
                drop(store.close());
                Err(error)
            }
        }
    }
}

/// Files whose contents the program doesn't know, and of which a torn write leaves each byte old or
/// new.
#[derive(Clone, Copy)]
pub struct UnknownFiles;

impl Start for UnknownFiles {
    ghost log = { [] };

    ghost db = { [] };

    ghost is_mixing = { true };

    fn mixes() -> bool {
        true
    }
}
