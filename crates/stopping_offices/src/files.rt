//! Two files in memory, of which one stops.

use sqlite::{Connection, FileStore, Files, Options};
use sqlite_disk::{Crash, Disk, Fuse, Memory};
use std::alloc::Global;
use std::test::Fail;

/// One of the two files of an office.
#[derive(Clone, Copy, Debug)]
pub enum File {
    Log,
    Database,
}

/// A file that stops after so many of its calls: each later one fails, and changes nothing.
#[derive(Clone, Copy, Debug)]
pub struct Stop {
    pub file: File,
    pub calls: u64,
}

/// More calls than any run makes.
pub const ENDLESS: u64 = 1_000_000;

impl Stop {
    /// These files, of which one stops.
    pub fn of(self, files: Files<Memory>) -> Files<Fuse<Memory>> {
        let (log_calls, db_calls) = match self.file {
            File::Log => (self.calls, ENDLESS),
            File::Database => (ENDLESS, self.calls),
        };
        Files {
            log: Fuse::new(files.log, log_calls),
            db: Fuse::new(files.db, db_calls),
        }
    }

    /// Whether the file has stopped.
    pub fn is_reached(self, files: &mut Files<Fuse<Memory>>) -> bool {
        match self.file {
            File::Log => has_stopped(&mut files.log),
            File::Database => has_stopped(&mut files.db),
        }
    }
}

/// Whether a file has stopped.
pub fn has_stopped(file: &mut Fuse<Memory>) -> bool {
    if !file.may_be_used() {
        return true;
    }
    file.len().is_err()
}

/// Two empty files.
pub fn empty_files(alloc: Global) -> Files<Memory> {
    Files {
        log: Memory::new(alloc),
        db: Memory::new(alloc),
    }
}

/// A file that has these bytes, also after a crash.
pub fn synced(alloc: Global, bytes: &[u8]) -> Result<Memory, Fail> {
    let mut file = Memory::new(alloc);
    file.write_at(0, bytes)?;
    file.sync()?;
    Ok(file)
}

/// Files that have the bytes of a log and of a database.
pub fn files_of(alloc: Global, log: &[u8], db: &[u8]) -> Result<Files<Memory>, Fail> {
    Ok(Files {
        log: synced(alloc, log)?,
        db: synced(alloc, db)?,
    })
}

/// What is left where the process died: all that was written.
pub fn kept(alloc: Global, files: &Files<Fuse<Memory>>) -> Result<Files<Memory>, Fail> {
    files_of(alloc, files.log.inner().bytes(), files.db.inner().bytes())
}

/// What is left where the machine stopped: what was synced.
pub fn crashed(files: Files<Fuse<Memory>>) -> Files<Fuse<Memory>> {
    let mut files = files;
    files.log.crash();
    files.db.crash();
    files
}

// Where the last byte stands that these contents differ in.
fn last_difference(old: &[u8], new: &[u8]) -> usize {
    if new.len() > old.len() {
        return new.len();
    }
    let mut last = 0;
    for (at, (a, b)) in old.iter().zip(new).enumerate() {
        if a != b {
            last = at;
        }
    }
    last
}

// The file after a write of which just the first half got there; none where nothing was written.
fn half_written(alloc: Global, old: &[u8], new: &[u8]) -> Result<Option<Memory>, Fail> {
    if old == new {
        return Ok(None);
    }
    let first = old.iter().zip(new).take_while(|(a, b)| a == b).count();
    let half = last_difference(old, new).saturating_sub(first) / 2;
    let middle = first.saturating_add(half).min(new.len());
    let mut bytes = Vec::new(alloc);
    bytes.extend_from_slice(&new[..middle])?;
    bytes.extend_from_slice(old.get(middle..).unwrap_or(b""))?;
    Ok(Some(synced(alloc, &bytes)?))
}

/// What is left where the last call of the file that stops was a write, and was torn; none where it was another.
pub fn torn(
    alloc: Global,
    file: File,
    old: &Files<Memory>,
    new: &Files<Memory>,
) -> Result<Option<Files<Memory>>, Fail> {
    let (log, db) = match file {
        File::Log => (
            half_written(alloc, old.log.bytes(), new.log.bytes())?,
            Some(synced(alloc, new.db.bytes())?),
        ),
        File::Database => (
            Some(synced(alloc, new.log.bytes())?),
            half_written(alloc, old.db.bytes(), new.db.bytes())?,
        ),
    };
    match (log, db) {
        (Some(log), Some(db)) => Ok(Some(Files { log, db })),
        _ => Ok(None),
    }
}

// How the files are opened: with little memory, and the log is copied into the database file often.
fn options() -> Options {
    let mut options = Options::new(7);
    options.cache_pages = 16;
    options.spill_pages = 16;
    options.checkpoint_frames = 8;
    options
}

/// A connection over files, or the files where they don't open.
pub fn opened<D: Disk + Drop>(
    alloc: Global,
    files: Files<D>,
) -> Result<Connection<FileStore<D>>, Files<D>> {
    if !files.may_be_used() {
        return Err(files);
    }
    match Connection::open_files(alloc, files, options()) {
        Ok(conn) => Ok(conn),
        Err((_, left)) => Err(left.into_files()),
    }
}
