//! The journals in the files of the host.

ghost use Rattle.std.specs.Prelude.{◌≡◌, [], false, IfOk, IsTrue};
ghost use Rattle.sqlite_std_file.specs.File.{file_is_usable, IsFresh};

use crate::file_id::{folder_of, is_one_file};
use crate::host_name::{HostFile, HostName, log_name};
use crate::journals::Journals;
use crate::made::{Made, make_file, remove_unused};
use crate::no_file::NoFile;
use database_files::{Name, NamedDisk};
use no_memory::NoMemory;
use sqlite::{FileFrom, Start};
use sqlite_disk::{Disk, Files};
use sqlite_std_file::{OpenError, open};
use std::alloc::AllocError;
use std::fs::File;
use std::io::ErrorKind;
use std::{fs, io};

// Waits until a crash would leave the entry of a path in its folder.
fn sync_entry(rt: &HostRuntime, path: &str) -> io::Result<()> {
    File::open(rt, folder_of(path))?.sync_all()
}

// Why a file can't be made.
fn unmade(error: &io::Error) -> NoFile {
    match error.kind() {
        ErrorKind::AlreadyExists => NoFile::There,
        ErrorKind::OutOfMemory => NoFile::NoMemory(NoMemory::told()),
        _ => NoFile::Failed,
    }
}

// Why a file can't be opened.
fn unopened(error: OpenError) -> NoFile {
    match error {
        OpenError::Busy => NoFile::Busy,
        OpenError::OutOfMemory => NoFile::NoMemory(NoMemory::told()),
        OpenError::Io(error) => match error.kind() {
            ErrorKind::OutOfMemory => NoFile::NoMemory(NoMemory::told()),
            _ => NoFile::Failed,
        },
        OpenError::HotJournal => NoFile::Failed,
    }
}

// Why a file can't be looked at.
fn unseen(error: &io::Error) -> NoFile {
    match error.kind() {
        ErrorKind::OutOfMemory => NoFile::NoMemory(NoMemory::told()),
        _ => NoFile::Failed,
    }
}

// The file at a path, which nobody else can open then.
fn locked_file<T: Start>(rt: &HostRuntime, path: &str, start: T) -> Result<FileFrom<T>, NoFile>
    ensures usable { IfOk result (λ file. IsTrue (file_is_usable T.Start file)) }
    ensures fresh { IfOk result (λ file. IsFresh false file) }
{
    match open(rt, path, start) {
        Ok(Files { log, db }) => {
            drop(log);
            Ok(db)
        }
        Err(error) => Err(unopened(error)),
    }
}

// A file that was opened, where it is the one that was made, and nobody has written to it.
fn begun<T: Start>(
    rt: &HostRuntime,
    path: &str,
    made: &Made<'_>,
    file: HostFile<T>,
) -> Result<HostFile<T>, NoFile>
    ensures { IfOk result (λ file.
        IsTrue (⟦<NamedDisk<FileFrom<T>, HostName> as Disk>⟧.is_clean file)
        → ⟦<NamedDisk<FileFrom<T>, HostName> as Disk>⟧.seen file ≡ []) }
{
    let mut file = file;
    if !file.may_be_used() {
        return Err(NoFile::Failed);
    }
    if !file.name().is_of(made.id()) {
        return Err(NoFile::There);
    }
    match file.len() {
        Ok(0) => {}
        Ok(_) => return Err(NoFile::There),
        Err(_) => return Err(NoFile::There),
    }
    match sync_entry(rt, path) {
        Ok(()) => Ok(file),
        Err(_) => Err(NoFile::Failed),
    }
}

/// The journals in the files of the host. `T` stands for what a file holds as it is opened: what is
/// proved of a command over them is proved for all contents.
#[derive(Drop)]
pub struct HostJournals<'r, T: Start + Copy> {
    rt: &'r HostRuntime,
    start: T,
}

impl<'r, T: Start + Copy> HostJournals<'r, T> {
    /// The journals in the files of this host.
    pub fn new(rt: &'r HostRuntime, start: T) -> HostJournals<'r, T> {
        HostJournals { rt, start }
    }
}

impl<T: Start + Copy> Journals for HostJournals<'_, T> {
    type File = HostFile<T>;

    ghost use Rattle.std.specs.Prelude.{⊤};

    ghost creates = { λ _ _ _. ⊤ };

    // While a file that was made is not yet locked, another command may take it for its own.
    fn create(&self, path: &str) -> Result<Self::File, NoFile> {
        let made = match make_file(self.rt, path) {
            Ok(made) => made,
            Err(error) => return Err(unmade(&error)),
        };
        let begun = match self.open(path) {
            Ok(file) => begun(self.rt, path, &made, file),
            Err(why) => Err(why),
        };
        if begun.is_err() {
            // Why there is no journal is reported, and not whether the file was removed.
            let _ = remove_unused(&made, path);
        }
        begun
    }

    ghost opens = { λ _ _ _. ⊤ };

    // The kit's file takes the lock, and would be made where none is: so one is looked for first. It
    // was opened by this name where that led to one file before and after.
    fn open(&self, path: &str) -> Result<Self::File, NoFile> {
        let name = match HostName::new(self.rt, path) {
            Ok(name) => name,
            Err(error) => return Err(unseen(&error)),
        };
        let log = match log_name(self.rt, path) {
            Ok(log) => log,
            Err(error) => return Err(unseen(&error)),
        };
        // The kit's file has a log beside it, which is made here where nothing is.
        let spare = make_file(self.rt, log.as_str());
        let opened = locked_file(self.rt, path, self.start);
        if let Ok(spare) = spare {
            // It is no harm where it stays.
            let _ = remove_unused(&spare, log.as_str());
        }
        let mut file = match opened {
            Ok(file) => NamedDisk::new(file, name),
            Err(why) => return Err(why),
        };
        match file.len() {
            Ok(_) => Ok(file),
            Err(_) => Err(NoFile::Failed),
        }
    }

    ghost removes = { λ _ _ _ _. ⊤ };

    fn remove(&self, path: &str, file: Self::File) -> io::Result<()> {
        if !file.name().leads_to_file(None) {
            return Err(ErrorKind::NotFound.into());
        }
        fs::remove_file(self.rt, path)?;
        // It was locked until now.
        drop(file);
        sync_entry(self.rt, path)
    }

    ghost compares = { λ _ _ _ _. ⊤ };

    fn is_one_file(&self, path: &str, database: &str) -> Result<bool, AllocError> {
        is_one_file(self.rt, path, database)
    }
}
