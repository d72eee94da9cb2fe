//! Files that a command makes, and removes again where they stay unused.

ghost use Rattle.std.specs.Prelude.{ℕ, List, Bool, true, Ok, Result, ⊤};
ghost use Rattle.std.specs.declared.io.Error.{Error};
ghost use Rattle.command_host.specs.Made.{IsLetGo};

use crate::file_id::{FileId, id_of};
use os::{RangeLock, try_lock_range};
use std::fs::{File, OpenOptions, Permissions};
use std::os::fd::AsRawFd;
use std::os::unix::fs::{OpenOptionsExt, PermissionsExt};
use std::{fs, io};

// What the owner of a file may do with it, and nobody else anything.
const OWNER_ALONE: u32 = 0o600;

// The first of the bytes that are locked of a file which is open as a disk, and how many they are.
const LOCKED: u64 = 1 << 30;

const LOCKED_BYTES: u64 = 512;

/// A file that was made, and stays open: so no other gets its number.
#[derive(Drop)]
pub(crate) struct Made<'r> {
    rt: &'r HostRuntime,
    file: File,
    id: FileId,
}

impl Made<'_> {
    /// Which file it is.
    pub(crate) fn id(&self) -> FileId {
        self.id
    }
}

/// Makes an empty file where nothing is. The mode is given to the call that makes it, so that nobody
/// else can ever have it open, and set again since the umask took from it.
pub(crate) fn make_file<'r>(rt: &'r HostRuntime, path: &str) -> io::Result<Made<'r>> {
    let file = OpenOptions::new()
        .write(true)
        .create_new(true)
        .mode(OWNER_ALONE)
        .open(rt, path)?;
    file.set_permissions(Permissions::from_mode(OWNER_ALONE))?;
    let id = id_of(&file.metadata()?);
    Ok(Made { rt, file, id })
}

/// A file that was made, and may be removed. Of `locks`, `measures`, `leads` and `clears` nothing is
/// known but that a call meets them, so that who promises them has made just this call, and has what
/// came of that.
pub(crate) trait Unused {
    /// What came of locking it.
    ghost locks: { Self → Bool → Type 0 };

    /// Locks it as one that is open as a disk; not where another has it open so.
    fn lock(&self) -> bool
        ensures { locks self.now result };

    /// What came of asking how many bytes it has.
    ghost measures: { Self → Result ℕ Error → Type 0 };

    /// How many bytes it has.
    fn len(&self) -> io::Result<u64>
        ensures { measures self.now result };

    /// What came of asking whether a path leads to it.
    ghost leads: { Self → List ℕ → Bool → Type 0 };

    /// Whether a path leads to it.
    fn is_at(&self, path: &str) -> bool
        ensures { leads self.now path.now result };

    /// What came of removing it.
    ghost clears: { Self → List ℕ → Result ⊤ Error → Type 0 };

    /// Removes it at a path, which led to it as it was locked and had no byte.
    fn clear(&self, path: &str) -> io::Result<()>
        requires locked { locks self.now true }
        requires empty { measures self.now (Ok 0) }
        requires here { leads self.now path.now true }
        ensures { clears self.now path.now result };
}

impl Unused for Made<'_> {
    ghost locks = { λ _ _. ⊤ };

    fn lock(&self) -> bool {
        let fd = self.file.as_raw_fd();
        try_lock_range(fd, RangeLock::Exclusive, LOCKED, LOCKED_BYTES) == 0
    }

    ghost measures = { λ _ _. ⊤ };

    fn len(&self) -> io::Result<u64> {
        Ok(self.file.metadata()?.len())
    }

    ghost leads = { λ _ _ _. ⊤ };

    fn is_at(&self, path: &str) -> bool {
        match fs::symlink_metadata(self.rt, path) {
            Ok(found) => id_of(&found) == self.id,
            Err(_) => false,
        }
    }

    ghost clears = { λ _ _ _. ⊤ };

    fn clear(&self, path: &str) -> io::Result<()> {
        fs::remove_file(self.rt, path)
    }
}

/// Removes a file that was made at a path, where nobody has it open, the path still leads to it, and it
/// has no byte.
pub(crate) fn remove_unused<M: Unused>(made: &M, path: &str) -> io::Result<()>
    ensures { IsLetGo (M.locks made.now) (M.leads made.now path.now) (M.measures made.now)
        (M.clears made.now path.now) result }
{
    if !made.lock() {
        return Ok(());
    }
    if !made.is_at(path) {
        return Ok(());
    }
    match made.len() {
        Ok(0) => made.clear(path),
        Ok(_) => Ok(()),
        Err(error) => Err(error),
    }
}
