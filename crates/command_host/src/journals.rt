//! Journals at paths.

ghost use Rattle.std.specs.Prelude.{◌≡◌, ℕ, List, [], Bool, Result, ⊤, IfOk, IsTrue};
ghost use Rattle.std.specs.declared.alloc.AllocError.{AllocError as Refused};
ghost use Rattle.std.specs.declared.io.Error.{Error};
ghost use Rattle.sqlite_disk.specs.Disk.{Only};
ghost use Rattle.command_host.specs.declared.no_file.NoFile.{NoFile};

use crate::no_file::NoFile;
use sqlite_disk::Disk;
use std::alloc::AllocError;
use std::io;

/// The files of journals at paths, so that a test can stand in for those of the host. Of `creates`,
/// `opens`, `removes` and `compares` nothing is known but that a call meets them, so that who promises
/// them has called with just this path, and has what came of that.
pub trait Journals {
    /// A file, as a disk.
    type File: Disk + Drop;

    /// What came of making the file at a path.
    ghost creates: { Self → List ℕ → Result Self.File NoFile → Type 0 };

    /// Makes an empty file at a path, which its owner alone may read and write, and nobody else can
    /// open then.
    ///
    /// # Errors
    ///
    /// `There` where something is there, or another file or a byte by the time that it is opened, and
    /// `Busy` where another has it open by then: that is left as it is.
    fn create(&self, path: &str) -> Result<Self::File, NoFile>
        ensures created { creates self.now path.now result }
        ensures empty { IfOk result (λ file.
            IsTrue (Self.File.is_clean file) → Self.File.seen file ≡ []) };

    /// What came of opening the file at a path.
    ghost opens: { Self → List ℕ → Result Self.File NoFile → Type 0 };

    /// Opens the file at a path, which nobody else can open then. A crash leaves what it has.
    ///
    /// # Errors
    ///
    /// `Busy` where another has it open.
    fn open(&self, path: &str) -> Result<Self::File, NoFile>
        ensures opened { opens self.now path.now result }
        ensures settled { IfOk result (λ file.
            Only (Self.File.seen file) (Self.File.may_leave file)) };

    /// What came of removing a file at its path.
    ghost removes: { Self → List ℕ → Self.File → Result ⊤ Error → Type 0 };

    /// Removes a file at its path, while that leads to it, and lets it go then.
    fn remove(&self, path: &str, file: Self::File) -> io::Result<()>
        ensures { removes self.now path.now file result };

    /// What came of asking whether the file at a path and a database at another are one file.
    ghost compares: { Self → List ℕ → List ℕ → Result Bool Refused → Type 0 };

    /// Whether the file at a path and the database at another are one file, or one of them is made
    /// beside the other, by whatever names.
    ///
    /// # Errors
    ///
    /// Only where there is no memory.
    fn is_one_file(&self, path: &str, database: &str) -> Result<bool, AllocError>
        ensures { compares self.now path.now database.now result };
}
