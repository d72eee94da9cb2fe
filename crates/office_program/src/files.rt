//! Files that tell how much of them was read.

use crate::measured::Measured;
use crate::meter::Meter;
use std::alloc::Allocator;
use std::fs::{Files, Metadata, OpenOptions};
use std::io;
use std::io::Eprint;
use std::path::PathBuf;
use std::time::Clock;

/// The same files, of which a [`Meter`] is told how much of each was read. What [`Files`] lets its
/// implementors leave out, as modes and the making of links, they leave out.
#[derive(Drop)]
pub(crate) struct MeasuredFiles<'m, R: Clock + Eprint, F: Files> {
    files: F,
    meter: &'m Meter<R>,
}

impl<'m, R: Clock + Eprint, F: Files> MeasuredFiles<'m, R, F> {
    pub(crate) fn new(files: F, meter: &'m Meter<R>) -> MeasuredFiles<'m, R, F> {
        MeasuredFiles { files, meter }
    }
}

impl<'m, R: Clock + Eprint, F: Files> Files for MeasuredFiles<'m, R, F> {
    type File = Measured<'m, R, F::File>;

    type Dir = F::Dir;

    fn open_file(&self, how: &OpenOptions, path: &str) -> io::Result<Self::File> {
        let file = self.files.open_file(how, path)?;
        Ok(Measured::new(file, self.meter))
    }

    fn open_dir(&self, path: &str) -> io::Result<F::Dir> {
        self.files.open_dir(path)
    }

    fn metadata(&self, path: &str) -> io::Result<Metadata> {
        self.files.metadata(path)
    }

    fn symlink_metadata(&self, path: &str) -> io::Result<Metadata> {
        self.files.symlink_metadata(path)
    }

    fn copy(&self, from: &str, to: &str) -> io::Result<u64> {
        self.files.copy(from, to)
    }

    fn rename(&self, from: &str, to: &str) -> io::Result<()> {
        self.files.rename(from, to)
    }

    fn remove_file(&self, path: &str) -> io::Result<()> {
        self.files.remove_file(path)
    }

    fn create_dir(&self, path: &str) -> io::Result<()> {
        self.files.create_dir(path)
    }

    fn remove_dir(&self, path: &str) -> io::Result<()> {
        self.files.remove_dir(path)
    }

    fn remove_dir_all<B: Allocator>(&self, alloc: B, path: &str) -> io::Result<()> {
        self.files.remove_dir_all(alloc, path)
    }

    fn canonicalize<B: Allocator>(&self, alloc: B, path: &str) -> io::Result<PathBuf<B>> {
        self.files.canonicalize(alloc, path)
    }
}
