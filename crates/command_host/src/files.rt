//! The files of the program.

use crate::place::{Stamp, database_place, stamp_at};
use std::alloc::Global;
use std::fs::Files;
use std::io::Read;
use std::path::PathBuf;
use std::{fs, io};

/// Files, as seen by who passes on what is opened. Of `opens`, `gives`, `places` and `stamps` nothing
/// is known but that a call meets them, so that who promises them has opened or asked about just this
/// path or has read this file, and has what came of that.
pub trait PassFiles: Files {
    ghost use Rattle.std.specs.Prelude.{ℕ, List, Option, Result};
    ghost use Rattle.std.specs.Io.{ReadsAtMost};
    ghost use Rattle.std.specs.Io.KnownBytes.{ReadConsumes};
    ghost use Rattle.std.specs.declared.alloc.Global.{Global};
    ghost use Rattle.std.specs.declared.io.Error.{Error};
    ghost use Rattle.std.specs.declared.path.buf.PathBuf.{PathBuf};
    ghost use Rattle.command_host.specs.declared.place.Stamp.{Stamp};

    /// What came of opening the file at a path, for reading.
    ghost opens: { Self → List ℕ → Result Self.File Error → Type 0 };

    /// What came of one call of read on a file.
    ghost gives: { (old new : Self.File) → Result ℕ Error → List ℕ → Type 0 };

    /// What came of asking where the database at a path lies.
    ghost places: { Self → List ℕ → Result (PathBuf Global) Error → Type 0 };

    /// What came of asking how the file at a path is.
    ghost stamps: { Self → List ℕ → Option Stamp → Type 0 };

    /// Opens the file at a path for reading, by [`fs::open`].
    fn open_at(&self, path: &str) -> io::Result<Self::File>
        ensures { opens self.now path.now result };

    /// One call of [`Read::read`] on a file.
    fn read_in(&self, file: &mut Self::File, buf: &mut [u8]) -> io::Result<usize>
        ensures bound { ReadsAtMost result buf.new }
        ensures bytes { ReadConsumes
            (Self.File.remaining file.old) (Self.File.remaining file.new) result buf.new }
        ensures gives { gives file.old file.new result buf.new };

    /// Where the database at a path lies: its name without a link.
    ///
    /// # Errors
    ///
    /// `NotFound` where nothing is there, `OutOfMemory`, and others where one who serves an office
    /// refuses what is there: what is no regular file, or has another name too, or one beside which
    /// SQLite left a journal to play back.
    fn place_of(&self, alloc: Global, path: &str) -> io::Result<PathBuf>
        ensures { places self.now path.now result };

    /// How the file at a path is at this moment.
    fn stamp_of(&self, path: &str) -> Option<Stamp>
        ensures { stamps self.now path.now result };
}

impl<F: Files> PassFiles for F {
    ghost use Rattle.std.specs.Prelude.{⊤};

    ghost opens = { λ _ _ _. ⊤ };

    ghost gives = { λ _ _ _ _. ⊤ };

    ghost places = { λ _ _ _. ⊤ };

    ghost stamps = { λ _ _ _. ⊤ };

    fn open_at(&self, path: &str) -> io::Result<F::File> {
        fs::open(self, path)
    }

    fn read_in(&self, file: &mut F::File, buf: &mut [u8]) -> io::Result<usize> {
        file.read(buf)
    }

    fn place_of(&self, alloc: Global, path: &str) -> io::Result<PathBuf> {
        database_place(self, alloc, path)
    }

    fn stamp_of(&self, path: &str) -> Option<Stamp> {
        stamp_at(self, path)
    }
}
