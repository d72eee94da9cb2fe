//! Where the database at a path lies, and how the files of one are at a moment.

use crate::file_id::{FileId, id_of};
use std::alloc::Global;
use std::fs::Files;
use std::io::{ErrorKind, Read};
use std::os::unix::fs::MetadataExt;
use std::path::PathBuf;
use std::{fs, io};

/// How a regular file is at a moment: which it is, how long, and when it was last written. It can't be
/// copied: two are of two looks.
#[derive(Drop, PartialEq)]
pub struct Stamp {
    file: FileId,
    len: u64,
    seconds: i64,
    nanoseconds: i64,
}

/// How the file at a path is; nothing where none is there, or it isn't regular.
pub(crate) fn stamp_at<F: Files>(files: &F, path: &str) -> Option<Stamp> {
    match files.metadata(path) {
        Ok(found) if found.is_file() => Some(Stamp {
            file: id_of(&found),
            len: found.len(),
            seconds: found.mtime(),
            nanoseconds: found.mtime_nsec(),
        }),
        _ => None,
    }
}

// Whether what SQLite may leave beside a database is there: a journal that only SQLite can play back,
// or anything but a file. One that begins with a zero byte has nothing to play back.
fn has_hot_journal<F: Files>(files: &F, path: &str) -> io::Result<bool> {
    match files.symlink_metadata(path) {
        Ok(found) if found.is_file() => {}
        Ok(_) => return Ok(true),
        Err(error) if error.kind() == ErrorKind::NotFound => return Ok(false),
        Err(error) => return Err(error),
    }
    let mut journal = fs::open(files, path)?;
    let mut first = [0];
    Ok(journal.read(&mut first)? == 1 && first[0] != 0)
}

/// Where the database at a path lies, as the one who serves an office finds it: by a name without a
/// link. What he refuses is refused: what is no regular file, or has another name too, since a log
/// stands beside one name alone; and one beside which SQLite left a journal to play back.
pub(crate) fn database_place<F: Files>(
    files: &F,
    alloc: Global,
    path: &str,
) -> io::Result<PathBuf> {
    let real = files.canonicalize(alloc, path)?;
    let found = files.symlink_metadata(real.as_str())?;
    if !found.is_file() || found.nlink() != 1 {
        return Err(ErrorKind::Unsupported.into());
    }
    let journal = format!(in alloc; "{}-journal", real.as_str())?;
    if has_hot_journal(files, journal.as_str())? {
        return Err(ErrorKind::ResourceBusy.into());
    }
    Ok(real)
}
